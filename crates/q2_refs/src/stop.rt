//! Why refcounts can't be read.

use std::alloc::AllocError;
use std::fmt;
use thiserror::Error;

/// Why an image's refcounts were not read.
#[derive(Clone, Copy, Debug, PartialEq, Eq, Error)]
pub enum RefsStop {
    /// The refcount table has no cluster, or the table or one of its blocks has this offset, which isn't a
    /// multiple of the cluster size or isn't below the file's length.
    Offset(u64),
    /// A reserved bit of this entry of the refcount table is set.
    Reserved { index: u64 },
    /// A read failed; the device's count of faults afterwards.
    Io { count: u64 },
    /// Memory was asked for and not had.
    NoMemory,
}

impl fmt::Display for RefsStop {
    ghost use Rattle.std.specs.Prelude.{Some};
    ghost use Rattle.q2_refs.specs.Text.{refs_stop_text};

    ghost output = { λ stop. Some (refs_stop_text stop) };

    fn fmt<W: fmt::Write>(&self, f: &mut fmt::Formatter<W>) -> fmt::Result {
        match self {
            RefsStop::Offset(at) => write!(f, "Offset({at})"),
            RefsStop::Reserved { index } => write!(f, "Reserved({index})"),
            RefsStop::Io { count } => write!(f, "Io({count})"),
            RefsStop::NoMemory => f.write_str("NoMemory"),
        }
    }
}

impl From<AllocError> for RefsStop {
    ghost use Rattle.std.specs.Prelude.{◌≡◌};
    ghost use Rattle.q2_refs.specs.declared.stop.RefsStop.TheVariants.{NoMemory};

    ghost from_gives = { λ _ stop. stop ≡ NoMemory };

    fn from(_: AllocError) -> Self {
        RefsStop::NoMemory
    }
}
