//! Why an image isn't opened.

use blk_base::NoMemory;
use q2_format::HeaderStop;
use std::alloc::AllocError;
use std::fmt;
use thiserror::Error;

/// Why an image isn't opened: the first cause in the order in which they stand here. `Io` and `NoMemory` come in place
/// of each that isn't judged by then: `open_image` says which are read and judged together. The file is as before.
#[derive(Clone, Copy, Debug, PartialEq, Eq, Error)]
pub enum ImageStop {
    /// The header is refused.
    Header(HeaderStop),
    /// This offset of a table, a refcount block or a host cluster isn't a multiple of the cluster size or isn't
    /// below the file's length; or the table that it names is too small.
    Offset(u64),
    /// A reserved bit is set in an entry: the byte offset of its table, and its index there.
    Reserved { table: u64, index: u64 },
    /// This guest cluster is compressed, and none below it.
    Compressed(u64),
    /// This cluster of the file is named twice, and none below it.
    Overlap(u64),
    /// This cluster of the file is named and has refcount 0, and none below it.
    Refcount(u64),
    /// The header has no room for another backing name.
    HeaderFull,
    /// A read of the device failed; its count of faults afterwards.
    Io { count: u64 },
    /// Memory was asked for and not had.
    NoMemory,
}

impl fmt::Display for ImageStop {
    ghost use Rattle.std.specs.Prelude.{Some};
    ghost use Rattle.q2_image.specs.Text.{image_stop_text};

    ghost output = { λ stop. Some (image_stop_text stop) };

    fn fmt<W: fmt::Write>(&self, f: &mut fmt::Formatter<W>) -> fmt::Result {
        match self {
            ImageStop::Header(stop) => write!(f, "{stop}"),
            ImageStop::Offset(offset) => write!(f, "Offset({offset})"),
            ImageStop::Reserved { table, index } => write!(f, "Reserved({table}, {index})"),
            ImageStop::Compressed(cluster) => write!(f, "Compressed({cluster})"),
            ImageStop::Overlap(cluster) => write!(f, "Overlap({cluster})"),
            ImageStop::Refcount(cluster) => write!(f, "Refcount({cluster})"),
            ImageStop::HeaderFull => f.write_str("HeaderFull"),
            ImageStop::Io { count } => write!(f, "Io({count})"),
            ImageStop::NoMemory => f.write_str("NoMemory"),
        }
    }
}

impl From<NoMemory> for ImageStop {
    ghost use Rattle.std.specs.Prelude.{◌≡◌};
    ghost use Rattle.q2_image.specs.declared.stop.ImageStop.TheVariants as stops;

    ghost from_gives = { λ _ stop. stop ≡ stops.NoMemory };

    fn from(_: NoMemory) -> Self {
        ImageStop::NoMemory
    }
}

impl From<AllocError> for ImageStop {
    ghost use Rattle.std.specs.Prelude.{◌≡◌};
    ghost use Rattle.q2_image.specs.declared.stop.ImageStop.TheVariants as stops;

    ghost from_gives = { λ _ stop. stop ≡ stops.NoMemory };

    fn from(_: AllocError) -> Self {
        ImageStop::NoMemory
    }
}
