//! Why a line is refused.

ghost use Rattle.std.specs.Prelude.{◌≡◌};
ghost use Rattle.qmp_codec.specs.declared.stop.CodecStop.TheVariants.{NoMemory};

use std::alloc::AllocError;
use std::error::Error;
use std::fmt;

/// Why a line is no command: the first of these that holds. Of several members the first in the order of the tables is
/// named, for `Unexpected` the least name.
#[derive(Debug, Drop)]
pub enum CodecStop<N = String> {
    /// The line is no JSON object with a text `execute`.
    BadJson,
    /// No command has this name.
    UnknownCommand(N),
    /// This member is needed and absent.
    Missing(N),
    /// No table accepts this member where it stands.
    Unexpected(N),
    /// The value of this member is of another kind.
    BadType(N),
    /// Memory was asked for and not had.
    NoMemory,
}

impl fmt::Display for CodecStop {
    ghost use Rattle.std.specs.Prelude.{Some};
    ghost use Rattle.qmp_codec.specs.Stops.{codec_stop_text};

    ghost output = { λ stop. Some (codec_stop_text stop) };

    fn fmt<W: fmt::Write>(&self, f: &mut fmt::Formatter<W>) -> fmt::Result {
        match self {
            CodecStop::BadJson => f.write_str("BadJson"),
            CodecStop::UnknownCommand(name) => write!(f, "UnknownCommand({name})"),
            CodecStop::Missing(name) => write!(f, "Missing({name})"),
            CodecStop::Unexpected(name) => write!(f, "Unexpected({name})"),
            CodecStop::BadType(name) => write!(f, "BadType({name})"),
            CodecStop::NoMemory => f.write_str("NoMemory"),
        }
    }
}

impl Error for CodecStop {}

impl From<AllocError> for CodecStop {
    ghost from_gives = { λ _ stop. stop ≡ NoMemory };

    fn from(_: AllocError) -> Self {
        CodecStop::NoMemory
    }
}
