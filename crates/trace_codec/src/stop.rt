//! Why a trace is refused.

ghost use Rattle.std.specs.Prelude.{◌≡◌};
ghost use Rattle.trace_codec.specs.declared.stop.TraceStop.TheVariants.{NoMemory};

use std::alloc::{AllocError, AllocFailed};
use std::error::Error;
use std::fmt;

/// Why a trace is refused: the first cause, line by line. Lines are numbered from 1.
#[derive(Clone, Copy, Debug, PartialEq, Eq)]
pub enum TraceStop {
    /// This line is none that a trace may have.
    BadLine(u32),
    /// At this line the trace has more requests, or all traces together have more pieces or bytes to read, than
    /// a run takes.
    TooMany(u32),
    /// Memory was asked for and not had.
    NoMemory,
}

impl fmt::Display for TraceStop {
    ghost use Rattle.std.specs.Prelude.{Some};
    ghost use Rattle.trace_codec.specs.Stop.{trace_stop_text};

    ghost output = { λ stop. Some (trace_stop_text stop) };

    fn fmt<W: fmt::Write>(&self, f: &mut fmt::Formatter<W>) -> fmt::Result {
        match self {
            TraceStop::BadLine(line) => write!(f, "BadLine({line})"),
            TraceStop::TooMany(line) => write!(f, "TooMany({line})"),
            TraceStop::NoMemory => f.write_str("NoMemory"),
        }
    }
}

impl Error for TraceStop {}

impl From<AllocError> for TraceStop {
    ghost from_gives = { λ _ stop. stop ≡ NoMemory };

    fn from(_: AllocError) -> Self {
        TraceStop::NoMemory
    }
}

impl<T: Drop> From<AllocFailed<T>> for TraceStop {
    ghost from_gives = { λ _ stop. stop ≡ NoMemory };

    fn from(_: AllocFailed<T>) -> Self {
        TraceStop::NoMemory
    }
}
