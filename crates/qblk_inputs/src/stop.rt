//! Why inputs aren't read.

use blk_base::Text;

/// What is wrong with an input: the first of `Absent`, `TooLong` and `NotUtf8`, and then of the lines, one by one.
#[derive(Clone, Copy, Debug, PartialEq, Eq)]
pub enum InputFlaw {
    /// There is no such file.
    Absent,
    /// It isn't UTF-8.
    NotUtf8,
    /// It is longer than 64 MiB.
    TooLong,
    /// The line is none that a trace may have. No line of a script is refused so.
    BadLine,
    /// At this line there is more than a run takes: line 4,097 of a script; in a trace the 65,537th request, or one with
    /// which all traces up to it have more than 1,000,000 pieces or read more than 256 MiB.
    TooMany,
}

/// Why an input isn't read. Files and openings are as before, and so is the store's count of faults, but for `Failed`.
#[derive(Debug, Drop)]
pub enum InputStop {
    /// This file is refused. Lines are numbered from 1. Line 0 speaks of the whole file, and comes with `Absent`,
    /// `NotUtf8` and `TooLong`.
    Refused {
        name: Text,
        line: u32,
        why: InputFlaw,
    },
    /// A call of the store failed; its count of faults afterwards.
    Failed {
        count: u64,
    },
    /// Memory was asked for and not had, be it for the name of a file that is refused.
    NoMemory,
}
