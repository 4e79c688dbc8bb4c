//! How a run of the program ended.
ghost use Rattle.std.specs.Prelude.{◌≡◌};
ghost use Rattle.qblk_core.specs.Exit.{exit_of};

use blk_base::{FaultFrom, Text};
use q2_image::ImageStop;
use std::fmt;
use trace_codec::Waits;

/// Why an input is refused.
#[derive(Clone, Copy, Debug, PartialEq, Eq)]
pub enum InputWhy {
    /// There is no such file.
    Absent,
    /// A script or a trace isn't UTF-8.
    NotUtf8,
    /// A script or a trace is longer than 64 MiB.
    TooLong,
    /// The line is none that a trace may have.
    BadLine,
    /// At this line a script has more lines, or a trace asks for more, than a run takes.
    TooMany,
    /// A raw image is larger than 256 GiB.
    TooLarge,
    /// A qcow2 image names a backing file.
    NeedsBacking,
    /// A qcow2 image is refused.
    Image(ImageStop),
}

/// How a run ended.
#[derive(Debug, Drop)]
pub enum Status {
    /// Script and traces were carried out whole, the files of the nodes that are there are flushed, and the transcript is out.
    Done,
    /// The words are of no form. Nothing was done.
    Usage,
    /// A file was refused, at this line; line 0 speaks of the whole file. Nothing was written.
    Input {
        name: Text,
        line: u32,
        why: InputWhy,
    },
    /// The first fault that no entry tells, and its count afterwards: of the store, at an input or at the image of `io`; of a
    /// device, where `io` opened an image or in the last flush; of the sink.
    Fault {
        from: FaultFrom,
        count: u64,
    },
    /// Each actor that isn't done can go no further: the first of them, and what it waits for. The script is actor 0, and guest
    /// g is actor g + 1. The transcript so far is out.
    Stuck {
        actor: u32,
        waits: Waits,
    },
    /// Want of memory. Nothing was put to the sink, and by `io` nothing written; of a run of a script, what was done so far
    /// stays.
    NoMemory,
}

impl Status {
    /// The number that the process ends with.
    pub fn exit(&self) -> u8
        ensures { result ≡ exit_of self.now }
    {
        match self {
            Status::Done => 0,
            Status::Usage => 1,
            Status::Input { .. } => 2,
            Status::Fault { .. } => 3,
            Status::Stuck { .. } => 4,
            Status::NoMemory => 5,
        }
    }
}

impl fmt::Display for InputWhy {
    ghost use Rattle.std.specs.Prelude.{Some};
    ghost use Rattle.qblk_core.specs.StatusText.{why_text};

    ghost output = { λ why. Some (why_text why) };

    fn fmt<W: fmt::Write>(&self, f: &mut fmt::Formatter<W>) -> fmt::Result {
        match self {
            InputWhy::Absent => f.write_str("Absent"),
            InputWhy::NotUtf8 => f.write_str("NotUtf8"),
            InputWhy::TooLong => f.write_str("TooLong"),
            InputWhy::BadLine => f.write_str("BadLine"),
            InputWhy::TooMany => f.write_str("TooMany"),
            InputWhy::TooLarge => f.write_str("TooLarge"),
            InputWhy::NeedsBacking => f.write_str("NeedsBacking"),
            InputWhy::Image(stop) => write!(f, "Image({stop})"),
        }
    }
}

/// The text of the status, for standard error. `Done` has none.
impl fmt::Display for Status {
    ghost use Rattle.std.specs.Prelude.{Some};
    ghost use Rattle.qblk_core.specs.StatusText.{status_text};

    ghost output = { λ status. Some (status_text status) };

    fn fmt<W: fmt::Write>(&self, f: &mut fmt::Formatter<W>) -> fmt::Result {
        match self {
            Status::Done => Ok(()),
            Status::Usage => f.write_str(
                "usage: qblk io FORMAT IMAGE TRACE | run WORKERS SCRIPT GUEST=TRACE .. | load NUMBER WORKERS",
            ),
            Status::Input { name, line, why } => {
                let name = name.as_str();
                write!(f, "input {name} line {line}: {why}")
            }
            Status::Fault { from, count } => match from {
                FaultFrom::Store => write!(f, "fault store {count}"),
                FaultFrom::Dev(dev) => {
                    let dev = dev.0;
                    write!(f, "fault dev{dev} {count}")
                }
                FaultFrom::Sink => write!(f, "fault sink {count}"),
            },
            Status::Stuck { actor, .. } => write!(f, "stuck: actor {actor} waits"),
            Status::NoMemory => f.write_str("out of memory"),
        }
    }
}
