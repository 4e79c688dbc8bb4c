//! Where faults come from, and the outcomes of pieces.

/// The number of an opening of a run, counted from 0: which device.
#[derive(Clone, Copy, Debug, PartialEq, Eq, PartialOrd, Ord)]
pub struct DevNo(pub u32);

/// Why a call over one device stopped.
#[derive(Clone, Copy, Debug, PartialEq, Eq)]
pub enum DevStop {
    /// A call of the device failed; its count of faults afterwards.
    Io { count: u64 },
    /// A write would have ended above the device's capacity.
    NoSpace,
}

/// A `DevStop` with the device that it speaks of.
#[derive(Clone, Copy, Debug, PartialEq, Eq)]
pub enum Fault {
    Io { dev: DevNo, count: u64 },
    NoSpace { dev: DevNo },
}

/// How a piece of a request went.
#[derive(Clone, Copy, Debug, PartialEq, Eq)]
pub enum Outcome {
    /// All of it was done.
    Good,
    /// Its first `done` bytes were written, and neither none nor all.
    Torn { done: u64, dev: DevNo, count: u64 },
    /// No byte of the disk changed: a call of the device failed.
    Io { dev: DevNo, count: u64 },
    /// No byte of the disk changed: a write would have ended above the device's capacity.
    NoSpace { dev: DevNo },
}

impl Outcome {
    ghost use Rattle.std.specs.Prelude.{◌≡◌};
    ghost use Rattle.blk_base.specs.Outcomes.{is_good};

    /// All of the piece was done.
    pub fn is_good(self) -> bool
        ensures { result ≡ is_good self }
    {
        matches!(self, Outcome::Good)
    }
}

/// Whose count of faults rose.
#[derive(Clone, Copy, Debug, PartialEq, Eq)]
pub enum FaultFrom {
    Store,
    Dev(DevNo),
    Sink,
}

/// A fault: whose, and that count afterwards.
#[derive(Clone, Copy, Debug, PartialEq, Eq)]
pub struct FaultAt {
    pub from: FaultFrom,
    pub count: u64,
}
