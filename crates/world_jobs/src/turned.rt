//! What a job's turn is to do, and what it did.

use blk_history::JobEnd;

/// What the turn of a backup or a mirror is to do.
#[derive(Clone, Copy)]
pub enum Turn {
    /// It ends so, whatever is left of it.
    End(JobEnd),
    /// Nothing is left of it, and it ends so.
    Finish(JobEnd),
    /// Nothing is left of it, and it is ready from now on.
    GetReady,
    /// A block is to be read for it, and written then.
    Copy,
    /// A copy in flight is to be settled first, or it is ready and not asked to end.
    Wait,
}

/// What a turn of a job did.
#[derive(Clone, Copy, Debug, PartialEq, Eq)]
pub enum Turned {
    /// There is no job in the slot.
    Empty,
    /// Nothing: a block is to be read for the job, and written then.
    Copy,
    /// Nothing: a copy in flight is to be settled first, or the job is ready and not asked to end.
    Idle,
    /// Nothing: the job is asked to end, and this request is in flight on its disk.
    Later { guest: u32, request: u32 },
    /// The job is ready now, or it ended.
    Became,
}
