//! What a job's turn is to do.

use blk_history::JobEnd;

/// What a job's turn is to do, by its row and its work.
#[derive(Clone, Copy)]
pub enum Step {
    /// It ends now, whatever is left of it.
    End(JobEnd),
    /// A block is to be read for it, and written then.
    Copy,
    /// A block is copied in the turn.
    Go,
    /// Nothing can be done for it now.
    Wait,
    /// Nothing is left of it, and it is ready from now on.
    GetReady,
    /// Nothing is left of it, and it may end so, once nothing is left of its group where it has one.
    Finish(JobEnd),
}
