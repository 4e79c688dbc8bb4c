//! What becomes of a line of the script.

/// What became of a line of the script.
#[derive(Clone, Copy, Debug, PartialEq, Eq)]
pub enum Executed {
    /// Its reply stands in the history.
    Replied,
    /// It has to come again: this request of this guest is in flight on a disk that the command must drain. Until a line is
    /// answered no request is admitted of the guests of these disks.
    Later { guest: u32, request: u32 },
}
