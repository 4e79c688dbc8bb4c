//! What comes of a command, before its reply stands in the history.

/// What came of a command.
#[derive(Drop)]
pub enum Carried {
    /// It was carried out or refused, and this is the text of the answer.
    Said(String),
    /// It has to come again, since this request is in flight on a disk that it must drain.
    Later { guest: u32, request: u32 },
}
