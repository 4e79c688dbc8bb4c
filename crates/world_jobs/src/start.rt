//! What becomes of a command that starts a job.

use crate::new_job::NewJob;

/// What becomes of a command that starts a job.
pub enum Started {
    /// It is refused, with this text of its answer.
    Refused(String),
    /// It has to wait for this request.
    Later { guest: u32, request: u32 },
    /// It is accepted: this is the text of its answer, behind which the job begins.
    Begun { text: String, new: NewJob },
}
