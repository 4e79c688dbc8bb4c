//! What block jobs copy: blocks of their nodes, by the work that they keep.
#![tactic(auto)]

mod guarding;
mod passing;
mod settling;
mod taking;

pub use guarding::guard;
pub use passing::{commit_next, stream_next};
pub use settling::settle;
pub use taking::take;
