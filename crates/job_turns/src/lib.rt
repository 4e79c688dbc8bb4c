//! What the turn of a block job is to do.
#![tactic(auto)]

mod step;
mod turns;

pub use step::Step;
pub use turns::{must_drain, step_of};
