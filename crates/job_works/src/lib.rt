//! The works of a run's jobs: what is kept of the copying of each, and its copies by the nodes.
#![tactic(auto)]

mod works;

pub use works::Works;
