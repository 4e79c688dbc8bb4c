//! Sets of granule numbers, as a dirty bitmap keeps them.
#![tactic(auto)]

mod dirty_set;
mod level;
mod ratio;
mod words;

pub use dirty_set::DirtySet;
pub use ratio::Ratio;
