//! Additions to a run's world: the files and images that `blockdev-add` looks at are opened, its nodes are added over them, and what
//! isn't used is given back.
#![tactic(auto)]

mod joining;
mod looking;
mod opening;
mod staging;
mod telling;

pub use staging::add_by;
