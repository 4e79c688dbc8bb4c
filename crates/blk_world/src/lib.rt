//! The world of a run: a store's files and the nodes over them, the table of names, the guests' requests, and the history
//! of all that happened. Each call is one event.
#![tactic(auto)]

mod world;

pub use world::World;
pub use world_jobs::Turned;
pub use world_parts::{Admission, Executed};
