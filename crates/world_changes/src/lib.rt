//! Commands that change table, edges and bitmaps of a run's world, and no nodes: devices of guests, snapshots, bitmaps, and what needs
//! the table alone.
#![tactic(auto)]

mod bitmaps;
mod changing;
mod counting;
mod draining;
mod telling;

pub use changing::carry_changes;
pub use counting::answer_counts;
