//! The turn under which every event is made: a ticket lock whose passes know the history of the value under it.
//!
//! Who holds a pass may take the turn, and then has the value until it is put back. A pass carries what it has seen of the history, which of it is its own, a share of the value's spare room, and actors, whose entries no other pass makes. It can be split, so that a part goes to another thread, and joined again.
#![tactic(auto)]

mod birth;
mod known;
mod logged;
mod order;
mod pass;
mod plays;
mod turns;

pub use known::{Stamped, View};
pub use logged::Logged;
pub use pass::Pass;
pub use turns::{Turn, Turns};
