//! The parts of a run's world: the store of which a run counts its own openings, the guests' requests and the drains that hold
//! them, the texts of answers; what commands and pieces leave of them, and the lemmas that several subjects need.
#![tactic(auto)]

mod admission;
mod answering;
mod carried;
mod drained;
mod entries;
mod executed;
mod handling;
mod in_the_way;
mod progress;
mod row;
mod run_store;

pub use admission::{Admission, refusal_of, seat_of};
pub use answering::{accepted_text, given_text, refused_text};
pub use carried::Carried;
pub use drained::{Drained, is_held};
pub use executed::Executed;
pub use handling::refused;
pub use in_the_way::{InTheWay, first_in_the_way};
pub use progress::Progress;
pub use run_store::RunStore;
