//! The inputs of a run: a script, and a trace for each guest.
#![tactic(auto)]

mod inputs;
mod room;
mod stop;

pub use inputs::{Inputs, MAX_TEXT, read_inputs};
pub use room::room_for;
pub use stop::{InputFlaw, InputStop};
