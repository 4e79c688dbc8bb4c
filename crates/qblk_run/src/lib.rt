//! The program's call, `qblk`: one trace on one image, by `qblk_core`; or a script and the traces of guests on one thread, as the
//! rounds of its actors over a world, with the transcript, and how it ended.
#![tactic(auto)]

mod events;
mod guest_turn;
mod laws;
mod output;
mod preparing;
mod program;
mod rounds;
mod run;
mod script_turn;
mod session;
mod slot_turn;
mod stuck;
mod task;
mod transcript;

pub use laws::{
    good_inputs_are_taken, runs_fall_into_events, runs_that_await_nothing_are_whole,
    runs_with_space_are_good, runs_without_a_rise_name_no_fault,
};
pub use program::qblk;
pub use run::run_script;
