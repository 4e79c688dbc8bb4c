//! The calls of the program, on any store and any sink: a trace run on an image, the transcript, how a run ended.
#![tactic(auto)]

mod closing;
mod engine;
mod flight;
mod input;
mod laws;
mod opening;
mod output;
mod requests;
mod run;
mod session;
mod status;
mod transfer;

pub use laws::{
    runs_in_turn_have_one_history, runs_on_good_images_are_done, runs_on_images_have_one_history,
    runs_with_space_are_good,
};
pub use output::{CHUNK, send_transcript};
pub use qblk_words::Format;
pub use run::{qblk, run_io};
pub use status::{InputWhy, Status};
