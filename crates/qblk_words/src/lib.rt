//! The words of the program, read with `clap`.
#![tactic(auto)]

mod command;
mod players;
mod reading;
mod words;

pub use players::player_of;
pub use reading::read_words;
pub use words::{Form, Format, IoWords, RunWords, WordsStop};
