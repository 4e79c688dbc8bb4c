//! A stage for rows on runs: files in memory, a script with its answers, calls that fail, and what has to come of a run. What
//! runs is for the program that plays the rows.
//!
//! Each row is one line. First those that say what is there, from `new` on: files, calls that fail, lines of the script with
//! their answers, and what else the transcript has, all in the order of the transcript. Then the words of the run, whose
//! answer is `ok` or a number and a text; and what is then in files.
#![tactic(auto)]

mod acts;
mod asked;
mod block;
mod file;
mod runner;
mod scene;
mod script;
mod stage;
mod store;
mod told;

pub use runner::{Ran, Runner};
pub use stage::Stage;
