//! The history of a run: its entries, the flat machine that they are judged by, and the transcript.
#![tactic(auto)]

mod asked;
mod entry;
mod event;
mod history;
mod laws;
mod line;
mod rows;
mod telling;

pub use asked::{Awaited, KeptRequest, Understood};
pub use entry::{Cause, Entry, JobEnd, Refused};
pub use event::Event;
pub use history::History;
pub use laws::one_guest_has_one_history;
pub use rows::{JobName, Rows};
