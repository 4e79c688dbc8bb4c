//! Lines of a run's script: as they are read, what answers those that are no commands, and what an answered line leaves of the world.
#![tactic(auto)]

mod line;

pub use line::{LineRead, read_line, stopped_text};
