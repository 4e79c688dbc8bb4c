//! Blocks of a disk that are copied from one node to another, and which nodes of a chain have bytes of their own.
#![tactic(auto)]

mod between;
mod copying;
mod laws;
mod putting;
mod reading;
mod sectors;

pub use between::{held_below, held_between};
pub use copying::{answer_of, copy_block};
pub use laws::{chain_shows_base, runs_are_those_asked, top_over_base_alone};
pub use putting::put_sectors;
pub use reading::read_block;
