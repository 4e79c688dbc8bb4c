//! Pieces of guests' requests in a run's world: each is made on its node, and noted in the bitmaps of what it was written through.
#![tactic(auto)]

mod buffer;
mod recording;
mod transfer;

pub use buffer::Buffer;
pub use recording::{next_written, note_written, noted_part};
