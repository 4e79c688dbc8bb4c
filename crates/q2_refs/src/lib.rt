//! The refcounts of a qcow2 image: read into memory, looked up, and clusters that nothing uses.
#![tactic(auto)]

mod allocating;
mod entries;
mod loading;
mod refs;
mod stop;
mod writing;

pub use allocating::RefStop;
pub use loading::{load_counts, load_table};
pub use refs::Refs;
pub use stop::RefsStop;
