//! Files of a run's world that commands make, and those that are given back: creations, deletions, and the end.
#![tactic(auto)]

mod closing;
mod creating;
mod deleting;
mod failed_text;
mod making;

pub use closing::give_all_back;
pub use deleting::delete;
pub use making::make;
