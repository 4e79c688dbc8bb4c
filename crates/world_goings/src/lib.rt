//! What jobs do to a world that comes of an opening, while they copy and end.
#![tactic(auto)]

mod laws;
