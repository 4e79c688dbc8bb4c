//! What jobs leave of disks: the start that an end belongs to, and the disk that a finished copy shows.
#![tactic(auto)]

mod laws;
