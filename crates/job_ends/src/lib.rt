//! What backups and mirrors keep up while they run, and what their ends leave.
#![tactic(auto)]

mod laws;
