//! What streams and commits leave of what the nodes read as, step by step.
#![tactic(auto)]

mod commits;
mod streams;
