//! What streams and commits keep up while they run, and what their ends rest on.
#![tactic(auto)]

mod aside;
mod headers;
mod lent;
mod sizes;
