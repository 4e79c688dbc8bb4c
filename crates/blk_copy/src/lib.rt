//! Copies of clusters that jobs have in flight.
#![tactic(auto)]

mod transfers;

pub use transfers::{Transfer, Transfers};
