//! A small value under the lock, and actors that use it from threads.
#![tactic(auto)]

mod calls;
mod register;
#[cfg(test)]
mod tests;

pub use calls::{exchange, open, play, run_actors};
pub use register::{InitialValue, Register, RegisterWrite};
