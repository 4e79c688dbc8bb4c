//! What is copied for the jobs of a world: each step of it is an event of the world.
#![tactic(auto)]

mod laws;
