//! Tests of the devices, the stores and the sink in memory, through public calls alone. They stand here and not in the crate
//! that they test, which would be proved once more with them.
#![tactic(auto)]

#[cfg(test)]
mod fakes;
#[cfg(test)]
mod logs;
