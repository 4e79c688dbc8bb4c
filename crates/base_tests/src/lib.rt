//! Tests of the crates at the bottom, through public calls alone. They stand here and not in the crates that they test, each of
//! which would be proved once more with them.
#![tactic(auto)]

#[cfg(test)]
mod texts;
#[cfg(test)]
mod transfers;
