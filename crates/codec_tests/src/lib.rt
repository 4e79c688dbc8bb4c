//! Tests of the transcript. They go through public calls alone, and stand here and not in the crate that they test, which would
//! be proved once more with them.
#![tactic(auto)]

#[cfg(test)]
mod transcript;
