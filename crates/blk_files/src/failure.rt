//! What the system said where it failed. No contract speaks of it.

use std::io;

/// A failure of the system: the file on which it failed, and why.
#[derive(Clone, Copy, Debug)]
pub struct Failure<'a> {
    pub name: &'a str,
    pub error: io::Error,
}
