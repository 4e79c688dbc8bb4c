//! What a run begins with, as contracts say it.

use blk_base::File;
use std::collections::LinkedList;

/// The beginning of a run. No value of this type is ever made.
#[derive(Drop)]
pub struct Opening {
    /// The files of the store.
    pub files: LinkedList<File>,
    /// The capacity of files that are made.
    pub room: u64,
    /// The names of the guests, by number.
    pub guests: LinkedList<LinkedList<u8>>,
}
