//! What contracts say of a store's files and openings. No value of these types is ever made.

use crate::{DeviceCall, StoreCall};
use std::collections::LinkedList;

/// A file as a store tells it.
#[derive(Drop)]
pub struct File {
    pub name: LinkedList<u8>,
    pub bytes: LinkedList<u8>,
    /// The highest end that a write to it may have.
    pub capacity: u64,
    /// Nothing was written since its last flush.
    pub is_flushed: bool,
}

/// One opening of a file.
#[derive(Drop)]
pub struct Opened {
    pub name: LinkedList<u8>,
    /// The device's length at the opening, in bytes.
    pub size: u64,
    /// The highest end that a write to it may have. It never changes.
    pub capacity: u64,
    /// The device's count of faults at the opening.
    pub faults: u64,
    /// Its count once it was given back.
    pub returned: Option<u64>,
    /// Which call of the device failed last, at the opening, and once it was given back until then, where the device
    /// tells it.
    pub failed_call: Option<DeviceCall>,
}

/// A call of a store on a file.
#[derive(Drop)]
pub struct CallOnFile {
    pub name: LinkedList<u8>,
    pub call: StoreCall,
}
