//! Devices in memory.

use blk_fakes::{FailAt, MemDevice};
use row_text::RowStop;
use std::alloc::Global;

/// No device has a larger capacity.
const LARGEST: u64 = 1_073_741_824;

/// The writes that the log of a device has room for.
const LOG_WRITES: u64 = 16;

/// The bytes that it has room for.
const LOG_BYTES: u64 = 1_048_576;

/// A device of these bytes, whose capacity is no less than their number, and of which these calls fail.
pub(crate) fn device(
    alloc: Global,
    bytes: &[u8],
    capacity: u64,
    fails: &[FailAt],
) -> Result<MemDevice, RowStop> {
    if capacity > LARGEST {
        return Err(RowStop::Number);
    }
    let capacity = capacity.max(bytes.len() as u64);
    Ok(MemDevice::new(alloc, bytes, capacity, fails, LOG_WRITES, LOG_BYTES)?)
}
