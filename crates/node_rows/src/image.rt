//! New images.

use blk_fakes::MemDevice;
use q2_image::create_image;
use row_text::RowStop;
use std::alloc::Global;

/// The bytes of an image that maps nothing.
const LENGTH: u64 = 262_144;

/// No disk is larger.
const LARGEST: u64 = 1_073_741_824;

/// The bytes of an image of a disk of so many bytes that maps nothing. No disk is larger than 1 GiB.
pub(crate) fn empty_image(alloc: Global, size: u64) -> Result<Vec<u8>, RowStop> {
    if size > LARGEST {
        return Err(RowStop::Number);
    }
    let mut dev = MemDevice::new(alloc, &[], LENGTH, &[], 0, 0)?;
    match create_image(alloc, &mut dev, size, None, None) {
        Ok(()) => Ok(Vec::from_slice(alloc, dev.bytes())?),
        Err(_) => Err(RowStop::NoMemory),
    }
}
