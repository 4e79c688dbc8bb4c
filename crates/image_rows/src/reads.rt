//! Reads that fail while an image is opened.

use crate::device::device;
use crate::layout::edited;
use blk_base::Device;
use blk_fakes::{FailAt, MemDevice};
use q2_image::open_image;
use row_text::{Row, RowStop, Words, same};
use std::alloc::Global;

/// Puts why the image on a device isn't opened, or `ok`.
fn put_told(alloc: Global, dev: &mut MemDevice, out: &mut Words) {
    match open_image(alloc, dev) {
        Ok(_) => out.put("ok"),
        Err(stop) => out.show(&stop),
    }
}

/// Whether nothing was written to a device, and its next call fails.
fn was_read(dev: &mut MemDevice) -> bool {
    let is_unwritten = dev.logged() == Some(0);
    is_unwritten && dev.read_at(0, &mut [0]).is_err()
}

/// Opens an image, of whose reads one fails, and puts what was told. It is `other reads` where not so many reads were made, or
/// something was written.
fn put_told_at(
    alloc: Global,
    bytes: &[u8],
    call: u64,
    reads: u64,
    out: &mut Words,
) -> Result<(), RowStop> {
    let made = FailAt {
        call: call.saturating_add(1).min(reads),
        done: 0,
    };
    let fails = [FailAt { call, done: 0 }, made];
    let mut dev = device(alloc, bytes, 0, &fails)?;
    let mut told = Words::new(alloc);
    put_told(alloc, &mut dev, &mut told);
    out.put(if was_read(&mut dev) {
        told.as_str()
    } else {
        "other reads"
    });
    Ok(())
}

/// `reads COUNT EDITS`: opens the image of the file with these edits, where an opening has so many reads. It tells this, and
/// where one of them fails, that, and then reads no more. Else it is the first of these that isn't so.
pub(crate) fn reads(alloc: Global, file: &[u8], row: &Row, out: &mut Words) -> Result<(), RowStop> {
    let bytes = edited(alloc, file, row, 1)?;
    let count = u64::from(row.short(0)?);
    for call in 0..count {
        let mut told = Words::new(alloc);
        put_told_at(alloc, bytes.as_slice(), call, count, &mut told)?;
        if !same(told.as_str(), "Io(1)") {
            out.put(told.as_str());
            out.fill(" where read % fails", &[call]);
            return Ok(());
        }
    }
    put_told_at(alloc, bytes.as_slice(), count, count, out)
}
