//! What rows ask of the last run.

use crate::file::{RunFile, file_of};
use crate::runner::Ran;
use crate::told::put_same;
use blk_fakes::MemDevice;
use row_text::{Row, RowStop, Words};
use std::alloc::Global;

#[derive(Clone, Copy)]
pub(crate) enum Ask {
    Status,
    Left,
    Size,
    Holds,
    Writes,
}

pub(crate) const ASKS: [(&str, Ask); 5] = [
    ("status", Ask::Status),
    ("left", Ask::Left),
    ("size", Ask::Size),
    ("holds", Ask::Holds),
    ("writes", Ask::Writes),
];

/// The device of a file as a run left it.
fn device_of<'a>(ran: &'a Ran, name: &str) -> Result<&'a MemDevice, RowStop> {
    match ran.store.file(name) {
        Some(dev) => Ok(dev),
        None => Err(RowStop::Word),
    }
}

/// The bytes of a file as a run left it.
pub(crate) fn left<'a>(ran: &'a Ran, name: &str) -> Result<&'a [u8], RowStop> {
    Ok(device_of(ran, name)?.bytes())
}

/// Puts where the writes of a device were, and how long: `0x20008 2, 0x30000 8`.
fn put_writes(out: &mut Words, dev: &MemDevice) {
    let Some(count) = dev.logged() else {
        return out.put("too many");
    };
    for k in 0..count {
        let (at, bytes) = dev.log_at(k);
        out.put(if k == 0 { "" } else { ", " });
        out.fill("$ %", &[at, bytes.len() as u64]);
    }
}

/// `left FILE NAME`: whether a file has the bytes that were kept by that name.
fn put_left(ran: &Ran, kept: &[RunFile], row: &Row, out: &mut Words) -> Result<(), RowStop> {
    let came = left(ran, row.word(0)?)?;
    let kept = file_of(kept, row.word(1)?)?;
    put_same(out, came, kept.bytes.as_slice());
    Ok(())
}

/// `holds FILE PLACE BYTES`: whether a file has these bytes from a place on.
fn put_holds(alloc: Global, ran: &Ran, row: &Row, out: &mut Words) -> Result<(), RowStop> {
    let came = left(ran, row.word(0)?)?;
    let at = row.short(1)? as usize;
    let bytes = row.bytes(alloc, 2)?;
    match came.get(at..at.saturating_add(bytes.len())) {
        Some(part) => put_same(out, part, bytes.as_slice()),
        None => out.put("it ends before"),
    }
    Ok(())
}

/// Puts what is asked of a run.
pub(crate) fn answer(
    alloc: Global,
    ran: &Ran,
    kept: &[RunFile],
    what: Ask,
    row: &Row,
    out: &mut Words,
) -> Result<(), RowStop> {
    match what {
        // `status`: what the status of the run is, with its fields
        Ask::Status => out.put(ran.variant.as_str()),
        Ask::Left => return put_left(ran, kept, row, out),
        // `size FILE`: how long a file is
        Ask::Size => out.number(left(ran, row.word(0)?)?.len() as u64),
        Ask::Holds => return put_holds(alloc, ran, row, out),
        // `writes FILE`: where the writes of its device were, and how long
        Ask::Writes => put_writes(out, device_of(ran, row.word(0)?)?),
    }
    Ok(())
}
