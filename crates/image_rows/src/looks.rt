//! What a device holds and was written to.

use crate::layout::edited;
use blk_base::Device;
use blk_fakes::MemDevice;
use row_text::{Row, RowStop, Words, first_other};
use std::alloc::Global;

#[derive(Clone, Copy)]
pub(crate) enum Look {
    Bytes,
    Rest,
    Begins,
    Wrote,
    Log,
    Length,
}

pub(crate) const LOOKS: [(&str, Look); 6] = [
    ("bytes", Look::Bytes),
    ("rest", Look::Rest),
    ("begins", Look::Begins),
    ("wrote", Look::Wrote),
    ("log", Look::Log),
    ("length", Look::Length),
];

/// The bytes from a place on.
fn behind(bytes: &[u8], place: u64) -> &[u8] {
    let start = (place as usize).min(bytes.len());
    &bytes[start..]
}

/// So many bytes, or all where there aren't so many.
fn first_of(bytes: &[u8], count: u64) -> &[u8] {
    let count = (count as usize).min(bytes.len());
    &bytes[..count]
}

/// `begins EDITS`: whether the device begins with the file that is laid out, with these edits.
fn begins(
    alloc: Global,
    file: &[u8],
    came: &[u8],
    row: &Row,
    out: &mut Words,
) -> Result<(), RowStop> {
    let wanted = edited(alloc, file, row, 0)?;
    match first_other(came, wanted.as_slice()) {
        Some(place) => out.fill("other from $", &[place as u64]),
        None => out.put("yes"),
    }
    Ok(())
}

/// Puts the offset and the length of a write behind others, or with its bytes.
fn put_write(at: u64, bytes: &[u8], is_whole: bool, out: &mut Words) {
    out.part(if is_whole { ", " } else { " " }, "");
    if is_whole {
        out.fill("$: ", &[at]);
        out.bytes(bytes);
    } else {
        out.fill("$+%", &[at, bytes.len() as u64]);
    }
}

/// `wrote`: offset and length of each write since the device was made; `log`: offset and bytes of each.
fn put_log(dev: &MemDevice, is_whole: bool, out: &mut Words) -> Result<(), RowStop> {
    let Some(count) = dev.logged() else {
        return Err(RowStop::Call);
    };
    for k in 0..count {
        let (at, bytes) = dev.log_at(k);
        put_write(at, bytes, is_whole, out);
    }
    Ok(())
}

/// Puts what a row asks of a device.
pub(crate) fn answer_to(
    alloc: Global,
    file: &[u8],
    dev: &MemDevice,
    look: Look,
    row: &Row,
    out: &mut Words,
) -> Result<(), RowStop> {
    match look {
        // `bytes PLACE LENGTH`: so many from a place on
        Look::Bytes => {
            let rest = behind(dev.bytes(), row.number(0)?);
            out.bytes(first_of(rest, row.number(1)?));
        }
        // `rest PLACE`: all bytes from a place on
        Look::Rest => out.bytes(behind(dev.bytes(), row.number(0)?)),
        Look::Begins => return begins(alloc, file, dev.bytes(), row, out),
        Look::Wrote => return put_log(dev, false, out),
        Look::Log => return put_log(dev, true, out),
        Look::Length => out.number(dev.length()),
    }
    Ok(())
}
