//! Runs of equal bytes as text.

use blk_base::Text;
use blk_runs::{RunsStop, is_zero, push_runs, read_runs};
use row_text::{Row, RowStop, Words};
use std::alloc::Global;
use std::str;

/// `is-zero BYTES`.
pub(crate) fn zero(alloc: Global, row: &Row, out: &mut Words) -> Result<(), RowStop> {
    let bytes = row.bytes(alloc, 0)?;
    out.yes_or_no(is_zero(bytes.as_slice()));
    Ok(())
}

/// Puts the runs of the bytes from a place on behind a word.
fn put(alloc: Global, word: &str, row: &Row, place: usize, out: &mut Words) -> Result<(), RowStop> {
    let bytes = row.bytes(alloc, place)?;
    let mut text = Text::copied(alloc, word)?;
    push_runs(&mut text, bytes.as_slice())?;
    out.put(text.as_str());
    Ok(())
}

/// `runs BYTES`.
pub(crate) fn runs(alloc: Global, row: &Row, out: &mut Words) -> Result<(), RowStop> {
    put(alloc, "", row, 0, out)
}

/// `runs-behind WORD BYTES`: behind the word.
pub(crate) fn behind(alloc: Global, row: &Row, out: &mut Words) -> Result<(), RowStop> {
    put(alloc, row.word(0)?, row, 1, out)
}

/// What is read of a text.
fn read(alloc: Global, text: &str, out: &mut Words) -> Result<(), RowStop> {
    match read_runs(alloc, text) {
        Ok(bytes) => out.bytes(bytes.as_slice()),
        Err(RunsStop::BadRun) => out.put("BadRun"),
        Err(RunsStop::NoMemory) => return Err(RowStop::NoMemory),
    }
    Ok(())
}

/// `read-runs TEXT`: the bytes that a text in quotation marks says.
pub(crate) fn read_back(alloc: Global, row: &Row, out: &mut Words) -> Result<(), RowStop> {
    let bytes = row.bytes(alloc, 0)?;
    match str::from_utf8(bytes.as_slice()) {
        Ok(text) => read(alloc, text, out),
        Err(_) => Err(RowStop::Bytes),
    }
}
