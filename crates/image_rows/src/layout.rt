//! Files as rows lay them out. An edit is a word, `PLACE:BYTES`; bytes have no space in them.

use row_text::{Row, RowStop, cut, read_bytes, read_number, same};
use std::alloc::Global;

/// Puts bytes at a place, as far as there is room.
fn overwrite(bytes: &mut [u8], place: usize, edit: &[u8]) {
    for k in 0..edit.len() {
        if let Some(to) = bytes.get_mut(place.saturating_add(k)) {
            *to = edit[k];
        }
    }
}

/// Makes an edit.
fn put_word(alloc: Global, bytes: &mut [u8], word: &str) -> Result<(), RowStop> {
    let (place, edit) = cut(word, ":");
    let Some(place) = read_number(place) else {
        return Err(RowStop::Number);
    };
    let Some(edit) = read_bytes(alloc, edit)? else {
        return Err(RowStop::Bytes);
    };
    overwrite(bytes, place as usize, edit.as_slice());
    Ok(())
}

/// Makes the edits that stand behind so many words.
pub(crate) fn put_words(
    alloc: Global,
    bytes: &mut [u8],
    row: &Row,
    first: usize,
) -> Result<(), RowStop> {
    for (place, word) in row.words.split_whitespace().enumerate() {
        if place >= first {
            put_word(alloc, bytes, word)?;
        }
    }
    Ok(())
}

/// A file with the edits that stand behind so many words.
pub(crate) fn edited(
    alloc: Global,
    file: &[u8],
    row: &Row,
    first: usize,
) -> Result<Vec<u8>, RowStop> {
    let mut bytes = Vec::from_slice(alloc, file)?;
    put_words(alloc, bytes.as_mut_slice(), row, first)?;
    Ok(bytes)
}

/// The byte at a place, 0 where the row has none there.
fn filler(alloc: Global, row: &Row, place: usize) -> Result<u8, RowStop> {
    let bytes = row.bytes(alloc, place)?;
    Ok(bytes.first().copied().unwrap_or(0))
}

/// `LENGTH BYTE`: a file of so many bytes, which are 0 where the row doesn't say it.
pub(crate) fn filled(alloc: Global, row: &Row) -> Result<Vec<u8>, RowStop> {
    let len = row.short(0)?;
    let byte = filler(alloc, row, 1)?;
    let mut bytes = Vec::new(alloc);
    bytes.resize(len as usize, byte)?;
    Ok(bytes)
}

/// Makes each count of the refcount block at a place one.
pub(crate) fn fill_counts(bytes: &mut [u8], place: usize) {
    for k in 0..65_536usize {
        if let Some(to) = bytes.get_mut(place.saturating_add(k)) {
            *to = if k % 2 == 0 { 0 } else { 1 };
        }
    }
}

/// The text that a word stands for, which is none for `-`.
pub(crate) fn text_of(word: &str) -> Option<&str> {
    if same(word, "-") { None } else { Some(word) }
}
