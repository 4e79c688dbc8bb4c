//! What came of a run, told where it isn't what it has to be.

use crate::runner::Ran;
use row_text::{RowStop, Words, first_other};
use std::str;

/// Puts the first line in which two texts differ.
fn put_other_line<'a>(out: &mut Words, came: &'a str, expected: &'a str) {
    let mut left = came.lines();
    let mut right = expected.lines();
    for number in 1..u64::MAX {
        match (left.next(), right.next()) {
            (None, None) => return out.put("its last line ends otherwise"),
            (one, other) if one != other => {
                out.fill("line % is: ", &[number]);
                out.put(one.unwrap_or("none"));
                out.put(", not: ");
                return out.put(other.unwrap_or("none"));
            }
            _ => {}
        }
    }
}

/// Puts where a transcript isn't as it has to be.
fn put_difference(out: &mut Words, came: &[u8], expected: &str) {
    match str::from_utf8(came) {
        Ok(came) => put_other_line(out, came, expected),
        Err(_) => out.put("what is sent is no text"),
    }
}

/// Puts how a run ended: `ok`, or its number and text.
fn put_end(out: &mut Words, ran: &Ran) {
    if ran.exit == 0 && ran.text.is_empty() {
        return out.put("ok");
    }
    out.fill("% ", &[u64::from(ran.exit)]);
    out.put(ran.text.as_str());
}

/// Puts how the last run ended, and where its transcript isn't as it has to be.
pub(crate) fn put_ran(
    out: &mut Words,
    ran: &[Ran],
    sent: &[u8],
    expected: &Words,
) -> Result<(), RowStop> {
    let Some(ran) = ran.last() else {
        return Err(RowStop::Call);
    };
    if !expected.is_whole() || !ran.text.is_whole() || !ran.variant.is_whole() {
        return Err(RowStop::NoMemory);
    }
    put_end(out, ran);
    if sent != expected.as_str().as_bytes() {
        out.put(", and of the transcript ");
        put_difference(out, sent, expected.as_str());
    }
    Ok(())
}

/// Whether bytes are these: `ok`, or where they aren't.
pub(crate) fn put_same(out: &mut Words, came: &[u8], expected: &[u8]) {
    let (len, wanted) = (came.len() as u64, expected.len() as u64);
    if len != wanted {
        return out.fill("% bytes, not %", &[len, wanted]);
    }
    match first_other(came, expected) {
        Some(place) => out.fill("other from byte %", &[place as u64]),
        None => out.put("ok"),
    }
}
