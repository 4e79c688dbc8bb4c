//! Numbers and bytes as a file of rows writes them.

use blk_base::NoMemory;
use std::alloc::Global;

/// The number that a word is.
pub fn read_number(word: &str) -> Option<u64> {
    if let Some(digits) = word.strip_prefix("0x") {
        return u64::from_str_radix(digits, 16).ok();
    }
    if let Some(digits) = word.strip_suffix('K') {
        return digits.parse::<u64>().ok()?.checked_mul(1_024);
    }
    if let Some(digits) = word.strip_suffix('M') {
        return digits.parse::<u64>().ok()?.checked_mul(1_048_576);
    }
    word.parse::<u64>().ok()
}

/// What a hexadecimal digit stands for.
fn digit_of(glyph: u8) -> Option<u8> {
    match glyph {
        b'0'..=b'9' => Some(glyph - b'0'),
        b'a'..=b'f' => Some(glyph - b'a' + 10),
        _ => None,
    }
}

/// The byte that two hexadecimal digits stand for.
fn byte_of(high: u8, low: u8) -> Option<u8> {
    Some(
        digit_of(high)?
            .checked_mul(16)?
            .checked_add(digit_of(low)?)?,
    )
}

/// The byte that a letter behind a backslash stands for.
fn escaped(letter: u8) -> Option<u8> {
    match letter {
        b'n' => Some(b'\n'),
        b'r' => Some(b'\r'),
        b't' => Some(b'\t'),
        b'"' | b'\\' => Some(letter),
        _ => None,
    }
}

/// The first byte of a text in quotation marks, and what stands behind it.
fn first_of_text(text: &[u8]) -> Option<(u8, &[u8])> {
    match text {
        [b'\\', b'x', high, low, more @ ..] => Some((byte_of(*high, *low)?, more)),
        [b'\\', letter, more @ ..] => Some((escaped(*letter)?, more)),
        [byte, more @ ..] => Some((*byte, more)),
        [] => None,
    }
}

/// Puts the bytes of a text up to its closing quotation mark, and gives what stands behind that. Gives none where it isn't
/// closed.
fn put_text<'a>(out: &mut Vec<u8>, text: &'a [u8]) -> Result<Option<&'a [u8]>, NoMemory> {
    let mut rest = text;
    for _ in 0..text.len() {
        if let [b'"', more @ ..] = rest {
            return Ok(Some(more));
        }
        let Some((byte, more)) = first_of_text(rest) else {
            return Ok(None);
        };
        out.push(byte)?;
        rest = more;
    }
    Ok(None)
}

/// The decimal number at the beginning of a text, and what stands behind it.
fn count_at(text: &[u8]) -> Option<(usize, &[u8])> {
    let mut count = 0usize;
    let mut rest = text;
    for digit in text {
        let (b'0'..=b'9', [_, more @ ..]) = (*digit, rest) else {
            break;
        };
        count = count
            .checked_mul(10)?
            .checked_add((*digit - b'0') as usize)?;
        rest = more;
    }
    Some((count, rest))
}

/// Puts so many bytes behind others.
fn put_run(out: &mut Vec<u8>, byte: u8, count: usize) -> Result<(), NoMemory> {
    let len = out.len().checked_add(count).ok_or(NoMemory)?;
    out.resize(len, byte)?;
    Ok(())
}

/// Puts a pair of digits or a run, and gives what stands behind it. Gives none where there is neither.
fn put_pair<'a>(out: &mut Vec<u8>, text: &'a [u8]) -> Result<Option<&'a [u8]>, NoMemory> {
    let [high, low, rest @ ..] = text else {
        return Ok(None);
    };
    let Some(byte) = byte_of(*high, *low) else {
        return Ok(None);
    };
    let [b'*', digits @ ..] = rest else {
        out.push(byte)?;
        return Ok(Some(rest));
    };
    let Some((count, rest)) = count_at(digits) else {
        return Ok(None);
    };
    put_run(out, byte, count)?;
    Ok(Some(rest))
}

/// Puts what stands at the beginning of a text, and gives what stands behind it. Gives none where that are no bytes.
fn put_part<'a>(out: &mut Vec<u8>, text: &'a [u8]) -> Result<Option<&'a [u8]>, NoMemory> {
    match text {
        [b' ', rest @ ..] => Ok(Some(rest)),
        [b'"', rest @ ..] => put_text(out, rest),
        _ => put_pair(out, text),
    }
}

/// The bytes that a text says, or none where it says no bytes.
pub fn read_bytes(alloc: Global, text: &str) -> Result<Option<Vec<u8>>, NoMemory> {
    let mut out = Vec::new(alloc);
    let mut rest = text.as_bytes();
    for _ in 0..text.len() {
        if rest.is_empty() {
            break;
        }
        match put_part(&mut out, rest)? {
            Some(more) => rest = more,
            None => return Ok(None),
        }
    }
    Ok(Some(out))
}

/// The first place at which bytes don't begin with others.
pub fn first_other(came: &[u8], wanted: &[u8]) -> Option<usize> {
    for place in 0..wanted.len() {
        if place >= came.len() || came[place] != wanted[place] {
            return Some(place);
        }
    }
    None
}
