//! Why a line is none that a trace may have, in a few words.

ghost use Rattle.std.specs.Prelude.{◌≡◌, ◌&&◌, ◌||◌, ◌==◌, codes, option_map, slice_get};
ghost use Rattle.std.specs.Char.{is_ascii_digit, is_ascii_hexdigit};
ghost use Rattle.std.specs.List.{list_all, slice_split};
ghost use Rattle.trace_codec.specs.Flaws.{are_decimal, are_hexadecimal, ends_in_letter, flaw_at, flaw_of, flaw_text, has_length, has_letter, is_at, is_long, is_long_payload, is_number, lettered, passes};
ghost use Rattle.trace_codec.specs.Line.{words_of};

use crate::line::MAX_LENGTH;
use crate::number::{read_number, unit_at};

/// What is wrong with a line of a trace, where a few words say it: the first of these that it has.
#[derive(Clone, Copy, Debug, PartialEq, Eq)]
pub enum LineFlaw {
    /// It begins with a byte order mark.
    Mark,
    /// It ends in a carriage return.
    Return,
    /// One of its numbers is decimal digits and then a letter other than k, M and G.
    Letter,
    /// Its length is above 2,097,152 bytes.
    Length,
}

impl LineFlaw {
    /// It in a few words.
    pub fn text(self) -> &'static str
        ensures { result.now ≡ flaw_text self }
    {
        match self {
            LineFlaw::Mark => "begins with a byte order mark",
            LineFlaw::Return => "ends in a carriage return",
            LineFlaw::Letter => "a number ends in a letter other than k, M and G",
            LineFlaw::Length => "a length above 2,097,152",
        }
    }
}

/// The part of some bytes at this place, from 0.
fn part_at(bytes: &[u8], separator: u8, place: usize) -> Option<&[u8]>
    ensures { option_map (λ part. part.now) result
        ≡ slice_get (slice_split (λ b. b == separator) bytes.now) place }
{
    bytes.split(|b| *b == separator).nth(place)
}

/// The word of a line at this place, from 0.
fn word_at(line: &[u8], place: usize) -> Option<&[u8]>
    ensures { option_map (λ word. word.now) result ≡ slice_get (words_of line.now) place }
{
    part_at(line, b' ', place)
}

fn is_at(line: &[u8], place: usize, text: &[u8]) -> bool
    ensures { result ≡ is_at (words_of line.now) place text.now }
{
    match word_at(line, place) {
        Some(word) => word == text,
        None => false,
    }
}

fn all_decimal(word: &[u8]) -> bool
    ensures { result ≡ list_all is_ascii_digit word.now }
{
    word.iter().all(|c| c.is_ascii_digit())
}

fn all_hexadecimal(word: &[u8]) -> bool
    ensures { result ≡ list_all is_ascii_hexdigit word.now }
{
    word.iter().all(|c| c.is_ascii_hexdigit())
}

/// Whether these are decimal digits, one at least.
fn are_decimal(word: &[u8]) -> bool
    ensures { result ≡ are_decimal word.now }
{
    !word.is_empty() && all_decimal(word)
}

/// Whether these are hexadecimal digits, one at least.
fn are_hexadecimal(word: &[u8]) -> bool
    ensures { result ≡ are_hexadecimal word.now }
{
    !word.is_empty() && all_hexadecimal(word)
}

/// Whether a word is decimal digits and then a letter that is no unit.
fn ends_in_letter(word: &[u8]) -> bool
    ensures { result ≡ ends_in_letter word.now }
{
    let Some(last) = word.len().checked_sub(1) else {
        return false;
    };
    word[last].is_ascii_alphabetic() && unit_at(word[last]).is_none() && are_decimal(&word[..last])
}

/// Whether a word is a number: `0x` and hexadecimal digits, or decimal digits and at most one unit.
fn is_number(word: &[u8]) -> bool
    ensures { result ≡ is_number word.now }
{
    if word.starts_with(b"0x") {
        return are_hexadecimal(&word[2..]);
    }
    let Some(last) = word.len().checked_sub(1) else {
        return false;
    };
    if unit_at(word[last]).is_some() {
        return are_decimal(&word[..last]);
    }
    are_decimal(word)
}

/// Whether a word is a number above the length that a request may have.
fn is_long(word: &[u8]) -> bool
    ensures { result ≡ is_long word.now }
{
    is_number(word) && read_number(word, MAX_LENGTH + 1).is_none()
}

/// Whether the word at this place is a number that ends in a letter.
fn lettered(line: &[u8], place: usize) -> bool
    ensures { result ≡ lettered (words_of line.now) place }
{
    match word_at(line, place) {
        Some(word) => ends_in_letter(word),
        None => false,
    }
}

/// Whether the word at this place is a length that no request has.
fn long_at(line: &[u8], place: usize) -> bool
    ensures { result ≡ passes is_long (slice_get (words_of line.now) place) }
{
    match word_at(line, place) {
        Some(word) => is_long(word),
        None => false,
    }
}

/// Whether the word at this place has more digits than a payload.
fn long_payload_at(line: &[u8], place: usize) -> bool
    ensures { result ≡ passes is_long_payload (slice_get (words_of line.now) place) }
{
    match word_at(line, place) {
        Some(word) => word.len() as u64 > 2 * MAX_LENGTH,
        None => false,
    }
}

/// Whether a line begins with `read` or `discard`.
fn is_span(line: &[u8]) -> bool
    ensures { result ≡ (is_at (words_of line.now) 0 (codes "read")
        || is_at (words_of line.now) 0 (codes "discard")) }
{
    is_at(line, 0, b"read") || is_at(line, 0, b"discard")
}

/// Whether a line begins with `write` and this flag.
fn is_write(line: &[u8], flag: &[u8]) -> bool
    ensures { result ≡ (is_at (words_of line.now) 0 (codes "write")
        && is_at (words_of line.now) 1 flag.now) }
{
    is_at(line, 0, b"write") && is_at(line, 1, flag)
}

fn has_letter(line: &[u8]) -> bool
    ensures { result ≡ has_letter (words_of line.now) }
{
    if is_span(line) {
        lettered(line, 1) || lettered(line, 2)
    } else if is_at(line, 0, b"await") || is_at(line, 0, b"bytes") {
        lettered(line, 1)
    } else if is_write(line, b"-z") {
        lettered(line, 2) || lettered(line, 3)
    } else if is_write(line, b"-P") {
        lettered(line, 2) || lettered(line, 3) || lettered(line, 4)
    } else {
        false
    }
}

fn has_length(line: &[u8]) -> bool
    ensures { result ≡ has_length (words_of line.now) }
{
    if is_span(line) {
        long_at(line, 2)
    } else if is_at(line, 0, b"bytes") {
        long_payload_at(line, 2)
    } else if is_write(line, b"-z") {
        long_at(line, 3)
    } else if is_write(line, b"-P") {
        long_at(line, 4)
    } else {
        false
    }
}

/// What is wrong with a line, where a few words say it.
pub fn flaw_of(line: &[u8]) -> Option<LineFlaw>
    ensures { result ≡ flaw_of line.now }
{
    if line.starts_with(b"\xef\xbb\xbf") {
        Some(LineFlaw::Mark)
    } else if line.last() == Some(&b'\r') {
        Some(LineFlaw::Return)
    } else if has_letter(line) {
        Some(LineFlaw::Letter)
    } else if has_length(line) {
        Some(LineFlaw::Length)
    } else {
        None
    }
}

/// What is wrong with the line of this number, from 1, of a trace.
#[tactic(auto, unfolding(crate::specs::Flaws::flaw_at))]
pub fn flaw_at(text: &[u8], line: u32) -> Option<LineFlaw>
    ensures { result ≡ flaw_at text.now line }
{
    let place = line.saturating_sub(1) as usize;
    match part_at(text, b'\n', place) {
        Some(line) => flaw_of(line),
        None => None,
    }
}
