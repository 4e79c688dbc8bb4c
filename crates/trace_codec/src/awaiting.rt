//! What a script waits for, and the lines that say so.

ghost use Rattle.std.specs.Prelude.{◌≡◌, ◌<◌, ◌^◌, IfOk, is_some, option_map, length, slice_index};
ghost use Rattle.std.specs.List.{list_all};
ghost use Rattle.std.specs.Char.{is_ascii_alphabetic};
ghost use Rattle.blk_base.specs.Written.{Written};
ghost use Rattle.trace_codec.specs.Line.{words_of};
ghost use Rattle.trace_codec.specs.Awaits.{seen_await, is_name_byte, is_name, awaited_amount_of, place_from, guest_wait, id_in, wait_in, await_in, await_of, trace_wait, first_wait_in};

use crate::cut::cut;
use crate::number::{read_digits, read_number};
use blk_base::{Names1, NoMemory, Text};
use std::alloc::Global;

/// A wait of a script.
#[derive(Debug, Drop)]
pub enum Await<T = Text> {
    /// That so many requests of the guest of this number were retired or refused.
    Guest { guest: u32, requests: u32 },
    /// That a job of this id is ready.
    Ready(T),
    /// That there is no job of this id.
    Ended(T),
}

/// The number of the first line of a trace that is `await N`, counted from 1.
#[tactic(auto, unfolding(crate::specs::Awaits::first_wait_in))]
pub fn first_await(text: &str) -> Option<u32>
    ensures { result ≡ first_wait_in text.now }
{
    let mut number = 1u32;
    let mut rest = Some(text.as_bytes());
    while let Some(lines) = rest {
        let (line, after) = cut(lines, b'\n');
        if line_awaited(line).is_some() {
            return Some(number);
        }
        number = number.saturating_add(1);
        rest = after;
    }
    None
}

/// The number of the script's line that a line of a trace waits for, where it is `await N`.
#[tactic(auto, using(crate::proofs::Waiting::more_lines))]
pub(crate) fn line_awaited(line: &[u8]) -> Option<u32>
    ensures { result ≡ trace_wait line.now }
{
    let (verb, words) = cut(line, b' ');
    let words = words?;
    if verb != b"await".as_slice() {
        return None;
    }
    let (number, more) = cut(words, b' ');
    if more.is_some() {
        return None;
    }
    let number = read_number(number, 1 << 32)?;
    Some(number as u32)
}

/// The wait of a script's line, where it is one: `await guest NAME N` of one of these guests, `await ready JOB` or
/// `await end JOB`, its words parted by single spaces.
#[tactic(auto, unfolding(crate::specs::Awaits::await_of))]
pub fn read_await(alloc: Global, line: &str, guests: &Names1) -> Result<Option<Await>, NoMemory>
    requires { length guests.now < 2 ^ 32 }
    ensures { IfOk result (λ found. option_map seen_await found ≡ await_of guests.now line.now) }
{
    read_bytes(alloc, line.as_bytes(), guests)
}

/// So it is with the bytes of a line.
fn read_bytes(alloc: Global, line: &[u8], guests: &Names1) -> Result<Option<Await>, NoMemory>
    requires { length guests.now < 2 ^ 32 }
    ensures { IfOk result
        (λ found. option_map seen_await found ≡ await_in guests.now (words_of line.now)) }
{
    let (verb, words) = cut(line, b' ');
    let Some(words) = words else {
        return Ok(None);
    };
    if verb == b"await".as_slice() {
        Ok(read_wait(alloc, words, guests)?)
    } else {
        Ok(None)
    }
}

/// What is waited for, behind the first word.
fn read_wait(alloc: Global, words: &[u8], guests: &Names1) -> Result<Option<Await>, NoMemory>
    requires { length guests.now < 2 ^ 32 }
    ensures { IfOk result
        (λ found. option_map seen_await found ≡ wait_in guests.now (words_of words.now)) }
{
    let (kind, words) = cut(words, b' ');
    let Some(words) = words else {
        return Ok(None);
    };
    if kind == b"guest".as_slice() {
        Ok(read_guest(words, guests))
    } else if kind == b"ready".as_slice() {
        Ok(read_id(alloc, words)?.map(Await::Ready))
    } else if kind == b"end".as_slice() {
        Ok(read_id(alloc, words)?.map(Await::Ended))
    } else {
        Ok(None)
    }
}

/// `NAME N` of one of these guests.
#[tactic(auto, using(crate::proofs::Waiting::more_guest))]
fn read_guest(words: &[u8], guests: &Names1) -> Option<Await>
    requires { length guests.now < 2 ^ 32 }
    ensures { option_map seen_await result ≡ guest_wait guests.now (words_of words.now) }
{
    let (name, words) = cut(words, b' ');
    let (number, more) = cut(words?, b' ');
    if more.is_some() {
        return None;
    }
    let guest = place_of(name, guests)?;
    let requests = read_amount(number)?;
    Some(Await::Guest { guest, requests })
}

/// The first place of a name among others.
fn place_of(name: &[u8], names: &Names1) -> Option<u32>
    requires { length names.now < 2 ^ 32 }
    ensures { result ≡ place_from 0 name.now names.now }
{
    for place in 0..names.len() {
        if names.name_at(place).as_bytes() == name {
            return Some(place as u32);
        }
    }
    None
}

/// A number in decimal without leading zeros.
fn read_amount(word: &[u8]) -> Option<u32>
    ensures { result ≡ awaited_amount_of word.now }
{
    if word.len() > 1 && word[0] == b'0' {
        return None;
    }
    let number = read_digits(10, word, 1 << 32)?;
    Some(number as u32)
}

/// The id of a job, where it is the only word and a name.
#[tactic(auto, using(crate::proofs::Waiting::more_ids, crate::proofs::Waiting::name_is_text))]
fn read_id(alloc: Global, words: &[u8]) -> Result<Option<Text>, NoMemory>
    ensures { IfOk result
        (λ found. option_map (λ (t : Written). t.bytes) found ≡ id_in (words_of words.now)) }
{
    let (id, more) = cut(words, b' ');
    if more.is_some() || !is_name(id) {
        return Ok(None);
    }
    let Ok(text) = str::from_utf8(id) else {
        unreachable!()
    };
    Ok(Some(Text::copied(alloc, text)?))
}

/// Whether a word is a name: 1 to 31 bytes, a letter, and then letters, digits, `-`, `.` and `_`.
pub fn is_name(word: &[u8]) -> bool
    ensures { result ≡ is_name word.now }
{
    begins_with_letter(word) && word.len() <= 31 && has_id_bytes(word)
}

fn begins_with_letter(word: &[u8]) -> bool
    ensures { result ≡ is_ascii_alphabetic (slice_index word.now 0) }
{
    if word.is_empty() {
        return false;
    }
    word[0].is_ascii_alphabetic()
}

fn has_id_bytes(word: &[u8]) -> bool
    ensures { result ≡ list_all is_name_byte word.now }
{
    word.iter().all(|byte| is_id_byte(*byte))
}

/// A letter, a digit, `-`, `.` or `_`.
fn is_id_byte(byte: u8) -> bool
    ensures { result ≡ is_name_byte byte }
{
    byte.is_ascii_alphanumeric() || byte == b'-' || byte == b'.' || byte == b'_'
}
