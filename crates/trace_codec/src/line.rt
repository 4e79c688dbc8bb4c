//! Reading a line of a trace.

ghost use Rattle.std.specs.Prelude.{◌≡◌, ◌≤◌, [], ◌∷◌, IfSome, IfOk};
ghost use Rattle.trace_codec.specs.Line.{line_of, words_of, request_in, read_in, write_in, fill_in, raw_in, discard_in, span_in, length_of};

use crate::cut::cut;
use crate::number::read_number;
use crate::op::{Op, Payload};
use crate::payload::read_payload;
use blk_base::Span;
use std::alloc::{AllocError, Global};

/// How many bytes a request may have: 2 MiB.
pub(crate) const MAX_LENGTH: u64 = 2 * 1024 * 1024;

/// What a line says.
#[derive(Debug, Drop)]
pub enum TraceLine {
    /// Nothing: it is empty, or a comment.
    Passed,
    /// It asks for this.
    Asks(Op),
    /// It is none of the lines that a trace may have.
    Bad,
}

/// What a line says.
pub(crate) fn read_line(alloc: Global, line: &[u8]) -> Result<TraceLine, AllocError>
    ensures { IfOk result (λ says. says ≡ line_of line.now) }
{
    if line.is_empty() || line[0] == b'#' {
        return Ok(TraceLine::Passed);
    }
    match read_request(alloc, line)? {
        Some(op) => Ok(TraceLine::Asks(op)),
        None => Ok(TraceLine::Bad),
    }
}

/// The request of a line that is neither empty nor a comment.
fn read_request(alloc: Global, line: &[u8]) -> Result<Option<Op>, AllocError>
    ensures { IfOk result (λ found. found ≡ request_in (words_of line.now)) }
{
    let (name, words) = cut(line, b' ');
    let Some(words) = words else {
        return Ok(read_lone(name));
    };
    if name == b"read".as_slice() {
        Ok(read_read(words))
    } else if name == b"write".as_slice() {
        Ok(read_write(words))
    } else if name == b"bytes".as_slice() {
        read_raw(alloc, words)
    } else if name == b"discard".as_slice() {
        Ok(read_discard(words))
    } else {
        Ok(None)
    }
}

/// The request of a line of one word.
fn read_lone(name: &[u8]) -> Option<Op>
    ensures { result ≡ request_in (name.now ∷ []) }
{
    if name == b"flush".as_slice() {
        Some(Op::Flush)
    } else {
        None
    }
}

/// A read, behind its first word.
fn read_read(words: &[u8]) -> Option<Op>
    ensures { result ≡ read_in (words_of words.now) }
{
    Some(Op::Read(read_span(words)?))
}

/// A discard, behind its first word.
fn read_discard(words: &[u8]) -> Option<Op>
    ensures { result ≡ discard_in (words_of words.now) }
{
    Some(Op::Discard(read_span(words)?))
}

/// A write, behind its first word.
fn read_write(words: &[u8]) -> Option<Op>
    ensures { result ≡ write_in (words_of words.now) }
{
    let (flag, words) = cut(words, b' ');
    if flag == b"-P".as_slice() {
        read_fill(words?)
    } else if flag == b"-z".as_slice() {
        Some(Op::Zero(read_span(words?)?))
    } else {
        None
    }
}

/// A write of the bytes that stand in the line, behind its first word.
#[tactic(auto, using(crate::proofs::Parts::more_raw_words))]
fn read_raw(alloc: Global, words: &[u8]) -> Result<Option<Op>, AllocError>
    ensures { IfOk result (λ found. found ≡ raw_in (words_of words.now)) }
{
    let (offset, rest) = cut(words, b' ');
    let Some(rest) = rest else {
        return Ok(None);
    };
    let (word, others) = cut(rest, b' ');
    if others.is_some() {
        return Ok(None);
    }
    let Some(start) = read_number(offset, 1 << 62) else {
        return Ok(None);
    };
    let Some(bytes) = read_payload(alloc, word)? else {
        return Ok(None);
    };
    let len = bytes.len() as u64;
    Ok(Some(Op::Write(Span { start, len }, Payload::Raw(bytes))))
}

/// A write of one byte over and over, behind its flag.
fn read_fill(words: &[u8]) -> Option<Op>
    ensures { result ≡ fill_in (words_of words.now) }
{
    let (byte, words) = cut(words, b' ');
    let byte = read_number(byte, 256)?;
    let span = read_span(words?)?;
    Some(Op::Write(span, Payload::Fill(byte as u8)))
}

/// The span that two words write.
#[tactic(auto, using(crate::proofs::Parts::more_words))]
fn read_span(words: &[u8]) -> Option<Span>
    ensures { result ≡ span_in (words_of words.now) }
{
    let (offset, rest) = cut(words, b' ');
    let (len, more) = cut(rest?, b' ');
    if more.is_some() {
        return None;
    }
    let start = read_number(offset, 1 << 62)?;
    let len = read_length(len)?;
    Some(Span { start, len })
}

/// How many bytes a request has.
fn read_length(word: &[u8]) -> Option<u64>
    ensures value { result ≡ length_of word.now }
    ensures small { IfSome result (λ len. len ≤ 2097152) }
{
    read_number(word, MAX_LENGTH + 1).filter(|len| *len != 0)
}
