//! What a guest asks of its disk.

ghost use Rattle.std.specs.Prelude.{◌≡◌};

use blk_base::{Bytes, Span, piece_count};

/// The bytes of a write.
#[derive(Debug, Drop)]
pub enum Payload {
    /// Every byte is this one.
    Fill(u8),
    /// These bytes, as many as the span has.
    Raw(Bytes),
}

/// One request.
#[derive(Debug, Drop)]
pub enum Op {
    /// Read these bytes.
    Read(Span),
    /// Write this payload over these bytes.
    Write(Span, Payload),
    /// Write zeros over these bytes.
    Zero(Span),
    /// Keep all that was written.
    Flush,
    /// These bytes are not needed any more. It is advice, and changes nothing.
    Discard(Span),
}

impl Op {
    ghost use Rattle.trace_codec.specs.Request.{pieces_of, read_bytes_of};

    /// The number of pieces in which the request runs.
    pub fn pieces(&self) -> u64
        ensures { result ≡ pieces_of self.now }
    {
        match self {
            Op::Read(span) | Op::Write(span, _) | Op::Zero(span) => piece_count(*span),
            Op::Flush => 1,
            Op::Discard(_) => 0,
        }
    }

    /// The number of bytes that the request reads.
    pub fn read_bytes(&self) -> u64
        ensures { result ≡ read_bytes_of self.now }
    {
        match self {
            Op::Read(span) => span.len,
            Op::Write(..) | Op::Zero(_) | Op::Flush | Op::Discard(_) => 0,
        }
    }
}
