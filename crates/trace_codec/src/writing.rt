//! Writing a trace.

ghost use Rattle.std.specs.Prelude.{◌≡◌, [], ◌∷◌, ◌++◌, Ok, codes, decimal, string_bytes, IfOk, OnOk};
ghost use Rattle.trace_codec.specs.Hex.{hex, hex_byte};
ghost use Rattle.trace_codec.specs.Spelling.{line_for, spelling};
ghost use Rattle.trace_codec.specs.Trace.{ops_of};
ghost use Rattle.trace_codec.specs.Traced.{IsTrace};

use crate::op::{Op, Payload};
use crate::ops::Ops;
use blk_base::{NoMemory, Text};
use std::alloc::{AllocError, Global};
use std::fmt::Write;

/// Writes a trace of requests that one can ask for: a line for each of them, numbers in decimal, bytes in lower-case
/// hexadecimal digits. Reading it gives the same requests.
#[tactic(auto, using(crate::proofs::ReadBack::reads_back))]
pub fn write_trace(alloc: Global, ops: &Ops) -> Result<Text, NoMemory>
    requires { IsTrace ops.now }
    ensures spelled { IfOk result (λ text. text.bytes ≡ spelling ops.now) }
    ensures reads_back { IfOk result (λ text. ops_of text.bytes ≡ Ok ops.now) }
{
    let text = write_lines(alloc, ops.as_slice())?;
    Ok(Text::from_string(text))
}

/// The lines of requests.
#[tactic(auto, unfolding(crate::specs::Spelling::spelling))]
fn write_lines(alloc: Global, ops: &[Op]) -> Result<String, AllocError>
    ensures { IfOk result (λ text. string_bytes text ≡ spelling ops.now) }
{
    let mut text = String::new(alloc);
    for op in ops {
        push_line(&mut text, op)?;
    }
    Ok(text)
}

/// Puts the line of a request at the end.
fn push_line(text: &mut String, op: &Op) -> Result<(), AllocError>
    ensures { OnOk result
        (string_bytes text.new ≡ string_bytes text.old ++ line_for op.now ++ 10 ∷ []) }
{
    match op {
        Op::Read(span) => writeln!(text, "read {} {}", span.start, span.len),
        Op::Write(span, Payload::Fill(byte)) => {
            writeln!(text, "write -P {byte} {} {}", span.start, span.len)
        }
        Op::Write(span, Payload::Raw(bytes)) => push_raw(text, span.start, bytes.as_slice()),
        Op::Zero(span) => writeln!(text, "write -z {} {}", span.start, span.len),
        Op::Flush => writeln!(text, "flush"),
        Op::Discard(span) => writeln!(text, "discard {} {}", span.start, span.len),
    }
}

/// Puts the line of a write of these bytes at the end.
#[tactic(auto, using(std::proofs::lemmas::List::append_assoc))]
fn push_raw(text: &mut String, start: u64, bytes: &[u8]) -> Result<(), AllocError>
    ensures { OnOk result
        (string_bytes text.new ≡ string_bytes text.old ++ codes "bytes " ++ decimal start ++ 32
        ∷ hex bytes.now ++ 10 ∷ []) }
{
    write!(text, "bytes {start} ")?;
    push_hex(text, bytes)?;
    text.push('\n')
}

/// Puts the digits of bytes at the end.
fn push_hex(text: &mut String, bytes: &[u8]) -> Result<(), AllocError>
    ensures { OnOk result (string_bytes text.new ≡ string_bytes text.old ++ hex bytes.now) }
{
    for byte in bytes {
        push_byte(text, *byte)?;
    }
    Ok(())
}

/// Puts the two digits of a byte at the end.
#[tactic(auto, using(std::proofs::lemmas::Fmt::hex_byte))]
fn push_byte(text: &mut String, byte: u8) -> Result<(), AllocError>
    ensures { OnOk result (string_bytes text.new ≡ string_bytes text.old ++ hex_byte byte) }
{
    write!(text, "{byte:02x}")
}
