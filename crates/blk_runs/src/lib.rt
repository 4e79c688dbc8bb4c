//! Runs of equal bytes, as a transcript writes what was read, and the test for zeros.
#![tactic(auto)]

ghost use Rattle.std.specs.Prelude.{◌≡◌, ◌+◌, ◌*◌, ◌<◌, ◌≤◌, ◌++◌, ◌∷◌, ℕ, List, IsOk, OnOk, OnErr, length, false};
ghost use Rattle.std.specs.Fmt.{digit_glyph};
ghost use Rattle.blk_base.specs.Written.{memory_of};
ghost use Rattle.blk_runs.specs.Runs.{Run, AreLongest, runs_of, bytes_of_runs, run_text, runs_text};

mod lanes;
mod reading;
mod singles;
mod vectors;

use blk_base::{NoMemory, Text};
use lanes::front_count;
pub use lanes::is_zero;
pub use reading::{RunsStop, read_runs};
use singles::push_singles;
use vectors::ROOM;

/// Appends the runs of some bytes: two lower-case hexadecimal digits, `*` and a decimal count for each, longest
/// possible, parted by single spaces. It can't be refused where `out` has 5 bytes to spare for each byte.
pub fn push_runs(out: &mut Text, bytes: &[u8]) -> Result<(), NoMemory>
    ensures ok { OnOk result (out.new.bytes ≡ out.old.bytes ++ runs_text bytes.now) }
    ensures err { OnErr result (out.new ≡ out.old) }
    ensures room { 5 * length bytes.now ≤ out.old.spare → IsOk result }
    ensures spare { OnOk result (out.old.spare ≤ out.new.spare + 5 * length bytes.now) }
    ensures memory { memory_of out.old ≤ memory_of out.new }
{
    if out.spare() / 5 < bytes.len() {
        let room = bytes.len().checked_mul(5).ok_or(NoMemory)?;
        out.reserve(room)?;
    }
    let mut words = [0; ROOM];
    let mut rest = bytes;
    while let Some((byte, after)) = rest.split_first() {
        let more = push_first(out, *byte, after);
        rest = push_singles(out, more, &mut words);
    }
    Ok(())
}

/// Writes the run that a byte begins, and a space where bytes follow it that don't join. It gives those.
fn push_first<'a>(out: &mut Text, byte: u8, after: &'a [u8]) -> &'a [u8]
    requires { 5 * length (byte ∷ after.now) ≤ out.old.spare }
    ensures written { out.new.bytes ++ runs_text result.now ≡ out.old.bytes
        ++ runs_text (byte ∷ after.now) }
    ensures room { out.old.spare + 5 * length result.now
        ≤ out.new.spare + 5 * length (byte ∷ after.now) }
    ensures memory { memory_of out.old ≤ memory_of out.new }
    ensures fewer { length result.now ≤ length after.now }
{
    let more = front_count(after, byte);
    push_run(out, byte, more as u64 + 1);
    let rest = &after[more..];
    if !rest.is_empty() {
        out.push_ascii(b' ');
    }
    rest
}

/// Writes one run.
fn push_run(out: &mut Text, byte: u8, count: u64)
    requires { length (run_text (record { byte = byte; count = count })) ≤ out.old.spare }
    ensures written { out.new.bytes ≡ out.old.bytes
        ++ run_text (record { byte = byte; count = count }) }
    ensures room { out.old.spare
        ≤ out.new.spare + length (run_text (record { byte = byte; count = count })) }
    ensures memory { memory_of out.old ≤ memory_of out.new }
{
    out.push_ascii(hex_digit(byte / 16));
    out.push_ascii(hex_digit(byte % 16));
    out.push_ascii(b'*');
    out.push_number(count);
}

/// A digit below 16, in lower case.
fn hex_digit(digit: u8) -> u8
    requires { digit < 16 }
    ensures glyph { result ≡ digit_glyph false digit }
    ensures ascii { result < 128 }
{
    if digit < 10 {
        b'0' + digit
    } else {
        b'a' + (digit - 10)
    }
}

/// The runs of some bytes stand for these bytes and are longest, and no other longest runs stand for them.
pub fn runs_are_longest()
    ensures whole { (bytes : List ℕ) → bytes_of_runs (runs_of bytes) ≡ bytes }
    ensures longest { (bytes : List ℕ) → AreLongest (runs_of bytes) }
    ensures only { (rs : List Run) → AreLongest rs → runs_of (bytes_of_runs rs) ≡ rs }
{}
