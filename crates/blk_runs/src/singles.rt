//! Runs of one byte each, of which many are written at once.
ghost use Rattle.std.specs.Prelude.{◌≡◌, ◌+◌, ◌*◌, ◌≤◌, ◌++◌, IsAscii, length, take};
ghost use Rattle.blk_base.specs.Written.{memory_of};
ghost use Rattle.blk_runs.specs.Runs.{runs_text};
ghost use Rattle.blk_runs.specs.Singles.{HasSingles, single_text};

use crate::hex_digit;
use crate::vectors::{ROOM, write_vectors};
use blk_base::Text;

/// How many runs are written one by one.
const MOST: usize = 16;

/// Writes the runs of one byte at the front, or some of them, where another run follows each. It gives the bytes behind
/// them. What `words` holds doesn't matter.
pub(crate) fn push_singles<'a>(out: &mut Text, bytes: &'a [u8], words: &mut [u8; ROOM]) -> &'a [u8]
    requires { 5 * length bytes.now ≤ out.old.spare }
    ensures written { out.new.bytes ++ runs_text result.now ≡ out.old.bytes ++ runs_text bytes.now }
    ensures room { out.old.spare + 5 * length result.now ≤ out.new.spare + 5 * length bytes.now }
    ensures memory { memory_of out.old ≤ memory_of out.new }
    ensures fewer { length result.now ≤ length bytes.now }
{
    let many = write_vectors(bytes, words);
    let more = push_written(out, bytes, words, many);
    let few = write_singles(more, words);
    push_written(out, more, words, few)
}

/// Puts the runs that were written, and gives the bytes behind them.
fn push_written<'a>(out: &mut Text, bytes: &'a [u8], words: &[u8; ROOM], count: usize) -> &'a [u8]
    requires singles { HasSingles count bytes.now words.now }
    requires room { 5 * length bytes.now ≤ out.old.spare }
    ensures written { out.new.bytes ++ runs_text result.now ≡ out.old.bytes ++ runs_text bytes.now }
    ensures room { out.old.spare + 5 * length result.now ≤ out.new.spare + 5 * length bytes.now }
    ensures memory { memory_of out.old ≤ memory_of out.new }
    ensures fewer { length result.now ≤ length bytes.now }
{
    if count == 0 {
        return bytes;
    }
    push_ascii_text(out, &words[..5 * count]);
    &bytes[count..]
}

/// Puts bytes of ASCII at the end.
fn push_ascii_text(out: &mut Text, text: &[u8])
    requires ascii { IsAscii text.now }
    requires room { length text.now ≤ out.old.spare }
    ensures bytes { out.new.bytes ≡ out.old.bytes ++ text.now }
    ensures room { out.old.spare ≤ out.new.spare + length text.now }
    ensures memory { memory_of out.old ≤ memory_of out.new }
{
    match str::from_utf8(text) {
        Ok(text) => out.push_str(text),
        Err(_) => unreachable!(),
    }
}

/// Writes the runs of one byte at the front into `words`, at most 16, and says how many these are.
fn write_singles(bytes: &[u8], words: &mut [u8; ROOM]) -> usize
    ensures { HasSingles result bytes.now words.new }
{
    let mut count = 0;
    while count < MOST && count + 1 < bytes.len() && bytes[count] != bytes[count + 1] {
        write_single(words, 5 * count, bytes[count]);
        count += 1;
    }
    count
}

/// Writes the run of one byte, and a space, from a place on.
fn write_single(words: &mut [u8; ROOM], at: usize, byte: u8)
    requires { at + 5 ≤ 1280 }
    ensures { take (at + 5) words.new ≡ take at words.old ++ single_text byte }
{
    words[at] = hex_digit(byte / 16);
    words[at + 1] = hex_digit(byte % 16);
    words[at + 2] = b'*';
    words[at + 3] = b'1';
    words[at + 4] = b' ';
}
