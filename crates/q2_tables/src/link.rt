//! Writing entries: an L2 entry, or a new L2 table and the L1 entry that names it.
ghost use Rattle.std.specs.Prelude.{◌≡◌, ◌+◌, ◌*◌, ◌/◌, ◌%◌, ◌≤◌, ℕ, List, [], ◌∷◌, ◌++◌, length, take, drop, replicate, slice_index, Some, option_map, OnOk, OnErr};
ghost use Rattle.blk_base.specs.Content.{with_bytes};
ghost use Rattle.blk_base.specs.Device.{Writes, stop_of};
ghost use Rattle.blk_base.specs.Writes.{write_of};
ghost use Rattle.byteorder.specs.Endian.{big_bytes};
ghost use Rattle.q2_format.specs.Bytes.{IsWritten};
ghost use Rattle.q2_tables.specs.Linking.{HasOneEntry, TableAfter, entry_write, new_table};

use blk_base::{DevStop, Device, write};
use byteorder::{BigEndian, ByteOrder};

/// The 8 bytes of a word.
fn word_bytes(word: u64) -> [u8; 8]
    ensures { result ≡ big_bytes 8 word }
{
    let mut bytes = [0; 8];
    BigEndian::write_u64(&mut bytes, word);
    bytes
}

/// Writes an entry of a table. It lies within a sector, so all of it is written or nothing.
pub(crate) fn write_entry<D: Device>(dev: &mut D, at: u64, word: u64) -> Result<(), DevStop>
    requires { at % 8 ≡ 0 }
    ensures written { OnOk result
        (D.content dev.new
        ≡ option_map (λ b. with_bytes b at (big_bytes 8 word)) (D.content dev.old)) }
    ensures kept { OnErr result (D.content dev.new ≡ D.content dev.old) }
    ensures writes { Writes D.Device (entry_write at word ∷ []) (stop_of result) dev.old dev.new }
{
    write(dev, at, &word_bytes(word))
}

/// Puts bytes at a place.
#[tactic(auto, using(q2_format::proofs::ByPlace::written_by_list))]
fn put_bytes(out: &mut [u8], at: usize, bytes: &[u8])
    requires { at + length bytes.now ≤ length out.old }
    ensures list { out.new ≡ take at out.old ++ bytes.now ++ drop (at + length bytes.now) out.old }
    ensures written { IsWritten out.old out.new at bytes.now }
{
    out[at..at + bytes.len()].copy_from_slice(bytes);
}

/// Makes all bytes 0.
fn clear(buffer: &mut [u8])
    ensures list { buffer.new ≡ replicate (length buffer.old) 0 }
    ensures zeros { (i : ℕ) → slice_index buffer.new i ≡ 0 }
{
    buffer.fill(0);
}

/// Makes the buffer a table with this one entry.
fn put_entry(buffer: &mut [u8], column: usize, word: u64)
    requires { 8 * column + 8 ≤ length buffer.old }
    ensures bytes { buffer.new ≡ new_table (length buffer.old) column word }
    ensures entry { HasOneEntry buffer.new 0 (length buffer.old / 8) column word }
{
    clear(buffer);
    put_bytes(buffer, 8 * column, &word_bytes(word));
}

/// Writes a table with one entry, made in the buffer, at an offset.
pub(crate) fn write_table<D: Device>(
    dev: &mut D,
    at: u64,
    buffer: &mut [u8],
    column: usize,
    word: u64,
) -> Result<(), DevStop>
    requires { 8 * column + 8 ≤ length buffer.old }
    ensures told { (file : List ℕ) → D.content dev.old ≡ Some file
        → TableAfter file (D.content dev.new) at (length buffer.old) }
    ensures entry { OnOk result
        ((file : List ℕ) → D.content dev.new ≡ Some file
        → HasOneEntry file at (length buffer.old / 8) column word) }
    ensures reaches { OnOk result (at + length buffer.old ≤ D.size dev.new) }
    ensures writes { Writes D.Device (write_of at (new_table (length buffer.old) column word) ∷ [])
        (stop_of result) dev.old dev.new }
{
    put_entry(buffer, column, word);
    write(dev, at, buffer)
}
