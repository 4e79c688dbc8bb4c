//! The bytes that are written.
ghost use Rattle.std.specs.Prelude.{◌≡◌, ◌≤◌, [], ◌∷◌, length};
ghost use Rattle.blk_base.specs.Device.{Writes, stop_of};
ghost use Rattle.blk_base.specs.Writes.{write_of};
ghost use Rattle.byteorder.specs.Endian.{big_bytes};
ghost use Rattle.q2_refs.specs.Allocating.{new_block};

use blk_base::{DevStop, Device, write};
use byteorder::{BigEndian, ByteOrder};

/// The 8 bytes of a word.
fn word_bytes(word: u64) -> [u8; 8]
    ensures { result ≡ big_bytes 8 word }
{
    let mut bytes = [0; 8];
    BigEndian::write_u64(&mut bytes, word);
    bytes
}

/// The 2 bytes of a refcount.
pub(crate) fn count_bytes(count: u16) -> [u8; 2]
    ensures { result ≡ big_bytes 2 count }
{
    let mut bytes = [0; 2];
    BigEndian::write_u16(&mut bytes, count);
    bytes
}

/// Makes a refcount block whose first cluster counts one, and no other.
pub(crate) fn make_block(block: &mut [u8])
    requires { 2 ≤ length block.old }
    ensures { block.new ≡ new_block (length block.old) }
{
    block.fill(0);
    BigEndian::write_u16(block, 1);
}

/// Writes a new refcount block at `offset`, and then its entry in the refcount table.
pub(crate) fn write_block<D: Device>(
    dev: &mut D,
    offset: u64,
    entry: u64,
    block: &[u8],
) -> Result<(), DevStop>
    ensures { Writes D.Device (write_of offset block.now ∷ write_of entry (big_bytes 8 offset) ∷ [])
        (stop_of result) dev.old dev.new }
{
    write(dev, offset, block)?;
    write(dev, entry, &word_bytes(offset))
}
