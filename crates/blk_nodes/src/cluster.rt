//! A block of bytes in which a cluster is put together.
ghost use Rattle.std.specs.Prelude.{◌≡◌, ℕ, ◌+◌, ◌%◌, ◌-◌, ◌<◌, ◌≤◌, List, ◌++◌, length, take, drop, replicate, vec_len, IfOk};
ghost use Rattle.blk_base.specs.Pieces.{block_size};
ghost use Rattle.blk_nodes.specs.Found.{found_bytes, IsReadOfSource};
ghost use Rattle.blk_nodes.specs.Nodes.{AreTold};
ghost use Rattle.blk_nodes.specs.Parts.{HasPiece, HasFound, IsLaid, ReadsRest};
ghost use Rattle.blk_nodes.specs.Reading.{HaveRisen};

use crate::devices::Devices;
use crate::found::read_found;
use crate::part::Part;
use crate::row::Row;
use blk_base::{Device, NoMemory, Outcome, PIECE};
use std::alloc::Global;
use std::marker::Model;

/// A block of bytes in which a cluster is put together.
#[derive(Drop)]
pub(crate) struct Cluster {
    bytes: Vec<u8>,
}

impl Model for Cluster {
    ghost use Rattle.std.specs.Prelude.{◌≡◌, ℕ, List, length};
    ghost use Rattle.blk_base.specs.Pieces.{block_size};

    ghost Value = { List ℕ };

    ghost view = { λ c. c.bytes.items };

    ghost invariant = { λ c. length c.bytes.items ≡ block_size };
}

/// Any bytes of a block.
fn block(alloc: Global) -> Result<Vec<u8>, NoMemory>
    ensures { IfOk result (λ bytes. vec_len bytes ≡ block_size) }
{
    Ok(vec![in alloc; 0u8; PIECE as usize]?)
}

impl Cluster {
    pub(crate) fn new(alloc: Global) -> Result<Self, NoMemory> {
        let bytes = block(alloc)?;
        Ok(Cluster { bytes })
    }

    pub(crate) fn bytes(&self) -> &[u8]
        ensures bytes { result.now ≡ self.now }
        ensures whole { length result.now ≡ block_size }
    {
        &self.bytes
    }

    /// Reads what is found in the cluster of a piece, and makes the rest zeros.
    fn read<D: Device>(
        &mut self,
        rows: &[Option<Row>],
        devices: &mut Devices<D>,
        part: &Part,
    ) -> Outcome
        requires rows { length rows.now ≡ 64 }
        requires piece { HasPiece rows.now devices.old part.now }
        ensures read { AreTold devices.old → result ≡ Outcome.Good
            → take part.now.whole.len self.new
            ≡ found_bytes devices.old part.now.source part.now.whole.start part.now.whole.len }
        ensures behind { drop part.now.whole.len self.new
            ≡ replicate (block_size - part.now.whole.len) 0 }
        ensures outcome { IsReadOfSource rows.now part.now.source part.now.whole devices.old
            devices.new result }
        ensures devices { HaveRisen devices.old devices.new }
    {
        let (disk, rest) = self.bytes.split_at_mut(part.whole.len as usize);
        rest.fill(0);
        read_found(rows, devices, part.source, part.whole, disk)
    }

    /// Has what is found in the cluster of a piece but for the piece. Nothing is read where the piece is the whole cluster.
    fn rest<D: Device>(
        &mut self,
        rows: &[Option<Row>],
        devices: &mut Devices<D>,
        part: &Part,
    ) -> Outcome
        requires rows { length rows.now ≡ 64 }
        requires piece { HasPiece rows.now devices.old part.now }
        ensures read { AreTold devices.old → result ≡ Outcome.Good
            → part.now.span.len < part.now.whole.len
            → take part.now.whole.len self.new
            ≡ found_bytes devices.old part.now.source part.now.whole.start part.now.whole.len }
        ensures behind { drop part.now.whole.len self.new
            ≡ replicate (block_size - part.now.whole.len) 0 }
        ensures outcome { ReadsRest rows.now part.now devices.old devices.new result }
        ensures devices { HaveRisen devices.old devices.new }
    {
        if part.span.len < part.whole.len {
            return self.read(rows, devices, part);
        }
        self.bytes.fill(0);
        Outcome::Good
    }

    /// Puts bytes at a place.
    fn lay(&mut self, at: u64, bytes: &[u8])
        requires { at + length bytes.now ≤ block_size }
        ensures bytes { self.new
            ≡ take at self.old ++ bytes.now ++ drop (at + length bytes.now) self.old }
        ensures whole { length self.old ≡ block_size }
    {
        let (_, rest) = self.bytes.split_at_mut(at as usize);
        let (middle, _) = rest.split_at_mut(bytes.len());
        middle.copy_from_slice(bytes);
    }

    /// Puts the cluster of a piece together, which has these bytes: the rest of it is read. It is Good, or Io.
    pub(crate) fn gather<D: Device>(
        &mut self,
        rows: &[Option<Row>],
        devices: &mut Devices<D>,
        part: &Part,
        bytes: &[u8],
    ) -> Outcome
        requires rows { length rows.now ≡ 64 }
        requires piece { HasPiece rows.now devices.old part.now }
        requires whole { length bytes.now ≡ part.now.span.len }
        ensures laid { result ≡ Outcome.Good
            → IsLaid block_size part.now.whole.len (part.now.span.start % block_size) bytes.now
            self.new }
        ensures found { AreTold devices.old → result ≡ Outcome.Good
            → HasFound part.now.whole.len (part.now.span.start % block_size) bytes.now
            (found_bytes devices.old part.now.source part.now.whole.start part.now.whole.len)
            self.new }
        ensures outcome { ReadsRest rows.now part.now devices.old devices.new result }
        ensures devices { HaveRisen devices.old devices.new }
    {
        let span = part.span;
        let outcome = self.rest(rows, devices, part);
        if !outcome.is_good() {
            return outcome;
        }
        self.lay(span.start % PIECE, bytes);
        outcome
    }
}
