//! Blocks that are copied from one node to another.
ghost use Rattle.std.specs.Prelude.{◌≡◌, ◌*◌, ◌<◌, ◌≤◌, ℕ, length, IsOk};
ghost use Rattle.blk_base.specs.Content.{bytes_at};
ghost use Rattle.blk_nodes.specs.Contents.{disk_of};
ghost use Rattle.blk_nodes.specs.Nodes.{AreTold, node_size};
ghost use Rattle.blk_nodes.specs.Writing.{IsApartFrom, LeavesNodes, MayWriteThrough};
ghost use Rattle.node_copies.specs.Putting.{CopiesBlock, IsPut, answer_of};
ghost use Rattle.node_copies.specs.Sectors.{block_of};

use crate::putting::{block_of, put_sectors};
use blk_base::{Device, Fault, Outcome};
use blk_graph::NodeId;
use blk_nodes::Nodes;

/// The answer of a copy whose write went so: Io also of a write that was torn.
pub fn answer_of(outcome: Outcome) -> Result<(), Fault>
    ensures { result ≡ answer_of outcome }
{
    match outcome {
        Outcome::Good => Ok(()),
        Outcome::Torn { dev, count, .. } | Outcome::Io { dev, count } => {
            Err(Fault::Io { dev, count })
        }
        Outcome::NoSpace { dev } => Err(Fault::NoSpace { dev }),
    }
}

/// Copies the sectors of a block that are asked for from one node to another: of sector i, the 512 bytes from `512 * i` on, bit i,
/// up to the end of the disk that is written. The block is read, and they are put as by `put_sectors`. A fault tells the device
/// whose call failed with its count of faults, or which one has no room; sectors that were put before it have been copied. `buffer`
/// then holds any bytes. Takes no memory.
pub fn copy_block<D: Device>(
    nodes: &mut Nodes<D>,
    from: NodeId,
    to: NodeId,
    block: u64,
    sectors: u128,
    buffer: &mut [u8],
) -> Result<(), Fault>
    requires block { block * 65536 < node_size nodes.old to }
    requires size { node_size nodes.old to ≤ 9223372036854775808 }
    requires sizes { node_size nodes.old to ≤ node_size nodes.old from }
    requires room { length buffer.old ≡ 65536 }
    requires may { MayWriteThrough nodes.old to }
    ensures copies { CopiesBlock nodes.old nodes.new from to
        (block_of (node_size nodes.old to) block) sectors result }
    ensures disk { AreTold nodes.old.devices
        → IsPut (block_of (node_size nodes.old to) block) sectors
        (bytes_at (disk_of nodes.old from) (block * 65536)
        (block_of (node_size nodes.old to) block).len)
        (disk_of nodes.old to) (disk_of nodes.new to) (IsOk result) }
    ensures others { (other : ℕ) → IsApartFrom nodes.old other to
        → disk_of nodes.new other ≡ disk_of nodes.old other }
    ensures kept { LeavesNodes nodes.old nodes.new to }
    ensures told { AreTold nodes.old.devices → AreTold nodes.new.devices }
    ensures buffer { length buffer.new ≡ length buffer.old }
{
    let whole = block_of(nodes.size(to), block);
    let bytes = &mut buffer[..whole.len as usize];
    let read = nodes.peek_piece(from, whole, bytes);
    let _ = nodes.edges();
    if !read.is_good() {
        return answer_of(read);
    }
    answer_of(put_sectors(nodes, to, block, sectors, bytes))
}
