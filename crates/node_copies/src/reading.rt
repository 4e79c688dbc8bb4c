//! Blocks that are read.
ghost use Rattle.std.specs.Prelude.{◌≡◌, ◌*◌, ◌<◌, ◌≤◌, ℕ, length};
ghost use Rattle.blk_nodes.specs.Contents.{disk_of};
ghost use Rattle.blk_nodes.specs.Nodes.{AreTold, node_size};
ghost use Rattle.node_copies.specs.Putting.{ReadsBlock};
ghost use Rattle.node_copies.specs.Sectors.{block_of};

use crate::putting::block_of;
use blk_base::{Device, Outcome};
use blk_graph::NodeId;
use blk_nodes::Nodes;

/// Reads a block of a node's disk, which ends with the disk, to the front of a buffer that has room for a block. It is Good, or Io of
/// the device whose call failed, with its count of faults; the buffer then holds any bytes. No disk changes. Takes no memory.
pub fn read_block<D: Device>(
    nodes: &mut Nodes<D>,
    from: NodeId,
    block: u64,
    buffer: &mut [u8],
) -> Outcome
    requires block { block * 65536 < node_size nodes.old from }
    requires size { node_size nodes.old from ≤ 9223372036854775808 }
    requires room { length buffer.old ≡ 65536 }
    ensures reads { ReadsBlock nodes.old nodes.new from
        (block_of (node_size nodes.old from) block) buffer.new result }
    ensures disks { (other : ℕ) → disk_of nodes.new other ≡ disk_of nodes.old other }
    ensures told { AreTold nodes.old.devices → AreTold nodes.new.devices }
    ensures buffer { length buffer.new ≡ length buffer.old }
{
    let whole = block_of(nodes.size(from), block);
    let read = nodes.peek_piece(from, whole, &mut buffer[..whole.len as usize]);
    let _ = nodes.edges();
    read
}
