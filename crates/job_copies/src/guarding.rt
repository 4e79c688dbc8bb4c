//! A block of a backup's source, before a guest writes it.
ghost use Rattle.std.specs.Prelude.{◌≡◌, ◌<◌, ℕ, Bool, List, false, None, length};
ghost use Rattle.blk_nodes.specs.Contents.{disk_of};
ghost use Rattle.blk_nodes.specs.Nodes.{AreTold, node_size};
ghost use Rattle.blk_nodes.specs.Writing.{IsApartFrom, LeavesNodes, MayWriteThrough};
ghost use Rattle.block_jobs.specs.Ahead.{IsAhead, is_owed};
ghost use Rattle.block_jobs.specs.Work.{block_at, block_count};
ghost use Rattle.job_copies.specs.Guarding.{Guards};
ghost use Rattle.qmp_codec.specs.declared.event.JobKind.TheVariants.{Backup};

use blk_base::Device;
use blk_graph::NodeId;
use blk_nodes::Nodes;
use block_jobs::JobWork;
use node_copies::copy_block;

/// Copies what is left of a block of a backup's source to its target, before a guest writes the block: behind that nothing of it is
/// owed, so that the write takes nothing from the backup. Where a call fails the work has met the fault, and nothing is done for the
/// job any more. `buffer` then holds any bytes. Takes no memory.
pub fn guard<D: Device>(
    nodes: &mut Nodes<D>,
    work: &mut JobWork,
    source: NodeId,
    target: NodeId,
    block: u64,
    buffer: &mut [u8],
)
    requires block { block < block_count work.old.size }
    requires source { node_size nodes.old source ≡ work.old.size }
    requires target { node_size nodes.old target ≡ work.old.size }
    requires room { length buffer.old ≡ 65536 }
    requires may { MayWriteThrough nodes.old target }
    ensures guards { Guards nodes.old nodes.new work.old work.new source target block }
    ensures ahead { AreTold nodes.old.devices → IsApartFrom nodes.old source target
        → work.new.met ≡ None → (due : ℕ → Bool) (goal : List ℕ)
        → IsAhead due (is_owed Backup work.old) (disk_of nodes.old source) goal
        (disk_of nodes.old target)
        → IsAhead due (is_owed Backup work.new) (disk_of nodes.new source) goal
        (disk_of nodes.new target) }
    ensures free { work.new.met ≡ None → (place : ℕ) → place < work.old.size
        → block_at place ≡ block → is_owed Backup work.new place ≡ false }
    ensures others { (other : ℕ) → IsApartFrom nodes.old other target
        → disk_of nodes.new other ≡ disk_of nodes.old other }
    ensures kept { LeavesNodes nodes.old nodes.new target }
    ensures told { AreTold nodes.old.devices → AreTold nodes.new.devices }
    ensures buffer { length buffer.new ≡ length buffer.old }
{
    work.law();
    let _ = nodes.edges();
    let sectors = work.sectors_left(block);
    if sectors == 0 {
        return;
    }
    match copy_block(nodes, source, target, block, sectors, buffer) {
        Ok(()) => work.copied(block),
        Err(fault) => work.fail(fault),
    }
}
