//! A block that was read for a backup or a mirror, and is written to its target.
ghost use Rattle.std.specs.Prelude.{◌≡◌, ◌<◌, ℕ, Bool, List, true, None, length};
ghost use Rattle.blk_copy.specs.Rows.{is_in_flight};
ghost use Rattle.blk_nodes.specs.Contents.{disk_of};
ghost use Rattle.blk_nodes.specs.Nodes.{AreTold, node_size};
ghost use Rattle.blk_nodes.specs.Writing.{IsApartFrom, LeavesNodes, MayWriteThrough};
ghost use Rattle.block_jobs.specs.Ahead.{IsAhead, is_owed};
ghost use Rattle.block_jobs.specs.Work.{block_count};
ghost use Rattle.job_copies.specs.Settling.{HoldsGoal, Settles, settled_sectors};
ghost use Rattle.node_copies.specs.Sectors.{block_of};

use blk_base::Device;
use blk_copy::Transfer;
use blk_graph::NodeId;
use blk_nodes::Nodes;
use block_jobs::JobWork;
use node_copies::{answer_of, put_sectors};
use qmp_codec::JobKind;

/// The sectors of a block that are written.
fn settled_sectors(work: &JobWork, kind: &JobKind, block: u64) -> u128
    requires { block < block_count work.now.size }
    ensures { result ≡ settled_sectors kind.now work.now block }
{
    match kind {
        JobKind::Mirror => u128::MAX,
        _ => work.sectors_left(block),
    }
}

/// Writes a block that was read for a backup or a mirror to its target: all of it for a mirror, and for a backup what is left of it. A
/// copy that came too late, for the block was copied since or the job has met a fault, is dropped, and the answer is false. Where a
/// call fails the work has met the fault, and nothing is done for the job any more. Takes no memory.
pub fn settle<D: Device>(
    nodes: &mut Nodes<D>,
    work: &mut JobWork,
    kind: JobKind,
    target: NodeId,
    t: Transfer,
    bytes: &[u8],
) -> bool
    requires own { t.job ≡ work.old.job }
    requires target { node_size nodes.old target ≡ work.old.size }
    requires whole { is_in_flight t work.old.rows ≡ true
        → length bytes.now ≡ (block_of work.old.size t.cluster).len }
    requires may { MayWriteThrough nodes.old target }
    ensures settles { Settles kind nodes.old nodes.new work.old work.new target t bytes.now
        result }
    ensures ahead { AreTold nodes.old.devices → work.new.met ≡ None → (due : ℕ → Bool)
        (source goal : List ℕ) → HoldsGoal kind work.old t.cluster due goal bytes.now
        → IsAhead due (is_owed kind work.old) source goal (disk_of nodes.old target)
        → IsAhead due (is_owed kind work.new) source goal (disk_of nodes.new target) }
    ensures others { (other : ℕ) → IsApartFrom nodes.old other target
        → disk_of nodes.new other ≡ disk_of nodes.old other }
    ensures kept { LeavesNodes nodes.old nodes.new target }
    ensures told { AreTold nodes.old.devices → AreTold nodes.new.devices }
{
    work.law();
    let _ = nodes.edges();
    if !work.is_in_flight(t) {
        return false;
    }
    let block = t.cluster;
    let sectors = settled_sectors(work, &kind, block);
    match answer_of(put_sectors(nodes, target, block, sectors, bytes)) {
        Ok(()) => work.settled(kind, block),
        Err(fault) => work.fail(fault),
    }
    true
}
