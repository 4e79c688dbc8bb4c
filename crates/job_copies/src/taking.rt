//! A block of the source of a backup or a mirror that is read, to be written later.
ghost use Rattle.std.specs.Prelude.{◌≡◌, ℕ, Bool, List, None, length};
ghost use Rattle.blk_nodes.specs.Contents.{disk_of};
ghost use Rattle.blk_nodes.specs.Nodes.{AreTold, node_size};
ghost use Rattle.block_jobs.specs.Ahead.{IsAhead, is_owed};
ghost use Rattle.block_jobs.specs.Work.{HasRoomForAll};
ghost use Rattle.job_copies.specs.Taking.{IsGoalOf, Takes};

use blk_base::{Device, Fault};
use blk_copy::Transfer;
use blk_graph::NodeId;
use blk_nodes::Nodes;
use block_jobs::JobWork;
use node_copies::{answer_of, read_block};
use qmp_codec::JobKind;

/// Reads the next block of a backup or a mirror to the front of `buffer`, up to the disk's end, behind `position` entries of the
/// history; it is in flight from then on, until it is settled. It is None where each block with a part left is in flight already.
/// Where the read fails the work has met the fault, and nothing is done for the job any more; `buffer` then holds any bytes. No disk
/// changes. Takes no memory.
pub fn take<D: Device>(
    nodes: &mut Nodes<D>,
    work: &mut JobWork,
    kind: JobKind,
    source: NodeId,
    position: u64,
    buffer: &mut [u8],
) -> Result<Option<Transfer>, Fault>
    requires source { node_size nodes.old source ≡ work.old.size }
    requires room { HasRoomForAll work.old }
    requires bytes { length buffer.old ≡ 65536 }
    ensures takes { Takes kind nodes.old nodes.new work.old work.new source position buffer.new
        result }
    ensures ahead { work.new.met ≡ None → (due : ℕ → Bool) (disk goal made : List ℕ)
        → IsGoalOf kind disk goal → IsAhead due (is_owed kind work.old) disk goal made
        → IsAhead due (is_owed kind work.new) disk goal made }
    ensures disks { (other : ℕ) → disk_of nodes.new other ≡ disk_of nodes.old other }
    ensures told { AreTold nodes.old.devices → AreTold nodes.new.devices }
    ensures buffer { length buffer.new ≡ length buffer.old }
{
    work.law();
    let Some(block) = work.next_block() else {
        return Ok(None);
    };
    match answer_of(read_block(nodes, source, block, buffer)) {
        Ok(()) => Ok(Some(work.begin(kind, block, position))),
        Err(fault) => {
            work.fail(fault);
            Err(fault)
        }
    }
}
