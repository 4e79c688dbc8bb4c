//! The next block of a stream or a commit.
ghost use Rattle.std.specs.Prelude.{◌≡◌, ◌*◌, ◌<◌, ℕ, Bool, true, false, None, Some, IfSome, length};
ghost use Rattle.blk_base.specs.Content.{bytes_at};
ghost use Rattle.blk_nodes.specs.Contents.{disk_of};
ghost use Rattle.blk_nodes.specs.Nodes.{AreTold, node_size, row_at};
ghost use Rattle.blk_nodes.specs.Owning.{has_own};
ghost use Rattle.blk_nodes.specs.Parts.{IsImage};
ghost use Rattle.blk_nodes.specs.Writing.{IsApartFrom, LeavesNodes, MayWriteThrough};
ghost use Rattle.block_jobs.specs.Ahead.{IsAhead, is_owed};
ghost use Rattle.block_jobs.specs.Work.{block_count, next_block};
ghost use Rattle.job_copies.specs.Passing.{PassesBlock, PassesNext, all_sectors, is_streamed, IsShown};
ghost use Rattle.node_copies.specs.Between.{chain_end, is_held_between};
ghost use Rattle.node_copies.specs.Putting.{IsPut};
ghost use Rattle.node_copies.specs.Sectors.{block_of};
ghost use Rattle.qmp_codec.specs.declared.event.JobKind.TheVariants.{Commit};

use blk_base::{Device, PIECE};
use blk_graph::NodeId;
use blk_nodes::Nodes;
use block_jobs::JobWork;
use node_copies::{copy_block, held_below, held_between};

/// Copies a block of what the top reads as to a node, where it must be; it is left no more.
fn pass_block<D: Device>(
    nodes: &mut Nodes<D>,
    work: &mut JobWork,
    must: bool,
    top: NodeId,
    to: NodeId,
    block: u64,
    buffer: &mut [u8],
)
    requires block { block < block_count work.old.size }
    requires top { node_size nodes.old top ≡ work.old.size }
    requires to { node_size nodes.old to ≡ work.old.size }
    requires room { length buffer.old ≡ 65536 }
    requires may { MayWriteThrough nodes.old to }
    ensures passes { PassesBlock must nodes.old nodes.new work.old work.new top to block }
    ensures put { must ≡ true → AreTold nodes.old.devices
        → IsPut (block_of work.old.size block) all_sectors
        (bytes_at (disk_of nodes.old top) (block * 65536) (block_of work.old.size block).len)
        (disk_of nodes.old to) (disk_of nodes.new to) (work.new.met ≡ None) }
    ensures owns { must ≡ true → IsImage nodes.old to → work.new.met ≡ None
        → has_own (block * 65536) (row_at nodes.new to) ≡ true }
    ensures others { (other : ℕ) → IsApartFrom nodes.old other to
        → disk_of nodes.new other ≡ disk_of nodes.old other }
    ensures kept { LeavesNodes nodes.old nodes.new to }
    ensures told { AreTold nodes.old.devices → AreTold nodes.new.devices }
    ensures buffer { length buffer.new ≡ length buffer.old }
{
    work.law();
    if !must {
        work.copied(block);
        return;
    }
    match copy_block(nodes, top, to, block, u128::MAX, buffer) {
        Ok(()) => work.copied(block),
        Err(fault) => work.fail(fault),
    }
}

/// Whether a stream copies a block into its top: where the top shows it of a node above the base.
fn is_streamed<D: Device>(nodes: &Nodes<D>, base: Option<NodeId>, top: NodeId, block: u64) -> bool
    requires { block * 65536 < node_size nodes.now top }
    ensures { result ≡ is_streamed nodes.now base top (block * 65536) }
{
    let _ = nodes.size(top);
    if nodes.has_own(top, block * PIECE) {
        return false;
    }
    held_below(nodes, top, base, block)
}

/// Does the next block of a stream: where a node below the top, above the base, has it and the top hasn't, what the top reads as there
/// is copied into the top, which so reads as before; where the top is an image it shows nothing there of a node between from then on.
/// The answer is whether a block was left. Where a call fails the work has met the fault, and nothing is done for the job any more.
/// `buffer` then holds any bytes. Takes no memory.
pub fn stream_next<D: Device>(
    nodes: &mut Nodes<D>,
    work: &mut JobWork,
    top: NodeId,
    base: Option<NodeId>,
    buffer: &mut [u8],
) -> bool
    requires top { node_size nodes.old top ≡ work.old.size }
    requires room { length buffer.old ≡ 65536 }
    requires may { MayWriteThrough nodes.old top }
    ensures passes { PassesNext (is_streamed nodes.old base top) nodes.old nodes.new work.old
        work.new top top result }
    ensures disk { AreTold nodes.old.devices → disk_of nodes.new top ≡ disk_of nodes.old top }
    ensures shown { IsImage nodes.old top → work.new.met ≡ None → IfSome (next_block work.old)
        (λ block. IsShown nodes.new base top (block * 65536)) }
    ensures others { (other : ℕ) → IsApartFrom nodes.old other top
        → disk_of nodes.new other ≡ disk_of nodes.old other }
    ensures kept { LeavesNodes nodes.old nodes.new top }
    ensures told { AreTold nodes.old.devices → AreTold nodes.new.devices }
    ensures buffer { length buffer.new ≡ length buffer.old }
{
    work.law();
    let Some(block) = work.next_block() else {
        return false;
    };
    let must = is_streamed(nodes, base, top, block);
    pass_block(nodes, work, must, top, top, block, buffer);
    true
}

/// Does the next block of a commit: where a node from the top down to just above the base has it, what the top reads as there is
/// copied to the base; where none has it, the top reads as the base there. The answer is whether a block was left. Where a call fails
/// the work has met the fault, and nothing is done for the job any more. `buffer` then holds any bytes. Takes no memory.
pub fn commit_next<D: Device>(
    nodes: &mut Nodes<D>,
    work: &mut JobWork,
    top: NodeId,
    base: NodeId,
    buffer: &mut [u8],
) -> bool
    requires top { node_size nodes.old top ≡ work.old.size }
    requires base { node_size nodes.old base ≡ work.old.size }
    requires room { length buffer.old ≡ 65536 }
    requires may { MayWriteThrough nodes.old base }
    ensures passes { PassesNext (is_held_between nodes.old (Some base) top) nodes.old nodes.new
        work.old work.new top base result }
    ensures ahead { AreTold nodes.old.devices → chain_end nodes.old (Some base) top ≡ Some base
        → work.new.met ≡ None → (due : ℕ → Bool)
        → IsAhead due (is_owed Commit work.old) (disk_of nodes.old top) (disk_of nodes.old top)
        (disk_of nodes.old base)
        → IsAhead due (is_owed Commit work.new) (disk_of nodes.old top) (disk_of nodes.old top)
        (disk_of nodes.new base) }
    ensures others { (other : ℕ) → IsApartFrom nodes.old other base
        → disk_of nodes.new other ≡ disk_of nodes.old other }
    ensures kept { LeavesNodes nodes.old nodes.new base }
    ensures told { AreTold nodes.old.devices → AreTold nodes.new.devices }
    ensures buffer { length buffer.new ≡ length buffer.old }
{
    work.law();
    let _ = nodes.edges();
    let Some(block) = work.next_block() else {
        return false;
    };
    let must = held_between(nodes, top, Some(base), block);
    pass_block(nodes, work, must, top, base, block, buffer);
    true
}
