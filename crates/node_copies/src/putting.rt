//! Sectors of a block that are put to a node.
ghost use Rattle.std.specs.Prelude.{◌≡◌, ◌↔◌, ◌-◌, ◌*◌, ◌%◌, ◌<◌, ◌≤◌, ℕ, length, IsTrue};
ghost use Rattle.blk_base.specs.Pieces.{block_size, end_of};
ghost use Rattle.blk_base.specs.declared.fault.Outcome.TheVariants.{Good};
ghost use Rattle.q2_image.specs.Reading.{IsWithinCluster};
ghost use Rattle.blk_nodes.specs.Contents.{disk_of};
ghost use Rattle.blk_nodes.specs.Nodes.{AreTold, node_size};
ghost use Rattle.blk_nodes.specs.Writing.{IsApartFrom, LeavesNodes, MayWriteThrough};
ghost use Rattle.node_copies.specs.Putting.{IsPut, IsZeroBlock, PutsRun, PutsRuns};
ghost use Rattle.node_copies.specs.Sectors.{block_of, run_bytes, run_span, runs_from, runs_of, sector_count};

use crate::sectors::{Run, next_run};
use blk_base::{Device, Outcome, PIECE, Span};
use blk_graph::NodeId;
use blk_nodes::Nodes;
use blk_runs::is_zero;

/// The bytes of a sector.
const SECTOR: u64 = 512;

/// A block of a disk, which ends with the disk.
pub(crate) fn block_of(size: u64, block: u64) -> Span
    requires inside { block * 65536 < size }
    requires size { size ≤ 9223372036854775808 }
    ensures { result ≡ block_of size block }
{
    let start = block * PIECE;
    Span {
        start,
        len: PIECE.min(size - start),
    }
}

/// How many sectors a block has.
fn sector_count(block: Span) -> u32
    requires { block.len ≤ block_size }
    ensures count { result ≡ sector_count block }
    ensures most { result ≤ 128 }
{
    block.len.div_ceil(SECTOR) as u32
}

/// Where a run lies on the disk.
fn run_span(block: Span, run: Run) -> Span
    requires order { run.from < run.to }
    requires within { run.to ≤ sector_count block }
    requires len { block.len ≤ block_size }
    ensures { result ≡ run_span block run }
{
    let from = SECTOR * u64::from(run.from);
    let to = (SECTOR * u64::from(run.to)).min(block.len);
    Span {
        start: block.start + from,
        len: to - from,
    }
}

/// The bytes of a run, of those of its block.
fn run_bytes(block: Span, run: Run, bytes: &[u8]) -> &[u8]
    requires order { run.from < run.to }
    requires within { run.to ≤ sector_count block }
    requires len { block.len ≤ block_size }
    requires whole { length bytes.now ≡ block.len }
    ensures { result.now ≡ run_bytes block bytes.now run }
{
    let from = SECTOR * u64::from(run.from);
    let to = (SECTOR * u64::from(run.to)).min(block.len);
    &bytes[from as usize..to as usize]
}

/// Whether a run is all of its block, and zeros.
fn is_zero_block(block: Span, span: Span, bytes: &[u8]) -> bool
    ensures { IsTrue result ↔ IsZeroBlock block span bytes.now }
{
    span.len == block.len && is_zero(bytes)
}

/// Puts one run.
fn put_run<D: Device>(
    nodes: &mut Nodes<D>,
    to: NodeId,
    block: Span,
    span: Span,
    bytes: &[u8],
) -> Outcome
    requires block { IsWithinCluster block_size span }
    requires inside { end_of span ≤ node_size nodes.old to }
    requires some { 0 < span.len }
    requires whole { length bytes.now ≡ span.len }
    requires may { MayWriteThrough nodes.old to }
    ensures { PutsRun block nodes.old nodes.new to span bytes.now result }
{
    if is_zero_block(block, span, bytes) {
        let outcome = nodes.zero_piece(to, span);
        let _ = nodes.edges();
        return outcome;
    }
    let outcome = nodes.write_piece(to, span, bytes);
    let _ = nodes.edges();
    outcome
}

/// Puts the runs from a sector on.
fn put_from<D: Device>(
    nodes: &mut Nodes<D>,
    to: NodeId,
    block: Span,
    sectors: u128,
    from: u32,
    bytes: &[u8],
) -> Outcome
    requires from { from ≤ sector_count block }
    requires start { block.start % 65536 ≡ 0 }
    requires len { block.len ≤ block_size }
    requires inside { end_of block ≤ node_size nodes.old to }
    requires whole { length bytes.now ≡ block.len }
    requires may { MayWriteThrough nodes.old to }
    ensures { PutsRuns (runs_from (sector_count block - from) sectors from) block nodes.old
        nodes.new to bytes.now result }
{
    let Some(run) = next_run(sectors, from, sector_count(block)) else {
        return Outcome::Good;
    };
    let span = run_span(block, run);
    let outcome = put_run(nodes, to, block, span, run_bytes(block, run, bytes));
    if !outcome.is_good() {
        return outcome;
    }
    put_from(nodes, to, block, sectors, run.to, bytes)
}

/// Puts the sectors of a block that are asked for to a node: of sector i, the 512 bytes from `512 * i` on, bit i. `bytes` has the
/// block's, up to the disk's end. Each run of them is written as one piece, until one is stopped, whose outcome is told; but a whole
/// block of zeros is made to read so, which a qcow2 node does without writing one. Takes no memory.
pub fn put_sectors<D: Device>(
    nodes: &mut Nodes<D>,
    to: NodeId,
    block: u64,
    sectors: u128,
    bytes: &[u8],
) -> Outcome
    requires block { block * 65536 < node_size nodes.old to }
    requires size { node_size nodes.old to ≤ 9223372036854775808 }
    requires whole { length bytes.now ≡ (block_of (node_size nodes.old to) block).len }
    requires may { MayWriteThrough nodes.old to }
    ensures puts { PutsRuns (runs_of (block_of (node_size nodes.old to) block) sectors)
        (block_of (node_size nodes.old to) block) nodes.old nodes.new to bytes.now result }
    ensures disk { AreTold nodes.old.devices
        → IsPut (block_of (node_size nodes.old to) block) sectors bytes.now
        (disk_of nodes.old to) (disk_of nodes.new to) (result ≡ Good) }
    ensures others { (other : ℕ) → IsApartFrom nodes.old other to
        → disk_of nodes.new other ≡ disk_of nodes.old other }
    ensures kept { LeavesNodes nodes.old nodes.new to }
    ensures told { AreTold nodes.old.devices → AreTold nodes.new.devices }
{
    let _ = nodes.edges();
    let whole = block_of(nodes.size(to), block);
    put_from(nodes, to, whole, sectors, 0, bytes)
}
