//! Pieces of nodes, read and written.
ghost use Rattle.std.specs.Prelude.{◌≡◌, ◌↔◌, ◌≤◌, All, IsTrue, IfSome};
ghost use Rattle.blk_base.specs.Pieces.{end_of};
ghost use Rattle.q2_image.specs.Reading.{IsWithinCluster};
ghost use Rattle.blk_nodes.specs.Nodes.{node_size};
ghost use Rattle.blk_nodes.specs.Writing.{MayWriteThrough};
ghost use Rattle.node_rows.specs.Lone.{IsNoOthers, IsAwayFrom};

use crate::node::node;
use crate::text::put_outcome;
use blk_base::{Outcome, Span};
use blk_fakes::MemDevice;
use blk_graph::{Edge, Kind, NodeId, Parent, Role};
use blk_nodes::Nodes;
use row_text::{Row, RowStop, Words};
use std::alloc::Global;

/// The bytes of a cluster and of a block.
pub(crate) const CLUSTER: u64 = 65_536;

/// No disk is larger.
const LARGEST: u64 = 1_073_741_824;

/// Whether an edge is one of a node, where it leads to a file.
fn is_no_others(edge: &Edge, node: NodeId, file: NodeId) -> bool
    ensures { IsTrue result ↔ IsNoOthers node file edge.now }
{
    edge.child != file || edge.parent == Parent::Node(node)
}

/// Whether all edges into a file are those of one node.
fn is_only_parent(edges: &[Edge], node: NodeId, file: NodeId) -> bool
    ensures { IsTrue result → All (IsNoOthers node file) edges.now }
{
    edges.iter().all(|edge| is_no_others(edge, node, file))
}

/// Whether a backing node, where there is one, is another than a file, and no path leads from it there.
fn is_away(nodes: &Nodes<MemDevice>, over: Option<NodeId>, file: NodeId) -> bool
    ensures { IsTrue result → IfSome over (IsAwayFrom nodes.now.graph.edges file) }
{
    match over {
        None => true,
        Some(over) => over != file && !nodes.reaches(over, file),
    }
}

/// Whether a qcow2 node may be written.
#[tactic(auto, using(crate::proofs::Writable::may_write))]
fn may_write(nodes: &Nodes<MemDevice>, node: NodeId) -> bool
    ensures { IsTrue result → MayWriteThrough nodes.now node }
{
    let Some(file) = nodes.child(node, Role::File) else {
        return false;
    };
    nodes.kind(node) == Some(Kind::Qcow2)
        && !nodes.is_read_only(node)
        && is_only_parent(nodes.edges(), node, file)
        && is_away(nodes, nodes.child(node, Role::Backing), file)
}

/// A piece of a node's disk, where it lies in it and in one block.
fn piece_in(nodes: &Nodes<MemDevice>, node: NodeId, start: u64, len: usize) -> Option<Span>
    ensures len { IfSome result (λ span. span.len ≡ len) }
    ensures inside { IfSome result (λ span. end_of span ≤ node_size nodes.now node) }
    ensures block { IfSome result (IsWithinCluster 65536) }
{
    let size = nodes.size(node).min(LARGEST);
    let len = len as u64;
    if len > CLUSTER || start % CLUSTER > CLUSTER - len || start > size || len > size - start {
        return None;
    }
    Some(Span { start, len })
}

/// Writes bytes to a qcow2 node from a place on.
pub(crate) fn write(
    nodes: &mut Nodes<MemDevice>,
    node: NodeId,
    start: u64,
    bytes: &[u8],
) -> Result<Outcome, RowStop> {
    let Some(span) = piece_in(nodes, node, start, bytes.len()) else {
        return Err(RowStop::Call);
    };
    if !may_write(nodes, node) {
        return Err(RowStop::Call);
    }
    Ok(nodes.write_piece(node, span, bytes))
}

/// Writes so many zeros to a qcow2 node.
pub(crate) fn zero(
    nodes: &mut Nodes<MemDevice>,
    node: NodeId,
    start: u64,
    len: usize,
) -> Result<Outcome, RowStop> {
    let Some(span) = piece_in(nodes, node, start, len) else {
        return Err(RowStop::Call);
    };
    if !may_write(nodes, node) {
        return Err(RowStop::Call);
    }
    Ok(nodes.zero_piece(node, span))
}

/// Reads a piece of a node that begins there and fills the buffer.
pub(crate) fn read(
    nodes: &mut Nodes<MemDevice>,
    node: NodeId,
    start: u64,
    buffer: &mut [u8],
) -> Result<Outcome, RowStop> {
    let Some(span) = piece_in(nodes, node, start, buffer.len()) else {
        return Err(RowStop::Call);
    };
    Ok(nodes.peek_piece(node, span, buffer))
}

/// How many bytes a row reads or zeroes, which are at most a block.
fn length(row: &Row, place: usize) -> Result<usize, RowStop> {
    let len = row.short(place)?;
    if len > 65_536 {
        return Err(RowStop::Number);
    }
    Ok(len as usize)
}

/// `write NODE START BYTES`.
fn write_row(alloc: Global, nodes: &mut Nodes<MemDevice>, row: &Row) -> Result<Outcome, RowStop> {
    let node = node(nodes, row, 0)?;
    let bytes = row.bytes(alloc, 2)?;
    write(nodes, node, row.number(1)?, bytes.as_slice())
}

/// `zero NODE START LENGTH`.
fn zero_row(nodes: &mut Nodes<MemDevice>, row: &Row) -> Result<Outcome, RowStop> {
    let node = node(nodes, row, 0)?;
    zero(nodes, node, row.number(1)?, length(row, 2)?)
}

/// `read NODE START LENGTH`: the bytes.
fn read_row(
    alloc: Global,
    nodes: &mut Nodes<MemDevice>,
    row: &Row,
    out: &mut Words,
) -> Result<(), RowStop> {
    let node = node(nodes, row, 0)?;
    let mut buffer = Vec::new(alloc);
    buffer.resize(length(row, 2)?, 1u8)?;
    let outcome = read(nodes, node, row.number(1)?, buffer.as_mut_slice())?;
    if outcome.is_good() {
        out.bytes(buffer.as_slice());
    } else {
        put_outcome(outcome, out);
    }
    Ok(())
}

/// `flush NODE`.
fn flush_row(nodes: &mut Nodes<MemDevice>, row: &Row) -> Result<Outcome, RowStop> {
    let node = node(nodes, row, 0)?;
    Ok(nodes.flush_node(node))
}

/// `size NODE`.
fn size_row(nodes: &Nodes<MemDevice>, row: &Row) -> Result<u64, RowStop> {
    let node = node(nodes, row, 0)?;
    Ok(nodes.size(node))
}

#[derive(Clone, Copy)]
pub(crate) enum Call {
    Write,
    Zero,
    Read,
    Flush,
    Size,
}

pub(crate) const CALLS: [(&str, Call); 5] = [
    ("write", Call::Write),
    ("zero", Call::Zero),
    ("read", Call::Read),
    ("flush", Call::Flush),
    ("size", Call::Size),
];

/// Puts what is answered to a row on a piece.
pub(crate) fn answer_to(
    alloc: Global,
    nodes: &mut Nodes<MemDevice>,
    call: Call,
    row: &Row,
    out: &mut Words,
) -> Result<(), RowStop> {
    match call {
        Call::Write => put_outcome(write_row(alloc, nodes, row)?, out),
        Call::Zero => put_outcome(zero_row(nodes, row)?, out),
        Call::Read => return read_row(alloc, nodes, row, out),
        Call::Flush => put_outcome(flush_row(nodes, row)?, out),
        Call::Size => out.number(size_row(nodes, row)?),
    }
    Ok(())
}
