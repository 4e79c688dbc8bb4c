//! Pieces that are written.
ghost use Rattle.std.specs.Prelude.{◌≡◌, ◌↔◌, ℕ, ◌≤◌, ◌<◌, length, replicate, IsTrue, Some};
ghost use Rattle.blk_base.specs.Content.{with_bytes};
ghost use Rattle.blk_base.specs.Pieces.{block_size, end_of};
ghost use Rattle.q2_image.specs.Reading.{IsWithinCluster};
ghost use Rattle.blk_nodes.specs.Contents.{disk_of};
ghost use Rattle.blk_nodes.specs.Joined.{IsJoined};
ghost use Rattle.blk_nodes.specs.Nodes.{AreTold, node_size, file_of};
ghost use Rattle.blk_nodes.specs.Parts.{HasPiece, IsImage};
ghost use Rattle.blk_nodes.specs.Sources.{source_at};
ghost use Rattle.blk_nodes.specs.Writing.{MayWriteThrough, WritesPiece, ZerosPiece, LeavesNodes, IsApartFrom, taken_by};

use crate::nodes::Nodes;
use crate::part::{Part, block_around};
use crate::parts::{write_part, zero_part};
use crate::row::Driver;
use crate::source::Source;
use blk_base::{Device, Outcome, Span};
use blk_graph::{NodeId, Parent, Role};

impl<D: Device> Nodes<D> {
    /// Whether a node is a qcow2 one.
    fn is_image(&self, node: NodeId) -> bool
        ensures { IsTrue result ↔ IsImage self.now node }
    {
        match &self.rows[node.index()] {
            None => false,
            Some(row) => matches!(row.driver, Driver::Qcow2(_)),
        }
    }

    /// Where a piece of a qcow2 node lies.
    fn part(&self, node: NodeId, span: Span) -> Part
        requires some { 0 < span.len }
        requires block { IsWithinCluster block_size span }
        requires inside { end_of span ≤ node_size self.now node }
        requires image { IsImage self.now node }
        ensures node { result.node ≡ node }
        ensures span { result.span ≡ span }
        ensures file { file_of self.now node ≡ Some result.file }
        ensures source { source_at self.now node result.whole.start ≡ result.source }
        ensures piece { HasPiece self.now.rows self.now.devices result }
    {
        let Some(file) = self.graph.child(Parent::Node(node), Role::File) else {
            unreachable!()
        };
        let whole = block_around(self.size(node), span);
        let source = self.source(node, whole.start);
        Part {
            node,
            file,
            span,
            whole,
            source,
        }
    }

    /// Writes a piece of a `file` or `raw` node.
    fn write_in_file(&mut self, node: NodeId, span: Span, bytes: &[u8]) -> Outcome
        requires inside { end_of span ≤ node_size self.old node }
        requires some { 0 < span.len }
        requires whole { length bytes.now ≡ span.len }
        requires may { MayWriteThrough self.old node }
        requires plain { ¬ IsImage self.old node }
        ensures wrote { WritesPiece self.old self.new node span bytes.now result }
        ensures disk { AreTold self.old.devices
            → disk_of self.new node
            ≡ with_bytes (disk_of self.old node) span.start (taken_by result bytes.now) }
        ensures others { (other : ℕ) → IsApartFrom self.old other node
            → disk_of self.new other ≡ disk_of self.old other }
        ensures kept { LeavesNodes self.old self.new node }
    {
        match self.source(node, span.start) {
            Source::File { file, start } => self.devices.write_file(file, start, bytes),
            _ => unreachable!(),
        }
    }

    /// Writes a piece of a qcow2 node.
    pub(super) fn write_in_image(&mut self, node: NodeId, span: Span, bytes: &[u8]) -> Outcome
        requires block { IsWithinCluster block_size span }
        requires inside { end_of span ≤ node_size self.old node }
        requires some { 0 < span.len }
        requires whole { length bytes.now ≡ span.len }
        requires may { MayWriteThrough self.old node }
        requires image { IsImage self.old node }
        ensures wrote { WritesPiece self.old self.new node span bytes.now result }
        ensures disk { AreTold self.old.devices
            → disk_of self.new node
            ≡ with_bytes (disk_of self.old node) span.start (taken_by result bytes.now) }
        ensures others { (other : ℕ) → IsApartFrom self.old other node
            → disk_of self.new other ≡ disk_of self.old other }
        ensures kept { LeavesNodes self.old self.new node }
        ensures joined { IsJoined self.new }
    {
        let part = self.part(node, span);
        write_part(
            &mut self.rows,
            &mut self.devices,
            &mut self.cluster,
            &part,
            bytes,
        )
    }

    /// Writes a piece of a node's disk, which lies in one block of 65,536 bytes. It is Good; or Torn, where a fault stopped it
    /// behind the first `done` bytes of a write in place; or Io, where a fault stopped it before; or NoSpace, where there is no
    /// room for it, and then no byte was written. Of a cluster that a qcow2 node doesn't map the rest is read down the chain, and
    /// the whole cluster is written. Of the image's entries only that of the cluster may change, and only where the write is Good.
    /// Takes no memory.
    pub fn write_piece(&mut self, node: NodeId, span: Span, bytes: &[u8]) -> Outcome
        requires block { IsWithinCluster block_size span }
        requires inside { end_of span ≤ node_size self.old node }
        requires whole { length bytes.now ≡ span.len }
        requires may { MayWriteThrough self.old node }
        ensures none { span.len ≡ 0 → (result ≡ Outcome.Good) × (self.new ≡ self.old) }
        ensures wrote { 0 < span.len → WritesPiece self.old self.new node span bytes.now result }
        ensures disk { AreTold self.old.devices
            → disk_of self.new node
            ≡ with_bytes (disk_of self.old node) span.start (taken_by result bytes.now) }
        ensures others { (other : ℕ) → IsApartFrom self.old other node
            → disk_of self.new other ≡ disk_of self.old other }
        ensures kept { LeavesNodes self.old self.new node }
    {
        if span.len == 0 {
            return Outcome::Good;
        }
        if self.is_image(node) {
            return self.write_in_image(node, span, bytes);
        }
        self.write_in_file(node, span, bytes)
    }

    /// Writes zeros to a piece of a `file` or `raw` node.
    fn zero_in_file(&mut self, node: NodeId, span: Span) -> Outcome
        requires block { IsWithinCluster block_size span }
        requires inside { end_of span ≤ node_size self.old node }
        requires some { 0 < span.len }
        requires may { MayWriteThrough self.old node }
        requires plain { ¬ IsImage self.old node }
        ensures wrote { ZerosPiece self.old self.new node span result }
        ensures disk { AreTold self.old.devices
            → disk_of self.new node
            ≡ with_bytes (disk_of self.old node) span.start
            (taken_by result (replicate span.len 0)) }
        ensures others { (other : ℕ) → IsApartFrom self.old other node
            → disk_of self.new other ≡ disk_of self.old other }
        ensures kept { LeavesNodes self.old self.new node }
    {
        match self.source(node, span.start) {
            Source::File { file, start } => {
                let zeros = self.zeros.first(span.len as usize);
                self.devices.write_file(file, start, zeros)
            }
            _ => unreachable!(),
        }
    }

    /// Writes zeros to a piece of a qcow2 node.
    fn zero_in_image(&mut self, node: NodeId, span: Span) -> Outcome
        requires block { IsWithinCluster block_size span }
        requires inside { end_of span ≤ node_size self.old node }
        requires some { 0 < span.len }
        requires may { MayWriteThrough self.old node }
        requires image { IsImage self.old node }
        ensures wrote { ZerosPiece self.old self.new node span result }
        ensures disk { AreTold self.old.devices
            → disk_of self.new node
            ≡ with_bytes (disk_of self.old node) span.start
            (taken_by result (replicate span.len 0)) }
        ensures others { (other : ℕ) → IsApartFrom self.old other node
            → disk_of self.new other ≡ disk_of self.old other }
        ensures kept { LeavesNodes self.old self.new node }
    {
        let part = self.part(node, span);
        let zeros = self.zeros.first(span.len as usize);
        zero_part(
            &mut self.rows,
            &mut self.devices,
            &mut self.cluster,
            &part,
            zeros,
        )
    }

    /// Writes zeros, with the same answers. A whole cluster of a qcow2 node is made to read as zeros by its entry alone, and a part
    /// of one that reads so is left.
    pub fn zero_piece(&mut self, node: NodeId, span: Span) -> Outcome
        requires block { IsWithinCluster block_size span }
        requires inside { end_of span ≤ node_size self.old node }
        requires may { MayWriteThrough self.old node }
        ensures none { span.len ≡ 0 → (result ≡ Outcome.Good) × (self.new ≡ self.old) }
        ensures wrote { 0 < span.len → ZerosPiece self.old self.new node span result }
        ensures disk { AreTold self.old.devices
            → disk_of self.new node
            ≡ with_bytes (disk_of self.old node) span.start
            (taken_by result (replicate span.len 0)) }
        ensures others { (other : ℕ) → IsApartFrom self.old other node
            → disk_of self.new other ≡ disk_of self.old other }
        ensures kept { LeavesNodes self.old self.new node }
    {
        if span.len == 0 {
            return Outcome::Good;
        }
        if self.is_image(node) {
            return self.zero_in_image(node, span);
        }
        self.zero_in_file(node, span)
    }
}
