//! Pieces that are read, through copy-on-read too.
ghost use Rattle.std.specs.Prelude.{◌≡◌, ℕ, ◌<◌, ◌≤◌, true, [], ◌∷◌, length};
ghost use Rattle.blk_base.specs.Content.{bytes_at};
ghost use Rattle.blk_base.specs.Pieces.{block_size, end_of};
ghost use Rattle.q2_image.specs.Reading.{IsWithinCluster};
ghost use Rattle.blk_nodes.specs.Contents.{disk_of};
ghost use Rattle.blk_nodes.specs.Copying.{AtEach, HasRoomIn, IsBeside, IsMappedAt, IsRoomInEach, LeavesRest, MapsEach, ReadsPiece, images_met, images_met_in, puts_below};
ghost use Rattle.blk_nodes.specs.Joined.{IsJoined};
ghost use Rattle.blk_nodes.specs.Nodes.{AreTold, row_at, node_size};
ghost use Rattle.blk_nodes.specs.Reading.{ReadsDisk};
ghost use Rattle.blk_nodes.specs.Writing.{MayWriteThrough};

use crate::copying::puts_below;
use crate::nodes::Nodes;
use crate::parts::room_of;
use crate::source::Step;
use blk_base::{Device, Outcome, PIECE, Span};
use blk_graph::{NodeId, Parent, Role};

impl<D: Device> Nodes<D> {
    /// Whether a read through a node puts the cluster of a place into the node below.
    fn puts_below(&self, node: NodeId, child: NodeId, place: u64) -> bool
        requires { place < node_size self.now child }
        ensures { result ≡ puts_below (row_at self.now node) (row_at self.now child) place }
    {
        let Some(row) = &self.rows[node.index()] else {
            return false;
        };
        let Some(child) = &self.rows[child.index()] else {
            return false;
        };
        puts_below(row, child, place)
    }

    /// Whether there is room to put the cluster of a piece into an image that has none: Good, or NoSpace.
    fn room_in(&self, node: NodeId, child: NodeId, span: Span) -> Outcome
        requires inside { span.start < node_size self.now child }
        requires puts { puts_below (row_at self.now node) (row_at self.now child) span.start
            ≡ true }
        ensures { IsRoomInEach (child ∷ []) self.now span result }
    {
        let Some(file) = self.graph.child(Parent::Node(child), Role::File) else {
            unreachable!()
        };
        room_of(
            &self.rows[child.index()],
            &self.devices,
            file,
            span.start / PIECE,
        )
    }

    /// Whether there is room in all images that a read maps, down a chain of so many nodes: Good, or NoSpace.
    fn room_below(&self, turns: u32, node: NodeId, span: Span) -> Outcome
        requires inside { span.start < node_size self.now node }
        ensures { IsRoomInEach (images_met_in turns self.now node span.start) self.now span result }
    {
        let _ = self.edges();
        if turns == 0 {
            return Outcome::Good;
        }
        let Step::Below(next) = self.step(node, span.start) else {
            return Outcome::Good;
        };
        let room = self.room_below(turns - 1, next, span);
        if !room.is_good() || !self.puts_below(node, next, span.start) {
            return room;
        }
        self.room_in(node, next, span)
    }

    /// Writes a piece that was read to all images that its read maps, the lowest first, down a chain of so many nodes.
    fn map_below(&mut self, turns: u32, node: NodeId, span: Span, bytes: &[u8]) -> Outcome
        requires block { IsWithinCluster block_size span }
        requires inside { end_of span ≤ node_size self.old node }
        requires some { 0 < span.len }
        requires whole { length bytes.now ≡ span.len }
        requires may { AtEach (MayWriteThrough self.old)
            (images_met_in turns self.old node span.start) }
        requires room { AtEach (HasRoomIn self.old span)
            (images_met_in turns self.old node span.start) }
        requires read { AreTold self.old.devices
            → bytes.now ≡ bytes_at (disk_of self.old node) span.start span.len }
        ensures maps { MapsEach (images_met_in turns self.old node span.start) self.old self.new
            span bytes.now result }
        ensures mapped { result ≡ Outcome.Good → AtEach (IsMappedAt self.new span.start)
            (images_met_in turns self.old node span.start) }
        ensures joined { IsJoined self.new }
        ensures rest { LeavesRest (images_met_in turns self.old node span.start) self.old self.new
            result }
        ensures disk { AreTold self.old.devices → disk_of self.new node ≡ disk_of self.old node }
        ensures disks { AreTold self.old.devices → (other : ℕ)
            → AtEach (IsBeside self.old other) (images_met_in turns self.old node span.start)
            → disk_of self.new other ≡ disk_of self.old other }
    {
        let _ = self.edges();
        if turns == 0 {
            return Outcome::Good;
        }
        let Step::Below(next) = self.step(node, span.start) else {
            return Outcome::Good;
        };
        let puts = self.puts_below(node, next, span.start);
        let below = self.map_below(turns - 1, next, span, bytes);
        if !below.is_good() || !puts {
            return below;
        }
        self.write_in_image(next, span, bytes)
    }

    /// Reads a piece of a node's disk, which lies in one block of 65,536 bytes, and puts its cluster into each qcow2 node below a
    /// copy-on-read that the read meets and that has nothing there. It is Good; or NoSpace, where there is no room for one of
    /// them, and then nothing was tried; or Io, where a fault stopped the read or one of the writes: `buffer` then holds any
    /// bytes. Where the devices tell their bytes, the node's disk stays, whatever the outcome. Takes no memory.
    #[tactic(auto, unfolding(crate::specs::Copying::images_met))]
    pub fn read_piece(&mut self, node: NodeId, span: Span, buffer: &mut [u8]) -> Outcome
        requires block { IsWithinCluster block_size span }
        requires inside { end_of span ≤ node_size self.old node }
        requires whole { length buffer.old ≡ span.len }
        requires may { AtEach (MayWriteThrough self.old) (images_met self.old node span.start) }
        ensures none { span.len ≡ 0 → (result ≡ Outcome.Good) × (self.new ≡ self.old) }
        ensures read { AreTold self.old.devices
            → ReadsDisk result (disk_of self.old node) span buffer.new }
        ensures went { 0 < span.len
            → ReadsPiece self.old self.new node span buffer.new result }
        ensures mapped { 0 < span.len → result ≡ Outcome.Good
            → AtEach (IsMappedAt self.new span.start) (images_met self.old node span.start) }
        ensures rest { LeavesRest (images_met self.old node span.start) self.old self.new result }
        ensures disk { AreTold self.old.devices → disk_of self.new node ≡ disk_of self.old node }
        ensures disks { AreTold self.old.devices → (other : ℕ)
            → AtEach (IsBeside self.old other) (images_met self.old node span.start)
            → disk_of self.new other ≡ disk_of self.old other }
    {
        if span.len == 0 {
            return Outcome::Good;
        }
        let room = self.room_below(64, node, span);
        if !room.is_good() {
            return room;
        }
        let outcome = self.peek_piece(node, span, buffer);
        if !outcome.is_good() {
            return outcome;
        }
        self.map_below(64, node, span, buffer)
    }
}
