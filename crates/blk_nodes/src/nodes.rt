//! The nodes.
ghost use Rattle.std.specs.Prelude.{◌≡◌, ◌≢◌, ◌↔◌, ℕ, ◌<◌, ◌≤◌, length, IfOk, IfErr, IsOk, OnOk, OnErr, IsErrAnd, IsTrue, IfSome, Err, Some, None};
ghost use Rattle.blk_base.specs.Pieces.{block_size, end_of};
ghost use Rattle.blk_graph.specs.Edits.{with_edge};
ghost use Rattle.blk_graph.specs.Graph.{HasName, HasNode, ids};
ghost use Rattle.blk_graph.specs.Ids.{IsLowestFree};
ghost use Rattle.blk_nodes.specs.Adding.{with_node_row, with_node_device, with_below, kind_with, without_guest, file_edge, guest_edge, raw_row, is_read_only_in, IsDenied, IsFileStop, IsNameStop, IsOverStop};
ghost use Rattle.blk_nodes.specs.Joined.{IsFile, IsJoined};
ghost use Rattle.blk_graph.specs.Rule.{KeepsPermissions, first_conflict};
ghost use Rattle.blk_graph.specs.declared.edge.Conflict.{Conflict as Pair};
ghost use Rattle.q2_image.specs.Reading.{IsWithinCluster};
ghost use Rattle.blk_nodes.specs.Nodes.{no_nodes, row_at, node_size, AreTold};
ghost use Rattle.blk_nodes.specs.Contents.{told, disk_under, disk_of, bytes_of, Unfolds};
ghost use Rattle.blk_nodes.specs.Overlays.{copying_row, with_children, backing_node, backing_size, IsQcow2Added, IsQcow2Stop};
ghost use Rattle.q2_format.specs.Contents.{file_disk, raw_disk, image_disk};
ghost use Rattle.blk_nodes.specs.Found.{FindsBytes, IsReadOfSource};
ghost use Rattle.blk_nodes.specs.Walk.{CanSourceBeRead, GoesDown, LeadsToSource, LeadsOn};
ghost use Rattle.blk_nodes.specs.Sources.{step_of, source_in, source_at};
ghost use Rattle.blk_nodes.specs.Reading.{HaveRisen, IsReadBelow, ReadsDisk};

mod copying;
mod covering;
mod dropping;
mod ending;
mod filtering;
mod flushing;
mod formatting;
mod imaging;
mod jobs;
mod looks;
mod renaming;
mod rewiring;
mod writing;

use crate::adding::{conflict_of, draw_edges, take_back, take_drawn};
use crate::backing::Backing;
use crate::cluster::Cluster;
use crate::devices::{Devices, Held};
use crate::found::read_found;
use crate::opening::open_over;
use crate::row::{Driver, RawImage, Row, node_kind, step};
use crate::source::{Source, Step};
use crate::stop::AddStop;
use crate::zeros::Zeros;
use blk_base::{DevNo, Device, NoMemory, Outcome, Span, Text};
use blk_graph::{Conflict, Edge, EdgeList, Graph, Kind, MOST_NODES, NodeId, Parent, Role};
pub use jobs::NodeUse;
use std::alloc::Global;
use std::marker::Model;

/// Nodes by name, the edges between them, and the devices of the `file` nodes.
#[derive(Drop)]
pub struct Nodes<D: Device> {
    alloc: Global,
    graph: Graph,
    // Where edges of several roles are drawn before they are the graph's.
    draft: EdgeList,
    // By the numbers of their nodes.
    rows: Vec<Option<Row>>,
    zeros: Zeros,
    // Where clusters of images are put together.
    cluster: Cluster,
    devices: Devices<D>,
}

impl<D: Device> Model for Nodes<D> {
    ghost use Rattle.blk_nodes.specs.Nodes.{Nodes as Seen};
    ghost use Rattle.blk_nodes.specs.Joined.{IsJoined};

    ghost Value = { Seen };

    ghost view = { λ n. record { graph = n.graph; rows = n.rows.items; devices = n.devices } };

    ghost invariant = { λ n. IsJoined
        (record { graph = n.graph; rows = n.rows.items; devices = n.devices }) };
}

/// Rows for 64 nodes that aren't there yet.
fn no_rows(alloc: Global) -> Result<Vec<Option<Row>>, NoMemory>
    ensures { IfOk result (λ rows. rows.items ≡ no_nodes.rows) }
{
    let mut rows = Vec::with_capacity(alloc, MOST_NODES)?;
    while rows.len() < MOST_NODES {
        rows.push(None)?;
    }
    Ok(rows)
}

impl<D: Device> Nodes<D> {
    /// No node. Room for 64 is taken here.
    pub fn new(alloc: Global) -> Result<Self, NoMemory>
        ensures { IfOk result (λ nodes. nodes ≡ no_nodes) }
    {
        Ok(Nodes {
            alloc,
            graph: Graph::new(alloc)?,
            draft: EdgeList::new(alloc)?,
            rows: no_rows(alloc)?,
            zeros: Zeros::new(alloc)?,
            cluster: Cluster::new(alloc)?,
            devices: Devices::new(alloc)?,
        })
    }

    /// The bytes of a node's disk; of no node, 0.
    pub fn size(&self, node: NodeId) -> u64
        ensures { result ≡ node_size self.now node }
    {
        match &self.rows[node.index()] {
            None => 0,
            Some(row) => row.size,
        }
    }

    /// Whether a node is one over a device.
    pub fn is_file(&self, node: NodeId) -> bool
        ensures file { IsTrue result ↔ IsFile self.now node }
        ensures node { IsTrue result → HasNode self.now.graph node }
    {
        match &self.rows[node.index()] {
            None => false,
            Some(row) => matches!(row.driver, Driver::File),
        }
    }

    /// The edges of the graph in order of making. What is true of the nodes at each moment comes with them.
    pub fn edges(&self) -> &[Edge]
        ensures edges { result.now ≡ self.now.graph.edges }
        ensures joined { IsJoined self.now }
        ensures disks { Unfolds self.now }
    {
        self.graph.edges()
    }

    /// Why no node of this name can be added.
    fn check_name(&self, name: &str) -> Result<(), AddStop>
        ensures ok { OnOk result
            (¬ HasName self.now.graph name.now × (length self.now.graph.nodes ≢ 64)) }
        ensures stop { IfErr result (IsNameStop self.now.graph name.now) }
    {
        if self.graph.node_named(name).is_some() {
            return Err(AddStop::NameTaken);
        }
        if self.graph.nodes().len() == MOST_NODES {
            return Err(AddStop::TooManyNodes);
        }
        Ok(())
    }

    /// Adds a `file` node over a device, whose number among the openings of the run is `number`. Its disk has the length
    /// that the device has now. Refused are a name that is taken and a 65th node; a refusal leaves all as it was and gives
    /// the device back.
    pub fn add_file(
        &mut self,
        name: Text,
        device: D,
        number: DevNo,
        read_only: bool,
    ) -> Result<NodeId, (AddStop, D)>
        ensures taken { IsErrAnd result
            (λ e. e.0 ≡ AddStop.NameTaken) ↔ HasName self.old.graph name.bytes }
        ensures full { IsErrAnd result
            (λ e. e.0 ≡ AddStop.TooManyNodes) ↔
            ((length self.old.graph.nodes ≡ 64) × ¬ HasName self.old.graph name.bytes) }
        ensures only { IfErr result (λ e. IsFileStop e.0) }
        ensures ok { IfOk result
            (λ id. self.new
            ≡ with_node_device
            (with_node_row self.old id name.bytes
            (record { driver = Driver.File; size = D.size device; is_read_only = read_only }))
            (record {
              node = id;
              number = number;
              content = D.content device;
              is_flushed = D.is_flushed device;
              log = D.log device;
              size = D.size device;
              capacity = D.capacity device;
              faults = D.faults device;
              failed_call = D.failed_call device;
            })) }
        ensures lowest { IfOk result (IsLowestFree (ids self.old.graph)) }
        ensures disks { OnOk result ((other : ℕ) → HasNode self.old.graph other
            → disk_of self.new other ≡ disk_of self.old other) }
        ensures disk { IfOk result
            (λ id. disk_of self.new id ≡ file_disk (D.size device) (told (D.content device))) }
        ensures err { OnErr result (self.new ≡ self.old) }
        ensures back { IfErr result (λ e. e.1 ≡ device) }
    {
        if let Err(stop) = self.check_name(name.as_str()) {
            return Err((stop, device));
        }
        if self.devices.list.reserve(1).is_err() {
            return Err((AddStop::NoMemory, device));
        }
        let kind = node_kind(Kind::Protocol, read_only);
        let Ok(node) = self.graph.add_node(name, kind) else {
            unreachable!()
        };
        self.rows[node.index()] = Some(Row {
            driver: Driver::File,
            size: device.length(),
            is_read_only: read_only,
        });
        self.devices.list.push_reserved(Held {
            node,
            number,
            device,
        });
        Ok(node)
    }

    /// Adds a `raw` node: a part of a `file` node. Refused are a name that is taken, a 65th node, and an edge to the file
    /// that would break the permission rule, with the first broken pair; a refusal leaves all as it was. The pair may name
    /// the node that isn't there then.
    pub fn add_raw(
        &mut self,
        name: Text,
        file: NodeId,
        part: Span,
        read_only: bool,
    ) -> Result<NodeId, AddStop>
        requires file { IsFile self.old file }
        requires part { end_of part ≤ node_size self.old file }
        ensures taken { (result ≡ Err AddStop.NameTaken) ↔ HasName self.old.graph name.bytes }
        ensures full { (result ≡ Err AddStop.TooManyNodes)
            ↔ ((length self.old.graph.nodes ≡ 64) × ¬ HasName self.old.graph name.bytes) }
        ensures denied { (pair : Pair) → result ≡ Err (AddStop.Conflict pair)
            → IsDenied self.old (kind_with Kind.Raw read_only)
            (λ id. with_edge (file_edge id file)) pair }
        ensures only { IfErr result IsOverStop }
        ensures ok { IfOk result (λ id. self.new
            ≡ with_below (with_node_row self.old id name.bytes (raw_row part read_only))
            (file_edge id file)) }
        ensures lowest { IfOk result (IsLowestFree (ids self.old.graph)) }
        ensures disks { OnOk result ((other : ℕ) → HasNode self.old.graph other
            → disk_of self.new other ≡ disk_of self.old other) }
        ensures disk { IfOk result
            (λ id. disk_of self.new id ≡ raw_disk part.start part.len (disk_of self.old file)) }
        ensures err { OnErr result (self.new ≡ self.old) }
    {
        if let Err(stop) = self.check_name(name.as_str()) {
            return Err(stop);
        }
        let kind = node_kind(Kind::Raw, read_only);
        let Ok(node) = self.graph.add_node(name, kind) else {
            unreachable!()
        };
        let edge = Edge::of_node(node, Role::File, file);
        if let Err(stop) = self.graph.set_edge(edge) {
            take_back(&mut self.graph, node);
            return Err(AddStop::Conflict(conflict_of(stop)));
        }
        self.rows[node.index()] = Some(Row {
            driver: Driver::Raw(RawImage {
                offset: part.start,
                size: part.len,
            }),
            size: part.len,
            is_read_only: read_only,
        });
        Ok(node)
    }

    /// The bytes of a backing node's disk, 0 where there is none.
    fn backing_size(&self, backing: &Backing) -> u64
        ensures { result ≡ backing_size self.now backing.now }
    {
        match backing {
            Backing::Unsaid | Backing::Null => 0,
            Backing::Node(node) => self.size(*node),
        }
    }

    /// Adds a qcow2 node: the image in a `file` node, over a backing node, over nothing, or over nothing where its header names
    /// no backing file. It is refused for the first cause in the order of `AddStop`; a refusal leaves all as it was but for the
    /// count of a device whose read failed.
    pub fn add_qcow2(
        &mut self,
        name: Text,
        file: NodeId,
        backing: Backing,
        read_only: bool,
    ) -> Result<NodeId, AddStop>
        requires file { IsFile self.old file }
        requires backing { IfSome (backing_node backing) (HasNode self.old.graph) }
        ensures ok { IfOk result (IsQcow2Added self.old self.new
            (record {
              name = name.bytes;
              file = file;
              backing = backing;
              is_read_only = read_only;
            })) }
        ensures stop { IfErr result (IsQcow2Stop self.old self.new
            (record {
              name = name.bytes;
              file = file;
              backing = backing;
              is_read_only = read_only;
            })) }
        ensures err { OnErr result (self.new ≡ record self.old { devices = self.new.devices }) }
        ensures devices { HaveRisen self.old.devices self.new.devices }
        ensures disks { OnOk result ((other : ℕ) → HasNode self.old.graph other
            → disk_of self.new other ≡ disk_of self.old other) }
        ensures disk { IfOk result (λ id. disk_of self.new id
            ≡ image_disk (bytes_of self.old file)
            (disk_under (disk_of self.old) (backing_node backing))) }
    {
        let size = self.backing_size(&backing);
        if let Err(stop) = self.check_name(name.as_str()) {
            return Err(stop);
        }
        let kind = node_kind(Kind::Qcow2, read_only);
        let Ok(node) = self.graph.add_node(name, kind) else {
            unreachable!()
        };
        let over = backing.node();
        if let Err(pair) = draw_edges(&self.graph, &mut self.draft, node, file, over) {
            take_back(&mut self.graph, node);
            return Err(AddStop::Conflict(pair));
        }
        match open_over(self.alloc, &mut self.devices, file, &backing, size) {
            Err(stop) => {
                take_back(&mut self.graph, node);
                Err(stop)
            }
            Ok(image) => {
                take_drawn(&mut self.graph, &mut self.draft);
                self.rows[node.index()] = Some(Row {
                    size: image.size(),
                    driver: Driver::Qcow2(image),
                    is_read_only: read_only,
                });
                Ok(node)
            }
        }
    }

    /// Adds a node that reads as its child. Refused are a name that is taken, a 65th node, and an edge to the child that would
    /// break the permission rule, with the first broken pair; a refusal leaves all as it was.
    pub fn add_copy_on_read(
        &mut self,
        name: Text,
        child: NodeId,
        read_only: bool,
    ) -> Result<NodeId, AddStop>
        requires child { HasNode self.old.graph child }
        ensures taken { (result ≡ Err AddStop.NameTaken) ↔ HasName self.old.graph name.bytes }
        ensures full { (result ≡ Err AddStop.TooManyNodes)
            ↔ ((length self.old.graph.nodes ≡ 64) × ¬ HasName self.old.graph name.bytes) }
        ensures denied { (pair : Pair) → result ≡ Err (AddStop.Conflict pair)
            → IsDenied self.old (kind_with Kind.CopyOnRead read_only)
            (λ id. with_edge (file_edge id child)) pair }
        ensures only { IfErr result IsOverStop }
        ensures ok { IfOk result (λ id. self.new
            ≡ with_children self.old id name.bytes
            (copying_row (node_size self.old child) read_only)
            child None) }
        ensures lowest { IfOk result (IsLowestFree (ids self.old.graph)) }
        ensures disks { OnOk result ((other : ℕ) → HasNode self.old.graph other
            → disk_of self.new other ≡ disk_of self.old other) }
        ensures disk { IfOk result (λ id. disk_of self.new id ≡ disk_of self.old child) }
        ensures err { OnErr result (self.new ≡ self.old) }
    {
        let size = self.size(child);
        if let Err(stop) = self.check_name(name.as_str()) {
            return Err(stop);
        }
        let kind = node_kind(Kind::CopyOnRead, read_only);
        let Ok(node) = self.graph.add_node(name, kind) else {
            unreachable!()
        };
        if let Err(pair) = draw_edges(&self.graph, &mut self.draft, node, child, None) {
            take_back(&mut self.graph, node);
            return Err(AddStop::Conflict(pair));
        }
        take_drawn(&mut self.graph, &mut self.draft);
        self.rows[node.index()] = Some(Row {
            driver: Driver::CopyOnRead,
            size,
            is_read_only: read_only,
        });
        Ok(node)
    }

    /// Whether a node may not be written.
    pub fn is_read_only(&self, node: NodeId) -> bool
        ensures { result ≡ is_read_only_in (row_at self.now node) }
    {
        match &self.rows[node.index()] {
            None => false,
            Some(row) => row.is_read_only,
        }
    }

    /// Puts a guest's drive on a node, in place of the one that it had. It may write where the node may be written, and
    /// lets others write where `share_rw` says so. Where that would break the permission rule the first broken pair is
    /// answered, and all is as it was.
    pub fn attach(&mut self, guest: u32, node: NodeId, share_rw: bool) -> Result<(), Conflict>
        requires node { HasNode self.old.graph node }
        requires number { guest < 80 }
        ensures denied { (pair : Pair) → result ≡ Err pair
            → first_conflict (ids self.old.graph)
            (with_below self.old (guest_edge self.old guest node share_rw)).graph.edges
            ≡ Some pair }
        ensures ok { OnOk result
            (self.new ≡ with_below self.old (guest_edge self.old guest node share_rw)) }
        ensures kept { IsOk result ↔ KeepsPermissions
            (with_below self.old (guest_edge self.old guest node share_rw)).graph.edges }
        ensures err { OnErr result (self.new ≡ self.old) }
        ensures disks { (other : ℕ) → disk_of self.new other ≡ disk_of self.old other }
    {
        let edge = Edge::drive(guest, node, !self.is_read_only(node), share_rw);
        if let Err(stop) = self.graph.set_edge(edge) {
            return Err(conflict_of(stop));
        }
        Ok(())
    }

    /// Takes a guest's drive away.
    pub fn detach(&mut self, guest: u32)
        ensures edges { self.new ≡ without_guest guest self.old }
        ensures disks { (other : ℕ) → disk_of self.new other ≡ disk_of self.old other }
    {
        self.graph.clear_edges(Parent::Guest(guest));
    }

    /// One step down the chain of a node: where its bytes stand from a place on.
    fn step(&self, node: NodeId, place: u64) -> Step
        requires { place < node_size self.now node }
        ensures step { result ≡ step_of self.now node place }
        ensures walk { GoesDown self.now place result }
        ensures leads { LeadsOn self.now.graph.edges node result }
    {
        let file = self.graph.child(Parent::Node(node), Role::File);
        let backing = self.graph.child(Parent::Node(node), Role::Backing);
        let filtered = self.graph.child(Parent::Node(node), Role::Filtered);
        match &self.rows[node.index()] {
            None => Step::Found(Source::Zeros),
            Some(row) => step(row, node, file, backing, filtered, place),
        }
    }

    /// Where the bytes of a node's disk stand from a place on, down a chain of so many nodes.
    fn source_in(&self, turns: u32, node: NodeId, place: u64) -> Source
        requires { place < node_size self.now node }
        ensures source { result ≡ source_in turns self.now node place }
        ensures read { CanSourceBeRead self.now.rows self.now.devices place result }
        ensures leads { LeadsToSource self.now.graph.edges node result }
    {
        if turns == 0 {
            return Source::Zeros;
        }
        match self.step(node, place) {
            Step::Found(source) => source,
            Step::Below(next) => self.source_in(turns - 1, next, place),
        }
    }

    /// Where the bytes of a node's disk stand from a place on. No chain has more than 64 nodes.
    #[tactic(auto, unfolding(crate::specs::Sources::source_at))]
    fn source(&self, node: NodeId, place: u64) -> Source
        requires { place < node_size self.now node }
        ensures source { result ≡ source_at self.now node place }
        ensures read { CanSourceBeRead self.now.rows self.now.devices place result }
        ensures leads { LeadsToSource self.now.graph.edges node result }
    {
        self.source_in(64, node, place)
    }

    /// Reads a piece of a node's disk, which lies in one block of 65,536 bytes. It is Good, or Io of the device in whose file the
    /// bytes stand, with that device's count of faults; `buffer` then holds any bytes. Takes no memory.
    pub fn peek_piece(&mut self, node: NodeId, span: Span, buffer: &mut [u8]) -> Outcome
        requires block { IsWithinCluster block_size span }
        requires inside { end_of span ≤ node_size self.old node }
        requires whole { length buffer.old ≡ span.len }
        ensures read { AreTold self.old.devices
            → ReadsDisk result (disk_of self.old node) span buffer.new }
        ensures found { 0 < span.len → result ≡ Outcome.Good
            → FindsBytes self.old node span buffer.new }
        ensures outcome { IsReadBelow self.old self.new node result }
        ensures source { 0 < span.len → IsReadOfSource self.old.rows
            (source_at self.old node span.start) span self.old.devices self.new.devices result }
        ensures none { span.len ≡ 0 → (result ≡ Outcome.Good) × (self.new ≡ self.old) }
        ensures kept { self.new ≡ record self.old { devices = self.new.devices } }
        ensures devices { HaveRisen self.old.devices self.new.devices }
        ensures disks { (other : ℕ) → disk_of self.new other ≡ disk_of self.old other }
    {
        if span.len == 0 {
            return Outcome::Good;
        }
        let source = self.source(node, span.start);
        read_found(&self.rows, &mut self.devices, source, span, buffer)
    }
}
