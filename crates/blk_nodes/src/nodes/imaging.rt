//! An image that is looked at before the node over it is added.
ghost use Rattle.std.specs.Prelude.{◌≡◌, ◌↔◌, ℕ, length, None, Some, Err, IfOk, IfErr, IfSome, OnOk, OnErr};
ghost use Rattle.blk_graph.specs.Graph.{HasName, HasNode, ids};
ghost use Rattle.blk_graph.specs.Ids.{IsLowestFree};
ghost use Rattle.blk_graph.specs.declared.edge.Conflict.{Conflict as Pair};
ghost use Rattle.q2_format.specs.Contents.{image_disk};
ghost use Rattle.blk_nodes.specs.Adding.{kind_with, IsDenied, IsOverStop};
ghost use Rattle.blk_nodes.specs.Contents.{disk_under, bytes_of, disk_of};
ghost use Rattle.blk_nodes.specs.Joined.{IsFile};
ghost use Rattle.blk_nodes.specs.Nodes.{device_in};
ghost use Rattle.blk_nodes.specs.Overlays.{backing_node, backing_size, backing_stop, edges_for, with_qcow2, IsOpened, IsUnopened};
ghost use Rattle.blk_nodes.specs.Reading.{HaveRisen};

use crate::adding::{draw_edges, take_back, take_drawn};
use crate::backing::Backing;
use crate::nodes::Nodes;
use crate::row::{Driver, Row, node_kind};
use crate::stop::AddStop;
use blk_base::{DevNo, Device, Text};
use blk_graph::{Kind, NodeId};
use q2_image::{Image, ImageStop};
use std::alloc::Global;

impl<D: Device> Nodes<D> {
    /// The number of the device of a `file` node.
    pub fn number(&self, file: NodeId) -> DevNo
        requires { IsFile self.now file }
        ensures { IfSome (device_in self.now.devices file) (λ held. result ≡ held.number) }
    {
        self.devices.number_of(file)
    }

    /// Opens the image in a `file` node, over which no node is added yet. All stays but for the count of a device whose read
    /// failed.
    pub fn open_image(&mut self, alloc: Global, file: NodeId) -> Result<Image, ImageStop>
        requires { IsFile self.old file }
        ensures opened { IfOk result (IsOpened self.old.devices file) }
        ensures stop { IfErr result (IsUnopened self.old.devices self.new.devices file) }
        ensures quiet { OnOk result (self.new ≡ self.old) }
        ensures kept { self.new ≡ record self.old { devices = self.new.devices } }
        ensures devices { HaveRisen self.old.devices self.new.devices }
        ensures disks { (other : ℕ) → disk_of self.new other ≡ disk_of self.old other }
    {
        self.devices.open_image(alloc, file)
    }

    /// Adds a qcow2 node over an image that is open: that of a `file` node, over a backing node that fits it, over nothing, or
    /// over nothing where its header names no backing file. Refused are a name that is taken, a 65th node, and edges that would
    /// break the permission rule, with the first broken pair; a refusal leaves all as it was.
    pub fn add_image(
        &mut self,
        name: Text,
        file: NodeId,
        image: Image,
        backing: Backing,
        read_only: bool,
    ) -> Result<NodeId, AddStop>
        requires file { IsFile self.old file }
        requires backing { IfSome (backing_node backing) (HasNode self.old.graph) }
        requires opened { IsOpened self.old.devices file image }
        requires fits { backing_stop image backing (backing_size self.old backing) ≡ None }
        ensures taken { (result ≡ Err AddStop.NameTaken) ↔ HasName self.old.graph name.bytes }
        ensures full { (result ≡ Err AddStop.TooManyNodes)
            ↔ ((length self.old.graph.nodes ≡ 64) × ¬ HasName self.old.graph name.bytes) }
        ensures denied { (pair : Pair) → result ≡ Err (AddStop.Conflict pair)
            → IsDenied self.old (kind_with Kind.Qcow2 read_only)
            (edges_for (record {
              name = name.bytes;
              file = file;
              backing = backing;
              is_read_only = read_only;
            })) pair }
        ensures only { IfErr result IsOverStop }
        ensures ok { IfOk result (λ id. self.new ≡ with_qcow2 self.old
            (record { name = name.bytes; file = file; backing = backing; is_read_only = read_only })
            id image) }
        ensures lowest { IfOk result (IsLowestFree (ids self.old.graph)) }
        ensures disks { OnOk result ((other : ℕ) → HasNode self.old.graph other
            → disk_of self.new other ≡ disk_of self.old other) }
        ensures disk { IfOk result (λ id. disk_of self.new id
            ≡ image_disk (bytes_of self.old file)
            (disk_under (disk_of self.old) (backing_node backing))) }
        ensures err { OnErr result (self.new ≡ self.old) }
    {
        if let Err(stop) = self.check_name(name.as_str()) {
            return Err(stop);
        }
        let kind = node_kind(Kind::Qcow2, read_only);
        let Ok(node) = self.graph.add_node(name, kind) else {
            unreachable!()
        };
        let over = backing.node();
        if let Err(pair) = draw_edges(&self.graph, &mut self.draft, node, file, over) {
            take_back(&mut self.graph, node);
            return Err(AddStop::Conflict(pair));
        }
        take_drawn(&mut self.graph, &mut self.draft);
        self.rows[node.index()] = Some(Row {
            size: image.size(),
            driver: Driver::Qcow2(image),
            is_read_only: read_only,
        });
        Ok(node)
    }
}
