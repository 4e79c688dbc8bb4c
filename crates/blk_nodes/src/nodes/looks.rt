//! What is there of a node.
ghost use Rattle.std.specs.Prelude.{◌≡◌, ◌↔◌, ◌<◌, ℕ, Contains, IsTrue, IfSome};
ghost use Rattle.std.specs.Option.{option_map};
ghost use Rattle.blk_graph.specs.Edits.{child_of};
ghost use Rattle.blk_graph.specs.Graph.{HasNode, ids};
ghost use Rattle.blk_graph.specs.Paths.{Reaches};
ghost use Rattle.blk_nodes.specs.Nodes.{row_at, node_size, kind_in};
ghost use Rattle.blk_nodes.specs.Overlays.{IsFresh};
ghost use Rattle.blk_nodes.specs.Owning.{has_own};

use crate::copying::has_own;
use crate::nodes::Nodes;
use crate::row::Driver;
use blk_base::Device;
use blk_graph::{Kind, NodeId, Parent, Role};

impl<D: Device> Nodes<D> {
    /// The nodes in order of addition.
    pub fn nodes(&self) -> &[NodeId]
        ensures { result.now ≡ ids self.now.graph }
    {
        self.graph.nodes()
    }

    /// The name of a node that is there.
    pub fn name(&self, node: NodeId) -> &str
        requires { HasNode self.now.graph node }
        ensures { Contains self.now.graph.nodes (record { id = node; name = result.now }) }
    {
        self.graph.name(node)
    }

    /// The child of a node's edge of that role.
    pub fn child(&self, node: NodeId, role: Role) -> Option<NodeId>
        ensures child { result ≡ child_of (Parent.Node node) role self.now.graph.edges }
        ensures there { IfSome result (HasNode self.now.graph) }
    {
        self.graph.child(Parent::Node(node), role)
    }

    /// Whether a path of one edge or more leads from one node to the other.
    pub fn reaches(&self, from: NodeId, to: NodeId) -> bool
        ensures { IsTrue result ↔ Reaches self.now.graph.edges from to }
    {
        self.graph.reaches(from, to)
    }

    /// What a node is.
    pub fn kind(&self, node: NodeId) -> Option<Kind>
        ensures { result ≡ option_map kind_in (row_at self.now node) }
    {
        match &self.rows[node.index()] {
            None => None,
            Some(row) => Some(row.kind()),
        }
    }

    /// Whether a node is a qcow2 one that maps no cluster.
    pub fn is_fresh(&self, node: NodeId) -> bool
        ensures { IsTrue result ↔ IsFresh self.now node }
    {
        match &self.rows[node.index()] {
            None => false,
            Some(row) => match &row.driver {
                Driver::Qcow2(image) => image.is_empty(),
                Driver::File | Driver::Raw(_) | Driver::CopyOnRead | Driver::Filter(_) => false,
            },
        }
    }

    /// Whether a node has the bytes of a place itself: in its file, or in a cluster that its image maps, be it one that reads as
    /// zeros. Else it reads there as the node below, or as zeros where there is none.
    pub fn has_own(&self, node: NodeId, place: u64) -> bool
        requires { place < node_size self.now node }
        ensures { result ≡ has_own place (row_at self.now node) }
    {
        match &self.rows[node.index()] {
            None => false,
            Some(row) => has_own(row, place),
        }
    }
}
