//! Nodes whose bytes are kept.
ghost use Rattle.std.specs.Prelude.{◌≡◌, ℕ};
ghost use Rattle.blk_graph.specs.Graph.{HasNode};
ghost use Rattle.blk_nodes.specs.Contents.{disk_of};
ghost use Rattle.blk_nodes.specs.Flushing.{base_in, base_of, under_of, IsFlushAt};

use crate::nodes::Nodes;
use blk_base::{Device, Outcome};
use blk_graph::{NodeId, Parent, Role};

impl<D: Device> Nodes<D> {
    /// The file of a node, or what it is the filter of.
    fn under(&self, node: NodeId) -> Option<NodeId>
        ensures { result ≡ under_of self.now node }
    {
        match self.graph.child(Parent::Node(node), Role::File) {
            None => self.graph.child(Parent::Node(node), Role::Filtered),
            file => file,
        }
    }

    /// The node at the end of these edges, of which so many are followed.
    fn base_in(&self, turns: u32, node: NodeId) -> NodeId
        ensures { result ≡ base_in turns self.now node }
    {
        if turns == 0 {
            return node;
        }
        match self.under(node) {
            None => node,
            Some(next) => self.base_in(turns - 1, next),
        }
    }

    /// The node at the end of them. No path has 64 edges.
    #[tactic(auto, unfolding(crate::specs::Flushing::base_of))]
    fn base(&self, node: NodeId) -> NodeId
        ensures { result ≡ base_of self.now node }
    {
        self.base_in(64, node)
    }

    /// Flushes the device under a node, at the end of its `file` edges and those of jobs' filters. It is Good, or Io of that device.
    /// Under a filter that has no child yet there is no device, and then it is Good.
    pub fn flush_node(&mut self, node: NodeId) -> Outcome
        requires { HasNode self.old.graph node }
        ensures flushed { IsFlushAt (base_of self.old node) self.old.devices self.new.devices
            result }
        ensures disks { (other : ℕ) → disk_of self.new other ≡ disk_of self.old other }
        ensures kept { self.new ≡ record self.old { devices = self.new.devices } }
    {
        let base = self.base(node);
        self.devices.flush_file(base)
    }
}
