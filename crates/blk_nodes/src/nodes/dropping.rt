//! A node that goes.
ghost use Rattle.std.specs.Prelude.{◌≡◌, ℕ, None, Some, Err, IsOk, IfOk, OnOk, OnErr, MatchOption};
ghost use Rattle.blk_graph.specs.Graph.{HasNode};
ghost use Rattle.blk_graph.specs.Judged.{first_parent};
ghost use Rattle.blk_nodes.specs.Contents.{disk_of};
ghost use Rattle.blk_nodes.specs.Dropping.{nodes_without};
ghost use Rattle.blk_nodes.specs.Nodes.{DeviceSeen, device_in};

use crate::nodes::Nodes;
use blk_base::Device;
use blk_graph::{GraphStop, NodeId};

impl<D: Device> Nodes<D> {
    /// Drops a node that no edge leads to, with the edges that it makes, and gives its device back, as it was: Some for a `file`
    /// node, None for any other. The other nodes read as before. While an edge leads to it, it is InUse, with the parent of the
    /// first such edge, and nothing has changed.
    pub fn drop_node(&mut self, node: NodeId) -> Result<Option<D>, GraphStop>
        requires { HasNode self.old.graph node }
        ensures answer { MatchOption (first_parent node self.old.graph.edges) (IsOk result)
            (λ parent. result ≡ Err (GraphStop.InUse parent)) }
        ensures ok { OnOk result (self.new ≡ nodes_without node self.old) }
        ensures back { IfOk result
            (λ device. MatchOption device (device_in self.old.devices node ≡ None)
            (λ device. (held : DeviceSeen) × (device_in self.old.devices node ≡ Some held)
            × (held ≡ record held {
              content = D.content device;
              is_flushed = D.is_flushed device;
              log = D.log device;
              size = D.size device;
              capacity = D.capacity device;
              faults = D.faults device;
              failed_call = D.failed_call device;
            }))) }
        ensures disks { OnOk result ((other : ℕ) → HasNode self.new.graph other
            → disk_of self.new other ≡ disk_of self.old other) }
        ensures err { OnErr result (self.new ≡ self.old) }
    {
        match self.graph.remove_node(node) {
            Ok(()) => {
                self.rows[node.index()] = None;
                Ok(self.devices.take_out(node))
            }
            Err(stop) => Err(stop),
        }
    }
}
