//! An overlay that is put over a node.
ghost use Rattle.std.specs.Prelude.{◌≡◌, ◌≢◌, Err, OnOk, OnErr};
ghost use Rattle.blk_graph.specs.Edits.{with_over};
ghost use Rattle.blk_graph.specs.Graph.{ids, HasNode};
ghost use Rattle.blk_graph.specs.Judged.{IsOverlayApart, IsJudged};
ghost use Rattle.blk_nodes.specs.Covering.{covered, IsClear, IsCover, ReadCovered};

use crate::nodes::Nodes;
use blk_base::Device;
use blk_graph::{GraphStop, NodeId};

impl<D: Device> Nodes<D> {
    /// Puts an overlay over a node: all parents of the node but jobs have the overlay as child, and the overlay has the node as
    /// backing node. The node is no format node's file, since such an edge never moves. It is Cycle where a node would then reach
    /// itself, which can't be where no edge leads to the overlay and it doesn't reach the node; else Conflict, with the first
    /// pair of edges that would break the permission rule. After an error nothing has changed. No device is called: where all
    /// devices tell their bytes, an overlay that maps no cluster and that no edge led to reads as the node did from then on, and
    /// each other node, the covered one too, as before.
    pub fn put_over(&mut self, node: NodeId, overlay: NodeId) -> Result<(), GraphStop>
        requires node { HasNode self.old.graph node }
        requires overlay { IsCover self.old node overlay }
        ensures judged { IsJudged (ids self.old.graph) self.old.graph.kinds
            (with_over node overlay self.old.graph.edges) result }
        ensures no_cycle { IsOverlayApart self.old.graph.edges node overlay
            → result ≢ Err GraphStop.Cycle }
        ensures ok { OnOk result (self.new ≡ covered node overlay self.old) }
        ensures disks { OnOk result (IsClear self.old overlay
            → ReadCovered self.old self.new node overlay) }
        ensures err { OnErr result (self.new ≡ self.old) }
    {
        self.graph.put_over(node, overlay)
    }
}
