//! Edges and kinds that were judged elsewhere.
ghost use Rattle.std.specs.Prelude.{◌≡◌, ◌≤◌, ℕ, List, length};
ghost use Rattle.blk_nodes.specs.Contents.{disk_of};
ghost use Rattle.blk_nodes.specs.Joined.{IsJoined};
ghost use Rattle.blk_nodes.specs.Rewiring.{rewired, rows_by, AreReadings, IsWiring};

use crate::nodes::Nodes;
use crate::nodes::jobs::set_read_only;
use crate::row::Row;
use blk_base::Device;
use blk_graph::{EdgeList, MOST_NODES, NodeKind};

/// Lets the nodes of rows be written as their kinds say.
fn set_access(rows: &mut Vec<Option<Row>>, kinds: &[NodeKind; MOST_NODES])
    requires { length rows.old.items ≡ 64 }
    ensures { rows.new.items ≡ rows_by 64 kinds.now rows.old.items }
{
    for i in 0..MOST_NODES {
        set_read_only(&mut rows[i], !kinds[i].writes);
    }
}

impl<D: Device> Nodes<D> {
    /// Takes kinds and edges in the place of its own. They were judged where they were edited, so this refuses nothing; it takes
    /// no memory and calls no device. Any disks that go with the nodes then are what they read as.
    pub fn rewire(&mut self, kinds: &[NodeKind; MOST_NODES], edges: &EdgeList)
        requires { IsWiring self.old kinds.now edges.now }
        ensures nodes { self.new ≡ rewired kinds.now edges.now self.old }
        ensures joined { IsJoined self.new }
        ensures disks { (reads : ℕ → List ℕ) → AreReadings self.new reads
            → (node : ℕ) → disk_of self.new node ≡ reads node }
    {
        self.draft.copy_from(edges);
        self.graph.take(kinds, &mut self.draft);
        set_access(&mut self.rows, kinds);
    }
}
