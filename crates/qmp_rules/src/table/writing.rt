//! What a guest's write makes of the table.
ghost use Rattle.std.specs.Prelude.{◌≡◌, ◌<◌, length, slice_set, slice_get, Some};
ghost use Rattle.qmp_rules.specs.Chains.{chain_below, is_listed, is_over, unsettled_over, written_under};
ghost use Rattle.qmp_rules.specs.declared.rows.NodeRecord.{NodeRecord as Row};

use crate::table::Names;
use blk_graph::NodeId;

impl Names {
    /// Whether a node is one of the backing nodes below another.
    fn is_below(&self, node: NodeId, id: NodeId) -> bool
        ensures { result ≡ is_listed node (chain_below self.now.table id) }
    {
        let mut top = id;
        for _ in 0..64u32 {
            match self.backing(top) {
                None => return false,
                Some(below) if below == node => return true,
                Some(below) => top = below,
            }
        }
        false
    }

    /// Whether a node reads another one as a backing node.
    fn is_over(&self, node: NodeId, id: NodeId) -> bool
        ensures { result ≡ is_over self.now.table node id }
    {
        self.is_below(node, self.disk_node(id))
    }

    /// One row more is as a write of a node leaves it.
    fn write_row(&mut self, node: NodeId, at: usize)
        requires { at < length self.old.table.nodes }
        ensures table { (row : Row) → slice_get self.old.table.nodes at ≡ Some row
            → self.new.table ≡ record self.old.table {
              nodes = slice_set self.old.table.nodes at (unsettled_over self.old.table node row);
            } }
        ensures spare { self.new.spare ≡ self.old.spare }
    {
        let id = self.nodes[at].id;
        if self.is_over(node, id) {
            self.nodes[at].is_settled = false;
        }
    }

    /// A guest's write changes a node: every other node that reads it as a backing node has no flat disk any more. Takes no
    /// memory.
    pub fn write_under(&mut self, node: NodeId)
        ensures table { self.new.table ≡ written_under node self.old.table }
        ensures spare { self.new.spare ≡ self.old.spare }
    {
        for at in 0..self.nodes.len() {
            self.write_row(node, at);
        }
    }
}
