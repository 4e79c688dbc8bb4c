//! Nodes that a row names.
ghost use Rattle.std.specs.Prelude.{IfOk};
ghost use Rattle.blk_graph.specs.Graph.{HasNode};

use blk_fakes::MemDevice;
use blk_graph::NodeId;
use blk_nodes::Nodes;
use row_text::{Row, RowStop};

/// The name of a node, and `?` of one that isn't there.
pub(crate) fn name_of(nodes: &Nodes<MemDevice>, node: NodeId) -> &str {
    if nodes.nodes().contains(&node) {
        nodes.name(node)
    } else {
        "?"
    }
}

fn find(nodes: &Nodes<MemDevice>, name: &str) -> Option<NodeId> {
    for node in nodes.nodes() {
        if name_of(nodes, *node) == name {
            return Some(*node);
        }
    }
    None
}

/// The node of a name.
pub(crate) fn named_node(nodes: &Nodes<MemDevice>, name: &str) -> Result<NodeId, RowStop>
    ensures { IfOk result (HasNode nodes.now.graph) }
{
    match find(nodes, name) {
        Some(node) if nodes.nodes().contains(&node) => Ok(node),
        _ => Err(RowStop::Word),
    }
}

/// The node whose name stands at a place.
pub(crate) fn node(nodes: &Nodes<MemDevice>, row: &Row, place: usize) -> Result<NodeId, RowStop>
    ensures { IfOk result (HasNode nodes.now.graph) }
{
    named_node(nodes, row.word(place)?)
}
