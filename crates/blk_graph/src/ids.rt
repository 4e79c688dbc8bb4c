//! The id that a node gets.
ghost use Rattle.std.specs.Prelude.{ℕ, ◌<◌, ◌↔◌, IsTrue, IfSome, IfNone, length, Contains};
ghost use Rattle.blk_graph.specs.Ids.{IsLowestFree};

use crate::edge::{MOST_NODES, NodeId};

fn has_id(nodes: &[NodeId], node: NodeId) -> bool
    ensures { IsTrue result ↔ Contains nodes.now node }
{
    for other in nodes {
        if *other == node {
            return true;
        }
    }
    false
}

/// The lowest id that none of the nodes has, so that a plan can name a node before it is there.
pub fn free_id(nodes: &[NodeId]) -> Option<NodeId>
    ensures free { IfSome result (IsLowestFree nodes.now) }
    ensures none { IfNone result ((id : ℕ) → id < 64 → Contains nodes.now id) }
{
    for id in 0..MOST_NODES {
        let node = NodeId::new(id);
        if !has_id(nodes, node) {
            return Some(node);
        }
    }
    None
}

/// The same where one is free.
pub(crate) fn next_id(nodes: &[NodeId]) -> NodeId
    requires { length nodes.now < 64 }
    ensures { IsLowestFree nodes.now result }
{
    match free_id(nodes) {
        Some(node) => node,
        None => unreachable!(),
    }
}
