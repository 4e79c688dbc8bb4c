//! The walk along edges that says whether one node reaches another.
ghost use Rattle.std.specs.Prelude.{◌≡◌, ◌<◌, ◌≤◌, ◌↔◌, true, length, IsTrue};
ghost use Rattle.std.specs.Bool.{MatchBool};
ghost use Rattle.blk_graph.specs.Paths.{Reaches};
ghost use Rattle.blk_graph.specs.Walk.{leads_on, AllReached, AreMarksClosed, mark_count};

use crate::edge::{Edge, MOST_NODES, NodeId, Parent};

/// Whether the edge leads from where the walk has come to a node without a mark.
fn leads_on(edge: &Edge, from: NodeId, marks: &[bool]) -> bool
    requires { length marks.now ≡ 64 }
    ensures { result ≡ leads_on from marks.now edge.now }
{
    let reached = match edge.parent {
        Parent::Node(node) => node == from || marks[node.index()],
        Parent::Guest(_) | Parent::Job(_) => false,
    };
    reached && !marks[edge.child.index()]
}

/// Goes along each edge once, and marks what it comes to. Says whether there was anything new.
fn spread(edges: &[Edge], from: NodeId, marks: &mut [bool]) -> bool
    requires room { length marks.old ≡ 64 }
    requires reached { AllReached edges.now from marks.old }
    ensures reached { AllReached edges.now from marks.new }
    ensures more { MatchBool result (mark_count marks.old < mark_count marks.new)
        (AreMarksClosed edges.now from marks.new) }
{
    let mut grew = false;
    for edge in edges {
        if leads_on(edge, from, marks) {
            marks[edge.child.index()] = true;
            grew = true;
        }
    }
    grew
}

/// Whether a path of one edge or more leads from one node to the other.
pub(crate) fn reaches(edges: &[Edge], from: NodeId, to: NodeId) -> bool
    ensures { IsTrue result ↔ Reaches edges.now from to }
{
    let mut marks = [false; MOST_NODES];
    while spread(edges, from, &mut marks) {}
    marks[to.index()]
}
