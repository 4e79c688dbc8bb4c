//! The look for a node that reaches itself.
ghost use Rattle.std.specs.Prelude.{◌≡◌, ◌<◌, ◌↔◌, ◌&&◌, not, false, length, replicate, IsTrue};
ghost use Rattle.std.specs.Bool.{MatchBool};
ghost use Rattle.blk_graph.specs.Clear.{AreWaiting, ShowsWaiting, AreClear, AreCleared, AreStuck, is_unclear};
ghost use Rattle.blk_graph.specs.Edges.{IsListed};
ghost use Rattle.blk_graph.specs.Paths.{HasCycle};
ghost use Rattle.blk_graph.specs.Walk.{is_marked, mark_count};

use crate::edge::{Edge, MOST_NODES, Parent};

/// Marks the parent of an edge that leads to a node that isn't clear.
fn show_one(edge: &Edge, clear: &[bool], waiting: &mut [bool])
    requires clear { length clear.now ≡ 64 }
    requires waiting { length waiting.old ≡ 64 }
    ensures { ShowsWaiting clear.now edge.now waiting.old waiting.new }
{
    if let Parent::Node(node) = edge.parent {
        if !clear[edge.child.index()] {
            waiting[node.index()] = true;
        }
    }
}

/// Marks the nodes with an edge to one that isn't clear, which wait for it.
fn show_waiting(edges: &[Edge], clear: &[bool], waiting: &mut [bool])
    requires clear { length clear.now ≡ 64 }
    requires waiting { waiting.old ≡ replicate 64 false }
    ensures { AreWaiting edges.now clear.now waiting.new }
{
    for i in (0..edges.len()).rev() {
        show_one(&edges[i], clear, waiting);
    }
}

fn is_shut(node: usize, waiting: &[bool], clear: &[bool]) -> bool
    requires small { node < 64 }
    requires waiting { length waiting.now ≡ 64 }
    requires clear { length clear.now ≡ 64 }
    ensures { result ≡ (not (is_marked clear.now node) && not (is_marked waiting.now node)) }
{
    !clear[node] && !waiting[node]
}

/// Nodes that don't wait are clear. Says whether one wasn't before.
fn clear_rest(waiting: &[bool], clear: &mut [bool]) -> bool
    requires waiting { length waiting.now ≡ 64 }
    requires clear { length clear.old ≡ 64 }
    ensures cleared { AreCleared waiting.now clear.old clear.new }
    ensures more { MatchBool result (mark_count clear.old < mark_count clear.new)
        (clear.new ≡ clear.old) }
{
    let mut grew = false;
    for node in 0..MOST_NODES {
        if is_shut(node, waiting, clear) {
            clear[node] = true;
            grew = true;
        }
    }
    grew
}

/// Nodes that lead to clear ones alone are clear too. Says whether one wasn't before.
fn clear_more(edges: &[Edge], clear: &mut [bool]) -> bool
    requires listed { IsListed edges.now }
    requires room { length clear.old ≡ 64 }
    requires clear { AreClear edges.now clear.old }
    ensures clear { AreClear edges.now clear.new }
    ensures more { MatchBool result (mark_count clear.old < mark_count clear.new)
        (AreStuck edges.now clear.new) }
{
    let mut waiting = [false; MOST_NODES];
    show_waiting(edges, clear, &mut waiting);
    clear_rest(&waiting, clear)
}

fn is_unclear(edge: &Edge, clear: &[bool]) -> bool
    requires { length clear.now ≡ 64 }
    ensures { result ≡ is_unclear clear.now edge.now }
{
    match edge.parent {
        Parent::Node(node) => !clear[node.index()],
        Parent::Guest(_) | Parent::Job(_) => false,
    }
}

/// Whether some node reaches itself. In each turn all nodes become clear that lead to clear ones alone; those that never do
/// lead on and on.
pub(crate) fn has_cycle(edges: &[Edge]) -> bool
    requires { IsListed edges.now }
    ensures { IsTrue result ↔ HasCycle edges.now }
{
    let mut clear = [false; MOST_NODES];
    while clear_more(edges, &mut clear) {}
    for edge in edges {
        if is_unclear(edge, &clear) {
            return true;
        }
    }
    false
}
