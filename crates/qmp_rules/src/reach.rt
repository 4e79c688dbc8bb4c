//! Paths of edges.
ghost use Rattle.std.specs.Prelude.{◌≡◌, ◌||◌, ◌+◌, ℕ, Bool, false, length, List};
ghost use Rattle.blk_graph.specs.declared.edge.Edge.{Edge as Use};
ghost use Rattle.qmp_rules.specs.Chains.{leads};
ghost use Rattle.qmp_rules.specs.Reach.{IsMarked, leads_by};

use blk_graph::{Edge, MOST_NODES, NodeId, Parent};

/// Marks the node that an edge comes from, where it leads to the end or to a node that was marked before.
fn mark_one(edge: &Edge, to: NodeId, before: &[bool], after: &mut [bool])
    requires before { length before.now ≡ 64 }
    requires after { length after.old ≡ 64 }
    ensures { (steps : ℕ) (edges : List Use) (test : ℕ → Bool)
        → IsMarked (λ id. leads steps edges id to) before.now
        → IsMarked test after.old
        → IsMarked (λ id. leads_by steps edges id to edge.now || test id) after.new }
{
    if let Parent::Node(from) = edge.parent {
        if edge.child == to || before[edge.child.index()] {
            after[from.index()] = true;
        }
    }
}

/// Marks the nodes from which one step more leads to the end.
fn mark(edges: &[Edge], to: NodeId, before: &[bool], after: &mut [bool])
    requires before { length before.now ≡ 64 }
    requires after { length after.old ≡ 64 }
    requires none { IsMarked (λ _. false) after.old }
    ensures { (steps : ℕ) → IsMarked (λ id. leads steps edges.now id to) before.now
        → IsMarked (λ id. leads (steps + 1) edges.now id to) after.new }
{
    for i in (0..edges.len()).rev() {
        mark_one(&edges[i], to, before, after);
    }
}

#[tactic(auto, using(crate::proofs::ReachLemmas::unmarked))]
fn no_marks() -> [bool; MOST_NODES]
    ensures none { IsMarked (λ _. false) result }
    ensures count { length result ≡ 64 }
{
    [false; MOST_NODES]
}

/// Whether a path of 1 to 64 edges leads from one node to another.
pub(crate) fn leads(edges: &[Edge], from: NodeId, to: NodeId) -> bool
    ensures { result ≡ leads 64 edges.now from to }
{
    let mut marks = no_marks();
    for _ in 0..64u32 {
        let mut after = no_marks();
        mark(edges, to, &marks, &mut after);
        marks = after;
    }
    marks[from.index()]
}
