//! What nodes' edges ask and share, derived from the edges into the nodes.
ghost use Rattle.std.specs.Prelude.{◌≡◌, ◌<◌, ℕ, ◌==◌, if◌then◌else◌, length, map, replicate, vec_capacity, IsTrue};
ghost use Rattle.blk_graph.specs.Permissions.{idle_uses};
ghost use Rattle.blk_graph.specs.Refreshed.{joined, kind_at, uses_into, with_uses, ruled, turned, refreshed, IsTable};
ghost use Rattle.blk_graph.specs.declared.edge.Uses.{Uses as Seen};

use crate::edge::{Edge, MOST_NODES, NodeId, Parent, Perms, Uses};
use crate::kind::NodeKind;
use crate::uses::{IDLE, uses_by};

/// What one of two asks, and what both share.
fn joined(edge: &Edge, uses: &Uses) -> Uses
    ensures { result ≡ joined edge.now uses.now }
{
    Uses {
        perm: Perms {
            read: edge.perm.read || uses.perm.read,
            write: edge.perm.write || uses.perm.write,
            unchanged: edge.perm.unchanged || uses.perm.unchanged,
        },
        shared: Perms {
            read: edge.shared.read && uses.shared.read,
            write: edge.shared.write && uses.shared.write,
            unchanged: edge.shared.unchanged && uses.shared.unchanged,
        },
    }
}

/// Joins an edge to what is known of its child.
fn join(edge: &Edge, above: &mut [Uses])
    requires { length above.old ≡ 64 }
    ensures { (uses : ℕ → Seen) → IsTable uses above.old
        → IsTable (λ n. if edge.now.child == n then joined edge.now (uses n) else uses n)
        above.new }
{
    let child = edge.child.index();
    above[child] = joined(edge, &above[child]);
}

/// What the edges into each node ask together and all of them share, from an idle table.
fn join_all(edges: &[Edge], above: &mut [Uses])
    requires room { length above.old ≡ 64 }
    requires idle { IsTable (λ _. idle_uses) above.old }
    ensures { IsTable (uses_into edges.now) above.new }
{
    for i in (0..edges.len()).rev() {
        join(&edges[i], above);
    }
}

fn with_uses(edge: &Edge, uses: Option<Uses>) -> Edge
    ensures made { result ≡ with_uses edge.now uses }
    ensures kept { result ≡ record edge.now { perm = result.perm; shared = result.shared } }
{
    match uses {
        None => *edge,
        Some(uses) => Edge {
            perm: uses.perm,
            shared: uses.shared,
            ..*edge
        },
    }
}

/// An edge as its parent's kind and the edges into its parent say.
fn ruled(kinds: &[NodeKind], above: &[Uses], edge: &Edge) -> Edge
    requires kinds { length kinds.now ≡ 64 }
    requires above { length above.now ≡ 64 }
    ensures ruled { (uses : ℕ → Seen) → IsTable uses above.now
        → result ≡ ruled kinds.now uses edge.now }
    ensures kept { result ≡ record edge.now { perm = result.perm; shared = result.shared } }
{
    match edge.parent {
        Parent::Node(node) => with_uses(
            edge,
            uses_by(kinds[node.index()], edge.role, above[node.index()]),
        ),
        Parent::Guest(_) | Parent::Job(_) => *edge,
    }
}

fn idle_table() -> [Uses; MOST_NODES]
    ensures { result ≡ replicate 64 idle_uses }
{
    [IDLE; MOST_NODES]
}

fn same_uses(a: &Edge, b: &Edge) -> bool
    ensures { IsTrue result → (a.now.perm ≡ b.now.perm) × (a.now.shared ≡ b.now.shared) }
{
    a.perm == b.perm && a.shared == b.shared
}

/// Makes an edge as its parent's kind and the edges into its parent say. Says whether it was so.
fn rule_one(kinds: &[NodeKind], above: &[Uses], edge: &mut Edge) -> bool
    requires kinds { length kinds.now ≡ 64 }
    requires above { length above.now ≡ 64 }
    ensures edge { (uses : ℕ → Seen) → IsTable uses above.now → edge.new
        ≡ ruled kinds.now uses edge.old }
    ensures same { IsTrue result → edge.new ≡ edge.old }
{
    let made = ruled(kinds, above, edge);
    let same = same_uses(&made, edge);
    *edge = made;
    same
}

/// The same of each edge. Says whether all were so.
fn rule_all(kinds: &[NodeKind], above: &[Uses], edges: &mut Vec<Edge>) -> bool
    requires kinds { length kinds.now ≡ 64 }
    requires above { length above.now ≡ 64 }
    ensures edges { (uses : ℕ → Seen) → IsTable uses above.now → edges.new.items
        ≡ map (ruled kinds.now uses) edges.old.items }
    ensures same { IsTrue result → edges.new.items ≡ edges.old.items }
    ensures capacity { vec_capacity edges.new ≡ vec_capacity edges.old }
{
    let mut same = true;
    for i in 0..edges.len() {
        same &= rule_one(kinds, above, &mut edges[i]);
    }
    same
}

/// Makes each edge so once. Says whether all were so.
fn turn(kinds: &[NodeKind], edges: &mut Vec<Edge>) -> bool
    requires { length kinds.now ≡ 64 }
    ensures edges { edges.new.items ≡ turned kinds.now edges.old.items }
    ensures same { IsTrue result → edges.new.items ≡ edges.old.items }
    ensures capacity { vec_capacity edges.new ≡ vec_capacity edges.old }
{
    let mut above = idle_table();
    join_all(edges.as_slice(), &mut above);
    rule_all(kinds, &above, edges)
}

/// Makes each edge as the edges into its parent say. The turns end where one changes nothing.
pub(crate) fn refresh(kinds: &[NodeKind], edges: &mut Vec<Edge>)
    requires { length kinds.now ≡ 64 }
    ensures edges { edges.new.items ≡ refreshed kinds.now edges.old.items }
    ensures capacity { vec_capacity edges.new ≡ vec_capacity edges.old }
{
    for _ in 0..64u32 {
        if turn(kinds, edges) {
            return;
        }
    }
}
