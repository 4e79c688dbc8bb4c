//! The look for the first pair of edges that breaks the permission rule.
ghost use Rattle.std.specs.Prelude.{◌≡◌, length, IsTrue};
ghost use Rattle.blk_graph.specs.Edges.{ArePermsWithin};
ghost use Rattle.blk_graph.specs.Rule.{AllShare, AsksOnly, EachShares, RestIsCalm, first_denied, conflict_between, conflict_of, conflict_at, first_conflict};

use crate::edge::{Conflict, Edge, MOST_NODES, NodeId, Perm, Perms};

fn first_denied(asked: Perms, shared: Perms) -> Option<Perm>
    ensures { result ≡ first_denied asked shared }
{
    if asked.read && !shared.read {
        Some(Perm::Read)
    } else if asked.write && !shared.write {
        Some(Perm::Write)
    } else if asked.unchanged && !shared.unchanged {
        Some(Perm::Unchanged)
    } else {
        None
    }
}

/// What the edge at place `i` asks of the node and the one at place `j` does not share.
fn conflict_between(node: NodeId, i: usize, asking: Edge, j: usize, other: Edge) -> Option<Conflict>
    ensures { result ≡ conflict_between node i asking j other }
{
    if i == j || other.child != node {
        return None;
    }
    let perm = first_denied(asking.perm, other.shared)?;
    Some(Conflict {
        node,
        asks: asking.parent,
        denies: other.parent,
        perm,
    })
}

/// What all edges into a node share, for each node by its number.
fn share(edges: &[Edge], common: &mut [Perms])
    requires { length common.old ≡ 64 }
    ensures { EachShares edges.now common.new }
{
    for edge in edges {
        let child = edge.child.index();
        common[child] = both(common[child], edge.shared);
    }
}

/// Marks the nodes into which an edge asks what not all edges share.
fn suspect(edges: &[Edge], common: &[Perms], suspects: &mut [bool])
    requires nodes { length common.now ≡ 64 }
    requires marks { length suspects.old ≡ 64 }
    ensures { RestIsCalm edges.now common.now suspects.new }
{
    for edge in edges {
        let child = edge.child.index();
        if first_denied(edge.perm, common[child]).is_some() {
            suspects[child] = true;
        }
    }
}

fn both(a: Perms, b: Perms) -> Perms
    ensures first { ArePermsWithin result a }
    ensures second { ArePermsWithin result b }
{
    Perms {
        read: a.read && b.read,
        write: a.write && b.write,
        unchanged: a.unchanged && b.unchanged,
    }
}

/// The first conflict of what the edge at place `i` asks, by the other edge's place. Nothing has to be
/// looked for where all edges share what is asked.
fn conflict_of(
    edges: &[Edge],
    node: NodeId,
    i: usize,
    asking: Edge,
    common: Perms,
) -> Option<Conflict>
    requires { AllShare edges.now node common }
    ensures { result ≡ conflict_of edges.now node i asking }
{
    if asking.child != node || first_denied(asking.perm, common).is_none() {
        return None;
    }
    for (j, other) in edges.iter().enumerate() {
        let found = conflict_between(node, i, asking, j, *other);
        if found.is_some() {
            return found;
        }
    }
    None
}

/// The first conflict at a node, by the asking edge's place.
fn conflict_at(edges: &[Edge], node: NodeId, common: Perms) -> Option<Conflict>
    requires { AllShare edges.now node common }
    ensures { result ≡ conflict_at edges.now node }
{
    for (i, asking) in edges.iter().enumerate() {
        let found = conflict_of(edges, node, i, *asking, common);
        if found.is_some() {
            return found;
        }
    }
    None
}

const ALL: Perms = Perms {
    read: true,
    write: true,
    unchanged: true,
};

/// The first conflict, by the nodes' order. Two looks over the edges tell at which nodes there may be
/// one, and pairs are looked at there alone.
pub(crate) fn first_conflict(nodes: &[NodeId], edges: &[Edge]) -> Option<Conflict>
    ensures { result ≡ first_conflict nodes.now edges.now }
{
    let mut common = [ALL; MOST_NODES];
    share(edges, &mut common);
    let mut suspects = [false; MOST_NODES];
    suspect(edges, &common, &mut suspects);
    conflict_among(nodes, edges, &common, &suspects)
}

fn conflict_among(
    nodes: &[NodeId],
    edges: &[Edge],
    common: &[Perms],
    suspects: &[bool],
) -> Option<Conflict>
    requires nodes { length common.now ≡ 64 }
    requires marks { length suspects.now ≡ 64 }
    requires shares { EachShares edges.now common.now }
    requires calm { RestIsCalm edges.now common.now suspects.now }
    ensures { result ≡ first_conflict nodes.now edges.now }
{
    for node in nodes {
        let found = conflict_unless(edges, *node, common[node.index()], !suspects[node.index()]);
        if found.is_some() {
            return found;
        }
    }
    None
}

/// The first conflict at a node, which is known to have none where it is calm.
fn conflict_unless(edges: &[Edge], node: NodeId, common: Perms, calm: bool) -> Option<Conflict>
    requires shares { AllShare edges.now node common }
    requires calm { IsTrue calm → AsksOnly edges.now node common }
    ensures { result ≡ conflict_at edges.now node }
{
    if calm {
        None
    } else {
        conflict_at(edges, node, common)
    }
}
