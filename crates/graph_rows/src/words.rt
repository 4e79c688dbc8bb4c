//! What kinds, roles, uses and permissions are called, and parents and answers.

use blk_graph::{Conflict, Graph, GraphStop, JobUse, Kind, NodeId, Parent, Perm, Perms, Role};
use row_text::Words;

pub(crate) const KINDS: [(&str, Kind); 7] = [
    ("protocol", Kind::Protocol),
    ("raw", Kind::Raw),
    ("qcow2", Kind::Qcow2),
    ("copy-on-read", Kind::CopyOnRead),
    ("before-write", Kind::BeforeWrite),
    ("mirror", Kind::Mirror),
    ("commit", Kind::Commit),
];

pub(crate) const ROLES: [(&str, Role); 8] = [
    ("drive", Role::Drive),
    ("file", Role::File),
    ("backing", Role::Backing),
    ("filtered", Role::Filtered),
    ("source", Role::Source),
    ("target", Role::Target),
    ("between", Role::Between),
    ("base", Role::Base),
];

pub(crate) const JOB_USES: [(&str, JobUse); 6] = [
    ("copy-target", JobUse::CopyTarget),
    ("commit-top", JobUse::CommitTop),
    ("commit-between", JobUse::CommitBetween),
    ("commit-base", JobUse::CommitBase),
    ("stream-top", JobUse::StreamTop),
    ("stream-below", JobUse::StreamBelow),
];

/// The name of a node, and `?` of one that isn't there.
pub(crate) fn name_of(graph: &Graph, node: NodeId) -> &str {
    if graph.nodes().contains(&node) {
        graph.name(node)
    } else {
        "?"
    }
}

pub(crate) fn role_name(role: Role) -> &'static str {
    for (name, other) in &ROLES {
        if *other == role {
            return *name;
        }
    }
    "?"
}

fn perm_name(perm: Perm) -> &'static str {
    match perm {
        Perm::Read => "read",
        Perm::Write => "write",
        Perm::Unchanged => "unchanged",
    }
}

/// Puts what a parent is called.
fn put_parent(graph: &Graph, parent: &Parent, out: &mut Words) {
    match parent {
        Parent::Node(node) => out.put(name_of(graph, *node)),
        Parent::Guest(guest) => out.fill("guest%", &[u64::from(*guest)]),
        Parent::Job(job) => out.fill("job%", &[u64::from(*job)]),
    }
}

/// Puts which permission is asked and denied.
pub(crate) fn put_conflict(graph: &Graph, pair: &Conflict, out: &mut Words) {
    put_parent(graph, &pair.asks, out);
    out.put(" asks ");
    out.put(perm_name(pair.perm));
    out.put(" of ");
    out.put(name_of(graph, pair.node));
    out.put(", ");
    put_parent(graph, &pair.denies, out);
    out.put(" denies it");
}

/// Puts who uses a node.
pub(crate) fn put_user(graph: &Graph, parent: &Parent, out: &mut Words) {
    out.put("in use by ");
    put_parent(graph, parent, out);
}

/// Puts why a graph refused a call.
pub(crate) fn put_stop(graph: &Graph, stop: &GraphStop, out: &mut Words) {
    match stop {
        GraphStop::InUse(parent) => put_user(graph, parent, out),
        GraphStop::Conflict(pair) => put_conflict(graph, pair, out),
        stop => out.show(stop),
    }
}

/// Puts the edges in order of making, each as its parent, `>` and its child.
pub(crate) fn put_edges(graph: &Graph, out: &mut Words) {
    for edge in graph.edges() {
        out.part(" ", "");
        put_parent(graph, &edge.parent, out);
        out.put(">");
        out.put(name_of(graph, edge.child));
    }
}

/// Puts a letter for each permission of a set.
fn put_perms(perms: Perms, out: &mut Words) {
    out.put(if perms.read { "r" } else { "." });
    out.put(if perms.write { "w" } else { "." });
    out.put(if perms.unchanged { "u" } else { "." });
}

/// Puts what is asked and shared, as letters.
pub(crate) fn put_uses(perm: Perms, shared: Perms, out: &mut Words) {
    put_perms(perm, out);
    out.put(" ");
    put_perms(shared, out);
}
