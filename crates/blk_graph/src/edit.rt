//! The edits of a list of edges, each made in place.
ghost use Rattle.std.specs.Prelude.{◌≡◌, ◌≢◌, ◌↔◌, ◌+◌, ◌<◌, ◌≤◌, IsTrue, IfSome, IfNone, [], ◌∷◌, ◌++◌, length, map, replicate, false, find, slice_set, vec_capacity};
ghost use Rattle.std.specs.Option.{option_map};
ghost use Rattle.blk_graph.specs.Doubles.{AreJobsAt, MarksJob, has_mark, is_double_by};
ghost use Rattle.blk_graph.specs.Edges.{same_parent, same_role, is_job, IsListed};
ghost use Rattle.blk_graph.specs.Edits.{takes_place, with_edge, with_child, stays, replaced, with_replaced, moved, is_edge, child_of, is_filters, but_filters, but_doubles, with_moved, with_filter, without_filter, without_edge, without_parent, with_pivot, IsLone, touches};
ghost use Rattle.blk_graph.specs.Judged.{first_parent};

use crate::edge::{Edge, MOST_JOBS, NodeId, Parent, Perms, Role};

/// Whether a new edge takes an old one's place.
fn takes_place(new: &Edge, old: &Edge) -> bool
    ensures { result ≡ takes_place new.now old.now }
{
    new.parent.is(&old.parent)
        && new.role.is(&old.role)
        && (!new.role.is(&Role::Between) || new.child == old.child)
}

fn with_child(edge: &Edge, to: NodeId) -> Edge
    ensures { result ≡ with_child to edge.now }
{
    Edge { child: to, ..*edge }
}

fn stays(but: &Option<Parent>, parent: &Parent) -> bool
    ensures { result ≡ stays but.now parent.now }
{
    match but {
        None => parent.is_job(),
        Some(but) => parent.is_job() || but.is(parent),
    }
}

fn replaced(edge: &Edge, from: NodeId, to: NodeId, but: &Option<Parent>) -> Edge
    ensures { result ≡ replaced from to but.now edge.now }
{
    if edge.child == from && !stays(but, &edge.parent) {
        with_child(edge, to)
    } else {
        *edge
    }
}

fn moved(edge: &Edge, from: NodeId, to: NodeId) -> Edge
    ensures { result ≡ moved from to edge.now }
{
    if edge.child == from {
        with_child(edge, to)
    } else {
        *edge
    }
}

fn is_filters(edge: &Edge, filter: NodeId) -> bool
    ensures { result ≡ is_filters filter edge.now }
{
    edge.parent.is(&Parent::Node(filter)) && edge.role.is(&Role::Filtered)
}

/// The place that a new edge takes.
fn place_of(edges: &[Edge], new: &Edge) -> Option<usize>
    ensures there { IfSome result (λ i. i < length edges.now) }
    ensures place { IfSome result
        (λ i. slice_set edges.now i new.now ≡ with_edge new.now edges.now) }
    ensures none { IfNone result (edges.now ++ new.now ∷ [] ≡ with_edge new.now edges.now) }
{
    for (i, old) in edges.iter().enumerate() {
        if takes_place(new, old) {
            return Some(i);
        }
    }
    None
}

/// An edge stands in the place that it takes, or else at the end.
pub(crate) fn put_edge(edges: &mut Vec<Edge>, new: Edge)
    requires { length edges.old.items + 1 ≤ vec_capacity edges.old }
    ensures items { edges.new.items ≡ with_edge new edges.old.items }
    ensures capacity { vec_capacity edges.new ≡ vec_capacity edges.old }
{
    match place_of(edges.as_slice(), &new) {
        Some(i) => edges[i] = new,
        None => edges.push_reserved(new),
    }
}

/// All edges into one node lead to another, but those of jobs and of one parent.
pub(crate) fn replace(edges: &mut Vec<Edge>, from: NodeId, to: NodeId, but: &Option<Parent>)
    ensures items { edges.new.items ≡ with_replaced from to but.now edges.old.items }
    ensures capacity { vec_capacity edges.new ≡ vec_capacity edges.old }
{
    for i in 0..edges.len() {
        edges[i] = replaced(&edges[i], from, to, but);
    }
}

/// Marks the job of an edge of the role Between to a node.
fn mark_job(edge: &Edge, node: NodeId, marks: &mut [bool])
    requires { length marks.old ≡ 16 }
    ensures { MarksJob edge.now node marks.old marks.new }
{
    if let Parent::Job(job) = edge.parent {
        let job = job as usize;
        if job < MOST_JOBS && edge.role.is(&Role::Between) && edge.child == node {
            marks[job] = true;
        }
    }
}

/// Marks the jobs that have an edge of the role Between to a node.
fn mark_jobs(edges: &[Edge], node: NodeId, marks: &mut [bool])
    requires { marks.old ≡ replicate 16 false }
    ensures { AreJobsAt edges.now node marks.new }
{
    for i in (0..edges.len()).rev() {
        mark_job(&edges[i], node, marks);
    }
}

fn has_mark(marks: &[bool], parent: &Parent) -> bool
    requires { length marks.now ≡ 16 }
    ensures { result ≡ has_mark marks.now parent.now }
{
    match parent {
        Parent::Job(job) => {
            let job = *job as usize;
            job < MOST_JOBS && marks[job]
        }
        Parent::Node(_) | Parent::Guest(_) => false,
    }
}

fn is_double(edge: &Edge, from: NodeId, marks: &[bool; MOST_JOBS]) -> bool
    ensures { result ≡ is_double_by marks.now from edge.now }
{
    edge.child == from && edge.role.is(&Role::Between) && has_mark(marks, &edge.parent)
}

/// Where an edge would be moved to, its parent has none of its role.
fn drop_doubles(edges: &mut Vec<Edge>, from: NodeId, to: NodeId)
    requires differ { from ≢ to }
    requires listed { IsListed edges.old.items }
    ensures items { edges.new.items ≡ but_doubles from to edges.old.items }
    ensures capacity { vec_capacity edges.new ≡ vec_capacity edges.old }
{
    let mut marks = [false; MOST_JOBS];
    mark_jobs(edges.as_slice(), to, &mut marks);
    edges.retain(|edge| !is_double(edge, from, &marks));
}

fn move_each(edges: &mut Vec<Edge>, from: NodeId, to: NodeId)
    ensures items { edges.new.items ≡ map (moved from to) edges.old.items }
    ensures capacity { vec_capacity edges.new ≡ vec_capacity edges.old }
{
    for i in 0..edges.len() {
        edges[i] = moved(&edges[i], from, to);
    }
}

/// All edges into one node lead to another.
pub(crate) fn move_all(edges: &mut Vec<Edge>, from: NodeId, to: NodeId)
    requires { IsListed edges.old.items }
    ensures items { edges.new.items ≡ with_moved from to edges.old.items }
    ensures capacity { vec_capacity edges.new ≡ vec_capacity edges.old }
{
    if from != to {
        drop_doubles(edges, from, to);
        move_each(edges, from, to);
    }
}
/// A filter stands between a node and its parents.
pub(crate) fn put_filter(
    edges: &mut Vec<Edge>,
    node: NodeId,
    filter: NodeId,
    perm: Perms,
    shared: Perms,
)
    requires listed { IsListed edges.old.items }
    requires room { length edges.old.items + 1 ≤ vec_capacity edges.old }
    ensures items { edges.new.items ≡ with_filter node filter perm shared edges.old.items }
    ensures capacity { vec_capacity edges.new ≡ vec_capacity edges.old }
{
    move_all(edges, node, filter);
    edges.push_reserved(Edge {
        parent: Parent::Node(filter),
        role: Role::Filtered,
        child: node,
        perm,
        shared,
    });
}

/// The child of a filter.
fn filtered_child(edges: &[Edge], filter: NodeId) -> Option<NodeId>
    ensures { result ≡ option_map (λ edge. edge.child) (find (is_filters filter) edges.now) }
{
    for edge in edges {
        if is_filters(edge, filter) {
            return Some(edge.child);
        }
    }
    None
}

/// A filter's own edges are gone.
fn drop_own(edges: &mut Vec<Edge>, filter: NodeId)
    ensures items { edges.new.items ≡ but_filters filter edges.old.items }
    ensures capacity { vec_capacity edges.new ≡ vec_capacity edges.old }
{
    edges.retain(|edge| !is_filters(edge, filter));
}

/// A filter is gone from between its child and its parents.
pub(crate) fn drop_filter(edges: &mut Vec<Edge>, filter: NodeId)
    requires { IsListed edges.old.items }
    ensures items { edges.new.items ≡ without_filter filter edges.old.items }
    ensures capacity { vec_capacity edges.new ≡ vec_capacity edges.old }
{
    match filtered_child(edges.as_slice(), filter) {
        None => {}
        Some(child) => {
            drop_own(edges, filter);
            move_all(edges, filter, child);
        }
    }
}

pub(crate) fn copy_all(edges: &[Edge], out: &mut Vec<Edge>)
    requires empty { out.old.items ≡ [] }
    requires room { length edges.now ≤ vec_capacity out.old }
    ensures items { out.new.items ≡ edges.now }
    ensures capacity { vec_capacity out.new ≡ vec_capacity out.old }
{
    for edge in edges {
        out.push_reserved(*edge);
    }
}

/// A parent's edges of a role are gone.
pub(crate) fn drop_edge(edges: &mut Vec<Edge>, parent: &Parent, role: &Role)
    ensures items { edges.new.items ≡ without_edge parent.now role.now edges.old.items }
    ensures capacity { vec_capacity edges.new ≡ vec_capacity edges.old }
{
    edges.retain(|edge| !is_edge(edge, parent, role));
}

/// A parent's edges are gone.
pub(crate) fn drop_parent(edges: &mut Vec<Edge>, parent: &Parent)
    ensures items { edges.new.items ≡ without_parent parent.now edges.old.items }
    ensures capacity { vec_capacity edges.new ≡ vec_capacity edges.old }
{
    edges.retain(|edge| !edge.parent.is(parent));
}

/// The edges of a job and its filter are gone, and all parents of the filter's child but jobs have another node.
pub(crate) fn pivot(edges: &mut Vec<Edge>, filter: NodeId, to: NodeId, job: u32)
    requires { IsListed edges.old.items }
    ensures items { edges.new.items ≡ with_pivot filter to job edges.old.items }
    ensures capacity { vec_capacity edges.new ≡ vec_capacity edges.old }
{
    let node = child(edges.as_slice(), &Parent::Node(filter), &Role::Filtered);
    drop_parent(edges, &Parent::Job(job));
    match node {
        None => {}
        Some(node) => {
            drop_filter(edges, filter);
            replace(edges, node, to, &None);
        }
    }
}

fn is_edge(edge: &Edge, parent: &Parent, role: &Role) -> bool
    ensures { result ≡ is_edge parent.now role.now edge.now }
{
    edge.parent.is(parent) && edge.role.is(role)
}

/// The child of a parent's first edge of that role.
pub(crate) fn child(edges: &[Edge], parent: &Parent, role: &Role) -> Option<NodeId>
    ensures { result ≡ child_of parent.now role.now edges.now }
{
    match edges.iter().find(|edge| is_edge(edge, parent, role)) {
        Some(edge) => Some(edge.child),
        None => None,
    }
}

/// The parent of the first edge into a node.
pub(crate) fn first_parent(edges: &[Edge], node: NodeId) -> Option<Parent>
    ensures { result ≡ first_parent node edges.now }
{
    for edge in edges {
        if edge.child == node {
            return Some(edge.parent);
        }
    }
    None
}

/// Whether no edge enters or leaves a node.
pub(crate) fn is_lone(edges: &[Edge], node: NodeId) -> bool
    ensures { IsTrue result ↔ IsLone edges.now node }
{
    for edge in edges {
        if touches(edge, node) {
            return false;
        }
    }
    true
}

fn touches(edge: &Edge, node: NodeId) -> bool
    ensures { result ≡ touches node edge.now }
{
    edge.child == node || edge.parent.is(&Parent::Node(node))
}
