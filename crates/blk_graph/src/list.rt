//! The edges as a value that is edited and judged apart from a graph.
ghost use Rattle.std.specs.Prelude.{◌≡◌, ◌≢◌, ◌↔◌, ◌≤◌, ◌&&◌, ℕ, List, false, [], length, IsTrue, IsOk, IfOk, IfErr, OnOk, MatchResult, Some, None};
ghost use Rattle.blk_graph.specs.Drafts.{KeepsFit, KeepsAcyclic, KeepsChildren, KeepsRule, WriteLess};
ghost use Rattle.blk_graph.specs.Edges.{same_parent, same_role, may_have, HasNumber, IsListed};
ghost use Rattle.blk_graph.specs.Edits.{with_edge, with_replaced, with_moved, filter_edge, with_filter, without_filter, without_edge, without_parent, with_pivot, is_edge, child_of, child_after, child_moved, IsLone};
ghost use Rattle.blk_graph.specs.Filters.{IsTransparent, LeavesRoom};
ghost use Rattle.blk_graph.specs.Graph.{Graph, HasNode, FitsIn, IsFit, IsJust};
ghost use Rattle.blk_graph.specs.Judged.{IsJudged, IsSettled, LeadTo};
ghost use Rattle.blk_graph.specs.Paths.{Reaches, LeadsBack, IsAcyclic};
ghost use Rattle.blk_graph.specs.Refreshed.{refreshed, IsRefreshed};
ghost use Rattle.std.specs.Option.{option_map};
ghost use Rattle.blk_graph.specs.declared.edge.Parent.{Parent as Who};
ghost use Rattle.blk_graph.specs.declared.edge.Role.{Role as What};
ghost use Rattle.blk_graph.specs.declared.kind.NodeKind.{NodeKind as Known};
ghost use Rattle.blk_graph.specs.Rule.{KeepsPermissions, IsBroken, first_conflict};

use crate::cycle::has_cycle;
use crate::edge::{Conflict, Edge, MOST_NODES, NodeId, Parent, Perms, Role};
use crate::judge::judge;
use crate::kind::NodeKind;
use crate::stop::GraphStop;
use crate::{edit, refresh, rule, walk};
use blk_base::NoMemory;
use std::alloc::Global;
use std::marker::Model;

/// The most edges that a list has.
pub const MOST_EDGES: usize = 2048;

/// Edges in order of making; one that is replaced or moved keeps its place. Only `new` takes memory.
#[derive(Drop)]
pub struct EdgeList {
    edges: Vec<Edge>,
}

impl Model for EdgeList {
    ghost use Rattle.std.specs.Prelude.{List, ◌≤◌, vec_capacity};
    ghost use Rattle.blk_graph.specs.Edges.{IsListed};
    ghost use Rattle.blk_graph.specs.declared.edge.Edge.{Edge as Use};

    ghost Value = { List Use };

    ghost view = { λ l. l.edges.items };

    ghost invariant = { λ l. (2048 ≤ vec_capacity l.edges) × IsListed l.edges.items };
}

impl EdgeList {
    /// No edge, with room for 2,048.
    pub fn new(alloc: Global) -> Result<Self, NoMemory>
        ensures { IfOk result (λ list. list ≡ []) }
    {
        Ok(EdgeList {
            edges: Vec::with_capacity(alloc, MOST_EDGES)?,
        })
    }

    pub fn as_slice(&self) -> &[Edge]
        ensures edges { result.now ≡ self.now }
        ensures listed { IsListed self.now }
        ensures few { length self.now ≤ 1344 }
    {
        self.edges.as_slice()
    }

    pub fn copy_from(&mut self, other: &EdgeList)
        ensures { self.new ≡ other.now }
    {
        self.edges.clear();
        edit::copy_all(other.edges.as_slice(), &mut self.edges);
    }

    /// Puts an edge in the place of the one with that parent and role, or else at the end. Of the role Between a parent has
    /// one edge to each child.
    pub fn put(&mut self, edge: Edge)
        requires role { IsTrue (may_have edge.parent edge.role) }
        requires number { HasNumber edge.parent }
        ensures edges { self.new ≡ with_edge edge self.old }
        ensures fit { (graph : Graph) → FitsIn graph edge → IsFit graph self.old
            → IsFit graph self.new }
        ensures acyclic { ¬ LeadsBack self.old edge.child edge.parent
            → KeepsAcyclic self.old self.new }
        ensures children { KeepsChildren
            (λ parent role. is_edge parent role edge) self.old self.new }
        ensures child { edge.role ≢ Role.Between
            → child_of edge.parent edge.role self.new ≡ Some edge.child }
    {
        prove!(edge.child.index() < MOST_NODES);
        edit::put_edge(&mut self.edges, edge);
    }

    /// Removes a parent's edges of a role.
    pub fn remove(&mut self, parent: Parent, role: Role)
        ensures edges { self.new ≡ without_edge parent role self.old }
        ensures fit { KeepsFit self.old self.new }
        ensures acyclic { KeepsAcyclic self.old self.new }
        ensures children { KeepsChildren
            (λ other kept. same_parent other parent && same_role kept role) self.old self.new }
        ensures rule { KeepsRule self.old self.new }
    {
        edit::drop_edge(&mut self.edges, &parent, &role);
    }

    /// Moves all edges into one node, but those of jobs and of `but`, to another node.
    pub fn replace(&mut self, from: NodeId, to: NodeId, but: Option<Parent>)
        ensures edges { self.new ≡ with_replaced from to but self.old }
        ensures fit { (graph : Graph) → HasNode graph to → IsFit graph self.old
            → IsFit graph self.new }
        ensures acyclic { ¬ Reaches self.new to to → KeepsAcyclic self.old self.new }
        ensures children { (parent : Who) (role : What) → child_of parent role self.new
            ≡ option_map (child_after from to but parent) (child_of parent role self.old) }
    {
        prove!(to.index() < MOST_NODES);
        edit::replace(&mut self.edges, from, to, &but);
    }

    /// Moves all edges into one node to another. Where a job has an edge of the role Between to both, one stays.
    pub fn move_all(&mut self, from: NodeId, to: NodeId)
        ensures edges { self.new ≡ with_moved from to self.old }
        ensures fit { (graph : Graph) → HasNode graph to → IsFit graph self.old
            → IsFit graph self.new }
        ensures acyclic { ¬ Reaches self.new to to → KeepsAcyclic self.old self.new }
        ensures children { (parent : Who) (role : What) → role ≢ Role.Between
            → child_of parent role self.new
            ≡ option_map (child_moved from to) (child_of parent role self.old) }
    {
        prove!(to.index() < MOST_NODES);
        edit::move_all(&mut self.edges, from, to);
    }

    /// Puts a filter between a node and its parents.
    pub fn put_filter(&mut self, node: NodeId, filter: NodeId, perm: Perms, shared: Perms)
        requires { IsLone self.old filter }
        ensures edges { self.new ≡ with_filter node filter perm shared self.old }
        ensures fit { (graph : Graph) → HasNode graph node
            → FitsIn graph (filter_edge filter node perm shared)
            → IsFit graph self.old → IsFit graph self.new }
        ensures acyclic { filter ≢ node → KeepsAcyclic self.old self.new }
        ensures child { child_of (Parent.Node filter) Role.Filtered self.new ≡ Some node }
        ensures children { (parent : Who) (role : What) → role ≢ Role.Between
            → parent ≢ Parent.Node filter → child_of parent role self.new
            ≡ option_map (child_moved node filter) (child_of parent role self.old) }
    {
        prove!(node.index() < MOST_NODES);
        prove!(filter.index() < MOST_NODES);
        edit::put_filter(&mut self.edges, node, filter, perm, shared);
    }

    /// Takes a filter from between its child and its parents, which may be filters too. Where a job has an edge of the role Between
    /// to both, one stays.
    pub fn drop_filter(&mut self, filter: NodeId)
        ensures edges { self.new ≡ without_filter filter self.old }
        ensures fit { KeepsFit self.old self.new }
        ensures acyclic { KeepsAcyclic self.old self.new }
        ensures child { child_of (Parent.Node filter) Role.Filtered self.new ≡ None }
        ensures children { (node : ℕ)
            → child_of (Parent.Node filter) Role.Filtered self.old ≡ Some node
            → (parent : Who) (role : What) → role ≢ Role.Between
            → (same_parent parent (Parent.Node filter) && same_role role Role.Filtered) ≡ false
            → child_of parent role self.new
            ≡ option_map (child_moved filter node) (child_of parent role self.old) }
        ensures none { child_of (Parent.Node filter) Role.Filtered self.old ≡ None
            → self.new ≡ self.old }
        ensures rule { (kinds : List Known) → IsJust kinds self.old
            → IsTransparent self.old filter → KeepsPermissions (refreshed kinds self.new) }
    {
        edit::drop_filter(&mut self.edges, filter);
    }

    /// Ends a job with a move: its edges and its filter are gone, and all parents of the filter's child but jobs have another node.
    pub fn pivot(&mut self, filter: NodeId, to: NodeId, job: u32)
        ensures edges { self.new ≡ with_pivot filter to job self.old }
        ensures fit { (graph : Graph) → HasNode graph to → IsFit graph self.old
            → IsFit graph self.new }
        ensures acyclic { ¬ Reaches self.new to to → KeepsAcyclic self.old self.new }
        ensures rule { (graph : Graph) → IsFit graph self.old → IsJust graph.kinds self.old
            → LeavesRoom self.old filter to job
            → KeepsPermissions (refreshed graph.kinds self.new) }
    {
        prove!(to.index() < MOST_NODES);
        edit::pivot(&mut self.edges, filter, to, job);
    }

    /// Removes all edges of a parent.
    pub fn drop_parent(&mut self, parent: Parent)
        ensures edges { self.new ≡ without_parent parent self.old }
        ensures fit { KeepsFit self.old self.new }
        ensures acyclic { KeepsAcyclic self.old self.new }
        ensures children { KeepsChildren
            (λ other role. same_parent other parent) self.old self.new }
        ensures rule { KeepsRule self.old self.new }
    {
        edit::drop_parent(&mut self.edges, &parent);
    }

    /// Derives what nodes' edges ask and share, where `kinds` has each node's kind at its number.
    pub fn refresh(&mut self, kinds: &[NodeKind])
        requires { length kinds.now ≡ 64 }
        ensures edges { self.new ≡ refreshed kinds.now self.old }
        ensures refreshed { IsAcyclic self.old → IsRefreshed kinds.now self.new }
        ensures fit { KeepsFit self.old self.new }
        ensures acyclic { KeepsAcyclic self.old self.new }
        ensures children { KeepsChildren (λ parent role. false) self.old self.new }

        // nor is the rule broken where nodes are no longer written
        ensures rule { (old : List Known) → WriteLess old kinds.now
            → KeepsPermissions (refreshed old self.old) → KeepsPermissions self.new }
    {
        refresh::refresh(kinds, &mut self.edges);
    }

    /// Refuses the list for its first pair against the permission rule: first by the child node in the order of `nodes`, then
    /// by the asking edge's place, then by the other edge's, then read, write, unchanged.
    pub fn judge(&self, nodes: &[NodeId]) -> Result<(), Conflict>
        ensures first { MatchResult result (λ _. first_conflict nodes.now self.now ≡ None)
            (λ pair. first_conflict nodes.now self.now ≡ Some pair) }
        ensures broken { IfErr result (IsBroken self.now) }
        ensures rule { LeadTo nodes.now self.now → (IsOk result ↔ KeepsPermissions self.now) }
    {
        match rule::first_conflict(nodes, self.edges.as_slice()) {
            None => Ok(()),
            Some(pair) => Err(pair),
        }
    }

    /// Derives what nodes' edges ask and share, and refuses the list where some node reaches itself, and else for its first pair
    /// against the permission rule. What is then left can be taken for a graph's edges.
    pub fn settle(&mut self, nodes: &[NodeId], kinds: &[NodeKind]) -> Result<(), GraphStop>
        requires { length kinds.now ≡ 64 }
        ensures edges { self.new ≡ refreshed kinds.now self.old }
        ensures judged { LeadTo nodes.now self.old → IsJudged nodes.now kinds.now self.old result }
        ensures settled { IsSettled nodes.now kinds.now self.old result }
        ensures just { LeadTo nodes.now self.old → OnOk result (IsJust kinds.now self.new) }
        ensures fit { KeepsFit self.old self.new }
        ensures acyclic { KeepsAcyclic self.old self.new }
        ensures children { KeepsChildren (λ parent role. false) self.old self.new }
    {
        let is_cyclic = has_cycle(self.edges.as_slice());
        refresh::refresh(kinds, &mut self.edges);
        if is_cyclic {
            return Err(GraphStop::Cycle);
        }
        judge(nodes, self)
    }

    /// The child of a parent's edge of that role; of the role Between that of the first one.
    pub fn child(&self, parent: Parent, role: Role) -> Option<NodeId>
        ensures { result ≡ child_of parent role self.now }
    {
        edit::child(self.edges.as_slice(), &parent, &role)
    }

    /// Whether a path of one edge or more leads from one node to the other.
    pub fn reaches(&self, from: NodeId, to: NodeId) -> bool
        ensures { IsTrue result ↔ Reaches self.now from to }
    {
        walk::reaches(self.edges.as_slice(), from, to)
    }
}
