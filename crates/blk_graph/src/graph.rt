//! The graph: nodes, and edges between them.
ghost use Rattle.std.specs.Prelude.{◌≡◌, ◌≢◌, ◌↔◌, ℕ, ◌+◌, ◌≤◌, length, Contains, true, IsTrue, IsNone, IsOk, IfOk, IfErr, OnOk, OnErr, List, IfSome, IfNone, Ok, Err, MatchOption, false};
ghost use Rattle.blk_graph.specs.Edits.{with_edge, with_replaced, with_over, with_filter, IsLone, child_of, without_filter, without_edge, without_parent, with_pivot};
ghost use Rattle.blk_graph.specs.Graph.{ids, no_graph, HasNode, HasParent, HasName, FitsIn, IsSoundGraph, PathsAreShort, with_node, with_writes};
ghost use Rattle.blk_graph.specs.Filters.{IsTransparent, LeavesRoom, IsPutOver};
ghost use Rattle.blk_graph.specs.Ids.{IsLowestFree};
ghost use Rattle.blk_graph.specs.Judged.{IsAdditionStop, IsOverlayApart, IsJudged, first_parent, with_edges, with_kinds, without_node};
ghost use Rattle.blk_graph.specs.Paths.{Reaches, LeadsBack};
ghost use Rattle.blk_graph.specs.Permissions.{has_role};
ghost use Rattle.blk_graph.specs.Refreshed.{kind_at, refreshed, IsByTable};
ghost use Rattle.blk_graph.specs.Rule.{KeepsPermissions, GuestsWriteAlone, IsBroken, first_conflict};
ghost use Rattle.blk_graph.specs.declared.edge.Conflict.{Conflict as Pair};
ghost use Rattle.blk_graph.specs.declared.edge.Edge.{Edge as Use};
ghost use Rattle.blk_graph.specs.declared.edge.Perms.{Perms as Set};

use crate::edge::{Conflict, Edge, MOST_NODES, NodeId, Parent, Perms, Role};
use crate::ids::next_id;
use crate::judge::{leads_back, settle, settle_any};
use crate::kind::{NO_KIND, NodeKind, set_writes};
use crate::list::EdgeList;
use crate::stop::GraphStop;
use crate::{edit, names, rule, walk};
use blk_base::{NoMemory, Text};
use slab::Slab;
use std::alloc::Global;
use std::marker::Model;
use std::mem;

/// Nodes with their names and kinds, and what each parent asks of them and shares.
#[derive(Drop)]
pub struct Graph {
    names: Slab<Text>,
    // By the nodes' ids: where their names stand.
    keys: [usize; MOST_NODES],
    // The nodes in order of addition.
    order: Vec<NodeId>,
    // By the nodes' ids.
    kinds: [NodeKind; MOST_NODES],
    // In order of making.
    edges: EdgeList,
    // An edited list is made here and looked at before it takes the other's place.
    staged: EdgeList,
}

impl Model for Graph {
    ghost use Rattle.std.specs.Prelude.{vec_capacity};
    ghost use Rattle.blk_graph.specs.Graph.{Graph as Seen};

    ghost Value = { Seen };

    ghost use Rattle.blk_graph.specs.Layout.{graph_of, IsKept};

    ghost view = { λ g. graph_of g.names g.keys g.order.items g.kinds g.edges };

    ghost invariant = { λ g. IsKept g.names g.keys g.order.items g.kinds g.edges
        (vec_capacity g.order) };
}

impl Graph {
    /// The empty graph, with room for 64 nodes and 2,048 edges.
    pub fn new(alloc: Global) -> Result<Self, NoMemory>
        ensures { IfOk result (λ graph. graph ≡ no_graph) }
    {
        let names = Slab::with_capacity(alloc, MOST_NODES)?;
        if names.capacity() != MOST_NODES {
            // Room for just as many keeps each key below that number.
            return Err(NoMemory);
        }
        Ok(Graph {
            names,
            keys: [0; MOST_NODES],
            order: Vec::with_capacity(alloc, MOST_NODES)?,
            kinds: [NO_KIND; MOST_NODES],
            edges: EdgeList::new(alloc)?,
            staged: EdgeList::new(alloc)?,
        })
    }

    /// The nodes in order of addition.
    pub fn nodes(&self) -> &[NodeId]
        ensures nodes { result.now ≡ ids self.now }
        ensures sound { IsSoundGraph self.now }
    {
        self.order.as_slice()
    }

    /// What each node is, by its number.
    pub fn kinds(&self) -> &[NodeKind; MOST_NODES]
        ensures kinds { result.now ≡ self.now.kinds }
        ensures sound { IsSoundGraph self.now }
    {
        &self.kinds
    }

    /// Whether a node may have an edge of this role, by its kind.
    pub fn has_role(&self, node: NodeId, role: Role) -> bool
        ensures { result ≡ has_role (kind_at self.now.kinds node).kind role }
    {
        self.kinds[node.index()].kind.has_role(role)
    }

    /// The edges in order of making; one that was replaced or moved has kept its place.
    pub fn edges(&self) -> &[Edge]
        ensures edges { result.now ≡ self.now.edges }
        ensures few { length result.now ≤ 1344 }
        ensures sound { IsSoundGraph self.now }
        ensures paths { PathsAreShort self.now }

        // a guest that may write a node is alone among the edges into it that don't share write
        ensures guests { GuestsWriteAlone self.now.edges }
    {
        self.edges.as_slice()
    }

    /// The edges, to copy and to edit apart.
    pub fn list(&self) -> &EdgeList
        ensures edges { result.now ≡ self.now.edges }
        ensures sound { IsSoundGraph self.now }

        // they are what is derived from them
        ensures still { refreshed self.now.kinds self.now.edges ≡ self.now.edges }
    {
        &self.edges
    }

    /// Takes kinds and edges in place of the graph's, which `edges` has then. Needs no memory, and can't be refused.
    pub fn take(&mut self, kinds: &[NodeKind; MOST_NODES], edges: &mut EdgeList)
        requires { IsSoundGraph (record self.old { kinds = kinds.now; edges = edges.old }) }
        ensures taken { self.new ≡ record self.old { kinds = kinds.now; edges = edges.old } }
        ensures back { edges.new ≡ self.old.edges }
    {
        self.kinds = *kinds;
        mem::swap(&mut self.edges, edges);
    }

    /// The child of a parent's edge of that role; of the role Between that of the first one.
    pub fn child(&self, parent: Parent, role: Role) -> Option<NodeId>
        ensures child { result ≡ child_of parent role self.now.edges }
        ensures there { IfSome result (λ node. HasNode self.now node) }
    {
        edit::child(self.edges.as_slice(), &parent, &role)
    }

    /// Whether a path of one edge or more leads from one node to the other.
    pub fn reaches(&self, from: NodeId, to: NodeId) -> bool
        ensures { IsTrue result ↔ Reaches self.now.edges from to }
    {
        walk::reaches(self.edges.as_slice(), from, to)
    }

    /// The first pair against the permission rule: first by the child node in order of addition, then by
    /// the asking edge's place, then by the other edge's, then read, write, unchanged.
    pub fn check_perms(&self) -> Option<Conflict>
        ensures first { result ≡ first_conflict (ids self.now) self.now.edges }
        ensures rule { IsNone result ↔ KeepsPermissions self.now.edges }
        ensures pair { IfSome result (IsBroken self.now.edges) }

        // the graph's edges always do
        ensures kept { IsNone result }
    {
        rule::first_conflict(self.order.as_slice(), self.edges.as_slice())
    }

    /// Sets an edge in the place of the one with that parent and role, or else at the end. Of the role Between a parent has
    /// one edge to each child.
    pub fn set_edge(&mut self, edge: Edge) -> Result<(), GraphStop>
        requires child { HasNode self.old edge.child }
        requires parent { HasParent self.old edge.parent }
        requires table { IsByTable self.old.kinds edge }
        ensures judged { IsJudged (ids self.old) self.old.kinds (with_edge edge self.old.edges)
            result }
        ensures cycle { (result ≡ Err GraphStop.Cycle) ↔ LeadsBack self.old.edges edge.child
            edge.parent }
        ensures ok { OnOk result (self.new ≡ with_edges self.old (with_edge edge self.old.edges)) }
        ensures err { OnErr result (self.new ≡ self.old) }
        ensures sound { IsSoundGraph self.new }
    {
        if leads_back(self.edges.as_slice(), edge.child, &edge.parent) {
            return Err(GraphStop::Cycle);
        }
        self.staged.copy_from(&self.edges);
        self.staged.put(edge);
        settle(
            self.order.as_slice(),
            &self.kinds,
            &mut self.edges,
            &mut self.staged,
        )
    }

    /// Sets two edges, as those of a node to its file and to its backing node, which are judged as one list.
    pub fn set_edges(&mut self, first: Edge, second: Edge) -> Result<(), GraphStop>
        requires first { FitsIn self.old first }
        requires second { FitsIn self.old second }
        ensures judged { IsJudged (ids self.old) self.old.kinds
            (with_edge second (with_edge first self.old.edges)) result }
        ensures no_cycle { ¬ LeadsBack self.old.edges first.child first.parent
            → ¬ LeadsBack (with_edge first self.old.edges) second.child second.parent
            → result ≢ Err GraphStop.Cycle }
        ensures ok { OnOk result
            (self.new ≡ with_edges self.old (with_edge second (with_edge first self.old.edges))) }
        ensures err { OnErr result (self.new ≡ self.old) }
        ensures sound { IsSoundGraph self.new }
    {
        self.staged.copy_from(&self.edges);
        self.staged.put(first);
        self.staged.put(second);
        settle_any(
            self.order.as_slice(),
            &self.kinds,
            &mut self.edges,
            &mut self.staged,
        )
    }

    /// Puts an overlay over a node: it becomes the child of the node's parents but jobs, and the node its backing node. Both
    /// are judged as one list.
    pub fn put_over(&mut self, node: NodeId, overlay: NodeId) -> Result<(), GraphStop>
        requires node { HasNode self.old node }
        requires overlay { HasNode self.old overlay }
        requires kind { has_role (kind_at self.old.kinds overlay).kind Role.Backing ≡ true }
        ensures judged { IsJudged (ids self.old) self.old.kinds
            (with_over node overlay self.old.edges) result }
        ensures no_cycle { IsOverlayApart self.old.edges node overlay
            → result ≢ Err GraphStop.Cycle }
        ensures ok { OnOk result
            (self.new ≡ with_edges self.old (with_over node overlay self.old.edges)) }
        ensures err { OnErr result (self.new ≡ self.old) }
        ensures sound { IsSoundGraph self.new }
    {
        self.staged.copy_from(&self.edges);
        self.staged.put(Edge::of_node(overlay, Role::Backing, node));
        self.staged
            .replace(node, overlay, Some(Parent::Node(overlay)));
        settle_any(
            self.order.as_slice(),
            &self.kinds,
            &mut self.edges,
            &mut self.staged,
        )
    }

    /// Moves all edges into one node, but those of jobs and of `but`, to another node.
    pub fn replace_child(
        &mut self,
        from: NodeId,
        to: NodeId,
        but: Option<Parent>,
    ) -> Result<(), GraphStop>
        requires { HasNode self.old to }
        ensures judged { IsJudged (ids self.old) self.old.kinds
            (with_replaced from to but self.old.edges) result }
        ensures ok { OnOk result
            (self.new ≡ with_edges self.old (with_replaced from to but self.old.edges)) }
        ensures err { OnErr result (self.new ≡ self.old) }
        ensures sound { IsSoundGraph self.new }
    {
        self.staged.copy_from(&self.edges);
        self.staged.replace(from, to, but);
        if self.staged.reaches(to, to) {
            return Err(GraphStop::Cycle);
        }
        settle(
            self.order.as_slice(),
            &self.kinds,
            &mut self.edges,
            &mut self.staged,
        )
    }

    /// Whether no edge enters or leaves a node.
    pub fn is_lone(&self, node: NodeId) -> bool
        ensures { IsTrue result ↔ IsLone self.now.edges node }
    {
        edit::is_lone(self.edges.as_slice(), node)
    }

    /// Puts a filter between a node and its parents. What its edge then asks and shares is derived, whatever `perm` and `shared`
    /// are.
    pub fn insert_filter(
        &mut self,
        node: NodeId,
        filter: NodeId,
        perm: Perms,
        shared: Perms,
    ) -> Result<(), GraphStop>
        requires node { HasNode self.old node }
        requires filter { HasNode self.old filter }
        requires kind { has_role (kind_at self.old.kinds filter).kind Role.Filtered ≡ true }
        requires differ { filter ≢ node }
        requires lone { IsLone self.old.edges filter }
        ensures judged { IsJudged (ids self.old) self.old.kinds
            (with_filter node filter perm shared self.old.edges) result }
        ensures no_cycle { result ≢ Err GraphStop.Cycle }
        ensures ok { OnOk result
            (self.new ≡ with_edges self.old (with_filter node filter perm shared self.old.edges)) }
        ensures derived { (asks shares : Set) → OnOk result
            (self.new ≡ with_edges self.old (with_filter node filter asks shares self.old.edges)) }
        ensures err { OnErr result (self.new ≡ self.old) }
        ensures sound { IsSoundGraph self.new }
    {
        self.staged.copy_from(&self.edges);
        self.staged.put_filter(node, filter, perm, shared);
        settle(
            self.order.as_slice(),
            &self.kinds,
            &mut self.edges,
            &mut self.staged,
        )
    }

    /// Takes a filter from between its child and its parents. They then stand beside the child's other parents, so a conflict
    /// may be answered; but not where the filter hid nothing, or where nothing else has changed since it was put there.
    pub fn remove_filter(&mut self, filter: NodeId) -> Result<(), GraphStop>
        ensures judged { IsJudged (ids self.old) self.old.kinds
            (without_filter filter self.old.edges) result }
        ensures transparent { IsTransparent self.old.edges filter → IsOk result }
        ensures back { (edges : List Use) → IsPutOver self.old filter edges → IsOk result
            × (self.new.edges ≡ edges) }
        ensures no_cycle { result ≢ Err GraphStop.Cycle }
        ensures ok { OnOk result
            (self.new ≡ with_edges self.old (without_filter filter self.old.edges)) }
        ensures err { OnErr result (self.new ≡ self.old) }
        ensures sound { IsSoundGraph self.new }
    {
        self.staged.copy_from(&self.edges);
        self.staged.drop_filter(filter);
        settle(
            self.order.as_slice(),
            &self.kinds,
            &mut self.edges,
            &mut self.staged,
        )
    }

    /// Ends a mirror or a commit with a move: the job's edges and its filter are gone, and all parents of the filter's child but
    /// jobs have another node, as where its target or base takes its place. All is judged as one list. There is no conflict where
    /// the job asked all of that node that the filter's parents ask, and nothing else used the filter's child.
    pub fn pivot(&mut self, filter: NodeId, to: NodeId, job: u32) -> Result<(), GraphStop>
        requires { HasNode self.old to }
        ensures judged { IsJudged (ids self.old) self.old.kinds
            (with_pivot filter to job self.old.edges) result }
        ensures no_conflict { LeavesRoom self.old.edges filter to job
            → (pair : Pair) → result ≢ Err (GraphStop.Conflict pair) }
        ensures below { LeavesRoom self.old.edges filter to job → Reaches self.old.edges filter to
            → IsOk result }
        ensures ok { OnOk result
            (self.new ≡ with_edges self.old (with_pivot filter to job self.old.edges)) }
        ensures err { OnErr result (self.new ≡ self.old) }
        ensures sound { IsSoundGraph self.new }
    {
        self.staged.copy_from(&self.edges);
        self.staged.pivot(filter, to, job);
        settle_any(
            self.order.as_slice(),
            &self.kinds,
            &mut self.edges,
            &mut self.staged,
        )
    }

    /// Lets a node be written no more, as the base of a commit at its end. Less is asked then, so this can't be refused.
    pub fn make_read_only(&mut self, node: NodeId)
        ensures graph { self.new ≡ with_kinds self.old (with_writes node false self.old.kinds) }
        ensures sound { IsSoundGraph self.new }
    {
        set_writes(&mut self.kinds, node, false);
        self.edges.refresh(&self.kinds);
    }

    /// Lets a node be written, as the base of a commit. It then asks to write its file.
    pub fn make_writable(&mut self, node: NodeId) -> Result<(), GraphStop>
        requires { HasNode self.old node }
        ensures judged { IsJudged (ids self.old) (with_writes node true self.old.kinds)
            self.old.edges result }
        ensures no_cycle { result ≢ Err GraphStop.Cycle }
        ensures ok { OnOk result
            (self.new ≡ with_kinds self.old (with_writes node true self.old.kinds)) }
        ensures err { OnErr result (self.new ≡ self.old) }
        ensures sound { IsSoundGraph self.new }
    {
        let mut kinds = self.kinds;
        set_writes(&mut kinds, node, true);
        self.staged.copy_from(&self.edges);
        match settle(
            self.order.as_slice(),
            &kinds,
            &mut self.edges,
            &mut self.staged,
        ) {
            Ok(()) => {
                self.kinds = kinds;
                Ok(())
            }
            Err(stop) => Err(stop),
        }
    }

    /// Removes all edges of a parent.
    pub fn clear_edges(&mut self, parent: Parent)
        ensures edges { self.new ≡ with_edges self.old (without_parent parent self.old.edges) }
        ensures sound { IsSoundGraph self.new }
    {
        self.staged.copy_from(&self.edges);
        self.staged.drop_parent(parent);
        self.staged.refresh(&self.kinds);
        mem::swap(&mut self.edges, &mut self.staged);
    }

    /// Removes a parent's edges of a role.
    pub fn clear_edge(&mut self, parent: Parent, role: Role)
        ensures edges { self.new ≡ with_edges self.old (without_edge parent role self.old.edges) }
        ensures sound { IsSoundGraph self.new }
    {
        self.staged.copy_from(&self.edges);
        self.staged.remove(parent, role);
        self.staged.refresh(&self.kinds);
        mem::swap(&mut self.edges, &mut self.staged);
    }

    /// The name of a node.
    pub fn name(&self, node: NodeId) -> &str
        requires { HasNode self.now node }
        ensures { Contains self.now.nodes (record { id = node; name = result.now }) }
    {
        names::name_at(&self.names, &self.keys, node)
    }

    /// The node of that name.
    pub fn node_named(&self, name: &str) -> Option<NodeId>
        ensures found { IfSome result
            (λ id. Contains self.now.nodes (record { id = id; name = name.now })) }
        ensures none { IfNone result (¬ HasName self.now name.now) }
    {
        names::node_named(&self.names, &self.keys, self.order.as_slice(), name)
    }

    /// Adds a node. It gets the lowest id that is free.
    pub fn add_node(&mut self, name: Text, kind: NodeKind) -> Result<NodeId, GraphStop>
        ensures taken { (result ≡ Err GraphStop.NameTaken) ↔ HasName self.old name.bytes }
        ensures full { (result ≡ Err GraphStop.TooManyNodes)
            ↔ ((length self.old.nodes ≡ 64) × ¬ HasName self.old name.bytes) }
        ensures only { IfErr result IsAdditionStop }
        ensures ok { IfOk result (λ id. self.new ≡ with_node self.old id name.bytes kind) }
        ensures lowest { IfOk result (IsLowestFree (ids self.old)) }
        ensures there { IfOk result (λ id. HasNode self.new id) }
        ensures kind { IfOk result (λ id. kind_at self.new.kinds id ≡ kind) }
        ensures lone { IfOk result (λ id. IsLone self.new.edges id) }
        ensures err { OnErr result (self.new ≡ self.old) }
        ensures sound { IsSoundGraph self.new }
    {
        let named = names::node_named(
            &self.names,
            &self.keys,
            self.order.as_slice(),
            name.as_str(),
        );
        if named.is_some() {
            return Err(GraphStop::NameTaken);
        }
        if self.order.len() == MOST_NODES {
            return Err(GraphStop::TooManyNodes);
        }
        let node = next_id(self.order.as_slice());
        let key = self.names.insert_reserved(name);
        self.keys[node.index()] = key;
        self.order.push_reserved(node);
        self.kinds[node.index()] = kind;
        Ok(node)
    }

    /// Removes a node that no edge leads to, with the edges that it makes.
    pub fn remove_node(&mut self, node: NodeId) -> Result<(), GraphStop>
        requires { HasNode self.old node }
        ensures answer { MatchOption (first_parent node self.old.edges) (result ≡ Ok tt)
            (λ parent. result ≡ Err (GraphStop.InUse parent)) }
        ensures ok { OnOk result (self.new ≡ without_node node self.old) }
        ensures err { OnErr result (self.new ≡ self.old) }
        ensures sound { IsSoundGraph self.new }
    {
        if let Some(parent) = edit::first_parent(self.edges.as_slice(), node) {
            return Err(GraphStop::InUse(parent));
        }
        self.staged.copy_from(&self.edges);
        self.staged.drop_parent(Parent::Node(node));
        self.staged.refresh(&self.kinds);
        mem::swap(&mut self.edges, &mut self.staged);
        names::drop_node(&mut self.order, node);
        self.names.remove(self.keys[node.index()]);
        self.kinds[node.index()] = NO_KIND;
        Ok(())
    }
}
