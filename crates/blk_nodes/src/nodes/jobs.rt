//! What jobs use the nodes for: their edges, and nodes that are written for them.
ghost use Rattle.std.specs.Prelude.{◌≡◌, ◌↔◌, ◌<◌, ℕ, All, IsOk, OnOk, OnErr, Err, None, Some, MatchResult, false, true};
ghost use Rattle.std.specs.Option.{option_map};
ghost use Rattle.blk_graph.specs.Graph.{HasNode, IsSoundGraph, ids};
ghost use Rattle.blk_graph.specs.Refreshed.{refreshed};
ghost use Rattle.blk_graph.specs.Rule.{KeepsPermissions, first_conflict};
ghost use Rattle.blk_graph.specs.declared.edge.Conflict.{Conflict as Pair};
ghost use Rattle.blk_nodes.specs.Contents.{disk_of};
ghost use Rattle.blk_nodes.specs.Jobs.{with_job, with_job_edges, with_read_only, with_node_writes, without_job};
ghost use Rattle.blk_nodes.specs.Joined.{IsFile};

use crate::adding::{conflict_of, take_drawn};
use crate::nodes::Nodes;
use crate::row::Row;
use blk_base::Device;
use blk_graph::{Conflict, Edge, EdgeList, Graph, JobUse, NodeId, Parent};

/// A node, and what a job uses it for.
#[derive(Clone, Copy, Debug)]
pub struct NodeUse {
    pub what: JobUse,
    pub node: NodeId,
}

/// Puts an edge of a job for each node that it uses.
fn put_uses(draft: &mut EdgeList, job: u32, uses: &[NodeUse])
    requires { job < 16 }
    ensures { draft.new ≡ with_job_edges job uses.now draft.old }
{
    for used in uses {
        draft.put(Edge::of_job(job, used.what, used.node));
    }
}

/// Draws the edges of a job in `draft`, beside those of the graph. They are refused, with the first broken pair, where they
/// break the permission rule.
fn draw_uses(
    graph: &Graph,
    draft: &mut EdgeList,
    job: u32,
    uses: &[NodeUse],
) -> Result<(), Conflict>
    requires job { job < 16 }
    requires nodes { All (λ used. HasNode graph.now used.node) uses.now }
    ensures drawn { draft.new
        ≡ refreshed graph.now.kinds (with_job_edges job uses.now graph.now.edges) }
    ensures judged { MatchResult result (λ _. first_conflict (ids graph.now) draft.new ≡ None)
        (λ pair. first_conflict (ids graph.now) draft.new ≡ Some pair) }
    ensures kept { IsOk result ↔ KeepsPermissions draft.new }
    ensures sound { OnOk result (IsSoundGraph (record graph.now { edges = draft.new })) }
{
    draft.copy_from(graph.list());
    put_uses(draft, job, uses);
    draft.refresh(graph.kinds());
    draft.judge(graph.nodes())
}

/// Lets the node of a row be written or not.
pub(crate) fn set_read_only(row: &mut Option<Row>, is_read_only: bool)
    ensures { row.new ≡ option_map (with_read_only is_read_only) row.old }
{
    if let Some(row) = row {
        row.is_read_only = is_read_only;
    }
}

impl<D: Device> Nodes<D> {
    /// Gives a job an edge to each node that it uses: to its source, target or base in the place of the one that it had, and one
    /// to each node between. All are judged as one list. Where that would break the permission rule the first broken pair is
    /// answered, and all is as it was, so the job has none of them. No device is called, and each node reads as before.
    pub fn use_nodes(&mut self, job: u32, uses: &[NodeUse]) -> Result<(), Conflict>
        requires job { job < 16 }
        requires nodes { All (λ used. HasNode self.old.graph used.node) uses.now }
        ensures denied { (pair : Pair) → (result ≡ Err pair)
            ↔ (first_conflict (ids self.old.graph) (with_job job uses.now self.old).graph.edges
            ≡ Some pair) }
        ensures kept { IsOk result
            ↔ KeepsPermissions (with_job job uses.now self.old).graph.edges }
        ensures ok { OnOk result (self.new ≡ with_job job uses.now self.old) }
        ensures err { OnErr result (self.new ≡ self.old) }
        ensures disks { (other : ℕ) → disk_of self.new other ≡ disk_of self.old other }
    {
        if let Err(pair) = draw_uses(&self.graph, &mut self.draft, job, uses) {
            return Err(pair);
        }
        take_drawn(&mut self.graph, &mut self.draft);
        Ok(())
    }

    /// Takes all edges of a job away, as at its end. Each node reads as before.
    pub fn end_job(&mut self, job: u32)
        ensures edges { self.new ≡ without_job job self.old }
        ensures disks { (other : ℕ) → disk_of self.new other ≡ disk_of self.old other }
    {
        self.graph.clear_edges(Parent::Job(job));
    }

    /// Lets a node be written, as the base of a commit. It asks to write its file from then on. Where that would break the
    /// permission rule the first broken pair is answered, and all is as it was. A `file` node asks nothing and isn't refused, so of a
    /// base and then its file both may be written or neither. Guests that are on the node may do what they did, and each node
    /// reads as before.
    pub fn make_writable(&mut self, node: NodeId) -> Result<(), Conflict>
        requires { HasNode self.old.graph node }
        ensures denied { (pair : Pair) → (result ≡ Err pair)
            ↔ (first_conflict (ids self.old.graph) (with_node_writes node true self.old).graph.edges
            ≡ Some pair) }
        ensures kept { IsOk result
            ↔ KeepsPermissions (with_node_writes node true self.old).graph.edges }
        ensures file { IsFile self.old node → IsOk result }
        ensures ok { OnOk result (self.new ≡ with_node_writes node true self.old) }
        ensures err { OnErr result (self.new ≡ self.old) }
        ensures disks { (other : ℕ) → disk_of self.new other ≡ disk_of self.old other }
    {
        if let Err(stop) = self.graph.make_writable(node) {
            return Err(conflict_of(stop));
        }
        set_read_only(&mut self.rows[node.index()], false);
        Ok(())
    }

    /// Lets a node be written no more, as a base, and then its file, that were read-only before their commit. It asks less of its
    /// file then, so this isn't refused. Each node reads as before. No edge goes: whoever writes the node is to be ended before, for a
    /// piece can't be written to it any more.
    pub fn make_read_only(&mut self, node: NodeId)
        requires { HasNode self.old.graph node }
        ensures nodes { self.new ≡ with_node_writes node false self.old }
        ensures disks { (other : ℕ) → disk_of self.new other ≡ disk_of self.old other }
    {
        self.graph.make_read_only(node);
        set_read_only(&mut self.rows[node.index()], true);
    }
}
