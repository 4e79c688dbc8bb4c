//! The edges of a new node, why they are refused, and a node that is taken back.
ghost use Rattle.std.specs.Prelude.{◌≡◌, ◌≢◌, ◌<◌, true, None, Some, MatchResult, OnOk, OnErr, IfSome};
ghost use Rattle.blk_graph.specs.Edits.{IsLone};
ghost use Rattle.blk_graph.specs.Graph.{HasNode, IsSoundGraph, ids};
ghost use Rattle.blk_graph.specs.Judged.{IsEditStop, without_node};
ghost use Rattle.blk_graph.specs.Permissions.{has_role};
ghost use Rattle.blk_graph.specs.Refreshed.{kind_at, refreshed};
ghost use Rattle.blk_graph.specs.Rule.{first_conflict};
ghost use Rattle.blk_nodes.specs.Overlays.{backed, format_edges};

use blk_graph::{Conflict, Edge, EdgeList, Graph, GraphStop, NodeId, Role};

/// The pair for which an edge is refused that closes no cycle.
pub(crate) fn conflict_of(stop: GraphStop) -> Conflict
    requires edit { IsEditStop stop }
    requires cycle { stop ≢ GraphStop.Cycle }
    ensures { stop ≡ GraphStop.Conflict result }
{
    match stop {
        GraphStop::Conflict(pair) => pair,
        _ => unreachable!(),
    }
}

/// Takes back a node that has no edges yet.
pub(crate) fn take_back(graph: &mut Graph, node: NodeId)
    requires there { HasNode graph.old node }
    requires lone { IsLone graph.old.edges node }
    ensures { graph.new ≡ without_node node graph.old }
{
    match graph.remove_node(node) {
        Ok(()) => {}
        Err(_) => unreachable!(),
    }
}

/// Puts the edge of a node to its backing node, where it has one.
fn put_backing(draft: &mut EdgeList, node: NodeId, backing: Option<NodeId>)
    requires { node < 64 }
    ensures { draft.new ≡ backed node backing draft.old }
{
    if let Some(over) = backing {
        draft.put(Edge::of_node(node, Role::Backing, over));
    }
}

/// Draws the edges of a new node over a file and a backing node, where it has one, in `draft`, beside those of the graph. They
/// are refused, with the first broken pair, where they break the permission rule.
pub(crate) fn draw_edges(
    graph: &Graph,
    draft: &mut EdgeList,
    node: NodeId,
    file: NodeId,
    backing: Option<NodeId>,
) -> Result<(), Conflict>
    requires there { HasNode graph.now node }
    requires lone { IsLone graph.now.edges node }
    requires file { HasNode graph.now file × (file ≢ node) }
    requires backing { IfSome backing (λ over. HasNode graph.now over × (over ≢ node)) }
    requires file_role { has_role (kind_at graph.now.kinds node).kind Role.File ≡ true }
    requires backing_role { IfSome backing
        (λ _. has_role (kind_at graph.now.kinds node).kind Role.Backing ≡ true) }
    ensures drawn { draft.new
        ≡ refreshed graph.now.kinds (format_edges node file backing graph.now.edges) }
    ensures judged { MatchResult result (λ _. first_conflict (ids graph.now) draft.new ≡ None)
        (λ pair. first_conflict (ids graph.now) draft.new ≡ Some pair) }
    ensures sound { OnOk result (IsSoundGraph (record graph.now { edges = draft.new })) }
{
    draft.copy_from(graph.list());
    draft.put(Edge::of_node(node, Role::File, file));
    put_backing(draft, node, backing);
    draft.refresh(graph.kinds());
    draft.judge(graph.nodes())
}

/// Gives a graph the edges that were drawn for it.
pub(crate) fn take_drawn(graph: &mut Graph, draft: &mut EdgeList)
    requires { IsSoundGraph (record graph.old { edges = draft.old }) }
    ensures { graph.new ≡ record graph.old { edges = draft.old } }
{
    let kinds = *graph.kinds();
    graph.take(&kinds, draft);
}
