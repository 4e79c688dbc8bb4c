//! The look at an edited list before it is taken.
ghost use Rattle.std.specs.Prelude.{◌≡◌, ◌↔◌, length, IsTrue, OnOk, OnErr};
ghost use Rattle.blk_graph.specs.Judged.{IsJudged, IsRuled, LeadTo};
ghost use Rattle.blk_graph.specs.Paths.{LeadsBack};
ghost use Rattle.blk_graph.specs.Refreshed.{refreshed};

use crate::edge::{Edge, NodeId, Parent};
use crate::kind::NodeKind;
use crate::list::EdgeList;
use crate::stop::GraphStop;
use crate::walk::reaches;
use std::mem;

/// Whether an edge from this parent to the child would close a cycle.
pub(crate) fn leads_back(edges: &[Edge], child: NodeId, parent: &Parent) -> bool
    ensures { IsTrue result ↔ LeadsBack edges.now child parent.now }
{
    match parent {
        Parent::Node(node) => child == *node || reaches(edges, child, *node),
        Parent::Guest(_) | Parent::Job(_) => false,
    }
}

/// Refuses a list that breaks the permission rule.
pub(crate) fn judge(nodes: &[NodeId], edited: &EdgeList) -> Result<(), GraphStop>
    ensures { IsRuled nodes.now edited.now result }
{
    match edited.judge(nodes) {
        Ok(()) => Ok(()),
        Err(pair) => Err(GraphStop::Conflict(pair)),
    }
}

/// Takes an edited list, which may have a cycle, for the graph's, unless it is refused.
pub(crate) fn settle_any(
    nodes: &[NodeId],
    kinds: &[NodeKind],
    edges: &mut EdgeList,
    edited: &mut EdgeList,
) -> Result<(), GraphStop>
    requires kinds { length kinds.now ≡ 64 }
    ensures judged { LeadTo nodes.now edited.old → IsJudged nodes.now kinds.now edited.old result }
    ensures ok { OnOk result (edges.new ≡ refreshed kinds.now edited.old) }
    ensures err { OnErr result (edges.new ≡ edges.old) }
{
    let judged = edited.settle(nodes, kinds);
    if judged.is_ok() {
        mem::swap(edges, edited);
    }
    judged
}

/// Derives what nodes' edges ask and share, and takes the edited list for the graph's, unless it is refused.
pub(crate) fn settle(
    nodes: &[NodeId],
    kinds: &[NodeKind],
    edges: &mut EdgeList,
    edited: &mut EdgeList,
) -> Result<(), GraphStop>
    requires kinds { length kinds.now ≡ 64 }
    ensures ruled { IsRuled nodes.now (refreshed kinds.now edited.old) result }
    ensures ok { OnOk result (edges.new ≡ refreshed kinds.now edited.old) }
    ensures err { OnErr result (edges.new ≡ edges.old) }
{
    edited.refresh(kinds);
    let judged = judge(nodes, edited);
    if judged.is_ok() {
        mem::swap(edges, edited);
    }
    judged
}
