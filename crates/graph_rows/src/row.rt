//! Nodes, guests and jobs that a row names.
ghost use Rattle.std.specs.Prelude.{◌<◌, IfOk};
ghost use Rattle.blk_graph.specs.Graph.{HasNode};

use blk_graph::{Graph, MOST_GUESTS, MOST_JOBS, NodeId};
use row_text::{Row, RowStop};

/// The guest whose number stands at a place.
pub(crate) fn guest(row: &Row, place: usize) -> Result<u32, RowStop>
    ensures { IfOk result (λ guest. guest < 80) }
{
    let guest = row.short(place)?;
    if guest < MOST_GUESTS {
        Ok(guest)
    } else {
        Err(RowStop::Word)
    }
}

/// The job whose number stands at a place.
pub(crate) fn job(row: &Row, place: usize) -> Result<u32, RowStop>
    ensures { IfOk result (λ job. job < 16) }
{
    let job = row.short(place)?;
    if (job as usize) < MOST_JOBS {
        Ok(job)
    } else {
        Err(RowStop::Word)
    }
}

/// The node whose name stands at a place.
pub(crate) fn node(graph: &Graph, row: &Row, place: usize) -> Result<NodeId, RowStop>
    ensures { IfOk result (HasNode graph.now) }
{
    match graph.node_named(row.word(place)?) {
        Some(node) if graph.nodes().contains(&node) => Ok(node),
        _ => Err(RowStop::Word),
    }
}

/// The node that was added at a place, counted from 0.
pub(crate) fn nth(graph: &Graph, place: usize) -> Result<NodeId, RowStop>
    ensures { IfOk result (HasNode graph.now) }
{
    let nodes = graph.nodes();
    if place < nodes.len() {
        Ok(nodes[place])
    } else {
        Err(RowStop::Word)
    }
}
