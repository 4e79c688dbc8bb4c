//! Who uses nodes, and which may be written.
ghost use Rattle.std.specs.Prelude.{◌<◌, IfOk};
ghost use Rattle.blk_graph.specs.Graph.{HasNode};

use crate::node::node;
use blk_fakes::MemDevice;
use blk_graph::{JobUse, MOST_GUESTS, MOST_JOBS};
use blk_nodes::{NodeUse, Nodes};
use row_text::{Row, RowStop, Words};

const JOB_USES: [(&str, JobUse); 6] = [
    ("copy-target", JobUse::CopyTarget),
    ("commit-top", JobUse::CommitTop),
    ("commit-between", JobUse::CommitBetween),
    ("commit-base", JobUse::CommitBase),
    ("stream-top", JobUse::StreamTop),
    ("stream-below", JobUse::StreamBelow),
];

/// The guest whose number stands at a place.
fn guest(row: &Row, place: usize) -> Result<u32, RowStop>
    ensures { IfOk result (λ guest. guest < 80) }
{
    let guest = row.short(place)?;
    if guest < MOST_GUESTS {
        Ok(guest)
    } else {
        Err(RowStop::Word)
    }
}

/// The job whose number stands at a place.
fn job(row: &Row, place: usize) -> Result<u32, RowStop>
    ensures { IfOk result (λ job. job < 16) }
{
    let job = row.short(place)?;
    if (job as usize) < MOST_JOBS {
        Ok(job)
    } else {
        Err(RowStop::Word)
    }
}

/// `attach GUEST NODE`, with `shared` behind it where it lets others write.
fn attach(nodes: &mut Nodes<MemDevice>, row: &Row) -> Result<bool, RowStop> {
    let guest = guest(row, 0)?;
    let node = node(nodes, row, 1)?;
    Ok(nodes.attach(guest, node, row.has("shared")).is_ok())
}

/// `detach GUEST`.
fn detach(nodes: &mut Nodes<MemDevice>, row: &Row) -> Result<bool, RowStop> {
    nodes.detach(guest(row, 0)?);
    Ok(true)
}

/// A node, and what a job uses it for, by two words.
fn used(nodes: &Nodes<MemDevice>, row: &Row, place: usize) -> Result<NodeUse, RowStop>
    ensures { IfOk result (λ used. HasNode nodes.now.graph used.node) }
{
    let what = row.named(place, &JOB_USES)?;
    let node = node(nodes, row, place.saturating_add(1))?;
    Ok(NodeUse { what, node })
}

/// Gives a job two uses.
fn use_both(nodes: &mut Nodes<MemDevice>, job: u32, first: NodeUse, second: NodeUse) -> bool
    requires job { job < 16 }
    requires first { HasNode nodes.old.graph first.node }
    requires second { HasNode nodes.old.graph second.node }
{
    let uses = [first, second];
    nodes.use_nodes(job, &uses).is_ok()
}

/// `use JOB USE NODE USE NODE`.
fn use_nodes(nodes: &mut Nodes<MemDevice>, row: &Row) -> Result<bool, RowStop> {
    let job = job(row, 0)?;
    let first = used(nodes, row, 1)?;
    let second = used(nodes, row, 3)?;
    Ok(use_both(nodes, job, first, second))
}

/// `end JOB`.
fn end(nodes: &mut Nodes<MemDevice>, row: &Row) -> Result<bool, RowStop> {
    nodes.end_job(job(row, 0)?);
    Ok(true)
}

/// `writable NODE`.
fn make_writable(nodes: &mut Nodes<MemDevice>, row: &Row) -> Result<bool, RowStop> {
    let node = node(nodes, row, 0)?;
    Ok(nodes.make_writable(node).is_ok())
}

/// `read-only NODE`.
fn make_read_only(nodes: &mut Nodes<MemDevice>, row: &Row) -> Result<bool, RowStop> {
    let node = node(nodes, row, 0)?;
    nodes.make_read_only(node);
    Ok(true)
}

#[derive(Clone, Copy)]
pub(crate) enum Edit {
    Attach,
    Detach,
    Use,
    End,
    Writable,
    ReadOnly,
}

pub(crate) const EDITS: [(&str, Edit); 6] = [
    ("attach", Edit::Attach),
    ("detach", Edit::Detach),
    ("use", Edit::Use),
    ("end", Edit::End),
    ("writable", Edit::Writable),
    ("read-only", Edit::ReadOnly),
];

/// Makes an edit, and says whether it was allowed.
fn is_done(nodes: &mut Nodes<MemDevice>, edit: Edit, row: &Row) -> Result<bool, RowStop> {
    match edit {
        Edit::Attach => attach(nodes, row),
        Edit::Detach => detach(nodes, row),
        Edit::Use => use_nodes(nodes, row),
        Edit::End => end(nodes, row),
        Edit::Writable => make_writable(nodes, row),
        Edit::ReadOnly => make_read_only(nodes, row),
    }
}

/// Puts what is answered to an edit, with the number of edges that there are then.
pub(crate) fn answer_to(
    nodes: &mut Nodes<MemDevice>,
    edit: Edit,
    row: &Row,
    out: &mut Words,
) -> Result<(), RowStop> {
    let is_done = is_done(nodes, edit, row)?;
    out.put(if is_done { "ok" } else { "Conflict" });
    out.fill(", % edges", &[nodes.edges().len() as u64]);
    Ok(())
}

/// `mode NODE`: `rw`, or `ro` of a node that may not be written.
pub(crate) fn mode(nodes: &Nodes<MemDevice>, row: &Row) -> Result<&'static str, RowStop> {
    let node = node(nodes, row, 0)?;
    Ok(if nodes.is_read_only(node) { "ro" } else { "rw" })
}
