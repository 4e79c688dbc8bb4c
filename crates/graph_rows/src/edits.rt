//! Edits of a graph, each by the words of a row.
ghost use Rattle.std.specs.Prelude.{◌<◌};

use crate::row::{guest, job, node, nth};
use crate::words::{JOB_USES, put_stop, put_user};
use blk_base::Text;
use blk_graph::{Edge, Graph, GraphStop, JobUse, NO_KIND, Parent, Perms, Role};
use row_text::{Row, RowStop, Words};
use std::alloc::Global;

/// What the graph answers, where the words say an edit.
type Answer = Result<Result<(), GraphStop>, RowStop>;

#[derive(Clone, Copy)]
pub(crate) enum Edit {
    Add,
    File,
    Backing,
    Drive,
    Job,
    Move,
    Both,
    Over,
    Filter,
    Pull,
    Remove,
    Detach,
    Cut,
    End,
    Pivot,
    Writable,
    ReadOnly,
    Chain,
    HoldAll,
}

pub(crate) const EDITS: [(&str, Edit); 19] = [
    ("add", Edit::Add),
    ("file", Edit::File),
    ("backing", Edit::Backing),
    ("drive", Edit::Drive),
    ("job", Edit::Job),
    ("move", Edit::Move),
    ("both", Edit::Both),
    ("over", Edit::Over),
    ("filter", Edit::Filter),
    ("pull", Edit::Pull),
    ("remove", Edit::Remove),
    ("detach", Edit::Detach),
    ("cut", Edit::Cut),
    ("end", Edit::End),
    ("pivot", Edit::Pivot),
    ("writable", Edit::Writable),
    ("read-only", Edit::ReadOnly),
    ("chain", Edit::Chain),
    ("hold-all", Edit::HoldAll),
];

const NONE: Perms = Perms {
    read: false,
    write: false,
    unchanged: false,
};

/// `add NAME`: a node of no kind.
fn add(alloc: Global, graph: &mut Graph, row: &Row) -> Answer {
    let name = Text::copied(alloc, row.word(0)?)?;
    match graph.add_node(name, NO_KIND) {
        Ok(_) => Ok(Ok(())),
        Err(stop) => Ok(Err(stop)),
    }
}

/// `file PARENT CHILD`, `backing PARENT CHILD`.
fn link(graph: &mut Graph, row: &Row, role: Role) -> Answer {
    let parent = node(graph, row, 0)?;
    let child = node(graph, row, 1)?;
    if !graph.has_role(parent, role) {
        return Err(RowStop::Call);
    }
    Ok(graph.set_edge(Edge::of_node(parent, role, child)))
}

/// `drive GUEST NODE`, of a guest that may write and, with `shared` behind it, lets others write.
fn drive(graph: &mut Graph, row: &Row) -> Answer {
    let guest = guest(row, 0)?;
    let child = node(graph, row, 1)?;
    let is_shared = row.has("shared");
    Ok(graph.set_edge(Edge::drive(guest, child, true, is_shared)))
}

/// `job JOB USE NODE`.
fn hold(graph: &mut Graph, row: &Row) -> Answer {
    let job = job(row, 0)?;
    let what = row.named(1, &JOB_USES)?;
    let child = node(graph, row, 2)?;
    Ok(graph.set_edge(Edge::of_job(job, what, child)))
}

/// `move FROM TO`, with `but GUEST` behind it where that guest stays.
fn move_parents(graph: &mut Graph, row: &Row) -> Answer {
    let from = node(graph, row, 0)?;
    let to = node(graph, row, 1)?;
    if !row.has("but") {
        return Ok(graph.replace_child(from, to, None));
    }
    let guest = guest(row, 3)?;
    Ok(graph.replace_child(from, to, Some(Parent::Guest(guest))))
}

/// `both NODE FILE BACKING`: both edges of a node or neither.
fn both(graph: &mut Graph, row: &Row) -> Answer {
    let parent = node(graph, row, 0)?;
    let file = node(graph, row, 1)?;
    let backing = node(graph, row, 2)?;
    if !graph.has_role(parent, Role::File) || !graph.has_role(parent, Role::Backing) {
        return Err(RowStop::Call);
    }
    let first = Edge::of_node(parent, Role::File, file);
    let second = Edge::of_node(parent, Role::Backing, backing);
    Ok(graph.set_edges(first, second))
}

/// `over NODE OVERLAY`.
fn over(graph: &mut Graph, row: &Row) -> Answer {
    let below = node(graph, row, 0)?;
    let overlay = node(graph, row, 1)?;
    if !graph.has_role(overlay, Role::Backing) {
        return Err(RowStop::Call);
    }
    Ok(graph.put_over(below, overlay))
}

/// `filter NODE FILTER`: between a node and its parents.
fn filter(graph: &mut Graph, row: &Row) -> Answer {
    let below = node(graph, row, 0)?;
    let above = node(graph, row, 1)?;
    if below == above || !graph.is_lone(above) || !graph.has_role(above, Role::Filtered) {
        return Err(RowStop::Call);
    }
    Ok(graph.insert_filter(below, above, NONE, NONE))
}

/// `cut NODE`: its backing edge goes.
fn cut(graph: &mut Graph, row: &Row) -> Answer {
    let parent = node(graph, row, 0)?;
    graph.clear_edge(Parent::Node(parent), Role::Backing);
    Ok(Ok(()))
}

/// `pivot FILTER TO JOB`.
fn pivot(graph: &mut Graph, row: &Row) -> Answer {
    let filter = node(graph, row, 0)?;
    let to = node(graph, row, 1)?;
    let job = job(row, 2)?;
    Ok(graph.pivot(filter, to, job))
}

/// `read-only NODE`.
fn make_read_only(graph: &mut Graph, row: &Row) -> Answer {
    let written = node(graph, row, 0)?;
    graph.make_read_only(written);
    Ok(Ok(()))
}

/// `detach GUEST`, `end JOB`: all its edges go.
fn clear(graph: &mut Graph, parent: Parent) -> Answer {
    graph.clear_edges(parent);
    Ok(Ok(()))
}

/// `pull FILTER`.
fn pull(graph: &mut Graph, row: &Row) -> Answer {
    let filter = node(graph, row, 0)?;
    Ok(graph.remove_filter(filter))
}

/// `remove NODE`.
fn remove(graph: &mut Graph, row: &Row) -> Answer {
    let gone = node(graph, row, 0)?;
    Ok(graph.remove_node(gone))
}

/// `writable NODE`.
fn make_writable(graph: &mut Graph, row: &Row) -> Answer {
    let written = node(graph, row, 0)?;
    Ok(graph.make_writable(written))
}

/// `chain`: each node gets a backing edge to the one that was added behind it, from the last on.
fn chain(graph: &mut Graph) -> Answer {
    for place in (1..graph.nodes().len()).rev() {
        let parent = nth(graph, place.saturating_sub(1))?;
        let child = nth(graph, place)?;
        if !graph.has_role(parent, Role::Backing) {
            return Err(RowStop::Call);
        }
        let answer = graph.set_edge(Edge::of_node(parent, Role::Backing, child));
        if answer.is_err() {
            return Ok(answer);
        }
    }
    Ok(Ok(()))
}

/// A job holds all nodes, and the last of them twice.
fn hold_by(graph: &mut Graph, job: u32) -> Answer
    requires { job < 16 }
{
    let last = nth(graph, graph.nodes().len().saturating_sub(1))?;
    let mut answer = graph.set_edge(Edge::of_job(job, JobUse::StreamTop, last));
    for place in 0..graph.nodes().len() {
        if answer.is_ok() {
            let child = nth(graph, place)?;
            answer = graph.set_edge(Edge::of_job(job, JobUse::StreamBelow, child));
        }
    }
    Ok(answer)
}

/// `hold-all`: so does each of 16 jobs.
fn hold_all(graph: &mut Graph) -> Answer {
    for job in 0..16 {
        let answer = hold_by(graph, job)?;
        if answer.is_err() {
            return Ok(answer);
        }
    }
    Ok(Ok(()))
}

/// Makes an edit.
fn edited(alloc: Global, graph: &mut Graph, edit: Edit, row: &Row) -> Answer {
    match edit {
        Edit::Add => add(alloc, graph, row),
        Edit::File => link(graph, row, Role::File),
        Edit::Backing => link(graph, row, Role::Backing),
        Edit::Drive => drive(graph, row),
        Edit::Job => hold(graph, row),
        Edit::Move => move_parents(graph, row),
        Edit::Both => both(graph, row),
        Edit::Over => over(graph, row),
        Edit::Filter => filter(graph, row),
        Edit::Pull => pull(graph, row),
        Edit::Remove => remove(graph, row),
        Edit::Detach => clear(graph, Parent::Guest(guest(row, 0)?)),
        Edit::Cut => cut(graph, row),
        Edit::End => clear(graph, Parent::Job(job(row, 0)?)),
        Edit::Pivot => pivot(graph, row),
        Edit::Writable => make_writable(graph, row),
        Edit::ReadOnly => make_read_only(graph, row),
        Edit::Chain => chain(graph),
        Edit::HoldAll => hold_all(graph),
    }
}

/// Puts what is answered to an edit.
pub(crate) fn answer_to(
    alloc: Global,
    graph: &mut Graph,
    edit: Edit,
    row: &Row,
    out: &mut Words,
) -> Result<(), RowStop> {
    match edited(alloc, graph, edit, row)? {
        Ok(()) => out.put("ok"),
        Err(GraphStop::InUse(parent)) => put_user(graph, &parent, out),
        Err(stop) => put_stop(graph, &stop, out),
    }
    Ok(())
}
