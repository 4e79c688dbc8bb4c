//! A list of edges apart from its graph.

use crate::row::node;
use crate::words::{ROLES, name_of, put_conflict};
use blk_graph::{EdgeList, Graph, Parent};
use row_text::{Row, RowStop, Words};

#[derive(Clone, Copy)]
pub(crate) enum Ask {
    Child,
    Move,
    Path,
    Cut,
    Judge,
    Count,
}

pub(crate) const ASKS: [(&str, Ask); 6] = [
    ("draft-child", Ask::Child),
    ("draft-move", Ask::Move),
    ("draft-path", Ask::Path),
    ("draft-cut", Ask::Cut),
    ("draft-judge", Ask::Judge),
    ("draft-count", Ask::Count),
];

/// `take`: the graph takes a copy of its edges, and the list those that it had.
pub(crate) fn take(graph: &mut Graph, draft: &mut EdgeList) {
    draft.copy_from(graph.list());
    let kinds = *graph.kinds();
    graph.take(&kinds, draft);
}

/// `draft-child NODE ROLE`.
fn child<'a>(graph: &'a Graph, draft: &EdgeList, row: &Row) -> Result<&'a str, RowStop> {
    let parent = node(graph, row, 0)?;
    let role = row.named(1, &ROLES)?;
    match draft.child(Parent::Node(parent), role) {
        Some(child) => Ok(name_of(graph, child)),
        None => Ok("none"),
    }
}

/// `draft-move FROM TO`: all edges into the first node lead to the second.
fn move_all(graph: &Graph, draft: &mut EdgeList, row: &Row) -> Result<&'static str, RowStop> {
    let from = node(graph, row, 0)?;
    let to = node(graph, row, 1)?;
    draft.move_all(from, to);
    Ok("ok")
}

/// `draft-path FROM TO`.
fn path(graph: &Graph, draft: &EdgeList, row: &Row) -> Result<bool, RowStop> {
    let from = node(graph, row, 0)?;
    let to = node(graph, row, 1)?;
    Ok(draft.reaches(from, to))
}

/// `draft-cut NODE ROLE`: the node's edge of that role goes.
fn cut(graph: &Graph, draft: &mut EdgeList, row: &Row) -> Result<&'static str, RowStop> {
    let parent = node(graph, row, 0)?;
    let role = row.named(1, &ROLES)?;
    draft.remove(Parent::Node(parent), role);
    Ok("ok")
}

/// `draft-judge`: derives what is asked and shared, and looks for a conflict.
fn judge(graph: &Graph, draft: &mut EdgeList, out: &mut Words) {
    draft.refresh(graph.kinds());
    match draft.judge(graph.nodes()) {
        Ok(()) => out.put("ok"),
        Err(pair) => put_conflict(graph, &pair, out),
    }
}

/// Puts what comes of a row on the list.
pub(crate) fn answer_to(
    graph: &Graph,
    draft: &mut EdgeList,
    ask: Ask,
    row: &Row,
    out: &mut Words,
) -> Result<(), RowStop> {
    match ask {
        Ask::Child => out.put(child(graph, draft, row)?),
        Ask::Move => out.put(move_all(graph, draft, row)?),
        Ask::Path => out.yes_or_no(path(graph, draft, row)?),
        Ask::Cut => out.put(cut(graph, draft, row)?),
        Ask::Judge => judge(graph, draft, out),
        Ask::Count => out.number(draft.as_slice().len() as u64),
    }
    Ok(())
}
