//! New graphs by rows, and what rows ask of a graph.

use crate::row::node;
use crate::words::{KINDS, put_edges, put_uses};
use blk_base::Text;
use blk_graph::{Graph, Kind, NodeKind};
use row_text::{Row, RowStop, Words, cut, named};
use std::alloc::Global;

/// Adds a node that may be written.
fn add_node(alloc: Global, graph: &mut Graph, name: &str, kind: Kind) -> Result<(), RowStop> {
    let name = Text::copied(alloc, name)?;
    match graph.add_node(name, NodeKind { kind, writes: true }) {
        Ok(_) => Ok(()),
        Err(_) => Err(RowStop::Call),
    }
}

/// Adds a node by a word, `NAME:KIND`.
fn add_word(alloc: Global, graph: &mut Graph, word: &str) -> Result<(), RowStop> {
    let (name, kind) = cut(word, ":");
    match named(&KINDS, kind) {
        Some(kind) => add_node(alloc, graph, name, kind),
        None => Err(RowStop::Word),
    }
}

/// `nodes NAME:KIND ..`: a graph with these nodes, which may be written.
pub(crate) fn nodes(alloc: Global, row: &Row) -> Result<Graph, RowStop> {
    let mut graph = Graph::new(alloc)?;
    for word in row.words.split_whitespace() {
        add_word(alloc, &mut graph, word)?;
    }
    Ok(graph)
}

/// `many COUNT`: a graph with so many qcow2 nodes n0, n1 and so on.
pub(crate) fn many(alloc: Global, row: &Row) -> Result<Graph, RowStop> {
    let mut graph = Graph::new(alloc)?;
    for number in 0..row.number(0)? {
        let mut name = Words::new(alloc);
        name.fill("n%", &[number]);
        add_node(alloc, &mut graph, name.as_str(), Kind::Qcow2)?;
    }
    Ok(graph)
}

#[derive(Clone, Copy)]
pub(crate) enum Ask {
    Id,
    Edges,
    Uses,
    Count,
    Path,
}

pub(crate) const ASKS: [(&str, Ask); 5] = [
    ("id", Ask::Id),
    ("edges", Ask::Edges),
    ("uses", Ask::Uses),
    ("count", Ask::Count),
    ("path", Ask::Path),
];

/// `id NAME`: the number of the node of that name.
fn id(graph: &Graph, name: &str) -> Option<u64> {
    Some(graph.node_named(name)?.index() as u64)
}

/// `uses PLACE`: what the edge at a place, counted from 0, asks and shares.
fn put_edge(graph: &Graph, place: usize, out: &mut Words) {
    match graph.edges().get(place) {
        Some(edge) => put_uses(edge.perm, edge.shared, out),
        None => out.put("none"),
    }
}

/// `path FROM TO`: whether one node leads to the other.
fn path(graph: &Graph, row: &Row) -> Result<bool, RowStop> {
    let from = node(graph, row, 0)?;
    let to = node(graph, row, 1)?;
    Ok(graph.reaches(from, to))
}

/// Puts what a row asks of a graph.
pub(crate) fn answer_to(
    graph: &Graph,
    ask: Ask,
    row: &Row,
    out: &mut Words,
) -> Result<(), RowStop> {
    match ask {
        Ask::Id => out.maybe(id(graph, row.word(0)?)),
        Ask::Edges => put_edges(graph, out),
        Ask::Uses => put_edge(graph, row.short(0)? as usize, out),
        // `count`: how many edges there are
        Ask::Count => out.number(graph.edges().len() as u64),
        Ask::Path => out.yes_or_no(path(graph, row)?),
    }
    Ok(())
}
