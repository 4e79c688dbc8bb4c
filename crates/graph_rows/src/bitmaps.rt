//! Calls on dirty bitmaps, each by the words of a row: a bitmap is named by its node and its own name.

use crate::row::{node, nth};
use blk_base::{Span, Text};
use blk_bitmaps::{Bitmap, BitmapStop, Bitmaps, SourceBitmap, Sources};
use blk_graph::{Graph, NodeId};
use row_text::{Row, RowStop, Words};
use std::alloc::Global;

/// What the table answers, where the words say a call.
type Answer = Result<Result<(), BitmapStop>, RowStop>;

#[derive(Clone, Copy)]
pub(crate) enum Call {
    Add,
    AddToAll,
    Forget,
    Merge,
    Enable,
    Disable,
    Clear,
    Freeze,
    Release,
    Write,
    WriteAll,
}

pub(crate) const CALLS: [(&str, Call); 11] = [
    ("bitmap", Call::Add),
    ("bitmaps-of-all", Call::AddToAll),
    ("forget", Call::Forget),
    ("merge", Call::Merge),
    ("enable", Call::Enable),
    ("disable", Call::Disable),
    ("clear", Call::Clear),
    ("freeze", Call::Freeze),
    ("release", Call::Release),
    ("write", Call::Write),
    ("write-all", Call::WriteAll),
];

/// `bitmap NODE NAME SIZE GRANULARITY`: a new one, enabled.
fn add(alloc: Global, table: &mut Bitmaps, graph: &Graph, row: &Row) -> Answer {
    let node = node(graph, row, 0)?;
    let name = Text::copied(alloc, row.word(1)?)?;
    let size = row.number(2)?;
    let granularity = row.number(3)?;
    Ok(table.add(node, name, size, granularity, true))
}

/// Adds a bitmap of this name to each node.
fn add_to_nodes(alloc: Global, table: &mut Bitmaps, graph: &Graph, name: &str) -> Answer {
    for node in graph.nodes() {
        let name = Text::copied(alloc, name)?;
        let answer = table.add(*node, name, 512, 512, true);
        if answer.is_err() {
            return Ok(answer);
        }
    }
    Ok(Ok(()))
}

/// `bitmaps-of-all NAME ..`: each node gets a bitmap of each name.
fn add_to_all(alloc: Global, table: &mut Bitmaps, graph: &Graph, row: &Row) -> Answer {
    for name in row.words.split_whitespace() {
        let answer = add_to_nodes(alloc, table, graph, name)?;
        if answer.is_err() {
            return Ok(answer);
        }
    }
    Ok(Ok(()))
}

/// `merge NODE NAME SOURCE_NODE SOURCE ..`: bitmaps of one node into another.
fn merge(alloc: Global, table: &mut Bitmaps, graph: &Graph, row: &Row) -> Answer {
    let target = node(graph, row, 0)?;
    let node = node(graph, row, 2)?;
    let mut sources = Vec::new(alloc);
    for name in row.words.split_whitespace().skip(3) {
        let name = Text::copied(alloc, name)?;
        sources.push(SourceBitmap { node, name })?;
    }
    Ok(table.merge(target, row.word(1)?, &Sources::from_vec(sources)))
}

/// `release JOB done` or `release JOB failed`.
fn release(table: &mut Bitmaps, row: &Row) -> Answer {
    table.release(row.short(0)?, row.has("done"));
    Ok(Ok(()))
}

/// The span whose start and length stand at a place.
fn span(row: &Row, place: usize) -> Result<Span, RowStop> {
    Ok(Span {
        start: u64::from(row.short(place)?),
        len: u64::from(row.short(place.saturating_add(1))?),
    })
}

/// `write NODE START LENGTH`.
fn write(table: &mut Bitmaps, graph: &Graph, row: &Row) -> Answer {
    let node = node(graph, row, 0)?;
    table.note_write(node, span(row, 1)?);
    Ok(Ok(()))
}

/// `write-all NODE`.
fn write_all(table: &mut Bitmaps, graph: &Graph, row: &Row) -> Answer {
    let node = node(graph, row, 0)?;
    table.note_all(node);
    Ok(Ok(()))
}

/// A call on one bitmap, `forget`, `enable`, `disable`, `clear` or `freeze`: `VERB NODE NAME`, with the job behind
/// `freeze`.
fn change(table: &mut Bitmaps, graph: &Graph, call: Call, row: &Row) -> Answer {
    let node = node(graph, row, 0)?;
    let name = row.word(1)?;
    match call {
        Call::Forget => Ok(table.remove(node, name)),
        Call::Enable => Ok(table.enable(node, name)),
        Call::Disable => Ok(table.disable(node, name)),
        Call::Clear => Ok(table.clear(node, name)),
        _ => Ok(table.freeze(node, name, row.short(2)?)),
    }
}

/// Puts what is answered to a call.
pub(crate) fn answer_to(
    alloc: Global,
    table: &mut Bitmaps,
    graph: &Graph,
    call: Call,
    row: &Row,
    out: &mut Words,
) -> Result<(), RowStop> {
    let answer = match call {
        Call::Add => add(alloc, table, graph, row)?,
        Call::AddToAll => add_to_all(alloc, table, graph, row)?,
        Call::Merge => merge(alloc, table, graph, row)?,
        Call::Release => release(table, row)?,
        Call::Write => write(table, graph, row)?,
        Call::WriteAll => write_all(table, graph, row)?,
        _ => change(table, graph, call, row)?,
    };
    match answer {
        Ok(()) => out.put("ok"),
        Err(stop) => out.show(&stop),
    }
    Ok(())
}

/// Puts a picture of a bitmap: `#` for each granule that is dirty, a point for each other; and how many bytes are dirty
/// where that isn't what the picture says.
fn put_bitmap(bitmap: &Bitmap, out: &mut Words) {
    let mut marks: u64 = 0;
    for granule in 0..bitmap.dirty.granules() {
        let is_dirty = bitmap.is_dirty(granule);
        marks = marks.saturating_add(u64::from(is_dirty));
        out.put(if is_dirty { "#" } else { "." });
    }
    let bytes = bitmap.dirty_bytes();
    if bytes != bitmap.granularity.bytes().saturating_mul(marks) {
        out.fill(" of % bytes", &[bytes]);
    }
}

/// Puts a picture of the bitmap of that name, or `none`.
pub(crate) fn put_picture(table: &Bitmaps, node: NodeId, name: &str, out: &mut Words) {
    match table.find(node, name) {
        Some(bitmap) => put_bitmap(bitmap, out),
        None => out.put("none"),
    }
}

/// How many bytes of the bitmap of that name are dirty, as a query tells.
fn dirty(table: &Bitmaps, node: NodeId, name: &str) -> Option<u64> {
    Some(table.find(node, name)?.dirty_bytes())
}

/// A table with a bitmap `x` of a node.
fn with_bitmap(
    alloc: Global,
    node: NodeId,
    size: u64,
    granularity: u64,
) -> Result<Bitmaps, RowStop> {
    let mut table = Bitmaps::new(alloc)?;
    match table.add(node, Text::copied(alloc, "x")?, size, granularity, true) {
        Ok(()) => Ok(table),
        Err(_) => Err(RowStop::Call),
    }
}

/// `marks SIZE GRANULARITY START LENGTH`: a new bitmap of the first node behind that write, and one of the second node.
fn marks(alloc: Global, graph: &Graph, row: &Row, out: &mut Words) -> Result<(), RowStop> {
    let node = nth(graph, 0)?;
    let other = nth(graph, 1)?;
    let span = span(row, 2)?;
    let mut table = with_bitmap(alloc, node, row.number(0)?, row.number(1)?)?;
    table.note_write(other, Span { start: 0, len: 512 });
    if dirty(&table, node, "x") != Some(0) {
        out.put("marked by a write elsewhere, ");
    }
    table.note_write(node, span);
    put_picture(&table, node, "x", out);
    Ok(())
}

#[derive(Clone, Copy)]
pub(crate) enum Ask {
    Count,
    Dirty,
    Picture,
    Marks,
}

pub(crate) const ASKS: [(&str, Ask); 4] = [
    ("bitmaps", Ask::Count),
    ("dirty", Ask::Dirty),
    ("picture", Ask::Picture),
    ("marks", Ask::Marks),
];

/// Puts what a row asks of bitmaps.
pub(crate) fn asked(
    alloc: Global,
    table: &Bitmaps,
    graph: &Graph,
    ask: Ask,
    row: &Row,
    out: &mut Words,
) -> Result<(), RowStop> {
    match ask {
        Ask::Count => out.number(table.rows().len() as u64),
        // `dirty NODE NAME`
        Ask::Dirty => out.maybe(dirty(table, node(graph, row, 0)?, row.word(1)?)),
        // `picture NODE NAME`
        Ask::Picture => put_picture(table, node(graph, row, 0)?, row.word(1)?, out),
        Ask::Marks => return marks(alloc, graph, row, out),
    }
    Ok(())
}
