//! Overlays one over the other, of whose devices the calls are counted: each fails once, behind so many.
ghost use Rattle.std.specs.Prelude.{IfOk};
ghost use Rattle.blk_graph.specs.Graph.{HasNode};

use crate::adding::{add_file, add_qcow2, add_raw, device};
use crate::image::empty_image;
use crate::node::named_node;
use crate::text::put_outcome;
use blk_base::{DevNo, Outcome, Span, Text};
use blk_fakes::{FailAt, MemDevice};
use blk_graph::NodeId;
use blk_nodes::{Backing, Nodes};
use row_text::{Row, RowStop, Words, same};
use std::alloc::Global;

/// The calls by which an image is opened that maps nothing: reads of its header, of its refcount table and block and of its
/// L1 table.
const OPENING: u64 = 4;

/// The bytes of the disk of each level.
const DISK: u64 = 131_072;

/// What a device of an image may grow to.
const CAPACITY: u64 = 524_288;

/// More levels have more nodes than there may be.
const MOST: u32 = 31;

/// Fails where a node wasn't added.
fn added(answer: &Words) -> Result<(), RowStop> {
    if same(answer.as_str(), "ok") {
        Ok(())
    } else {
        Err(RowStop::Call)
    }
}

/// The name of the node of that level which begins with a letter.
fn name_at(alloc: Global, letter: &str, level: u32) -> Result<Text, RowStop> {
    let mut name = Words::new(alloc);
    name.put(letter);
    name.number(u64::from(level));
    Ok(Text::copied(alloc, name.as_str())?)
}

/// Adds the file of a level, whose device fails behind so many calls.
fn add_disk(
    alloc: Global,
    nodes: &mut Nodes<MemDevice>,
    level: u32,
    bytes: &[u8],
    capacity: u64,
    call: u64,
) -> Result<(), RowStop> {
    let fails = [FailAt { call, done: 0 }];
    let device = device(alloc, bytes, capacity, &fails)?;
    let mut answer = Words::new(alloc);
    add_file(
        nodes,
        name_at(alloc, "f", level)?,
        device,
        level,
        false,
        &mut answer,
    );
    added(&answer)
}

/// The node of that level which begins with a letter.
fn node_at(
    alloc: Global,
    nodes: &Nodes<MemDevice>,
    letter: &str,
    level: u32,
) -> Result<NodeId, RowStop>
    ensures { IfOk result (HasNode nodes.now.graph) }
{
    let name = name_at(alloc, letter, level)?;
    named_node(nodes, name.as_str())
}

/// Adds the `raw` node n0 of bytes `a`, over the file f0, whose device fails behind so many calls.
fn add_bottom(alloc: Global, nodes: &mut Nodes<MemDevice>, call: u64) -> Result<(), RowStop> {
    let mut bytes = Vec::new(alloc);
    bytes.resize(131_072, b'a')?;
    add_disk(alloc, nodes, 0, bytes.as_slice(), 0, call)?;
    let file = node_at(alloc, nodes, "f", 0)?;
    let part = Span {
        start: 0,
        len: DISK,
    };
    let mut answer = Words::new(alloc);
    let name = name_at(alloc, "n", 0)?;
    add_raw(nodes, name, file, part, true, &mut answer)?;
    added(&answer)
}

/// Adds an overlay of that level over the one below it. Its device fails behind its opening and so many calls more.
fn add_level(
    alloc: Global,
    nodes: &mut Nodes<MemDevice>,
    level: u32,
    image: &[u8],
    calls: u64,
) -> Result<(), RowStop> {
    let call = calls.saturating_add(OPENING);
    add_disk(alloc, nodes, level, image, CAPACITY, call)?;
    let file = node_at(alloc, nodes, "f", level)?;
    let below = node_at(alloc, nodes, "n", level.saturating_sub(1))?;
    let mut answer = Words::new(alloc);
    let name = name_at(alloc, "n", level)?;
    add_qcow2(nodes, name, file, Backing::Node(below), false, &mut answer)?;
    added(&answer)
}

/// `stack HEIGHT BASE TOP`: a raw disk n0 and so many overlays over it, n1 and so on. Each device fails once: n0's and the
/// top's behind so many calls, and the others' at their first.
pub(crate) fn stack(alloc: Global, row: &Row) -> Result<Nodes<MemDevice>, RowStop> {
    let height = row.short(0)?;
    if height > MOST {
        return Err(RowStop::Number);
    }
    let top = row.number(2)?;
    let image = empty_image(alloc, DISK)?;
    let mut nodes = Nodes::new(alloc)?;
    add_bottom(alloc, &mut nodes, row.number(1)?)?;
    for below in 0..height {
        let level = below.saturating_add(1);
        let calls = if level == height { top } else { 0 };
        add_level(alloc, &mut nodes, level, image.as_slice(), calls)?;
    }
    Ok(nodes)
}

/// How the flush of a level's file goes.
fn flushed(alloc: Global, nodes: &mut Nodes<MemDevice>, level: u32) -> Result<Outcome, RowStop> {
    let file = node_at(alloc, nodes, "f", level)?;
    Ok(nodes.flush_node(file))
}

/// `next-calls-fail HEIGHT`: `yes` where the next call of each device of a stack is its first that fails, else the first level
/// of which it isn't, and what came.
pub(crate) fn next_calls_fail(
    alloc: Global,
    nodes: &mut Nodes<MemDevice>,
    row: &Row,
    out: &mut Words,
) -> Result<(), RowStop> {
    for level in 0..row.short(0)?.saturating_add(1) {
        let failed = Outcome::Io {
            dev: DevNo(level),
            count: 1,
        };
        let outcome = flushed(alloc, nodes, level)?;
        if outcome != failed {
            out.fill("level %: ", &[u64::from(level)]);
            put_outcome(outcome, out);
            return Ok(());
        }
    }
    out.put("yes");
    Ok(())
}
