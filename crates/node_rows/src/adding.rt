//! Nodes that are added.
ghost use Rattle.std.specs.Prelude.{IfOk, IfSome};
ghost use Rattle.blk_graph.specs.Graph.{HasNode};
ghost use Rattle.blk_nodes.specs.Overlays.{backing_node};

use crate::image::empty_image;
use crate::node::node;
use crate::text::put_stop;
use blk_base::{DevNo, Span, Text};
use blk_fakes::{FailAt, MemDevice};
use blk_graph::NodeId;
use blk_nodes::{Backing, FilterKind, Nodes};
use row_text::{Row, RowStop, Words, same};
use std::alloc::Global;

/// No device has a larger capacity.
const LARGEST: u64 = 1_073_741_824;

const MODES: [(&str, bool); 2] = [("rw", false), ("ro", true)];

const FILTERS: [(&str, FilterKind); 3] = [
    ("before-write", FilterKind::BeforeWrite),
    ("mirror", FilterKind::Mirror),
    ("commit", FilterKind::Commit),
];

/// A device of these bytes, whose capacity is no less than their number.
pub(crate) fn device(
    alloc: Global,
    bytes: &[u8],
    capacity: u64,
    fails: &[FailAt],
) -> Result<MemDevice, RowStop> {
    if capacity > LARGEST {
        return Err(RowStop::Number);
    }
    let capacity = capacity.max(bytes.len() as u64);
    Ok(MemDevice::new(alloc, bytes, capacity, fails, 0, 0)?)
}

/// Adds a `file` node over a device that has a number.
pub(crate) fn add_file(
    nodes: &mut Nodes<MemDevice>,
    name: Text,
    device: MemDevice,
    number: u32,
    is_read_only: bool,
    out: &mut Words,
) {
    match nodes.add_file(name, device, DevNo(number), is_read_only) {
        Ok(_) => out.put("ok"),
        Err((stop, _back)) => put_stop(&stop, out),
    }
}

/// Adds a `raw` node over a part of a file.
pub(crate) fn add_raw(
    nodes: &mut Nodes<MemDevice>,
    name: Text,
    file: NodeId,
    part: Span,
    is_read_only: bool,
    out: &mut Words,
) -> Result<(), RowStop> {
    let size = nodes.size(file);
    if !nodes.is_file(file) || part.start > size || part.len > size - part.start {
        return Err(RowStop::Call);
    }
    match nodes.add_raw(name, file, part, is_read_only) {
        Ok(_) => out.put("ok"),
        Err(stop) => put_stop(&stop, out),
    }
    Ok(())
}

/// Adds a qcow2 node over the image in a file.
pub(crate) fn add_qcow2(
    nodes: &mut Nodes<MemDevice>,
    name: Text,
    file: NodeId,
    backing: Backing,
    is_read_only: bool,
    out: &mut Words,
) -> Result<(), RowStop>
    requires { IfSome (backing_node backing) (HasNode nodes.old.graph) }
{
    if !nodes.is_file(file) {
        return Err(RowStop::Call);
    }
    match nodes.add_qcow2(name, file, backing, is_read_only) {
        Ok(_) => out.put("ok"),
        Err(stop) => put_stop(&stop, out),
    }
    Ok(())
}

/// What a qcow2 node reads where its image has nothing: the node at a place, `null`, or `unsaid`.
fn backing(nodes: &Nodes<MemDevice>, row: &Row, place: usize) -> Result<Backing, RowStop>
    ensures { IfOk result
        (λ backing. IfSome (backing_node backing) (HasNode nodes.now.graph)) }
{
    let word = row.word(place)?;
    if same(word, "null") {
        return Ok(Backing::Null);
    }
    if same(word, "unsaid") {
        return Ok(Backing::Unsaid);
    }
    Ok(Backing::Node(node(nodes, row, place)?))
}

/// `file NAME NUMBER MODE CAPACITY BYTES`, where the mode is `rw` or `ro`. `image NAME NUMBER MODE CAPACITY SIZE`: a file that
/// holds a new image of a disk of that size.
pub(crate) fn file(
    alloc: Global,
    nodes: &mut Nodes<MemDevice>,
    fails: &[FailAt],
    is_image: bool,
    row: &Row,
    out: &mut Words,
) -> Result<(), RowStop> {
    let name = Text::copied(alloc, row.word(0)?)?;
    let number = row.short(1)?;
    let is_read_only = row.named(2, &MODES)?;
    let bytes = if is_image {
        empty_image(alloc, row.number(4)?)?
    } else {
        row.bytes(alloc, 4)?
    };
    let device = device(alloc, bytes.as_slice(), row.number(3)?, fails)?;
    add_file(nodes, name, device, number, is_read_only, out);
    Ok(())
}

/// `raw NAME FILE MODE START LENGTH`.
pub(crate) fn raw(
    alloc: Global,
    nodes: &mut Nodes<MemDevice>,
    row: &Row,
    out: &mut Words,
) -> Result<(), RowStop> {
    let name = Text::copied(alloc, row.word(0)?)?;
    let file = node(nodes, row, 1)?;
    let is_read_only = row.named(2, &MODES)?;
    let part = Span {
        start: u64::from(row.short(3)?),
        len: u64::from(row.short(4)?),
    };
    add_raw(nodes, name, file, part, is_read_only, out)
}

/// `qcow2 NAME FILE MODE BACKING`, where the last is a node, `null` or `unsaid`.
pub(crate) fn qcow2(
    alloc: Global,
    nodes: &mut Nodes<MemDevice>,
    row: &Row,
    out: &mut Words,
) -> Result<(), RowStop> {
    let name = Text::copied(alloc, row.word(0)?)?;
    let file = node(nodes, row, 1)?;
    let is_read_only = row.named(2, &MODES)?;
    let backing = backing(nodes, row, 3)?;
    add_qcow2(nodes, name, file, backing, is_read_only, out)
}

/// `filter NAME KIND MODE SIZE`: a job's filter with no edge, where the kind is `before-write`, `mirror` or `commit`.
pub(crate) fn filter(
    alloc: Global,
    nodes: &mut Nodes<MemDevice>,
    row: &Row,
    out: &mut Words,
) -> Result<(), RowStop> {
    let name = Text::copied(alloc, row.word(0)?)?;
    let kind = row.named(1, &FILTERS)?;
    let is_read_only = row.named(2, &MODES)?;
    match nodes.add_filter(name, kind, row.number(3)?, is_read_only) {
        Ok(_) => out.put("ok"),
        Err(stop) => put_stop(&stop, out),
    }
    Ok(())
}

/// `drop NODE`.
pub(crate) fn drop_node(
    nodes: &mut Nodes<MemDevice>,
    row: &Row,
    out: &mut Words,
) -> Result<(), RowStop> {
    let node = node(nodes, row, 0)?;
    match nodes.drop_node(node) {
        Ok(_) => out.put("ok"),
        Err(_) => out.put("InUse"),
    }
    Ok(())
}
