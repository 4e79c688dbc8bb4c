//! Disks whose clusters are each mapped, read as zeros or aren't there, and what all clusters of a disk read as.

use crate::node::node;
use crate::pieces::{CLUSTER, read, write, zero};
use crate::text::put_outcome;
use blk_base::Outcome;
use blk_fakes::MemDevice;
use blk_graph::NodeId;
use blk_nodes::Nodes;
use row_text::{Row, RowStop, Words};
use std::alloc::Global;

/// How many bytes are half of a cluster.
const HALF: usize = 32_768;

/// How many whole clusters a node's disk has.
fn count(nodes: &Nodes<MemDevice>, node: NodeId) -> u64 {
    nodes.size(node) / CLUSTER
}

/// What the two halves of a cluster hold that reads as a letter: the letter, and its capital.
fn shades(letter: u8) -> (u8, u8) {
    match letter {
        b'a'..=b'z' => (letter, letter - 32),
        _ => (0, 0),
    }
}

/// Maps a cluster with a letter.
fn map(
    alloc: Global,
    nodes: &mut Nodes<MemDevice>,
    node: NodeId,
    start: u64,
    letter: u8,
) -> Result<Outcome, RowStop> {
    let (small, large) = shades(letter);
    let mut bytes = Vec::new(alloc);
    bytes.resize(HALF, small)?;
    let outcome = write(nodes, node, start, bytes.as_slice())?;
    if !outcome.is_good() {
        return Ok(outcome);
    }
    bytes.clear();
    bytes.resize(HALF, large)?;
    write(nodes, node, start.saturating_add(32_768), bytes.as_slice())
}

/// Makes a cluster what it is by its turn.
fn lay(
    alloc: Global,
    nodes: &mut Nodes<MemDevice>,
    node: NodeId,
    start: u64,
    turn: u64,
    letter: u8,
) -> Result<Outcome, RowStop> {
    match turn % 3 {
        0 => map(alloc, nodes, node, start, letter),
        1 => zero(nodes, node, start, 65_536),
        _ => Ok(Outcome::Good),
    }
}

/// `mix NODE ALIKE LETTER`: so many clusters are mapped, as many behind them read as zeros, as many more stay as they are, and
/// so on from there. A mapped one holds the letter, small in its first half.
fn mix(alloc: Global, nodes: &mut Nodes<MemDevice>, row: &Row) -> Result<Outcome, RowStop> {
    let node = node(nodes, row, 0)?;
    let alike = row.number(1)?.max(1);
    let letter = row.word(2)?.as_bytes().first().copied().unwrap_or(0);
    for cluster in 0..count(nodes, node) {
        let start = cluster.saturating_mul(CLUSTER);
        let outcome = lay(alloc, nodes, node, start, cluster / alike, letter)?;
        if !outcome.is_good() {
            return Ok(outcome);
        }
    }
    Ok(Outcome::Good)
}

/// `write-each NODE START BYTES`: the same place of each cluster.
fn write_each(alloc: Global, nodes: &mut Nodes<MemDevice>, row: &Row) -> Result<Outcome, RowStop> {
    let node = node(nodes, row, 0)?;
    let at = u64::from(row.short(1)?);
    let bytes = row.bytes(alloc, 2)?;
    for cluster in 0..count(nodes, node) {
        let start = cluster.saturating_mul(CLUSTER).saturating_add(at);
        let outcome = write(nodes, node, start, bytes.as_slice())?;
        if !outcome.is_good() {
            return Ok(outcome);
        }
    }
    Ok(Outcome::Good)
}

/// `zero-each NODE START LENGTH`.
fn zero_each(nodes: &mut Nodes<MemDevice>, row: &Row) -> Result<Outcome, RowStop> {
    let node = node(nodes, row, 0)?;
    let at = u64::from(row.short(1)?);
    let len = row.short(2)? as usize;
    for cluster in 0..count(nodes, node) {
        let start = cluster.saturating_mul(CLUSTER).saturating_add(at);
        let outcome = zero(nodes, node, start, len)?;
        if !outcome.is_good() {
            return Ok(outcome);
        }
    }
    Ok(Outcome::Good)
}

/// What a cluster holds at a place that reads as two halves but for a piece.
fn byte_at(place: usize, halves: (u8, u8), at: usize, piece: &[u8]) -> u8 {
    if place >= at && place - at < piece.len() {
        return piece[place - at];
    }
    if place < HALF { halves.0 } else { halves.1 }
}

/// Whether a cluster reads as two halves but for a piece.
fn is_halves(cluster: &[u8], halves: (u8, u8), at: usize, piece: &[u8]) -> bool {
    for place in 0..cluster.len() {
        if cluster[place] != byte_at(place, halves, at, piece) {
            return false;
        }
    }
    true
}

/// The letter that a cluster reads as but for a piece, a point for zeros, or `?`.
fn letter_of(cluster: &[u8], at: usize, piece: &[u8]) -> char {
    let first = cluster.first().copied().unwrap_or(1);
    if !is_halves(cluster, shades(first), at, piece) {
        return '?';
    }
    match first {
        0 => '.',
        b'a'..=b'z' => first as char,
        _ => '?',
    }
}

/// The place at which each cluster holds a piece, where the row says one.
fn place_said(row: &Row) -> Result<usize, RowStop> {
    match row.word(1) {
        Ok(_) => Ok(row.short(1)? as usize),
        Err(_) => Ok(0),
    }
}

/// Puts what each cluster of a node reads as, where each holds a piece there.
fn put_letters(
    nodes: &mut Nodes<MemDevice>,
    node: NodeId,
    at: usize,
    piece: &[u8],
    buffer: &mut [u8],
    out: &mut Words,
) -> Result<Outcome, RowStop> {
    for cluster in 0..count(nodes, node) {
        let start = cluster.saturating_mul(CLUSTER);
        let outcome = read(nodes, node, start, buffer)?;
        if !outcome.is_good() {
            return Ok(outcome);
        }
        out.letter(letter_of(buffer, at, piece));
    }
    Ok(Outcome::Good)
}

/// `letters NODE`: what each cluster reads as. With `START BYTES` behind it each holds these bytes there.
fn letters(
    alloc: Global,
    nodes: &mut Nodes<MemDevice>,
    row: &Row,
    out: &mut Words,
) -> Result<(), RowStop> {
    let node = node(nodes, row, 0)?;
    let at = place_said(row)?;
    let piece = row.bytes(alloc, 2)?;
    let mut buffer = Vec::new(alloc);
    buffer.resize(65_536, 1u8)?;
    let mut letters = Words::new(alloc);
    let buffer = buffer.as_mut_slice();
    let outcome = put_letters(nodes, node, at, piece.as_slice(), buffer, &mut letters)?;
    if outcome.is_good() {
        out.put(letters.as_str());
    } else {
        put_outcome(outcome, out);
    }
    Ok(())
}

#[derive(Clone, Copy)]
pub(crate) enum Each {
    Mix,
    Write,
    Zero,
    Letters,
}

pub(crate) const EACH: [(&str, Each); 4] = [
    ("mix", Each::Mix),
    ("write-each", Each::Write),
    ("zero-each", Each::Zero),
    ("letters", Each::Letters),
];

/// Puts what is answered to a row on all clusters of a node.
pub(crate) fn answer_to(
    alloc: Global,
    nodes: &mut Nodes<MemDevice>,
    each: Each,
    row: &Row,
    out: &mut Words,
) -> Result<(), RowStop> {
    let outcome = match each {
        Each::Mix => mix(alloc, nodes, row)?,
        Each::Write => write_each(alloc, nodes, row)?,
        Each::Zero => zero_each(nodes, row)?,
        Each::Letters => return letters(alloc, nodes, row, out),
    };
    put_outcome(outcome, out);
    Ok(())
}
