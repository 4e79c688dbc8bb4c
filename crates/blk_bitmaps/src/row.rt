//! One bitmap.
ghost use Rattle.std.specs.Prelude.{◌≡◌, ◌*◌, ◌-◌, ◌^◌, ℕ, ◌<◌, ◌≤◌, min, length, replicate, false, true, Some, None, IfOk, OnOk, OnErr, if◌then◌else◌, ◌||◌};
ghost use Rattle.blk_bits.specs.Granules.{in_span, contains, those_below};
ghost use Rattle.blk_bitmaps.specs.Rows.{is_named, records, is_used_by, switched, emptied, filled, written, merged_row, spare_of, used, use_ended, span_touches, is_dirty, dirty_below};

use crate::granularity::Granularity;
use blk_base::{NoMemory, Span, Text};
use blk_bits::{DirtySet, Ratio};
use blk_graph::NodeId;
use std::alloc::Global;
use std::mem;

/// A dirty bitmap of a node.
#[derive(Debug, Drop)]
pub struct Bitmap {
    pub node: NodeId,
    /// What calls find it by, with the node; `add` refuses a name that the node has already.
    pub name: Text,
    /// How many bytes the node's disk has.
    pub size: u64,
    pub granularity: Granularity,
    /// Whether it records writes.
    pub enabled: bool,
    /// The job that uses it.
    pub busy: Option<u32>,
    /// The dirty granules; while a job uses the bitmap those that were written since then.
    pub dirty: DirtySet,
    /// What was dirty when the job came that uses it.
    pub frozen: Option<DirtySet>,
}

/// The granules `from..to`.
#[derive(Clone, Copy)]
struct GranuleSpan {
    from: u64,
    to: u64,
}

impl Bitmap {
    /// How many bytes the dirty granules have, those that a job's use put aside among them; at most 2^64 - 1.
    pub fn dirty_bytes(&self) -> u64
        ensures { result
            ≡ min (dirty_below self.now (length self.now.dirty) * self.now.granularity)
            (2 ^ 64 - 1) }
    {
        let mut count = 0;
        for granule in 0..self.dirty.granules() {
            if self.is_dirty(granule) {
                count += 1;
            }
        }
        self.granularity.bytes().saturating_mul(count)
    }

    /// Whether a granule is dirty, be it put aside by a job's use.
    pub fn is_dirty(&self, granule: u64) -> bool
        ensures { result ≡ is_dirty self.now granule }
    {
        match &self.frozen {
            Some(frozen) => holds(&self.dirty, granule) || holds(frozen, granule),
            None => holds(&self.dirty, granule),
        }
    }

    pub(crate) fn is_named(&self, node: NodeId, name: &str) -> bool
        ensures { result ≡ is_named node name.now self.now }
    {
        self.node == node && self.name.as_str() == name
    }

    pub(crate) fn turn(&mut self, on: bool)
        ensures { self.new ≡ switched on self.old }
    {
        self.enabled = on;
    }

    pub(crate) fn empty(&mut self)
        ensures { self.new ≡ emptied self.old }
    {
        empty(&mut self.dirty);
    }

    /// Whether writes to a node are noted here.
    fn records(&self, node: NodeId) -> bool
        ensures { result ≡ records node self.now }
    {
        self.node == node && self.enabled
    }

    /// A write was made.
    pub(crate) fn note_write(&mut self, node: NodeId, span: Span)
        ensures { self.new ≡ (if records node self.old then written span self.old else self.old) }
    {
        if self.records(node) {
            let granularity = self.granularity.bytes();
            mark(&mut self.dirty, granularity, span);
        }
    }

    pub(crate) fn note_all(&mut self, node: NodeId)
        ensures { self.new ≡ (if records node self.old then filled self.old else self.old) }
    {
        if self.records(node) {
            fill(&mut self.dirty);
        }
    }

    pub(crate) fn join(&mut self, source: &Bitmap)
        ensures { self.new ≡ merged_row source.now self.old }
    {
        let ratio = Ratio {
            mine: self.granularity.bytes(),
            theirs: source.granularity.bytes(),
        };
        self.dirty.merge_from(&source.dirty, ratio);
    }

    /// An empty set for what is written once a job uses the bitmap.
    pub(crate) fn spare(&self, alloc: Global) -> Result<DirtySet, NoMemory>
        ensures { IfOk result (λ set. set ≡ spare_of self.now) }
    {
        DirtySet::new(alloc, self.dirty.granules())
    }

    /// A job begins to use it. Takes no memory.
    pub(crate) fn freeze(&mut self, job: u32, spare: DirtySet)
        requires { spare ≡ spare_of self.old }
        ensures { self.new ≡ used job self.old }
    {
        let old = mem::replace(&mut self.dirty, spare);
        self.frozen = Some(old);
        self.busy = Some(job);
    }

    pub(crate) fn release(&mut self, job: u32, drops: bool)
        ensures { self.new
            ≡ (if is_used_by job self.old then use_ended drops self.old else self.old) }
    {
        if self.busy == Some(job) {
            self.busy = None;
            if let Some(frozen) = self.frozen.take() {
                if !drops {
                    unite(&mut self.dirty, &frozen);
                }
            }
        }
    }
}

/// Whether a granule is a member; none past the last is.
fn holds(set: &DirtySet, granule: u64) -> bool
    ensures { result ≡ contains set.now granule }
{
    granule < set.granules() && set.test(granule)
}

fn empty(set: &mut DirtySet)
    ensures { set.new ≡ replicate (length set.old) false }
{
    set.clear_span(0, set.granules());
}

fn fill(set: &mut DirtySet)
    ensures { set.new ≡ replicate (length set.old) true }
{
    set.set_span(0, set.granules());
}

/// Adds the members of a set of granules of the same size.
fn unite(set: &mut DirtySet, other: &DirtySet)
    ensures { set.new
        ≡ those_below (length set.old) (λ k. contains set.old k || contains other.now k) }
{
    set.merge_from(other, Ratio { mine: 1, theirs: 1 });
}

/// Adds the granules that have a byte of a span.
fn mark(set: &mut DirtySet, granularity: u64, span: Span)
    requires { 0 < granularity }
    ensures { set.new
        ≡ those_below (length set.old)
        (λ k. contains set.old k || span_touches granularity span k) }
{
    let granules = touched(granularity, span, set.granules());
    set.set_span(granules.from, granules.to);
}

/// The granules that have a byte of a span, of those below a count.
fn touched(granularity: u64, span: Span, count: u64) -> GranuleSpan
    requires { 0 < granularity }
    ensures order { result.from ≤ result.to }
    ensures within { result.to ≤ count }
    ensures span { (k : ℕ) → k < count
        → in_span result.from result.to k ≡ span_touches granularity span k }
{
    if span.len == 0 {
        return GranuleSpan { from: 0, to: 0 };
    }
    let last = span.start + (span.len - 1);
    let to = (last / granularity + 1).min(count);
    let from = (span.start / granularity).min(to);
    GranuleSpan { from, to }
}
