//! Sets of the parts of a disk.
ghost use Rattle.std.specs.Prelude.{◌≡◌, ◌+◌, ◌<◌, ◌≤◌, ◌||◌, ℕ, length, replicate, true, false};
ghost use Rattle.std.specs.List.{list_any};
ghost use Rattle.blk_bits.specs.Granules.{contains, in_span, those_below, without_span};
ghost use Rattle.blk_bitmaps.specs.Rows.{span_touches};

use blk_base::Span;
use blk_bits::DirtySet;

/// The parts `from..to`.
#[derive(Clone, Copy)]
pub(crate) struct PartSpan {
    pub(crate) from: u64,
    pub(crate) to: u64,
}

/// Whether a part is a member; none past the last is.
pub(crate) fn holds(set: &DirtySet, part: u64) -> bool
    ensures { result ≡ contains set.now part }
{
    part < set.granules() && set.test(part)
}

/// Whether there is a member.
pub(crate) fn has_any(set: &DirtySet) -> bool
    ensures { result ≡ list_any (λ part. part) set.now }
{
    match set.next_dirty(0) {
        Some(_) => true,
        None => false,
    }
}

pub(crate) fn empty(set: &mut DirtySet)
    ensures { set.new ≡ replicate (length set.old) false }
{
    set.clear_span(0, set.granules());
}

pub(crate) fn fill(set: &mut DirtySet)
    ensures { set.new ≡ replicate (length set.old) true }
{
    set.set_span(0, set.granules());
}

/// Adds the parts that have a byte of a span.
pub(crate) fn mark(set: &mut DirtySet, bytes: u64, span: Span)
    requires { 0 < bytes }
    ensures { set.new
        ≡ those_below (length set.old) (λ part. contains set.old part || span_touches bytes span part) }
{
    let parts = touched(bytes, span, set.granules());
    set.set_span(parts.from, parts.to);
}

/// The parts that have a byte of a span, of those below a count.
fn touched(bytes: u64, span: Span, count: u64) -> PartSpan
    requires { 0 < bytes }
    ensures order { result.from ≤ result.to }
    ensures within { result.to ≤ count }
    ensures span { (k : ℕ) → k < count
        → in_span result.from result.to k ≡ span_touches bytes span k }
{
    if span.len == 0 {
        return PartSpan { from: 0, to: 0 };
    }
    let last = span.start + (span.len - 1);
    let to = (last / bytes + 1).min(count);
    let from = (span.start / bytes).min(to);
    PartSpan { from, to }
}

/// Takes so many parts from one on off the set, as far as there are parts.
pub(crate) fn take_off(set: &mut DirtySet, from: u64, n: u64)
    requires { from + n ≤ 18446744073709551615 }
    ensures { set.new ≡ without_span set.old from (from + n) }
{
    let granules = set.granules();
    let to = (from + n).min(granules);
    set.clear_span(from.min(to), to);
}
