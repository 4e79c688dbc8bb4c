//! Granule sizes of two sets.
ghost use Rattle.std.specs.Prelude.{◌≡◌, ℕ, ◌+◌, ◌*◌, ◌<◌, ◌≤◌, ◌↔◌};

/// The granule sizes of a set and of one that is merged into it, in the same unit (bytes); both are powers of two.
#[derive(Clone, Copy, Debug, PartialEq, Eq)]
pub struct Ratio {
    pub mine: u64,
    pub theirs: u64,
}

/// The granules `from..to`.
#[derive(Clone, Copy)]
pub(crate) struct GranuleSpan {
    pub(crate) from: u64,
    pub(crate) to: u64,
}

impl Ratio {
    /// The granules of mine, of those below a count, that overlap one of a span of theirs.
    pub(crate) fn overlapped(self, span: GranuleSpan, count: u64) -> GranuleSpan
        requires { 0 < self.mine }
        ensures order { result.from ≤ result.to }
        ensures within { result.to ≤ count }
        ensures ends { (k : ℕ) → k < count
            → (k < result.to ↔ (self.mine * k < self.theirs * span.to)) }
        ensures begins { (k : ℕ) → k < result.to
            → (result.from ≤ k ↔ (self.theirs * span.from < self.mine * (k + 1))) }
    {
        let mine = u128::from(self.mine);
        let theirs = u128::from(self.theirs);
        let start = theirs * u128::from(span.from);
        let end = theirs * u128::from(span.to);
        let count = u128::from(count);
        let to = end.div_ceil(mine).min(count);
        let from = (start / mine).min(to);
        GranuleSpan {
            from: from as u64,
            to: to as u64,
        }
    }

    /// How many granules of theirs lie within the first so many of mine, or fewer.
    pub(crate) fn covered(self, count: u64) -> u64
        ensures { (j : ℕ) → j < result → self.theirs * (j + 1) ≤ self.mine * count }
    {
        let end = u128::from(self.mine) * u128::from(count);
        match end.checked_div(u128::from(self.theirs)) {
            Some(whole) => whole.min(u128::from(u64::MAX)) as u64,
            None => u64::MAX,
        }
    }
}
