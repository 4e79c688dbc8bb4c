ghost use Rattle.std.specs.Prelude.{◌≡◌, ◌<◌, ◌≤◌, ◌↔◌, ℕ, true, false, length, replicate, MatchOption, IfOk, IfSome, IsNone};
ghost use Rattle.blk_bits.specs.Granules.{contains, with_span, without_span, merged, LeastFrom, HasNoneFrom, member_count};
ghost use Rattle.blk_bits.specs.Words.{words_of_bits, kept_at, IsAboveLast, AreAbove, with_written, either};

use crate::level::Level;
use crate::ratio::{GranuleSpan, Ratio};
use blk_base::NoMemory;
use std::alloc::Global;
use std::marker::Model;

/// A set of granule numbers below a fixed count, in levels of words: each further level says which words of the one
/// below aren't 0, so that the next member is found without a look at what lies between.
#[derive(Debug, Drop)]
pub struct DirtySet {
    members: Level,
    above: Vec<Level>,
}

impl Model for DirtySet {
    ghost use Rattle.std.specs.Prelude.{List, Bool};
    ghost use Rattle.blk_bits.specs.Words.{AreAbove};

    ghost Value = { List Bool };

    ghost view = { λ set. set.members };

    ghost invariant = { λ set. AreAbove set.members set.above.items };
}

impl DirtySet {
    /// The empty set, of numbers below `granules`. Only here memory is taken.
    pub fn new(alloc: Global, granules: u64) -> Result<Self, NoMemory>
        ensures { IfOk result (λ set. set ≡ replicate granules false) }
    {
        Ok(DirtySet {
            members: Level::new(alloc, granules)?,
            above: clean_above(alloc, granules)?,
        })
    }

    /// Adds the granules `from..to`.
    pub fn set_span(&mut self, from: u64, to: u64)
        requires order { from ≤ to }
        requires within { to ≤ length self.old }
        ensures { self.new ≡ with_span self.old from to }
    {
        let span = GranuleSpan { from, to };
        write(&mut self.members, self.above.as_mut_slice(), span, true);
    }

    /// Removes the granules `from..to`.
    pub fn clear_span(&mut self, from: u64, to: u64)
        requires order { from ≤ to }
        requires within { to ≤ length self.old }
        ensures { self.new ≡ without_span self.old from to }
    {
        let span = GranuleSpan { from, to };
        write(&mut self.members, self.above.as_mut_slice(), span, false);
    }

    /// How many granules the set speaks of: its numbers are below it.
    pub fn granules(&self) -> u64
        ensures { result ≡ length self.now }
    {
        self.members.len()
    }

    /// Whether a granule is a member.
    pub fn test(&self, granule: u64) -> bool
        requires { granule < length self.now }
        ensures { result ≡ contains self.now granule }
    {
        self.members.test(granule)
    }

    /// The least member that is at least `from`, or None where there is none.
    pub fn next_dirty(&self, from: u64) -> Option<u64>
        ensures { MatchOption result (HasNoneFrom self.now from) (LeastFrom self.now from) }
    {
        next_member(&self.members, self.above.as_slice(), from)
    }

    /// The number of members.
    pub fn count(&self) -> u64
        ensures { result ≡ member_count self.now }
    {
        self.members.count()
    }

    /// The words of a level, or None above the last one.
    pub fn level(&self, k: u32) -> Option<&[u64]>
        ensures words { IfSome result (λ words. words.now ≡ words_of_bits (kept_at self.now k)) }
        ensures last { IsNone result ↔ IsAboveLast self.now k }
    {
        match k.checked_sub(1) {
            None => Some(self.members.words()),
            Some(above) => Some(self.above.get(above as usize)?.words()),
        }
    }

    /// Adds every granule that overlaps a member of `other`, each set with granules of its own size.
    pub fn merge_from(&mut self, other: &DirtySet, ratio: Ratio)
        requires { 0 < ratio.mine }
        ensures { self.new ≡ merged ratio self.old other.now }
    {
        if ratio.mine == ratio.theirs && self.granules() == other.granules() {
            self.add_all(other);
        } else {
            self.add_overlapped(other, ratio);
        }
    }

    /// Adds the members of a set of as many granules.
    fn add_all(&mut self, other: &DirtySet)
        requires { length self.old ≡ length other.now }
        ensures { self.new ≡ either self.old other.now }
    {
        add_all(
            &mut self.members,
            self.above.as_mut_slice(),
            &other.members,
            other.above.as_slice(),
        );
    }

    fn add_overlapped(&mut self, other: &DirtySet, ratio: Ratio)
        requires { 0 < ratio.mine }
        ensures { self.new ≡ merged ratio self.old other.now }
    {
        let count = self.granules();
        let mut seen = 0;
        while let Some(from) = other.next_dirty(seen) {
            let to = other.run_end(from);
            let span = ratio.overlapped(GranuleSpan { from, to }, count);
            self.set_span(span.from, span.to);
            seen = to.max(ratio.covered(span.to));
        }
    }

    /// The end of the members that follow a member in its word without a gap.
    fn run_end(&self, from: u64) -> u64
        requires { contains self.now from ≡ true }
        ensures further { from < result }
        ensures members { (k : ℕ) → from ≤ k → k < result → contains self.now k ≡ true }
    {
        self.members.run_end(from)
    }
}

/// The levels above a level of so many clean granules.
fn clean_above(alloc: Global, granules: u64) -> Result<Vec<Level>, NoMemory>
    ensures { IfOk result (λ levels. AreAbove (replicate granules false) levels.items) }
{
    let mut levels = Vec::new(alloc);
    let mut words = granules.div_ceil(64);
    while words > 1 {
        levels.push(Level::new(alloc, words)?)?;
        words = words.div_ceil(64);
    }
    Ok(levels)
}

/// The least member of a level from a number on, found by the levels above it.
fn next_member(level: &Level, above: &[Level], from: u64) -> Option<u64>
    requires { AreAbove level.now above.now }
    ensures { MatchOption result (HasNoneFrom level.now from) (LeastFrom level.now from) }
{
    if let Some(member) = level.next_in_word(from) {
        return Some(member);
    }
    let (next, rest) = above.split_first()?;
    let word = next_member(next, rest, from / 64 + 1)?;
    Some(level.first_in_word(word))
}

/// Writes one value over a span of the members, and keeps the levels above them.
fn write(members: &mut Level, above: &mut [Level], span: GranuleSpan, value: bool)
    requires above { AreAbove members.old above.old }
    requires order { span.from ≤ span.to }
    requires within { span.to ≤ length members.old }
    ensures written { members.new ≡ with_written members.old span.from span.to value }
    ensures above { AreAbove members.new above.new }
{
    let mut turned = members.write(span, value);
    for level in above.iter_mut() {
        turned = level.write(turned, value);
    }
}

/// Adds the members of a set of as many granules, level by level.
fn add_all(members: &mut Level, above: &mut [Level], other: &Level, other_above: &[Level])
    requires count { length members.old ≡ length other.now }
    requires above { AreAbove members.old above.old }
    requires other_above { AreAbove other.now other_above.now }
    ensures written { members.new ≡ either members.old other.now }
    ensures above { AreAbove members.new above.new }
{
    members.add_all(other);
    for k in 0..above.len() {
        above[k].add_all(&other_above[k]);
    }
}
