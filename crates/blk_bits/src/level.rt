//! One level of a dirty set.
ghost use Rattle.std.specs.Prelude.{◌≡◌, ℕ, ◌+◌, ◌-◌, ◌*◌, ◌/◌, ◌^◌, ◌<◌, ◌≤◌, max, true, false, ◌||◌, length, replicate, slice_index, sum_by, count_ones, MatchOption, IfOk};
ghost use Rattle.std.specs.Int.{div_ceil};
ghost use Rattle.blk_bits.specs.Granules.{contains, member_count, LeastFrom};
ghost use Rattle.blk_bits.specs.Words.{word_count, words_of_bits, used_words, with_written, either, has_bit, lacks};

use crate::ratio::GranuleSpan;
use crate::words::write_bits;
use blk_base::NoMemory;
use std::alloc::Global;
use std::marker::Model;

/// Truth values, 64 in a word.
#[derive(Debug, Drop)]
pub(crate) struct Level {
    count: u64,
    words: Vec<u64>,
}

impl Model for Level {
    ghost use Rattle.std.specs.Prelude.{List, Bool};
    ghost use Rattle.blk_bits.specs.Words.{bits_in, HasWords};

    ghost Value = { List Bool };

    ghost view = { λ level. bits_in level.count level.words.items };

    ghost invariant = { λ level. HasWords level.count level.words.items };
}

impl Level {
    pub(crate) fn new(alloc: Global, count: u64) -> Result<Self, NoMemory>
        ensures { IfOk result (λ level. level ≡ replicate count false) }
    {
        let words = zeros(alloc, count.div_ceil(64) as usize)?;
        Ok(Level::clean(count, words))
    }

    fn clean(count: u64, words: Vec<u64>) -> Self
        requires { words.items ≡ replicate (div_ceil count 64) 0 }
        ensures { result ≡ replicate count false }
    {
        Level { count, words }
    }

    pub(crate) fn len(&self) -> u64
        ensures { result ≡ length self.now }
    {
        self.count
    }

    pub(crate) fn words(&self) -> &[u64]
        ensures { result.now ≡ words_of_bits self.now }
    {
        self.words.as_slice()
    }

    pub(crate) fn test(&self, k: u64) -> bool
        requires { k < length self.now }
        ensures { result ≡ contains self.now k }
    {
        self.words[(k / 64) as usize] >> (k % 64) & 1 == 1
    }

    pub(crate) fn count(&self) -> u64
        ensures { result ≡ member_count self.now }
    {
        count_ones(self.words.as_slice())
    }

    /// The least member from `from` on, of those in the same word.
    pub(crate) fn next_in_word(&self, from: u64) -> Option<u64>
        ensures { MatchOption result
            ((k : ℕ) → from ≤ k → k / 64 ≡ from / 64 → contains self.now k ≡ false)
            (LeastFrom self.now from) }
    {
        let word = self.words.get((from / 64) as usize)?;
        let ahead = *word >> (from % 64);
        if ahead == 0 {
            return None;
        }
        Some(from + u64::from(ahead.trailing_zeros()))
    }

    /// The least member in a word that isn't 0.
    pub(crate) fn first_in_word(&self, word: u64) -> u64
        requires { contains (used_words self.now) word ≡ true }
        ensures { LeastFrom self.now (64 * word) result }
    {
        let zeros = self.words[word as usize].trailing_zeros();
        64 * word + u64::from(zeros)
    }

    /// The end of the members that follow a member in its word without a gap.
    pub(crate) fn run_end(&self, from: u64) -> u64
        requires { contains self.now from ≡ true }
        ensures further { from < result }
        ensures members { (k : ℕ) → from ≤ k → k < result → contains self.now k ≡ true }
    {
        let ahead = self.words[(from / 64) as usize] >> (from % 64);
        from + u64::from(ahead.trailing_ones())
    }

    /// Writes one value over `from..to`, and gives the words that this made 0 or other than 0, as it may be.
    pub(crate) fn write(&mut self, span: GranuleSpan, value: bool) -> GranuleSpan
        requires order { span.from ≤ span.to }
        requires within { span.to ≤ length self.old }
        ensures written { self.new ≡ with_written self.old span.from span.to value }
        ensures above { used_words self.new
            ≡ with_written (used_words self.old) result.from result.to value }
        ensures order { result.from ≤ result.to }
        ensures within { result.to ≤ word_count (length self.old) }
    {
        if span.from == span.to {
            return GranuleSpan { from: 0, to: 0 };
        }
        write_bits(
            self.words.as_mut_slice(),
            span.from as usize,
            span.to as usize,
            value,
        );
        turned_words(self.words.as_slice(), span, value)
    }

    /// Adds the members of a level of as many.
    pub(crate) fn add_all(&mut self, other: &Level)
        requires { length self.old ≡ length other.now }
        ensures written { self.new ≡ either self.old other.now }
        ensures above { used_words self.new ≡ either (used_words self.old) (used_words other.now) }
    {
        join(self.words.as_mut_slice(), other.words.as_slice());
    }
}

/// The words that are wholly as they are to be, of those that a span that was written has bits in.
fn turned_words(words: &[u64], span: GranuleSpan, value: bool) -> GranuleSpan
    requires order { span.from < span.to }
    requires within { span.to ≤ 64 * length words.now }
    ensures from { result.from
        ≡ span.from / 64 + lacks (slice_index words.now (span.from / 64)) value }
    ensures to { result.to
        ≡ max ((span.to - 1) / 64 + 1 - lacks (slice_index words.now ((span.to - 1) / 64)) value)
        result.from }
{
    let first = span.from / 64;
    let last = (span.to - 1) / 64;
    let from = first + lacks(words[first as usize], value);
    let to = last + 1 - lacks(words[last as usize], value);
    GranuleSpan {
        from,
        to: to.max(from),
    }
}

/// 1 for a word that is 0 where it isn't to be, or the other way round.
fn lacks(word: u64, value: bool) -> u64
    ensures { result ≡ lacks word value }
{
    u64::from((word != 0) != value)
}

fn zeros(alloc: Global, count: usize) -> Result<Vec<u64>, NoMemory>
    ensures { IfOk result (λ words. words.items ≡ replicate count 0) }
{
    Ok(vec![in alloc; 0; count]?)
}

/// How many bits are 1.
fn count_ones(words: &[u64]) -> u64
    requires { sum_by count_ones words.now < 2 ^ 64 }
    ensures { result ≡ sum_by count_ones words.now }
{
    let mut count = 0;
    for word in words {
        count += u64::from(word.count_ones());
    }
    count
}

/// Adds the bits of as many words.
fn join(words: &mut [u64], other: &[u64])
    requires { length words.old ≡ length other.now }
    ensures written { (k : ℕ) → has_bit words.new k ≡ (has_bit words.old k || has_bit other.now k) }
    ensures fits { (k : ℕ) → slice_index words.new k < 2 ^ 64 }
{
    for k in 0..words.len() {
        words[k] |= other[k];
    }
}
