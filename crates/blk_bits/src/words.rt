//! Bits in words of 64.
ghost use Rattle.std.specs.Prelude.{◌≡◌, ℕ, ◌+◌, ◌*◌, ◌<◌, ◌≤◌, ◌^◌, length, slice_index, replicate, if◌then◌else◌};
ghost use Rattle.std.specs.Int.{bit_at};
ghost use Rattle.blk_bits.specs.Granules.{in_span};
ghost use Rattle.blk_bits.specs.Words.{has_bit};

/// Writes one value over the bits `from..to`, of which there are some.
pub(crate) fn write_bits(words: &mut [u64], from: usize, to: usize, value: bool)
    requires order { from < to }
    requires within { to ≤ 64 * length words.old }
    ensures written { (k : ℕ)
        → has_bit words.new k ≡ (if in_span from to k then value else has_bit words.old k) }
    ensures fits { (k : ℕ) → slice_index words.new k < 2 ^ 64 }
{
    let first = from / 64;
    let last = (to - 1) / 64;
    let end = to - 64 * last;
    if first == last {
        write_word(words, first, from % 64, end, value);
    } else {
        write_word(words, first, from % 64, 64, value);
        fill_words(words, first + 1, last, value);
        write_word(words, last, 0, end, value);
    }
}

/// Writes one value over the bits `from..to` of a word.
fn write_word(words: &mut [u64], word: usize, from: usize, to: usize, value: bool)
    requires there { word < length words.old }
    requires order { from < to }
    requires within { to ≤ 64 }
    ensures { (k : ℕ)
        → has_bit words.new k
        ≡ (if in_span (64 * word + from) (64 * word + to) k then value else has_bit words.old k) }
{
    words[word] = with_bits(words[word], from, to, value);
}

/// A word with one value over its bits `from..to`.
fn with_bits(word: u64, from: usize, to: usize, value: bool) -> u64
    requires order { from < to }
    requires within { to ≤ 64 }
    ensures { (k : ℕ) → k < 64
        → bit_at result k
        ≡ (if in_span from to k then (if value then 1 else 0) else bit_at word k) }
{
    let mask = span_mask(from, to);
    if value { word | mask } else { word & !mask }
}

/// The word whose bits `from..to` are 1.
fn span_mask(from: usize, to: usize) -> u64
    requires order { from < to }
    requires within { to ≤ 64 }
    ensures { (k : ℕ) → k < 64 → bit_at result k ≡ (if in_span from to k then 1 else 0) }
{
    (u64::MAX >> (64 - to)) & (u64::MAX << from)
}

/// Writes one value over all bits of the words `from..to`.
fn fill_words(words: &mut [u64], from: usize, to: usize, value: bool)
    requires order { from ≤ to }
    requires within { to ≤ length words.old }
    ensures { (k : ℕ)
        → has_bit words.new k
        ≡ (if in_span (64 * from) (64 * to) k then value else has_bit words.old k) }
{
    fill(&mut words[from..to], if value { u64::MAX } else { 0 });
}

fn fill(words: &mut [u64], word: u64)
    ensures { words.new ≡ replicate (length words.old) word }
{
    words.fill(word);
}
