//! Runs that are read back.
ghost use Rattle.std.specs.Prelude.{◌≡◌, ◌≢◌, ◌↔◌, ◌+◌, ◌*◌, ◌/◌, ◌%◌, ◌^◌, ◌<◌, ◌≤◌, ◌++◌, ◌∷◌, ℕ, List, All, Err, Some, IfOk, MatchOption, IfSome, IfNone, IsTrue, length, false, decimal, replicate, vec_len, vec_capacity};
ghost use Rattle.std.specs.Fmt.{digit_glyph};
ghost use Rattle.blk_runs.specs.Runs.{Run, run_text, runs_text, bytes_of_runs, text_of};
ghost use Rattle.std.specs.Option.{option_copied};
ghost use Rattle.blk_runs.specs.Reading.{IsBlockRun, IsBlock, AreBlockRuns, seen_run, words_of, words_behind, IsFirstSpace};

use blk_base::{Bytes, NoMemory};
use std::alloc::Global;

/// The most bytes that runs are read as: those of a block.
const MOST_BYTES: usize = 65_536;

/// Why runs are not read.
#[derive(Clone, Copy, Debug, PartialEq, Eq)]
pub enum RunsStop {
    /// The text isn't the runs of at most 65,536 bytes.
    BadRun,
    NoMemory,
}

impl From<NoMemory> for RunsStop {
    ghost use Rattle.std.specs.Prelude.{◌≡◌};
    ghost use Rattle.blk_runs.specs.declared.reading.RunsStop.TheVariants as stops;

    ghost from_gives = { λ _ stop. stop ≡ stops.NoMemory };

    fn from(_: NoMemory) -> Self {
        RunsStop::NoMemory
    }
}

/// A byte, and how often it stands in a row.
#[derive(Clone, Copy)]
struct ReadRun {
    byte: u8,
    count: u32,
}

/// The bytes whose runs a text is.
pub fn read_runs(alloc: Global, text: &str) -> Result<Bytes, RunsStop>
    ensures ok { IfOk result (λ bytes. IsBlock bytes × (runs_text bytes ≡ text.now)) }
    ensures bad { (result ≡ Err RunsStop.BadRun) ↔
        ((bytes : List ℕ) → IsBlock bytes → runs_text bytes ≡ text.now → ⊥) }
{
    let Some(len) = measure(text.as_bytes()) else {
        return Err(RunsStop::BadRun);
    };
    Ok(read_bytes(alloc, text.as_bytes(), len)?)
}

/// How far runs were read: the byte of the last one, and how many bytes all stand for.
#[derive(Clone, Copy)]
struct Read {
    last: Option<u8>,
    len: usize,
}

impl Read {
    ghost use Rattle.std.specs.Prelude.{◌≡◌, ◌∷◌, ◌++◌, [], List, MatchOption};
    ghost use Rattle.blk_runs.specs.Runs.{Run};
    ghost use Rattle.blk_runs.specs.Reading.{HasRead, AreBlockRuns, seen_run, IsBlockRun};

    /// With one run more, where they are still the runs of a block.
    fn with(self, run: ReadRun) -> Option<Self>
        requires { IsBlockRun (seen_run run) }
        ensures { MatchOption result
            ((front back : List Run) → HasRead front self
            → AreBlockRuns (front ++ seen_run run ∷ back) → ⊥)
            (λ read. (front : List Run) → HasRead front self
            → HasRead (front ++ seen_run run ∷ []) read) }
    {
        let len = self.len.checked_add(run.count as usize)?;
        if self.last == Some(run.byte) {
            return None;
        }
        if len > MOST_BYTES {
            return None;
        }
        Some(Read {
            last: Some(run.byte),
            len,
        })
    }
}

/// How many bytes the runs of a text stand for, where it is the runs of a block.
fn measure(text: &[u8]) -> Option<usize>
    ensures { MatchOption result ((rs : List Run) → AreBlockRuns rs → text_of rs ≡ text.now → ⊥)
        (λ n. (rs : List Run) × AreBlockRuns rs × (text_of rs ≡ text.now)
        × (length (bytes_of_runs rs) ≡ n)) }
{
    if text.is_empty() {
        return Some(0);
    }
    let mut read = Read { last: None, len: 0 };
    let mut rest = Some(text);
    while let Some(words) = rest {
        let (word, after) = cut(words);
        let Some(run) = read_run(word) else {
            return None;
        };
        let Some(next) = read.with(run) else {
            return None;
        };
        read = next;
        rest = after;
    }
    Some(read.len)
}

/// The bytes of a text that is runs of so many.
fn read_bytes(alloc: Global, text: &[u8], len: usize) -> Result<Bytes, NoMemory>
    requires { (rs : List Run) × AreBlockRuns rs × (text_of rs ≡ text.now)
        × (length (bytes_of_runs rs) ≡ len) }
    ensures { (rs : List Run) → AreBlockRuns rs → text_of rs ≡ text.now
        → IfOk result (λ bytes. bytes ≡ bytes_of_runs rs) }
{
    let mut bytes = Vec::with_capacity(alloc, len)?;
    if text.is_empty() {
        return Ok(Bytes::from_vec(bytes));
    }
    let mut rest = Some(text);
    while let Some(words) = rest {
        let (word, after) = cut(words);
        let Some(run) = read_run(word) else {
            unreachable!()
        };
        push_times(&mut bytes, run);
        rest = after;
    }
    Ok(Bytes::from_vec(bytes))
}

/// The first word, and what stands behind the space that ends it.
fn cut(text: &[u8]) -> (&[u8], Option<&[u8]>)
    ensures parts { words_of text.now ≡ result.0.now ∷ words_behind (option_copied result.1) }
    ensures fewer { IfSome result.1 (λ rest. length rest.now < length text.now) }
{
    match first_space(text) {
        Some(at) => (&text[..at], Some(&text[at + 1..])),
        None => (text, None),
    }
}

/// Where the first space stands.
fn first_space(text: &[u8]) -> Option<usize>
    ensures found { IfSome result (λ at. IsFirstSpace at text.now) }
    ensures none { IfNone result (All (λ b. b ≢ 32) text.now) }
{
    text.iter().position(|b| *b == b' ')
}

/// Puts the bytes of a run at the end.
fn push_times(bytes: &mut Vec<u8>, run: ReadRun)
    requires { vec_len bytes.old + run.count ≤ vec_capacity bytes.old }
    ensures items { bytes.new.items ≡ bytes.old.items ++ replicate run.count run.byte }
    ensures capacity { vec_capacity bytes.old ≤ vec_capacity bytes.new }
{
    bytes
        .resize(bytes.len() + run.count as usize, run.byte)
        .unwrap();
}

/// The run that a word is.
fn read_run(word: &[u8]) -> Option<ReadRun>
    ensures { MatchOption result ((r : Run) → IsBlockRun r → run_text r ≡ word.now → ⊥)
        (λ r. IsBlockRun (seen_run r) × (run_text (seen_run r) ≡ word.now)) }
{
    let [high, low, b'*', digits @ ..] = word else {
        return None;
    };
    let byte = read_byte(*high, *low)?;
    let count = read_count(digits)?;
    Some(ReadRun { byte, count })
}

/// The byte of two hexadecimal digits.
fn read_byte(high: u8, low: u8) -> Option<u8>
    ensures { MatchOption result
        ((b : ℕ) → b < 256 → digit_glyph false (b / 16) ≡ high → digit_glyph false (b % 16) ≡ low
        → ⊥)
        (λ b. (digit_glyph false (b / 16) ≡ high) × (digit_glyph false (b % 16) ≡ low)) }
{
    let high = digit_of(high)?;
    let low = digit_of(low)?;
    Some(high * 16 + low)
}

/// The digit below 16 that a character writes, in lower case.
fn digit_of(glyph: u8) -> Option<u8>
    ensures { MatchOption result ((d : ℕ) → d < 16 → digit_glyph false d ≡ glyph → ⊥)
        (λ d. (d < 16) × (digit_glyph false d ≡ glyph)) }
{
    match glyph {
        b'0'..=b'9' => Some(glyph - b'0'),
        b'a'..=b'f' => Some(glyph - b'a' + 10),
        _ => None,
    }
}

/// The count from 1 to 65,536 that digits write, without zeros before it.
fn read_count(digits: &[u8]) -> Option<u32>
    ensures { MatchOption result ((n : ℕ) → 0 < n → n ≤ 65536 → decimal n ≡ digits.now → ⊥)
        (λ n. (0 < n) × (n ≤ 65536) × (decimal n ≡ digits.now)) }
{
    let count = number_in(digits)?;
    if count == 0 || count as usize > MOST_BYTES {
        return None;
    }
    is_decimal(count, digits).then_some(count)
}

/// The number that digits write, be it with zeros before it.
fn number_in(digits: &[u8]) -> Option<u32>
    ensures { (n : ℕ) → n < 2 ^ 32 → decimal n ≡ digits.now → result ≡ Some n }
{
    match str::from_utf8(digits) {
        Ok(text) => number_of(text),
        Err(_) => None,
    }
}

/// So it is with a text.
fn number_of(text: &str) -> Option<u32>
    ensures { (n : ℕ) → n < 2 ^ 32 → decimal n ≡ text.now → result ≡ Some n }
{
    match text.parse::<u32>() {
        Ok(n) => Some(n),
        Err(_) => None,
    }
}

/// Whether a number is written so.
fn is_decimal(n: u32, digits: &[u8]) -> bool
    ensures { IsTrue result ↔ (decimal n ≡ digits.now) }
{
    let mut buffer = itoa::Buffer::new();
    buffer.format(n).as_bytes() == digits
}
