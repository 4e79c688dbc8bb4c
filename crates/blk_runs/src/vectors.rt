//! The text of sixteen runs of one byte each, made by vectors.
ghost use Rattle.std.specs.Prelude.{◌≡◌, ◌↔◌, ◌≢◌, ◌+◌, ◌*◌, ◌/◌, ◌%◌, ◌<◌, ◌≤◌, ◌++◌, ℕ, IsTrue, IsAscii, map, length, take, slice_index, false};
ghost use Rattle.std.specs.Fmt.{digit_glyph};
ghost use Rattle.std.specs.Simd.Lanes.{chunk, Each1};
ghost use Rattle.blk_runs.specs.Singles.{HasSingles, singles_text, digits_of};

use std::simd::prelude::*;

/// How many runs are written at once.
const MOST: usize = 256;

/// The bytes that so many runs take, each with a space behind it.
pub(crate) const ROOM: usize = 1280;

/// Writes the runs of one byte at the front into `words`, sixteen at a time and at most 256, and says how many these are.
pub(crate) fn write_vectors(bytes: &[u8], words: &mut [u8; ROOM]) -> usize
    ensures { HasSingles result bytes.now words.new }
{
    let mut count = 0;
    while count + 16 <= MOST && count + 16 < bytes.len() {
        let here = load(bytes, count);
        if !all_differ(here, load(bytes, count + 1)) {
            return count;
        }
        write_vector(words, 5 * count, here);
        count += 16;
    }
    count
}

fn load(bytes: &[u8], at: usize) -> u8x16
    requires { at + 16 ≤ length bytes.now }
    ensures { result ≡ chunk at 16 bytes.now }
{
    u8x16::from_slice(&bytes[at..])
}

/// Whether it may be taken that each lane differs from that of the other vector.
fn all_differ(a: u8x16, b: u8x16) -> bool
    ensures { IsTrue result → (k : ℕ) → k < 16 → slice_index a k ≢ slice_index b k }
{
    a.simd_eq(b).to_bitmask() == 0
}

/// Writes the runs of sixteen bytes, and a space behind each, from a place on.
fn write_vector(words: &mut [u8; ROOM], at: usize, bytes: u8x16)
    requires { at + 80 ≤ 1280 }
    ensures { take (at + 80) words.new ≡ take at words.old ++ singles_text bytes }
{
    let pairs = glyphs(digits_of(bytes));
    let signs = u8x32::from_array(SIGNS);
    let first = pairs.shuffle(
        signs,
        [0, 1, 32, 33, 34, 2, 3, 32, 33, 34, 4, 5, 32, 33, 34, 6],
    );
    let second = pairs.shuffle(
        signs,
        [7, 32, 33, 34, 8, 9, 32, 33, 34, 10, 11, 32, 33, 34, 12, 13],
    );
    let third = pairs.shuffle(
        signs,
        [
            32, 33, 34, 14, 15, 32, 33, 34, 16, 17, 32, 33, 34, 18, 19, 32,
        ],
    );
    let fourth = pairs.shuffle(
        signs,
        [
            33, 34, 20, 21, 32, 33, 34, 22, 23, 32, 33, 34, 24, 25, 32, 33,
        ],
    );
    let fifth = pairs.shuffle(
        signs,
        [
            34, 26, 27, 32, 33, 34, 28, 29, 32, 33, 34, 30, 31, 32, 33, 34,
        ],
    );
    store(words, at, first);
    store(words, at + 16, second);
    store(words, at + 32, third);
    store(words, at + 48, fourth);
    store(words, at + 64, fifth);
}

/// What stands behind the digits of a run of one byte, in the first lanes.
const SIGNS: [u8; 32] = [
    b'*', b'1', b' ', 0, 0, 0, 0, 0, 0, 0, 0, 0, 0, 0, 0, 0, 0, 0, 0, 0, 0, 0, 0, 0, 0, 0, 0, 0, 0,
    0, 0, 0,
];

/// The two digits to base 16 of each byte.
fn digits_of(bytes: u8x16) -> u8x32
    ensures { result ≡ digits_of bytes }
{
    let high = bytes >> u8x16::splat(4);
    let low = bytes & u8x16::splat(15);
    high.shuffle(
        low,
        [
            0, 16, 1, 17, 2, 18, 3, 19, 4, 20, 5, 21, 6, 22, 7, 23, 8, 24, 9, 25, 10, 26, 11, 27,
            12, 28, 13, 29, 14, 30, 15, 31,
        ],
    )
}

/// Digits below 16, in lower case.
fn glyphs(digits: u8x32) -> u8x32
    requires { Each1 (λ d. d < 16) digits }
    ensures { result ≡ map (digit_glyph false) digits }
{
    let shift = digits
        .simd_lt(u8x32::splat(10))
        .select(u8x32::splat(48), u8x32::splat(87));
    digits + shift
}

/// Puts sixteen bytes at a place.
fn store(words: &mut [u8; ROOM], at: usize, lanes: u8x16)
    requires { at + 16 ≤ 1280 }
    ensures { take (at + 16) words.new ≡ take at words.old ++ lanes }
{
    lanes.copy_to_slice(&mut words[at..at + 16]);
}
