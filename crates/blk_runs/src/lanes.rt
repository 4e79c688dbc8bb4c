//! Bytes in lanes: the test for zeros, and how far one byte goes on.
ghost use Rattle.std.specs.Prelude.{◌≡◌, ◌↔◌, ◌+◌, ◌<◌, ◌≤◌, ℕ, IsTrue, All, length, slice_index, bit_or};
ghost use Rattle.std.specs.Simd.Lanes.{chunk, zip2};
ghost use Rattle.blk_runs.specs.Runs.{IsFront};

use std::simd::prelude::*;

/// Whether every byte is 0.
pub fn is_zero(bytes: &[u8]) -> bool
    ensures { IsTrue result ↔ All (λ b. b ≡ 0) bytes.now }
{
    let mut at = 0;
    while 128 <= bytes.len() - at {
        if !is_zero_block(bytes, at) {
            return false;
        }
        at += 128;
    }
    are_plainly_zero(&bytes[at..])
}

/// The same, byte by byte.
fn are_plainly_zero(bytes: &[u8]) -> bool
    ensures { IsTrue result ↔ All (λ b. b ≡ 0) bytes.now }
{
    bytes.iter().all(|b| *b == 0)
}

/// Whether the 128 bytes from a place on are 0.
fn is_zero_block(bytes: &[u8], at: usize) -> bool
    requires { at + 128 ≤ length bytes.now }
    ensures { IsTrue result ↔ ((k : ℕ) → at ≤ k → k < at + 128 → slice_index bytes.now k ≡ 0) }
{
    let front = either(load(bytes, at), load(bytes, at + 32));
    let back = either(load(bytes, at + 64), load(bytes, at + 96));
    are_zero(either(front, back))
}

fn load(bytes: &[u8], at: usize) -> u8x32
    requires { at + 32 ≤ length bytes.now }
    ensures { result ≡ chunk at 32 bytes.now }
{
    u8x32::from_slice(&bytes[at..])
}

fn either(a: u8x32, b: u8x32) -> u8x32
    ensures { result ≡ zip2 bit_or a b }
{
    a | b
}

fn are_zero(lanes: u8x32) -> bool
    ensures { IsTrue result ↔ ((k : ℕ) → slice_index lanes k ≡ 0) }
{
    lanes.simd_ne(u8x32::splat(0)).to_bitmask() == 0
}

/// How many bytes at the front are this one.
pub(crate) fn front_count(bytes: &[u8], byte: u8) -> usize
    ensures { IsFront byte result bytes.now }
{
    let at = whole_lanes(bytes, byte);
    at + front_rest(&bytes[at..], byte)
}

/// How many bytes at the front are this one, in lanes of which all are.
fn whole_lanes(bytes: &[u8], byte: u8) -> usize
    ensures within { result ≤ length bytes.now }
    ensures same { (k : ℕ) → k < result → slice_index bytes.now k ≡ byte }
{
    let mut at = 0;
    while 32 <= bytes.len() - at {
        if !are_all(load(bytes, at), byte) {
            return at;
        }
        at += 32;
    }
    at
}

/// Whether it may be taken that every lane is this byte.
fn are_all(lanes: u8x32, byte: u8) -> bool
    ensures { IsTrue result → (k : ℕ) → k < 32 → slice_index lanes k ≡ byte }
{
    lanes.simd_ne(u8x32::splat(byte)).to_bitmask() == 0
}

/// The same as `front_count`, for a front that is short.
fn front_rest(bytes: &[u8], byte: u8) -> usize
    ensures { IsFront byte result bytes.now }
{
    if 32 <= bytes.len() {
        let same = front_lanes(load(bytes, 0), byte);
        if same < 32 {
            return same;
        }
    }
    front_bytes(bytes, byte)
}

/// How many lanes at the front are this byte.
fn front_lanes(lanes: u8x32, byte: u8) -> usize
    ensures { IsFront byte result lanes }
{
    let others = lanes.simd_ne(u8x32::splat(byte)).to_bitmask();
    if others == 0 {
        32
    } else {
        others.trailing_zeros() as usize
    }
}

/// The same as `front_count`, byte by byte.
fn front_bytes(bytes: &[u8], byte: u8) -> usize
    ensures { IsFront byte result bytes.now }
{
    bytes.iter().position(|b| *b != byte).unwrap_or(bytes.len())
}
