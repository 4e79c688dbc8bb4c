//! Big-endian numbers at places of a slice. What lies past the slice's end reads as 0, as in a file.

ghost use Rattle.std.specs.Prelude.{◌≡◌, ◌+◌, ◌^◌, ◌<◌, ◌≤◌, ◌++◌, ℕ, length, take, drop, slice_index};
ghost use Rattle.q2_format.specs.Bytes.{number_at, place_bytes, IsWritten};

use byteorder::{BigEndian, ByteOrder};

pub(crate) fn byte_at(bytes: &[u8], at: usize) -> u8
    ensures { result ≡ slice_index bytes.now at }
{
    bytes.get(at).copied().unwrap_or(0)
}

/// Fills a slice with the bytes from `at` on.
#[tactic(auto, using(crate::proofs::ByPlace::bytes_from_places))]
pub(crate) fn copy_from(bytes: &[u8], at: usize, out: &mut [u8])
    requires { at < 2 ^ 32 }
    ensures { out.new ≡ place_bytes bytes.now at (length out.old) }
{
    for (i, byte) in out.iter_mut().enumerate() {
        *byte = byte_at(bytes, at + i);
    }
}

/// The number in the 4 bytes from `at` on.
#[tactic(auto, unfolding(crate::specs::Bytes::number_at))]
pub(crate) fn u32_at(bytes: &[u8], at: usize) -> u32
    requires { at < 2 ^ 40 }
    ensures { result ≡ number_at bytes.now at 4 }
{
    let field = [
        byte_at(bytes, at),
        byte_at(bytes, at + 1),
        byte_at(bytes, at + 2),
        byte_at(bytes, at + 3),
    ];
    BigEndian::read_u32(&field)
}

/// The number in the 8 bytes from `at` on.
#[tactic(auto, using(crate::proofs::ByPlace::eight_from_halves))]
pub(crate) fn u64_at(bytes: &[u8], at: usize) -> u64
    requires { at < 2 ^ 32 }
    ensures { result ≡ number_at bytes.now at 8 }
{
    u64::from(u32_at(bytes, at)) * (1 << 32) + u64::from(u32_at(bytes, at + 4))
}

/// Puts bytes at a place.
#[tactic(auto, using(crate::proofs::ByPlace::written_by_list))]
pub(crate) fn put_bytes(out: &mut [u8], at: usize, bytes: &[u8])
    requires { at + length bytes.now ≤ length out.old }
    ensures after { out.new ≡ (take at out.old ++ bytes.now)
        ++ drop (at + length bytes.now) out.old }
    ensures written { IsWritten out.old out.new at bytes.now }
{
    out[at..at + bytes.len()].copy_from_slice(bytes);
}

/// Puts a number into the 2 bytes from `at` on.
pub(crate) fn put_u16(out: &mut [u8], at: usize, value: u16)
    requires { at + 2 ≤ length out.old }
    ensures put { number_at out.new at 2 ≡ value }
    ensures before { (i n : ℕ) → i + n ≤ at → number_at out.new i n ≡ number_at out.old i n }
    ensures behind { (i n : ℕ) → at + 2 ≤ i → number_at out.new i n ≡ number_at out.old i n }
{
    let mut field = [0; 2];
    BigEndian::write_u16(&mut field, value);
    put_bytes(out, at, &field);
}

/// Puts a number into the 4 bytes from `at` on.
pub(crate) fn put_u32(out: &mut [u8], at: usize, value: u32)
    requires { at + 4 ≤ length out.old }
    ensures put { number_at out.new at 4 ≡ value }
    ensures before { (i n : ℕ) → i + n ≤ at → number_at out.new i n ≡ number_at out.old i n }
    ensures behind { (i n : ℕ) → at + 4 ≤ i → number_at out.new i n ≡ number_at out.old i n }
    ensures bytes_before { (i : ℕ) → i < at → slice_index out.new i ≡ slice_index out.old i }
    ensures bytes_behind { (i : ℕ) → at + 4 ≤ i → slice_index out.new i ≡ slice_index out.old i }
{
    let mut field = [0; 4];
    BigEndian::write_u32(&mut field, value);
    put_bytes(out, at, &field);
}

/// Puts a number into the 8 bytes from `at` on.
pub(crate) fn put_u64(out: &mut [u8], at: usize, value: u64)
    requires { at + 8 ≤ length out.old }
    ensures put { number_at out.new at 8 ≡ value }
    ensures before { (i n : ℕ) → i + n ≤ at → number_at out.new i n ≡ number_at out.old i n }
    ensures behind { (i n : ℕ) → at + 8 ≤ i → number_at out.new i n ≡ number_at out.old i n }
    ensures bytes_before { (i : ℕ) → i < at → slice_index out.new i ≡ slice_index out.old i }
    ensures bytes_behind { (i : ℕ) → at + 8 ≤ i → slice_index out.new i ≡ slice_index out.old i }
{
    let mut field = [0; 8];
    BigEndian::write_u64(&mut field, value);
    put_bytes(out, at, &field);
}
