//! Bytes in a vector, read and written at an offset.
ghost use Rattle.std.specs.Prelude.{◌≡◌, ◌↔◌, ◌+◌, ◌≤◌, ◌<◌, ◌⊎◌, ◌%◌, ◌^◌, ◌++◌, ℕ, max, length, get_or, take, drop, replicate, slice_range, vec_len, vec_capacity, IsTrue, IfOk};
ghost use Rattle.blk_base.specs.Content.{bytes_at, with_bytes};
ghost use Rattle.blk_fakes.specs.Disk.{torn_at};

use blk_base::NoMemory;
use std::alloc::Global;

/// A vector of these bytes, with room for so many in all.
pub(crate) fn with_room(alloc: Global, bytes: &[u8], room: u64) -> Result<Vec<u8>, NoMemory>
    requires { length bytes.now ≤ room }
    ensures bytes { IfOk result (λ v. v.items ≡ bytes.now) }
    ensures room { IfOk result (λ v. room ≤ vec_capacity v) }
{
    let mut all = Vec::with_capacity(alloc, room as usize)?;
    all.extend_from_slice(bytes).unwrap();
    Ok(all)
}

/// A vector of so many zeros, with room for so many bytes in all.
pub(crate) fn zeros_with_room(alloc: Global, len: u64, room: u64) -> Result<Vec<u8>, NoMemory>
    requires { len ≤ room }
    ensures bytes { IfOk result (λ v. v.items ≡ replicate len 0) }
    ensures room { IfOk result (λ v. room ≤ vec_capacity v) }
{
    let mut all = Vec::with_capacity(alloc, room as usize)?;
    all.resize(len as usize, 0).unwrap();
    Ok(all)
}

/// Whether so many bytes at an offset end within the capacity.
pub(crate) fn fits(off: u64, len: usize, capacity: u64) -> bool
    ensures { IsTrue result ↔ (off + len ≤ capacity) }
{
    off <= capacity && len as u64 <= capacity - off
}

/// Puts bytes at the end. Takes no memory.
pub(crate) fn append(bytes: &mut Vec<u8>, more: &[u8])
    requires { vec_len bytes.old + length more.now ≤ vec_capacity bytes.old }
    ensures items { bytes.new.items ≡ bytes.old.items ++ more.now }
    ensures len { vec_len bytes.new ≡ vec_len bytes.old + length more.now }
    ensures room { vec_capacity bytes.old ≤ vec_capacity bytes.new }
{
    bytes.extend_from_slice(more).unwrap();
}

/// The bytes from one place up to another.
pub(crate) fn part(bytes: &[u8], from: usize, to: usize) -> &[u8]
    requires order { from ≤ to }
    requires within { to ≤ length bytes.now }
    ensures { result.now ≡ slice_range bytes.now from to }
{
    &bytes[from..to]
}

/// Makes all of the buffer zeros.
fn clear(buf: &mut [u8])
    ensures { buf.new ≡ replicate (length buf.old) 0 }
{
    buf.fill(0);
}

/// Puts bytes at a place.
fn put_at(all: &mut [u8], at: usize, part: &[u8])
    requires { at + length part.now ≤ length all.old }
    ensures { all.new ≡ (take at all.old ++ part.now) ++ drop (at + length part.now) all.old }
{
    all[at..at + part.len()].copy_from_slice(part);
}

/// Copies the bytes from an offset on, zeros past the end.
#[tactic(auto, using(crate::proofs::Places::zeros_past, crate::proofs::Places::shown))]
pub(crate) fn copy_out(bytes: &[u8], off: u64, buf: &mut [u8])
    ensures { buf.new ≡ bytes_at bytes.now off (length buf.old) }
{
    clear(buf);
    if off < bytes.len() as u64 {
        let from = off as usize;
        let n = buf.len().min(bytes.len() - from);
        put_at(buf, 0, &bytes[from..from + n]);
    }
}

/// Fills up with zeros to a length. Takes no memory.
#[tactic(auto, using(crate::proofs::Places::grown))]
fn grow(bytes: &mut Vec<u8>, end: usize)
    requires { end ≤ vec_capacity bytes.old }
    ensures len { vec_len bytes.new ≡ max (vec_len bytes.old) end }
    ensures same { (k : ℕ) → get_or bytes.new.items k 0 ≡ get_or bytes.old.items k 0 }
    ensures room { vec_capacity bytes.old ≤ vec_capacity bytes.new }
{
    if bytes.len() < end {
        bytes.resize(end, 0).unwrap();
    }
}

/// Writes some bytes at an offset, and zeros into a gap. Takes no memory.
#[tactic(auto, using(crate::proofs::Places::put_over))]
pub(crate) fn overwrite(bytes: &mut Vec<u8>, off: u64, written: &[u8])
    requires some { 0 < length written.now }
    requires room { off + length written.now ≤ vec_capacity bytes.old }
    ensures bytes { bytes.new.items ≡ with_bytes bytes.old.items off written.now }
    ensures len { vec_len bytes.new ≡ max (vec_len bytes.old) (off + length written.now) }
    ensures room { vec_capacity bytes.old ≤ vec_capacity bytes.new }
{
    grow(bytes, off as usize + written.len());
    put_at(bytes.as_mut_slice(), off as usize, written);
}

/// How much of a write of so many bytes is done that fails after `done`: less than all of it, and it ends within a
/// sector of 512 bytes at no other place than its start.
pub(crate) fn torn(off: u64, len: usize, done: u64) -> u64
    requires some { 0 < len }
    requires within { off + len < 2 ^ 64 }
    ensures done { result ≡ torn_at off len done }
    ensures part { result < len }
    ensures sector { (result ≡ 0) ⊎ ((off + result) % 512 ≡ 0) }
{
    let most = done.min(len as u64 - 1);
    let past = (off + most) % 512;
    if past <= most { most - past } else { 0 }
}
