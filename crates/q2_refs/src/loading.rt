//! Reading the refcount table and the blocks that it names.
ghost use Rattle.std.specs.Prelude.{◌≡◌, ◌≢◌, ◌+◌, ◌-◌, ◌*◌, ◌%◌, ◌^◌, ◌<◌, ◌≤◌, ℕ, List, length, slice_index, None, Some, Err, IfOk, IfErr, OnOk};
ghost use Rattle.std.specs.Option.{option_map};
ghost use Rattle.blk_base.specs.Calls.{FailsAt};
ghost use Rattle.blk_base.specs.Content.{AreZeroPast, bytes_at};
ghost use Rattle.blk_base.specs.Device.{Reads};
ghost use Rattle.blk_base.specs.Files.{WasRead};
ghost use Rattle.blk_base.specs.declared.device.DeviceCall.{DeviceCall};
ghost use Rattle.q2_format.specs.Bytes.{CanStandAt, number_at, words_at};
ghost use Rattle.q2_format.specs.Entry.{block_offset};
ghost use Rattle.q2_format.specs.Header.{CanBeRead, refusal_in};
ghost use Rattle.q2_format.specs.Sizes.{cluster_size, block_entries};
ghost use Rattle.q2_format.specs.Sound.{bad_refcount_table};
ghost use Rattle.q2_format.specs.Tables.{refcount_table};
ghost use Rattle.q2_refs.specs.Kept.{AreAbsentFree, AreAbsentZero, AreWholeClusters, BeginBelow, BlocksStand, CountsStand, IsCountsOf, IsShapedBy, StandsAsBlock};
ghost use Rattle.q2_refs.specs.Loading.{table_entries, table_reach, refcounts_refusal, AnswersWords, fault_in_refs, fault_of_refs, IsRefsReadStop, HasShape, AreCounts, AreZeroFrom, table_call, IsTableCall, IsBlockCall};

use crate::entries::{block_offset, check_words, is_misplaced};
use crate::refs::{Refs, first_free};
use crate::stop::RefsStop;
use blk_base::{DevFault, Device};
use byteorder::{BigEndian, ByteOrder};
use q2_format::Header;
use std::alloc::{AllocError, Global};

/// The bytes of a cluster.
fn cluster_len(h: &Header) -> usize
    requires { h.now.cluster_bits < 32 }
    ensures { result ≡ cluster_size h.now.cluster_bits }
{
    1 << h.cluster_bits
}

/// The refcounts of a block.
fn block_len(h: &Header) -> usize
    requires { HasShape h.now }
    ensures { result ≡ block_entries (cluster_size h.now.cluster_bits) h.now.refcount_order }
{
    (cluster_len(h) * 8) >> h.refcount_order
}

/// The words of the refcount table.
fn table_len(h: &Header) -> usize
    requires { HasShape h.now }
    ensures { result ≡ table_entries h.now }
{
    h.ref_clusters as usize * (cluster_len(h) / 8)
}

fn zero_bytes(alloc: Global, len: usize) -> Result<Vec<u8>, AllocError>
    ensures { IfOk result (λ bytes. length bytes.items ≡ len) }
{
    vec![in alloc; 0; len]
}

fn zero_words(alloc: Global, len: usize) -> Result<Vec<u64>, AllocError>
    ensures { IfOk result (λ words. length words.items ≡ len) }
{
    vec![in alloc; 0; len]
}

fn zero_counts(alloc: Global, len: usize) -> Result<Vec<u16>, AllocError>
    ensures len { IfOk result (λ counts. length counts.items ≡ len) }
    ensures zeros { IfOk result (λ counts. AreZeroFrom counts.items 0) }
{
    vec![in alloc; 0; len]
}

/// Reads bytes of a file; where that fails it names the device's count of faults.
fn read<D: Device>(dev: &mut D, at: u64, buf: &mut [u8]) -> Result<(), RefsStop>
    ensures read { OnOk result
        ((file : List ℕ) → D.content dev.old ≡ Some file
        → buf.new ≡ bytes_at file at (length buf.old)) }
    ensures past { OnOk result (AreZeroPast (D.size dev.old) at buf.new) }
    ensures stop { IfErr result IsRefsReadStop }
    ensures device { Reads D.Device (fault_of_refs result) dev.old dev.new }
    ensures call { FailsAt (λ call. call ≡ DeviceCall.Read at (length buf.old))
        (fault_of_refs result) (D.failed_call dev.new) }
{
    match dev.read_at(at, buf) {
        Ok(()) => Ok(()),
        Err(DevFault::Failed) => Err(RefsStop::Io {
            count: dev.faults(),
        }),
    }
}

/// Refuses a refcount table of no cluster, or one that isn't in its place in a file of `len` bytes.
#[tactic(auto, unfolding(q2_format::specs::Sound::bad_refcount_table))]
fn check_place(h: &Header, len: u64) -> Result<(), RefsStop>
    requires { h.now.cluster_bits < 32 }
    ensures refused { refusal_in result
        ≡ option_map RefsStop.Offset (bad_refcount_table h.now len) }
    ensures quiet { IfErr result (λ stop. fault_in_refs stop ≡ None) }
{
    if h.ref_clusters == 0 || is_misplaced(cluster_len(h) as u64, len, h.ref_offset) {
        return Err(RefsStop::Offset(h.ref_offset));
    }
    Ok(())
}

/// Words of 64 bits, one after the other.
fn decode_words(bytes: &[u8], words: &mut [u64])
    requires { length bytes.now ≡ 8 * length words.old }
    ensures { (k : ℕ) → k < length words.old
        → slice_index words.new k ≡ number_at bytes.now (8 * k) 8 }
{
    BigEndian::read_u64_into(bytes, words);
}

/// Reads words from a place on, through a buffer of their bytes.
fn read_words<D: Device>(
    dev: &mut D,
    at: u64,
    buffer: &mut [u8],
    words: &mut [u64],
) -> Result<(), RefsStop>
    requires { length buffer.old ≡ 8 * length words.old }
    ensures words { OnOk result
        ((file : List ℕ) → D.content dev.old ≡ Some file
        → words.new ≡ words_at file at (length words.old)) }
    ensures stands { OnOk result (CanStandAt (D.size dev.old) at words.new) }
    ensures stop { IfErr result IsRefsReadStop }
    ensures device { Reads D.Device (fault_of_refs result) dev.old dev.new }
    ensures call { FailsAt (λ call. call ≡ DeviceCall.Read at (length buffer.old))
        (fault_of_refs result) (D.failed_call dev.new) }
{
    read(dev, at, buffer)?;
    decode_words(buffer, words);
    Ok(())
}

/// Reads the words of the refcount table.
#[tactic(auto, unfolding(q2_format::specs::Tables::refcount_table))]
fn read_table<D: Device>(alloc: Global, dev: &mut D, h: &Header) -> Result<Vec<u64>, RefsStop>
    requires { HasShape h.now }
    ensures table { IfOk result
        (λ words. (file : List ℕ) → D.content dev.old ≡ Some file
        → words.items ≡ refcount_table file h.now) }
    ensures len { IfOk result (λ words. length words.items ≡ table_entries h.now) }
    ensures stands { IfOk result
        (λ words. CanStandAt (D.size dev.old) h.now.ref_offset words.items) }
    ensures stop { IfErr result IsRefsReadStop }
    ensures device { Reads D.Device (fault_of_refs result) dev.old dev.new }
    ensures call { FailsAt (λ call. call ≡ table_call h.now)
        (fault_of_refs result) (D.failed_call dev.new) }
{
    let entries = table_len(h);
    let mut buffer = zero_bytes(alloc, 8 * entries)?;
    let mut words = zero_words(alloc, entries)?;
    read_words(
        dev,
        h.ref_offset,
        buffer.as_mut_slice(),
        words.as_mut_slice(),
    )?;
    Ok(words)
}

/// The refcounts of 16 bits, one after the other.
fn decode_counts(block: &[u8], counts: &mut [u16])
    requires { 2 * length counts.old ≤ length block.now }
    ensures { (k : ℕ) → k < length counts.old
        → slice_index counts.new k ≡ number_at block.now (k * 2) 2 }
{
    BigEndian::read_u16_into(&block[..2 * counts.len()], counts);
}

/// Puts a block's first refcounts at `from..to`.
fn put_counts(block: &[u8], counts: &mut [u16], from: usize, to: usize)
    requires order { from ≤ to }
    requires within { to ≤ length counts.old }
    requires whole { 2 * (to - from) ≤ length block.now }
    ensures put { (k : ℕ) → from ≤ k → k < to
        → slice_index counts.new k ≡ number_at block.now ((k - from) * 2) 2 }
    ensures before { (k : ℕ) → k < from → slice_index counts.new k ≡ slice_index counts.old k }
    ensures behind { (k : ℕ) → to ≤ k → slice_index counts.new k ≡ slice_index counts.old k }
{
    decode_counts(block, &mut counts[from..to]);
}

/// Reads the refcounts that block `i` has, as far as they are kept. Those of an absent block are 0 already.
fn read_block<D: Device>(
    dev: &mut D,
    h: &Header,
    table: &[u64],
    i: usize,
    buffer: &mut [u8],
    counts: &mut [u16],
) -> Result<(), RefsStop>
    requires shape { HasShape h.now }
    requires entry { i < length table.now }
    requires some { i * block_entries (cluster_size h.now.cluster_bits) h.now.refcount_order
        < length counts.old }
    requires small { length counts.old ≤ 2 ^ 24 }
    requires buffer { length buffer.old ≡ cluster_size h.now.cluster_bits }
    requires zeros { AreZeroFrom counts.old
        (i * block_entries (cluster_size h.now.cluster_bits) h.now.refcount_order) }
    ensures stands { OnOk result (block_offset (slice_index table.now i) ≢ 0
        → let per_block = block_entries (cluster_size h.now.cluster_bits) h.now.refcount_order in
        StandsAsBlock (D.content dev.old) (D.size dev.old) (block_offset (slice_index table.now i))
        2 per_block (i * per_block) counts.new) }
    ensures absent { block_offset (slice_index table.now i) ≡ 0 → counts.new ≡ counts.old }
    ensures before { (k : ℕ)
        → k < i * block_entries (cluster_size h.now.cluster_bits) h.now.refcount_order
        → slice_index counts.new k ≡ slice_index counts.old k }
    ensures behind { AreZeroFrom counts.new
        ((i + 1) * block_entries (cluster_size h.now.cluster_bits) h.now.refcount_order) }
    ensures stop { IfErr result IsRefsReadStop }
    ensures device { Reads D.Device (fault_of_refs result) dev.old dev.new }
    ensures call { FailsAt (IsBlockCall h.now (length counts.old) table.now)
        (fault_of_refs result) (D.failed_call dev.new) }
{
    let offset = block_offset(table[i]);
    if offset == 0 {
        return Ok(());
    }
    read(dev, offset, buffer)?;
    let from = i * block_len(h);
    let to = counts.len().min(from + block_len(h));
    put_counts(buffer, counts, from, to);
    Ok(())
}

/// Reads the refcounts of the first clusters, one read for each block that is there.
fn read_counts<D: Device>(
    dev: &mut D,
    h: &Header,
    table: &[u64],
    buffer: &mut [u8],
    counts: &mut [u16],
) -> Result<(), RefsStop>
    requires shape { HasShape h.now }
    requires table { length table.now ≡ table_entries h.now }
    requires reach { length counts.old ≤ table_reach h.now }
    requires small { length counts.old ≤ 2 ^ 24 }
    requires buffer { length buffer.old ≡ cluster_size h.now.cluster_bits }
    requires zeros { AreZeroFrom counts.old 0 }
    ensures counts { OnOk result
        ((file : List ℕ) → D.content dev.old ≡ Some file → table.now ≡ refcount_table file h.now
        → AreCounts file h.now counts.new 0 (length counts.old)) }
    ensures absent { OnOk result (AreAbsentZero
        (block_entries (cluster_size h.now.cluster_bits) h.now.refcount_order) table.now
        counts.new (length counts.old)) }
    ensures stands { OnOk result (BlocksStand (D.content dev.old) (D.size dev.old) 2
        (block_entries (cluster_size h.now.cluster_bits) h.now.refcount_order) table.now
        counts.new (length table.now)) }
    ensures stop { IfErr result IsRefsReadStop }
    ensures device { Reads D.Device (fault_of_refs result) dev.old dev.new }
    ensures call { FailsAt (IsBlockCall h.now (length counts.old) table.now)
        (fault_of_refs result) (D.failed_call dev.new) }
{
    let blocks = counts.len().div_ceil(block_len(h));
    for i in 0..blocks {
        read_block(dev, h, table, i, buffer, counts)?;
    }
    Ok(())
}

/// Reads the words of the refcount table in one read, and refuses what is refused of it, in this order: its place,
/// the places of its blocks, reserved bits in its entries. `Io` comes in place of what the read would have told, and
/// `NoMemory` may come before or after that, of a table in its place.
pub fn load_table<D: Device>(alloc: Global, dev: &mut D, h: &Header) -> Result<Vec<u64>, RefsStop>
    requires { CanBeRead h.now (D.size dev.old) }
    ensures read { WasRead (D.content dev.old) (λ file. refcount_table file h.now)
        (AnswersWords h.now (D.size dev.old) (λ table. table.items) result) }
    // a table out of its place isn't read
    ensures placed { (off : ℕ) → bad_refcount_table h.now (D.size dev.old) ≡ Some off
        → result ≡ Err (RefsStop.Offset off) }
    ensures device { Reads D.Device (fault_of_refs result) dev.old dev.new }
    ensures call { FailsAt (IsTableCall h.now (D.size dev.old))
        (fault_of_refs result) (D.failed_call dev.new) }
{
    let len = dev.length();
    check_place(h, len)?;
    let table = read_table(alloc, dev, h)?;
    check_words(table.as_slice(), cluster_len(h) as u64, len)?;
    Ok(table)
}

/// What is kept of a table and its counts.
fn refs_of(h: &Header, table: Vec<u64>, counts: Vec<u16>, buffer: Vec<u8>) -> Refs
    requires shape { HasShape h.now }
    requires place { h.now.ref_offset % cluster_size h.now.cluster_bits ≡ 0 }
    requires low { h.now.ref_offset < 2 ^ 40 }
    requires table { length table.items ≡ table_entries h.now }
    requires blocks { AreWholeClusters (cluster_size h.now.cluster_bits) table.items }
    requires reach { length counts.items ≤ table_reach h.now }
    requires small { length counts.items ≤ 2 ^ 24 }
    requires buffer { length buffer.items ≡ cluster_size h.now.cluster_bits }
    ensures shape { IsShapedBy h.now result }
    ensures table { result.table ≡ table.items }
    ensures counts { result.counts ≡ counts.items }
{
    let cursor = first_free(counts.as_slice(), 0);
    Refs {
        cluster_bits: h.cluster_bits,
        refcount_order: h.refcount_order,
        table_offset: h.ref_offset,
        table,
        counts,
        cursor,
        buffer,
    }
}

/// Reads the refcounts of the first `reach` clusters of a file, by the words of its refcount table: a cluster for
/// each block that is there and counts one of them.
pub fn load_counts<D: Device>(
    alloc: Global,
    dev: &mut D,
    h: &Header,
    table: Vec<u64>,
    reach: u64,
) -> Result<Refs, RefsStop>
    requires header { CanBeRead h.now (D.size dev.old) }
    requires accepted { refcounts_refusal h.now (D.size dev.old) table.items ≡ None }
    requires entries { length table.items ≡ table_entries h.now }
    requires reach { reach ≤ table_reach h.now }
    requires small { reach ≤ 2 ^ 24 }
    ensures kept { IfOk result
        (λ refs. (file : List ℕ) → D.content dev.old ≡ Some file
        → table.items ≡ refcount_table file h.now
        → IsCountsOf file h.now refs) }
    ensures stop { IfErr result IsRefsReadStop }

    // what holds even where the device doesn't tell its bytes
    ensures shape { IfOk result (IsShapedBy h.now) }
    ensures table { IfOk result (λ refs. refs.table ≡ table.items) }
    ensures reach { IfOk result (λ refs. length refs.counts ≡ reach) }
    ensures blocks { IfOk result
        (λ refs. AreWholeClusters (cluster_size h.now.cluster_bits) refs.table) }
    ensures below { IfOk result (λ refs. BeginBelow (D.size dev.old) refs.table) }
    ensures absent { IfOk result AreAbsentFree }
    ensures stands { IfOk result (CountsStand (D.content dev.old) (D.size dev.old)) }

    // the device
    ensures device { Reads D.Device (fault_of_refs result) dev.old dev.new }
    ensures call { FailsAt (IsBlockCall h.now reach table.items)
        (fault_of_refs result) (D.failed_call dev.new) }
{
    let mut counts = zero_counts(alloc, reach as usize)?;
    let mut buffer = zero_bytes(alloc, cluster_len(h))?;
    read_counts(
        dev,
        h,
        table.as_slice(),
        buffer.as_mut_slice(),
        counts.as_mut_slice(),
    )?;
    Ok(refs_of(h, table, counts, buffer))
}
