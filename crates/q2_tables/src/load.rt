//! Loading the tables of an image: one read a table, and a look at each word for each kind of fault.
ghost use Rattle.std.specs.Prelude.{◌≡◌, ◌*◌, ◌/◌, ◌^◌, ◌<◌, ◌≤◌, ℕ, List, length, slice_index, Some, None, Err, IfOk, IfErr, OnOk, option_map};
ghost use Rattle.blk_base.specs.Calls.{FailsAt};
ghost use Rattle.blk_base.specs.Device.{Reads};
ghost use Rattle.blk_base.specs.Files.{WasRead};
ghost use Rattle.blk_base.specs.declared.device.DeviceCall.{DeviceCall};
ghost use Rattle.q2_format.specs.Bytes.{CanStandAt, words_at};
ghost use Rattle.q2_format.specs.Sizes.{cluster_size, entries_in_cluster};
ghost use Rattle.q2_format.specs.Header.{CanBeRead};
ghost use Rattle.q2_format.specs.Sound.{bad_l1_table};
ghost use Rattle.q2_format.specs.Tables.{active_tree};
ghost use Rattle.q2_tables.specs.Loading.{AnswersTree, fault_of_tables, IsLoaded, IsTablesCall, RowsStand};
ghost use Rattle.q2_tables.specs.Words.{AreTablesOf, AreUnnamedZero, IsReadOfTable, IsTablesReadStop, misplaced_table};
ghost use Rattle.q2_tables.specs.declared.stop.TablesStop.TheVariants.{Offset};

use crate::check::{check_l1_table, check_l2_tables, check_words};
use crate::stop::TablesStop;
use crate::tables::Tables;
use crate::words::{ENTRY, offset_in};
use blk_base::Device;
use byteorder::{BigEndian, ByteOrder};
use q2_format::Header;
use std::alloc::{AllocError, Global};

/// Reads the words of a table that begins at `at`. The buffer has the room for its bytes.
fn read_table<D: Device>(
    dev: &mut D,
    at: u64,
    buffer: &mut [u8],
    words: &mut [u64],
) -> Result<(), TablesStop>
    requires { length buffer.old ≡ 8 * length words.old }
    ensures told { OnOk result
        ((file : List ℕ) → D.content dev.old ≡ Some file
        → words.new ≡ words_at file at (length words.old)) }
    ensures stands { OnOk result (CanStandAt (D.size dev.old) at words.new) }
    ensures stop { IfErr result IsTablesReadStop }
    ensures device { Reads D.Device (fault_of_tables result) dev.old dev.new }
    ensures call { FailsAt (λ call. call ≡ DeviceCall.Read at (length buffer.old))
        (fault_of_tables result) (D.failed_call dev.new) }
{
    match dev.read_at(at, buffer) {
        Ok(()) => {
            BigEndian::read_u64_into(buffer, words);
            Ok(())
        }
        Err(_) => Err(TablesStop::Io {
            count: dev.faults(),
        }),
    }
}

/// Reads the L2 tables that the entries of an L1 table name, one behind the other. An entry that names none
/// leaves its words, which are 0.
fn read_l2_tables<D: Device>(
    dev: &mut D,
    l1: &[u64],
    buffer: &mut [u8],
    words: &mut [u64],
) -> Result<(), TablesStop>
    requires table { length buffer.old ≡ 8 * (length buffer.old / 8) }
    requires whole { length words.old ≡ length l1.now * entries_in_cluster (length buffer.old) }
    requires zeros { (k : ℕ) → slice_index words.old k ≡ 0 }
    ensures told { OnOk result
        ((file : List ℕ) → D.content dev.old ≡ Some file
        → AreTablesOf file (length buffer.old) l1.now words.new) }
    ensures unnamed { OnOk result (AreUnnamedZero (entries_in_cluster (length buffer.old)) l1.now
        words.new (length words.old)) }
    ensures stands { OnOk result
        (RowsStand (D.size dev.old) (entries_in_cluster (length buffer.old)) l1.now words.new) }
    ensures stop { IfErr result IsTablesReadStop }
    ensures device { Reads D.Device (fault_of_tables result) dev.old dev.new }
    ensures call { FailsAt (IsReadOfTable (length buffer.old) l1.now)
        (fault_of_tables result) (D.failed_call dev.new) }
{
    let entries = buffer.len() / ENTRY;
    for (i, word) in l1.iter().enumerate() {
        let offset = offset_in(*word);
        if offset != 0 {
            let table = &mut words[i * entries..(i + 1) * entries];
            read_table(dev, offset, buffer, table)?;
        }
    }
    Ok(())
}

/// So many bytes, which are 0.
fn zero_bytes(alloc: Global, n: usize) -> Result<Vec<u8>, AllocError>
    ensures { IfOk result (λ bytes. length bytes.items ≡ n) }
{
    vec![in alloc; 0; n]
}

/// So many words, which are 0.
fn zero_words(alloc: Global, n: usize) -> Result<Vec<u64>, AllocError>
    ensures len { IfOk result (λ words. length words.items ≡ n) }
    ensures zeros { IfOk result (λ words. (k : ℕ) → slice_index words.items k ≡ 0) }
{
    vec![in alloc; 0; n]
}

/// Reads the L1 table that begins at `at`.
fn read_l1<D: Device>(
    alloc: Global,
    dev: &mut D,
    at: u64,
    entries: usize,
) -> Result<Vec<u64>, TablesStop>
    requires { entries < 2 ^ 32 }
    ensures told { IfOk result
        (λ l1. (file : List ℕ) → D.content dev.old ≡ Some file
        → l1.items ≡ words_at file at entries) }
    ensures len { IfOk result (λ l1. length l1.items ≡ entries) }
    ensures stands { IfOk result (λ l1. CanStandAt (D.size dev.old) at l1.items) }
    ensures stop { IfErr result IsTablesReadStop }
    ensures device { Reads D.Device (fault_of_tables result) dev.old dev.new }
    ensures call { FailsAt (λ call. call ≡ DeviceCall.Read at (8 * entries))
        (fault_of_tables result) (D.failed_call dev.new) }
{
    let mut l1 = zero_words(alloc, entries)?;
    let mut bytes = zero_bytes(alloc, ENTRY * entries)?;
    read_table(dev, at, bytes.as_mut_slice(), l1.as_mut_slice())?;
    Ok(l1)
}

/// Reads the L2 tables of an L1 table. The buffer has the bytes of a cluster.
fn read_l2<D: Device>(
    alloc: Global,
    dev: &mut D,
    l1: &[u64],
    buffer: &mut [u8],
) -> Result<Vec<u64>, TablesStop>
    requires table { length buffer.old ≡ 8 * (length buffer.old / 8) }
    requires small { length l1.now * entries_in_cluster (length buffer.old) < 2 ^ 62 }
    ensures told { IfOk result
        (λ words. (file : List ℕ) → D.content dev.old ≡ Some file
        → AreTablesOf file (length buffer.old) l1.now words.items) }
    ensures unnamed { IfOk result
        (λ words. AreUnnamedZero (entries_in_cluster (length buffer.old)) l1.now words.items
        (length words.items)) }
    ensures len { IfOk result
        (λ words. length words.items ≡ length l1.now * entries_in_cluster (length buffer.old)) }
    ensures stands { IfOk result
        (λ words. RowsStand (D.size dev.old) (entries_in_cluster (length buffer.old)) l1.now
        words.items) }
    ensures stop { IfErr result IsTablesReadStop }
    ensures device { Reads D.Device (fault_of_tables result) dev.old dev.new }
    ensures call { FailsAt (IsReadOfTable (length buffer.old) l1.now)
        (fault_of_tables result) (D.failed_call dev.new) }
{
    let mut words = zero_words(alloc, l1.len() * (buffer.len() / ENTRY))?;
    read_l2_tables(dev, l1, buffer, words.as_mut_slice())?;
    Ok(words)
}

/// Loads the L1 table of an image with clusters of `c` bytes.
fn load_l1<D: Device>(
    alloc: Global,
    dev: &mut D,
    h: &Header,
    c: u64,
    len: u64,
) -> Result<Vec<u64>, TablesStop>
    requires size { c ≡ cluster_size h.now.cluster_bits }
    requires some { 8 ≤ c }
    ensures told { IfOk result
        (λ l1. (file : List ℕ) → D.content dev.old ≡ Some file
        → l1.items ≡ words_at file h.now.l1_offset h.now.l1_size) }
    ensures refused { len ≡ D.size dev.old → IfErr result
        (λ stop. WasRead (D.content dev.old) (λ file. active_tree file h.now)
        (AnswersTree h.now len (Err stop))) }
    ensures judged { (off : ℕ) → bad_l1_table h.now len ≡ Some off → result ≡ Err (Offset off) }
    ensures placed { IfOk result
        (λ l1. (option_map Offset (bad_l1_table h.now len) ≡ None)
        × (misplaced_table c len l1.items ≡ None)) }
    ensures entries { IfOk result (λ l1. length l1.items ≡ h.now.l1_size) }
    ensures stands { IfOk result (λ l1. CanStandAt (D.size dev.old) h.now.l1_offset l1.items) }
    ensures device { Reads D.Device (fault_of_tables result) dev.old dev.new }
    ensures call { FailsAt (λ call. (bad_l1_table h.now len ≡ None)
        × (call ≡ DeviceCall.Read h.now.l1_offset (8 * h.now.l1_size)))
        (fault_of_tables result) (D.failed_call dev.new) }
{
    check_l1_table(h, c, len)?;
    let l1 = read_l1(alloc, dev, h.l1_offset, h.l1_size as usize)?;
    check_l2_tables(l1.as_slice(), c, len)?;
    Ok(l1)
}

/// The bytes of a cluster.
#[tactic(auto, using(q2_format::proofs::Limits::read_within))]
fn cluster_len(h: &Header, len: u64) -> u64
    requires { CanBeRead h.now len }
    ensures size { result ≡ cluster_size h.now.cluster_bits }
    ensures entries { result ≡ 8 * (result / 8) }
    ensures some { 8 ≤ result }
    ensures small { result < 2 ^ 32 }
    ensures l1 { h.now.l1_size ≤ 1024 }
    ensures len { len < 2 ^ 40 }
{
    1 << h.cluster_bits
}

/// Loads the tables of an image by its header: the L1 table in one read, and each L2 table in one. All memory is
/// taken here.
///
/// The refusal is the first that holds of: the L1 table's offset or size, an L2 table's offset, a host cluster's
/// offset (`Offset`), a reserved bit in the L1 table, one in an L2 table, a compressed cluster. Of several entries
/// the first is named. A failed read or want of memory takes the place of what it would have told; and since all L2
/// tables are read before an entry of one is judged, also of what the other L2 tables tell.
pub fn load_tables<D: Device>(alloc: Global, dev: &mut D, h: &Header) -> Result<Tables, TablesStop>
    requires { CanBeRead h.now (D.size dev.old) }
    ensures read { WasRead (D.content dev.old) (λ file. active_tree file h.now)
        (AnswersTree h.now (D.size dev.old) result) }
    // an L1 table out of its place isn't read
    ensures placed { (off : ℕ) → bad_l1_table h.now (D.size dev.old) ≡ Some off
        → result ≡ Err (Offset off) }
    ensures loaded { IfOk result (IsLoaded h.now (D.size dev.old)) }
    ensures device { Reads D.Device (fault_of_tables result) dev.old dev.new }
    ensures call { FailsAt (IsTablesCall h.now (D.size dev.old) (D.content dev.old))
        (fault_of_tables result) (D.failed_call dev.new) }
{
    let len = dev.length();
    let c = cluster_len(h, len);
    let l1 = load_l1(alloc, dev, h, c, len)?;
    let mut buffer = zero_bytes(alloc, c as usize)?;
    let words = read_l2(alloc, dev, l1.as_slice(), buffer.as_mut_slice())?;
    check_words(l1.as_slice(), words.as_slice(), c as usize, len)?;
    Ok(Tables {
        cluster_size: c,
        l1_offset: h.l1_offset,
        l1,
        words,
        buffer,
    })
}
