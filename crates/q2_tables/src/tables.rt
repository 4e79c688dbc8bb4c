//! The tables in memory.
ghost use Rattle.std.specs.Prelude.{◌≡◌, ◌≢◌, ◌↔◌, ◌+◌, ◌%◌, ◌^◌, ◌<◌, ◌≤◌, max, ℕ, List, length, slice_index, true, false, Some, OnOk, OnErr, IfErr, IsTrue, is_ok, is_some, option_map, if◌then◌else◌};
ghost use Rattle.q2_format.specs.Entry.{l2_entry, l2_spelling, IsWritable, CanBeSingle};
ghost use Rattle.q2_format.specs.Tables.{tree_at};
ghost use Rattle.q2_tables.specs.Entries.{entry_of};
ghost use Rattle.q2_tables.specs.Kept.{IsTreeOf, is_plain};
ghost use Rattle.blk_base.specs.Device.{Writes, stop_of};
ghost use Rattle.blk_base.specs.Writes.{AtEachStop};
ghost use Rattle.q2_tables.specs.Linking.{CanLink, FileAfter, IsFreeBut, IsOldOrLinked, LieBesideL1, LiesApart, entry_at, l1_index, link_end, link_writes, table_len, table_of, with_entry};

use crate::link::{write_entry, write_table};
use crate::mapping::Mapping;
use crate::words::offset_in;
use blk_base::{DevStop, Device};
use q2_format::{L2Entry, l2_word, read_l2};
use std::marker::Model;

/// The L1 table and the L2 tables of an image, as its file has them.
#[derive(Debug, Drop)]
pub struct Tables {
    /// The bytes of a cluster.
    pub(crate) cluster_size: u64,
    /// Where the L1 table begins in the file.
    pub(crate) l1_offset: u64,
    pub(crate) l1: Vec<u64>,
    /// For each guest cluster the word of its L2 entry, 0 where it has no L2 table.
    pub(crate) words: Vec<u64>,
    /// Where a new L2 table is made.
    pub(crate) buffer: Vec<u8>,
}

impl Model for Tables {
    ghost use Rattle.q2_tables.specs.Kept.{KeptTables, AreWhole};

    ghost Value = { KeptTables };

    ghost view = { λ t. record {
      c = t.cluster_size;
      l1_offset = t.l1_offset;
      l1 = t.l1.items;
      words = t.words.items;
    } };

    ghost invariant = { λ t. AreWhole
        (record {
          c = t.cluster_size;
          l1_offset = t.l1_offset;
          l1 = t.l1.items;
          words = t.words.items;
        }) t.buffer.items };
}

/// The bit of an L1 entry that says that the refcount of its L2 table is exactly one.
const SINGLE_FLAG: u64 = 1 << 63;

/// The L2 entry of a mapping.
fn entry(mapping: Mapping) -> L2Entry
    ensures { result ≡ entry_of mapping }
{
    match mapping {
        Mapping::Unallocated => L2Entry::Unallocated,
        Mapping::Zero { host } => L2Entry::Zero { host },
        Mapping::Host { host } => L2Entry::Host { host },
    }
}

impl Tables {
    /// What a guest cluster is mapped to. Clusters past the disk's end have entries too, as many as fill the
    /// L1 table's last L2 table.
    #[tactic(auto, unfolding(q2_format::specs::Entry::l2_entry))]
    pub fn lookup(&self, cluster: u64) -> Mapping
        requires { cluster < length self.now.words }
        ensures { entry_of result ≡ l2_entry (slice_index self.now.words cluster) }
    {
        match read_l2(self.words[cluster as usize]) {
            L2Entry::Unallocated => Mapping::Unallocated,
            L2Entry::Zero { host } => Mapping::Zero { host },
            L2Entry::Host { host } => Mapping::Host { host },
            L2Entry::Compressed | L2Entry::Reserved => unreachable!(),
        }
    }

    /// The words of the L1 table.
    pub fn l1(&self) -> &[u64]
        ensures { result.now ≡ self.now.l1 }
    {
        self.l1.as_slice()
    }

    /// For each guest cluster the word of its L2 entry, 0 where it has no L2 table.
    pub fn words(&self) -> &[u64]
        ensures { result.now ≡ self.now.words }
    {
        self.words.as_slice()
    }

    /// The offset of a guest cluster's L2 table, 0 where it has none.
    #[tactic(auto, using(crate::proofs::Links::table_read))]
    pub fn table_of(&self, cluster: u64) -> u64
        requires { cluster < length self.now.words }
        ensures table { result ≡ table_of self.now cluster }
        ensures small { result < 2 ^ 56 }
    {
        let entries = self.cluster_size / 8;
        offset_in(self.l1[(cluster / entries) as usize])
    }

    /// Whether all that `link` writes for a guest cluster ends within a capacity.
    pub fn link_fits(&self, cluster: u64, table: u64, capacity: u64) -> bool
        requires { CanLink self.now cluster table }
        ensures { IsTrue result ↔ (link_end self.now cluster table ≤ capacity) }
    {
        let entries = self.cluster_size / 8;
        if table == 0 {
            self.table_of(cluster) + 8 * (cluster % entries) + 8 <= capacity
        } else {
            let entry = self.l1_offset + 8 * (cluster / entries);
            table + self.cluster_size <= capacity && entry + 8 <= capacity
        }
    }

    /// Writes the L2 entry of a guest cluster that has an L2 table.
    fn link_entry<D: Device>(&mut self, dev: &mut D, cluster: u64, word: u64) -> Result<(), DevStop>
        requires can { CanLink self.old cluster 0 }
        requires plain { is_plain word ≡ true }
        ensures told { (file : List ℕ) → D.content dev.old ≡ Some file
            → IsTreeOf self.old.c self.old
            (tree_at file self.old.c self.old.l1_offset (length self.old.l1))
            → LiesApart self.old cluster 0
            → FileAfter self.new file (D.content dev.new) (entry_at self.old cluster 0)
            (if is_ok result then 8 else 0) 0 (table_len self.old 0) }
        ensures stops { (file : List ℕ) → D.content dev.old ≡ Some file
            → IsTreeOf self.old.c self.old
            (tree_at file self.old.c self.old.l1_offset (length self.old.l1))
            → LiesApart self.old cluster 0
            → AtEachStop (IsOldOrLinked self.old cluster word 0 file)
            (link_writes self.old cluster word 0) file }
        ensures linked { OnOk result (self.new ≡ with_entry self.old cluster word 0) }
        ensures kept { OnErr result (self.new ≡ self.old) }
        ensures writes { Writes D.Device (link_writes self.old cluster word 0) (stop_of result)
            dev.old dev.new }
    {
        let entries = self.cluster_size / 8;
        let table = self.table_of(cluster);
        write_entry(dev, table + 8 * (cluster % entries), word)?;
        self.words[cluster as usize] = word;
        Ok(())
    }

    /// Writes a new L2 table with the entry of a guest cluster, and then the L1 entry that names it.
    fn link_table<D: Device>(
        &mut self,
        dev: &mut D,
        cluster: u64,
        word: u64,
        table: u64,
    ) -> Result<(), DevStop>
        requires can { CanLink self.old cluster table }
        requires some { 0 < table }
        requires plain { is_plain word ≡ true }
        ensures told { (file : List ℕ) → D.content dev.old ≡ Some file
            → IsTreeOf self.old.c self.old
            (tree_at file self.old.c self.old.l1_offset (length self.old.l1))
            → LiesApart self.old cluster table
            → FileAfter self.new file (D.content dev.new) (entry_at self.old cluster table)
            (if is_ok result then 8 else 0) table (table_len self.old table) }
        ensures stops { (file : List ℕ) → D.content dev.old ≡ Some file
            → IsTreeOf self.old.c self.old
            (tree_at file self.old.c self.old.l1_offset (length self.old.l1))
            → LiesApart self.old cluster table
            → AtEachStop (IsOldOrLinked self.old cluster word table file)
            (link_writes self.old cluster word table) file }
        ensures linked { OnOk result (self.new ≡ with_entry self.old cluster word table) }
        ensures kept { OnErr result (self.new ≡ self.old) }
        ensures reaches { OnOk result (table + table_len self.old table ≤ D.size dev.new) }
        ensures writes { Writes D.Device (link_writes self.old cluster word table) (stop_of result)
            dev.old dev.new }
    {
        let entries = self.cluster_size / 8;
        let index = cluster / entries;
        let column = (cluster % entries) as usize;
        write_table(dev, table, self.buffer.as_mut_slice(), column, word)?;
        let l1_word = table + SINGLE_FLAG;
        write_entry(dev, self.l1_offset + 8 * index, l1_word)?;
        self.l1[index as usize] = l1_word;
        self.words[cluster as usize] = word;
        Ok(())
    }

    /// Maps a guest cluster: writes its L2 entry. `single` says that the refcount of its host cluster is exactly
    /// one. `table` is the offset for a new L2 table, whose refcount is one, where the cluster has none, and else 0.
    ///
    /// A new table is written whole, with the entry in it, before the L1 entry that names it. After a stop the
    /// mapping is as before; the cluster at `table` may then hold any bytes. Wherever its writes stop, the entry is the old
    /// one or the new. No memory is taken.
    pub fn link<D: Device>(
        &mut self,
        dev: &mut D,
        cluster: u64,
        to: Mapping,
        single: bool,
        table: u64,
    ) -> Result<(), DevStop>
        requires can { CanLink self.old cluster table }
        requires entry { IsWritable (entry_of to) }
        requires single { CanBeSingle (entry_of to) single }
        ensures told { (file : List ℕ) → D.content dev.old ≡ Some file
            → IsTreeOf self.old.c self.old
            (tree_at file self.old.c self.old.l1_offset (length self.old.l1))
            → LiesApart self.old cluster table
            → FileAfter self.new file (D.content dev.new) (entry_at self.old cluster table)
            (if is_ok result then 8 else 0) table (table_len self.old table) }
        ensures linked { OnOk result
            (self.new ≡ with_entry self.old cluster (l2_spelling (entry_of to) single) table) }
        ensures kept { OnErr result (self.new ≡ self.old) }
        ensures writes { Writes D.Device
            (link_writes self.old cluster (l2_spelling (entry_of to) single) table) (stop_of result)
            dev.old dev.new }
        ensures stops { (file : List ℕ) → D.content dev.old ≡ Some file
            → IsTreeOf self.old.c self.old
            (tree_at file self.old.c self.old.l1_offset (length self.old.l1))
            → LiesApart self.old cluster table
            → AtEachStop
            (IsOldOrLinked self.old cluster (l2_spelling (entry_of to) single) table file)
            (link_writes self.old cluster (l2_spelling (entry_of to) single) table) file }
        ensures reaches { OnOk result (table + table_len self.old table ≤ D.size dev.new) }
        ensures tells { is_some (D.content dev.new) ≡ is_some (D.content dev.old) }
        ensures grows { D.size dev.old ≤ D.size dev.new }
        ensures bound { D.size dev.new ≤ max (D.size dev.old) (link_end self.old cluster table) }
    {
        let word = l2_word(entry(to), single);
        if table == 0 {
            self.link_entry(dev, cluster, word)
        } else {
            self.link_table(dev, cluster, word, table)
        }
    }
}
