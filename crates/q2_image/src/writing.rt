//! Writing an image: taking clusters, writing what they hold, and mapping guest clusters to them.

ghost use Rattle.std.specs.Prelude.{◌≡◌, ◌≢◌, ◌↔◌, ◌⊎◌, ◌+◌, ◌*◌, ◌/◌, ◌%◌, ◌<◌, ◌≤◌, ℕ, List, [], ◌∷◌, length, Some, is_some, IsTrue, true, IfOk, IfErr, OnOk, OnErr};
ghost use Rattle.blk_base.specs.Counts.{taken};
ghost use Rattle.blk_base.specs.Device.{Writes, stop_of};
ghost use Rattle.blk_base.specs.Writes.{write_of};
ghost use Rattle.q2_format.specs.Bytes.{place_bytes};
ghost use Rattle.q2_format.specs.declared.entries.L2Entry.TheVariants.{Zero};
ghost use Rattle.q2_format.specs.Header.{header_of};
ghost use Rattle.q2_format.specs.Tables.{refcount_of};
ghost use Rattle.q2_refs.specs.Allocating.{with_block_for};
ghost use Rattle.q2_refs.specs.Free.{free_cluster};
ghost use Rattle.q2_format.specs.Entry.{IsWritable, host_of, is_single};
ghost use Rattle.q2_tables.specs.Entries.{entry_of};
ghost use Rattle.q2_tables.specs.Linking.{CanLink, link_end};
ghost use Rattle.q2_image.specs.Image.{IsImageOf, IsOpen, clusters_in, cluster_size_in, word_in, entry_in};
ghost use Rattle.q2_image.specs.Made.{MakesSteps, take_steps, table_steps, host_steps, entry_steps, fill_steps, clean_steps};
ghost use Rattle.q2_image.specs.Reading.{IsHost, IsWithinCluster};
ghost use Rattle.q2_image.specs.Writing.{IsDiskWith, IsSameDisk, HasEntriesBut, StaysTaken, IsSpelled, counts_once, IsSpare, HoldsNoGuestByte, MayName, Shows, PutFits, ZeroFits, AreClusterZeros, CanTake, TellsFault, HasSameEntries, taken_at, after_take, needs_table, needs_host, idle_host, next_host, table_for, with_table, with_host};

use crate::header::cluster_size;
use crate::image::Image;
use blk_base::{DevStop, Device, write};
use q2_refs::RefStop;
use q2_tables::Mapping;

/// The offset of a mapping's host cluster, 0 for none.
fn host_of(mapping: Mapping) -> u64
    ensures { result ≡ host_of (entry_of mapping) }
{
    match mapping {
        Mapping::Unallocated => 0,
        Mapping::Zero { host } | Mapping::Host { host } => host,
    }
}

/// The host cluster of a mapping that reads as zeros, 0 for none.
pub(crate) fn idle_host(mapping: Mapping) -> u64
    ensures { result ≡ idle_host (entry_of mapping) }
{
    match mapping {
        Mapping::Zero { host } => host,
        Mapping::Unallocated | Mapping::Host { .. } => 0,
    }
}

impl Image {
    /// Takes the cluster that is next, and gives its offset. It then counts, and nothing names it.
    fn take_cluster<D: Device>(&mut self, dev: &mut D) -> Result<u64, DevStop>
        requires can { CanTake self.old 0 (D.capacity dev.old) }
        requires image { (file : List ℕ) → D.content dev.old ≡ Some file → IsImageOf file self.old }
        ensures steps { MakesSteps D.Device self.old (take_steps self.old) (stop_of result) self.new
            dev.old dev.new }
        ensures offset { IfOk result (λ offset. offset ≡ taken_at self.old 0) }
        ensures ok { OnOk result (self.new ≡ record self.old { refs = after_take self.old.refs }) }
        ensures err { OnErr result
            ((self.new ≡ self.old)
            ⊎ (self.new ≡ record self.old {
              refs = with_block_for self.old.refs
                  (free_cluster self.old.refs 0);
            })) }
        ensures taken { StaysTaken self.old self.new }
        ensures spare { IfOk result
            (λ offset. (file : List ℕ) → D.content dev.new ≡ Some file
            → IsSpare file (offset / cluster_size_in self.old)) }
        ensures fresh { IfOk result
            (λ offset. (file : List ℕ) → D.content dev.old ≡ Some file
            → refcount_of file (header_of file) (offset / cluster_size_in self.old) ≡ 0) }
        ensures spare_stay { (old new : List ℕ) (n : ℕ) → D.content dev.old ≡ Some old
            → D.content dev.new ≡ Some new → IsSpare old n → IsSpare new n }
        ensures image { (file : List ℕ) → D.content dev.new ≡ Some file → IsImageOf file self.new }
        ensures disk { (old new : List ℕ) → D.content dev.old ≡ Some old
            → D.content dev.new ≡ Some new → IsSameDisk old new }
        ensures cause { IfErr result TellsFault }
        ensures told { is_some (D.content dev.new) ≡ is_some (D.content dev.old) }
        ensures faults { D.faults dev.old ≤ D.faults dev.new }
        ensures capacity { D.capacity dev.new ≡ D.capacity dev.old }
    {
        match self.refs.allocate(dev) {
            Ok(cluster) => Ok(cluster * cluster_size(&self.header)),
            Err(RefStop::Dev(stop)) => Err(stop),
            Err(RefStop::HostLimit) => unreachable!(),
        }
    }

    /// Writes the bytes of a cluster to a host offset where no guest byte lies, so that whatever is written there
    /// changes nothing that a guest reads.
    fn write_payload<D: Device>(&self, dev: &mut D, host: u64, bytes: &[u8]) -> Result<(), DevStop>
        requires open { IsOpen self.now }
        requires whole { length bytes.now ≡ cluster_size_in self.now }
        requires aligned { (file : List ℕ) → D.content dev.old ≡ Some file
            → host % cluster_size_in self.now ≡ 0 }
        requires small { host < 549755813888 }
        requires fits { host + cluster_size_in self.now ≤ D.capacity dev.old }
        requires image { (file : List ℕ) → D.content dev.old ≡ Some file → IsImageOf file self.now }
        requires idle { (file : List ℕ) → D.content dev.old ≡ Some file
            → HoldsNoGuestByte (cluster_size_in self.now) file self.now host }
        ensures writes { Writes D.Device (write_of host bytes.now ∷ []) (stop_of result) dev.old
            dev.new }
        ensures written { OnOk result
            ((file : List ℕ) → D.content dev.new ≡ Some file
            → place_bytes file host (cluster_size_in self.now) ≡ bytes.now) }
        ensures reaches { OnOk result (host + cluster_size_in self.now ≤ D.size dev.new) }
        ensures spare_stay { (old new : List ℕ) (n : ℕ) → D.content dev.old ≡ Some old
            → D.content dev.new ≡ Some new → IsSpare old n → IsSpare new n }
        ensures image { (file : List ℕ) → D.content dev.new ≡ Some file → IsImageOf file self.now }
        ensures disk { (old new : List ℕ) → D.content dev.old ≡ Some old
            → D.content dev.new ≡ Some new → IsSameDisk old new }
        ensures cause { IfErr result TellsFault }
        ensures told { is_some (D.content dev.new) ≡ is_some (D.content dev.old) }
        ensures faults { D.faults dev.old ≤ D.faults dev.new }
        ensures capacity { D.capacity dev.new ≡ D.capacity dev.old }
    {
        write(dev, host, bytes)
    }

    /// Writes the L2 entry of a guest cluster, and a new L2 table with it where `table` isn't 0. Bit 63 is set
    /// exactly where the refcount of a host cluster is one.
    fn map_cluster<D: Device>(
        &mut self,
        dev: &mut D,
        cluster: u64,
        to: Mapping,
        table: u64,
    ) -> Result<(), DevStop>
        requires below { cluster < length self.old.tables.words }
        requires can { CanLink self.old.tables cluster table }
        requires entry { IsWritable (entry_of to) }
        requires reached { host_of (entry_of to)
            < length self.old.refs.counts * cluster_size_in self.old }
        requires whole { table % cluster_size_in self.old ≡ 0 }
        requires near { table + cluster_size_in self.old ≤ 549755813888 }
        requires fits { link_end self.old.tables cluster table ≤ D.capacity dev.old }
        requires image { (file : List ℕ) → D.content dev.old ≡ Some file → IsImageOf file self.old }
        requires spare { (file : List ℕ) → D.content dev.old ≡ Some file → table ≢ 0
            → IsSpare file (table / cluster_size_in self.old) }
        requires may { (file : List ℕ) → D.content dev.old ≡ Some file
            → MayName (cluster_size_in self.old) file self.old cluster table
            (host_of (entry_of to)) }
        ensures steps { MakesSteps D.Device self.old
            (entry_steps self.old cluster (entry_of to) table) (stop_of result) self.new dev.old
            dev.new }
        ensures entry { OnOk result (entry_in self.new cluster ≡ entry_of to) }
        ensures spelled { OnOk result (IsSpelled self.new cluster) }
        ensures others { HasEntriesBut self.old self.new cluster }
        ensures unmapped { OnErr result (self.new ≡ self.old) }
        ensures header { self.new.header ≡ self.old.header }
        ensures refs { self.new.refs ≡ self.old.refs }
        ensures image { (file : List ℕ) → D.content dev.new ≡ Some file → IsImageOf file self.new }
        ensures disk { OnOk result
            ((old new bytes : List ℕ) → D.content dev.old ≡ Some old → D.content dev.new ≡ Some new
            → length bytes ≡ cluster_size_in self.old
            → Shows (cluster_size_in self.old) old (entry_of to) bytes
            → IsDiskWith old new (cluster * cluster_size_in self.old) bytes) }
        ensures kept { OnErr result
            ((old new : List ℕ) → D.content dev.old ≡ Some old → D.content dev.new ≡ Some new
            → IsSameDisk old new) }
        ensures cause { IfErr result TellsFault }
        ensures told { is_some (D.content dev.new) ≡ is_some (D.content dev.old) }
        ensures faults { D.faults dev.old ≤ D.faults dev.new }
        ensures capacity { D.capacity dev.new ≡ D.capacity dev.old }
    {
        let single = self.is_single(host_of(to));
        self.tables.link(dev, cluster, to, single, table)
    }

    /// Whether there is a host cluster at an offset, and its refcount is exactly one.
    fn is_single(&self, host: u64) -> bool
        requires { host < length self.now.refs.counts * cluster_size_in self.now }
        ensures { result ≡ counts_once self.now host }
    {
        host != 0 && self.refs.count_of(host / cluster_size(&self.header)) == 1
    }

    /// Takes a cluster for the L2 table of a guest cluster, where that has none, and gives its offset, else 0.
    fn new_table<D: Device>(&mut self, dev: &mut D, cluster: u64) -> Result<u64, DevStop>
        requires below { cluster < length self.old.tables.words }
        requires can { needs_table self.old cluster ≡ true
            → CanTake self.old 0 (D.capacity dev.old) }
        requires image { (file : List ℕ) → D.content dev.old ≡ Some file → IsImageOf file self.old }
        ensures steps { MakesSteps D.Device self.old (table_steps self.old cluster) (stop_of result)
            self.new dev.old dev.new }
        ensures table { IfOk result (λ table. table ≡ table_for self.old cluster) }
        ensures ok { OnOk result (self.new ≡ with_table self.old cluster) }
        ensures same { HasSameEntries self.old self.new }
        ensures taken { StaysTaken self.old self.new }
        ensures spare { IfOk result
            (λ table. (file : List ℕ) → D.content dev.new ≡ Some file → table ≢ 0
            → IsSpare file (table / cluster_size_in self.old)) }
        ensures image { (file : List ℕ) → D.content dev.new ≡ Some file → IsImageOf file self.new }
        ensures disk { (old new : List ℕ) → D.content dev.old ≡ Some old
            → D.content dev.new ≡ Some new → IsSameDisk old new }
        ensures cause { IfErr result TellsFault }
        ensures told { is_some (D.content dev.new) ≡ is_some (D.content dev.old) }
        ensures faults { D.faults dev.old ≤ D.faults dev.new }
        ensures capacity { D.capacity dev.new ≡ D.capacity dev.old }
    {
        if self.tables.table_of(cluster) != 0 {
            return Ok(0);
        }
        self.take_cluster(dev)
    }

    /// Gives the offset that the data of a guest cluster can be put to without a byte of it being read before: that of
    /// a host cluster behind an entry which reads as zeros, or else of a cluster that is taken.
    fn new_host<D: Device>(&mut self, dev: &mut D, cluster: u64) -> Result<u64, DevStop>
        requires below { cluster < length self.old.tables.words }
        requires can { needs_host self.old cluster ≡ true
            → CanTake self.old 0 (D.capacity dev.old) }
        requires image { (file : List ℕ) → D.content dev.old ≡ Some file → IsImageOf file self.old }
        ensures steps { MakesSteps D.Device self.old (host_steps self.old cluster) (stop_of result)
            self.new dev.old dev.new }
        ensures host { IfOk result (λ host. host ≡ next_host self.old cluster) }
        ensures ok { OnOk result (self.new ≡ with_host self.old cluster) }
        ensures same { HasSameEntries self.old self.new }
        ensures taken { StaysTaken self.old self.new }
        ensures spare { IfOk result
            (λ host. needs_host self.old cluster ≡ true → (file : List ℕ)
            → D.content dev.new ≡ Some file
            → IsSpare file (host / cluster_size_in self.old)) }
        ensures fresh { IfOk result
            (λ host. needs_host self.old cluster ≡ true → (file : List ℕ)
            → D.content dev.old ≡ Some file
            → refcount_of file (header_of file) (host / cluster_size_in self.old) ≡ 0) }
        ensures spare_stay { (old new : List ℕ) (n : ℕ) → D.content dev.old ≡ Some old
            → D.content dev.new ≡ Some new → IsSpare old n → IsSpare new n }
        ensures image { (file : List ℕ) → D.content dev.new ≡ Some file → IsImageOf file self.new }
        ensures disk { (old new : List ℕ) → D.content dev.old ≡ Some old
            → D.content dev.new ≡ Some new → IsSameDisk old new }
        ensures cause { IfErr result TellsFault }
        ensures told { is_some (D.content dev.new) ≡ is_some (D.content dev.old) }
        ensures faults { D.faults dev.old ≤ D.faults dev.new }
        ensures capacity { D.capacity dev.new ≡ D.capacity dev.old }
    {
        let idle = idle_host(self.tables.lookup(cluster));
        if idle != 0 {
            return Ok(idle);
        }
        self.take_cluster(dev)
    }

    /// Puts the bytes of a guest cluster, where there is room: takes the clusters that are needed, writes the data, and
    /// then the entry that makes them visible.
    pub(crate) fn put_into<D: Device>(
        &mut self,
        dev: &mut D,
        cluster: u64,
        bytes: &[u8],
    ) -> Result<(), DevStop>
        requires open { IsOpen self.old }
        requires below { cluster < length self.old.tables.words }
        requires whole { length bytes.now ≡ cluster_size_in self.old }
        requires fits { PutFits self.old cluster (D.capacity dev.old) }
        requires image { (file : List ℕ) → D.content dev.old ≡ Some file → IsImageOf file self.old }
        ensures steps { MakesSteps D.Device self.old (fill_steps self.old cluster bytes.now)
            (stop_of result) self.new dev.old dev.new }
        ensures mapped { OnOk result (IsHost (entry_in self.new cluster)) }
        ensures spelled { OnOk result (IsSpelled self.new cluster) }
        ensures single { OnOk result
            (needs_host self.old cluster ≡ true → is_single (word_in self.new cluster) ≡ true) }
        ensures unmapped { OnErr result (word_in self.new cluster ≡ word_in self.old cluster) }
        ensures others { HasEntriesBut self.old self.new cluster }
        ensures taken { StaysTaken self.old self.new }
        ensures header { self.new.header ≡ self.old.header }
        ensures image { (file : List ℕ) → D.content dev.new ≡ Some file → IsImageOf file self.new }
        ensures disk { OnOk result
            ((old new : List ℕ) → D.content dev.old ≡ Some old → D.content dev.new ≡ Some new
            → IsDiskWith old new (cluster * cluster_size_in self.old) bytes.now) }
        ensures kept { OnErr result
            ((old new : List ℕ) → D.content dev.old ≡ Some old → D.content dev.new ≡ Some new
            → IsSameDisk old new) }
        ensures cause { IfErr result TellsFault }
        ensures told { is_some (D.content dev.new) ≡ is_some (D.content dev.old) }
        ensures faults { D.faults dev.old ≤ D.faults dev.new }
        ensures capacity { D.capacity dev.new ≡ D.capacity dev.old }
    {
        let table = self.new_table(dev, cluster)?;
        let host = self.new_host(dev, cluster)?;
        self.write_payload(dev, host, bytes)?;
        self.map_cluster(dev, cluster, Mapping::Host { host }, table)
    }

    /// Makes a guest cluster read as zeros, where there is room. A host cluster that it has is kept.
    pub(crate) fn zero_into<D: Device>(&mut self, dev: &mut D, cluster: u64) -> Result<(), DevStop>
        requires open { IsOpen self.old }
        requires below { cluster < length self.old.tables.words }
        requires fits { ZeroFits self.old cluster (D.capacity dev.old) }
        requires image { (file : List ℕ) → D.content dev.old ≡ Some file → IsImageOf file self.old }
        ensures steps { MakesSteps D.Device self.old (clean_steps self.old cluster) (stop_of result)
            self.new dev.old dev.new }
        ensures mapped { OnOk result
            (entry_in self.new cluster ≡ Zero (host_of (entry_in self.old cluster))) }
        ensures spelled { OnOk result (IsSpelled self.new cluster) }
        ensures unmapped { OnErr result (word_in self.new cluster ≡ word_in self.old cluster) }
        ensures others { HasEntriesBut self.old self.new cluster }
        ensures taken { StaysTaken self.old self.new }
        ensures header { self.new.header ≡ self.old.header }
        ensures image { (file : List ℕ) → D.content dev.new ≡ Some file → IsImageOf file self.new }
        ensures disk { OnOk result
            ((old new zeros : List ℕ) → D.content dev.old ≡ Some old → D.content dev.new ≡ Some new
            → AreClusterZeros (cluster_size_in self.old) zeros
            → IsDiskWith old new (cluster * cluster_size_in self.old) zeros) }
        ensures kept { OnErr result
            ((old new : List ℕ) → D.content dev.old ≡ Some old → D.content dev.new ≡ Some new
            → IsSameDisk old new) }
        ensures cause { IfErr result TellsFault }
        ensures told { is_some (D.content dev.new) ≡ is_some (D.content dev.old) }
        ensures faults { D.faults dev.old ≤ D.faults dev.new }
        ensures capacity { D.capacity dev.new ≡ D.capacity dev.old }
    {
        let table = self.new_table(dev, cluster)?;
        let host = host_of(self.tables.lookup(cluster));
        self.map_cluster(dev, cluster, Mapping::Zero { host }, table)
    }
}
