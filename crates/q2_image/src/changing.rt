//! The calls that change an image: each looks first whether there is room for all that it writes.

ghost use Rattle.std.specs.Prelude.{◌≡◌, ◌↔◌, ◌⊎◌, ◌+◌, ◌*◌, ◌/◌, ◌%◌, ◌<◌, ◌≤◌, max, ℕ, Bool, true, List, length, Option, Some, is_some, Err, IfErr, OnOk, OnErr};
ghost use Rattle.blk_base.specs.Counts.{taken};
ghost use Rattle.blk_base.specs.declared.device.Stop.TheVariants as why;
ghost use Rattle.blk_base.specs.declared.fault.DevStop.TheVariants.{NoSpace};
ghost use Rattle.q2_format.specs.Entry.{host_of, is_single};
ghost use Rattle.q2_format.specs.declared.entries.L2Entry.TheVariants.{Zero, Host};
ghost use Rattle.q2_image.specs.BackingName.{KeepsHeader};
ghost use Rattle.q2_image.specs.Image.{IsImageOf, IsOpen, clusters_in, cluster_size_in, word_in, entry_in};
ghost use Rattle.q2_image.specs.Reading.{IsHost, IsWithinCluster};
ghost use Rattle.blk_base.specs.Device.{AtEachStopOf, CountsFault, Untouched, stop_of};
ghost use Rattle.q2_image.specs.Made.{ChangesImage, IsOldOrWith, MakesSteps, put_steps, put_writes, zero_steps, zero_writes, own_writes, stopped_after, WroteOwn, UnlessFull, IsOwnPart};
ghost use Rattle.q2_image.specs.Writing.{Flushes, IsDiskWith, IsSameDisk, HasEntriesBut, StaysTaken, IsSpelled, AreClusterZeros, PutFits, ZeroFits, needs_host, TellsFault, count_of, IsOwnStop, IsFailedOwn, own_place, own_end, autoclear_end, autocleared, ClearsFirst, HasHeaderOf};

use crate::image::Image;
use blk_base::{DevStop, Device, Span, Stop, WriteStop};

impl Image {
    /// Makes a guest cluster Host with these bytes, the whole cluster's. What it takes and writes comes in this order:
    /// the autoclear field, where that isn't 0; clusters that nothing names, for an L2 table where the guest cluster has none and for the data; the data; and the
    /// entry, which alone makes them visible. Behind an entry that reads as zeros and has a host cluster the data go
    /// there. A cluster that was mapped before gets another host cluster, and the old one is left, counted and unused.
    /// Bit 63 of the entry is set exactly where the refcount of its host cluster is one, as that of a taken one is.
    ///
    /// `NoSpace` comes exactly where a write would end above the capacity, or a cluster that is needed isn't below the
    /// reach. After each refusal the image is sound and no byte of its disk has changed; clusters that were taken stay
    /// counted. No memory is taken.
    pub fn put_cluster<D: Device>(
        &mut self,
        dev: &mut D,
        cluster: u64,
        bytes: &[u8],
    ) -> Result<(), DevStop>
        requires cluster { cluster < clusters_in self.old }
        requires whole { length bytes.now ≡ cluster_size_in self.old }
        requires image { (file : List ℕ) → D.content dev.old ≡ Some file → IsImageOf file self.old }

        // the image
        ensures changes { ChangesImage D.Device self.old (put_steps self.old cluster bytes.now)
            result self.new dev.old dev.new }
        ensures stops { PutFits self.old cluster (D.capacity dev.old)
            → AtEachStopOf D.Device (IsOldOrWith (cluster * cluster_size_in self.old) bytes.now)
            (put_writes self.old cluster bytes.now) dev.old }
        ensures header_kept { PutFits self.old cluster (D.capacity dev.old)
            → AtEachStopOf D.Device KeepsHeader (put_writes self.old cluster bytes.now) dev.old }
        ensures mapped { OnOk result (IsHost (entry_in self.new cluster)) }
        ensures spelled { OnOk result (IsSpelled self.new cluster) }
        ensures single { OnOk result
            (needs_host self.old cluster ≡ true → is_single (word_in self.new cluster) ≡ true) }
        ensures unmapped { OnErr result (word_in self.new cluster ≡ word_in self.old cluster) }
        ensures others { HasEntriesBut self.old self.new cluster }
        ensures taken { StaysTaken self.old self.new }
        ensures header { HasHeaderOf self.old self.new }
        ensures cleared { ClearsFirst (D.content dev.old) (D.content dev.new) self.new }
        ensures image { (file : List ℕ) → D.content dev.new ≡ Some file → IsImageOf file self.new }
        ensures disk { OnOk result
            ((old new : List ℕ) → D.content dev.old ≡ Some old → D.content dev.new ≡ Some new
            → IsDiskWith old new (cluster * cluster_size_in self.old) bytes.now) }
        ensures kept { OnErr result
            ((old new : List ℕ) → D.content dev.old ≡ Some old → D.content dev.new ≡ Some new
            → IsSameDisk old new) }

        // why each answer comes
        ensures no_space { (result ≡ Err NoSpace) ↔
            (PutFits self.old cluster (D.capacity dev.old) → ⊥) }
        ensures cause { CountsFault (count_of result) (D.faults dev.old) (D.faults dev.new) }

        // the device
        ensures told { is_some (D.content dev.new) ≡ is_some (D.content dev.old) }
        ensures faults { D.faults dev.old ≤ D.faults dev.new }
        ensures capacity { D.capacity dev.new ≡ D.capacity dev.old }
    {
        if !self.put_fits(cluster, dev.capacity()) {
            return Err(DevStop::NoSpace);
        }
        self.put_cleared(dev, cluster, bytes)
    }

    /// Makes a guest cluster Zero, with the host cluster that it had: behind a cleared autoclear field one L2 entry is
    /// written, in a new L2 table where there is none. Answers as `put_cluster` does.
    pub fn zero_cluster<D: Device>(&mut self, dev: &mut D, cluster: u64) -> Result<(), DevStop>
        requires cluster { cluster < clusters_in self.old }
        requires image { (file : List ℕ) → D.content dev.old ≡ Some file → IsImageOf file self.old }

        // the image
        ensures changes { ChangesImage D.Device self.old (zero_steps self.old cluster) result
            self.new dev.old dev.new }
        ensures stops { ZeroFits self.old cluster (D.capacity dev.old) → (zeros : List ℕ)
            → AreClusterZeros (cluster_size_in self.old) zeros
            → AtEachStopOf D.Device (IsOldOrWith (cluster * cluster_size_in self.old) zeros)
            (zero_writes self.old cluster) dev.old }
        ensures header_kept { ZeroFits self.old cluster (D.capacity dev.old)
            → AtEachStopOf D.Device KeepsHeader (zero_writes self.old cluster) dev.old }
        ensures mapped { OnOk result
            (entry_in self.new cluster ≡ Zero (host_of (entry_in self.old cluster))) }
        ensures spelled { OnOk result (IsSpelled self.new cluster) }
        ensures unmapped { OnErr result (word_in self.new cluster ≡ word_in self.old cluster) }
        ensures others { HasEntriesBut self.old self.new cluster }
        ensures taken { StaysTaken self.old self.new }
        ensures header { HasHeaderOf self.old self.new }
        ensures cleared { ClearsFirst (D.content dev.old) (D.content dev.new) self.new }
        ensures image { (file : List ℕ) → D.content dev.new ≡ Some file → IsImageOf file self.new }
        ensures disk { OnOk result
            ((old new zeros : List ℕ) → D.content dev.old ≡ Some old → D.content dev.new ≡ Some new
            → AreClusterZeros (cluster_size_in self.old) zeros
            → IsDiskWith old new (cluster * cluster_size_in self.old) zeros) }
        ensures kept { OnErr result
            ((old new : List ℕ) → D.content dev.old ≡ Some old → D.content dev.new ≡ Some new
            → IsSameDisk old new) }

        // why each answer comes
        ensures no_space { (result ≡ Err NoSpace) ↔
            (ZeroFits self.old cluster (D.capacity dev.old) → ⊥) }
        ensures cause { CountsFault (count_of result) (D.faults dev.old) (D.faults dev.new) }

        // the device
        ensures told { is_some (D.content dev.new) ≡ is_some (D.content dev.old) }
        ensures faults { D.faults dev.old ≤ D.faults dev.new }
        ensures capacity { D.capacity dev.new ≡ D.capacity dev.old }
    {
        if !self.zero_fits(cluster, dev.capacity()) {
            return Err(DevStop::NoSpace);
        }
        self.zero_cleared(dev, cluster)
    }

    /// Writes a part of one mapped cluster in place, behind a cleared autoclear field. After a failed write its first
    /// `done` bytes are written.
    pub fn write_own<D: Device>(
        &mut self,
        dev: &mut D,
        span: Span,
        bytes: &[u8],
    ) -> Result<(), WriteStop>
        requires cluster { IsWithinCluster (cluster_size_in self.old) span }
        requires disk { span.start / cluster_size_in self.old < clusters_in self.old }
        requires mapped { IsHost (entry_in self.old (span.start / cluster_size_in self.old)) }
        requires whole { length bytes.now ≡ span.len }
        requires image { (file : List ℕ) → D.content dev.old ≡ Some file → IsImageOf file self.old }

        // the image
        ensures known { (self.new ≡ self.old) ⊎ (self.new ≡ autocleared self.old) }
        ensures taken { StaysTaken self.old self.new }
        ensures cleared { ClearsFirst (D.content dev.old) (D.content dev.new) self.new }
        ensures image { (file : List ℕ) → D.content dev.new ≡ Some file → IsImageOf file self.new }
        ensures disk { (old new : List ℕ) → D.content dev.old ≡ Some old
            → D.content dev.new ≡ Some new
            → IsDiskWith old new span.start (taken result bytes.now) }
        ensures stops { AtEachStopOf D.Device (IsOwnPart span.start bytes.now)
            (own_writes self.old span bytes.now) dev.old }
        ensures header_kept { AtEachStopOf D.Device KeepsHeader (own_writes self.old span bytes.now)
            dev.old }

        // why each answer comes
        ensures fits { OnOk result (own_end self.old span ≤ D.capacity dev.old) }
        ensures stop { IfErr result
            (IsOwnStop (own_place self.old span) (own_end self.old span) (D.capacity dev.old)
            (length bytes.now) (D.faults dev.old) (D.faults dev.new)) }
        ensures quiet { OnOk result (D.faults dev.new ≡ D.faults dev.old) }
        ensures untouched { IfErr result
            (λ stop. stop.why ≡ why.NoSpace → (self.new ≡ self.old)
            × Untouched D.Device dev.old dev.new) }

        // the device
        ensures wrote { UnlessFull result
            (WroteOwn D.Device self.old self.new span bytes.now (stopped_after result) dev.old
            dev.new) }
        ensures told { is_some (D.content dev.new) ≡ is_some (D.content dev.old) }
        ensures faults { D.faults dev.old ≤ D.faults dev.new }
        ensures capacity { D.capacity dev.new ≡ D.capacity dev.old }
    {
        if !self.own_fits(span, dev.capacity()) {
            return Err(WriteStop {
                done: 0,
                why: Stop::NoSpace,
            });
        }
        let place = self.own_place(span);
        self.write_cleared(dev, span, place, bytes)
    }

    /// Flushes the device. Behind `Ok` it is flushed, where it tells that at all; a failed flush leaves all as it was but
    /// the count of faults, and which call failed last.
    pub fn flush<D: Device>(&mut self, dev: &mut D) -> Result<(), DevStop>
        ensures known { self.new ≡ self.old }
        ensures cause { IfErr result TellsFault }
        ensures device { Flushes D.Device result dev.old dev.new }
    {
        match dev.flush() {
            Ok(()) => Ok(()),
            Err(_) => Err(DevStop::Io {
                count: dev.faults(),
            }),
        }
    }

    /// Puts the bytes of a guest cluster, where there is room, behind a cleared autoclear field.
    fn put_cleared<D: Device>(
        &mut self,
        dev: &mut D,
        cluster: u64,
        bytes: &[u8],
    ) -> Result<(), DevStop>
        requires open { IsOpen self.old }
        requires below { cluster < length self.old.tables.words }
        requires whole { length bytes.now ≡ cluster_size_in self.old }
        requires fits { PutFits self.old cluster (D.capacity dev.old) }
        requires image { (file : List ℕ) → D.content dev.old ≡ Some file → IsImageOf file self.old }
        ensures steps { MakesSteps D.Device self.old (put_steps self.old cluster bytes.now)
            (stop_of result) self.new dev.old dev.new }
        ensures mapped { OnOk result (IsHost (entry_in self.new cluster)) }
        ensures spelled { OnOk result (IsSpelled self.new cluster) }
        ensures single { OnOk result
            (needs_host self.old cluster ≡ true → is_single (word_in self.new cluster) ≡ true) }
        ensures unmapped { OnErr result (word_in self.new cluster ≡ word_in self.old cluster) }
        ensures others { HasEntriesBut self.old self.new cluster }
        ensures taken { StaysTaken self.old self.new }
        ensures header { HasHeaderOf self.old self.new }
        ensures cleared { ClearsFirst (D.content dev.old) (D.content dev.new) self.new }
        ensures image { (file : List ℕ) → D.content dev.new ≡ Some file → IsImageOf file self.new }
        ensures disk { OnOk result
            ((old new : List ℕ) → D.content dev.old ≡ Some old → D.content dev.new ≡ Some new
            → IsDiskWith old new (cluster * cluster_size_in self.old) bytes.now) }
        ensures kept { OnErr result
            ((old new : List ℕ) → D.content dev.old ≡ Some old → D.content dev.new ≡ Some new
            → IsSameDisk old new) }
        ensures cause { IfErr result TellsFault }
        ensures told { is_some (D.content dev.new) ≡ is_some (D.content dev.old) }
        ensures faults { D.faults dev.old ≤ D.faults dev.new }
        ensures capacity { D.capacity dev.new ≡ D.capacity dev.old }
    {
        self.clear_autoclear(dev)?;
        self.put_into(dev, cluster, bytes)
    }

    /// Makes a guest cluster read as zeros, where there is room, behind a cleared autoclear field.
    fn zero_cleared<D: Device>(&mut self, dev: &mut D, cluster: u64) -> Result<(), DevStop>
        requires open { IsOpen self.old }
        requires below { cluster < length self.old.tables.words }
        requires fits { ZeroFits self.old cluster (D.capacity dev.old) }
        requires image { (file : List ℕ) → D.content dev.old ≡ Some file → IsImageOf file self.old }
        ensures steps { MakesSteps D.Device self.old (zero_steps self.old cluster) (stop_of result)
            self.new dev.old dev.new }
        ensures mapped { OnOk result
            (entry_in self.new cluster ≡ Zero (host_of (entry_in self.old cluster))) }
        ensures spelled { OnOk result (IsSpelled self.new cluster) }
        ensures unmapped { OnErr result (word_in self.new cluster ≡ word_in self.old cluster) }
        ensures others { HasEntriesBut self.old self.new cluster }
        ensures taken { StaysTaken self.old self.new }
        ensures header { HasHeaderOf self.old self.new }
        ensures cleared { ClearsFirst (D.content dev.old) (D.content dev.new) self.new }
        ensures image { (file : List ℕ) → D.content dev.new ≡ Some file → IsImageOf file self.new }
        ensures disk { OnOk result
            ((old new zeros : List ℕ) → D.content dev.old ≡ Some old → D.content dev.new ≡ Some new
            → AreClusterZeros (cluster_size_in self.old) zeros
            → IsDiskWith old new (cluster * cluster_size_in self.old) zeros) }
        ensures kept { OnErr result
            ((old new : List ℕ) → D.content dev.old ≡ Some old → D.content dev.new ≡ Some new
            → IsSameDisk old new) }
        ensures cause { IfErr result TellsFault }
        ensures told { is_some (D.content dev.new) ≡ is_some (D.content dev.old) }
        ensures faults { D.faults dev.old ≤ D.faults dev.new }
        ensures capacity { D.capacity dev.new ≡ D.capacity dev.old }
    {
        self.clear_autoclear(dev)?;
        self.zero_into(dev, cluster)
    }

    /// Writes in place, where there is room, behind a cleared autoclear field.
    fn write_cleared<D: Device>(
        &mut self,
        dev: &mut D,
        span: Span,
        place: u64,
        bytes: &[u8],
    ) -> Result<(), WriteStop>
        requires open { IsOpen self.old }
        requires below { span.start / cluster_size_in self.old < length self.old.tables.words }
        requires mapped { (host : ℕ)
            × (entry_in self.old (span.start / cluster_size_in self.old) ≡ Host host)
            × (place ≡ host + span.start % cluster_size_in self.old) }
        requires cluster { span.start % cluster_size_in self.old + length bytes.now
            ≤ cluster_size_in self.old }
        requires header_fits { autoclear_end self.old ≤ D.capacity dev.old }
        requires fits { place + length bytes.now ≤ D.capacity dev.old }
        requires place { place ≡ own_place self.old span }
        requires whole { length bytes.now ≡ span.len }
        requires image { (file : List ℕ) → D.content dev.old ≡ Some file → IsImageOf file self.old }
        ensures known { (self.new ≡ self.old) ⊎ (self.new ≡ autocleared self.old) }
        ensures cleared { ClearsFirst (D.content dev.old) (D.content dev.new) self.new }
        ensures image { (file : List ℕ) → D.content dev.new ≡ Some file → IsImageOf file self.new }
        ensures disk { (old new : List ℕ) → D.content dev.old ≡ Some old
            → D.content dev.new ≡ Some new
            → IsDiskWith old new span.start (taken result bytes.now) }
        ensures wrote { WroteOwn D.Device self.old self.new span bytes.now (stopped_after result)
            dev.old dev.new }
        ensures stop { IfErr result
            (IsFailedOwn place (length bytes.now) (D.faults dev.old) (D.faults dev.new)) }
        ensures quiet { OnOk result (D.faults dev.new ≡ D.faults dev.old) }
        ensures told { is_some (D.content dev.new) ≡ is_some (D.content dev.old) }
        ensures faults { D.faults dev.old ≤ D.faults dev.new }
        ensures capacity { D.capacity dev.new ≡ D.capacity dev.old }
    {
        match self.clear_autoclear(dev) {
            Ok(()) => dev.write_at(place, bytes),
            Err(_) => Err(WriteStop {
                done: 0,
                why: Stop::Failed,
            }),
        }
    }
}
