//! Taking clusters that nothing uses.
ghost use Rattle.std.specs.Prelude.{◌≡◌, ◌≢◌, ◌↔◌, ◌⊎◌, ◌+◌, ◌*◌, ◌/◌, ◌%◌, ◌<◌, ◌≤◌, ℕ, true, List, [], ◌∷◌, length, slice_index, Some, is_some, IsTrue, Err, IfOk, IfErr, OnOk, OnErr};
ghost use Rattle.q2_format.specs.Entry.{block_offset};
ghost use Rattle.q2_format.specs.Header.{header_of};
ghost use Rattle.q2_format.specs.References.{uses};
ghost use Rattle.q2_format.specs.Sizes.{cluster_size};
ghost use Rattle.q2_format.specs.Tables.{refcount_of};
ghost use Rattle.q2_format.specs.declared.header.TheConstants.{MAX_FILE_CLUSTERS};
ghost use Rattle.q2_refs.specs.Free.{free_cluster, free_clusters, will_be_given};
ghost use Rattle.q2_refs.specs.Kept.{per_block};

use crate::entries::block_offset;
use crate::refs::{Refs, first_free};
use crate::writing::{count_bytes, make_block, write_block};
use blk_base::{DevStop, Device, write};

/// Why no cluster was given.
#[derive(Clone, Copy, Debug, PartialEq, Eq)]
pub enum RefStop {
    /// A call of the device failed, or a write would have ended above its capacity.
    Dev(DevStop),
    /// The cluster that would be given isn't below the reach. Nothing was written.
    HostLimit,
}

impl From<DevStop> for RefStop {
    ghost use Rattle.std.specs.Prelude.{◌≡◌};
    ghost use Rattle.q2_refs.specs.declared.allocating.RefStop.TheVariants.{Dev};

    ghost from_gives = { λ dev stop. stop ≡ Dev dev };

    fn from(stop: DevStop) -> Self {
        RefStop::Dev(stop)
    }
}

/// Whether `n` bytes from a place on end within a capacity.
fn ends_within(at: u64, n: u64, capacity: u64) -> bool
    ensures { IsTrue result ↔ (at + n ≤ capacity) }
{
    match at.checked_add(n) {
        Some(end) => end <= capacity,
        None => false,
    }
}

impl Refs {
    ghost use Rattle.blk_base.specs.Device.{AtEachStopOf, Writes, stop_of};
    ghost use Rattle.q2_refs.specs.Allocating.{Allocates, IsAlike, IsInStep, KeepsCounted, KeepsSound, StopsAllocating, allocation_writes, block_writes, block_writes_for, count_place, count_write, end_of_allocation, place_of_block, with_block, with_block_for, with_one, writes_of_answer};

    /// Where the refcount of a cluster is, whose block is there.
    fn count_place(&self, cluster: usize) -> u64
        requires { cluster < length self.now.counts }
        ensures place { result ≡ count_place self.now cluster }
        ensures sector { result % 512 + 2 ≤ 512 }
    {
        let per_block = self.per_block();
        block_offset(self.table[cluster / per_block]) + (cluster % per_block) as u64 * 2
    }

    /// Writes that a cluster counts one, whose block is there.
    #[tactic(auto, unfolding(crate::specs::Allocating::count_write))]
    fn count_one<D: Device>(&mut self, dev: &mut D, cluster: usize) -> Result<(), DevStop>
        requires { cluster < length self.old.counts }
        ensures ok { OnOk result (self.new ≡ with_one self.old cluster) }
        ensures err { OnErr result (self.new ≡ self.old) }
        ensures writes { Writes D.Device (count_write self.old cluster ∷ []) (stop_of result)
            dev.old dev.new }
    {
        let at = self.count_place(cluster);
        write(dev, at, &count_bytes(1))?;
        self.counts[cluster] = 1;
        Ok(())
    }

    /// The offset of the cluster that block `i` is put into.
    fn block_place(&self, i: usize) -> u64
        requires { place_of_block self.now i < length self.now.counts }
        ensures { result ≡ place_of_block self.now i * cluster_size self.now.cluster_bits }
    {
        let cluster_bits = self.cluster_bits;
        ((i * self.per_block()) as u64) << cluster_bits
    }

    /// Where entry `i` of the refcount table is.
    fn entry_place(&self, i: usize) -> u64
        requires { i < length self.now.table }
        ensures place { result ≡ self.now.table_offset + 8 * i }
        ensures sector { result % 512 + 8 ≤ 512 }
    {
        self.table_offset + 8 * i as u64
    }

    /// Keeps that block `i` is in its place.
    fn put_block(&mut self, i: usize)
        requires entry { i < length self.old.table }
        requires place { place_of_block self.old i < length self.old.counts }
        ensures { self.new ≡ with_block self.old i }
    {
        let cluster = i * self.per_block();
        let offset = self.block_place(i);
        self.table[i] = offset;
        self.counts[cluster] = 1;
    }

    /// Puts block `i` into the first cluster of its range: first its bytes, in which that cluster counts one,
    /// and then its entry in the table, which makes it visible.
    fn place_block<D: Device>(&mut self, dev: &mut D, i: usize) -> Result<(), DevStop>
        requires entry { i < length self.old.table }
        requires place { place_of_block self.old i < length self.old.counts }
        ensures ok { OnOk result (self.new ≡ with_block self.old i) }
        ensures err { OnErr result (self.new ≡ self.old) }
        ensures writes { Writes D.Device (block_writes self.old i) (stop_of result) dev.old
            dev.new }
    {
        let offset = self.block_place(i);
        let entry = self.entry_place(i);
        make_block(self.buffer.as_mut_slice());
        write_block(dev, offset, entry, self.buffer.as_slice())?;
        self.put_block(i);
        Ok(())
    }

    /// Whether all that `allocate` writes ends within a capacity, where it gives this cluster.
    #[tactic(auto, using(crate::proofs::Ends::end_of_kept))]
    pub fn allocation_fits(&self, cluster: u64, capacity: u64) -> bool
        requires cluster { cluster < length self.now.counts }
        requires few { length self.now.counts ≤ MAX_FILE_CLUSTERS }
        ensures { IsTrue result ↔ (end_of_allocation self.now cluster ≤ capacity) }
    {
        let cluster_size = 1 << self.cluster_bits;
        let cluster = cluster as usize;
        let i = cluster / self.per_block();
        if block_offset(self.table[i]) == 0 {
            // The refcount is in the block.
            let block_end = self.block_place(i) + cluster_size;
            block_end.max(self.entry_place(i) + 8) <= capacity
        } else {
            ends_within(self.count_place(cluster), 2, capacity)
        }
    }

    /// Moves the cursor up to the first cluster whose refcount is 0.
    fn skip_taken(&mut self)
        ensures { self.new ≡ self.old }
    {
        self.cursor = first_free(self.counts.as_slice(), self.cursor);
    }

    /// Puts the block of a cluster where it is absent.
    fn ensure_block<D: Device>(&mut self, dev: &mut D, cluster: usize) -> Result<(), DevStop>
        requires { cluster < length self.old.counts }
        ensures ok { OnOk result (self.new ≡ with_block_for self.old cluster) }
        ensures err { OnErr result (self.new ≡ self.old) }
        ensures writes { Writes D.Device (block_writes_for self.old cluster) (stop_of result)
            dev.old dev.new }
    {
        let i = cluster / self.per_block();
        if block_offset(self.table[i]) != 0 {
            return Ok(());
        }
        self.place_block(dev, i)
    }

    /// Takes a cluster: puts its block where that is absent, and counts it once.
    fn take<D: Device>(&mut self, dev: &mut D, cluster: usize) -> Result<(), DevStop>
        requires { cluster < length self.old.counts }
        ensures ok { OnOk result (self.new ≡ with_one (with_block_for self.old cluster) cluster) }
        ensures writes { OnOk result
            (Writes D.Device (allocation_writes self.old cluster) None dev.old dev.new) }
        ensures left { IfErr result
            (λ stop. StopsAllocating D.Device self.old cluster stop self.new dev.old dev.new) }
    {
        self.ensure_block(dev, cluster)?;
        self.count_one(dev, cluster)
    }

    /// Gives the lowest cluster whose refcount is 0, after a new refcount block was put where one is needed, and
    /// counts it once. It is below the reach, and nothing uses it. Up to three writes are made, in this order:
    /// a new block, which lies in the first cluster that it counts; its entry of 8 bytes in the refcount
    /// table; a refcount of 2 bytes.
    ///
    /// It needs a file that is sound, and whose refcounts are the kept ones; so the file is after every answer,
    /// and its header, its tables and all that is counted in it stay. The file is also sound, and what counted stays,
    /// wherever these writes are cut off. After `HostLimit` nothing was written. After a refusal by the device the
    /// next call gives the same cluster.
    pub fn allocate<D: Device>(&mut self, dev: &mut D) -> Result<u64, RefStop>
        requires few { length self.old.counts ≤ MAX_FILE_CLUSTERS }
        requires step { (file : List ℕ) → D.content dev.old ≡ Some file → IsInStep file self.old }

        // what is given
        ensures given { IfOk result
            (λ cluster. free_clusters self.old ≡ cluster ∷ free_clusters self.new) }
        ensures below { IfOk result (λ cluster. cluster < length self.old.counts) }
        ensures unused { IfOk result
            (λ cluster. (file : List ℕ) → D.content dev.old ≡ Some file
            → uses file (header_of file) cluster ≡ 0) }
        ensures unused_still { IfOk result
            (λ cluster. (file : List ℕ) → D.content dev.new ≡ Some file
            → uses file (header_of file) cluster ≡ 0) }
        ensures counted { IfOk result
            (λ cluster. (file : List ℕ) → D.content dev.new ≡ Some file
            → refcount_of file (header_of file) cluster ≡ 1) }

        // when none is
        ensures full { (result ≡ Err RefStop.HostLimit) ↔ (free_clusters self.old ≡ []) }
        ensures again { OnErr result (free_clusters self.new ≡ free_clusters self.old) }

        // the device
        ensures leaves { Allocates D.Device self.old result self.new dev.old dev.new }
        ensures stops { AtEachStopOf D.Device KeepsSound (writes_of_answer self.old result)
            dev.old }

        // the file
        ensures step { (file : List ℕ) → D.content dev.new ≡ Some file → IsInStep file self.new }
        ensures keeps { (old new : List ℕ) → D.content dev.old ≡ Some old
            → D.content dev.new ≡ Some new → KeepsCounted old new (header_of old) }
        ensures alike { IsAlike self.old self.new }
    {
        self.skip_taken();
        let cluster = self.next_free(0) as usize;
        if cluster == self.counts.len() {
            return Err(RefStop::HostLimit);
        }
        self.take(dev, cluster)?;
        Ok(cluster as u64)
    }
}
