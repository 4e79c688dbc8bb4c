//! Whether there is room for a write: looked at before anything is written.

ghost use Rattle.std.specs.Prelude.{◌≡◌, ◌↔◌, ◌+◌, ◌*◌, ◌/◌, ◌<◌, ◌≤◌, ℕ, length, IsTrue, true, if◌then◌else◌};
ghost use Rattle.q2_image.specs.Image.{IsOpen, clusters_in, cluster_size_in, entry_in};
ghost use Rattle.q2_image.specs.Reading.{IsHost};
ghost use Rattle.q2_image.specs.Writing.{CanTake, ZeroFits, PutFits, needs_table, needs_host, taken_at, table_for, host_for, idle_host, own_place, own_end};

use crate::header::cluster_size;
use crate::image::Image;
use crate::writing::idle_host;
use blk_base::Span;
use q2_tables::Mapping;

/// Where the header's autoclear field ends.
const AUTOCLEAR_END: u64 = 96;

/// Whether `n` bytes from a place on end within a capacity.
fn ends_within(at: u64, n: u64, capacity: u64) -> bool
    ensures { IsTrue result ↔ (at + n ≤ capacity) }
{
    match at.checked_add(n) {
        Some(end) => end <= capacity,
        None => false,
    }
}

impl Image {
    /// Whether the `k`-th cluster from now is below the reach, and all that is written to take it ends within a capacity.
    fn can_take(&self, k: u64, capacity: u64) -> bool
        ensures { IsTrue result ↔ CanTake self.now k capacity }
    {
        let cluster = self.refs.next_free(k);
        cluster < self.refs.reach() && self.refs.allocation_fits(cluster, capacity)
    }

    /// Where the `k`-th cluster from now will be taken.
    fn taken_at(&self, k: u64) -> u64
        ensures { result ≡ taken_at self.now k }
    {
        self.refs.next_free(k) * cluster_size(&self.header)
    }

    /// Whether a guest cluster has no L2 table.
    fn needs_table(&self, cluster: u64) -> bool
        requires { cluster < length self.now.tables.words }
        ensures { result ≡ needs_table self.now cluster }
    {
        self.tables.table_of(cluster) == 0
    }

    /// Whether a put of a guest cluster takes a cluster for the data.
    fn needs_host(&self, cluster: u64) -> bool
        requires { cluster < length self.now.tables.words }
        ensures { result ≡ needs_host self.now cluster }
    {
        idle_host(self.tables.lookup(cluster)) == 0
    }

    /// Where the L2 table of a guest cluster will be put, 0 where it has one.
    fn table_for(&self, cluster: u64) -> u64
        requires { cluster < length self.now.tables.words }
        ensures { result ≡ table_for self.now cluster }
    {
        if self.needs_table(cluster) {
            self.taken_at(0)
        } else {
            0
        }
    }

    /// How many clusters are taken before one for the data is.
    fn taken_before_host(&self, cluster: u64) -> u64
        requires { cluster < length self.now.tables.words }
        ensures { result ≡ (if needs_table self.now cluster then 1 else 0) }
    {
        u64::from(self.needs_table(cluster))
    }

    /// Where the data of a guest cluster will be put.
    fn host_for(&self, cluster: u64) -> u64
        requires { cluster < length self.now.tables.words }
        ensures { result ≡ host_for self.now cluster }
    {
        if self.needs_host(cluster) {
            self.taken_at(self.taken_before_host(cluster))
        } else {
            idle_host(self.tables.lookup(cluster))
        }
    }

    /// Whether a cluster for an L2 table can be taken where one is needed.
    fn table_fits(&self, cluster: u64, capacity: u64) -> bool
        requires { cluster < length self.now.tables.words }
        ensures { IsTrue result ↔
            (needs_table self.now cluster ≡ true → CanTake self.now 0 capacity) }
    {
        !self.needs_table(cluster) || self.can_take(0, capacity)
    }

    /// Whether a cluster for the data can be taken where one is needed.
    fn host_fits(&self, cluster: u64, capacity: u64) -> bool
        requires { cluster < length self.now.tables.words }
        ensures { IsTrue result ↔
            (needs_host self.now cluster ≡ true
            → CanTake self.now (if needs_table self.now cluster then 1 else 0) capacity) }
    {
        !self.needs_host(cluster) || self.can_take(self.taken_before_host(cluster), capacity)
    }

    /// Whether there is room to make a guest cluster read as zeros: whether `zero_cluster` would not answer `NoSpace`
    /// on a device of this capacity. Nothing is read.
    pub fn zero_fits(&self, cluster: u64, capacity: u64) -> bool
        requires { cluster < clusters_in self.now }
        ensures fits { IsTrue result ↔ ZeroFits self.now cluster capacity }
        ensures open { IsOpen self.now }
        ensures below { cluster < length self.now.tables.words }
    {
        if self.header.autoclear != 0 && capacity < AUTOCLEAR_END {
            return false;
        }
        if !self.table_fits(cluster, capacity) {
            return false;
        }
        self.tables
            .link_fits(cluster, self.table_for(cluster), capacity)
    }

    /// Whether there is room to put the data of a guest cluster: whether `put_cluster` would not answer `NoSpace`.
    pub fn put_fits(&self, cluster: u64, capacity: u64) -> bool
        requires { cluster < clusters_in self.now }
        ensures fits { IsTrue result ↔ PutFits self.now cluster capacity }
        ensures open { IsOpen self.now }
        ensures below { cluster < length self.now.tables.words }
    {
        if !self.zero_fits(cluster, capacity) || !self.host_fits(cluster, capacity) {
            return false;
        }
        ends_within(self.host_for(cluster), cluster_size(&self.header), capacity)
    }

    /// Whether there is room to write a part of a mapped cluster in place: whether `write_own` would not answer
    /// `NoSpace`.
    pub fn own_fits(&self, span: Span, capacity: u64) -> bool
        requires disk { span.start / cluster_size_in self.now < clusters_in self.now }
        requires mapped { IsHost (entry_in self.now (span.start / cluster_size_in self.now)) }
        ensures fits { IsTrue result ↔ (own_end self.now span ≤ capacity) }
        ensures open { IsOpen self.now }
    {
        if self.header.autoclear != 0 && capacity < AUTOCLEAR_END {
            return false;
        }
        ends_within(self.own_place(span), span.len, capacity)
    }

    /// Where a part of a mapped cluster begins in the file.
    pub(crate) fn own_place(&self, span: Span) -> u64
        requires disk { span.start / cluster_size_in self.now < clusters_in self.now }
        requires mapped { IsHost (entry_in self.now (span.start / cluster_size_in self.now)) }
        ensures { result ≡ own_place self.now span }
    {
        let cluster_size = cluster_size(&self.header);
        let Mapping::Host { host } = self.tables.lookup(span.start / cluster_size) else {
            unreachable!()
        };
        host + span.start % cluster_size
    }
}
