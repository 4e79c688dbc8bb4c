//! Refcounts in memory.
ghost use Rattle.std.specs.Prelude.{◌≡◌, ◌+◌, ◌<◌, ◌≤◌, ℕ, List, length, take, slice_index};
ghost use Rattle.q2_format.specs.declared.header.Header.{Header};
ghost use Rattle.q2_refs.specs.Kept.{per_block, AreTaken, IsCountsOf};
ghost use Rattle.q2_refs.specs.Free.{free_cluster, will_be_given};

use crate::entries::block_offset;
use std::marker::Model;

/// The refcount table of an image and the refcounts of its first clusters.
#[derive(Debug, Drop)]
pub struct Refs {
    pub(crate) cluster_bits: u32,
    pub(crate) refcount_order: u32,
    pub(crate) table_offset: u64,
    pub(crate) table: Vec<u64>,
    pub(crate) counts: Vec<u16>,
    /// No count below this one is 0.
    pub(crate) cursor: usize,
    /// A cluster's bytes, for a block that is written.
    pub(crate) buffer: Vec<u8>,
}

impl Model for Refs {
    ghost use Rattle.std.specs.Prelude.{length};
    ghost use Rattle.q2_refs.specs.Kept.{KeptRefs, IsReady};

    ghost Value = { KeptRefs };

    ghost view = { λ r. record {
      cluster_bits = r.cluster_bits;
      refcount_order = r.refcount_order;
      table_offset = r.table_offset;
      table = r.table.items;
      counts = r.counts.items;
    } };

    ghost invariant = { λ r. IsReady (record {
      cluster_bits = r.cluster_bits;
      refcount_order = r.refcount_order;
      table_offset = r.table_offset;
      table = r.table.items;
      counts = r.counts.items;
    }) r.cursor (length r.buffer.items) };
}

impl Refs {
    /// The refcount of a cluster below the reach.
    pub fn count_of(&self, cluster: u64) -> u64
        requires { cluster < length self.now.counts }
        ensures { result ≡ slice_index self.now.counts cluster }
    {
        u64::from(self.counts[cluster as usize])
    }

    /// How many clusters' refcounts are kept: those of the first ones.
    pub fn reach(&self) -> u64
        ensures { result ≡ length self.now.counts }
    {
        self.counts.len() as u64
    }

    /// The words of the refcount table.
    pub fn table(&self) -> &[u64]
        ensures { result.now ≡ self.now.table }
    {
        self.table.as_slice()
    }

    /// Keeps the refcounts of the first clusters alone, as many as `reach` says.
    pub fn keep_first(&mut self, reach: u64)
        requires { reach ≤ length self.old.counts }
        ensures kept { self.new ≡ record self.old { counts = take reach self.old.counts } }
        ensures counts { (file : List ℕ) (h : Header) → IsCountsOf file h self.old
            → IsCountsOf file h self.new }
    {
        self.counts.truncate(reach as usize);
        self.cursor = self.cursor.min(reach as usize);
    }

    /// The clusters that one refcount block counts.
    pub(crate) fn per_block(&self) -> usize
        ensures { result ≡ per_block self.now }
    {
        (8 << self.cluster_bits) >> self.refcount_order
    }

    /// Whether a cluster is among those that `allocate` will give.
    fn will_be_given(&self, cluster: usize) -> bool
        requires { cluster < length self.now.counts }
        ensures { result ≡ will_be_given self.now cluster }
    {
        let per_block = self.per_block();
        self.counts[cluster] == 0
            && (block_offset(self.table[cluster / per_block]) != 0 || cluster % per_block != 0)
    }

    /// The cluster that the `k`-th call of `allocate` from now would give, counted from 0, or the reach where
    /// that call would answer `HostLimit`.
    pub fn next_free(&self, k: u64) -> u64
        ensures cluster { result ≡ free_cluster self.now k }
        ensures within { result ≤ length self.now.counts }
    {
        let mut left = k;
        for cluster in self.cursor..self.counts.len() {
            if self.will_be_given(cluster) {
                if left == 0 {
                    return cluster as u64;
                }
                left -= 1;
            }
        }
        self.counts.len() as u64
    }
}

/// The first cluster from `from` on whose refcount is 0, or the number of counts where there is none.
pub(crate) fn first_free(counts: &[u16], from: usize) -> usize
    requires within { from ≤ length counts.now }
    requires taken { AreTaken counts.now from }
    ensures within { result ≤ length counts.now }
    ensures taken { AreTaken counts.now result }
    ensures free { result < length counts.now → slice_index counts.now result ≡ 0 }
{
    for cluster in from..counts.len() {
        if counts[cluster] == 0 {
            return cluster;
        }
    }
    counts.len()
}
