//! Which clusters of a file an image names, found in one pass over its tables.

ghost use Rattle.std.specs.Prelude.{◌≡◌};
ghost use Rattle.q2_format.specs.Entry.{host_offset};
ghost use Rattle.q2_format.specs.References.{own_offset};
ghost use Rattle.q2_image.specs.Seen.{offset_in};

use blk_base::NoMemory;
use std::alloc::Global;
use std::marker::Model;

/// What the words of a table name.
#[derive(Clone, Copy, Debug, PartialEq, Eq)]
pub(crate) enum Naming {
    /// Refcount blocks: the refcount table.
    Block,
    /// L2 tables: the L1 table.
    Table,
    /// Host clusters: an L2 table.
    Own,
}

/// Which clusters were named so far, and the lowest that was named twice: their number where none was.
#[derive(Drop)]
pub(crate) struct Seen {
    named: Vec<bool>,
    twice: u64,
}

impl Model for Seen {
    ghost use Rattle.q2_image.specs.Seen.{Sightings};

    ghost Value = { Sightings };

    ghost view = { λ s. record { named = s.named.items; twice = s.twice } };
}

/// Bits 9 to 55 of a word.
fn host_offset(word: u64) -> u64
    ensures { result ≡ host_offset word }
{
    word / 512 % 0x8000_0000_0000 * 512
}

/// The offset that a word names, 0 for none.
fn offset_in(kind: Naming, word: u64) -> u64
    ensures { result ≡ offset_in kind word }
{
    match kind {
        Naming::Block => word / 512 * 512,
        Naming::Table => host_offset(word),
        Naming::Own => own_offset(word),
    }
}

/// The host offset of an L2 entry, 0 where its cluster is compressed.
fn own_offset(word: u64) -> u64
    ensures { result ≡ own_offset word }
{
    if word / 0x4000_0000_0000_0000 % 2 == 1 {
        0
    } else {
        host_offset(word)
    }
}

impl Seen {
    ghost use Rattle.std.specs.Prelude.{◌≡◌, ℕ, ◌+◌, ◌/◌, ◌^◌, ◌<◌, ◌≤◌, false, length, slice_index_or, IfOk};
    ghost use Rattle.q2_image.specs.Seen.{IsSeen, named_at, named_once, named_in_run, times_named, AreNamedBelow, twice_in};

    /// No cluster is named, of so many.
    pub(crate) fn new(alloc: Global, clusters: u64) -> Result<Self, NoMemory>
        ensures count { IfOk result (λ seen. length seen.named ≡ clusters) }
        ensures none { IfOk result (IsSeen (λ _. 0)) }
    {
        Ok(Seen {
            named: vec![in alloc; false; clusters as usize]?,
            twice: clusters,
        })
    }

    /// Names a cluster.
    pub(crate) fn mark(&mut self, cluster: u64)
        requires { cluster < length self.old.named }
        ensures count { length self.new.named ≡ length self.old.named }
        ensures seen { (uses : ℕ → ℕ) → IsSeen uses self.old
            → IsSeen (λ k. uses k + named_at cluster k) self.new }
    {
        let at = cluster as usize;
        if self.named[at] {
            self.twice = self.twice.min(cluster);
        }
        self.named[at] = true;
    }

    /// Names each cluster of a run.
    pub(crate) fn mark_run(&mut self, first: u64, count: u64)
        requires within { first + count ≤ length self.old.named }
        requires small { length self.old.named < 2 ^ 63 }
        ensures count { length self.new.named ≡ length self.old.named }
        ensures seen { (uses : ℕ → ℕ) → IsSeen uses self.old
            → IsSeen (λ k. uses k + named_in_run first count k) self.new }
    {
        for cluster in first..first + count {
            self.mark(cluster);
        }
    }

    /// Names the cluster at an offset, where that isn't 0.
    fn mark_offset(&mut self, cluster_size: u64, offset: u64)
        requires size { 0 < cluster_size }
        requires placed { offset / cluster_size < length self.old.named }
        ensures count { length self.new.named ≡ length self.old.named }
        ensures seen { (uses : ℕ → ℕ) → IsSeen uses self.old
            → IsSeen (λ k. uses k + named_once cluster_size offset k) self.new }
    {
        if offset != 0 {
            self.mark(offset / cluster_size);
        }
    }

    /// Names what the words of a table name, in clusters of so many bytes.
    pub(crate) fn mark_words(&mut self, cluster_size: u64, kind: Naming, words: &[u64])
        requires size { 0 < cluster_size }
        requires placed { AreNamedBelow cluster_size kind words.now (length self.old.named) }
        ensures count { length self.new.named ≡ length self.old.named }
        ensures seen { (uses : ℕ → ℕ) → IsSeen uses self.old
            → IsSeen (λ k. uses k + times_named cluster_size kind words.now k) self.new }
    {
        for word in words {
            self.mark_offset(cluster_size, offset_in(kind, *word));
        }
    }

    /// How many clusters there are.
    pub(crate) fn len(&self) -> u64
        ensures { result ≡ length self.now.named }
    {
        self.named.len() as u64
    }

    /// Whether a cluster was named.
    pub(crate) fn is_named(&self, cluster: u64) -> bool
        requires { cluster < length self.now.named }
        ensures { result ≡ slice_index_or self.now.named cluster false }
    {
        self.named[cluster as usize]
    }

    /// The lowest cluster that was named twice.
    pub(crate) fn twice(&self) -> Option<u64>
        ensures { result ≡ twice_in self.now }
    {
        if self.twice == self.named.len() as u64 {
            None
        } else {
            Some(self.twice)
        }
    }
}
