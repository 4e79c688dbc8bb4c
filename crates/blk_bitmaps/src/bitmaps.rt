//! The table and its calls.
ghost use Rattle.std.specs.Prelude.{◌≡◌, ◌<◌, ◌==◌, [], ◌∷◌, ◌++◌, filter, vec_capacity, IfOk, IfSome, IsOk, IfErr, OnOk, OnErr, Err, MatchOption, option_copied, length, nat_le, not, Some, None, if◌then◌else◌, is_some};
ghost use Rattle.blk_bitmaps.specs.Rows.{added, is_named, granule_count, IsCountable, IsSpareOf};
ghost use Rattle.blk_bitmaps.specs.Refusals.{find, add_refusal, use_refusal, merge_refusal};
ghost use Rattle.blk_bitmaps.specs.Calls.{rows_after_call, with_source, Add, Remove, RemoveAll, Enable, Disable, Clear, Merge, NoteWrite, NoteAll, Freeze, Release};

use crate::find::{find, free_place};
use crate::granularity::Granularity;
use crate::row::Bitmap;
use crate::sources::Sources;
use crate::stop::BitmapStop;
use crate::{change, merge};
use blk_base::{NoMemory, Span, Text};
use blk_bits::DirtySet;
use blk_graph::NodeId;
use std::alloc::Global;
use std::marker::Model;

/// The most bitmaps at a time.
pub const MOST_BITMAPS: usize = 64;

/// The bitmaps of all nodes, in the order in which they were added. Each call that changes it has in its contract what
/// it makes of the rows, and when it refuses; a refusal leaves all as it was.
#[derive(Debug, Drop)]
pub struct Bitmaps {
    rows: Vec<Bitmap>,
    alloc: Global,
}

impl Model for Bitmaps {
    ghost use Rattle.std.specs.Prelude.{List, ◌≤◌, vec_capacity};
    ghost use Rattle.blk_bitmaps.specs.declared.row.Bitmap.{Bitmap};

    ghost Value = { List Bitmap };

    ghost view = { λ bitmaps. bitmaps.rows.items };

    // as many rows as may be, whose room is taken at the beginning
    ghost invariant = { λ bitmaps. 64 ≤ vec_capacity bitmaps.rows };
}

impl Bitmaps {
    /// No bitmap.
    pub fn new(alloc: Global) -> Result<Self, NoMemory>
        ensures { IfOk result (λ bitmaps. bitmaps ≡ []) }
    {
        let rows = Vec::with_capacity(alloc, MOST_BITMAPS)?;
        Ok(Bitmaps { rows, alloc })
    }

    /// The bitmaps in the order in which they were added.
    pub fn rows(&self) -> &[Bitmap]
        ensures { result.now ≡ self.now }
    {
        self.rows.as_slice()
    }

    /// The bitmap of a node by its name.
    pub fn find(&self, node: NodeId, name: &str) -> Option<&Bitmap>
        ensures { option_copied result ≡ find self.now node name.now }
    {
        find(self.rows.as_slice(), node, name)
    }

    /// A bitmap that may be added, with nothing dirty and all the memory that it takes, for a disk of `size` bytes.
    /// `granularity` is in bytes.
    pub fn prepare(
        &self,
        node: NodeId,
        name: Text,
        size: u64,
        granularity: u64,
        enabled: bool,
    ) -> Result<Bitmap, BitmapStop>
        ensures answer { MatchOption (add_refusal self.now node name.bytes granularity)
            (IfErr result (λ stop. stop ≡ BitmapStop.NoMemory)) (λ stop. result ≡ Err stop) }
        ensures row { IfOk result (λ row. row ≡ added node name size granularity enabled) }
        ensures countable { IfOk result IsCountable }
        ensures room { OnOk result (length self.now < 64) }
    {
        let granularity = judge_new(self.rows.as_slice(), node, name.as_str(), granularity)?;
        Ok(new_row(self.alloc, node, name, size, granularity, enabled)?)
    }

    /// Adds a bitmap that was prepared. Takes no memory.
    pub fn push(&mut self, row: Bitmap)
        requires { length self.old < 64 }
        ensures { self.new ≡ self.old ++ row ∷ [] }
    {
        self.rows.push_reserved(row);
    }

    /// Adds a bitmap with nothing dirty, for a disk of `size` bytes. `granularity` is in bytes.
    pub fn add(
        &mut self,
        node: NodeId,
        name: Text,
        size: u64,
        granularity: u64,
        enabled: bool,
    ) -> Result<(), BitmapStop>
        ensures answer { MatchOption (add_refusal self.old node name.bytes granularity)
            (IfErr result (λ stop. stop ≡ BitmapStop.NoMemory)) (λ stop. result ≡ Err stop) }
        ensures done { OnOk result
            (self.new ≡ rows_after_call self.old (Add node name size granularity enabled)) }
        ensures refused { OnErr result (self.new ≡ self.old) }
    {
        let row = self.prepare(node, name, size, granularity, enabled)?;
        self.push(row);
        Ok(())
    }

    /// Removes a bitmap that no job uses.
    pub fn remove(&mut self, node: NodeId, name: &str) -> Result<(), BitmapStop>
        ensures answer { MatchOption (use_refusal (find self.old node name.now)) (IsOk result)
            (λ stop. result ≡ Err stop) }
        ensures done { OnOk result (self.new ≡ rows_after_call self.old (Remove node name.now)) }
        ensures refused { OnErr result (self.new ≡ self.old) }
    {
        let place = free_place(self.rows.as_slice(), node, name)?;
        self.rows.remove(place);
        Ok(())
    }

    /// Removes all bitmaps of a node, as the node goes, whether or not a job uses them.
    pub fn remove_all(&mut self, node: NodeId)
        ensures { self.new ≡ rows_after_call self.old (RemoveAll node) }
    {
        drop_all(&mut self.rows, node);
    }

    /// From now on the bitmap records writes.
    pub fn enable(&mut self, node: NodeId, name: &str) -> Result<(), BitmapStop>
        ensures answer { MatchOption (use_refusal (find self.old node name.now)) (IsOk result)
            (λ stop. result ≡ Err stop) }
        ensures done { OnOk result (self.new ≡ rows_after_call self.old (Enable node name.now)) }
        ensures refused { OnErr result (self.new ≡ self.old) }
    {
        change::turn(self.rows.as_mut_slice(), node, name, true)
    }

    /// From now on the bitmap records no writes; what is dirty stays so.
    pub fn disable(&mut self, node: NodeId, name: &str) -> Result<(), BitmapStop>
        ensures answer { MatchOption (use_refusal (find self.old node name.now)) (IsOk result)
            (λ stop. result ≡ Err stop) }
        ensures done { OnOk result (self.new ≡ rows_after_call self.old (Disable node name.now)) }
        ensures refused { OnErr result (self.new ≡ self.old) }
    {
        change::turn(self.rows.as_mut_slice(), node, name, false)
    }

    /// Nothing of the bitmap is dirty any more.
    pub fn clear(&mut self, node: NodeId, name: &str) -> Result<(), BitmapStop>
        ensures answer { MatchOption (use_refusal (find self.old node name.now)) (IsOk result)
            (λ stop. result ≡ Err stop) }
        ensures done { OnOk result (self.new ≡ rows_after_call self.old (Clear node name.now)) }
        ensures refused { OnErr result (self.new ≡ self.old) }
    {
        change::empty(self.rows.as_mut_slice(), node, name)
    }

    /// Makes each granule of the target dirty that overlaps a dirty granule of a source. The sources may be of other
    /// nodes and of other granularities, with disks of the same size; the target may be among them. All are looked at
    /// before the first is merged.
    pub fn merge(&mut self, node: NodeId, target: &str, sources: &Sources) -> Result<(), BitmapStop>
        ensures answer { MatchOption
            (merge_refusal self.old (find self.old node target.now) sources.now) (IsOk result)
            (λ stop. result ≡ Err stop) }
        ensures done { OnOk result
            (self.new ≡ rows_after_call self.old (Merge node target.now sources.now)) }
        ensures refused { OnErr result (self.new ≡ self.old) }
    {
        merge::judge(self.rows.as_slice(), node, target, sources.as_slice())?;
        merge::merge(self.rows.as_mut_slice(), node, target, sources.as_slice());
        Ok(())
    }

    /// Merges one bitmap into another, where both are there, whatever their use and sizes.
    pub fn merge_one(&mut self, node: NodeId, target: &str, source_node: NodeId, source: &str)
        ensures { self.new
            ≡ with_source self.old node target.now (find self.old source_node source.now) }
    {
        merge::merge_named(self.rows.as_mut_slice(), node, target, source_node, source);
    }

    /// A write to the node was made: each enabled bitmap of it has the span's granules dirty.
    pub fn note_write(&mut self, node: NodeId, span: Span)
        ensures { self.new ≡ rows_after_call self.old (NoteWrite node span) }
    {
        change::note_write(self.rows.as_mut_slice(), node, span);
    }

    /// Each enabled bitmap of the node has all its granules dirty.
    pub fn note_all(&mut self, node: NodeId)
        ensures { self.new ≡ rows_after_call self.old (NoteAll node) }
    {
        change::note_all(self.rows.as_mut_slice(), node);
    }

    /// A job begins to use the bitmap: what is dirty is put aside for it, and what is written from now on is kept apart.
    pub fn freeze(&mut self, node: NodeId, name: &str, job: u32) -> Result<(), BitmapStop>
        ensures answer { MatchOption (use_refusal (find self.old node name.now))
            (IfErr result (λ stop. stop ≡ BitmapStop.NoMemory)) (λ stop. result ≡ Err stop) }
        ensures done { OnOk result
            (self.new ≡ rows_after_call self.old (Freeze node name.now job)) }
        ensures refused { OnErr result (self.new ≡ self.old) }
    {
        let spare = self.spare_set(node, name)?;
        self.freeze_with(node, name, job, spare);
        Ok(())
    }

    /// The memory that a use of the bitmap by a job takes.
    pub fn spare_set(&self, node: NodeId, name: &str) -> Result<DirtySet, BitmapStop>
        ensures answer { MatchOption (use_refusal (find self.now node name.now))
            (IfErr result (λ stop. stop ≡ BitmapStop.NoMemory)) (λ stop. result ≡ Err stop) }
        ensures spare { IfOk result
            (λ spare. IfSome (find self.now node name.now) (IsSpareOf spare)) }
    {
        change::spare(self.rows.as_slice(), self.alloc, node, name)
    }

    /// As `freeze`, with memory that was taken before, and whether or not a job uses the bitmap. Where no bitmap has the
    /// name, nothing changes.
    pub fn freeze_with(&mut self, node: NodeId, name: &str, job: u32, spare: DirtySet)
        requires { IfSome (find self.old node name.now) (IsSpareOf spare) }
        ensures { self.new ≡ rows_after_call self.old (Freeze node name.now job) }
    {
        change::freeze(self.rows.as_mut_slice(), node, name, job, spare);
    }

    /// A job ends its use of bitmaps: what was put aside is dropped, and what was written since then is kept alone, or
    /// both are dirty again.
    pub fn release(&mut self, job: u32, drops: bool)
        ensures { self.new ≡ rows_after_call self.old (Release job drops) }
    {
        change::release(self.rows.as_mut_slice(), job, drops);
    }
}

/// No row is of the node any more.
fn drop_all(rows: &mut Vec<Bitmap>, node: NodeId)
    ensures rows { rows.new.items ≡ filter (λ row. not (row.node == node)) rows.old.items }
    ensures room { vec_capacity rows.new ≡ vec_capacity rows.old }
{
    rows.retain(|row| row.node != node);
}

/// The granularity of a new bitmap, where it may be added.
fn judge_new(
    rows: &[Bitmap],
    node: NodeId,
    name: &str,
    granularity: u64,
) -> Result<Granularity, BitmapStop>
    ensures answer { MatchOption (add_refusal rows.now node name.now granularity)
        (result ≡ Ok granularity) (λ stop. result ≡ Err stop) }
    ensures room { OnOk result (length rows.now < 64) }
{
    if find(rows, node, name).is_some() {
        return Err(BitmapStop::NameTaken);
    }
    let Some(granularity) = Granularity::new(granularity) else {
        return Err(BitmapStop::Granularity);
    };
    if rows.len() >= MOST_BITMAPS {
        return Err(BitmapStop::TooMany);
    }
    Ok(granularity)
}

fn new_row(
    alloc: Global,
    node: NodeId,
    name: Text,
    size: u64,
    granularity: Granularity,
    enabled: bool,
) -> Result<Bitmap, NoMemory>
    ensures row { IfOk result (λ row. row ≡ added node name size granularity enabled) }
    ensures countable { IfOk result IsCountable }
{
    let granules = granules_of(size, granularity);
    // a set for so large a disk has more memory than there is
    if granules.checked_mul(granularity.bytes()).is_none() {
        return Err(NoMemory);
    }
    let dirty = DirtySet::new(alloc, granules)?;
    Ok(Bitmap {
        node,
        name,
        size,
        granularity,
        enabled,
        busy: None,
        dirty,
        frozen: None,
    })
}

/// How many granules a disk of so many bytes has.
fn granules_of(size: u64, granularity: Granularity) -> u64
    ensures { result ≡ granule_count size granularity }
{
    let bytes = granularity.bytes();
    if size == 0 { 0 } else { (size - 1) / bytes + 1 }
}
