//! What the calls make of the rows.
ghost use Rattle.std.specs.Prelude.{◌≡◌, MatchOption, IsOk, IfErr, IfOk, IfSome, OnOk, OnErr, Err, true, false, map};
ghost use Rattle.blk_bitmaps.specs.Rows.{is_named, records, is_used_by, switched, emptied, filled, written, used, use_ended, IsSpareOf};
ghost use Rattle.blk_bitmaps.specs.Refusals.{find, use_refusal};
ghost use Rattle.blk_bitmaps.specs.Calls.{with_first, where_so};

use crate::find::{free_place, place_of};
use crate::row::Bitmap;
use crate::stop::BitmapStop;
use blk_base::Span;
use blk_bits::DirtySet;
use blk_graph::NodeId;
use std::alloc::Global;

pub(crate) fn turn(
    rows: &mut [Bitmap],
    node: NodeId,
    name: &str,
    on: bool,
) -> Result<(), BitmapStop>
    ensures answer { MatchOption (use_refusal (find rows.old node name.now)) (IsOk result)
        (λ stop. result ≡ Err stop) }
    ensures done { OnOk result
        (rows.new ≡ with_first (is_named node name.now) (switched on) rows.old) }
    ensures refused { OnErr result (rows.new ≡ rows.old) }
{
    let place = free_place(rows, node, name)?;
    rows[place].turn(on);
    Ok(())
}

pub(crate) fn empty(rows: &mut [Bitmap], node: NodeId, name: &str) -> Result<(), BitmapStop>
    ensures answer { MatchOption (use_refusal (find rows.old node name.now)) (IsOk result)
        (λ stop. result ≡ Err stop) }
    ensures done { OnOk result (rows.new ≡ with_first (is_named node name.now) emptied rows.old) }
    ensures refused { OnErr result (rows.new ≡ rows.old) }
{
    let place = free_place(rows, node, name)?;
    rows[place].empty();
    Ok(())
}

/// An empty set for the bitmap of a name that no job uses.
pub(crate) fn spare(
    rows: &[Bitmap],
    alloc: Global,
    node: NodeId,
    name: &str,
) -> Result<DirtySet, BitmapStop>
    ensures answer { MatchOption (use_refusal (find rows.now node name.now))
        (IfErr result (λ stop. stop ≡ BitmapStop.NoMemory)) (λ stop. result ≡ Err stop) }
    ensures spare { IfOk result (λ spare. IfSome (find rows.now node name.now) (IsSpareOf spare)) }
{
    let place = free_place(rows, node, name)?;
    Ok(rows[place].spare(alloc)?)
}

/// The bitmap of a name, where there is one, is used by a job.
pub(crate) fn freeze(rows: &mut [Bitmap], node: NodeId, name: &str, job: u32, spare: DirtySet)
    requires { IfSome (find rows.old node name.now) (IsSpareOf spare) }
    ensures { rows.new ≡ with_first (is_named node name.now) (used job) rows.old }
{
    if let Some(place) = place_of(rows, node, name) {
        rows[place].freeze(job, spare);
    }
}

pub(crate) fn note_write(rows: &mut [Bitmap], node: NodeId, span: Span)
    ensures { rows.new ≡ where_so (records node) (written span) rows.old }
{
    for place in 0..rows.len() {
        rows[place].note_write(node, span);
    }
}

pub(crate) fn note_all(rows: &mut [Bitmap], node: NodeId)
    ensures { rows.new ≡ where_so (records node) filled rows.old }
{
    for place in 0..rows.len() {
        rows[place].note_all(node);
    }
}

pub(crate) fn release(rows: &mut [Bitmap], job: u32, drops: bool)
    ensures { rows.new ≡ where_so (is_used_by job) (use_ended drops) rows.old }
{
    for place in 0..rows.len() {
        rows[place].release(job, drops);
    }
}
