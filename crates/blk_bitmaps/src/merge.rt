//! A merge of bitmaps.
ghost use Rattle.std.specs.Prelude.{◌≡◌, ◌<◌, length, position, slice_index_or, slice_set, option_copied, None, Some, MatchOption, IsOk, Err};
ghost use Rattle.blk_bitmaps.specs.Rows.{is_named, merged_row};
ghost use Rattle.blk_bitmaps.specs.Refusals.{find, source_of, is_absent, first_job, job_of, has_size, differs, sources_refusal, merge_refusal};
ghost use Rattle.blk_bitmaps.specs.Calls.{with_source, with_sources};
ghost use Rattle.blk_bitmaps.specs.declared.row.Bitmap.{Bitmap};

use crate::find::{find, place_of};
use crate::row::Bitmap;
use crate::sources::SourceBitmap;
use crate::stop::BitmapStop;
use blk_graph::NodeId;

/// Looks whether the sources may be merged into the bitmap of a name.
pub(crate) fn judge(
    rows: &[Bitmap],
    node: NodeId,
    target: &str,
    sources: &[SourceBitmap],
) -> Result<(), BitmapStop>
    ensures { MatchOption (merge_refusal rows.now (find rows.now node target.now) sources.now)
        (IsOk result) (λ stop. result ≡ Err stop) }
{
    match find(rows, node, target) {
        Some(row) => judge_sources(rows, row, sources),
        None => Err(BitmapStop::NotFound),
    }
}

fn judge_sources(rows: &[Bitmap], row: &Bitmap, sources: &[SourceBitmap]) -> Result<(), BitmapStop>
    ensures { MatchOption (sources_refusal rows.now row.now sources.now) (IsOk result)
        (λ stop. result ≡ Err stop) }
{
    if is_absent(rows, sources) {
        return Err(BitmapStop::NotFound);
    }
    if let Some(job) = row.busy {
        return Err(BitmapStop::Busy(job));
    }
    if let Some(job) = first_job(rows, sources) {
        return Err(BitmapStop::Busy(job));
    }
    if differs(rows, row.size, sources) {
        return Err(BitmapStop::SizeDiffers);
    }
    Ok(())
}

/// Whether a source is not there.
fn is_absent(rows: &[Bitmap], sources: &[SourceBitmap]) -> bool
    ensures { result ≡ is_absent rows.now sources.now }
{
    sources
        .iter()
        .any(|source| source_of(rows, source).is_none())
}

/// The job of the first source that is busy.
fn first_job(rows: &[Bitmap], sources: &[SourceBitmap]) -> Option<u32>
    ensures { result ≡ first_job rows.now sources.now }
{
    for source in sources {
        let job = job_of(rows, source);
        if job.is_some() {
            return job;
        }
    }
    None
}

/// Whether a source is of a disk of another size.
fn differs(rows: &[Bitmap], size: u64, sources: &[SourceBitmap]) -> bool
    ensures { result ≡ differs rows.now size sources.now }
{
    sources.iter().any(|source| !has_size(rows, size, source))
}

fn source_of<'a>(rows: &'a [Bitmap], source: &SourceBitmap) -> Option<&'a Bitmap>
    ensures { option_copied result ≡ source_of rows.now source.now }
{
    find(rows, source.node, source.name.as_str())
}

fn job_of(rows: &[Bitmap], source: &SourceBitmap) -> Option<u32>
    ensures { result ≡ job_of (source_of rows.now source.now) }
{
    source_of(rows, source)?.busy
}

fn has_size(rows: &[Bitmap], size: u64, source: &SourceBitmap) -> bool
    ensures { result ≡ has_size size (source_of rows.now source.now) }
{
    match source_of(rows, source) {
        Some(row) => row.size == size,
        None => true,
    }
}

/// Merges the sources one after another into the bitmap of a name.
pub(crate) fn merge(rows: &mut [Bitmap], node: NodeId, target: &str, sources: &[SourceBitmap])
    ensures { rows.new ≡ with_sources rows.old node target.now sources.now }
{
    for source in sources {
        merge_source(rows, node, target, source);
    }
}

fn merge_source(rows: &mut [Bitmap], node: NodeId, target: &str, source: &SourceBitmap)
    ensures { rows.new ≡ with_source rows.old node target.now (source_of rows.old source.now) }
{
    merge_named(rows, node, target, source.node, source.name.as_str());
}

/// Merges the bitmap of one name into that of another, where both are there.
pub(crate) fn merge_named(
    rows: &mut [Bitmap],
    node: NodeId,
    target: &str,
    source_node: NodeId,
    source: &str,
)
    ensures { rows.new
        ≡ with_source rows.old node target.now (find rows.old source_node source.now) }
{
    let Some(from) = place_of(rows, source_node, source) else {
        return;
    };
    let Some(to) = place_of(rows, node, target) else {
        return;
    };
    join(rows, from, to);
}

/// Merges one row into another, which may be the same.
fn join(rows: &mut [Bitmap], from: usize, to: usize)
    requires from { from < length rows.old }
    requires to { to < length rows.old }
    ensures { (d : Bitmap)
        → rows.new ≡ slice_set rows.old to
        (merged_row (slice_index_or rows.old from d) (slice_index_or rows.old to d)) }
{
    if from < to {
        let (front, back) = rows.split_at_mut(to);
        back[0].join(&front[from]);
    } else if to < from {
        let (front, back) = rows.split_at_mut(from);
        front[to].join(&back[0]);
    }
}
