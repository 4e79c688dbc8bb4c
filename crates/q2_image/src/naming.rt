//! What an image names, from its header and the words of its tables.

ghost use Rattle.std.specs.Prelude.{◌≡◌, ◌^◌, ◌<◌, ℕ, length, IfOk, IfErr, Some};
ghost use Rattle.std.specs.Option.{option_map};
ghost use Rattle.q2_format.specs.Header.{IsWithinLimits};
ghost use Rattle.q2_format.specs.References.{cluster_bound};
ghost use Rattle.q2_image.specs.Seen.{IsSeen};
ghost use Rattle.q2_image.specs.Opening.{Judges, IsNoFault, ArePlaced, uses_in, overlap_stop};

use crate::header::cluster_size;
use crate::seen::{Naming, Seen};
use crate::stop::ImageStop;
use blk_base::NoMemory;
use q2_format::Header;
use std::alloc::Global;

/// The bytes of an entry of a table.
const ENTRY: u64 = 8;

/// Names what an image of a file of `len` bytes names: the header's cluster, the two tables, and what their words
/// and those of all L2 tables name.
#[tactic(auto, using(crate::proofs::Named::below_by_place, q2_format::proofs::Consistent::placed_below))]
pub(crate) fn see_names(
    alloc: Global,
    header: &Header,
    len: u64,
    table: &[u64],
    l1: &[u64],
    words: &[u64],
) -> Result<Seen, NoMemory>
    requires limits { IsWithinLimits header.now len }
    requires placed { ArePlaced header.now len table.now l1.now words.now }
    ensures count { IfOk result (λ seen. length seen.named ≡ cluster_bound header.now len) }
    ensures seen { IfOk result (IsSeen (uses_in header.now table.now l1.now words.now)) }
{
    let cluster_size = cluster_size(header);
    let ref_clusters = u64::from(header.ref_clusters);
    let l1_clusters = (ENTRY * u64::from(header.l1_size)).div_ceil(cluster_size);
    let bound = len.div_ceil(cluster_size) + ref_clusters + l1_clusters;
    let mut seen = Seen::new(alloc, bound)?;
    seen.mark(0);
    seen.mark_run(header.ref_offset / cluster_size, ref_clusters);
    seen.mark_words(cluster_size, Naming::Block, table);
    seen.mark_run(header.l1_offset / cluster_size, l1_clusters);
    seen.mark_words(cluster_size, Naming::Table, l1);
    seen.mark_words(cluster_size, Naming::Own, words);
    Ok(seen)
}

/// Refuses the lowest cluster that was named twice.
#[tactic(auto, using(crate::proofs::Sightings::twice_lowest))]
pub(crate) fn check_overlap(seen: &Seen) -> Result<(), ImageStop>
    ensures no_fault { IfErr result IsNoFault }
    ensures judged { (uses : ℕ → ℕ) → IsSeen uses seen.now
        → Judges (overlap_stop uses (length seen.now.named)) result }
{
    match seen.twice() {
        None => Ok(()),
        Some(cluster) => Err(ImageStop::Overlap(cluster)),
    }
}
