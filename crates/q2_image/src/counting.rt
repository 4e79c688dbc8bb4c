//! Loading the refcounts of an image, and refusing a cluster that is named and not counted.

ghost use Rattle.std.specs.Prelude.{◌≡◌, ◌≤◌, ◌+◌, ◌*◌, ◌<◌, ◌^◌, ℕ, List, length, Some, None, Option, IfOk, IfErr, IfSome};
ghost use Rattle.blk_base.specs.Calls.{FailsAt};
ghost use Rattle.blk_base.specs.Device.{Reads};
ghost use Rattle.blk_base.specs.Files.{WasRead};
ghost use Rattle.q2_format.specs.Header.{CanBeRead, IsWithinLimits};
ghost use Rattle.q2_format.specs.Sound.{lowest};
ghost use Rattle.q2_format.specs.References.{cluster_bound, reach_of};
ghost use Rattle.q2_format.specs.Tables.{refcount_table};
ghost use Rattle.q2_refs.specs.Kept.{AreAbsentFree, IsCountsOf};
ghost use Rattle.q2_refs.specs.Loading.{IsBlockCall, table_call};
ghost use Rattle.q2_image.specs.Seen.{IsSeen, is_uncounted};
ghost use Rattle.q2_image.specs.Opening.{Judges, fault_of_image, IsNoFault, IsNoHeader, place_stops, refusal_of, uncounted_stop};
ghost use Rattle.q2_image.specs.Loading.{counts_loaded, AnswersTable, IsTableRead, IsTableAnswer, HasCounts};

use crate::header::cluster_size;
use crate::seen::Seen;
use crate::stop::ImageStop;
use blk_base::Device;
use q2_format::{Header, MAX_FILE_CLUSTERS};
use q2_refs::{Refs, RefsStop, load_counts, load_table};
use std::alloc::Global;

/// What was read of the refcount table of an image, where it names no block outside its place.
#[derive(Drop)]
pub(crate) enum RefTable {
    /// Its words.
    Read(Vec<u64>),
    /// A reserved bit is set in this entry. Other tables may have a refusal that comes before.
    Reserved(u64),
}

/// How many clusters' refcounts are kept of an image whose file has `len` bytes.
pub(crate) fn reach(header: &Header, len: u64) -> u64
    requires { IsWithinLimits header.now len }
    ensures { result ≡ reach_of header.now len }
{
    let cluster_size = cluster_size(header);
    let per_block = (cluster_size * 8) >> header.refcount_order;
    let clusters = len.div_ceil(cluster_size)
        + header.size.div_ceil(cluster_size)
        + u64::from(header.l1_size);
    let covered = u64::from(header.ref_clusters) * (cluster_size / 8) * per_block;
    (clusters + clusters / (per_block / 2) + 65_536).min(MAX_FILE_CLUSTERS.min(covered))
}

/// Behind the last cluster that an image may name whose file has `len` bytes.
pub(crate) fn bound(header: &Header, len: u64) -> u64
    requires { IsWithinLimits header.now len }
    ensures value { result ≡ cluster_bound header.now len }
    ensures small { result ≤ 2 ^ 24 }
{
    let cluster_size = cluster_size(header);
    let l1_clusters = (8 * u64::from(header.l1_size)).div_ceil(cluster_size);
    len.div_ceil(cluster_size) + u64::from(header.ref_clusters) + l1_clusters
}

/// Reads the refcount table of an image, which lies in its place.
pub(crate) fn load_ref_table<D: Device>(
    alloc: Global,
    dev: &mut D,
    header: &Header,
) -> Result<RefTable, ImageStop>
    requires readable { CanBeRead header.now (D.size dev.old) }
    requires placed { place_stops header.now (D.size dev.old) ≡ None }
    ensures words { WasRead (D.content dev.old) (λ file. refcount_table file header.now)
        (AnswersTable header.now (D.size dev.old) result) }
    ensures no_header { IfErr result IsNoHeader }
    ensures read { IfOk result (IsTableAnswer header.now (D.size dev.old)) }
    ensures device { Reads D.Device (fault_of_image result) dev.old dev.new }
    ensures call { FailsAt (λ call. call ≡ table_call header.now)
        (fault_of_image result) (D.failed_call dev.new) }
{
    match load_table(alloc, dev, header) {
        Ok(words) => Ok(RefTable::Read(words)),
        Err(RefsStop::Reserved { index }) => Ok(RefTable::Reserved(index)),
        Err(RefsStop::Offset(offset)) => Err(ImageStop::Offset(offset)),
        Err(RefsStop::Io { count }) => Err(ImageStop::Io { count }),
        Err(RefsStop::NoMemory) => Err(ImageStop::NoMemory),
    }
}

/// Loads the refcounts of an image by the words of its refcount table: those up to the reach, and those that a table
/// at the file's end may take.
pub(crate) fn load_refcounts<D: Device>(
    alloc: Global,
    dev: &mut D,
    header: &Header,
    table: Vec<u64>,
) -> Result<Refs, ImageStop>
    requires readable { CanBeRead header.now (D.size dev.old) }
    requires limits { IsWithinLimits header.now (D.size dev.old) }
    requires placed { place_stops header.now (D.size dev.old) ≡ None }
    requires read { IsTableRead header.now (D.size dev.old) table.items }
    ensures kept { IfOk result
        (λ refs. (file : List ℕ) → D.content dev.old ≡ Some file
        → table.items ≡ refcount_table file header.now
        → IsCountsOf file header.now refs) }
    ensures loaded { IfOk result
        (HasCounts header.now (D.size dev.old) (counts_loaded header.now (D.size dev.old))) }
    ensures table { IfOk result (λ refs. refs.table ≡ table.items) }
    ensures absent { IfOk result AreAbsentFree }
    ensures stop { IfErr result (λ stop. refusal_of stop ≡ None) }
    ensures device { Reads D.Device (fault_of_image result) dev.old dev.new }
    ensures call { FailsAt
        (IsBlockCall header.now (counts_loaded header.now (D.size dev.old)) table.items)
        (fault_of_image result) (D.failed_call dev.new) }
{
    let len = dev.length();
    let loaded = bound(header, len).max(reach(header, len));
    match load_counts(alloc, dev, header, table, loaded) {
        Ok(refs) => Ok(refs),
        Err(RefsStop::Io { count }) => Err(ImageStop::Io { count }),
        Err(RefsStop::NoMemory) => Err(ImageStop::NoMemory),
        Err(RefsStop::Offset(_) | RefsStop::Reserved { .. }) => unreachable!(),
    }
}

/// The lowest cluster that was named and has refcount 0.
#[tactic(auto, using(q2_format::proofs::Firsts::none_lowest, q2_format::proofs::Firsts::lowest_at))]
fn first_uncounted(seen: &Seen, refs: &Refs) -> Option<u64>
    requires { length seen.now.named ≤ length refs.now.counts }
    ensures { result
        ≡ lowest (is_uncounted seen.now.named refs.now.counts) (length seen.now.named) }
{
    for cluster in 0..seen.len() {
        if seen.is_named(cluster) && refs.count_of(cluster) == 0 {
            return Some(cluster);
        }
    }
    None
}

/// Refuses the lowest cluster that was named and has refcount 0.
#[tactic(auto, using(crate::proofs::Sightings::uncounted_seen))]
pub(crate) fn check_counted(seen: &Seen, refs: &Refs) -> Result<(), ImageStop>
    requires { length seen.now.named ≤ length refs.now.counts }
    ensures no_fault { IfErr result IsNoFault }
    ensures judged { (uses : ℕ → ℕ) → IsSeen uses seen.now
        → Judges (uncounted_stop uses refs.now.counts (length seen.now.named)) result }
{
    match first_uncounted(seen, refs) {
        None => Ok(()),
        Some(cluster) => Err(ImageStop::Refcount(cluster)),
    }
}
