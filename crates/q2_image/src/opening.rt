//! Opening an image: its header, its tables, and what they name.

ghost use Rattle.std.specs.Prelude.{◌≡◌, ◌^◌, ◌<◌, ◌≤◌, ℕ, List, length, take, Some, None, Err, IfOk, IfErr};
ghost use Rattle.blk_base.specs.Calls.{FailsAt};
ghost use Rattle.blk_base.specs.Device.{Reads};
ghost use Rattle.q2_format.specs.Header.{CanBeRead, IsWithinLimits, refused_where};
ghost use Rattle.q2_format.specs.References.{cluster_bound, reach_of};
ghost use Rattle.q2_format.specs.Sound.{image_refusal, is_header_full, HeaderFull};
ghost use Rattle.q2_refs.specs.Loading.{IsBlockCall};
ghost use Rattle.q2_tables.specs.Loading.{IsLoaded};
ghost use Rattle.q2_image.specs.Opening.{Judges, fault_of_image, IsNoFault, ArePlaced, uses_in, overlap_stop, names_stops, place_stops};
ghost use Rattle.q2_image.specs.OpeningCalls.{AreTablesRead, IsOpeningCall};
ghost use Rattle.q2_image.specs.Placed.{AreKept, FitsFile, kept_stops};
ghost use Rattle.q2_image.specs.Refusals.{IsRefusalFor};
ghost use Rattle.q2_image.specs.Seen.{IsSeen};
ghost use Rattle.q2_image.specs.Loading.{counts_loaded, IsTableRead, IsReadFrom};
ghost use Rattle.q2_image.specs.Image.{IsImageOf, IsOpen};
ghost use Rattle.q2_format.specs.declared.header.HeaderStop.TheVariants.{Short};
ghost use Rattle.q2_format.specs.declared.header.TheConstants.{MIN_HEADER_LENGTH};

use crate::counting::{check_counted, load_refcounts, reach};
use crate::header::{check_places, cluster_size, open_header};
use crate::image::Image;
use crate::load::load;
use crate::naming::{check_overlap, see_names};
use crate::seen::Seen;
use crate::stop::ImageStop;
use blk_base::Device;
use q2_format::{Header, ending_place};
use q2_refs::Refs;
use q2_tables::Tables;
use std::alloc::Global;

/// Where an ending extension may go at the latest that a list needs once the name behind it isn't its end any more:
/// with the fields of the name it is written in one sector.
const LAST_ENDING: u64 = 504;

/// Whether the header has room for another backing name.
fn check_room(header: &Header) -> Result<(), ImageStop>
    requires bits { header.now.cluster_bits ≡ 16 }
    requires list { header.now.ext_end < 2 ^ 32 }
    ensures no_fault { IfErr result IsNoFault }
    ensures judged { Judges (refused_where (is_header_full header.now) HeaderFull) result }
{
    let middle = cluster_size(header) / 2;
    let unended = header.name.is_some() && !header.ended;
    if header.ext_end > middle || unended && ending_place(header) > LAST_ENDING {
        return Err(ImageStop::HeaderFull);
    }
    Ok(())
}

/// Names all that the tables of an image name, and refuses what is named twice.
fn name_once(
    alloc: Global,
    header: &Header,
    len: u64,
    table: &[u64],
    tables: &Tables,
) -> Result<Seen, ImageStop>
    requires limits { IsWithinLimits header.now len }
    requires placed { ArePlaced header.now len table.now tables.now.l1 tables.now.words }
    ensures count { IfOk result (λ seen. length seen.named ≡ cluster_bound header.now len) }
    ensures seen { IfOk result
        (IsSeen (uses_in header.now table.now tables.now.l1 tables.now.words)) }
    ensures no_fault { IfErr result IsNoFault }
    ensures judged { Judges
        (overlap_stop (uses_in header.now table.now tables.now.l1 tables.now.words)
        (cluster_bound header.now len)) result }
{
    let seen = see_names(alloc, header, len, table, tables.l1(), tables.words())?;
    check_overlap(&seen)?;
    Ok(seen)
}

/// Refuses what an image names and doesn't count, and a full header, where nothing is named twice.
fn check_names(header: &Header, refs: &Refs, seen: &Seen) -> Result<(), ImageStop>
    requires bits { header.now.cluster_bits ≡ 16 }
    requires list { header.now.ext_end < 2 ^ 32 }
    requires counts { length seen.now.named ≤ length refs.now.counts }
    ensures no_fault { IfErr result IsNoFault }
    ensures judged { (uses : ℕ → ℕ) → IsSeen uses seen.now
        → overlap_stop uses (length seen.now.named) ≡ None
        → Judges (names_stops header.now uses refs.now.counts (length seen.now.named)) result }
{
    check_counted(seen, refs)?;
    check_room(header)
}

/// The image of a header whose tables and refcounts are loaded, or what is refused of its counts and its header.
fn finish(
    header: Header,
    len: u64,
    refs: Refs,
    tables: Tables,
    seen: &Seen,
) -> Result<Image, ImageStop>
    requires readable { CanBeRead header len }
    requires limits { IsWithinLimits header len }
    requires places { place_stops header len ≡ None }
    requires kept { AreKept header len refs tables }
    requires count { length seen.now.named ≡ cluster_bound header len }
    requires seen { IsSeen (uses_in header refs.table tables.l1 tables.words) seen.now }
    requires once { overlap_stop (uses_in header refs.table tables.l1 tables.words)
        (cluster_bound header len) ≡ None }
    ensures judged { Judges (kept_stops header len refs tables) result }
    ensures known { IfOk result
        (λ image. image
        ≡ record {
          header = header;
          tables = tables;
          refs = record refs { counts = take (reach_of header len) refs.counts };
        }) }
    ensures fits { IfOk result (FitsFile len) }
    ensures no_fault { IfErr result IsNoFault }
{
    check_names(&header, &refs, seen)?;
    let mut refs = refs;
    refs.keep_first(reach(&header, len));
    Ok(Image {
        header,
        tables,
        refs,
    })
}

/// Judges what the tables of an image name, and reads its refcounts where nothing is named twice: what a refcount
/// block tells is judged after that.
fn open_tables<D: Device>(
    alloc: Global,
    dev: &mut D,
    header: Header,
    table: Vec<u64>,
    tables: Tables,
) -> Result<Image, ImageStop>
    requires readable { CanBeRead header (D.size dev.old) }
    requires limits { IsWithinLimits header (D.size dev.old) }
    requires places { place_stops header (D.size dev.old) ≡ None }
    requires table { IsTableRead header (D.size dev.old) table.items }
    requires loaded { IsLoaded header (D.size dev.old) tables }
    requires read { (file : List ℕ) → D.content dev.old ≡ Some file
        → IsReadFrom file header table.items tables }
    ensures judged { (file : List ℕ) → D.content dev.old ≡ Some file
        → Judges (image_refusal file) result }
    ensures image { IfOk result
        (λ image. (file : List ℕ) → D.content dev.old ≡ Some file → IsImageOf file image) }
    ensures reach { IfOk result
        (λ image. length image.refs.counts ≡ reach_of image.header (D.size dev.old)) }
    ensures fits { IfOk result (FitsFile (D.size dev.old)) }
    ensures refusal { IfErr result (λ stop. IsRefusalFor stop (D.size dev.old)) }
    ensures device { Reads D.Device (fault_of_image result) dev.old dev.new }
    ensures call { FailsAt (λ call.
        AreTablesRead header (D.size dev.old) (D.content dev.old) table.items
        × IsBlockCall header (counts_loaded header (D.size dev.old)) table.items call)
        (fault_of_image result) (D.failed_call dev.new) }
{
    let len = dev.length();
    let seen = name_once(alloc, &header, len, table.as_slice(), &tables)?;
    let refs = load_refcounts(alloc, dev, &header, table)?;
    finish(header, len, refs, tables, &seen)
}

/// Opens the image on a device: reads its header, tables and refcounts. All memory that the image needs is taken
/// here. The device's bytes stay.
///
/// The refusals are those of the published qcow2 text, version 3, and of what is supported of it; the first one that
/// holds is answered. `Io` comes in place of what a failed read would have told and of all that comes behind that in
/// the order of the refusals. So the refcount table is read behind the header, then the L1 table, then all L2 tables,
/// and all refcount blocks last, once nothing is named twice. The L2 tables are judged once all of them are read, and
/// so are the refcount blocks: a failed read of one also hides what another that was read has told. `NoMemory` may
/// come wherever the file is as long as a header.
pub fn open_image<D: Device>(alloc: Global, dev: &mut D) -> Result<Image, ImageStop>
    // the first refusal of the file, or an image of it
    ensures judged { (file : List ℕ) → D.content dev.old ≡ Some file
        → Judges (image_refusal file) result }
    ensures image { IfOk result
        (λ image. (file : List ℕ) → D.content dev.old ≡ Some file → IsImageOf file image) }
    ensures reach { IfOk result
        (λ image. length image.refs.counts ≡ reach_of image.header (D.size dev.old)) }
    ensures fits { IfOk result (FitsFile (D.size dev.old)) }
    ensures open { IfOk result IsOpen }
    // what a refusal says of the length, whatever the file holds
    ensures refusal { IfErr result (λ stop. IsRefusalFor stop (D.size dev.old)) }
    // a file that is too short for a header isn't read
    ensures short { D.size dev.old < MIN_HEADER_LENGTH → result ≡ Err (ImageStop.Header Short) }
    ensures device { Reads D.Device (fault_of_image result) dev.old dev.new }
    ensures call { FailsAt (IsOpeningCall (D.size dev.old) (D.content dev.old))
        (fault_of_image result) (D.failed_call dev.new) }
{
    let header = open_header(alloc, dev)?;
    let len = dev.length();
    check_places(&header, len)?;
    match load(alloc, dev, &header) {
        Ok((table, tables)) => open_tables(alloc, dev, header, table, tables),
        Err(stop) => Err(stop),
    }
}
