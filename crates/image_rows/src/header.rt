//! Headers, read and written.
ghost use Rattle.std.specs.Prelude.{◌≡◌, length, IsTrue};
ghost use Rattle.std.specs.Option.{ForSome};
ghost use Rattle.q2_format.specs.Created.{IsNewName, IsNewFormat};

use crate::layout::{edited, text_of};
use q2_format::{
    Header, MAX_DISK_SIZE, Place, name_fields, new_name_offset, read_header, write_header,
    write_refcount_block, write_refcount_table,
};
use row_text::{Row, RowStop, Words};
use std::alloc::Global;

/// Whether a name may be given.
pub(crate) fn may_name(name: Option<&str>) -> bool
    ensures { IsTrue result → ForSome name.entry (λ name. IsNewName name.now) }
{
    match name {
        Some(text) => !text.is_empty() && text.len() <= 1_023,
        None => true,
    }
}

/// Whether a format may be given.
pub(crate) fn may_have(format: Option<&str>) -> bool
    ensures { IsTrue result → ForSome format.entry (λ format. IsNewFormat format.now) }
{
    match format {
        Some(text) => !text.is_empty() && text.len() <= 8,
        None => true,
    }
}

#[derive(Clone, Copy)]
enum HeaderField {
    Size,
    ClusterBits,
    L1Size,
    L1Offset,
    RefOffset,
    RefClusters,
    RefcountOrder,
    HeaderLength,
    Snapshots,
    SnapshotsOffset,
    Compat,
    Autoclear,
    Name,
    Format,
    ExtensionsEnd,
    Ended,
}

const FIELDS: [(&str, HeaderField); 16] = [
    ("size", HeaderField::Size),
    ("cluster-bits", HeaderField::ClusterBits),
    ("l1-size", HeaderField::L1Size),
    ("l1-offset", HeaderField::L1Offset),
    ("refcount-table-offset", HeaderField::RefOffset),
    ("refcount-table-clusters", HeaderField::RefClusters),
    ("refcount-order", HeaderField::RefcountOrder),
    ("header-length", HeaderField::HeaderLength),
    ("snapshots", HeaderField::Snapshots),
    ("snapshots-offset", HeaderField::SnapshotsOffset),
    ("compatible", HeaderField::Compat),
    ("autoclear", HeaderField::Autoclear),
    ("name", HeaderField::Name),
    ("format", HeaderField::Format),
    ("extensions-end", HeaderField::ExtensionsEnd),
    ("has-ending", HeaderField::Ended),
];

/// A number of a header; of a place, where it begins.
fn number_of(header: &Header, field: HeaderField) -> u64 {
    match field {
        HeaderField::Size => header.size,
        HeaderField::ClusterBits => u64::from(header.cluster_bits),
        HeaderField::L1Size => u64::from(header.l1_size),
        HeaderField::L1Offset => header.l1_offset,
        HeaderField::RefOffset => header.ref_offset,
        HeaderField::RefClusters => u64::from(header.ref_clusters),
        HeaderField::RefcountOrder => u64::from(header.refcount_order),
        HeaderField::HeaderLength => u64::from(header.header_length),
        HeaderField::Snapshots => u64::from(header.nb_snaps),
        HeaderField::SnapshotsOffset => header.snaps_offset,
        HeaderField::Compat => header.compat,
        HeaderField::Autoclear => header.autoclear,
        HeaderField::Name | HeaderField::Format => 0,
        HeaderField::ExtensionsEnd => header.ext_end,
        HeaderField::Ended => u64::from(header.ended),
    }
}

fn put_place(place: Option<Place>, out: &mut Words) {
    match place {
        Some(Place { at, len }) => out.fill("%+%", &[u64::from(at), u64::from(len)]),
        None => out.put("none"),
    }
}

/// `field NAME`: of the header that was read last. The place of the name or of the format is its offset and its length.
pub(crate) fn field(header: Option<&Header>, row: &Row, out: &mut Words) -> Result<(), RowStop> {
    let Some(header) = header else {
        return Err(RowStop::Call);
    };
    match row.named(0, &FIELDS)? {
        HeaderField::Name => put_place(header.name, out),
        HeaderField::Format => put_place(header.format, out),
        field => out.number(number_of(header, field)),
    }
    Ok(())
}

/// `header LENGTH EDITS`: reads the header of the file with these edits, as one of that length.
pub(crate) fn header(
    alloc: Global,
    file: &[u8],
    into: &mut Option<Header>,
    row: &Row,
    out: &mut Words,
) -> Result<(), RowStop> {
    let bytes = edited(alloc, file, row, 1)?;
    match read_header(bytes.as_slice(), row.number(0)?) {
        Ok(header) => {
            *into = Some(header);
            out.put("ok");
        }
        Err(stop) => out.show(&stop),
    }
    Ok(())
}

/// `new-name NAME_LENGTH LENGTH EDITS`: the fields of a new name of so many bytes, in place of the one that the header of such a
/// file has.
pub(crate) fn new_name(
    alloc: Global,
    file: &[u8],
    row: &Row,
    out: &mut Words,
) -> Result<(), RowStop> {
    let len = row.short(0)?;
    let bytes = edited(alloc, file, row, 2)?;
    match read_header(bytes.as_slice(), row.number(1)?) {
        Ok(header) => out.bytes(&name_fields(new_name_offset(&header), len)),
        Err(_) => return Err(RowStop::Call),
    }
    Ok(())
}

/// Writes a header of a new image into a cluster.
fn put_header(
    cluster: &mut [u8],
    size: u64,
    name: Option<&str>,
    format: Option<&str>,
) -> Result<(), RowStop>
    requires { length cluster.old ≡ 65536 }
{
    if size > MAX_DISK_SIZE || !may_name(name) || !may_have(format) {
        return Err(RowStop::Call);
    }
    write_header(size, name, format, cluster);
    Ok(())
}

/// `write-header SIZE NAME FORMAT EDITS`: writes the header of a new image into the file with these edits, which is a cluster.
pub(crate) fn written_header(alloc: Global, file: &[u8], row: &Row) -> Result<Vec<u8>, RowStop> {
    let mut cluster = edited(alloc, file, row, 3)?;
    if cluster.len() != 65_536 {
        return Err(RowStop::Call);
    }
    let size = row.number(0)?;
    let name = text_of(row.word(1)?);
    let format = text_of(row.word(2)?);
    put_header(cluster.as_mut_slice(), size, name, format)?;
    Ok(cluster)
}

/// `write-refcount-table EDITS`, `write-refcount-block EDITS`: the same of a new image's refcounts.
pub(crate) fn written_counts(
    alloc: Global,
    file: &[u8],
    row: &Row,
    is_block: bool,
) -> Result<Vec<u8>, RowStop> {
    let mut cluster = edited(alloc, file, row, 0)?;
    if cluster.len() != 65_536 {
        return Err(RowStop::Call);
    }
    if is_block {
        write_refcount_block(cluster.as_mut_slice());
    } else {
        write_refcount_table(cluster.as_mut_slice());
    }
    Ok(cluster)
}
