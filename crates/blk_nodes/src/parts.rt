//! Pieces of qcow2 nodes, written to the images in their files. The look for room behind each call tells that the image is open.
ghost use Rattle.std.specs.Prelude.{◌≡◌, ◌+◌, ◌*◌, ◌<◌, ◌≤◌, ℕ, length, replicate, IsSome, Some, None};
ghost use Rattle.q2_image.specs.Image.{cluster_size_in, clusters_in, entry_in};
ghost use Rattle.q2_image.specs.Reading.{IsHost, IsWithinCluster};
ghost use Rattle.q2_image.specs.Room.{WriteFits, ZerosFit, cluster_of, entry_for, is_whole};
ghost use Rattle.q2_image.specs.Writing.{PutFits, ZeroFits, own_end, own_place};
ghost use Rattle.q2_tables.specs.Entries.{entry_of};
ghost use Rattle.blk_nodes.specs.Changing.{ChangesAround, ChangesInPlace, ClearsCluster, IsImageWritten, IsZeroed, PutsCluster};
ghost use Rattle.blk_nodes.specs.Nodes.{device_in};
ghost use Rattle.blk_nodes.specs.Parts.{OfImage, HasPiece, CallsRow, IsDiskFound, WritesPart, row_in};
ghost use Rattle.blk_nodes.specs.Walk.{IsKnownAt};
ghost use Rattle.blk_nodes.specs.Writing.{FitsAt, HasRoomAt, own_place_by, zeros_place};

use crate::cluster::Cluster;
use crate::devices::Devices;
use crate::part::Part;
use crate::row::{Driver, Row};
use blk_base::{Device, Outcome, PIECE, Span};
use blk_graph::NodeId;
use q2_tables::Mapping;

/// What a cluster of the image in a row is mapped to.
fn mapping_of(row: &Option<Row>, cluster: u64) -> Mapping
    requires { OfImage row.now (λ image. cluster < clusters_in image) }
    ensures { OfImage row.now (λ image. entry_of result ≡ entry_in image cluster) }
{
    let Some(row) = row else { unreachable!() };
    let Driver::Qcow2(image) = &row.driver else {
        unreachable!()
    };
    image.mapping(cluster)
}

/// Whether there is room to put a cluster of the image in a row: Good, or NoSpace.
pub(crate) fn room_of<D: Device>(
    row: &Option<Row>,
    devices: &Devices<D>,
    file: NodeId,
    cluster: u64,
) -> Outcome
    requires held { IsSome (device_in devices.now file) }
    requires cluster { OfImage row.now (λ image. cluster < clusters_in image) }
    ensures { OfImage row.now (λ image. HasRoomAt file devices.now (PutFits image cluster) result) }
{
    let Some(row) = row else { unreachable!() };
    let Driver::Qcow2(image) = &row.driver else {
        unreachable!()
    };
    devices.room_for_put(file, image, cluster)
}

/// Writes a part of one mapped cluster of the image in a row, in place.
fn write_row<D: Device>(
    row: &mut Option<Row>,
    devices: &mut Devices<D>,
    file: NodeId,
    span: Span,
    bytes: &[u8],
) -> Outcome
    requires held { IsSome (device_in devices.old file) }
    requires whole { length bytes.now ≡ span.len }
    requires image { OfImage row.old (λ image. IsWithinCluster (cluster_size_in image) span
        × (cluster_of image span < clusters_in image) × (span.start < image.header.size)
        × IsHost (entry_for image span) × IsKnownAt file devices.old image) }
    ensures { CallsRow file (λ image capacity. own_end image span ≤ capacity)
        (λ image. Some (own_place image span)) (ChangesInPlace span bytes.now)
        row.old row.new devices.old devices.new (λ _. span.start) (λ _. bytes.now) result }
{
    let Some(taken) = row.take() else {
        unreachable!()
    };
    let Row {
        driver,
        size,
        is_read_only,
    } = taken;
    let Driver::Qcow2(mut image) = driver else {
        unreachable!()
    };
    let cluster = span.start / image.cluster_size();
    let outcome = devices.write_image(file, &mut image, span, bytes);
    let _ = image.zero_fits(cluster, 0);
    *row = Some(Row {
        driver: Driver::Qcow2(image),
        size,
        is_read_only,
    });
    outcome
}

/// Puts the bytes of one whole cluster of the image in a row, where there is room.
fn put_row<D: Device>(
    row: &mut Option<Row>,
    devices: &mut Devices<D>,
    file: NodeId,
    cluster: u64,
    bytes: &[u8],
) -> Outcome
    requires held { IsSome (device_in devices.old file) }
    requires image { OfImage row.old (λ image. (length bytes.now ≡ cluster_size_in image)
        × (cluster < clusters_in image) × IsKnownAt file devices.old image
        × FitsAt file devices.old (PutFits image cluster)) }
    ensures { CallsRow file (λ image. PutFits image cluster) (λ _. None)
        (PutsCluster cluster bytes.now)
        row.old row.new devices.old devices.new (λ image. cluster * cluster_size_in image)
        (λ _. bytes.now) result }
{
    let Some(taken) = row.take() else {
        unreachable!()
    };
    let Row {
        driver,
        size,
        is_read_only,
    } = taken;
    let Driver::Qcow2(mut image) = driver else {
        unreachable!()
    };
    let outcome = devices.put_image(file, &mut image, cluster, bytes);
    let _ = image.zero_fits(cluster, 0);
    *row = Some(Row {
        driver: Driver::Qcow2(image),
        size,
        is_read_only,
    });
    outcome
}

/// Makes one cluster of the image in a row read as zeros.
fn zero_row<D: Device>(
    row: &mut Option<Row>,
    devices: &mut Devices<D>,
    file: NodeId,
    cluster: u64,
) -> Outcome
    requires held { IsSome (device_in devices.old file) }
    requires image { OfImage row.old (λ image. (cluster < clusters_in image)
        × IsKnownAt file devices.old image) }
    ensures { CallsRow file (λ image. ZeroFits image cluster) (λ _. None) (ClearsCluster cluster)
        row.old row.new devices.old devices.new (λ image. cluster * cluster_size_in image)
        (λ image. replicate (cluster_size_in image) 0) result }
{
    let Some(taken) = row.take() else {
        unreachable!()
    };
    let Row {
        driver,
        size,
        is_read_only,
    } = taken;
    let Driver::Qcow2(mut image) = driver else {
        unreachable!()
    };
    let outcome = devices.zero_image(file, &mut image, cluster);
    let _ = image.zero_fits(cluster, 0);
    *row = Some(Row {
        driver: Driver::Qcow2(image),
        size,
        is_read_only,
    });
    outcome
}

/// Writes a piece of a cluster that isn't mapped: the whole cluster is put, whose other bytes are read down the chain. Room is
/// asked for first.
fn put_part<D: Device>(
    rows: &mut [Option<Row>],
    devices: &mut Devices<D>,
    cluster: &mut Cluster,
    part: &Part,
    bytes: &[u8],
) -> Outcome
    requires rows { length rows.old ≡ 64 }
    requires piece { HasPiece rows.old devices.old part.now }
    requires whole { length bytes.now ≡ part.now.span.len }
    ensures { WritesPart (λ image. PutFits image (cluster_of image part.now.span)) (λ _. None)
        (ChangesAround (IsDiskFound devices.old part.now) part.now.span bytes.now)
        rows.old rows.new devices.old devices.new part.now bytes.now result }
{
    let span = part.span;
    let at = part.node.index();
    let number = span.start / PIECE;
    let room = room_of(&rows[at], devices, part.file, number);
    if !room.is_good() {
        return room;
    }
    let read = cluster.gather(rows, devices, part, bytes);
    if !read.is_good() {
        return read;
    }
    put_row(&mut rows[at], devices, part.file, number, cluster.bytes())
}

/// Writes a piece of a mapped cluster in place.
fn own_part<D: Device>(
    rows: &mut [Option<Row>],
    devices: &mut Devices<D>,
    part: &Part,
    bytes: &[u8],
) -> Outcome
    requires rows { length rows.old ≡ 64 }
    requires piece { HasPiece rows.old devices.old part.now }
    requires whole { length bytes.now ≡ part.now.span.len }
    requires mapped { OfImage (row_in rows.old part.now.node)
        (λ image. IsHost (entry_for image part.now.span)) }
    ensures { WritesPart (λ image capacity. own_end image part.now.span ≤ capacity)
        (λ image. Some (own_place image part.now.span)) (ChangesInPlace part.now.span bytes.now)
        rows.old rows.new devices.old devices.new part.now bytes.now result }
{
    let at = part.node.index();
    write_row(&mut rows[at], devices, part.file, part.span, bytes)
}

/// Makes the cluster of a piece, which is that cluster up to the disk's end, read as zeros.
fn clear_part<D: Device>(rows: &mut [Option<Row>], devices: &mut Devices<D>, part: &Part) -> Outcome
    requires rows { length rows.old ≡ 64 }
    requires piece { HasPiece rows.old devices.old part.now }
    requires all { part.now.span.len ≡ part.now.whole.len }
    ensures { WritesPart (λ image. ZeroFits image (cluster_of image part.now.span)) (λ _. None)
        (λ image. ClearsCluster (cluster_of image part.now.span) image)
        rows.old rows.new devices.old devices.new part.now
        (replicate part.now.span.len 0) result }
{
    let span = part.span;
    let at = part.node.index();
    zero_row(&mut rows[at], devices, part.file, span.start / PIECE)
}

/// Writes a piece of a qcow2 node.
pub(crate) fn write_part<D: Device>(
    rows: &mut [Option<Row>],
    devices: &mut Devices<D>,
    cluster: &mut Cluster,
    part: &Part,
    bytes: &[u8],
) -> Outcome
    requires rows { length rows.old ≡ 64 }
    requires piece { HasPiece rows.old devices.old part.now }
    requires whole { length bytes.now ≡ part.now.span.len }
    ensures { WritesPart (λ image. WriteFits image part.now.span)
        (λ image. own_place_by (entry_for image part.now.span) image part.now.span)
        (IsImageWritten (IsDiskFound devices.old part.now) part.now.span bytes.now)
        rows.old rows.new devices.old devices.new part.now bytes.now result }
{
    let span = part.span;
    match mapping_of(&rows[part.node.index()], span.start / PIECE) {
        Mapping::Host { .. } => own_part(rows, devices, part, bytes),
        _ => put_part(rows, devices, cluster, part, bytes),
    }
}

/// Writes zeros to a piece of a qcow2 node: a whole cluster by its entry alone; what reads as zeros by its entry is left.
pub(crate) fn zero_part<D: Device>(
    rows: &mut [Option<Row>],
    devices: &mut Devices<D>,
    cluster: &mut Cluster,
    part: &Part,
    zeros: &[u8],
) -> Outcome
    requires rows { length rows.old ≡ 64 }
    requires piece { HasPiece rows.old devices.old part.now }
    requires zeros { zeros.now ≡ replicate part.now.span.len 0 }
    ensures { WritesPart (λ image. ZerosFit image part.now.span)
        (λ image. zeros_place (is_whole image part.now.span) image part.now.span)
        (IsZeroed (IsDiskFound devices.old part.now) part.now.span)
        rows.old rows.new devices.old devices.new part.now
        (replicate part.now.span.len 0) result }
{
    let span = part.span;
    let whole = part.whole;
    if span.len == whole.len {
        return clear_part(rows, devices, part);
    }
    match mapping_of(&rows[part.node.index()], span.start / PIECE) {
        Mapping::Zero { .. } => Outcome::Good,
        _ => write_part(rows, devices, cluster, part, zeros),
    }
}
