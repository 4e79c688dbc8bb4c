//! Reading what a walk down a chain found.
ghost use Rattle.std.specs.Prelude.{◌≡◌, ◌<◌, [], length, replicate};
ghost use Rattle.blk_base.specs.Pieces.{block_size};
ghost use Rattle.q2_image.specs.Guest.{guest_bytes};
ghost use Rattle.q2_image.specs.Reading.{IsWithinCluster};
ghost use Rattle.blk_nodes.specs.Contents.{bytes_by};
ghost use Rattle.blk_nodes.specs.Found.{found_bytes, CanBeFound, IsReadOfImage, IsReadOfSource, IsSourceTold, IsZeroPastImage};
ghost use Rattle.blk_nodes.specs.Nodes.{AreTold, device_in, IsFileTold};
ghost use Rattle.blk_nodes.specs.Reading.{HaveRisen};
ghost use Rattle.blk_nodes.specs.Walk.{CanSourceBeRead, IsPlaceMapped};

use crate::devices::Devices;
use crate::row::{Driver, Row};
use crate::source::Source;
use blk_base::{Device, Outcome, Span};
use blk_graph::NodeId;

fn fill_zeros(buffer: &mut [u8])
    ensures { buffer.new ≡ replicate (length buffer.old) 0 }
{
    buffer.fill(0);
}

/// Reads from a cluster of an image's own.
fn read_mapped<D: Device>(
    rows: &[Option<Row>],
    devices: &mut Devices<D>,
    node: NodeId,
    file: NodeId,
    span: Span,
    buffer: &mut [u8],
) -> Outcome
    requires rows { length rows.now ≡ 64 }
    requires some { 0 < span.len }
    requires block { IsWithinCluster block_size span }
    requires mapped { IsPlaceMapped rows.now devices.old node file span.start }
    requires whole { length buffer.old ≡ span.len }
    ensures read { IsFileTold devices.old file → result ≡ Outcome.Good
        → buffer.new ≡ guest_bytes (bytes_by (device_in devices.old file)) [] span.start span.len }
    ensures can { result ≡ Outcome.Good
        → IsZeroPastImage rows.now devices.old node file span buffer.new }
    ensures outcome { IsReadOfImage rows.now node file span devices.old devices.new result }
    ensures devices { HaveRisen devices.old devices.new }
{
    let Some(row) = &rows[node.index()] else {
        unreachable!()
    };
    let Driver::Qcow2(image) = &row.driver else {
        unreachable!()
    };
    let _ = image.cluster_size();
    devices.read_image(file, image, span, buffer)
}

/// Reads what was found: bytes from a place to at most the end of its block.
pub(crate) fn read_found<D: Device>(
    rows: &[Option<Row>],
    devices: &mut Devices<D>,
    source: Source,
    span: Span,
    buffer: &mut [u8],
) -> Outcome
    requires rows { length rows.now ≡ 64 }
    requires some { 0 < span.len }
    requires block { IsWithinCluster block_size span }
    requires can { CanSourceBeRead rows.now devices.old span.start source }
    requires whole { length buffer.old ≡ span.len }
    ensures found { IsSourceTold devices.old source → result ≡ Outcome.Good
        → buffer.new ≡ found_bytes devices.old source span.start span.len }
    ensures read { AreTold devices.old → result ≡ Outcome.Good
        → buffer.new ≡ found_bytes devices.old source span.start span.len }
    ensures can { result ≡ Outcome.Good
        → CanBeFound rows.now devices.old source span buffer.new }
    ensures outcome { IsReadOfSource rows.now source span devices.old devices.new result }
    ensures devices { HaveRisen devices.old devices.new }
{
    match source {
        Source::Zeros => {
            fill_zeros(buffer);
            Outcome::Good
        }
        Source::File { file, start } => devices.read_file(file, start, buffer),
        Source::Image { node, file } => read_mapped(rows, devices, node, file, span, buffer),
    }
}
