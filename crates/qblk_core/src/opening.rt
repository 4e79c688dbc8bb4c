//! The nodes of a run, made over the image's device.
ghost use Rattle.std.specs.Prelude.{◌≡◌, false, None, IfOk, IfErr, OnErr};
ghost use Rattle.blk_nodes.specs.Adding.{with_below, guest_edge};
ghost use Rattle.blk_nodes.specs.Nodes.{DeviceSeen};
ghost use Rattle.blk_nodes.specs.Overlays.{IsOpened, with_qcow2};
ghost use Rattle.qblk_core.specs.ImageNodes.{IsImageNodeOver, file_node_alone, asked_image, image_name, seen_device};
ghost use Rattle.qblk_core.specs.Opened.{IsFileOver, StopsImageNode, IsOpenedAs, IsStopped, open_stop};

use crate::closing::device_of;
use crate::status::InputWhy;
use blk_base::{DevNo, Device, NoMemory, Span, Text};
use blk_graph::NodeId;
use blk_nodes::{Backing, Nodes};
use q2_format::MAX_DISK_SIZE;
use q2_image::{Image, ImageStop};
use qblk_words::Format;
use std::alloc::Global;

/// The only device of this run.
pub(crate) const DEVICE: DevNo = DevNo(0);

/// Why an image isn't opened.
pub(crate) enum OpenStop {
    /// Its bytes are refused.
    Refused(InputWhy),
    /// A read of the device failed; its count of faults afterwards.
    Io { count: u64 },
    NoMemory,
}

/// The `file` node over a device.
fn over_device<D: Device>(alloc: Global, device: D) -> Result<(Nodes<D>, NodeId), D>
    ensures made { IfOk result (λ made. IsFileOver (seen_device D.Device device) made.0) }
    ensures file { IfOk result (λ made. made.1 ≡ 0) }
    ensures back { IfErr result (λ back. back ≡ device) }
{
    let Ok(name) = Text::copied(alloc, "file") else {
        return Err(device);
    };
    let Ok(mut nodes) = Nodes::new(alloc) else {
        return Err(device);
    };
    match nodes.add_file(name, device, DEVICE, false) {
        Ok(file) => Ok((nodes, file)),
        Err((_, device)) => {
            nodes.into_devices().end();
            Err(device)
        }
    }
}

/// The name of the image's node.
fn name_of_image(alloc: Global) -> Result<Text, NoMemory>
    ensures { IfOk result (λ name. name.bytes ≡ image_name) }
{
    Text::copied(alloc, "image")
}

/// Adds the node of a raw image, which is the whole file.
fn add_raw<D: Device>(alloc: Global, nodes: &mut Nodes<D>, file: NodeId) -> Result<NodeId, OpenStop>
    requires file { file ≡ 0 }
    requires over { (device : DeviceSeen) × IsFileOver device nodes.old }
    ensures ok { IfOk result (λ id. (id ≡ 1) × IsImageNodeOver Format.Raw nodes.old nodes.new) }
    ensures err { IfErr result (StopsImageNode Format.Raw nodes.old nodes.new) }
{
    let len = nodes.size(file);
    if len > MAX_DISK_SIZE {
        return Err(OpenStop::Refused(InputWhy::TooLarge));
    }
    let Ok(name) = name_of_image(alloc) else {
        return Err(OpenStop::NoMemory);
    };
    match nodes.add_raw(name, file, Span { start: 0, len }, false) {
        Ok(image) => Ok(image),
        Err(_) => unreachable!(),
    }
}

/// Why an image of qcow2 isn't opened.
fn stop_of(stop: ImageStop) -> OpenStop
    ensures { result ≡ open_stop stop }
{
    match stop {
        ImageStop::Io { count } => OpenStop::Io { count },
        ImageStop::NoMemory => OpenStop::NoMemory,
        stop => OpenStop::Refused(InputWhy::Image(stop)),
    }
}

/// Adds the node of an image that is open and names no backing file.
fn add_opened<D: Device>(
    alloc: Global,
    nodes: &mut Nodes<D>,
    file: NodeId,
    image: Image,
) -> Result<NodeId, NoMemory>
    requires file { file ≡ 0 }
    requires over { (device : DeviceSeen) × IsFileOver device nodes.old }
    requires opened { IsOpened nodes.old.devices 0 image }
    requires unnamed { image.header.name ≡ None }
    ensures ok { IfOk result
        (λ id. (id ≡ 1) × (nodes.new ≡ with_qcow2 nodes.old asked_image 1 image)) }
    ensures err { OnErr result (nodes.new ≡ nodes.old) }
{
    let Ok(name) = name_of_image(alloc) else {
        return Err(NoMemory);
    };
    match nodes.add_image(name, file, image, Backing::Unsaid, false) {
        Ok(image) => Ok(image),
        Err(_) => unreachable!(),
    }
}

/// Opens an image of qcow2 that names no backing file, and adds its node.
fn add_qcow2<D: Device>(
    alloc: Global,
    nodes: &mut Nodes<D>,
    file: NodeId,
) -> Result<NodeId, OpenStop>
    requires file { file ≡ 0 }
    requires over { (device : DeviceSeen) × IsFileOver device nodes.old }
    ensures ok { IfOk result (λ id. (id ≡ 1) × IsImageNodeOver Format.Qcow2 nodes.old nodes.new) }
    ensures err { IfErr result (StopsImageNode Format.Qcow2 nodes.old nodes.new) }
{
    let image = match nodes.open_image(alloc, file) {
        Ok(image) => image,
        Err(stop) => return Err(stop_of(stop)),
    };
    if image.has_backing_name() {
        return Err(OpenStop::Refused(InputWhy::NeedsBacking));
    }
    match add_opened(alloc, nodes, file, image) {
        Ok(image) => Ok(image),
        Err(NoMemory) => Err(OpenStop::NoMemory),
    }
}

/// Adds the image's node.
fn add_over<D: Device>(
    alloc: Global,
    format: Format,
    nodes: &mut Nodes<D>,
    file: NodeId,
) -> Result<NodeId, OpenStop>
    requires file { file ≡ 0 }
    requires over { (device : DeviceSeen) × IsFileOver device nodes.old }
    ensures ok { IfOk result (λ id. (id ≡ 1) × IsImageNodeOver format nodes.old nodes.new) }
    ensures err { IfErr result (StopsImageNode format nodes.old nodes.new) }
{
    match format {
        Format::Raw => add_raw(alloc, nodes, file),
        Format::Qcow2 => add_qcow2(alloc, nodes, file),
    }
}

/// Puts the guest's drive on the image's node.
fn attach<D: Device>(nodes: &mut Nodes<D>, image: NodeId)
    requires image { image ≡ 1 }
    requires over { (format : Format) × (device : DeviceSeen)
        × IsImageNodeOver format (file_node_alone device) nodes.old }
    ensures { nodes.new ≡ with_below nodes.old (guest_edge nodes.old 0 1 false) }
{
    match nodes.attach(0, image, false) {
        Ok(()) => {}
        Err(_) => unreachable!(),
    }
}

/// The nodes over a device, and the number of the image's. What isn't opened leaves what the device holds.
pub(crate) fn open_nodes<D: Device>(
    alloc: Global,
    format: Format,
    device: D,
) -> Result<(Nodes<D>, NodeId), (OpenStop, D)>
    ensures opened { IfOk result
        (λ opened. IsOpenedAs format (seen_device D.Device device) opened.0 opened.1) }
    ensures stopped { IfErr result
        (λ stop. IsStopped format (seen_device D.Device device)
        (seen_device D.Device stop.1) stop.0) }
{
    let (mut nodes, file) = match over_device(alloc, device) {
        Ok(made) => made,
        Err(device) => return Err((OpenStop::NoMemory, device)),
    };
    match add_over(alloc, format, &mut nodes, file) {
        Ok(image) => {
            attach(&mut nodes, image);
            let _ = nodes.edges();
            Ok((nodes, image))
        }
        Err(stop) => Err((stop, device_of(nodes))),
    }
}
