//! The image of a new qcow2 node.
ghost use Rattle.std.specs.Prelude.{◌≡◌, IsSome, IfErr, OnOk, MatchOption, MatchResult, Some, None, Ok, Err};
ghost use Rattle.blk_nodes.specs.Nodes.{device_in};
ghost use Rattle.blk_nodes.specs.Overlays.{backing_stop, IsOpened, IsOpening, image_stop};
ghost use Rattle.blk_nodes.specs.Reading.{HaveRisen};

use crate::backing::Backing;
use crate::devices::Devices;
use crate::stop::AddStop;
use blk_base::Device;
use blk_graph::NodeId;
use q2_image::{Image, ImageStop};
use std::alloc::Global;

fn image_stop(stop: ImageStop) -> AddStop
    ensures { result ≡ image_stop stop }
{
    match stop {
        ImageStop::NoMemory => AddStop::NoMemory,
        _ => AddStop::Image(stop),
    }
}

/// Whether what was said of the backing node, whose disk has `size` bytes, fits the image.
fn check_backing(image: &Image, backing: &Backing, size: u64) -> Result<(), AddStop>
    ensures { MatchOption (backing_stop image.now backing.now size) (result ≡ Ok tt)
        (λ stop. result ≡ Err stop) }
{
    match backing {
        Backing::Unsaid => {
            if image.has_backing_name() {
                return Err(AddStop::BackingNeeded);
            }
            Ok(())
        }
        Backing::Null => Ok(()),
        Backing::Node(_) => {
            if size != image.size() {
                return Err(AddStop::SizeDiffers);
            }
            Ok(())
        }
    }
}

/// Opens the image in a file, for a node with such a backing node, whose disk has `size` bytes.
pub(crate) fn open_over<D: Device>(
    alloc: Global,
    devices: &mut Devices<D>,
    file: NodeId,
    backing: &Backing,
    size: u64,
) -> Result<Image, AddStop>
    requires { IsSome (device_in devices.old file) }
    ensures opened { MatchResult result
        (λ image. IsOpened devices.old file image × (backing_stop image backing.now size ≡ None))
        (IsOpening devices.old devices.new file backing.now size) }
    ensures quiet { OnOk result (devices.new ≡ devices.old) }
    ensures risen { HaveRisen devices.old devices.new }
{
    let image = match devices.open_image(alloc, file) {
        Ok(image) => image,
        Err(stop) => return Err(image_stop(stop)),
    };
    match check_backing(&image, backing, size) {
        Ok(()) => Ok(image),
        Err(stop) => Err(stop),
    }
}
