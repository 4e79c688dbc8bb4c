//! Reading and judging an image's header.

ghost use Rattle.std.specs.Prelude.{◌≡◌, ◌+◌, ◌<◌, ◌^◌, ℕ, Bool, false, List, length, Some, None, Option, Err, IfOk, IfErr, IfSome};
ghost use Rattle.blk_base.specs.Calls.{FailsAt};
ghost use Rattle.blk_base.specs.Content.{AreZeroPast, bytes_at};
ghost use Rattle.blk_base.specs.Device.{Reads};
ghost use Rattle.blk_base.specs.declared.device.DeviceCall.{DeviceCall};
ghost use Rattle.q2_format.specs.Sizes.{cluster_size};
ghost use Rattle.q2_format.specs.Header.{header_of, header_refusal, refusal_in, IsWithinLimits, CanBeRead};
ghost use Rattle.q2_format.specs.Sound.{is_misplaced};
ghost use Rattle.q2_format.specs.declared.header.HeaderStop.TheVariants.{Short};
ghost use Rattle.q2_format.specs.declared.header.TheConstants.{MIN_HEADER_LENGTH};
ghost use Rattle.q2_image.specs.declared.header.TheConstants.{CLUSTER};
ghost use Rattle.q2_image.specs.Opening.{Judges, fault_of_image, IsNoFault, refusal_of, header_stops, place_stops};
ghost use Rattle.q2_image.specs.OpeningCalls.{IsFirstCall};
ghost use Rattle.q2_image.specs.Refusals.{IsRefusalFor};

use crate::stop::ImageStop;
use blk_base::{Device, NoMemory};
use q2_format::{Header, HeaderStop, MIN_HEADER_LENGTH, read_header};
use std::alloc::Global;

/// The bytes of a cluster.
const CLUSTER: usize = 65_536;

/// A buffer for a cluster.
pub(crate) fn cluster_buffer(alloc: Global) -> Result<Vec<u8>, NoMemory>
    ensures { IfOk result (λ buffer. length buffer.items ≡ CLUSTER) }
{
    Ok(vec![in alloc; 0; CLUSTER]?)
}

/// The first cluster of a file, with zeros past the file's end.
fn read_first_cluster<D: Device>(alloc: Global, dev: &mut D) -> Result<Vec<u8>, ImageStop>
    ensures read { IfOk result
        (λ cluster. (file : List ℕ) → D.content dev.old ≡ Some file
        → cluster.items ≡ bytes_at file 0 CLUSTER) }
    ensures past { IfOk result (λ cluster. AreZeroPast (D.size dev.old) 0 cluster.items) }
    ensures stop { IfErr result (λ stop. refusal_of stop ≡ None) }
    ensures device { Reads D.Device (fault_of_image result) dev.old dev.new }
    ensures call { FailsAt (λ call. call ≡ DeviceCall.Read 0 CLUSTER)
        (fault_of_image result) (D.failed_call dev.new) }
{
    let mut cluster = cluster_buffer(alloc)?;
    match dev.read_at(0, &mut cluster) {
        Ok(()) => Ok(cluster),
        Err(_) => Err(ImageStop::Io {
            count: dev.faults(),
        }),
    }
}

/// The header of a file of `len` bytes by its first cluster, or why it is refused.
fn judge_header(cluster: &[u8], len: u64) -> Result<Header, HeaderStop>
    requires { AreZeroPast len 0 cluster.now }
    ensures refused { refusal_in result ≡ header_refusal cluster.now len }
    ensures fields { IfOk result (λ header. header ≡ header_of cluster.now) }
    ensures limits { IfOk result (λ header. IsWithinLimits header len) }
    ensures refusal { IfErr result (λ stop. IsRefusalFor (ImageStop.Header stop) len) }
{
    read_header(cluster, len)
}

/// The header of the image on a device, or why it is refused. A file that is too short for one isn't read.
#[tactic(auto, using(crate::proofs::FirstCluster::short_refused, crate::proofs::FirstCluster::refused_alike, crate::proofs::FirstCluster::accepted_alike, crate::proofs::FirstCluster::header_alike))]
pub(crate) fn open_header<D: Device>(alloc: Global, dev: &mut D) -> Result<Header, ImageStop>
    ensures judged { (file : List ℕ) → D.content dev.old ≡ Some file
        → Judges (header_stops file (D.size dev.old)) result }
    ensures header { IfOk result
        (λ h. (file : List ℕ) → D.content dev.old ≡ Some file → header_of file ≡ h) }
    ensures limits { IfOk result (λ h. IsWithinLimits h (D.size dev.old)) }
    ensures readable { IfOk result (λ h. CanBeRead h (D.size dev.old)) }
    ensures short { D.size dev.old < MIN_HEADER_LENGTH → result ≡ Err (ImageStop.Header Short) }
    ensures refusal { IfErr result (λ stop. IsRefusalFor stop (D.size dev.old)) }
    ensures device { Reads D.Device (fault_of_image result) dev.old dev.new }
    ensures call { FailsAt (IsFirstCall (D.size dev.old))
        (fault_of_image result) (D.failed_call dev.new) }
{
    let len = dev.length();
    if len < u64::from(MIN_HEADER_LENGTH) {
        return Err(ImageStop::Header(HeaderStop::Short));
    }
    let cluster = read_first_cluster(alloc, dev)?;
    match judge_header(&cluster, len) {
        Ok(header) => Ok(header),
        Err(stop) => Err(ImageStop::Header(stop)),
    }
}

/// The bytes of a cluster of an image.
pub(crate) fn cluster_size(header: &Header) -> u64
    requires { header.now.cluster_bits ≡ 16 }
    ensures size { result ≡ cluster_size header.now.cluster_bits }
    ensures number { result ≡ CLUSTER }
{
    1 << header.cluster_bits
}

/// Whether an offset isn't a multiple of the cluster size, or isn't below the file's length.
fn is_misplaced(cluster_size: u64, len: u64, offset: u64) -> bool
    requires { 0 < cluster_size }
    ensures { result ≡ is_misplaced cluster_size len offset }
{
    offset % cluster_size != 0 || offset >= len
}

/// Whether the two tables that a header names lie in their places and are large enough.
#[tactic(auto, unfolding(q2_format::specs::Sound::bad_refcount_table, q2_format::specs::Sound::bad_l1_table))]
pub(crate) fn check_places(header: &Header, len: u64) -> Result<(), ImageStop>
    requires { IsWithinLimits header.now len }
    ensures no_fault { IfErr result IsNoFault }
    ensures judged { Judges (place_stops header.now len) result }
{
    let cluster_size = cluster_size(header);
    if header.ref_clusters == 0 || is_misplaced(cluster_size, len, header.ref_offset) {
        return Err(ImageStop::Offset(header.ref_offset));
    }
    let entries = header
        .size
        .div_ceil(cluster_size)
        .div_ceil(cluster_size / 8);
    if u64::from(header.l1_size) < entries || is_misplaced(cluster_size, len, header.l1_offset) {
        return Err(ImageStop::Offset(header.l1_offset));
    }
    Ok(())
}
