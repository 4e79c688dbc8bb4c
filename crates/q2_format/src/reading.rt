//! Reading a header, stage by stage, in the order in which its faults are named.

ghost use Rattle.std.specs.Prelude.{◌≡◌, length, ◌+◌, ◌^◌, ◌<◌, ◌≤◌, IfOk, OnOk};
ghost use Rattle.std.specs.Str.{is_utf8};
ghost use Rattle.q2_format.specs.Bytes.{place_bytes};
ghost use Rattle.q2_format.specs.Sizes.{cluster_size};
ghost use Rattle.q2_format.specs.Header.{refusal_in, header_refusal, format_refusal, profile_refusal, name_refusal, extension_refusal, size_refusal, header_of, name_place_of, extensions_of, area_end, is_bad_name, cluster_bits_of, IsWithinLimits};

use crate::extensions::{ExtensionList, read_extensions};
use crate::header::{
    Header, HeaderStop, MAX_DISK_SIZE, MAX_FILE_CLUSTERS, MAX_GUEST_CLUSTERS, MAX_L1_SIZE,
    MAX_NAME_LENGTH, MAX_REFCOUNT_TABLE_CLUSTERS, MIN_HEADER_LENGTH, Place,
};
use crate::numbers::{copy_from, u32_at, u64_at};

/// The first four bytes of an image: `QFI\xfb`.
pub(crate) const MAGIC: u32 = 0x5146_49fb;

/// The version of the format.
pub(crate) const VERSION: u32 = 3;

/// The cluster size that is supported: 64 KiB.
pub(crate) const CLUSTER_BITS: u32 = 16;

/// The width of refcounts that is supported: 16 bits.
pub(crate) const REFCOUNT_ORDER: u32 = 4;

/// Whether the file is an image of version 3 whose header lies within it.
#[tactic(auto, unfolding(crate::specs::Header::format_refusal))]
fn check_format(cluster: &[u8], file_len: u64) -> Result<(), HeaderStop>
    ensures { refusal_in result ≡ format_refusal cluster.now file_len }
{
    if u32_at(cluster, 0) != MAGIC {
        return Err(HeaderStop::Magic);
    }
    if u32_at(cluster, 4) != VERSION {
        return Err(HeaderStop::Version);
    }
    let header_length = u32_at(cluster, 100);
    if header_length < MIN_HEADER_LENGTH || file_len < u64::from(header_length) {
        return Err(HeaderStop::Short);
    }
    Ok(())
}

/// Whether the image's shape and features are supported.
#[tactic(auto, unfolding(crate::specs::Header::profile_refusal))]
fn check_profile(cluster: &[u8]) -> Result<(), HeaderStop>
    ensures refused { refusal_in result ≡ profile_refusal cluster.now }
    ensures shape { OnOk result (cluster_bits_of cluster.now ≡ CLUSTER_BITS) }
{
    if u32_at(cluster, 20) != CLUSTER_BITS {
        return Err(HeaderStop::ClusterBits);
    }
    if u32_at(cluster, 96) != REFCOUNT_ORDER {
        return Err(HeaderStop::RefcountOrder);
    }
    let incompatible = u64_at(cluster, 72);
    if incompatible != 0 {
        return Err(HeaderStop::Feature(incompatible.trailing_zeros()));
    }
    if u32_at(cluster, 32) != 0 {
        return Err(HeaderStop::Crypt);
    }
    if u32_at(cluster, 60) != 0 {
        return Err(HeaderStop::Snapshots);
    }
    Ok(())
}

/// Where the backing name stands, where there is one.
#[tactic(auto, unfolding(crate::specs::Header::name_place_of))]
fn name_place(cluster: &[u8]) -> Option<Place>
    ensures { result ≡ name_place_of cluster.now }
{
    let at = u64_at(cluster, 8);
    let len = u32_at(cluster, 16);
    if at == 0 || len == 0 {
        None
    } else {
        Some(Place { at, len })
    }
}

/// Whether the bytes from `at` on, as many as `name` has, are UTF-8. They are copied there, since the slice
/// may end before them.
fn copies_text(cluster: &[u8], at: usize, name: &mut [u8]) -> bool
    requires { at < 2 ^ 32 }
    ensures { result ≡ is_utf8 (place_bytes cluster.now at (length name.old)) }
{
    copy_from(cluster, at, name);
    str::from_utf8(name).is_ok()
}

/// Whether the bytes of a name are UTF-8.
fn is_text(cluster: &[u8], at: usize, len: usize) -> bool
    requires at { at < 2 ^ 32 }
    requires len { len ≤ MAX_NAME_LENGTH }
    ensures { result ≡ is_utf8 (place_bytes cluster.now at len) }
{
    let mut name = [0; MAX_NAME_LENGTH as usize];
    copies_text(cluster, at, &mut name[..len])
}

/// The bytes of a cluster.
fn cluster_len(cluster_bits: u32) -> u64
    requires { cluster_bits < 64 }
    ensures { result ≡ cluster_size cluster_bits }
{
    1 << cluster_bits
}

/// Whether a name is longer than names may be, begins within the header, ends past its cluster of `c`
/// bytes, or isn't UTF-8.
fn is_refused_name(cluster: &[u8], c: u64, name: Place) -> bool
    requires size { c ≡ cluster_size (cluster_bits_of cluster.now) }
    requires small { c < 2 ^ 32 }
    ensures { result ≡ is_bad_name cluster.now name }
{
    name.len > MAX_NAME_LENGTH
        || name.at < u64::from(u32_at(cluster, 100))
        || name.at > c
        || name.at + u64::from(name.len) > c
        || !is_text(cluster, name.at as usize, name.len as usize)
}

/// The backing name of an image of clusters of `c` bytes.
#[tactic(auto, unfolding(crate::specs::Header::name_refusal))]
fn check_name(cluster: &[u8], c: u64) -> Result<Option<Place>, HeaderStop>
    requires size { c ≡ cluster_size (cluster_bits_of cluster.now) }
    requires small { c < 2 ^ 32 }
    ensures refused { refusal_in result ≡ name_refusal cluster.now }
    ensures name { IfOk result (λ name. name ≡ name_place_of cluster.now) }
    ensures within { OnOk result (area_end cluster.now ≤ c) }
{
    let Some(name) = name_place(cluster) else {
        return Ok(None);
    };
    if is_refused_name(cluster, c, name) {
        return Err(HeaderStop::BackingName);
    }
    Ok(Some(name))
}

/// The extensions of an image of clusters of `c` bytes, in front of its backing name.
#[tactic(auto, unfolding(crate::specs::Header::extension_refusal, crate::specs::Header::extensions_of))]
fn check_extensions(
    cluster: &[u8],
    c: u64,
    name: Option<Place>,
) -> Result<ExtensionList, HeaderStop>
    requires size { c ≡ cluster_size (cluster_bits_of cluster.now) }
    requires small { c < 2 ^ 32 }
    requires name { name ≡ name_place_of cluster.now }
    requires within { area_end cluster.now ≤ c }
    ensures refused { refusal_in result ≡ extension_refusal cluster.now }
    ensures list { IfOk result (λ list. list ≡ extensions_of cluster.now) }
{
    let header_length = u64::from(u32_at(cluster, 100));
    if header_length > c {
        return Err(HeaderStop::Extension);
    }
    let end = name.map_or(c, |name| name.at);
    let list = read_extensions(cluster, header_length, end);
    if list.overruns {
        return Err(HeaderStop::Extension);
    }
    Ok(list)
}

/// Whether the sizes in the header and the file's own are within the limits.
#[tactic(auto, unfolding(crate::specs::Header::size_refusal))]
fn check_sizes(cluster: &[u8], c: u64, file_len: u64) -> Result<(), HeaderStop>
    requires size { c ≡ cluster_size (cluster_bits_of cluster.now) }
    requires some { 0 < c }
    ensures { refusal_in result ≡ size_refusal cluster.now file_len }
{
    let size = u64_at(cluster, 24);
    if size > MAX_DISK_SIZE
        || size.div_ceil(c) > MAX_GUEST_CLUSTERS
        || file_len.div_ceil(c) > MAX_FILE_CLUSTERS
        || u32_at(cluster, 36) > MAX_L1_SIZE
        || u32_at(cluster, 56) > MAX_REFCOUNT_TABLE_CLUSTERS
    {
        return Err(HeaderStop::TooLarge);
    }
    Ok(())
}

/// The fields by position, beside what was found of the name and the extensions.
#[tactic(auto, unfolding(crate::specs::Header::header_of))]
fn fields(cluster: &[u8], name: Option<Place>, list: &ExtensionList) -> Header
    requires name { name ≡ name_place_of cluster.now }
    requires list { list.now ≡ extensions_of cluster.now }
    ensures { result ≡ header_of cluster.now }
{
    Header {
        size: u64_at(cluster, 24),
        cluster_bits: u32_at(cluster, 20),
        l1_size: u32_at(cluster, 36),
        l1_offset: u64_at(cluster, 40),
        ref_offset: u64_at(cluster, 48),
        ref_clusters: u32_at(cluster, 56),
        refcount_order: u32_at(cluster, 96),
        header_length: u32_at(cluster, 100),
        nb_snaps: u32_at(cluster, 60),
        snaps_offset: u64_at(cluster, 64),
        compat: u64_at(cluster, 80),
        autoclear: u64_at(cluster, 88),
        name,
        format: list.format,
        ext_end: list.end,
        ended: list.ended,
    }
}

/// Reads the header of a file of `file_len` bytes from its first cluster, by the published qcow2 text,
/// version 3. Bytes past the slice's end count as 0, as those past a file's end do.
///
/// Where the file has fewer than 104 bytes the answer is `Short`. Else it is the first that holds of
/// `Magic`, `Version`, `Short`, and the others in the order in which [`HeaderStop`] has them.
#[tactic(auto, unfolding(crate::specs::Header::header_refusal))]
pub fn read_header(cluster: &[u8], file_len: u64) -> Result<Header, HeaderStop>
    ensures refused { refusal_in result ≡ header_refusal cluster.now file_len }
    ensures fields { IfOk result (λ header. header ≡ header_of cluster.now) }
    ensures limits { IfOk result (λ header. IsWithinLimits header file_len) }
{
    if file_len < u64::from(MIN_HEADER_LENGTH) {
        return Err(HeaderStop::Short);
    }
    check_format(cluster, file_len)?;
    check_profile(cluster)?;
    let c = cluster_len(u32_at(cluster, 20));
    let name = check_name(cluster, c)?;
    let list = check_extensions(cluster, c, name)?;
    check_sizes(cluster, c, file_len)?;
    Ok(fields(cluster, name, &list))
}
