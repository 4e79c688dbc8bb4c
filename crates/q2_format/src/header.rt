//! The header of a qcow2 image of version 3, as the crates above see it.

use std::fmt;
use thiserror::Error;

/// The most bytes that a disk may have: 256 GiB.
pub const MAX_DISK_SIZE: u64 = 274_877_906_944;

/// The most clusters that a disk may have.
pub const MAX_GUEST_CLUSTERS: u64 = 4_194_304;

/// The most clusters that the file under an image may have.
pub const MAX_FILE_CLUSTERS: u64 = 8_388_608;

/// The most entries that an L1 table may have.
pub const MAX_L1_SIZE: u32 = 1_024;

/// The most clusters that a refcount table may take.
pub const MAX_REFCOUNT_TABLE_CLUSTERS: u32 = 16;

/// The most bytes that the name of a backing file may have.
pub const MAX_NAME_LENGTH: u32 = 1_023;

/// The bytes of the header's fixed fields: no header of version 3 is shorter.
pub const MIN_HEADER_LENGTH: u32 = 104;

/// Where some bytes stand in the header cluster.
#[derive(Clone, Copy, Debug, PartialEq, Eq, Hash)]
pub struct Place {
    /// The offset of the first byte.
    pub at: u64,
    /// How many bytes there are.
    pub len: u32,
}

/// The fields of an image's header, under the names of the published qcow2 text, and what its list of
/// extensions says. Offsets are bytes in the file.
#[derive(Clone, Copy, Debug, PartialEq, Eq, Hash)]
pub struct Header {
    /// The bytes of the disk.
    pub size: u64,
    /// A cluster has `2 ^ cluster_bits` bytes.
    pub cluster_bits: u32,
    /// The entries of the L1 table.
    pub l1_size: u32,
    /// The offset of the L1 table.
    pub l1_offset: u64,
    /// The offset of the refcount table.
    pub ref_offset: u64,
    /// The clusters that the refcount table takes.
    pub ref_clusters: u32,
    /// A refcount has `2 ^ refcount_order` bits.
    pub refcount_order: u32,
    /// The bytes of the header, behind which the extensions begin.
    pub header_length: u32,
    /// The number of internal snapshots.
    pub nb_snaps: u32,
    /// The offset of the snapshot table.
    pub snaps_offset: u64,
    /// The compatible feature bits, which a reader may ignore.
    pub compat: u64,
    /// The autoclear feature bits.
    pub autoclear: u64,
    /// The backing file's name, where the image has one.
    pub name: Option<Place>,
    /// The data of the extension that names the backing file's format, where there is one.
    pub format: Option<Place>,
    /// Behind the ending extension where there is one, and else where the list of extensions ends.
    pub ext_end: u64,
    /// Whether the list has an ending extension.
    pub ended: bool,
}

/// Why bytes are no header of an image that this project opens.
#[derive(Clone, Copy, Debug, PartialEq, Eq, Hash, Error)]
pub enum HeaderStop {
    /// The file has fewer than 104 bytes, or the header's length is below 104 or above the file's.
    Short,
    /// The file doesn't begin with `QFI` and 0xfb.
    Magic,
    /// The version isn't 3.
    Version,
    /// Clusters don't have 64 KiB.
    ClusterBits,
    /// Refcounts don't have 16 bits.
    RefcountOrder,
    /// This incompatible feature bit is set, and none below it.
    Feature(u32),
    /// The image is encrypted.
    Crypt,
    /// The image has internal snapshots.
    Snapshots,
    /// The backing file's name has more than 1,023 bytes, begins within the header, ends past the first
    /// cluster, or isn't UTF-8.
    BackingName,
    /// The header ends past the first cluster, or an extension's data end past the list's area. The area
    /// ends at the backing file's name, or else with the first cluster.
    Extension,
    /// The disk, the file, the L1 table or the refcount table is above its limit.
    TooLarge,
}

impl fmt::Display for HeaderStop {
    ghost use Rattle.std.specs.Prelude.{Some};
    ghost use Rattle.q2_format.specs.Text.{header_stop_text};

    ghost output = { λ stop. Some (header_stop_text stop) };

    fn fmt<W: fmt::Write>(&self, f: &mut fmt::Formatter<W>) -> fmt::Result {
        match self {
            HeaderStop::Short => f.write_str("Short"),
            HeaderStop::Magic => f.write_str("Magic"),
            HeaderStop::Version => f.write_str("Version"),
            HeaderStop::ClusterBits => f.write_str("ClusterBits"),
            HeaderStop::RefcountOrder => f.write_str("RefcountOrder"),
            HeaderStop::Feature(bit) => write!(f, "Feature({bit})"),
            HeaderStop::Crypt => f.write_str("Crypt"),
            HeaderStop::Snapshots => f.write_str("Snapshots"),
            HeaderStop::BackingName => f.write_str("BackingName"),
            HeaderStop::Extension => f.write_str("Extension"),
            HeaderStop::TooLarge => f.write_str("TooLarge"),
        }
    }
}
