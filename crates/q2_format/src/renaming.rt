//! Another backing name in a header: which bytes the header's cluster gets, and what the header says then.

ghost use Rattle.std.specs.Prelude.{◌≡◌, ◌+◌, ◌^◌, ◌<◌, ◌≤◌, ◌++◌, ◌&&◌, nat_lt, ℕ, List, length, IfSome};
ghost use Rattle.std.specs.Option.{ForSome, option_copied, option_map};
ghost use Rattle.byteorder.specs.Endian.{big_bytes};
ghost use Rattle.q2_format.specs.Header.{LiesWithin};
ghost use Rattle.q2_format.specs.Sizes.{cluster_size};
ghost use Rattle.q2_format.specs.Renamed.{new_name_offset, format_room, format_bytes, ending_place, replaced_format, renamed};

use crate::header::{Header, MAX_NAME_LENGTH, Place};
use byteorder::{BigEndian, ByteOrder};

/// The data that a backing format takes in the header, with their padding.
const FORMAT_ROOM: u64 = 8;

/// The type and the length of an extension, in front of its data.
const EXTENSION_HEAD: u64 = 8;

/// Extensions begin at multiples of so many bytes behind the header.
const EXTENSION_UNIT: u64 = 8;

/// The bytes of a cluster.
fn cluster_size(header: &Header) -> u64
    requires { header.now.cluster_bits < 32 }
    ensures size { result ≡ cluster_size header.now.cluster_bits }
    ensures small { result < 4294967296 }
{
    1 << header.cluster_bits
}

/// Where the text of a new backing name goes: to the middle of the header's cluster, and a quarter of it behind where
/// the present name has a byte among those that a name may take there. So the present one stays until the fields
/// that say where it stands are written.
pub fn new_name_offset(header: &Header) -> u64
    requires { header.now.cluster_bits < 32 }
    ensures { result ≡ new_name_offset header.now }
{
    let middle = cluster_size(header) / 2;
    match header.name {
        Some(name) if is_in_middle(name, middle) => middle + middle / 2,
        _ => middle,
    }
}

/// Whether a name has a byte among those that a name may take from the middle of the cluster on.
fn is_in_middle(name: Place, middle: u64) -> bool
    requires { middle < 4294967296 }
    ensures { result
        ≡ (nat_lt name.at (middle + MAX_NAME_LENGTH) && nat_lt middle (name.at + name.len)) }
{
    name.at < middle + u64::from(MAX_NAME_LENGTH) && middle < name.at + u64::from(name.len)
}

/// Bytes 8 to 19 of a header whose backing name stands at an offset and has so many bytes.
pub fn name_fields(offset: u64, len: u32) -> [u8; 12]
    ensures { result ≡ big_bytes 8 offset ++ big_bytes 4 len }
{
    let mut fields = [0; 12];
    let (at, size) = fields.split_at_mut(8);
    BigEndian::write_u64(at, offset);
    BigEndian::write_u32(size, len);
    fields
}

/// The data of the extension that names the backing format, where those of another format can take their place: 1 to
/// 8 bytes that lie, with their padding, in the area of the list of extensions.
pub fn format_room(header: &Header) -> Option<Place>
    requires bits { header.now.cluster_bits < 32 }
    requires format { IfSome header.now.format
        (LiesWithin 0 (cluster_size header.now.cluster_bits)) }
    ensures { result ≡ format_room header.now }
{
    let area_end = match header.name {
        Some(name) => name.at,
        None => cluster_size(header),
    };
    match header.format {
        Some(data) if data.len > 0 && data.len <= 8 && data.at + FORMAT_ROOM <= area_end => Some(
            data,
        ),
        _ => None,
    }
}

/// What is written for a format from the length of its extension on: the length, and the 8 bytes of data.
pub fn format_bytes(format: &[u8]) -> [u8; 12]
    requires { length format.now ≤ 8 }
    ensures { result ≡ format_bytes format.now }
{
    let mut bytes = [0; 12];
    let (len, data) = bytes.split_at_mut(4);
    BigEndian::write_u32(len, format.len() as u32);
    data[..format.len()].copy_from_slice(format);
    bytes
}

/// Where the list's ending extension stands, or goes where there is none: where the next extension would begin.
pub fn ending_place(header: &Header) -> u64
    requires { header.now.ext_end < 2 ^ 32 }
    ensures { result ≡ ending_place header.now }
{
    if header.ended {
        return header.ext_end.saturating_sub(EXTENSION_HEAD);
    }
    let behind = header
        .ext_end
        .saturating_sub(u64::from(header.header_length))
        % EXTENSION_UNIT;
    header.ext_end + (EXTENSION_UNIT - behind) % EXTENSION_UNIT
}

/// What the header says once it has another backing name, and in place of its format another one where one is given.
pub fn renamed(header: &Header, name: Option<&str>, format: Option<&str>) -> Header
    requires bits { header.now.cluster_bits < 32 }
    requires list { header.now.ext_end < 2 ^ 32 }
    requires format_place { IfSome header.now.format
        (LiesWithin 0 (cluster_size header.now.cluster_bits)) }
    requires name { ForSome name (λ name. length name.now < 2 ^ 32) }
    requires format { ForSome format (λ format. length format.now < 2 ^ 32) }
    ensures { result ≡ renamed header.now (option_copied name.entry) (option_copied format.entry) }
{
    Header {
        name: new_name(header, name),
        format: new_format(header, format),
        ext_end: ending_place(header) + EXTENSION_HEAD,
        ended: true,
        ..*header
    }
}

/// Where the new name stands.
fn new_name(header: &Header, name: Option<&str>) -> Option<Place>
    requires bits { header.now.cluster_bits < 32 }
    requires name { ForSome name (λ name. length name.now < 2 ^ 32) }
    ensures { result
        ≡ option_map
        (λ (text : List ℕ). record { at = new_name_offset header.now; len = length text })
        (option_copied name.entry) }
{
    match name {
        Some(text) => Some(Place {
            at: new_name_offset(header),
            len: text.len() as u32,
        }),
        None => None,
    }
}

/// Where the format's data stand then, and how long they are.
fn new_format(header: &Header, format: Option<&str>) -> Option<Place>
    requires bits { header.now.cluster_bits < 32 }
    requires format_place { IfSome header.now.format
        (LiesWithin 0 (cluster_size header.now.cluster_bits)) }
    requires format { ForSome format (λ format. length format.now < 2 ^ 32) }
    ensures { result ≡ replaced_format header.now (option_copied format.entry) }
{
    match (format, format_room(header)) {
        (Some(format), Some(place)) => Some(Place {
            at: place.at,
            len: format.len() as u32,
        }),
        _ => header.format,
    }
}
