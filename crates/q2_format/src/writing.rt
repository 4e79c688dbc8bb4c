//! Writing the header cluster of a created image.

ghost use Rattle.std.specs.Prelude.{◌≡◌, ◌+◌, ◌*◌, ◌/◌, ◌<◌, ◌≤◌, ℕ, List, Option, length, slice_index, None, Some};
ghost use Rattle.std.specs.Option.{ForSome, option_copied};
ghost use Rattle.std.specs.Str.{IsUtf8};
ghost use Rattle.q2_format.specs.Sizes.{l1_entries_for};
ghost use Rattle.q2_format.specs.Created.{creation_of, CanBeCreated, AreZeros, IsFormatExtension, HasCreatedFields, HasCreatedName, HasCreatedExtensions, HasCreatedHeader, IsNewName, IsNewFormat};

use crate::extensions::BACKING_FORMAT;
use crate::header::MAX_DISK_SIZE;
use crate::layout::{CLUSTER_SIZE, CREATED_L1_TABLE, CREATED_REFCOUNT_TABLE};
use crate::numbers::{put_bytes, put_u32, put_u64};
use crate::reading::{CLUSTER_BITS, MAGIC, REFCOUNT_ORDER, VERSION};
use crate::refcounts::clear;

/// The entries of an L2 table.
const L2_ENTRIES: u64 = CLUSTER_SIZE / 8;

/// The header's length, behind which the extensions begin.
const HEADER_LENGTH: u32 = 112;

/// Where a created image's backing name stands.
const NAME_OFFSET: u64 = CLUSTER_SIZE / 2;

/// The L1 entries that a disk needs.
fn l1_entries(size: u64) -> u32
    requires { size ≤ MAX_DISK_SIZE }
    ensures { result ≡ l1_entries_for 65536 size }
{
    size.div_ceil(CLUSTER_SIZE).div_ceil(L2_ENTRIES) as u32
}

/// Puts the fields of an image without a backing name into bytes that are 0.
fn put_fields(out: &mut [u8], size: u64)
    requires whole { length out.old ≡ 65536 }
    requires zeros { AreZeros out.old 0 112 }
    requires size { size ≤ MAX_DISK_SIZE }
    ensures fields { (format : Option (List ℕ))
        → HasCreatedFields (creation_of size None format) out.new }
    ensures behind { (i : ℕ) → 112 ≤ i → slice_index out.new i ≡ slice_index out.old i }
{
    put_u32(out, 0, MAGIC);
    put_u32(out, 4, VERSION);
    put_u32(out, 20, CLUSTER_BITS);
    put_u64(out, 24, size);
    put_u32(out, 36, l1_entries(size));
    put_u64(out, 40, CREATED_L1_TABLE);
    put_u64(out, 48, CREATED_REFCOUNT_TABLE);
    put_u32(out, 56, 1);
    put_u32(out, 96, REFCOUNT_ORDER);
    put_u32(out, 100, HEADER_LENGTH);
}

/// Puts a name of 1 byte or more, and the fields that say where it stands.
fn put_name(out: &mut [u8], name: &[u8])
    requires whole { length out.old ≡ 65536 }
    requires some { 1 ≤ length name.now }
    requires short { length name.now ≤ 1023 }
    requires zeros { AreZeros out.old 32768 65536 }
    ensures fields { (size : ℕ) (format : Option (List ℕ))
        → HasCreatedFields (creation_of size None format) out.old
        → HasCreatedFields (creation_of size (Some name.now) format) out.new }
    ensures name { (size : ℕ) (format : Option (List ℕ))
        → HasCreatedName (creation_of size (Some name.now) format) out.new }
    ensures between { (i : ℕ) → 112 ≤ i → i < 32768
        → slice_index out.new i ≡ slice_index out.old i }
{
    put_u64(out, 8, NAME_OFFSET);
    put_u32(out, 16, name.len() as u32);
    put_bytes(out, NAME_OFFSET as usize, name);
}

/// Puts the extension that names a backing format.
fn put_format(out: &mut [u8], format: &[u8])
    requires whole { length out.old ≡ 65536 }
    requires short { length format.now ≤ 8 }
    requires zeros { AreZeros out.old 112 32768 }
    ensures extension { IsFormatExtension out.new format.now }
    ensures ending { AreZeros out.new (120 + (length format.now + 7) / 8 * 8) 32768 }
    ensures before { (i : ℕ) → i < 112 → slice_index out.new i ≡ slice_index out.old i }
    ensures behind { (i : ℕ) → 32768 ≤ i → slice_index out.new i ≡ slice_index out.old i }
{
    put_u32(out, HEADER_LENGTH as usize, BACKING_FORMAT);
    put_u32(out, HEADER_LENGTH as usize + 4, format.len() as u32);
    put_bytes(out, HEADER_LENGTH as usize + 8, format);
}

/// The bytes of a text, which are UTF-8.
fn text_bytes(text: &str) -> &[u8]
    ensures bytes { result.now ≡ text.now }
    ensures utf8 { IsUtf8 text.now }
{
    text.as_bytes()
}

/// Puts the backing name, where there is one.
fn put_backing_name(out: &mut [u8], name: Option<&str>)
    requires whole { length out.old ≡ 65536 }
    requires name { ForSome name (λ name. IsNewName name.now) }
    requires zeros { AreZeros out.old 32768 65536 }
    ensures fields { (size : ℕ) (format : Option (List ℕ))
        → HasCreatedFields (creation_of size None format) out.old
        → HasCreatedFields (creation_of size (option_copied name.entry) format) out.new }
    ensures name { (size : ℕ) (format : Option (List ℕ))
        → HasCreatedName (creation_of size (option_copied name.entry) format) out.new }
    ensures text { ForSome (option_copied name.entry) IsUtf8 }
    ensures between { (i : ℕ) → 112 ≤ i → i < 32768
        → slice_index out.new i ≡ slice_index out.old i }
{
    if let Some(name) = name {
        put_name(out, text_bytes(name));
    }
}

/// Puts the extensions: that of the backing format, where there is one, and the ending one, whose bytes
/// are 0.
fn put_extensions(out: &mut [u8], format: Option<&str>)
    requires whole { length out.old ≡ 65536 }
    requires format { ForSome format (λ format. IsNewFormat format.now) }
    requires zeros { AreZeros out.old 112 32768 }
    ensures extensions { (size : ℕ) (name : Option (List ℕ))
        → HasCreatedExtensions (creation_of size name (option_copied format.entry)) out.new }
    ensures before { (i : ℕ) → i < 112 → slice_index out.new i ≡ slice_index out.old i }
    ensures behind { (i : ℕ) → 32768 ≤ i → slice_index out.new i ≡ slice_index out.old i }
{
    if let Some(format) = format {
        put_format(out, format.as_bytes());
    }
}

/// Writes the header cluster of a created image of `size` bytes: clusters of 64 KiB, refcounts of 16 bits,
/// and where they are given the name of its backing file and that file's format. The refcount table is in
/// cluster 1, its one block in cluster 2, and the L1 table from cluster 3 on.
pub fn write_header(size: u64, name: Option<&str>, format: Option<&str>, out: &mut [u8])
    requires whole { length out.old ≡ 65536 }
    requires size { size ≤ MAX_DISK_SIZE }
    requires name { ForSome name (λ name. IsNewName name.now) }
    requires format { ForSome format (λ format. IsNewFormat format.now) }
    ensures header { HasCreatedHeader
        (creation_of size (option_copied name.entry) (option_copied format.entry)) out.new }
    ensures readable { CanBeCreated size (option_copied name.entry) (option_copied format.entry) }
{
    clear(out);
    put_fields(out, size);
    put_backing_name(out, name);
    put_extensions(out, format);
}
