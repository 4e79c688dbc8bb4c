//! Creating an image on a device.

ghost use Rattle.std.specs.Prelude.{◌≡◌, ◌⊎◌, ◌+◌, ◌%◌, ◌<◌, ◌≤◌, max, ℕ, false, List, [], ◌∷◌, Option, length, slice_index, take, drop, replicate, Some, IfOk, IfErr, OnOk, OnErr, option_map, if◌then◌else◌};
ghost use Rattle.std.specs.Bool.{OnFalse};
ghost use Rattle.std.specs.Option.{ForSome, option_copied};
ghost use Rattle.q2_format.specs.Bytes.{place_bytes, Holds};
ghost use Rattle.q2_format.specs.Contents.{image_disk};
ghost use Rattle.q2_format.specs.Created.{creation_of, CanBeCreated, created_header, created_length, IsNewName, IsNewFormat, HasCreatedHeader, HasCreatedTables, IsCreated};
ghost use Rattle.q2_format.specs.Header.{header_of};
ghost use Rattle.q2_format.specs.Sizes.{cluster_size, clusters_for};
ghost use Rattle.q2_format.specs.Sound.{image_refusal, IsSound, InHeader};
ghost use Rattle.q2_format.specs.declared.entries.L2Entry.TheVariants.{Unallocated};
ghost use Rattle.q2_format.specs.declared.header.HeaderStop.TheVariants.{Magic};
ghost use Rattle.q2_format.specs.declared.header.TheConstants.{MAX_DISK_SIZE, MAX_FILE_CLUSTERS};
ghost use Rattle.blk_base.specs.Content.{Write};
ghost use Rattle.blk_base.specs.Device.{AtEachStopOf, Writes};
ghost use Rattle.blk_base.specs.Writes.{write_of};
ghost use Rattle.q2_image.specs.Creating.{AreStages, CreationAnswers, IsBeforeOrNone, wrote, IsFailedCall, ChangesWithin, LacksHeader, text_at, call_stop, MakesStages, MakesImage};
ghost use Rattle.q2_format.specs.declared.layout.TheConstants.{CREATED_LENGTH, CREATED_REFCOUNT_TABLE};
ghost use Rattle.q2_image.specs.declared.header.TheConstants.{CLUSTER};
ghost use Rattle.q2_image.specs.Guest.{file_entry};

use crate::header::cluster_buffer;
use blk_base::{Device, NoMemory, Stop};
use q2_format::{
    CREATED_L1_TABLE, CREATED_LENGTH, CREATED_REFCOUNT_BLOCK, CREATED_REFCOUNT_TABLE, write_header,
    write_refcount_block, write_refcount_table,
};
use std::alloc::Global;
use std::fmt;
use thiserror::Error;

/// Why no image was created.
#[derive(Clone, Copy, Debug, PartialEq, Eq, Error)]
pub enum CreateStop {
    /// A write failed; the device's count of faults afterwards.
    Io { count: u64 },
    /// The image would end above the device's capacity. Nothing was written.
    NoSpace,
    /// Memory was asked for and not had. Nothing was written.
    NoMemory,
}

impl fmt::Display for CreateStop {
    ghost use Rattle.std.specs.Prelude.{Some};
    ghost use Rattle.q2_image.specs.Creating.{create_text};

    ghost output = { λ stop. Some (create_text stop) };

    fn fmt<W: fmt::Write>(&self, f: &mut fmt::Formatter<W>) -> fmt::Result {
        match self {
            CreateStop::Io { count } => write!(f, "Io({count})"),
            CreateStop::NoSpace => f.write_str("NoSpace"),
            CreateStop::NoMemory => f.write_str("NoMemory"),
        }
    }
}

impl From<NoMemory> for CreateStop {
    ghost use Rattle.std.specs.Prelude.{◌≡◌};
    ghost use Rattle.q2_image.specs.declared.create.CreateStop.TheVariants as stops;

    ghost from_gives = { λ _ stop. stop ≡ stops.NoMemory };

    fn from(_: NoMemory) -> Self {
        CreateStop::NoMemory
    }
}

/// The bytes of a sector. A write within one is whole or nothing.
const SECTOR: usize = 512;

/// Writes bytes for which the device has room. After a failed write some of the first of them may be written, and
/// none where all lie in one sector.
fn write<D: Device>(dev: &mut D, at: u64, bytes: &[u8]) -> Result<(), CreateStop>
    requires some { 0 < length bytes.now }
    requires room { at + length bytes.now ≤ D.capacity dev.old }
    ensures writes { Writes D.Device (write_of at bytes.now ∷ []) (call_stop result) dev.old
        dev.new }
    ensures holds { OnOk result
        ((file : List ℕ) → D.content dev.new ≡ Some file → Holds file at bytes.now) }
    ensures kept { at % 512 + length bytes.now ≤ 512
        → OnErr result (D.content dev.new ≡ D.content dev.old) }
    ensures within { ChangesWithin (D.content dev.old) (D.content dev.new) at
        (at + length bytes.now) }
    ensures cause { IfErr result (IsFailedCall (D.faults dev.old) (D.faults dev.new)) }
    ensures flushed { D.is_flushed dev.new ≡ option_map (λ _. false) (D.is_flushed dev.old) }
    ensures faults { D.faults dev.old ≤ D.faults dev.new }
    ensures capacity { D.capacity dev.new ≡ D.capacity dev.old }
    ensures grows { D.size dev.old ≤ D.size dev.new }
    ensures bound { D.size dev.new ≤ max (D.size dev.old) (at + length bytes.now) }
    ensures reaches { OnOk result (at + length bytes.now ≤ D.size dev.new) }
{
    match dev.write_at(at, bytes) {
        Ok(()) => Ok(()),
        Err(stop) => match stop.why {
            Stop::Failed => Err(CreateStop::Io {
                count: dev.faults(),
            }),
            Stop::NoSpace => unreachable!(),
        },
    }
}

/// Makes all bytes 0.
fn clear(buffer: &mut [u8])
    ensures { (i : ℕ) → slice_index buffer.new i ≡ 0 }
{
    buffer.fill(0);
}

/// The first sector of a cluster's bytes.
fn first_sector(cluster: &[u8]) -> &[u8]
    requires { length cluster.now ≡ CLUSTER }
    ensures part { result.now ≡ take 512 cluster.now }
    ensures whole { length result.now ≡ 512 }
    ensures bytes { (i : ℕ) → i < 512 → slice_index result.now i ≡ slice_index cluster.now i }
{
    &cluster[..SECTOR]
}

/// What lies behind it.
fn behind_first_sector(cluster: &[u8]) -> &[u8]
    requires { length cluster.now ≡ CLUSTER }
    ensures part { result.now ≡ drop 512 cluster.now }
    ensures whole { length result.now ≡ 65024 }
    ensures bytes { (i : ℕ) → slice_index result.now i ≡ slice_index cluster.now (512 + i) }
{
    &cluster[SECTOR..]
}

/// Makes the file's first sector zeros.
fn clear_header<D: Device>(dev: &mut D, buffer: &mut [u8]) -> Result<(), CreateStop>
    requires whole { length buffer.old ≡ CLUSTER }
    requires room { 512 ≤ D.capacity dev.old }
    ensures writes { Writes D.Device (write_of 0 (replicate 512 0) ∷ []) (call_stop result) dev.old
        dev.new }
    ensures cleared { OnOk result
        ((file : List ℕ) → D.content dev.new ≡ Some file → LacksHeader file) }
    ensures kept { OnErr result (D.content dev.new ≡ D.content dev.old) }
    ensures within { ChangesWithin (D.content dev.old) (D.content dev.new) 0 512 }
    ensures cause { IfErr result (IsFailedCall (D.faults dev.old) (D.faults dev.new)) }
    ensures flushed { D.is_flushed dev.new ≡ option_map (λ _. false) (D.is_flushed dev.old) }
    ensures faults { D.faults dev.old ≤ D.faults dev.new }
    ensures capacity { D.capacity dev.new ≡ D.capacity dev.old }
    ensures grows { D.size dev.old ≤ D.size dev.new }
    ensures bound { D.size dev.new ≤ max (D.size dev.old) 512 }
{
    clear(buffer);
    write(dev, 0, first_sector(buffer))
}

/// Writes the L1 table, the refcount block and the refcount table.
fn write_tables<D: Device>(dev: &mut D, buffer: &mut [u8]) -> Result<(), CreateStop>
    requires whole { length buffer.old ≡ CLUSTER }
    requires room { CREATED_LENGTH ≤ D.capacity dev.old }
    ensures writes { (size : ℕ) (name format : Option (List ℕ)) → size ≤ MAX_DISK_SIZE
        → MakesStages D.Device (creation_of size name format) 1 3 (call_stop result) dev.old
        dev.new }
    ensures tables { OnOk result
        ((size : ℕ) (name format : Option (List ℕ)) (file : List ℕ) → size ≤ MAX_DISK_SIZE
        → D.content dev.new ≡ Some file → HasCreatedTables (creation_of size name format) file) }
    ensures within { ChangesWithin (D.content dev.old) (D.content dev.new)
        CREATED_REFCOUNT_TABLE CREATED_LENGTH }
    ensures cause { IfErr result (IsFailedCall (D.faults dev.old) (D.faults dev.new)) }
    ensures flushed { D.is_flushed dev.new ≡ option_map (λ _. false) (D.is_flushed dev.old) }
    ensures faults { D.faults dev.old ≤ D.faults dev.new }
    ensures capacity { D.capacity dev.new ≡ D.capacity dev.old }
    ensures grows { D.size dev.old ≤ D.size dev.new }
    ensures bound { D.size dev.new ≤ max (D.size dev.old) CREATED_LENGTH }
    ensures reaches { OnOk result (CREATED_LENGTH ≤ D.size dev.new) }
{
    clear(buffer);
    write(dev, CREATED_L1_TABLE, buffer)?;
    write_refcount_block(buffer);
    write(dev, CREATED_REFCOUNT_BLOCK, buffer)?;
    write_refcount_table(buffer);
    write(dev, CREATED_REFCOUNT_TABLE, buffer)?;
    Ok(())
}

/// Writes the header's cluster, its first sector last.
fn put_header<D: Device>(
    dev: &mut D,
    size: u64,
    name: Option<&str>,
    format: Option<&str>,
    buffer: &mut [u8],
) -> Result<(), CreateStop>
    requires whole { length buffer.old ≡ CLUSTER }
    requires room { CLUSTER ≤ D.capacity dev.old }
    requires size { size ≤ MAX_DISK_SIZE }
    requires name { ForSome name (λ name. IsNewName name.now) }
    requires format { ForSome format (λ format. IsNewFormat format.now) }
    ensures writes { MakesStages D.Device
        (creation_of size (option_copied name.entry) (option_copied format.entry)) 4 2
        (call_stop result) dev.old dev.new }
    ensures header { OnOk result ((file : List ℕ) → D.content dev.new ≡ Some file
        → HasCreatedHeader
        (creation_of size (option_copied name.entry) (option_copied format.entry)) file) }
    ensures readable { OnOk result
        (CanBeCreated size (option_copied name.entry) (option_copied format.entry)) }
    ensures within { ChangesWithin (D.content dev.old) (D.content dev.new) 0 CLUSTER }
    ensures sector { OnErr result
        (ChangesWithin (D.content dev.old) (D.content dev.new) 512 CLUSTER) }
    ensures cause { IfErr result (IsFailedCall (D.faults dev.old) (D.faults dev.new)) }
    ensures flushed { D.is_flushed dev.new ≡ option_map (λ _. false) (D.is_flushed dev.old) }
    ensures faults { D.faults dev.old ≤ D.faults dev.new }
    ensures capacity { D.capacity dev.new ≡ D.capacity dev.old }
    ensures grows { D.size dev.old ≤ D.size dev.new }
    ensures bound { D.size dev.new ≤ max (D.size dev.old) CLUSTER }
{
    write_header(size, name, format, buffer);
    write(dev, SECTOR as u64, behind_first_sector(buffer))?;
    write(dev, 0, first_sector(buffer))?;
    Ok(())
}

/// Writes an image on a device that has room for it. The header's first sector is cleared first and written last,
/// so no file is left in which a header speaks of what isn't there.
fn write_image<D: Device>(
    dev: &mut D,
    size: u64,
    name: Option<&str>,
    format: Option<&str>,
    buffer: &mut [u8],
) -> Result<(), CreateStop>
    requires whole { length buffer.old ≡ CLUSTER }
    requires room { CREATED_LENGTH ≤ D.capacity dev.old }
    requires size { size ≤ MAX_DISK_SIZE }
    requires name { ForSome name (λ name. IsNewName name.now) }
    requires format { ForSome format (λ format. IsNewFormat format.now) }
    ensures writes { MakesStages D.Device
        (creation_of size (option_copied name.entry) (option_copied format.entry)) 0 6
        (call_stop result) dev.old dev.new }
    ensures created { OnOk result ((file : List ℕ) → D.content dev.new ≡ Some file
        → IsCreated (creation_of size (option_copied name.entry) (option_copied format.entry))
        file) }
    ensures readable { OnOk result
        (CanBeCreated size (option_copied name.entry) (option_copied format.entry)) }
    ensures headless { OnErr result ((D.content dev.new ≡ D.content dev.old)
        ⊎ ((file : List ℕ) → D.content dev.new ≡ Some file → LacksHeader file)) }
    ensures within { ChangesWithin (D.content dev.old) (D.content dev.new) 0 CREATED_LENGTH }
    ensures cause { IfErr result (IsFailedCall (D.faults dev.old) (D.faults dev.new)) }
    ensures flushed { D.is_flushed dev.new ≡ option_map (λ _. false) (D.is_flushed dev.old) }
    ensures faults { D.faults dev.old ≤ D.faults dev.new }
    ensures capacity { D.capacity dev.new ≡ D.capacity dev.old }
    ensures grows { D.size dev.old ≤ D.size dev.new }
    ensures bound { D.size dev.new ≤ max (D.size dev.old) CREATED_LENGTH }
    ensures reaches { OnOk result (CREATED_LENGTH ≤ D.size dev.new) }
{
    clear_header(dev, buffer)?;
    write_tables(dev, buffer)?;
    put_header(dev, size, name, format, buffer)?;
    Ok(())
}

/// Creates an image of `size` bytes on a device, in place of the file's first clusters: clusters of 64 KiB, refcounts
/// of 16 bits, and where they are given the name of its backing file and that file's format. A longer file keeps what
/// stands behind the image. One cluster's buffer is all the memory that is taken.
///
/// The header's first sector is cleared first and written last. So a call that fails leaves the file as it was, or
/// no image.
pub fn create_image<D: Device>(
    alloc: Global,
    dev: &mut D,
    size: u64,
    name: Option<&str>,
    format: Option<&str>,
) -> Result<(), CreateStop>
    requires size { size ≤ MAX_DISK_SIZE }
    requires name { ForSome name (λ name. IsNewName name.now) }
    requires format { ForSome format (λ format. IsNewFormat format.now) }

    // the image
    ensures created { OnOk result ((file : List ℕ) → D.content dev.new ≡ Some file
        → IsCreated (creation_of size (option_copied name.entry) (option_copied format.entry))
        file) }
    ensures header { OnOk result ((file : List ℕ) → D.content dev.new ≡ Some file
        → header_of file
        ≡ created_header
        (creation_of size (option_copied name.entry) (option_copied format.entry))) }
    ensures names { OnOk result ((file : List ℕ) → D.content dev.new ≡ Some file
        → (text_at file (header_of file).name ≡ option_copied name.entry)
        × (text_at file (header_of file).format ≡ option_copied format.entry)) }
    ensures unmapped { OnOk result ((file : List ℕ) (cluster : ℕ) → D.content dev.new ≡ Some file
        → file_entry file cluster ≡ Unallocated) }
    ensures disk { OnOk result ((file backing : List ℕ) → D.content dev.new ≡ Some file
        → image_disk file backing ≡ place_bytes backing 0 size) }
    ensures sound { OnOk result ((file : List ℕ) → D.content dev.new ≡ Some file
        → clusters_for (cluster_size (header_of file).cluster_bits) (length file)
        ≤ MAX_FILE_CLUSTERS → IsSound file) }

    ensures readable { OnOk result
        (CanBeCreated size (option_copied name.entry) (option_copied format.entry)) }

    // why it is created or not
    ensures cause { let end = created_length
        (creation_of size (option_copied name.entry) (option_copied format.entry))
        in CreationAnswers end (D.capacity dev.old) (D.faults dev.old) (D.faults dev.new) result }

    // the device
    ensures writes { MakesImage D.Device
        (creation_of size (option_copied name.entry) (option_copied format.entry)) result dev.old
        dev.new }
    ensures stops { (ws : List Write)
        → AreStages (creation_of size (option_copied name.entry) (option_copied format.entry)) 0 ws
        → length ws ≡ 6 → AtEachStopOf D.Device (IsBeforeOrNone ws) ws dev.old }
    ensures behind { let end = created_length
        (creation_of size (option_copied name.entry) (option_copied format.entry))
        in ChangesWithin (D.content dev.old) (D.content dev.new) 0 end }
    ensures unfinished { OnErr result ((D.content dev.new ≡ D.content dev.old)
        ⊎ ((file : List ℕ) → D.content dev.new ≡ Some file
        → image_refusal file ≡ Some (InHeader Magic))) }
    ensures flushed { D.is_flushed dev.new
        ≡ (if wrote result then option_map (λ _. false) (D.is_flushed dev.old)
        else D.is_flushed dev.old) }
    ensures size { let end = created_length
        (creation_of size (option_copied name.entry) (option_copied format.entry))
        in OnOk result (D.size dev.new ≡ max (D.size dev.old) end) }
    ensures grows { D.size dev.old ≤ D.size dev.new }
    ensures bound { let end = created_length
        (creation_of size (option_copied name.entry) (option_copied format.entry))
        in D.size dev.new ≤ max (D.size dev.old) end }
    ensures faults { D.faults dev.old ≤ D.faults dev.new }
    ensures capacity { D.capacity dev.new ≡ D.capacity dev.old }
{
    if dev.capacity() < CREATED_LENGTH {
        return Err(CreateStop::NoSpace);
    }
    let mut buffer = cluster_buffer(alloc)?;
    write_image(dev, size, name, format, &mut buffer)?;
    Ok(())
}
