//! What a file, and the image in it, tell for a new node.
ghost use Rattle.std.specs.Prelude.{◌≡◌, ◌==◌, ◌&&◌, IfOk, Some, None, is_none, is_some, not, option_and_then, option_map};
ghost use Rattle.qmp_codec.specs.Nodes.{seen_add_qcow2, seen_add_raw};
ghost use Rattle.qmp_rules.specs.Asks.{if_there};
ghost use Rattle.qmp_rules.specs.Looks.{file_stop, unfit_image, raw_stop, stop_at, told_record, too_long};
ghost use Rattle.qmp_rules.specs.Refusals.{refused};
ghost use Rattle.qmp_rules.specs.Table.{node_named};
ghost use Rattle.qmp_asks.specs.NodeAsks.{backing_name};
ghost use Rattle.qmp_asks.specs.Values.{amount_or, begins_within, ends_within, part_fits, part_offset, part_size};
ghost use Rattle.world_parts.specs.Adding.{opened_sight};

use blk_base::NoMemory;
use q2_image::Image;
use qmp_asks::{Look, Name};
use qmp_codec::{AddQcow2, AddRaw, Amount, BackingRef};
use qmp_rules::{FileFault, Names, Refusal, Stopped, Told};
use std::alloc::Global;

/// The most bytes of a disk.
const MOST_SIZE: u64 = 274877906944;

/// The most bytes of a file under a node.
const MOST_LENGTH: u64 = 549755813888;

/// The number of a member, or another where it is absent.
fn amount_or(number: u64, amount: Option<Amount>) -> u64
    ensures { result ≡ amount_or number amount }
{
    match amount {
        Some(Amount::Number(said)) => said,
        Some(Amount::Negative) | None => number,
    }
}

/// Where a part of a file begins.
pub(crate) fn part_offset(offset: Option<Amount>) -> u64
    ensures { result ≡ part_offset offset }
{
    amount_or(0, offset)
}

/// How long the part is, of a file of so many bytes.
pub(crate) fn part_size(offset: Option<Amount>, size: Option<Amount>, length: u64) -> u64
    ensures { result ≡ part_size offset size length }
{
    amount_or(length.saturating_sub(part_offset(offset)), size)
}

fn begins_within(offset: Option<Amount>, length: u64) -> bool
    ensures { result ≡ begins_within offset length }
{
    part_offset(offset) <= length
}

fn ends_within(offset: Option<Amount>, size: Option<Amount>, length: u64) -> bool
    ensures { result ≡ ends_within offset size length }
{
    size.is_none()
        || u128::from(part_offset(offset)) + u128::from(part_size(offset, size, length))
            <= u128::from(length)
}

fn part_fits(offset: Option<Amount>, size: Option<Amount>, length: u64) -> bool
    ensures { result ≡ part_fits offset size length }
{
    part_size(offset, size, length) <= MOST_SIZE
}

/// What is told of a command that opens a file.
pub(crate) fn told_as(
    alloc: Global,
    length: Option<u64>,
    size: Option<u64>,
    stopped: Option<Stopped>,
) -> Told
    ensures { result ≡ told_record length size stopped }
{
    let nothing = Told::nothing(alloc);
    Told {
        length,
        size,
        stopped,
        ..nothing
    }
}

/// The refusal of a file that is too long, where it is so.
fn too_long_if(alloc: Global, filename: &str, is_long: bool) -> Result<Option<Stopped>, NoMemory>
    ensures { IfOk result (λ stopped. stopped
        ≡ stop_at Look.File (too_long filename.now is_long) None) }
{
    if !is_long {
        return Ok(None);
    }
    let name = Name::copied(alloc, filename)?;
    Ok(Some(Stopped {
        look: Look::File,
        refusal: Refusal::File {
            name,
            fault: FileFault::TooLong,
        },
    }))
}

/// The refusal of a file of so many bytes.
pub(crate) fn file_stop(
    alloc: Global,
    filename: &str,
    length: u64,
) -> Result<Option<Stopped>, NoMemory>
    ensures { IfOk result (λ stopped. stopped ≡ file_stop filename.now length) }
{
    too_long_if(alloc, filename, MOST_LENGTH < length)
}

/// A refusal of a member's value.
fn bad_value(alloc: Global, look: Look, member: &str) -> Result<Option<Stopped>, NoMemory>
    ensures { IfOk result (λ stopped. stopped
        ≡ Some (record { look = look; refusal = Refusal.BadValue member.now })) }
{
    let name = Name::copied(alloc, member)?;
    Ok(Some(Stopped {
        look,
        refusal: Refusal::BadValue(name),
    }))
}

/// The refusal of a part of a file of so many bytes.
pub(crate) fn raw_stop(
    alloc: Global,
    filename: &str,
    raw: &AddRaw,
    length: u64,
) -> Result<Option<Stopped>, NoMemory>
    ensures { IfOk result
        (λ stopped. stopped ≡ raw_stop filename.now (seen_add_raw raw.now) length) }
{
    let (offset, size) = (raw.offset, raw.size);
    if !begins_within(offset, length) {
        return bad_value(alloc, Look::Begin, "offset");
    }
    if !ends_within(offset, size, length) {
        return bad_value(alloc, Look::End, "size");
    }
    let is_long = MOST_LENGTH < length || !part_fits(offset, size, length);
    too_long_if(alloc, filename, is_long)
}

/// The refusal of an open image whose header names a backing file of which nothing is said.
fn backing_needed(
    alloc: Global,
    node: &str,
    added: &AddQcow2,
    image: &Image,
) -> Result<Option<Stopped>, NoMemory>
    ensures { IfOk result (λ stopped. stopped ≡ stop_at Look.Backing
        (refused (is_some image.now.header.name && is_none (seen_add_qcow2 added.now).backing)
        (Refusal.BackingNeeded node.now)) None) }
{
    if !image.has_backing_name() || added.backing.is_some() {
        return Ok(None);
    }
    let name = Name::copied(alloc, node)?;
    Ok(Some(Stopped {
        look: Look::Backing,
        refusal: Refusal::BackingNeeded(name),
    }))
}

/// The name of its backing node, where it has one.
fn backing_name(added: &AddQcow2) -> Option<&str>
    ensures { option_map (λ name. name.now) result
        ≡ backing_name (seen_add_qcow2 added.now).backing }
{
    match &added.backing {
        Some(BackingRef::Name(name)) => Some(name.as_str()),
        Some(BackingRef::Null) | None => None,
    }
}

/// The refusal of an image of so many bytes over a backing node of another size.
fn size_differs(
    alloc: Global,
    names: &Names,
    node: &str,
    added: &AddQcow2,
    size: u64,
) -> Result<Option<Stopped>, NoMemory>
    ensures { IfOk result (λ stopped. stopped ≡ stop_at Look.Size
        (if_there (λ row. refused (not (row.size == size)) (Refusal.SizeDiffers node.now row.name))
        (option_and_then (node_named names.now.table)
        (backing_name (seen_add_qcow2 added.now).backing))) None) }
{
    let Some(other) = backing_name(added) else {
        return Ok(None);
    };
    let Some(row) = names.node_named(other) else {
        return Ok(None);
    };
    if row.size == size {
        return Ok(None);
    }
    Ok(Some(Stopped {
        look: Look::Size,
        refusal: Refusal::SizeDiffers {
            first: Name::copied(alloc, node)?,
            second: row.name.clone()?,
        },
    }))
}

/// The refusal of an open image as that of a new node.
pub(crate) fn image_stop(
    alloc: Global,
    names: &Names,
    node: &str,
    added: &AddQcow2,
    image: &Image,
) -> Result<Option<Stopped>, NoMemory>
    ensures { IfOk result (λ stopped. stopped ≡ unfit_image names.now.table node.now
        (seen_add_qcow2 added.now) (opened_sight image.now.header)) }
{
    match backing_needed(alloc, node, added, image)? {
        Some(stopped) => Ok(Some(stopped)),
        None => size_differs(alloc, names, node, added, image.size()),
    }
}
