//! Values that members may have.
ghost use Rattle.std.specs.Prelude.{◌≡◌, ◌≤◌, ◌-◌, option_map, string_bytes};
ghost use Rattle.qmp_asks.specs.Values.{absent_or, amount_or, begins_within, ends_within, flag_or_false, is_bitmap_for, is_completion_mode, is_copy_mode, is_device_driver, is_discard, is_false, is_file_driver, is_full, is_granularity, is_image_format, is_image_size, is_just, is_mode_for, is_offset, is_on_error, is_sharing, is_size, is_sync, is_true, is_version, part_fits, part_offset, part_size, shares};

use qmp_codec::{
    Amount, BitmapMode, CompletionMode, CopyMode, DeviceDriver, Discard, Driver, ImageFormat,
    OnError, Sharing, Sync, Version,
};

/// The most bytes of a disk: 256 GiB.
const MOST_SIZE: u64 = 274877906944;

/// The number of a member, or another where it is absent.
pub fn amount_or(number: u64, amount: Option<Amount>) -> u64
    ensures { result ≡ amount_or number amount }
{
    match amount {
        Some(Amount::Number(said)) => said,
        Some(Amount::Negative) | None => number,
    }
}

pub(crate) fn is_offset(offset: Option<Amount>) -> bool
    ensures { result ≡ is_offset offset }
{
    !matches!(offset, Some(Amount::Negative))
}

pub(crate) fn is_size(size: Amount) -> bool
    ensures { result ≡ is_size size }
{
    match size {
        Amount::Number(number) => number <= MOST_SIZE,
        Amount::Negative => false,
    }
}

pub(crate) fn is_maybe_size(size: Option<Amount>) -> bool
    ensures { result ≡ absent_or is_size size }
{
    match size {
        Some(size) => is_size(size),
        None => true,
    }
}

/// Whole sectors.
pub(crate) fn is_image_size(size: Amount) -> bool
    ensures { result ≡ is_image_size size }
{
    match size {
        Amount::Number(number) => number <= MOST_SIZE && number % 512 == 0,
        Amount::Negative => false,
    }
}

pub(crate) fn is_just(number: u64, amount: Option<Amount>) -> bool
    ensures { result ≡ is_just number amount }
{
    match amount {
        Some(Amount::Number(said)) => said == number,
        Some(Amount::Negative) => false,
        None => true,
    }
}

/// A power of two from 512 bytes to 2 MiB.
pub(crate) fn is_granularity(amount: Option<Amount>) -> bool
    ensures { result ≡ is_granularity amount }
{
    match amount {
        Some(Amount::Number(number)) => {
            512 <= number && number <= 2097152 && number.is_power_of_two()
        }
        Some(Amount::Negative) => false,
        None => true,
    }
}

/// Where a part of a file begins.
pub fn part_offset(offset: Option<Amount>) -> u64
    ensures { result ≡ part_offset offset }
{
    amount_or(0, offset)
}

/// How long the part is, of a file of so many bytes.
pub fn part_size(offset: Option<Amount>, size: Option<Amount>, length: u64) -> u64
    ensures { result ≡ part_size offset size length }
{
    amount_or(length.saturating_sub(part_offset(offset)), size)
}

/// Whether it begins within a file of so many bytes.
pub fn begins_within(offset: Option<Amount>, length: u64) -> bool
    ensures { result ≡ begins_within offset length }
{
    part_offset(offset) <= length
}

/// Whether a part whose size is said ends within the file.
pub fn ends_within(offset: Option<Amount>, size: Option<Amount>, length: u64) -> bool
    ensures { result ≡ ends_within offset size length }
{
    size.is_none()
        || u128::from(part_offset(offset)) + u128::from(part_size(offset, size, length))
            <= u128::from(length)
}

/// Whether the part is not too long.
pub fn part_fits(offset: Option<Amount>, size: Option<Amount>, length: u64) -> bool
    ensures { result ≡ part_fits offset size length }
{
    part_size(offset, size, length) <= MOST_SIZE
}

pub(crate) fn is_file_driver(driver: Driver) -> bool
    ensures { result ≡ is_file_driver driver }
{
    matches!(driver, Driver::File)
}

pub(crate) fn is_discard(discard: Option<Discard>) -> bool
    ensures { result ≡ absent_or is_discard discard }
{
    !matches!(discard, Some(Discard::Unknown))
}

pub(crate) fn is_on_error(policy: Option<OnError>) -> bool
    ensures { result ≡ absent_or is_on_error policy }
{
    !matches!(policy, Some(OnError::Unknown))
}

pub(crate) fn is_copy_mode(mode: Option<CopyMode>) -> bool
    ensures { result ≡ absent_or is_copy_mode mode }
{
    !matches!(mode, Some(CopyMode::Unknown))
}

pub(crate) fn is_full(sync: Sync) -> bool
    ensures { result ≡ is_full sync }
{
    matches!(sync, Sync::Full)
}

pub(crate) fn is_sync(sync: Sync) -> bool
    ensures { result ≡ is_sync sync }
{
    !matches!(sync, Sync::Unknown)
}

pub(crate) fn is_completion_mode(mode: Option<CompletionMode>) -> bool
    ensures { result ≡ absent_or is_completion_mode mode }
{
    !matches!(mode, Some(CompletionMode::Unknown))
}

pub(crate) fn is_image_format(format: Option<ImageFormat>) -> bool
    ensures { result ≡ absent_or is_image_format format }
{
    !matches!(format, Some(ImageFormat::Unknown))
}

pub(crate) fn is_version(version: Option<Version>) -> bool
    ensures { result ≡ absent_or is_version version }
{
    !matches!(version, Some(Version::Unknown))
}

pub(crate) fn is_device_driver(driver: DeviceDriver) -> bool
    ensures { result ≡ is_device_driver driver }
{
    !matches!(driver, DeviceDriver::Unknown)
}

pub(crate) fn is_sharing(sharing: Option<Sharing>) -> bool
    ensures { result ≡ absent_or is_sharing sharing }
{
    !matches!(sharing, Some(Sharing::Unknown))
}

/// Whether a member that may only be false is so.
pub(crate) fn is_false(flag: Option<bool>) -> bool
    ensures { result ≡ is_false flag }
{
    match flag {
        Some(on) => !on,
        None => true,
    }
}

/// Whether a member that may only be true is so.
pub(crate) fn is_true(flag: Option<bool>) -> bool
    ensures { result ≡ is_true flag }
{
    match flag {
        Some(on) => on,
        None => true,
    }
}

/// A flag, which is off where it is absent.
pub fn flag_or_false(flag: Option<bool>) -> bool
    ensures { result ≡ flag_or_false flag }
{
    match flag {
        Some(on) => on,
        None => false,
    }
}

/// Whether a device lets others write.
pub fn shares(sharing: Option<Sharing>) -> bool
    ensures { result ≡ shares sharing }
{
    matches!(sharing, Some(Sharing::On))
}

/// Whether a bitmap is named exactly where a backup copies by one.
pub(crate) fn is_bitmap_for(sync: Sync, bitmap: &Option<String>) -> bool
    ensures { result ≡ is_bitmap_for sync (option_map string_bytes bitmap.now) }
{
    match sync {
        Sync::Full => bitmap.is_none(),
        Sync::Incremental | Sync::Bitmap => bitmap.is_some(),
        Sync::Unknown => true,
    }
}

/// Whether a backup has the mode that it needs: a full one none, an incremental one that of success, one by bitmap either.
pub(crate) fn is_mode_for(sync: Sync, mode: Option<BitmapMode>) -> bool
    ensures { result ≡ is_mode_for sync mode }
{
    match sync {
        Sync::Full => mode.is_none(),
        Sync::Incremental => matches!(mode, None | Some(BitmapMode::OnSuccess)),
        Sync::Bitmap => matches!(mode, Some(BitmapMode::OnSuccess) | Some(BitmapMode::Never)),
        Sync::Unknown => true,
    }
}
