//! Words that members take. A word that none of these is stays as `Unknown`: it is refused as a value, further up.

ghost use Rattle.std.specs.Prelude.{◌≡◌};
ghost use Rattle.qmp_codec.specs.Words.{on_error_of, sync_of, copy_mode_of, bitmap_mode_of, discard_of, completion_mode_of, image_format_of, version_of_word, device_driver_of, sharing_of};

/// What a job does after an error.
#[derive(Clone, Copy)]
pub enum OnError {
    Report,
    Unknown,
}

/// What a mirror or backup copies.
#[derive(Clone, Copy)]
pub enum Sync {
    Full,
    Incremental,
    Bitmap,
    Unknown,
}

/// When a mirror copies.
#[derive(Clone, Copy)]
pub enum CopyMode {
    Background,
    Unknown,
}

/// When a backup takes what it copied out of its bitmap.
#[derive(Clone, Copy)]
pub enum BitmapMode {
    OnSuccess,
    Never,
    Unknown,
}

/// What becomes of discards.
#[derive(Clone, Copy)]
pub enum Discard {
    Ignore,
    Unmap,
    Unknown,
}

/// Whether the jobs of a transaction end together.
#[derive(Clone, Copy)]
pub enum CompletionMode {
    Individual,
    Grouped,
    Unknown,
}

/// The format of a backing file.
#[derive(Clone, Copy)]
pub enum ImageFormat {
    Raw,
    Qcow2,
    Unknown,
}

/// The version of a qcow2 image.
#[derive(Clone, Copy)]
pub enum Version {
    V3,
    Unknown,
}

/// The device that a guest sees.
#[derive(Clone, Copy)]
pub enum DeviceDriver {
    VirtioBlk,
    VirtioBlkPci,
    ScsiHd,
    IdeHd,
    Unknown,
}

/// Whether a device lets others write to its drive.
#[derive(Clone, Copy)]
pub enum Sharing {
    On,
    Off,
    Unknown,
}

/// What a word says of errors.
#[tactic(auto, unfolding(crate::specs::Words::on_error_of))]
pub(crate) fn read_on_error(word: &str) -> OnError
    ensures { result ≡ on_error_of word.now }
{
    match word {
        "report" => OnError::Report,
        _ => OnError::Unknown,
    }
}

/// What a word says of what is copied.
#[tactic(auto, unfolding(crate::specs::Words::sync_of))]
pub(crate) fn read_sync(word: &str) -> Sync
    ensures { result ≡ sync_of word.now }
{
    match word {
        "full" => Sync::Full,
        "incremental" => Sync::Incremental,
        "bitmap" => Sync::Bitmap,
        _ => Sync::Unknown,
    }
}

/// The mode of a mirror by its word.
#[tactic(auto, unfolding(crate::specs::Words::copy_mode_of))]
pub(crate) fn read_copy_mode(word: &str) -> CopyMode
    ensures { result ≡ copy_mode_of word.now }
{
    match word {
        "background" => CopyMode::Background,
        _ => CopyMode::Unknown,
    }
}

/// The mode of a bitmap by its word.
#[tactic(auto, unfolding(crate::specs::Words::bitmap_mode_of))]
pub(crate) fn read_bitmap_mode(word: &str) -> BitmapMode
    ensures { result ≡ bitmap_mode_of word.now }
{
    match word {
        "on-success" => BitmapMode::OnSuccess,
        "never" => BitmapMode::Never,
        _ => BitmapMode::Unknown,
    }
}

/// What a word says of discards.
#[tactic(auto, unfolding(crate::specs::Words::discard_of))]
pub(crate) fn read_discard(word: &str) -> Discard
    ensures { result ≡ discard_of word.now }
{
    match word {
        "ignore" => Discard::Ignore,
        "unmap" => Discard::Unmap,
        _ => Discard::Unknown,
    }
}

/// How jobs end, by its word.
#[tactic(auto, unfolding(crate::specs::Words::completion_mode_of))]
pub(crate) fn read_completion_mode(word: &str) -> CompletionMode
    ensures { result ≡ completion_mode_of word.now }
{
    match word {
        "individual" => CompletionMode::Individual,
        "grouped" => CompletionMode::Grouped,
        _ => CompletionMode::Unknown,
    }
}

/// The format of a word.
#[tactic(auto, unfolding(crate::specs::Words::image_format_of))]
pub(crate) fn read_image_format(word: &str) -> ImageFormat
    ensures { result ≡ image_format_of word.now }
{
    match word {
        "raw" => ImageFormat::Raw,
        "qcow2" => ImageFormat::Qcow2,
        _ => ImageFormat::Unknown,
    }
}

/// The version of a word.
#[tactic(auto, unfolding(crate::specs::Words::version_of_word))]
pub(crate) fn read_version(word: &str) -> Version
    ensures { result ≡ version_of_word word.now }
{
    match word {
        "v3" => Version::V3,
        _ => Version::Unknown,
    }
}

/// The device of a word.
#[tactic(auto, unfolding(crate::specs::Words::device_driver_of))]
pub(crate) fn read_device_driver(word: &str) -> DeviceDriver
    ensures { result ≡ device_driver_of word.now }
{
    match word {
        "virtio-blk" => DeviceDriver::VirtioBlk,
        "virtio-blk-pci" => DeviceDriver::VirtioBlkPci,
        "scsi-hd" => DeviceDriver::ScsiHd,
        "ide-hd" => DeviceDriver::IdeHd,
        _ => DeviceDriver::Unknown,
    }
}

/// What a word says of sharing.
#[tactic(auto, unfolding(crate::specs::Words::sharing_of))]
pub(crate) fn read_sharing(word: &str) -> Sharing
    ensures { result ≡ sharing_of word.now }
{
    match word {
        "on" => Sharing::On,
        "off" => Sharing::Off,
        _ => Sharing::Unknown,
    }
}
