//! The commands that start jobs.

ghost use Rattle.std.specs.Prelude.{◌≡◌, IfOk, option_map};
ghost use Rattle.serde_json.specs.View.{view};
ghost use Rattle.qmp_codec.specs.Words.{on_error_of, copy_mode_of, bitmap_mode_of};
ghost use Rattle.qmp_codec.specs.Fields.{text_if};
ghost use Rattle.qmp_codec.specs.Jobs.{job_options_in, seen_stream, stream_in, seen_commit, commit_in, seen_mirror, mirror_in, seen_backup, backup_in};

use crate::fields::{Amount, maybe_amount, maybe_flag, maybe_str, maybe_text, text_at};
use crate::form::text_of;
use crate::words::{
    BitmapMode, CopyMode, OnError, Sync, read_bitmap_mode, read_copy_mode, read_on_error, read_sync,
};
use serde_json::Value;
use std::alloc::{AllocError, Global};

/// What every job takes.
#[derive(Clone, Copy)]
pub struct JobOptions {
    pub speed: Option<Amount>,
    pub auto_finalize: Option<bool>,
    pub auto_dismiss: Option<bool>,
}

/// `block-stream`: the base is copied into the device.
#[derive(Drop)]
pub struct Stream<T = String> {
    pub job_id: T,
    pub device: T,
    pub base_node: Option<T>,
    pub backing_file: Option<T>,
    pub on_error: Option<OnError>,
    pub options: JobOptions,
}

/// `block-commit`: the top is written into the base.
#[derive(Drop)]
pub struct Commit<T = String> {
    pub job_id: T,
    pub device: T,
    pub base_node: Option<T>,
    pub top_node: Option<T>,
    pub backing_file: Option<T>,
    pub on_error: Option<OnError>,
    pub options: JobOptions,
}

/// `blockdev-mirror`: the device is copied to the target, and kept equal.
#[derive(Drop)]
pub struct Mirror<T = String> {
    pub job_id: T,
    pub device: T,
    pub target: T,
    pub sync: Sync,
    pub copy_mode: Option<CopyMode>,
    pub on_source_error: Option<OnError>,
    pub on_target_error: Option<OnError>,
    pub options: JobOptions,
}

/// `blockdev-backup`: the device as it is now is copied to the target.
#[derive(Drop)]
pub struct Backup<T = String> {
    pub job_id: T,
    pub device: T,
    pub target: T,
    pub sync: Sync,
    pub bitmap: Option<T>,
    pub bitmap_mode: Option<BitmapMode>,
    pub on_source_error: Option<OnError>,
    pub on_target_error: Option<OnError>,
    pub options: JobOptions,
}

fn maybe_on_error(object: &Value, name: &str) -> Option<OnError>
    ensures { result ≡ option_map on_error_of (text_if name.now (view object.now)) }
{
    Some(read_on_error(maybe_str(object, name)?))
}

fn maybe_copy_mode(object: &Value, name: &str) -> Option<CopyMode>
    ensures { result ≡ option_map copy_mode_of (text_if name.now (view object.now)) }
{
    Some(read_copy_mode(maybe_str(object, name)?))
}

fn maybe_bitmap_mode(object: &Value, name: &str) -> Option<BitmapMode>
    ensures { result ≡ option_map bitmap_mode_of (text_if name.now (view object.now)) }
{
    Some(read_bitmap_mode(maybe_str(object, name)?))
}

pub(crate) fn read_job_options(object: &Value) -> JobOptions
    ensures { result ≡ job_options_in (view object.now) }
{
    JobOptions {
        speed: maybe_amount(object, "speed"),
        auto_finalize: maybe_flag(object, "auto-finalize"),
        auto_dismiss: maybe_flag(object, "auto-dismiss"),
    }
}

pub(crate) fn read_stream(alloc: Global, object: &Value) -> Result<Stream, AllocError>
    ensures { IfOk result (λ c. seen_stream c ≡ stream_in (view object.now)) }
{
    Ok(Stream {
        job_id: text_at(alloc, object, "job-id")?,
        device: text_at(alloc, object, "device")?,
        base_node: maybe_text(alloc, object, "base-node")?,
        backing_file: maybe_text(alloc, object, "backing-file")?,
        on_error: maybe_on_error(object, "on-error"),
        options: read_job_options(object),
    })
}

pub(crate) fn read_commit(alloc: Global, object: &Value) -> Result<Commit, AllocError>
    ensures { IfOk result (λ c. seen_commit c ≡ commit_in (view object.now)) }
{
    Ok(Commit {
        job_id: text_at(alloc, object, "job-id")?,
        device: text_at(alloc, object, "device")?,
        base_node: maybe_text(alloc, object, "base-node")?,
        top_node: maybe_text(alloc, object, "top-node")?,
        backing_file: maybe_text(alloc, object, "backing-file")?,
        on_error: maybe_on_error(object, "on-error"),
        options: read_job_options(object),
    })
}

pub(crate) fn read_mirror(alloc: Global, object: &Value) -> Result<Mirror, AllocError>
    ensures { IfOk result (λ c. seen_mirror c ≡ mirror_in (view object.now)) }
{
    Ok(Mirror {
        job_id: text_at(alloc, object, "job-id")?,
        device: text_at(alloc, object, "device")?,
        target: text_at(alloc, object, "target")?,
        sync: read_sync(text_of(object, "sync")),
        copy_mode: maybe_copy_mode(object, "copy-mode"),
        on_source_error: maybe_on_error(object, "on-source-error"),
        on_target_error: maybe_on_error(object, "on-target-error"),
        options: read_job_options(object),
    })
}

pub(crate) fn read_backup(alloc: Global, object: &Value) -> Result<Backup, AllocError>
    ensures { IfOk result (λ c. seen_backup c ≡ backup_in (view object.now)) }
{
    Ok(Backup {
        job_id: text_at(alloc, object, "job-id")?,
        device: text_at(alloc, object, "device")?,
        target: text_at(alloc, object, "target")?,
        sync: read_sync(text_of(object, "sync")),
        bitmap: maybe_text(alloc, object, "bitmap")?,
        bitmap_mode: maybe_bitmap_mode(object, "bitmap-mode"),
        on_source_error: maybe_on_error(object, "on-source-error"),
        on_target_error: maybe_on_error(object, "on-target-error"),
        options: read_job_options(object),
    })
}
