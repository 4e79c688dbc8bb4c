//! The commands on nodes and devices.

ghost use Rattle.std.specs.Prelude.{◌≡◌, IfOk, codes, option_map};
ghost use Rattle.serde_json.specs.View.{view};
ghost use Rattle.serde_json.specs.Find.{get};
ghost use Rattle.qmp_codec.specs.Words.{discard_of, image_format_of, version_of_word};
ghost use Rattle.qmp_codec.specs.Fields.{text_if};
ghost use Rattle.qmp_codec.specs.Nodes.{cache_in, node_options_in, seen_inline_file, inline_file_in, seen_add_raw, add_raw_in, seen_add_qcow2, add_qcow2_in, seen_blockdev_add, blockdev_add_in, seen_create_file, create_file_in, seen_create_qcow2, create_qcow2_in, seen_blockdev_create, blockdev_create_in, seen_snapshot, snapshot_in, seen_device_add, device_add_in, cache_if, seen_file_ref, file_ref_in, seen_backing, backing_if, seen_added, added_in, seen_created, created_of, created_in, sharing_if};

use crate::fields::{Amount, amount_at, maybe_amount, maybe_flag, maybe_str, maybe_text, text_at};
use crate::form::text_of;
use crate::verb::{Driver, named_driver};
use crate::words::{
    DeviceDriver, Discard, ImageFormat, Sharing, Version, read_device_driver, read_discard,
    read_image_format, read_sharing, read_version,
};
use serde_json::Value;
use std::alloc::{AllocError, Global};

/// How a file is cached.
#[derive(Clone, Copy)]
pub struct Cache {
    pub direct: Option<bool>,
    pub no_flush: Option<bool>,
}

/// What every node takes.
#[derive(Clone, Copy)]
pub struct NodeOptions {
    pub read_only: Option<bool>,
    pub auto_read_only: Option<bool>,
    pub discard: Option<Discard>,
    pub cache: Option<Cache>,
}

/// A `file` node that is added with the node over it.
#[derive(Drop)]
pub struct InlineFile<T = String> {
    pub driver: Driver,
    pub filename: T,
    pub node_name: Option<T>,
    pub options: NodeOptions,
}

/// The file under a node: a node by its name, or one that is added too.
#[derive(Drop)]
pub enum FileRef<T = String> {
    Name(T),
    Inline(InlineFile<T>),
}

/// The backing member of a qcow2 node: a node, or that there is none.
#[derive(Drop)]
pub enum BackingRef<T = String> {
    Null,
    Name(T),
}

/// A part of a file.
#[derive(Drop)]
pub struct AddRaw<T = String> {
    pub file: FileRef<T>,
    pub offset: Option<Amount>,
    pub size: Option<Amount>,
}

/// A qcow2 image in a file.
#[derive(Drop)]
pub struct AddQcow2<T = String> {
    pub file: FileRef<T>,
    pub backing: Option<BackingRef<T>>,
}

/// What is added, by its driver.
#[derive(Drop)]
pub enum Added<T = String> {
    /// A file by its name in the store.
    File(T),
    Raw(AddRaw<T>),
    Qcow2(AddQcow2<T>),
    /// A filter over the node of this name.
    CopyOnRead(T),
    /// No driver that this is a table of.
    Unknown,
}

/// `blockdev-add`.
#[derive(Drop)]
pub struct BlockdevAdd<T = String> {
    pub node_name: T,
    pub options: NodeOptions,
    pub driver: Added<T>,
}

/// A file of the store to be created.
#[derive(Drop)]
pub struct CreateFile<T = String> {
    pub filename: T,
    pub size: Amount,
}

/// A file node to be formatted.
#[derive(Drop)]
pub struct CreateQcow2<T = String> {
    pub file: T,
    pub size: Amount,
    pub backing_file: Option<T>,
    pub backing_fmt: Option<ImageFormat>,
    pub cluster_size: Option<Amount>,
    pub refcount_bits: Option<Amount>,
    pub version: Option<Version>,
}

/// What is created, by its driver.
#[derive(Drop)]
pub enum Created<T = String> {
    File(CreateFile<T>),
    Qcow2(CreateQcow2<T>),
    /// No driver that creates.
    Unknown,
}

/// `blockdev-create`.
#[derive(Drop)]
pub struct BlockdevCreate<T = String> {
    pub job_id: T,
    pub options: Created<T>,
}

/// `blockdev-snapshot`: the overlay is put over the node.
#[derive(Drop)]
pub struct Snapshot<T = String> {
    pub node: T,
    pub overlay: T,
}

/// `device_add`. The last five members change nothing.
#[derive(Drop)]
pub struct DeviceAdd<T = String> {
    pub driver: DeviceDriver,
    pub id: T,
    pub drive: T,
    pub share_rw: Option<Sharing>,
    pub bus: Option<T>,
    pub addr: Option<T>,
    pub serial: Option<T>,
    pub write_cache: Option<T>,
    pub bootindex: Option<Amount>,
}

fn maybe_discard(object: &Value, name: &str) -> Option<Discard>
    ensures { result ≡ option_map discard_of (text_if name.now (view object.now)) }
{
    Some(read_discard(maybe_str(object, name)?))
}

fn maybe_image_format(object: &Value, name: &str) -> Option<ImageFormat>
    ensures { result ≡ option_map image_format_of (text_if name.now (view object.now)) }
{
    Some(read_image_format(maybe_str(object, name)?))
}

fn maybe_version(object: &Value, name: &str) -> Option<Version>
    ensures { result ≡ option_map version_of_word (text_if name.now (view object.now)) }
{
    Some(read_version(maybe_str(object, name)?))
}

pub(crate) fn read_cache(object: &Value) -> Cache
    ensures { result ≡ cache_in (view object.now) }
{
    Cache {
        direct: maybe_flag(object, "direct"),
        no_flush: maybe_flag(object, "no-flush"),
    }
}

fn maybe_cache(object: &Value) -> Option<Cache>
    ensures { result ≡ cache_if (view object.now) }
{
    Some(read_cache(object.get("cache")?))
}

pub(crate) fn read_node_options(object: &Value) -> NodeOptions
    ensures { result ≡ node_options_in (view object.now) }
{
    NodeOptions {
        read_only: maybe_flag(object, "read-only"),
        auto_read_only: maybe_flag(object, "auto-read-only"),
        discard: maybe_discard(object, "discard"),
        cache: maybe_cache(object),
    }
}

pub(crate) fn read_inline_file(alloc: Global, object: &Value) -> Result<InlineFile, AllocError>
    ensures { IfOk result (λ c. seen_inline_file c ≡ inline_file_in (view object.now)) }
{
    Ok(InlineFile {
        driver: named_driver(text_of(object, "driver")),
        filename: text_at(alloc, object, "filename")?,
        node_name: maybe_text(alloc, object, "node-name")?,
        options: read_node_options(object),
    })
}

fn read_file_ref(alloc: Global, object: &Value) -> Result<FileRef, AllocError>
    ensures { IfOk result (λ c. seen_file_ref c ≡ file_ref_in (view object.now)) }
{
    match object.get("file") {
        Some(file @ Value::Object(_)) => Ok(FileRef::Inline(read_inline_file(alloc, file)?)),
        _ => Ok(FileRef::Name(text_at(alloc, object, "file")?)),
    }
}

fn maybe_backing(alloc: Global, object: &Value) -> Result<Option<BackingRef>, AllocError>
    ensures { IfOk result
        (λ c. option_map seen_backing c ≡ backing_if (get (codes "backing") (view object.now))) }
{
    match object.get("backing") {
        Some(Value::Null) => Ok(Some(BackingRef::Null)),
        Some(Value::String(name)) => Ok(Some(BackingRef::Name(name.clone()?))),
        _ => Ok(None),
    }
}

pub(crate) fn read_add_raw(alloc: Global, object: &Value) -> Result<AddRaw, AllocError>
    ensures { IfOk result (λ c. seen_add_raw c ≡ add_raw_in (view object.now)) }
{
    Ok(AddRaw {
        file: read_file_ref(alloc, object)?,
        offset: maybe_amount(object, "offset"),
        size: maybe_amount(object, "size"),
    })
}

pub(crate) fn read_add_qcow2(alloc: Global, object: &Value) -> Result<AddQcow2, AllocError>
    ensures { IfOk result (λ c. seen_add_qcow2 c ≡ add_qcow2_in (view object.now)) }
{
    Ok(AddQcow2 {
        file: read_file_ref(alloc, object)?,
        backing: maybe_backing(alloc, object)?,
    })
}

fn read_added(alloc: Global, object: &Value) -> Result<Added, AllocError>
    ensures { IfOk result (λ c. seen_added c ≡ added_in (view object.now)) }
{
    match named_driver(text_of(object, "driver")) {
        Driver::File => Ok(Added::File(text_at(alloc, object, "filename")?)),
        Driver::Raw => Ok(Added::Raw(read_add_raw(alloc, object)?)),
        Driver::Qcow2 => Ok(Added::Qcow2(read_add_qcow2(alloc, object)?)),
        Driver::CopyOnRead => Ok(Added::CopyOnRead(text_at(alloc, object, "file")?)),
        Driver::Unknown => Ok(Added::Unknown),
    }
}

pub(crate) fn read_blockdev_add(alloc: Global, object: &Value) -> Result<BlockdevAdd, AllocError>
    ensures { IfOk result (λ c. seen_blockdev_add c ≡ blockdev_add_in (view object.now)) }
{
    Ok(BlockdevAdd {
        node_name: text_at(alloc, object, "node-name")?,
        options: read_node_options(object),
        driver: read_added(alloc, object)?,
    })
}

pub(crate) fn read_create_file(alloc: Global, object: &Value) -> Result<CreateFile, AllocError>
    ensures { IfOk result (λ c. seen_create_file c ≡ create_file_in (view object.now)) }
{
    Ok(CreateFile {
        filename: text_at(alloc, object, "filename")?,
        size: amount_at(object, "size"),
    })
}

pub(crate) fn read_create_qcow2(alloc: Global, object: &Value) -> Result<CreateQcow2, AllocError>
    ensures { IfOk result (λ c. seen_create_qcow2 c ≡ create_qcow2_in (view object.now)) }
{
    Ok(CreateQcow2 {
        file: text_at(alloc, object, "file")?,
        size: amount_at(object, "size"),
        backing_file: maybe_text(alloc, object, "backing-file")?,
        backing_fmt: maybe_image_format(object, "backing-fmt"),
        cluster_size: maybe_amount(object, "cluster-size"),
        refcount_bits: maybe_amount(object, "refcount-bits"),
        version: maybe_version(object, "version"),
    })
}

fn read_options(alloc: Global, options: &Value) -> Result<Created, AllocError>
    ensures { IfOk result (λ c. seen_created c ≡ created_of (view options.now)) }
{
    match named_driver(text_of(options, "driver")) {
        Driver::File => Ok(Created::File(read_create_file(alloc, options)?)),
        Driver::Qcow2 => Ok(Created::Qcow2(read_create_qcow2(alloc, options)?)),
        Driver::Raw | Driver::CopyOnRead | Driver::Unknown => Ok(Created::Unknown),
    }
}

fn read_created(alloc: Global, object: &Value) -> Result<Created, AllocError>
    ensures { IfOk result (λ c. seen_created c ≡ created_in (view object.now)) }
{
    match object.get("options") {
        Some(options) => Ok(read_options(alloc, options)?),
        None => Ok(Created::Unknown),
    }
}

pub(crate) fn read_blockdev_create(
    alloc: Global,
    object: &Value,
) -> Result<BlockdevCreate, AllocError>
    ensures { IfOk result (λ c. seen_blockdev_create c ≡ blockdev_create_in (view object.now)) }
{
    Ok(BlockdevCreate {
        job_id: text_at(alloc, object, "job-id")?,
        options: read_created(alloc, object)?,
    })
}

pub(crate) fn read_snapshot(alloc: Global, object: &Value) -> Result<Snapshot, AllocError>
    ensures { IfOk result (λ c. seen_snapshot c ≡ snapshot_in (view object.now)) }
{
    Ok(Snapshot {
        node: text_at(alloc, object, "node")?,
        overlay: text_at(alloc, object, "overlay")?,
    })
}

fn maybe_sharing(object: &Value) -> Option<Sharing>
    ensures { result ≡ sharing_if (get (codes "share-rw") (view object.now)) }
{
    match object.get("share-rw") {
        Some(Value::Bool(true)) => Some(Sharing::On),
        Some(Value::Bool(false)) => Some(Sharing::Off),
        Some(Value::String(word)) => Some(read_sharing(word.as_str())),
        _ => None,
    }
}

pub(crate) fn read_device_add(alloc: Global, object: &Value) -> Result<DeviceAdd, AllocError>
    ensures { IfOk result (λ c. seen_device_add c ≡ device_add_in (view object.now)) }
{
    Ok(DeviceAdd {
        driver: read_device_driver(text_of(object, "driver")),
        id: text_at(alloc, object, "id")?,
        drive: text_at(alloc, object, "drive")?,
        share_rw: maybe_sharing(object),
        bus: maybe_text(alloc, object, "bus")?,
        addr: maybe_text(alloc, object, "addr")?,
        serial: maybe_text(alloc, object, "serial")?,
        write_cache: maybe_text(alloc, object, "write-cache")?,
        bootindex: maybe_amount(object, "bootindex"),
    })
}
