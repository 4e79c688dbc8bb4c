//! What the commands on nodes, files and devices ask.
ghost use Rattle.std.specs.Prelude.{◌≡◌, ◌++◌, OnOk, false, option_map};
ghost use Rattle.qmp_codec.specs.Nodes.{seen_add_qcow2, seen_add_raw, seen_added, seen_backing, seen_blockdev_add, seen_blockdev_create, seen_create_file, seen_create_qcow2, seen_created, seen_device_add, seen_file_ref, seen_inline_file, seen_snapshot};
ghost use Rattle.qmp_asks.specs.NodeAsks.{add_asks, add_names, add_values, added_names, added_rest, added_values, backing_name, begins_in, copy_on_read_rest, create_asks, create_file_rest, create_names, create_qcow2_rest, create_qcow2_values, create_rest, create_values, del_asks, device_add_asks, device_del_asks, ends_in, file_names, file_rest, file_values, is_added, is_read_only, option_values, part_values, qcow2_rest, raw_rest, snapshot_names, snapshot_rest, snapshot_values, writable_with};
ghost use Rattle.qmp_asks.specs.Seen.{seen_ask, seen_asks, seen_text};

use crate::ask::{Ask, Drivers};
use crate::asks::{Asks, maybe, put};
use crate::look::Look;
use crate::values::{
    flag_or_false, is_device_driver, is_discard, is_file_driver, is_image_format, is_image_size,
    is_just, is_maybe_size, is_offset, is_sharing, is_size, is_version,
};
use blk_base::NoMemory;
use qmp_codec::{
    AddQcow2, AddRaw, Added, BackingRef, BlockdevAdd, BlockdevCreate, CreateFile, CreateQcow2,
    Created, DeviceAdd, FileRef, InlineFile, NodeOptions, Snapshot,
};

/// Whether a node is added read-only.
pub fn is_read_only(options: &NodeOptions) -> bool
    ensures { result ≡ is_read_only options.now }
{
    flag_or_false(options.read_only)
}

/// The backing node that is named.
pub fn backing_name(backing: &Option<BackingRef>) -> Option<&str>
    ensures { seen_text result ≡ backing_name (option_map seen_backing backing.now) }
{
    match backing {
        Some(BackingRef::Name(name)) => Some(name.as_str()),
        Some(BackingRef::Null) | None => None,
    }
}

fn put_create_qcow2_values<'x>(asks: &mut Asks<'x>, c: &'x CreateQcow2) -> Result<(), NoMemory>
    ensures { OnOk result (seen_asks asks.new.items
        ≡ seen_asks asks.old.items ++ create_qcow2_values (seen_create_qcow2 c.now)) }
{
    put(
        asks,
        &[
            Ask::Good {
                member: "size",
                ok: is_image_size(c.size),
            },
            Ask::Good {
                member: "backing-fmt",
                ok: is_image_format(c.backing_fmt),
            },
            Ask::Good {
                member: "cluster-size",
                ok: is_just(65536, c.cluster_size),
            },
            Ask::Good {
                member: "refcount-bits",
                ok: is_just(16, c.refcount_bits),
            },
            Ask::Good {
                member: "version",
                ok: is_version(c.version),
            },
        ],
    )
}

fn put_create_values<'x>(asks: &mut Asks<'x>, options: &'x Created) -> Result<(), NoMemory>
    ensures { OnOk result (seen_asks asks.new.items
        ≡ seen_asks asks.old.items ++ create_values (seen_created options.now)) }
{
    match options {
        Created::File(c) => put(
            asks,
            &[Ask::Good {
                member: "size",
                ok: is_size(c.size),
            }],
        ),
        Created::Qcow2(c) => put_create_qcow2_values(asks, c),
        Created::Unknown => put(
            asks,
            &[Ask::Good {
                member: "driver",
                ok: false,
            }],
        ),
    }
}

fn put_create_qcow2_names<'x>(asks: &mut Asks<'x>, c: &'x CreateQcow2) -> Result<(), NoMemory>
    ensures { OnOk result (seen_asks asks.new.items
        ≡ seen_asks asks.old.items ++ create_names (Created.Qcow2 (seen_create_qcow2 c.now))) }
{
    put(
        asks,
        &[
            Ask::Named {
                member: "file",
                text: Some(c.file.as_str()),
            },
            Ask::FileNamed {
                member: "backing-file",
                text: maybe(&c.backing_file),
            },
        ],
    )
}

fn put_create_names<'x>(asks: &mut Asks<'x>, options: &'x Created) -> Result<(), NoMemory>
    ensures { OnOk result (seen_asks asks.new.items
        ≡ seen_asks asks.old.items ++ create_names (seen_created options.now)) }
{
    match options {
        Created::File(c) => put(
            asks,
            &[Ask::FileNamed {
                member: "filename",
                text: Some(c.filename.as_str()),
            }],
        ),
        Created::Qcow2(c) => put_create_qcow2_names(asks, c),
        Created::Unknown => Ok(()),
    }
}

fn put_create_rest<'x>(
    asks: &mut Asks<'x>,
    job: &'x str,
    options: &'x Created,
) -> Result<(), NoMemory>
    ensures { OnOk result (seen_asks asks.new.items
        ≡ seen_asks asks.old.items ++ create_rest job.now (seen_created options.now)) }
{
    match options {
        Created::File(c) => put(
            asks,
            &[
                Ask::FreshJob(job),
                Ask::Closed(c.filename.as_str()),
                Ask::Files(Look::File),
            ],
        ),
        Created::Qcow2(c) => put(
            asks,
            &[
                Ask::Found(Some(c.file.as_str())),
                Ask::FreshJob(job),
                Ask::Drives {
                    node: Some(c.file.as_str()),
                    which: Drivers::File,
                },
                Ask::Lone(c.file.as_str()),
                Ask::Files(Look::Format),
            ],
        ),
        Created::Unknown => Ok(()),
    }
}

/// What `blockdev-create` asks.
#[tactic(auto, using(std::proofs::lemmas::List::append_assoc))]
pub(crate) fn put_create<'x>(asks: &mut Asks<'x>, c: &'x BlockdevCreate) -> Result<(), NoMemory>
    ensures { OnOk result (seen_asks asks.new.items
        ≡ seen_asks asks.old.items ++ create_asks (seen_blockdev_create c.now)) }
{
    put_create_values(asks, &c.options)?;
    put(
        asks,
        &[Ask::Named {
            member: "job-id",
            text: Some(c.job_id.as_str()),
        }],
    )?;
    put_create_names(asks, &c.options)?;
    put_create_rest(asks, c.job_id.as_str(), &c.options)
}

fn put_option_values<'x>(asks: &mut Asks<'x>, options: &NodeOptions) -> Result<(), NoMemory>
    ensures { OnOk result
        (seen_asks asks.new.items ≡ seen_asks asks.old.items ++ option_values options.now) }
{
    put(
        asks,
        &[Ask::Good {
            member: "discard",
            ok: is_discard(options.discard),
        }],
    )
}

#[tactic(auto, using(std::proofs::lemmas::List::append_assoc))]
fn put_file_values<'x>(asks: &mut Asks<'x>, file: &'x FileRef) -> Result<(), NoMemory>
    ensures { OnOk result (seen_asks asks.new.items
        ≡ seen_asks asks.old.items ++ file_values (seen_file_ref file.now)) }
{
    match file {
        FileRef::Name(_) => Ok(()),
        FileRef::Inline(file) => {
            put(
                asks,
                &[Ask::Good {
                    member: "driver",
                    ok: is_file_driver(file.driver),
                }],
            )?;
            put_option_values(asks, &file.options)
        }
    }
}

fn put_file_names<'x>(asks: &mut Asks<'x>, file: &'x FileRef) -> Result<(), NoMemory>
    ensures { OnOk result (seen_asks asks.new.items
        ≡ seen_asks asks.old.items ++ file_names (seen_file_ref file.now)) }
{
    match file {
        FileRef::Name(name) => put(
            asks,
            &[Ask::Named {
                member: "file",
                text: Some(name.as_str()),
            }],
        ),
        FileRef::Inline(file) => put(
            asks,
            &[
                Ask::FileNamed {
                    member: "filename",
                    text: Some(file.filename.as_str()),
                },
                Ask::Named {
                    member: "node-name",
                    text: maybe(&file.node_name),
                },
            ],
        ),
    }
}

/// What is asked of where a part begins, of a file node that is there or of the file that is opened.
fn begins_in(raw: &AddRaw) -> Ask<&str>
    ensures { seen_ask result ≡ begins_in (seen_add_raw raw.now).file raw.now.offset }
{
    match &raw.file {
        FileRef::Name(name) => Ask::Begins {
            file: name.as_str(),
            offset: raw.offset,
        },
        FileRef::Inline(_) => Ask::Files(Look::Begin),
    }
}

fn ends_in(raw: &AddRaw) -> Ask<&str>
    ensures { seen_ask result ≡ ends_in (seen_add_raw raw.now).file raw.now.offset raw.now.size }
{
    match &raw.file {
        FileRef::Name(name) => Ask::Ends {
            file: name.as_str(),
            offset: raw.offset,
            size: raw.size,
        },
        FileRef::Inline(_) => Ask::Files(Look::End),
    }
}

fn put_part_values<'x>(asks: &mut Asks<'x>, raw: &'x AddRaw) -> Result<(), NoMemory>
    ensures { OnOk result (seen_asks asks.new.items
        ≡ seen_asks asks.old.items ++ part_values (seen_add_raw raw.now)) }
{
    put(
        asks,
        &[
            Ask::Good {
                member: "offset",
                ok: is_offset(raw.offset),
            },
            begins_in(raw),
            Ask::Good {
                member: "size",
                ok: is_maybe_size(raw.size),
            },
            ends_in(raw),
        ],
    )
}

#[tactic(auto, using(std::proofs::lemmas::List::append_assoc))]
fn put_added_values<'x>(asks: &mut Asks<'x>, driver: &'x Added) -> Result<(), NoMemory>
    ensures { OnOk result (seen_asks asks.new.items
        ≡ seen_asks asks.old.items ++ added_values (seen_added driver.now)) }
{
    match driver {
        Added::Raw(raw) => {
            put_file_values(asks, &raw.file)?;
            put_part_values(asks, raw)
        }
        Added::Qcow2(image) => put_file_values(asks, &image.file),
        Added::File(_) | Added::CopyOnRead(_) | Added::Unknown => Ok(()),
    }
}

#[tactic(auto, using(std::proofs::lemmas::List::append_assoc))]
fn put_added_names<'x>(asks: &mut Asks<'x>, driver: &'x Added) -> Result<(), NoMemory>
    ensures { OnOk result (seen_asks asks.new.items
        ≡ seen_asks asks.old.items ++ added_names (seen_added driver.now)) }
{
    match driver {
        Added::File(name) => put(
            asks,
            &[Ask::FileNamed {
                member: "filename",
                text: Some(name.as_str()),
            }],
        ),
        Added::Raw(raw) => put_file_names(asks, &raw.file),
        Added::Qcow2(image) => {
            put_file_names(asks, &image.file)?;
            put(
                asks,
                &[Ask::Named {
                    member: "backing",
                    text: backing_name(&image.backing),
                }],
            )
        }
        Added::CopyOnRead(file) => put(
            asks,
            &[Ask::Named {
                member: "file",
                text: Some(file.as_str()),
            }],
        ),
        Added::Unknown => Ok(()),
    }
}

/// That a file node which is made with the node over it is read-only only where that node is.
fn writable_with<'x>(name: &'x str, read_only: bool, file: &'x InlineFile) -> Ask<&'x str>
    ensures { seen_ask result ≡ writable_with name.now read_only (seen_inline_file file.now) }
{
    Ask::WritableWith {
        node: name,
        own: maybe(&file.node_name),
        ok: !is_read_only(&file.options) || read_only,
    }
}

fn put_file_rest<'x>(asks: &mut Asks<'x>, name: &'x str, filename: &'x str) -> Result<(), NoMemory>
    ensures { OnOk result (seen_asks asks.new.items
        ≡ seen_asks asks.old.items ++ added_rest name.now false (Added.File filename.now)) }
{
    put(
        asks,
        &[
            Ask::FreshNode(Some(name)),
            Ask::RoomForNodes(1),
            Ask::Closed(filename),
            Ask::Files(Look::File),
            Ask::Known {
                file: filename,
                is_raw: false,
            },
        ],
    )
}

fn put_raw_over<'x>(
    asks: &mut Asks<'x>,
    name: &'x str,
    read_only: bool,
    raw: &'x AddRaw,
    file: &'x str,
) -> Result<(), NoMemory>
    ensures { OnOk result (seen_asks asks.new.items ≡ seen_asks asks.old.items
        ++ raw_rest name.now read_only (seen_add_raw raw.now) (FileRef.Name file.now)) }
{
    put(
        asks,
        &[
            Ask::Found(Some(file)),
            Ask::FreshNode(Some(name)),
            Ask::RoomForNodes(1),
            Ask::Drives {
                node: Some(file),
                which: Drivers::File,
            },
            Ask::Fits {
                file,
                offset: raw.offset,
                size: raw.size,
            },
            Ask::KnownUnder { file, is_raw: true },
            Ask::WritableUnder { file, read_only },
            Ask::Lone(file),
        ],
    )
}

fn put_raw_with<'x>(
    asks: &mut Asks<'x>,
    name: &'x str,
    read_only: bool,
    raw: &AddRaw,
    file: &'x InlineFile,
) -> Result<(), NoMemory>
    ensures { OnOk result (seen_asks asks.new.items ≡ seen_asks asks.old.items
        ++ raw_rest name.now read_only (seen_add_raw raw.now)
        (FileRef.Inline (seen_inline_file file.now))) }
{
    let _ = raw;
    put(
        asks,
        &[
            Ask::FreshNode(Some(name)),
            Ask::FreshNode(maybe(&file.node_name)),
            Ask::Apart {
                first: name,
                second: maybe(&file.node_name),
            },
            Ask::RoomForNodes(2),
            Ask::Closed(file.filename.as_str()),
            Ask::Files(Look::File),
            Ask::Known {
                file: file.filename.as_str(),
                is_raw: true,
            },
            writable_with(name, read_only, file),
        ],
    )
}

fn put_qcow2_over<'x>(
    asks: &mut Asks<'x>,
    name: &'x str,
    read_only: bool,
    backing: Option<&'x str>,
    file: &'x str,
) -> Result<(), NoMemory>
    ensures { OnOk result (seen_asks asks.new.items ≡ seen_asks asks.old.items
        ++ qcow2_rest name.now read_only (seen_text backing.entry) (FileRef.Name file.now)) }
{
    put(
        asks,
        &[
            Ask::Found(Some(file)),
            Ask::Found(backing),
            Ask::FreshNode(Some(name)),
            Ask::RoomForNodes(1),
            Ask::Drives {
                node: Some(file),
                which: Drivers::File,
            },
            Ask::Drives {
                node: backing,
                which: Drivers::FileRawOrQcow2,
            },
            Ask::KnownUnder {
                file,
                is_raw: false,
            },
            Ask::Files(Look::Image),
            Ask::Files(Look::Backing),
            Ask::Settled(backing),
            Ask::Beside { backing, file },
            Ask::WritableUnder { file, read_only },
            Ask::Files(Look::Size),
            Ask::Lone(file),
        ],
    )
}

fn put_qcow2_with<'x>(
    asks: &mut Asks<'x>,
    name: &'x str,
    read_only: bool,
    backing: Option<&'x str>,
    file: &'x InlineFile,
) -> Result<(), NoMemory>
    ensures { OnOk result (seen_asks asks.new.items ≡ seen_asks asks.old.items
        ++ qcow2_rest name.now read_only (seen_text backing.entry)
        (FileRef.Inline (seen_inline_file file.now))) }
{
    put(
        asks,
        &[
            Ask::Found(backing),
            Ask::FreshNode(Some(name)),
            Ask::FreshNode(maybe(&file.node_name)),
            Ask::Apart {
                first: name,
                second: maybe(&file.node_name),
            },
            Ask::RoomForNodes(2),
            Ask::Drives {
                node: backing,
                which: Drivers::FileRawOrQcow2,
            },
            Ask::Closed(file.filename.as_str()),
            Ask::Files(Look::File),
            Ask::Known {
                file: file.filename.as_str(),
                is_raw: false,
            },
            Ask::Files(Look::Image),
            Ask::Files(Look::Backing),
            Ask::Settled(backing),
            writable_with(name, read_only, file),
            Ask::Files(Look::Size),
        ],
    )
}

fn put_copy_on_read<'x>(asks: &mut Asks<'x>, name: &'x str, file: &'x str) -> Result<(), NoMemory>
    ensures { OnOk result (seen_asks asks.new.items
        ≡ seen_asks asks.old.items ++ copy_on_read_rest name.now file.now) }
{
    put(
        asks,
        &[
            Ask::Found(Some(file)),
            Ask::FreshNode(Some(name)),
            Ask::RoomForNodes(1),
            Ask::Drives {
                node: Some(file),
                which: Drivers::RawOrQcow2,
            },
            Ask::Writable(file),
        ],
    )
}

fn put_raw<'x>(
    asks: &mut Asks<'x>,
    name: &'x str,
    read_only: bool,
    raw: &'x AddRaw,
) -> Result<(), NoMemory>
    ensures { OnOk result (seen_asks asks.new.items ≡ seen_asks asks.old.items
        ++ raw_rest name.now read_only (seen_add_raw raw.now) (seen_add_raw raw.now).file) }
{
    match &raw.file {
        FileRef::Name(file) => put_raw_over(asks, name, read_only, raw, file.as_str()),
        FileRef::Inline(file) => put_raw_with(asks, name, read_only, raw, file),
    }
}

fn put_qcow2<'x>(
    asks: &mut Asks<'x>,
    name: &'x str,
    read_only: bool,
    image: &'x AddQcow2,
) -> Result<(), NoMemory>
    ensures { OnOk result (seen_asks asks.new.items ≡ seen_asks asks.old.items
        ++ qcow2_rest name.now read_only (backing_name (seen_add_qcow2 image.now).backing)
        (seen_add_qcow2 image.now).file) }
{
    let backing = backing_name(&image.backing);
    match &image.file {
        FileRef::Name(file) => put_qcow2_over(asks, name, read_only, backing, file.as_str()),
        FileRef::Inline(file) => put_qcow2_with(asks, name, read_only, backing, file),
    }
}

fn put_added_rest<'x>(
    asks: &mut Asks<'x>,
    name: &'x str,
    read_only: bool,
    driver: &'x Added,
) -> Result<(), NoMemory>
    ensures { OnOk result (seen_asks asks.new.items
        ≡ seen_asks asks.old.items ++ added_rest name.now read_only (seen_added driver.now)) }
{
    match driver {
        Added::File(filename) => put_file_rest(asks, name, filename.as_str()),
        Added::Raw(raw) => put_raw(asks, name, read_only, raw),
        Added::Qcow2(image) => put_qcow2(asks, name, read_only, image),
        Added::CopyOnRead(file) => put_copy_on_read(asks, name, file.as_str()),
        Added::Unknown => Ok(()),
    }
}

fn is_added(driver: &Added) -> bool
    ensures { result ≡ is_added (seen_added driver.now) }
{
    !matches!(driver, Added::Unknown)
}

#[tactic(auto, using(std::proofs::lemmas::List::append_assoc))]
fn put_add_values<'x>(asks: &mut Asks<'x>, c: &'x BlockdevAdd) -> Result<(), NoMemory>
    ensures { OnOk result (seen_asks asks.new.items
        ≡ seen_asks asks.old.items ++ add_values (seen_blockdev_add c.now)) }
{
    put(
        asks,
        &[Ask::Good {
            member: "driver",
            ok: is_added(&c.driver),
        }],
    )?;
    put_option_values(asks, &c.options)?;
    put_added_values(asks, &c.driver)
}

#[tactic(auto, using(std::proofs::lemmas::List::append_assoc))]
fn put_add_names<'x>(asks: &mut Asks<'x>, c: &'x BlockdevAdd) -> Result<(), NoMemory>
    ensures { OnOk result (seen_asks asks.new.items
        ≡ seen_asks asks.old.items ++ add_names (seen_blockdev_add c.now)) }
{
    put(
        asks,
        &[Ask::Named {
            member: "node-name",
            text: Some(c.node_name.as_str()),
        }],
    )?;
    put_added_names(asks, &c.driver)
}

/// What `blockdev-add` asks.
#[tactic(auto, using(std::proofs::lemmas::List::append_assoc))]
pub(crate) fn put_add<'x>(asks: &mut Asks<'x>, c: &'x BlockdevAdd) -> Result<(), NoMemory>
    ensures { OnOk result (seen_asks asks.new.items
        ≡ seen_asks asks.old.items ++ add_asks (seen_blockdev_add c.now)) }
{
    put_add_values(asks, c)?;
    put_add_names(asks, c)?;
    put_added_rest(
        asks,
        c.node_name.as_str(),
        is_read_only(&c.options),
        &c.driver,
    )
}

/// What `blockdev-del` asks.
pub(crate) fn put_del<'x>(asks: &mut Asks<'x>, name: &'x str) -> Result<(), NoMemory>
    ensures { OnOk result
        (seen_asks asks.new.items ≡ seen_asks asks.old.items ++ del_asks name.now) }
{
    put(
        asks,
        &[
            Ask::Named {
                member: "node-name",
                text: Some(name),
            },
            Ask::Found(Some(name)),
            Ask::Unheld(name),
            Ask::Lone(name),
        ],
    )
}

/// What `device_add` asks.
pub(crate) fn put_device_add<'x>(asks: &mut Asks<'x>, c: &'x DeviceAdd) -> Result<(), NoMemory>
    ensures { OnOk result (seen_asks asks.new.items
        ≡ seen_asks asks.old.items ++ device_add_asks (seen_device_add c.now)) }
{
    let id = c.id.as_str();
    let drive = c.drive.as_str();
    put(
        asks,
        &[
            Ask::Good {
                member: "driver",
                ok: is_device_driver(c.driver),
            },
            Ask::Good {
                member: "share-rw",
                ok: is_sharing(c.share_rw),
            },
            Ask::Named {
                member: "id",
                text: Some(id),
            },
            Ask::Named {
                member: "drive",
                text: Some(drive),
            },
            Ask::Found(Some(drive)),
            Ask::FreshDevice(id),
            Ask::RoomForDevice,
            Ask::Settled(Some(drive)),
        ],
    )
}

/// What `device_del` asks.
pub(crate) fn put_device_del<'x>(asks: &mut Asks<'x>, id: &'x str) -> Result<(), NoMemory>
    ensures { OnOk result
        (seen_asks asks.new.items ≡ seen_asks asks.old.items ++ device_del_asks id.now) }
{
    put(
        asks,
        &[
            Ask::Named {
                member: "id",
                text: Some(id),
            },
            Ask::DeviceFound(id),
        ],
    )
}

/// What `blockdev-snapshot` asks of the values of its members.
pub(crate) fn put_snapshot_values<'x>(asks: &mut Asks<'x>, c: &'x Snapshot) -> Result<(), NoMemory>
    ensures { OnOk result (seen_asks asks.new.items
        ≡ seen_asks asks.old.items ++ snapshot_values (seen_snapshot c.now)) }
{
    let ok = c.overlay.as_str() != c.node.as_str();
    put(
        asks,
        &[Ask::Good {
            member: "overlay",
            ok,
        }],
    )
}

/// What it asks of the members that are names.
pub(crate) fn put_snapshot_names<'x>(asks: &mut Asks<'x>, c: &'x Snapshot) -> Result<(), NoMemory>
    ensures { OnOk result (seen_asks asks.new.items
        ≡ seen_asks asks.old.items ++ snapshot_names (seen_snapshot c.now)) }
{
    put(
        asks,
        &[
            Ask::Named {
                member: "node",
                text: Some(c.node.as_str()),
            },
            Ask::Named {
                member: "overlay",
                text: Some(c.overlay.as_str()),
            },
        ],
    )
}

/// What it asks of the table.
pub(crate) fn put_snapshot_rest<'x>(asks: &mut Asks<'x>, c: &'x Snapshot) -> Result<(), NoMemory>
    ensures { OnOk result (seen_asks asks.new.items
        ≡ seen_asks asks.old.items ++ snapshot_rest (seen_snapshot c.now)) }
{
    let node = c.node.as_str();
    let overlay = c.overlay.as_str();
    put(
        asks,
        &[
            Ask::Found(Some(node)),
            Ask::Found(Some(overlay)),
            Ask::Drives {
                node: Some(node),
                which: Drivers::FileRawOrQcow2,
            },
            Ask::Drives {
                node: Some(overlay),
                which: Drivers::Qcow2,
            },
            Ask::Settled(Some(node)),
            Ask::Settled(Some(overlay)),
            Ask::Unheld(node),
            Ask::Writable(overlay),
            Ask::SameSize {
                first: node,
                second: overlay,
            },
            Ask::NoBacking(overlay),
            Ask::Empty(overlay),
            Ask::Lone(overlay),
        ],
    )
}
