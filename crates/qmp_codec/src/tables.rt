//! The tables of members, as commands have them.

ghost use Rattle.std.specs.Prelude.{◌≡◌, map};
ghost use Rattle.qmp_codec.specs.Tables.{members, named};

use crate::form::Form;
use crate::row::{Kind, Row};

static LINE: [Row<&'static str>; 3] = [
    Row::Needs("execute", Kind::Text),
    Row::Takes("arguments", Kind::Object(Form::Arguments)),
    Row::Takes("id", Kind::Exact),
];

static CAPABILITIES: [Row<&'static str>; 1] = [Row::Takes("enable", Kind::Texts)];

static CREATE: [Row<&'static str>; 2] = [
    Row::Needs("job-id", Kind::Text),
    Row::Needs("options", Kind::Object(Form::CreateOptions)),
];

static CREATE_OPTIONS: [Row<&'static str>; 2] = [
    Row::Needs("driver", Kind::Text),
    Row::Takes("size", Kind::Integer),
];

static CREATE_FILE: [Row<&'static str>; 3] = [
    Row::Needs("driver", Kind::Text),
    Row::Needs("filename", Kind::Text),
    Row::Needs("size", Kind::Integer),
];

static CREATE_QCOW2: [Row<&'static str>; 8] = [
    Row::Needs("driver", Kind::Text),
    Row::Needs("file", Kind::Text),
    Row::Needs("size", Kind::Integer),
    Row::Takes("backing-file", Kind::Text),
    Row::Takes("backing-fmt", Kind::Text),
    Row::Takes("cluster-size", Kind::Integer),
    Row::Takes("refcount-bits", Kind::Integer),
    Row::Takes("version", Kind::Text),
];

static ADD: [Row<&'static str>; 6] = [
    Row::Needs("driver", Kind::Text),
    Row::Needs("node-name", Kind::Text),
    Row::Takes("read-only", Kind::Flag),
    Row::Takes("auto-read-only", Kind::Flag),
    Row::Takes("discard", Kind::Text),
    Row::Takes("cache", Kind::Object(Form::Cache)),
];

static ADD_FILE: [Row<&'static str>; 7] = [
    Row::Needs("driver", Kind::Text),
    Row::Needs("node-name", Kind::Text),
    Row::Takes("read-only", Kind::Flag),
    Row::Takes("auto-read-only", Kind::Flag),
    Row::Takes("discard", Kind::Text),
    Row::Takes("cache", Kind::Object(Form::Cache)),
    Row::Needs("filename", Kind::Text),
];

static ADD_RAW: [Row<&'static str>; 9] = [
    Row::Needs("driver", Kind::Text),
    Row::Needs("node-name", Kind::Text),
    Row::Takes("read-only", Kind::Flag),
    Row::Takes("auto-read-only", Kind::Flag),
    Row::Takes("discard", Kind::Text),
    Row::Takes("cache", Kind::Object(Form::Cache)),
    Row::Needs("file", Kind::TextOrObject(Form::InlineFile)),
    Row::Takes("offset", Kind::Integer),
    Row::Takes("size", Kind::Integer),
];

static ADD_QCOW2: [Row<&'static str>; 8] = [
    Row::Needs("driver", Kind::Text),
    Row::Needs("node-name", Kind::Text),
    Row::Takes("read-only", Kind::Flag),
    Row::Takes("auto-read-only", Kind::Flag),
    Row::Takes("discard", Kind::Text),
    Row::Takes("cache", Kind::Object(Form::Cache)),
    Row::Needs("file", Kind::TextOrObject(Form::InlineFile)),
    Row::Takes("backing", Kind::TextOrNull),
];

static ADD_COPY_ON_READ: [Row<&'static str>; 7] = [
    Row::Needs("driver", Kind::Text),
    Row::Needs("node-name", Kind::Text),
    Row::Takes("read-only", Kind::Flag),
    Row::Takes("auto-read-only", Kind::Flag),
    Row::Takes("discard", Kind::Text),
    Row::Takes("cache", Kind::Object(Form::Cache)),
    Row::Needs("file", Kind::Text),
];

static INLINE_FILE: [Row<&'static str>; 7] = [
    Row::Needs("driver", Kind::Text),
    Row::Needs("filename", Kind::Text),
    Row::Takes("node-name", Kind::Text),
    Row::Takes("read-only", Kind::Flag),
    Row::Takes("auto-read-only", Kind::Flag),
    Row::Takes("discard", Kind::Text),
    Row::Takes("cache", Kind::Object(Form::Cache)),
];

static CACHE: [Row<&'static str>; 2] = [
    Row::Takes("direct", Kind::Flag),
    Row::Takes("no-flush", Kind::Flag),
];

static NODE_NAME: [Row<&'static str>; 1] = [Row::Needs("node-name", Kind::Text)];

static DEVICE_ADD: [Row<&'static str>; 9] = [
    Row::Needs("driver", Kind::Text),
    Row::Needs("id", Kind::Text),
    Row::Needs("drive", Kind::Text),
    Row::Takes("share-rw", Kind::FlagOrText),
    Row::Takes("bus", Kind::Text),
    Row::Takes("addr", Kind::Text),
    Row::Takes("serial", Kind::Text),
    Row::Takes("write-cache", Kind::Text),
    Row::Takes("bootindex", Kind::Integer),
];

static ID: [Row<&'static str>; 1] = [Row::Needs("id", Kind::Text)];

static SNAPSHOT: [Row<&'static str>; 2] = [
    Row::Needs("node", Kind::Text),
    Row::Needs("overlay", Kind::Text),
];

static TRANSACTION: [Row<&'static str>; 2] = [
    Row::Needs("actions", Kind::Objects(Form::Action)),
    Row::Takes("properties", Kind::Object(Form::Properties)),
];

static ACTION: [Row<&'static str>; 2] = [
    Row::Needs("type", Kind::Text),
    Row::Needs("data", Kind::Object(Form::ActionData)),
];

static PROPERTIES: [Row<&'static str>; 1] = [Row::Takes("completion-mode", Kind::Text)];

static STREAM: [Row<&'static str>; 8] = [
    Row::Needs("job-id", Kind::Text),
    Row::Needs("device", Kind::Text),
    Row::Takes("base-node", Kind::Text),
    Row::Takes("backing-file", Kind::Text),
    Row::Takes("on-error", Kind::Text),
    Row::Takes("speed", Kind::Integer),
    Row::Takes("auto-finalize", Kind::Flag),
    Row::Takes("auto-dismiss", Kind::Flag),
];

static COMMIT: [Row<&'static str>; 9] = [
    Row::Needs("job-id", Kind::Text),
    Row::Needs("device", Kind::Text),
    Row::Takes("base-node", Kind::Text),
    Row::Takes("top-node", Kind::Text),
    Row::Takes("backing-file", Kind::Text),
    Row::Takes("on-error", Kind::Text),
    Row::Takes("speed", Kind::Integer),
    Row::Takes("auto-finalize", Kind::Flag),
    Row::Takes("auto-dismiss", Kind::Flag),
];

static MIRROR: [Row<&'static str>; 10] = [
    Row::Needs("job-id", Kind::Text),
    Row::Needs("device", Kind::Text),
    Row::Needs("target", Kind::Text),
    Row::Needs("sync", Kind::Text),
    Row::Takes("copy-mode", Kind::Text),
    Row::Takes("on-source-error", Kind::Text),
    Row::Takes("on-target-error", Kind::Text),
    Row::Takes("speed", Kind::Integer),
    Row::Takes("auto-finalize", Kind::Flag),
    Row::Takes("auto-dismiss", Kind::Flag),
];

static BACKUP: [Row<&'static str>; 11] = [
    Row::Needs("job-id", Kind::Text),
    Row::Needs("device", Kind::Text),
    Row::Needs("target", Kind::Text),
    Row::Needs("sync", Kind::Text),
    Row::Takes("bitmap", Kind::Text),
    Row::Takes("bitmap-mode", Kind::Text),
    Row::Takes("on-source-error", Kind::Text),
    Row::Takes("on-target-error", Kind::Text),
    Row::Takes("speed", Kind::Integer),
    Row::Takes("auto-finalize", Kind::Flag),
    Row::Takes("auto-dismiss", Kind::Flag),
];

static JOB_CANCEL: [Row<&'static str>; 2] = [
    Row::Needs("device", Kind::Text),
    Row::Takes("force", Kind::Flag),
];

static JOB_COMPLETE: [Row<&'static str>; 1] = [Row::Needs("device", Kind::Text)];

static LIST_NODES: [Row<&'static str>; 1] = [Row::Takes("flat", Kind::Flag)];

static BITMAP_ADD: [Row<&'static str>; 5] = [
    Row::Needs("node", Kind::Text),
    Row::Needs("name", Kind::Text),
    Row::Takes("granularity", Kind::Integer),
    Row::Takes("persistent", Kind::Flag),
    Row::Takes("disabled", Kind::Flag),
];

static BITMAP_NAME: [Row<&'static str>; 2] = [
    Row::Needs("node", Kind::Text),
    Row::Needs("name", Kind::Text),
];

static BITMAP_MERGE: [Row<&'static str>; 3] = [
    Row::Needs("node", Kind::Text),
    Row::Needs("target", Kind::Text),
    Row::Needs("bitmaps", Kind::TextsOrObjects(Form::BitmapSource)),
];

static BITMAP_SOURCE: [Row<&'static str>; 2] = [
    Row::Needs("node", Kind::Text),
    Row::Needs("name", Kind::Text),
];

/// The members of a table, in order.
#[tactic(auto, unfolding(crate::specs::Tables::members))]
pub(crate) fn table(form: Form) -> &'static [Row<&'static str>]
    ensures { map named result.now ≡ members form }
{
    match form {
        Form::Arguments | Form::ActionData | Form::NoMembers => &[],
        Form::Line => &LINE,
        Form::Capabilities => &CAPABILITIES,
        Form::Create => &CREATE,
        Form::CreateOptions => &CREATE_OPTIONS,
        Form::CreateFile => &CREATE_FILE,
        Form::CreateQcow2 => &CREATE_QCOW2,
        Form::Add => &ADD,
        Form::AddFile => &ADD_FILE,
        Form::AddRaw => &ADD_RAW,
        Form::AddQcow2 => &ADD_QCOW2,
        Form::AddCopyOnRead => &ADD_COPY_ON_READ,
        Form::InlineFile => &INLINE_FILE,
        Form::Cache => &CACHE,
        Form::NodeName => &NODE_NAME,
        Form::DeviceAdd => &DEVICE_ADD,
        Form::Id => &ID,
        Form::Snapshot => &SNAPSHOT,
        Form::Transaction => &TRANSACTION,
        Form::Action => &ACTION,
        Form::Properties => &PROPERTIES,
        Form::Stream => &STREAM,
        Form::Commit => &COMMIT,
        Form::Mirror => &MIRROR,
        Form::Backup => &BACKUP,
        Form::JobCancel => &JOB_CANCEL,
        Form::JobComplete => &JOB_COMPLETE,
        Form::ListNodes => &LIST_NODES,
        Form::BitmapAdd => &BITMAP_ADD,
        Form::BitmapName => &BITMAP_NAME,
        Form::BitmapMerge => &BITMAP_MERGE,
        Form::BitmapSource => &BITMAP_SOURCE,
    }
}
