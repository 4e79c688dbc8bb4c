//! The words that say which table holds: commands, types of actions, drivers.

ghost use Rattle.std.specs.Prelude.{◌≡◌, map};
ghost use Rattle.qmp_codec.specs.Verbs.{verb_row, verb_among, verb_of, deed_of, driver_of};

/// A command by its name.
#[derive(Clone, Copy)]
pub(crate) enum Verb {
    Capabilities,
    Create,
    JobDismiss,
    Add,
    Del,
    DeviceAdd,
    DeviceDel,
    Snapshot,
    Transaction,
    Stream,
    Commit,
    Mirror,
    Backup,
    JobCancel,
    JobComplete,
    ListJobs,
    ListNodes,
    BitmapAdd,
    BitmapRemove,
    BitmapClear,
    BitmapEnable,
    BitmapDisable,
    BitmapMerge,
}

/// The type of an action.
#[derive(Clone, Copy)]
pub(crate) enum Deed {
    Abort,
    Snapshot,
    Backup,
    BitmapAdd,
    BitmapRemove,
    BitmapClear,
    BitmapEnable,
    BitmapDisable,
    BitmapMerge,
    Unknown,
}

/// A driver of nodes.
#[derive(Clone, Copy)]
pub enum Driver {
    File,
    Raw,
    Qcow2,
    CopyOnRead,
    Unknown,
}

static VERBS: [(&'static str, Verb); 23] = [
    ("qmp_capabilities", Verb::Capabilities),
    ("blockdev-create", Verb::Create),
    ("job-dismiss", Verb::JobDismiss),
    ("blockdev-add", Verb::Add),
    ("blockdev-del", Verb::Del),
    ("device_add", Verb::DeviceAdd),
    ("device_del", Verb::DeviceDel),
    ("blockdev-snapshot", Verb::Snapshot),
    ("transaction", Verb::Transaction),
    ("block-stream", Verb::Stream),
    ("block-commit", Verb::Commit),
    ("blockdev-mirror", Verb::Mirror),
    ("blockdev-backup", Verb::Backup),
    ("block-job-cancel", Verb::JobCancel),
    ("block-job-complete", Verb::JobComplete),
    ("query-block-jobs", Verb::ListJobs),
    ("query-named-block-nodes", Verb::ListNodes),
    ("block-dirty-bitmap-add", Verb::BitmapAdd),
    ("block-dirty-bitmap-remove", Verb::BitmapRemove),
    ("block-dirty-bitmap-clear", Verb::BitmapClear),
    ("block-dirty-bitmap-enable", Verb::BitmapEnable),
    ("block-dirty-bitmap-disable", Verb::BitmapDisable),
    ("block-dirty-bitmap-merge", Verb::BitmapMerge),
];

/// The command of the first row with this name.
#[tactic(auto, using(crate::proofs::Items::verbs_step, crate::proofs::Items::verbs_end))]
fn verb_among(rows: &[(&'static str, Verb)], name: &str) -> Option<Verb>
    ensures { result ≡ verb_among (map verb_row rows.now) name.now }
{
    for (known, verb) in rows {
        if name == *known {
            return Some(*verb);
        }
    }
    None
}

/// The command of a name.
#[tactic(auto, unfolding(crate::specs::Verbs::verb_of))]
pub(crate) fn named_verb(name: &str) -> Option<Verb>
    ensures { result ≡ verb_of name.now }
{
    verb_among(&VERBS, name)
}

/// The action of a type.
#[tactic(auto, unfolding(crate::specs::Verbs::deed_of))]
pub(crate) fn named_deed(name: &str) -> Deed
    ensures { result ≡ deed_of name.now }
{
    match name {
        "abort" => Deed::Abort,
        "blockdev-snapshot" => Deed::Snapshot,
        "blockdev-backup" => Deed::Backup,
        "block-dirty-bitmap-add" => Deed::BitmapAdd,
        "block-dirty-bitmap-remove" => Deed::BitmapRemove,
        "block-dirty-bitmap-clear" => Deed::BitmapClear,
        "block-dirty-bitmap-enable" => Deed::BitmapEnable,
        "block-dirty-bitmap-disable" => Deed::BitmapDisable,
        "block-dirty-bitmap-merge" => Deed::BitmapMerge,
        _ => Deed::Unknown,
    }
}

/// The driver of a name.
#[tactic(auto, unfolding(crate::specs::Verbs::driver_of))]
pub(crate) fn named_driver(name: &str) -> Driver
    ensures { result ≡ driver_of name.now }
{
    match name {
        "file" => Driver::File,
        "raw" => Driver::Raw,
        "qcow2" => Driver::Qcow2,
        "copy-on-read" => Driver::CopyOnRead,
        _ => Driver::Unknown,
    }
}
