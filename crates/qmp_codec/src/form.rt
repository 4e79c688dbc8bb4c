//! The tables by name, and which of them an object is read by.

ghost use Rattle.std.specs.Prelude.{◌≡◌};
ghost use Rattle.serde_json.specs.View.{view};
ghost use Rattle.qmp_codec.specs.Forms.{text_in, verb_form, deed_form, added_form, created_form, form_named_by, driven_by, settled};

use crate::verb::{Deed, Driver, Verb, named_deed, named_driver, named_verb};
use serde_json::Value;

/// A table of members.
#[derive(Clone, Copy)]
pub(crate) enum Form {
    /// A whole line.
    Line,
    /// The arguments of the command that the line names.
    Arguments,
    /// The members of the action that the object around names.
    ActionData,
    NoMembers,
    Capabilities,
    Create,
    /// What is created, by its driver; where the driver is unknown, what each driver takes.
    CreateOptions,
    CreateFile,
    CreateQcow2,
    /// `blockdev-add` by its driver; where the driver is unknown, what each driver takes.
    Add,
    AddFile,
    AddRaw,
    AddQcow2,
    AddCopyOnRead,
    InlineFile,
    Cache,
    NodeName,
    DeviceAdd,
    Id,
    Snapshot,
    Transaction,
    Action,
    Properties,
    Stream,
    Commit,
    Mirror,
    Backup,
    JobCancel,
    JobComplete,
    ListNodes,
    BitmapAdd,
    BitmapName,
    BitmapMerge,
    BitmapSource,
}

/// The text of a member, empty where the member is absent or no text.
pub(crate) fn text_of<'a>(object: &'a Value, name: &str) -> &'a str
    ensures { result.now ≡ text_in name.now (view object.now) }
{
    match object.get(name) {
        Some(Value::String(text)) => text.as_str(),
        _ => "",
    }
}

fn verb_table(verb: Option<Verb>) -> Form
    ensures { result ≡ verb_form verb }
{
    match verb {
        None | Some(Verb::ListJobs) => Form::NoMembers,
        Some(Verb::Capabilities) => Form::Capabilities,
        Some(Verb::Create) => Form::Create,
        Some(Verb::JobDismiss | Verb::DeviceDel) => Form::Id,
        Some(Verb::Add) => Form::Add,
        Some(Verb::Del) => Form::NodeName,
        Some(Verb::DeviceAdd) => Form::DeviceAdd,
        Some(Verb::Snapshot) => Form::Snapshot,
        Some(Verb::Transaction) => Form::Transaction,
        Some(Verb::Stream) => Form::Stream,
        Some(Verb::Commit) => Form::Commit,
        Some(Verb::Mirror) => Form::Mirror,
        Some(Verb::Backup) => Form::Backup,
        Some(Verb::JobCancel) => Form::JobCancel,
        Some(Verb::JobComplete) => Form::JobComplete,
        Some(Verb::ListNodes) => Form::ListNodes,
        Some(Verb::BitmapAdd) => Form::BitmapAdd,
        Some(Verb::BitmapRemove | Verb::BitmapClear | Verb::BitmapEnable | Verb::BitmapDisable) =>
            Form::BitmapName,
        Some(Verb::BitmapMerge) => Form::BitmapMerge,
    }
}

fn deed_table(deed: Deed) -> Form
    ensures { result ≡ deed_form deed }
{
    match deed {
        Deed::Abort | Deed::Unknown => Form::NoMembers,
        Deed::Snapshot => Form::Snapshot,
        Deed::Backup => Form::Backup,
        Deed::BitmapAdd => Form::BitmapAdd,
        Deed::BitmapRemove | Deed::BitmapClear | Deed::BitmapEnable | Deed::BitmapDisable => {
            Form::BitmapName
        }
        Deed::BitmapMerge => Form::BitmapMerge,
    }
}

fn added_table(driver: Driver) -> Form
    ensures { result ≡ added_form driver }
{
    match driver {
        Driver::File => Form::AddFile,
        Driver::Raw => Form::AddRaw,
        Driver::Qcow2 => Form::AddQcow2,
        Driver::CopyOnRead => Form::AddCopyOnRead,
        Driver::Unknown => Form::Add,
    }
}

fn created_table(driver: Driver) -> Form
    ensures { result ≡ created_form driver }
{
    match driver {
        Driver::File => Form::CreateFile,
        Driver::Qcow2 => Form::CreateQcow2,
        Driver::Raw | Driver::CopyOnRead | Driver::Unknown => Form::CreateOptions,
    }
}

/// The table that the object around names.
fn by_name(form: Form, around: &Value) -> Form
    ensures { result ≡ form_named_by (view around.now) form }
{
    match form {
        Form::Arguments => verb_table(named_verb(text_of(around, "execute"))),
        Form::ActionData => deed_table(named_deed(text_of(around, "type"))),
        _ => form,
    }
}

/// The table that the object's driver names.
fn by_driver(form: Form, object: &Value) -> Form
    ensures { result ≡ driven_by (view object.now) form }
{
    match form {
        Form::Add => added_table(named_driver(text_of(object, "driver"))),
        Form::CreateOptions => created_table(named_driver(text_of(object, "driver"))),
        _ => form,
    }
}

/// The table of an object, which stands in a member of the object around.
#[tactic(auto, unfolding(crate::specs::Forms::settled))]
pub(crate) fn form_of(form: Form, around: &Value, object: &Value) -> Form
    ensures { result ≡ settled form (view around.now) (view object.now) }
{
    by_driver(by_name(form, around), object)
}
