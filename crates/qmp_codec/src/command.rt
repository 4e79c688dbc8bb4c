//! Commands, and the actions of transactions.

ghost use Rattle.std.specs.Prelude.{◌≡◌, IfOk, codes, map, option_map, string_bytes};
ghost use Rattle.serde_json.specs.View.{view, items_view};
ghost use Rattle.serde_json.specs.Find.{get};
ghost use Rattle.qmp_codec.specs.Words.{completion_mode_of};
ghost use Rattle.qmp_codec.specs.Commands.{seen_action, action_by, action_of, actions_of, actions_or, completion_in, seen_transaction, transaction_in, item_text, texts_of, texts_if, seen_command, command_of};

use crate::bitmaps::{
    BitmapAdd, BitmapMerge, BitmapName, MergeSource, read_bitmap_add, read_bitmap_merge,
    read_bitmap_name,
};
use crate::fields::{maybe_flag, maybe_str, text_at};
use crate::form::text_of;
use crate::jobs::{
    Backup, Commit, Mirror, Stream, read_backup, read_commit, read_mirror, read_stream,
};
use crate::nodes::{
    BlockdevAdd, BlockdevCreate, DeviceAdd, Snapshot, read_blockdev_add, read_blockdev_create,
    read_device_add, read_snapshot,
};
use crate::verb::{Deed, Verb, named_deed};
use crate::words::{CompletionMode, read_completion_mode};
use serde_json::Value;
use std::alloc::{AllocError, Global};

/// An action of a transaction.
#[derive(Drop)]
pub enum Action<T = String, S = Vec<MergeSource>> {
    Abort,
    Snapshot(Snapshot<T>),
    Backup(Backup<T>),
    BitmapAdd(BitmapAdd<T>),
    BitmapRemove(BitmapName<T>),
    BitmapClear(BitmapName<T>),
    BitmapEnable(BitmapName<T>),
    BitmapDisable(BitmapName<T>),
    BitmapMerge(BitmapMerge<T, S>),
    /// No type that a transaction takes.
    Unknown,
}

/// `transaction`: all actions, in order, or none.
#[derive(Drop)]
pub struct Transaction<A = Vec<Action>> {
    pub actions: A,
    pub completion_mode: Option<CompletionMode>,
}

/// A command with its members. Which values they may have is looked at elsewhere.
#[derive(Drop)]
pub enum Command<T = String, N = Vec<String>, S = Vec<MergeSource>, A = Vec<Action>> {
    /// `qmp_capabilities`, with what is to be enabled.
    Capabilities(Option<N>),
    BlockdevCreate(BlockdevCreate<T>),
    /// `job-dismiss` of this id.
    JobDismiss(T),
    BlockdevAdd(BlockdevAdd<T>),
    /// `blockdev-del` of the node of this name.
    BlockdevDel(T),
    DeviceAdd(DeviceAdd<T>),
    /// `device_del` of this id.
    DeviceDel(T),
    BlockdevSnapshot(Snapshot<T>),
    Transaction(Transaction<A>),
    BlockStream(Stream<T>),
    BlockCommit(Commit<T>),
    BlockdevMirror(Mirror<T>),
    BlockdevBackup(Backup<T>),
    /// `block-job-cancel` of this job, and whether it is forced.
    BlockJobCancel(T, Option<bool>),
    /// `block-job-complete` of this job.
    BlockJobComplete(T),
    QueryBlockJobs,
    /// `query-named-block-nodes`, and whether the list is flat.
    QueryNamedBlockNodes(Option<bool>),
    BitmapAdd(BitmapAdd<T>),
    BitmapRemove(BitmapName<T>),
    BitmapClear(BitmapName<T>),
    BitmapEnable(BitmapName<T>),
    BitmapDisable(BitmapName<T>),
    BitmapMerge(BitmapMerge<T, S>),
}

fn read_deed(alloc: Global, deed: Deed, members: &Value) -> Result<Action, AllocError>
    ensures { IfOk result (λ c. seen_action c ≡ action_by deed (view members.now)) }
{
    match deed {
        Deed::Abort => Ok(Action::Abort),
        Deed::Snapshot => Ok(Action::Snapshot(read_snapshot(alloc, members)?)),
        Deed::Backup => Ok(Action::Backup(read_backup(alloc, members)?)),
        Deed::BitmapAdd => Ok(Action::BitmapAdd(read_bitmap_add(alloc, members)?)),
        Deed::BitmapRemove => Ok(Action::BitmapRemove(read_bitmap_name(alloc, members)?)),
        Deed::BitmapClear => Ok(Action::BitmapClear(read_bitmap_name(alloc, members)?)),
        Deed::BitmapEnable => Ok(Action::BitmapEnable(read_bitmap_name(alloc, members)?)),
        Deed::BitmapDisable => Ok(Action::BitmapDisable(read_bitmap_name(alloc, members)?)),
        Deed::BitmapMerge => Ok(Action::BitmapMerge(read_bitmap_merge(alloc, members)?)),
        Deed::Unknown => Ok(Action::Unknown),
    }
}

fn read_action(alloc: Global, item: &Value) -> Result<Action, AllocError>
    ensures { IfOk result (λ c. seen_action c ≡ action_of (view item.now)) }
{
    match item.get("data") {
        Some(members) => Ok(read_deed(alloc, named_deed(text_of(item, "type")), members)?),
        None => Ok(Action::Unknown),
    }
}

#[tactic(auto, using(crate::proofs::Items::items_step, crate::proofs::Items::items_end, crate::proofs::Items::map_push))]
fn read_items(alloc: Global, items: &Vec<Value>) -> Result<Vec<Action>, AllocError>
    ensures { IfOk result (λ v. map seen_action v.items ≡ actions_of (items_view items.now.items)) }
{
    let mut actions = Vec::with_capacity(alloc, items.len())?;
    for item in items {
        actions.push(read_action(alloc, item)?)?;
    }
    Ok(actions)
}

fn read_actions(alloc: Global, object: &Value) -> Result<Vec<Action>, AllocError>
    ensures { IfOk result
        (λ v. map seen_action v.items ≡ actions_or (get (codes "actions") (view object.now))) }
{
    match object.get("actions") {
        Some(Value::Array(items)) => Ok(read_items(alloc, items)?),
        _ => Ok(Vec::new(alloc)),
    }
}

fn maybe_completion(object: &Value) -> Option<CompletionMode>
    ensures { result ≡ completion_in (view object.now) }
{
    let properties = object.get("properties")?;
    Some(read_completion_mode(maybe_str(properties, "completion-mode")?))
}

fn read_transaction(alloc: Global, object: &Value) -> Result<Transaction, AllocError>
    ensures { IfOk result (λ c. seen_transaction c ≡ transaction_in (view object.now)) }
{
    Ok(Transaction {
        actions: read_actions(alloc, object)?,
        completion_mode: maybe_completion(object),
    })
}

#[tactic(auto, using(crate::proofs::Items::items_step, crate::proofs::Items::items_end, crate::proofs::Items::map_push))]
fn read_texts(alloc: Global, items: &Vec<Value>) -> Result<Vec<String>, AllocError>
    ensures { IfOk result (λ v. map string_bytes v.items ≡ texts_of (items_view items.now.items)) }
{
    let mut texts = Vec::with_capacity(alloc, items.len())?;
    for item in items {
        texts.push(to_text(alloc, item)?)?;
    }
    Ok(texts)
}

/// The text of an item, empty where it is none.
fn to_text(alloc: Global, item: &Value) -> Result<String, AllocError>
    ensures { IfOk result (λ s. string_bytes s ≡ item_text (view item.now)) }
{
    match item {
        Value::String(text) => Ok(text.clone()?),
        _ => Ok(String::new(alloc)),
    }
}

fn maybe_texts(alloc: Global, object: &Value, name: &str) -> Result<Option<Vec<String>>, AllocError>
    ensures { IfOk result
        (λ o. option_map (λ v. map string_bytes v.items) o
        ≡ texts_if (get name.now (view object.now))) }
{
    match object.get(name) {
        Some(Value::Array(items)) => Ok(Some(read_texts(alloc, items)?)),
        _ => Ok(None),
    }
}

/// The command of a name with its members.
#[tactic(auto, unfolding(crate::specs::Commands::command_of))]
pub(crate) fn read_verb(alloc: Global, verb: Verb, object: &Value) -> Result<Command, AllocError>
    ensures { IfOk result (λ c. seen_command c ≡ command_of verb (view object.now)) }
{
    match verb {
        Verb::Capabilities => Ok(Command::Capabilities(maybe_texts(alloc, object, "enable")?)),
        Verb::Create => Ok(Command::BlockdevCreate(read_blockdev_create(alloc, object)?)),
        Verb::JobDismiss => Ok(Command::JobDismiss(text_at(alloc, object, "id")?)),
        Verb::Add => Ok(Command::BlockdevAdd(read_blockdev_add(alloc, object)?)),
        Verb::Del => Ok(Command::BlockdevDel(text_at(alloc, object, "node-name")?)),
        Verb::DeviceAdd => Ok(Command::DeviceAdd(read_device_add(alloc, object)?)),
        Verb::DeviceDel => Ok(Command::DeviceDel(text_at(alloc, object, "id")?)),
        Verb::Snapshot => Ok(Command::BlockdevSnapshot(read_snapshot(alloc, object)?)),
        Verb::Transaction => Ok(Command::Transaction(read_transaction(alloc, object)?)),
        Verb::Stream => Ok(Command::BlockStream(read_stream(alloc, object)?)),
        Verb::Commit => Ok(Command::BlockCommit(read_commit(alloc, object)?)),
        Verb::Mirror => Ok(Command::BlockdevMirror(read_mirror(alloc, object)?)),
        Verb::Backup => Ok(Command::BlockdevBackup(read_backup(alloc, object)?)),
        Verb::JobCancel => Ok(Command::BlockJobCancel(
            text_at(alloc, object, "device")?,
            maybe_flag(object, "force"),
        )),
        Verb::JobComplete => Ok(Command::BlockJobComplete(text_at(alloc, object, "device")?)),
        Verb::ListJobs => Ok(Command::QueryBlockJobs),
        Verb::ListNodes => Ok(Command::QueryNamedBlockNodes(maybe_flag(object, "flat"))),
        Verb::BitmapAdd => Ok(Command::BitmapAdd(read_bitmap_add(alloc, object)?)),
        Verb::BitmapRemove => Ok(Command::BitmapRemove(read_bitmap_name(alloc, object)?)),
        Verb::BitmapClear => Ok(Command::BitmapClear(read_bitmap_name(alloc, object)?)),
        Verb::BitmapEnable => Ok(Command::BitmapEnable(read_bitmap_name(alloc, object)?)),
        Verb::BitmapDisable => Ok(Command::BitmapDisable(read_bitmap_name(alloc, object)?)),
        Verb::BitmapMerge => Ok(Command::BitmapMerge(read_bitmap_merge(alloc, object)?)),
    }
}
