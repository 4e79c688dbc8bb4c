//! The list of asks of each command and action.
ghost use Rattle.std.specs.Prelude.{◌≡◌, ◌++◌, IfOk, OnOk, map, option_map, string_bytes};
ghost use Rattle.qmp_codec.specs.Commands.{seen_action, seen_command, seen_transaction};
ghost use Rattle.qmp_codec.specs.Bitmaps.{seen_bitmap_add, seen_bitmap_merge, seen_bitmap_name};
ghost use Rattle.qmp_codec.specs.Jobs.{seen_backup};
ghost use Rattle.qmp_codec.specs.Nodes.{seen_snapshot};
ghost use Rattle.qmp_asks.specs.BitmapAsks.{bitmap_add_names, bitmap_add_rest, bitmap_add_values, bitmap_names, bitmap_rest, merge_names, merge_rest};
ghost use Rattle.qmp_asks.specs.CommandAsks.{action_names, action_rest, action_values, all_names, all_values, asks_of, is_nothing, transaction_asks, transaction_names};
ghost use Rattle.qmp_asks.specs.JobAsks.{backup_names, backup_rest, backup_values};
ghost use Rattle.qmp_asks.specs.NodeAsks.{snapshot_names, snapshot_rest, snapshot_values};
ghost use Rattle.qmp_asks.specs.Seen.{seen_asks};

use crate::ask::Ask;
use crate::asks::{Asks, put};
use crate::bitmap_asks::{
    put_bitmap_add_names, put_bitmap_add_rest, put_bitmap_add_values, put_bitmap_names,
    put_bitmap_rest, put_merge_names, put_merge_rest,
};
use crate::job_asks::{
    put_backup_names, put_backup_rest, put_backup_values, put_cancel, put_commit, put_complete,
    put_mirror, put_stream,
};
use crate::node_asks::{
    put_add, put_create, put_del, put_device_add, put_device_del, put_snapshot_names,
    put_snapshot_rest, put_snapshot_values,
};
use crate::values::is_completion_mode;
use blk_base::NoMemory;
use qmp_codec::{
    Action, Backup, BitmapAdd, BitmapMerge, BitmapName, Command, Snapshot, Transaction,
};
use std::alloc::Global;

/// Whether nothing is to be enabled.
fn is_nothing(texts: &Option<Vec<String>>) -> bool
    ensures { result ≡ is_nothing (option_map (λ v. map string_bytes v.items) texts.now) }
{
    match texts {
        Some(texts) => texts.is_empty(),
        None => true,
    }
}

fn put_action_values<'x>(asks: &mut Asks<'x>, action: &'x Action) -> Result<(), NoMemory>
    ensures { OnOk result (seen_asks asks.new.items
        ≡ seen_asks asks.old.items ++ action_values (seen_action action.now)) }
{
    match action {
        Action::Unknown => put(
            asks,
            &[Ask::Good {
                member: "type",
                ok: false,
            }],
        ),
        Action::Snapshot(c) => put_snapshot_values(asks, c),
        Action::Backup(c) => put_backup_values(asks, c),
        Action::BitmapAdd(c) => put_bitmap_add_values(asks, c),
        Action::Abort
        | Action::BitmapRemove(_)
        | Action::BitmapClear(_)
        | Action::BitmapEnable(_)
        | Action::BitmapDisable(_)
        | Action::BitmapMerge(_) => Ok(()),
    }
}

fn put_action_names<'x>(asks: &mut Asks<'x>, action: &'x Action) -> Result<(), NoMemory>
    ensures { OnOk result (seen_asks asks.new.items
        ≡ seen_asks asks.old.items ++ action_names (seen_action action.now)) }
{
    match action {
        Action::Snapshot(c) => put_snapshot_names(asks, c),
        Action::Backup(c) => put_backup_names(asks, c),
        Action::BitmapAdd(c) => put_bitmap_add_names(asks, c),
        Action::BitmapRemove(c)
        | Action::BitmapClear(c)
        | Action::BitmapEnable(c)
        | Action::BitmapDisable(c) => put_bitmap_names(asks, c),
        Action::BitmapMerge(c) => put_merge_names(asks, c),
        Action::Abort | Action::Unknown => Ok(()),
    }
}

/// What an action asks of the table.
pub(crate) fn put_action_rest<'x>(asks: &mut Asks<'x>, action: &'x Action) -> Result<(), NoMemory>
    ensures { OnOk result (seen_asks asks.new.items
        ≡ seen_asks asks.old.items ++ action_rest (seen_action action.now)) }
{
    match action {
        Action::Abort => put(asks, &[Ask::Abort]),
        Action::Snapshot(c) => put_snapshot_rest(asks, c),
        Action::Backup(c) => put_backup_rest(asks, c),
        Action::BitmapAdd(c) => put_bitmap_add_rest(asks, c),
        Action::BitmapRemove(c)
        | Action::BitmapClear(c)
        | Action::BitmapEnable(c)
        | Action::BitmapDisable(c) => put_bitmap_rest(asks, c),
        Action::BitmapMerge(c) => put_merge_rest(asks, c),
        Action::Unknown => Ok(()),
    }
}

fn put_all_values<'x>(asks: &mut Asks<'x>, actions: &'x [Action]) -> Result<(), NoMemory>
    ensures { OnOk result (seen_asks asks.new.items
        ≡ seen_asks asks.old.items ++ all_values (map seen_action actions.now)) }
{
    for action in actions {
        put_action_values(asks, action)?;
    }
    Ok(())
}

fn put_all_names<'x>(asks: &mut Asks<'x>, actions: &'x [Action]) -> Result<(), NoMemory>
    ensures { OnOk result (seen_asks asks.new.items
        ≡ seen_asks asks.old.items ++ all_names (map seen_action actions.now)) }
{
    for action in actions {
        put_action_names(asks, action)?;
    }
    Ok(())
}

#[tactic(auto, using(std::proofs::lemmas::List::append_assoc))]
fn put_transaction_names<'x>(asks: &mut Asks<'x>, c: &'x Transaction) -> Result<(), NoMemory>
    ensures { OnOk result (seen_asks asks.new.items
        ≡ seen_asks asks.old.items ++ transaction_names (seen_transaction c.now)) }
{
    let ok = is_completion_mode(c.completion_mode);
    put(
        asks,
        &[Ask::Good {
            member: "completion-mode",
            ok,
        }],
    )?;
    put_all_names(asks, c.actions.as_slice())
}

#[tactic(auto, using(std::proofs::lemmas::List::append_assoc))]
fn put_transaction<'x>(asks: &mut Asks<'x>, c: &'x Transaction) -> Result<(), NoMemory>
    ensures { OnOk result (seen_asks asks.new.items
        ≡ seen_asks asks.old.items ++ transaction_asks (seen_transaction c.now)) }
{
    put_all_values(asks, c.actions.as_slice())?;
    put_transaction_names(asks, c)
}

#[tactic(auto, using(std::proofs::lemmas::List::append_assoc))]
fn put_snapshot<'x>(asks: &mut Asks<'x>, c: &'x Snapshot) -> Result<(), NoMemory>
    ensures { OnOk result (seen_asks asks.new.items ≡ seen_asks asks.old.items
        ++ (snapshot_values (seen_snapshot c.now) ++ snapshot_names (seen_snapshot c.now)
        ++ snapshot_rest (seen_snapshot c.now))) }
{
    put_snapshot_values(asks, c)?;
    put_snapshot_names(asks, c)?;
    put_snapshot_rest(asks, c)
}

#[tactic(auto, using(std::proofs::lemmas::List::append_assoc))]
fn put_backup<'x>(asks: &mut Asks<'x>, c: &'x Backup) -> Result<(), NoMemory>
    ensures { OnOk result (seen_asks asks.new.items ≡ seen_asks asks.old.items
        ++ (backup_values (seen_backup c.now) ++ backup_names (seen_backup c.now)
        ++ backup_rest (seen_backup c.now))) }
{
    put_backup_values(asks, c)?;
    put_backup_names(asks, c)?;
    put_backup_rest(asks, c)
}

#[tactic(auto, using(std::proofs::lemmas::List::append_assoc))]
fn put_bitmap_add<'x>(asks: &mut Asks<'x>, c: &'x BitmapAdd) -> Result<(), NoMemory>
    ensures { OnOk result (seen_asks asks.new.items ≡ seen_asks asks.old.items
        ++ (bitmap_add_values (seen_bitmap_add c.now) ++ bitmap_add_names (seen_bitmap_add c.now)
        ++ bitmap_add_rest (seen_bitmap_add c.now))) }
{
    put_bitmap_add_values(asks, c)?;
    put_bitmap_add_names(asks, c)?;
    put_bitmap_add_rest(asks, c)
}

#[tactic(auto, using(std::proofs::lemmas::List::append_assoc))]
fn put_bitmap<'x>(asks: &mut Asks<'x>, c: &'x BitmapName) -> Result<(), NoMemory>
    ensures { OnOk result (seen_asks asks.new.items ≡ seen_asks asks.old.items
        ++ (bitmap_names (seen_bitmap_name c.now) ++ bitmap_rest (seen_bitmap_name c.now))) }
{
    put_bitmap_names(asks, c)?;
    put_bitmap_rest(asks, c)
}

#[tactic(auto, using(std::proofs::lemmas::List::append_assoc))]
fn put_merge<'x>(asks: &mut Asks<'x>, c: &'x BitmapMerge) -> Result<(), NoMemory>
    ensures { OnOk result (seen_asks asks.new.items ≡ seen_asks asks.old.items
        ++ (merge_names (seen_bitmap_merge c.now) ++ merge_rest (seen_bitmap_merge c.now))) }
{
    put_merge_names(asks, c)?;
    put_merge_rest(asks, c)
}

#[tactic(auto, unfolding(crate::specs::CommandAsks::asks_of))]
fn put_command<'x>(asks: &mut Asks<'x>, command: &'x Command) -> Result<(), NoMemory>
    ensures { OnOk result (seen_asks asks.new.items
        ≡ seen_asks asks.old.items ++ asks_of (seen_command command.now)) }
{
    match command {
        Command::Capabilities(texts) => put(
            asks,
            &[Ask::Good {
                member: "enable",
                ok: is_nothing(texts),
            }],
        ),
        Command::BlockdevCreate(c) => put_create(asks, c),
        Command::JobDismiss(id) => put(
            asks,
            &[
                Ask::Named {
                    member: "id",
                    text: Some(id.as_str()),
                },
                Ask::Kept(id.as_str()),
            ],
        ),
        Command::BlockdevAdd(c) => put_add(asks, c),
        Command::BlockdevDel(name) => put_del(asks, name.as_str()),
        Command::DeviceAdd(c) => put_device_add(asks, c),
        Command::DeviceDel(id) => put_device_del(asks, id.as_str()),
        Command::BlockdevSnapshot(c) => put_snapshot(asks, c),
        Command::Transaction(c) => put_transaction(asks, c),
        Command::BlockStream(c) => put_stream(asks, c),
        Command::BlockCommit(c) => put_commit(asks, c),
        Command::BlockdevMirror(c) => put_mirror(asks, c),
        Command::BlockdevBackup(c) => put_backup(asks, c),
        Command::BlockJobCancel(job, _) => put_cancel(asks, job.as_str()),
        Command::BlockJobComplete(job) => put_complete(asks, job.as_str()),
        Command::QueryBlockJobs | Command::QueryNamedBlockNodes(_) => Ok(()),
        Command::BitmapAdd(c) => put_bitmap_add(asks, c),
        Command::BitmapRemove(c)
        | Command::BitmapClear(c)
        | Command::BitmapEnable(c)
        | Command::BitmapDisable(c) => put_bitmap(asks, c),
        Command::BitmapMerge(c) => put_merge(asks, c),
    }
}

/// All that a command asks of its line, of the table and of the files, in the order of the refusals.
pub fn asks_of(alloc: Global, command: &Command) -> Result<Asks<'_>, NoMemory>
    ensures { IfOk result (λ asks. seen_asks asks.items ≡ asks_of (seen_command command.now)) }
{
    let mut asks = Vec::new(alloc);
    put_command(&mut asks, command)?;
    Ok(asks)
}
