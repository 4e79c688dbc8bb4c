//! What commands make of the dirty bitmaps.
ghost use Rattle.std.specs.Prelude.{◌≡◌, ◌<◌, true, None, Some, IsSome, IfOk, OnOk, length};
ghost use Rattle.qmp_codec.specs.Bitmaps.{seen_bitmap_add, seen_bitmap_merge, seen_bitmap_name, seen_source};
ghost use Rattle.qmp_codec.specs.Commands.{seen_command};
ghost use Rattle.qmp_rules.specs.Answers.{refusal_to, told_none};
ghost use Rattle.qmp_rules.specs.Asks.{id_or};
ghost use Rattle.qmp_asks.specs.BitmapAsks.{source_name, source_node};
ghost use Rattle.qmp_rules.specs.Queries.{bytes_of_node};
ghost use Rattle.blk_bitmaps.specs.Calls.{with_first, with_source, without_first};
ghost use Rattle.blk_bitmaps.specs.Refusals.{add_refusal, find};
ghost use Rattle.blk_bitmaps.specs.Rows.{emptied, is_named, switched};
ghost use Rattle.flat_machine.specs.Bitmaps.{AreBitmapsOf};
ghost use Rattle.world_parts.specs.Carrying.{is_of_bitmaps};
ghost use Rattle.qmp_asks.specs.Values.{amount_or, flag_or_false};
ghost use Rattle.world_parts.specs.Recorded.{IsIdleAt, IsNewBitmap, IsNewFor, bitmaps_after, bitmaps_merged};

use blk_base::{NoMemory, Text};
use blk_bitmaps::{Bitmap, BitmapStop, Bitmaps};
use blk_graph::{NodeId, free_id};
use qmp_codec::{Amount, BitmapAdd, BitmapMerge, BitmapName, Command, MergeSource};
use qmp_rules::Names;
use std::alloc::Global;

// ---- nodes by name

fn first_id() -> NodeId
    ensures { result ≡ 0 }
{
    match free_id(&[]) {
        Some(id) => id,
        None => unreachable!(),
    }
}

/// The node of a name; the first id where there is none.
fn id_of(names: &Names, name: &str) -> NodeId
    ensures { result ≡ id_or 0 names.now.table (Some name.now) }
{
    match names.id_named(name) {
        Some(id) => id,
        None => first_id(),
    }
}

// ---- a new bitmap

/// The amount of an accepted command, where it gives one.
fn amount_or(number: u64, amount: Option<Amount>) -> u64
    ensures { result ≡ amount_or number amount }
{
    match amount {
        Some(Amount::Number(said)) => said,
        Some(Amount::Negative) | None => number,
    }
}

fn flag_or_false(flag: Option<bool>) -> bool
    ensures { result ≡ flag_or_false flag }
{
    match flag {
        Some(on) => on,
        None => false,
    }
}

/// How many bytes a node's disk has.
fn size_of(names: &Names, node: NodeId) -> u64
    ensures { result ≡ bytes_of_node names.now.table node }
{
    match names.node_at(node) {
        Some(row) => row.size,
        None => 0,
    }
}

/// What stops a bitmap that nothing refuses.
fn no_memory(stop: BitmapStop) -> NoMemory
    requires { stop ≡ BitmapStop.NoMemory }
{
    let _ = stop;
    NoMemory
}

/// The bitmap that an accepted command adds, with all the memory that it takes.
fn new_bitmap(
    alloc: Global,
    bitmaps: &Bitmaps,
    names: &Names,
    c: &BitmapAdd,
) -> Result<Bitmap, NoMemory>
    requires { add_refusal bitmaps.now (id_or 0 names.now.table (Some (seen_bitmap_add c.now).node))
        (seen_bitmap_add c.now).name (amount_or 65536 (seen_bitmap_add c.now).granularity) ≡ None }
    ensures new { IfOk result (IsNewBitmap names.now.table (seen_bitmap_add c.now)) }
    ensures room { OnOk result (length bitmaps.now < 64) }
{
    let node = id_of(names, c.node.as_str());
    let size = size_of(names, node);
    let granularity = amount_or(65_536, c.granularity);
    let enabled = !flag_or_false(c.disabled);
    let name = Text::copied(alloc, c.name.as_str())?;
    match bitmaps.prepare(node, name, size, granularity, enabled) {
        Ok(row) => Ok(row),
        Err(stop) => Err(no_memory(stop)),
    }
}

/// The bitmap that an accepted command adds, where it adds one.
pub(crate) fn new_of(
    alloc: Global,
    bitmaps: &Bitmaps,
    names: &Names,
    command: &Command,
) -> Result<Option<Bitmap>, NoMemory>
    requires alike { AreBitmapsOf names.now.table.bitmaps bitmaps.now }
    requires accepted { is_of_bitmaps (seen_command command.now) ≡ true
        → refusal_to names.now.table told_none (seen_command command.now) ≡ None }
    ensures new { IfOk result (IsNewFor names.now.table (seen_command command.now)) }
    ensures room { IfOk result (λ new. IsSome new → length bitmaps.now < 64) }
{
    match command {
        Command::BitmapAdd(c) => Ok(Some(new_bitmap(alloc, bitmaps, names, c)?)),
        _ => Ok(None),
    }
}

// ---- what commands change

fn source_node<'x>(node: &'x str, source: &'x MergeSource) -> &'x str
    ensures { result.now ≡ source_node node.now (seen_source source.now) }
{
    match source {
        MergeSource::Name(_) => node,
        MergeSource::Of(bitmap) => bitmap.node.as_str(),
    }
}

fn source_name(source: &MergeSource) -> &str
    ensures { result.now ≡ source_name (seen_source source.now) }
{
    match source {
        MergeSource::Name(name) => name.as_str(),
        MergeSource::Of(bitmap) => bitmap.name.as_str(),
    }
}

/// Merges the sources, one after another.
fn merge(bitmaps: &mut Bitmaps, names: &Names, c: &BitmapMerge)
    ensures { bitmaps.new ≡ bitmaps_merged names.now.table (seen_bitmap_merge c.now).node
        (seen_bitmap_merge c.now).target (seen_bitmap_merge c.now).bitmaps bitmaps.old }
{
    for source in &c.bitmaps {
        let from = id_of(names, source_node(c.node.as_str(), source));
        let target = id_of(names, c.node.as_str());
        bitmaps.merge_one(target, c.target.as_str(), from, source_name(source));
    }
}

fn remove(bitmaps: &mut Bitmaps, names: &Names, c: &BitmapName)
    requires { IsIdleAt bitmaps.old (id_or 0 names.now.table (Some (seen_bitmap_name c.now).node))
        (seen_bitmap_name c.now).name }
    ensures { bitmaps.new ≡ without_first
        (is_named (id_or 0 names.now.table (Some (seen_bitmap_name c.now).node))
        (seen_bitmap_name c.now).name) bitmaps.old }
{
    // no job uses this one, and one that isn't there needs no removal
    let _ = bitmaps.remove(id_of(names, c.node.as_str()), c.name.as_str());
}

fn clear(bitmaps: &mut Bitmaps, names: &Names, c: &BitmapName)
    requires { IsIdleAt bitmaps.old (id_or 0 names.now.table (Some (seen_bitmap_name c.now).node))
        (seen_bitmap_name c.now).name }
    ensures { bitmaps.new ≡ with_first
        (is_named (id_or 0 names.now.table (Some (seen_bitmap_name c.now).node))
        (seen_bitmap_name c.now).name) emptied bitmaps.old }
{
    let _ = bitmaps.clear(id_of(names, c.node.as_str()), c.name.as_str());
}

fn turn(bitmaps: &mut Bitmaps, names: &Names, on: bool, c: &BitmapName)
    requires { IsIdleAt bitmaps.old (id_or 0 names.now.table (Some (seen_bitmap_name c.now).node))
        (seen_bitmap_name c.now).name }
    ensures { bitmaps.new ≡ with_first
        (is_named (id_or 0 names.now.table (Some (seen_bitmap_name c.now).node))
        (seen_bitmap_name c.now).name) (switched on) bitmaps.old }
{
    let node = id_of(names, c.node.as_str());
    let _ = if on {
        bitmaps.enable(node, c.name.as_str())
    } else {
        bitmaps.disable(node, c.name.as_str())
    };
}

/// Makes of the bitmaps what an accepted command does, the new one among them. Takes no memory.
pub(crate) fn change(bitmaps: &mut Bitmaps, names: &Names, command: &Command, new: Option<Bitmap>)
    requires alike { AreBitmapsOf names.now.table.bitmaps bitmaps.old }
    requires accepted { is_of_bitmaps (seen_command command.now) ≡ true
        → refusal_to names.now.table told_none (seen_command command.now) ≡ None }
    requires room { IsSome new → length bitmaps.old < 64 }
    ensures { bitmaps.new
        ≡ bitmaps_after names.now.table (seen_command command.now) new bitmaps.old }
{
    match command {
        Command::BitmapAdd(_) => {
            if let Some(row) = new {
                bitmaps.push(row);
            }
        }
        Command::BitmapRemove(c) => remove(bitmaps, names, c),
        Command::BitmapClear(c) => clear(bitmaps, names, c),
        Command::BitmapEnable(c) => turn(bitmaps, names, true, c),
        Command::BitmapDisable(c) => turn(bitmaps, names, false, c),
        Command::BitmapMerge(c) => merge(bitmaps, names, c),
        _ => {}
    }
}
