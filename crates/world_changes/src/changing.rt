//! Commands that change table, edges and bitmaps, and no nodes: one carrier for all of them.
ghost use Rattle.std.specs.Prelude.{◌≡◌, ◌<◌, ℕ, true, None, Ok, IfOk, IsSome, OnOk, OnErr, length, string_bytes};
ghost use Rattle.qmp_asks.specs.CommandAsks.{is_built};
ghost use Rattle.qmp_codec.specs.Commands.{seen_command};
ghost use Rattle.qmp_rules.specs.Answers.{command_edits, refusal_to, returned, told_none};
ghost use Rattle.qmp_rules.specs.Changes.{all_changed};
ghost use Rattle.qmp_rules.specs.Fitting.{AllChangesFit};
ghost use Rattle.qmp_rules.specs.Room.{HasRoomForChanges};
ghost use Rattle.qmp_rules.specs.Table.{kinds_of};
ghost use Rattle.blk_nodes.specs.Joined.{IsJoined};
ghost use Rattle.blk_nodes.specs.Rewiring.{IsWiring};
ghost use Rattle.flat_machine.specs.Bitmaps.{AreBitmapsOf};
ghost use Rattle.flat_machine.specs.State.{State, drive_of};
ghost use Rattle.flat_machine.specs.Wiring.{TableAtRest};
ghost use Rattle.world_parts.specs.Coherent.{AreNodesOf};
ghost use Rattle.world_parts.specs.Carrying.{is_of_bitmaps};
ghost use Rattle.world_parts.specs.Handling.{IsRewired};
ghost use Rattle.world_parts.specs.Recorded.{AreAfter};
ghost use Rattle.world_parts.specs.Saying.{IsSaid};
ghost use Rattle.world_changes.specs.Changing.{IsChange, TellsMappedAlone, is_change, scene};

use crate::bitmaps::{change, new_of};
use crate::draining::drain;
use crate::telling::told_of;
use blk_base::{Device, NoMemory};
use blk_bitmaps::Bitmaps;
use blk_nodes::Nodes;
use qmp_codec::Command;
use qmp_rules::{Edits, Names, Told};
use std::alloc::Global;
use world_parts::{Carried, Drained, Progress, accepted_text, refused};

/// Makes changes that were judged: those of the table, and then the nodes have its kinds and edges. Takes no memory.
fn make_changes<D: Device>(nodes: &mut Nodes<D>, names: &mut Names, edits: Edits)
    requires room { HasRoomForChanges (length edits) names.old }
    requires fit { AllChangesFit names.old.table edits }
    requires wiring { IsWiring nodes.old
        (kinds_of (all_changed names.old.table edits).nodes)
        (all_changed names.old.table edits).edges }
    ensures table { names.new.table ≡ all_changed names.old.table edits }
    ensures nodes { IsRewired names.new.table nodes.old nodes.new }
{
    names.apply(edits);
    let kinds = names.kinds();
    nodes.rewire(&kinds, names.list());
}

/// Makes the changes of a command that nothing refuses. All memory is taken before the first of them.
fn accept<D: Device>(
    alloc: Global,
    nodes: &mut Nodes<D>,
    names: &mut Names,
    bitmaps: &mut Bitmaps,
    given: &str,
    command: &Command,
    told: &Told,
    edits: Edits,
) -> Result<String, NoMemory>
    requires alike { AreBitmapsOf names.old.table.bitmaps bitmaps.old }
    requires accepted { is_of_bitmaps (seen_command command.now) ≡ true
        → refusal_to names.old.table told_none (seen_command command.now) ≡ None }
    requires room { HasRoomForChanges (length edits) names.old }
    requires fit { AllChangesFit names.old.table edits }
    requires wiring { IsWiring nodes.old
        (kinds_of (all_changed names.old.table edits).nodes)
        (all_changed names.old.table edits).edges }
    ensures said { IfOk result (λ text. IsSaid given.now
        (Ok (returned names.old.table told.now (seen_command command.now))) (string_bytes text)) }
    ensures table { OnOk result (names.new.table ≡ all_changed names.old.table edits) }
    ensures nodes { OnOk result (IsRewired names.new.table nodes.old nodes.new) }
    ensures bitmaps { OnOk result
        (AreAfter names.old.table (seen_command command.now) bitmaps.old bitmaps.new) }
    ensures table_kept { OnErr result (names.new.table ≡ names.old.table) }
    ensures nodes_kept { OnErr result (nodes.new ≡ nodes.old) }
    ensures bitmaps_kept { OnErr result (bitmaps.new ≡ bitmaps.old) }
{
    let new = new_of(alloc, bitmaps, names, command)?;
    let text = accepted_text(alloc, names, given, told, command)?;
    change(bitmaps, names, command, new);
    make_changes(nodes, names, edits);
    Ok(text)
}

/// Carries out a command that nothing refuses, or says which request it has to wait for. Its disks are held then.
fn carry_or_wait<D: Device>(
    alloc: Global,
    nodes: &mut Nodes<D>,
    names: &mut Names,
    bitmaps: &mut Bitmaps,
    progress: &Progress,
    drained: &mut Drained,
    given: &str,
    command: &Command,
    told: &Told,
    edits: Edits,
) -> Result<Carried, NoMemory>
    requires is { is_change (seen_command command.now) ≡ true }
    requires few { (g : ℕ) → IsSome (drive_of names.old.table g) → g < 80 }
    requires alike { AreBitmapsOf names.old.table.bitmaps bitmaps.old }
    requires tells { TellsMappedAlone names.old.table nodes.old (seen_command command.now)
        told.now }
    requires accepted { refusal_to names.old.table told.now (seen_command command.now) ≡ None }
    requires edits { edits ≡ command_edits names.old.table told.now (seen_command command.now) }
    requires room { HasRoomForChanges (length edits) names.old }
    requires fit { AllChangesFit names.old.table edits }
    requires wiring { IsWiring nodes.old
        (kinds_of (all_changed names.old.table edits).nodes)
        (all_changed names.old.table edits).edges }
    ensures ok { IfOk result
        (λ carried. (s : State) → s.table ≡ names.old.table → s.guests ≡ progress.now.guests
        → IsChange s given.now (seen_command command.now)
        (scene names.old.table nodes.old drained.old bitmaps.old)
        (scene names.new.table nodes.new drained.new bitmaps.new) carried) }
    ensures back { OnErr result
        (scene names.new.table nodes.new drained.new bitmaps.new
        ≡ scene names.old.table nodes.old drained.old bitmaps.old) }
{
    let found = drain(alloc, names, progress, drained, command)?;
    match found {
        Some(way) => Ok(Carried::Later {
            guest: way.guest,
            request: way.request,
        }),
        None => {
            let text = accept(alloc, nodes, names, bitmaps, given, command, told, edits)?;
            Ok(Carried::Said(text))
        }
    }
}

/// The same of any command, which may be refused, where this is told of it.
fn carry_told<D: Device>(
    alloc: Global,
    nodes: &mut Nodes<D>,
    names: &mut Names,
    bitmaps: &mut Bitmaps,
    progress: &Progress,
    drained: &mut Drained,
    given: &str,
    command: &Command,
    told: &Told,
) -> Result<Carried, NoMemory>
    requires is { is_change (seen_command command.now) ≡ true }
    requires alike { AreNodesOf names.old.table nodes.old }
    requires joined { IsJoined nodes.old }
    requires rests { TableAtRest names.old.table }
    requires few { (g : ℕ) → IsSome (drive_of names.old.table g) → g < 80 }
    requires bitmaps { AreBitmapsOf names.old.table.bitmaps bitmaps.old }
    requires tells { TellsMappedAlone names.old.table nodes.old (seen_command command.now)
        told.now }
    ensures ok { IfOk result
        (λ carried. (s : State) → s.table ≡ names.old.table → s.guests ≡ progress.now.guests
        → IsChange s given.now (seen_command command.now)
        (scene names.old.table nodes.old drained.old bitmaps.old)
        (scene names.new.table nodes.new drained.new bitmaps.new) carried) }
    ensures back { OnErr result
        (scene names.new.table nodes.new drained.new bitmaps.new
        ≡ scene names.old.table nodes.old drained.old bitmaps.old) }
{
    match names.prepare(alloc, command, told) {
        Ok(edits) => carry_or_wait(
            alloc, nodes, names, bitmaps, progress, drained, given, command, told, edits,
        ),
        Err(stop) => {
            let text = refused(alloc, given, stop)?;
            Ok(Carried::Said(text))
        }
    }
}

/// Carries out a command that adds, makes and drops no node, or refuses it, or says which request it has to wait for.
pub fn carry_changes<D: Device>(
    alloc: Global,
    nodes: &mut Nodes<D>,
    names: &mut Names,
    bitmaps: &mut Bitmaps,
    progress: &Progress,
    drained: &mut Drained,
    given: &str,
    command: &Command,
) -> Result<Carried, NoMemory>
    requires is { is_change (seen_command command.now) ≡ true }
    requires alike { AreNodesOf names.old.table nodes.old }
    requires rests { TableAtRest names.old.table }
    requires few { (g : ℕ) → IsSome (drive_of names.old.table g) → g < 80 }
    requires bitmaps { AreBitmapsOf names.old.table.bitmaps bitmaps.old }
    ensures ok { IfOk result
        (λ carried. (s : State) → s.table ≡ names.old.table → s.guests ≡ progress.now.guests
        → IsChange s given.now (seen_command command.now)
        (scene names.old.table nodes.old drained.old bitmaps.old)
        (scene names.new.table nodes.new drained.new bitmaps.new) carried) }
    ensures back { OnErr result
        (scene names.new.table nodes.new drained.new bitmaps.new
        ≡ scene names.old.table nodes.old drained.old bitmaps.old) }
{
    let _ = nodes.edges();
    let told = told_of(alloc, nodes, names, command)?;
    carry_told(
        alloc, nodes, names, bitmaps, progress, drained, given, command, &told,
    )
}
