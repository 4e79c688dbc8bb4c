//! The query that prints how much of each bitmap is dirty.
ghost use Rattle.std.specs.Prelude.{◌≡◌, true, None, Ok, map, IfOk, IfErr, OnOk, OnErr, length, string_bytes};
ghost use Rattle.qmp_codec.specs.Commands.{seen_command};
ghost use Rattle.qmp_rules.specs.Answers.{answer, command_edits, refusal_to, returned, told_none};
ghost use Rattle.qmp_rules.specs.Changes.{all_changed};
ghost use Rattle.qmp_rules.specs.Fitting.{AllChangesFit};
ghost use Rattle.qmp_rules.specs.Prepared.{IsStoppedFor};
ghost use Rattle.qmp_rules.specs.Room.{HasRoomForChanges};
ghost use Rattle.flat_machine.specs.Bitmaps.{dirty_in};
ghost use Rattle.flat_machine.specs.Marking.{dirty_bytes};
ghost use Rattle.world_parts.specs.Carrying.{prints_counts, with_counts};
ghost use Rattle.world_parts.specs.Recorded.{AreSound};
ghost use Rattle.world_parts.specs.Saying.{IsSaid};

use blk_base::NoMemory;
use blk_bitmaps::Bitmaps;
use qmp_codec::Command;
use qmp_rules::{Amounts, Edits, Names, PrepareStop, Told};
use std::alloc::Global;
use world_parts::{accepted_text, refused};

/// For each bitmap how many bytes its dirty granules have.
fn counts(alloc: Global, bitmaps: &Bitmaps) -> Result<Vec<u64>, NoMemory>
    requires { AreSound bitmaps.now }
    ensures { IfOk result (λ counts. counts.items ≡ map dirty_bytes (map dirty_in bitmaps.now)) }
{
    let rows = bitmaps.rows();
    let mut counts = Vec::new(alloc);
    for row in rows {
        counts.push(row.dirty_bytes())?;
    }
    Ok(counts)
}

fn told_counts(alloc: Global, bitmaps: &Bitmaps) -> Result<Told, NoMemory>
    requires { AreSound bitmaps.now }
    ensures { IfOk result
        (λ told. told ≡ with_counts told_none (map dirty_bytes (map dirty_in bitmaps.now))) }
{
    let counts = counts(alloc, bitmaps)?;
    let mut told = Told::nothing(alloc);
    told.dirty = Amounts::new(counts);
    Ok(told)
}

/// The text of the answer to an accepted query, which changes nothing.
fn accept_counts(
    alloc: Global,
    names: &mut Names,
    bitmaps: &Bitmaps,
    given: &str,
    command: &Command,
    edits: Edits,
) -> Result<String, NoMemory>
    requires free { AreSound bitmaps.now }
    requires room { HasRoomForChanges (length edits) names.old }
    requires fit { AllChangesFit names.old.table edits }
    ensures said { IfOk result (λ text. IsSaid given.now (Ok (returned names.old.table
        (with_counts told_none (map dirty_bytes (map dirty_in bitmaps.now)))
        (seen_command command.now)))
        (string_bytes text)) }
    ensures changed { OnOk result (names.new.table ≡ all_changed names.old.table edits) }
    ensures kept { OnErr result (names.new.table ≡ names.old.table) }
{
    let told = told_counts(alloc, bitmaps)?;
    let text = accepted_text(alloc, names, given, &told, command)?;
    names.apply(edits);
    Ok(text)
}

/// Looks at a command of which files tell nothing, and takes the memory for its changes.
fn prepare(alloc: Global, names: &mut Names, command: &Command) -> Result<Edits, PrepareStop>
    ensures accepted { IfOk result
        (λ _. refusal_to names.old.table told_none (seen_command command.now) ≡ None) }
    ensures edits { IfOk result (λ edits. edits
        ≡ command_edits names.old.table told_none (seen_command command.now)) }
    ensures room { IfOk result (λ edits. HasRoomForChanges (length edits) names.new) }
    ensures fit { IfOk result (λ edits. AllChangesFit names.new.table edits) }
    ensures refused { IfErr result
        (IsStoppedFor (refusal_to names.old.table told_none (seen_command command.now))) }
    ensures table { names.new.table ≡ names.old.table }
{
    names.prepare(alloc, command, &Told::nothing(alloc))
}

/// Answers the query that prints what is dirty, or refuses it. Gives the text of the answer.
pub fn answer_counts(
    alloc: Global,
    names: &mut Names,
    bitmaps: &Bitmaps,
    given: &str,
    command: &Command,
) -> Result<String, NoMemory>
    requires prints { prints_counts (seen_command command.now) ≡ true }
    requires free { AreSound bitmaps.now }
    ensures said { IfOk result (λ text. IsSaid given.now (answer names.old.table
        (with_counts told_none (map dirty_bytes (map dirty_in bitmaps.now)))
        (seen_command command.now)).reply
        (string_bytes text)) }
    ensures changed { OnOk result (names.new.table ≡ all_changed names.old.table
        (answer names.old.table told_none (seen_command command.now)).changes) }
    ensures kept { OnErr result (names.new.table ≡ names.old.table) }
{
    match prepare(alloc, names, command) {
        Ok(edits) => accept_counts(alloc, names, bitmaps, given, command, edits),
        Err(stop) => refused(alloc, given, stop),
    }
}
