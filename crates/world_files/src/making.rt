//! Creations that are carried out, or refused.
ghost use Rattle.std.specs.Prelude.{◌≡◌, ◌≤◌, ◌⊎◌, List, ℕ, true, None, Ok, Err, IfOk, OnOk, IfErr, OnErr, length, string_bytes};
ghost use Rattle.qmp_codec.specs.Commands.{seen_command};
ghost use Rattle.qmp_rules.specs.Answers.{returned};
ghost use Rattle.qmp_rules.specs.Fitting.{AllChangesFit};
ghost use Rattle.qmp_rules.specs.Room.{HasRoomForChanges};
ghost use Rattle.world_parts.specs.Carrying.{is_io_refusal};
ghost use Rattle.world_files.specs.Deletions.{Belong};
ghost use Rattle.world_parts.specs.Deleting.{ground_in};
ghost use Rattle.world_parts.specs.Handling.{IsUntouched};
ghost use Rattle.world_files.specs.Creations.{CanCreateBy, IsAnswerMade, IsMadeNow, IsMadeSaying, IsSpoiledNow, IsSpoiledSaying, is_creation, spoiled_by};
ghost use Rattle.world_parts.specs.Making.{CreatesBy, FailsBy, FitsWords, HasEndedSo, told_first};
ghost use Rattle.world_parts.specs.Saying.{EndsRefusals, IsSaid};

use crate::creating::{create, told_by_room};
use crate::failed_text::{FailedText, failed_text};
use blk_base::{NoMemory, Store};
use blk_nodes::Nodes;
use qmp_codec::Command;
use qmp_rules::{Edits, Names, PrepareStop, Refusal, Told};
use std::alloc::Global;
use world_parts::{RunStore, accepted_text, refused};

/// The text of the reply to a command of which a call failed. Takes no memory.
fn failed_reply(text: FailedText, cause: Refusal) -> String
    requires { is_io_refusal cause ≡ true }
    ensures said { (given : List ℕ) → EndsRefusals given text
        → IsSaid given (Err cause) (string_bytes result) }
    ensures fits { FitsWords cause }
{
    match cause {
        Refusal::Io { from, count } => text.with_fault(from, count),
        Refusal::NoSpace(dev) => text.with_full(dev),
        _ => unreachable!(),
    }
}

fn told_by(alloc: Global, command: &Command, room: u64) -> Result<Told, NoMemory>
    requires { is_creation (seen_command command.now) ≡ true }
    ensures { IfOk result (λ told. told ≡ told_first (seen_command command.now) room) }
{
    match command {
        Command::BlockdevCreate(c) => told_by_room(alloc, &c.options, room),
        _ => unreachable!(),
    }
}

/// Takes the memory for what a creation leaves of which a call fails.
fn prepare_failure(alloc: Global, names: &mut Names, command: &Command) -> Result<Edits, NoMemory>
    requires { is_creation (seen_command command.now) ≡ true }
    ensures edits { IfOk result
        (λ edits. edits ≡ spoiled_by names.old.table (seen_command command.now)) }
    ensures room { IfOk result (λ edits. HasRoomForChanges (length edits) names.new) }
    ensures fit { IfOk result (λ edits. AllChangesFit names.new.table edits) }
    ensures table { names.new.table ≡ names.old.table }
{
    match command {
        Command::BlockdevCreate(c) => names.prepare_spoiled(alloc, &c.options),
        _ => unreachable!(),
    }
}

fn create_by<S: Store>(
    store: &mut RunStore<S>,
    nodes: &mut Nodes<S::Dev>,
    names: &Names,
    command: &Command,
) -> Result<(), PrepareStop>
    requires { CanCreateBy names.now.table (seen_command command.now)
        (ground_in store.old nodes.old) }
    ensures created { OnOk result (CreatesBy names.now.table (seen_command command.now)
        (ground_in store.old nodes.old) (ground_in store.new nodes.new)) }
    ensures refused { (cause : Refusal) → result ≡ Err (PrepareStop.Refused cause)
        → FailsBy names.now.table (seen_command command.now)
        (ground_in store.old nodes.old) (ground_in store.new nodes.new) cause
        × (is_io_refusal cause ≡ true) }
    ensures back { result ≡ Err PrepareStop.NoMemory
        → ground_in store.new nodes.new ≡ ground_in store.old nodes.old }
    ensures earlier { store.new.earlier ≡ store.old.earlier }
    ensures faults { store.old.faults ≤ store.new.faults }
{
    match command {
        Command::BlockdevCreate(c) => create(store, nodes, names, &c.options),
        _ => unreachable!(),
    }
}

/// Makes the file or the image and notes it, or what a failed call has left.
fn make_prepared<S: Store>(
    store: &mut RunStore<S>,
    nodes: &mut Nodes<S::Dev>,
    names: &mut Names,
    command: &Command,
    edits: Edits,
    spoiled: Edits,
    accepted: String,
    failed: FailedText,
) -> Result<String, NoMemory>
    requires can { CanCreateBy names.old.table (seen_command command.now)
        (ground_in store.old nodes.old) }
    requires room { HasRoomForChanges (length edits) names.old }
    requires fit { AllChangesFit names.old.table edits }
    requires spoiled_room { HasRoomForChanges (length spoiled) names.old }
    requires spoiled_fit { AllChangesFit names.old.table spoiled }
    ensures ended { IfOk result (λ text.
        IsMadeNow names.old.table (seen_command command.now) (ground_in store.old nodes.old)
        (ground_in store.new nodes.new) names.new.table edits (string_bytes accepted)
        (string_bytes text)
        ⊎ IsSpoiledNow names.old.table (seen_command command.now) (ground_in store.old nodes.old)
        (ground_in store.new nodes.new) names.new.table spoiled failed (string_bytes text)) }
    ensures back { OnErr result (IsUntouched names.old.table names.new.table
        (ground_in store.new nodes.new ≡ ground_in store.old nodes.old)) }
    ensures earlier { store.new.earlier ≡ store.old.earlier }
    ensures faults { store.old.faults ≤ store.new.faults }
{
    match create_by(store, nodes, names, command) {
        Ok(()) => {
            names.apply(edits);
            Ok(accepted)
        }
        Err(PrepareStop::Refused(cause)) => {
            names.apply(spoiled);
            Ok(failed_reply(failed, cause))
        }
        Err(PrepareStop::NoMemory) => Err(NoMemory),
    }
}

/// The texts of the two answers that may still be given.
fn texts(
    alloc: Global,
    names: &Names,
    given: &str,
    told: &Told,
    command: &Command,
) -> Result<(String, FailedText), NoMemory>
    ensures accepted { IfOk result (λ both. IsSaid given.now
        (Ok (returned names.now.table told.now (seen_command command.now))) (string_bytes both.0)) }
    ensures failed { IfOk result (λ both. EndsRefusals given.now both.1) }
{
    let accepted = accepted_text(alloc, names, given, told, command)?;
    Ok((accepted, failed_text(alloc, given)?))
}

/// Takes the memory of the texts, and makes the file or the image.
fn make_edited<S: Store>(
    alloc: Global,
    store: &mut RunStore<S>,
    nodes: &mut Nodes<S::Dev>,
    names: &mut Names,
    given: &str,
    told: &Told,
    command: &Command,
    edits: Edits,
    spoiled: Edits,
) -> Result<String, NoMemory>
    requires can { CanCreateBy names.old.table (seen_command command.now)
        (ground_in store.old nodes.old) }
    requires room { HasRoomForChanges (length edits) names.old }
    requires fit { AllChangesFit names.old.table edits }
    requires spoiled_room { HasRoomForChanges (length spoiled) names.old }
    requires spoiled_fit { AllChangesFit names.old.table spoiled }
    ensures ended { IfOk result (λ text.
        IsMadeSaying given.now names.old.table told.now (seen_command command.now)
        (ground_in store.old nodes.old) (ground_in store.new nodes.new) names.new.table edits
        (string_bytes text)
        ⊎ IsSpoiledSaying given.now names.old.table (seen_command command.now)
        (ground_in store.old nodes.old) (ground_in store.new nodes.new) names.new.table spoiled
        (string_bytes text)) }
    ensures back { OnErr result (IsUntouched names.old.table names.new.table
        (ground_in store.new nodes.new ≡ ground_in store.old nodes.old)) }
    ensures earlier { store.new.earlier ≡ store.old.earlier }
    ensures faults { store.old.faults ≤ store.new.faults }
{
    let (accepted, failed) = texts(alloc, names, given, told, command)?;
    make_prepared(
        store, nodes, names, command, edits, spoiled, accepted, failed,
    )
}

/// Carries out `blockdev-create`, or refuses it. Says the text of the reply.
pub fn make<S: Store>(
    alloc: Global,
    store: &mut RunStore<S>,
    nodes: &mut Nodes<S::Dev>,
    names: &mut Names,
    given: &str,
    command: &Command,
) -> Result<String, NoMemory>
    requires belong { Belong names.old.table (ground_in store.old nodes.old) }
    requires creation { is_creation (seen_command command.now) ≡ true }
    ensures made { IfOk result
        (λ text. IsAnswerMade given.now names.old.table (seen_command command.now)
        (ground_in store.old nodes.old) (ground_in store.new nodes.new) names.new.table
        (string_bytes text)) }
    ensures back { OnErr result (IsUntouched names.old.table names.new.table
        (ground_in store.new nodes.new ≡ ground_in store.old nodes.old)) }
    ensures earlier { store.new.earlier ≡ store.old.earlier }
    ensures faults { store.old.faults ≤ store.new.faults }
{
    let told = told_by(alloc, command, store.room())?;
    let spoiled = prepare_failure(alloc, names, command)?;
    match names.prepare(alloc, command, &told) {
        Ok(edits) => make_edited(
            alloc, store, nodes, names, given, &told, command, edits, spoiled,
        ),
        Err(stop) => refused(alloc, given, stop),
    }
}
