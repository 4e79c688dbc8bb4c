//! A guest's turn: it makes at most one entry.
ghost use Rattle.std.specs.Prelude.{◌≡◌, ◌+◌, ◌-◌, ◌^◌, ◌<◌, ◌≤◌, ◌++◌, [], ◌∷◌, None, Some, true, false, option_to_list};
ghost use Rattle.blk_base.specs.Outcomes.{is_good};
ghost use Rattle.flat_machine.specs.Courses.{past_waits};
ghost use Rattle.world_parts.specs.Progress.{answered_in};
ghost use Rattle.qblk_inputs.specs.Room.{bytes_for};
ghost use Rattle.qblk_run.specs.Tasks.{entries_to_come, IsTaskIn};
ghost use Rattle.qblk_run.specs.Turns.{StaysIn, GuestMoves, IsTurn, waited_in, is_over_in};
ghost use Rattle.qblk_run.specs.Worlds.{ComesOnBeside};

use crate::events::Events;
use crate::task::{Task, look};
use blk_base::Outcome;
use blk_world::Admission;
use std::collections::VecDeque;
use trace_codec::Wish;

/// The line that the first wish waits for, where it is a wait.
fn waited(next: &Option<Wish>) -> Option<u32>
    ensures { result ≡ waited_in next.now }
{
    match next {
        Some(Wish::Wait(line)) => Some(*line),
        _ => None,
    }
}

/// Whether the first wish is a wait that is over.
fn is_over<W: Events>(world: &W, next: &Option<Wish>) -> bool
    ensures { result ≡ is_over_in (answered_in (W.face world.now).progress.log.events) next.now }
{
    match waited(next) {
        Some(line) => world.answered(line),
        None => false,
    }
}

/// Passes the waits that are over.
fn pass_waits<W: Events>(world: &W, next: &mut Option<Wish>, rest: &mut VecDeque<Wish>)
    ensures passed { option_to_list next.new ++ rest.new.items
        ≡ past_waits (answered_in (W.face world.now).progress.log.events)
        (option_to_list next.old ++ rest.old.items) }
    ensures seen { next.new ≡ None → rest.new.items ≡ [] }
{
    look(next, rest);
    while is_over(world, next) {
        *next = rest.pop_front();
    }
}

/// Ends the request in flight.
fn retire<W: Events>(world: &mut W, guest: u32, task: &mut Task)
    requires task { IsTaskIn (W.face world.old).progress guest task.old }
    requires over { task.old.left ≡ Some 0 }
    ensures moved { GuestMoves (W.face world.old) (W.face world.new) guest task.old task.new }
    ensures stays { StaysIn (W.face world.old) (W.face world.new) }
    ensures comes { ComesOnBeside (W.face world.old) (W.face world.new) }
{
    world.retire(guest);
    task.left = None;
}

/// How many pieces are left after one that went so: none, where it wasn't good.
fn left_after(left: u32, outcome: Outcome) -> u32
    requires { 0 < left }
    ensures good { is_good outcome ≡ true → result ≡ left - 1 }
    ensures bad { is_good outcome ≡ false → result ≡ 0 }
{
    if outcome.is_good() { left - 1 } else { 0 }
}

/// Makes the next piece of the request in flight.
fn make_piece<W: Events>(world: &mut W, guest: u32, left: u32, task: &mut Task)
    requires task { IsTaskIn (W.face world.old).progress guest task.old }
    requires flying { task.old.left ≡ Some left }
    requires more { 0 < left }
    ensures moved { GuestMoves (W.face world.old) (W.face world.new) guest task.old task.new }
    ensures stays { StaysIn (W.face world.old) (W.face world.new) }
    ensures comes { ComesOnBeside (W.face world.old) (W.face world.new) }
{
    let outcome = world.piece(guest);
    task.left = Some(left_after(left, outcome));
}

/// Notes that the guest is done.
fn end<W: Events>(world: &mut W, guest: u32, task: &mut Task)
    requires numbered { guest + 1 < 2 ^ 32 }
    requires task { IsTaskIn (W.face world.old).progress guest task.old }
    requires idle { task.old.left ≡ None }
    requires runs { task.old.is_done ≡ false }
    requires used { task.old.wishes ≡ [] }
    requires entries { entries_to_come task.old ≤ (W.face world.old).progress.spare.entries }
    ensures moved { GuestMoves (W.face world.old) (W.face world.new) guest task.old task.new }
    ensures stays { StaysIn (W.face world.old) (W.face world.new) }
    ensures comes { ComesOnBeside (W.face world.old) (W.face world.new) }
{
    world.finish(guest + 1);
    task.is_done = true;
}

/// Asks for what the guest wants next. It waits for a line that wasn't answered, where its device is away, and where it is held.
fn ask<W: Events>(world: &mut W, guest: u32, task: &mut Task) -> bool
    requires numbered { guest + 1 < 2 ^ 32 }
    requires task { IsTaskIn (W.face world.old).progress guest task.old }
    requires idle { task.old.left ≡ None }
    requires runs { task.old.is_done ≡ false }
    requires entries { entries_to_come task.old ≤ (W.face world.old).progress.spare.entries }
    requires bytes { bytes_for task.old.wishes ≤ (W.face world.old).progress.spare.bytes }
    ensures turn { IsTurn (W.face world.old) (W.face world.new) guest task.old task.new result }
    ensures stays { StaysIn (W.face world.old) (W.face world.new) }
    ensures comes { ComesOnBeside (W.face world.old) (W.face world.new) }
{
    pass_waits(world, &mut task.next, &mut task.rest);
    match task.next.take() {
        None => {
            end(world, guest, task);
            true
        }
        Some(Wish::Wait(line)) => {
            task.next = Some(Wish::Wait(line));
            false
        }
        Some(Wish::Ask(op)) => {
            let pieces = op.pieces();
            match world.admit(guest, op) {
                Admission::Admitted(_) => {
                    task.left = Some(pieces as u32);
                    true
                }
                Admission::Refused(_) => true,
                Admission::Held(op) => {
                    task.next = Some(Wish::Ask(op));
                    false
                }
                Admission::Away(op) => {
                    task.next = Some(Wish::Ask(op));
                    false
                }
            }
        }
    }
}

/// Gives a guest its turn: its request in flight goes on, or it asks for the next. Says whether it made an entry.
pub(crate) fn guest_turn<W: Events>(world: &mut W, guest: u32, task: &mut Task) -> bool
    requires numbered { guest + 1 < 2 ^ 32 }
    requires task { IsTaskIn (W.face world.old).progress guest task.old }
    requires entries { entries_to_come task.old ≤ (W.face world.old).progress.spare.entries }
    requires bytes { bytes_for task.old.wishes ≤ (W.face world.old).progress.spare.bytes }
    ensures turn { IsTurn (W.face world.old) (W.face world.new) guest task.old task.new result }
    ensures stays { StaysIn (W.face world.old) (W.face world.new) }
    ensures comes { ComesOnBeside (W.face world.old) (W.face world.new) }
{
    if task.is_done {
        return false;
    }
    match task.left {
        None => ask(world, guest, task),
        Some(0) => {
            retire(world, guest, task);
            true
        }
        Some(left) => {
            make_piece(world, guest, left, task);
            true
        }
    }
}
