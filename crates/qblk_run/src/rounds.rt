//! Rounds: each actor has its turn, the script first and then the guests by number, and behind them each slot, until none of them
//! can go on. A line that has to come again names a guest with a request in flight, which goes on in the same round.
ghost use Rattle.std.specs.Prelude.{◌≡◌, ◌<◌, ◌||◌, length, IfOk, OnOk, OnErr};
ghost use Rattle.qblk_run.specs.Slots.{StandsInRun};
ghost use Rattle.qblk_run.specs.Tasks.{ScriptTask, AreDrainsOf, CanGoOn};
ghost use Rattle.qblk_run.specs.Turns.{StaysIn};
ghost use Rattle.qblk_run.specs.Rounds.{AllRest, AreGuestTurns, AreSlotTurns, Continues, GivesUp, Goes, HasTurn};
ghost use Rattle.qblk_run.specs.Worlds.{ComesOn, ComesOnBeside, IsUndone};

use crate::events::Events;
use crate::guest_turn::guest_turn;
use crate::script_turn::script_turn;
use crate::slot_turn::slot_turn;
use crate::task::{Actors, Task};
use blk_base::NoMemory;
use std::alloc::Global;

/// Gives a guest of a list its turn.
fn turn_in<W: Events>(world: &mut W, tasks: &mut [Task], guest: u32) -> bool
    requires known { guest < length tasks.old }
    requires can { (script : ScriptTask) × CanGoOn (W.face world.old).progress
        (record { script = script; guests = tasks.old }) }
    ensures turn { HasTurn (W.face world.old) (W.face world.new) tasks.old tasks.new guest result }
    ensures stays { StaysIn (W.face world.old) (W.face world.new) }
    ensures comes { ComesOnBeside (W.face world.old) (W.face world.new) }
{
    guest_turn(world, guest, &mut tasks[guest as usize])
}

/// Gives a guest its turn.
fn next_guest<W: Events>(world: &mut W, actors: &mut Actors, guest: u32) -> bool
    requires known { guest < length actors.old.guests }
    requires can { CanGoOn (W.face world.old).progress actors.old }
    ensures goes { Continues (W.face world.old) (W.face world.new) actors.old actors.new }
    ensures script { actors.new.script ≡ actors.old.script }
    ensures turn { HasTurn (W.face world.old) (W.face world.new) actors.old.guests actors.new.guests
        guest result }
    ensures stays { StaysIn (W.face world.old) (W.face world.new) }
    ensures comes { ComesOnBeside (W.face world.old) (W.face world.new) }
{
    turn_in(world, actors.guests.as_mut_slice(), guest)
}

/// Gives the script its turn.
fn next_script<W: Events>(
    alloc: Global,
    world: &mut W,
    actors: &mut Actors,
) -> Result<bool, NoMemory>
    requires can { CanGoOn (W.face world.old).progress actors.old }
    ensures goes { OnOk result
        (Continues (W.face world.old) (W.face world.new) actors.old actors.new) }
    ensures turn { IfOk result (Goes (W.face world.old) (W.face world.new)
        actors.old actors.new 0 0) }
    ensures stop { OnErr result
        (IsUndone actors.old.script.orders (W.face world.old) (W.face world.new)) }
    ensures stays { StaysIn (W.face world.old) (W.face world.new) }
    ensures comes { OnOk result (ComesOn (W.face world.old) (W.face world.new)
        actors.old.script.orders actors.new.script.orders) }
{
    script_turn(alloc, world, &mut actors.script)
}

/// Gives each slot its turn. Says whether something was done for a job.
fn slots<W: Events>(world: &mut W, actors: &Actors, buffer: &mut [u8]) -> bool
    requires can { CanGoOn (W.face world.old).progress actors.now }
    requires stands { StandsInRun (W.face world.old) }
    requires room { length buffer.old ≡ 65536 }
    ensures goes { Continues (W.face world.old) (W.face world.new) actors.now actors.now }
    ensures turns { AreSlotTurns (W.face world.old) (W.face world.new) actors.now 16 result }
    ensures stays { StaysIn (W.face world.old) (W.face world.new) }
    ensures comes { ComesOnBeside (W.face world.old) (W.face world.new) }
{
    let mut moved = false;
    for slot in 0..16 {
        let turned = slot_turn(world, slot, buffer);
        moved = turned || moved;
    }
    moved
}

/// Gives each guest its turn. Says whether one of them made an entry.
fn guests<W: Events>(world: &mut W, actors: &mut Actors) -> bool
    requires can { CanGoOn (W.face world.old).progress actors.old }
    ensures goes { Continues (W.face world.old) (W.face world.new) actors.old actors.new }
    ensures script { actors.new.script ≡ actors.old.script }
    ensures turns { AreGuestTurns (W.face world.old) (W.face world.new) actors.old actors.new
        (length actors.new.guests) result }
    ensures stays { StaysIn (W.face world.old) (W.face world.new) }
    ensures comes { ComesOnBeside (W.face world.old) (W.face world.new) }
{
    let mut moved = false;
    for guest in 0..actors.guests.len() {
        let turned = next_guest(world, actors, guest as u32);
        moved = turned || moved;
    }
    moved
}

/// Whether one of three is so.
fn one_of(first: bool, second: bool, third: bool) -> bool
    ensures { result ≡ ((first || second) || third) }
{
    first || second || third
}

/// Gives each actor its turn, and each slot. Says whether something was done.
fn round<W: Events>(
    alloc: Global,
    world: &mut W,
    actors: &mut Actors,
    buffer: &mut [u8],
) -> Result<bool, NoMemory>
    requires can { CanGoOn (W.face world.old).progress actors.old }
    requires stands { StandsInRun (W.face world.old) }
    requires room { length buffer.old ≡ 65536 }
    ensures goes { OnOk result
        (Continues (W.face world.old) (W.face world.new) actors.old actors.new) }
    ensures round { IfOk result (Goes (W.face world.old) (W.face world.new) actors.old actors.new
        (length actors.new.guests) 16) }
    ensures stop { OnErr result
        (IsUndone actors.old.script.orders (W.face world.old) (W.face world.new)) }
    ensures stays { StaysIn (W.face world.old) (W.face world.new) }
    ensures comes { OnOk result (ComesOn (W.face world.old) (W.face world.new)
        actors.old.script.orders actors.new.script.orders) }
{
    let first = match next_script(alloc, world, actors) {
        Ok(moved) => moved,
        Err(stop) => return Err(stop),
    };
    let asked = guests(world, actors);
    let copied = slots(world, actors, buffer);
    Ok(one_of(first, asked, copied))
}

/// Gives turns until no actor can go on.
pub(crate) fn run_rounds<W: Events>(
    alloc: Global,
    world: &mut W,
    actors: &mut Actors,
    buffer: &mut [u8],
) -> Result<(), NoMemory>
    requires can { CanGoOn (W.face world.old).progress actors.old }
    requires stands { StandsInRun (W.face world.old) }
    requires room { length buffer.old ≡ 65536 }
    requires drains { AreDrainsOf (W.face world.old) actors.old.script }
    ensures goes { OnOk result
        (Continues (W.face world.old) (W.face world.new) actors.old actors.new) }
    ensures rest { OnOk result (AllRest (W.face world.new) actors.new) }
    ensures stop { OnErr result (GivesUp (W.face world.old) (W.face world.new) actors.old) }
    ensures stays { StaysIn (W.face world.old) (W.face world.new) }
    ensures comes { OnOk result (ComesOn (W.face world.old) (W.face world.new)
        actors.old.script.orders actors.new.script.orders) }
{
    loop {
        match round(alloc, world, actors, buffer) {
            Ok(true) => {}
            Ok(false) => return Ok(()),
            Err(stop) => return Err(stop),
        }
    }
}
