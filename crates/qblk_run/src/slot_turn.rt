//! A slot's turn: the job in it is ready or ends, or a block is copied for it.
ghost use Rattle.std.specs.Prelude.{◌≡◌, ◌<◌, length};
ghost use Rattle.job_turns.specs.declared.step.Step.TheVariants as step;
ghost use Rattle.qblk_run.specs.Slots.{HasStep, IsSlotTurn, SlotCopies, StandsInRun};
ghost use Rattle.qblk_run.specs.Turns.{StaysIn};
ghost use Rattle.qblk_run.specs.Worlds.{ComesOnBeside};

use crate::events::Events;
use world_jobs::Turned;

/// Copies the next block of the job in a slot: it is read, and then written.
fn copy_block<W: Events>(world: &mut W, slot: u32, buffer: &mut [u8])
    requires slot { slot < 16 }
    requires room { length buffer.old ≡ 65536 }
    requires stands { StandsInRun (W.face world.old) }
    requires copies { HasStep (W.face world.old) slot step.Copy }
    ensures copied { SlotCopies (W.face world.old) (W.face world.new) }
    ensures stays { StaysIn (W.face world.old) (W.face world.new) }
    ensures comes { ComesOnBeside (W.face world.old) (W.face world.new) }
{
    if let Some(t) = world.take(slot, buffer) {
        let _ = world.settle(t, buffer);
    }
}

/// Gives a slot its turn. Says whether something was done.
pub(crate) fn slot_turn<W: Events>(world: &mut W, slot: u32, buffer: &mut [u8]) -> bool
    requires slot { slot < 16 }
    requires room { length buffer.old ≡ 65536 }
    requires stands { StandsInRun (W.face world.old) }
    ensures turn { IsSlotTurn (W.face world.old) (W.face world.new) slot result }
    ensures stays { StaysIn (W.face world.old) (W.face world.new) }
    ensures comes { ComesOnBeside (W.face world.old) (W.face world.new) }
{
    match world.job_turn(slot) {
        Turned::Became => true,
        Turned::Copy => {
            copy_block(world, slot, buffer);
            true
        }
        Turned::Empty => false,
        Turned::Idle => false,
        Turned::Later { .. } => false,
    }
}
