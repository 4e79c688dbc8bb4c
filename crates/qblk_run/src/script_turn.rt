//! The script's turn: it makes at most one entry.
ghost use Rattle.std.specs.Prelude.{◌≤◌, IfOk, OnOk, OnErr};
ghost use Rattle.qblk_run.specs.Tasks.{IsScriptIn, entries_of_script};
ghost use Rattle.qblk_run.specs.Turns.{StaysIn, IsScriptTurn};
ghost use Rattle.qblk_run.specs.Worlds.{ComesOn, IsUndone};

use crate::events::Events;
use crate::task::{Script, look};
use blk_base::NoMemory;
use blk_world::Executed;
use std::alloc::Global;
use trace_codec::Order;

/// Gives the script its turn: its next line is answered, or was waited for, or has to come again. Says whether it made an entry.
pub(crate) fn script_turn<W: Events>(
    alloc: Global,
    world: &mut W,
    script: &mut Script,
) -> Result<bool, NoMemory>
    requires task { IsScriptIn (W.face world.old).progress script.old }
    requires entries { entries_of_script script.old ≤ (W.face world.old).progress.spare.entries }
    ensures turn { IfOk result
        (IsScriptTurn (W.face world.old) (W.face world.new) script.old script.new) }
    ensures stop { OnErr result (IsUndone script.old.orders (W.face world.old) (W.face world.new)) }
    ensures stays { StaysIn (W.face world.old) (W.face world.new) }
    ensures comes { OnOk result (ComesOn (W.face world.old) (W.face world.new)
        script.old.orders script.new.orders) }
{
    if script.is_done {
        return Ok(false);
    }
    look(&mut script.next, &mut script.rest);
    match script.next.take() {
        None => {
            world.finish(0);
            script.is_done = true;
            Ok(true)
        }
        Some(Order::Give(line, text)) => {
            match world.execute(alloc, line, text.as_str()) {
                Ok(Executed::Replied) => Ok(true),
                Ok(Executed::Later { .. }) => {
                    script.next = Some(Order::Give(line, text));
                    Ok(false)
                }
                Err(stop) => Err(stop),
            }
        }
        Some(Order::Watch(line, what)) => match world.reach(line, what) {
            None => Ok(true),
            Some(what) => {
                script.next = Some(Order::Watch(line, what));
                Ok(false)
            }
        },
    }
}
