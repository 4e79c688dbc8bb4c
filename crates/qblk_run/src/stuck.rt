//! Who is named where no actor can go on.
ghost use Rattle.std.specs.Prelude.{◌≡◌, ◌+◌, ◌^◌, ◌<◌, ℕ, length, MatchOption, true, false};
ghost use Rattle.trace_codec.specs.Awaits.{seen_await};
ghost use Rattle.world_parts.specs.Face.{WorldSeen, seen_state};
ghost use Rattle.flat_machine.specs.Blocked.{what_of, ScriptWaits, TraceWaits};
ghost use Rattle.qblk_run.specs.Run.{seen_waits};
ghost use Rattle.qblk_run.specs.Tasks.{Rests, ScriptRests};
ghost use Rattle.qblk_run.specs.Rounds.{GuestsRest, AllRest, AllAreDone, AreDone, IsFirstGuest, IsFirstUndone};

use crate::task::{Actors, Script, Task, look};
use trace_codec::{Await, Order, Waits, Wish};

/// What a wait of the script waits for.
fn what_of(what: Await) -> Waits
    ensures { seen_waits result ≡ what_of (seen_await what) }
{
    match what {
        Await::Guest { guest, requests } => Waits::Guest { guest, requests },
        Await::Ready(id) => Waits::Ready(id),
        Await::Ended(id) => Waits::Ended(id),
    }
}

/// What the script waits for, where it is not done.
fn script_waits(script: Script) -> Option<Waits>
    ensures { (w : WorldSeen) → ScriptRests w script → MatchOption result (script.is_done ≡ true)
        (λ what. (script.is_done ≡ false)
        × ScriptWaits (seen_state w) script.orders (seen_waits what)) }
{
    let Script {
        mut next,
        mut rest,
        is_done,
    } = script;
    if is_done {
        return None;
    }
    look(&mut next, &mut rest);
    match next {
        Some(Order::Watch(_, what)) => Some(what_of(what)),
        Some(Order::Give(_, _text)) => Some(Waits::Attached),
        None => Some(Waits::Attached),
    }
}

/// What a guest waits for, where it is not done.
fn task_waits(task: &Task) -> Option<Waits>
    ensures { (w : WorldSeen) (g : ℕ) → Rests w g task.now
        → MatchOption result (task.now.is_done ≡ true)
        (λ what. (task.now.is_done ≡ false)
        × TraceWaits (seen_state w) g task.now.wishes (seen_waits what)) }
{
    if task.is_done {
        return None;
    }
    let first = match &task.next {
        Some(wish) => Some(wish),
        None => task.rest.front(),
    };
    match first {
        Some(Wish::Wait(line)) => Some(Waits::Line(*line)),
        _ => Some(Waits::Attached),
    }
}

/// The first guest that is not done, by its number as an actor, with what it waits for.
fn first_guest(tasks: &[Task]) -> Option<(u32, Waits)>
    requires few { length tasks.now + 1 < 2 ^ 32 }
    ensures { (w : WorldSeen) → GuestsRest w (length tasks.now) tasks.now
        → MatchOption result (AllAreDone tasks.now)
        (λ r. (g : ℕ) × (r.0 ≡ g + 1) × IsFirstGuest w tasks.now g (seen_waits r.1)) }
{
    for guest in 0..tasks.len() {
        if let Some(what) = task_waits(&tasks[guest]) {
            return Some((guest as u32 + 1, what));
        }
    }
    None
}

/// The first actor that is not done, with what it waits for: the script is actor 0, and guest g is actor g + 1.
pub(crate) fn first_waiting(actors: Actors) -> Option<(u32, Waits)>
    requires few { length actors.guests + 1 < 2 ^ 32 }
    ensures { (w : WorldSeen) → AllRest w actors
        → MatchOption result (AreDone actors) (λ r. IsFirstUndone w actors r.0 (seen_waits r.1)) }
{
    let Actors { script, guests } = actors;
    match script_waits(script) {
        Some(what) => Some((0, what)),
        None => first_guest(guests.as_slice()),
    }
}
