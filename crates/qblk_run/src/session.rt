//! A run of a world, from its first turn to its end.
ghost use Rattle.std.specs.Prelude.{◌≡◌, None, IfSome, length};
ghost use Rattle.world_parts.specs.Steps.{seen_store};
ghost use Rattle.qblk_run.specs.Tasks.{AreDrainsOf, CanGoOn};
ghost use Rattle.qblk_run.specs.Session.{IsPlayed, IsGivenUp};
ghost use Rattle.qblk_run.specs.Slots.{StandsInRun};

use crate::rounds::run_rounds;
use crate::stuck::first_waiting;
use crate::task::Actors;
use blk_base::{FaultAt, Store};
use blk_history::{History, JobName};
use blk_world::World;
use std::alloc::Global;
use trace_codec::Waits;

/// What a run has made, once all devices are back.
pub(crate) struct Made {
    pub history: History,
    /// The jobs that began, in the order of their starts.
    pub jobs: Vec<JobName>,
    /// The first fault of the last flushes.
    pub fault: Option<FaultAt>,
    /// The first actor that is not done, and what it waits for.
    pub waiting: Option<(u32, Waits)>,
}

/// Gives turns until no actor can go on, and closes the world. Nothing is told where memory wasn't had.
pub(crate) fn play<S: Store>(
    alloc: Global,
    world: World<S>,
    actors: Actors,
    buffer: Vec<u8>,
) -> (Option<Made>, S)
    requires can { CanGoOn world.progress actors }
    requires stands { StandsInRun world }
    requires room { length buffer.items ≡ 65536 }
    requires drains { AreDrainsOf world actors.script }
    ensures made { IfSome result.0 (λ made. IsPlayed world actors
        (seen_store (S.files result.1) (S.opened result.1) (S.room result.1) (S.faults result.1)
        (S.failed_call result.1))
        made.history made.jobs.items made.fault made.waiting) }
    ensures stopped { result.0 ≡ None → IsGivenUp world actors
        (seen_store (S.files result.1) (S.opened result.1) (S.room result.1) (S.faults result.1)
        (S.failed_call result.1)) }
{
    let mut world = world;
    let mut actors = actors;
    let mut buffer = buffer;
    let went = run_rounds(alloc, &mut world, &mut actors, buffer.as_mut_slice());
    let (store, history, fault, jobs) = world.close_world();
    match went {
        Ok(()) => {
            let waiting = first_waiting(actors);
            let made = Made {
                history,
                jobs,
                fault,
                waiting,
            };
            (Some(made), store)
        }
        Err(_) => (None, store),
    }
}
