//! The transcript of a run, and how it ended.
ghost use Rattle.std.specs.Prelude.{◌≡◌, ◌≤◌, ◌++◌, ℕ, List};
ghost use Rattle.blk_base.specs.Written.{Written};
ghost use Rattle.blk_history.specs.Transcript.{transcript};
ghost use Rattle.qblk_core.specs.Session.{failed_as};
ghost use Rattle.qblk_run.specs.Ending.{EndsAs, ended_as};
ghost use Rattle.qblk_run.specs.Tasks.{CanPrint};

use crate::session::Made;
use crate::transcript::text_for;
use blk_base::{FaultAt, FaultFrom, Names1, Sink};
use blk_history::Rows;
use qblk_core::{Status, send_transcript};
use std::alloc::Global;
use trace_codec::Waits;

/// How a run ended whose transcript is out: by its first fault, where one came.
fn ended(fault: Option<FaultAt>, waiting: Option<(u32, Waits)>) -> Status
    ensures { result ≡ ended_as fault waiting }
{
    match (fault, waiting) {
        (Some(FaultAt { from, count }), _) => Status::Fault { from, count },
        (None, Some((actor, waits))) => Status::Stuck { actor, waits },
        (None, None) => Status::Done,
    }
}

/// How a run ended at which a put failed.
fn failed(fault: Option<FaultAt>, count: u64) -> Status
    ensures { result ≡ failed_as fault count }
{
    match fault {
        None => Status::Fault {
            from: FaultFrom::Sink,
            count,
        },
        Some(FaultAt { from, count }) => Status::Fault { from, count },
    }
}

/// Puts the transcript, and tells how the run ended. Nothing is put where memory isn't had.
pub(crate) fn write_out<K: Sink>(alloc: Global, made: Made, names: Names1, out: &mut K) -> Status
    requires lines { CanPrint (record { guests = names; jobs = made.jobs.items })
        made.history.events }
    ensures { EndsAs made.fault made.waiting (K.sent out.old) (K.sent out.new)
        (transcript (record { guests = names; jobs = made.jobs.items }) made.history.events)
        (K.faults out.old) (K.faults out.new) result }
{
    let Made {
        history,
        jobs,
        fault,
        waiting,
    } = made;
    let Ok(mut text) = text_for(alloc, &history, &names) else {
        return Status::NoMemory;
    };
    let rows = Rows::new(names, jobs);
    match send_transcript(&history, &rows, &mut text, out) {
        Ok(()) => ended(fault, waiting),
        Err(_) => failed(fault, out.faults()),
    }
}
