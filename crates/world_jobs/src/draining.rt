//! The source of a job that is asked to end.
ghost use Rattle.std.specs.Prelude.{◌≡◌, ◌⊎◌, ◌<◌, ◌∷◌, [], ℕ, true, false, None, IsSome, length};
ghost use Rattle.flat_machine.specs.State.{State, drive_of};
ghost use Rattle.qmp_rules.specs.Chains.{is_listed};
ghost use Rattle.world_jobs.specs.Turning.{drains_at, waits_first};
ghost use Rattle.world_parts.specs.Draining.{IsFirstOf};

use crate::turned::Turn;
use job_turns::must_drain;
use qmp_rules::{JobRecord, Names};
use world_parts::{Drained, InTheWay, Progress, first_in_the_way};

/// Whether a turn waits until no request is in flight on the job's source.
fn waits_first(turn: Turn, row: &JobRecord) -> bool
    ensures { result ≡ waits_first turn row.now }
{
    match turn {
        Turn::End(_) | Turn::GetReady => false,
        Turn::Finish(_) | Turn::Copy | Turn::Wait => must_drain(row),
    }
}

/// The request that a job's turn has to wait for, if any. From here on the source is held of one that is asked to end. Takes no
/// memory.
pub fn drain_for(
    names: &Names,
    progress: &Progress,
    drained: &mut Drained,
    turn: Turn,
    row: &JobRecord,
) -> Option<InTheWay>
    requires few { (g : ℕ) → IsSome (drive_of names.now.table g) → g < 80 }
    requires room { (is_listed row.now.number drained.old.jobs ≡ true)
        ⊎ (length drained.old.jobs < 16) }
    ensures none { waits_first turn row.now ≡ false → result ≡ None }
    ensures first { waits_first turn row.now ≡ true → (s : State) → s.table ≡ names.now.table
        → s.guests ≡ progress.now.guests → IsFirstOf s (row.now.source ∷ []) result }
    ensures held { drained.new ≡ drains_at turn row.now drained.old }
{
    if !waits_first(turn, row) {
        return None;
    }
    drained.hold_for(row.number);
    first_in_the_way(names, progress, &[row.source])
}
