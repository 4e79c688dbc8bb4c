//! What the turn of a backup or a mirror is to do.
ghost use Rattle.std.specs.Prelude.{◌≡◌, true, IsSome};
ghost use Rattle.blk_history.specs.Fold.{With};
ghost use Rattle.job_progress.specs.Going.{copies_blocks};
ghost use Rattle.job_works.specs.Works.{work_of};
ghost use Rattle.world_jobs.specs.Turning.{IsCopyStep, IsStepFor, IsTurnOf};

use crate::running::RunningJobs;
use crate::turned::Turn;
use block_jobs::JobWork;
use job_turns::{Step, step_of};
use qmp_rules::JobRecord;

fn turn_by(step: Step) -> Turn
    requires { IsCopyStep step }
    ensures { IsStepFor step result }
{
    match step {
        Step::End(why) => Turn::End(why),
        Step::Finish(why) => Turn::Finish(why),
        Step::GetReady => Turn::GetReady,
        Step::Copy => Turn::Copy,
        Step::Wait => Turn::Wait,
        Step::Go => unreachable!(),
    }
}

fn turn_of(all_done: bool, row: &JobRecord, work: &JobWork) -> Turn
    requires { copies_blocks row.now.kind ≡ true }
    ensures { IsTurnOf all_done row.now work.now result }
{
    work.law();
    turn_by(step_of(all_done, row, work))
}

impl RunningJobs {
    /// What the turn of a backup or a mirror is to do.
    pub fn turn(&self, all_done: bool, row: &JobRecord) -> Turn
        requires there { IsSome (work_of self.now row.now.number) }
        requires kind { copies_blocks row.now.kind ≡ true }
        ensures { With (work_of self.now row.now.number)
            (λ work. IsTurnOf all_done row.now work result) }
    {
        match self.of_job(row.number) {
            Some(work) => turn_of(all_done, row, work),
            None => unreachable!(),
        }
    }
}
