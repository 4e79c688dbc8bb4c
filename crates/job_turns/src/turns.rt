//! What a job's turn is to do, by its row and its work.
ghost use Rattle.std.specs.Prelude.{◌≡◌, true};
ghost use Rattle.flat_machine.specs.Jobs.{can_be_ready, has_no_overlay};
ghost use Rattle.flat_machine.specs.Marks.{ends_by, must_drain};
ghost use Rattle.job_progress.specs.Going.{copies_blocks};
ghost use Rattle.job_turns.specs.Turns.{copied_step, going_step, has_next, ready_end, step_of, stop_asked, stop_of};

use crate::step::Step;
use blk_history::{Cause, JobEnd};
use block_jobs::JobWork;
use qmp_codec::JobKind;
use qmp_rules::{AskedEnd, JobRecord};

fn stop_asked(asked: AskedEnd) -> Option<JobEnd>
    ensures { result ≡ stop_asked asked }
{
    match asked {
        AskedEnd::Stop => Some(JobEnd::Cancelled(Cause::Command)),
        AskedEnd::Nothing | AskedEnd::Complete | AskedEnd::Leave => None,
    }
}

/// The end of a job for which a call failed, or that was cancelled for good.
fn stop_of(row: &JobRecord, work: &JobWork) -> Option<JobEnd>
    ensures { result ≡ stop_of row.now work.now }
{
    match work.met() {
        Some(fault) => Some(JobEnd::Failed(fault)),
        None => stop_asked(row.asked),
    }
}

/// Whether it can be ready, and then goes on until it is asked to end.
fn can_be_ready(row: &JobRecord) -> bool
    ensures { result ≡ can_be_ready row.now row.now.kind }
{
    match row.kind {
        JobKind::Mirror => true,
        JobKind::Commit => row.read.as_slice().is_empty(),
        JobKind::Stream | JobKind::Backup => false,
    }
}

/// Whether it is asked to end, and not cancelled for good.
fn ends_by(asked: AskedEnd) -> bool
    ensures { result ≡ ends_by asked }
{
    matches!(&asked, AskedEnd::Complete | AskedEnd::Leave)
}

/// Whether its source must be drained before it ends.
pub fn must_drain(row: &JobRecord) -> bool
    ensures { result ≡ must_drain row.now }
{
    can_be_ready(row) && ends_by(row.asked)
}

fn ready_end(all_done: bool, asked: AskedEnd) -> Step
    ensures { result ≡ ready_end all_done asked }
{
    match asked {
        AskedEnd::Complete => Step::Finish(JobEnd::Pivoted),
        AskedEnd::Leave => Step::Finish(JobEnd::Copied),
        AskedEnd::Stop => Step::End(JobEnd::Cancelled(Cause::Command)),
        AskedEnd::Nothing => {
            if all_done {
                Step::End(JobEnd::Cancelled(Cause::RunEnd))
            } else {
                Step::Wait
            }
        }
    }
}

/// What is to do once nothing is left.
fn copied_step(all_done: bool, row: &JobRecord) -> Step
    ensures { result ≡ copied_step all_done row.now }
{
    if !can_be_ready(row) {
        return Step::Finish(JobEnd::Completed);
    }
    if row.is_ready {
        ready_end(all_done, row.asked)
    } else {
        Step::GetReady
    }
}

/// What is to do where no block is to be read.
fn going_step(all_done: bool, row: &JobRecord, work: &JobWork) -> Step
    ensures { result ≡ going_step all_done row.now work.now }
{
    if work.is_open() {
        Step::Wait
    } else if work.is_left() {
        Step::Go
    } else {
        copied_step(all_done, row)
    }
}

/// Whether blocks are read for the job and written then.
fn copies_blocks(kind: JobKind) -> bool
    ensures { result ≡ copies_blocks kind }
{
    match kind {
        JobKind::Mirror | JobKind::Backup => true,
        JobKind::Stream | JobKind::Commit => false,
    }
}

fn has_next(row: &JobRecord, work: &JobWork) -> bool
    ensures { result ≡ has_next row.now work.now }
{
    copies_blocks(row.kind) && work.next_block().is_some()
}

/// What a job's turn is to do, by its row and its work, and by whether script and guests are done.
#[tactic(auto, unfolding(crate::specs::Turns::step_of))]
pub fn step_of(all_done: bool, row: &JobRecord, work: &JobWork) -> Step
    ensures { result ≡ step_of all_done row.now work.now }
{
    if let Some(outcome) = stop_of(row, work) {
        return Step::End(outcome);
    }
    if has_next(row, work) {
        Step::Copy
    } else {
        going_step(all_done, row, work)
    }
}
