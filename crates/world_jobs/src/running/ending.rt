//! Ends of jobs.
ghost use Rattle.std.specs.Prelude.{◌≡◌, ◌≤◌, ℕ, Bool, List, Some, IsSome, if◌then◌else◌};
ghost use Rattle.blk_history.specs.Fold.{With};
ghost use Rattle.blk_history.specs.declared.event.Event.{Event};
ghost use Rattle.blk_nodes.specs.Joined.{IsJoined};
ghost use Rattle.flat_machine.specs.Jobs.{is_success, outcome_of};
ghost use Rattle.flat_machine.specs.Legal.{offset_at_end};
ghost use Rattle.flat_machine.specs.State.{State};
ghost use Rattle.job_works.specs.Works.{without_work, work_of};
ghost use Rattle.qmp_rules.specs.Changes.{all_changed};
ghost use Rattle.qmp_rules.specs.Ends.{drops_aside, end_edits};
ghost use Rattle.qmp_rules.specs.Queries.{bytes_of_node};
ghost use Rattle.qmp_rules.specs.Table.{job_at};
ghost use Rattle.qmp_rules.specs.declared.rows.JobRecord.{JobRecord as Row};
ghost use Rattle.world_jobs.specs.Ending.{CanBeEnded, HasPulled, IsPlanned, ended_table, offset_by};
ghost use Rattle.world_parts.specs.Coherent.{entries_owed};
ghost use Rattle.world_parts.specs.Jobs.{bitmaps_ended};
ghost use Rattle.world_parts.specs.Progress.{with_job_entry};

use crate::filtering::{filter_of, pull_filter};
use crate::running::RunningJobs;
use blk_base::Device;
use blk_bitmaps::Bitmaps;
use blk_graph::NodeId;
use blk_history::JobEnd;
use blk_nodes::{FilterKind, Nodes};
use qmp_codec::BitmapMode;
use qmp_rules::{Edits, EventRoom, JobOutcome, JobRecord, Names, UsedBitmap};
use world_parts::Progress;

fn is_success(why: JobEnd) -> bool
    ensures { result ≡ is_success why }
{
    match why {
        JobEnd::Completed | JobEnd::Pivoted | JobEnd::Copied => true,
        JobEnd::Failed(_) | JobEnd::Cancelled(_) => false,
    }
}

/// The outcome as the rules know it.
fn outcome_of(why: JobEnd) -> JobOutcome
    ensures { result ≡ outcome_of why }
{
    match why {
        JobEnd::Completed => JobOutcome::Completed,
        JobEnd::Pivoted => JobOutcome::Pivoted,
        JobEnd::Copied => JobOutcome::Copied,
        JobEnd::Failed(_) | JobEnd::Cancelled(_) => JobOutcome::Stopped,
    }
}

/// Whether what stands aside of the job's bitmap is dropped.
fn drops_aside(why: JobEnd, used: &Option<UsedBitmap>) -> bool
    ensures { result ≡ drops_aside (outcome_of why) used.now }
{
    match used {
        Some(used) => matches!(used.mode, BitmapMode::OnSuccess) && is_success(why),
        None => false,
    }
}

/// The entries that a job still makes.
fn entries_owed(row: &JobRecord) -> u32
    ensures { result ≡ entries_owed row.now }
{
    if row.is_ready { 1 } else { 2 }
}

/// How many bytes of its source are told as done.
fn offset_at_end(names: &Names, row: &JobRecord, why: JobEnd) -> u64
    ensures { result ≡ offset_by names.now.table row.now why }
{
    if !(row.is_ready || is_success(why)) {
        return 0;
    }
    match names.node_at(row.source) {
        Some(source) => source.size,
        None => 0,
    }
}

/// What the end of a job does beside the table's changes.
#[derive(Drop)]
struct PlannedEnd {
    edits: Edits,
    kind: FilterKind,
    filter: Option<NodeId>,
    drops: bool,
    owed: u32,
    offset: u64,
}

fn planned(names: &Names, row: &JobRecord, room: EventRoom, why: JobEnd) -> PlannedEnd
    ensures { IsPlanned names.now.table row.now why result }
{
    PlannedEnd {
        edits: room.end_edits(names, row, outcome_of(why)),
        kind: filter_of(row.kind),
        filter: row.filter,
        drops: drops_aside(why, &row.bitmap),
        owed: entries_owed(row),
        offset: offset_at_end(names, row, why),
    }
}

/// The end of a job that is there.
fn planned_at(names: &Names, room: EventRoom, job: u32, why: JobEnd) -> PlannedEnd
    requires { IsSome (job_at names.now.table job) }
    ensures { (row : Row) → job_at names.now.table job ≡ Some row
        → IsPlanned names.now.table row why result }
{
    match names.job_at(job) {
        Some(row) => planned(names, row, room, why),
        None => unreachable!(),
    }
}

impl RunningJobs {
    /// Ends a job: its row, its edges and its filter go, what was put aside of its bitmap is dropped or is dirty again, its work is no
    /// more, and the end is noted. By a pivot all that is over its source goes over to its target. Takes no memory.
    pub fn end<D: Device>(
        &mut self,
        nodes: &mut Nodes<D>,
        names: &mut Names,
        bitmaps: &mut Bitmaps,
        progress: &mut Progress,
        job: u32,
        why: JobEnd,
    )
        requires can { With (job_at names.old.table job)
            (CanBeEnded names.old.table nodes.old self.old progress.old why) }
        ensures table { (row : Row) → job_at names.old.table job ≡ Some row
            → names.new.table ≡ ended_table names.old.table row why }
        ensures pulls { (row : Row) → job_at names.old.table job ≡ Some row
            → HasPulled names.new.table row nodes.old nodes.new }
        ensures joined { IsJoined nodes.new }
        ensures bitmaps { (row : Row) → job_at names.old.table job ≡ Some row
            → bitmaps.new ≡ bitmaps_ended row why bitmaps.old }
        ensures works { self.new ≡ without_work job self.old }
        ensures progress { (row : Row) → job_at names.old.table job ≡ Some row
            → progress.new ≡ with_job_entry (entries_owed row)
            (Event.End job why (offset_by names.old.table row why)) progress.old }
    {
        let room = self.remove(job);
        let end = planned_at(names, room, job, why);
        names.apply_event(end.edits);
        match end.filter {
            Some(filter) => pull_filter(nodes, names, end.kind, filter),
            None => unreachable!(),
        }
        bitmaps.release(job, end.drops);
        progress.end_job(end.owed, job, why, end.offset);
    }
}
