//! The changes of the commands on jobs.
ghost use Rattle.std.specs.Prelude.{◌≡◌, ◌++◌, OnOk};
ghost use Rattle.qmp_codec.specs.Jobs.{seen_backup, seen_commit, seen_mirror, seen_stream};
ghost use Rattle.qmp_rules.specs.Edits.{asked_by_cancel, backup_job, cancel_edits, commit_job, complete_edits, leaves_copy, mirror_job, start_edits, stream_job};

use crate::change::Change;
use crate::edits::put;
use crate::rows::{AskedEnd, JobRecord};
use crate::table::Names;
use blk_base::NoMemory;
use qmp_asks::flag_or_false;
use qmp_codec::{Backup, Commit, JobKind, Mirror, Stream};
use std::alloc::Global;

/// Whether a cancelled job leaves its copy behind.
fn leaves_copy(force: bool, job: &JobRecord) -> bool
    ensures { result ≡ leaves_copy force job.now.is_ready job.now.kind }
{
    !force && job.is_ready && matches!(job.kind, JobKind::Mirror)
}

fn asked_by_cancel(force: bool, job: &JobRecord) -> AskedEnd
    ensures { result ≡ asked_by_cancel force job.now }
{
    if leaves_copy(force, job) {
        AskedEnd::Leave
    } else {
        AskedEnd::Stop
    }
}

impl Names {
    pub(crate) fn plan_stream(
        &self,
        alloc: Global,
        edits: &mut Vec<Change>,
        c: &Stream,
    ) -> Result<(), NoMemory>
        ensures { OnOk result (edits.new.items ≡ edits.old.items
            ++ start_edits self.now.table (stream_job self.now.table (seen_stream c.now))) }
    {
        let job = self.stream_job(alloc, c)?;
        self.plan_start(alloc, edits, &job)
    }

    pub(crate) fn plan_commit(
        &self,
        alloc: Global,
        edits: &mut Vec<Change>,
        c: &Commit,
    ) -> Result<(), NoMemory>
        ensures { OnOk result (edits.new.items ≡ edits.old.items
            ++ start_edits self.now.table (commit_job self.now.table (seen_commit c.now))) }
    {
        let job = self.commit_job(alloc, c)?;
        self.plan_start(alloc, edits, &job)
    }

    pub(crate) fn plan_mirror(
        &self,
        alloc: Global,
        edits: &mut Vec<Change>,
        c: &Mirror,
    ) -> Result<(), NoMemory>
        ensures { OnOk result (edits.new.items ≡ edits.old.items
            ++ start_edits self.now.table (mirror_job self.now.table (seen_mirror c.now))) }
    {
        let job = self.mirror_job(alloc, c)?;
        self.plan_start(alloc, edits, &job)
    }

    /// A backup, which may be of a group.
    pub(crate) fn plan_backup(
        &self,
        alloc: Global,
        edits: &mut Vec<Change>,
        group: Option<u32>,
        c: &Backup,
    ) -> Result<(), NoMemory>
        ensures { OnOk result (edits.new.items ≡ edits.old.items
            ++ start_edits self.now.table (backup_job self.now.table group (seen_backup c.now))) }
    {
        let job = self.backup_job(alloc, group, c)?;
        self.plan_start(alloc, edits, &job)
    }

    pub(crate) fn plan_cancel(
        &self,
        edits: &mut Vec<Change>,
        id: &str,
        force: Option<bool>,
    ) -> Result<(), NoMemory>
        ensures { OnOk result
            (edits.new.items ≡ edits.old.items ++ cancel_edits self.now.table id.now force) }
    {
        match self.job_named(id) {
            Some(job) => put(
                edits,
                Change::AskJob {
                    number: job.number,
                    asked: asked_by_cancel(flag_or_false(force), job),
                },
            ),
            None => Ok(()),
        }
    }

    pub(crate) fn plan_complete(&self, edits: &mut Vec<Change>, id: &str) -> Result<(), NoMemory>
        ensures { OnOk result
            (edits.new.items ≡ edits.old.items ++ complete_edits self.now.table id.now) }
    {
        match self.job_named(id) {
            Some(job) => put(
                edits,
                Change::AskJob {
                    number: job.number,
                    asked: AskedEnd::Complete,
                },
            ),
            None => Ok(()),
        }
    }
}
