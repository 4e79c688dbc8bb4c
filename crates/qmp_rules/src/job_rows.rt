//! The rows of jobs, by the commands that begin them.
ghost use Rattle.std.specs.Prelude.{◌≡◌, ◌==◌, IfOk, map, option_map, unwrap_or};
ghost use Rattle.std.specs.List.{list_any};
ghost use Rattle.blk_graph.specs.Ids.{lowest_free};
ghost use Rattle.qmp_asks.specs.JobAsks.{commit_nodes, stream_nodes};
ghost use Rattle.qmp_asks.specs.Seen.{seen_nodes};
ghost use Rattle.qmp_codec.specs.Jobs.{seen_backup, seen_commit, seen_mirror, seen_stream};
ghost use Rattle.qmp_rules.specs.Asks.{held_nodes, read_nodes};
ghost use Rattle.qmp_rules.specs.Edits.{backup_job, commit_job, mirror_job, new_job, next_slot, reads_only, stream_job, to_be_written, used_bitmap};

use crate::edits::maybe_name;
use crate::rows::{AskedEnd, JobRecord, MadeWritable, NodeList, UsedBitmap};
use crate::table::Names;
use blk_base::NoMemory;
use blk_graph::NodeId;
use qmp_asks::{JobNodes, Name, maybe};
use qmp_codec::{Backup, BitmapMode, Commit, JobKind, Mirror, Stream};
use std::alloc::Global;

fn stream_nodes(c: &Stream) -> JobNodes<&str>
    ensures { seen_nodes result ≡ stream_nodes (seen_stream c.now) }
{
    JobNodes::Stream {
        device: c.device.as_str(),
        base: maybe(&c.base_node),
    }
}

fn commit_nodes(c: &Commit) -> JobNodes<&str>
    ensures { seen_nodes result ≡ commit_nodes (seen_commit c.now) }
{
    JobNodes::Commit {
        device: c.device.as_str(),
        base: maybe(&c.base_node),
        top: maybe(&c.top_node),
    }
}

fn has_slot(jobs: &[JobRecord], slot: u32) -> bool
    ensures { result ≡ list_any (λ job. job.slot == slot) jobs.now }
{
    jobs.iter().any(|job| job.slot == slot)
}

/// The lowest slot that no job has, of 64.
fn free_slot(jobs: &[JobRecord]) -> Result<u32, NoMemory>
    ensures { IfOk result (λ slot. slot ≡ lowest_free (map (λ job. job.slot) jobs.now)) }
{
    for slot in 0..64u32 {
        if !has_slot(jobs, slot) {
            return Ok(slot);
        }
    }
    Err(NoMemory)
}

fn mode_or_default(mode: Option<BitmapMode>) -> BitmapMode
    ensures { result ≡ unwrap_or mode BitmapMode.OnSuccess }
{
    match mode {
        Some(mode) => mode,
        None => BitmapMode::OnSuccess,
    }
}

impl Names {
    fn held_list(&self, alloc: Global, nodes: &JobNodes<&str>) -> Result<NodeList, NoMemory>
        ensures { IfOk result
            (λ list. list ≡ held_nodes self.now.table (seen_nodes nodes.now)) }
    {
        let mut ids = Vec::new(alloc);
        self.put_held(&mut ids, nodes)?;
        Ok(NodeList::new(ids))
    }

    fn read_list(&self, alloc: Global, nodes: &JobNodes<&str>) -> Result<NodeList, NoMemory>
        ensures { IfOk result
            (λ list. list ≡ read_nodes self.now.table (seen_nodes nodes.now)) }
    {
        let mut ids = Vec::new(alloc);
        self.put_read(&mut ids, nodes)?;
        Ok(NodeList::new(ids))
    }

    /// The row of a job, without what some kinds alone have.
    fn new_job(
        &self,
        alloc: Global,
        group: Option<u32>,
        id: &str,
        kind: JobKind,
        nodes: &JobNodes<&str>,
    ) -> Result<JobRecord, NoMemory>
        ensures { IfOk result (λ job. job
            ≡ new_job self.now.table group id.now kind (seen_nodes nodes.now)) }
    {
        Ok(JobRecord {
            id: Name::copied(alloc, id)?,
            number: self.started(),
            slot: free_slot(self.jobs())?,
            kind,
            is_ready: false,
            group,
            asked: AskedEnd::Nothing,
            source: self.top_of(nodes),
            target: self.base_of(nodes),
            filter: None,
            held: self.held_list(alloc, nodes)?,
            read: self.read_list(alloc, nodes)?,
            bitmap: None,
            made_writable: MadeWritable {
                base: false,
                file: false,
            },
            backing_file: None,
        })
    }

    fn reads_only(&self, node: Option<NodeId>) -> bool
        ensures { result ≡ reads_only self.now.table node }
    {
        match self.maybe_at(node) {
            Some(row) => row.read_only,
            None => false,
        }
    }

    /// What a commit has to make writable.
    fn to_be_written(&self, job: &JobRecord) -> MadeWritable
        ensures { result ≡ to_be_written self.now.table job.now.target }
    {
        let base = self.reads_only(job.target);
        let below = self.file_below(job.target);
        let file = self.reads_only(below);
        MadeWritable { base, file }
    }

    fn used_bitmap(&self, alloc: Global, c: &Backup, name: &str) -> Result<UsedBitmap, NoMemory>
        ensures { IfOk result
            (λ used. used ≡ used_bitmap self.now.table (seen_backup c.now) name.now) }
    {
        Ok(UsedBitmap {
            name: Name::copied(alloc, name)?,
            mode: mode_or_default(c.bitmap_mode),
            onto_settled: self.is_settled(self.id_of(c.target.as_str())),
        })
    }

    fn maybe_bitmap(&self, alloc: Global, c: &Backup) -> Result<Option<UsedBitmap>, NoMemory>
        ensures { IfOk result (λ used. used ≡ option_map
            (used_bitmap self.now.table (seen_backup c.now)) (seen_backup c.now).bitmap) }
    {
        match &c.bitmap {
            Some(name) => Ok(Some(self.used_bitmap(alloc, c, name.as_str())?)),
            None => Ok(None),
        }
    }

    pub(crate) fn stream_job(&self, alloc: Global, c: &Stream) -> Result<JobRecord, NoMemory>
        ensures { IfOk result (λ job. job ≡ stream_job self.now.table (seen_stream c.now)) }
    {
        let id = c.job_id.as_str();
        let mut job = self.new_job(alloc, None, id, JobKind::Stream, &stream_nodes(c))?;
        job.backing_file = maybe_name(alloc, &c.backing_file)?;
        Ok(job)
    }

    pub(crate) fn commit_job(&self, alloc: Global, c: &Commit) -> Result<JobRecord, NoMemory>
        ensures { IfOk result (λ job. job ≡ commit_job self.now.table (seen_commit c.now)) }
    {
        let id = c.job_id.as_str();
        let mut job = self.new_job(alloc, None, id, JobKind::Commit, &commit_nodes(c))?;
        job.filter = Some(self.free_id(alloc)?);
        job.made_writable = self.to_be_written(&job);
        job.backing_file = maybe_name(alloc, &c.backing_file)?;
        Ok(job)
    }

    pub(crate) fn mirror_job(&self, alloc: Global, c: &Mirror) -> Result<JobRecord, NoMemory>
        ensures { IfOk result (λ job. job ≡ mirror_job self.now.table (seen_mirror c.now)) }
    {
        let nodes = JobNodes::Copy {
            device: c.device.as_str(),
            target: c.target.as_str(),
        };
        let mut job = self.new_job(alloc, None, c.job_id.as_str(), JobKind::Mirror, &nodes)?;
        job.filter = Some(self.free_id(alloc)?);
        Ok(job)
    }

    pub(crate) fn backup_job(
        &self,
        alloc: Global,
        group: Option<u32>,
        c: &Backup,
    ) -> Result<JobRecord, NoMemory>
        ensures { IfOk result (λ job. job ≡ backup_job self.now.table group (seen_backup c.now)) }
    {
        let nodes = JobNodes::Copy {
            device: c.device.as_str(),
            target: c.target.as_str(),
        };
        let mut job = self.new_job(alloc, group, c.job_id.as_str(), JobKind::Backup, &nodes)?;
        job.filter = Some(self.free_id(alloc)?);
        job.bitmap = self.maybe_bitmap(alloc, c)?;
        Ok(job)
    }
}
