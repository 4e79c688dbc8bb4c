//! The changes that the start of a job makes, by the row that it gets.
ghost use Rattle.std.specs.Prelude.{◌≡◌, ◌++◌, ◌∷◌, [], IfOk, OnOk, filter, if◌then◌else◌, map};
ghost use Rattle.std.specs.List.{list_any};
ghost use Rattle.qmp_rules.specs.Asks.{is_base};
ghost use Rattle.qmp_rules.specs.Chains.{is_listed};
ghost use Rattle.qmp_rules.specs.Edits.{base_edits, commit_unsettles, commit_uses, copy_edits, edits_by_kind, file_used, filter_edits, filter_name, filter_row, reads_one_of, start_edits, target_edits, under_top, up_to, uses_as, uses_target, writable_if};

use crate::change::Change;
use crate::edits::{format_row, put, put_device_uses};
use crate::find;
use crate::job_looks::has_id;
use crate::rows::{JobRecord, NodeRecord};
use crate::table::Names;
use blk_base::NoMemory;
use blk_graph::{JobUse, Kind, NodeId};
use qmp_asks::Name;
use qmp_codec::JobKind;
use std::alloc::Global;

/// The base of a commit, and the nodes strictly between it and the top.
fn under_top(job: &JobRecord) -> &[NodeId]
    ensures { result.now ≡ under_top job.now }
{
    match job.held.as_slice() {
        [] => &[],
        [_, rest @ ..] => rest,
    }
}

/// Whether one of the nodes is among those that come before the top.
fn reads_before(top: NodeId, nodes: &[NodeId], chain: &[NodeId]) -> bool
    ensures { result ≡ list_any (λ id. is_listed id nodes.now) (up_to top chain.now) }
{
    for id in chain {
        if *id == top {
            return false;
        }
        if has_id(nodes, *id) {
            return true;
        }
    }
    false
}

fn put_writable(edits: &mut Vec<Change>, so: bool, node: Option<NodeId>) -> Result<(), NoMemory>
    ensures { OnOk result (edits.new.items ≡ edits.old.items ++ writable_if so node) }
{
    match node {
        Some(id) if so => put(edits, Change::MakeWritable(id)),
        _ => Ok(()),
    }
}

fn put_use(edits: &mut Vec<Change>, slot: u32, what: JobUse, node: NodeId) -> Result<(), NoMemory>
    ensures { OnOk result
        (edits.new.items ≡ edits.old.items ++ Change.UseNode slot what node ∷ []) }
{
    put(edits, Change::UseNode { slot, what, node })
}

/// The nodes that a stream reads.
fn put_read_uses(edits: &mut Vec<Change>, slot: u32, nodes: &[NodeId]) -> Result<(), NoMemory>
    ensures { OnOk result (edits.new.items
        ≡ edits.old.items ++ uses_as slot JobUse.StreamBelow nodes.now) }
{
    for id in nodes {
        put_use(edits, slot, JobUse::StreamBelow, *id)?;
    }
    Ok(())
}

fn use_under_top(target: Option<NodeId>, id: NodeId) -> JobUse
    ensures { result
        ≡ (if is_base target id then JobUse.CommitBase else JobUse.CommitBetween) }
{
    if find::is_base(target, id) {
        JobUse::CommitBase
    } else {
        JobUse::CommitBetween
    }
}

/// The base of a commit and the nodes between.
fn put_commit_uses(edits: &mut Vec<Change>, job: &JobRecord) -> Result<(), NoMemory>
    ensures { OnOk result (edits.new.items ≡ edits.old.items ++ commit_uses job.now) }
{
    for id in under_top(job) {
        put_use(edits, job.slot, use_under_top(job.target, *id), *id)?;
    }
    Ok(())
}

fn put_target_use(edits: &mut Vec<Change>, job: &JobRecord) -> Result<(), NoMemory>
    ensures { OnOk result
        (edits.new.items ≡ edits.old.items ++ uses_target job.now job.now.target) }
{
    match job.target {
        Some(target) => put_use(edits, job.slot, JobUse::CopyTarget, target),
        None => Ok(()),
    }
}

fn put_start(edits: &mut Vec<Change>, job: &JobRecord) -> Result<(), NoMemory>
    ensures { OnOk result (edits.new.items ≡ edits.old.items ++ Change.StartJob job.now ∷ []) }
{
    put(edits, Change::StartJob(job.clone()?))
}

fn joined(alloc: Global, front: &str, id: &str) -> Result<Name, NoMemory>
    ensures { IfOk result (λ name. name ≡ front.now ++ id.now) }
{
    let mut text = String::from_str(alloc, front)?;
    text.push_str(id)?;
    Ok(Name::from_string(text))
}

fn filter_name(alloc: Global, driver: Kind, id: &str) -> Result<Name, NoMemory>
    ensures { IfOk result (λ name. name ≡ filter_name driver id.now) }
{
    match driver {
        Kind::Mirror => joined(alloc, "#mirror:", id),
        Kind::Commit => joined(alloc, "#commit:", id),
        Kind::Protocol | Kind::Raw | Kind::Qcow2 | Kind::CopyOnRead | Kind::BeforeWrite => {
            joined(alloc, "#cbw:", id)
        }
    }
}

impl Names {
    /// That a job on a file node uses its file.
    fn put_file_used(
        &self,
        alloc: Global,
        edits: &mut Vec<Change>,
        node: Option<NodeId>,
    ) -> Result<(), NoMemory>
        ensures { OnOk result (edits.new.items ≡ edits.old.items ++ file_used self.now.table node) }
    {
        match self.maybe_at(node) {
            Some(row) => put_device_uses(alloc, edits, row),
            None => Ok(()),
        }
    }

    fn filter_row(
        &self,
        alloc: Global,
        driver: Kind,
        id: &str,
        row: &NodeRecord,
    ) -> Result<NodeRecord, NoMemory>
        ensures { IfOk result
            (λ filter. filter ≡ filter_row self.now.table driver id.now row.now) }
    {
        let name = filter_name(alloc, driver, id)?;
        let node = self.free_id(alloc)?;
        Ok(format_row(driver, node, name, row.size, 0, row.read_only))
    }

    /// The job's filter over its source.
    fn put_filter_over(
        &self,
        alloc: Global,
        edits: &mut Vec<Change>,
        driver: Kind,
        job: &JobRecord,
    ) -> Result<(), NoMemory>
        ensures { OnOk result
            (edits.new.items ≡ edits.old.items ++ filter_edits self.now.table driver job.now) }
    {
        match self.node_at(job.source) {
            Some(row) => put(
                edits,
                Change::PutFilter {
                    row: self.filter_row(alloc, driver, job.id.as_str(), row)?,
                    node: row.id,
                },
            ),
            None => Ok(()),
        }
    }

    /// Whether a node reads one of these, and not through the top.
    fn reads_one_of(
        &self,
        alloc: Global,
        top: NodeId,
        nodes: &[NodeId],
        row: &NodeRecord,
    ) -> Result<bool, NoMemory>
        ensures { IfOk result
            (λ so. so ≡ reads_one_of self.now.table top nodes.now row.now) }
    {
        let chain = self.chain(alloc, self.disk_node(row.id))?;
        Ok(reads_before(top, nodes, chain.as_slice()))
    }

    /// That a node has no flat disk any more, where a commit takes it.
    fn put_unsettled(
        &self,
        alloc: Global,
        edits: &mut Vec<Change>,
        job: &JobRecord,
        row: &NodeRecord,
    ) -> Result<(), NoMemory>
        ensures { OnOk result (edits.new.items ≡ edits.old.items
            ++ map (λ node. Change.Unsettle node.id)
            (filter (reads_one_of self.now.table job.now.source (under_top job.now))
            (row.now ∷ []))) }
    {
        if self.reads_one_of(alloc, job.source, under_top(job), row)? {
            put(edits, Change::Unsettle(row.id))
        } else {
            Ok(())
        }
    }

    /// What has no flat disk from the start of a commit on.
    #[tactic(auto, using(std::proofs::lemmas::List::append_assoc, crate::proofs::StartLemmas::kept_step))]
    fn put_commit_unsettles(
        &self,
        alloc: Global,
        edits: &mut Vec<Change>,
        job: &JobRecord,
    ) -> Result<(), NoMemory>
        ensures { OnOk result
            (edits.new.items ≡ edits.old.items ++ commit_unsettles self.now.table job.now) }
    {
        for row in self.nodes() {
            self.put_unsettled(alloc, edits, job, row)?;
        }
        Ok(())
    }

    /// A base that is read-only may be written while the job runs, with the file node under it.
    #[tactic(auto, using(std::proofs::lemmas::List::append_assoc))]
    fn put_base_writable(&self, edits: &mut Vec<Change>, job: &JobRecord) -> Result<(), NoMemory>
        ensures { OnOk result
            (edits.new.items ≡ edits.old.items ++ base_edits self.now.table job.now) }
    {
        put_writable(edits, job.made_writable.file, self.file_below(job.target))?;
        put_writable(edits, job.made_writable.base, job.target)
    }

    /// The target of a copy has no flat disk any more.
    #[tactic(auto, using(std::proofs::lemmas::List::append_assoc))]
    fn put_target(
        &self,
        alloc: Global,
        edits: &mut Vec<Change>,
        target: Option<NodeId>,
    ) -> Result<(), NoMemory>
        ensures { OnOk result
            (edits.new.items ≡ edits.old.items ++ target_edits self.now.table target) }
    {
        match target {
            Some(id) => {
                self.put_file_used(alloc, edits, Some(id))?;
                put(edits, Change::Unsettle(id))
            }
            None => Ok(()),
        }
    }

    #[tactic(auto, using(std::proofs::lemmas::List::append_assoc))]
    fn put_copy(
        &self,
        alloc: Global,
        edits: &mut Vec<Change>,
        driver: Kind,
        job: &JobRecord,
    ) -> Result<(), NoMemory>
        ensures { OnOk result
            (edits.new.items ≡ edits.old.items ++ copy_edits self.now.table driver job.now) }
    {
        self.put_target(alloc, edits, job.target)?;
        self.put_filter_over(alloc, edits, driver, job)?;
        put_start(edits, job)?;
        put_target_use(edits, job)
    }

    #[tactic(auto, using(std::proofs::lemmas::List::append_assoc))]
    fn put_stream(
        &self,
        alloc: Global,
        edits: &mut Vec<Change>,
        job: &JobRecord,
    ) -> Result<(), NoMemory>
        ensures { OnOk result (edits.new.items
            ≡ edits.old.items ++ edits_by_kind self.now.table job.now JobKind.Stream) }
    {
        self.put_file_used(alloc, edits, job.target)?;
        put_start(edits, job)?;
        put_use(edits, job.slot, JobUse::StreamTop, job.source)?;
        put_read_uses(edits, job.slot, job.read.as_slice())
    }

    /// What comes before a commit's row.
    #[tactic(auto, using(std::proofs::lemmas::List::append_assoc))]
    fn put_before_commit(
        &self,
        alloc: Global,
        edits: &mut Vec<Change>,
        job: &JobRecord,
    ) -> Result<(), NoMemory>
        ensures { OnOk result (edits.new.items ≡ edits.old.items
            ++ file_used self.now.table job.now.target
            ++ commit_unsettles self.now.table job.now
            ++ base_edits self.now.table job.now
            ++ filter_edits self.now.table Kind.Commit job.now) }
    {
        self.put_file_used(alloc, edits, job.target)?;
        self.put_commit_unsettles(alloc, edits, job)?;
        self.put_base_writable(edits, job)?;
        self.put_filter_over(alloc, edits, Kind::Commit, job)
    }

    #[tactic(auto, using(std::proofs::lemmas::List::append_assoc))]
    fn put_commit(
        &self,
        alloc: Global,
        edits: &mut Vec<Change>,
        job: &JobRecord,
    ) -> Result<(), NoMemory>
        ensures { OnOk result (edits.new.items
            ≡ edits.old.items ++ edits_by_kind self.now.table job.now JobKind.Commit) }
    {
        self.put_before_commit(alloc, edits, job)?;
        put_start(edits, job)?;
        put_use(edits, job.slot, JobUse::CommitTop, job.source)?;
        put_commit_uses(edits, job)
    }

    /// What the start of a job makes of the table, by the row that it gets.
    #[tactic(auto, unfolding(crate::specs::Edits::start_edits))]
    pub(crate) fn plan_start(
        &self,
        alloc: Global,
        edits: &mut Vec<Change>,
        job: &JobRecord,
    ) -> Result<(), NoMemory>
        ensures { OnOk result
            (edits.new.items ≡ edits.old.items ++ start_edits self.now.table job.now) }
    {
        match job.kind {
            JobKind::Stream => self.put_stream(alloc, edits, job),
            JobKind::Commit => self.put_commit(alloc, edits, job),
            JobKind::Mirror => self.put_copy(alloc, edits, Kind::Mirror, job),
            JobKind::Backup => self.put_copy(alloc, edits, Kind::BeforeWrite, job),
        }
    }
}
