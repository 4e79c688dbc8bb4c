//! The disks of which no guest's request is admitted: of the command that has to come again, and of jobs that are asked to end.
ghost use Rattle.std.specs.Prelude.{◌≡◌, ◌<◌, ◌⊎◌, ◌∷◌, [], true, IfOk, Some, length};
ghost use Rattle.std.specs.List.{list_any};
ghost use Rattle.flat_machine.specs.Marks.{after_end, after_later, after_reply, after_turn, holds_disk, is_on, job_disks, none_drained};
ghost use Rattle.flat_machine.specs.State.{disk_of_guest};
ghost use Rattle.qmp_rules.specs.Chains.{is_listed};

use crate::in_the_way::is_on_one;
use blk_base::NoMemory;
use blk_graph::NodeId;
use qmp_rules::Names;
use std::alloc::Global;
use std::marker::Model;

/// How many jobs there are at once.
const MOST_JOBS: usize = 16;

/// The disks of which no guest's request is admitted: those that a command must drain, until it is answered, and the sources of
/// jobs, from a turn on in which they are asked to end until their ends. Of jobs there are 16 at most.
#[derive(Drop)]
pub struct Drained {
    disks: Vec<NodeId>,
    jobs: Vec<u32>,
}

impl Model for Drained {
    ghost use Rattle.std.specs.Prelude.{◌≤◌, vec_capacity};
    ghost use Rattle.flat_machine.specs.Marks.{Drained as Seen};

    ghost Value = { Seen };

    ghost view = { λ d. record { command = d.disks.items; jobs = d.jobs.items } };

    ghost invariant = { λ d. 16 ≤ vec_capacity d.jobs };
}

/// Whether a job's source is a node that a drive reads as.
fn is_source(names: &Names, node: NodeId, job: u32) -> bool
    ensures { result ≡ list_any (is_on names.now.table node) (job_disks names.now.table (job ∷ [])) }
{
    match names.job_at(job) {
        Some(row) => names.disk_node(row.source) == node,
        None => false,
    }
}

/// Whether the source of one of these jobs is that node.
fn is_source_of_one(names: &Names, node: NodeId, jobs: &[u32]) -> bool
    ensures { result ≡ list_any (is_on names.now.table node) (job_disks names.now.table jobs.now) }
{
    jobs.iter().any(|job| is_source(names, node, *job))
}

impl Drained {
    /// No disk is held.
    pub fn none(alloc: Global) -> Result<Self, NoMemory>
        ensures { IfOk result (λ drained. drained ≡ none_drained) }
    {
        let jobs = Vec::with_capacity(alloc, MOST_JOBS)?;
        Ok(Drained {
            disks: Vec::new(alloc),
            jobs,
        })
    }

    /// Holds the disks of a command that has to come again, in place of those of the last one.
    pub fn hold(&mut self, disks: Vec<NodeId>)
        ensures { self.new ≡ after_later disks.items self.old }
    {
        self.disks = disks;
    }

    /// Holds no disk of a command any more, once a line is answered.
    pub fn lift(&mut self)
        ensures { self.new ≡ after_reply self.old }
    {
        self.disks.clear();
    }

    /// Whether a job holds its source.
    fn holds_for(&self, job: u32) -> bool
        ensures { result ≡ is_listed job self.now.jobs }
    {
        self.jobs.iter().any(|other| *other == job)
    }

    /// Holds the source of a job that is asked to end. Takes no memory.
    pub fn hold_for(&mut self, job: u32)
        requires { (is_listed job self.old.jobs ≡ true) ⊎ (length self.old.jobs < 16) }
        ensures { self.new ≡ after_turn job self.old }
    {
        if !self.holds_for(job) {
            self.jobs.push_reserved(job);
        }
    }

    /// Holds nothing for a job any more, once it is over.
    pub fn end_job(&mut self, job: u32)
        ensures { self.new ≡ after_end job self.old }
    {
        self.jobs.retain(|other| *other != job);
    }

    /// Whether the guests of a disk are held.
    fn holds(&self, names: &Names, node: NodeId) -> bool
        ensures { result ≡ holds_disk names.now.table self.now (Some node) }
    {
        is_on_one(names, node, self.disks.as_slice())
            || is_source_of_one(names, node, self.jobs.as_slice())
    }
}

/// Whether a guest is held.
pub fn is_held(names: &Names, drained: &Drained, guest: u32) -> bool
    ensures { result
        ≡ holds_disk names.now.table drained.now (disk_of_guest names.now.table guest) }
{
    match names.drive(guest) {
        Some(drive) => drained.holds(names, names.disk_node(drive)),
        None => false,
    }
}
