//! The works of a run's jobs.
ghost use Rattle.std.specs.Prelude.{◌≡◌, ◌==◌, ◌<◌, ◌++◌, ◌∷◌, ℕ, [], IfOk, IfSome, IsNone, IsSome, None, Some, length, true};
ghost use Rattle.std.specs.List.{position};
ghost use Rattle.blk_copy.specs.Rows.{is_in_flight};
ghost use Rattle.blk_nodes.specs.Contents.{disk_of};
ghost use Rattle.blk_nodes.specs.Nodes.{AreTold, node_size};
ghost use Rattle.blk_nodes.specs.Writing.{IsApartFrom, LeavesNodes, MayWriteThrough};
ghost use Rattle.block_jobs.specs.Work.{HasRoomForAll, IsJobWork, JobWork as Seen, block_count};
ghost use Rattle.job_works.specs.Steps.{Guarded, Settled, Taken};
ghost use Rattle.job_works.specs.Works.{ChangesWork, marked_again, with_work, without_work, work_of};
ghost use Rattle.node_copies.specs.Sectors.{block_of};

use blk_base::{Device, Fault, NoMemory, Span};
use blk_copy::Transfer;
use blk_graph::NodeId;
use blk_nodes::Nodes;
use block_jobs::JobWork;
use job_copies::{guard, settle, take};
use qmp_codec::JobKind;
use std::alloc::Global;
use std::marker::Model;

/// How many jobs there are at once.
const MOST: usize = 16;

/// The works of a run's jobs, of which there are 16 at most.
#[derive(Drop)]
pub struct Works {
    list: Vec<JobWork>,
}

impl Model for Works {
    ghost use Rattle.std.specs.Prelude.{List, ◌≤◌, vec_capacity};
    ghost use Rattle.block_jobs.specs.Work.{JobWork as Seen};

    ghost Value = { List Seen };

    ghost view = { λ w. w.list.items };

    ghost invariant = { λ w. 16 ≤ vec_capacity w.list };
}

impl Works {
    /// None yet, with room for all.
    pub fn new(alloc: Global) -> Result<Self, NoMemory>
        ensures { IfOk result (λ works. works ≡ []) }
    {
        let list = Vec::with_capacity(alloc, MOST)?;
        Ok(Works { list })
    }

    /// Where the work of a job stands.
    fn place_of(&self, job: u32) -> Option<usize>
        ensures place { result ≡ position (λ work. work.job == job) self.now }
        ensures within { IfSome result (λ at. at < length self.now) }
    {
        self.list.iter().position(|work| work.job() == job)
    }

    /// The work of a job, while it is there.
    pub fn of_job(&self, job: u32) -> Option<&JobWork>
        ensures some { IfSome result (λ work. work_of self.now job ≡ Some work.now) }
        ensures none { IsNone result → work_of self.now job ≡ None }
    {
        let at = self.place_of(job)?;
        Some(&self.list[at])
    }

    /// A job begins.
    pub fn put(&mut self, work: JobWork)
        requires { length self.old < 16 }
        ensures { self.new ≡ self.old ++ work ∷ [] }
    {
        self.list.push_reserved(work);
    }

    /// A job is over.
    pub fn remove(&mut self, job: u32)
        ensures { self.new ≡ without_work job self.old }
    {
        if let Some(at) = self.place_of(job) {
            self.list.remove(at);
        }
    }
}

impl Works {
    /// A guest wrote a span of the disk that a job copies: its parts are to be copied again.
    pub fn mark(&mut self, job: u32, span: Span)
        ensures { self.new ≡ marked_again job span self.old }
    {
        if let Some(at) = self.place_of(job) {
            let work = &mut self.list[at];
            work.mark(span);
        }
    }

    /// Copies what is left of a block of a backup's source to its target, before a guest writes the block.
    pub fn guard<D: Device>(
        &mut self,
        nodes: &mut Nodes<D>,
        job: u32,
        source: NodeId,
        target: NodeId,
        block: u64,
        buffer: &mut [u8],
    )
        requires there { (work : Seen) → work_of self.old job ≡ Some work
            → (block < block_count work.size) × (node_size nodes.old source ≡ work.size)
            × (node_size nodes.old target ≡ work.size) }
        requires some { IsSome (work_of self.old job) }
        requires room { length buffer.old ≡ 65536 }
        requires may { MayWriteThrough nodes.old target }
        ensures guards { ChangesWork job (Guarded nodes.old nodes.new source target block) self.old
            self.new }
        ensures others { (other : ℕ) → IsApartFrom nodes.old other target
            → disk_of nodes.new other ≡ disk_of nodes.old other }
        ensures kept { LeavesNodes nodes.old nodes.new target }
        ensures told { AreTold nodes.old.devices → AreTold nodes.new.devices }
        ensures buffer { length buffer.new ≡ length buffer.old }
    {
        match self.place_of(job) {
            Some(at) => {
                let work = &mut self.list[at];
                guard(nodes, work, source, target, block, buffer);
            }
            None => unreachable!(),
        }
    }

    /// Reads the next block of a backup or a mirror, to be settled later. It is None where each block with a part left is in flight.
    pub fn take<D: Device>(
        &mut self,
        nodes: &mut Nodes<D>,
        job: u32,
        kind: JobKind,
        source: NodeId,
        position: u64,
        buffer: &mut [u8],
    ) -> Result<Option<Transfer>, Fault>
        requires there { (work : Seen) → work_of self.old job ≡ Some work
            → (node_size nodes.old source ≡ work.size) × HasRoomForAll work }
        requires some { IsSome (work_of self.old job) }
        requires bytes { length buffer.old ≡ 65536 }
        ensures takes { ChangesWork job
            (Taken kind nodes.old nodes.new source position buffer.new result) self.old self.new }
        ensures disks { (other : ℕ) → disk_of nodes.new other ≡ disk_of nodes.old other }
        ensures told { AreTold nodes.old.devices → AreTold nodes.new.devices }
        ensures buffer { length buffer.new ≡ length buffer.old }
    {
        match self.place_of(job) {
            Some(at) => {
                let work = &mut self.list[at];
                take(nodes, work, kind, source, position, buffer)
            }
            None => unreachable!(),
        }
    }

    /// Writes a block that was read for a backup or a mirror to its target. The answer is false where the copy came too late, and
    /// nothing is done.
    pub fn settle<D: Device>(
        &mut self,
        nodes: &mut Nodes<D>,
        kind: JobKind,
        target: NodeId,
        t: Transfer,
        bytes: &[u8],
    ) -> bool
        requires there { (work : Seen) → work_of self.old t.job ≡ Some work
            → (node_size nodes.old target ≡ work.size)
            × (is_in_flight t work.rows ≡ true
            → length bytes.now ≡ (block_of work.size t.cluster).len) }
        requires some { IsSome (work_of self.old t.job) }
        requires may { MayWriteThrough nodes.old target }
        ensures settles { ChangesWork t.job
            (Settled kind nodes.old nodes.new target t bytes.now result) self.old self.new }
        ensures others { (other : ℕ) → IsApartFrom nodes.old other target
            → disk_of nodes.new other ≡ disk_of nodes.old other }
        ensures kept { LeavesNodes nodes.old nodes.new target }
        ensures told { AreTold nodes.old.devices → AreTold nodes.new.devices }
    {
        match self.place_of(t.job) {
            Some(at) => {
                let work = &mut self.list[at];
                settle(nodes, work, kind, target, t, bytes)
            }
            None => unreachable!(),
        }
    }
}
