//! What is kept of a run's jobs: their works, and for each the memory that its end takes.
ghost use Rattle.std.specs.Prelude.{◌≡◌, ◌<◌, ◌≤◌, ◌++◌, ◌∷◌, [], IfOk, IfSome, IsNone, IsSome, None, Some, length, vec_len};
ghost use Rattle.job_works.specs.Works.{without_work, work_of};
ghost use Rattle.block_jobs.specs.Work.{JobWork as Work};
ghost use Rattle.world_parts.specs.Keeping.{rise_of};
ghost use Rattle.world_goings.specs.Copied.{FailedAreDone, HasSmallFault};

mod copying;
mod ending;
mod guarding;
mod marking;
mod turning;

use blk_base::{Fault, NoMemory};
use block_jobs::JobWork;
use job_works::Works;
use qmp_rules::EventRoom;
use std::alloc::Global;
use std::marker::Model;

/// How many jobs there are at once.
const MOST: usize = 16;

/// The works of the jobs, of which there are 16 at most, for each the memory that its end takes, and the bytes of a block while it is
/// copied.
#[derive(Drop)]
pub struct RunningJobs {
    works: Works,
    rooms: Vec<EventRoom>,
    block: Vec<u8>,
}

impl Model for RunningJobs {
    ghost use Rattle.std.specs.Prelude.{◌≡◌, ◌≤◌, List, length, vec_capacity, vec_len};
    ghost use Rattle.block_jobs.specs.Work.{JobWork};
    ghost use Rattle.world_goings.specs.Copied.{FailedAreDone};

    ghost Value = { List JobWork };

    ghost view = { λ r. r.works };

    ghost invariant = { λ r. ((vec_len r.rooms ≡ length r.works)
        × ((16 ≤ vec_capacity r.rooms) × (length r.block.items ≡ 65536)))
        × FailedAreDone r.works };
}

/// Any bytes of one block.
fn block(alloc: Global) -> Result<Vec<u8>, NoMemory>
    ensures { IfOk result (λ bytes. vec_len bytes ≡ 65536) }
{
    Ok(vec![in alloc; 0u8; 65_536]?)
}

/// The count of a fault is one of 64 bits.
fn count_law(met: Option<Fault>)
    ensures { IfSome (rise_of met) (λ rise. rise.count ≤ 18446744073709551615) }
{
    if let Some(Fault::Io { dev: _, count }) = met {
        let _ = count;
    }
}

impl RunningJobs {
    /// None yet, with room for all.
    pub fn new(alloc: Global) -> Result<Self, NoMemory>
        ensures { IfOk result (λ jobs. jobs ≡ []) }
    {
        let works = Works::new(alloc)?;
        let rooms = Vec::with_capacity(alloc, MOST)?;
        let block = block(alloc)?;
        Ok(RunningJobs {
            works,
            rooms,
            block,
        })
    }

    /// Nothing is left to do for a job that met a fault, and no copy is in flight.
    pub fn law(&self)
        ensures { FailedAreDone self.now }
    {
        let _ = &self.works;
    }

    /// The count of the fault that a job met is one of 64 bits.
    pub fn fault_law(&self, job: u32)
        ensures { (work : Work) → work_of self.now job ≡ Some work → HasSmallFault work }
    {
        if let Some(work) = self.of_job(job) {
            count_law(work.met());
        }
    }

    /// The work of a job, while it is there.
    pub fn of_job(&self, job: u32) -> Option<&JobWork>
        ensures some { IfSome result (λ work. work_of self.now job ≡ Some work.now) }
        ensures none { IsNone result → work_of self.now job ≡ None }
    {
        self.works.of_job(job)
    }

    /// A job begins, with the memory that its end takes.
    pub(crate) fn put(&mut self, work: JobWork, room: EventRoom)
        requires few { length self.old < 16 }
        requires unmet { work.met ≡ None }
        ensures { self.new ≡ self.old ++ work ∷ [] }
    {
        self.works.put(work);
        self.rooms.push_reserved(room);
    }

    /// A job is over. Gives the memory that its end takes.
    pub(crate) fn remove(&mut self, job: u32) -> EventRoom
        requires { IsSome (work_of self.old job) }
        ensures { self.new ≡ without_work job self.old }
    {
        self.works.remove(job);
        match self.rooms.pop() {
            Some(room) => room,
            None => unreachable!(),
        }
    }
}
