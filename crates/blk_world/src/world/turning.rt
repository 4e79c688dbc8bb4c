//! Turns of jobs, and what is copied in them.
ghost use Rattle.std.specs.Prelude.{◌≡◌, Some, length};
ghost use Rattle.blk_nodes.specs.Contents.{Unfolds};
ghost use Rattle.blk_nodes.specs.Joined.{IsJoined};
ghost use Rattle.flat_machine.specs.declared.opening.Opening.{Opening};
ghost use Rattle.qmp_rules.specs.Table.{job_at, job_in};
ghost use Rattle.qmp_rules.specs.declared.rows.JobRecord.{JobRecord as Row};
ghost use Rattle.world_jobs.specs.Copying.{fits_copy};
ghost use Rattle.world_goings.specs.Copied.{WasRead};
ghost use Rattle.world_jobs.specs.Copies.{IsSettled, IsTaken, IsToldOf};
ghost use Rattle.world_jobs.specs.Turning.{IsTurned};
ghost use Rattle.world_parts.specs.Coherent.{IsWholeWorld};
ghost use Rattle.world_parts.specs.Comes.{Comes};

use crate::world::World;
use blk_base::{Fault, Store};
use blk_copy::Transfer;
use world_jobs::{Turn, Turned, drain_for, get_ready};

/// What is told of a block that is read: none where there is none to be read, and where the read failed.
fn told_of(answer: Result<Option<Transfer>, Fault>) -> Option<Transfer>
    ensures { IsToldOf answer result }
{
    match answer {
        Ok(told) => told,
        Err(_) => None,
    }
}

impl<S: Store> World<S> {
    /// Gives the job of a slot its turn.
    fn put_turn(&mut self, slot: u32) -> Turned
        ensures turned { IsTurned self.old self.new slot result }
        ensures whole { IsWholeWorld self.old }
        ensures joined { IsJoined self.old.nodes }
        ensures unfolds { Unfolds self.old.nodes }
        ensures joined_then { IsJoined self.new.nodes }
    {
        let _ = self.nodes.edges();
        let Some(row) = self.names.job_in(slot) else {
            return Turned::Empty;
        };
        let job = row.number;
        let turn = self.works.turn(self.progress.all_done(), row);
        if let Some(way) = drain_for(&self.names, &self.progress, &mut self.drained, turn, row) {
            return Turned::Later {
                guest: way.guest,
                request: way.request,
            };
        }
        match turn {
            Turn::Copy => Turned::Copy,
            Turn::Wait => Turned::Idle,
            Turn::GetReady => {
                get_ready(&mut self.names, &mut self.progress, job);
                Turned::Became
            }
            Turn::End(why) | Turn::Finish(why) => {
                self.works.end(
                    &mut self.nodes,
                    &mut self.names,
                    &mut self.bitmaps,
                    &mut self.progress,
                    job,
                    why,
                );
                self.drained.end_job(job);
                Turned::Became
            }
        }
    }

    /// Gives the job of a slot its turn: it is ready or ends where it is to, or a block is to be copied for it. Once it is asked to end,
    /// the guests of its disk are held from its turn on, and it waits until none of their requests is in flight. Takes no memory.
    pub fn job_turn(&mut self, slot: u32) -> Turned
        ensures turned { IsTurned self.old self.new slot result }
        ensures comes { (o : Opening) → Comes o self.old → Comes o self.new }
    {
        self.put_turn(slot)
    }

    /// Reads the next block of the job in a slot.
    fn put_take(&mut self, slot: u32, buffer: &mut [u8]) -> Option<Transfer>
        requires { length buffer.old ≡ 65536 }
        ensures taken { IsTaken (job_in self.old.table slot) self.old self.new buffer.new result }
        ensures buffer { length buffer.new ≡ length buffer.old }
        ensures whole { IsWholeWorld self.old }
    {
        let _ = self.nodes.edges();
        self.works.law();
        let row = self.names.job_in(slot)?;
        let position = self.progress.entries();
        let answer = self.works.take(&mut self.nodes, row, position, buffer);
        let _ = self.nodes.edges();
        self.works.fault_law(row.number);
        told_of(answer)
    }

    /// Reads the next block of the job in a slot to the front of the buffer, to be settled later. It is None where there is none to be
    /// read, and where the read failed: the job then ends in its turn. Takes no memory.
    pub fn take(&mut self, slot: u32, buffer: &mut [u8]) -> Option<Transfer>
        requires { length buffer.old ≡ 65536 }
        ensures taken { IsTaken (job_in self.old.table slot) self.old self.new buffer.new result }
        ensures buffer { length buffer.new ≡ length buffer.old }
        ensures comes { (o : Opening) → Comes o self.old → Comes o self.new }
    {
        self.put_take(slot, buffer)
    }

    /// Writes a block that was read for a job.
    fn put_settle(&mut self, t: Transfer, bytes: &[u8]) -> bool
        requires { fits_copy self.old.works t bytes.now }
        ensures settled { IsSettled (job_at self.old.table t.job) self.old self.new t bytes.now
            result }
        ensures whole { IsWholeWorld self.old }
        ensures joined { IsJoined self.old.nodes }
    {
        let _ = self.nodes.edges();
        self.works.law();
        match self.names.job_at(t.job) {
            Some(row) => {
                let answer = self.works.settle(&mut self.nodes, row, t, bytes);
                let _ = self.nodes.edges();
                self.works.fault_law(row.number);
                answer
            }
            None => false,
        }
    }

    /// Writes a block that was read for a job. The answer is false where the copy came too late, and nothing is done. Takes no memory.
    pub fn settle(&mut self, t: Transfer, bytes: &[u8]) -> bool
        requires whole { fits_copy self.old.works t bytes.now }
        requires read { (o : Opening) (row : Row) → Comes o self.old
            → job_at self.old.table t.job ≡ Some row → WasRead o self.old row t bytes.now }
        ensures settled { IsSettled (job_at self.old.table t.job) self.old self.new t bytes.now
            result }
        ensures comes { (o : Opening) → Comes o self.old → Comes o self.new }
    {
        self.put_settle(t, bytes)
    }
}
