//! A job that begins behind the reply to its command.
ghost use Rattle.std.specs.Prelude.{◌≡◌, ◌<◌, ◌≤◌, ◌++◌, ◌∷◌, [], IfSome, length, option_map};
ghost use Rattle.blk_bitmaps.specs.Calls.{rows_after_call, NoteAll};
ghost use Rattle.blk_bitmaps.specs.Refusals.{find};
ghost use Rattle.blk_bitmaps.specs.Rows.{IsSpareOf};
ghost use Rattle.world_jobs.specs.Beginning.{aside_of, bitmaps_after, frozen_by};
ghost use Rattle.world_parts.specs.Progress.{with_start};

use crate::running::RunningJobs;
use blk_base::Text;
use blk_bitmaps::Bitmaps;
use blk_bits::DirtySet;
use blk_graph::NodeId;
use blk_history::JobName;
use block_jobs::JobWork;
use qmp_rules::EventRoom;
use std::marker::Model;
use world_parts::Progress;

/// The bitmap that a job copies by, and an empty set for what is written while it does.
#[derive(Drop)]
pub(crate) struct Aside {
    pub name: Text,
    pub spare: DirtySet,
}

/// A backup or a mirror that was accepted, with all memory that it takes.
#[derive(Drop)]
pub struct NewJob {
    pub(crate) work: JobWork,
    pub(crate) name: JobName,
    pub(crate) source: NodeId,
    pub(crate) target: NodeId,
    pub(crate) aside: Option<Aside>,
    pub(crate) room: EventRoom,
}

impl Model for NewJob {
    ghost use Rattle.std.specs.Prelude.{option_map};
    ghost use Rattle.world_jobs.specs.Beginning.{BegunJob, aside_of};

    ghost Value = { BegunJob };

    ghost view = { λ j. record {
      work = j.work;
      line = j.name;
      source = j.source;
      target = j.target;
      aside = option_map aside_of j.aside;
    } };
}

/// Puts aside what is dirty in the bitmap that the job copies by.
fn freeze(bitmaps: &mut Bitmaps, source: NodeId, aside: Option<Aside>, job: u32)
    requires { IfSome aside
        (λ used. IfSome (find bitmaps.old source used.name.bytes) (IsSpareOf used.spare)) }
    ensures { bitmaps.new ≡ frozen_by source job (option_map aside_of aside) bitmaps.old }
{
    match aside {
        Some(Aside { name, spare }) => bitmaps.freeze_with(source, name.as_str(), job, spare),
        None => {}
    }
}

impl NewJob {
    ghost use Rattle.block_jobs.specs.Work.{IsJobWork};
    ghost use Rattle.world_jobs.specs.Beginning.{HasSpare};

    /// What holds of its work.
    pub fn law(&self)
        ensures { IsJobWork self.now.work }
    {
        self.work.law();
    }

    /// The job begins: its bitmap is put aside for it, those of its target are wholly dirty, and it has its work. Takes no memory.
    pub fn begin(self, bitmaps: &mut Bitmaps, jobs: &mut RunningJobs, progress: &mut Progress)
        requires spare { HasSpare self bitmaps.old }
        requires few { length jobs.old < 16 }
        requires unmet { self.work.met ≡ None }
        requires room { 3 ≤ progress.old.spare.entries }
        requires aside { progress.old.aside ≤ 30 }
        ensures bitmaps { bitmaps.new ≡ bitmaps_after self bitmaps.old }
        ensures works { jobs.new ≡ jobs.old ++ self.work ∷ [] }
        ensures progress { progress.new ≡ with_start self.work.job self.line progress.old }
    {
        let NewJob {
            work,
            name,
            source,
            target,
            aside,
            room,
        } = self;
        let job = work.job();
        freeze(bitmaps, source, aside, job);
        bitmaps.note_all(target);
        progress.start(job, name);
        jobs.put(work, room);
    }
}
