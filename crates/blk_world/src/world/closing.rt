//! The end of a world.
ghost use Rattle.std.specs.Prelude.{◌≡◌, ℕ, List, None, false, true, is_some};
ghost use Rattle.blk_base.specs.Files.{is_out};
ghost use Rattle.blk_history.specs.Fold.{With};
ghost use Rattle.flat_machine.specs.Agreement.{ReadAsDisks};
ghost use Rattle.flat_machine.specs.Final.{AreDisks, bytes_named};
ghost use Rattle.flat_machine.specs.Imaging.{ImagesAreSound};
ghost use Rattle.flat_machine.specs.State.{State};
ghost use Rattle.world_files.specs.Closing.{AreFlushed, AreNodesFlushed, EndsWorld};
ghost use Rattle.world_parts.specs.Face.{held, told_bytes, contents_of};
ghost use Rattle.world_parts.specs.Steps.{seen_store};

use crate::world::World;
use blk_base::{FaultAt, Store};
use blk_history::{History, JobName};
use world_files::give_all_back;

impl<S: Store> World<S> {
    /// Ends a world. Each device is flushed and given back under the name of its file, the first first; told are the history and
    /// the first fault of these flushes, where there was one, and the names of the jobs that began. Takes no memory.
    pub fn close_world(self) -> (S, History, Option<FaultAt>, Vec<JobName>)
        ensures history { result.1 ≡ self.progress.log }
        ensures jobs { result.3.items ≡ self.progress.jobs }
        ensures closed { EndsWorld self
            (seen_store (S.files result.0) (S.opened result.0) (S.room result.0)
            (S.faults result.0) (S.failed_call result.0)) result.2 }
        ensures faults { S.faults result.0 ≡ self.faults }
        ensures room { S.room result.0 ≡ self.room }
        ensures none_out { (name : List ℕ) → is_out name (S.opened result.0) ≡ false }
        ensures flushed { is_some self.files ≡ true → result.2 ≡ None
            → AreFlushed self (S.files result.0) }
        ensures named { is_some self.files ≡ true → result.2 ≡ None
            → AreNodesFlushed self.table (S.files result.0) }
        ensures disks { is_some self.files ≡ true → (s : State) → s.table ≡ self.table
            → ReadAsDisks s (contents_of self)
            → With (S.files result.0) (λ files. AreDisks files s) }
        ensures sound { is_some self.files ≡ true
            → With (S.files result.0) (λ files. ImagesAreSound self.table (bytes_named files)) }
        ensures held { is_some self.files ≡ true
            → (name : List ℕ) → told_bytes (S.files result.0) name ≡ held self name }
    {
        let World {
            mut store,
            first_faults: _,
            nodes,
            names,
            progress,
            drained: _,
            bitmaps: _,
            works: _,
            buffer: _,
        } = self;
        let _ = nodes.edges();
        let mut left = nodes.into_devices();
        let count = left.len();
        let fault = give_all_back(&mut store, &names, &mut left, count);
        left.end();
        let (history, jobs) = progress.into_history();
        (store.into_store(), history, fault, jobs)
    }
}
