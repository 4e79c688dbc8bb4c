//! A store in memory that never fails.

use crate::{MemDevice, MemStore, SureDevice};
use blk_base::{Bytes, NoMemory, Store, StoreStop};
use std::alloc::Global;
use std::marker::Model;

/// Files in memory whose count of faults is the constant 0, and that of each of their devices too.
#[derive(Drop)]
pub struct SureStore {
    store: MemStore,
}

impl Model for SureStore {
    ghost use Rattle.blk_fakes.specs.Calls.{NeverFails};
    ghost use Rattle.blk_fakes.specs.Shelf.{StoreState, NoneFails};

    ghost Value = { StoreState };

    ghost view = { λ s. s.store };

    ghost invariant = { λ s. NeverFails s.store.calls × NoneFails s.store.files };
}

impl SureStore {
    ghost use Rattle.std.specs.Prelude.{◌≡◌, ◌⊎◌, ◌≤◌, ◌++◌, [], ◌∷◌, length, option_map, false, Some, None, IsTrue, IfSome, IfNone, IfOk, IfErr, OnOk, OnErr, slice_get};
    ghost use Rattle.blk_base.specs.Files.{is_out};
    ghost use Rattle.blk_fakes.specs.Calls.{no_calls};
    ghost use Rattle.blk_fakes.specs.Shelf.{StoreState, is_held, device_at};

    /// A store with no file yet. Files that it makes have the capacity `room`.
    pub fn new(alloc: Global, room: u64) -> Result<Self, NoMemory>
        ensures { IfOk result
            (λ s. s ≡ record { files = []; opened = []; room = room; calls = no_calls [] }) }
    {
        let store = MemStore::new(alloc, room, &[])?;
        Ok(SureStore { store })
    }

    /// Adds a file, which is this device. After a refusal the store is as before, and gives the device back.
    #[tactic(auto, using(crate::proofs::Sure::none_added))]
    pub fn add_file(&mut self, name: &str, dev: SureDevice) -> Result<(), (NoMemory, SureDevice)>
        requires { is_held name.now self.old.files ≡ false }
        ensures ok { OnOk result
            (self.new ≡ record self.old {
              files = self.old.files
                  ++ record { name = name.now; device = dev } ∷ [];
            }) }
        ensures err { OnErr result (self.new ≡ self.old) }
        ensures device { IfErr result (λ e. e.1 ≡ dev) }
    {
        match self.store.add_file(name, dev.into_device()) {
            Ok(()) => Ok(()),
            Err((refused, dev)) => Err((refused, SureDevice::of(dev))),
        }
    }

    /// What a file holds that is not out: the device in memory, to be looked at.
    pub fn file(&self, name: &str) -> Option<&MemDevice>
        ensures some { IfSome result
            (λ d. (is_out name.now self.now.opened ≡ false)
            × (device_at name.now self.now.files ≡ Some d.now)) }
        ensures none { IfNone result
            (IsTrue (is_out name.now self.now.opened)
            ⊎ (device_at name.now self.now.files ≡ None)) }
    {
        self.store.file(name)
    }

    /// The name of a file by its place, counted from 0, those that are out among them.
    pub fn name_at(&self, k: u64) -> Option<&str>
        ensures some { IfSome result
            (λ n. option_map (λ f. f.name) (slice_get self.now.files k) ≡ Some n.now) }
        ensures none { IfNone result (length self.now.files ≤ k) }
    {
        self.store.name_at(k)
    }
}

impl Store for SureStore {
    ghost use Rattle.std.specs.Prelude.{◌≡◌, ◌≢◌, ◌++◌, [], ◌∷◌, None, Some, IsTrue, IfOk, IfErr, OnOk, MatchResult};
    ghost use Rattle.blk_base.specs.Answers.{OpenAnswers, CreateAnswers, ReadAnswers};
    ghost use Rattle.blk_base.specs.Files.{put_file, is_out, given_back};
    ghost use Rattle.blk_base.specs.Stored.{IsDeviceOf, HoldsBytes};
    ghost use Rattle.blk_fakes.specs.Disk.{device_bytes};
    ghost use Rattle.blk_fakes.specs.Shelf.{StoreState, told_as, told_files, opened_as, zeros_as, device_at, with_made, with_device};

    type Dev = SureDevice;

    ghost files = { λ s. Some (told_files s) };

    ghost opened = { λ s. s.opened };

    ghost room = { λ s. s.room };

    ghost faults = { λ s. 0 };

    ghost failed_call = { λ _. None };

    /// Never fails.
    #[tactic(auto, using(crate::proofs::Sure::next_goes, crate::proofs::Sure::sure_after, crate::proofs::Sure::sure_lent))]
    fn open_file(&mut self, name: &str) -> Result<SureDevice, StoreStop>
        ensures sure { IfErr result (λ e. e ≢ StoreStop.Failed) }
        ensures lent { IfOk result (λ dev. device_at name.now self.old.files ≡ Some dev) }
        ensures devices { self.new.files ≡ self.old.files }

        // what each store promises
        ensures device { IfOk result
            (λ dev. IsDeviceOf (Some (told_files self.old)) name.now (Some (device_bytes dev.disk))
            dev.disk.capacity (Some dev.disk.is_flushed)) }
        ensures opened { MatchResult result
            (λ dev. self.new.opened
            ≡ self.old.opened ++ record (opened_as name.now dev) { faults = 0 } ∷ [])
            (λ _. self.new.opened ≡ self.old.opened) }
        ensures cause { OpenAnswers name.now (Some (told_files self.old)) self.old.opened 0 0
            result }
        ensures room { self.new.room ≡ self.old.room }
    {
        match self.store.open_file(name) {
            Ok(dev) => Ok(SureDevice::of(dev)),
            Err(stop) => Err(stop),
        }
    }

    /// Never fails.
    #[tactic(auto, using(crate::proofs::Sure::next_goes, crate::proofs::Sure::sure_after, crate::proofs::Sure::none_made))]
    fn create_file(&mut self, name: &str, len: u64) -> Result<(), StoreStop>
        ensures sure { IfErr result (λ e. e ≢ StoreStop.Failed) }
        ensures devices { MatchResult result
            (λ _. self.new.files ≡ with_made name.now len self.old.room self.old.files)
            (λ _. self.new.files ≡ self.old.files) }

        // what each store promises
        ensures made { OnOk result
            (told_files self.new
            ≡ put_file (zeros_as name.now len self.old.room) (told_files self.old)) }
        ensures cause { CreateAnswers name.now len self.old.room self.old.opened 0 0 result }
        ensures opened { self.new.opened ≡ self.old.opened }
        ensures room { self.new.room ≡ self.old.room }
    {
        self.store.create_file(name, len)
    }

    /// Never fails.
    #[tactic(auto, using(crate::proofs::Sure::next_goes, crate::proofs::Sure::sure_after))]
    fn read_all(&mut self, name: &str, limit: u64) -> Result<Bytes, StoreStop>
        ensures sure { IfErr result (λ e. e ≢ StoreStop.Failed) }
        ensures devices { self.new.files ≡ self.old.files }

        // what each store promises
        ensures read { IfOk result (λ bytes. HoldsBytes name.now bytes (told_files self.old)) }
        ensures cause { ReadAnswers name.now limit (Some (told_files self.old)) self.old.opened 0 0
            result }
        ensures opened { self.new.opened ≡ self.old.opened }
        ensures room { self.new.room ≡ self.old.room }
    {
        self.store.read_all(name, limit)
    }

    #[tactic(auto, using(crate::proofs::Sure::none_given))]
    fn give_back(&mut self, name: &str, dev: SureDevice)
        requires { IsTrue (is_out name.now self.old.opened) }
        ensures devices { self.new.files ≡ with_device name.now dev self.old.files }

        // what each store promises
        ensures files { told_files self.new
            ≡ put_file (told_as name.now dev) (told_files self.old) }
        ensures opened { self.new.opened ≡ given_back name.now 0 None self.old.opened }
        ensures room { self.new.room ≡ self.old.room }
    {
        self.store.give_back(name, dev.into_device());
    }

    fn room(&self) -> u64 {
        self.store.room()
    }

    /// None of its calls has failed.
    fn faults(&self) -> u64
        ensures { result ≡ 0 }
    {
        0
    }
}
