//! Files in memory, of which contracts are told nothing.
ghost use Rattle.std.specs.Prelude.{◌≡◌, [], false, List, ℕ, IfOk};
ghost use Rattle.blk_base.specs.Files.{is_out};

use blk_base::{Bytes, NoMemory, Store, StoreStop};
use blk_fakes::{FailAt, MemDevice, MemStore};
use row_text::RowStop;
use std::alloc::Global;
use std::marker::Model;

/// The capacity of each file.
const ROOM: u64 = 1_048_576;

/// Files in memory. Like a store of the system's files it tells contracts nothing of what they hold, so that a caller which settles a
/// copy has nothing to show of what was read: what comes of it is what rows ask.
#[derive(Drop)]
pub(crate) struct UntoldStore {
    store: MemStore,
}

impl Model for UntoldStore {
    ghost use Rattle.blk_fakes.specs.Shelf.{StoreState};

    ghost Value = { StoreState };

    ghost view = { λ s. s.store };
}

impl UntoldStore {
    /// No file yet.
    pub fn new(alloc: Global) -> Result<Self, NoMemory>
        ensures { IfOk result (λ s. s.opened ≡ []) }
    {
        let store = MemStore::new(alloc, ROOM, &[])?;
        Ok(UntoldStore { store })
    }

    /// Adds a file of these bytes, whose calls of these numbers fail, where none of its name is there.
    #[tactic(auto, using(crate::proofs::Free::free))]
    pub fn add(
        &mut self,
        alloc: Global,
        name: &str,
        bytes: &[u8],
        fails: &[FailAt],
    ) -> Result<(), RowStop>
        requires { self.old.opened ≡ [] }
        ensures { self.new.opened ≡ [] }
    {
        if bytes.len() as u64 > ROOM || self.store.file(name).is_some() {
            return Err(RowStop::Call);
        }
        let dev = MemDevice::new(alloc, bytes, ROOM, fails, 0, 0)?;
        match self.store.add_file(name, dev) {
            Ok(()) => Ok(()),
            Err(_) => Err(RowStop::NoMemory),
        }
    }

    /// The bytes of a file that is not out.
    pub fn bytes(&self, name: &str) -> Option<&[u8]> {
        match self.store.file(name) {
            Some(dev) => Some(dev.bytes()),
            None => None,
        }
    }
}

impl Store for UntoldStore {
    ghost use Rattle.std.specs.Prelude.{None};

    type Dev = MemDevice;

    ghost files = { λ _. None };

    ghost opened = { λ s. s.opened };

    ghost room = { λ s. s.room };

    ghost faults = { λ s. s.calls.faults };

    ghost failed_call = { λ _. None };

    #[tactic(auto, using(crate::proofs::Untold::untold_open))]
    fn open_file(&mut self, name: &str) -> Result<MemDevice, StoreStop> {
        self.store.open_file(name)
    }

    fn create_file(&mut self, name: &str, len: u64) -> Result<(), StoreStop> {
        self.store.create_file(name, len)
    }

    #[tactic(auto, using(crate::proofs::Untold::untold_read))]
    fn read_all(&mut self, name: &str, limit: u64) -> Result<Bytes, StoreStop> {
        self.store.read_all(name, limit)
    }

    fn give_back(&mut self, name: &str, dev: MemDevice) {
        self.store.give_back(name, dev);
    }

    fn room(&self) -> u64 {
        self.store.room()
    }

    fn faults(&self) -> u64 {
        self.store.faults()
    }
}
