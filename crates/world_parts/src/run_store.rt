//! A store, of whose openings a run counts its own.
ghost use Rattle.std.specs.Prelude.{◌≡◌, ◌≢◌, ◌≤◌, ℕ, List, [], ◌∷◌, ◌++◌, length, replicate, None, option_map, true, false, IsTrue, IfOk, IfErr, OnOk, OnErr, MatchResult};
ghost use Rattle.blk_base.specs.Answers.{CreateAnswers, StandsUnlessFailed};
ghost use Rattle.blk_base.specs.Calls.{IsStoreCallAfter};
ghost use Rattle.blk_base.specs.Device.{opened_now};
ghost use Rattle.blk_base.specs.Files.{given_back, is_out, put_file};
ghost use Rattle.blk_base.specs.Stored.{IsDeviceOf, LeavesOthers, files_with_returned};
ghost use Rattle.world_parts.specs.Stores.{CanBeOpened, StopsOpening, found_store};

use blk_base::{DevNo, Device, Store, StoreCall, StoreStop};
use std::marker::Model;

/// A store, and how many of its openings are this run's: the last ones. Those before them are over.
pub struct RunStore<S: Store> {
    store: S,
    openings: u32,
}

impl<S: Store> Model for RunStore<S> {
    ghost use Rattle.world_parts.specs.Stores.{AreLast, StoreInRun, first_opened, last_opened};

    ghost Value = { StoreInRun };

    ghost view = { λ r. record {
      files = S.files r.store;
      earlier = first_opened r.openings (S.opened r.store);
      opened = last_opened r.openings (S.opened r.store);
      room = S.room r.store;
      faults = S.faults r.store;
      failed_call = S.failed_call r.store;
    } };

    ghost invariant = { λ r. AreLast r.openings (S.opened r.store) };
}

impl<S: Store> RunStore<S> {
    /// A store of which no device is out, before the first opening of the run.
    pub fn new(store: S) -> Self
        requires { (name : List ℕ) → is_out name (S.opened store) ≡ false }
        ensures { result
            ≡ found_store (S.files store) (S.opened store) (S.room store) (S.faults store)
            (S.failed_call store) }
    {
        RunStore { store, openings: 0 }
    }

    /// Takes a file out, under the next number of the run. A refusal leaves all as it was.
    pub fn open_file(&mut self, name: &str) -> Result<(S::Dev, DevNo), StoreStop>
        ensures device { IfOk result (λ out. IsDeviceOf self.old.files name.now
            (S.Dev.content out.0) (S.Dev.capacity out.0) (S.Dev.is_flushed out.0)) }
        ensures number { IfOk result (λ out. out.1 ≡ record { 0 = length self.old.opened }) }
        ensures kept { MatchResult result
            (λ out. self.new ≡ record self.old {
              opened = self.old.opened
                  ++ opened_now S.Dev.Device name.now out.0 ∷ [];
            })
            (λ _. self.new ≡ record self.old {
              faults = self.new.faults;
              failed_call = self.new.failed_call;
            }) }
        ensures there { OnOk result (CanBeOpened name.now self.old) }
        ensures cause { IfErr result (StopsOpening name.now self.old self.new.faults) }
        ensures quiet { StandsUnlessFailed self.old.faults self.new.faults result }
        ensures call { IsStoreCallAfter result (record { name = name.now; call = StoreCall.Open })
            self.old.failed_call self.new.failed_call }
        ensures faults { self.old.faults ≤ self.new.faults }
    {
        let number = self.openings;
        if number == u32::MAX {
            return Err(StoreStop::NoMemory);
        }
        match self.store.open_file(name) {
            Ok(device) => {
                self.openings = number + 1;
                Ok((device, DevNo(number)))
            }
            Err(stop) => Err(stop),
        }
    }

    /// Makes the file hold `len` zero bytes, as the store does.
    pub fn create_file(&mut self, name: &str, len: u64) -> Result<(), StoreStop>
        ensures made { OnOk result (self.new.files ≡ option_map
            (put_file (record {
              name = name.now;
              bytes = replicate len 0;
              capacity = self.old.room;
              is_flushed = true;
            }))
            self.old.files) }
        ensures others { OnErr result (LeavesOthers name.now self.old.files self.new.files) }
        ensures refused { IfErr result
            (λ e. e ≢ StoreStop.Failed → self.new.files ≡ self.old.files) }
        ensures cause { CreateAnswers name.now len self.old.room self.old.opened
            self.old.faults self.new.faults result }
        ensures quiet { StandsUnlessFailed self.old.faults self.new.faults result }
        ensures call { IsStoreCallAfter result
            (record { name = name.now; call = StoreCall.Create len })
            self.old.failed_call self.new.failed_call }
        ensures kept { self.new ≡ record self.old {
          files = self.new.files;
          faults = self.new.faults;
          failed_call = self.new.failed_call;
        } }
        ensures faults { self.old.faults ≤ self.new.faults }
    {
        self.store.create_file(name, len)
    }

    /// Takes a device back. The file then holds what the device does.
    pub fn give_back(&mut self, name: &str, device: S::Dev)
        requires { IsTrue (is_out name.now self.old.opened) }
        ensures { self.new ≡ record self.old {
          files = files_with_returned name.now (S.Dev.content device) (S.Dev.capacity device)
              (S.Dev.is_flushed device) self.old.files;
          opened = given_back name.now (S.Dev.faults device) (S.Dev.failed_call device)
              self.old.opened;
        } }
    {
        self.store.give_back(name, device);
    }

    /// The capacity of a file that is made.
    pub fn room(&self) -> u64
        ensures { result ≡ self.now.room }
    {
        self.store.room()
    }

    /// How many calls of the store have failed.
    pub fn faults(&self) -> u64
        ensures { result ≡ self.now.faults }
    {
        self.store.faults()
    }

    /// The store, once the run is over.
    pub fn into_store(self) -> S
        ensures files { S.files result ≡ self.files }
        ensures opened { S.opened result ≡ self.earlier ++ self.opened }
        ensures earlier { (name : List ℕ) → is_out name self.earlier ≡ false }
        ensures room { S.room result ≡ self.room }
        ensures faults { S.faults result ≡ self.faults }
        ensures call { S.failed_call result ≡ self.failed_call }
    {
        let RunStore { store, openings: _ } = self;
        store
    }
}
