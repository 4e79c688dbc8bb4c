//! A store in memory.

use crate::calls::Calls;
use crate::shelf::{Held, Opening};
use crate::{FailAt, MemDevice};
use blk_base::{Bytes, Device, NoMemory, Store, StoreStop, Text};
use std::alloc::Global;
use std::marker::Model;

/// Files in memory. Openings, creations and readings of whole files are the calls that may fail. A file that is out
/// stands here as it was opened, and its device is a copy.
#[derive(Drop)]
pub struct MemStore {
    files: Vec<Held>,
    openings: Vec<Opening>,
    room: u64,
    calls: Calls,
    alloc: Global,
}

impl Model for MemStore {
    ghost use Rattle.blk_fakes.specs.Shelf.{StoreState, OutAreHeld};

    ghost Value = { StoreState };

    ghost view = { λ s. record {
      files = s.files.items;
      opened = s.openings.items;
      room = s.room;
      calls = s.calls;
    } };

    ghost invariant = { λ s. OutAreHeld s.openings.items s.files.items };
}

impl MemStore {
    ghost use Rattle.std.specs.Prelude.{◌≡◌, ◌⊎◌, ◌<◌, ◌≤◌, ◌++◌, [], ◌∷◌, length, get_or, set, option_map, false, Some, None, IsTrue, IfSome, IfNone, IfOk, IfErr, OnOk, OnErr, slice_get};
    ghost use Rattle.blk_base.specs.Files.{file_at, put_file, is_out, is_out_as, given_back};
    ghost use Rattle.std.specs.List.{position};
    ghost use Rattle.blk_base.specs.Stored.{HoldsBytes};
    ghost use Rattle.blk_fakes.specs.Shelf.{FileState, StoreState, told_as, told_files, opened_as, zeros_as, shelf_place, is_held, device_at, with_made};
    ghost use Rattle.blk_fakes.specs.Calls.{no_calls};

    /// A store with no file yet, whose calls of those numbers fail. Files that it makes have the capacity `room`.
    pub fn new(alloc: Global, room: u64, fails: &[FailAt]) -> Result<Self, NoMemory>
        ensures { IfOk result
            (λ s. s ≡ record { files = []; opened = []; room = room; calls = no_calls fails.now }) }
    {
        Ok(MemStore {
            files: Vec::new(alloc),
            openings: Vec::new(alloc),
            room,
            calls: Calls::new(alloc, fails)?,
            alloc,
        })
    }

    fn is_out(&self, name: &str) -> bool
        ensures { result ≡ is_out name.now self.now.opened }
    {
        self.openings.iter().any(|o| o.is_out_as(name))
    }

    fn find(&self, name: &str) -> Option<usize>
        ensures { result ≡ shelf_place name.now self.now.files }
    {
        self.files.iter().position(|f| name == f.name())
    }

    /// The opening by which a device is out under that name.
    fn place_of_opening(&self, name: &str) -> Option<usize>
        ensures place { result ≡ position (is_out_as name.now) self.now.opened }
        ensures within { IfSome result (λ at. at < length self.now.opened) }
    {
        self.openings.iter().position(|o| o.is_out_as(name))
    }

    /// Adds a file, which is this device. After a refusal the store is as before, and gives the device back.
    pub fn add_file(&mut self, name: &str, dev: MemDevice) -> Result<(), (NoMemory, MemDevice)>
        requires { is_held name.now self.old.files ≡ false }
        ensures ok { OnOk result
            (self.new ≡ record self.old {
              files = self.old.files
                  ++ record { name = name.now; device = dev } ∷ [];
            }) }
        ensures err { OnErr result (self.new ≡ self.old) }
        ensures device { IfErr result (λ e. e.1 ≡ dev) }
    {
        let text = match Text::copied(self.alloc, name) {
            Ok(text) => text,
            Err(e) => return Err((e, dev)),
        };
        match self.files.push(Held::new(text, dev)) {
            Ok(()) => Ok(()),
            Err(full) => Err((NoMemory, full.value.into_device())),
        }
    }

    /// The device of a file that is not out.
    pub fn file(&self, name: &str) -> Option<&MemDevice>
        ensures some { IfSome result
            (λ d. (is_out name.now self.now.opened ≡ false)
            × (device_at name.now self.now.files ≡ Some d.now)) }
        ensures none { IfNone result
            (IsTrue (is_out name.now self.now.opened)
            ⊎ (device_at name.now self.now.files ≡ None)) }
    {
        if self.is_out(name) {
            return None;
        }
        match self.find(name) {
            Some(at) => Some(self.files[at].device()),
            None => None,
        }
    }

    /// The name of a file by its place, counted from 0, those that are out among them.
    pub fn name_at(&self, k: u64) -> Option<&str>
        ensures some { IfSome result
            (λ n. option_map (λ f. f.name) (slice_get self.now.files k) ≡ Some n.now) }
        ensures none { IfNone result (length self.now.files ≤ k) }
    {
        if k < self.files.len() as u64 {
            Some(self.files[k as usize].name())
        } else {
            None
        }
    }

    /// Puts a device in the place of that of a file.
    fn set_device(&mut self, at: usize, dev: MemDevice)
        requires { at < length self.old.files }
        ensures { (d : FileState)
            → self.new ≡ record self.old {
              files = set self.old.files at
                  (record (get_or self.old.files at d) { device = dev });
            } }
    {
        let file = &mut self.files[at];
        file.set_device(dev);
    }

    /// The place of a file that is out.
    fn place_of_out(&self, name: &str) -> usize
        requires { IsTrue (is_out name.now self.now.opened) }
        ensures { shelf_place name.now self.now.files ≡ Some result }
    {
        let _ = &self.files;
        match self.find(name) {
            Some(at) => at,
            None => unreachable!(),
        }
    }

    /// The bytes of a file, by its place.
    fn bytes_at(&self, name: &str, at: usize) -> &[u8]
        requires { shelf_place name.now self.now.files ≡ Some at }
        ensures { HoldsBytes name.now result.now (told_files self.now) }
    {
        self.files[at].device().bytes()
    }

    /// A copy of the device of a file, which is out from now on.
    fn lend(&mut self, name: &str, at: usize) -> Result<MemDevice, NoMemory>
        requires { shelf_place name.now self.old.files ≡ Some at }
        ensures device { IfOk result (λ dev. device_at name.now self.old.files ≡ Some dev) }
        ensures told { IfOk result
            (λ dev. file_at name.now (told_files self.old) ≡ Some (told_as name.now dev)) }
        ensures ok { IfOk result
            (λ dev. self.new
            ≡ record self.old { opened = self.old.opened ++ opened_as name.now dev ∷ [] }) }
        ensures err { OnErr result (self.new ≡ self.old) }
    {
        let dev = self.files[at].device().copied(self.alloc)?;
        self.note_opening(name, &dev)?;
        Ok(dev)
    }

    /// Notes that this device of a file is out.
    fn note_opening(&mut self, name: &str, dev: &MemDevice) -> Result<(), NoMemory>
        requires { IsTrue (is_held name.now self.old.files) }
        ensures ok { OnOk result
            (self.new
            ≡ record self.old { opened = self.old.opened ++ opened_as name.now dev.now ∷ [] }) }
        ensures err { OnErr result (self.new ≡ self.old) }
    {
        let opening = Opening::new(self.alloc, name, dev)?;
        self.openings.push(opening)?;
        Ok(())
    }

    /// Makes a file hold zeros that is there.
    fn make_again(&mut self, name: &str, at: usize, len: u64) -> Result<(), NoMemory>
        requires place { shelf_place name.now self.old.files ≡ Some at }
        requires fits { len ≤ self.old.room }
        ensures ok { OnOk result
            (told_files self.new
            ≡ put_file (zeros_as name.now len self.old.room) (told_files self.old)) }
        ensures devices { OnOk result
            (self.new.files ≡ with_made name.now len self.old.room self.old.files) }
        ensures err { OnErr result (self.new ≡ self.old) }
        ensures rest { self.new ≡ record self.old { files = self.new.files } }
    {
        let dev = self.files[at].device().remade(self.alloc, len, self.room)?;
        self.set_device(at, dev);
        Ok(())
    }

    /// Makes a file of zeros that is not there.
    fn make_anew(&mut self, name: &str, len: u64) -> Result<(), NoMemory>
        requires place { shelf_place name.now self.old.files ≡ None }
        requires fits { len ≤ self.old.room }
        ensures ok { OnOk result
            (told_files self.new
            ≡ put_file (zeros_as name.now len self.old.room) (told_files self.old)) }
        ensures devices { OnOk result
            (self.new.files ≡ with_made name.now len self.old.room self.old.files) }
        ensures err { OnErr result (self.new ≡ self.old) }
        ensures rest { self.new ≡ record self.old { files = self.new.files } }
    {
        let dev = MemDevice::zeroed(self.alloc, len, self.room)?;
        match self.add_file(name, dev) {
            Ok(()) => {}
            Err((refused, _)) => return Err(refused),
        }
        Ok(())
    }

    fn make(&mut self, name: &str, len: u64) -> Result<(), NoMemory>
        requires { len ≤ self.old.room }
        ensures ok { OnOk result
            (told_files self.new
            ≡ put_file (zeros_as name.now len self.old.room) (told_files self.old)) }
        ensures devices { OnOk result
            (self.new.files ≡ with_made name.now len self.old.room self.old.files) }
        ensures err { OnErr result (self.new ≡ self.old) }
        ensures rest { self.new ≡ record self.old { files = self.new.files } }
    {
        match self.find(name) {
            Some(at) => self.make_again(name, at, len),
            None => self.make_anew(name, len),
        }
    }

    /// Counts in the record of openings that the device of that name is back.
    fn set_returned(&mut self, name: &str, faults: u64)
        ensures { self.new
            ≡ record self.old { opened = given_back name.now faults None self.old.opened } }
    {
        match self.place_of_opening(name) {
            Some(at) => {
                let opening = &mut self.openings[at];
                opening.set_returned(faults);
            }
            None => {}
        }
    }
}

impl Store for MemStore {
    ghost use Rattle.std.specs.Prelude.{◌≡◌, ◌≢◌, ◌≤◌, ◌++◌, [], ◌∷◌, true, false, replicate, None, Some, IsTrue, IfOk, IfErr, OnOk, OnErr, MatchResult};
    ghost use Rattle.blk_base.specs.Stored.{IsDeviceOf, HoldsBytes, LeavesOthers};
    ghost use Rattle.blk_base.specs.Files.{file_at, put_file, is_out, given_back};
    ghost use Rattle.blk_base.specs.Answers.{OpenAnswers, CreateAnswers, ReadAnswers};
    ghost use Rattle.blk_fakes.specs.Calls.{fails_next, after_call, store_fails};
    ghost use Rattle.blk_fakes.specs.Disk.{device_bytes};
    ghost use Rattle.blk_fakes.specs.Shelf.{StoreState, told_as, told_files, opened_as, zeros_as, device_at, with_made, with_device};

    type Dev = MemDevice;

    ghost files = { λ s. Some (told_files s) };

    ghost opened = { λ s. s.opened };

    ghost room = { λ s. s.room };

    ghost faults = { λ s. s.calls.faults };

    ghost failed_call = { λ _. None };

    #[tactic(auto, using(crate::proofs::Shelves::lacks))]
    fn open_file(&mut self, name: &str) -> Result<MemDevice, StoreStop>
        ensures lent { IfOk result (λ dev. device_at name.now self.old.files ≡ Some dev) }
        ensures goes { OnOk result (fails_next self.old.calls ≡ false) }
        ensures fails { IfErr result
            (λ e. e ≡ StoreStop.Failed → fails_next self.old.calls ≡ true) }
        ensures calls { self.new.calls ≡ after_call (store_fails result) self.old.calls }
        ensures devices { self.new.files ≡ self.old.files }

        // what each store promises
        ensures device { IfOk result
            (λ dev. IsDeviceOf (Some (told_files self.old)) name.now (Some (device_bytes dev.disk))
            dev.disk.capacity (Some dev.disk.is_flushed)) }
        ensures opened { MatchResult result
            (λ dev. self.new.opened ≡ self.old.opened ++ opened_as name.now dev ∷ [])
            (λ _. self.new.opened ≡ self.old.opened) }
        ensures cause { OpenAnswers name.now (Some (told_files self.old)) self.old.opened
            self.old.calls.faults self.new.calls.faults result }
        ensures room { self.new.room ≡ self.old.room }
        ensures faults { self.old.calls.faults ≤ self.new.calls.faults }
    {
        let fails = self.calls.next().is_some();
        if self.is_out(name) {
            return Err(StoreStop::InUse);
        }
        let at = match self.find(name) {
            Some(at) => at,
            None => return Err(StoreStop::Absent),
        };
        if fails {
            self.calls.fail();
            return Err(StoreStop::Failed);
        }
        match self.lend(name, at) {
            Ok(dev) => Ok(dev),
            Err(NoMemory) => Err(StoreStop::NoMemory),
        }
    }

    /// Fails exactly where the list says so, unless the file is out or the length is above the room.
    fn create_file(&mut self, name: &str, len: u64) -> Result<(), StoreStop>
        ensures goes { OnOk result (fails_next self.old.calls ≡ false) }
        ensures fails { IfErr result
            (λ e. e ≡ StoreStop.Failed → fails_next self.old.calls ≡ true) }
        ensures calls { self.new.calls ≡ after_call (store_fails result) self.old.calls }
        ensures devices { MatchResult result
            (λ _. self.new.files ≡ with_made name.now len self.old.room self.old.files)
            (λ _. self.new.files ≡ self.old.files) }

        // what each store promises
        ensures made { OnOk result
            (told_files self.new
            ≡ put_file (zeros_as name.now len self.old.room) (told_files self.old)) }
        ensures cause { CreateAnswers name.now len self.old.room self.old.opened
            self.old.calls.faults self.new.calls.faults result }
        ensures opened { self.new.opened ≡ self.old.opened }
        ensures room { self.new.room ≡ self.old.room }
        ensures faults { self.old.calls.faults ≤ self.new.calls.faults }
    {
        let fails = self.calls.next().is_some();
        if self.is_out(name) {
            return Err(StoreStop::InUse);
        }
        if self.room < len {
            return Err(StoreStop::TooLong);
        }
        if fails {
            self.calls.fail();
            return Err(StoreStop::Failed);
        }
        match self.make(name, len) {
            Ok(()) => Ok(()),
            Err(NoMemory) => Err(StoreStop::NoMemory),
        }
    }

    #[tactic(auto, using(crate::proofs::Shelves::lacks))]
    /// Fails exactly where the list says so, unless there is no such file, it is out, or it is longer than the limit.
    fn read_all(&mut self, name: &str, limit: u64) -> Result<Bytes, StoreStop>
        ensures goes { OnOk result (fails_next self.old.calls ≡ false) }
        ensures fails { IfErr result
            (λ e. e ≡ StoreStop.Failed → fails_next self.old.calls ≡ true) }
        ensures calls { self.new.calls ≡ after_call (store_fails result) self.old.calls }
        ensures devices { self.new.files ≡ self.old.files }

        // what each store promises
        ensures read { IfOk result (λ bytes. HoldsBytes name.now bytes (told_files self.old)) }
        ensures cause { ReadAnswers name.now limit (Some (told_files self.old)) self.old.opened
            self.old.calls.faults self.new.calls.faults result }
        ensures opened { self.new.opened ≡ self.old.opened }
        ensures room { self.new.room ≡ self.old.room }
        ensures faults { self.old.calls.faults ≤ self.new.calls.faults }
    {
        let fails = self.calls.next().is_some();
        if self.is_out(name) {
            return Err(StoreStop::InUse);
        }
        let at = match self.find(name) {
            Some(at) => at,
            None => return Err(StoreStop::Absent),
        };
        if limit < self.bytes_at(name, at).len() as u64 {
            return Err(StoreStop::TooLong);
        }
        if fails {
            self.calls.fail();
            return Err(StoreStop::Failed);
        }
        match Vec::from_slice(self.alloc, self.bytes_at(name, at)) {
            Ok(bytes) => Ok(Bytes::from_vec(bytes)),
            Err(_) => Err(StoreStop::NoMemory),
        }
    }

    fn give_back(&mut self, name: &str, dev: MemDevice)
        requires { IsTrue (is_out name.now self.old.opened) }
        ensures devices { self.new.files ≡ with_device name.now dev self.old.files }
        ensures calls { self.new.calls ≡ self.old.calls }

        // what each store promises
        ensures files { told_files self.new
            ≡ put_file (told_as name.now dev) (told_files self.old) }
        ensures opened { self.new.opened
            ≡ given_back name.now dev.calls.faults None self.old.opened }
        ensures room { self.new.room ≡ self.old.room }
        ensures faults { self.old.calls.faults ≤ self.new.calls.faults }
    {
        let faults = dev.faults();
        let at = self.place_of_out(name);
        self.set_device(at, dev);
        self.set_returned(name, faults);
    }

    fn room(&self) -> u64 {
        self.room
    }

    fn faults(&self) -> u64 {
        self.calls.faults()
    }
}
