//! The files of the system by name.
ghost use Rattle.std.specs.Prelude.{◌≡◌, ◌⊎◌, ◌<◌, ◌≤◌, [], length, None, IfSome};
ghost use Rattle.std.specs.List.{position};
ghost use Rattle.blk_base.specs.Files.{is_out_as, is_out, given_back, IfTold};
ghost use Rattle.blk_base.specs.Answers.{StandsAt};
ghost use Rattle.blk_base.specs.Calls.{IsStoreCallAfterStop};
ghost use Rattle.blk_base.specs.Counts.{Rose};

use crate::device::CAPACITY;
use crate::opening::Opening;
use crate::{Failure, FileDevice, access, said};
use blk_base::{Bytes, Device, DeviceCall, Store, StoreCall, StoreStop, Text};
use std::alloc::Global;
use std::fs::File;
use std::io::Read;
use std::marker::Model;
use std::rt::Files;
use std::{fs, io};

/// How much is read at once.
const CHUNK: usize = 65536;

/// Reads a file to its end, up to `limit` bytes and one chunk more.
fn read_up_to(alloc: Global, file: &mut File, limit: u64) -> io::Result<Vec<u8>> {
    let mut bytes = Vec::new(alloc);
    let mut chunk = vec![in alloc; 0u8; CHUNK]?;
    for _ in 0..u64::MAX {
        match file.read(&mut chunk) {
            Ok(0) => return Ok(bytes),
            Ok(n) => bytes.extend_from_slice(&chunk[..n])?,
            Err(error) if error.kind() == io::ErrorKind::Interrupted => {}
            Err(error) => return Err(error),
        }
        if bytes.len() as u64 > limit {
            return Ok(bytes);
        }
    }
    Err(io::Error::from(io::ErrorKind::TimedOut))
}

/// The bytes of a file that can be read once more, at most `limit` and 64 KiB of them: of no pipe, nor of anything else that a
/// reader empties. `None` where it isn't one or can't be read.
pub fn read_again<R: Files<File = File>>(
    rt: &R,
    alloc: Global,
    name: &str,
    limit: u64,
) -> Option<Vec<u8>> {
    if !fs::metadata(rt, name).ok()?.file_type().is_file() {
        return None;
    }
    let mut file = File::open(rt, name).ok()?;
    read_up_to(alloc, &mut file, limit).ok()
}

/// A call of the store that failed: the file's name, and which call it was.
#[derive(Debug, Drop)]
struct Failed {
    name: Text,
    call: StoreCall,
}

/// The files of the system.
#[derive(Drop)]
pub struct FileStore<'a, R: Files> {
    rt: &'a R,
    alloc: Global,
    openings: Vec<Opening>,
    faults: u64,
    failed: Option<Failed>,
}

impl<'a, R: Files> Model for FileStore<'a, R> {
    ghost use Rattle.std.specs.Prelude.{option_map};
    ghost use Rattle.blk_files.specs.Seen.{SystemStore};

    ghost Value = { SystemStore };

    ghost view = { λ s. record {
      opened = s.openings.items;
      faults = s.faults;
      failed_call = option_map (λ f. record { name = f.name.bytes; call = f.call }) s.failed;
    } };
}

impl<'a, R: Files + Eprint> FileStore<'a, R> {
    /// The files, none of which is open.
    pub fn new(rt: &'a R, alloc: Global) -> Self
        ensures { result ≡ record { opened = []; faults = 0; failed_call = None } }
    {
        FileStore {
            rt,
            alloc,
            openings: Vec::new(alloc),
            faults: 0,
            failed: None,
        }
    }

    fn is_out(&self, name: &str) -> bool
        ensures { result ≡ is_out name.now self.now.opened }
    {
        self.openings.iter().any(|o| o.is_out_as(name))
    }

    /// The opening by which a device is out under that name.
    fn place_of_opening(&self, name: &str) -> Option<usize>
        ensures place { result ≡ position (is_out_as name.now) self.now.opened }
        ensures within { IfSome result (λ at. at < length self.now.opened) }
    {
        self.openings.iter().position(|o| o.is_out_as(name))
    }

    /// Counts in the record of openings that the device of that name is back.
    fn set_returned(
        &mut self,
        name: &str,
        faults: u64,
        failed_call: Option<DeviceCall>,
        failure: Option<io::Error>,
    )
        ensures { self.new
            ≡ record self.old { opened = given_back name.now faults failed_call self.old.opened } }
    {
        match self.place_of_opening(name) {
            Some(at) => {
                let opening = &mut self.openings[at];
                opening.set_returned(faults, failed_call, failure);
            }
            None => {}
        }
    }

    /// Counts a failure, tells what the system said, and keeps the call where there is memory for the name.
    fn count(&mut self, name: &str, call: StoreCall, error: io::Error)
        ensures rose { Rose self.old.faults self.new.faults }
        ensures faults { self.old.faults ≤ self.new.faults }
        ensures call { IfTold self.new.failed_call
            (λ last. last ≡ record { name = name.now; call = call }) }
        ensures kept { self.new
            ≡ record self.old { faults = self.new.faults; failed_call = self.new.failed_call } }
    {
        self.faults = self.faults.saturating_add(1);
        said::print_stop(self.rt, self.alloc, self.faults, name, error);
        self.failed = match Text::copied(self.alloc, name) {
            Ok(name) => Some(Failed { name, call }),
            Err(_) => None,
        };
    }

    /// What an error of the system is answered as.
    fn stopped(&mut self, name: &str, call: StoreCall, error: io::Error) -> StoreStop
        ensures stop { (result ≡ StoreStop.Absent) ⊎ (result ≡ StoreStop.NoMemory)
            ⊎ ((result ≡ StoreStop.Failed) × Rose self.old.faults self.new.faults) }
        ensures call { IsStoreCallAfterStop result (record { name = name.now; call = call })
            self.old.failed_call self.new.failed_call }
        ensures kept { self.new
            ≡ record self.old { faults = self.new.faults; failed_call = self.new.failed_call } }
        ensures quiet { StandsAt self.old.faults self.new.faults result }
        ensures faults { self.old.faults ≤ self.new.faults }
    {
        match error.kind() {
            // a name that the system can't hold is none of its files'
            io::ErrorKind::NotFound
            | io::ErrorKind::NotADirectory
            | io::ErrorKind::InvalidFilename => StoreStop::Absent,
            io::ErrorKind::OutOfMemory => StoreStop::NoMemory,
            _ => {
                self.count(name, call, error);
                StoreStop::Failed
            }
        }
    }

    /// What the system said of the last failure of an opening's device, once it is given back.
    pub fn failure_of(&self, opening: usize) -> Option<Failure<'_>> {
        self.openings.get(opening)?.failure()
    }
}

impl<R: Files<File = File> + Eprint> Store for FileStore<'_, R> {
    type Dev = FileDevice;

    ghost files = { λ _. None };

    ghost opened = { λ s. s.opened };

    ghost room = { λ _. 9223372036854775807 };

    ghost faults = { λ s. s.faults };

    ghost failed_call = { λ s. s.failed_call };

    fn open_file(&mut self, name: &str) -> Result<Self::Dev, StoreStop> {
        if self.is_out(name) {
            return Err(StoreStop::InUse);
        }
        let Ok(text) = Text::copied(self.alloc, name) else {
            return Err(StoreStop::NoMemory);
        };
        if self.openings.reserve(1).is_err() {
            return Err(StoreStop::NoMemory);
        }
        let opened = match access::open(self.rt, self.alloc, name) {
            Ok(opened) => opened,
            Err(error) => return Err(self.stopped(name, StoreCall::Open, error)),
        };
        if let Some(error) = opened.denied {
            said::print_denied(self.rt, self.alloc, name, error);
        }
        let dev = FileDevice::new(opened.file, opened.length);
        self.openings.push_reserved(Opening::new(text, &dev));
        Ok(dev)
    }

    fn create_file(&mut self, name: &str, len: u64) -> Result<(), StoreStop> {
        if self.is_out(name) {
            return Err(StoreStop::InUse);
        }
        if len > CAPACITY {
            return Err(StoreStop::TooLong);
        }
        match access::create(self.rt, self.alloc, name, len) {
            Ok(()) => Ok(()),
            Err(error) => {
                self.count(name, StoreCall::Create { len }, error);
                Err(StoreStop::Failed)
            }
        }
    }

    fn read_all(&mut self, name: &str, limit: u64) -> Result<Bytes, StoreStop> {
        if self.is_out(name) {
            return Err(StoreStop::InUse);
        }
        let mut file = match File::open(self.rt, name) {
            Ok(file) => file,
            Err(error) => return Err(self.stopped(name, StoreCall::Read { limit }, error)),
        };
        match read_up_to(self.alloc, &mut file, limit) {
            Ok(bytes) if bytes.len() as u64 > limit => Err(StoreStop::TooLong),
            Ok(bytes) => Ok(Bytes::from_vec(bytes)),
            Err(error) => Err(self.stopped(name, StoreCall::Read { limit }, error)),
        }
    }

    fn give_back(&mut self, name: &str, dev: Self::Dev) {
        self.set_returned(name, dev.faults(), dev.failed_call(), dev.failure());
    }

    fn room(&self) -> u64 {
        CAPACITY
    }

    fn faults(&self) -> u64 {
        self.faults
    }
}
