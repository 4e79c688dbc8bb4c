//! Files by name: what is asked of whatever keeps them.
ghost use Rattle.std.specs.Prelude.{◌≡◌, ◌≢◌, ℕ, ◌≤◌, true, [], ◌∷◌, ◌++◌, List, length, replicate, Option, None, option_map, IsTrue, IfOk, IfErr, OnOk, OnErr, MatchResult};
ghost use Rattle.blk_base.specs.Device.{opened_now};
ghost use Rattle.blk_base.specs.Files.{put_file, is_out, given_back, IfTold};
ghost use Rattle.blk_base.specs.declared.file.CallOnFile.{CallOnFile};
ghost use Rattle.blk_base.specs.declared.file.File.{File};
ghost use Rattle.blk_base.specs.declared.file.Opened.{Opened};
ghost use Rattle.blk_base.specs.Answers.{OpenAnswers, CreateAnswers, ReadAnswers, StandsUnlessFailed};
ghost use Rattle.blk_base.specs.Calls.{IsStoreCallAfter};
ghost use Rattle.blk_base.specs.Stored.{IsDeviceOf, HoldsBytes, LeavesOthers, files_with_returned};

use crate::{Bytes, Device};

/// Why a call of a store stopped.
#[derive(Clone, Copy, Debug, PartialEq, Eq)]
pub enum StoreStop {
    /// There is no file of that name.
    Absent,
    /// The file's device is out.
    InUse,
    /// The file is longer than asked for, or would be longer than the room.
    TooLong,
    /// The store failed.
    Failed,
    NoMemory,
}

/// A call of a store: a file is taken out, made with so many bytes, or read whole, where it has at most `limit` bytes.
#[derive(Clone, Copy, Debug, PartialEq, Eq)]
pub enum StoreCall {
    Open,
    Create { len: u64 },
    Read { limit: u64 },
}

/// Files by name. A file is opened into a device, and is out until that is given back. A call that doesn't fail
/// leaves the count of faults.
pub trait Store {
    type Dev: Device;

    /// The files, where the store tells them. A file that is out stands here as it was when it was opened.
    ghost files: { Self → Option (List File) };

    /// All openings so far, in order.
    ghost opened: { Self → List Opened };

    /// The capacity of files that are made.
    ghost room: { Self → ℕ };

    /// How many of its calls have failed.
    ghost faults: { Self → ℕ };

    /// Which of its calls failed last, where the store tells it.
    ghost failed_call: { Self → Option CallOnFile };

    /// Takes a file out. The n-th opening of a run, counted from 0, is device n. A refusal leaves all as it was.
    fn open_file(&mut self, name: &str) -> Result<Self::Dev, StoreStop>
        ensures device { IfOk result
            (λ dev. IsDeviceOf (files self.old) name.now (Self.Dev.content dev)
            (Self.Dev.capacity dev) (Self.Dev.is_flushed dev)) }
        ensures opened { MatchResult result
            (λ dev. opened self.new
            ≡ opened self.old ++ opened_now Self.Dev.Device name.now dev ∷ [])
            (λ _. opened self.new ≡ opened self.old) }
        ensures cause { OpenAnswers name.now (files self.old) (opened self.old) (faults self.old)
            (faults self.new) result }
        ensures quiet { StandsUnlessFailed (faults self.old) (faults self.new) result }
        ensures call { IsStoreCallAfter result (record { name = name.now; call = StoreCall.Open })
            (failed_call self.old) (failed_call self.new) }
        ensures files { files self.new ≡ files self.old }
        ensures room { room self.new ≡ room self.old }
        ensures faults { faults self.old ≤ faults self.new };

    /// Makes the file hold `len` zero bytes, whether it was there or not. After `Failed` that file may hold any
    /// bytes or be absent; after every other refusal all files are as before.
    fn create_file(&mut self, name: &str, len: u64) -> Result<(), StoreStop>
        ensures made { OnOk result
            (files self.new
            ≡ option_map
            (put_file (record {
              name = name.now;
              bytes = replicate len 0;
              capacity = room self.old;
              is_flushed = true;
            })) (files self.old)) }
        ensures others { OnErr result (LeavesOthers name.now (files self.old) (files self.new)) }
        ensures refused { IfErr result
            (λ e. e ≢ StoreStop.Failed → files self.new ≡ files self.old) }
        ensures cause { CreateAnswers name.now len (room self.old) (opened self.old)
            (faults self.old) (faults self.new) result }
        ensures quiet { StandsUnlessFailed (faults self.old) (faults self.new) result }
        ensures call { IsStoreCallAfter result
            (record { name = name.now; call = StoreCall.Create len })
            (failed_call self.old) (failed_call self.new) }
        ensures opened { opened self.new ≡ opened self.old }
        ensures room { room self.new ≡ room self.old }
        ensures faults { faults self.old ≤ faults self.new };

    /// The whole file, where it has at most `limit` bytes.
    fn read_all(&mut self, name: &str, limit: u64) -> Result<Bytes, StoreStop>
        ensures read { IfOk result (λ bytes. IfTold (files self.old) (HoldsBytes name.now bytes)) }
        ensures limit { IfOk result (λ bytes. length bytes ≤ limit) }
        ensures cause { ReadAnswers name.now limit (files self.old) (opened self.old)
            (faults self.old) (faults self.new) result }
        ensures quiet { StandsUnlessFailed (faults self.old) (faults self.new) result }
        ensures call { IsStoreCallAfter result
            (record { name = name.now; call = StoreCall.Read limit })
            (failed_call self.old) (failed_call self.new) }
        ensures files { files self.new ≡ files self.old }
        ensures opened { opened self.new ≡ opened self.old }
        ensures room { room self.new ≡ room self.old }
        ensures faults { faults self.old ≤ faults self.new };

    /// Takes a device back. The file then holds what the device does.
    fn give_back(&mut self, name: &str, dev: Self::Dev)
        requires { IsTrue (is_out name.now (opened self.old)) }
        ensures files { files self.new
            ≡ files_with_returned name.now (Self.Dev.content dev) (Self.Dev.capacity dev)
            (Self.Dev.is_flushed dev) (files self.old) }
        ensures opened { opened self.new
            ≡ given_back name.now (Self.Dev.faults dev) (Self.Dev.failed_call dev)
            (opened self.old) }
        ensures room { room self.new ≡ room self.old }
        ensures call { failed_call self.new ≡ failed_call self.old }
        ensures faults { faults self.new ≡ faults self.old };

    /// The capacity of a file that `create_file` makes. It never changes.
    fn room(&self) -> u64
        ensures { result ≡ room self.now };

    /// How many calls have failed. The count never falls; at its last value, 2^64 - 1, it stands.
    fn faults(&self) -> u64
        ensures { result ≡ faults self.now };
}
