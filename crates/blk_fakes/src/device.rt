//! A device in memory.

use crate::FailAt;
use crate::bytes::torn;
use crate::calls::Calls;
use crate::disk::Disk;
use crate::log::LogRoom;
use blk_base::{DevFault, Device, NoMemory, Stop, WriteStop};
use std::alloc::Global;
use std::marker::Model;

/// A device in memory. Its reads, writes and flushes are the calls that may fail; a write of no bytes can't.
#[derive(Drop)]
pub struct MemDevice {
    disk: Disk,
    calls: Calls,
}

impl Model for MemDevice {
    ghost use Rattle.blk_fakes.specs.Disk.{DeviceState};

    ghost Value = { DeviceState };

    ghost view = { λ d. record { disk = d.disk; calls = d.calls } };
}

impl MemDevice {
    ghost use Rattle.std.specs.Prelude.{◌≡◌, ◌+◌, ◌<◌, ◌≤◌, if◌then◌else◌, [], length, replicate, Some, None, IfOk, IfErr, OnOk, OnErr};
    ghost use Rattle.blk_base.specs.Counts.{IsFailedWrite};
    ghost use Rattle.blk_fakes.specs.Disk.{DeviceState, WriteAt, device_bytes, fresh};
    ghost use Rattle.blk_fakes.specs.Calls.{no_calls};
    ghost use Rattle.blk_fakes.specs.Shelf.{remade};

    /// A device of these bytes, flushed, whose calls of those numbers fail. All its capacity is taken now, and room for
    /// a log of so many writes, of so many bytes in all.
    pub fn new(
        alloc: Global,
        bytes: &[u8],
        capacity: u64,
        fails: &[FailAt],
        log_writes: u64,
        log_bytes: u64,
    ) -> Result<Self, NoMemory>
        requires { length bytes.now ≤ capacity }
        ensures { IfOk result
            (λ d. d ≡ record {
              disk = fresh bytes.now capacity log_writes log_bytes;
              calls = no_calls fails.now;
            }) }
    {
        let room = LogRoom {
            writes: log_writes,
            bytes: log_bytes,
        };
        Ok(MemDevice {
            disk: Disk::new(alloc, bytes, capacity, room)?,
            calls: Calls::new(alloc, fails)?,
        })
    }

    pub(crate) fn copied(&self, alloc: Global) -> Result<Self, NoMemory>
        ensures { IfOk result (λ d. d ≡ self.now) }
    {
        Ok(MemDevice {
            disk: self.disk.copied(alloc)?,
            calls: self.calls.copied(alloc)?,
        })
    }

    /// A device of so many zeros, with room for a log of 1,024 writes and 4,194,304 bytes. None of its calls fails.
    pub(crate) fn zeroed(alloc: Global, len: u64, capacity: u64) -> Result<Self, NoMemory>
        requires { len ≤ capacity }
        ensures { IfOk result
            (λ d. d ≡ record {
              disk = fresh (replicate len 0) capacity 1024 4194304;
              calls = no_calls [];
            }) }
    {
        let room = LogRoom {
            writes: 1024,
            bytes: 4_194_304,
        };
        Ok(MemDevice {
            disk: Disk::zeroed(alloc, len, capacity, room)?,
            calls: Calls::new(alloc, &[])?,
        })
    }

    /// A device of so many zeros in the place of this one: its calls go on, and its log starts again.
    pub(crate) fn remade(&self, alloc: Global, len: u64, capacity: u64) -> Result<Self, NoMemory>
        requires { len ≤ capacity }
        ensures { IfOk result (λ d. d ≡ remade self.now len capacity) }
    {
        Ok(MemDevice {
            disk: Disk::zeroed(alloc, len, capacity, self.disk.log_room())?,
            calls: self.calls.copied(alloc)?,
        })
    }

    pub fn bytes(&self) -> &[u8]
        ensures { result.now ≡ device_bytes self.now.disk }
    {
        self.disk.bytes()
    }

    /// The number of writes in the log, and none where no log is kept any more.
    pub fn logged(&self) -> Option<u64>
        ensures { result
            ≡ (if self.now.disk.log.is_kept then Some (length self.now.disk.log.writes) else None) }
    {
        self.disk.log().count()
    }

    /// Offset and bytes of a write of the log, counted from 0.
    pub fn log_at(&self, k: u64) -> (u64, &[u8])
        requires { k < length self.now.disk.log.writes }
        ensures { WriteAt self.now.disk.log.writes k result.0 result.1.now }
    {
        self.disk.log().write_at(k)
    }
}

impl Device for MemDevice {
    ghost use Rattle.std.specs.Prelude.{not, None, ◌⊎◌, ◌≡◌, ◌↔◌, ◌+◌, ◌<◌, ◌≤◌, ◌||◌, ℕ, Bool, true, false, List, length, Some, refl, option_map, is_some, is_ok, IsTrue, IfErr, OnOk, OnErr};
    ghost use Rattle.blk_base.specs.Content.{AreZeroPast, Log, after_writes, GoesOn, bytes_at, with_bytes, size_with};
    ghost use Rattle.blk_fakes.specs.Disk.{DeviceState, device_bytes, log_of, log_after, torn_at};
    ghost use Rattle.blk_base.specs.Counts.{IsFailedWrite, taken};
    ghost use Rattle.blk_fakes.specs.Calls.{fails_next, with_go, done_at, after_call, write_fails};
    ghost use Rattle.blk_fakes.specs.Laws.{size_told, log_told};

    ghost content = { λ d. Some (device_bytes d.disk) };

    ghost is_flushed = { λ d. Some d.disk.is_flushed };

    ghost log = { λ d. log_of d.disk.log };

    ghost size = { λ d. length (device_bytes d.disk) };

    ghost capacity = { λ d. d.disk.capacity };

    ghost faults = { λ d. d.calls.faults };

    ghost failed_call = { λ _. None };

    /// Fails exactly where the list says so.
    #[tactic(auto, using(blk_base::proofs::Contents::zero_past))]
    fn read_at(&mut self, off: u64, buf: &mut [u8]) -> Result<(), DevFault>
        ensures goes { is_ok result ≡ not (fails_next self.old.calls) }
        ensures read { OnOk result
            (buf.new ≡ bytes_at (device_bytes self.old.disk) off (length buf.old)) }
        ensures past { OnOk result
            (AreZeroPast (length (device_bytes self.old.disk)) off buf.new) }
        ensures after { self.new ≡ record self.old { calls = with_go self.old.calls } }
        ensures faults { self.old.calls.faults ≤ self.new.calls.faults }
    {
        if self.calls.go() {
            self.disk.read(off, buf);
            Ok(())
        } else {
            Err(DevFault::Failed)
        }
    }

    /// Fails exactly where the list says so, unless it has no bytes.
    fn write_at(&mut self, off: u64, bytes: &[u8]) -> Result<(), WriteStop>
        ensures goes { OnOk result
            ((done_at self.old.calls.made self.old.calls.fails ≡ None) ⊎ (length bytes.now ≡ 0)) }
        ensures torn { IfErr result
            (λ stop. stop.why ≡ Stop.Failed
            → option_map (torn_at off (length bytes.now))
            (done_at self.old.calls.made self.old.calls.fails) ≡ Some stop.done) }
        ensures calls { self.new.calls ≡ after_call (write_fails result) self.old.calls }
        ensures room { (self.new.disk.log_writes ≡ self.old.disk.log_writes)
            × (self.new.disk.log_bytes ≡ self.old.disk.log_bytes) }
        ensures kept { self.new.disk.log
            ≡ log_after self.old.disk.log off (taken result bytes.now) }

        // what each device promises
        ensures written { device_bytes self.new.disk
            ≡ with_bytes (device_bytes self.old.disk) off (taken result bytes.now) }
        ensures size { length (device_bytes self.new.disk)
            ≡ size_with (length (device_bytes self.old.disk)) off (taken result bytes.now) }
        ensures log { GoesOn (log_of self.old.disk.log) off (taken result bytes.now)
            (log_of self.new.disk.log) }
        ensures flushed { self.new.disk.is_flushed ≡ false }
        ensures fits { OnOk result (off + length bytes.now ≤ self.old.disk.capacity) }
        ensures no_space { IfErr result (λ stop. stop.why ≡ Stop.NoSpace →
            (self.old.disk.capacity < off + length bytes.now) × (stop.done ≡ 0)
            × (self.new.calls.faults ≡ self.old.calls.faults)) }
        ensures failed { IfErr result
            (λ stop. stop.why ≡ Stop.Failed → (off + length bytes.now ≤ self.old.disk.capacity)
            × IsFailedWrite off stop.done (length bytes.now) self.old.calls.faults
            self.new.calls.faults) }
        ensures faults { self.old.calls.faults ≤ self.new.calls.faults }
        ensures capacity { self.new.disk.capacity ≡ self.old.disk.capacity }
    {
        self.disk.set_flushed(false);
        let fails = self.calls.next();
        if !self.disk.fits(off, bytes.len()) {
            return Err(WriteStop {
                done: 0,
                why: Stop::NoSpace,
            });
        }
        match fails {
            Some(done) if !bytes.is_empty() => {
                let done = torn(off, bytes.len(), done);
                self.calls.fail();
                self.disk.write(off, &bytes[..done as usize]);
                Err(WriteStop {
                    done,
                    why: Stop::Failed,
                })
            }
            _ => {
                self.disk.write(off, bytes);
                Ok(())
            }
        }
    }

    /// Fails exactly where the list says so.
    fn flush(&mut self) -> Result<(), DevFault>
        ensures goes { is_ok result ≡ not (fails_next self.old.calls) }
        ensures after { self.new
            ≡ record {
              disk = record self.old.disk {
                is_flushed = is_ok result
                    || self.old.disk.is_flushed;
              };
              calls = with_go self.old.calls;
            } }
        ensures faults { self.old.calls.faults ≤ self.new.calls.faults }
    {
        if self.calls.go() {
            self.disk.set_flushed(true);
            Ok(())
        } else {
            Err(DevFault::Failed)
        }
    }

    fn length(&self) -> u64 {
        self.disk.bytes().len() as u64
    }

    fn capacity(&self) -> u64 {
        self.disk.capacity()
    }

    fn faults(&self) -> u64 {
        self.calls.faults()
    }

    ghost told_size = { size_told };

    ghost told_flushed = { λ d b told. refl };

    ghost told_log = { log_told };
}
