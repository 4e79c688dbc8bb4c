//! A device in memory that never fails.

use crate::MemDevice;
use blk_base::{DevFault, Device, NoMemory, WriteStop};
use std::alloc::Global;
use std::marker::Model;

/// A device in memory whose count of faults is the constant 0. All that it refuses is a write past its capacity.
#[derive(Drop)]
pub struct SureDevice {
    dev: MemDevice,
}

impl Model for SureDevice {
    ghost use Rattle.blk_fakes.specs.Calls.{NeverFails};
    ghost use Rattle.blk_fakes.specs.Disk.{DeviceState};

    ghost Value = { DeviceState };

    ghost view = { λ d. d.dev };

    ghost invariant = { λ d. NeverFails d.dev.calls };
}

impl SureDevice {
    ghost use Rattle.std.specs.Prelude.{◌≡◌, ◌<◌, ◌≤◌, if◌then◌else◌, [], length, Some, None, IfOk};
    ghost use Rattle.blk_fakes.specs.Calls.{NeverFails, no_calls};
    ghost use Rattle.blk_fakes.specs.Disk.{DeviceState, WriteAt, device_bytes, fresh};

    /// A device of these bytes, flushed. All its capacity is taken now, and room for a log of so many writes, of so
    /// many bytes in all.
    pub fn new(
        alloc: Global,
        bytes: &[u8],
        capacity: u64,
        log_writes: u64,
        log_bytes: u64,
    ) -> Result<Self, NoMemory>
        requires { length bytes.now ≤ capacity }
        ensures { IfOk result
            (λ d. d ≡ record {
              disk = fresh bytes.now capacity log_writes log_bytes;
              calls = no_calls [];
            }) }
    {
        let dev = MemDevice::new(alloc, bytes, capacity, &[], log_writes, log_bytes)?;
        Ok(SureDevice { dev })
    }

    /// A device that has not failed and has no call that is to.
    pub(crate) fn of(dev: MemDevice) -> Self
        requires { NeverFails dev.calls }
        ensures { result ≡ dev }
    {
        SureDevice { dev }
    }

    pub(crate) fn into_device(self) -> MemDevice
        ensures device { result ≡ self }
        ensures sure { NeverFails self.calls }
    {
        self.dev
    }

    pub fn bytes(&self) -> &[u8]
        ensures { result.now ≡ device_bytes self.now.disk }
    {
        self.dev.bytes()
    }

    /// The number of writes in the log, and none where no log is kept any more.
    pub fn logged(&self) -> Option<u64>
        ensures { result
            ≡ (if self.now.disk.log.is_kept then Some (length self.now.disk.log.writes) else None) }
    {
        self.dev.logged()
    }

    /// Offset and bytes of a write of the log, counted from 0.
    pub fn log_at(&self, k: u64) -> (u64, &[u8])
        requires { k < length self.now.disk.log.writes }
        ensures { WriteAt self.now.disk.log.writes k result.0 result.1.now }
    {
        self.dev.log_at(k)
    }
}

impl Device for SureDevice {
    ghost use Rattle.std.specs.Prelude.{◌≡◌, ◌↔◌, ◌+◌, ◌<◌, ◌≤◌, true, false, length, None, Some, refl, IsOk, IfErr, OnOk};
    ghost use Rattle.blk_base.specs.Content.{AreZeroPast, GoesOn, bytes_at, with_bytes, size_with};
    ghost use Rattle.blk_base.specs.Counts.{taken};
    ghost use Rattle.blk_base.specs.declared.device.Stop.TheVariants.{NoSpace};
    ghost use Rattle.blk_fakes.specs.Disk.{DeviceState, device_bytes, log_of, log_after};
    ghost use Rattle.blk_fakes.specs.Laws.{size_told, log_told};

    ghost content = { λ d. Some (device_bytes d.disk) };

    ghost is_flushed = { λ d. Some d.disk.is_flushed };

    ghost log = { λ d. log_of d.disk.log };

    ghost size = { λ d. length (device_bytes d.disk) };

    ghost capacity = { λ d. d.disk.capacity };

    ghost faults = { λ d. 0 };

    ghost failed_call = { λ _. None };

    /// Never fails.
    #[tactic(auto, using(crate::proofs::Sure::next_goes, crate::proofs::Sure::sure_after, blk_base::proofs::Contents::zero_past))]
    fn read_at(&mut self, off: u64, buf: &mut [u8]) -> Result<(), DevFault>
        ensures ok { IsOk result }
        ensures read { buf.new ≡ bytes_at (device_bytes self.old.disk) off (length buf.old) }
        ensures past { AreZeroPast (length (device_bytes self.old.disk)) off buf.new }
        ensures disk { self.new.disk ≡ self.old.disk }
    {
        self.dev.read_at(off, buf)
    }

    /// Refuses only what would end above the capacity.
    #[tactic(auto, using(crate::proofs::Sure::next_goes, crate::proofs::Sure::sure_after))]
    fn write_at(&mut self, off: u64, bytes: &[u8]) -> Result<(), WriteStop>
        ensures ok { IsOk result ↔ (off + length bytes.now ≤ self.old.disk.capacity) }
        ensures stop { IfErr result (λ stop. (stop.why ≡ NoSpace) × (stop.done ≡ 0)) }
        ensures kept { self.new.disk.log
            ≡ log_after self.old.disk.log off (taken result bytes.now) }
        ensures room { (self.new.disk.log_writes ≡ self.old.disk.log_writes)
            × (self.new.disk.log_bytes ≡ self.old.disk.log_bytes) }

        // what each device promises
        ensures written { device_bytes self.new.disk
            ≡ with_bytes (device_bytes self.old.disk) off (taken result bytes.now) }
        ensures size { length (device_bytes self.new.disk)
            ≡ size_with (length (device_bytes self.old.disk)) off (taken result bytes.now) }
        ensures log { GoesOn (log_of self.old.disk.log) off (taken result bytes.now)
            (log_of self.new.disk.log) }
        ensures flushed { self.new.disk.is_flushed ≡ false }
        ensures capacity { self.new.disk.capacity ≡ self.old.disk.capacity }
    {
        self.dev.write_at(off, bytes)
    }

    /// Never fails.
    #[tactic(auto, using(crate::proofs::Sure::next_goes, crate::proofs::Sure::sure_after))]
    fn flush(&mut self) -> Result<(), DevFault>
        ensures ok { IsOk result }
        ensures disk { self.new.disk ≡ record self.old.disk { is_flushed = true } }
    {
        self.dev.flush()
    }

    fn length(&self) -> u64 {
        self.dev.length()
    }

    fn capacity(&self) -> u64 {
        self.dev.capacity()
    }

    /// None of its calls has failed.
    fn faults(&self) -> u64
        ensures { result ≡ 0 }
    {
        0
    }

    ghost told_size = { size_told };

    ghost told_flushed = { λ d b told. refl };

    ghost told_log = { log_told };
}
