//! One disk or file that is open: what is asked of it, whatever it lies on.
ghost use Rattle.std.specs.Prelude.{◌≡◌, ◌↔◌, ◌+◌, ◌<◌, ◌≤◌, ℕ, Bool, true, false, ◌||◌, List, length, Option, Some, option_map, is_some, is_ok, IsTrue, IfErr, OnOk, OnErr, IsErrAnd};
ghost use Rattle.blk_base.specs.Calls.{IsCallAfter, IsWriteAfter};
ghost use Rattle.blk_base.specs.Counts.{Rose, taken, IsFailedWrite};
ghost use Rattle.blk_base.specs.Content.{bytes_at, AreZeroPast, with_bytes, size_with, Log, after_writes, GoesOn};
ghost use Rattle.blk_base.specs.declared.device.DeviceCall.{DeviceCall};

/// A read or a flush failed.
#[derive(Clone, Copy, Debug, PartialEq, Eq)]
pub enum DevFault {
    Failed,
}

/// Why a write stopped.
#[derive(Clone, Copy, Debug, PartialEq, Eq)]
pub enum Stop {
    /// The device failed.
    Failed,
    /// The write would have ended above the capacity.
    NoSpace,
}

/// A write that was not done whole: its first `done` bytes were written.
#[derive(Clone, Copy, Debug, PartialEq, Eq)]
pub struct WriteStop {
    pub done: u64,
    pub why: Stop,
}

/// A call of a device: a read or a write with its place and how many bytes it asked for, or a flush.
#[derive(Clone, Copy, Debug, PartialEq, Eq)]
pub enum DeviceCall {
    Read { offset: u64, len: u64 },
    Write { offset: u64, len: u64 },
    Flush,
}

/// A disk or file. Offsets and lengths are in bytes. A call that doesn't fail leaves the count of faults.
pub trait Device {
    /// The bytes, where the device tells them.
    ghost content: { Self → Option (List ℕ) };

    /// Nothing was written since the last flush that was answered, where the device tells its bytes.
    ghost is_flushed: { Self → Option Bool };

    /// The writes that it keeps a list of, where it keeps one.
    ghost log: { Self → Option Log };

    /// The length.
    ghost size: { Self → ℕ };

    /// The highest end that a write may have.
    ghost capacity: { Self → ℕ };

    /// How many of its calls have failed.
    ghost faults: { Self → ℕ };

    /// Which of its calls failed last, where the device tells it.
    ghost failed_call: { Self → Option DeviceCall };

    /// Reads `buf.len()` bytes from `off` on, zeros past the end. A failed read leaves `buf` with any bytes.
    fn read_at(&mut self, off: u64, buf: &mut [u8]) -> Result<(), DevFault>
        ensures read { OnOk result
            ((b : List ℕ) → content self.old ≡ Some b → buf.new ≡ bytes_at b off (length buf.old)) }
        ensures past { OnOk result (AreZeroPast (size self.old) off buf.new) }
        ensures failed { OnErr result (Rose (faults self.old) (faults self.new)) }
        ensures quiet { OnOk result (faults self.new ≡ faults self.old) }
        ensures call { IsCallAfter result (DeviceCall.Read off (length buf.old))
            (failed_call self.old) (failed_call self.new) }
        ensures faults { faults self.old ≤ faults self.new }
        ensures content { content self.new ≡ content self.old }
        ensures flushed { is_flushed self.new ≡ is_flushed self.old }
        ensures log { log self.new ≡ log self.old }
        ensures size { size self.new ≡ size self.old }
        ensures capacity { capacity self.new ≡ capacity self.old };

    /// Writes all of `bytes` at `off`. A write within one sector of 512 bytes is whole or nothing.
    fn write_at(&mut self, off: u64, bytes: &[u8]) -> Result<(), WriteStop>
        ensures written { content self.new
            ≡ option_map (λ b. with_bytes b off (taken result bytes.now)) (content self.old) }
        ensures size { size self.new ≡ size_with (size self.old) off (taken result bytes.now) }
        ensures log { GoesOn (log self.old) off (taken result bytes.now) (log self.new) }
        ensures flushed { is_flushed self.new ≡ option_map (λ _. false) (is_flushed self.old) }

        // it is refused for want of space exactly above the capacity, and then no byte is written
        ensures fits { OnOk result (off + length bytes.now ≤ capacity self.old) }
        ensures no_space { IfErr result (λ stop. stop.why ≡ Stop.NoSpace →
            (capacity self.old < off + length bytes.now) × (stop.done ≡ 0)
            × (faults self.new ≡ faults self.old)) }
        ensures failed { IfErr result
            (λ stop. stop.why ≡ Stop.Failed → (off + length bytes.now ≤ capacity self.old)
            × IsFailedWrite off stop.done (length bytes.now) (faults self.old) (faults self.new)) }
        ensures quiet { OnOk result (faults self.new ≡ faults self.old) }
        ensures call { IsWriteAfter result (DeviceCall.Write off (length bytes.now))
            (failed_call self.old) (failed_call self.new) }
        ensures faults { faults self.old ≤ faults self.new }
        ensures capacity { capacity self.new ≡ capacity self.old };

    /// Returns once all that was written is kept.
    fn flush(&mut self) -> Result<(), DevFault>
        ensures flushed { is_flushed self.new
            ≡ option_map (λ f. is_ok result || f) (is_flushed self.old) }
        ensures failed { OnErr result (Rose (faults self.old) (faults self.new)) }
        ensures quiet { OnOk result (faults self.new ≡ faults self.old) }
        ensures call { IsCallAfter result DeviceCall.Flush (failed_call self.old)
            (failed_call self.new) }
        ensures faults { faults self.old ≤ faults self.new }
        ensures content { content self.new ≡ content self.old }
        ensures log { log self.new ≡ log self.old }
        ensures size { size self.new ≡ size self.old }
        ensures capacity { capacity self.new ≡ capacity self.old };

    fn length(&self) -> u64
        ensures { result ≡ size self.now };

    /// The highest end that a write may have. It never changes.
    fn capacity(&self) -> u64
        ensures { result ≡ capacity self.now };

    /// How many calls have failed. The count never falls; at its last value, 2^64 - 1, it stands.
    fn faults(&self) -> u64
        ensures { result ≡ faults self.now };

    /// A device that tells its bytes is as long as they are.
    ghost told_size: { (d : Self) (b : List ℕ) → content d ≡ Some b → size d ≡ length b };

    /// It then tells whether it is flushed.
    ghost told_flushed: { (d : Self) (b : List ℕ) → content d ≡ Some b
        → is_some (is_flushed d) ≡ true };

    /// The bytes are those before the first write of the list, changed by the list.
    ghost told_log: { (d : Self) (b : List ℕ) (l : Log) → content d ≡ Some b → log d ≡ Some l
        → b ≡ after_writes l.before l.writes };
}
