//! A file of the system that is open.
ghost use Rattle.std.specs.Prelude.{◌≡◌, ◌+◌, ◌<◌, ◌≤◌, ◌⊎◌, ◌%◌, length, None, Some, IfErr, OnOk};
ghost use Rattle.blk_base.specs.Content.{AreZeroPast};
ghost use Rattle.blk_base.specs.declared.device.DeviceCall.{DeviceCall};

use blk_base::{DevFault, Device, DeviceCall, Stop, WriteStop};
use std::fs::File;
use std::io;
use std::marker::Model;
use std::os::unix::fs::FileExt;

/// The highest end that a write may have.
pub(crate) const CAPACITY: u64 = 9_223_372_036_854_775_807;

/// Reads a whole buffer, with zeros where the system says that the file has ended.
fn read_full(file: &File, off: u64, buf: &mut [u8]) -> io::Result<()> {
    let mut at = 0;
    for _ in 0..u64::MAX {
        if at >= buf.len() {
            return Ok(());
        }
        let place = off.saturating_add(at as u64);
        if place >= CAPACITY {
            buf[at..].fill(0);
            return Ok(());
        }
        // the system refuses a read that ends above the capacity
        let end = at + ((buf.len() - at) as u64).min(CAPACITY - place) as usize;
        match file.read_at(&mut buf[at..end], place) {
            Ok(0) => {
                buf[at..].fill(0);
                return Ok(());
            }
            Ok(n) => at += n,
            Err(error) if error.kind() == io::ErrorKind::Interrupted => {}
            Err(error) => return Err(error),
        }
    }
    Err(io::Error::from(io::ErrorKind::TimedOut))
}

/// Reads a whole buffer, with zeros past an end: what the file has there is none of its bytes.
fn read_below(file: &File, end: u64, off: u64, buf: &mut [u8]) -> io::Result<()>
    ensures { OnOk result (AreZeroPast end off buf.new) }
{
    let within = end.saturating_sub(off).min(buf.len() as u64) as usize;
    read_full(file, off, &mut buf[..within])?;
    buf[within..].fill(0);
    Ok(())
}

/// A write that the file gave up: how many bytes were written before, and what the system said.
#[derive(Clone, Copy)]
struct Partly {
    done: usize,
    error: io::Error,
}

/// Writes all the bytes.
fn write_full(file: &File, off: u64, bytes: &[u8]) -> Result<(), Partly>
    requires { off + length bytes.now ≤ 9223372036854775807 }
    ensures { IfErr result (λ stop. stop.done < length bytes.now) }
{
    let mut done = 0;
    let mut error = io::Error::from(io::ErrorKind::TimedOut);
    'turns: for _ in 0..u64::MAX {
        if done >= bytes.len() {
            return Ok(());
        }
        match file.write_at(&bytes[done..], off + done as u64) {
            Ok(0) => {
                error = io::Error::from(io::ErrorKind::WriteZero);
                break;
            }
            Ok(n) => done += n,
            Err(stop) if stop.kind() == io::ErrorKind::Interrupted => {}
            Err(stop) => {
                error = stop;
                break;
            }
        }
    }
    if done >= bytes.len() {
        return Ok(());
    }
    Err(Partly { done, error })
}

/// How many bytes of a write that stopped are said to be done: the last of them ends at a border of a sector.
fn whole_sectors(off: u64, done: u64) -> u64
    requires { off + done ≤ 9223372036854775807 }
    ensures less { result ≤ done }
    ensures sector { (result ≡ 0) ⊎ ((off + result) % 512 ≡ 0) }
{
    let end = (off + done) / 512 * 512;
    end.saturating_sub(off)
}

/// A file that is open, its length, how often the system has failed on it, and the last time at which call and what it
/// said.
#[derive(Drop)]
pub struct FileDevice {
    file: File,
    length: u64,
    faults: u64,
    failed_call: Option<DeviceCall>,
    failure: Option<io::Error>,
}

impl Model for FileDevice {
    ghost use Rattle.blk_files.specs.Seen.{SystemFile};

    ghost Value = { SystemFile };

    ghost view = { λ d. record {
      length = d.length;
      faults = d.faults;
      failed_call = d.failed_call;
    } };
}

impl FileDevice {
    ghost use Rattle.blk_base.specs.Counts.{Rose};

    /// A file that was opened, with its length.
    pub(crate) fn new(file: File, length: u64) -> Self
        ensures { result ≡ record { length = length; faults = 0; failed_call = None } }
    {
        FileDevice {
            file,
            length,
            faults: 0,
            failed_call: None,
            failure: None,
        }
    }

    /// Counts a failure, and keeps at which call it was and what the system said.
    fn failed(&mut self, call: DeviceCall, error: io::Error)
        ensures rose { Rose self.old.faults self.new.faults }
        ensures faults { self.old.faults ≤ self.new.faults }
        ensures kept { self.new
            ≡ record self.old { faults = self.new.faults; failed_call = Some call } }
    {
        self.faults = self.faults.saturating_add(1);
        self.failed_call = Some(call);
        self.failure = Some(error);
    }

    /// Which of its calls failed last.
    pub(crate) fn failed_call(&self) -> Option<DeviceCall>
        ensures { result ≡ self.now.failed_call }
    {
        self.failed_call
    }

    /// What the system said when it failed last.
    pub fn failure(&self) -> Option<io::Error> {
        self.failure
    }
}

impl Device for FileDevice {
    ghost use Rattle.std.specs.Prelude.{None};
    ghost use Rattle.blk_files.specs.Untold.{untold};

    ghost content = { λ _. None };

    ghost is_flushed = { λ _. None };

    ghost log = { λ _. None };

    ghost size = { λ d. d.length };

    ghost capacity = { λ _. 9223372036854775807 };

    ghost faults = { λ d. d.faults };

    ghost failed_call = { λ d. d.failed_call };

    ghost told_size = { λ d b is. untold b is };

    ghost told_flushed = { λ d b is. untold b is };

    ghost told_log = { λ d b l is kept. untold b is };

    fn read_at(&mut self, off: u64, buf: &mut [u8]) -> Result<(), DevFault> {
        match read_below(&self.file, self.length, off, buf) {
            Ok(()) => Ok(()),
            Err(error) => {
                let len = buf.len() as u64;
                self.failed(DeviceCall::Read { offset: off, len }, error);
                Err(DevFault::Failed)
            }
        }
    }

    fn write_at(&mut self, off: u64, bytes: &[u8]) -> Result<(), WriteStop> {
        let len = bytes.len() as u64;
        if len > CAPACITY || off > CAPACITY - len {
            return Err(WriteStop {
                done: 0,
                why: Stop::NoSpace,
            });
        }
        let Err(stop) = write_full(&self.file, off, bytes) else {
            if len > 0 {
                self.length = self.length.max(off + len);
            }
            return Ok(());
        };
        let done = whole_sectors(off, stop.done as u64);
        if done > 0 {
            self.length = self.length.max(off + done);
        }
        self.failed(DeviceCall::Write { offset: off, len }, stop.error);
        Err(WriteStop {
            done,
            why: Stop::Failed,
        })
    }

    fn flush(&mut self) -> Result<(), DevFault> {
        match self.file.sync_data() {
            Ok(()) => Ok(()),
            Err(error) => {
                self.failed(DeviceCall::Flush, error);
                Err(DevFault::Failed)
            }
        }
    }

    fn length(&self) -> u64 {
        self.length
    }

    fn capacity(&self) -> u64 {
        CAPACITY
    }

    fn faults(&self) -> u64 {
        self.faults
    }
}
