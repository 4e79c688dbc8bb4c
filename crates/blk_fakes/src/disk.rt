//! Bytes in memory, with a log of the writes to them: what a device is without its faults.

use crate::bytes::{copy_out, fits, overwrite, with_room, zeros_with_room};
use crate::log::{LogRoom, WriteLog};
use blk_base::NoMemory;
use std::alloc::Global;
use std::marker::Model;

/// Bytes, and the log of the writes to them. The whole capacity is taken when it is made.
#[derive(Drop)]
pub(crate) struct Disk {
    bytes: Vec<u8>,
    log: WriteLog,
    log_room: LogRoom,
    capacity: u64,
    is_flushed: bool,
}

impl Model for Disk {
    ghost use Rattle.std.specs.Prelude.{◌≡◌, ◌≤◌, length, vec_len, vec_capacity};
    ghost use Rattle.blk_fakes.specs.Disk.{DiskState, told_by};

    ghost Value = { DiskState };

    ghost view = { λ d. record {
      bytes = d.bytes.items;
      log = d.log;
      log_writes = d.log_room.writes;
      log_bytes = d.log_room.bytes;
      capacity = d.capacity;
      is_flushed = d.is_flushed;
    } };

    ghost invariant = { λ d. (told_by d.bytes.items d.log ≡ d.bytes.items)
        × (vec_len d.bytes ≤ d.capacity)
        × (d.capacity ≤ vec_capacity d.bytes) };
}

impl Disk {
    ghost use Rattle.std.specs.Prelude.{◌≡◌, ◌↔◌, ◌+◌, ◌^◌, ◌<◌, ◌≤◌, true, false, [], length, replicate, Some, None, IsTrue, IfOk, OnOk, OnErr};
    ghost use Rattle.blk_base.specs.Content.{Write, bytes_at, with_bytes, size_with, GoesOn};
    ghost use Rattle.blk_fakes.specs.Disk.{DiskState, LogState, WriteAt, device_bytes, log_of, log_after, fresh};

    /// These bytes, flushed, and an empty log.
    pub fn new(
        alloc: Global,
        bytes: &[u8],
        capacity: u64,
        log_room: LogRoom,
    ) -> Result<Self, NoMemory>
        requires { length bytes.now ≤ capacity }
        ensures { IfOk result (λ d. d ≡ fresh bytes.now capacity log_room.writes log_room.bytes) }
    {
        Ok(Disk {
            bytes: with_room(alloc, bytes, capacity)?,
            log: WriteLog::new(alloc, bytes, log_room)?,
            log_room,
            capacity,
            is_flushed: true,
        })
    }

    /// So many zeros, flushed, and an empty log.
    pub fn zeroed(
        alloc: Global,
        len: u64,
        capacity: u64,
        log_room: LogRoom,
    ) -> Result<Self, NoMemory>
        requires { len ≤ capacity }
        ensures { IfOk result
            (λ d. d ≡ fresh (replicate len 0) capacity log_room.writes log_room.bytes) }
    {
        let bytes = zeros_with_room(alloc, len, capacity)?;
        let log = WriteLog::new(alloc, &bytes, log_room)?;
        Ok(Disk {
            bytes,
            log,
            log_room,
            capacity,
            is_flushed: true,
        })
    }

    pub fn copied(&self, alloc: Global) -> Result<Self, NoMemory>
        ensures { IfOk result (λ d. d ≡ self.now) }
    {
        Ok(Disk {
            bytes: with_room(alloc, &self.bytes, self.capacity)?,
            log: self.log.copied(alloc)?,
            log_room: self.log_room,
            capacity: self.capacity,
            is_flushed: self.is_flushed,
        })
    }

    pub fn bytes(&self) -> &[u8]
        ensures stored { result.now ≡ self.now.bytes }
        ensures told { result.now ≡ device_bytes self.now }
    {
        self.bytes.as_slice()
    }

    pub fn capacity(&self) -> u64
        ensures { result ≡ self.now.capacity }
    {
        self.capacity
    }

    pub fn is_flushed(&self) -> bool
        ensures { result ≡ self.now.is_flushed }
    {
        self.is_flushed
    }

    pub fn log(&self) -> &WriteLog
        ensures { result.now ≡ self.now.log }
    {
        &self.log
    }

    pub fn log_room(&self) -> LogRoom
        ensures { result ≡ record { writes = self.now.log_writes; bytes = self.now.log_bytes } }
    {
        self.log_room
    }

    /// Whether so many bytes at an offset end within the capacity.
    pub fn fits(&self, off: u64, len: usize) -> bool
        ensures fits { IsTrue result ↔ (off + len ≤ self.now.capacity) }
        ensures range { IsTrue result → off + len < 2 ^ 64 }
    {
        fits(off, len, self.capacity)
    }

    /// Reads the bytes from an offset on, zeros past the end.
    pub fn read(&self, off: u64, buf: &mut [u8])
        ensures { buf.new ≡ bytes_at (device_bytes self.now) off (length buf.old) }
    {
        copy_out(self.bytes.as_slice(), off, buf);
    }

    pub fn set_flushed(&mut self, is_flushed: bool)
        ensures { self.new ≡ record self.old { is_flushed = is_flushed } }
    {
        self.is_flushed = is_flushed;
    }

    /// Writes all of the bytes. Takes no memory.
    pub fn write(&mut self, off: u64, written: &[u8])
        requires { off + length written.now ≤ self.old.capacity }
        ensures told { device_bytes self.new ≡ with_bytes (device_bytes self.old) off written.now }
        ensures size { length (device_bytes self.new)
            ≡ size_with (length (device_bytes self.old)) off written.now }
        ensures kept { self.new.log ≡ log_after self.old.log off written.now }
        ensures log { GoesOn (log_of self.old.log) off written.now (log_of self.new.log) }
        ensures room { (self.new.log_writes ≡ self.old.log_writes)
            × (self.new.log_bytes ≡ self.old.log_bytes) }
        ensures capacity { self.new.capacity ≡ self.old.capacity }
        ensures flushed { self.new.is_flushed ≡ self.old.is_flushed }
    {
        if written.is_empty() {
            return;
        }
        overwrite(&mut self.bytes, off, written);
        self.log.push(off, written);
    }
}
