//! A log of writes, in room that is taken beforehand.

use crate::bytes::{append, part, with_room};
use blk_base::NoMemory;
use std::alloc::Global;
use std::marker::Model;

/// A write of the log: its bytes stand from `from` up to `to` among those of the log.
#[derive(Clone, Copy)]
pub(crate) struct Row {
    off: u64,
    from: usize,
    to: usize,
}

/// A number of writes, and of bytes in them, that a log has room for.
#[derive(Clone, Copy)]
pub(crate) struct LogRoom {
    pub writes: u64,
    pub bytes: u64,
}

/// The bytes before the first write, and the writes since. It ends with a write past its room.
#[derive(Drop)]
pub(crate) struct WriteLog {
    is_kept: bool,
    before: Vec<u8>,
    rows: Vec<Row>,
    bytes: Vec<u8>,
    left: LogRoom,
}

impl Model for WriteLog {
    ghost use Rattle.std.specs.Prelude.{◌+◌, ◌≤◌, length, map, vec_len, vec_capacity};
    ghost use Rattle.blk_fakes.specs.Disk.{LogState};

    ghost Value = { LogState };

    ghost use Rattle.blk_fakes.specs.Rows.{logged_write, AllWithin};

    ghost view = { λ l. record {
      is_kept = l.is_kept;
      before = l.before.items;
      writes = map (logged_write l.bytes.items) l.rows.items;
      writes_left = l.left.writes;
      bytes_left = l.left.bytes;
    } };

    ghost invariant = { λ l. (vec_len l.rows + l.left.writes ≤ vec_capacity l.rows)
        × (vec_len l.bytes + l.left.bytes ≤ vec_capacity l.bytes)
        × AllWithin (length l.bytes.items) l.rows.items };
}

impl WriteLog {
    ghost use Rattle.std.specs.Prelude.{◌≡◌, ◌<◌, ◌≤◌, true, if◌then◌else◌, [], length, Some, None, IsTrue, IfOk};
    ghost use Rattle.blk_base.specs.Content.{Write};
    ghost use Rattle.blk_fakes.specs.Disk.{LogState, goes_in, with_write, logged_with, WriteAt};

    /// No write yet.
    pub fn new(alloc: Global, before: &[u8], room: LogRoom) -> Result<Self, NoMemory>
        ensures { IfOk result
            (λ l. l ≡ record {
              is_kept = true;
              before = before.now;
              writes = [];
              writes_left = room.writes;
              bytes_left = room.bytes;
            }) }
    {
        Ok(WriteLog {
            is_kept: true,
            before: with_room(alloc, before, before.len() as u64)?,
            rows: rows_with_room(alloc, &[], room.writes)?,
            bytes: with_room(alloc, &[], room.bytes)?,
            left: room,
        })
    }

    pub fn copied(&self, alloc: Global) -> Result<Self, NoMemory>
        ensures { IfOk result (λ l. l ≡ self.now) }
    {
        let writes = self.rows.len() as u64 + self.left.writes;
        let bytes = self.bytes.len() as u64 + self.left.bytes;
        Ok(WriteLog {
            is_kept: self.is_kept,
            before: with_room(alloc, &self.before, self.before.len() as u64)?,
            rows: rows_with_room(alloc, &self.rows, writes)?,
            bytes: with_room(alloc, &self.bytes, bytes)?,
            left: self.left,
        })
    }

    /// The number of writes, while the log is kept.
    pub fn count(&self) -> Option<u64>
        ensures { result ≡ (if self.now.is_kept then Some (length self.now.writes) else None) }
    {
        if self.is_kept {
            Some(self.rows.len() as u64)
        } else {
            None
        }
    }

    /// Offset and bytes of a write, counted from 0.
    pub fn write_at(&self, k: u64) -> (u64, &[u8])
        requires { k < length self.now.writes }
        ensures { WriteAt self.now.writes k result.0 result.1.now }
    {
        let row = self.rows[k as usize];
        (row.off, part(&self.bytes, row.from, row.to))
    }

    /// Whether a write of so many bytes goes in.
    fn has_room(&self, len: usize) -> bool
        ensures { result ≡ goes_in self.now len }
    {
        self.is_kept && 0 < self.left.writes && len as u64 <= self.left.bytes
    }

    /// Adds a write that goes in. Takes no memory.
    fn add(&mut self, off: u64, written: &[u8])
        requires { IsTrue (goes_in self.old (length written.now)) }
        ensures { self.new ≡ with_write self.old off written.now }
    {
        let from = self.bytes.len();
        append(&mut self.bytes, written);
        let to = self.bytes.len();
        self.rows.push_reserved(Row { off, from, to });
        self.left = LogRoom {
            writes: self.left.writes - 1,
            bytes: self.left.bytes - written.len() as u64,
        };
    }

    /// Adds a write. Takes no memory.
    pub fn push(&mut self, off: u64, written: &[u8])
        ensures { self.new ≡ logged_with self.old off written.now }
    {
        if self.has_room(written.len()) {
            self.add(off, written);
        } else {
            self.is_kept = false;
        }
    }
}

ghost use Rattle.std.specs.Prelude.{◌≡◌, ◌≤◌, length, vec_capacity, IfOk};

/// A vector of these rows, with room for so many in all.
fn rows_with_room(alloc: Global, rows: &[Row], room: u64) -> Result<Vec<Row>, NoMemory>
    requires { length rows.now ≤ room }
    ensures rows { IfOk result (λ v. v.items ≡ rows.now) }
    ensures room { IfOk result (λ v. room ≤ vec_capacity v) }
{
    let mut all = Vec::with_capacity(alloc, room as usize)?;
    all.extend_from_slice(rows).unwrap();
    Ok(all)
}
