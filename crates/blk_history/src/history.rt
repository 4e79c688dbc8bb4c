//! The history of a run: a list that only grows.

use crate::entry::{push_bytes, push_entry};
use crate::line::write_line;
use crate::{Entry, Rows};
use blk_base::{NoMemory, Room, Span, Text};
use std::alloc::Global;
use std::marker::Model;
use trace_codec::Op;

/// Entries, and the bytes that reads gave. Room for both is taken beforehand, so that adding takes no memory.
#[derive(Drop)]
pub struct History {
    entries: Vec<Entry>,
    bytes: Vec<u8>,
    room: Room,
}

impl Model for History {
    ghost use Rattle.std.specs.Prelude.{◌+◌, ◌≤◌, length, map, vec_len, vec_capacity};
    ghost use Rattle.blk_history.specs.Recorded.{Recorded, event_of, AllPointWithin};

    ghost Value = { Recorded };

    ghost view = { λ h. record {
      events = map (event_of h.bytes.items) h.entries.items;
      bytes = h.bytes.items;
      room = h.room.entries;
      byte_room = h.room.bytes;
    } };

    ghost invariant = { λ h. (vec_len h.entries + h.room.entries ≤ vec_capacity h.entries)
        × (vec_len h.bytes + h.room.bytes ≤ vec_capacity h.bytes)
        × AllPointWithin (length h.bytes.items) h.entries.items };
}

impl History {
    ghost use Rattle.std.specs.Prelude.{◌≡◌, ◌+◌, ◌-◌, ◌<◌, ◌≤◌, max, [], ◌∷◌, ◌++◌, length, option_copied, option_map, IfOk, IsOk, OnOk, OnErr};
    ghost use Rattle.blk_history.specs.Recorded.{Recorded, event_of, PointsWithin};
    ghost use Rattle.blk_history.specs.Transcript.{entry_line};
    ghost use Rattle.blk_history.specs.Line.{admitted_by, reply_by, At, IsActorNamed, line_room, Appends};

    /// No entry yet, and room for so many entries and bytes.
    pub fn with_room(alloc: Global, room: Room) -> Result<Self, NoMemory>
        ensures { IfOk result
            (λ h. h ≡ record {
              events = [];
              bytes = [];
              room = room.entries;
              byte_room = room.bytes;
            }) }
    {
        let entries = Vec::with_capacity(alloc, room.entries as usize)?;
        let bytes = Vec::with_capacity(alloc, room.bytes as usize)?;
        Ok(History {
            entries,
            bytes,
            room,
        })
    }

    /// Makes room for so many more entries and bytes, where there is less. A refusal leaves the history as it was.
    pub fn reserve(&mut self, room: Room) -> Result<(), NoMemory>
        ensures ok { OnOk result
            (self.new ≡ record self.old {
              room = max self.old.room room.entries;
              byte_room = max self.old.byte_room room.bytes;
            }) }
        ensures err { OnErr result (self.new ≡ self.old) }
    {
        self.entries.reserve(room.entries as usize)?;
        self.bytes.reserve(room.bytes as usize)?;
        self.room = Room {
            entries: self.room.entries.max(room.entries),
            bytes: self.room.bytes.max(room.bytes),
        };
        Ok(())
    }

    /// Adds an entry at the end. Takes no memory.
    pub fn push(&mut self, entry: Entry)
        requires room { 0 < self.old.room }
        requires within { PointsWithin (length self.old.bytes) entry }
        ensures { self.new
            ≡ record self.old {
              events = self.old.events ++ event_of self.old.bytes entry ∷ [];
              room = self.old.room - 1;
            } }
    {
        push_entry(&mut self.entries, entry);
        self.room.entries -= 1;
    }

    /// Keeps bytes that a read gave, and says where they stand. Takes no memory.
    pub fn push_read(&mut self, bytes: &[u8]) -> Span
        requires room { length bytes.now ≤ self.old.byte_room }
        ensures place { result ≡ record { start = length self.old.bytes; len = length bytes.now } }
        ensures kept { self.new
            ≡ record self.old {
              bytes = self.old.bytes ++ bytes.now;
              byte_room = self.old.byte_room - length bytes.now;
            } }
    {
        let start = self.bytes.len() as u64;
        push_bytes(&mut self.bytes, bytes);
        let len = bytes.len() as u64;
        self.room.bytes -= len;
        Span { start, len }
    }

    /// The number of entries.
    pub fn len(&self) -> u64
        ensures { result ≡ length self.now.events }
    {
        self.entries.len() as u64
    }

    /// The request that the entry at a place admits, where it admits one.
    pub fn admitted_at(&self, at: u64) -> Option<&Op>
        requires { at < length self.now.events }
        ensures { At self.now.events at (λ e. option_copied result ≡ admitted_by e) }
    {
        match &self.entries[at as usize] {
            Entry::Admit { op, .. } => Some(op.op()),
            _ => None,
        }
    }

    /// The text of the reply at a place, where the entry is one.
    pub fn reply_at(&self, at: u64) -> Option<&str>
        requires { at < length self.now.events }
        ensures { At self.now.events at (λ e. option_map (λ t. t.now) result ≡ reply_by e) }
    {
        match &self.entries[at as usize] {
            Entry::Reply { text, .. } => Some(text.as_str()),
            _ => None,
        }
    }

    /// Puts the transcript's line of the entry at a place behind what `out` holds. It can't be refused where `out` has
    /// the line's room to spare; after a refusal `out` is as before.
    pub fn line(&self, at: u64, names: &Rows, out: &mut Text) -> Result<(), NoMemory>
        requires within { at < length self.now.events }
        requires named { At self.now.events at (IsActorNamed names.now) }
        ensures ok { At self.now.events at
            (λ e. OnOk result
            (Appends out.old out.new (entry_line names.now e) (line_room names.now e))) }
        ensures err { OnErr result (out.new ≡ out.old) }
        ensures room { At self.now.events at
            (λ e. line_room names.now e ≤ out.old.spare → IsOk result) }
    {
        write_line(out, &self.entries[at as usize], &self.bytes, names)
    }
}
