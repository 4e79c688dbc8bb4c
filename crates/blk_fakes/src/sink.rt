//! A sink in memory.

use crate::FailAt;
use crate::bytes::{append, with_room};
use crate::calls::Calls;
use blk_base::{NoMemory, Sink, SinkFault};
use std::alloc::Global;
use std::marker::Model;

/// A sink in memory. Its puts are the calls that may fail.
#[derive(Drop)]
pub struct MemSink {
    bytes: Vec<u8>,
    room: u64,
    calls: Calls,
}

impl Model for MemSink {
    ghost use Rattle.std.specs.Prelude.{◌≤◌, vec_len, vec_capacity};
    ghost use Rattle.blk_fakes.specs.Sunk.{SinkState};

    ghost Value = { SinkState };

    ghost view = { λ s. record { sent = s.bytes.items; room = s.room; calls = s.calls } };

    ghost invariant = { λ s. (vec_len s.bytes ≤ s.room) × (s.room ≤ vec_capacity s.bytes) };
}

impl MemSink {
    ghost use Rattle.std.specs.Prelude.{◌≡◌, [], IfOk};
    ghost use Rattle.blk_fakes.specs.Sunk.{SinkState};
    ghost use Rattle.blk_fakes.specs.Calls.{no_calls};

    /// A sink with room for so many bytes in all, which is taken now, and whose puts of those numbers fail.
    pub fn new(alloc: Global, room: u64, fails: &[FailAt]) -> Result<Self, NoMemory>
        ensures { IfOk result
            (λ s. s ≡ record { sent = []; room = room; calls = no_calls fails.now }) }
    {
        Ok(MemSink {
            bytes: with_room(alloc, &[], room)?,
            room,
            calls: Calls::new(alloc, fails)?,
        })
    }

    /// What went out.
    pub fn bytes(&self) -> &[u8]
        ensures { result.now ≡ self.now.sent }
    {
        self.bytes.as_slice()
    }
}

impl Sink for MemSink {
    ghost use Rattle.std.specs.Prelude.{◌≡◌, ◌⊎◌, ◌<◌, ◌≤◌, ◌++◌, length, take, Some, None, IsTrue, OnOk, OnErr, not, is_ok};
    ghost use Rattle.blk_base.specs.Counts.{Rose};
    ghost use Rattle.blk_fakes.specs.Calls.{done_at, fails_next, after_call};
    ghost use Rattle.blk_fakes.specs.Sunk.{SinkState, fitting, sent_at};

    ghost sent = { λ s. Some s.sent };

    ghost faults = { λ s. s.calls.faults };

    /// Fails exactly where the list says so or the bytes don't fit.
    fn put(&mut self, bytes: &[u8]) -> Result<(), SinkFault>
        ensures goes { OnOk result
            ((done_at self.old.calls.made self.old.calls.fails ≡ None)
            × (length bytes.now ≤ fitting self.old (length bytes.now))) }
        ensures sent { OnOk result (self.new.sent ≡ self.old.sent ++ bytes.now) }
        ensures partly { OnErr result
            (self.new.sent ≡ self.old.sent
            ++ take (sent_at self.old (length bytes.now)) bytes.now) }
        ensures cause { OnErr result
            (IsTrue (fails_next self.old.calls)
            ⊎ (fitting self.old (length bytes.now) < length bytes.now)) }
        ensures calls { self.new.calls ≡ after_call (not (is_ok result)) self.old.calls }
        ensures room { self.new.room ≡ self.old.room }
        ensures failed { OnErr result (Rose self.old.calls.faults self.new.calls.faults) }
        ensures faults { self.old.calls.faults ≤ self.new.calls.faults }
    {
        let left = (self.room - self.bytes.len() as u64).min(bytes.len() as u64);
        let done = match self.calls.next() {
            Some(done) => Some(done.min(left)),
            None if left < bytes.len() as u64 => Some(left),
            None => None,
        };
        match done {
            Some(done) => {
                append(&mut self.bytes, &bytes[..done as usize]);
                self.calls.fail();
                Err(SinkFault::Failed)
            }
            None => {
                append(&mut self.bytes, bytes);
                Ok(())
            }
        }
    }

    fn faults(&self) -> u64 {
        self.calls.faults()
    }
}
