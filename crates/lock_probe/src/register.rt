//! A register that keeps the history of its writes.
ghost use Rattle.std.specs.Prelude.{◌≡◌, ℕ, ◌<◌, ◌≤◌, [], ◌∷◌, ◌++◌, length, IfOk};
ghost use Rattle.lock_probe.specs.Face.{one_entry};
ghost use Rattle.lock_probe.specs.Replay.{actor_of, value_after};
ghost use Rattle.blk_lock.specs.Rooms.{less};

use blk_base::NoMemory;
use blk_lock::Logged;
use std::alloc::Global;
use std::marker::Model;

/// An actor wrote a value.
#[derive(Clone, Copy)]
pub struct RegisterWrite {
    pub actor: u32,
    pub value: u64,
}

/// What the register had before its history.
#[derive(Clone, Copy)]
pub struct InitialValue {
    pub value: u64,
}

/// Contracts see its value, its history, and the room for further entries.
#[derive(Drop)]
pub struct Register {
    value: u64,
    log: Vec<RegisterWrite>,
}

impl Model for Register {
    ghost use Rattle.std.specs.Prelude.{◌-◌, vec_len, vec_capacity};
    ghost use Rattle.lock_probe.specs.Face.{Face};

    ghost Value = { Face };

    ghost view = { λ r. record {
      value = r.value;
      log = r.log.items;
      spare = record { entries = vec_capacity r.log - vec_len r.log; bytes = 0 };
    } };
}

impl Logged for Register {
    type Entry = RegisterWrite;

    type Opening = InitialValue;

    ghost history = { λ r. r.log };

    ghost actor = { actor_of };

    ghost spare = { λ r. r.spare };

    ghost comes = { λ r o. r.value ≡ value_after o.value r.log };

    fn entries(&self) -> u64 {
        self.log.len() as u64
    }
}

impl Register {
    /// A register with room for so many entries.
    pub fn new(alloc: Global, value: u64, most: usize) -> Result<Register, NoMemory>
        ensures { IfOk result (λ r. (r.value ≡ value) × (r.log ≡ []) × (most ≤ r.spare.entries)) }
    {
        let log = Vec::with_capacity(alloc, most)?;
        Ok(Register { value, log })
    }

    pub fn value(&self) -> u64
        ensures { result ≡ self.now.value }
    {
        self.value
    }

    pub fn log(&self) -> &[RegisterWrite]
        ensures { result.now ≡ self.now.log }
    {
        self.log.as_slice()
    }

    /// Writes, and gives what was there.
    pub fn swap(&mut self, entry: RegisterWrite) -> u64
        requires { 0 < self.old.spare.entries }
        ensures answer { result ≡ self.old.value }
        ensures new { self.new
            ≡ record self.old {
              value = entry.value;
              log = self.old.log ++ entry ∷ [];
              spare = less self.old.spare one_entry;
            } }
    {
        let before = self.value;
        self.log.push_reserved(entry);
        self.value = entry.value;
        before
    }
}
