//! The lock.
ghost use Rattle.std.specs.Prelude.{◌≡◌};

mod ends;
mod passes;
mod taking;

use crate::birth::Named;
use crate::known::Known;
use crate::logged::Logged;
use crate::order::InTurn;
use atomic_table::Table;
use std::alloc::Global;
use std::snapshot::Snapshot;

/// A ticket lock whose passes know the history of the value under it.
/// Word 0 counts the tickets drawn, word 1 those served, and word 2 the entries of the history. The slot has the value.
#[derive(Drop)]
pub struct Turns<W: Logged> {
    table: Table<
        Option<W>,
        Known<W::Entry, W::Opening>,
        (Snapshot<W>, Named<W::Opening>),
        InTurn<W>,
        Global,
    >,
    ghost words: { table.shared.table_id.words ≡ 3 },
    ghost slots: { table.shared.table_id.slots ≡ 1 },
}

/// The value under the lock, while one pass has it out.
///
/// It has to be given back by `put`: it cannot be let go, nor taken apart elsewhere.
pub struct Turn<W> {
    pub world: W,
    owed: Owed,
}

/// It is not `Drop`, so what holds it has to be given back.
struct Owed;
