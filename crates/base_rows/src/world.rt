//! What rows are played on.

use crate::sets::Sets;
use crate::{pieces, runs, sets};
use blk_base::NoMemory;
use row_text::{Player, Row, RowStop, Words, named};
use std::alloc::Global;

#[derive(Drop)]
pub(crate) struct World {
    alloc: Global,
    sets: Sets,
}

#[derive(Clone, Copy)]
enum Act {
    Pieces,
    IsZero,
    Runs,
    RunsBehind,
    ReadRuns,
    Set,
    Add,
    Take,
    Merge,
}

const ACTS: [(&str, Act); 9] = [
    ("pieces", Act::Pieces),
    ("is-zero", Act::IsZero),
    ("runs", Act::Runs),
    ("runs-behind", Act::RunsBehind),
    ("read-runs", Act::ReadRuns),
    ("set", Act::Set),
    ("add", Act::Add),
    ("take", Act::Take),
    ("merge", Act::Merge),
];

impl World {
    pub fn new(alloc: Global) -> Result<Self, NoMemory> {
        Ok(World {
            alloc,
            sets: Sets::new(alloc)?,
        })
    }

    fn act(&mut self, act: Act, row: &Row, out: &mut Words) -> Result<(), RowStop> {
        let alloc = self.alloc;
        match act {
            Act::Pieces => return pieces::pieces(row, out),
            Act::IsZero => return runs::zero(alloc, row, out),
            Act::Runs => return runs::runs(alloc, row, out),
            Act::RunsBehind => return runs::behind(alloc, row, out),
            Act::ReadRuns => return runs::read_back(alloc, row, out),
            Act::Set => self.sets.begin(alloc, row)?,
            Act::Add => self.sets.mark(row, true)?,
            Act::Take => self.sets.mark(row, false)?,
            Act::Merge => self.sets.merge(row)?,
        }
        out.put("ok");
        Ok(())
    }
}

impl Player for World {
    fn answer_to(&mut self, row: &Row, out: &mut Words) -> Result<(), RowStop> {
        if let Some(act) = named(&ACTS, row.key) {
            return self.act(act, row, out);
        }
        match named(&sets::ASKS, row.key) {
            Some(ask) => self.sets.answer_to(ask, row, out),
            None => Err(RowStop::Word),
        }
    }
}
