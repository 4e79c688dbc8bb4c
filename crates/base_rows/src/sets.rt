//! Two dirty sets, `a` and `b`.

use blk_base::NoMemory;
use blk_bits::{DirtySet, Ratio};
use row_text::{Row, RowStop, Words};
use std::alloc::Global;

#[derive(Drop)]
pub(crate) struct Sets {
    a: DirtySet,
    b: DirtySet,
}

#[derive(Clone, Copy)]
enum Slot {
    A,
    B,
}

const SLOTS: [(&str, Slot); 2] = [("a", Slot::A), ("b", Slot::B)];

/// Adds granules to a set or takes them out.
fn mark(set: &mut DirtySet, from: u64, to: u64, is_dirty: bool) -> Result<(), RowStop> {
    if from > to || to > set.granules() {
        return Err(RowStop::Call);
    }
    if is_dirty {
        set.set_span(from, to);
    } else {
        set.clear_span(from, to);
    }
    Ok(())
}

/// Puts how many members a set has, and which.
fn put_members(set: &DirtySet, out: &mut Words) {
    out.fill("%:", &[set.count()]);
    let mut from = 0;
    for _ in 0..set.granules() {
        let Some(member) = set.next_dirty(from) else {
            return;
        };
        out.fill(" %", &[member]);
        from = member.saturating_add(1);
    }
}

/// Whether a granule is dirty.
fn is_dirty(set: &DirtySet, granule: u64) -> Result<bool, RowStop> {
    if granule >= set.granules() {
        return Err(RowStop::Call);
    }
    Ok(set.test(granule))
}

/// A word of a level.
fn word(set: &DirtySet, level: u32, place: usize) -> Option<u64> {
    set.level(level)?.get(place).copied()
}

#[derive(Clone, Copy)]
pub(crate) enum Ask {
    Members,
    Count,
    Test,
    Next,
    Word,
}

pub(crate) const ASKS: [(&str, Ask); 5] = [
    ("members", Ask::Members),
    ("count", Ask::Count),
    ("test", Ask::Test),
    ("next", Ask::Next),
    ("word", Ask::Word),
];

/// `members SET`, `count SET`, `test SET GRANULE`, `next SET FROM`, `word SET LEVEL PLACE`.
fn put_asked(set: &DirtySet, what: Ask, row: &Row, out: &mut Words) -> Result<(), RowStop> {
    match what {
        Ask::Members => put_members(set, out),
        Ask::Count => out.number(set.count()),
        Ask::Test => out.yes_or_no(is_dirty(set, row.number(1)?)?),
        Ask::Next => out.maybe(set.next_dirty(row.number(1)?)),
        Ask::Word => out.maybe(word(set, row.short(1)?, row.short(2)? as usize)),
    }
    Ok(())
}

impl Sets {
    pub fn new(alloc: Global) -> Result<Self, NoMemory> {
        Ok(Sets {
            a: DirtySet::new(alloc, 0)?,
            b: DirtySet::new(alloc, 0)?,
        })
    }

    /// `set SET GRANULES`: a set with no member.
    pub fn begin(&mut self, alloc: Global, row: &Row) -> Result<(), RowStop> {
        let set = DirtySet::new(alloc, u64::from(row.short(1)?))?;
        match row.named(0, &SLOTS)? {
            Slot::A => self.a = set,
            Slot::B => self.b = set,
        }
        Ok(())
    }

    /// `add SET FROM TO`, `take SET FROM TO`: the granules from one up to another.
    pub fn mark(&mut self, row: &Row, is_dirty: bool) -> Result<(), RowStop> {
        let (from, to) = (row.number(1)?, row.number(2)?);
        match row.named(0, &SLOTS)? {
            Slot::A => mark(&mut self.a, from, to, is_dirty),
            Slot::B => mark(&mut self.b, from, to, is_dirty),
        }
    }

    /// `merge SET MINE THEIRS`: the members of the other set into this one, by the bytes of a granule of each.
    pub fn merge(&mut self, row: &Row) -> Result<(), RowStop> {
        let ratio = Ratio {
            mine: row.number(1)?,
            theirs: row.number(2)?,
        };
        if ratio.mine == 0 {
            return Err(RowStop::Call);
        }
        match row.named(0, &SLOTS)? {
            Slot::A => self.a.merge_from(&self.b, ratio),
            Slot::B => self.b.merge_from(&self.a, ratio),
        }
        Ok(())
    }

    pub fn answer_to(&self, what: Ask, row: &Row, out: &mut Words) -> Result<(), RowStop> {
        match row.named(0, &SLOTS)? {
            Slot::A => put_asked(&self.a, what, row, out),
            Slot::B => put_asked(&self.b, what, row, out),
        }
    }
}
