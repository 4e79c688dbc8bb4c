//! Rows that are played more than once.

use row_text::{Row, RowStop, Words};
use std::alloc::Global;

/// A row that is played later, with a number in the place of each `%`.
#[derive(Drop)]
pub(crate) struct Later {
    key: Words,
    words: Words,
    expected: Words,
}

/// Rows that are played for each of some numbers.
#[derive(Drop)]
pub(crate) struct Block {
    from: u64,
    step: u64,
    /// How many numbers there are.
    pub(crate) count: u64,
    pub(crate) rows: Vec<Later>,
}

/// A text with this number in the place of each `%`.
fn with(alloc: Global, text: &str, number: u64) -> Words {
    let mut words = Words::new(alloc);
    words.numbered(text, number);
    words
}

/// A copy of a text.
fn kept(alloc: Global, text: &str) -> Words {
    let mut words = Words::new(alloc);
    words.put(text);
    words
}

impl Later {
    /// A copy of a row, with this number in the place of each `%`.
    pub(crate) fn numbered(&self, alloc: Global, number: u64) -> Later {
        Later {
            key: with(alloc, self.key.as_str(), number),
            words: with(alloc, self.words.as_str(), number),
            expected: with(alloc, self.expected.as_str(), number),
        }
    }

    /// The row that it is.
    pub(crate) fn row(&self) -> Row<'_> {
        Row {
            is_wrong: false,
            key: self.key.as_str(),
            words: self.words.as_str(),
            expected: self.expected.as_str(),
        }
    }
}

impl Block {
    /// `each FROM TO STEP`: the rows up to `end` are played for FROM and each number behind it by STEP that is below TO.
    pub(crate) fn begun(alloc: Global, row: &Row) -> Result<Block, RowStop> {
        let (from, to, step) = (row.number(0)?, row.number(1)?, row.number(2)?);
        if step == 0 {
            return Err(RowStop::Number);
        }
        Ok(Block {
            from,
            step,
            count: to.saturating_sub(from).div_ceil(step),
            rows: Vec::new(alloc),
        })
    }

    /// Takes a row that is played later.
    pub(crate) fn record(&mut self, alloc: Global, row: &Row) -> Result<(), RowStop> {
        self.rows.push(Later {
            key: kept(alloc, row.key),
            words: kept(alloc, row.words),
            expected: kept(alloc, row.expected),
        })?;
        Ok(())
    }

    /// The number at a place.
    pub(crate) fn number(&self, place: u64) -> u64 {
        self.from.saturating_add(self.step.saturating_mul(place))
    }
}
