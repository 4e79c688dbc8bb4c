//! Tables that rows begin with, by the lines that made them.

use row_text::{RowStop, Words, same};
use std::alloc::Global;

/// A table as lines made it, all of which it accepted.
#[derive(Drop)]
pub(crate) struct Table {
    pub(crate) name: Words,
    /// How long the files were.
    pub(crate) length: u64,
    pub(crate) lines: Vec<Words>,
}

/// A copy of a text.
pub(crate) fn kept(alloc: Global, text: &str) -> Words {
    let mut words = Words::new(alloc);
    words.put(text);
    words
}

/// Puts copies of lines in the place of others.
pub(crate) fn copy(alloc: Global, from: &[Words], to: &mut Vec<Words>) -> Result<(), RowStop> {
    to.clear();
    for line in from {
        to.push(kept(alloc, line.as_str()))?;
    }
    Ok(())
}

/// The table of this name that was kept last.
pub(crate) fn table_of<'a>(tables: &'a [Table], name: &str) -> Result<&'a Table, RowStop> {
    let mut found = Err(RowStop::Word);
    for table in tables {
        if same(table.name.as_str(), name) {
            found = Ok(table);
        }
    }
    found
}
