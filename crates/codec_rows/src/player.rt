//! What rows are played on.

use crate::traces::TraceText;
use crate::{commands, printed, traces};
use row_text::{Player, Row, RowStop, Words, named};
use std::alloc::Global;

/// The text of a trace that rows make, and what traces ask so far.
#[derive(Drop)]
pub(crate) struct Codec {
    alloc: Global,
    text: TraceText,
}

impl Codec {
    pub fn new(alloc: Global) -> Self {
        Codec {
            alloc,
            text: TraceText::new(alloc),
        }
    }
}

impl Player for Codec {
    fn answer_to(&mut self, row: &Row, out: &mut Words) -> Result<(), RowStop> {
        if let Some(part) = named(&traces::PARTS, row.key) {
            return self.text.answer_to(self.alloc, part, row, out);
        }
        if let Some(ask) = named(&traces::ASKS, row.key) {
            return traces::answer_to(self.alloc, ask, row, out);
        }
        if let Some(print) = named(&printed::PRINTS, row.key) {
            return printed::answer_to(self.alloc, print, row, out);
        }
        if let Some(ask) = named(&commands::ASKS, row.key) {
            return commands::answer_to(self.alloc, ask, row, out);
        }
        commands::command(self.alloc, row, out);
        Ok(())
    }
}
