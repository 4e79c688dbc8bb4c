//! The program's call on files in memory.

use blk_base::Text;
use blk_fakes::{MemSink, MemStore};
use qblk_core::Status;
use qblk_run::qblk;
use row_stage::{Ran, Runner};
use row_text::Words;
use std::alloc::Global;

/// The program.
#[derive(Drop)]
pub(crate) struct Program;

/// What came of a run.
fn ran(alloc: Global, status: &Status, store: MemStore) -> Ran {
    let mut text = Words::new(alloc);
    text.show(status);
    let mut variant = Words::new(alloc);
    variant.debug(status);
    Ran {
        exit: status.exit(),
        text,
        variant,
        store,
    }
}

impl Runner for Program {
    fn run(&mut self, alloc: Global, words: &[Text], store: MemStore, out: &mut MemSink) -> Ran {
        let (status, store) = qblk(alloc, words, store, out);
        ran(alloc, &status, store)
    }
}
