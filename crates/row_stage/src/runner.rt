//! What carries out a run.
ghost use Rattle.std.specs.Prelude.{◌≡◌, []};

use blk_base::Text;
use blk_fakes::{MemSink, MemStore};
use row_text::Words;
use std::alloc::Global;

/// What came of a run: the number that the process ends with, the status's text, its variant with what is in it, and the files.
#[derive(Drop)]
pub struct Ran {
    pub exit: u8,
    pub text: Words,
    pub variant: Words,
    pub store: MemStore,
}

/// What carries out a run.
pub trait Runner {
    /// Does what the words say on the files of a store, of which none is out. The store is given back.
    fn run(&mut self, alloc: Global, words: &[Text], store: MemStore, out: &mut MemSink) -> Ran
        requires { store.opened ≡ [] };
}
