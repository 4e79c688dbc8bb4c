//! The store of a run.
ghost use Rattle.std.specs.Prelude.{◌≡◌, [], IfOk};

use crate::file::{ROOM, RunFile, device};
use blk_fakes::{FailAt, MemDevice, MemStore};
use row_text::RowStop;
use std::alloc::Global;

/// Adds a file, where none of its name is there.
#[tactic(auto, using(crate::proofs::Free::free))]
fn add(store: &mut MemStore, name: &str, dev: MemDevice) -> Result<(), RowStop>
    requires { store.old.opened ≡ [] }
    ensures { store.new.opened ≡ [] }
{
    if store.file(name).is_some() {
        return Err(RowStop::Call);
    }
    match store.add_file(name, dev) {
        Ok(()) => Ok(()),
        Err(_) => Err(RowStop::NoMemory),
    }
}

/// A store of these files, whose calls of these numbers fail. No file is out.
pub(crate) fn store_of(
    alloc: Global,
    files: &[RunFile],
    fails: &[FailAt],
) -> Result<MemStore, RowStop>
    ensures { IfOk result (λ store. store.opened ≡ []) }
{
    let mut store = MemStore::new(alloc, ROOM, fails)?;
    for file in files {
        add(&mut store, file.name.as_str(), device(alloc, file)?)?;
    }
    Ok(store)
}
