//! What rows are played on.
ghost use Rattle.std.specs.Prelude.{◌≡◌, [], IfOk};

use crate::acts::{ACTS, answer_to};
use crate::play::Play;
use crate::store::UntoldStore;
use blk_copy::Transfer;
use blk_fakes::FailAt;
use row_text::{Player, Row, RowStop, Words, named};
use std::alloc::Global;

/// A file: its name, its bytes, and its calls that fail.
#[derive(Drop)]
pub(crate) struct RowFile {
    pub name: String,
    pub bytes: Vec<u8>,
    pub fails: Vec<FailAt>,
}

/// A copy of a block that was read, by its name.
#[derive(Drop)]
pub(crate) struct Copied {
    pub name: String,
    pub transfer: Transfer,
    pub bytes: Vec<u8>,
}

/// The files of the next world, the world, what the last one left, and the copies that are open.
pub(crate) struct Stage {
    pub alloc: Global,
    pub files: Vec<RowFile>,
    pub play: Option<Play>,
    pub left: Option<UntoldStore>,
    pub copies: Vec<Copied>,
    pub lines: u32,
}

/// A store of these files, of which none is out.
fn store_of(alloc: Global, files: &[RowFile]) -> Result<UntoldStore, RowStop>
    ensures { IfOk result (λ store. store.opened ≡ []) }
{
    let mut store = UntoldStore::new(alloc)?;
    for file in files {
        let bytes = file.bytes.as_slice();
        store.add(alloc, file.name.as_str(), bytes, file.fails.as_slice())?;
    }
    Ok(store)
}

impl Stage {
    pub fn new(alloc: Global) -> Self {
        Stage {
            alloc,
            files: Vec::new(alloc),
            play: None,
            left: None,
            copies: Vec::new(alloc),
            lines: 0,
        }
    }

    /// Ends the world, where there is one.
    pub fn close(&mut self) {
        if let Some(play) = self.play.take() {
            self.left = Some(play.end());
        }
        self.copies.clear();
    }

    /// A world over these files.
    pub fn begin(&mut self) -> Result<(), RowStop> {
        self.close();
        let store = store_of(self.alloc, self.files.as_slice())?;
        let play = Play::new(self.alloc, store)?;
        if let Some(old) = self.play.replace(play) {
            let _ = old.end();
        }
        Ok(())
    }

    /// All is over.
    pub fn end(self) {
        let Stage {
            alloc: _,
            files: _,
            play,
            left: _,
            copies: _,
            lines: _,
        } = self;
        if let Some(play) = play {
            let _ = play.end();
        }
    }
}

impl Player for Stage {
    fn answer_to(&mut self, row: &Row, out: &mut Words) -> Result<(), RowStop> {
        answer_to(self, named(&ACTS, row.key), row, out)
    }
}
