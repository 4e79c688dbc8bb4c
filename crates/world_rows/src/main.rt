//! Rows of text on single calls of a world over files in memory, where a copy stays open between calls. Plays the files that it
//! is given by name, and prints what is wrong.
#![tactic(auto)]

mod acts;
mod play;
mod stage;
mod store;

use crate::stage::Stage;
use row_text::play_files;
use std::io;

fn main(rt: HostRuntime) -> io::Result<()> {
    let mut stage = Stage::new(rt.alloc());
    let played = play_files(&rt, &mut stage);
    stage.end();
    played
}
