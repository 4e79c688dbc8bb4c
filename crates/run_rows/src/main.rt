//! Rows of text on runs of the program, on files in memory: plays the files that it is given by name, and prints what is
//! wrong.
#![tactic(auto)]

mod program;

use crate::program::Program;
use row_stage::Stage;
use row_text::play_files;
use std::io;

fn main(rt: HostRuntime) -> io::Result<()> {
    let mut stage = Stage::new(rt.alloc(), Program);
    play_files(&rt, &mut stage)
}
