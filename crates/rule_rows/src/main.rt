//! Rows of text on the rules of commands, by lines that a table judges one behind the other: plays the files that it is
//! given by name, and prints what is wrong.
#![tactic(auto)]

mod ends;
mod files;
mod judged;
mod player;
mod table;

use crate::player::Judge;
use row_text::play_files;
use std::io;

fn main(rt: HostRuntime) -> io::Result<()> {
    let mut judge = match Judge::new(rt.alloc()) {
        Ok(judge) => judge,
        Err(_) => return println!(rt; "want of memory"),
    };
    play_files(&rt, &mut judge)
}
