//! Rows of text on the lines of traces and of the machine protocol: plays the files that it is given by name, and prints what
//! is wrong.
#![tactic(auto)]

mod commands;
mod player;
mod printed;
mod shown;
mod traces;

use crate::player::Codec;
use row_text::play_files;
use std::io;

fn main(rt: HostRuntime) -> io::Result<()> {
    let mut codec = Codec::new(rt.alloc());
    play_files(&rt, &mut codec)
}
