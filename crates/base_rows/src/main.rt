//! Rows of text on the crates at the bottom: spans and their pieces, runs of equal bytes, dirty sets. Plays the files that it is
//! given by name, and prints what is wrong.
#![tactic(auto)]

mod pieces;
mod runs;
mod sets;
mod world;

use crate::world::World;
use row_text::play_files;
use std::io;

fn main(rt: HostRuntime) -> io::Result<()> {
    let mut world = match World::new(rt.alloc()) {
        Ok(world) => world,
        Err(_) => return println!(rt; "want of memory"),
    };
    play_files(&rt, &mut world)
}
