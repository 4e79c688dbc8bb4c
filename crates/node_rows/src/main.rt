//! Rows of text on nodes over devices in memory: how they are added, what is read and written through them, who may use
//! them. Plays the files that it is given by name, and prints what is wrong.
#![tactic(auto)]

mod adding;
mod clusters;
mod image;
mod node;
mod pieces;
mod stack;
mod text;
mod users;
mod world;

use crate::world::World;
use row_text::play_files;
use std::io;

fn main(rt: HostRuntime) -> io::Result<()> {
    let mut world = match World::new(rt.alloc()) {
        Ok(world) => world,
        Err(_) => return println!(rt; "want of memory"),
    };
    play_files(&rt, &mut world)
}
