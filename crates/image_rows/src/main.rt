//! Rows of text on qcow2 images over devices in memory: headers and entries, tables, images that are created, opened, written
//! and named. Plays the files that it is given by name, and prints what is wrong.
#![tactic(auto)]

mod calls;
mod creating;
mod device;
mod entries;
mod header;
mod layout;
mod looks;
mod opened;
mod reads;
mod tables;
mod text;
mod world;

use crate::world::World;
use row_text::play_files;
use std::io;

fn main(rt: HostRuntime) -> io::Result<()> {
    let mut world = match World::new(rt.alloc()) {
        Ok(world) => world,
        Err(_) => return println!(rt; "want of memory"),
    };
    play_files(&rt, &mut world)
}
