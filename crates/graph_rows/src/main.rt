//! Rows of text on the graph of nodes, on what edges ask and share, and on dirty bitmaps: plays the files that it is
//! given by name, and prints what is wrong.
#![tactic(auto)]

mod bitmaps;
mod draft;
mod edits;
mod graph;
mod row;
mod table;
mod words;
mod world;

use crate::world::World;
use row_text::play_files;
use std::io;

fn main(rt: HostRuntime) -> io::Result<()> {
    let mut world = match World::new(rt.alloc()) {
        Ok(world) => world,
        Err(_) => return println!(rt; "want of memory"),
    };
    play_files(&rt, &mut world)
}
