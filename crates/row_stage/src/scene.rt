//! What is there before a run, what has to come of it, and what came.

use crate::asked::left;
use crate::file::{RunFile, append, copied, empty, file_of, set};
use crate::runner::Ran;
use crate::script::{line_count, put_reply};
use blk_fakes::FailAt;
use row_text::{Row, RowStop, Words};
use std::alloc::Global;

/// A run's files and failing calls, its transcript as it has to be, and the last run.
#[derive(Drop)]
pub(crate) struct Scene {
    pub(crate) alloc: Global,
    pub(crate) files: Vec<RunFile>,
    /// Byte strings that rows keep by name.
    pub(crate) kept: Vec<RunFile>,
    pub(crate) store_fails: Vec<FailAt>,
    pub(crate) sink_fails: Vec<FailAt>,
    /// What has to be sent.
    pub(crate) expected: Words,
    /// How many requests were told.
    pub(crate) requests: u64,
    /// The last run, where there was one.
    pub(crate) ran: Vec<Ran>,
}

/// The files that are there when a run begins: its script, two traces, and two images.
const FILES: [&str; 5] = ["s", "t", "u", "a.img", "b.img"];

pub(crate) fn new_scene(alloc: Global) -> Scene {
    Scene {
        alloc,
        files: Vec::new(alloc),
        kept: Vec::new(alloc),
        store_fails: Vec::new(alloc),
        sink_fails: Vec::new(alloc),
        expected: Words::new(alloc),
        requests: 0,
        ran: Vec::new(alloc),
    }
}

/// Puts the files of `FILES`, which are empty.
fn put_files(alloc: Global, files: &mut Vec<RunFile>) -> Result<(), RowStop> {
    files.clear();
    for name in &FILES {
        files.push(empty(alloc, *name)?)?;
    }
    Ok(())
}

/// Begins with the files of `FILES`, which are empty. No call fails, and nothing has to be sent.
pub(crate) fn begin(scene: &mut Scene) -> Result<(), RowStop> {
    put_files(scene.alloc, &mut scene.files)?;
    scene.store_fails.clear();
    scene.sink_fails.clear();
    scene.expected = Words::new(scene.alloc);
    scene.requests = 0;
    Ok(())
}

/// A file with the bytes that the last run left of it.
fn as_left(alloc: Global, file: &RunFile, ran: &[Ran]) -> Result<RunFile, RowStop> {
    let Some(ran) = ran.last() else {
        return Err(RowStop::Call);
    };
    let name = file.name.as_str();
    let mut copy = copied(alloc, file, name)?;
    copy.bytes.clear();
    copy.bytes.extend_from_slice(left(ran, name)?)?;
    Ok(copy)
}

/// Begins with a file as the last run left it.
pub(crate) fn begin_again(scene: &mut Scene, name: &str) -> Result<(), RowStop> {
    let file = file_of(scene.files.as_slice(), name)?;
    let file = as_left(scene.alloc, file, scene.ran.as_slice())?;
    begin(scene)?;
    set(&mut scene.files, file)
}

/// A command: a line of the script `s`, which is answered so.
fn put_command(
    alloc: Global,
    files: &mut Vec<RunFile>,
    expected: &mut Words,
    row: &Row,
) -> Result<(), RowStop> {
    let mut line = Words::new(alloc);
    line.command(row.key, row.text());
    line.put("\n");
    let number = line_count(file_of(files.as_slice(), "s")?.bytes.as_slice());
    put_reply(expected, number.saturating_add(1), row.expected);
    append(alloc, files, "s", line.as_str().as_bytes())
}

/// A command. What is answered is as the row says, as that is found out by a later row alone. It can't be wrong.
pub(crate) fn command(scene: &mut Scene, row: &Row, out: &mut Words) -> Result<(), RowStop> {
    put_command(scene.alloc, &mut scene.files, &mut scene.expected, row)?;
    out.put(row.expected);
    Ok(())
}
