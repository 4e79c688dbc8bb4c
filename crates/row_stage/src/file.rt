//! Files of a run, by name.

use blk_base::NoMemory;
use blk_fakes::{FailAt, MemDevice};
use row_text::{RowStop, same};
use std::alloc::Global;

/// The most that a file may hold, where nothing else is said and it isn't longer.
pub(crate) const ROOM: u64 = 1_048_576;

/// A file: its bytes, the most that it may hold, and its calls that fail.
#[derive(Drop)]
pub(crate) struct RunFile {
    pub(crate) name: String,
    pub(crate) bytes: Vec<u8>,
    pub(crate) capacity: u64,
    pub(crate) fails: Vec<FailAt>,
}

/// A file of no bytes.
pub(crate) fn empty(alloc: Global, name: &str) -> Result<RunFile, RowStop> {
    Ok(RunFile {
        name: String::from_str(alloc, name)?,
        bytes: Vec::new(alloc),
        capacity: ROOM,
        fails: Vec::new(alloc),
    })
}

fn place_of(files: &[RunFile], name: &str) -> Option<usize> {
    for place in 0..files.len() {
        if same(files[place].name.as_str(), name) {
            return Some(place);
        }
    }
    None
}

/// The file of that name.
pub(crate) fn file_of<'a>(files: &'a [RunFile], name: &str) -> Result<&'a RunFile, RowStop> {
    for file in files {
        if same(file.name.as_str(), name) {
            return Ok(file);
        }
    }
    Err(RowStop::Word)
}

/// The place of the file of that name, which is added with no bytes where there is none.
pub(crate) fn place_for(
    alloc: Global,
    files: &mut Vec<RunFile>,
    name: &str,
) -> Result<usize, RowStop> {
    if let Some(place) = place_of(files.as_slice(), name) {
        return Ok(place);
    }
    let place = files.len();
    files.push(empty(alloc, name)?)?;
    Ok(place)
}

/// Puts bytes behind those of a file.
pub(crate) fn append(
    alloc: Global,
    files: &mut Vec<RunFile>,
    name: &str,
    bytes: &[u8],
) -> Result<(), RowStop> {
    let place = place_for(alloc, files, name)?;
    if let Some(file) = files.get_mut(place) {
        file.bytes.extend_from_slice(bytes)?;
    }
    Ok(())
}

/// Puts bytes over others from a place on, where they lie in them.
fn put_bytes(all: &mut [u8], at: usize, bytes: &[u8]) -> Result<(), RowStop> {
    if all.len() < at || all.len() - at < bytes.len() {
        return Err(RowStop::Number);
    }
    for place in 0..bytes.len() {
        if let Some(to) = all.get_mut(at.saturating_add(place)) {
            *to = bytes[place];
        }
    }
    Ok(())
}

/// Puts bytes over those of a file from a place on.
pub(crate) fn put_over(
    files: &mut Vec<RunFile>,
    name: &str,
    at: usize,
    bytes: &[u8],
) -> Result<(), RowStop> {
    match place_of(files.as_slice(), name) {
        Some(place) if place < files.len() => {
            put_bytes(files[place].bytes.as_mut_slice(), at, bytes)
        }
        _ => Err(RowStop::Word),
    }
}

/// The same bytes as those of a file, under another name, with no call that fails.
pub(crate) fn copied(alloc: Global, file: &RunFile, name: &str) -> Result<RunFile, RowStop> {
    let mut copy = empty(alloc, name)?;
    copy.bytes.extend_from_slice(file.bytes.as_slice())?;
    copy.capacity = file.capacity;
    Ok(copy)
}

/// Puts a file in the place of that of its name, or at the end.
pub(crate) fn set(files: &mut Vec<RunFile>, file: RunFile) -> Result<(), RowStop> {
    match place_of(files.as_slice(), file.name.as_str()) {
        Some(place) if place < files.len() => files[place] = file,
        _ => files.push(file)?,
    }
    Ok(())
}

/// A device of a file, which logs sixteen writes of 1 MiB in all.
pub(crate) fn device(alloc: Global, file: &RunFile) -> Result<MemDevice, NoMemory> {
    let capacity = file.capacity.max(file.bytes.len() as u64);
    let bytes = file.bytes.as_slice();
    MemDevice::new(alloc, bytes, capacity, file.fails.as_slice(), 16, ROOM)
}
