//! What rows put on the stage.

use crate::file::{RunFile, append, copied, file_of, place_for, put_over, set};
use crate::scene::{Scene, begin, begin_again};
use crate::script::put_request;
use blk_fakes::FailAt;
use row_text::{Row, RowStop, first_word};
use std::alloc::Global;

#[derive(Clone, Copy)]
pub(crate) enum Act {
    New,
    Again,
    More,
    Line,
    Put,
    Like,
    Keep,
    Capacity,
    Fails,
    StoreFails,
    SinkFails,
    Then,
    Begun,
    Request,
}

pub(crate) const ACTS: [(&str, Act); 14] = [
    ("new", Act::New),
    ("again", Act::Again),
    ("more", Act::More),
    ("line", Act::Line),
    ("put", Act::Put),
    ("like", Act::Like),
    ("keep", Act::Keep),
    ("capacity", Act::Capacity),
    ("fails", Act::Fails),
    ("store-fails", Act::StoreFails),
    ("sink-fails", Act::SinkFails),
    ("then", Act::Then),
    ("begun", Act::Begun),
    ("request", Act::Request),
];

/// The call that fails by its number at a place, and behind it how much of it is done, where that is said.
fn failing(row: &Row, place: usize) -> Result<FailAt, RowStop> {
    let (call, done) = row.failing(place)?;
    Ok(FailAt { call, done })
}

/// `more FILE BYTES`: bytes behind those of a file, which is there then.
fn more(alloc: Global, files: &mut Vec<RunFile>, row: &Row) -> Result<(), RowStop> {
    let bytes = row.bytes(alloc, 1)?;
    append(alloc, files, row.word(0)?, bytes.as_slice())
}

/// `line FILE TEXT`: a line behind what stands in a file.
fn line(alloc: Global, files: &mut Vec<RunFile>, row: &Row) -> Result<(), RowStop> {
    let (name, text) = first_word(row.words);
    append(alloc, files, name, text.as_bytes())?;
    append(alloc, files, name, b"\n")
}

/// `put FILE PLACE BYTES`: bytes over those from a place on.
fn put(alloc: Global, files: &mut Vec<RunFile>, row: &Row) -> Result<(), RowStop> {
    let bytes = row.bytes(alloc, 2)?;
    let at = row.short(1)? as usize;
    put_over(files, row.word(0)?, at, bytes.as_slice())
}

/// `like FILE NAME`: a file with the bytes that were kept by this name. `keep NAME FILE`: the bytes of a file get a name.
fn copy(alloc: Global, to: &mut Vec<RunFile>, from: &[RunFile], row: &Row) -> Result<(), RowStop> {
    let file = copied(alloc, file_of(from, row.word(1)?)?, row.word(0)?)?;
    set(to, file)
}

/// `capacity FILE NUMBER`: the most that a file may hold.
fn hold(alloc: Global, files: &mut Vec<RunFile>, row: &Row) -> Result<(), RowStop> {
    let place = place_for(alloc, files, row.word(0)?)?;
    let capacity = row.number(1)?;
    if let Some(file) = files.get_mut(place) {
        file.capacity = capacity;
    }
    Ok(())
}

/// `fails FILE CALL DONE`: a call of a file's device fails, and so much of it is done.
fn fail(alloc: Global, files: &mut Vec<RunFile>, row: &Row) -> Result<(), RowStop> {
    let place = place_for(alloc, files, row.word(0)?)?;
    let call = failing(row, 1)?;
    if let Some(file) = files.get_mut(place) {
        file.fails.push(call)?;
    }
    Ok(())
}

/// `request GUEST WORDS : PIECE, PIECE`: the lines of a request of which nothing else comes between.
fn request(scene: &mut Scene, row: &Row) {
    put_request(&mut scene.expected, row.words, scene.requests);
    scene.requests = scene.requests.saturating_add(1);
}

/// What a row puts there.
pub(crate) fn carry_out(scene: &mut Scene, what: Act, row: &Row) -> Result<(), RowStop> {
    let alloc = scene.alloc;
    match what {
        Act::New => begin(scene)?,
        // `again FILE`: a file as the last run left it
        Act::Again => begin_again(scene, row.word(0)?)?,
        Act::More => more(alloc, &mut scene.files, row)?,
        Act::Line => line(alloc, &mut scene.files, row)?,
        Act::Put => put(alloc, &mut scene.files, row)?,
        Act::Like => copy(alloc, &mut scene.files, scene.kept.as_slice(), row)?,
        Act::Keep => copy(alloc, &mut scene.kept, scene.files.as_slice(), row)?,
        Act::Capacity => hold(alloc, &mut scene.files, row)?,
        Act::Fails => fail(alloc, &mut scene.files, row)?,
        // `store-fails CALL`, `sink-fails CALL DONE`
        Act::StoreFails => scene.store_fails.push(failing(row, 0)?)?,
        Act::SinkFails => scene.sink_fails.push(failing(row, 0)?)?,
        // `then LINE`: a line of the transcript; `begun TEXT`: the beginning of one, with which it ends
        Act::Then => scene.expected.line(row.words),
        Act::Begun => scene.expected.put(row.words),
        Act::Request => request(scene, row),
    }
    Ok(())
}
