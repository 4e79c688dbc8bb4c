//! What rows do and ask.

use crate::play::{Asked, Play};
use crate::stage::{Copied, RowFile, Stage};
use crate::store::UntoldStore;
use blk_base::{Outcome, Span};
use blk_fakes::FailAt;
use blk_world::{Executed, Turned};
use row_text::{Row, RowStop, Words, first_other, same};
use std::alloc::Global;
use trace_codec::{Op, Payload};

/// The last end that a span may have.
const MOST_END: u64 = 1 << 63;

#[derive(Clone, Copy)]
pub(crate) enum Act {
    New,
    File,
    Fails,
    Begin,
    Turn,
    Take,
    Settle,
    Write,
    End,
    Size,
    Holds,
}

pub(crate) const ACTS: [(&str, Act); 11] = [
    ("new", Act::New),
    ("file", Act::File),
    ("fails", Act::Fails),
    ("begin", Act::Begin),
    ("turn", Act::Turn),
    ("take", Act::Take),
    ("settle", Act::Settle),
    ("write", Act::Write),
    ("end", Act::End),
    ("size", Act::Size),
    ("holds", Act::Holds),
];

/// The world, which was begun.
fn playing(play: &mut Option<Play>) -> Result<&mut Play, RowStop> {
    match play {
        Some(play) => Ok(play),
        None => Err(RowStop::Call),
    }
}

/// `file NAME BYTES`: a file of the next world.
fn file(alloc: Global, files: &mut Vec<RowFile>, row: &Row) -> Result<(), RowStop> {
    let name = String::from_str(alloc, row.word(0)?)?;
    let bytes = row.bytes(alloc, 1)?;
    files.push(RowFile {
        name,
        bytes,
        fails: Vec::new(alloc),
    })?;
    Ok(())
}

/// `fails NAME CALL DONE`: a call of the device of a file fails, and so many bytes of it are done.
fn fail(files: &mut Vec<RowFile>, row: &Row) -> Result<(), RowStop> {
    let name = row.word(0)?;
    let (call, done) = row.failing(1)?;
    for place in 0..files.len() {
        let file = &mut files[place];
        if same(file.name.as_str(), name) {
            file.fails.push(FailAt { call, done })?;
            return Ok(());
        }
    }
    Err(RowStop::Word)
}

/// The request of a guest that is waited for.
fn put_waiting(guest: u32, request: u32, out: &mut Words) {
    out.fill("waits for %, %", &[u64::from(guest), u64::from(request)]);
}

/// What became of a line.
fn put_executed(executed: Executed, out: &mut Words) {
    match executed {
        Executed::Replied => out.put("ok"),
        Executed::Later { guest, request } => put_waiting(guest, request, out),
    }
}

/// A command with its arguments: a line of the script.
fn execute(stage: &mut Stage, row: &Row, out: &mut Words) -> Result<(), RowStop> {
    let mut line = Words::new(stage.alloc);
    line.command(row.key, row.text());
    let play = playing(&mut stage.play)?;
    let executed = play.execute(stage.alloc, stage.lines, line.as_str())?;
    stage.lines = stage.lines.saturating_add(1);
    put_executed(executed, out);
    Ok(())
}

/// `turn SLOT`: the job in a slot has its turn.
fn turn(stage: &mut Stage, row: &Row, out: &mut Words) -> Result<(), RowStop> {
    let slot = row.short(0)?;
    let play = playing(&mut stage.play)?;
    match play.turn(slot) {
        Turned::Empty => out.put("empty"),
        Turned::Copy => out.put("copy"),
        Turned::Idle => out.put("idle"),
        Turned::Later { guest, request } => put_waiting(guest, request, out),
        Turned::Became => out.put("became"),
    }
    Ok(())
}

/// `take SLOT NAME`: the next block of the job in a slot is read, and has this name until the world ends. Says which it is.
fn take(stage: &mut Stage, row: &Row, out: &mut Words) -> Result<(), RowStop> {
    let slot = row.short(0)?;
    let name = String::from_str(stage.alloc, row.word(1)?)?;
    let mut bytes = vec![in stage.alloc; 0u8; 65_536]?;
    let play = playing(&mut stage.play)?;
    match play.take(slot, bytes.as_mut_slice()) {
        None => out.put("none"),
        Some(transfer) => {
            out.number(transfer.cluster);
            stage.copies.push(Copied {
                name,
                transfer,
                bytes,
            })?;
        }
    }
    Ok(())
}

/// The first copy of this name.
fn copy_of<'a>(copies: &'a [Copied], name: &str) -> Result<&'a Copied, RowStop> {
    for copy in copies {
        if same(copy.name.as_str(), name) {
            return Ok(copy);
        }
    }
    Err(RowStop::Word)
}

/// `settle NAME`: the copy of this name is written. Says whether it wasn't too late.
fn settle(stage: &mut Stage, row: &Row, out: &mut Words) -> Result<(), RowStop> {
    let copy = copy_of(stage.copies.as_slice(), row.word(0)?)?;
    if copy.bytes.len() != 65_536 {
        return Err(RowStop::Bytes);
    }
    let play = playing(&mut stage.play)?;
    out.yes_or_no(play.settle(copy.transfer, copy.bytes.as_slice()));
    Ok(())
}

/// What became of a guest's request.
fn put_asked(asked: Asked, out: &mut Words) {
    match asked {
        Asked::Made(Outcome::Good) => out.put("ok"),
        Asked::Made(outcome) => out.debug(&outcome),
        Asked::Refused => out.put("refused"),
        Asked::Held => out.put("held"),
        Asked::Away => out.put("away"),
    }
}

/// Bytes that end at 2^63 at the latest.
fn span(start: u64, len: u64) -> Option<Span> {
    if start > MOST_END || len > MOST_END - start {
        return None;
    }
    Some(Span { start, len })
}

/// `write START LENGTH BYTE`: the guest writes this byte over so many, all in one block.
fn write(stage: &mut Stage, row: &Row, out: &mut Words) -> Result<(), RowStop> {
    let Some(span) = span(row.number(0)?, row.number(1)?) else {
        return Err(RowStop::Number);
    };
    let bytes = row.bytes(stage.alloc, 2)?;
    let Some(byte) = bytes.first() else {
        return Err(RowStop::Bytes);
    };
    let op = Op::Write(span, Payload::Fill(*byte));
    put_asked(playing(&mut stage.play)?.ask(op)?, out);
    Ok(())
}

/// What the world that ended left in a file.
fn left<'a>(left: &'a Option<UntoldStore>, name: &str) -> Result<&'a [u8], RowStop> {
    let Some(store) = left else {
        return Err(RowStop::Call);
    };
    match store.bytes(name) {
        Some(bytes) => Ok(bytes),
        None => Err(RowStop::Word),
    }
}

/// `size FILE`: how many bytes that is.
fn size(stage: &Stage, row: &Row, out: &mut Words) -> Result<(), RowStop> {
    let bytes = left(&stage.left, row.word(0)?)?;
    out.number(bytes.len() as u64);
    Ok(())
}

/// `holds FILE PLACE BYTES`: what it is from a place on; `ok`, or the place of the first other byte.
fn holds(stage: &Stage, row: &Row, out: &mut Words) -> Result<(), RowStop> {
    let place = row.short(1)? as usize;
    let wanted = row.bytes(stage.alloc, 2)?;
    let bytes = left(&stage.left, row.word(0)?)?;
    let Some(came) = bytes.get(place..) else {
        return Err(RowStop::Number);
    };
    match first_other(came, wanted.as_slice()) {
        None => out.put("ok"),
        Some(at) => out.number(at as u64),
    }
    Ok(())
}

/// Puts what is answered to a row.
pub(crate) fn answer_to(
    stage: &mut Stage,
    act: Option<Act>,
    row: &Row,
    out: &mut Words,
) -> Result<(), RowStop> {
    match act {
        None => return execute(stage, row, out),
        Some(Act::Turn) => return turn(stage, row, out),
        Some(Act::Take) => return take(stage, row, out),
        Some(Act::Settle) => return settle(stage, row, out),
        Some(Act::Write) => return write(stage, row, out),
        Some(Act::Size) => return size(stage, row, out),
        Some(Act::Holds) => return holds(stage, row, out),
        // `new`: no files, and no world
        Some(Act::New) => {
            stage.close();
            stage.files.clear();
        }
        Some(Act::File) => file(stage.alloc, &mut stage.files, row)?,
        Some(Act::Fails) => fail(&mut stage.files, row)?,
        // `begin`: a world over these files
        Some(Act::Begin) => stage.begin()?,
        // `end`: the world ends
        Some(Act::End) => stage.close(),
    }
    out.put("ok");
    Ok(())
}
