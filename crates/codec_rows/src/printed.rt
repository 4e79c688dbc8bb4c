//! Lines that are printed: replies and events.

use blk_base::Text;
use qmp_codec::{Class, EventName, JobEvent, JobKind, Reply, print_event, print_reply};
use row_text::{Row, RowStop, Words, first_word};
use serde_json::Value;
use std::alloc::Global;

#[derive(Clone, Copy)]
pub(crate) enum Print {
    Done,
    Refused,
    Event,
}

pub(crate) const PRINTS: [(&str, Print); 3] = [
    ("done", Print::Done),
    ("refused", Print::Refused),
    ("event", Print::Event),
];

const CLASSES: [(&str, Class); 4] = [
    ("GenericError", Class::GenericError),
    ("CommandNotFound", Class::CommandNotFound),
    ("DeviceNotFound", Class::DeviceNotFound),
    ("DeviceNotActive", Class::DeviceNotActive),
];

const EVENTS: [(&str, EventName); 3] = [
    ("ready", EventName::Ready),
    ("cancelled", EventName::Cancelled),
    ("completed", EventName::Completed),
];

const KINDS: [(&str, JobKind); 4] = [
    ("mirror", JobKind::Mirror),
    ("commit", JobKind::Commit),
    ("backup", JobKind::Backup),
    ("stream", JobKind::Stream),
];

/// A value by its text, or none where that is empty.
fn value(alloc: Global, text: &str) -> Result<Option<Value>, RowStop> {
    if text.is_empty() {
        return Ok(None);
    }
    match Value::from_str(alloc, text) {
        Ok(value) => Ok(Some(value)),
        Err(_) => Err(RowStop::Word),
    }
}

/// `done ID`: the answer to an accepted line with that id, or with none.
fn done(alloc: Global, row: &Row, out: &mut Words) -> Result<(), RowStop> {
    let id = value(alloc, row.text())?;
    let Some(nothing) = value(alloc, "{}")? else {
        return Err(RowStop::Word);
    };
    let line = print_reply(alloc, id.as_ref(), &Reply::Return(nothing))?;
    out.put(line.as_str());
    Ok(())
}

/// What stands behind the first word of a text.
fn behind(text: &str) -> &str {
    let (_, rest) = first_word(text);
    rest
}

/// `refused CLASS TEXT`: the answer to a refused line with the id 5.
fn refused(alloc: Global, row: &Row, out: &mut Words) -> Result<(), RowStop> {
    let id = Value::from(5u64);
    let reply = Reply::Error {
        class: row.named(0, &CLASSES)?,
        desc: Text::copied(alloc, behind(row.words).trim_ascii())?,
    };
    let line = print_reply(alloc, Some(&id), &reply)?;
    out.put(line.as_str());
    Ok(())
}

/// Why a job failed, or none where the words are empty.
fn error_of(alloc: Global, words: &str) -> Result<Option<Text>, RowStop> {
    if words.is_empty() {
        return Ok(None);
    }
    Ok(Some(Text::copied(alloc, words)?))
}

/// `event NAME KIND TEXT`: the event of a job `m0` that has done 512 bytes, and why it failed.
fn event(alloc: Global, row: &Row, out: &mut Words) -> Result<(), RowStop> {
    let event = JobEvent {
        name: row.named(0, &EVENTS)?,
        device: Text::copied(alloc, "m0")?,
        error: error_of(alloc, behind(behind(row.words)).trim_ascii())?,
        len: 65_536,
        offset: 512,
        kind: row.named(1, &KINDS)?,
    };
    let line = print_event(alloc, &event)?;
    out.put(line.as_str());
    Ok(())
}

/// Puts what is printed.
pub(crate) fn answer_to(
    alloc: Global,
    print: Print,
    row: &Row,
    out: &mut Words,
) -> Result<(), RowStop> {
    match print {
        Print::Done => done(alloc, row, out),
        Print::Refused => refused(alloc, row, out),
        Print::Event => event(alloc, row, out),
    }
}
