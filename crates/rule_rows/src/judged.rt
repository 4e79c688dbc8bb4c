//! Lines as they are sent, and what a table answers to them.

use crate::files::{Files, told};
use qmp_codec::{Command, read_command};
use qmp_rules::{Names, PrepareStop, Told};
use row_text::{RowStop, Words, same};
use std::alloc::Global;

/// Puts what an accepted command gives, and `ok` where that is nothing.
fn put_given(
    alloc: Global,
    names: &Names,
    told: &Told,
    command: &Command,
    out: &mut Words,
) -> Result<(), RowStop> {
    let text = names.returned(alloc, told, command)?.to_string(alloc)?;
    if same(text.as_str(), "{}") {
        out.put("ok");
    } else {
        out.put(text.as_str());
    }
    Ok(())
}

/// Puts why a command is refused.
fn put_stop(alloc: Global, stop: &PrepareStop, out: &mut Words) -> Result<(), RowStop> {
    match stop {
        PrepareStop::Refused(refusal) => out.put(refusal.text(alloc)?.as_str()),
        PrepareStop::NoMemory => return Err(RowStop::NoMemory),
    }
    Ok(())
}

/// Carries out a command where files tell this, and says whether it is accepted. Where it is refused, why is put.
fn is_carried_out(
    alloc: Global,
    names: &mut Names,
    told: &Told,
    command: &Command,
    out: &mut Words,
) -> Result<bool, RowStop> {
    match names.prepare(alloc, command, told) {
        Ok(edits) => {
            names.apply(edits);
            Ok(true)
        }
        Err(stop) => {
            put_stop(alloc, &stop, out)?;
            Ok(false)
        }
    }
}

/// Carries out a line where files have this length and refuse at this look, and says whether it is accepted. What it gives is
/// put, or why it is refused.
pub(crate) fn is_accepted(
    alloc: Global,
    names: &mut Names,
    files: Files,
    line: &str,
    out: &mut Words,
) -> Result<bool, RowStop> {
    let Ok(command) = read_command(alloc, line) else {
        return Err(RowStop::Call);
    };
    let told = told(alloc, files)?;
    if !is_carried_out(alloc, names, &told, &command, out)? {
        return Ok(false);
    }
    put_given(alloc, names, &told, &command, out)?;
    Ok(true)
}

/// Carries out lines one behind the other, all of which have to be accepted.
pub(crate) fn accept_all(
    alloc: Global,
    names: &mut Names,
    length: u64,
    lines: &[Words],
) -> Result<(), RowStop> {
    let files = Files { length, look: None };
    for line in lines {
        let mut given = Words::new(alloc);
        if !is_accepted(alloc, names, files, line.as_str(), &mut given)? {
            return Err(RowStop::Call);
        }
    }
    Ok(())
}
