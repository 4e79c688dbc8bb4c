//! What goes to standard error.

use blk_files::{print_line, read_again};
use qblk_core::{InputWhy, Status};
use std::alloc::Global;
use std::fs::File;
use std::rt::Files;
use trace_codec::flaw_at;

/// How many bytes a trace may have.
const MOST_TEXT: u64 = 64 * 1024 * 1024;

/// Prints how a run ended.
pub(crate) fn print_status<R: Eprint>(rt: &R, alloc: Global, status: &Status) {
    match status.to_string(alloc) {
        Ok(line) => print_line(rt, alloc, line.as_str()),
        Err(_) => {
            let _ = eprintln!(rt; "{status}");
        }
    }
}

/// Prints what is wrong with the line of a trace that a run was refused for, where a few words say it. The file is read once
/// more for that; of a pipe nothing is printed.
pub(crate) fn print_flaw<R: Files<File = File> + Eprint>(rt: &R, alloc: Global, status: &Status) {
    let Status::Input {
        name,
        line,
        why: InputWhy::BadLine,
    } = status
    else {
        return;
    };
    let Some(text) = read_again(rt, alloc, name.as_str(), MOST_TEXT) else {
        return;
    };
    let Some(flaw) = flaw_at(text.as_slice(), *line) else {
        return;
    };
    if let Ok(said) = format!(in alloc; "{} line {line}: {}", name.as_str(), flaw.text()) {
        print_line(rt, alloc, said.as_str());
    }
}
