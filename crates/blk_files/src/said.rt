//! What is told on standard error while a run goes on. No contract speaks of it.

use std::alloc::{AllocError, Global};
use std::io;

/// A text with its control characters written as escapes, so that it is one line.
fn escaped(alloc: Global, text: &str) -> Result<String, AllocError> {
    let mut line = String::new(alloc);
    for c in text.chars() {
        if c.is_control() {
            write!(line, "{}", c.escape_default())?;
        } else {
            line.push(c)?;
        }
    }
    Ok(line)
}

/// Prints a line, escaped; as it is, where there is no memory for that.
pub fn print_line<R: Eprint>(rt: &R, alloc: Global, line: &str) {
    let _ = match escaped(alloc, line) {
        Ok(line) => eprintln!(rt; "{line}"),
        Err(_) => eprintln!(rt; "{line}"),
    };
}

/// The system's words for an error, without the number that std puts behind them.
fn reason(said: &str) -> &str {
    match said.rsplit_once(" (os error ") {
        Some((reason, _)) => reason,
        None => said,
    }
}

/// Prints a file and why the system failed on it, where there is memory for that.
pub fn print_failure<R: Eprint>(rt: &R, alloc: Global, name: &str, error: io::Error) {
    let Ok(said) = error.to_string(alloc) else {
        return;
    };
    let Ok(line) = format!(in alloc; "{name}: {}", reason(said.as_str())) else {
        return;
    };
    print_line(rt, alloc, line.as_str());
}

/// Prints which failure of the store it was too.
pub(crate) fn print_stop<R: Eprint>(
    rt: &R,
    alloc: Global,
    count: u64,
    name: &str,
    error: io::Error,
) {
    if let Ok(before) = format!(in alloc; "store {count}: {name}") {
        print_failure(rt, alloc, before.as_str(), error);
    }
}

/// Prints that a file may only be read, and why.
pub(crate) fn print_denied<R: Eprint>(rt: &R, alloc: Global, name: &str, error: io::Error) {
    if let Ok(before) = format!(in alloc; "{name}: opened for reading alone") {
        print_failure(rt, alloc, before.as_str(), error);
    }
}
