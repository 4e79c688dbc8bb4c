//! Lines of the machine protocol, and what they are read as.

use crate::shown::put_command;
use qmp_codec::{read_command, read_id};
use row_text::{Row, RowStop, Words, cut, same};
use std::alloc::Global;
use std::str;

#[derive(Clone, Copy)]
pub(crate) enum Ask {
    Line,
    Text,
    Nested,
    Long,
}

pub(crate) const ASKS: [(&str, Ask); 4] = [
    ("line", Ask::Line),
    ("text", Ask::Text),
    ("nested", Ask::Nested),
    ("long", Ask::Long),
];

/// Puts what a line is read as, in words.
fn put_read(alloc: Global, line: &str, out: &mut Words) {
    match read_command(alloc, line) {
        Ok(command) => put_command(out, &command),
        Err(stop) => out.show(&stop),
    }
}

/// Puts the id that the answer to a line repeats.
fn put_id(alloc: Global, line: &str, out: &mut Words) -> Result<(), RowStop> {
    match read_id(alloc, line)? {
        Some(id) => out.put(id.to_string(alloc)?.as_str()),
        None => out.put("none"),
    }
    Ok(())
}

/// A command and its arguments: what they are read as.
pub(crate) fn command(alloc: Global, row: &Row, out: &mut Words) {
    let mut line = Words::new(alloc);
    line.command(row.key, row.text());
    put_read(alloc, line.as_str(), out);
}

/// Puts a text in one line: `\n` stands for an end of a line.
fn put_on_one_line(text: &str, out: &mut Words) {
    for letter in text.chars() {
        if letter == '\n' {
            out.put("\\n");
        } else {
            out.letter(letter);
        }
    }
}

/// Puts what a line is read as, and the id that is repeated.
fn put_line(alloc: Global, line: &str, out: &mut Words) -> Result<(), RowStop> {
    let mut words = Words::new(alloc);
    put_read(alloc, line, &mut words);
    put_on_one_line(words.as_str(), out);
    out.put(" id ");
    put_id(alloc, line, out)
}

/// `text BYTES`: a line by its bytes.
fn text(alloc: Global, row: &Row, out: &mut Words) -> Result<(), RowStop> {
    let bytes = row.bytes(alloc, 0)?;
    match str::from_utf8(bytes.as_slice()) {
        Ok(line) => put_line(alloc, line, out),
        Err(_) => Err(RowStop::Bytes),
    }
}

/// Puts a text so many times over.
fn put_times(text: &str, times: u64, out: &mut Words) {
    for _ in 0..times {
        out.put(text);
    }
}

/// `nested COUNT`: a line whose id is so many lists, one in the other.
fn nested(alloc: Global, row: &Row, out: &mut Words) -> Result<(), RowStop> {
    let count = row.number(0)?;
    let mut line = Words::new(alloc);
    line.put("{\"execute\":\"query-block-jobs\",\"id\":");
    put_times("[", count, &mut line);
    put_times("]", count, &mut line);
    line.put("}");
    put_read(alloc, line.as_str(), out);
    Ok(())
}

/// `long COUNT`: a line that names a node of so many letters, and whether the name is read whole.
fn long(alloc: Global, row: &Row, out: &mut Words) -> Result<(), RowStop> {
    let mut name = Words::new(alloc);
    put_times("a", row.number(0)?, &mut name);
    let mut line = Words::new(alloc);
    line.put("{\"execute\":\"blockdev-del\",\"arguments\":{\"node-name\":\"");
    line.put(name.as_str());
    line.put("\"}}");
    let mut came = Words::new(alloc);
    put_read(alloc, line.as_str(), &mut came);
    let (command, came) = cut(came.as_str(), "=");
    let is_whole = same(command, "blockdev-del node-name") && same(came, name.as_str());
    out.put(if is_whole { "whole" } else { "not whole" });
    Ok(())
}

/// Puts what is answered to a row on a line.
pub(crate) fn answer_to(
    alloc: Global,
    ask: Ask,
    row: &Row,
    out: &mut Words,
) -> Result<(), RowStop> {
    match ask {
        // `line TEXT`: a line as it stands
        Ask::Line => put_line(alloc, row.text(), out),
        Ask::Text => text(alloc, row, out),
        Ask::Nested => nested(alloc, row, out),
        Ask::Long => long(alloc, row, out),
    }
}
