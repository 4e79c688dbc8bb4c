//! Files of rows of one line, played one behind the other.

use crate::{Row, RowStop, Words};
use std::rt::{Env, Files};
use std::{env, fs, io};

/// What plays rows.
pub trait Player {
    /// Puts what is answered to a row.
    fn answer_to(&mut self, row: &Row, out: &mut Words) -> Result<(), RowStop>;
}

/// The lines of a file that were read, the rows among them, and those of these that are wrong.
#[derive(Drop)]
struct Counts {
    lines: u64,
    rows: u64,
    wrong: u64,
}

/// Puts what came of a row otherwise than it says.
fn put_difference(line: &mut Words, row: &Row, came: &str) {
    line.put(if row.is_wrong {
        "what is wrong"
    } else {
        "answer"
    });
    line.put(": came ");
    line.put(came);
    line.put(", expected ");
    line.put(row.expected);
}

/// Puts why a row isn't played.
fn put_stop(line: &mut Words, stop: RowStop) {
    line.put("not read: ");
    line.put(stop.text());
}

/// Plays a row, and says whether it is right. Where it is wrong, how is put.
fn is_played<P: Player>(player: &mut P, row: &Row, came: &mut Words, line: &mut Words) -> bool {
    match player.answer_to(row, came) {
        Ok(()) if !came.is_whole() => put_stop(line, RowStop::NoMemory),
        Ok(()) if row.is_right(came.as_str()) => return true,
        Ok(()) => put_difference(line, row, came.as_str()),
        Err(stop) => put_stop(line, stop),
    }
    false
}

/// Plays a line, and prints what is wrong.
fn play_line<R: Print + AllocGlobal, P: Player>(
    rt: &R,
    player: &mut P,
    file: &str,
    text: &str,
    counts: &mut Counts,
) -> io::Result<()> {
    counts.lines = counts.lines.saturating_add(1);
    if text.is_empty() || text.starts_with('#') {
        return Ok(());
    }
    counts.rows = counts.rows.saturating_add(1);
    let mut line = Words::new(rt.alloc());
    line.put(file);
    line.fill(":%: ", &[counts.lines]);
    let mut came = Words::new(rt.alloc());
    if is_played(player, &Row::of(text), &mut came, &mut line) {
        return Ok(());
    }
    counts.wrong = counts.wrong.saturating_add(1);
    let line = line.as_str();
    println!(rt; "{line}")
}

/// Plays the rows of a file, and prints those that are wrong and how many there were.
fn play_file<R: Files + Print + AllocGlobal, P: Player>(
    rt: &R,
    player: &mut P,
    file: &str,
) -> io::Result<()> {
    let text = fs::read_to_string(rt, file)?;
    let mut counts = Counts {
        lines: 0,
        rows: 0,
        wrong: 0,
    };
    for line in text.as_str().lines() {
        play_line(rt, player, file, line, &mut counts)?;
    }
    let (rows, wrong) = (counts.rows, counts.wrong);
    println!(rt; "{file}: {rows} rows, {wrong} wrong")
}

/// Plays the files that the program is given by name.
pub fn play_files<R: Env + Files + Print + AllocGlobal, P: Player>(
    rt: &R,
    player: &mut P,
) -> io::Result<()> {
    for file in env::args(rt)?.skip(1) {
        play_file(rt, player, file.as_str())?;
    }
    Ok(())
}
