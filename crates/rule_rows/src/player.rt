//! What rows are played on.

use crate::ends::{end, ready};
use crate::files::{Files, LOOKS};
use crate::judged::{accept_all, is_accepted};
use crate::table::{Table, copy, kept, table_of};
use qmp_rules::Names;
use row_text::{Player, Row, RowStop, Words, first_word, named, same};
use std::alloc::Global;

/// A table, and how it was made.
#[derive(Drop)]
pub(crate) struct Judge {
    alloc: Global,
    names: Names,
    /// What files tell the next line.
    files: Files,
    /// The lines that the table has accepted.
    lines: Vec<Words>,
    tables: Vec<Table>,
}

/// What a row does that is no line.
#[derive(Clone, Copy)]
enum Act {
    New,
    Keep,
    From,
    Length,
    Refused,
    Ready,
}

const ACTS: [(&str, Act); 6] = [
    ("new", Act::New),
    ("keep", Act::Keep),
    ("from", Act::From),
    ("files", Act::Length),
    ("refused-at", Act::Refused),
    ("ready", Act::Ready),
];

/// The length of a file where nothing else is said.
const LENGTH: u64 = 1_048_576;

impl Judge {
    pub fn new(alloc: Global) -> Result<Self, RowStop> {
        Ok(Judge {
            alloc,
            names: Names::new(alloc, Vec::new(alloc))?,
            files: Files {
                length: LENGTH,
                look: None,
            },
            lines: Vec::new(alloc),
            tables: Vec::new(alloc),
        })
    }

    /// Carries out a line, which is kept if it is accepted, and says whether it is. What is answered is put.
    fn is_accepted(&mut self, line: Words, out: &mut Words) -> Result<bool, RowStop> {
        let files = self.files;
        self.files.look = None;
        if !is_accepted(self.alloc, &mut self.names, files, line.as_str(), out)? {
            return Ok(false);
        }
        self.lines.push(line)?;
        Ok(true)
    }

    /// `new`: a table behind negotiation; `new unnegotiated`: one before it. Files are 1 MiB long.
    fn begin(&mut self, row: &Row) -> Result<(), RowStop> {
        self.names = Names::new(self.alloc, Vec::new(self.alloc))?;
        self.lines.clear();
        self.files.length = LENGTH;
        if !row.has("unnegotiated") {
            let mut line = Words::new(self.alloc);
            line.command("qmp_capabilities", "");
            self.is_accepted(line, &mut Words::new(self.alloc))?;
        }
        Ok(())
    }

    /// `from NAME`: the table that was kept by this name.
    fn begin_from(&mut self, row: &Row) -> Result<(), RowStop> {
        let table = table_of(self.tables.as_slice(), row.word(0)?)?;
        let length = table.length;
        copy(self.alloc, table.lines.as_slice(), &mut self.lines)?;
        self.files.length = length;
        self.names = Names::new(self.alloc, Vec::new(self.alloc))?;
        accept_all(self.alloc, &mut self.names, length, self.lines.as_slice())
    }

    /// `many COUNT COMMAND ARGUMENTS`: so many lines, in which `%` stands for 0, 1 and so on, or the first refusal.
    fn many(&mut self, row: &Row, out: &mut Words) -> Result<(), RowStop> {
        let (_, words) = first_word(row.words.trim_ascii());
        let (command, arguments) = first_word(words);
        for number in 0..row.number(0)? {
            let mut given = Words::new(self.alloc);
            let line = numbered(self.alloc, command, arguments, number);
            if !self.is_accepted(line, &mut given)? {
                out.put(given.as_str());
                return Ok(());
            }
        }
        out.put("ok");
        Ok(())
    }

    fn act(&mut self, act: Act, row: &Row) -> Result<(), RowStop> {
        match act {
            Act::New => self.begin(row),
            Act::Keep => keep(
                self.alloc,
                &mut self.tables,
                self.files.length,
                self.lines.as_slice(),
                row,
            ),
            Act::From => self.begin_from(row),
            // `files LENGTH`: how long each file is that is opened.
            Act::Length => {
                self.files.length = row.number(0)?;
                Ok(())
            }
            // `refused-at LOOK`: the files refuse the next line at this look.
            Act::Refused => {
                self.files.look = Some(row.named(0, &LOOKS)?);
                Ok(())
            }
            Act::Ready => ready(&mut self.names, row),
        }
    }
}

/// `keep NAME`: the table as it is gets a name.
fn keep(
    alloc: Global,
    tables: &mut Vec<Table>,
    length: u64,
    from: &[Words],
    row: &Row,
) -> Result<(), RowStop> {
    let mut lines = Vec::new(alloc);
    copy(alloc, from, &mut lines)?;
    let name = kept(alloc, row.word(0)?);
    tables.push(Table {
        name,
        length,
        lines,
    })?;
    Ok(())
}

/// A line with this number in the place of each `%`.
fn numbered(alloc: Global, command: &str, arguments: &str, number: u64) -> Words {
    let mut given = Words::new(alloc);
    given.numbered(arguments.trim_ascii(), number);
    let mut line = Words::new(alloc);
    line.command(command, given.as_str());
    line
}

impl Player for Judge {
    fn answer_to(&mut self, row: &Row, out: &mut Words) -> Result<(), RowStop> {
        if let Some(act) = named(&ACTS, row.key) {
            self.act(act, row)?;
            out.put("ok");
            return Ok(());
        }
        if same(row.key, "many") {
            return self.many(row, out);
        }
        if same(row.key, "end") {
            return end(self.alloc, &mut self.names, row, out);
        }
        let mut line = Words::new(self.alloc);
        line.command(row.key, row.text());
        self.is_accepted(line, out)?;
        Ok(())
    }
}
