//! Rows of one line: what is done, and what is answered.

use crate::{first_word, read_bytes, read_number, same};
use blk_base::NoMemory;
use std::alloc::{AllocError, AllocFailed, Global};

/// Why a row isn't played.
#[derive(Clone, Copy)]
pub enum RowStop {
    NoMemory,
    /// A word is missing.
    Missing,
    /// A word is none of those that may stand there.
    Word,
    /// A word is no number, or too large a one.
    Number,
    /// The words are no bytes.
    Bytes,
    /// No such call may be made.
    Call,
}

impl RowStop {
    pub fn text(self) -> &'static str {
        match self {
            RowStop::NoMemory => "want of memory",
            RowStop::Missing => "a word is missing",
            RowStop::Word => "a word is none of those that may stand there",
            RowStop::Number => "a word is no number, or too large a one",
            RowStop::Bytes => "the words are no bytes",
            RowStop::Call => "no such call may be made",
        }
    }
}

impl From<NoMemory> for RowStop {
    fn from(_: NoMemory) -> Self {
        RowStop::NoMemory
    }
}

impl From<AllocError> for RowStop {
    fn from(_: AllocError) -> Self {
        RowStop::NoMemory
    }
}

impl<T: Drop> From<AllocFailed<T>> for RowStop {
    fn from(_: AllocFailed<T>) -> Self {
        RowStop::NoMemory
    }
}

/// A row of one line: its key, the words behind it, and behind `=` what is to be answered, which is `ok` where the line
/// doesn't say it. A row behind the key `wrong` is one whose answer is to be another.
#[derive(Clone, Copy)]
pub struct Row<'a> {
    pub is_wrong: bool,
    pub key: &'a str,
    pub words: &'a str,
    pub expected: &'a str,
}

/// What a word stands for in a table.
pub fn named<T: Copy>(table: &[(&str, T)], word: &str) -> Option<T> {
    for (name, thing) in table {
        if same(*name, word) {
            return Some(*thing);
        }
    }
    None
}

impl<'a> Row<'a> {
    /// The row that a line is.
    pub fn of(line: &'a str) -> Row<'a> {
        let (first, behind) = first_word(line);
        let is_wrong = same(first, "wrong");
        let (key, rest) = if is_wrong {
            first_word(behind)
        } else {
            (first, behind)
        };
        let (words, expected) = rest.split_once('=').unwrap_or((rest, "ok"));
        Row {
            is_wrong,
            key,
            words,
            expected: expected.trim_ascii(),
        }
    }

    /// What stands behind the key, without the spaces around it.
    pub fn text(&self) -> &'a str {
        self.words.trim_ascii()
    }

    /// Whether it is right where this is answered.
    pub fn is_right(&self, answer: &str) -> bool {
        same(answer, self.expected) != self.is_wrong
    }

    /// Whether a word stands behind the key.
    pub fn has(&self, word: &str) -> bool {
        for other in self.words.split_whitespace() {
            if same(other, word) {
                return true;
            }
        }
        false
    }

    /// The word at a place, counted from 0; `""` stands for the empty word.
    pub fn word(&self, place: usize) -> Result<&'a str, RowStop> {
        match self.words.split_whitespace().nth(place) {
            Some(word) if same(word, "\"\"") => Ok(""),
            Some(word) => Ok(word),
            None => Err(RowStop::Missing),
        }
    }

    /// What the word at a place stands for in a table.
    pub fn named<T: Copy>(&self, place: usize, table: &[(&str, T)]) -> Result<T, RowStop> {
        match named(table, self.word(place)?) {
            Some(thing) => Ok(thing),
            None => Err(RowStop::Word),
        }
    }

    /// The number at a place.
    pub fn number(&self, place: usize) -> Result<u64, RowStop> {
        match read_number(self.word(place)?) {
            Some(number) => Ok(number),
            None => Err(RowStop::Number),
        }
    }

    /// What stands behind so many words.
    fn behind(&self, words: usize) -> &'a str {
        let mut rest = self.words;
        for _ in 0..words {
            let (_, more) = first_word(rest);
            rest = more;
        }
        rest
    }

    /// The bytes that all words from a place on say.
    pub fn bytes(&self, alloc: Global, place: usize) -> Result<Vec<u8>, RowStop> {
        match read_bytes(alloc, self.behind(place))? {
            Some(bytes) => Ok(bytes),
            None => Err(RowStop::Bytes),
        }
    }

    /// The number at a place, which is below 2^32.
    pub fn short(&self, place: usize) -> Result<u32, RowStop> {
        match u32::try_from(self.number(place)?) {
            Ok(number) => Ok(number),
            Err(_) => Err(RowStop::Number),
        }
    }

    /// `CALL` or `CALL DONE`, the first of them at a place: the number of a call that fails, counted from 0, and how many
    /// bytes of a write it does first, which are none where the row doesn't say it.
    pub fn failing(&self, place: usize) -> Result<(u64, u64), RowStop> {
        let call = self.number(place)?;
        let behind = place.saturating_add(1);
        if self.word(behind).is_err() {
            return Ok((call, 0));
        }
        Ok((call, self.number(behind)?))
    }
}
