//! Texts that are written part by part.

use std::alloc::Global;
use std::fmt::{Debug, Display, Write};

/// A text that is written part by part. It isn't whole where there was no memory for a part.
#[derive(Drop)]
pub struct Words {
    text: String,
    is_whole: bool,
}

impl Words {
    pub fn new(alloc: Global) -> Self {
        Words {
            text: String::new(alloc),
            is_whole: true,
        }
    }

    pub fn as_str(&self) -> &str {
        self.text.as_str()
    }

    pub fn is_whole(&self) -> bool {
        self.is_whole
    }

    pub fn is_empty(&self) -> bool {
        self.text.is_empty()
    }

    /// Puts a text.
    pub fn put(&mut self, part: &str) {
        if self.text.push_str(part).is_err() {
            self.is_whole = false;
        }
    }

    /// Puts a text and the end of a line.
    pub fn line(&mut self, part: &str) {
        self.put(part);
        self.put("\n");
    }

    /// Puts a text behind a mark, which stands between it and what is there.
    pub fn part(&mut self, mark: &str, part: &str) {
        if !self.text.is_empty() {
            self.put(mark);
        }
        self.put(part);
    }

    /// Puts a letter.
    pub fn letter(&mut self, letter: char) {
        if self.text.push(letter).is_err() {
            self.is_whole = false;
        }
    }

    /// Puts what a thing prints.
    pub fn show<T: Display>(&mut self, thing: &T) {
        if write!(self.text, "{thing}").is_err() {
            self.is_whole = false;
        }
    }

    /// Puts what a thing is, with what is in it.
    pub fn debug<T: Debug>(&mut self, thing: &T) {
        if write!(self.text, "{thing:?}").is_err() {
            self.is_whole = false;
        }
    }

    /// Puts a number, as 512.
    pub fn number(&mut self, number: u64) {
        if write!(self.text, "{number}").is_err() {
            self.is_whole = false;
        }
    }

    /// Puts a number, as 0x200.
    pub fn hex(&mut self, number: u64) {
        if write!(self.text, "0x{number:x}").is_err() {
            self.is_whole = false;
        }
    }

    /// Puts a number, or `none`.
    pub fn maybe(&mut self, number: Option<u64>) {
        match number {
            Some(number) => self.number(number),
            None => self.put("none"),
        }
    }

    /// Puts whether something is so.
    pub fn yes_or_no(&mut self, is_so: bool) {
        self.put(if is_so { "yes" } else { "no" });
    }

    /// Puts a text in which each `%` stands for the next of these numbers, and each `$` for the next in hexadecimal.
    pub fn fill(&mut self, text: &str, numbers: &[u64]) {
        let mut place = 0usize;
        for letter in text.chars() {
            let number = numbers.get(place).copied().unwrap_or(0);
            match letter {
                '%' => self.number(number),
                '$' => self.hex(number),
                _ => self.letter(letter),
            }
            if letter == '%' || letter == '$' {
                place = place.saturating_add(1);
            }
        }
    }

    /// Puts a text in which each `%` stands for this number.
    pub fn numbered(&mut self, text: &str, number: u64) {
        for letter in text.chars() {
            if letter == '%' {
                self.number(number);
            } else {
                self.letter(letter);
            }
        }
    }

    /// Puts a text with one letter in the place of another.
    pub fn swapped(&mut self, text: &str, from: char, to: char) {
        for letter in text.chars() {
            self.letter(if letter == from { to } else { letter });
        }
    }

    /// Puts the line of a command with its arguments, or of one alone.
    pub fn command(&mut self, command: &str, arguments: &str) {
        self.put("{\"execute\":\"");
        self.put(command);
        self.put("\"");
        if !arguments.is_empty() {
            self.put(",\"arguments\":");
            self.put(arguments);
        }
        self.put("}");
    }

    /// Puts a run of equal bytes behind what stands there.
    fn run(&mut self, byte: u8, count: u64) {
        if count == 0 {
            return;
        }
        if !self.text.is_empty() && !self.text.ends_with(' ') {
            self.put(" ");
        }
        if write!(self.text, "{byte:02x}").is_err() {
            self.is_whole = false;
        }
        if count != 1 {
            self.fill("*%", &[count]);
        }
    }

    /// Puts bytes behind what stands there and a space: each run of equal bytes as `00*512`, a byte alone as `00`, with a
    /// space between them.
    pub fn bytes(&mut self, bytes: &[u8]) {
        let mut last = 0u8;
        let mut count = 0u64;
        for byte in bytes {
            if *byte != last {
                self.run(last, count);
                count = 0;
            }
            last = *byte;
            count = count.saturating_add(1);
        }
        self.run(last, count);
    }
}

/// Whether two texts are the same.
pub fn same(one: &str, other: &str) -> bool {
    one == other
}

/// What stands before a mark in a text, and what behind it.
pub fn cut<'a>(text: &'a str, mark: &str) -> (&'a str, &'a str) {
    text.split_once(mark).unwrap_or((text, ""))
}

/// The first word of a text, and what stands behind it and a space.
pub fn first_word(text: &str) -> (&str, &str) {
    cut(text, " ")
}
