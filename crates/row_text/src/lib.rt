//! Rows of tests as text: what is on a line, what numbers and bytes are in it, how an answer is put, and how a row that is
//! wrong is told. What a row says is for the program that plays it.
//!
//! A line begins with a word, its key, and what stands behind it. A line that begins with `#` is a comment, and an empty
//! line says nothing. A number is decimal, or hexadecimal behind `0x`; `K` and `M` behind a decimal one stand for 1,024 and
//! 1,048,576. Bytes are pairs of hexadecimal digits, runs of equal bytes, as `00*512`, and texts in quotation marks, one
//! behind the other, where spaces between them say nothing. In a text `\n`, `\r`, `\t`, `\"`, `\\` and `\xff` stand for one
//! byte.
#![tactic(auto)]

mod bytes;
mod play;
mod row;
mod words;

pub use bytes::{first_other, read_bytes, read_number};
pub use play::{Player, play_files};
pub use row::{Row, RowStop, named};
pub use words::{Words, cut, first_word, same};
