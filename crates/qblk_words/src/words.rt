//! The words of the program, and of which form they are.
ghost use Rattle.std.specs.Prelude.{◌≡◌, ◌∷◌, [], List, ℕ, codes, bytes_eq, map, IfOk};
ghost use Rattle.qblk_words.specs.Words.{format_by_word, is_flag, is_file_word, texts_in};
ghost use Rattle.qblk_words.specs.Reading.{Reads};

use crate::players::are_players;
use blk_base::{NoMemory, Text};
use std::alloc::Global;

/// How an image's file is read as a disk.
#[derive(Clone, Copy, Debug, PartialEq, Eq)]
pub enum Format {
    /// The file's bytes are the disk's.
    Raw,
    /// The file is a qcow2 image of version 3.
    Qcow2,
}

/// The words of the form `io FORMAT IMAGE TRACE`. A file's name has 1 to 1,023 bytes without a zero byte, the first no `-`.
#[derive(Debug, Drop)]
pub struct IoWords {
    pub format: Format,
    pub image: Text,
    pub trace: Text,
}

/// The words of the form `run 1 SCRIPT GUEST=TRACE ..`.
#[derive(Debug, Drop)]
pub struct RunWords {
    /// The script's file: 1 to 1,023 bytes without a zero byte, the first no `-`.
    pub script: Text,
    /// A word `GUEST=TRACE` for each guest, by its number: at most 16, of different names. The trace's file has a name of
    /// 1 to 1,023 bytes without a zero byte.
    pub players: Vec<Text>,
}

/// The words by their form.
#[derive(Debug, Drop)]
pub enum Form {
    Io(IoWords),
    Run(RunWords),
}

/// Why words aren't read.
#[derive(Clone, Copy, Debug, PartialEq, Eq)]
pub enum WordsStop {
    /// They are of no form.
    Usage,
    NoMemory,
}

/// Whether a word begins with `-`.
pub(crate) fn is_flag(word: &str) -> bool
    ensures { result ≡ is_flag word.now }
{
    let bytes = word.as_bytes();
    !bytes.is_empty() && bytes[0] == b'-'
}

/// Whether a word names a file: 1 to 1,023 bytes without a zero byte, the first no `-`.
fn names_file(word: &str) -> bool
    ensures { result ≡ is_file_word word.now }
{
    let bytes = word.as_bytes();
    !bytes.is_empty() && bytes.len() < 1024 && bytes[0] != b'-' && !bytes.contains(&0)
}

/// The format that a word names.
fn format_named(word: &str) -> Option<Format>
    ensures { result ≡ format_by_word word.now }
{
    if word == "raw" {
        Some(Format::Raw)
    } else if word == "qcow2" {
        Some(Format::Qcow2)
    } else {
        None
    }
}

/// The form of words behind `io`.
pub(crate) fn io_words(
    alloc: Global,
    format: &str,
    image: &str,
    trace: &str,
) -> Result<Form, WordsStop>
    ensures { Reads (codes "io" ∷ format.now ∷ image.now ∷ trace.now ∷ []) result }
{
    let Some(format) = format_named(format) else {
        return Err(WordsStop::Usage);
    };
    if !names_file(image) || !names_file(trace) {
        return Err(WordsStop::Usage);
    }
    let Ok(image) = Text::copied(alloc, image) else {
        return Err(WordsStop::NoMemory);
    };
    let Ok(trace) = Text::copied(alloc, trace) else {
        return Err(WordsStop::NoMemory);
    };
    Ok(Form::Io(IoWords {
        format,
        image,
        trace,
    }))
}

/// Copies of words.
fn copies(alloc: Global, words: &[&str]) -> Result<Vec<Text>, NoMemory>
    ensures { IfOk result (λ texts. texts_in texts.items ≡ map (λ w. w.now) words.now) }
{
    let mut texts = Vec::new(alloc);
    for word in words {
        texts.push(Text::copied(alloc, word)?)?;
    }
    Ok(texts)
}

/// The form of words behind `run`.
pub(crate) fn run_words(
    alloc: Global,
    workers: &str,
    script: &str,
    players: &[&str],
) -> Result<Form, WordsStop>
    ensures { Reads
        (codes "run" ∷ workers.now ∷ script.now ∷ map (λ w. w.now) players.now) result }
{
    if workers != "1" || !names_file(script) {
        return Err(WordsStop::Usage);
    }
    let Ok(players) = copies(alloc, players) else {
        return Err(WordsStop::NoMemory);
    };
    if !are_players(players.as_slice()) {
        return Err(WordsStop::Usage);
    }
    let Ok(script) = Text::copied(alloc, script) else {
        return Err(WordsStop::NoMemory);
    };
    Ok(Form::Run(RunWords { script, players }))
}
