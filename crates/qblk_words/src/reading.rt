//! Words read with `clap`.
ghost use Rattle.std.specs.Prelude.{◌≡◌, ◌≢◌, ◌⊎◌, ◌∷◌, [], List, ℕ, Some, codes, map, true, not, IfOk};
ghost use Rattle.std.specs.List.{list_all};
ghost use Rattle.clap.specs.Words.{first_of, found_of, kind_of, rows_of};
ghost use Rattle.qblk_words.specs.Words.{is_flag, none_flags, texts_in};
ghost use Rattle.qblk_words.specs.Forms.{IsTaken, io_rows, run_rows};
ghost use Rattle.qblk_words.specs.Reading.{Reads};

use crate::command::program;
use crate::words::{Form, WordsStop, io_words, is_flag, run_words};
use blk_base::{NoMemory, Text};
use clap::ArgMatches;
use clap::error::{Error, ErrorKind};
use std::alloc::Global;

/// The value of an argument that has one.
fn value<'a>(matches: &ArgMatches<'a>, id: &str) -> &'a str
    ensures { (v : List ℕ) → first_of id.now (rows_of (found_of matches.now)) ≡ Some v
        → result.now ≡ v }
{
    match matches.get_str(id) {
        Some(value) => value,
        None => "",
    }
}

/// The form of words behind `io`, as they were found.
fn io_of(alloc: Global, io: &ArgMatches<'_>) -> Result<Form, WordsStop>
    ensures { (format image trace : List ℕ)
        → rows_of (found_of io.now) ≡ io_rows format image trace
        → Reads (codes "io" ∷ format ∷ image ∷ trace ∷ []) result }
{
    io_words(
        alloc,
        value(io, "format"),
        value(io, "image"),
        value(io, "trace"),
    )
}

/// The form of words behind `run`, as they were found.
fn run_of(alloc: Global, run: &ArgMatches<'_>) -> Result<Form, WordsStop>
    ensures { (workers script : List ℕ) (guests : List (List ℕ))
        → rows_of (found_of run.now) ≡ run_rows workers script guests
        → Reads (codes "run" ∷ workers ∷ script ∷ guests) result }
{
    let workers = value(run, "workers");
    let script = value(run, "script");
    match run.get_strs("guests") {
        Some(guests) => run_words(alloc, workers, script, guests),
        None => run_words(alloc, workers, script, &[]),
    }
}

/// The form of words that were taken.
fn form_of(alloc: Global, matches: &ArgMatches<'_>) -> Result<Form, WordsStop>
    requires { (words : List (List ℕ)) × IsTaken words matches.now }
    ensures { (words : List (List ℕ)) → IsTaken words matches.now → Reads words result }
{
    match matches.subcommand_matches("io") {
        Some(io) => io_of(alloc, io),
        None => match matches.subcommand_matches("run") {
            Some(run) => run_of(alloc, run),
            None => unreachable!(),
        },
    }
}

/// Why words weren't read that `clap` refused.
fn stop_of(error: &Error) -> WordsStop
    ensures { (result ≡ WordsStop.NoMemory)
        ⊎ ((result ≡ WordsStop.Usage) × (kind_of error.now ≢ ErrorKind.OutOfMemory)) }
{
    match error.kind() {
        ErrorKind::OutOfMemory => WordsStop::NoMemory,
        _ => WordsStop::Usage,
    }
}

/// The form of words none of which begins with `-`.
fn parse<'a>(alloc: Global, words: &'a [&'a str]) -> Result<Form, WordsStop>
    requires { none_flags (map (λ w. w.now) words.now) ≡ true }
    ensures { Reads (map (λ w. w.now) words.now) result }
{
    let Ok(program) = program(alloc) else {
        return Err(WordsStop::NoMemory);
    };
    match program.try_get_matches_from(words) {
        Ok(matches) => form_of(alloc, &matches),
        Err(error) => Err(stop_of(&error)),
    }
}

/// The words as they are lent.
fn lent<'a>(alloc: Global, words: &'a [Text]) -> Result<Vec<&'a str>, NoMemory>
    ensures { IfOk result (λ lent. map (λ w. w.now) lent.items ≡ texts_in words.now) }
{
    let mut lent = Vec::new(alloc);
    for word in words {
        lent.push(word.as_str())?;
    }
    Ok(lent)
}

/// Whether no word begins with `-`.
fn none_flags(words: &[Text]) -> bool
    ensures { result ≡ list_all (λ w. not (is_flag w.bytes)) words.now }
{
    words.iter().all(|word| !is_flag(word.as_str()))
}

/// The form of the words, which come without the program's name. `Usage` just where they are of none, but that memory may be
/// wanted at any words.
pub fn read_words(alloc: Global, words: &[Text]) -> Result<Form, WordsStop>
    ensures { Reads (texts_in words.now) result }
{
    if !none_flags(words) {
        return Err(WordsStop::Usage);
    }
    let Ok(words) = lent(alloc, words) else {
        return Err(WordsStop::NoMemory);
    };
    parse(alloc, words.as_slice())
}
