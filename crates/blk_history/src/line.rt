//! The transcript's line of an entry.
ghost use Rattle.std.specs.Prelude.{◌≡◌, ◌+◌, ◌*◌, ◌^◌, ◌<◌, ◌≤◌, [], ◌∷◌, ◌++◌, length, codes, decimal, get_or, slice_range, SomeIff, IsOk, OnOk, OnErr};
ghost use Rattle.blk_base.specs.Pieces.{end_of};
ghost use Rattle.blk_history.specs.Names.{no_job};
ghost use Rattle.blk_history.specs.Transcript.{named_span_words, op_words, refused_word, dev_word, good_words, outcome_words, actor_word, start_words, ready_words, end_words, entry_line};
ghost use Rattle.blk_history.specs.Recorded.{event_of, PointsWithin};
ghost use Rattle.blk_history.specs.Line.{blanked, IsActorNamed, HasActor, actor_room, long_part, line_room, Appends};

use crate::telling::{push_end, push_ready, push_start};
use crate::{Entry, Refused, Rows};
use blk_base::{DevNo, NoMemory, Outcome, Span, Text};
use blk_runs::push_runs;
use trace_codec::Op;

/// Puts a blank and a word at the end.
pub(crate) fn push_word(out: &mut Text, word: &str)
    requires { length word.now + 1 ≤ out.old.spare }
    ensures { Appends out.old out.new (32 ∷ word.now) (length word.now + 1) }
{
    out.push_ascii(b' ');
    out.push_str(word);
}

/// Puts a blank and a number at the end.
#[tactic(auto, using(crate::proofs::Words::short_decimal, std::proofs::lemmas::List::append_assoc))]
pub(crate) fn push_count(out: &mut Text, n: u64)
    requires { 21 ≤ out.old.spare }
    ensures { Appends out.old out.new (32 ∷ decimal n) 21 }
{
    out.push_ascii(b' ');
    out.push_number(n);
}

/// Puts a blank and a device's name at the end.
#[tactic(auto, using(crate::proofs::Words::short_decimal, std::proofs::lemmas::List::append_assoc))]
pub(crate) fn push_dev(out: &mut Text, dev: DevNo)
    requires { 24 ≤ out.old.spare }
    ensures { Appends out.old out.new (32 ∷ dev_word dev) 24 }
{
    push_word(out, "dev");
    out.push_number(u64::from(dev.0));
}

/// Puts a request's name and its span at the end.
fn push_span(out: &mut Text, name: &str, span: Span)
    requires { length name.now + 43 ≤ out.old.spare }
    ensures { Appends out.old out.new (blanked (named_span_words name.now span))
        (length name.now + 43) }
{
    push_word(out, name);
    push_count(out, span.start);
    push_count(out, span.len);
}

fn push_op(out: &mut Text, op: &Op)
    requires { 50 ≤ out.old.spare }
    ensures { Appends out.old out.new (blanked (op_words op.now)) 50 }
{
    match op {
        Op::Read(span) => push_span(out, "read", *span),
        Op::Write(span, _) => push_span(out, "write", *span),
        Op::Zero(span) => push_span(out, "zero", *span),
        Op::Flush => push_word(out, "flush"),
        Op::Discard(span) => push_span(out, "discard", *span),
    }
}

fn push_refused(out: &mut Text, why: Refused)
    requires { 9 ≤ out.old.spare }
    ensures { Appends out.old out.new (32 ∷ refused_word why) 9 }
{
    match why {
        Refused::Range => push_word(out, "range"),
        Refused::ReadOnly => push_word(out, "readonly"),
    }
}

/// Puts the words of a good piece at the end: what it read, where it read something.
fn push_good(out: &mut Text, got: &[u8])
    requires { 4 + 5 * length got.now ≤ out.old.spare }
    ensures { Appends out.old out.new (blanked (good_words got.now)) (4 + 5 * length got.now) }
{
    push_word(out, "ok");
    if !got.is_empty() {
        out.push_ascii(b' ');
        push_runs(out, got).unwrap();
    }
}

fn push_outcome(out: &mut Text, outcome: Outcome, got: &[u8])
    requires { 80 + 5 * length got.now ≤ out.old.spare }
    ensures { Appends out.old out.new (blanked (outcome_words outcome got.now))
        (80 + 5 * length got.now) }
{
    match outcome {
        Outcome::Good => push_good(out, got),
        Outcome::Torn { done, dev, count } => {
            push_word(out, "torn");
            push_count(out, done);
            push_dev(out, dev);
            push_count(out, count);
        }
        Outcome::Io { dev, count } => {
            push_word(out, "io");
            push_dev(out, dev);
            push_count(out, count);
        }
        Outcome::NoSpace { dev } => {
            push_word(out, "nospace");
            push_dev(out, dev);
        }
    }
}

/// The name of an actor, where it is a guest: the script has none.
fn actor_name(names: &Rows, actor: u32) -> &str
    requires { HasActor names.now actor }
    ensures { length result.now ≡ actor_room names.now actor }
{
    match actor.checked_sub(1) {
        Some(guest) => names.guest(guest),
        None => "",
    }
}

/// Puts a blank and the name of an actor at the end.
fn push_actor(out: &mut Text, names: &Rows, actor: u32)
    requires named { HasActor names.now actor }
    requires room { 7 + actor_room names.now actor ≤ out.old.spare }
    ensures { Appends out.old out.new (32 ∷ actor_word names.now actor)
        (7 + actor_room names.now actor) }
{
    match actor.checked_sub(1) {
        Some(guest) => push_word(out, names.guest(guest)),
        None => push_word(out, "script"),
    }
}

/// How much longer than 256 bytes the line of an entry may be, where that is a number of 64 bits.
fn longer(entry: &Entry, bytes: &[u8], names: &Rows) -> Option<usize>
    requires within { PointsWithin (length bytes.now) entry.now }
    requires named { IsActorNamed names.now (event_of bytes.now entry.now) }
    ensures { SomeIff result (long_part names.now (event_of bytes.now entry.now) < 2 ^ 64)
        (long_part names.now (event_of bytes.now entry.now)) }
{
    match entry {
        Entry::Admit { guest, .. } | Entry::Refuse { guest, .. } | Entry::Retire { guest, .. } => {
            Some(names.guest(*guest).len())
        }
        Entry::Piece { guest, got, .. } => {
            let shown = (got.len as usize).checked_mul(5)?;
            shown.checked_add(names.guest(*guest).len())
        }
        Entry::Reply { text, .. } => Some(text.len()),
        Entry::Reached { .. } => Some(0),
        Entry::Start { job } | Entry::Ready { job } | Entry::End { job, .. } => {
            names.job(*job).id().len().checked_mul(2)?.checked_add(256)
        }
        Entry::Done { actor } => Some(actor_name(names, *actor).len()),
    }
}

/// How much room the line of an entry is given, where that is a number of 64 bits.
fn needed(entry: &Entry, bytes: &[u8], names: &Rows) -> Option<usize>
    requires within { PointsWithin (length bytes.now) entry.now }
    requires named { IsActorNamed names.now (event_of bytes.now entry.now) }
    ensures { SomeIff result (line_room names.now (event_of bytes.now entry.now) < 2 ^ 64)
        (line_room names.now (event_of bytes.now entry.now)) }
{
    longer(entry, bytes, names)?.checked_add(256)
}

/// Puts the line of an entry of a guest at the end.
fn push_line(out: &mut Text, entry: &Entry, bytes: &[u8], names: &Rows)
    requires within { PointsWithin (length bytes.now) entry.now }
    requires named { IsActorNamed names.now (event_of bytes.now entry.now) }
    requires room { line_room names.now (event_of bytes.now entry.now) ≤ out.old.spare }
    ensures { Appends out.old out.new (entry_line names.now (event_of bytes.now entry.now))
        (line_room names.now (event_of bytes.now entry.now)) }
{
    match entry {
        Entry::Admit { guest, request, op } => {
            out.push_str("admit");
            push_word(out, names.guest(*guest));
            push_count(out, u64::from(*request));
            push_op(out, op.op());
        }
        Entry::Refuse {
            guest,
            request,
            op,
            why,
        } => {
            out.push_str("refuse");
            push_word(out, names.guest(*guest));
            push_count(out, u64::from(*request));
            push_op(out, op.op());
            push_refused(out, *why);
        }
        Entry::Piece {
            guest,
            request,
            k,
            outcome,
            got,
        } => {
            out.push_str("piece");
            push_word(out, names.guest(*guest));
            push_count(out, u64::from(*request));
            push_count(out, u64::from(*k));
            let from = got.start as usize;
            let to = from + got.len as usize;
            push_outcome(out, *outcome, &bytes[from..to]);
        }
        Entry::Retire { guest, request } => {
            out.push_str("retire");
            push_word(out, names.guest(*guest));
            push_count(out, u64::from(*request));
        }
        Entry::Reply { line, text, .. } => {
            out.push_str("reply");
            push_count(out, u64::from(*line));
            push_word(out, text.as_str());
        }
        Entry::Reached { line, .. } => {
            out.push_str("reached");
            push_count(out, u64::from(*line));
        }
        Entry::Start { job } => {
            out.push_str("start");
            push_start(out, names.job(*job));
        }
        Entry::Ready { job } => {
            out.push_str("ready");
            push_ready(out, names.job(*job));
        }
        Entry::End {
            job,
            outcome,
            offset,
        } => {
            out.push_str("end");
            push_end(out, names.job(*job), *outcome, *offset);
        }
        Entry::Done { actor } => {
            out.push_str("done");
            push_actor(out, names, *actor);
        }
    }
    out.push_ascii(b'\n');
}

/// Makes room for the line of an entry where there is less, and puts it at the end.
pub(crate) fn write_line(
    out: &mut Text,
    entry: &Entry,
    bytes: &[u8],
    names: &Rows,
) -> Result<(), NoMemory>
    requires within { PointsWithin (length bytes.now) entry.now }
    requires named { IsActorNamed names.now (event_of bytes.now entry.now) }
    ensures ok { OnOk result
        (Appends out.old out.new (entry_line names.now (event_of bytes.now entry.now))
        (line_room names.now (event_of bytes.now entry.now))) }
    ensures err { OnErr result (out.new ≡ out.old) }
    ensures room { line_room names.now (event_of bytes.now entry.now) ≤ out.old.spare
        → IsOk result }
{
    let spare = out.spare();
    let room = needed(entry, bytes, names).ok_or(NoMemory)?;
    if spare < room {
        out.reserve(room)?;
    }
    push_line(out, entry, bytes, names);
    Ok(())
}
