//! Entries, put at the end of the history.
ghost use Rattle.std.specs.Prelude.{◌≡◌, ◌<◌, ◌≤◌, length, option_map, string_bytes};
ghost use Rattle.blk_history.specs.declared.event.Event.{Event};
ghost use Rattle.qmp_codec.specs.Commands.{seen_command};
ghost use Rattle.trace_codec.specs.Awaits.{seen_await};
ghost use Rattle.blk_history.specs.Recorded.{log_with_entry, log_with_shown};

use blk_base::{Outcome, Text};
use blk_history::{Awaited, Entry, History, JobEnd, KeptRequest, Refused, Understood};
use qmp_codec::Command;
use trace_codec::{Await, Op};

/// That a request is admitted. Says where the entry stands.
pub(crate) fn note_admission(history: &mut History, guest: u32, request: u32, op: Op) -> u64
    requires { 0 < history.old.room }
    ensures place { result ≡ length history.old.events }
    ensures noted { history.new ≡ log_with_entry history.old (Event.Admit guest request op) }
{
    let place = history.len();
    history.push(Entry::Admit {
        guest,
        request,
        op: KeptRequest::new(op),
    });
    place
}

/// That a request is refused.
pub(crate) fn note_refusal(history: &mut History, guest: u32, request: u32, op: Op, why: Refused)
    requires { 0 < history.old.room }
    ensures { history.new ≡ log_with_entry history.old (Event.Refuse guest request op why) }
{
    history.push(Entry::Refuse {
        guest,
        request,
        op: KeptRequest::new(op),
        why,
    });
}

/// How a piece went, with the bytes that it shows.
pub(crate) fn note_piece(
    history: &mut History,
    guest: u32,
    request: u32,
    k: u32,
    outcome: Outcome,
    shown: &[u8],
)
    requires room { 0 < history.old.room }
    requires byte_room { length shown.now ≤ history.old.byte_room }
    ensures { history.new
        ≡ log_with_shown history.old (Event.Piece guest request k outcome shown.now) shown.now }
{
    let got = history.push_read(shown);
    history.push(Entry::Piece {
        guest,
        request,
        k,
        outcome,
        got,
    });
}

/// That a request is over.
pub(crate) fn note_retirement(history: &mut History, guest: u32, request: u32)
    requires { 0 < history.old.room }
    ensures { history.new ≡ log_with_entry history.old (Event.Retire guest request) }
{
    history.push(Entry::Retire { guest, request });
}

/// That a line of the script is answered, with the line as it was given and the text of the answer.
pub(crate) fn note_reply(
    history: &mut History,
    line: u32,
    given: String,
    command: Option<Command>,
    text: String,
)
    requires { 0 < history.old.room }
    ensures { history.new ≡ log_with_entry history.old
        (Event.Reply line (string_bytes given) (option_map seen_command command)
        (string_bytes text)) }
{
    history.push(Entry::Reply {
        line,
        given: Text::from_string(given),
        command: Understood::new(command),
        text: Text::from_string(text),
    });
}

/// That what a line of the script waits for has come.
pub(crate) fn note_reached(history: &mut History, line: u32, what: Await)
    requires { 0 < history.old.room }
    ensures { history.new ≡ log_with_entry history.old (Event.Reached line (seen_await what)) }
{
    history.push(Entry::Reached {
        line,
        what: Awaited::new(what),
    });
}

/// That a job begins.
pub(crate) fn note_start(history: &mut History, job: u32)
    requires { 0 < history.old.room }
    ensures { history.new ≡ log_with_entry history.old (Event.Start job) }
{
    history.push(Entry::Start { job });
}

/// That a job is ready.
pub(crate) fn note_ready(history: &mut History, job: u32)
    requires { 0 < history.old.room }
    ensures { history.new ≡ log_with_entry history.old (Event.Ready job) }
{
    history.push(Entry::Ready { job });
}

/// That a job ended so, when so many bytes of its source were done.
pub(crate) fn note_end(history: &mut History, job: u32, outcome: JobEnd, offset: u64)
    requires { 0 < history.old.room }
    ensures { history.new ≡ log_with_entry history.old (Event.End job outcome offset) }
{
    history.push(Entry::End {
        job,
        outcome,
        offset,
    });
}

/// That an actor is done.
pub(crate) fn note_done(history: &mut History, actor: u32)
    requires { 0 < history.old.room }
    ensures { history.new ≡ log_with_entry history.old (Event.Done actor) }
{
    history.push(Entry::Done { actor });
}
