//! Entries of a history: one for each thing that whoever keeps it tells.

ghost use Rattle.std.specs.Prelude.{◌≡◌, ◌+◌, ◌<◌, ◌≤◌, [], ◌∷◌, ◌++◌, length, vec_len, vec_capacity};

use crate::{Awaited, KeptRequest, Understood};
use blk_base::{Fault, Outcome, Span, Text};

/// Why a request was refused at its admission.
#[derive(Clone, Copy, Debug, PartialEq, Eq)]
pub enum Refused {
    /// Its span ends past the disk.
    Range,
    /// It would change the disk of a guest that may only read.
    ReadOnly,
}

/// Why a job was cancelled.
#[derive(Clone, Copy)]
pub enum Cause {
    /// A command named it.
    Command,
    /// A member of its group failed or was cancelled.
    Group,
    /// Script and guests were done, and nobody had asked it to end.
    RunEnd,
}

/// How a job ended, as whoever runs it tells. Nothing here looks at what a job did: what an end asks of disks and nodes
/// is said where jobs are run and judged.
#[derive(Clone, Copy)]
pub enum JobEnd {
    /// It did all, and was of a kind that isn't ready before.
    Completed,
    /// It was ready, and was told to complete.
    Pivoted,
    /// It was ready, and was cancelled so that its copy stays.
    Copied,
    /// This fault stopped it.
    Failed(Fault),
    /// It was stopped before its end, for this cause.
    Cancelled(Cause),
}

/// One entry, as whoever adds it tells it. A history only asks that `got` lies within its bytes, and prints the rest as
/// it is; which entries fit in a row is for the machine to say that judges them.
///
/// `guest` is a guest's number and `request` the number of its request, admitted or refused; `k` is a piece's number in
/// its request. `got` is where a read piece's bytes stand among the bytes of the history, and is empty for every other
/// piece. `job` is a job's number in the order of the starts. `line` is the number of a line of the script. All but
/// lines are numbered from 0. The script is actor 0, and guest `g` is actor `g + 1`.
#[derive(Drop)]
pub enum Entry {
    Admit {
        guest: u32,
        request: u32,
        op: KeptRequest,
    },
    Refuse {
        guest: u32,
        request: u32,
        op: KeptRequest,
        why: Refused,
    },
    Piece {
        guest: u32,
        request: u32,
        k: u32,
        outcome: Outcome,
        got: Span,
    },
    Retire {
        guest: u32,
        request: u32,
    },
    /// The answer to a line of the script, with the line as it was given.
    Reply {
        line: u32,
        given: Text,
        command: Understood,
        text: Text,
    },
    /// What a line of the script waits for has come.
    Reached {
        line: u32,
        what: Awaited,
    },
    /// A job began.
    Start {
        job: u32,
    },
    /// A job is ready. Its line says that all bytes of its source are done.
    Ready {
        job: u32,
    },
    /// A job ended so. Its line says that `offset` bytes of its source are done.
    End {
        job: u32,
        outcome: JobEnd,
        offset: u64,
    },
    /// An actor has nothing more to ask.
    Done {
        actor: u32,
    },
}

/// Adds an entry to those before it, without taking memory.
pub(crate) fn push_entry(entries: &mut Vec<Entry>, entry: Entry)
    requires { vec_len entries.old < vec_capacity entries.old }
    ensures items { entries.new.items ≡ entries.old.items ++ entry ∷ [] }
    ensures len { vec_len entries.new ≡ vec_len entries.old + 1 }
    ensures capacity { vec_capacity entries.new ≡ vec_capacity entries.old }
{
    entries.push_reserved(entry);
}

/// Adds bytes to those before them, without taking memory.
pub(crate) fn push_bytes(bytes: &mut Vec<u8>, more: &[u8])
    requires { vec_len bytes.old + length more.now ≤ vec_capacity bytes.old }
    ensures items { bytes.new.items ≡ bytes.old.items ++ more.now }
    ensures len { vec_len bytes.new ≡ vec_len bytes.old + length more.now }
    ensures capacity { vec_capacity bytes.old ≤ vec_capacity bytes.new }
{
    bytes.extend_from_slice(more).unwrap();
}
