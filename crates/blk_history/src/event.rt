//! What contracts see of an entry: the bytes that a read piece gave stand in it, and texts are their bytes.

use crate::{JobEnd, Refused};
use blk_base::Outcome;
use qmp_codec::{Action, Command, MergeSource};
use std::collections::LinkedList;
use trace_codec::{Await, Op};

type Word = LinkedList<u8>;

type Sources = LinkedList<MergeSource<Word>>;

/// An entry with its bytes. No value of this type is ever made.
#[derive(Drop)]
pub enum Event {
    Admit {
        guest: u32,
        request: u32,
        op: Op,
    },
    Refuse {
        guest: u32,
        request: u32,
        op: Op,
        why: Refused,
    },
    Piece {
        guest: u32,
        request: u32,
        k: u32,
        outcome: Outcome,
        got: LinkedList<u8>,
    },
    Retire {
        guest: u32,
        request: u32,
    },
    Reply {
        line: u32,
        given: Word,
        command: Option<
            Command<Word, LinkedList<Word>, Sources, LinkedList<Action<Word, Sources>>>,
        >,
        text: Word,
    },
    Reached {
        line: u32,
        what: Await<Word>,
    },
    Start {
        job: u32,
    },
    Ready {
        job: u32,
    },
    End {
        job: u32,
        outcome: JobEnd,
        offset: u64,
    },
    Done {
        actor: u32,
    },
}
