//! What was asked: by a guest, by a command and by a wait of the script.
ghost use Rattle.std.specs.Prelude.{◌≡◌, option_map};

use qmp_codec::Command;
use std::marker::Model;
use trace_codec::{Await, Op};

/// A request, as an entry keeps it. Contracts see the request itself.
#[derive(Drop)]
pub struct KeptRequest {
    op: Op,
}

impl Model for KeptRequest {
    ghost use Rattle.trace_codec.specs.declared.op.Op.{Op};

    ghost Value = { Op };

    ghost view = { λ a. a.op };
}

impl KeptRequest {
    pub fn new(op: Op) -> Self
        ensures { result ≡ op }
    {
        KeptRequest { op }
    }

    pub fn op(&self) -> &Op
        ensures { result.now ≡ self.now }
    {
        &self.op
    }

    pub fn into_op(self) -> Op
        ensures { result ≡ self }
    {
        self.op
    }
}

/// The command of a line, as an entry keeps it; none where the line could not be read as one. Contracts see the command
/// itself, its texts as bytes.
#[derive(Drop)]
pub struct Understood {
    command: Option<Command>,
}

impl Model for Understood {
    ghost use Rattle.std.specs.Prelude.{Option, option_map};
    ghost use Rattle.qmp_codec.specs.Commands.{Cmd, seen_command};

    ghost Value = { Option Cmd };

    ghost view = { λ u. option_map seen_command u.command };
}

impl Understood {
    ghost use Rattle.qmp_codec.specs.Commands.{seen_command};

    pub fn new(command: Option<Command>) -> Self
        ensures { result ≡ option_map seen_command command }
    {
        Understood { command }
    }
}

/// What a line of the script waits for, as an entry keeps it. Contracts see the wait itself, its texts as bytes.
#[derive(Drop)]
pub struct Awaited {
    what: Await,
}

impl Model for Awaited {
    ghost use Rattle.std.specs.Prelude.{List, ℕ};
    ghost use Rattle.trace_codec.specs.declared.awaiting.Await.{Await};
    ghost use Rattle.trace_codec.specs.Awaits.{seen_await};

    ghost Value = { Await (List ℕ) };

    ghost view = { λ a. seen_await a.what };
}

impl Awaited {
    ghost use Rattle.trace_codec.specs.Awaits.{seen_await};

    pub fn new(what: Await) -> Self
        ensures { result ≡ seen_await what }
    {
        Awaited { what }
    }
}
