//! What the traces of a run ask for together.

ghost use Rattle.std.specs.Prelude.{◌≡◌, if◌then◌else◌};
ghost use Rattle.trace_codec.specs.Amounts.{nothing};
ghost use Rattle.trace_codec.specs.Request.{with_op, passes_total};

use crate::op::Op;
use std::marker::Model;

/// The most pieces that all traces of a run have.
const MAX_PIECES: u64 = 1_000_000;

/// The most bytes that all traces of a run read.
const MAX_READ_BYTES: u64 = 256 * 1024 * 1024;

/// How many pieces the traces so far have, and how many bytes they read: no more than a run takes.
#[derive(Clone, Copy, Debug, PartialEq, Eq)]
pub struct Totals {
    pieces: u64,
    read_bytes: u64,
}

impl Model for Totals {
    ghost use Rattle.std.specs.Prelude.{◌≤◌};
    ghost use Rattle.trace_codec.specs.Amounts.{Amounts};

    ghost Value = { Amounts };

    ghost view = { λ a. record { pieces = a.pieces; read_bytes = a.read_bytes } };

    ghost invariant = { λ a. (a.pieces ≤ 1000000) × (a.read_bytes ≤ 268435456) };

    ghost inverse = { λ a. record { pieces = a.pieces; read_bytes = a.read_bytes } };
}

impl Totals {
    /// Nothing is asked.
    pub fn new() -> Self
        ensures { result ≡ nothing }
    {
        Totals {
            pieces: 0,
            read_bytes: 0,
        }
    }

    /// With one request more, where a run takes so much.
    pub(crate) fn with_op(self, op: &Op) -> Option<Totals>
        ensures { result
            ≡ (if passes_total (with_op self op.now) then None else Some (with_op self op.now)) }
    {
        let pieces = self
            .pieces
            .checked_add(op.pieces())
            .filter(|n| *n <= MAX_PIECES)?;
        let read_bytes = self
            .read_bytes
            .checked_add(op.read_bytes())
            .filter(|n| *n <= MAX_READ_BYTES)?;
        Some(Totals { pieces, read_bytes })
    }
}
