//! The requests of a trace.

ghost use Rattle.std.specs.Prelude.{◌≡◌, ◌↔◌, [], length, IsTrue};

use crate::op::Op;
use std::marker::Model;

/// Requests in order.
#[derive(Debug, Drop)]
pub struct Ops {
    ops: Vec<Op>,
}

impl Model for Ops {
    ghost use Rattle.std.specs.Prelude.{List};
    ghost use Rattle.trace_codec.specs.declared.op.Op.{Op};

    ghost Value = { List Op };

    ghost view = { λ a. a.ops.items };
}

impl Ops {
    /// The requests of a vector, which is taken over with its memory.
    pub fn from_vec(ops: Vec<Op>) -> Self
        ensures { result ≡ ops.items }
    {
        Ops { ops }
    }

    /// The vector of the requests, with its memory.
    pub fn into_vec(self) -> Vec<Op>
        ensures { result.items ≡ self }
    {
        self.ops
    }

    pub fn as_slice(&self) -> &[Op]
        ensures { result.now ≡ self.now }
    {
        self.ops.as_slice()
    }

    pub fn len(&self) -> usize
        ensures { result ≡ length self.now }
    {
        self.ops.len()
    }

    pub fn is_empty(&self) -> bool
        ensures { IsTrue result ↔ (self.now ≡ []) }
    {
        self.ops.is_empty()
    }
}
