//! Reading a trace line by line.

ghost use Rattle.std.specs.Prelude.{◌≡◌, ◌⊎◌, [], OnOk, IfErr};

use crate::line::{TraceLine, read_line};
use crate::op::Op;
use crate::ops::Ops;
use crate::stop::TraceStop;
use crate::totals::Totals;
use std::alloc::Global;
use std::marker::Model;

/// The most requests of one trace.
pub(crate) const MAX_REQUESTS: usize = 65_536;

/// How far a trace is read.
#[derive(Drop)]
pub(crate) struct Reading {
    /// The number of the line that comes.
    line: u32,
    ops: Vec<Op>,
    asked: Totals,
}

impl Model for Reading {
    ghost use Rattle.trace_codec.specs.Reading.{Reading};

    ghost Value = { Reading };

    ghost view = { λ r. record { line = r.line; ops = r.ops.items; asked = r.asked } };
}

impl Reading {
    ghost use Rattle.trace_codec.specs.Line.{line_of};
    ghost use Rattle.trace_codec.specs.Trace.{after_line, with_request};

    /// Before the first line.
    pub(crate) fn new(alloc: Global, asked: Totals) -> Self
        ensures { result ≡ record { line = 1; ops = []; asked = asked } }
    {
        Reading {
            line: 1,
            ops: Vec::new(alloc),
            asked,
        }
    }

    /// Reads the line that comes.
    pub(crate) fn take(&mut self, line: &[u8]) -> Result<(), TraceStop>
        ensures ok { OnOk result (after_line self.old (line_of line.now) ≡ Ok self.new) }
        ensures refused { IfErr result
            (λ stop. (stop ≡ TraceStop.NoMemory)
            ⊎ (after_line self.old (line_of line.now) ≡ Err stop)) }
    {
        match read_line(*self.ops.allocator(), line)? {
            TraceLine::Passed => {}
            TraceLine::Asks(op) => self.add(op)?,
            TraceLine::Bad => return Err(TraceStop::BadLine(self.line)),
        }
        self.line = self.line.saturating_add(1);
        Ok(())
    }

    /// Adds a request.
    fn add(&mut self, op: Op) -> Result<(), TraceStop>
        ensures ok { OnOk result (with_request self.old op ≡ Ok self.new) }
        ensures refused { IfErr result
            (λ stop. (stop ≡ TraceStop.NoMemory) ⊎ (with_request self.old op ≡ Err stop)) }
    {
        if self.ops.len() >= MAX_REQUESTS {
            return Err(TraceStop::TooMany(self.line));
        }
        let Some(asked) = self.asked.with_op(&op) else {
            return Err(TraceStop::TooMany(self.line));
        };
        self.ops.push(op)?;
        self.asked = asked;
        Ok(())
    }

    /// The requests, and what all traces ask.
    pub(crate) fn finish(self) -> (Ops, Totals)
        ensures ops { result.0 ≡ self.ops }
        ensures asked { result.1 ≡ self.asked }
    {
        (Ops::from_vec(self.ops), self.asked)
    }
}
