//! Reading a trace that may wait, line by line.

ghost use Rattle.std.specs.Prelude.{◌≡◌, ◌⊎◌, [], OnOk, IfErr};

use crate::awaiting::line_awaited;
use crate::line::{TraceLine, read_line};
use crate::op::Op;
use crate::reading::MAX_REQUESTS;
use crate::stop::TraceStop;
use crate::totals::Totals;
use crate::wish::Wish;
use std::alloc::Global;
use std::marker::Model;

/// How far a trace is read.
#[derive(Drop)]
pub(crate) struct Wishing {
    /// The number of the line that comes.
    line: u32,
    /// How many of the wishes are requests.
    asks: usize,
    wishes: Vec<Wish>,
    asked: Totals,
}

impl Model for Wishing {
    ghost use Rattle.trace_codec.specs.Wishes.{Wishing};

    ghost Value = { Wishing };

    ghost view = { λ r. record {
      line = r.line;
      asks = r.asks;
      wishes = r.wishes.items;
      asked = r.asked;
    } };
}

impl Wishing {
    ghost use Rattle.trace_codec.specs.Line.{line_of};
    ghost use Rattle.trace_codec.specs.Awaits.{trace_wait};
    ghost use Rattle.trace_codec.specs.Wishes.{nothing_read, after_wish_line, with_ask, with_wait};

    /// Before the first line, where all traces so far ask for so much.
    pub(crate) fn new(alloc: Global, asked: Totals) -> Self
        ensures { result ≡ nothing_read asked }
    {
        Wishing {
            line: 1,
            asks: 0,
            wishes: Vec::new(alloc),
            asked,
        }
    }

    /// Reads the line that comes.
    pub(crate) fn take(&mut self, line: &[u8]) -> Result<(), TraceStop>
        ensures ok { OnOk result
            (after_wish_line self.old (line_of line.now) (trace_wait line.now) ≡ Ok self.new) }
        ensures refused { IfErr result (λ stop. (stop ≡ TraceStop.NoMemory)
            ⊎ (after_wish_line self.old (line_of line.now) (trace_wait line.now) ≡ Err stop)) }
    {
        match read_line(*self.wishes.allocator(), line)? {
            TraceLine::Passed => {}
            TraceLine::Asks(op) => self.ask(op)?,
            TraceLine::Bad => self.wait(line_awaited(line))?,
        }
        self.line = self.line.saturating_add(1);
        Ok(())
    }

    /// Adds a request.
    fn ask(&mut self, op: Op) -> Result<(), TraceStop>
        ensures ok { OnOk result (with_ask self.old op ≡ Ok self.new) }
        ensures refused { IfErr result (λ stop. (stop ≡ TraceStop.NoMemory)
            ⊎ (with_ask self.old op ≡ Err stop)) }
    {
        if self.asks >= MAX_REQUESTS {
            return Err(TraceStop::TooMany(self.line));
        }
        let Some(asked) = self.asked.with_op(&op) else {
            return Err(TraceStop::TooMany(self.line));
        };
        self.wishes.push(Wish::Ask(op))?;
        self.asks += 1;
        self.asked = asked;
        Ok(())
    }

    /// Adds a wait, where the line is one.
    fn wait(&mut self, awaited: Option<u32>) -> Result<(), TraceStop>
        ensures ok { OnOk result (with_wait self.old awaited ≡ Ok self.new) }
        ensures refused { IfErr result (λ stop. (stop ≡ TraceStop.NoMemory)
            ⊎ (with_wait self.old awaited ≡ Err stop)) }
    {
        let Some(line) = awaited else {
            return Err(TraceStop::BadLine(self.line));
        };
        self.wishes.push(Wish::Wait(line))?;
        Ok(())
    }

    /// The wishes, and what all traces ask.
    pub(crate) fn finish(self) -> (Vec<Wish>, Totals)
        ensures wishes { result.0.items ≡ self.wishes }
        ensures asked { result.1 ≡ self.asked }
    {
        (self.wishes, self.asked)
    }
}
