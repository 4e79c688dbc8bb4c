//! Reading a whole trace.

ghost use Rattle.std.specs.Prelude.{◌≡◌, ◌⊎◌, [], Ok, Err, IfOk, IfErr, OnOk, OnErr};
ghost use Rattle.trace_codec.specs.Amounts.{nothing};
ghost use Rattle.trace_codec.specs.Causes.{AreLinesTaken, StopsAt, requests_of};
ghost use Rattle.std.specs.List.{AllByRecursion};
ghost use Rattle.trace_codec.specs.Traced.{IsRequest, IsTrace};
ghost use Rattle.trace_codec.specs.Trace.{after_lines, lines_of, trace_of, ops_of};
ghost use Rattle.trace_codec.specs.Wishes as wish;

use crate::cut::cut;
use crate::ops::Ops;
use crate::reading::Reading;
use crate::stop::TraceStop;
use crate::totals::Totals;
use crate::wish::Wish;
use crate::wishing::Wishing;
use std::alloc::Global;

/// Reads a trace before which there is none. Each of its lines, parted by line feeds, is empty, a comment that begins
/// with `#`, `read OFF LEN`, `write -P BYTE OFF LEN`, `write -z OFF LEN`, `bytes OFF HEX`, `flush` or `discard OFF LEN`,
/// its words parted by single spaces.
pub fn read_trace(alloc: Global, text: &str) -> Result<Ops, TraceStop>
    ensures ok { IfOk result (λ ops. ops_of text.now ≡ Ok ops) }
    ensures refused { IfErr result
        (λ stop. (stop ≡ TraceStop.NoMemory) ⊎ (ops_of text.now ≡ Err stop)) }

    // In other words: all lines are taken and these are their requests, or the first line with a cause is named.
    ensures taken { OnOk result (AreLinesTaken nothing (lines_of text.now)) }
    ensures requests { IfOk result (λ ops. ops ≡ requests_of (lines_of text.now)) }
    ensures askable { IfOk result IsTrace }
    ensures cause { IfErr result
        (λ stop. (stop ≡ TraceStop.NoMemory) ⊎ StopsAt nothing (lines_of text.now) stop) }
{
    let mut asked = Totals::new();
    read_trace_after(alloc, &mut asked, text)
}

/// Reads a trace behind others of the same run, which ask for so much, and counts what it asks for. A refusal
/// leaves the count as it was.
#[tactic(auto, unfolding(crate::specs::Trace::trace_of))]
pub fn read_trace_after(alloc: Global, asked: &mut Totals, text: &str) -> Result<Ops, TraceStop>
    ensures ok { IfOk result (λ ops. trace_of asked.old text.now ≡ Ok (ops, asked.new)) }
    ensures each { IfOk result (AllByRecursion IsRequest) }
    ensures refused { IfErr result
        (λ stop. (stop ≡ TraceStop.NoMemory) ⊎ (trace_of asked.old text.now ≡ Err stop)) }
    ensures err { OnErr result (asked.new ≡ asked.old) }
{
    let (ops, total) = read_lines(alloc, *asked, text.as_bytes())?.finish();
    *asked = total;
    Ok(ops)
}

/// Reads line by line, up to the first refusal.
fn read_lines(alloc: Global, asked: Totals, text: &[u8]) -> Result<Reading, TraceStop>
    ensures ok { IfOk result
        (λ reading. after_lines (record { line = 1; ops = []; asked = asked }) (lines_of text.now)
        ≡ Ok reading) }
    ensures refused { IfErr result
        (λ stop. (stop ≡ TraceStop.NoMemory)
        ⊎ (after_lines (record { line = 1; ops = []; asked = asked }) (lines_of text.now)
        ≡ Err stop)) }
{
    let mut reading = Reading::new(alloc, asked);
    let mut rest = Some(text);
    while let Some(lines) = rest {
        let (line, after) = cut(lines, b'\n');
        reading.take(line)?;
        rest = after;
    }
    Ok(reading)
}

/// Reads a trace that may wait, behind others of the same run, which ask for so much, and counts what it asks for. Each of
/// its lines is one that `read_trace` takes, or `await N`. A refusal leaves the count as it was.
#[tactic(auto, unfolding(crate::specs::Wishes::wishes_in))]
pub fn read_wishes_after(
    alloc: Global,
    asked: &mut Totals,
    text: &str,
) -> Result<Vec<Wish>, TraceStop>
    ensures ok { IfOk result (λ wishes. wish.wishes_in asked.old text.now
        ≡ Ok (wishes.items, asked.new)) }
    ensures wishes { IfOk result (λ wishes. wishes.items ≡ wish.wishes_of text.now) }
    ensures refused { IfErr result (λ stop. (stop ≡ TraceStop.NoMemory)
        ⊎ (wish.wishes_in asked.old text.now ≡ Err stop)) }
    ensures err { OnErr result (asked.new ≡ asked.old) }
{
    let (wishes, total) = read_wish_lines(alloc, *asked, text.as_bytes())?.finish();
    *asked = total;
    Ok(wishes)
}

/// Reads line by line, up to the first refusal.
fn read_wish_lines(alloc: Global, asked: Totals, text: &[u8]) -> Result<Wishing, TraceStop>
    ensures ok { IfOk result (λ reading. wish.after_wish_lines (wish.nothing_read asked)
        (lines_of text.now) ≡ Ok reading) }
    ensures refused { IfErr result (λ stop. (stop ≡ TraceStop.NoMemory)
        ⊎ (wish.after_wish_lines (wish.nothing_read asked) (lines_of text.now) ≡ Err stop)) }
{
    let mut reading = Wishing::new(alloc, asked);
    let mut rest = Some(text);
    while let Some(lines) = rest {
        let (line, after) = cut(lines, b'\n');
        reading.take(line)?;
        rest = after;
    }
    Ok(reading)
}
