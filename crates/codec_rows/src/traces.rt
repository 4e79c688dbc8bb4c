//! Traces: lines that are read and written, and those that are refused.

use blk_base::Span;
use row_text::{Row, RowStop, Words, same};
use std::alloc::Global;
use std::str;
use trace_codec::{Op, Ops, Payload, Totals, TraceStop, read_trace, read_trace_after, write_trace};

/// The text of a trace, and what traces ask so far.
#[derive(Drop)]
pub(crate) struct TraceText {
    bytes: Vec<u8>,
    asked: Totals,
}

/// What a row does with the text.
#[derive(Clone, Copy)]
pub(crate) enum Part {
    New,
    More,
    Count,
    Totals,
    GoOn,
}

pub(crate) const PARTS: [(&str, Part); 5] = [
    ("new", Part::New),
    ("more", Part::More),
    ("count", Part::Count),
    ("totals", Part::Totals),
    ("go-on", Part::GoOn),
];

/// What a row asks of the text in it.
#[derive(Clone, Copy)]
pub(crate) enum Ask {
    Trace,
    Request,
    Sizes,
    Written,
    Stop,
}

pub(crate) const ASKS: [(&str, Ask); 5] = [
    ("trace", Ask::Trace),
    ("request", Ask::Request),
    ("sizes", Ask::Sizes),
    ("written", Ask::Written),
    ("stop", Ask::Stop),
];

/// Puts how many requests were read, or why they were refused.
fn put_count(read: Result<Ops, TraceStop>, out: &mut Words) {
    match read {
        Ok(ops) => out.number(ops.len() as u64),
        Err(stop) => out.show(&stop),
    }
}

fn utf8(bytes: &[u8]) -> Result<&str, RowStop> {
    match str::from_utf8(bytes) {
        Ok(text) => Ok(text),
        Err(_) => Err(RowStop::Bytes),
    }
}

impl TraceText {
    pub fn new(alloc: Global) -> Self {
        TraceText {
            bytes: Vec::new(alloc),
            asked: Totals::new(),
        }
    }

    /// `more TIMES BYTES`: these bytes so many times behind the text.
    fn more(&mut self, alloc: Global, row: &Row) -> Result<(), RowStop> {
        let bytes = row.bytes(alloc, 1)?;
        for _ in 0..row.number(0)? {
            self.bytes.extend_from_slice(bytes.as_slice())?;
        }
        Ok(())
    }

    /// `count`: how many requests the text has, or why it is refused.
    fn count(&self, alloc: Global, out: &mut Words) -> Result<(), RowStop> {
        let text = utf8(self.bytes.as_slice())?;
        put_count(read_trace(alloc, text), out);
        Ok(())
    }

    /// `go-on`: the same behind what is asked so far.
    fn go_on(&mut self, alloc: Global, out: &mut Words) -> Result<(), RowStop> {
        let text = utf8(self.bytes.as_slice())?;
        put_count(read_trace_after(alloc, &mut self.asked, text), out);
        Ok(())
    }

    /// Puts what is answered to a row on the text.
    pub(crate) fn answer_to(
        &mut self,
        alloc: Global,
        part: Part,
        row: &Row,
        out: &mut Words,
    ) -> Result<(), RowStop> {
        match part {
            // `new`: the text is empty
            Part::New => self.bytes.clear(),
            Part::More => self.more(alloc, row)?,
            Part::Count => return self.count(alloc, out),
            // `totals`: nothing is asked so far
            Part::Totals => self.asked = Totals::new(),
            Part::GoOn => return self.go_on(alloc, out),
        }
        out.put("ok");
        Ok(())
    }
}

/// `trace BYTES`: how many requests a trace has, or why it is refused.
fn trace(alloc: Global, row: &Row, out: &mut Words) -> Result<(), RowStop> {
    let bytes = row.bytes(alloc, 0)?;
    let text = utf8(bytes.as_slice())?;
    put_count(read_trace(alloc, text), out);
    Ok(())
}

/// Puts a request of a span.
fn put_span(what: &str, span: &Span, out: &mut Words) {
    out.put(what);
    out.fill(" % %", &[span.start, span.len]);
}

/// Puts the byte that a write fills with, or each that it has.
fn put_payload(payload: &Payload, out: &mut Words) {
    match payload {
        Payload::Fill(byte) => out.fill(" fill %", &[u64::from(*byte)]),
        Payload::Raw(bytes) => {
            for byte in bytes.as_slice() {
                out.fill(" %", &[u64::from(*byte)]);
            }
        }
    }
}

/// Puts what a request is, its offset and length, and the bytes that a write has.
fn put_request(op: &Op, out: &mut Words) {
    match op {
        Op::Read(span) => put_span("read", span, out),
        Op::Zero(span) => put_span("zero", span, out),
        Op::Flush => out.put("flush"),
        Op::Discard(span) => put_span("discard", span, out),
        Op::Write(span, payload) => {
            put_span("write", span, out);
            put_payload(payload, out);
        }
    }
}

/// The only request of a line.
fn only(alloc: Global, line: &str) -> Result<Op, RowStop> {
    let Ok(ops) = read_trace(alloc, line) else {
        return Err(RowStop::Word);
    };
    let mut ops = ops.into_vec();
    match (ops.pop(), ops.is_empty()) {
        (Some(op), true) => Ok(op),
        _ => Err(RowStop::Word),
    }
}

/// `written BYTES`: how a trace is written, with a semicolon behind each line.
fn written(alloc: Global, row: &Row, out: &mut Words) -> Result<(), RowStop> {
    let bytes = row.bytes(alloc, 0)?;
    let Ok(ops) = read_trace(alloc, utf8(bytes.as_slice())?) else {
        return Err(RowStop::Word);
    };
    let Ok(text) = write_trace(alloc, &ops) else {
        return Err(RowStop::NoMemory);
    };
    out.swapped(text.as_str(), '\n', ';');
    Ok(())
}

/// `stop bad-line LINE`, `stop too-many LINE`, `stop no-memory`: that refusal.
fn stop_of(row: &Row) -> Result<TraceStop, RowStop> {
    let word = row.word(0)?;
    if same(word, "no-memory") {
        return Ok(TraceStop::NoMemory);
    }
    let line = row.short(1)?;
    if same(word, "bad-line") {
        return Ok(TraceStop::BadLine(line));
    }
    if same(word, "too-many") {
        return Ok(TraceStop::TooMany(line));
    }
    Err(RowStop::Word)
}

/// Puts what is answered to a row that has a text.
pub(crate) fn answer_to(
    alloc: Global,
    ask: Ask,
    row: &Row,
    out: &mut Words,
) -> Result<(), RowStop> {
    match ask {
        Ask::Trace => return trace(alloc, row, out),
        // `request LINE`: what it asks
        Ask::Request => put_request(&only(alloc, row.text())?, out),
        // `sizes LINE`: how many pieces its request has, and how many bytes it reads
        Ask::Sizes => {
            let op = only(alloc, row.text())?;
            out.fill("% pieces, % bytes", &[op.pieces(), op.read_bytes()]);
        }
        Ask::Written => return written(alloc, row, out),
        // how a refusal is printed
        Ask::Stop => out.show(&stop_of(row)?),
    }
    Ok(())
}
