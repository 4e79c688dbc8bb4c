//! Inputs of a run: the trace that was read, and what is taken before the first request.
ghost use Rattle.std.specs.Prelude.{◌≡◌, ◌≤◌, List, ℕ, length, IfOk, IfErr, IfSome, IsUtf8, Ok};
ghost use Rattle.trace_codec.specs.Trace.{ops_of};
ghost use Rattle.qblk_core.specs.Run.{AskFor, IsFlawInTrace, guest_names};
ghost use Rattle.qblk_inputs.specs.Inputs.{most_text};
ghost use Rattle.qblk_core.specs.Inputs.{IsRefusal};
ghost use Rattle.qblk_core.specs.Ready.{IsSetUpFor};
ghost use Rattle.qblk_core.specs.Session.{IsShortRead, IsTraceStop};

use crate::engine::BLOCK;
use crate::output::CHUNK;
use crate::requests::room_for;
use crate::status::{InputWhy, Status};
use blk_base::{Bytes, Names1, NoMemory, Text};
use blk_history::{History, Rows};
use std::alloc::Global;
use trace_codec::{Op, TraceStop, read_trace};

/// Room for the line of any entry of the guest `disk`.
const LINE: usize = 256 + 4 + 5 * BLOCK;

/// What reading the file of a trace gave.
#[derive(Drop)]
pub(crate) enum TraceRead {
    Whole(Bytes),
    Absent,
    TooLong,
}

/// The requests of a trace, and all the memory that a run of them takes.
pub(crate) struct Prepared {
    pub ops: Vec<Op>,
    pub history: History,
    pub buffer: Vec<u8>,
    pub names: Rows,
    pub line: Text,
}

/// The refusal of an input.
pub(crate) fn refused(alloc: Global, name: &str, line: u32, why: InputWhy) -> Status
    ensures { IsRefusal name.now line why result }
{
    match Text::copied(alloc, name) {
        Ok(name) => Status::Input { name, line, why },
        Err(_) => Status::NoMemory,
    }
}

/// The requests of a trace's bytes, or the line at which it is refused and why; no line and cause for want of memory.
fn requests_in(alloc: Global, bytes: &[u8]) -> Result<Vec<Op>, Option<(u32, InputWhy)>>
    requires { length bytes.now ≤ most_text }
    ensures ok { IfOk result (λ ops. IsUtf8 bytes.now × (ops_of bytes.now ≡ Ok ops.items)) }
    ensures err { IfErr result (λ stop. IfSome stop (λ at. IsFlawInTrace at.1 at.0 bytes.now)) }
{
    let Ok(text) = str::from_utf8(bytes) else {
        return Err(Some((0, InputWhy::NotUtf8)));
    };
    match read_trace(alloc, text) {
        Ok(ops) => Ok(ops.into_vec()),
        Err(TraceStop::BadLine(line)) => Err(Some((line, InputWhy::BadLine))),
        Err(TraceStop::TooMany(line)) => Err(Some((line, InputWhy::TooMany))),
        Err(TraceStop::NoMemory) => Err(None),
    }
}

/// A buffer of one block.
pub(crate) fn block_buffer(alloc: Global) -> Result<Vec<u8>, NoMemory>
    ensures { IfOk result (λ buffer. length buffer.items ≡ 65536) }
{
    Ok(vec![in alloc; 0; BLOCK]?)
}

/// The name of the one guest.
fn guest_row(alloc: Global) -> Result<Rows, NoMemory>
    ensures { IfOk result (λ names. names ≡ guest_names) }
{
    let mut names = Vec::with_capacity(alloc, 1)?;
    names.push_reserved(Text::copied(alloc, "disk")?);
    Ok(Rows::new(Names1::from_vec(names), Vec::new(alloc)))
}

/// Takes the memory of a run.
fn take_memory(alloc: Global, ops: Vec<Op>) -> Result<Prepared, NoMemory>
    ensures { IfOk result
        (λ p. (p.ops.items ≡ ops.items)
        × IsSetUpFor ops.items p.history p.buffer.items p.names p.line) }
{
    let room = room_for(&ops).ok_or(NoMemory)?;
    Ok(Prepared {
        ops,
        history: History::with_room(alloc, room)?,
        buffer: block_buffer(alloc)?,
        names: guest_row(alloc)?,
        line: Text::with_room(alloc, CHUNK + LINE)?,
    })
}

/// The requests of a trace with all the memory that a run of them takes, or its refusal.
pub(crate) fn judge(alloc: Global, trace: &str, read: TraceRead) -> Result<Prepared, Status>
    requires { IsShortRead read }
    ensures ok { IfOk result
        (λ p. (bytes : List ℕ) × (read ≡ TraceRead.Whole bytes) × AskFor p.ops.items bytes
        × IsSetUpFor p.ops.items p.history p.buffer.items p.names p.line) }
    ensures err { IfErr result (IsTraceStop trace.now read) }
{
    let bytes = match read {
        TraceRead::Whole(bytes) => bytes,
        TraceRead::Absent => return Err(refused(alloc, trace, 0, InputWhy::Absent)),
        TraceRead::TooLong => return Err(refused(alloc, trace, 0, InputWhy::TooLong)),
    };
    match requests_in(alloc, bytes.as_slice()) {
        Ok(ops) => take_memory(alloc, ops).map_err(|_| Status::NoMemory),
        Err(Some((line, why))) => Err(refused(alloc, trace, line, why)),
        Err(None) => Err(Status::NoMemory),
    }
}
