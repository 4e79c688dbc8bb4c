//! Requests, one after another.
ghost use Rattle.blk_history.specs.Fold.{With};
ghost use Rattle.std.specs.Prelude.{IfSome};
ghost use Rattle.qblk_core.specs.Requests.{CanRun, PiecesDone, CanRecord, RequestDone, CanRecordAll, RequestsDone, IsRoomForRequests};

use crate::engine::Engine;
use blk_base::{Device, Room};
use std::collections::VecDeque;
use trace_codec::Op;

/// Makes the pieces of a request that was admitted, up to the first that isn't good.
fn run_pieces<D: Device>(engine: &mut Engine<D>, pieces: u64)
    requires { With engine.old.guest.flight (CanRun engine.old pieces) }
    ensures { With engine.old.guest.flight (PiecesDone engine.old engine.new) }
{
    for k in 0..pieces {
        if !engine.piece().is_good() {
            return;
        }
    }
}

/// Makes one request: admits it, makes its pieces and retires it, or refuses it.
fn run_request<D: Device>(engine: &mut Engine<D>, op: Op)
    requires { CanRecord engine.old op }
    ensures { RequestDone engine.old engine.new op }
{
    let pieces = op.pieces();
    if engine.admit(op).is_some() {
        return;
    }
    run_pieces(engine, pieces);
    engine.retire();
}

/// Makes all requests of a trace, in order.
pub(crate) fn run_requests<D: Device>(engine: &mut Engine<D>, ops: Vec<Op>)
    requires { CanRecordAll engine.old ops.items }
    ensures { RequestsDone engine.old engine.new ops.items }
{
    let mut rest = VecDeque::from_vec(ops);
    while let Some(op) = rest.pop_front() {
        run_request(engine, op);
    }
}

/// The room that the history of some requests needs, where that can be counted.
pub(crate) fn room_for(ops: &[Op]) -> Option<Room>
    ensures { IfSome result (IsRoomForRequests ops.now) }
{
    let mut room = Room {
        entries: 0,
        bytes: 0,
    };
    u32::try_from(ops.len()).ok()?;
    for op in ops {
        let pieces = u64::from(u32::try_from(op.pieces()).ok()?);
        room.entries = room.entries.checked_add(pieces + 2)?;
        room.bytes = room.bytes.checked_add(op.read_bytes())?;
    }
    Some(room)
}
