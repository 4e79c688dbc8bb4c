//! What becomes of a request that a guest asks.
ghost use Rattle.std.specs.Prelude.{◌≡◌, MatchOption};
ghost use Rattle.blk_history.specs.Disk.{is_write};
ghost use Rattle.blk_history.specs.Fold.{With};
ghost use Rattle.flat_machine.specs.Legal.{CanAdmit, IsRefusedFor};
ghost use Rattle.flat_machine.specs.State.{disk_of_guest};
ghost use Rattle.qmp_rules.specs.Table.{device_by_number};
ghost use Rattle.world_parts.specs.Coherent.{HaveDrives};
ghost use Rattle.world_parts.specs.Steps.{IsSeat};

use blk_history::Refused;
use blk_pieces::request_span;
use qmp_rules::Names;
use trace_codec::Op;

/// What became of a request.
#[derive(Debug, Drop)]
pub enum Admission {
    /// It is in flight, and this is its number.
    Admitted(u32),
    Refused(Refused),
    /// A drain holds the guest, and the request is given back.
    Held(Op),
    /// The guest has no device, and the request is given back.
    Away(Op),
}

/// What a guest's request is judged by: whether the guest may only read, and the bytes of its disk.
#[derive(Clone, Copy)]
pub struct Seat {
    pub read_only: bool,
    pub size: u64,
}

/// Whether only a guest that may write can ask for it.
fn is_write(op: &Op) -> bool
    ensures { result ≡ is_write op.now }
{
    matches!(op, Op::Write(..) | Op::Zero(_) | Op::Discard(_))
}

/// Why a request is refused.
pub fn refusal_of(op: &Op, seat: Seat) -> Option<Refused>
    ensures { MatchOption result (CanAdmit op.now seat.read_only seat.size)
        (IsRefusedFor op.now seat.read_only seat.size) }
{
    let span = request_span(op);
    if seat.size < span.start + span.len {
        return Some(Refused::Range);
    }
    if seat.read_only && is_write(op) {
        return Some(Refused::ReadOnly);
    }
    None
}

/// What a guest's requests are judged by, where its device is there.
pub fn seat_of(names: &Names, guest: u32) -> Option<Seat>
    requires { HaveDrives names.now.table }
    ensures { MatchOption result (device_by_number names.now.table guest ≡ None)
        (IsSeat names.now.table guest) }
{
    let read_only = names.device_at(guest)?.read_only;
    let Some(drive) = names.drive(guest) else {
        unreachable!()
    };
    let size = match names.node_at(names.disk_node(drive)) {
        Some(row) => row.size,
        None => 0,
    };
    Some(Seat { read_only, size })
}
