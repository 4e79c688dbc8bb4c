//! Bitmaps of a piece that was written.
ghost use Rattle.std.specs.Prelude.{◌≡◌, ℕ, Some, None, if◌then◌else◌};
ghost use Rattle.blk_history.specs.Machine.{Flight};
ghost use Rattle.blk_history.specs.Fold.{With};
ghost use Rattle.qmp_rules.specs.Chains.{filter_role, filtered};
ghost use Rattle.flat_machine.specs.Bitmaps.{noted_rows};
ghost use Rattle.flat_machine.specs.Machine.{is_noted, path};
ghost use Rattle.world_parts.specs.Piecing.{part_of};
ghost use Rattle.world_parts.specs.Progress.{HasNext, flight_at};
ghost use Rattle.world_pieces.specs.Pieces.{noted_after, noted_part, noted_where, written_in};

use blk_base::{Outcome, Span};
use blk_bitmaps::Bitmaps;
use blk_graph::{Kind, NodeId, Role};
use blk_pieces::request_piece;
use qmp_rules::Names;
use trace_codec::Op;
use world_parts::Progress;

/// What a piece of a request writes.
fn written_in(op: &Op, part: Span) -> Option<Span>
    ensures { result ≡ written_in op.now part }
{
    match op {
        Op::Write(..) | Op::Zero(_) => Some(part),
        Op::Read(_) | Op::Flush | Op::Discard(_) => None,
    }
}

/// What the next piece of a guest's request in flight writes.
pub fn next_written(progress: &Progress, guest: u32) -> Option<Span>
    requires { With (flight_at progress.now.guests guest) HasNext }
    ensures { (f : Flight) → flight_at progress.now.guests guest ≡ Some f
        → result ≡ written_in f.op (part_of f) }
{
    let op = progress.flying(guest);
    let part = request_piece(op, u64::from(progress.next_piece(guest)));
    written_in(op, part)
}

/// Whether something was written.
fn is_noted(outcome: Outcome) -> bool
    ensures { result ≡ is_noted outcome }
{
    matches!(&outcome, Outcome::Good | Outcome::Torn { .. })
}

/// What of a piece was written, where something was.
pub fn noted_part(outcome: Outcome, written: Option<Span>) -> Option<Span>
    ensures { result ≡ noted_part outcome written }
{
    if is_noted(outcome) { written } else { None }
}

/// The role of the edge by which a filter reads.
fn filter_role(kind: Kind) -> Option<Role>
    ensures { result ≡ filter_role kind }
{
    match kind {
        Kind::CopyOnRead => Some(Role::File),
        Kind::BeforeWrite | Kind::Mirror | Kind::Commit => Some(Role::Filtered),
        Kind::Protocol | Kind::Raw | Kind::Qcow2 => None,
    }
}

/// The child of a filter; none for every other node.
fn filtered(names: &Names, node: NodeId) -> Option<NodeId>
    ensures { result ≡ filtered names.now.table node }
{
    let row = names.node_at(node)?;
    let role = filter_role(row.kind)?;
    names.child(node, role)
}

/// Notes a write in the bitmaps of each node from a drive down to the one that it reads as.
fn note_path(bitmaps: &mut Bitmaps, names: &Names, drive: NodeId, part: Span)
    ensures { bitmaps.new ≡ noted_rows part bitmaps.old (path names.now.table drive) }
{
    let mut node = drive;
    for _ in 0..64u32 {
        bitmaps.note_write(node, part);
        match filtered(names, node) {
            Some(below) => node = below,
            None => return,
        }
    }
    bitmaps.note_write(node, part);
}

/// Notes what was written by a piece on a drive.
pub fn note_written(
    bitmaps: &mut Bitmaps,
    names: &Names,
    drive: NodeId,
    outcome: Outcome,
    written: Option<Span>,
)
    ensures { bitmaps.new ≡ noted_after outcome written drive names.now.table bitmaps.old }
{
    if is_noted(outcome) {
        if let Some(part) = written {
            note_path(bitmaps, names, drive, part);
        }
    }
}
