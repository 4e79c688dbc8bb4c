//! The next piece of a guest's request in flight, on a node.
ghost use Rattle.std.specs.Prelude.{◌≡◌, length, Some};
ghost use Rattle.blk_history.specs.Fold.{With};
ghost use Rattle.blk_history.specs.Machine.{Flight};
ghost use Rattle.blk_pieces.specs.Pieces.{CanTransfer};
ghost use Rattle.world_parts.specs.Piecing.{IsMadeOn, part_of};
ghost use Rattle.world_parts.specs.Progress.{HasNext, flight_at};

use blk_base::{Device, Outcome};
use blk_graph::NodeId;
use blk_nodes::Nodes;
use blk_pieces::{request_piece, shown_part, transfer};
use world_parts::Progress;

/// Makes the next piece of a guest's request in flight on its drive, which reads as `node`, and notes it. Takes no memory.
pub(crate) fn make_next<D: Device>(
    nodes: &mut Nodes<D>,
    progress: &mut Progress,
    buffer: &mut [u8],
    drive: NodeId,
    node: NodeId,
    guest: u32,
) -> Outcome
    requires block { length buffer.old ≡ 65536 }
    requires next { With (flight_at progress.old.guests guest) HasNext }
    requires can { With (flight_at progress.old.guests guest)
        (λ f. CanTransfer nodes.old drive node f.op (part_of f)) }
    ensures length { length buffer.new ≡ 65536 }
    ensures made { (f : Flight) → flight_at progress.old.guests guest ≡ Some f
        → IsMadeOn nodes.old nodes.new progress.old progress.new drive node guest f result }
{
    let op = progress.flying(guest);
    let part = request_piece(op, u64::from(progress.next_piece(guest)));
    let bytes = &mut buffer[..part.len as usize];
    let outcome = transfer(nodes, drive, node, op, part, bytes);
    let shown = shown_part(op, outcome, bytes);
    progress.note_piece(guest, outcome, shown);
    outcome
}
