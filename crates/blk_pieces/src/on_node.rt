//! One piece of a request, on a node.
ghost use Rattle.std.specs.Prelude.{◌≡◌, length};
ghost use Rattle.blk_base.specs.Content.{bytes_at};
ghost use Rattle.q2_image.specs.Reading.{IsWithinCluster};
ghost use Rattle.blk_history.specs.Small.{IsSmallOutcome};
ghost use Rattle.blk_pieces.specs.Pieces.{IsPartAsked, CanTransfer, Transfers};

use blk_base::{Device, Outcome, Span};
use blk_graph::NodeId;
use blk_nodes::Nodes;
use trace_codec::{Op, Payload};

/// Copies bytes from a place on into the buffer, zeros past their end.
#[tactic(auto, unfolding(blk_base::specs::Content::bytes_at))]
fn load_bytes(bytes: &[u8], from: u64, buffer: &mut [u8])
    ensures { buffer.new ≡ bytes_at bytes.now from (length buffer.old) }
{
    let from = from.min(bytes.len() as u64) as usize;
    let rest = &bytes[from..];
    let (front, back) = buffer.split_at_mut(rest.len().min(buffer.len()));
    front.copy_from_slice(&rest[..front.len()]);
    back.fill(0);
}

/// Makes one piece of a request of a guest on `drive`, which reads as `node`. A read goes in at the drive, so that a copy-on-read
/// there keeps what it reads; all else is asked of the node. A good read leaves its bytes in the buffer. Takes no memory.
pub fn transfer<D: Device>(
    nodes: &mut Nodes<D>,
    drive: NodeId,
    node: NodeId,
    op: &Op,
    part: Span,
    buffer: &mut [u8],
) -> Outcome
    requires whole { length buffer.old ≡ part.len }
    requires part { IsPartAsked op.now part }
    requires block { IsWithinCluster 65536 part }
    requires can { CanTransfer nodes.old drive node op.now part }
    ensures length { length buffer.new ≡ part.len }
    ensures done { Transfers op.now nodes.old nodes.new drive node part result buffer.new }
    ensures fits { IsSmallOutcome result }
{
    match op {
        Op::Read(_) => nodes.read_piece(drive, part, buffer),
        Op::Write(_, Payload::Fill(byte)) => {
            buffer.fill(*byte);
            nodes.write_piece(node, part, buffer)
        }
        Op::Write(span, Payload::Raw(bytes)) => {
            let from = part.start.saturating_sub(span.start);
            load_bytes(bytes.as_slice(), from, buffer);
            nodes.write_piece(node, part, buffer)
        }
        Op::Zero(_) => nodes.zero_piece(node, part),
        Op::Flush => nodes.flush_node(node),
        Op::Discard(_) => unreachable!(),
    }
}
