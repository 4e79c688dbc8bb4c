//! One piece of a request, on the image's node.
ghost use Rattle.std.specs.Prelude.{◌≡◌, ◌≤◌, List, ℕ, length, Some, option_map};
ghost use Rattle.blk_base.specs.Pieces.{end_of};
ghost use Rattle.q2_image.specs.Reading.{IsWithinCluster};
ghost use Rattle.blk_history.specs.Disk.{done_in};
ghost use Rattle.blk_history.specs.Machine.{done_by};
ghost use Rattle.blk_history.specs.Legal.{Tells};
ghost use Rattle.blk_nodes.specs.Joined.{IsJoined};
ghost use Rattle.blk_nodes.specs.Nodes.{node_size};
ghost use Rattle.blk_pieces.specs.Pieces.{IsPartAsked, Transfers, shown_of};
ghost use Rattle.qblk_core.specs.Along.{CountsOutcome, HasForm};
ghost use Rattle.qblk_core.specs.ImageNodes.{HaveOneImage, HaveShapeOf, told_disk, device_faults};

use blk_base::{Device, Outcome, Span};
use blk_graph::NodeId;
use blk_nodes::Nodes;
use trace_codec::Op;

/// Makes one piece of a request on the image's node. A good read leaves its bytes in the buffer.
pub(crate) fn transfer<D: Device>(
    nodes: &mut Nodes<D>,
    image: NodeId,
    op: &Op,
    part: Span,
    buffer: &mut [u8],
) -> Outcome
    requires image { image ≡ 1 }
    requires one { HaveOneImage nodes.old }
    requires whole { length buffer.old ≡ part.len }
    requires part { IsPartAsked op.now part }
    requires block { IsWithinCluster 65536 part }
    requires inside { end_of part ≤ node_size nodes.old 1 }
    ensures length { length buffer.new ≡ part.len }
    ensures done { Transfers op.now nodes.old nodes.new 1 1 part result buffer.new }
    ensures joined { IsJoined nodes.new }
    ensures one { HaveOneImage nodes.new }
    ensures shape { HaveShapeOf nodes.old nodes.new }
    ensures tells { (disk : List ℕ) → told_disk nodes.old ≡ Some disk
        → Tells result op.now part (Some disk) (shown_of op.now result buffer.new) }
    ensures disk { told_disk nodes.new
        ≡ option_map (done_in op.now part (done_by result part)) (told_disk nodes.old) }
    ensures form { HasForm result op.now part }
    ensures cause { CountsOutcome (device_faults nodes.old) (device_faults nodes.new) result }
    ensures faults { device_faults nodes.old ≤ device_faults nodes.new }
{
    let _ = nodes.edges();
    let outcome = blk_pieces::transfer(nodes, image, image, op, part, buffer);
    let _ = nodes.edges();
    outcome
}
