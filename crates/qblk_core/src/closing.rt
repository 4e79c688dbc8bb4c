//! The device of a run's nodes, flushed and given back.
ghost use Rattle.std.specs.Prelude.{◌≡◌, [], ◌∷◌};
ghost use Rattle.blk_base.specs.declared.fault.Outcome.{Outcome};
ghost use Rattle.blk_nodes.specs.Nodes.{Nodes as SeenNodes, DeviceSeen};
ghost use Rattle.qblk_core.specs.ImageNodes.{HaveOneImage, seen_device};
ghost use Rattle.qblk_core.specs.Closing.{IsOnlyDevice};
ghost use Rattle.qblk_core.specs.Session.{flush_fault, AreNodesClosed};

use blk_base::{Device, FaultAt, FaultFrom, Outcome};
use blk_graph::NodeId;
use blk_nodes::Nodes;

/// The only device of nodes.
pub(crate) fn device_of<D: Device>(nodes: Nodes<D>) -> D
    requires { (device : DeviceSeen) × IsOnlyDevice nodes.devices device }
    ensures { nodes.devices ≡ seen_device D.Device result ∷ [] }
{
    let mut left = nodes.into_devices();
    let Some((_, _, device)) = left.next() else {
        unreachable!()
    };
    left.end();
    device
}

/// The fault of a flush, where it failed.
fn fault_of(outcome: Outcome) -> Option<FaultAt>
    ensures { result ≡ flush_fault outcome }
{
    match outcome {
        Outcome::Io { dev, count } => Some(FaultAt {
            from: FaultFrom::Dev(dev),
            count,
        }),
        _ => None,
    }
}

/// Flushes the device, and gives it back with the fault where that failed.
pub(crate) fn close<D: Device>(nodes: Nodes<D>, image: NodeId) -> (D, Option<FaultAt>)
    requires image { image ≡ 1 }
    requires one { HaveOneImage nodes }
    ensures { (last : SeenNodes) × (flush : Outcome)
        × AreNodesClosed nodes last flush (seen_device D.Device result.0) result.1 }
{
    let mut nodes = nodes;
    let _ = nodes.edges();
    let outcome = nodes.flush_node(image);
    let _ = nodes.edges();
    (device_of(nodes), fault_of(outcome))
}
