//! The bytes of a piece while it is made.
ghost use Rattle.std.specs.Prelude.{◌≡◌, IfOk, Some, vec_len};
ghost use Rattle.blk_history.specs.Fold.{With};
ghost use Rattle.blk_history.specs.Machine.{Flight};
ghost use Rattle.blk_pieces.specs.Pieces.{CanTransfer};
ghost use Rattle.world_parts.specs.Piecing.{IsMadeOn, part_of};
ghost use Rattle.world_parts.specs.Progress.{HasNext, flight_at};

use crate::transfer::make_next;
use blk_base::{Device, NoMemory, Outcome};
use blk_graph::NodeId;
use blk_nodes::Nodes;
use std::alloc::Global;
use std::marker::Model;
use world_parts::Progress;

/// The bytes of a piece while it is made. A piece has at most 65,536.
#[derive(Drop)]
pub struct Buffer {
    bytes: Vec<u8>,
}

impl Model for Buffer {
    ghost use Rattle.std.specs.Prelude.{◌≡◌, ℕ, List, length};

    ghost Value = { List ℕ };

    ghost view = { λ b. b.bytes.items };

    ghost invariant = { λ b. length b.bytes.items ≡ 65536 };
}

/// Any bytes of one block.
fn block(alloc: Global) -> Result<Vec<u8>, NoMemory>
    ensures { IfOk result (λ bytes. vec_len bytes ≡ 65536) }
{
    Ok(vec![in alloc; 0u8; 65_536]?)
}

impl Buffer {
    pub fn new(alloc: Global) -> Result<Self, NoMemory> {
        let bytes = block(alloc)?;
        Ok(Buffer { bytes })
    }

    /// Makes the next piece of a guest's request in flight on its drive, which reads as `node`, and notes it. Takes no memory.
    pub fn make_next<D: Device>(
        &mut self,
        nodes: &mut Nodes<D>,
        progress: &mut Progress,
        drive: NodeId,
        node: NodeId,
        guest: u32,
    ) -> Outcome
        requires next { With (flight_at progress.old.guests guest) HasNext }
        requires can { With (flight_at progress.old.guests guest)
            (λ f. CanTransfer nodes.old drive node f.op (part_of f)) }
        ensures { (f : Flight) → flight_at progress.old.guests guest ≡ Some f
            → IsMadeOn nodes.old nodes.new progress.old progress.new drive node guest f result }
    {
        make_next(nodes, progress, &mut self.bytes, drive, node, guest)
    }
}
