//! Pieces of requests in flight.
ghost use Rattle.std.specs.Prelude.{◌≡◌, IsSome, Some};
ghost use Rattle.blk_base.specs.Pieces.{Extent};
ghost use Rattle.blk_history.specs.Fold.{With};
ghost use Rattle.blk_history.specs.Machine.{Flight};
ghost use Rattle.blk_nodes.specs.Contents.{Unfolds};
ghost use Rattle.blk_nodes.specs.Joined.{IsJoined};
ghost use Rattle.blk_nodes.specs.Nodes.{AreTold};
ghost use Rattle.block_jobs.specs.Work.{JobWork as Work, block_at};
ghost use Rattle.flat_machine.specs.declared.opening.Opening.{Opening};
ghost use Rattle.job_works.specs.Works.{work_of};
ghost use Rattle.qmp_rules.specs.declared.rows.JobRecord.{JobRecord as Row};
ghost use Rattle.world_goings.specs.Copied.{HasSmallFault};
ghost use Rattle.world_jobs.specs.Guarding.{CanGuard, backup_of};
ghost use Rattle.world_parts.specs.Coherent.{IsWholeWorld};
ghost use Rattle.world_parts.specs.Comes.{Comes};
ghost use Rattle.blk_world.specs.Pieces.{GuardsNext, GuardsWritten, IsPieceBehind};
ghost use Rattle.world_jobs.specs.Marking.{marked_in};
ghost use Rattle.world_pieces.specs.Pieces.{IsGuardedPiece, IsPieceMade, noted_part};
ghost use Rattle.world_parts.specs.Piecing.{table_after};
ghost use Rattle.world_parts.specs.Progress.{HasNext, flight_at};

use crate::world::World;
use blk_base::{Device, Outcome, PIECE, Span, Store};
use blk_graph::NodeId;
use blk_nodes::Nodes;
use qmp_rules::Names;
use trace_codec::Op;
use world_jobs::RunningJobs;
use world_pieces::{next_written, note_written, noted_part};

/// A request that changes a node's disk: every other node that reads it as a backing node has no flat disk any more.
fn note_write(names: &mut Names, node: NodeId, op: &Op)
    ensures { names.new.table ≡ table_after op.now node names.old.table }
{
    match op {
        Op::Write(..) | Op::Zero(_) => names.write_under(node),
        Op::Read(_) | Op::Flush | Op::Discard(_) => {}
    }
}

/// What is left of a part's block is copied for the backup of a node, where a part is written there and there is one.
fn guard_written<D: Device>(
    works: &mut RunningJobs,
    nodes: &mut Nodes<D>,
    names: &Names,
    node: NodeId,
    written: Option<Span>,
)
    requires can { (part : Extent) → written ≡ Some part
        → CanGuard names.now.table nodes.old works.old node (block_at part.start) }
    ensures guards { GuardsWritten written names.now.table node nodes.old nodes.new works.old
        works.new }
    ensures told { AreTold nodes.old.devices → AreTold nodes.new.devices }
    ensures small { IsSome written → (row : Row) (work : Work)
        → backup_of names.now.table node ≡ Some row → work_of works.new row.number ≡ Some work
        → HasSmallFault work }
{
    let Some(part) = written else {
        return;
    };
    works.guard(nodes, names, node, part.start / PIECE);
}

/// What a piece wrote on a node, where it wrote something, the mirror of the node has to copy again.
fn note_again(
    works: &mut RunningJobs,
    names: &Names,
    node: NodeId,
    outcome: Outcome,
    written: &Option<Span>,
)
    ensures { works.new
        ≡ marked_in (noted_part outcome written.now) names.now.table node works.old }
{
    let noted = noted_part(outcome, *written);
    works.mark(names, node, noted);
}

impl<S: Store> World<S> {
    /// What is left of the block of a guest's next piece is copied for the backup of its disk, where the piece is written and there
    /// is one: then the backup owes nothing of it.
    fn guard_piece(&mut self, guest: u32)
        requires { With (flight_at self.old.progress.guests guest) HasNext }
        ensures guards { GuardsNext self.old self.new guest }
        ensures guarded { IsGuardedPiece self.new guest }
        ensures comes { (o : Opening) → Comes o self.old → Comes o self.new }
    {
        let _ = self.nodes.edges();
        self.works.law();
        let Some(drive) = self.names.drive(guest) else {
            unreachable!()
        };
        let node = self.names.disk_node(drive);
        let written = next_written(&self.progress, guest);
        guard_written(&mut self.works, &mut self.nodes, &self.names, node, written);
        let _ = self.nodes.edges();
    }

    /// Makes the next piece of a guest's request in flight.
    fn put_piece(&mut self, guest: u32) -> Outcome
        requires { With (flight_at self.old.progress.guests guest) HasNext }
        ensures made { (f : Flight) → flight_at self.old.progress.guests guest ≡ Some f
            → IsPieceMade self.old self.new guest f result }
        ensures joined { IsJoined self.old.nodes }
        ensures unfolds { Unfolds self.old.nodes }
        ensures joined_then { IsJoined self.new.nodes }
        ensures whole { IsWholeWorld self.old }
    {
        let Some(drive) = self.names.drive(guest) else {
            unreachable!()
        };
        let node = self.names.disk_node(drive);
        let _ = self.nodes.edges();
        let written = next_written(&self.progress, guest);
        note_write(&mut self.names, node, self.progress.flying(guest));
        let outcome = self
            .buffer
            .make_next(&mut self.nodes, &mut self.progress, drive, node, guest);
        note_again(&mut self.works, &self.names, node, outcome, &written);
        note_written(&mut self.bitmaps, &self.names, drive, outcome, written);
        let _ = self.nodes.edges();
        outcome
    }

    /// Makes the next piece of a guest's request in flight, on its drive where it is read, else on the node that the drive reads as,
    /// and notes it. What is read through a copy-on-read is kept in the image below it. A fault that is named is one of a device
    /// which the drive leads to, and was reached in this call. Before it is written what is left of its block is copied for the backup
    /// of the disk, where there is one; what was written a mirror of the disk has to copy again. Takes no memory.
    pub fn piece(&mut self, guest: u32) -> Outcome
        requires { With (flight_at self.old.progress.guests guest) HasNext }
        ensures made { (f : Flight) → flight_at self.old.progress.guests guest ≡ Some f
            → IsPieceBehind self.old self.new guest f result }
        ensures comes { (o : Opening) → Comes o self.old → Comes o self.new }
    {
        self.guard_piece(guest);
        self.put_piece(guest)
    }
}
