//! Laws of what is copied for jobs, each the contract of a function that does nothing.
ghost use Rattle.std.specs.Prelude.{◌≡◌, ◌<◌, ◌/◌, ℕ, Contains, Some, Bool, List, Option, Result, length};
ghost use Rattle.blk_base.specs.declared.fault.Fault.{Fault};
ghost use Rattle.blk_nodes.specs.Contents.{disk_of};
ghost use Rattle.blk_nodes.specs.Joined.{IsJoined};
ghost use Rattle.flat_machine.specs.EventLicence.{IsDoneFor, PieceOn};
ghost use Rattle.job_works.specs.Steps.{Guarded, Settled, Taken};
ghost use Rattle.qmp_rules.specs.Queries.{bytes_of_node};
ghost use Rattle.qmp_rules.specs.declared.rows.JobRecord.{JobRecord};
ghost use Rattle.trace_codec.specs.declared.op.Op.{Op};
ghost use Rattle.world_goings.specs.Copied.{LeavesFiles};
ghost use Rattle.world_parts.specs.Coherent.{IsWholeWorld};
ghost use Rattle.world_parts.specs.Face.{WorldSeen};
ghost use Rattle.world_parts.specs.Jobs.{GuardsBlock, SettlesBlock, TakesBlock, WritesTarget};
ghost use Rattle.world_jobs.specs.Copying.{HasRoomToCopy};
ghost use Rattle.world_jobs.specs.Guarding.{HasTarget};
ghost use Rattle.world_copies.specs.Copying.{IsStepOf};
ghost use Rattle.blk_copy.specs.declared.transfers.Transfer.{Transfer};
ghost use Rattle.block_jobs.specs.Work.{block_count};

/// A step of a job's copying is what the job does to the world: a block is read, written, or copied before a guest's write.
pub fn steps_are_copies()
    ensures takes { (w v : WorldSeen) (row : JobRecord) (buffer : List ℕ)
        (answer : Result (Option Transfer) Fault) → IsWholeWorld w
        → IsStepOf w v row (Taken row.kind w.nodes v.nodes row.source
        (length w.progress.log.events) buffer answer)
        → ((other : ℕ) → disk_of v.nodes other ≡ disk_of w.nodes other)
        → TakesBlock w v row buffer answer }
    ensures settles { (w v : WorldSeen) (row : JobRecord) (target : ℕ) (t : Transfer)
        (bytes : List ℕ) (answer : Bool) → IsWholeWorld w
        → IsStepOf w v row (Settled row.kind w.nodes v.nodes target t bytes answer)
        → row.target ≡ Some target → WritesTarget w.nodes v.nodes target
        → SettlesBlock w v row target t bytes answer × LeavesFiles w.nodes v.nodes target }
    ensures guards { (w v : WorldSeen) (drive : ℕ) (op : Op) (row : JobRecord)
        (target block : ℕ) → IsWholeWorld w
        → IsStepOf w v row (Guarded w.nodes v.nodes row.source target block)
        → IsDoneFor w.table (PieceOn drive op) row → row.target ≡ Some target
        → WritesTarget w.nodes v.nodes target
        → GuardsBlock w v drive op row target block × LeavesFiles w.nodes v.nodes target }
{}

/// And the parts of the world still belong together.
pub fn copies_keep_worlds_whole()
    ensures takes { (w v : WorldSeen) (row : JobRecord) (buffer : List ℕ)
        (answer : Result (Option Transfer) Fault) → IsWholeWorld w
        → TakesBlock w v row buffer answer → IsWholeWorld v }
    ensures settles { (w v : WorldSeen) (row : JobRecord) (target : ℕ) (t : Transfer)
        (bytes : List ℕ) (answer : Bool) → IsWholeWorld w → LeavesFiles w.nodes v.nodes target
        → SettlesBlock w v row target t bytes answer → IsWholeWorld v }
    ensures guards { (w v : WorldSeen) (drive : ℕ) (op : Op) (row : JobRecord)
        (target block : ℕ) → IsWholeWorld w → LeavesFiles w.nodes v.nodes target
        → GuardsBlock w v drive op row target block → IsWholeWorld v }
{}

/// A job of a world may have its next block read, what was read written to its target, and a block copied before a guest's write.
pub fn jobs_can_copy()
    ensures takes { (w : WorldSeen) (row : JobRecord) → IsWholeWorld w → IsJoined w.nodes
        → Contains w.table.jobs row → HasRoomToCopy w.nodes w.works row }
    ensures settles { (w : WorldSeen) (row : JobRecord) → IsWholeWorld w → IsJoined w.nodes
        → Contains w.table.jobs row → HasTarget w.nodes w.works row }
    ensures guards { (w : WorldSeen) (row : JobRecord) (place block : ℕ) → IsWholeWorld w
        → IsJoined w.nodes → Contains w.table.jobs row → block ≡ place / 65536
        → place < bytes_of_node w.table row.source
        → (has : HasTarget w.nodes w.works row) × (block < block_count has.has.work.size) }
{}
