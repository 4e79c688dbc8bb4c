//! Laws of what jobs do to a world, each the contract of a function that does nothing.
ghost use Rattle.std.specs.Prelude.{◌≡◌, ◌≢◌, ◌≤◌, ◌++◌, ◌∷◌, [], ℕ, Bool, true, Contains, List, None, Ok, Option, Result, Some, is_some};
ghost use Rattle.blk_base.specs.Pieces.{Extent, end_of};
ghost use Rattle.blk_base.specs.declared.fault.Fault.{Fault};
ghost use Rattle.blk_copy.specs.declared.transfers.Transfer.{Transfer};
ghost use Rattle.trace_codec.specs.declared.op.Op.{Op};
ghost use Rattle.blk_history.specs.declared.entry.JobEnd.{JobEnd};
ghost use Rattle.blk_nodes.specs.Contents.{Unfolds};
ghost use Rattle.blk_nodes.specs.Joined.{IsJoined};
ghost use Rattle.blk_nodes.specs.Nodes.{Nodes};
ghost use Rattle.qmp_codec.specs.Lines.{command_at};
ghost use Rattle.qmp_rules.specs.Answers.{command_edits, line_text, refusal_to};
ghost use Rattle.qmp_rules.specs.Changes.{all_changed};
ghost use Rattle.qmp_rules.specs.Queries.{bytes_of_node};
ghost use Rattle.qmp_rules.specs.Table.{RunTable};
ghost use Rattle.qmp_rules.specs.declared.told.Told.{Told};
ghost use Rattle.qmp_rules.specs.declared.rows.JobRecord.{JobRecord};
ghost use Rattle.flat_machine.specs.Legal.{IsNotDone};
ghost use Rattle.flat_machine.specs.Performing.{AllPerformed};
ghost use Rattle.flat_machine.specs.Replies.{is_accepted};
ghost use Rattle.flat_machine.specs.State.{State};
ghost use Rattle.flat_machine.specs.declared.opening.Opening.{Opening};
ghost use Rattle.job_entries.specs.Starts.{ShowsFilter};
ghost use Rattle.job_progress.specs.Piecing.{IsGuarded};
ghost use Rattle.world_parts.specs.Carrying.{IsReplied};
ghost use Rattle.world_parts.specs.Coherent.{IsCoherent, IsWholeWorld};
ghost use Rattle.world_parts.specs.Comes.{Comes};
ghost use Rattle.world_parts.specs.Face.{WorldSeen, contents_of, seen_state};
ghost use Rattle.world_parts.specs.Jobs.{BeginsOne, EndsJob, GuardsBlock, HasCopiedAll, PutsFilter, ReadiesJob, ReadsAsSource, SettlesBlock, TakesBlock};
ghost use Rattle.world_parts.specs.Saying.{Given};
ghost use Rattle.job_commands.specs.Begun.{CopyCmd, cmd_of, copy_job};
ghost use Rattle.world_goings.specs.Begun.{CanCopyWhole};
ghost use Rattle.blk_copy.specs.Rows.{is_in_flight};
ghost use Rattle.block_jobs.specs.Work.{JobWork, next_block, sectors_left};
ghost use Rattle.flat_machine.specs.Marks.{Drained};
ghost use Rattle.job_works.specs.Works.{marked_again, without_work, work_of};
ghost use Rattle.qmp_codec.specs.declared.event.JobKind.TheVariants.{Mirror};
ghost use Rattle.world_goings.specs.Copied.{FailedAreDone, IsDoneOnceFailed, IsInBlock, LeavesFiles, WasRead};

/// A world still comes of its opening where a block is read for a job, where one that was read is written, and where one is
/// copied before a guest's write.
pub fn copies_keep_worlds_coming()
    ensures takes { (o : Opening) (w v : WorldSeen) (row : JobRecord) (buffer : List ℕ)
        (answer : Result (Option Transfer) Fault) → Comes o w → IsWholeWorld w
        → TakesBlock w v row buffer answer → Comes o v }
    ensures settles { (o : Opening) (w v : WorldSeen) (row : JobRecord) (target : ℕ)
        (t : Transfer) (bytes : List ℕ) (answer : Bool) → Comes o w → IsWholeWorld w
        → IsJoined w.nodes → WasRead o w row t bytes
        → SettlesBlock w v row target t bytes answer → Comes o v }
    ensures guards { (o : Opening) (w v : WorldSeen) (drive : ℕ) (op : Op) (row : JobRecord)
        (target block : ℕ) → Comes o w → IsWholeWorld w → IsJoined w.nodes
        → LeavesFiles w.nodes v.nodes target → GuardsBlock w v drive op row target block
        → Comes o v }
{}

/// Of a job that met a fault no block is read, none is copied, and no copy is in flight.
pub fn nothing_is_done_once_failed()
    ensures next { (work : JobWork) (block : ℕ) → IsDoneOnceFailed work
        → next_block work ≡ Some block → work.met ≡ None }
    ensures left { (work : JobWork) (block : ℕ) → IsDoneOnceFailed work
        → sectors_left work block ≢ 0 → work.met ≡ None }
    ensures flight { (work : JobWork) (t : Transfer) → IsDoneOnceFailed work
        → is_in_flight t work.rows ≡ true → work.met ≡ None }
    ensures begun { (works : List JobWork) (work : JobWork) → work.met ≡ None
        → FailedAreDone works → FailedAreDone (works ++ work ∷ []) }
    ensures marked { (job : ℕ) (span : Extent) (works : List JobWork) → FailedAreDone works
        → FailedAreDone (marked_again job span works) }
    ensures gone { (job : ℕ) (works : List JobWork) → FailedAreDone works
        → FailedAreDone (without_work job works) }
{}

/// Then a backup owes nothing of a part of its source that lies in the block.
pub fn guarded_parts_may_be_written()
    ensures { (w v : WorldSeen) (drive : ℕ) (op : Op) (row : JobRecord) (target block : ℕ)
        (part : Extent) → IsWholeWorld w → GuardsBlock w v drive op row target block
        → IsInBlock part block → end_of part ≤ bytes_of_node w.table row.source
        → IsGuarded v.table v.works row.source part }
{}

/// So it is where a job ends.
pub fn ends_keep_worlds_coming()
    ensures { (o : Opening) (w v : WorldSeen) (row : JobRecord) (why : JobEnd) (offset : ℕ)
        → Comes o w → IsWholeWorld w → IsJoined w.nodes → Unfolds w.nodes
        → EndsJob w v row why offset → IsJoined v.nodes → Comes o v }
{}

/// The changes of an accepted start, with its filter over its source, keep the parts of the world together. Its filter reads as its
/// source then, all else reads and holds the same, and so the changes were performed.
pub fn accepted_starts_keep_parts_together()
    ensures coherent { (w : WorldSeen) (u : RunTable) (nodes : Nodes) (told expected : Told)
        (c : CopyCmd) → IsWholeWorld w → IsJoined w.nodes
        → refusal_to w.table told (cmd_of c) ≡ None
        → u ≡ all_changed w.table (command_edits w.table expected (cmd_of c))
        → PutsFilter u (copy_job w.table c) w.nodes nodes → IsJoined nodes
        → IsCoherent u nodes w.opened w.progress }
    ensures shown { (w : WorldSeen) (u : RunTable) (nodes : Nodes) (told expected : Told)
        (c : CopyCmd) → IsWholeWorld w → IsJoined w.nodes → Unfolds w.nodes
        → refusal_to w.table told (cmd_of c) ≡ None
        → u ≡ all_changed w.table (command_edits w.table expected (cmd_of c))
        → PutsFilter u (copy_job w.table c) w.nodes nodes → IsJoined nodes
        → ShowsFilter (copy_job w.table c) (contents_of w)
        (contents_of (record w { table = u; nodes = nodes })) }
    ensures performed { (w : WorldSeen) (u : RunTable) (nodes : Nodes) (told expected : Told)
        (c : CopyCmd) (s : State) → IsWholeWorld w → IsJoined w.nodes → Unfolds w.nodes
        → refusal_to w.table told (cmd_of c) ≡ None
        → u ≡ all_changed w.table (command_edits w.table expected (cmd_of c))
        → PutsFilter u (copy_job w.table c) w.nodes nodes → IsJoined nodes
        → s.table ≡ w.table
        → AllPerformed s (command_edits w.table expected (cmd_of c)) (contents_of w)
        (contents_of (record w { table = u; nodes = nodes })) }
{}

/// So a world still comes of its opening where a job begins behind the reply to its command.
pub fn starts_keep_worlds_coming()
    ensures { (o : Opening) (w x v : WorldSeen) (line : Given) (c : CopyCmd) → Comes o w
        → IsWholeWorld w → IsJoined w.nodes → Unfolds w.nodes
        → CanCopyWhole o w (copy_job w.table c) → IsNotDone (seen_state w) 0
        → command_at line.text ≡ Ok (cmd_of c) → (replied : IsReplied w x line)
        → is_accepted (line_text w.table replied.told line.text) ≡ true → IsJoined x.nodes
        → BeginsOne w.table x v → Comes o v }
{}

/// A mirror for which no call failed, and of which nothing is left and no copy is in flight, has its target read as its source where
/// the store tells its files. So it is when it is ready, and a world still comes of its opening then.
pub fn ready_mirrors_agree()
    ensures agrees { (o : Opening) (w : WorldSeen) (row : JobRecord) (work : JobWork) → Comes o w
        → IsWholeWorld w → IsJoined w.nodes → is_some w.files ≡ true
        → Contains w.table.jobs row → row.kind ≡ Mirror → work_of w.works row.number ≡ Some work
        → work.met ≡ None → HasCopiedAll work → ReadsAsSource w row }
    ensures comes { (o : Opening) (w v : WorldSeen) (row : JobRecord) → Comes o w
        → IsWholeWorld w → IsJoined w.nodes → ReadiesJob w v row → Comes o v }
{}

/// Drains leave all that comes of an opening.
pub fn drains_keep_worlds_coming()
    ensures { (o : Opening) (w : WorldSeen) (drains : Drained) → Comes o w
        → Comes o (record w { drains = drains }) }
{}
