//! Laws of jobs in the table, each the contract of a function that does nothing.
ghost use Rattle.std.specs.Prelude.{◌≡◌, ℕ, true, List, [], ◌∷◌, Contains, Some, None, IsSome, length, ◌≤◌, false};
ghost use Rattle.blk_graph.specs.declared.edge.Edge.{Edge};
ghost use Rattle.blk_graph.specs.declared.edge.Parent.TheVariants.{Guest};
ghost use Rattle.blk_graph.specs.declared.edge.Role.TheVariants.{Drive};
ghost use Rattle.blk_graph.specs.Paths.{IsAcyclic};
ghost use Rattle.qmp_codec.specs.Commands.{Cmd};
ghost use Rattle.qmp_codec.specs.declared.command.Command.TheVariants.{BlockStream, BlockCommit, BlockdevBackup, BlockdevMirror};
ghost use Rattle.qmp_codec.specs.declared.command.Command.TheVariants.{BlockdevCreate as BlockdevCreateOf};
ghost use Rattle.qmp_codec.specs.declared.nodes.BlockdevCreate.{BlockdevCreate};
ghost use Rattle.qmp_codec.specs.declared.nodes.Created.{Created};
ghost use Rattle.qmp_rules.specs.declared.refusal.Refusal.{Refusal};
ghost use Rattle.qmp_rules.specs.Refusals.{place_of};
ghost use Rattle.qmp_rules.specs.Chains.{disk_node, is_over, written_under};
ghost use Rattle.qmp_codec.specs.declared.jobs.Backup.{Backup};
ghost use Rattle.qmp_codec.specs.declared.jobs.Mirror.{Mirror};
ghost use Rattle.qmp_codec.specs.declared.jobs.Stream.{Stream};
ghost use Rattle.qmp_codec.specs.declared.jobs.Commit.{Commit};
ghost use Rattle.qmp_rules.specs.declared.told.Told.{Told};
ghost use Rattle.qmp_rules.specs.Answers.{refusal_to, command_edits};
ghost use Rattle.qmp_rules.specs.declared.change.Change.{Change};
ghost use Rattle.qmp_rules.specs.declared.change.Change.TheVariants.{Attach, Move};
ghost use Rattle.qmp_rules.specs.declared.change.JobOutcome.{JobOutcome};
ghost use Rattle.qmp_rules.specs.declared.rows.JobRecord.{JobRecord};
ghost use Rattle.qmp_rules.specs.Changes.{all_changed};
ghost use Rattle.qmp_rules.specs.Edits.{start_edits, stream_job, commit_job, backup_job, mirror_job, edits_of, spoiled};
ghost use Rattle.qmp_rules.specs.Ends.{end_edits};
ghost use Rattle.qmp_rules.specs.Table.{RunTable, job_at, kinds_of, opening_table};
ghost use Rattle.blk_history.specs.declared.entry.JobEnd.{JobEnd};
ghost use Rattle.flat_machine.specs.State.{State};
ghost use Rattle.flat_machine.specs.Changed.{all_stepped};
ghost use Rattle.flat_machine.specs.Jobs.{started, ended, readied};
ghost use Rattle.flat_machine.specs.Machine.{with_part};
ghost use Rattle.blk_base.specs.Pieces.{Extent};
ghost use Rattle.blk_base.specs.declared.fault.Outcome.{Outcome};
ghost use Rattle.trace_codec.specs.declared.op.Op.{Op};
ghost use Rattle.flat_machine.specs.Standing.{Stands};
ghost use Rattle.flat_machine.specs.Suiting.{AllSuit, AllTableSuit};
ghost use Rattle.flat_machine.specs.Wiring.{TableStands, TableAtRest};
ghost use Rattle.job_edges.specs.Held.{EdgesStand};
ghost use Rattle.job_edges.specs.Seen.{ReadsAlong, GoesBelow, FiltersAlong};
ghost use Rattle.job_tables.specs.Jobs.{JobsStand, EdgesAreDrawn};
ghost use Rattle.job_tables.specs.Changes.{AllLeaveJobs, LeavesBySnapshot};
ghost use Rattle.job_tables.specs.Starts.{JobBegins};
ghost use Rattle.job_tables.specs.Running.{JobsRun, AllLeaveDisks, RunBegins};
ghost use Rattle.job_tables.specs.TargetFiles.{TargetFilesStand};
ghost use Rattle.job_tables.specs.Copiers.{CopiesGo, CopierBegins, AllLeaveTargets};
ghost use Rattle.job_tables.specs.Accepted.{IsMet, Begins, JobsAreDrawn};
ghost use Rattle.job_tables.specs.Ends.{EndSuits};

/// However a job ends, and whatever was accepted while it ran, its changes leave edges that a graph may have: they keep the rule on
/// permissions, and make no cycle. So no end is refused.
pub fn ends_keep_permissions()
    ensures drawn { (t : RunTable) (row : JobRecord) (outcome : JobOutcome) → TableStands t
        → JobsStand t → EdgesAreDrawn t → Contains t.jobs row
        → EdgesAreDrawn (all_changed t (end_edits t row outcome)) }
    ensures acyclic { (t : RunTable) (row : JobRecord) (outcome : JobOutcome) → TableStands t
        → JobsStand t → EdgesAreDrawn t → Contains t.jobs row
        → IsAcyclic (all_changed t (end_edits t row outcome)).edges }
{}

/// However a job ends, the changes of its end leave the other jobs standing.
pub fn ends_leave_jobs()
    ensures { (t : RunTable) (row : JobRecord) (outcome : JobOutcome) → TableStands t → JobsStand t
        → EdgesAreDrawn t → Contains t.jobs row
        → JobsStand (all_changed t (end_edits t row outcome)) }
{}

/// However a job ends, each change of its end suits the state that the ones before leave, where the state has what the end of the job needs:
/// so what holds of all states holds behind the end.
pub fn ends_stand()
    ensures suit { (s : State) (row : JobRecord) (outcome : JobOutcome) → Stands s
        → JobsStand s.table → EdgesAreDrawn s.table → Contains s.table.jobs row → EndSuits s row
        → AllSuit s (end_edits s.table row outcome) }
    ensures stand { (s : State) (row : JobRecord) (outcome : JobOutcome) → Stands s
        → JobsStand s.table → EdgesAreDrawn s.table → Contains s.table.jobs row → EndSuits s row
        → Stands (all_stepped s (end_edits s.table row outcome)) }
{}

/// So it is of a state behind the end of a job as a history notes it, and behind the note that one is ready.
pub fn noted_ends_keep_jobs()
    ensures drawn { (s : State) (number : ℕ) (why : JobEnd) → TableStands s.table
        → JobsStand s.table → EdgesAreDrawn s.table
        → EdgesAreDrawn (ended s (job_at s.table number) why).table }
    ensures stand { (s : State) (number : ℕ) (why : JobEnd) → TableStands s.table
        → JobsStand s.table → EdgesAreDrawn s.table
        → JobsStand (ended s (job_at s.table number) why).table }
    ensures ready { (s : State) (number : ℕ) → JobsStand s.table
        → JobsStand (readied number s).table }
{}

/// Where slot and number are no other job's, its nodes are plain and no other job's, and its chain, target and filter are as the
/// kind of the job asks, jobs stand behind the changes of its start.
pub fn starts_make_jobs_stand()
    ensures { (t : RunTable) (row : JobRecord) → TableStands t → JobsStand t → JobBegins t row
        → JobsStand (all_changed t (start_edits t row)) }
{}

/// The edges of a table in which jobs stand are such as the laws of jobs' edges speak of.
pub fn edges_of_jobs_stand()
    ensures { (t : RunTable) → TableStands t → JobsStand t → EdgesAreDrawn t
        → EdgesStand (kinds_of t.nodes) t.edges }
{}

/// No guest that may write has below its filters what another one has as a backing node or below that, while commits run too.
pub fn no_guest_writes_what_is_read()
    ensures { (t : RunTable) (writer reader : Edge) (guest node : ℕ) (along down : List Edge)
        → TableStands t → JobsStand t → EdgesAreDrawn t → Contains t.edges writer
        → writer.parent ≡ Guest guest → writer.role ≡ Drive → writer.perm.write ≡ true
        → FiltersAlong (kinds_of t.nodes) t.edges writer.child along node
        → Contains t.edges reader → reader.perm.read ≡ true
        → ReadsAlong (kinds_of t.nodes) t.edges reader.child down node → GoesBelow down → ⊥ }
{}

/// Jobs stand at the beginning, where there are none, and behind changes of which none begins or ends one, or has to do with its
/// nodes: files are made, nodes and guests come and go, bitmaps change, jobs are asked to end and become ready.
pub fn changes_leave_jobs()
    ensures beginning { (guests : List (List ℕ)) → JobsStand (opening_table guests) }
    ensures changes { (changes : List Change) (t : RunTable) → TableStands t → JobsStand t
        → AllTableSuit t changes → AllLeaveJobs t changes → JobsStand (all_changed t changes) }
{}

/// Jobs stand behind a snapshot that has to do with none of them.
pub fn snapshots_leave_jobs()
    ensures { (t : RunTable) (node overlay : ℕ) → JobsStand t → LeavesBySnapshot t node overlay
        → JobsStand (all_changed t (Attach overlay node ∷ Move node overlay overlay ∷ [])) }
{}

/// Each job has a number below that of the next one, a settled source, and a target or base that may be written, has no flat disk,
/// and stands for no file but a used one. So it is at the beginning and behind changes that leave jobs and their disks.
pub fn jobs_run_on()
    ensures beginning { (guests : List (List ℕ)) → JobsRun (opening_table guests) }
    ensures changes { (changes : List Change) (t : RunTable) → TableStands t → JobsStand t
        → AllTableSuit t changes → AllLeaveJobs t changes → AllLeaveDisks t changes → JobsRun t
        → JobsRun (all_changed t changes) }
    ensures snapshots { (t : RunTable) (node overlay : ℕ) → JobsRun t
        → JobsRun (all_changed t (Attach overlay node ∷ Move node overlay overlay ∷ [])) }
{}

/// So it is behind the start of a job that begins so, behind ends, and behind the note that one is ready.
pub fn starts_and_ends_keep_running()
    ensures starts { (t : RunTable) (row : JobRecord) → TableStands t → JobsStand t → JobsRun t
        → JobBegins t row → RunBegins t row → JobsRun (all_changed t (start_edits t row)) }
    ensures ends { (t : RunTable) (row : JobRecord) (outcome : JobOutcome) → TableStands t
        → JobsStand t → JobsRun t → Contains t.jobs row
        → JobsRun (all_changed t (end_edits t row outcome)) }
    ensures noted { (s : State) (number : ℕ) (why : JobEnd) → TableStands s.table
        → JobsStand s.table → JobsRun s.table
        → JobsRun (ended s (job_at s.table number) why).table }
    ensures ready { (s : State) (number : ℕ) → JobsRun s.table → JobsRun (readied number s).table }
{}

/// Behind the changes of an accepted command, whatever was told of files, jobs stand and run as before, and edges may be drawn.
pub fn accepted_commands_keep_jobs()
    ensures stand { (t : RunTable) (told : Told) (c : Cmd) → TableAtRest t → JobsStand t
        → JobsRun t → EdgesAreDrawn t → refusal_to t told c ≡ None
        → JobsStand (all_changed t (command_edits t told c)) }
    ensures run { (t : RunTable) (told : Told) (c : Cmd) → TableAtRest t → JobsStand t
        → JobsRun t → EdgesAreDrawn t → refusal_to t told c ≡ None
        → JobsRun (all_changed t (command_edits t told c)) }
    ensures drawn { (t : RunTable) (told : Told) (c : Cmd) → TableAtRest t → JobsAreDrawn t
        → length t.guests ≤ 16 → refusal_to t told c ≡ None
        → JobsAreDrawn (all_changed t (command_edits t told c)) }
{}

/// So it is behind a creation of which a call failed, of whose file no node that a job has stands; and behind a guest's write, after
/// which jobs run where no source is over what was written.
pub fn failures_and_writes_keep_jobs()
    ensures failed { (t : RunTable) (told : Told) (c : BlockdevCreate (List ℕ)) (cause : Refusal)
        → TableStands t → JobsAreDrawn t
        → refusal_to t told (BlockdevCreateOf c) ≡ Some cause → place_of cause ≡ None
        → JobsAreDrawn (all_changed t (spoiled t c.options)) }
    ensures files { (s : State) (told : Told) (c : BlockdevCreate (List ℕ)) (cause : Refusal)
        → TableStands s.table → JobsStand s.table
        → refusal_to s.table told (BlockdevCreateOf c) ≡ Some cause → place_of cause ≡ None
        → TargetFilesStand s → TargetFilesStand (all_stepped s (spoiled s.table c.options)) }
    ensures stand { (t : RunTable) (node : ℕ) → TableStands t → JobsStand t
        → JobsStand (written_under node t) }
    ensures run { (t : RunTable) (node : ℕ)
        → ((row : JobRecord) → Contains t.jobs row → is_over t node row.source ≡ false)
        → JobsRun t → JobsRun (written_under node t) }
{}

/// No job's source is over what a guest may write: so its writes leave jobs standing and running, with edges that may be drawn.
pub fn guests_writes_keep_jobs()
    ensures { (t : RunTable) (writer : Edge) (guest : ℕ) → TableStands t → JobsAreDrawn t
        → Contains t.edges writer → writer.parent ≡ Guest guest → writer.role ≡ Drive
        → writer.perm.write ≡ true
        → JobsAreDrawn (written_under (disk_node t writer.child) t) }
{}

/// What a command that starts a job is accepted with makes the job of its row begin.
pub fn accepted_starts_begin()
    ensures backup { (t : RunTable) (told : Told) (c : Backup (List ℕ)) → TableStands t
        → JobsStand t → JobsRun t → IsMet t told (BlockdevBackup c)
        → Begins t (backup_job t None c) }
    ensures mirror { (t : RunTable) (told : Told) (c : Mirror (List ℕ)) → TableStands t
        → JobsStand t → JobsRun t → EdgesAreDrawn t → IsMet t told (BlockdevMirror c)
        → Begins t (mirror_job t c) }
    ensures stream { (t : RunTable) (told : Told) (c : Stream (List ℕ)) → TableStands t
        → JobsStand t → JobsRun t → IsMet t told (BlockStream c) → Begins t (stream_job t c) }
    ensures commit { (t : RunTable) (told : Told) (c : Commit (List ℕ)) → TableStands t
        → JobsAreDrawn t → IsMet t told (BlockCommit c) → Begins t (commit_job t c) }
{}

/// So jobs stand and run behind its changes, and their edges are drawn.
pub fn accepted_starts_keep_jobs()
    ensures backup { (t : RunTable) (told : Told) (c : Backup (List ℕ)) → TableStands t
        → JobsAreDrawn t → IsMet t told (BlockdevBackup c)
        → JobsAreDrawn (all_changed t (edits_of t told (BlockdevBackup c))) }
    ensures mirror { (t : RunTable) (told : Told) (c : Mirror (List ℕ)) → TableStands t
        → JobsAreDrawn t → IsMet t told (BlockdevMirror c)
        → JobsAreDrawn (all_changed t (edits_of t told (BlockdevMirror c))) }
    ensures stream { (t : RunTable) (told : Told) (c : Stream (List ℕ)) → TableStands t
        → JobsAreDrawn t → IsMet t told (BlockStream c)
        → JobsAreDrawn (all_changed t (edits_of t told (BlockStream c))) }
    ensures commit { (t : RunTable) (told : Told) (c : Commit (List ℕ)) → TableStands t
        → JobsAreDrawn t → IsMet t told (BlockCommit c)
        → JobsAreDrawn (all_changed t (edits_of t told (BlockCommit c))) }
{}

/// Of a file that a job writes nothing is known, and no disk is left in it: so it is where there is no job, and behind changes that
/// leave jobs and their disks, behind accepted commands where no start is still to come, and behind pieces of guests' requests.
pub fn target_files_stand()
    ensures beginning { (s : State) → s.table.jobs ≡ [] → TargetFilesStand s }
    ensures changes { (changes : List Change) (s : State) → TableStands s.table
        → JobsStand s.table → AllTableSuit s.table changes → AllLeaveJobs s.table changes
        → AllLeaveDisks s.table changes → TargetFilesStand s
        → TargetFilesStand (all_stepped s changes) }
    ensures commands { (s : State) (told : Told) (c : Cmd) → TableAtRest s.table
        → JobsStand s.table → JobsRun s.table → EdgesAreDrawn s.table
        → s.starts ≡ s.table.started → refusal_to s.table told c ≡ None → TargetFilesStand s
        → TargetFilesStand (all_stepped s (command_edits s.table told c)) }
    ensures pieces { (s : State) (drive : ℕ) (op : Op) (outcome : Outcome) (part : Extent)
        → TargetFilesStand s → TargetFilesStand (with_part drive op outcome part s) }
{}

/// So it is behind the changes of a start, its note in the history, the note that a job is ready, and ends.
pub fn target_files_stand_while_jobs_run()
    ensures starts { (s : State) (row : JobRecord) → TableStands s.table → JobsStand s.table
        → JobsRun s.table → Begins s.table row → s.starts ≡ s.table.started → TargetFilesStand s
        → TargetFilesStand (all_stepped s (start_edits s.table row)) }
    ensures started { (s : State) (number : ℕ) → TableStands s.table → JobsStand s.table
        → number ≡ s.starts → IsSome (job_at s.table number) → TargetFilesStand s
        → TargetFilesStand (started s (job_at s.table number)) }
    ensures ready { (s : State) (number : ℕ) → TableStands s.table → JobsStand s.table
        → TargetFilesStand s → TargetFilesStand (readied number s) }
    ensures ended { (s : State) (number : ℕ) (why : JobEnd) → TableStands s.table
        → JobsStand s.table → TargetFilesStand s
        → TargetFilesStand (ended s (job_at s.table number) why) }
{}

/// The job's edge alone leads to the target of a backup or mirror, which has the source's size. So it is at the beginning, behind
/// changes that leave jobs and lead nothing to a target, snapshots that have to do with no job, and behind a creation of which a call
/// failed and a guest's write.
pub fn targets_stay_alone()
    ensures beginning { (guests : List (List ℕ)) → CopiesGo (opening_table guests) }
    ensures changes { (changes : List Change) (t : RunTable) → TableStands t → JobsStand t
        → AllTableSuit t changes → AllLeaveJobs t changes → AllLeaveTargets t changes
        → CopiesGo t → CopiesGo (all_changed t changes) }
    ensures snapshots { (t : RunTable) (node overlay : ℕ) → JobsStand t
        → LeavesBySnapshot t node overlay → CopiesGo t
        → CopiesGo (all_changed t (Attach overlay node ∷ Move node overlay overlay ∷ [])) }
    ensures failed { (t : RunTable) (options : Created (List ℕ)) → CopiesGo t
        → CopiesGo (all_changed t (spoiled t options)) }
    ensures writes { (t : RunTable) (node : ℕ) → CopiesGo t → CopiesGo (written_under node t) }
{}

/// So it is behind the start of a job, of which the target of a backup or mirror has no parent and the source's size; behind ends,
/// and behind the note that a job is ready.
pub fn targets_stay_alone_while_jobs_run()
    ensures starts { (t : RunTable) (row : JobRecord) → TableStands t → JobsStand t
        → JobBegins t row → CopierBegins t row → CopiesGo t
        → CopiesGo (all_changed t (start_edits t row)) }
    ensures ends { (t : RunTable) (row : JobRecord) (outcome : JobOutcome) → JobsStand t
        → Contains t.jobs row → CopiesGo t → CopiesGo (all_changed t (end_edits t row outcome)) }
    ensures noted { (s : State) (number : ℕ) (why : JobEnd) → JobsStand s.table
        → CopiesGo s.table → CopiesGo (ended s (job_at s.table number) why).table }
    ensures ready { (s : State) (number : ℕ) → CopiesGo s.table
        → CopiesGo (readied number s).table }
{}

/// So it is behind an accepted command, whatever was told of files. A transaction's actions are judged one by one, and aren't spoken of.
pub fn accepted_commands_leave_targets_alone()
    ensures commands { (t : RunTable) (told : Told) (c : Cmd) → TableAtRest t → JobsStand t
        → JobsRun t → EdgesAreDrawn t → CopiesGo t → refusal_to t told c ≡ None
        → CopiesGo (all_changed t (command_edits t told c)) }
    ensures backup { (t : RunTable) (told : Told) (c : Backup (List ℕ)) → TableStands t
        → JobsStand t → JobsRun t → IsMet t told (BlockdevBackup c)
        → CopiesGo t → CopiesGo (all_changed t (edits_of t told (BlockdevBackup c))) }
    ensures mirror { (t : RunTable) (told : Told) (c : Mirror (List ℕ)) → TableStands t
        → JobsStand t → JobsRun t → EdgesAreDrawn t → IsMet t told (BlockdevMirror c)
        → CopiesGo t → CopiesGo (all_changed t (edits_of t told (BlockdevMirror c))) }
    ensures stream { (t : RunTable) (told : Told) (c : Stream (List ℕ)) → TableStands t
        → JobsStand t → JobsRun t → IsMet t told (BlockStream c)
        → CopiesGo t → CopiesGo (all_changed t (edits_of t told (BlockStream c))) }
    ensures commit { (t : RunTable) (told : Told) (c : Commit (List ℕ)) → TableStands t
        → JobsStand t → JobsRun t → EdgesAreDrawn t → IsMet t told (BlockCommit c)
        → CopiesGo t → CopiesGo (all_changed t (edits_of t told (BlockCommit c))) }
{}
