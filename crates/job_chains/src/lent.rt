//! Laws of what commits make writable and of backing nodes, each the contract of a function that does nothing.
ghost use Rattle.std.specs.Prelude.{◌≡◌, ℕ, true, List, [], ◌∷◌, Contains, Option, None, Some};
ghost use Rattle.blk_base.specs.Pieces.{Extent};
ghost use Rattle.blk_base.specs.declared.fault.Outcome.{Outcome};
ghost use Rattle.blk_history.specs.declared.entry.JobEnd.{JobEnd};
ghost use Rattle.qmp_codec.specs.Commands.{Cmd};
ghost use Rattle.qmp_codec.specs.declared.command.Command.TheVariants.{BlockCommit, BlockStream, BlockdevBackup, BlockdevMirror};
ghost use Rattle.qmp_codec.specs.declared.event.JobKind.TheVariants.{Commit as CommitJob};
ghost use Rattle.qmp_codec.specs.declared.jobs.Backup.{Backup};
ghost use Rattle.qmp_codec.specs.declared.jobs.Commit.{Commit};
ghost use Rattle.qmp_codec.specs.declared.jobs.Mirror.{Mirror};
ghost use Rattle.qmp_codec.specs.declared.jobs.Stream.{Stream};
ghost use Rattle.qmp_codec.specs.declared.nodes.Created.{Created};
ghost use Rattle.qmp_rules.specs.declared.change.Change.{Change};
ghost use Rattle.qmp_rules.specs.declared.change.Change.TheVariants.{Attach, Move};
ghost use Rattle.qmp_rules.specs.declared.change.JobOutcome.{JobOutcome};
ghost use Rattle.qmp_rules.specs.declared.rows.JobRecord.{JobRecord};
ghost use Rattle.qmp_rules.specs.declared.told.Told.{Told};
ghost use Rattle.qmp_rules.specs.Answers.{command_edits, refusal_to};
ghost use Rattle.qmp_rules.specs.Chains.{is_settled, written_under};
ghost use Rattle.qmp_rules.specs.Changes.{all_changed};
ghost use Rattle.qmp_rules.specs.Edits.{edits_of, spoiled, start_edits, to_be_written};
ghost use Rattle.qmp_rules.specs.Ends.{end_edits};
ghost use Rattle.qmp_rules.specs.Table.{RunTable, job_at, opening_table};
ghost use Rattle.flat_machine.specs.State.{State};
ghost use Rattle.flat_machine.specs.Changed.{all_stepped};
ghost use Rattle.flat_machine.specs.Jobs.{ended, noted_end, readied, started, target_written};
ghost use Rattle.flat_machine.specs.Machine.{with_part};
ghost use Rattle.flat_machine.specs.Standing.{Stands, StandsAtRest};
ghost use Rattle.flat_machine.specs.Suiting.{AllTableSuit, HaveOneSize, NoneLeftIn};
ghost use Rattle.flat_machine.specs.Wiring.{TableAtRest, TableStands};
ghost use Rattle.job_entries.specs.Starts.{LendsAsRead};
ghost use Rattle.job_tables.specs.Accepted.{IsMet};
ghost use Rattle.job_tables.specs.Changes.{AllLeaveJobs, LeavesBySnapshot};
ghost use Rattle.job_tables.specs.Ends.{EndSuits, LentSuits, rebased_by};
ghost use Rattle.job_tables.specs.Jobs.{EdgesAreDrawn, JobsStand};
ghost use Rattle.job_tables.specs.Running.{JobsRun};
ghost use Rattle.job_tables.specs.Starts.{JobBegins};
ghost use Rattle.job_tables.specs.TargetFiles.{IsCopier, TargetFilesStand};
ghost use Rattle.trace_codec.specs.declared.op.Op.{Op};
ghost use Rattle.job_chains.specs.Lent.{AllBackUnleft, AllLeaveLent, BackedAreUnleft, BasesAreLent};

/// Each job can give back what it made writable: no filter is over a base, whose file was made writable with it alone. So it is at the
/// beginning, behind changes that leave jobs and put no node that copies what is read over a lent one, behind snapshots that have to
/// do with no job, and behind a creation of which a call failed and a guest's write.
pub fn bases_stay_lent()
    ensures beginning { (guests : List (List ℕ)) → BasesAreLent (opening_table guests) }
    ensures changes { (changes : List Change) (t : RunTable) → TableStands t → JobsStand t
        → AllTableSuit t changes → AllLeaveJobs t changes → AllLeaveLent t changes
        → BasesAreLent t → BasesAreLent (all_changed t changes) }
    ensures snapshots { (t : RunTable) (node overlay : ℕ) → JobsStand t
        → LeavesBySnapshot t node overlay → BasesAreLent t
        → BasesAreLent (all_changed t (Attach overlay node ∷ Move node overlay overlay ∷ [])) }
    ensures failed { (t : RunTable) (options : Created (List ℕ)) → BasesAreLent t
        → BasesAreLent (all_changed t (spoiled t options)) }
    ensures writes { (t : RunTable) (node : ℕ) → BasesAreLent t
        → BasesAreLent (written_under node t) }
{}

/// So it is behind the start of a job that can give back what it makes writable, as a commit can that does so with what may not be
/// written before; behind ends, and behind the note that a job is ready.
pub fn bases_stay_lent_while_jobs_run()
    ensures starts { (t : RunTable) (row : JobRecord) → TableStands t → JobsStand t
        → JobBegins t row → LentSuits t row → BasesAreLent t
        → BasesAreLent (all_changed t (start_edits t row)) }
    ensures read { (t : RunTable) (row : JobRecord) → TableStands t → JobsStand t
        → EdgesAreDrawn t → JobBegins t row → row.kind ≡ CommitJob
        → row.made_writable ≡ to_be_written t row.target → LentSuits t row }
    ensures ends { (t : RunTable) (row : JobRecord) (outcome : JobOutcome) → JobsStand t
        → Contains t.jobs row → BasesAreLent t
        → BasesAreLent (all_changed t (end_edits t row outcome)) }
    ensures noted { (s : State) (number : ℕ) (why : JobEnd) → JobsStand s.table
        → BasesAreLent s.table → BasesAreLent (ended s (job_at s.table number) why).table }
    ensures ready { (s : State) (number : ℕ) → BasesAreLent s.table
        → BasesAreLent (readied number s).table }
{}

/// So it is behind an accepted command, whatever was told of files. A transaction's actions are judged one by one, and aren't spoken of.
pub fn accepted_commands_leave_bases_lent()
    ensures commands { (t : RunTable) (told : Told) (c : Cmd) → TableAtRest t → JobsStand t
        → JobsRun t → EdgesAreDrawn t → BasesAreLent t → refusal_to t told c ≡ None
        → BasesAreLent (all_changed t (command_edits t told c)) }
    ensures backup { (t : RunTable) (told : Told) (c : Backup (List ℕ)) → TableStands t
        → JobsStand t → JobsRun t → IsMet t told (BlockdevBackup c)
        → BasesAreLent t → BasesAreLent (all_changed t (edits_of t told (BlockdevBackup c))) }
    ensures mirror { (t : RunTable) (told : Told) (c : Mirror (List ℕ)) → TableStands t
        → JobsStand t → JobsRun t → EdgesAreDrawn t → IsMet t told (BlockdevMirror c)
        → BasesAreLent t → BasesAreLent (all_changed t (edits_of t told (BlockdevMirror c))) }
    ensures stream { (t : RunTable) (told : Told) (c : Stream (List ℕ)) → TableStands t
        → JobsStand t → JobsRun t → IsMet t told (BlockStream c)
        → BasesAreLent t → BasesAreLent (all_changed t (edits_of t told (BlockStream c))) }
    ensures commit { (t : RunTable) (told : Told) (c : Commit (List ℕ)) → TableStands t
        → JobsStand t → JobsRun t → EdgesAreDrawn t → IsMet t told (BlockCommit c)
        → BasesAreLent t → BasesAreLent (all_changed t (edits_of t told (BlockCommit c))) }
{}

/// No disk is left in the file of a `file` node that is another node's backing node: so it is where there is no edge, behind changes that
/// make no node one in whose file a disk is left, as none is in that of a node with a flat disk; and behind a creation of which a call
/// failed and a guest's piece.
pub fn backed_files_stay_unleft()
    ensures beginning { (s : State) → s.table.edges ≡ [] → BackedAreUnleft s }
    ensures changes { (changes : List Change) (s : State) → TableStands s.table
        → AllTableSuit s.table changes → AllBackUnleft s changes → BackedAreUnleft s
        → BackedAreUnleft (all_stepped s changes) }
    ensures settled { (s : State) (node : ℕ) → Stands s → is_settled s.table node ≡ true
        → NoneLeftIn s node }
    ensures failed { (s : State) (options : Created (List ℕ)) → BackedAreUnleft s
        → BackedAreUnleft (all_stepped s (spoiled s.table options)) }
    ensures pieces { (s : State) (drive : ℕ) (op : Op) (outcome : Outcome) (part : Extent)
        → BackedAreUnleft s → BackedAreUnleft (with_part drive op outcome part s) }
{}

/// So it is behind the changes of a start and its note in the history, the note that a job is ready, and an end for which the state has
/// what it needs.
pub fn backed_files_stay_unleft_while_jobs_run()
    ensures starts { (s : State) (row : JobRecord) → TableStands s.table → JobsStand s.table
        → EdgesAreDrawn s.table → JobBegins s.table row → LendsAsRead s.table row row.kind
        → BackedAreUnleft s → BackedAreUnleft (all_stepped s (start_edits s.table row)) }
    ensures started { (s : State) (row : Option JobRecord) → BackedAreUnleft s
        → BackedAreUnleft (started s row) }
    ensures ready { (s : State) (number : ℕ) → BackedAreUnleft s
        → BackedAreUnleft (readied number s) }
    ensures ends { (s : State) (row : JobRecord) (why : JobEnd) → JobsStand s.table
        → Contains s.table.jobs row → EndSuits s row → BackedAreUnleft s
        → BackedAreUnleft (noted_end s row why) }
{}

/// So it is behind an accepted command, whatever was told of files. A transaction's actions are judged one by one, and aren't spoken of.
pub fn accepted_commands_leave_backed_files_unleft()
    ensures commands { (s : State) (told : Told) (c : Cmd) → StandsAtRest s → JobsStand s.table
        → JobsRun s.table → EdgesAreDrawn s.table → BackedAreUnleft s
        → refusal_to s.table told c ≡ None
        → BackedAreUnleft (all_stepped s (command_edits s.table told c)) }
    ensures backup { (s : State) (told : Told) (c : Backup (List ℕ)) → Stands s
        → JobsStand s.table → JobsRun s.table → EdgesAreDrawn s.table → BackedAreUnleft s
        → IsMet s.table told (BlockdevBackup c)
        → BackedAreUnleft (all_stepped s (edits_of s.table told (BlockdevBackup c))) }
    ensures mirror { (s : State) (told : Told) (c : Mirror (List ℕ)) → Stands s
        → JobsStand s.table → JobsRun s.table → EdgesAreDrawn s.table → BackedAreUnleft s
        → IsMet s.table told (BlockdevMirror c)
        → BackedAreUnleft (all_stepped s (edits_of s.table told (BlockdevMirror c))) }
    ensures stream { (s : State) (told : Told) (c : Stream (List ℕ)) → Stands s
        → JobsStand s.table → JobsRun s.table → EdgesAreDrawn s.table → BackedAreUnleft s
        → IsMet s.table told (BlockStream c)
        → BackedAreUnleft (all_stepped s (edits_of s.table told (BlockStream c))) }
    ensures commit { (s : State) (told : Told) (c : Commit (List ℕ)) → Stands s
        → JobsStand s.table → JobsRun s.table → EdgesAreDrawn s.table → BackedAreUnleft s
        → IsMet s.table told (BlockCommit c)
        → BackedAreUnleft (all_stepped s (edits_of s.table told (BlockCommit c))) }
{}

/// The end of a stream or commit has what it needs while jobs run, where the base has the size of its source, and of the node whose
/// backing node it is to be.
pub fn chains_suit_to_end()
    ensures { (s : State) (row : JobRecord) → Stands s → JobsStand s.table → JobsRun s.table
        → TargetFilesStand s → BasesAreLent s.table → BackedAreUnleft s
        → Contains s.table.jobs row → (IsCopier row.kind → ⊥)
        → ((target : ℕ) → target_written row ≡ Some target
        → HaveOneSize s.table row.source target)
        → ((node base : ℕ) → rebased_by row row.kind ≡ Some node → row.target ≡ Some base
        → HaveOneSize s.table node base)
        → EndSuits s row }
{}
