//! Laws of backups, mirrors and commits while they run and at their ends, each the contract of a function that does nothing.
ghost use Rattle.std.specs.Prelude.{◌≡◌, ◌≤◌, ℕ, Bool, true, List, [], ◌∷◌, ◌++◌, Contains, Option, Some, Result};
ghost use Rattle.blk_base.specs.Pieces.{Extent};
ghost use Rattle.blk_base.specs.declared.fault.Fault.{Fault};
ghost use Rattle.blk_base.specs.declared.fault.Outcome.{Outcome};
ghost use Rattle.blk_copy.specs.declared.transfers.Transfer.{Transfer};
ghost use Rattle.blk_history.specs.declared.entry.JobEnd.{JobEnd};
ghost use Rattle.blk_history.specs.declared.event.Event.{Event};
ghost use Rattle.blk_history.specs.declared.event.Event.TheVariants.{End};
ghost use Rattle.blk_nodes.specs.Nodes.{Nodes};
ghost use Rattle.block_jobs.specs.Work.{JobWork, after_copy, after_settle, after_take, failed_by, left_again, next_block};
ghost use Rattle.qmp_codec.specs.Commands.{Cmd};
ghost use Rattle.qmp_codec.specs.declared.event.JobKind.{JobKind};
ghost use Rattle.qmp_codec.specs.declared.event.JobKind.TheVariants.{Commit};
ghost use Rattle.qmp_codec.specs.declared.jobs.Backup.{Backup};
ghost use Rattle.qmp_codec.specs.declared.jobs.Mirror.{Mirror};
ghost use Rattle.qmp_rules.specs.declared.change.Change.{Change};
ghost use Rattle.qmp_rules.specs.declared.change.Change.TheVariants.{Attach, Move};
ghost use Rattle.qmp_rules.specs.declared.change.JobOutcome.{JobOutcome};
ghost use Rattle.qmp_rules.specs.declared.rows.JobRecord.{JobRecord};
ghost use Rattle.qmp_rules.specs.declared.told.Told.{Told};
ghost use Rattle.qmp_rules.specs.Answers.{command_edits};
ghost use Rattle.qmp_rules.specs.Changes.{all_changed};
ghost use Rattle.qmp_rules.specs.Edits.{backup_job, mirror_job, start_edits};
ghost use Rattle.qmp_rules.specs.Ends.{end_edits};
ghost use Rattle.qmp_rules.specs.Table.{RunTable, job_at};
ghost use Rattle.flat_machine.specs.State.{State};
ghost use Rattle.flat_machine.specs.Agreement.{Contents, Agrees, ReadAsDisks};
ghost use Rattle.flat_machine.specs.Changed.{all_stepped};
ghost use Rattle.flat_machine.specs.Imaging.{ShowsImages};
ghost use Rattle.flat_machine.specs.Jobs.{changes_at_end, ended, noted_end, outcome_of, readied, started};
ghost use Rattle.flat_machine.specs.Legal.{AllStarted};
ghost use Rattle.flat_machine.specs.Machine.{after, replay, with_part};
ghost use Rattle.flat_machine.specs.Opening.{start};
ghost use Rattle.flat_machine.specs.Performing.{AllPerformed, Rewrites};
ghost use Rattle.flat_machine.specs.Standing.{Stands};
ghost use Rattle.flat_machine.specs.Suiting.{AllTableSuit, NoneLeftIn};
ghost use Rattle.flat_machine.specs.Wiring.{TableStands};
ghost use Rattle.flat_machine.specs.declared.opening.Opening.{Opening};
ghost use Rattle.job_copies.specs.Passing.{PassesNext};
ghost use Rattle.job_entries.specs.Ends.{RestsToEnd, ShowsEnd, renamed};
ghost use Rattle.job_entries.specs.Found.{leaves_jobs};
ghost use Rattle.job_progress.specs.Beginning.{work_begun};
ghost use Rattle.job_progress.specs.Belonging.{AreWorksOf};
ghost use Rattle.job_progress.specs.Going.{AreJobsAhead, copies_blocks};
ghost use Rattle.job_progress.specs.Leaving.{AllLeaveCopies};
ghost use Rattle.job_progress.specs.Piecing.{marked_by};
ghost use Rattle.job_tables.specs.Changes.{AllLeaveJobs};
ghost use Rattle.job_tables.specs.Ends.{EndSuits};
ghost use Rattle.job_tables.specs.Jobs.{JobsStand};
ghost use Rattle.job_tables.specs.Running.{JobsRun};
ghost use Rattle.job_tables.specs.Starts.{JobBegins};
ghost use Rattle.job_tables.specs.TargetFiles.{TargetFilesStand};
ghost use Rattle.job_works.specs.Steps.{Guarded, Settled, Taken};
ghost use Rattle.job_works.specs.Works.{ChangesWork, marked_again, without_work};
ghost use Rattle.trace_codec.specs.declared.op.Op.{Op};
ghost use Rattle.job_tables.specs.Copiers.{CopiesGo};
ghost use Rattle.job_ends.specs.Rows.{AllBeginCopyRows, AreCopyRows, IsCopyRow};
ghost use Rattle.job_ends.specs.Ended.{LosesFilter, MayEndSo};
ghost use Rattle.job_ends.specs.Idle.{AllMetAreIdle, MetIsIdle};
ghost use Rattle.job_ends.specs.Images.{HeldAreUnsure};
ghost use Rattle.job_ends.specs.Targets.{WritesAside, WritesBase};

/// The rows of backups and mirrors are as their starts put them, whatever changes and entries come: at the beginning there are none,
/// and those that commands begin are so. So it is behind any history.
pub fn rows_of_copies_stay()
    ensures beginning { AreCopyRows [] }
    ensures changes { (changes : List Change) (t : RunTable) → AllBeginCopyRows changes
        → AreCopyRows t.jobs → AreCopyRows (all_changed t changes).jobs }
    ensures leaves { (changes : List Change) (t : RunTable) → AllLeaveJobs t changes
        → AreCopyRows t.jobs → AreCopyRows (all_changed t changes).jobs }
    ensures starts { (t : RunTable) (row : JobRecord)
        → (copies_blocks row.kind ≡ true → IsCopyRow row) → AreCopyRows t.jobs
        → AreCopyRows (all_changed t (start_edits t row)).jobs }
    ensures ends { (t : RunTable) (row : JobRecord) (outcome : JobOutcome) → AreCopyRows t.jobs
        → AreCopyRows (all_changed t (end_edits t row outcome)).jobs }
    ensures backup { (t : RunTable) (group : Option ℕ) (c : Backup (List ℕ))
        → IsCopyRow (backup_job t group c) }
    ensures mirror { (t : RunTable) (c : Mirror (List ℕ)) → IsCopyRow (mirror_job t c) }
    ensures commands { (t : RunTable) (told : Told) (c : Cmd) → AreCopyRows t.jobs
        → AreCopyRows (all_changed t (command_edits t told c)).jobs }
    ensures entries { (s : State) (e : Event) → AreCopyRows s.table.jobs
        → AreCopyRows (after s e).table.jobs }
    ensures histories { (o : Opening) (h : List Event)
        → AreCopyRows (replay (start o) h).table.jobs }
{}

/// The end of a backup or mirror has what it needs while jobs run, once their starts stand in the history, and what it rests on.
pub fn copies_can_end()
    ensures suits { (s : State) (row : JobRecord) → Stands s → JobsRun s.table → CopiesGo s.table
        → AreCopyRows s.table.jobs → TargetFilesStand s → AllStarted s
        → Contains s.table.jobs row → copies_blocks row.kind ≡ true → EndSuits s row }
    ensures rests { (s : State) (row : JobRecord) → Stands s → JobsStand s.table → JobsRun s.table
        → Contains s.table.jobs row → copies_blocks row.kind ≡ true → RestsToEnd s row }
{}

/// Where a backup or mirror whose copy is made loses its filter, and where one that isn't done does, the changes of its end are
/// performed, and nothing else is written.
pub fn copies_end_made()
    ensures shown { (first s : State) (h : List Event) (row : JobRecord) (work : JobWork)
        (why : JobEnd) (old new : Contents) → JobsStand s.table → JobsRun s.table
        → AreCopyRows s.table.jobs → Contains s.table.jobs row → copies_blocks row.kind ≡ true
        → ReadAsDisks s old → MayEndSo first h s old.reads row work why → LosesFilter row old new
        → ShowsEnd s row why old new }
    ensures performed { (first s : State) (h : List Event) (row : JobRecord) (work : JobWork)
        (why : JobEnd) (old new : Contents) → JobsStand s.table → JobsRun s.table
        → AreCopyRows s.table.jobs → Contains s.table.jobs row → copies_blocks row.kind ≡ true
        → ReadAsDisks s old → MayEndSo first h s old.reads row work why → LosesFilter row old new
        → AllPerformed s (changes_at_end s row why) old new }
{}

/// So are those of a commit's end that loses its filter, with all of its copy made or not done: where no header is to be rewritten, and
/// where that of the overlay above its top was.
pub fn commits_end_made()
    ensures shown { (first s : State) (h : List Event) (row : JobRecord) (work : JobWork)
        (why : JobEnd) (old new : Contents) → JobsStand s.table → JobsRun s.table
        → Contains s.table.jobs row → row.kind ≡ Commit → ReadAsDisks s old
        → MayEndSo first h s old.reads row work why → LosesFilter row old new
        → ShowsEnd s row why old new }
    ensures performed { (first s : State) (h : List Event) (row : JobRecord) (work : JobWork)
        (why : JobEnd) (old new : Contents) → JobsStand s.table → JobsRun s.table
        → Contains s.table.jobs row → row.kind ≡ Commit → renamed row (outcome_of why) ≡ None
        → ReadAsDisks s old → MayEndSo first h s old.reads row work why → LosesFilter row old new
        → AllPerformed s (changes_at_end s row why) old new }
    ensures renamed { (first s : State) (h : List Event) (row : JobRecord) (work : JobWork)
        (why : JobEnd) (overlay : ℕ) (old between new : Contents) → TableStands s.table
        → JobsStand s.table → JobsRun s.table → Contains s.table.jobs row → row.kind ≡ Commit
        → renamed row (outcome_of why) ≡ Some overlay → ReadAsDisks s old
        → MayEndSo first h s old.reads row work why → Rewrites s overlay old between
        → LosesFilter row between new → AllPerformed s (changes_at_end s row why) old new }
{}

/// The changes of an end, of whatever kind the job is, have to do with no other job's nodes.
pub fn ends_spare_copies()
    ensures { (works : List JobWork) (t : RunTable) (row : JobRecord) (outcome : JobOutcome)
        → TableStands t → JobsStand t → Contains t.jobs row
        → AllLeaveCopies works t (end_edits t row outcome) }
{}

/// So the others go on behind any end whose changes were performed, and behind that of a backup or mirror that loses its filter;
/// and the works that are left are those of the table.
pub fn others_go_on_behind_ends()
    ensures ahead { (first s : State) (h : List Event) (row : JobRecord) (why : JobEnd) (offset : ℕ)
        (old new : Contents) (works : List JobWork) → TableStands s.table → JobsStand s.table
        → Contains s.table.jobs row → AreWorksOf s.table works
        → AllPerformed s (changes_at_end s row why) old new
        → AreJobsAhead first h s old.reads works
        → AreJobsAhead first (h ++ End row.number why offset ∷ [])
        (after s (End row.number why offset)) new.reads (without_work row.number works) }
    ensures copies { (first s : State) (h : List Event) (row : JobRecord) (work : JobWork)
        (why : JobEnd) (offset : ℕ) (old new : Contents) (works : List JobWork)
        → TableStands s.table → JobsStand s.table → JobsRun s.table → AreCopyRows s.table.jobs
        → Contains s.table.jobs row → copies_blocks row.kind ≡ true → AreWorksOf s.table works
        → ReadAsDisks s old → MayEndSo first h s old.reads row work why → LosesFilter row old new
        → AreJobsAhead first h s old.reads works
        → AreJobsAhead first (h ++ End row.number why offset ∷ [])
        (after s (End row.number why offset)) new.reads (without_work row.number works) }
    ensures works { (t : RunTable) (row : JobRecord) (outcome : JobOutcome)
        (works : List JobWork) → TableStands t → JobsStand t → Contains t.jobs row
        → AreWorksOf t works
        → AreWorksOf (all_changed t (end_edits t row outcome)) (without_work row.number works) }
    ensures noted { (s : State) (number : ℕ) (why : JobEnd) (works : List JobWork)
        → TableStands s.table → JobsStand s.table → AreWorksOf s.table works
        → AreWorksOf (ended s (job_at s.table number) why).table (without_work number works) }
{}

/// What is written of a target while a backup or mirror runs leaves what the flat machine says of all else: the target has no flat
/// disk, of its file nothing is known, no disk is left in it, and of its image it is never said that it maps no cluster.
pub fn targets_are_written_aside()
    ensures disks { (opening : List ℕ → Option (List ℕ)) (s : State) (row : JobRecord) (target : ℕ)
        (old new : Contents) → Stands s → JobsStand s.table → JobsRun s.table
        → TargetFilesStand s → AllStarted s → Contains s.table.jobs row
        → copies_blocks row.kind ≡ true → row.target ≡ Some target
        → WritesAside s.table target old new → Agrees opening s old → Agrees opening s new }
    ensures images { (s : State) (row : JobRecord) (target : ℕ) (old new : Contents)
        → TableStands s.table → JobsStand s.table → JobsRun s.table → HeldAreUnsure s
        → AllStarted s → Contains s.table.jobs row → copies_blocks row.kind ≡ true
        → row.target ≡ Some target → WritesAside s.table target old new → ShowsImages s old
        → ShowsImages s new }
    ensures none { (t : RunTable) (target : ℕ) (c : Contents) → WritesAside t target c c }
    ensures in_turn { (t : RunTable) (target : ℕ) (old between new : Contents)
        → WritesAside t target old between → WritesAside t target between new
        → WritesAside t target old new }
{}

/// So does what is written of a commit's base, where no disk is left in the base's file and each node with a flat disk reads the same.
pub fn bases_are_written_aside()
    ensures disks { (opening : List ℕ → Option (List ℕ)) (s : State) (row : JobRecord) (base : ℕ)
        (old new : Contents) → Stands s → JobsStand s.table → JobsRun s.table
        → TargetFilesStand s → Contains s.table.jobs row → row.kind ≡ Commit
        → row.target ≡ Some base → NoneLeftIn s base → WritesBase s base old new
        → Agrees opening s old → Agrees opening s new }
    ensures images { (s : State) (row : JobRecord) (base : ℕ) (old new : Contents)
        → TableStands s.table → JobsStand s.table → JobsRun s.table → HeldAreUnsure s
        → AllStarted s → Contains s.table.jobs row → row.kind ≡ Commit → row.target ≡ Some base
        → WritesBase s base old new → ShowsImages s old → ShowsImages s new }
    ensures none { (s : State) (base : ℕ) (c : Contents) → WritesBase s base c c }
    ensures in_turn { (s : State) (base : ℕ) (old between new : Contents)
        → WritesBase s base old between → WritesBase s base between new
        → WritesBase s base old new }
{}

/// From its start's entry on it is never said of the image of a job's node that it maps no cluster, for as long as the job runs.
pub fn held_images_are_unsure()
    ensures beginning { (o : Opening) → HeldAreUnsure (start o) }
    ensures starts { (s : State) (row : JobRecord) → JobsStand s.table → Contains s.table.jobs row
        → row.number ≡ s.starts → HeldAreUnsure s → HeldAreUnsure (started s (Some row)) }
    ensures ready { (s : State) (job : ℕ) → HeldAreUnsure s → HeldAreUnsure (readied job s) }
    ensures ends { (s : State) (row : JobRecord) (why : JobEnd) → TableStands s.table
        → JobsStand s.table → Contains s.table.jobs row → HeldAreUnsure s
        → HeldAreUnsure (noted_end s row why) }
    ensures changes { (changes : List Change) (s : State) → TableStands s.table
        → JobsStand s.table → AllTableSuit s.table changes → AllLeaveJobs s.table changes
        → HeldAreUnsure s → HeldAreUnsure (all_stepped s changes) }
    ensures snapshots { (s : State) (node overlay : ℕ) → HeldAreUnsure s
        → HeldAreUnsure (all_stepped s (Attach overlay node ∷ Move node overlay overlay ∷ [])) }
    ensures begins { (s : State) (row : JobRecord) → TableStands s.table → JobsStand s.table
        → JobBegins s.table row → s.starts ≤ row.number → HeldAreUnsure s
        → HeldAreUnsure (all_stepped s (start_edits s.table row)) }
    ensures others { (s : State) (e : Event) → leaves_jobs e ≡ true → HeldAreUnsure s
        → HeldAreUnsure (after s e) }
    ensures pieces { (s : State) (drive : ℕ) (op : Op) (outcome : Outcome) (part : Extent)
        → HeldAreUnsure s → HeldAreUnsure (with_part drive op outcome part s) }
{}

/// Of a work for which a call failed nothing is left, and none of its copies is in flight: so it is of one that begins, and behind
/// each step of one.
pub fn failed_works_are_idle()
    ensures begun { (s : State) (row : JobRecord) → MetIsIdle (work_begun s row) }
    ensures marked { (span : Extent) (work : JobWork) → MetIsIdle work
        → MetIsIdle (left_again span work) }
    ensures copied { (block : ℕ) (work : JobWork) → MetIsIdle work
        → MetIsIdle (after_copy block work) }
    ensures taken { (kind : JobKind) (t : Transfer) (work : JobWork)
        → next_block work ≡ Some t.cluster → MetIsIdle work → MetIsIdle (after_take kind t work) }
    ensures settled { (kind : JobKind) (block : ℕ) (work : JobWork) → MetIsIdle work
        → MetIsIdle (after_settle kind block work) }
    ensures failed { (fault : Fault) (work : JobWork) → MetIsIdle (failed_by fault work) }
    ensures passes { (must : ℕ → Bool) (old new : Nodes) (was now : JobWork) (top to : ℕ)
        (answer : Bool) → PassesNext must old new was now top to answer → MetIsIdle was
        → MetIsIdle now }
{}

/// So it is of all works of a run, behind the calls that change one of them.
pub fn works_of_failed_jobs_stay_idle()
    ensures guarded { (job source target block : ℕ) (old new : Nodes) (works after : List JobWork)
        → ChangesWork job (Guarded old new source target block) works after
        → AllMetAreIdle works → AllMetAreIdle after }
    ensures taken { (job source position : ℕ) (kind : JobKind) (old new : Nodes)
        (buffer : List ℕ) (answer : Result (Option Transfer) Fault) (works after : List JobWork)
        → ChangesWork job (Taken kind old new source position buffer answer) works after
        → AllMetAreIdle works → AllMetAreIdle after }
    ensures settled { (job target : ℕ) (kind : JobKind) (old new : Nodes) (t : Transfer)
        (bytes : List ℕ) (answer : Bool) (works after : List JobWork)
        → ChangesWork job (Settled kind old new target t bytes answer) works after
        → AllMetAreIdle works → AllMetAreIdle after }
    ensures marked { (job : ℕ) (span : Extent) (works : List JobWork) → AllMetAreIdle works
        → AllMetAreIdle (marked_again job span works) }
    ensures pieces { (op : Op) (outcome : Outcome) (t : RunTable) (node : ℕ) (part : Extent)
        (works : List JobWork) → AllMetAreIdle works
        → AllMetAreIdle (marked_by op outcome t node part works) }
    ensures put { (works : List JobWork) (new : JobWork) → MetIsIdle new → AllMetAreIdle works
        → AllMetAreIdle (works ++ new ∷ []) }
    ensures removed { (job : ℕ) (works : List JobWork) → AllMetAreIdle works
        → AllMetAreIdle (without_work job works) }
{}
