//! Laws of accepted commands while jobs run, each the contract of a function that does nothing.
ghost use Rattle.std.specs.Prelude.{◌≡◌, ◌≤◌, ◌^◌, ℕ, List, [], ◌∷◌, ◌++◌, Contains, Option, Some, None};
ghost use Rattle.blk_base.specs.Pieces.{Extent, end_of};
ghost use Rattle.blk_base.specs.declared.fault.Outcome.{Outcome};
ghost use Rattle.blk_history.specs.declared.entry.JobEnd.{JobEnd};
ghost use Rattle.blk_history.specs.declared.event.Event.{Event};
ghost use Rattle.blk_history.specs.declared.event.Event.TheVariants.{Start};
ghost use Rattle.block_jobs.specs.Work.{JobWork};
ghost use Rattle.qmp_codec.specs.Commands.{Cmd};
ghost use Rattle.qmp_codec.specs.declared.command.Command.TheVariants.{BlockCommit, BlockdevBackup, BlockdevMirror};
ghost use Rattle.qmp_codec.specs.declared.command.Command.TheVariants.{BlockdevCreate as BlockdevCreateOf};
ghost use Rattle.qmp_codec.specs.declared.jobs.Backup.{Backup};
ghost use Rattle.qmp_codec.specs.declared.jobs.Commit.{Commit};
ghost use Rattle.qmp_codec.specs.declared.jobs.Mirror.{Mirror};
ghost use Rattle.qmp_codec.specs.declared.nodes.BlockdevCreate.{BlockdevCreate};
ghost use Rattle.qmp_rules.specs.declared.change.Change.{Change};
ghost use Rattle.qmp_rules.specs.declared.change.JobOutcome.{JobOutcome};
ghost use Rattle.qmp_rules.specs.declared.refusal.Refusal.{Refusal};
ghost use Rattle.qmp_rules.specs.declared.rows.JobRecord.{JobRecord};
ghost use Rattle.qmp_rules.specs.declared.told.Told.{Told};
ghost use Rattle.qmp_rules.specs.Answers.{refusal_to};
ghost use Rattle.qmp_rules.specs.Chains.{disk_node};
ghost use Rattle.qmp_rules.specs.Changes.{all_changed};
ghost use Rattle.qmp_rules.specs.Edits.{backup_job, commit_job, mirror_job, edits_of, spoiled};
ghost use Rattle.qmp_rules.specs.Ends.{end_edits};
ghost use Rattle.qmp_rules.specs.Queries.{bytes_of_node};
ghost use Rattle.qmp_rules.specs.Refusals.{place_of};
ghost use Rattle.qmp_rules.specs.Table.{RunTable, job_at, opening_table};
ghost use Rattle.trace_codec.specs.declared.op.Op.{Op};
ghost use Rattle.flat_machine.specs.Agreement.{Contents, ReadAsDisks};
ghost use Rattle.flat_machine.specs.Changed.{all_stepped};
ghost use Rattle.flat_machine.specs.Jobs.{noted_end, started, readied};
ghost use Rattle.flat_machine.specs.Legal.{IsAtRest};
ghost use Rattle.flat_machine.specs.Machine.{after, with_part};
ghost use Rattle.flat_machine.specs.Opening.{start};
ghost use Rattle.flat_machine.specs.declared.opening.Opening.{Opening};
ghost use Rattle.flat_machine.specs.Performing.{AllCan, AllPerformed};
ghost use Rattle.flat_machine.specs.Recording.{dirty_after};
ghost use Rattle.flat_machine.specs.State.{State, Dirty};
ghost use Rattle.flat_machine.specs.Wiring.{TableStands, TableAtRest};
ghost use Rattle.job_entries.specs.Found.{HasBegun, HaveBegun, FindsWhole};
ghost use Rattle.job_entries.specs.Starts.{ShowsFilter};
ghost use Rattle.job_tables.specs.Accepted.{IsMet};
ghost use Rattle.job_tables.specs.Ends.{EndSuits};
ghost use Rattle.job_tables.specs.Jobs.{JobsStand, EdgesAreDrawn};
ghost use Rattle.job_tables.specs.Running.{JobsRun};
ghost use Rattle.job_progress.specs.Beginning.{CanBeCopied, work_begun};
ghost use Rattle.job_progress.specs.Belonging.{AreWorksOf, without_row};
ghost use Rattle.job_progress.specs.Going.{AreJobsAhead};
ghost use Rattle.job_progress.specs.Leaving.{AllLeaveCopies};
ghost use Rattle.job_commands.specs.Bitmaps.{UsesStand, IsNoReply};
ghost use Rattle.job_commands.specs.Begun.{IsOneCommand, job_begun};
ghost use Rattle.job_commands.specs.Copies.{DisksStand, CopiesGoOn};
ghost use Rattle.job_commands.specs.Granules.{GranulesStand};
ghost use Rattle.job_commands.specs.Whole.{HaveRowSizes, DisksAreWhole};

/// The changes of an accepted command leave what jobs copy, also where it begins one, and whatever the files told of it; so do those of a
/// creation of which a call failed.
pub fn accepted_commands_leave_copies()
    ensures accepted { (t : RunTable) (told expected : Told) (c : Cmd) (works : List JobWork)
        → TableAtRest t → JobsStand t → JobsRun t → AreWorksOf t works → IsOneCommand c
        → IsMet t told c → AllLeaveCopies works t (edits_of t expected c) }
    ensures failed { (t : RunTable) (told : Told) (c : BlockdevCreate (List ℕ)) (cause : Refusal)
        (works : List JobWork) → TableStands t → JobsStand t
        → refusal_to t told (BlockdevCreateOf c) ≡ Some cause → place_of cause ≡ None
        → AllLeaveCopies works t (spoiled t c.options) }
{}

/// So where they were performed, backups, mirrors and commits are as far as before.
pub fn backups_and_mirrors_go_on()
    ensures accepted { (first s : State) (h : List Event) (told expected : Told) (c : Cmd)
        (old new : Contents) (works : List JobWork) → TableAtRest s.table → JobsStand s.table
        → JobsRun s.table → AreWorksOf s.table works → IsOneCommand c → IsMet s.table told c
        → AllPerformed s (edits_of s.table expected c) old new
        → AreJobsAhead first h s old.reads works
        → AreJobsAhead first h (all_stepped s (edits_of s.table expected c)) new.reads works }
    ensures failed { (first s : State) (h : List Event) (told : Told)
        (c : BlockdevCreate (List ℕ)) (cause : Refusal) (old new : Contents) (works : List JobWork)
        → TableStands s.table → JobsStand s.table
        → refusal_to s.table told (BlockdevCreateOf c) ≡ Some cause → place_of cause ≡ None
        → AllPerformed s (spoiled s.table c.options) old new
        → AreJobsAhead first h s old.reads works
        → AreJobsAhead first h (all_stepped s (spoiled s.table c.options)) new.reads works }
{}

/// Works stay those of the table; one that a command begins a job in has none for that job yet.
pub fn commands_leave_works()
    ensures accepted { (t : RunTable) (told expected : Told) (c : Cmd) (works : List JobWork)
        → TableAtRest t → JobsStand t → JobsRun t → AreWorksOf t works → IsOneCommand c
        → IsMet t told c → job_begun t c ≡ None
        → AreWorksOf (all_changed t (edits_of t expected c)) works }
    ensures begins { (t : RunTable) (told expected : Told) (c : Cmd) (row : JobRecord)
        (works : List JobWork) → JobsStand t → JobsRun t → AreWorksOf t works → IsMet t told c
        → job_begun t c ≡ Some row
        → AreWorksOf (without_row row.number (all_changed t (edits_of t expected c))) works }
    ensures found { (t : RunTable) (told expected : Told) (c : Cmd) (row : JobRecord)
        → JobsStand t → JobsRun t → IsMet t told c → job_begun t c ≡ Some row
        → job_at (all_changed t (edits_of t expected c)) row.number ≡ Some row }
    ensures failed { (t : RunTable) (told : Told) (c : BlockdevCreate (List ℕ)) (cause : Refusal)
        (works : List JobWork) → TableStands t → JobsStand t
        → refusal_to t told (BlockdevCreateOf c) ≡ Some cause → place_of cause ≡ None
        → AreWorksOf t works → AreWorksOf (all_changed t (spoiled t c.options)) works }
{}

/// A bitmap is busy exactly with the job that copies by it, and what a job copies by is there: so it is at the beginning, behind accepted
/// commands and failed creations, ends, and all entries but replies.
pub fn uses_of_bitmaps_go_on()
    ensures beginning { (guests : List (List ℕ)) → UsesStand (opening_table guests) }
    ensures accepted { (t : RunTable) (told expected : Told) (c : Cmd) → TableAtRest t
        → JobsStand t → JobsRun t → IsOneCommand c → IsMet t told c → UsesStand t
        → UsesStand (all_changed t (edits_of t expected c)) }
    ensures failed { (t : RunTable) (c : BlockdevCreate (List ℕ)) → UsesStand t
        → UsesStand (all_changed t (spoiled t c.options)) }
    ensures ends { (t : RunTable) (row : JobRecord) (outcome : JobOutcome) → UsesStand t
        → UsesStand (all_changed t (end_edits t row outcome)) }
    ensures entries { (s : State) (e : Event) → IsNoReply e → UsesStand s.table
        → UsesStand (after s e).table }
{}

/// What starts found stands behind accepted commands and failed creations, and behind the Start of a backup, a mirror or a commit, which
/// finds whole disks where all are whole.
pub fn jobs_have_begun_still()
    ensures accepted { (s : State) (told expected : Told) (c : Cmd) → TableAtRest s.table
        → JobsStand s.table → JobsRun s.table → IsOneCommand c → IsMet s.table told c → IsAtRest s
        → HaveBegun s → HaveBegun (all_stepped s (edits_of s.table expected c)) }
    ensures failed { (s : State) (c : BlockdevCreate (List ℕ)) → HaveBegun s
        → HaveBegun (all_stepped s (spoiled s.table c.options)) }
    ensures starts { (s : State) (told expected : Told) (c : Cmd) (row : JobRecord)
        → TableAtRest s.table → JobsStand s.table → JobsRun s.table → IsOneCommand c
        → IsMet s.table told c → IsAtRest s → HaveBegun s → job_begun s.table c ≡ Some row
        → JobsStand (all_stepped s (edits_of s.table expected c)).table
        → FindsWhole (all_stepped s (edits_of s.table expected c)) row
        → HaveBegun (after (all_stepped s (edits_of s.table expected c)) (Start row.number)) }
    ensures backup { (s : State) (told expected : Told) (c : Backup (List ℕ))
        → TableAtRest s.table → JobsStand s.table → JobsRun s.table
        → IsMet s.table told (BlockdevBackup c) → IsAtRest s → DisksAreWhole s → HaveBegun s
        → HaveBegun (after (all_stepped s (edits_of s.table expected (BlockdevBackup c)))
        (Start s.table.started)) }
    ensures mirror { (s : State) (told expected : Told) (c : Mirror (List ℕ))
        → TableAtRest s.table → JobsStand s.table → JobsRun s.table → EdgesAreDrawn s.table
        → IsMet s.table told (BlockdevMirror c) → IsAtRest s → DisksAreWhole s → HaveBegun s
        → HaveBegun (after (all_stepped s (edits_of s.table expected (BlockdevMirror c)))
        (Start s.table.started)) }
    ensures commit { (s : State) (told expected : Told) (c : Commit (List ℕ))
        → TableAtRest s.table → JobsStand s.table → JobsRun s.table → EdgesAreDrawn s.table
        → IsMet s.table told (BlockCommit c) → IsAtRest s → DisksAreWhole s → HaveBegun s
        → HaveBegun (after (all_stepped s (edits_of s.table expected (BlockCommit c)))
        (Start s.table.started)) }
{}

/// The job of an accepted backup, mirror or commit can be copied behind the reply, where all disks are whole, and granules are as their
/// nodes' disks have them.
pub fn accepted_copies_can_be_made()
    ensures backup { (s : State) (told expected : Told) (c : Backup (List ℕ)) (target : ℕ)
        (old new : Contents) → TableStands s.table → JobsStand s.table
        → IsMet s.table told (BlockdevBackup c)
        → (backup_job s.table None c).target ≡ Some target → DisksStand s old
        → ShowsFilter (backup_job s.table None c) old new
        → CanBeCopied (all_stepped s (edits_of s.table expected (BlockdevBackup c))) new.reads
        (backup_job s.table None c) target }
    ensures mirror { (s : State) (told expected : Told) (c : Mirror (List ℕ)) (target : ℕ)
        (old new : Contents) → TableStands s.table → JobsStand s.table
        → IsMet s.table told (BlockdevMirror c) → (mirror_job s.table c).target ≡ Some target
        → DisksStand s old → ShowsFilter (mirror_job s.table c) old new
        → CanBeCopied (all_stepped s (edits_of s.table expected (BlockdevMirror c))) new.reads
        (mirror_job s.table c) target }
    ensures commit { (s : State) (told expected : Told) (c : Commit (List ℕ)) (base : ℕ)
        (old new : Contents) → TableStands s.table → JobsStand s.table → JobsRun s.table
        → EdgesAreDrawn s.table → IsMet s.table told (BlockCommit c)
        → (commit_job s.table c).target ≡ Some base → DisksStand s old
        → ShowsFilter (commit_job s.table c) old new
        → CanBeCopied (all_stepped s (edits_of s.table expected (BlockCommit c))) new.reads
        (commit_job s.table c) base }
{}

/// Granules are a power of two each, as many as the disk of a node that no job has put: so it is at the beginning, behind accepted commands
/// and failed creations, ends, and all entries but replies.
pub fn granules_stand()
    ensures beginning { (guests : List (List ℕ)) → GranulesStand (opening_table guests) [] }
    ensures accepted { (t : RunTable) (ds : List Dirty) (told expected : Told) (c : Cmd)
        → TableAtRest t → JobsStand t → IsOneCommand c → IsMet t told c → GranulesStand t ds
        → GranulesStand (all_changed t (edits_of t expected c))
        (dirty_after t ds (edits_of t expected c)) }
    ensures failed { (t : RunTable) (ds : List Dirty) (c : BlockdevCreate (List ℕ))
        → GranulesStand t ds → GranulesStand (all_changed t (spoiled t c.options))
        (dirty_after t ds (spoiled t c.options)) }
    ensures ends { (t : RunTable) (ds : List Dirty) (row : JobRecord) (outcome : JobOutcome)
        → JobsStand t → Contains t.jobs row → GranulesStand t ds
        → GranulesStand (all_changed t (end_edits t row outcome))
        (dirty_after t ds (end_edits t row outcome)) }
    ensures states { (s : State) (changes : List Change)
        → GranulesStand (all_changed s.table changes) (dirty_after s.table s.dirty changes)
        → GranulesStand (all_stepped s changes).table (all_stepped s changes).dirty }
    ensures entries { (s : State) (e : Event) → IsNoReply e → JobsStand s.table
        → GranulesStand s.table s.dirty → GranulesStand (after s e).table (after s e).dirty }
{}

/// The flat machine has as many bytes for each node as its row says, also for one without a flat disk: so it is at the beginning, behind
/// accepted commands of which the changes were performed, failed creations, pieces within their disks, starts, readiness and ends.
pub fn disks_stay_whole()
    ensures beginning { (o : Opening) → DisksAreWhole (start o) }
    ensures accepted { (s : State) (told expected : Told) (c : Cmd) (new : Contents)
        → TableAtRest s.table → JobsStand s.table → IsOneCommand c → IsMet s.table told c
        → AllCan s (edits_of s.table expected c)
        → ReadAsDisks (all_stepped s (edits_of s.table expected c)) new
        → HaveRowSizes (all_stepped s (edits_of s.table expected c)).table new.reads
        → DisksAreWhole s → DisksAreWhole (all_stepped s (edits_of s.table expected c)) }
    ensures failed { (s : State) (c : BlockdevCreate (List ℕ)) → DisksAreWhole s
        → DisksAreWhole (all_stepped s (spoiled s.table c.options)) }
    ensures pieces { (s : State) (drive : ℕ) (op : Op) (outcome : Outcome) (part : Extent)
        → end_of part ≤ bytes_of_node s.table (disk_node s.table drive) → DisksAreWhole s
        → DisksAreWhole (with_part drive op outcome part s) }
    ensures starts { (s : State) (row : Option JobRecord) → DisksAreWhole s
        → DisksAreWhole (started s row) }
    ensures ready { (s : State) (job : ℕ) → DisksAreWhole s → DisksAreWhole (readied job s) }
    ensures ends { (s : State) (row : JobRecord) (why : JobEnd) → JobsStand s.table
        → Contains s.table.jobs row → EndSuits s row → HasBegun s row → DisksAreWhole s
        → DisksAreWhole (noted_end s row why) }
    ensures others { (s now : State) → now.table ≡ s.table → now.disks ≡ s.disks
        → DisksAreWhole s → DisksAreWhole now }
{}

/// So behind the reply to its command and its start each backup, mirror and commit goes on, and the new one among them has its work.
pub fn begun_copies_go_on()
    ensures backup { (first s : State) (h : List Event) (e : Event) (told expected : Told)
        (c : Backup (List ℕ)) (target : ℕ) (old new : Contents) (works : List JobWork)
        → TableAtRest s.table → JobsStand s.table → JobsRun s.table → IsAtRest s → HaveBegun s
        → AreWorksOf s.table works → DisksStand s old → IsMet s.table told (BlockdevBackup c)
        → (backup_job s.table None c).target ≡ Some target
        → ShowsFilter (backup_job s.table None c) old new
        → bytes_of_node (all_stepped s (edits_of s.table expected (BlockdevBackup c))).table
        (backup_job s.table None c).source ≤ 2 ^ 47 → AreJobsAhead first h s old.reads works
        → CopiesGoOn first ((h ++ e ∷ []) ++ Start s.table.started ∷ [])
        (after (all_stepped s (edits_of s.table expected (BlockdevBackup c)))
        (Start s.table.started)) new.reads
        (works ++ work_begun (all_stepped s (edits_of s.table expected (BlockdevBackup c)))
        (backup_job s.table None c) ∷ []) }
    ensures mirror { (first s : State) (h : List Event) (e : Event) (told expected : Told)
        (c : Mirror (List ℕ)) (target : ℕ) (old new : Contents) (works : List JobWork)
        → TableAtRest s.table → JobsStand s.table → JobsRun s.table → IsAtRest s → HaveBegun s
        → AreWorksOf s.table works → DisksStand s old → EdgesAreDrawn s.table
        → IsMet s.table told (BlockdevMirror c) → (mirror_job s.table c).target ≡ Some target
        → ShowsFilter (mirror_job s.table c) old new
        → bytes_of_node (all_stepped s (edits_of s.table expected (BlockdevMirror c))).table
        (mirror_job s.table c).source ≤ 2 ^ 47 → AreJobsAhead first h s old.reads works
        → CopiesGoOn first ((h ++ e ∷ []) ++ Start s.table.started ∷ [])
        (after (all_stepped s (edits_of s.table expected (BlockdevMirror c)))
        (Start s.table.started)) new.reads
        (works ++ work_begun (all_stepped s (edits_of s.table expected (BlockdevMirror c)))
        (mirror_job s.table c) ∷ []) }
    ensures commit { (first s : State) (h : List Event) (e : Event) (told expected : Told)
        (c : Commit (List ℕ)) (base : ℕ) (old new : Contents) (works : List JobWork)
        → TableAtRest s.table → JobsStand s.table → JobsRun s.table → IsAtRest s → HaveBegun s
        → AreWorksOf s.table works → DisksStand s old → EdgesAreDrawn s.table
        → IsMet s.table told (BlockCommit c) → (commit_job s.table c).target ≡ Some base
        → ShowsFilter (commit_job s.table c) old new
        → bytes_of_node (all_stepped s (edits_of s.table expected (BlockCommit c))).table
        (commit_job s.table c).source ≤ 2 ^ 47 → AreJobsAhead first h s old.reads works
        → CopiesGoOn first ((h ++ e ∷ []) ++ Start s.table.started ∷ [])
        (after (all_stepped s (edits_of s.table expected (BlockCommit c)))
        (Start s.table.started)) new.reads
        (works ++ work_begun (all_stepped s (edits_of s.table expected (BlockCommit c)))
        (commit_job s.table c) ∷ []) }
{}
