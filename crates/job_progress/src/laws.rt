//! Laws of how far jobs have come, each the contract of a function that does nothing.
ghost use Rattle.std.specs.Prelude.{◌≡◌, ◌≢◌, ◌≤◌, ◌<◌, ◌^◌, ℕ, Bool, true, false, List, [], ◌∷◌, ◌++◌, length, Contains, Option, None, Some};
ghost use Rattle.std.specs.List.{list_any};
ghost use Rattle.blk_base.specs.Pieces.{Extent, end_of};
ghost use Rattle.blk_base.specs.declared.fault.Outcome.{Outcome};
ghost use Rattle.blk_graph.specs.declared.edge.Edge.{Edge};
ghost use Rattle.blk_graph.specs.declared.edge.Parent.TheVariants.{Guest};
ghost use Rattle.blk_graph.specs.declared.edge.Role.TheVariants.{Drive};
ghost use Rattle.blk_history.specs.declared.entry.JobEnd.{JobEnd};
ghost use Rattle.blk_history.specs.declared.event.Event.{Event};
ghost use Rattle.blk_history.specs.declared.event.Event.TheVariants.{End, Start};
ghost use Rattle.block_jobs.specs.Ahead.{IsAhead, is_owed};
ghost use Rattle.blk_copy.specs.Rows.{is_in_flight};
ghost use Rattle.blk_copy.specs.declared.transfers.Transfer.{Transfer};
ghost use Rattle.block_jobs.specs.Work.{JobWork, IsJobWork, after_copy, after_settle, after_take, next_block};
ghost use Rattle.job_copies.specs.Settling.{HoldsGoal};
ghost use Rattle.qmp_codec.specs.declared.event.JobKind.TheVariants.{Commit, Backup};
ghost use Rattle.qmp_rules.specs.declared.change.Change.{Change};
ghost use Rattle.qmp_rules.specs.declared.rows.JobRecord.{JobRecord};
ghost use Rattle.qmp_rules.specs.Ends.{settles_target};
ghost use Rattle.qmp_rules.specs.Queries.{bytes_of_node};
ghost use Rattle.qmp_rules.specs.Chains.{disk_node, is_over};
ghost use Rattle.qmp_rules.specs.Changes.{all_changed};
ghost use Rattle.qmp_rules.specs.Table.{RunTable, job_at};
ghost use Rattle.trace_codec.specs.declared.op.Op.{Op};
ghost use Rattle.flat_machine.specs.Agreement.{Contents};
ghost use Rattle.flat_machine.specs.Begun.{begun_of};
ghost use Rattle.flat_machine.specs.Changed.{all_stepped};
ghost use Rattle.flat_machine.specs.Jobs.{changes_at_end, granules_of};
ghost use Rattle.flat_machine.specs.Machine.{after, replay, with_part};
ghost use Rattle.flat_machine.specs.Performing.{AllPerformed};
ghost use Rattle.flat_machine.specs.State.{Dirty, State, bytes_at_node};
ghost use Rattle.flat_machine.specs.Writing.{CanWrite, PieceDone};
ghost use Rattle.flat_machine.specs.Suiting.{IsThere};
ghost use Rattle.flat_machine.specs.Wiring.{TableStands};
ghost use Rattle.job_tables.specs.Jobs.{JobsStand, EdgesAreDrawn};
ghost use Rattle.job_progress.specs.Beginning.{CanBeCopied, work_begun};
ghost use Rattle.job_progress.specs.Going.{IsJobAhead, AreJobsAhead, copies_blocks, goal_of, taken_bytes};
ghost use Rattle.job_progress.specs.Leaving.{AllLeaveCopies, AllLeaveRows};
ghost use Rattle.job_progress.specs.Piecing.{CanPass, NoTargetReads, NoTargetUnder, marked_by};
ghost use Rattle.job_progress.specs.Belonging.{AreWorksOf, without_row};
ghost use Rattle.job_works.specs.Works.{with_work, without_work, work_of};

/// Changes that were performed, of which none makes, takes or changes the disk of a job's node.
pub fn changes_leave_copies()
    ensures { (first s : State) (h : List Event) (changes : List Change) (old new : Contents)
        (works : List JobWork) → JobsStand s.table → AllLeaveCopies works s.table changes
        → AllPerformed s changes old new → AreJobsAhead first h s old.reads works
        → AreJobsAhead first h (all_stepped s changes) new.reads works }
{}

/// An entry that leaves the table and each disk, and what starts found.
pub fn entries_leave_copies()
    ensures { (first s now : State) (h : List Event) (e : Event) (reads : ℕ → List ℕ)
        (works : List JobWork) → now.table ≡ s.table → now.disks ≡ s.disks → now.begun ≡ s.begun
        → AreJobsAhead first h s reads works → AreJobsAhead first (h ++ e ∷ []) now reads works }
{}

/// A job begins: all of it is owed, or what its bitmap held, and the others go on.
pub fn starts_begin_copies()
    ensures { (first s : State) (h : List Event) (reads : ℕ → List ℕ) (row : JobRecord)
        (target : ℕ) (works : List JobWork) → JobsStand s.table
        → job_at s.table row.number ≡ Some row → work_of works row.number ≡ None
        → begun_of s.begun row.number ≡ None
        → CanBeCopied s reads row target → AreJobsAhead first h s reads works
        → AreJobsAhead first (h ++ Start row.number ∷ []) (after s (Start row.number)) reads
        (works ++ work_begun s row ∷ []) }
{}

/// A job ends by changes that leave the nodes of the others, and these go on.
pub fn ends_leave_copies()
    ensures { (first s : State) (h : List Event) (row : JobRecord) (why : JobEnd) (offset : ℕ)
        (old new : Contents) (works : List JobWork) → JobsStand s.table → AreWorksOf s.table works
        → job_at s.table row.number ≡ Some row
        → AllLeaveCopies works s.table (changes_at_end s row why)
        → AllPerformed s (changes_at_end s row why) old new → AreJobsAhead first h s old.reads works
        → AreJobsAhead first (h ++ End row.number why offset ∷ [])
        (after s (End row.number why offset)) new.reads (without_work row.number works) }
{}

/// A piece of a guest's request: of a backup's source only what isn't owed is written, and what is written of a mirror's or a
/// commit's is owed from then on.
pub fn pieces_leave_copies()
    ensures { (first s : State) (h : List Event) (drive : ℕ) (op : Op) (outcome : Outcome)
        (part : Extent) (old new : Contents) (works : List JobWork) → JobsStand s.table
        → AreWorksOf s.table works → CanWrite s drive op
        → CanPass s.table works (disk_node s.table drive) op part
        → end_of part ≤ bytes_of_node s.table (disk_node s.table drive)
        → PieceDone s drive op outcome part old new → AreJobsAhead first h s old.reads works
        → AreJobsAhead first h (with_part drive op outcome part s) new.reads
        (marked_by op outcome s.table (disk_node s.table drive) part works) }
{}

/// A block is copied at once, for a backup or in its turn for a commit, is read, or is written after it was read; and the work of
/// one job leaves those of the others.
pub fn copies_go_on()
    ensures copied { (first s : State) (h : List Event) (reads now : ℕ → List ℕ) (row : JobRecord)
        (work : JobWork) (block : ℕ) → row.kind ≡ Backup → IsJobWork work
        → ((target : ℕ) (due : ℕ → Bool) (goal : List ℕ) → row.target ≡ Some target
        → IsAhead due (is_owed Backup work) (bytes_at_node s row.source) goal (reads target)
        → IsAhead due (is_owed Backup (after_copy block work)) (bytes_at_node s row.source) goal
        (now target)) → IsJobAhead first h s reads row work
        → IsJobAhead first h s now row (after_copy block work) }
    ensures passed { (first s : State) (h : List Event) (reads now : ℕ → List ℕ) (row : JobRecord)
        (work : JobWork) (block : ℕ) → let source = bytes_at_node s row.source in
        row.kind ≡ Commit → ((base : ℕ) (due : ℕ → Bool) → row.target ≡ Some base
        → IsAhead due (is_owed Commit work) source source (reads base)
        → IsAhead due (is_owed Commit (after_copy block work)) source source (now base))
        → IsJobAhead first h s reads row work
        → IsJobAhead first h s now row (after_copy block work) }
    ensures taken { (first : State) (h : List Event) (reads : ℕ → List ℕ) (row : JobRecord)
        (work : JobWork) (t : Transfer) → copies_blocks row.kind ≡ true → IsJobWork work
        → t.job ≡ work.job → next_block work ≡ Some t.cluster → t.position ≡ length h
        → IsJobAhead first h (replay first h) reads row work
        → IsJobAhead first h (replay first h) reads row (after_take row.kind t work) }
    ensures settled { (first s : State) (h : List Event) (reads now : ℕ → List ℕ)
        (row : JobRecord) (work : JobWork) (t : Transfer) → copies_blocks row.kind ≡ true
        → IsJobWork work → is_in_flight t work.rows ≡ true
        → ((target : ℕ) (due : ℕ → Bool) (source goal : List ℕ) → row.target ≡ Some target
        → HoldsGoal row.kind work t.cluster due goal (taken_bytes first h row t)
        → IsAhead due (is_owed row.kind work) source goal (reads target)
        → IsAhead due (is_owed row.kind (after_settle row.kind t.cluster work)) source goal
        (now target)) → IsJobAhead first h s reads row work
        → IsJobAhead first h s now row (after_settle row.kind t.cluster work) }
    ensures others { (first s : State) (h : List Event) (reads now : ℕ → List ℕ)
        (row : JobRecord) (work after : JobWork) (works : List JobWork) → JobsStand s.table
        → AreWorksOf s.table works → Contains s.table.jobs row
        → work_of works row.number ≡ Some work → after.job ≡ work.job
        → ((other : JobRecord) (node : ℕ) → Contains s.table.jobs other
        → other.number ≢ row.number → other.target ≡ Some node → now node ≡ reads node)
        → (after.met ≡ None → (work.met ≡ None)
        × (IsJobAhead first h s reads row work → IsJobAhead first h s now row after))
        → AreJobsAhead first h s reads works → AreJobsAhead first h s now (with_work after works) }
{}

/// Once nothing is left and no copy is in flight, the target or base reads as it is to, where each place is due.
pub fn copies_are_made()
    ensures { (first s : State) (h : List Event) (reads : ℕ → List ℕ) (row : JobRecord)
        (work : JobWork) (target : ℕ) → row.target ≡ Some target → work.rows ≡ []
        → list_any (λ part. part) work.left ≡ false → settles_target row.bitmap ≡ true
        → IsJobAhead first h s reads row work → reads target ≡ goal_of s row }
{}

/// Works stay those of the table behind changes that leave copies and neither begin nor end a job, with one more behind a start,
/// with one less behind an end, and behind marks and steps of a job.
pub fn works_belong()
    ensures changes { (changes : List Change) (t : RunTable) (works : List JobWork)
        → JobsStand t → AllLeaveCopies works t changes → AllLeaveRows changes
        → AreWorksOf t works → AreWorksOf (all_changed t changes) works }
    ensures begins { (s : State) (row : JobRecord) (works : List JobWork)
        → JobsStand s.table → job_at s.table row.number ≡ Some row
        → AreWorksOf (without_row row.number s.table) works
        → bytes_of_node s.table row.source ≤ 2 ^ 47
        → ((d : Dirty) → granules_of s row row.bitmap ≡ Some d → 0 < d.granularity)
        → AreWorksOf s.table (works ++ work_begun s row ∷ []) }
    ensures ends { (t : RunTable) (number : ℕ) (works : List JobWork) → AreWorksOf t works
        → AreWorksOf (without_row number t) (without_work number works) }
    ensures sizes { (t u : RunTable) (works : List JobWork) → u.jobs ≡ t.jobs
        → ((row : JobRecord) → Contains t.jobs row
        → bytes_of_node u row.source ≡ bytes_of_node t row.source)
        → AreWorksOf t works → AreWorksOf u works }
    ensures marks { (t : RunTable) (node : ℕ) (op : Op) (outcome : Outcome) (part : Extent)
        (works : List JobWork) → AreWorksOf t works
        → AreWorksOf t (marked_by op outcome t node part works) }
    ensures steps { (t : RunTable) (works : List JobWork) (was now : JobWork) → AreWorksOf t works
        → work_of works now.job ≡ Some was → now.size ≡ was.size → was.room ≤ now.room
        → IsJobWork now → AreWorksOf t (with_work now works) }
{}

/// No job's target reads what a guest may write, nor is one the `file` node under what a guest reads; and no job's source is over what a
/// guest may write. So a guest's request passes by what jobs write.
pub fn no_target_is_written()
    ensures reads { (t : RunTable) (writer : Edge) (guest : ℕ) → TableStands t → JobsStand t
        → EdgesAreDrawn t → Contains t.edges writer → writer.parent ≡ Guest guest
        → writer.role ≡ Drive → writer.perm.write ≡ true
        → NoTargetReads t (disk_node t writer.child) }
    ensures under { (t : RunTable) (node : ℕ) → TableStands t → JobsStand t → IsThere t node
        → NoTargetUnder t (disk_node t node) }
    ensures sources { (t : RunTable) (writer : Edge) (guest : ℕ) (row : JobRecord)
        → TableStands t → JobsStand t → EdgesAreDrawn t → Contains t.edges writer
        → writer.parent ≡ Guest guest → writer.role ≡ Drive → writer.perm.write ≡ true
        → Contains t.jobs row → is_over t (disk_node t writer.child) row.source ≡ false }
{}
