//! Laws of what jobs leave of disks, each the contract of a function that does nothing.
ghost use Rattle.std.specs.Prelude.{◌≡◌, ◌≢◌, ℕ, true, false, List, [], ◌∷◌, ◌++◌, Contains, Some, None};
ghost use Rattle.blk_history.specs.Fold.{With};
ghost use Rattle.blk_history.specs.declared.entry.JobEnd.{JobEnd};
ghost use Rattle.blk_history.specs.declared.entry.JobEnd.TheVariants.{Completed};
ghost use Rattle.blk_history.specs.declared.event.Event.{Event};
ghost use Rattle.blk_history.specs.declared.event.Event.TheVariants.{End};
ghost use Rattle.qmp_codec.specs.declared.event.JobKind.TheVariants.{Backup, Mirror};
ghost use Rattle.qmp_rules.specs.Chains.{filter_role};
ghost use Rattle.qmp_rules.specs.Ends.{settles_target};
ghost use Rattle.qmp_rules.specs.Table.{job_at, node_by_id};
ghost use Rattle.qmp_rules.specs.declared.rows.JobRecord.{JobRecord};
ghost use Rattle.qmp_rules.specs.declared.rows.NodeRecord.{NodeRecord};
ghost use Rattle.flat_machine.specs.Jobs.{copied_to, is_success, noted_end};
ghost use Rattle.flat_machine.specs.Legal.{Fits, Legal};
ghost use Rattle.flat_machine.specs.Machine.{after, replay};
ghost use Rattle.flat_machine.specs.Opening.{start};
ghost use Rattle.flat_machine.specs.State.{State, bytes_at_node, flat_disk_of};
ghost use Rattle.flat_machine.specs.declared.opening.Opening.{Opening};
ghost use Rattle.job_tables.specs.Jobs.{JobsStand};
ghost use Rattle.job_tables.specs.Running.{JobsRun};
ghost use Rattle.job_results.specs.Disks.{SettlesNone, ShowsCopy, ShowsDisk, ShowsStart};
ghost use Rattle.job_results.specs.Finished.{CopiesAreShown, EndIn, EndsFirst, StandAtEnds};
ghost use Rattle.job_results.specs.Starts.{AreStarts, EndsByReply, EndsNext, StartOf};

/// In a legal history, where jobs stand right before each end: a backup that completed leaves its target the flat disk that its source had
/// at the backup's start, and by a bitmap what that made of both disks as they were then; a mirror that ended without error leaves its
/// target the flat disk of its source right before; and an end without success changes no disk, and gives no node one.
pub fn finished_copies_are_shown()
    ensures { (o : Opening) (h : List Event) → Legal (start o) h → StandAtEnds o h
        → CopiesAreShown o h }
{}

/// Jobs stand right before each end of a history with more entries, where they do in the history, jobs stand behind it, and none but the
/// first of the new ones is an end: so it is kept entry by entry.
pub fn jobs_stand_at_ends()
    ensures beginning { (o : Opening) → StandAtEnds o [] }
    ensures more { (o : Opening) (h es : List Event) → StandAtEnds o h
        → JobsStand (replay (start o) h).table → EndsFirst es → StandAtEnds o (h ++ es) }
{}

/// Each end in a legal history is that of a job of the table there, which ends once. The job's start stands before it, once, and the
/// job has the same source, target and bitmap at both.
pub fn jobs_that_end_began()
    ensures ends { (o : Opening) (before behind : List Event) (number : ℕ) (why : JobEnd)
        (offset : ℕ) → Legal (start o) (before ++ End number why offset ∷ behind)
        → With (job_at (replay (start o) before).table number)
        (λ row. EndsNext o before number row why offset) }
    ensures began { (o : Opening) (h : List Event) (number : ℕ) (row : JobRecord) (why : JobEnd)
        (offset : ℕ) → EndsNext o h number row why offset → StartOf (start o) h number row }
    ensures once { (first : State) (h : List Event) (number : ℕ) (row : JobRecord)
        (a b : StartOf first h number row) → Legal first h → a.before ≡ b.before }
    ensures ends_once { (o : Opening) (h : List Event) (e f : EndIn o h) → Legal (start o) h
        → e.number ≡ f.number → e.before ≡ f.before }
{}

/// A job's start stands behind the reply to a command, with none but starts between, and those leave each disk: so what it finds is what
/// is so right behind the reply.
pub fn starts_follow_a_reply()
    ensures follows { (o : Opening) (h : List Event) (number : ℕ) (row : JobRecord)
        (a : StartOf (start o) h number row) → Legal (start o) h → EndsByReply a.before }
    ensures disks { (es : List Event) (s : State) (node : ℕ) → AreStarts es
        → bytes_at_node (replay s es) node ≡ bytes_at_node s node }
{}

/// From the end of a backup that completed its target shows the disk that its source had at its start. Where it copied by a bitmap,
/// the target shows what that made of both disks as they were then, if it had a flat disk; else no disk changes, and none is settled.
pub fn backups_show_their_start()
    ensures whole { (o : Opening) (h : List Event) (number : ℕ) (row : JobRecord)
        (offset target : ℕ) → EndsNext o h number row Completed offset → row.kind ≡ Backup
        → row.target ≡ Some target → row.bitmap ≡ None
        → ShowsStart (start o) h number row
        (after (replay (start o) h) (End number Completed offset)) target }
    ensures by_bitmap { (o : Opening) (h : List Event) (number : ℕ) (row : JobRecord)
        (offset target : ℕ) → EndsNext o h number row Completed offset → row.kind ≡ Backup
        → row.target ≡ Some target → settles_target row.bitmap ≡ true
        → ShowsCopy (start o) h number row
        (after (replay (start o) h) (End number Completed offset)) target }
    ensures onto_none { (s : State) (number : ℕ) (row : JobRecord) (offset : ℕ)
        → job_at s.table number ≡ Some row → row.kind ≡ Backup
        → settles_target row.bitmap ≡ false
        → SettlesNone s (after s (End number Completed offset)) }
{}

/// Any other end that a backup may have, and each end without success, changes no disk and settles none.
pub fn other_ends_settle_none()
    ensures backups { (s : State) (number : ℕ) (row : JobRecord) (why : JobEnd) (offset : ℕ)
        → Fits s (End number why offset) → job_at s.table number ≡ Some row
        → row.kind ≡ Backup → why ≢ Completed → SettlesNone s (after s (End number why offset)) }
    ensures failed { (s : State) (number : ℕ) (why : JobEnd) (offset : ℕ)
        → is_success why ≡ false → SettlesNone s (after s (End number why offset)) }
{}

/// From an end of a mirror without error its target shows the disk that its source has right before it, where jobs stand.
pub fn mirrors_show_their_end()
    ensures { (s : State) (number : ℕ) (row : JobRecord) (why : JobEnd) (offset target : ℕ)
        → JobsStand s.table → job_at s.table number ≡ Some row → row.kind ≡ Mirror
        → row.target ≡ Some target → is_success why ≡ true
        → ShowsDisk (after s (End number why offset)) target (bytes_at_node s row.source) }
{}

/// What a node shows is its flat disk, where it is there and no filter. Where jobs stand, the target of a backup or mirror is so behind
/// the job's end; and where they run, it has no flat disk behind one without success.
pub fn shown_disks_are_flat()
    ensures flat { (s : State) (node : ℕ) (bytes : List ℕ) (row : NodeRecord)
        → ShowsDisk s node bytes → node_by_id s.table node ≡ Some row
        → filter_role row.kind ≡ None → flat_disk_of s node ≡ Some bytes }
    ensures targets { (s : State) (row : JobRecord) (why : JobEnd) (target : ℕ)
        → JobsStand s.table → Contains s.table.jobs row → copied_to row row.kind ≡ Some target
        → With (node_by_id (noted_end s row why).table target)
        (λ node. filter_role node.kind ≡ None) }
    ensures unshown { (s : State) (row : JobRecord) (why : JobEnd) (target : ℕ)
        → JobsStand s.table → JobsRun s.table → Contains s.table.jobs row
        → copied_to row row.kind ≡ Some target → is_success why ≡ false
        → flat_disk_of (noted_end s row why) target ≡ None }
{}
