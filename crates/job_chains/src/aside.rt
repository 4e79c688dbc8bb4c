//! Laws of nodes that read what commits write and not through their tops, each the contract of a function that does nothing.
ghost use Rattle.std.specs.Prelude.{◌≡◌, ℕ, true, false, List, [], ◌∷◌, Contains, Some, None};
ghost use Rattle.blk_history.specs.declared.entry.JobEnd.{JobEnd};
ghost use Rattle.qmp_codec.specs.Commands.{Cmd};
ghost use Rattle.qmp_codec.specs.declared.command.Command.TheVariants.{BlockStream, BlockCommit, BlockdevBackup, BlockdevMirror};
ghost use Rattle.qmp_codec.specs.declared.event.JobKind.TheVariants as job_kind;
ghost use Rattle.qmp_codec.specs.declared.jobs.Backup.{Backup};
ghost use Rattle.qmp_codec.specs.declared.jobs.Mirror.{Mirror};
ghost use Rattle.qmp_codec.specs.declared.jobs.Stream.{Stream};
ghost use Rattle.qmp_codec.specs.declared.jobs.Commit.{Commit};
ghost use Rattle.qmp_codec.specs.declared.nodes.Created.{Created};
ghost use Rattle.qmp_rules.specs.declared.change.Change.{Change};
ghost use Rattle.qmp_rules.specs.declared.change.Change.TheVariants.{Attach, Move};
ghost use Rattle.qmp_rules.specs.declared.change.JobOutcome.{JobOutcome};
ghost use Rattle.qmp_rules.specs.declared.rows.NodeRecord.{NodeRecord};
ghost use Rattle.qmp_rules.specs.declared.rows.JobRecord.{JobRecord};
ghost use Rattle.qmp_rules.specs.declared.told.Told.{Told};
ghost use Rattle.qmp_rules.specs.Answers.{refusal_to, command_edits};
ghost use Rattle.qmp_rules.specs.Chains.{filter_role, is_settled, written_under};
ghost use Rattle.qmp_rules.specs.Changes.{all_changed};
ghost use Rattle.qmp_rules.specs.Edits.{edits_of, reads_one_of, spoiled, start_edits, under_top};
ghost use Rattle.qmp_rules.specs.Ends.{end_edits};
ghost use Rattle.qmp_rules.specs.Table.{RunTable, job_at, opening_table};
ghost use Rattle.flat_machine.specs.Jobs.{ended, readied};
ghost use Rattle.flat_machine.specs.State.{State};
ghost use Rattle.flat_machine.specs.Suiting.{AllTableSuit};
ghost use Rattle.flat_machine.specs.Wiring.{TableAtRest, TableStands};
ghost use Rattle.job_tables.specs.Accepted.{IsMet, JobsAreDrawn};
ghost use Rattle.job_tables.specs.Changes.{AllLeaveJobs};
ghost use Rattle.job_tables.specs.Jobs.{EdgesAreDrawn, JobsStand};
ghost use Rattle.job_tables.specs.Starts.{JobBegins};
ghost use Rattle.job_chains.specs.Aside.{AllLeaveAside, CommitsStandAside, ReadsAside, ReadsNoneAside};

/// A node reads what a commit writes, and not through the commit's top, where its chain of backing nodes has such a node before the top.
pub fn chains_say_what_is_read_aside()
    ensures shown { (t : RunTable) (row : JobRecord) (node : NodeRecord) → TableStands t
        → JobsStand t → EdgesAreDrawn t → Contains t.jobs row → Contains t.nodes node
        → filter_role node.kind ≡ None → ReadsAside t row node.id
        → reads_one_of t row.source (under_top row) node ≡ true }
    ensures read { (t : RunTable) (row : JobRecord) (node : NodeRecord) → TableStands t
        → JobsStand t → Contains t.jobs row → Contains t.nodes node
        → filter_role node.kind ≡ None → reads_one_of t row.source (under_top row) node ≡ true
        → ReadsAside t row node.id }
{}

/// Where commits stand aside, no node that reads so has a flat disk, and what has one reads nothing so, be it through filters.
pub fn flat_disks_stand_aside()
    ensures unsettled { (t : RunTable) (row : JobRecord) (node : NodeRecord) → TableStands t
        → JobsStand t → CommitsStandAside t → Contains t.jobs row → row.kind ≡ job_kind.Commit
        → Contains t.nodes node → filter_role node.kind ≡ None
        → reads_one_of t row.source (under_top row) node ≡ true → node.is_settled ≡ false }
    ensures settled { (t : RunTable) (node : ℕ) → TableStands t → JobsStand t
        → CommitsStandAside t → is_settled t node ≡ true → ReadsNoneAside t node }
{}

/// What another job writes, or reads last, reads nothing of what a commit writes but through the commit's top: by the rule on
/// permissions nobody else reads that.
pub fn others_read_nothing_aside()
    ensures { (t : RunTable) (row other : JobRecord) (target : ℕ) → TableStands t
        → JobsAreDrawn t → Contains t.jobs row → row.kind ≡ job_kind.Commit
        → Contains t.jobs other → (other.slot ≡ row.slot → ⊥) → other.target ≡ Some target
        → ReadsAside t row target → ⊥ }
{}

/// Commits stand aside at the beginning, behind changes that leave jobs, where the backing node of a new node reads nothing aside,
/// snapshots of nodes of which that holds, a creation of which a call failed, and a guest's write.
pub fn commits_stand_aside()
    ensures beginning { (guests : List (List ℕ)) → CommitsStandAside (opening_table guests) }
    ensures changes { (changes : List Change) (t : RunTable) → TableStands t → JobsStand t
        → AllTableSuit t changes → AllLeaveJobs t changes → AllLeaveAside t changes
        → CommitsStandAside t → CommitsStandAside (all_changed t changes) }
    ensures snapshots { (t : RunTable) (node overlay : ℕ) → ReadsNoneAside t node
        → ReadsNoneAside t overlay → CommitsStandAside t
        → CommitsStandAside (all_changed t (Attach overlay node ∷ Move node overlay overlay ∷ [])) }
    ensures failed { (t : RunTable) (options : Created (List ℕ)) → CommitsStandAside t
        → CommitsStandAside (all_changed t (spoiled t options)) }
    ensures writes { (t : RunTable) (node : ℕ) → CommitsStandAside t
        → CommitsStandAside (written_under node t) }
{}

/// So it is behind the start of a job, of which a commit takes the disks of what reads aside of it; behind ends, and behind the note
/// that a job is ready.
pub fn commits_stand_aside_while_jobs_run()
    ensures starts { (t : RunTable) (row : JobRecord) → TableStands t → JobsStand t
        → EdgesAreDrawn t → JobBegins t row → CommitsStandAside t
        → CommitsStandAside (all_changed t (start_edits t row)) }
    ensures ends { (t : RunTable) (row : JobRecord) (outcome : JobOutcome) → TableStands t
        → JobsAreDrawn t → Contains t.jobs row → CommitsStandAside t
        → CommitsStandAside (all_changed t (end_edits t row outcome)) }
    ensures noted { (s : State) (number : ℕ) (why : JobEnd) → TableStands s.table
        → JobsAreDrawn s.table → CommitsStandAside s.table
        → CommitsStandAside (ended s (job_at s.table number) why).table }
    ensures ready { (s : State) (number : ℕ) → CommitsStandAside s.table
        → CommitsStandAside (readied number s).table }
{}

/// So it is behind an accepted command, whatever was told of files. A transaction's actions are judged one by one, and aren't spoken of.
pub fn accepted_commands_let_commits_stand_aside()
    ensures commands { (t : RunTable) (told : Told) (c : Cmd) → TableAtRest t → JobsAreDrawn t
        → CommitsStandAside t → refusal_to t told c ≡ None
        → CommitsStandAside (all_changed t (command_edits t told c)) }
    ensures backup { (t : RunTable) (told : Told) (c : Backup (List ℕ)) → TableStands t
        → JobsAreDrawn t → IsMet t told (BlockdevBackup c) → CommitsStandAside t
        → CommitsStandAside (all_changed t (edits_of t told (BlockdevBackup c))) }
    ensures mirror { (t : RunTable) (told : Told) (c : Mirror (List ℕ)) → TableStands t
        → JobsAreDrawn t → IsMet t told (BlockdevMirror c) → CommitsStandAside t
        → CommitsStandAside (all_changed t (edits_of t told (BlockdevMirror c))) }
    ensures stream { (t : RunTable) (told : Told) (c : Stream (List ℕ)) → TableStands t
        → JobsAreDrawn t → IsMet t told (BlockStream c) → CommitsStandAside t
        → CommitsStandAside (all_changed t (edits_of t told (BlockStream c))) }
    ensures commit { (t : RunTable) (told : Told) (c : Commit (List ℕ)) → TableStands t
        → JobsAreDrawn t → IsMet t told (BlockCommit c) → CommitsStandAside t
        → CommitsStandAside (all_changed t (edits_of t told (BlockCommit c))) }
{}
