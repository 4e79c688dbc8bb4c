//! Laws of the sizes of disks along a chain.
ghost use Rattle.std.specs.Prelude.{◌≡◌, ℕ, List, [], ◌∷◌, Contains, Some, None};
ghost use Rattle.qmp_codec.specs.Commands.{Cmd};
ghost use Rattle.qmp_codec.specs.declared.command.Command.TheVariants.{BlockStream, BlockCommit};
ghost use Rattle.qmp_codec.specs.declared.event.JobKind.TheVariants.{Commit};
ghost use Rattle.qmp_codec.specs.declared.jobs.Commit.{Commit as CommitCommand};
ghost use Rattle.qmp_codec.specs.declared.jobs.Stream.{Stream};
ghost use Rattle.qmp_codec.specs.declared.nodes.Created.{Created};
ghost use Rattle.blk_history.specs.declared.entry.JobEnd.{JobEnd};
ghost use Rattle.qmp_rules.specs.declared.change.Change.{Change};
ghost use Rattle.qmp_rules.specs.declared.change.Change.TheVariants.{Attach, Move};
ghost use Rattle.qmp_rules.specs.declared.change.JobOutcome.{JobOutcome};
ghost use Rattle.qmp_rules.specs.declared.rows.JobRecord.{JobRecord};
ghost use Rattle.qmp_rules.specs.declared.told.Told.{Told};
ghost use Rattle.qmp_rules.specs.Answers.{refusal_to, command_edits};
ghost use Rattle.qmp_rules.specs.Chains.{written_under};
ghost use Rattle.qmp_rules.specs.Changes.{all_changed};
ghost use Rattle.qmp_rules.specs.Edits.{start_edits, edits_of, spoiled};
ghost use Rattle.qmp_rules.specs.Ends.{end_edits};
ghost use Rattle.qmp_rules.specs.Table.{RunTable, job_at, opening_table};
ghost use Rattle.flat_machine.specs.State.{State};
ghost use Rattle.flat_machine.specs.Jobs.{target_written, ended, readied};
ghost use Rattle.flat_machine.specs.Sights.{IsTold};
ghost use Rattle.flat_machine.specs.Standing.{Stands};
ghost use Rattle.flat_machine.specs.Suiting.{HaveOneSize, AllTableSuit};
ghost use Rattle.flat_machine.specs.Wiring.{TableStands, TableAtRest};
ghost use Rattle.job_tables.specs.Accepted.{IsMet};
ghost use Rattle.job_tables.specs.Copiers.{CopiesGo};
ghost use Rattle.job_tables.specs.Ends.{rebased_by};
ghost use Rattle.job_tables.specs.Jobs.{JobsStand, EdgesAreDrawn};
ghost use Rattle.job_tables.specs.Running.{JobsRun};
ghost use Rattle.job_tables.specs.Starts.{JobBegins};
ghost use Rattle.job_chains.specs.Sizes.{ChainsHaveOneSize, AllLeaveSizes, TellsSizes};

/// A node has the size of its backing node, and a job's filter that of the node under it. So it is at the beginning, behind changes
/// that suit the table where new nodes are so, behind snapshots, a creation of which a call failed, and a guest's write.
pub fn chains_have_one_size()
    ensures beginning { (guests : List (List ℕ)) → ChainsHaveOneSize (opening_table guests) }
    ensures changes { (changes : List Change) (t : RunTable) → TableStands t
        → AllTableSuit t changes → AllLeaveSizes t changes → ChainsHaveOneSize t
        → ChainsHaveOneSize (all_changed t changes) }
    ensures snapshots { (t : RunTable) (node overlay : ℕ) → HaveOneSize t overlay node
        → ChainsHaveOneSize t
        → ChainsHaveOneSize (all_changed t (Attach overlay node ∷ Move node overlay overlay ∷ [])) }
    ensures failed { (t : RunTable) (options : Created (List ℕ)) → ChainsHaveOneSize t
        → ChainsHaveOneSize (all_changed t (spoiled t options)) }
    ensures writes { (t : RunTable) (node : ℕ) → ChainsHaveOneSize t
        → ChainsHaveOneSize (written_under node t) }
{}

/// So it is behind the start of a job of any kind, behind ends, where the targets of backups and mirrors have their sources' sizes, and
/// behind the note that a job is ready.
pub fn chains_keep_one_size_while_jobs_run()
    ensures starts { (t : RunTable) (row : JobRecord) → JobBegins t row → ChainsHaveOneSize t
        → ChainsHaveOneSize (all_changed t (start_edits t row)) }
    ensures ends { (t : RunTable) (row : JobRecord) (outcome : JobOutcome) → TableStands t
        → JobsStand t → Contains t.jobs row → CopiesGo t → ChainsHaveOneSize t
        → ChainsHaveOneSize (all_changed t (end_edits t row outcome)) }
    ensures noted { (s : State) (number : ℕ) (why : JobEnd) → TableStands s.table
        → JobsStand s.table → CopiesGo s.table → ChainsHaveOneSize s.table
        → ChainsHaveOneSize (ended s (job_at s.table number) why).table }
    ensures ready { (s : State) (number : ℕ) → ChainsHaveOneSize s.table
        → ChainsHaveOneSize (readied number s).table }
{}

/// So the base of a commit has its top's size, each node that a job writes that of its source, and the base of a stream or of an inner
/// commit that of the node that gets it as its backing node.
pub fn nodes_of_jobs_have_one_size()
    ensures commits { (t : RunTable) (row : JobRecord) (base : ℕ) → JobsStand t
        → ChainsHaveOneSize t → Contains t.jobs row → row.kind ≡ Commit → row.target ≡ Some base
        → HaveOneSize t row.source base }
    ensures targets { (t : RunTable) (row : JobRecord) (target : ℕ) → JobsStand t → CopiesGo t
        → ChainsHaveOneSize t → Contains t.jobs row → target_written row ≡ Some target
        → HaveOneSize t row.source target }
    ensures rebased { (t : RunTable) (row : JobRecord) (node base : ℕ) → JobsStand t
        → ChainsHaveOneSize t → Contains t.jobs row → rebased_by row row.kind ≡ Some node
        → row.target ≡ Some base → HaveOneSize t node base }
{}

/// So it is behind an accepted command, where of an image that is added it is told that it is as large as its backing node: that is told
/// of the files that the state knows. So it is of streams and commits that meet what they are asked, and a transaction isn't spoken of.
pub fn accepted_commands_keep_sizes()
    ensures told { (s : State) (told : Told) (c : Cmd) → Stands s → IsTold s c told
        → refusal_to s.table told c ≡ None → TellsSizes s.table told c }
    ensures commands { (t : RunTable) (told : Told) (c : Cmd) → TableAtRest t → JobsStand t
        → JobsRun t → EdgesAreDrawn t → TellsSizes t told c → refusal_to t told c ≡ None
        → ChainsHaveOneSize t
        → ChainsHaveOneSize (all_changed t (command_edits t told c)) }
    ensures stream { (t : RunTable) (told : Told) (c : Stream (List ℕ)) → TableStands t
        → JobsStand t → JobsRun t → IsMet t told (BlockStream c) → ChainsHaveOneSize t
        → ChainsHaveOneSize (all_changed t (edits_of t told (BlockStream c))) }
    ensures commit { (t : RunTable) (told : Told) (c : CommitCommand (List ℕ)) → TableStands t
        → JobsStand t → JobsRun t → EdgesAreDrawn t → IsMet t told (BlockCommit c)
        → ChainsHaveOneSize t
        → ChainsHaveOneSize (all_changed t (edits_of t told (BlockCommit c))) }
{}
