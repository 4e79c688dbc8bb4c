//! Laws of the headers that ends of streams and inner commits rewrite, each the contract of a function that does nothing.
ghost use Rattle.std.specs.Prelude.{◌≡◌, ℕ, true, List, [], ◌∷◌, Contains, Option, Some, None};
ghost use Rattle.blk_base.specs.Pieces.{Extent};
ghost use Rattle.blk_base.specs.declared.fault.Outcome.{Outcome};
ghost use Rattle.blk_history.specs.declared.entry.JobEnd.{JobEnd};
ghost use Rattle.blk_history.specs.declared.event.Event.{Event};
ghost use Rattle.trace_codec.specs.declared.op.Op.{Op};
ghost use Rattle.qmp_codec.specs.Commands.{Cmd};
ghost use Rattle.qmp_codec.specs.declared.command.Command.TheVariants.{BlockStream, BlockCommit};
ghost use Rattle.qmp_codec.specs.declared.jobs.Stream.{Stream};
ghost use Rattle.qmp_codec.specs.declared.jobs.Commit.{Commit};
ghost use Rattle.qmp_codec.specs.declared.nodes.Created.{Created};
ghost use Rattle.qmp_rules.specs.declared.change.Change.{Change};
ghost use Rattle.qmp_rules.specs.declared.change.Change.TheVariants.{Attach, Move};
ghost use Rattle.qmp_rules.specs.declared.rows.JobRecord.{JobRecord};
ghost use Rattle.qmp_rules.specs.declared.told.Told.{Told};
ghost use Rattle.qmp_rules.specs.Answers.{refusal_to, command_edits};
ghost use Rattle.qmp_rules.specs.Edits.{spoiled, start_edits, stream_job, edits_of};
ghost use Rattle.qmp_rules.specs.Table.{RunTable, job_at};
ghost use Rattle.flat_machine.specs.State.{State};
ghost use Rattle.flat_machine.specs.Changed.{all_stepped};
ghost use Rattle.flat_machine.specs.Jobs.{ended, noted_end, readied, started};
ghost use Rattle.flat_machine.specs.Machine.{after, with_part};
ghost use Rattle.flat_machine.specs.Standing.{Stands, StandsAtRest};
ghost use Rattle.flat_machine.specs.Suiting.{AllTableSuit};
ghost use Rattle.flat_machine.specs.Wiring.{TableStands};
ghost use Rattle.job_tables.specs.Accepted.{Begins, IsMet, JobsAreDrawn};
ghost use Rattle.job_tables.specs.Changes.{AllLeaveJobs};
ghost use Rattle.job_tables.specs.Ends.{rebased_by};
ghost use Rattle.job_tables.specs.Jobs.{JobsStand};
ghost use Rattle.job_tables.specs.Running.{JobsRun};
ghost use Rattle.job_entries.specs.Ends.{HeaderIsNamed, RestsToEnd};
ghost use Rattle.job_entries.specs.Found.{leaves_jobs};
ghost use Rattle.job_chains.specs.Headers.{HeaderBegins, HeadersAreNamed, IsWritableImage};

/// What each end rests on holds while jobs run, where the headers that ends rewrite are named; those are in no `file` nodes.
pub fn named_headers_can_be_rewritten()
    ensures named { (s : State) (row : JobRecord) (node : ℕ) → Stands s → HeadersAreNamed s
        → Contains s.table.jobs row → rebased_by row row.kind ≡ Some node
        → HeaderIsNamed s node }
    ensures rests { (s : State) (row : JobRecord) → Stands s → JobsStand s.table
        → JobsRun s.table → HeadersAreNamed s → Contains s.table.jobs row → RestsToEnd s row }
{}

/// The headers are named where there is no job, behind changes that leave jobs, snapshots, creations of which a call failed, pieces of
/// guests' requests, and entries that are no job's and no command's.
pub fn headers_stay_named()
    ensures beginning { (s : State) → s.table.jobs ≡ [] → HeadersAreNamed s }
    ensures changes { (changes : List Change) (s : State) → TableStands s.table
        → JobsStand s.table → AllTableSuit s.table changes → AllLeaveJobs s.table changes
        → HeadersAreNamed s → HeadersAreNamed (all_stepped s changes) }
    ensures snapshots { (s : State) (node overlay : ℕ) → TableStands s.table
        → AllTableSuit s.table (Attach overlay node ∷ Move node overlay overlay ∷ [])
        → HeadersAreNamed s
        → HeadersAreNamed (all_stepped s (Attach overlay node ∷ Move node overlay overlay ∷ [])) }
    ensures failed { (s : State) (options : Created (List ℕ)) → HeadersAreNamed s
        → HeadersAreNamed (all_stepped s (spoiled s.table options)) }
    ensures pieces { (s : State) (drive : ℕ) (op : Op) (outcome : Outcome) (part : Extent)
        → HeadersAreNamed s → HeadersAreNamed (with_part drive op outcome part s) }
    ensures others { (s : State) (e : Event) → leaves_jobs e ≡ true → HeadersAreNamed s
        → HeadersAreNamed (after s e) }
{}

/// So it is behind the changes of a start, where the top of a stream is a qcow2 node that may be written; behind its entry in the
/// history, the note that a job is ready, and ends.
pub fn headers_stay_named_while_jobs_run()
    ensures starts { (s : State) (row : JobRecord) → Stands s → JobsStand s.table
        → JobsRun s.table → Begins s.table row → HeaderBegins s.table row row.kind
        → HeadersAreNamed s → HeadersAreNamed (all_stepped s (start_edits s.table row)) }
    ensures started { (s : State) (row : Option JobRecord) → HeadersAreNamed s
        → HeadersAreNamed (started s row) }
    ensures ready { (s : State) (number : ℕ) → HeadersAreNamed s
        → HeadersAreNamed (readied number s) }
    ensures ends { (s : State) (row : JobRecord) (why : JobEnd) → TableStands s.table
        → JobsStand s.table → Contains s.table.jobs row → HeadersAreNamed s
        → HeadersAreNamed (noted_end s row why) }
    ensures ended { (s : State) (number : ℕ) (why : JobEnd) → TableStands s.table
        → JobsStand s.table → HeadersAreNamed s
        → HeadersAreNamed (ended s (job_at s.table number) why) }
{}

/// A stream is accepted on a qcow2 node that may be written alone. So the headers are named behind accepted commands, whatever was
/// told of files, and behind the changes of streams and commits. A transaction's actions aren't spoken of.
pub fn accepted_commands_keep_headers_named()
    ensures begins { (t : RunTable) (told : Told) (c : Stream (List ℕ)) → TableStands t
        → IsMet t told (BlockStream c) → IsWritableImage t (stream_job t c).source }
    ensures stream { (s : State) (told : Told) (c : Stream (List ℕ)) → Stands s
        → JobsAreDrawn s.table → IsMet s.table told (BlockStream c) → HeadersAreNamed s
        → HeadersAreNamed (all_stepped s (edits_of s.table told (BlockStream c))) }
    ensures commit { (s : State) (told : Told) (c : Commit (List ℕ)) → Stands s
        → JobsAreDrawn s.table → IsMet s.table told (BlockCommit c) → HeadersAreNamed s
        → HeadersAreNamed (all_stepped s (edits_of s.table told (BlockCommit c))) }
    ensures commands { (s : State) (told : Told) (c : Cmd) → StandsAtRest s
        → JobsAreDrawn s.table → refusal_to s.table told c ≡ None → HeadersAreNamed s
        → HeadersAreNamed (all_stepped s (command_edits s.table told c)) }
{}
