//! Laws of the entries of jobs, each the contract of a function that does nothing.
ghost use Rattle.std.specs.Prelude.{◌≡◌, ◌<◌, ◌≤◌, ℕ, true, List, [], ◌∷◌, Contains, Option, Some, None, Ok};
ghost use Rattle.serde_json.specs.Data.{Data};
ghost use Rattle.serde_json.specs.Read.{read};
ghost use Rattle.qmp_codec.specs.Commands.{Cmd};
ghost use Rattle.qmp_codec.specs.Lines.{command_at};
ghost use Rattle.qmp_codec.specs.Replies.{returned_data};
ghost use Rattle.qmp_rules.specs.declared.told.Told.{Told};
ghost use Rattle.qmp_rules.specs.Answers.{refusal_to, command_edits};
ghost use Rattle.qmp_rules.specs.Changes.{all_changed};
ghost use Rattle.qmp_rules.specs.Table.{RunTable};
ghost use Rattle.flat_machine.specs.Replies.{replied, IsAnswer};
ghost use Rattle.flat_machine.specs.Sights.{IsTold};
ghost use Rattle.qmp_rules.specs.declared.change.Change.{Change};
ghost use Rattle.qmp_rules.specs.declared.change.Change.TheVariants.{Attach, Move};
ghost use Rattle.qmp_rules.specs.declared.rows.JobRecord.{JobRecord};
ghost use Rattle.qmp_rules.specs.Edits.{start_edits};
ghost use Rattle.blk_history.specs.declared.entry.JobEnd.{JobEnd};
ghost use Rattle.blk_history.specs.declared.event.Event.{Event};
ghost use Rattle.flat_machine.specs.State.{State};
ghost use Rattle.flat_machine.specs.Jobs.{outcome_of, changes_at_end, noted_end, started, readied};
ghost use Rattle.flat_machine.specs.Changed.{all_stepped};
ghost use Rattle.flat_machine.specs.Agreement.{Contents, Agrees};
ghost use Rattle.flat_machine.specs.Imaging.{ShowsImages, AllKeepImages};
ghost use Rattle.flat_machine.specs.Performing.{AllCan, AllPerformed};
ghost use Rattle.flat_machine.specs.Wiring.{TableStands, TableAtRest};
ghost use Rattle.flat_machine.specs.Standing.{Stands, StandsAtRest};
ghost use Rattle.flat_machine.specs.Suiting.{AllTableSuit, AllSuit};
ghost use Rattle.flat_machine.specs.Legal.{IsAtRest};
ghost use Rattle.flat_machine.specs.Machine.{after};
ghost use Rattle.flat_machine.specs.Opening.{start};
ghost use Rattle.flat_machine.specs.declared.opening.Opening.{Opening};
ghost use Rattle.job_tables.specs.Accepted.{JobsAreDrawn};
ghost use Rattle.job_tables.specs.Changes.{AllLeaveJobs};
ghost use Rattle.job_tables.specs.Jobs.{JobsStand, EdgesAreDrawn};
ghost use Rattle.job_tables.specs.Ends.{EndSuits, rebased_by};
ghost use Rattle.job_tables.specs.Running.{JobsRun};
ghost use Rattle.job_tables.specs.Starts.{JobBegins};
ghost use Rattle.job_entries.specs.Ends.{renamed, RestsToEnd, HeaderIsNamed, ShowsEnd};
ghost use Rattle.job_entries.specs.Found.{HasBegun, HaveBegun, FindsWhole, leaves_jobs};
ghost use Rattle.job_entries.specs.Starts.{ShowsFilter, LendsAsRead};

/// A start that is noted changes neither tables nor disks: nodes, files and images are what the flat machine says behind it
/// where they were before, and what holds of states between events still does.
pub fn starts_change_no_disk()
    ensures disks { (opening : List ℕ → Option (List ℕ)) (s : State) (row : Option JobRecord)
        (c : Contents) → Agrees opening s c → Agrees opening (started s row) c }
    ensures images { (s : State) (row : Option JobRecord) (c : Contents) → ShowsImages s c
        → ShowsImages (started s row) c }
    ensures rests { (s : State) (row : Option JobRecord) → StandsAtRest s
        → StandsAtRest (started s row) }
    ensures table { (s : State) (row : Option JobRecord) → (started s row).table ≡ s.table }
    ensures bytes { (s : State) (row : Option JobRecord) → (started s row).disks ≡ s.disks }
{}

/// So it is where it is noted that a job is ready.
pub fn readiness_changes_no_disk()
    ensures disks { (opening : List ℕ → Option (List ℕ)) (s : State) (job : ℕ) (c : Contents)
        → Agrees opening s c → Agrees opening (readied job s) c }
    ensures images { (s : State) (job : ℕ) (c : Contents) → ShowsImages s c
        → ShowsImages (readied job s) c }
    ensures rests { (s : State) (job : ℕ) → StandsAtRest s → StandsAtRest (readied job s) }
    ensures bytes { (s : State) (job : ℕ) → (readied job s).disks ≡ s.disks }
{}

/// The changes of a job's end can be made, with what jobs keep for it, and no image gets another file. Where they were
/// performed, nodes and files are what the flat machine says behind the end; and so are images, where the state has what the end needs.
pub fn ends_can_be_made()
    ensures can { (s : State) (row : JobRecord) (why : JobEnd) → TableStands s.table
        → JobsStand s.table → Contains s.table.jobs row → RestsToEnd s row
        → AllCan s (changes_at_end s row why) }
    ensures images { (s : State) (row : JobRecord) (why : JobEnd) → TableStands s.table
        → JobsStand s.table → Contains s.table.jobs row
        → AllKeepImages s (changes_at_end s row why) }
    ensures disks { (opening : List ℕ → Option (List ℕ)) (s : State) (row : JobRecord)
        (why : JobEnd) (old new : Contents) → TableStands s.table → JobsStand s.table
        → Contains s.table.jobs row → RestsToEnd s row
        → AllPerformed s (changes_at_end s row why) old new
        → Agrees opening s old → Agrees opening (noted_end s row why) new }
    ensures shown { (opening : List ℕ → Option (List ℕ)) (s : State) (row : JobRecord)
        (why : JobEnd) (old new : Contents) → Stands s → JobsStand s.table
        → EdgesAreDrawn s.table → Contains s.table.jobs row → EndSuits s row
        → RestsToEnd s row
        → AllPerformed s (changes_at_end s row why) old new
        → Agrees opening s old → ShowsImages s old → ShowsImages (noted_end s row why) new }
{}

/// What an end rests on holds while jobs run, where the header that gets another name is that of a format node whose file was
/// named for writing.
pub fn running_jobs_rest_to_end()
    ensures { (s : State) (row : JobRecord) → Stands s → JobsStand s.table → JobsRun s.table
        → Contains s.table.jobs row
        → ((node : ℕ) → rebased_by row row.kind ≡ Some node → HeaderIsNamed s node)
        → RestsToEnd s row }
{}

/// An end that gives no header another name writes nothing: its changes were performed where the filter is gone, all else reads
/// and holds the same, and the target reads as it is to.
pub fn ends_write_nothing()
    ensures { (s : State) (row : JobRecord) (why : JobEnd) (old new : Contents)
        → renamed row (outcome_of why) ≡ None → ShowsEnd s row why old new
        → AllPerformed s (changes_at_end s row why) old new }
{}

/// The changes of a start can be made, no image gets another file, and they were performed where the filter reads as the source
/// and all else reads and holds the same.
pub fn starts_can_be_made()
    ensures can { (s : State) (row : JobRecord) → JobBegins s.table row
        → AllCan s (start_edits s.table row) }
    ensures images { (s : State) (row : JobRecord) → TableStands s.table → JobBegins s.table row
        → AllKeepImages s (start_edits s.table row) }
    ensures performed { (s : State) (row : JobRecord) (old new : Contents)
        → JobBegins s.table row → ShowsFilter row old new
        → AllPerformed s (start_edits s.table row) old new }
    ensures disks { (opening : List ℕ → Option (List ℕ)) (s : State) (row : JobRecord)
        (old new : Contents) → JobBegins s.table row → ShowsFilter row old new
        → Agrees opening s old → Agrees opening (all_stepped s (start_edits s.table row)) new }
{}

/// The changes of a start suit the state, where a commit makes writable what may not be written: so what holds between events holds
/// behind them, and what is said of images.
pub fn starts_keep_standing()
    ensures suit { (s : State) (row : JobRecord) → Stands s → JobsStand s.table
        → EdgesAreDrawn s.table → JobBegins s.table row
        → LendsAsRead s.table row row.kind → AllSuit s (start_edits s.table row) }
    ensures rests { (s : State) (row : JobRecord) → StandsAtRest s → JobBegins s.table row
        → AllSuit s (start_edits s.table row)
        → StandsAtRest (all_stepped s (start_edits s.table row)) }
    ensures shown { (opening : List ℕ → Option (List ℕ)) (s : State) (row : JobRecord)
        (old new : Contents) → Stands s → JobBegins s.table row
        → AllSuit s (start_edits s.table row) → ShowsFilter row old new
        → Agrees opening s old → ShowsImages s old
        → ShowsImages (all_stepped s (start_edits s.table row)) new }
{}

/// What holds between events holds behind each accepted command, whatever was told of files, and of states behind its reply: its changes
/// suit the state, also where they begin a job.
pub fn accepted_commands_keep_standing()
    ensures tables { (t : RunTable) (told : Told) (c : Cmd) → TableAtRest t → JobsAreDrawn t
        → refusal_to t told c ≡ None → TableAtRest (all_changed t (command_edits t told c)) }
    ensures suit { (s : State) (told : Told) (c : Cmd) → StandsAtRest s → JobsAreDrawn s.table
        → IsTold s c told → refusal_to s.table told c ≡ None
        → AllSuit s (command_edits s.table told c) }
    ensures replies { (s : State) (told : Told) (c : Cmd) (given text : List ℕ) (id : Option Data)
        (d : Data) → command_at given ≡ Ok c → StandsAtRest s → JobsAreDrawn s.table
        → IsTold s c told → refusal_to s.table told c ≡ None
        → read text ≡ Some (returned_data id d) → StandsAtRest (replied s given text) }
    ensures answers { (s : State) (given : List ℕ) (command : Option Cmd) (text : List ℕ)
        → StandsAtRest s → JobsAreDrawn s.table → IsAnswer s given command text
        → StandsAtRest (replied s given text) }
{}

/// What holds between events holds behind the end of a job, where the state has what the end needs.
pub fn ends_keep_standing()
    ensures { (s : State) (row : JobRecord) (why : JobEnd) → StandsAtRest s → JobsStand s.table
        → EdgesAreDrawn s.table → Contains s.table.jobs row → EndSuits s row
        → StandsAtRest (noted_end s row why) }
{}

/// What the start of each job found is noted from its own entry on, for as long as the job runs: as long as its source is, where the
/// disks that the start found were, and whatever entry comes.
pub fn running_jobs_have_begun()
    ensures beginning { (o : Opening) → HaveBegun (start o) }
    ensures starts { (s : State) (row : JobRecord) → JobsStand s.table → Contains s.table.jobs row
        → row.number ≡ s.starts → FindsWhole s row → HaveBegun s
        → HaveBegun (started s (Some row)) }
    ensures ready { (s : State) (job : ℕ) → HaveBegun s → HaveBegun (readied job s) }
    ensures ends { (s : State) (row : JobRecord) (why : JobEnd) → JobsStand s.table
        → Contains s.table.jobs row → HaveBegun s → HaveBegun (noted_end s row why) }
    ensures changes { (changes : List Change) (s : State) → TableStands s.table
        → JobsStand s.table → AllTableSuit s.table changes → AllLeaveJobs s.table changes
        → HaveBegun s → HaveBegun (all_stepped s changes) }
    ensures snapshots { (s : State) (node overlay : ℕ) → HaveBegun s
        → HaveBegun (all_stepped s (Attach overlay node ∷ Move node overlay overlay ∷ [])) }
    ensures begins { (s : State) (row : JobRecord) → JobsStand s.table → JobBegins s.table row
        → s.starts ≤ row.number → HaveBegun s
        → HaveBegun (all_stepped s (start_edits s.table row)) }
    ensures others { (s : State) (e : Event) → leaves_jobs e ≡ true → HaveBegun s
        → HaveBegun (after s e) }
    ensures rest { (s : State) (row : JobRecord) → IsAtRest s → HaveBegun s
        → Contains s.table.jobs row → row.number < s.table.started → HasBegun s row }
{}
