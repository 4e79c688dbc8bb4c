//! What follows from the statement of a run, as the contract of a function that does nothing.
ghost use Rattle.std.specs.Prelude.{◌≡◌, ℕ, Bool, true, List, Option, is_some, length};
ghost use Rattle.blk_base.specs.Written.{Written};
ghost use Rattle.blk_base.specs.declared.fault.FaultAt.{FaultAt};
ghost use Rattle.blk_history.specs.Fold.{With};
ghost use Rattle.trace_codec.specs.declared.waits.Waits.{Waits};
ghost use Rattle.flat_machine.specs.Comes.{IsInOrder};
ghost use Rattle.flat_machine.specs.Courses.{course_of};
ghost use Rattle.flat_machine.specs.Entries.{FallsIntoEvents};
ghost use Rattle.flat_machine.specs.Opening.{start};
ghost use Rattle.job_results.specs.Finished.{CopiesAreShown};
ghost use Rattle.world_parts.specs.Steps.{StoreSeen, new_world};
ghost use Rattle.qblk_core.specs.declared.status.InputWhy.{InputWhy};
ghost use Rattle.qblk_core.specs.declared.status.Status.{Status};
ghost use Rattle.qblk_core.specs.declared.status.Status.TheVariants.{Input};
ghost use Rattle.qblk_inputs.specs.Inputs.{Work, HasWork};
ghost use Rattle.qblk_words.specs.Words.{Cast};
ghost use Rattle.qblk_run.specs.Completeness.{CanBeWhole, AreAttached, HaveSpace, MeetsNone, NamesNoFault, NoneHasRisen};
ghost use Rattle.qblk_run.specs.Run.{Account, Answers, EndsStuck, HaveStood, IsRun, Setting, counts_at_first, counts_at_last, history_room};

/// A run whose script awaits nothing, and whose traces wait for lines of the script alone, isn't stuck where each of its guests
/// has a device at the end.
pub fn runs_that_await_nothing_are_whole()
    ensures { (is_told : Bool) (work : Work) (a : Account) (actor : ℕ) (what : Waits (List ℕ))
        → CanBeWhole work → IsInOrder a.opening work.script work.traces a.events
        → (stuck : EndsStuck is_told work a actor what)
        → AreAttached stuck.state.table (length work.traces) → ⊥ }
{}

/// Inputs that are there, and that say what is to be done, are not refused.
pub fn good_inputs_are_taken()
    ensures { (cast : Cast) (work : Work) (old new : Setting) (name : Written) (line : ℕ)
        (why : InputWhy)
        → With old.store.files (HasWork cast work) → Answers cast old new (Input name line why)
        → ⊥ }
{}

/// A run in which no count of store, device or sink rises names no fault.
pub fn runs_without_a_rise_name_no_fault()
    ensures { (cast : Cast) (old new : Setting) (status : Status)
        → Answers cast old new status → NoneHasRisen old new → NamesNoFault status }
{}

/// In a run in which no count rises, and no write would pass a capacity in the world that it is made in, each piece is good, and
/// no command fails with a call of it.
pub fn runs_with_space_are_good()
    ensures { (cast : Cast) (work : Work) (had : Bool) (fault : Option FaultAt)
        (old new : StoreSeen) (a : Account)
        → (run : IsRun cast work had fault old new a)
        → HaveStood (counts_at_first old a) (counts_at_last new a)
        → HaveSpace a.opening (course_of work.script work.traces)
        (new_world old a.opening.guests (history_room work)) run.worlds.events
        run.worlds.near run.worlds.through
        → MeetsNone a.events }
{}

/// Where the store tells its files, the entries of a run are those of one event after another: each call makes just the entries of
/// its event, a reply with the starts of the jobs of its command directly behind it.
pub fn runs_fall_into_events()
    ensures { (cast : Cast) (work : Work) (had : Bool) (fault : Option FaultAt)
        (old new : StoreSeen) (a : Account)
        → IsRun cast work had fault old new a → is_some old.files ≡ true
        → FallsIntoEvents (start a.opening) a.events }
{}

/// Where the store tells its files, each finished job of a run shows what it is to: the target of a backup of a whole disk has the disk that
/// the source had at the job's start, which stands before in the history; by a bitmap, on a target that had a disk, the granules that the
/// bitmap held are the source's of then; and the target of a mirror has the disk that its source has right before its end. No other end
/// gives a node a disk.
pub fn finished_copies_are_shown()
    ensures { (cast : Cast) (work : Work) (had : Bool) (fault : Option FaultAt)
        (old new : StoreSeen) (a : Account)
        → IsRun cast work had fault old new a → is_some old.files ≡ true
        → CopiesAreShown a.opening a.events }
{}
