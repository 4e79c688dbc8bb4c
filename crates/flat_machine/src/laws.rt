//! What follows from the definitions, each law the contract of a function that does nothing.

ghost use Rattle.std.specs.Prelude.{◌≡◌, ℕ, All, List, [], Option, Some, None, Ok, Err, true, false};
ghost use Rattle.serde_json.specs.Data.{Data};
ghost use Rattle.serde_json.specs.Read.{read};
ghost use Rattle.qmp_codec.specs.Lines.{Stop, command_at};
ghost use Rattle.qmp_codec.specs.Replies.{returned_data, refused_data};
ghost use Rattle.qmp_codec.specs.declared.reply.Class.{Class};
ghost use Rattle.flat_machine.specs.Replies.{begins_job, replied, edits_by, failed_edits, is_failed_call};
ghost use Rattle.blk_base.specs.Pieces.{Extent};
ghost use Rattle.blk_base.specs.declared.fault.Outcome.{Outcome};
ghost use Rattle.trace_codec.specs.declared.op.Op.{Op};
ghost use Rattle.trace_codec.specs.declared.wish.Wish.{Wish};
ghost use Rattle.trace_codec.specs.Script.{Order};
ghost use Rattle.qmp_codec.specs.Commands.{Cmd};
ghost use Rattle.qmp_codec.specs.declared.nodes.Created.{Created};
ghost use Rattle.qmp_rules.specs.declared.told.Told.{Told};
ghost use Rattle.qmp_rules.specs.declared.rows.DeviceRow.{DeviceRow};
ghost use Rattle.qmp_asks.specs.Naming.{inline_name, is_name};
ghost use Rattle.qmp_rules.specs.Table.{RunTable, device_by_number, node_named};
ghost use Rattle.qmp_rules.specs.Chains.{disk_node, written_under};
ghost use Rattle.qmp_rules.specs.Changes.{all_changed};
ghost use Rattle.qmp_rules.specs.Edits.{spoiled};
ghost use Rattle.qmp_rules.specs.Answers.{refusal_to, command_edits};
ghost use Rattle.qmp_rules.specs.declared.change.Change.{Change};
ghost use Rattle.blk_history.specs.Disk.{is_write};
ghost use Rattle.flat_machine.specs.State.{State, drive_of};
ghost use Rattle.flat_machine.specs.Opening.{start};
ghost use Rattle.flat_machine.specs.Suiting.{AllSuit, AllTableSuit};
ghost use Rattle.flat_machine.specs.declared.opening.Opening.{Opening};
ghost use Rattle.blk_history.specs.declared.entry.JobEnd.{JobEnd};
ghost use Rattle.qmp_rules.specs.declared.rows.JobRecord.{JobRecord};
ghost use Rattle.flat_machine.specs.Jobs.{changes_at_end, noted_end};
ghost use Rattle.flat_machine.specs.Changed.{stepped, all_stepped};
ghost use Rattle.flat_machine.specs.Sights.{IsTold, expected};
ghost use Rattle.flat_machine.specs.Entries.{BeginsNoJob};
ghost use Rattle.flat_machine.specs.Machine.{with_part, replay};
ghost use Rattle.flat_machine.specs.Legal.{Legal};
ghost use Rattle.flat_machine.specs.Unique.{HaveOneHistory};
ghost use Rattle.blk_history.specs.declared.event.Event.{Event};
ghost use Rattle.flat_machine.specs.Writing.{CanWrite, PieceDone};
ghost use Rattle.flat_machine.specs.Wiring.{TableStands, TableAtRest};
ghost use Rattle.flat_machine.specs.Standing.{Stands, StandsAtRest};
ghost use Rattle.flat_machine.specs.Agreement.{Contents, Agrees};
ghost use Rattle.flat_machine.specs.Performing.{Can, Performed, AllCan, AllPerformed};
ghost use Rattle.flat_machine.specs.Imaging.{ShowsImages, AllKeepImages, KeepsMapping};

/// Where nodes and files are what the flat machine says, they are so after a change that can be made and was performed,
/// whatever its kind, and after changes in turn.
pub fn changes_keep_disks()
    ensures change { (opening : List ℕ → Option (List ℕ)) (s : State) (c : Change)
        (old new : Contents) → Can s c → Performed s c old new
        → Agrees opening s old → Agrees opening (stepped s c) new }
    ensures changes { (opening : List ℕ → Option (List ℕ)) (changes : List Change) (s : State)
        (old new : Contents) → AllCan s changes → AllPerformed s changes old new
        → Agrees opening s old → Agrees opening (all_stepped s changes) new }
{}

/// So it is behind the end of a job, whose changes are one list by its row and by how it ends: each can be made, and was performed.
pub fn ends_keep_disks()
    ensures { (opening : List ℕ → Option (List ℕ)) (s : State) (row : JobRecord) (why : JobEnd)
        (old new : Contents) → AllCan s (changes_at_end s row why)
        → AllPerformed s (changes_at_end s row why) old new
        → Agrees opening s old → Agrees opening (noted_end s row why) new }
{}

/// Where nothing that may be told refuses a command, its changes can be made, one after another.
pub fn accepted_changes_can_be_made()
    ensures { (s : State) (told : Told) (c : Cmd) → Stands s → IsTold s c told
        → refusal_to s.table told c ≡ None → AllCan s (command_edits s.table (expected s c) c) }
{}

/// What holds of states between events holds at the beginning, and changes that suit a state or a table leave what each is to leave.
/// What is asked of a change is said by its kind, of the state before it. What holds of the table alone an accepted command that begins
/// no job leaves whatever was told of files, and so do a creation of which a call failed and a guest's write.
pub fn tables_stand()
    ensures beginning { (o : Opening) → StandsAtRest (start o) }
    ensures changes { (changes : List Change) (s : State)
        → AllSuit s changes → Stands s → Stands (all_stepped s changes) }
    ensures tables { (changes : List Change) (t : RunTable)
        → AllTableSuit t changes → TableStands t → TableStands (all_changed t changes) }
    ensures commands { (t : RunTable) (told : Told) (c : Cmd) → begins_job c ≡ false
        → TableAtRest t → refusal_to t told c ≡ None
        → TableAtRest (all_changed t (command_edits t told c)) }
    ensures failures { (t : RunTable) (options : Created (List ℕ)) → TableAtRest t
        → TableAtRest (all_changed t (spoiled t options)) }
    ensures writes { (t : RunTable) (node : ℕ) → TableAtRest t
        → TableAtRest (written_under node t) }
{}

/// Between events the name that a `file` node gets by the node over it is free where that node's own name is.
pub fn inline_names_are_free()
    ensures { (t : RunTable) (name : List ℕ) → TableAtRest t → is_name name ≡ true
        → node_named t name ≡ None → node_named t (inline_name name None) ≡ None }
{}

/// What holds of states between events holds behind a reply: to an accepted command that begins no job, whose changes suit the state,
/// and to a refused one, whether or not a call of it failed. A reply to a line that is no command changes nothing.
pub fn replies_keep_standing()
    ensures suits { (s : State) (told : Told) (c : Cmd) → begins_job c ≡ false → StandsAtRest s
        → IsTold s c told → refusal_to s.table told c ≡ None
        → AllSuit s (command_edits s.table told c) }
    ensures accepted { (s : State) (told : Told) (c : Cmd) (given text : List ℕ) (id : Option Data)
        (d : Data) → command_at given ≡ Ok c → begins_job c ≡ false → StandsAtRest s
        → IsTold s c told → refusal_to s.table told c ≡ None
        → read text ≡ Some (returned_data id d) → StandsAtRest (replied s given text) }
    ensures refused { (s : State) (c : Cmd) (given text : List ℕ) (id : Option Data) (class : Class)
        (desc : List ℕ) → command_at given ≡ Ok c → StandsAtRest s
        → read text ≡ Some (refused_data id class desc) → StandsAtRest (replied s given text) }
    ensures others { (s : State) (given text : List ℕ) (why : Stop) → command_at given ≡ Err why
        → replied s given text ≡ s }
{}

/// What holds of states between events holds behind a piece of any request, whatever its outcome.
pub fn pieces_keep_standing()
    ensures { (s : State) (drive : ℕ) (op : Op) (outcome : Outcome) (part : Extent)
        → StandsAtRest s → StandsAtRest (with_part drive op outcome part s) }
{}

/// What holds of states between events holds after each legal history of an opening in which no command begins a job.
pub fn histories_keep_standing()
    ensures { (o : Opening) (h : List Event) → All BeginsNoJob h → Legal (start o) h
        → StandsAtRest (replay (start o) h) }
{}

/// With its script and its traces, a transcript is that of at most one history.
pub fn transcripts_have_one_history()
    ensures { (o : Opening) (script : List Order) (traces : List (List Wish))
        → HaveOneHistory o script traces }
{}

/// Where a request that writes comes of a guest whose device may, its drive is one whose disk it can write; and a read through
/// `copy-on-read` goes in at a drive into whose image it may put what it reads.
pub fn guests_can_write()
    ensures { (s : State) (g : ℕ) (device : DeviceRow) (drive : ℕ) (op : Op) → StandsAtRest s
        → device_by_number s.table g ≡ Some device → drive_of s.table g ≡ Some drive
        → (is_write op ≡ true → device.read_only ≡ false) → CanWrite s drive op }
{}

/// Where nodes and files are what the flat machine says, they are so after a piece of a guest's request on a drive: a write
/// changes the written node alone among those that keep their flat disks, and a read that is kept changes none of them.
pub fn pieces_keep_disks()
    ensures { (opening : List ℕ → Option (List ℕ)) (s : State) (drive : ℕ) (op : Op)
        (outcome : Outcome) (part : Extent) (old new : Contents) → CanWrite s drive op
        → PieceDone s drive op outcome part old new
        → Agrees opening s old → Agrees opening (with_part drive op outcome part s) new }
{}

/// A reply that reads as a result stands for the changes of its command, and where they were performed, nodes and files are
/// what the flat machine says; one that reads as a refusal of which no call failed changes nothing, and one of which a
/// call failed leaves what the command began.
pub fn replies_keep_disks()
    ensures accepted { (opening : List ℕ → Option (List ℕ)) (s : State) (told : Told) (c : Cmd)
        (given text : List ℕ) (id : Option Data) (d : Data) (old new : Contents)
        → command_at given ≡ Ok c → Stands s → IsTold s c told
        → refusal_to s.table told c ≡ None → read text ≡ Some (returned_data id d)
        → AllPerformed s (command_edits s.table told c) old new
        → Agrees opening s old → Agrees opening (replied s given text) new }
    ensures refused { (s : State) (c : Cmd) (text : List ℕ) (id : Option Data)
        (class : Class) (desc : List ℕ) → read text ≡ Some (refused_data id class desc)
        → is_failed_call desc ≡ false → edits_by s text (Ok c) ≡ [] }
    ensures failed { (s : State) (c : Cmd) (text : List ℕ) (id : Option Data)
        (class : Class) (desc : List ℕ) → read text ≡ Some (refused_data id class desc)
        → is_failed_call desc ≡ true
        → edits_by s text (Ok c) ≡ failed_edits s.table c }
{}

/// Where the flat machine says of images what is so of their files, it does so at the beginning, after changes in turn
/// that suit the state and were performed, and after a piece of a guest's request, which leaves mapped what was.
pub fn images_stay_as_said()
    ensures beginning { (o : Opening) (c : Contents) → ShowsImages (start o) c }
    ensures changes { (opening : List ℕ → Option (List ℕ)) (changes : List Change) (s : State)
        (old new : Contents) → AllSuit s changes → AllCan s changes → AllKeepImages s changes
        → Stands s → Agrees opening s old → AllPerformed s changes old new
        → ShowsImages s old → ShowsImages (all_stepped s changes) new }
    ensures pieces { (s : State) (g drive : ℕ) (op : Op) (outcome : Outcome) (part : Extent)
        (old new : Contents) → Stands s → drive_of s.table g ≡ Some drive
        → PieceDone s drive op outcome part old new
        → KeepsMapping s.table (disk_node s.table drive) old new
        → ShowsImages s old → ShowsImages (with_part drive op outcome part s) new }
{}
