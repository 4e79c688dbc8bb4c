//! Laws of starts of backups and mirrors, each the contract of a function that does nothing.
ghost use Rattle.std.specs.Prelude.{IsSome, Ok, ◌≡◌, ◌+◌, ◌++◌, ◌∷◌, [], ◌<◌, ◌≤◌, ℕ, List, None, Some, length};
ghost use Rattle.blk_bitmaps.specs.declared.row.Bitmap.{Bitmap};
ghost use Rattle.blk_nodes.specs.Contents.{Unfolds};
ghost use Rattle.blk_nodes.specs.Joined.{IsJoined};
ghost use Rattle.blk_nodes.specs.Nodes.{Nodes};
ghost use Rattle.blk_history.specs.declared.event.Event.{Event};
ghost use Rattle.block_jobs.specs.Work.{IsJobWork, JobWork};
ghost use Rattle.flat_machine.specs.Legal.{IsNotDone};
ghost use Rattle.flat_machine.specs.Marks.{Drained};
ghost use Rattle.flat_machine.specs.declared.opening.Opening.{Opening};
ghost use Rattle.qmp_codec.specs.Lines.{command_at};
ghost use Rattle.qmp_rules.specs.Answers.{refusal_to, told_none};
ghost use Rattle.qmp_rules.specs.Table.{RunTable, job_at};
ghost use Rattle.qmp_rules.specs.declared.rows.JobRecord.{JobRecord};
ghost use Rattle.job_commands.specs.Begun.{CopyCmd, cmd_of, copy_job};
ghost use Rattle.world_goings.specs.Begun.{CanCopyWhole};
ghost use Rattle.world_jobs.specs.Beginning.{BegunJob, IsNewJob, bitmaps_after};
ghost use Rattle.world_jobs.specs.Started.{IsStartIn, begun_world, replied_world, start_reply};
ghost use Rattle.world_jobs.specs.Starting.{IsStartOf, IsStarted, start_scene, started_table};
ghost use Rattle.world_jobs.specs.declared.start.Started.{Started};
ghost use Rattle.world_parts.specs.Carrying.{AnswersLine, IsCarriedAs};
ghost use Rattle.world_parts.specs.Coherent.{IsWholeWorld};
ghost use Rattle.world_parts.specs.Comes.{Comes};
ghost use Rattle.world_parts.specs.Face.{WorldSeen, seen_state};
ghost use Rattle.world_parts.specs.Jobs.{BeginsJob, PutsFilter};
ghost use Rattle.world_parts.specs.Progress.{Progress, with_start};
ghost use Rattle.world_parts.specs.Saying.{Given};

/// What a start leaves of table and nodes is what its command leaves of the world.
pub fn starts_are_carried()
    ensures { (w : WorldSeen) (given : List ℕ) (c : CopyCmd) (u : RunTable)
        (now : Nodes) (drains : Drained) (started : Started) → IsWholeWorld w
        → IsJoined w.nodes → Unfolds w.nodes → IsJoined now
        → IsStartOf (seen_state w) given c w.bitmaps (start_scene w.table w.nodes w.drains)
        (start_scene u now drains) started → IsStartIn w u now drains given c started }
{}

/// Where one is accepted there are fewer works than may be, and room for its entries.
pub fn started_jobs_have_room()
    ensures works { (w : WorldSeen) (c : CopyCmd) → IsWholeWorld w
        → refusal_to w.table told_none (cmd_of c) ≡ None → length w.works < 16 }
    ensures aside { (w : WorldSeen) (c : CopyCmd) → IsWholeWorld w
        → refusal_to w.table told_none (cmd_of c) ≡ None → w.progress.aside ≤ 30 }
{}

/// What a job that begins makes of bitmaps, works and history is what its row says.
pub fn jobs_begin_by_their_rows()
    ensures { (x : WorldSeen) (row : JobRecord) (new : BegunJob) (bitmaps : List Bitmap)
        (works : List JobWork) (progress : Progress) → IsNewJob x.table x.bitmaps row new
        → job_at x.table row.number ≡ Some row → bitmaps ≡ bitmaps_after new x.bitmaps
        → works ≡ x.works ++ new.work ∷ []
        → progress ≡ with_start new.work.job new.line x.progress → BeginsJob x
        (record x { bitmaps = bitmaps; works = works; progress = progress }) row }
{}

/// The parts of the world belong together behind a start, and it is one more.
pub fn starts_keep_worlds_whole()
    ensures whole { (w : WorldSeen) (u : RunTable) (now : Nodes) (c : CopyCmd)
        (new : BegunJob) (reply : Event) → IsWholeWorld w → IsJoined w.nodes
        → refusal_to w.table told_none (cmd_of c) ≡ None → u ≡ started_table w.table c
        → PutsFilter u (copy_job w.table c) w.nodes now → IsJoined now
        → IsNewJob u w.bitmaps (copy_job w.table c) new → IsJobWork new.work
        → IsWholeWorld (begun_world w u now c reply) }
    ensures found { (w : WorldSeen) (u : RunTable) (now : Nodes) (c : CopyCmd)
        (new : BegunJob) (reply : Event) → IsWholeWorld w → IsJoined w.nodes
        → refusal_to w.table told_none (cmd_of c) ≡ None → u ≡ started_table w.table c
        → PutsFilter u (copy_job w.table c) w.nodes now → IsJoined now
        → IsNewJob u w.bitmaps (copy_job w.table c) new → IsJobWork new.work
        → (u.started ≡ w.table.started + 1)
        × (job_at u (copy_job w.table c).number ≡ Some (copy_job w.table c)) }
{}

/// A line whose start is refused is answered so.
pub fn refused_starts_are_answered()
    ensures answered { (w : WorldSeen) (line : Given) (c : CopyCmd) (text : List ℕ)
        → command_at line.text ≡ Ok (cmd_of c)
        → (is : IsCarriedAs w w line.text (cmd_of c) text) → IsSome is.refusal
        → AnswersLine w (replied_world w w.table w.nodes (start_reply line c text)) line }
    ensures comes { (o : Opening) (w : WorldSeen) (line : Given) (c : CopyCmd)
        (text : List ℕ) → command_at line.text ≡ Ok (cmd_of c)
        → (is : IsCarriedAs w w line.text (cmd_of c) text) → IsSome is.refusal
        → IsWholeWorld w → IsJoined w.nodes → IsNotDone (seen_state w) 0 → Comes o w
        → Comes o (replied_world w w.table w.nodes (start_reply line c text)) }
{}

/// A line whose start is accepted is answered, and behind the reply its job begins.
pub fn accepted_starts_are_answered()
    ensures answered { (w : WorldSeen) (line : Given) (c : CopyCmd) (u : RunTable) (now : Nodes)
        (text : List ℕ) (new : BegunJob) (drains : Drained)
        → command_at line.text ≡ Ok (cmd_of c) → IsWholeWorld w → IsJoined w.nodes
        → Unfolds w.nodes → IsJoined now → IsJobWork new.work
        → IsStarted (seen_state w) line.text c w.bitmaps (start_scene w.table w.nodes w.drains)
        (start_scene u now drains) text new
        → AnswersLine w (begun_world w u now c (start_reply line c text)) line }
    ensures comes { (o : Opening) (w : WorldSeen) (line : Given) (c : CopyCmd)
        (u : RunTable) (now : Nodes) (text : List ℕ) (new : BegunJob) (drains : Drained)
        → command_at line.text ≡ Ok (cmd_of c) → IsWholeWorld w → IsJoined w.nodes
        → Unfolds w.nodes → IsJoined now → IsJobWork new.work
        → IsStarted (seen_state w) line.text c w.bitmaps (start_scene w.table w.nodes w.drains)
        (start_scene u now drains) text new → IsNotDone (seen_state w) 0
        → CanCopyWhole o w (copy_job w.table c) → Comes o w
        → Comes o (begun_world w u now c (start_reply line c text)) }
{}
