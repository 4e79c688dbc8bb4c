//! Laws of turns and ends of backups and mirrors, each the contract of a function that does nothing.
ghost use Rattle.std.specs.Prelude.{◌≡◌, ◌⊎◌, ◌<◌, ◌≤◌, ℕ, true, Some, length};
ghost use Rattle.blk_history.specs.declared.entry.JobEnd.{JobEnd};
ghost use Rattle.blk_nodes.specs.Contents.{Unfolds};
ghost use Rattle.blk_nodes.specs.Joined.{IsJoined};
ghost use Rattle.blk_nodes.specs.Nodes.{Nodes};
ghost use Rattle.qmp_rules.specs.Chains.{is_listed};
ghost use Rattle.qmp_rules.specs.Table.{job_at};
ghost use Rattle.qmp_rules.specs.declared.rows.JobRecord.{JobRecord};
ghost use Rattle.world_jobs.specs.Ending.{CanBeEnded, IsBehindEnd, IsBehindReady, HasPulled, ended_table};
ghost use Rattle.world_jobs.specs.Turning.{EndsAs, EndsInTurn, FindsCalm, HasTurn, ReadiesInTurn, drains_at};
ghost use Rattle.world_jobs.specs.declared.turned.Turn.{Turn};
ghost use Rattle.world_jobs.specs.declared.turned.Turn.TheVariants.{GetReady};
ghost use Rattle.world_parts.specs.Coherent.{IsWholeWorld};
ghost use Rattle.world_parts.specs.Face.{WorldSeen};
ghost use Rattle.world_parts.specs.Jobs.{EndsJob, PullsFilter, ReadiesJob};

/// Each job of a world may end at any time, and however it ends.
pub fn jobs_can_be_ended()
    ensures { (w : WorldSeen) (row : JobRecord) (why : JobEnd) → IsWholeWorld w → IsJoined w.nodes
        → job_at w.table row.number ≡ Some row
        → CanBeEnded w.table w.nodes w.works w.progress why row }
{}

/// The nodes without its filter are those of the table then: their devices and drivers stay.
pub fn filters_are_pulled()
    ensures { (w : WorldSeen) (row : JobRecord) (why : JobEnd) (now : Nodes) → IsWholeWorld w
        → IsJoined w.nodes → job_at w.table row.number ≡ Some row
        → HasPulled (ended_table w.table row why) row w.nodes now → IsJoined now
        → PullsFilter (ended_table w.table row why) row w.nodes now }
{}

/// The job of a slot may end as its turn says, and the world is behind such an end then.
pub fn jobs_end_in_their_turns()
    ensures { (w v : WorldSeen) (slot : ℕ) (is : Turn) (why : JobEnd) → IsWholeWorld w
        → IsJoined w.nodes → (has : HasTurn w slot is) → EndsAs is why
        → FindsCalm w is has.row → IsBehindEnd w v has.row why → EndsInTurn w v slot }
{}

/// So it may be ready; its target reads as its source then.
pub fn jobs_get_ready_in_their_turns()
    ensures room { (w : WorldSeen) (slot : ℕ) → IsWholeWorld w → HasTurn w slot GetReady
        → 1 ≤ w.progress.aside }
    ensures readies { (w v : WorldSeen) (slot : ℕ) → IsWholeWorld w → IsJoined w.nodes
        → (has : HasTurn w slot GetReady) → IsBehindReady w v has.row → ReadiesInTurn w v slot }
    ensures whole { (w v : WorldSeen) (row : JobRecord) → IsWholeWorld w → ReadiesJob w v row
        → IsWholeWorld v }
{}

/// There is room for the drain of each job, and a whole world is whole with it.
pub fn jobs_can_drain()
    ensures room { (w : WorldSeen) (row : JobRecord) → IsWholeWorld w
        → job_at w.table row.number ≡ Some row
        → (is_listed row.number w.drains.jobs ≡ true) ⊎ (length w.drains.jobs < 16) }
    ensures whole { (w : WorldSeen) (is : Turn) (row : JobRecord) → IsWholeWorld w
        → job_at w.table row.number ≡ Some row
        → IsWholeWorld (record w { drains = drains_at is row w.drains }) }
{}

/// A whole world is whole then.
pub fn ends_keep_worlds_whole()
    ensures { (w v : WorldSeen) (row : JobRecord) (why : JobEnd) (offset : ℕ) → IsWholeWorld w
        → IsJoined w.nodes → Unfolds w.nodes → EndsJob w v row why offset → IsWholeWorld v }
{}
