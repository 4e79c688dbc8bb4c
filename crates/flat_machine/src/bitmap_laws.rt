//! Laws of bitmaps in the use of jobs, each the contract of a function that does nothing.

ghost use Rattle.std.specs.Prelude.{◌≡◌, ℕ, Bool, List, map, Some, None};
ghost use Rattle.blk_bitmaps.specs.declared.row.Bitmap.{Bitmap};
ghost use Rattle.blk_bitmaps.specs.Calls.{rows_after_call, Freeze, NoteAll, Release};
ghost use Rattle.qmp_rules.specs.declared.rows.BitmapRow.{BitmapRow};
ghost use Rattle.qmp_rules.specs.declared.rows.UsedBitmap.{UsedBitmap};
ghost use Rattle.qmp_rules.specs.declared.rows.JobRecord.{JobRecord};
ghost use Rattle.qmp_rules.specs.declared.change.Change.TheVariants.{StartJob, EndJob};
ghost use Rattle.qmp_rules.specs.Changes.{busy_by, changed, given_back};
ghost use Rattle.qmp_rules.specs.Table.{RunTable, job_at};
ghost use Rattle.flat_machine.specs.Bitmaps.{AreBitmapsOf, dirty_in};
ghost use Rattle.flat_machine.specs.Changed.{back_by};
ghost use Rattle.flat_machine.specs.InUse.{AreListed, AreWith, AreInUse, IsUnused};
ghost use Rattle.flat_machine.specs.Jobs.{aside_by};
ghost use Rattle.flat_machine.specs.Marking.{made_dirty, where_recording};

/// What the table of bitmaps makes of its rows as a job begins to use one, as a job's target is dirtied whole, and as a use
/// ends, is what starts and ends make of the names table and of what is dirty.
pub fn uses_of_bitmaps()
    ensures begins { (old : List BitmapRow) (rows : List Bitmap) (source job : ℕ)
        (by : UsedBitmap) → AreListed old rows
        → AreWith (busy_by job (Some by) source old) (aside_by source (Some by) (map dirty_in rows))
        (rows_after_call rows (Freeze source by.name job)) }
    ensures dirtied { (t : RunTable) (rows : List Bitmap) (node : ℕ) → AreListed t.bitmaps rows
        → AreWith t.bitmaps (where_recording t node made_dirty (map dirty_in rows))
        (rows_after_call rows (NoteAll node)) }
    ensures ends { (t : RunTable) (number : ℕ) (drops : Bool) (rows : List Bitmap)
        → AreInUse t → AreListed t.bitmaps rows
        → AreWith (map (given_back number) t.bitmaps)
        (back_by (job_at t number) drops (map dirty_in rows))
        (rows_after_call rows (Release number drops)) }
{}

/// So what holds of bitmaps holds behind these calls: a set of one stands aside exactly where a job uses it. And the job that uses it is
/// the one that copies by it, behind the start of a job that is to copy by a bitmap in nobody's use, and behind an end.
pub fn uses_of_bitmaps_stand()
    ensures begins { (old : List BitmapRow) (rows : List Bitmap) (source job : ℕ)
        (by : UsedBitmap) → AreBitmapsOf old rows → AreBitmapsOf (busy_by job (Some by) source old)
        (rows_after_call rows (Freeze source by.name job)) }
    ensures dirtied { (t : RunTable) (rows : List Bitmap) (node : ℕ)
        → AreBitmapsOf t.bitmaps rows
        → AreBitmapsOf t.bitmaps (rows_after_call rows (NoteAll node)) }
    ensures ends { (t : RunTable) (number : ℕ) (drops : Bool) (rows : List Bitmap)
        → AreInUse t → AreBitmapsOf t.bitmaps rows
        → AreBitmapsOf (map (given_back number) t.bitmaps)
        (rows_after_call rows (Release number drops)) }
    ensures started { (t : RunTable) (row : JobRecord) → AreInUse t
        → job_at t row.number ≡ None → IsUnused t row.source row.bitmap
        → AreInUse (changed t (StartJob row)) }
    ensures ended { (t : RunTable) (number slot : ℕ) (drops : Bool) → AreInUse t
        → AreInUse (changed t (EndJob number slot drops)) }
{}
