//! Laws of what a job has made of its result and what it still owes.
ghost use Rattle.std.specs.Prelude.{◌≡◌, ℕ, ◌+◌, ◌≤◌, ◌<◌, ◌==◌, ◌&&◌, ◌||◌, Bool, true, false, not, List, [], length, None};
ghost use Rattle.std.specs.List.{list_any};
ghost use Rattle.blk_base.specs.Content.{with_bytes};
ghost use Rattle.blk_base.specs.Pieces.{Extent};
ghost use Rattle.blk_copy.specs.declared.transfers.Transfer.{Transfer};
ghost use Rattle.qmp_codec.specs.declared.event.JobKind.{JobKind};
ghost use Rattle.qmp_codec.specs.declared.event.JobKind.TheVariants as kinds;
ghost use Rattle.block_jobs.specs.Ahead.{IsAhead, CopiesOwed, AreAll, OwesNoMore, is_owed};
ghost use Rattle.block_jobs.specs.Work.{JobWork, IsJobWork, after_copy, after_settle, after_take, block_at, has_open, is_left, left_again};

/// A guest wrote the source, and what is to be there: what it wrote is owed from then on.
pub fn written_is_owed()
    ensures { (due owed now : ℕ → Bool) (disk made : List ℕ) (at : ℕ) (xs : List ℕ)
        → at + length xs ≤ length disk → OwesNoMore owed now → AreAll true now at (length xs)
        → IsAhead due owed disk disk made
        → IsAhead due now (with_bytes disk at xs) (with_bytes disk at xs) made }
{}

/// What was copied isn't owed any more.
pub fn copied_is_made()
    ensures { (due owed now : ℕ → Bool) (source goal made left : List ℕ)
        → CopiesOwed due owed now source made left → IsAhead due owed source goal made
        → IsAhead due now source goal left }
{}

/// Where nothing is owed any more the source may change.
pub fn source_may_change()
    ensures { (due owed : ℕ → Bool) (source goal made : List ℕ) (at : ℕ) (xs : List ℕ)
        → at + length xs ≤ length source → AreAll false owed at (length xs)
        → IsAhead due owed source goal made
        → IsAhead due owed (with_bytes source at xs) goal made }
{}

/// A write that goes into the source and the result at once.
pub fn both_are_written()
    ensures { (due owed : ℕ → Bool) (disk made : List ℕ) (at : ℕ) (xs : List ℕ)
        → at + length xs ≤ length disk → IsAhead due owed disk disk made
        → IsAhead due owed (with_bytes disk at xs) (with_bytes disk at xs)
        (with_bytes made at xs) }
{}

/// Once nothing is owed, the result is made where every place is due.
pub fn result_is_made()
    ensures { (due owed : ℕ → Bool) (source goal made : List ℕ) → ((i : ℕ) → due i ≡ true)
        → ((i : ℕ) → owed i ≡ false) → IsAhead due owed source goal made → made ≡ goal }
{}

/// Which places are owed behind each step: those of a block that a mirror takes are from then on, and behind its settle those that
/// were written since; those of a block that was copied aren't. What a backup's settle leaves is `after_copy`.
pub fn steps_owe()
    ensures taken { (work : JobWork) (t : Transfer) (place : ℕ) → IsJobWork work → t.job ≡ work.job
        → is_owed kinds.Mirror (after_take kinds.Mirror t work) place
        ≡ (is_owed kinds.Mirror work place || (block_at place == t.cluster)) }
    ensures settled { (work : JobWork) (block place : ℕ)
        → is_owed kinds.Mirror (after_settle kinds.Mirror block work) place
        ≡ (is_left work place || (has_open work (block_at place) && not (block_at place == block))) }
    ensures copied { (kind : JobKind) (work : JobWork) (block place : ℕ) → IsJobWork work
        → is_owed kind (after_copy block work) place
        ≡ (is_owed kind work place && not (block_at place == block)) }
{}

/// What a guest wrote is owed, and so is what was.
pub fn marks_owe()
    ensures written { (kind : JobKind) (work : JobWork) (span : Extent) → work.met ≡ None
        → IsJobWork work → span.start + span.len ≤ work.size
        → AreAll true (is_owed kind (left_again span work)) span.start span.len }
    ensures before { (kind : JobKind) (work : JobWork) (span : Extent) → work.met ≡ None
        → OwesNoMore (is_owed kind work) (is_owed kind (left_again span work)) }
{}

/// Where no part is left and no copy is in flight, nothing is owed.
pub fn nothing_is_owed()
    ensures { (kind : JobKind) (work : JobWork) (place : ℕ) → work.rows ≡ []
        → list_any (λ part. part) work.left ≡ false → is_owed kind work place ≡ false }
{}
