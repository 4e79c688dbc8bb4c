//! What follows from the definitions, each law the contract of a function that does nothing.

ghost use Rattle.std.specs.Prelude.{◌≡◌, ◌⊎◌, Bool, List, ℕ};
ghost use Rattle.trace_codec.specs.declared.op.Op.{Op};
ghost use Rattle.blk_history.specs.Alone.{PrintsOneHistory};
ghost use Rattle.blk_history.specs.declared.event.Event.{Event};
ghost use Rattle.blk_nodes.specs.Nodes.{Nodes};
ghost use Rattle.qblk_core.specs.Completeness.{ArePiecesGood, HasInputs, HasStood, HaveRoomAlong, NoneRises};
ghost use Rattle.qblk_core.specs.Face.{machine_on};
ghost use Rattle.qblk_core.specs.Printed.{PrintsInTurn};
ghost use Rattle.qblk_core.specs.Run.{AnswersIo, IsIoRun, Outside, machine_of, guest_names};
ghost use Rattle.qblk_core.specs.declared.status.Status.{Status};
ghost use Rattle.qblk_words.specs.declared.words.Format.{Format};

/// With its trace, a transcript of a run on an image is that of at most one history.
pub fn runs_on_images_have_one_history()
    ensures { (format : Format) (bytes : List ℕ) (ops : List Op)
        → PrintsOneHistory (machine_of format bytes) guest_names ops }
{}

/// The same where no device tells its bytes, and whatever the images.
pub fn runs_in_turn_have_one_history()
    ensures { (first other : Nodes) (ops : List Op) (text : List ℕ) (h k : List Event)
        → PrintsInTurn (machine_on first) ops text h
        → PrintsInTurn (machine_on other) ops text k → h ≡ k }
{}

/// A run on an image that can be opened, of a trace that is taken, is done or has no memory, where no count rises.
pub fn runs_on_good_images_are_done()
    ensures { (format : Format) (image trace : List ℕ) (ops : List Op) (old new : Outside)
        (status : Status) → HasInputs format image trace ops old → NoneRises image old new
        → AnswersIo format image trace old new status
        → (status ≡ Status.Done) ⊎ (status ≡ Status.NoMemory) }
{}

/// In a run on an image in which the device's count does not rise, and each write has room on the nodes that it is made on, each
/// piece is good: none is torn, stopped by a fault or stopped for want of space.
pub fn runs_with_space_are_good()
    ensures { (format : Format) (image : List ℕ) (ops : List Op) (flushed : Bool)
        (old new : Outside) (h : List Event) (before now : ℕ)
        → (run : IsIoRun format image ops flushed old new h before now) → HasStood before now
        → HaveRoomAlong (machine_on run.first) run.first h run.left run.on.along
        → ArePiecesGood h }
{}
