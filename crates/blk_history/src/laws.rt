//! What follows from the definitions, each law the contract of a function that does nothing.

ghost use Rattle.std.specs.Prelude.{◌≡◌, List, length};
ghost use Rattle.trace_codec.specs.declared.op.Op.{Op};
ghost use Rattle.blk_history.specs.Machine.{IoState};
ghost use Rattle.blk_history.specs.Names.{RowNames};
ghost use Rattle.blk_history.specs.Alone.{PrintsOneHistory};

/// With what its one guest asked, a transcript is that of at most one history.
pub fn one_guest_has_one_history()
    ensures { (opening : IoState) (names : RowNames) (ops : List Op)
        → length opening.table.guests ≡ 1 → PrintsOneHistory opening names ops }
{}
