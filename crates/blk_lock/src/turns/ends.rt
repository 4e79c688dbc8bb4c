//! How a lock begins and ends.
ghost use Rattle.std.specs.Prelude.{◌≡◌, [], IfOk, IfErr, IfSome};
ghost use Rattle.std.specs.List.{enumerate_from};
ghost use Rattle.blk_lock.specs.Rooms.{IsWithinRoom};
ghost use Rattle.blk_lock.specs.Stamps.{entries_of};
ghost use Rattle.blk_lock.specs.Order.{first_view};
ghost use Rattle.blk_lock.specs.Views.{view, lock_of, lock_id, mine};

use super::Turns;
use crate::birth::Named;
use crate::logged::Logged;
use crate::pass::Pass;
use atomic_table::{Refused, Table};
use blk_base::NoMemory;
use std::alloc::Global;
use std::snapshot::Snapshot;

impl<W: Logged> Turns<W> {
    /// A lock over a value with an empty history, which comes of the opening that the caller names.
    /// The first pass carries that opening, and has all the value's spare room, all 1,024 shares and the actors 0 to 16.
    /// Where there is no memory, the value comes back.
    pub fn new(alloc: Global, world: W) -> Result<(Turns<W>, Pass<W>), (NoMemory, W)>
        ghost opening: { W.Opening }
        requires empty { W.history world ≡ [] }
        requires opened { W.comes world opening }
        ensures ok { IfOk result
            (λ t. (lock_of t.1 ≡ lock_id t.0) × (view t.1 ≡ first_view opening (W.spare world))) }
        ensures err { IfErr result (λ e. e.1 ≡ world) }
    {
        let about = (Snapshot::of(&world), Named::of());
        let Ok(mut slots) = Vec::with_capacity(alloc, 1) else {
            return Err((NoMemory, world));
        };
        slots.push_reserved(Some(world));
        match Table::new(alloc, &[0, 0, 0], slots, &about) {
            Ok((table, seat)) => Ok((Turns { table }, Pass { seat })),
            Err(Refused { mut slots }) => {
                let Some(Some(world)) = slots.pop() else {
                    unreachable!()
                };
                slots.destroy_empty();
                Err((NoMemory, world))
            }
        }
    }

    /// Gives the value back to the pass that has all 1,024 shares, so that there is no other.
    /// All entries of its history are this pass's own.
    pub fn close(self, pass: Pass<W>) -> W
        requires lock { lock_of pass ≡ lock_id self }
        requires free { (view pass).turn ≡ None }
        requires all { (view pass).shares ≡ 1024 }
        ensures history { W.history result ≡ entries_of (view pass).seen }
        ensures opened { IfSome (view pass).opening (W.comes result) }
        ensures mine { mine (view pass) ≡ enumerate_from 0 (W.history result) }
        ensures room { IsWithinRoom (view pass).room (W.spare result) }
    {
        let Turns { table } = self;
        let Pass { seat } = pass;
        let mut closed = table.close_with(seat);
        let world = closed.take(0);
        closed.free();
        let Some(world) = world else { unreachable!() };
        world
    }
}
