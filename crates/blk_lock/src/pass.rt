//! The right to make events, and what its holder has seen and made.
ghost use Rattle.std.specs.Prelude.{◌≡◌, IsTrue};
ghost use Rattle.blk_lock.specs.Stages.{is_at_rest_or_out, in_hand};

use crate::known::Known;
use crate::logged::Logged;
use atomic_table::Seat;

/// A share of the right to make events. It has no bytes at run time.
///
/// Contracts see its `View`: what it has seen and made, its room, shares and actors. It can be let go where the value may be; its shares are then lost, and the lock is never closed.
#[derive(Drop)]
pub struct Pass<W: Logged> {
    pub(crate) seat: Seat<Option<W>, Known<W::Entry, W::Opening>>,
    ghost settled: { IsTrue (is_at_rest_or_out seat.me.0.view.turn seat.me.0.stage) },
    ghost in_hand: { seat.me.1 ≡ in_hand seat.me.0.stage },
}
