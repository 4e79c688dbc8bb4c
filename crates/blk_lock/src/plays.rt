//! What each atomic step tells, and how passes are cut and joined.
ghost use Rattle.std.specs.Prelude.{ℕ, Option, None};
ghost use Rattle.blk_base.specs.declared.memory.Room.{Room};
ghost use Rattle.blk_lock.specs.Rooms.{no_room};
ghost use Rattle.blk_lock.specs.Plays.{Draws, Watches, CountsMade, Serves, LooksAtHistory, Settles, Joins, split_known, fresh_known, joined_known, spent_known};

use crate::known::Known;
use crate::logged::Logged;
use atomic_table::{Join, Play, Split};
use std::marker::{Brand, PhantomData};

/// Draws a ticket.
pub(crate) struct Draw;

impl<W: Logged> Play<Option<W>, Known<W::Entry, W::Opening>> for Draw {
    ghost then = { Draws };
}

/// Looks whether the ticket is served, and takes the value if so.
pub(crate) struct Watch;

impl<W: Logged> Play<Option<W>, Known<W::Entry, W::Opening>> for Watch {
    ghost then = { λ st m found n. Watches W.history W.actor W.spare W.comes m found n };
}

/// Counts the new entries.
pub(crate) struct Count;

impl<W: Logged> Play<Option<W>, Known<W::Entry, W::Opening>> for Count {
    ghost then = { λ st m found n. CountsMade W.history W.spare m n };
}

/// Serves the next ticket.
pub(crate) struct Serve;

impl<W: Logged> Play<Option<W>, Known<W::Entry, W::Opening>> for Serve {
    ghost then = { λ st m found n. Serves m n };
}

/// Looks at the count of entries.
pub(crate) struct Look;

impl<W: Logged> Play<Option<W>, Known<W::Entry, W::Opening>> for Look {
    ghost then = { λ st m found n. LooksAtHistory W.actor m found n };
}

/// The first look of a new pass.
pub(crate) struct Settle;

impl<W: Logged> Play<Option<W>, Known<W::Entry, W::Opening>> for Settle {
    ghost then = { λ st m found n. Settles m n };
}

/// The look at the end of a join.
pub(crate) struct Unite;

impl<W: Logged> Play<Option<W>, Known<W::Entry, W::Opening>> for Unite {
    ghost then = { λ st m found n. Joins W.actor m n };
}

/// What a split gives. Each call picks it.
pub(crate) trait Part {
    ghost room: { Room };

    ghost given: { Option ℕ };
}

impl Part for Brand {
    ghost room = { no_room };

    ghost given = { None };
}

pub(crate) struct Cut<P> {
    of: PhantomData<P>,
}

impl<E, O, P: Part> Split<Known<E, O>> for Cut<P> {
    ghost left = { split_known P.room P.given };

    ghost right = { fresh_known P.room P.given };
}

pub(crate) struct Both;

impl<E, O> Join<Known<E, O>> for Both {
    ghost both = { joined_known };

    ghost spent = { spent_known };
}
