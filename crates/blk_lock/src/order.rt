//! The rule of the lock's words and passes.
ghost use Rattle.blk_lock.specs.Order.{InOrder, first_known};

use crate::birth::Named;
use crate::known::Known;
use crate::logged::Logged;
use atomic_table::TableRule;
use std::marker::PhantomData;
use std::snapshot::Snapshot;

pub(crate) struct InTurn<W> {
    of: PhantomData<W>,
}

impl<W: Logged> TableRule<Option<W>, Known<W::Entry, W::Opening>, (Snapshot<W>, Named<W::Opening>)>
    for InTurn<W> {
    ghost holds = { λ key. InOrder W.history W.actor W.spare W.comes key.1.opening
        (W.spare key.0.value) };

    ghost first = { λ key. first_known key.1.opening (W.spare key.0.value) };
}
