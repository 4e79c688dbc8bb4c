//! How passes are split and joined.
ghost use Rattle.std.specs.Prelude.{◌≡◌, ◌≤◌, ◌⊎◌, ◌↔◌, true, [], IfSome, Contains};
ghost use Rattle.blk_lock.specs.declared.known.Stage.TheVariants.{Rest};
ghost use Rattle.blk_lock.specs.Rooms.{IsWithinRoom};
ghost use Rattle.blk_lock.specs.Stamps.{has_actor, made_by};
ghost use Rattle.blk_lock.specs.Order.{HaveNoneInCommon};
ghost use Rattle.blk_lock.specs.Plays.{after_split, split_off, after_join, split_known, fresh_known};
ghost use Rattle.blk_lock.specs.Views.{view, lock_of, lock_id, mine, SeesMore};

use super::Turns;
use crate::known::Known;
use crate::logged::Logged;
use crate::pass::Pass;
use crate::plays::{Both, Cut, Part, Settle, Unite};
use atomic_table::Seat;
use blk_base::Room;
use std::marker::Brand;

impl<W: Logged> Turns<W> {
    /// A second pass that has seen the same and has made nothing, with one share.
    /// The room, the actor and the share that it has are taken from the first. Its name is the first's, followed by the number of this split.
    pub fn split(&self, pass: &mut Pass<W>, room: Room, actor: Option<u32>) -> Pass<W>
        requires lock { lock_of pass.old ≡ lock_id self.now }
        requires free { (view pass.old).turn ≡ None }
        requires shares { 2 ≤ (view pass.old).shares }
        requires room { IsWithinRoom room (view pass.old).room }
        requires actor { IfSome actor (λ a. has_actor (view pass.old).actors a ≡ true) }
        ensures lock { (lock_of pass.new ≡ lock_of pass.old) × (lock_of result ≡ lock_of pass.old) }
        ensures kept { view pass.new ≡ after_split room actor (view pass.old) }
        ensures given { view result ≡ split_off room actor (view pass.old) }
        ensures nothing { mine (view result) ≡ [] }
    {
        let mut seat = self.divide::<Brand>(&mut pass.seat, room, actor);
        let _ = self.table.shared.load::<Settle>(&mut seat, 2);
        Pass { seat }
    }

    fn divide<P: Part>(
        &self,
        seat: &mut Seat<Option<W>, Known<W::Entry, W::Opening>>,
        room: Room,
        actor: Option<u32>,
    ) -> Seat<Option<W>, Known<W::Entry, W::Opening>>
        requires lock { seat.old.table_id ≡ self.now.table.shared.table_id }
        requires picked { (P.room ≡ room) × (P.given ≡ actor) }
        requires rest { (seat.old.me.0.stage ≡ Rest) × (seat.old.me.1 ≡ []) }
        requires shares { 2 ≤ seat.old.me.0.view.shares }
        requires room { IsWithinRoom room seat.old.me.0.view.room }
        requires actor { IfSome actor (λ a. has_actor seat.old.me.0.view.actors a ≡ true) }
        ensures lock { (seat.new.table_id ≡ seat.old.table_id)
            × (result.table_id ≡ seat.old.table_id) }
        ensures kept { seat.new.me ≡ (split_known room actor seat.old.me.0, []) }
        ensures given { result.me ≡ (fresh_known room actor seat.old.me.0, []) }
    {
        // They are for the call's pick alone.
        let _ = (room, actor);
        self.table.shared.split_seat::<Cut<P>>(seat)
    }

    /// The other pass ends. This one has then seen the longer of both histories, with which both go on, and what both have made is its own.
    /// It has the room, the shares and the actors of both.
    pub fn join(&self, pass: &mut Pass<W>, other: Pass<W>)
        requires lock { (lock_of pass.old ≡ lock_id self.now) × (lock_of other ≡ lock_id self.now) }
        requires free { ((view pass.old).turn ≡ None) × ((view other).turn ≡ None) }
        ensures lock { lock_of pass.new ≡ lock_of pass.old }
        ensures pass { view pass.new ≡ after_join (view pass.old) (view other) }
        ensures apart { HaveNoneInCommon (view pass.old).names (view pass.old).actors
            (view other).names (view other).actors }
        ensures goes_on { SeesMore W.actor (view pass.old) (view pass.new) }
        ensures other_goes_on { SeesMore W.actor (view other) (view pass.new) }
        ensures own { made_by (view pass.old).names (view pass.new).seen ≡ mine (view pass.old) }
        ensures others_own { made_by (view other).names (view pass.new).seen ≡ mine (view other) }
        ensures mine { (made : _)
            → Contains (mine (view pass.new)) made ↔
            (Contains (mine (view pass.old)) made ⊎ Contains (mine (view other)) made) }
    {
        let Pass { seat } = other;
        self.table.shared.join_seat::<Both>(&mut pass.seat, seat);
        let _ = self.table.shared.load::<Unite>(&mut pass.seat, 2);
    }
}
