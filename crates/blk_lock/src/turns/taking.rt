//! How a turn is taken and given back.
ghost use Rattle.std.specs.Prelude.{◌≡◌, ℕ, ◌+◌, ◌<◌, ◌≤◌, ◌^◌, true, false, List, [], ◌∷◌, ◌++◌, length, IfSome, unwrap_or};
ghost use Rattle.std.specs.List.{enumerate_from};
ghost use Rattle.blk_lock.specs.declared.known.Stage.TheVariants.{Rest, Waiting, Out};
ghost use Rattle.blk_lock.specs.Rooms.{IsWithinRoom, no_room, less};
ghost use Rattle.blk_lock.specs.Stamps.{is_among, entries_of};
ghost use Rattle.blk_lock.specs.Plays.{HasTaken, Takes, after_put, resting};
ghost use Rattle.blk_lock.specs.Views.{view, lock_of, lock_id, mine, SeesMore, made_behind, BeginsWithSeen, HoldsActors, KeepsRoom, KeepsSpareSinceTake};

use super::{Owed, Turn, Turns};
use crate::known::Known;
use crate::logged::Logged;
use crate::pass::Pass;
use crate::plays::{Count, Draw, Look, Serve, Watch};
use atomic_table::Seat;
use std::sync::Wait;
use std::thread;

type PassSeat<W> = Seat<Option<W>, Known<<W as Logged>::Entry, <W as Logged>::Opening>>;

// How often a pass that waits looks before it lets other threads run.
const LOOKS: u32 = 100;

impl<W: Logged> Turns<W> {
    /// Waits until the turn is this pass's. The pass has then seen the whole history.
    /// What it had not seen others made. After 2^64 - 1 turns it waits for ever.
    pub fn take<R: Wait>(&self, rt: &R, pass: &mut Pass<W>) -> Turn<W>
        requires lock { lock_of pass.old ≡ lock_id self.now }
        requires free { (view pass.old).turn ≡ None }
        ensures lock { lock_of pass.new ≡ lock_of pass.old }
        ensures pass { view pass.new
            ≡ record (view pass.old) {
              seen = (view pass.new).seen;
              turn = Some (W.spare result.world);
            } }
        ensures seen { SeesMore W.actor (view pass.old) (view pass.new) }
        ensures mine { mine (view pass.new) ≡ mine (view pass.old) }
        ensures history { W.history result.world ≡ entries_of (view pass.new).seen }
        ensures opened { IfSome (view pass.old).opening (W.comes result.world) }
        ensures room { IsWithinRoom (view pass.old).room (W.spare result.world) }
    {
        Turn {
            world: self.take_world(rt, &mut pass.seat),
            owed: Owed,
        }
    }

    fn take_world<R: Wait>(&self, rt: &R, seat: &mut PassSeat<W>) -> W
        requires lock { seat.old.table_id ≡ self.now.table.shared.table_id }
        requires rest { (seat.old.me.0.stage ≡ Rest) × (seat.old.me.1 ≡ []) }
        ensures lock { seat.new.table_id ≡ seat.old.table_id }
        ensures taken { (ticket : ℕ)
            × HasTaken W.history W.actor W.spare W.comes ticket seat.old.me.0 seat.new.me.0 result }
        ensures in_hand { seat.new.me.1 ≡ (0, None) ∷ [] }
    {
        let ticket = self.draw(rt, seat);
        self.watch(rt, seat, ticket);
        let Some(world) = self.table.shared.exchange(seat, 0, None) else {
            unreachable!()
        };
        world
    }

    // A ticket is drawn where the turn is free, so that none is that of a thread that isn't running.
    // The last is never drawn, so that the count of those served fits its word.
    fn draw<R: Wait>(&self, rt: &R, seat: &mut PassSeat<W>) -> u64
        requires lock { seat.old.table_id ≡ self.now.table.shared.table_id }
        requires rest { seat.old.me.0.stage ≡ Rest }
        ensures lock { seat.new.table_id ≡ seat.old.table_id }
        ensures waits { seat.new.me
            ≡ (record seat.old.me.0 { stage = Waiting result }, seat.old.me.1) }
    {
        for _ in rt.forever() {
            let drawn = self.table.shared.peek(0);
            if drawn < u64::MAX && self.is_free(drawn) {
                let found = self
                    .table
                    .shared
                    .compare_exchange::<Draw>(seat, 0, drawn, drawn + 1);
                if found == drawn {
                    return drawn;
                }
            }
            thread::yield_now();
        }
        unreachable!()
    }

    // Whether so many tickets are served soon: that is looked at a few times, since a turn is mostly shorter than a thread's pause.
    fn is_free(&self, drawn: u64) -> bool {
        (0..LOOKS).any(|_| self.table.shared.peek(1) == drawn)
    }

    fn watch<R: Wait>(&self, rt: &R, seat: &mut PassSeat<W>, ticket: u64)
        requires lock { seat.old.table_id ≡ self.now.table.shared.table_id }
        requires waits { seat.old.me.0.stage ≡ Waiting ticket }
        ensures lock { seat.new.table_id ≡ seat.old.table_id }
        ensures taken { Takes W.history W.actor W.spare W.comes ticket seat.old.me seat.new.me }
    {
        for _ in rt.forever() {
            if self.is_served(seat, ticket) {
                return;
            }
            thread::yield_now();
        }
        unreachable!()
    }

    // Looks a few times.
    fn is_served(&self, seat: &mut PassSeat<W>, ticket: u64) -> bool
        requires lock { seat.old.table_id ≡ self.now.table.shared.table_id }
        requires waits { seat.old.me.0.stage ≡ Waiting ticket }
        ensures lock { seat.new.table_id ≡ seat.old.table_id }
        ensures taken { result ≡ true
            → Takes W.history W.actor W.spare W.comes ticket seat.old.me seat.new.me }
        ensures missed { result ≡ false → seat.new.me ≡ seat.old.me }
    {
        for _ in 0..LOOKS {
            if self.table.shared.load::<Watch>(seat, 1) == ticket {
                return true;
            }
        }
        false
    }

    /// Gives the turn back, and counts the entries that were made in it, which are then this pass's own.
    /// Its room falls by as much as the value's spare room has, and stays where that has not fallen.
    pub fn put(&self, pass: &mut Pass<W>, turn: Turn<W>)
        requires lock { lock_of pass.old ≡ lock_id self.now }
        requires history { BeginsWithSeen (view pass.old) (W.history turn.world) }
        requires opened { IfSome (view pass.old).opening (W.comes turn.world) }
        requires room { KeepsRoom (view pass.old) (W.spare turn.world) }
        requires unspent { W.history turn.world ≡ entries_of (view pass.old).seen
            → KeepsSpareSinceTake (view pass.old) (W.spare turn.world) }
        requires actors { HoldsActors W.actor (view pass.old)
            (made_behind (view pass.old) (W.history turn.world)) }
        ensures lock { lock_of pass.new ≡ lock_of pass.old }
        ensures pass { view pass.new
            ≡ after_put (made_behind (view pass.old) (W.history turn.world)) (W.spare turn.world)
            (view pass.old) }
        ensures unspent { W.history turn.world ≡ entries_of (view pass.old).seen
            → (view pass.new).room ≡ (view pass.old).room }
        ensures mine { mine (view pass.new) ≡ mine (view pass.old)
            ++ enumerate_from (length (view pass.old).seen)
            (made_behind (view pass.old) (W.history turn.world)) }
    {
        let Turn { world, owed } = turn;
        let Owed = owed;
        self.put_world(&mut pass.seat, world);
    }

    fn put_world(&self, seat: &mut PassSeat<W>, world: W)
        requires lock { seat.old.table_id ≡ self.now.table.shared.table_id }
        requires out { (ticket : ℕ) × (seat.old.me.0.stage ≡ Out ticket) }
        requires in_hand { seat.old.me.1 ≡ (0, None) ∷ [] }
        requires history { BeginsWithSeen seat.old.me.0.view (W.history world) }
        requires opened { IfSome seat.old.me.0.view.opening (W.comes world) }
        requires room { IsWithinRoom
            (less (unwrap_or seat.old.me.0.view.turn no_room) (W.spare world))
            seat.old.me.0.view.room }
        requires actors { HoldsActors W.actor seat.old.me.0.view
            (made_behind seat.old.me.0.view (W.history world)) }
        ensures lock { seat.new.table_id ≡ seat.old.table_id }
        ensures put { seat.new.me
            ≡ (
              resting (record seat.old.me.0 {
                view = after_put
                    (made_behind seat.old.me.0.view (W.history world)) (W.spare world) seat.old.me.0.view;
              }),
              [],
            ) }
        ensures named { is_among seat.old.me.0.view.names seat.old.me.0.view.name ≡ true }
    {
        let entries = world.entries();
        let emptied = self.table.shared.exchange(seat, 0, Some(world));
        let None = emptied else { unreachable!() };
        self.table.shared.store::<Count>(seat, 2, entries);
        let _ = self.table.shared.fetch_add::<Serve>(seat, 1, 1);
    }

    /// The count of entries, in one load. The pass has then seen so many.
    pub fn front(&self, pass: &mut Pass<W>) -> u64
        requires lock { lock_of pass.old ≡ lock_id self.now }
        requires free { (view pass.old).turn ≡ None }
        ensures lock { lock_of pass.new ≡ lock_of pass.old }
        ensures pass { view pass.new ≡ record (view pass.old) { seen = (view pass.new).seen } }
        ensures seen { SeesMore W.actor (view pass.old) (view pass.new) }
        ensures mine { mine (view pass.new) ≡ mine (view pass.old) }
        ensures count { result ≡ length (view pass.new).seen }
    {
        self.table.shared.load::<Look>(&mut pass.seat, 2)
    }
}
