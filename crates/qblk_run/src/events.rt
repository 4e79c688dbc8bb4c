//! What rounds ask of a world.
ghost use Rattle.std.specs.Prelude.{◌≡◌, ◌↔◌, ◌+◌, ◌^◌, ◌<◌, ◌≤◌, ℕ, List, true, length, slice_get, Some, IsTrue, IsNone, IfOk, IfSome, OnErr, Contains, is_none};
ghost use Rattle.blk_history.specs.Fold.{With};
ghost use Rattle.blk_history.specs.Legal.{IsFlightOver};
ghost use Rattle.blk_history.specs.Machine.{Flight};
ghost use Rattle.trace_codec.specs.Awaits.{seen_await};
ghost use Rattle.qmp_codec.specs.Lines.{command_at};
ghost use Rattle.qmp_asks.specs.Naming.{is_name};
ghost use Rattle.qmp_rules.specs.Table.{job_at};
ghost use Rattle.qmp_rules.specs.declared.rows.JobRecord.{JobRecord};
ghost use Rattle.flat_machine.specs.Legal.{IsMet, IsNotDone};
ghost use Rattle.flat_machine.specs.declared.opening.Opening.{Opening};
ghost use Rattle.world_parts.specs.Carrying.{IsExecuted, IsPutBack, IsPutBackIn};
ghost use Rattle.world_parts.specs.Comes.{Comes};
ghost use Rattle.world_parts.specs.Face.{WorldSeen, seen_state};
ghost use Rattle.world_parts.specs.Saying.{given_line};
ghost use Rattle.world_parts.specs.Progress.{IsFree, HasNext, HasRoomFor, flight_at, answered_in, with_retirement};
ghost use Rattle.world_parts.specs.Steps.{with_history, after_admission, IsAnswered, after_wait, after_actor_end, IsActorIdle};
ghost use Rattle.qblk_run.specs.Slots.{HasSettled, HasTaken, HoldsTaken, IsTurned};
ghost use Rattle.qblk_run.specs.Turns.{StaysIn};
ghost use Rattle.qblk_run.specs.Worlds.{MakesPiece};

use blk_base::{NoMemory, Outcome, Store};
use blk_copy::Transfer;
use blk_world::{Admission, Executed, World};
use std::alloc::Global;
use trace_codec::{Await, Op};
use world_jobs::Turned;

/// The events of a run, each one call. A world has them.
pub(crate) trait Events {
    /// What contracts see of the world.
    ghost face: { Self → WorldSeen };

    /// Admits a guest's next request, or refuses it. It is away where the guest has no device, and held where a drain holds the
    /// guest.
    fn admit(&mut self, guest: u32, op: Op) -> Admission
        requires open { IsNotDone (seen_state (face self.old)) (guest + 1) }
        requires free { With (slice_get (face self.old).progress.guests guest) IsFree }
        requires room { HasRoomFor op (face self.old).progress.spare }
        ensures answer { IsAnswered (face self.old) guest op result }
        ensures kept { face self.new ≡ after_admission (face self.old) guest op result }
        ensures stays { StaysIn (face self.old) (face self.new) }
        ensures comes { (o : Opening) → Comes o (face self.old) → Comes o (face self.new) };

    /// Makes the next piece of a guest's request in flight. What a backup still needs of its block is copied before, and what it wrote
    /// a mirror has to copy again.
    fn piece(&mut self, guest: u32) -> Outcome
        requires { With (flight_at (face self.old).progress.guests guest) HasNext }
        ensures made { (f : Flight) → flight_at (face self.old).progress.guests guest ≡ Some f
            → MakesPiece (face self.old) (face self.new) guest f result }
        ensures stays { StaysIn (face self.old) (face self.new) }
        ensures comes { (o : Opening) → Comes o (face self.old) → Comes o (face self.new) };

    /// Ends a request.
    fn retire(&mut self, guest: u32)
        requires { With (flight_at (face self.old).progress.guests guest) IsFlightOver }
        ensures kept { face self.new ≡ with_history (face self.old) (with_retirement guest) }
        ensures stays { StaysIn (face self.old) (face self.new) }
        ensures comes { (o : Opening) → Comes o (face self.old) → Comes o (face self.new) };

    /// Answers a line of the script, and begins the job that it starts. It has to come again where a request is in flight on a disk
    /// that it must drain.
    fn execute(&mut self, alloc: Global, line: u32, text: &str) -> Result<Executed, NoMemory>
        requires open { IsNotDone (seen_state (face self.old)) 0 }
        requires room { 4 ≤ (face self.old).progress.spare.entries }
        ensures done { IfOk result (λ answer.
            IsExecuted (face self.old) (face self.new) (given_line line text.now) answer) }
        ensures back { OnErr result (IsPutBack (face self.old) (face self.new)) }
        ensures back_in { OnErr result
            (IsPutBackIn (face self.old) (face self.new) (command_at text.now)) }
        ensures named { (row : JobRecord)
            → job_at (face self.new).table (face self.old).table.started ≡ Some row
            → is_name row.id ≡ true }
        ensures stays { StaysIn (face self.old) (face self.new) }
        ensures comes { (o : Opening) → Comes o (face self.old) → Comes o (face self.new) };

    /// Notes that what a line of the script waits for has come, or gives it back.
    fn reach(&mut self, line: u32, what: Await) -> Option<Await>
        requires open { IsNotDone (seen_state (face self.old)) 0 }
        requires room { 0 < (face self.old).progress.spare.entries }
        ensures met { IsNone result ↔ IsMet (seen_state (face self.old)) (seen_await what) }
        ensures back { IfSome result (λ back. back ≡ what) }
        ensures kept { face self.new
            ≡ after_wait (face self.old) line (seen_await what) (is_none result) }
        ensures stays { StaysIn (face self.old) (face self.new) }
        ensures comes { (o : Opening) → Comes o (face self.old) → Comes o (face self.new) };

    /// Notes that an actor is done.
    fn finish(&mut self, actor: u32)
        requires known { actor ≤ length (face self.old).progress.guests }
        requires open { IsNotDone (seen_state (face self.old)) actor }
        requires idle { IsActorIdle (face self.old).progress.guests actor }
        requires room { 0 < (face self.old).progress.spare.entries }
        ensures kept { face self.new ≡ after_actor_end (face self.old) actor }
        ensures stays { StaysIn (face self.old) (face self.new) }
        ensures comes { (o : Opening) → Comes o (face self.old) → Comes o (face self.new) };

    /// Gives the job in a slot its turn: it is ready or ends, or says what is to be done for it, or which request it waits for.
    fn job_turn(&mut self, slot: u32) -> Turned
        requires { slot < 16 }
        ensures turned { IsTurned (face self.old) (face self.new) slot result }
        ensures stays { StaysIn (face self.old) (face self.new) }
        ensures comes { (o : Opening) → Comes o (face self.old) → Comes o (face self.new) };

    /// Reads the next block for the job in a slot.
    fn take(&mut self, slot: u32, buffer: &mut [u8]) -> Option<Transfer>
        requires slot { slot < 16 }
        requires room { length buffer.old ≡ 65536 }
        ensures took { HasTaken (face self.old) (face self.new) slot buffer.new result }
        ensures bytes { IfSome result (λ t. HoldsTaken (face self.new) t buffer.new) }
        ensures stays { StaysIn (face self.old) (face self.new) }
        ensures comes { (o : Opening) → Comes o (face self.old) → Comes o (face self.new) };

    /// Writes a block that was read for a job.
    fn settle(&mut self, t: Transfer, bytes: &[u8]) -> bool
        requires room { length bytes.now ≡ 65536 }
        requires bytes { HoldsTaken (face self.old) t bytes.now }
        ensures settled { HasSettled (face self.old) (face self.new) t bytes.now result }
        ensures stays { StaysIn (face self.old) (face self.new) }
        ensures comes { (o : Opening) → Comes o (face self.old) → Comes o (face self.new) };

    /// Whether a line of the script has its reply, or its wait is over.
    fn answered(&self, line: u32) -> bool
        ensures { IsTrue result ↔ Contains (answered_in (face self.now).progress.log.events) line };
}

impl<S: Store> Events for World<S> {
    ghost face = { λ w. w };

    fn admit(&mut self, guest: u32, op: Op) -> Admission {
        World::admit(self, guest, op)
    }

    fn piece(&mut self, guest: u32) -> Outcome {
        let outcome = World::piece(self, guest);
        World::law(self);
        outcome
    }

    fn retire(&mut self, guest: u32) {
        World::retire(self, guest);
    }

    fn execute(&mut self, alloc: Global, line: u32, text: &str) -> Result<Executed, NoMemory> {
        World::law(self);
        let executed = World::execute(self, alloc, line, text);
        World::law(self);
        executed
    }

    fn reach(&mut self, line: u32, what: Await) -> Option<Await> {
        World::reach(self, line, what)
    }

    fn finish(&mut self, actor: u32) {
        World::finish(self, actor);
    }

    fn job_turn(&mut self, slot: u32) -> Turned {
        World::fault_law(self, slot);
        let turned = World::job_turn(self, slot);
        World::law(self);
        turned
    }

    fn take(&mut self, slot: u32, buffer: &mut [u8]) -> Option<Transfer> {
        let taken = World::take(self, slot, buffer);
        World::law(self);
        taken
    }

    fn settle(&mut self, t: Transfer, bytes: &[u8]) -> bool {
        let len = World::block_len(self, t);
        World::settle(self, t, &bytes[..len])
    }

    fn answered(&self, line: u32) -> bool {
        World::answered(self, line)
    }
}
