//! The world, changed by one event after another.
ghost use Rattle.std.specs.Prelude.{◌≡◌, ℕ, ◌+◌, ◌≤◌, ◌<◌, List, [], map, length, slice_get, IfOk, IfErr, IsSome, is_some};
ghost use Rattle.blk_nodes.specs.Nodes.{no_nodes};
ghost use Rattle.flat_machine.specs.Marks.{none_drained};
ghost use Rattle.qmp_rules.specs.Table.{opening_table};
ghost use Rattle.world_parts.specs.Progress.{no_progress};

mod adding;
mod changing;
mod closing;
mod copying;
mod counting;
mod deleting;
mod execute;
mod making;
mod piece;
mod starting;
mod turning;

use blk_base::{Device, Names1, NoMemory, Room, Store};
use blk_bitmaps::Bitmaps;
use blk_nodes::Nodes;
use qmp_asks::Name;
use qmp_rules::Names;
use std::alloc::Global;
use std::marker::Model;
use trace_codec::{Await, Op};
use world_jobs::RunningJobs;
use world_parts::{Admission, Drained, Progress, RunStore, is_held, refusal_of, seat_of};
use world_pieces::Buffer;

/// A store and all that stands on it: nodes over its files, the table of names, the guests and the history.
pub struct World<S: Store> {
    store: RunStore<S>,
    /// The store's count of faults when the world was made.
    first_faults: u64,
    nodes: Nodes<S::Dev>,
    names: Names,
    progress: Progress,
    drained: Drained,
    bitmaps: Bitmaps,
    works: RunningJobs,
    buffer: Buffer,
}

impl<S: Store> Model for World<S> {
    ghost use Rattle.world_parts.specs.Face.{WorldSeen, face_of};
    ghost use Rattle.world_parts.specs.Coherent.{IsWholeWorld};

    ghost Value = { WorldSeen };

    ghost view = { λ w. face_of w.store w.first_faults w.nodes w.names.table w.progress w.drained
        w.bitmaps w.works };

    ghost invariant = { λ w. IsWholeWorld
        (face_of w.store w.first_faults w.nodes w.names.table w.progress w.drained w.bitmaps
        w.works) };
}

/// The names of the guests, as the table keeps them.
fn names_of(alloc: Global, guests: &Names1) -> Result<Vec<Name>, NoMemory>
    ensures { IfOk result (λ names. names.items ≡ guests.now) }
{
    let mut names = Vec::new(alloc);
    for place in 0..guests.len() {
        names.push(Name::copied(alloc, guests.name_at(place))?)?;
    }
    Ok(names)
}

/// What stands on a store at the beginning.
struct Parts<D: Device> {
    names: Names,
    progress: Progress,
    nodes: Nodes<D>,
    drained: Drained,
    bitmaps: Bitmaps,
    works: RunningJobs,
    buffer: Buffer,
}

/// No node, guests that have asked for nothing, and room for a run.
fn new_parts<D: Device>(alloc: Global, guests: &Names1, room: Room) -> Result<Parts<D>, NoMemory>
    ensures nodes { IfOk result (λ parts. parts.nodes ≡ no_nodes) }
    ensures names { IfOk result (λ parts. parts.names.table ≡ opening_table guests.now) }
    ensures progress { IfOk result (λ parts.
        parts.progress ≡ no_progress (length guests.now) room) }
    ensures drained { IfOk result (λ parts. parts.drained ≡ none_drained) }
    ensures bitmaps { IfOk result (λ parts. parts.bitmaps ≡ []) }
    ensures works { IfOk result (λ parts. parts.works ≡ []) }
{
    Ok(Parts {
        names: Names::new(alloc, names_of(alloc, guests)?)?,
        progress: Progress::new(alloc, guests.len(), room)?,
        drained: Drained::none(alloc)?,
        bitmaps: Bitmaps::new(alloc)?,
        works: RunningJobs::new(alloc)?,
        buffer: Buffer::new(alloc)?,
        nodes: Nodes::new(alloc)?,
    })
}

impl<S: Store> World<S> {
    ghost use Rattle.blk_base.specs.Files.{is_out};
    ghost use Rattle.blk_nodes.specs.Contents.{disk_of};
    ghost use Rattle.job_commands.specs.Whole.{HaveRowSizes};
    ghost use Rattle.std.specs.Prelude.{◌↔◌, true, false, None, IsTrue, IsNone, IfSome, Contains, is_none};
    ghost use Rattle.blk_history.specs.Fold.{With};
    ghost use Rattle.blk_history.specs.Legal.{IsFlightOver};
    ghost use Rattle.trace_codec.specs.Awaits.{seen_await};
    ghost use Rattle.flat_machine.specs.Legal.{IsMet, IsNotDone, AllDone};
    ghost use Rattle.flat_machine.specs.declared.opening.Opening.{Opening};
    ghost use Rattle.flat_machine.specs.Imaging.{ImagesAreSound};
    ghost use Rattle.world_parts.specs.Coherent.{AreJobsKept};
    ghost use Rattle.world_parts.specs.Face.{held, seen_state};
    ghost use Rattle.world_parts.specs.Comes.{Comes};
    ghost use Rattle.world_parts.specs.Progress.{IsFree, HasRoomFor, flight_at, answered_in, with_retirement};
    ghost use Rattle.world_parts.specs.Steps.{new_world, seen_store, IsOpeningOf, with_history, after_admission, IsAnswered, after_wait, after_actor_end, IsActorIdle};

    /// A world over a store, with guests that have asked for nothing yet and room for what a run adds to its history.
    fn put_world(alloc: Global, store: S, guests: Names1, room: Room) -> Result<Self, (NoMemory, S)>
        requires none_out { (name : List ℕ) → is_out name (S.opened store) ≡ false }
        ensures ok { IfOk result (λ world. world ≡ new_world
            (seen_store (S.files store) (S.opened store) (S.room store) (S.faults store)
            (S.failed_call store)) guests room) }
        ensures err { IfErr result (λ e. e.1 ≡ store) }
    {
        match new_parts(alloc, &guests, room) {
            Err(stop) => Err((stop, store)),
            Ok(
                Parts {
                    names,
                    progress,
                    nodes,
                    drained,
                    bitmaps,
                    works,
                    buffer,
                },
            ) => Ok(World {
                first_faults: store.faults(),
                store: RunStore::new(store),
                nodes,
                names,
                progress,
                drained,
                bitmaps,
                works,
                buffer,
            }),
        }
    }

    /// A world over a store of which no device is out, with guests that have asked for nothing yet and room for what a run
    /// adds to its history. The store is given back where memory isn't had. Beside 16 guests that run a trace there are numbers
    /// for 64 devices of other ids; of more, some would never have a device.
    pub fn new(alloc: Global, store: S, guests: Names1, room: Room) -> Result<Self, (NoMemory, S)>
        requires none_out { (name : List ℕ) → is_out name (S.opened store) ≡ false }
        requires few { length guests ≤ 16 }
        ensures ok { IfOk result (λ world. world ≡ new_world
            (seen_store (S.files store) (S.opened store) (S.room store) (S.faults store)
            (S.failed_call store)) guests room) }
        ensures comes { IfOk result (λ world. (o : Opening)
            → IsOpeningOf
            (seen_store (S.files store) (S.opened store) (S.room store) (S.faults store)
            (S.failed_call store)) guests o
            → Comes o world) }
        ensures err { IfErr result (λ e. e.1 ≡ store) }
    {
        Self::put_world(alloc, store, guests, room)
    }

    /// Nothing is done: that the images of qcow2 nodes are sound, jobs are kept, and disks are as long as rows say, is so between calls.
    fn images_are_sound(&self)
        ensures sound { is_some self.now.files ≡ true
            → ImagesAreSound self.now.table (held self.now) }
        ensures kept { AreJobsKept self.now.table self.now.works self.now.progress.aside }
        ensures sizes { is_some self.now.files ≡ true
            → HaveRowSizes self.now.table (disk_of self.now.nodes) }
    {
        let _ = self.nodes.edges();
    }

    /// Admits a guest's next request, or refuses it.
    fn put_admission(&mut self, guest: u32, op: Op) -> Admission
        requires open { IsNotDone (seen_state self.old) (guest + 1) }
        requires free { With (slice_get self.old.progress.guests guest) IsFree }
        requires room { HasRoomFor op self.old.progress.spare }
        ensures answer { IsAnswered self.old guest op result }
        ensures kept { self.new ≡ after_admission self.old guest op result }
    {
        let Some(seat) = seat_of(&self.names, guest) else {
            return Admission::Away(op);
        };
        if is_held(&self.names, &self.drained, guest) {
            return Admission::Held(op);
        }
        match refusal_of(&op, seat) {
            Some(why) => {
                self.progress.refuse(guest, op, why);
                Admission::Refused(why)
            }
            None => Admission::Admitted(self.progress.admit(guest, op)),
        }
    }

    /// Admits a guest's next request. It is away where the guest has no device, and held where a drain that stands holds the
    /// guest. Else it is refused where its span ends past the disk, or where a guest that may only read asks to write. Takes no
    /// memory.
    pub fn admit(&mut self, guest: u32, op: Op) -> Admission
        requires open { IsNotDone (seen_state self.old) (guest + 1) }
        requires free { With (slice_get self.old.progress.guests guest) IsFree }
        requires room { HasRoomFor op self.old.progress.spare }
        ensures answer { IsAnswered self.old guest op result }
        ensures kept { self.new ≡ after_admission self.old guest op result }
        ensures comes { (o : Opening) → Comes o self.old → Comes o self.new }
    {
        self.put_admission(guest, op)
    }

    /// Ends a request.
    fn put_retirement(&mut self, guest: u32)
        requires { With (flight_at self.old.progress.guests guest) IsFlightOver }
        ensures { self.new ≡ with_history self.old (with_retirement guest) }
    {
        self.progress.retire(guest);
    }

    /// Ends a request of which all pieces are done, or the last wasn't good. Takes no memory.
    pub fn retire(&mut self, guest: u32)
        requires { With (flight_at self.old.progress.guests guest) IsFlightOver }
        ensures kept { self.new ≡ with_history self.old (with_retirement guest) }
        ensures comes { (o : Opening) → Comes o self.old → Comes o self.new }
    {
        self.put_retirement(guest);
    }

    /// Whether what a line of the script waits for has come.
    fn is_met(&self, what: &Await) -> bool
        ensures { IsTrue result ↔ IsMet (seen_state self.now) (seen_await what.now) }
    {
        match what {
            Await::Guest { guest, requests } => self.progress.has_done(*guest, *requests),
            Await::Ready(id) => match self.names.job_named(id.as_str()) {
                Some(job) => job.is_ready,
                None => false,
            },
            Await::Ended(id) => self.names.job_named(id.as_str()).is_none(),
        }
    }

    /// Notes that a line's wait is over, where it is.
    fn put_wait(&mut self, line: u32, what: Await) -> Option<Await>
        requires { 0 < self.old.progress.spare.entries }
        ensures met { IsNone result ↔ IsMet (seen_state self.old) (seen_await what) }
        ensures back { IfSome result (λ back. back ≡ what) }
        ensures kept { self.new ≡ after_wait self.old line (seen_await what) (is_none result) }
    {
        if !self.is_met(&what) {
            return Some(what);
        }
        self.progress.reach(line, what);
        None
    }

    /// Notes that what a line of the script waits for has come. Where it hasn't, it is given back and nothing changes. Takes
    /// no memory.
    pub fn reach(&mut self, line: u32, what: Await) -> Option<Await>
        requires open { IsNotDone (seen_state self.old) 0 }
        requires room { 0 < self.old.progress.spare.entries }
        ensures met { IsNone result ↔ IsMet (seen_state self.old) (seen_await what) }
        ensures back { IfSome result (λ back. back ≡ what) }
        ensures kept { self.new ≡ after_wait self.old line (seen_await what) (is_none result) }
        ensures comes { (o : Opening) → Comes o self.old → Comes o self.new }
    {
        self.put_wait(line, what)
    }

    /// Notes that an actor is done.
    fn put_end(&mut self, actor: u32)
        requires known { actor ≤ length self.old.progress.guests }
        requires room { 0 < self.old.progress.spare.entries }
        ensures { self.new ≡ after_actor_end self.old actor }
    {
        self.progress.finish(actor);
    }

    /// Notes that an actor is done: the script, which is actor 0, or a guest behind it. Takes no memory.
    pub fn finish(&mut self, actor: u32)
        requires known { actor ≤ length self.old.progress.guests }
        requires open { IsNotDone (seen_state self.old) actor }
        requires idle { IsActorIdle self.old.progress.guests actor }
        requires room { 0 < self.old.progress.spare.entries }
        ensures kept { self.new ≡ after_actor_end self.old actor }
        ensures comes { (o : Opening) → Comes o self.old → Comes o self.new }
    {
        self.put_end(actor);
    }

    /// Whether a line of the script has its reply, or its wait is over.
    pub fn answered(&self, line: u32) -> bool
        ensures { IsTrue result ↔ Contains (answered_in self.now.progress.log.events) line }
    {
        self.progress.is_answered(line)
    }

    /// Whether the script and all guests are done.
    pub fn all_done(&self) -> bool
        ensures { IsTrue result ↔ AllDone (seen_state self.now) }
    {
        self.progress.all_done()
    }
}
