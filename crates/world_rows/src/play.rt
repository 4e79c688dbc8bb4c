//! A world over files in memory, call by call.
ghost use Rattle.std.specs.Prelude.{◌≡◌, ◌≤◌, ◌+◌, [], IfOk, length};
ghost use Rattle.trace_codec.specs.Request.{pieces_of, read_bytes_of};
ghost use Rattle.world_rows.specs.Ready.{IsAsked, IsOver, IsReady, IsReadyAfter};

use crate::store::UntoldStore;
use blk_base::{Names1, NoMemory, Outcome, Room, Text};
use blk_copy::Transfer;
use blk_world::{Admission, Executed, Turned, World};
use row_text::RowStop;
use std::alloc::Global;
use std::marker::Model;
use trace_codec::Op;

/// How many entries there may be, and how many bytes in them.
const ENTRIES: u32 = 4096;

const ROOM: Room = Room {
    entries: 4096,
    bytes: 4096,
};

/// A world with one guest, `vda`, which has no request in flight, and how many entries more there may be.
pub(crate) struct Play {
    world: World<UntoldStore>,
    left: u32,
}

impl Model for Play {
    ghost use Rattle.world_parts.specs.Face.{WorldSeen};
    ghost use Rattle.world_rows.specs.Ready.{IsReady};

    ghost Value = { WorldSeen };

    ghost view = { λ p. p.world };

    ghost invariant = { λ p. IsReady p.world p.left };
}

/// The name of the guest.
fn guests(alloc: Global) -> Result<Names1, NoMemory>
    ensures { IfOk result (λ names. length names ≡ 1) }
{
    let mut names = Vec::new(alloc);
    names.push(Text::copied(alloc, "vda")?)?;
    Ok(Names1::from_vec(names))
}

/// Makes the one piece of the guest's request in flight, and ends the request.
fn make(world: &mut World<UntoldStore>, left: u32) -> Outcome
    requires { IsAsked world.old left }
    ensures { IsReady world.new left }
{
    let outcome = world.piece(0);
    world.retire(0);
    outcome
}

/// What became of a guest's request.
pub(crate) enum Asked {
    Made(Outcome),
    Refused,
    Held,
    Away,
}

/// Asks for a request of one piece that reads nothing, and makes it where it is admitted.
fn ask(world: &mut World<UntoldStore>, left: u32, op: Op) -> Asked
    requires ready { IsReadyAfter 3 world.old left }
    requires piece { pieces_of op ≡ 1 }
    requires bytes { read_bytes_of op ≡ 0 }
    ensures { IsReady world.new left }
{
    match world.admit(0, op) {
        Admission::Admitted(_) => Asked::Made(make(world, left)),
        Admission::Refused(_) => Asked::Refused,
        Admission::Held(_) => Asked::Held,
        Admission::Away(_) => Asked::Away,
    }
}

/// Answers a line of the script.
fn answer(
    alloc: Global,
    world: &mut World<UntoldStore>,
    left: u32,
    line: u32,
    text: &str,
) -> Result<Executed, NoMemory>
    requires { IsReadyAfter 4 world.old left }
    ensures { IsReady world.new left }
{
    world.execute(alloc, line, text)
}

impl Play {
    /// A world over files of which none is out.
    pub fn new(alloc: Global, store: UntoldStore) -> Result<Self, NoMemory>
        requires { store.opened ≡ [] }
    {
        let guests = guests(alloc)?;
        match World::new(alloc, store, guests, ROOM) {
            Ok(world) => Ok(Play {
                world,
                left: ENTRIES,
            }),
            Err((stop, _)) => Err(stop),
        }
    }

    /// Answers a line of the script, where there is room for its entries.
    pub fn execute(&mut self, alloc: Global, line: u32, text: &str) -> Result<Executed, RowStop> {
        if self.left < 4 {
            return Err(RowStop::Call);
        }
        self.left -= 4;
        Ok(answer(alloc, &mut self.world, self.left, line, text)?)
    }

    /// Asks for a guest's request of one piece that reads nothing, and makes it where it is admitted.
    pub fn ask(&mut self, op: Op) -> Result<Asked, RowStop> {
        if self.left < 3 || op.pieces() != 1 || op.read_bytes() != 0 {
            return Err(RowStop::Call);
        }
        self.left -= 3;
        Ok(ask(&mut self.world, self.left, op))
    }

    /// Gives the job in a slot its turn.
    pub fn turn(&mut self, slot: u32) -> Turned {
        self.world.job_turn(slot)
    }

    /// Reads the next block of the job in a slot.
    pub fn take(&mut self, slot: u32, buffer: &mut [u8]) -> Option<Transfer>
        requires { length buffer.old ≡ 65536 }
        ensures { length buffer.new ≡ length buffer.old }
    {
        self.world.take(slot, buffer)
    }

    /// Writes a block that was read.
    pub fn settle(&mut self, t: Transfer, bytes: &[u8]) -> bool
        requires { length bytes.now ≡ 65536 }
    {
        let len = self.world.block_len(t);
        self.world.settle(t, &bytes[..len])
    }

    /// Ends it. The files are given back.
    pub fn end(self) -> UntoldStore {
        let Play { world, left: _ } = self;
        let (store, _, _, _) = world.close_world();
        store
    }
}
