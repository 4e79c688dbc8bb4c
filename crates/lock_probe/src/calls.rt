//! One call under the lock, and actors that make calls in threads.
ghost use Rattle.std.specs.Prelude.{◌≡◌, ℕ, ◌+◌, ◌-◌, ◌*◌, ◌^◌, ◌<◌, ◌≤◌, true, IfOk};
ghost use Rattle.std.specs.Thread.{IsSync};
ghost use Rattle.blk_lock.specs.Rooms.{less};
ghost use Rattle.blk_lock.specs.Stamps.{has_actor};
ghost use Rattle.blk_lock.specs.Views.{view, lock_of, lock_id};
ghost use Rattle.lock_probe.specs.Face.{one_entry};
ghost use Rattle.lock_probe.specs.Replay.{script, written_by, Makes};
ghost use Rattle.lock_probe.specs.Runs.{IsFirstPass, MayRun, HasRun, MayWrite, HasWritten};

use crate::register::{Register, RegisterWrite};
use blk_base::{NoMemory, Room};
use blk_lock::{Pass, Turns};
use std::alloc::Global;
use std::sync::Wait;
use std::thread::{Threads, join};

/// A register under a lock, with room for so many entries.
pub fn open(
    alloc: Global,
    value: u64,
    most: usize,
) -> Result<(Turns<Register>, Pass<Register>), NoMemory>
    ensures lock { IfOk result (λ t. lock_of t.1 ≡ lock_id t.0) }
    ensures pass { IfOk result (λ t. IsFirstPass value most (view t.1)) }
{
    let register = Register::new(alloc, value, most)?;
    match Turns::new(alloc, register) {
        Ok((turns, pass)) => Ok((turns, pass)),
        Err((none, _register)) => Err(none),
    }
}

/// An actor writes a value, and is told what the register had at that place of the history.
pub fn exchange<R: Wait>(
    rt: &R,
    turns: &Turns<Register>,
    pass: &mut Pass<Register>,
    entry: RegisterWrite,
) -> u64
    requires lock { lock_of pass.old ≡ lock_id turns.now }
    requires free { (view pass.old).turn ≡ None }
    requires room { 0 < (view pass.old).room.entries }
    requires actor { has_actor (view pass.old).actors entry.actor ≡ true }
    ensures lock { lock_of pass.new ≡ lock_of pass.old }
    ensures pass { view pass.new
        ≡ record (view pass.old) {
          seen = (view pass.new).seen;
          room = less (view pass.old).room one_entry;
        } }
    ensures event { Makes (view pass.old) (view pass.new) entry result }
{
    let mut turn = turns.take(rt, pass);
    let answer = turn.world.swap(entry);
    turns.put(pass, turn);
    answer
}

// The actor writes the numbers from 0 on, each in a turn of its own.
fn write_script<R: Wait>(
    rt: &R,
    turns: &Turns<Register>,
    mut pass: Pass<Register>,
    actor: u32,
    rounds: u64,
) -> Pass<Register>
    requires lock { lock_of pass ≡ lock_id turns.now }
    requires may { MayWrite (view pass) actor rounds }
    ensures lock { lock_of result ≡ lock_of pass }
    ensures written { HasWritten (view pass) (view result) actor rounds }
{
    for value in 0..rounds {
        exchange(rt, turns, &mut pass, RegisterWrite { actor, value });
    }
    pass
}

/// So many actors, from the first on, each write their script, in threads that join.
pub fn run_actors<R: Threads + Wait + Sync>(
    rt: &R,
    turns: &Turns<Register>,
    mut pass: Pass<Register>,
    first: u32,
    count: u32,
    rounds: u64,
) -> Pass<Register>
    requires lock { lock_of pass ≡ lock_id turns.now }
    requires may { MayRun (view pass) first count rounds }
    ensures lock { lock_of result ≡ lock_of pass }
    ensures run { HasRun (view pass) (view result) first count rounds }
{
    if count == 0 {
        return pass;
    }
    let room = Room {
        entries: rounds,
        bytes: 0,
    };
    let one = turns.split(&mut pass, room, Some(first));
    let (mut rest, one) = join(
        rt,
        || -> Pass<Register>
            requires lock { IsSync R.row × (lock_of pass ≡ lock_id turns.now) }
            requires may { (0 < count) × MayRun (view pass) (first + 1) (count - 1) rounds }
            ensures lock { lock_of result ≡ lock_of pass }
            ensures run { HasRun (view pass) (view result) (first + 1) (count - 1) rounds }
        { run_actors(rt, turns, pass, first + 1, count - 1, rounds) },
        || -> Pass<Register>
            requires lock { lock_of one ≡ lock_id turns.now }
            requires may { MayWrite (view one) first rounds }
            ensures lock { lock_of result ≡ lock_of one }
            ensures written { HasWritten (view one) (view result) first rounds }
        { write_script(rt, turns, one, first, rounds) },
    );
    turns.join(&mut rest, one);
    rest
}

/// From the first entry to the last: a register under a lock, actors that each write their script in threads, and the register that comes back, in whose history the entries of each actor are its script.
pub fn play<R: Threads + Wait + Sync>(
    rt: &R,
    alloc: Global,
    count: u32,
    rounds: usize,
) -> Result<Register, NoMemory>
    requires { (count ≤ 17) × (count * rounds < 2 ^ 64) }
    ensures { IfOk result (λ r. (a : ℕ) → a < count → written_by a r.log ≡ script a rounds) }
{
    let (turns, pass) = open(alloc, 0, count as usize * rounds)?;
    let pass = run_actors(rt, &turns, pass, 0, count, rounds as u64);
    Ok(turns.close(pass))
}
