//! What a run begins with.
ghost use Rattle.std.specs.Prelude.{◌≡◌, length, map, false, IfOk};
ghost use Rattle.trace_codec.specs.Script.{seen_order};
ghost use Rattle.qblk_run.specs.Beginning.{new_task, IsRunReady};

use crate::task::{Actors, Script, Task};
use blk_base::{Names1, NoMemory, Room, Text};
use qblk_inputs::{Inputs, room_for};
use std::alloc::Global;
use std::collections::VecDeque;
use trace_codec::{Order, Wish};

/// The names of guests once more.
fn copied(alloc: Global, names: &Names1) -> Result<Names1, NoMemory>
    ensures { IfOk result (λ copy. copy ≡ names.now) }
{
    let mut copies = Vec::new(alloc);
    for place in 0..names.len() {
        copies.push(Text::copied(alloc, names.name_at(place))?)?;
    }
    Ok(Names1::from_vec(copies))
}

/// A guest that has all its wishes still to do.
fn new_task(wishes: Vec<Wish>) -> Task
    ensures { result ≡ new_task wishes.items }
{
    Task {
        next: None,
        rest: VecDeque::from_vec(wishes),
        left: None,
        is_done: false,
    }
}

/// The guests with all their wishes.
fn new_guests(alloc: Global, traces: Vec<Vec<Wish>>) -> Result<Vec<Task>, NoMemory>
    ensures { IfOk result (λ tasks.
        tasks.items ≡ map new_task (map (λ t. t.items) traces.items)) }
{
    let mut tasks = Vec::new(alloc);
    let mut rest = VecDeque::from_vec(traces);
    while let Some(wishes) = rest.pop_front() {
        tasks.push(new_task(wishes))?;
    }
    Ok(tasks)
}

/// A script with all its lines still to do.
fn new_script(orders: VecDeque<Order>) -> Script
    ensures { result ≡ record { orders = map seen_order orders.items; is_done = false } }
{
    Script {
        next: None,
        rest: orders,
        is_done: false,
    }
}

/// A block of zeros, for what is copied.
fn new_buffer(alloc: Global) -> Result<Vec<u8>, NoMemory>
    ensures { IfOk result (λ buffer. length buffer.items ≡ 65536) }
{
    Ok(vec![in alloc; 0u8; 65536]?)
}

/// All that a run needs beside its store.
pub(crate) struct Ready {
    pub actors: Actors,
    /// For a block that is copied.
    pub buffer: Vec<u8>,
    /// For the world, and for the transcript.
    pub guests: Names1,
    pub names: Names1,
    pub room: Room,
}

/// Takes what a run needs beside its store.
pub(crate) fn make_ready(alloc: Global, inputs: Inputs) -> Result<Ready, NoMemory>
    ensures ready { IfOk result (λ r. IsRunReady (map seen_order inputs.script.items)
        (map (λ t. t.items) inputs.traces.items) inputs.guests r.actors r.guests r.names r.room) }
    ensures buffer { IfOk result (λ r. length r.buffer.items ≡ 65536) }
{
    let Inputs {
        guests,
        script,
        traces,
    } = inputs;
    let Ok(lines) = u32::try_from(script.len()) else {
        return Err(NoMemory);
    };
    let Some(room) = room_for(lines, traces.as_slice()) else {
        return Err(NoMemory);
    };
    let names = copied(alloc, &guests)?;
    let script = new_script(script);
    let tasks = new_guests(alloc, traces)?;
    let buffer = new_buffer(alloc)?;
    let actors = Actors {
        script,
        guests: tasks,
    };
    Ok(Ready {
        actors,
        buffer,
        guests,
        names,
        room,
    })
}
