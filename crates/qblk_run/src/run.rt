//! The calls of the program.
ghost use Rattle.std.specs.Prelude.{◌≡◌, ◌+◌, ◌^◌, ◌<◌, ◌≤◌, ℕ, List, IfSome, false, length, map, vec_len};
ghost use Rattle.blk_base.specs.Files.{IfTold, is_out};
ghost use Rattle.trace_codec.specs.Script.{seen_order};
ghost use Rattle.qblk_inputs.specs.Inputs.{HasWork, IsWork};
ghost use Rattle.qblk_inputs.specs.Reading.{NoneOut};
ghost use Rattle.qblk_words.specs.Words.{Cast, IsRunOf, cast_of, texts_in, guests_of};
ghost use Rattle.qblk_core.specs.Run.{why_of};
ghost use Rattle.qblk_run.specs.Run.{Answers, setting, status_of};

use crate::output::write_out;
use crate::preparing::{Ready, make_ready};
use crate::session::play;
use blk_base::{FaultFrom, Sink, Store, Text};
use blk_world::World;
use qblk_core::{InputWhy, Status};
use qblk_inputs::{InputFlaw, InputStop, Inputs, read_inputs};
use qblk_words::{Form, RunWords, read_words};
use std::alloc::Global;

/// Why an input is refused, as a status says it.
fn why_of(flaw: InputFlaw) -> InputWhy
    ensures { result ≡ why_of flaw }
{
    match flaw {
        InputFlaw::Absent => InputWhy::Absent,
        InputFlaw::NotUtf8 => InputWhy::NotUtf8,
        InputFlaw::TooLong => InputWhy::TooLong,
        InputFlaw::BadLine => InputWhy::BadLine,
        InputFlaw::TooMany => InputWhy::TooMany,
    }
}

/// How a run ended whose inputs weren't read.
fn input_status(stop: InputStop) -> Status
    ensures { result ≡ status_of stop }
{
    match stop {
        InputStop::Refused { name, line, why } => Status::Input {
            name,
            line,
            why: why_of(why),
        },
        InputStop::Failed { count } => Status::Fault {
            from: FaultFrom::Store,
            count,
        },
        InputStop::NoMemory => Status::NoMemory,
    }
}

/// Runs a script and traces that were read.
fn run_inputs<S: Store, K: Sink>(
    alloc: Global,
    inputs: Inputs,
    store: S,
    out: &mut K,
) -> (Status, S)
    requires none_out { (name : List ℕ) → is_out name (S.opened store) ≡ false }
    requires few { length inputs.guests ≤ 16 }
    requires count { vec_len inputs.traces ≡ length inputs.guests }
    ensures ended { (cast : Cast) → guests_of cast ≡ inputs.guests
        → IsWork cast (record {
          script = map seen_order inputs.script.items;
          traces = map (λ t. t.items) inputs.traces.items;
        })
        → IfTold (S.files store) (HasWork cast (record {
          script = map seen_order inputs.script.items;
          traces = map (λ t. t.items) inputs.traces.items;
        }))
        → Answers cast
        (setting (S.files store) (S.opened store) (S.room store) (S.faults store)
        (S.failed_call store) (K.sent out.old) (K.faults out.old))
        (setting (S.files result.1) (S.opened result.1) (S.room result.1) (S.faults result.1)
        (S.failed_call result.1) (K.sent out.new) (K.faults out.new))
        result.0 }
    ensures back { (name : List ℕ) → is_out name (S.opened result.1) ≡ false }
{
    let Ok(
        Ready {
            actors,
            buffer,
            guests,
            names,
            room,
        },
    ) = make_ready(alloc, inputs)
    else {
        return (Status::NoMemory, store);
    };
    match World::new(alloc, store, guests, room) {
        Err((_, store)) => (Status::NoMemory, store),
        Ok(world) => {
            let (made, store) = play(alloc, world, actors, buffer);
            match made {
                None => (Status::NoMemory, store),
                Some(made) => (write_out(alloc, made, names, out), store),
            }
        }
    }
}

/// The words of a run. None where they are of no run, or memory is wanting.
fn run_of(alloc: Global, words: &[Text]) -> Option<RunWords>
    ensures { IfSome result (λ run. IsRunOf (texts_in words.now)
        (cast_of run.script.bytes (texts_in run.players.items))) }
{
    match read_words(alloc, words) {
        Ok(Form::Run(run)) => Some(run),
        _ => None,
    }
}

/// Runs the script and the traces of `run 1 SCRIPT GUEST=TRACE ..` on the files of a store, and puts the transcript. The words
/// are of that form. The store comes back with no device out.
pub fn run_script<S: Store, K: Sink>(
    alloc: Global,
    words: &[Text],
    store: S,
    out: &mut K,
) -> (Status, S)
    requires form { (cast : Cast) × IsRunOf (texts_in words.now) cast }
    requires none_out { NoneOut (S.opened store) }
    ensures ended { (cast : Cast) → IsRunOf (texts_in words.now) cast → Answers cast
        (setting (S.files store) (S.opened store) (S.room store) (S.faults store)
        (S.failed_call store) (K.sent out.old) (K.faults out.old))
        (setting (S.files result.1) (S.opened result.1) (S.room result.1) (S.faults result.1)
        (S.failed_call result.1) (K.sent out.new) (K.faults out.new))
        result.0 }
    ensures back { NoneOut (S.opened result.1) }
{
    let Some(run) = run_of(alloc, words) else {
        return (Status::NoMemory, store);
    };
    let mut store = store;
    match read_inputs(
        alloc,
        &mut store,
        run.script.as_str(),
        run.players.as_slice(),
    ) {
        Ok(inputs) => run_inputs(alloc, inputs, store, out),
        Err(stop) => (input_status(stop), store),
    }
}
