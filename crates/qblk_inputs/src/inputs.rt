//! The inputs of a run: a script, and a trace for each guest.
ghost use Rattle.std.specs.Prelude.{◌≡◌, ◌<◌, ◌≤◌, ◌^◌, ℕ, List, length, map, vec_len, IfOk, IfErr, OnOk};
ghost use Rattle.blk_base.specs.Answers.{HasFile};
ghost use Rattle.blk_base.specs.Files.{IfTold};
ghost use Rattle.trace_codec.specs.Amounts.{nothing};
ghost use Rattle.trace_codec.specs.Script.{seen_order};
ghost use Rattle.qblk_words.specs.Words.{texts_in, player_of, player_names, guests_of, cast_of};
ghost use Rattle.qblk_inputs.specs.Inputs.{IsScript, ReadsAsTrace, HasTraces, AreTraces, IsRefusedScript, IsRefusedTrace, HasWork, IsWork, IsScriptFlaw, IsTraceFlaw, most_text};
ghost use Rattle.qblk_inputs.specs.Reading.{NoneOut, IsReadOfFile, IsUnread, IsUnreadFlaw, IsInputRefusal, StopsFor, OfFile, OfTraces, OfInputs, StopsOn, OnFile, OnTraces, OnInputs};

use crate::stop::{InputFlaw, InputStop};
use blk_base::{Bytes, Names1, NoMemory, Store, StoreStop, Text};
use qblk_words::player_of;
use std::alloc::Global;
use std::collections::VecDeque;
use trace_codec::{
    MAX_LINES, Order, ScriptStop, Totals, TraceStop, Wish, read_script, read_wishes_after,
};

/// What the words of a run name, read.
#[derive(Drop)]
pub struct Inputs {
    /// The names of the guests, by their number from 0.
    pub guests: Names1,
    /// The lines of the script that aren't passed over, in order.
    pub script: VecDeque<Order>,
    /// What each guest wishes, by its number.
    pub traces: Vec<Vec<Wish>>,
}

/// How many bytes a script or a trace may have.
pub const MAX_TEXT: u64 = 64 * 1024 * 1024;

/// The refusal of an input.
fn refused(alloc: Global, name: &str, line: u32, why: InputFlaw) -> InputStop
    ensures { IsInputRefusal name.now line why result }
{
    match Text::copied(alloc, name) {
        Ok(name) => InputStop::Refused { name, line, why },
        Err(_) => InputStop::NoMemory,
    }
}

/// The bytes of an input's file, where it isn't too long.
fn read_file<S: Store>(alloc: Global, store: &mut S, name: &str) -> Result<Bytes, InputStop>
    requires { NoneOut (S.opened store.old) }
    ensures read { IfOk result (λ bytes. IfTold (S.files store.old) (IsReadOfFile name.now bytes)) }
    ensures short { IfOk result (λ bytes. length bytes ≤ most_text) }
    ensures stop { IfErr result (StopsFor
        (OfFile (S.files store.old) name.now IsUnreadFlaw IsUnread)
        (S.faults store.old) (S.faults store.new)) }
    ensures file { IfErr result (StopsOn (OnFile (S.files store.old) name.now)
        (S.failed_call store.old) (S.failed_call store.new)) }
    ensures last { OnOk result (S.failed_call store.new ≡ S.failed_call store.old) }
    ensures files { S.files store.new ≡ S.files store.old }
    ensures opened { S.opened store.new ≡ S.opened store.old }
    ensures room { S.room store.new ≡ S.room store.old }
    ensures quiet { OnOk result (S.faults store.new ≡ S.faults store.old) }
{
    match store.read_all(name, MAX_TEXT) {
        Ok(bytes) => Ok(bytes),
        Err(StoreStop::Absent) => Err(refused(alloc, name, 0, InputFlaw::Absent)),
        Err(StoreStop::TooLong) => Err(refused(alloc, name, 0, InputFlaw::TooLong)),
        Err(StoreStop::Failed) => Err(InputStop::Failed {
            count: store.faults(),
        }),
        Err(StoreStop::NoMemory) => Err(InputStop::NoMemory),
        Err(StoreStop::InUse) => unreachable!(),
    }
}

/// What the script's file has to be done.
fn read_orders<S: Store>(
    alloc: Global,
    store: &mut S,
    name: &str,
    guests: &Names1,
) -> Result<VecDeque<Order>, InputStop>
    requires none_out { NoneOut (S.opened store.old) }
    requires guests { length guests.now < 2 ^ 32 }
    ensures read { IfOk result (λ script. IfTold (S.files store.old) (HasFile name.now
        (λ f. IsScript guests.now (map seen_order script.items) f.bytes))) }
    ensures said { IfOk result
        (λ script. (bytes : List ℕ) × IsScript guests.now (map seen_order script.items) bytes) }
    ensures stop { IfErr result (StopsFor
        (OfFile (S.files store.old) name.now IsScriptFlaw IsRefusedScript)
        (S.faults store.old) (S.faults store.new)) }
    ensures file { IfErr result (StopsOn (OnFile (S.files store.old) name.now)
        (S.failed_call store.old) (S.failed_call store.new)) }
    ensures last { OnOk result (S.failed_call store.new ≡ S.failed_call store.old) }
    ensures files { S.files store.new ≡ S.files store.old }
    ensures opened { S.opened store.new ≡ S.opened store.old }
    ensures room { S.room store.new ≡ S.room store.old }
    ensures quiet { OnOk result (S.faults store.new ≡ S.faults store.old) }
{
    let bytes = match read_file(alloc, store, name) {
        Ok(bytes) => bytes,
        Err(stop) => return Err(stop),
    };
    let Ok(text) = str::from_utf8(bytes.as_slice()) else {
        return Err(refused(alloc, name, 0, InputFlaw::NotUtf8));
    };
    match read_script(alloc, text, guests) {
        Ok(script) => Ok(script),
        Err(ScriptStop::TooMany) => Err(refused(alloc, name, MAX_LINES + 1, InputFlaw::TooMany)),
        Err(ScriptStop::NoMemory) => Err(InputStop::NoMemory),
    }
}

/// The wishes of a trace's file, behind traces that ask for so much; counts what it asks for.
fn read_trace<S: Store>(
    alloc: Global,
    store: &mut S,
    name: &str,
    asked: &mut Totals,
) -> Result<Vec<Wish>, InputStop>
    requires { NoneOut (S.opened store.old) }
    ensures read { IfOk result (λ wishes. IfTold (S.files store.old) (HasFile name.now
        (λ f. ReadsAsTrace asked.old wishes.items asked.new f.bytes))) }
    ensures said { IfOk result
        (λ wishes. (bytes : List ℕ) × ReadsAsTrace asked.old wishes.items asked.new bytes) }
    ensures stop { IfErr result (StopsFor
        (OfFile (S.files store.old) name.now (IsTraceFlaw asked.old) (IsRefusedTrace asked.old))
        (S.faults store.old) (S.faults store.new)) }
    ensures file { IfErr result (StopsOn (OnFile (S.files store.old) name.now)
        (S.failed_call store.old) (S.failed_call store.new)) }
    ensures last { OnOk result (S.failed_call store.new ≡ S.failed_call store.old) }
    ensures files { S.files store.new ≡ S.files store.old }
    ensures opened { S.opened store.new ≡ S.opened store.old }
    ensures room { S.room store.new ≡ S.room store.old }
    ensures quiet { OnOk result (S.faults store.new ≡ S.faults store.old) }
{
    let bytes = match read_file(alloc, store, name) {
        Ok(bytes) => bytes,
        Err(stop) => return Err(stop),
    };
    let Ok(text) = str::from_utf8(bytes.as_slice()) else {
        return Err(refused(alloc, name, 0, InputFlaw::NotUtf8));
    };
    match read_wishes_after(alloc, asked, text) {
        Ok(wishes) => Ok(wishes),
        Err(TraceStop::BadLine(line)) => Err(refused(alloc, name, line, InputFlaw::BadLine)),
        Err(TraceStop::TooMany(line)) => Err(refused(alloc, name, line, InputFlaw::TooMany)),
        Err(TraceStop::NoMemory) => Err(InputStop::NoMemory),
    }
}

/// The wishes of each guest, by its word.
fn read_traces<S: Store>(
    alloc: Global,
    store: &mut S,
    players: &[Text],
) -> Result<Vec<Vec<Wish>>, InputStop>
    requires { NoneOut (S.opened store.old) }
    ensures read { IfOk result (λ traces. IfTold (S.files store.old) (HasTraces nothing
        (map player_of (texts_in players.now)) (map (λ t. t.items) traces.items))) }
    ensures said { IfOk result (λ traces. AreTraces nothing
        (map player_of (texts_in players.now)) (map (λ t. t.items) traces.items)) }
    ensures count { IfOk result (λ traces. vec_len traces ≡ length players.now) }
    ensures stop { IfErr result (StopsFor
        (OfTraces (S.files store.old) (map player_of (texts_in players.now)))
        (S.faults store.old) (S.faults store.new)) }
    ensures file { IfErr result (StopsOn
        (OnTraces (S.files store.old) (map player_of (texts_in players.now)))
        (S.failed_call store.old) (S.failed_call store.new)) }
    ensures last { OnOk result (S.failed_call store.new ≡ S.failed_call store.old) }
    ensures files { S.files store.new ≡ S.files store.old }
    ensures opened { S.opened store.new ≡ S.opened store.old }
    ensures room { S.room store.new ≡ S.room store.old }
    ensures quiet { OnOk result (S.faults store.new ≡ S.faults store.old) }
{
    let mut traces = Vec::new(alloc);
    let mut asked = Totals::new();
    for word in players {
        let (_, trace) = player_of(word.as_str());
        let wishes = match read_trace(alloc, store, trace, &mut asked) {
            Ok(wishes) => wishes,
            Err(stop) => return Err(stop),
        };
        let Ok(()) = traces.push(wishes) else {
            return Err(InputStop::NoMemory);
        };
    }
    Ok(traces)
}

/// The names of the guests, by number.
fn guest_names(alloc: Global, players: &[Text]) -> Result<Names1, NoMemory>
    ensures { IfOk result (λ names. names ≡ player_names (map player_of (texts_in players.now))) }
{
    let mut names = Vec::new(alloc);
    for word in players {
        let (name, _) = player_of(word.as_str());
        names.push(Text::copied(alloc, name)?)?;
    }
    Ok(Names1::from_vec(names))
}

/// Reads what the words of a run name: the script, and then a trace for each guest. The first that is refused or can't
/// be read is answered, and those behind it aren't read. The store's files, openings and room stay.
pub fn read_inputs<S: Store>(
    alloc: Global,
    store: &mut S,
    script: &str,
    players: &[Text],
) -> Result<Inputs, InputStop>
    requires none_out { NoneOut (S.opened store.old) }
    requires few { length players.now ≤ 16 }
    ensures guests { IfOk result (λ i.
        i.guests ≡ guests_of (cast_of script.now (texts_in players.now))) }
    ensures count { IfOk result (λ i. vec_len i.traces ≡ length players.now) }
    ensures read { IfOk result (λ i. IfTold (S.files store.old)
        (HasWork (cast_of script.now (texts_in players.now)) (record {
          script = map seen_order i.script.items;
          traces = map (λ t. t.items) i.traces.items;
        }))) }
    ensures work { IfOk result (λ i. IsWork (cast_of script.now (texts_in players.now)) (record {
      script = map seen_order i.script.items;
      traces = map (λ t. t.items) i.traces.items;
    })) }
    ensures stop { IfErr result (StopsFor
        (OfInputs (S.files store.old) (cast_of script.now (texts_in players.now)))
        (S.faults store.old) (S.faults store.new)) }
    ensures file { IfErr result (StopsOn
        (OnInputs (S.files store.old) (cast_of script.now (texts_in players.now)))
        (S.failed_call store.old) (S.failed_call store.new)) }
    ensures last { OnOk result (S.failed_call store.new ≡ S.failed_call store.old) }
    ensures files { S.files store.new ≡ S.files store.old }
    ensures opened { S.opened store.new ≡ S.opened store.old }
    ensures room { S.room store.new ≡ S.room store.old }
    ensures quiet { OnOk result (S.faults store.new ≡ S.faults store.old) }
{
    let Ok(guests) = guest_names(alloc, players) else {
        return Err(InputStop::NoMemory);
    };
    let orders = match read_orders(alloc, store, script, &guests) {
        Ok(orders) => orders,
        Err(stop) => return Err(stop),
    };
    match read_traces(alloc, store, players) {
        Ok(traces) => Ok(Inputs {
            guests,
            script: orders,
            traces,
        }),
        Err(stop) => Err(stop),
    }
}
