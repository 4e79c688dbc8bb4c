//! A run of a trace on one image, from its inputs to the transcript.
ghost use Rattle.std.specs.Prelude.{◌≡◌, ◌≤◌, List, ℕ, MatchResult, IfOk, IfErr, OnOk, OnErr, [], ◌∷◌, ◌++◌};
ghost use Rattle.blk_base.specs.Device.{opened_now};
ghost use Rattle.blk_base.specs.Files.{IfTold};
ghost use Rattle.blk_base.specs.Stored.{IsDeviceOf};
ghost use Rattle.blk_base.specs.declared.store.StoreCall.TheVariants as calls;
ghost use Rattle.qblk_inputs.specs.Reading.{NoneOut, OnFile, input_read};
ghost use Rattle.qblk_core.specs.Session.{IsTraceRead, IsShortRead, IsStoreStop, NamesStoreOn, IsOpenStop, AreRequestsMade, IsRunStop, EndsIoAs, io_ended_as, failed_as};
ghost use Rattle.blk_nodes.specs.Reading.{HasRisen};
ghost use Rattle.qblk_core.specs.Opened.{IsImageStatus};
ghost use Rattle.blk_history.specs.Transcript.{transcript};
ghost use Rattle.qblk_core.specs.Comes.{HaveLines};
ghost use Rattle.qblk_core.specs.Face.{SessionSeen};
ghost use Rattle.qblk_core.specs.ImageNodes.{seen_device};
ghost use Rattle.qblk_core.specs.Run.{guest_names, OnOpened, AnswersIo, StoreStands, CallStands, TellsFaults};

use crate::closing::device_of;
use crate::engine::Engine;
use crate::input::{Prepared, TraceRead, judge, refused};
use crate::opening::{DEVICE, OpenStop, open_nodes};
use crate::output::send_transcript;
use crate::requests::run_requests;
use crate::status::{InputWhy, Status};
use blk_base::{Device, FaultAt, FaultFrom, Sink, Store, StoreStop, Text};
use blk_history::{History, Rows};
use qblk_inputs::MAX_TEXT;
use qblk_words::Format;
use std::alloc::Global;

/// The history of a run, what its transcript is written with, and the fault of the last flush.
struct Made {
    history: History,
    names: Rows,
    line: Text,
    fault: Option<FaultAt>,
}

/// The fault of a store's call that failed.
fn store_fault<S: Store>(store: &S) -> Status
    ensures { result ≡ Status.Fault FaultFrom.Store (S.faults store.now) }
{
    Status::Fault {
        from: FaultFrom::Store,
        count: store.faults(),
    }
}

/// Reads the file of a trace, where it isn't too long.
fn read_trace_file<S: Store>(store: &mut S, name: &str) -> Result<TraceRead, Status>
    requires { NoneOut (S.opened store.old) }
    ensures read { IfOk result (λ read. IfTold (S.files store.old) (IsTraceRead name.now read)) }
    ensures short { IfOk result IsShortRead }
    ensures stop { IfErr result (IsStoreStop (S.faults store.old) (S.faults store.new)) }
    ensures file { IfErr result
        (NamesStoreOn input_read (OnFile (S.files store.old) name.now)
        (S.failed_call store.new)) }
    ensures files { S.files store.new ≡ S.files store.old }
    ensures opened { S.opened store.new ≡ S.opened store.old }
    ensures quiet { OnOk result (S.faults store.new ≡ S.faults store.old) }
    ensures stands { IfErr result
        (λ status. StoreStands status (S.faults store.old) (S.faults store.new)) }
    ensures last { OnOk result (S.failed_call store.new ≡ S.failed_call store.old) }
    ensures call { IfErr result
        (λ status. CallStands status (S.failed_call store.old) (S.failed_call store.new)) }
{
    match store.read_all(name, MAX_TEXT) {
        Ok(bytes) => Ok(TraceRead::Whole(bytes)),
        Err(StoreStop::Absent) => Ok(TraceRead::Absent),
        Err(StoreStop::TooLong) => Ok(TraceRead::TooLong),
        Err(StoreStop::Failed) => Err(store_fault(store)),
        Err(StoreStop::NoMemory) => Err(Status::NoMemory),
        Err(StoreStop::InUse) => unreachable!(),
    }
}

/// Opens the image.
fn open_image<S: Store>(alloc: Global, store: &mut S, name: &str) -> Result<S::Dev, Status>
    requires { NoneOut (S.opened store.old) }
    ensures device { IfOk result
        (λ dev. IsDeviceOf (S.files store.old) name.now (S.Dev.content dev) (S.Dev.capacity dev)
        (S.Dev.is_flushed dev)) }
    ensures opened { MatchResult result
        (λ dev. S.opened store.new ≡ S.opened store.old
        ++ opened_now S.Dev.Device name.now dev ∷ [])
        (λ _. S.opened store.new ≡ S.opened store.old) }
    ensures stop { IfErr result
        (IsOpenStop name.now (S.files store.old) (S.faults store.old) (S.faults store.new)) }
    ensures file { IfErr result
        (NamesStoreOn calls.Open (OnOpened (S.files store.old) name.now)
        (S.failed_call store.new)) }
    ensures files { S.files store.new ≡ S.files store.old }
    ensures quiet { OnOk result (S.faults store.new ≡ S.faults store.old) }
    ensures stands { IfErr result
        (λ status. StoreStands status (S.faults store.old) (S.faults store.new)) }
    ensures last { OnOk result (S.failed_call store.new ≡ S.failed_call store.old) }
    ensures call { IfErr result
        (λ status. CallStands status (S.failed_call store.old) (S.failed_call store.new)) }
{
    match store.open_file(name) {
        Ok(device) => Ok(device),
        Err(StoreStop::Absent) => Err(refused(alloc, name, 0, InputWhy::Absent)),
        Err(StoreStop::Failed) => Err(store_fault(store)),
        Err(StoreStop::NoMemory) => Err(Status::NoMemory),
        Err(StoreStop::InUse | StoreStop::TooLong) => unreachable!(),
    }
}

/// The status of an image that isn't opened.
fn image_status(alloc: Global, image: &str, stop: OpenStop) -> Status
    ensures { IsImageStatus image.now stop result }
{
    match stop {
        OpenStop::Refused(why) => refused(alloc, image, 0, why),
        OpenStop::Io { count } => Status::Fault {
            from: FaultFrom::Dev(DEVICE),
            count,
        },
        OpenStop::NoMemory => Status::NoMemory,
    }
}

/// Makes the requests of a trace on an image, and flushes it. A refused input leaves what the device holds.
fn make_run<D: Device>(
    alloc: Global,
    format: Format,
    image: &str,
    trace: &str,
    read: TraceRead,
    device: D,
) -> (Result<Made, Status>, D)
    requires { IsShortRead read }
    ensures made { IfOk result.0
        (λ made. (bytes : List ℕ) × (w : SessionSeen) × (read ≡ TraceRead.Whole bytes)
        × AreRequestsMade format bytes (seen_device D.Device device)
        (seen_device D.Device result.1) w made.fault
        × (made.history ≡ w.log) × (made.names ≡ guest_names) × (made.line.bytes ≡ [])
        × (393476 ≤ made.line.spare)) }
    ensures stop { IfErr result.0 (IsRunStop format image.now trace.now read
        (seen_device D.Device device) (seen_device D.Device result.1)) }
    ensures kept { OnErr result.0
        (HasRisen (seen_device D.Device device) (seen_device D.Device result.1)) }
{
    let (nodes, node) = match open_nodes(alloc, format, device) {
        Ok(opened) => opened,
        Err((stop, device)) => return (Err(image_status(alloc, image, stop)), device),
    };
    let Prepared {
        ops,
        history,
        buffer,
        names,
        line,
    } = match judge(alloc, trace, read) {
        Ok(prepared) => prepared,
        Err(status) => return (Err(status), device_of(nodes)),
    };
    let mut engine = Engine::new(nodes, node, history, buffer);
    run_requests(&mut engine, ops);
    let (device, history, fault) = engine.finish();
    let made = Made {
        history,
        names,
        line,
        fault,
    };
    (Ok(made), device)
}

/// Puts the transcript, and tells how the run ended: by its first fault, where one came.
fn write_out<K: Sink>(made: Made, out: &mut K) -> Status
    requires lines { HaveLines made.history.events }
    requires named { made.names ≡ guest_names }
    requires empty { made.line.bytes ≡ [] }
    requires room { 393476 ≤ made.line.spare }
    ensures { EndsIoAs made.fault (K.sent out.old) (K.sent out.new)
        (transcript guest_names made.history.events) (K.faults out.old) (K.faults out.new) result }
{
    let Made {
        history,
        names,
        mut line,
        fault,
    } = made;
    match send_transcript(&history, &names, &mut line, out) {
        Ok(()) => ended(fault),
        Err(_) => failed(fault, out.faults()),
    }
}

/// How a run ended whose transcript is out.
fn ended(fault: Option<FaultAt>) -> Status
    ensures { result ≡ io_ended_as fault }
{
    match fault {
        None => Status::Done,
        Some(FaultAt { from, count }) => Status::Fault { from, count },
    }
}

/// How a run ended at which a put failed.
fn failed(fault: Option<FaultAt>, count: u64) -> Status
    ensures { result ≡ failed_as fault count }
{
    match fault {
        None => Status::Fault {
            from: FaultFrom::Sink,
            count,
        },
        Some(FaultAt { from, count }) => Status::Fault { from, count },
    }
}

/// Runs a trace on an image: reads the trace, opens the image, makes the requests, flushes and gives the image back, and
/// puts the transcript.
pub(crate) fn run_on<S: Store, K: Sink>(
    alloc: Global,
    format: Format,
    image: &str,
    trace: &str,
    store: &mut S,
    out: &mut K,
) -> Status
    requires { NoneOut (S.opened store.old) }
    ensures ended { AnswersIo format image.now trace.now
        (record {
          files = S.files store.old;
          opened = S.opened store.old;
          store_faults = S.faults store.old;
          failed_call = S.failed_call store.old;
          sent = K.sent out.old;
          sink_faults = K.faults out.old;
        })
        (record {
          files = S.files store.new;
          opened = S.opened store.new;
          store_faults = S.faults store.new;
          failed_call = S.failed_call store.new;
          sent = K.sent out.new;
          sink_faults = K.faults out.new;
        })
        result }
    ensures faults { TellsFaults
        (record {
          files = S.files store.old;
          opened = S.opened store.old;
          store_faults = S.faults store.old;
          failed_call = S.failed_call store.old;
          sent = K.sent out.old;
          sink_faults = K.faults out.old;
        })
        (record {
          files = S.files store.new;
          opened = S.opened store.new;
          store_faults = S.faults store.new;
          failed_call = S.failed_call store.new;
          sent = K.sent out.new;
          sink_faults = K.faults out.new;
        })
        result }
    ensures back { NoneOut (S.opened store.new) }
{
    let read = match read_trace_file(store, trace) {
        Ok(read) => read,
        Err(status) => return status,
    };
    let device = match open_image(alloc, store, image) {
        Ok(device) => device,
        Err(status) => return status,
    };
    let (made, device) = make_run(alloc, format, image, trace, read, device);
    store.give_back(image, device);
    match made {
        Ok(made) => write_out(made, out),
        Err(status) => status,
    }
}
