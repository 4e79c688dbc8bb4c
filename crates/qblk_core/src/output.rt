//! The transcript goes out.
ghost use Rattle.std.specs.Prelude.{◌≡◌, ◌<◌, ◌≤◌, ◌++◌, [], length, OnOk, OnErr, option_map};
ghost use Rattle.blk_history.specs.Line.{At};
ghost use Rattle.blk_history.specs.Transcript.{entry_line, transcript};
ghost use Rattle.blk_base.specs.Written.{memory_of};
ghost use Rattle.qblk_core.specs.Output.{AllLinesFit, SendsPart, SendsFront};

use blk_base::{Sink, SinkFault, Text};
use blk_history::{History, Rows};

/// How many bytes of the transcript are put at once, at least.
pub const CHUNK: usize = 65536;

/// Puts what the text holds, and empties it.
fn send<K: Sink>(line: &mut Text, out: &mut K) -> Result<(), SinkFault>
    ensures sent { OnOk result
        (K.sent out.new ≡ option_map (λ s. s ++ line.old.bytes) (K.sent out.old)) }
    ensures empty { OnOk result (line.new.bytes ≡ []) }
    ensures memory { OnOk result (memory_of line.new ≡ memory_of line.old) }
    ensures quiet { OnOk result (K.faults out.new ≡ K.faults out.old) }
    ensures failed { OnErr result
        (SendsFront (K.sent out.old) (K.sent out.new) line.old.bytes (K.faults out.old)
        (K.faults out.new)) }
    ensures faults { K.faults out.old ≤ K.faults out.new }
{
    match out.put(line.as_str().as_bytes()) {
        Ok(()) => {
            line.clear();
            Ok(())
        }
        Err(fault) => Err(fault),
    }
}

/// Writes the line of the entry at a place, and puts what the text holds where that is much.
fn send_line<K: Sink>(
    history: &History,
    at: u64,
    names: &Rows,
    line: &mut Text,
    out: &mut K,
) -> Result<(), SinkFault>
    requires within { at < length history.now.events }
    requires lines { AllLinesFit names.now (memory_of line.old) history.now.events }
    requires short { length line.old.bytes < 65536 }
    ensures quiet { OnOk result (K.faults out.new ≡ K.faults out.old) }
    ensures ok { At history.now.events at (λ e. OnOk result
        (SendsPart (memory_of line.old) (K.sent out.old) (K.sent out.new)
        (line.old.bytes ++ entry_line names.now e) line.new)) }
    ensures failed { At history.now.events at (λ e. OnErr result
        (SendsFront (K.sent out.old) (K.sent out.new) (line.old.bytes ++ entry_line names.now e)
        (K.faults out.old) (K.faults out.new))) }
    ensures faults { K.faults out.old ≤ K.faults out.new }
{
    history.line(at, names, line).unwrap();
    if line.len() < CHUNK {
        return Ok(());
    }
    send(line, out)
}

/// Writes all lines of a history, and puts them. The text comes empty, with room for 64 KiB and the longest line, so that no
/// memory is taken. Where a put fails, a beginning of the transcript went out.
pub fn send_transcript<K: Sink>(
    history: &History,
    names: &Rows,
    line: &mut Text,
    out: &mut K,
) -> Result<(), SinkFault>
    requires lines { AllLinesFit names.now (memory_of line.old) history.now.events }
    requires empty { line.old.bytes ≡ [] }
    ensures quiet { OnOk result (K.faults out.new ≡ K.faults out.old) }
    ensures ok { OnOk result (K.sent out.new
        ≡ option_map (λ s. s ++ transcript names.now history.now.events) (K.sent out.old)) }
    ensures failed { OnErr result (SendsFront (K.sent out.old) (K.sent out.new)
        (transcript names.now history.now.events) (K.faults out.old) (K.faults out.new)) }
    ensures faults { K.faults out.old ≤ K.faults out.new }
{
    for at in 0..history.len() {
        if let Err(fault) = send_line(history, at, names, line, out) {
            return Err(fault);
        }
    }
    if line.is_empty() {
        return Ok(());
    }
    send(line, out)
}
