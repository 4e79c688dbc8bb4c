//! Room for the transcript.
ghost use Rattle.std.specs.Prelude.{◌≡◌, ◌+◌, ◌<◌, ◌≤◌, ℕ, List, [], length, slice_get, get_or, IfOk, IfSome, Some};
ghost use Rattle.blk_base.specs.Written.{memory_of};
ghost use Rattle.qblk_core.specs.Output.{AllLinesFit};
ghost use Rattle.blk_history.specs.Names.{JobLine};
ghost use Rattle.qblk_run.specs.Tasks.{CanPrint};
ghost use Rattle.qblk_run.specs.Sending.{RepliesFit, NamesFit};

use blk_base::{Names1, NoMemory, Text};
use blk_history::History;
use qblk_core::CHUNK;
use std::alloc::Global;

/// How many bytes a line has at most beside names of guests and texts, with the runs of a block, or the id of a job.
const LINE: usize = 256 + 5 * 65536;

/// The greatest length of a reply's text.
fn longest_reply(history: &History) -> usize
    ensures { RepliesFit result history.now.events }
{
    let mut longest = 0;
    for at in 0..history.len() {
        if let Some(text) = history.reply_at(at) {
            longest = text.len().max(longest);
        }
    }
    longest
}

/// The greatest length of a name.
fn longest_name(names: &Names1) -> usize
    ensures { NamesFit result names.now }
{
    let mut longest = 0;
    for place in 0..names.len() {
        longest = names.name_at(place).len().max(longest);
    }
    longest
}

/// Room for a line with a text and a name of such lengths, behind what goes out at once.
fn room_of(text: usize, name: usize) -> Option<usize>
    ensures { IfSome result (λ room. ((65536 + 327936) + text) + name ≤ room) }
{
    text.checked_add(name)?.checked_add(CHUNK + LINE)
}

/// A text with room for each line of a history, whatever jobs it has that can be printed.
pub(crate) fn text_for(alloc: Global, history: &History, names: &Names1) -> Result<Text, NoMemory>
    ensures empty { IfOk result (λ text. text.bytes ≡ []) }
    ensures fits { IfOk result (λ text. (jobs : List JobLine)
        → CanPrint (record { guests = names.now; jobs = jobs }) history.now.events
        → AllLinesFit (record { guests = names.now; jobs = jobs }) (memory_of text)
        history.now.events) }
{
    let Some(room) = room_of(longest_reply(history), longest_name(names)) else {
        return Err(NoMemory);
    };
    Text::with_room(alloc, room)
}
