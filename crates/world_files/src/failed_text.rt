//! The text of the answer to a command of which a call failed. Its memory is had before that call, and its words come after it.
ghost use Rattle.std.specs.Prelude.{◌≡◌, ◌+◌, ◌^◌, ◌<◌, ◌≤◌, ◌++◌, Err, IfOk, length, codes, decimal, string_bytes};
ghost use Rattle.qmp_rules.specs.Refusals.{io_text};
ghost use Rattle.world_parts.specs.Counting.{IsNumbered};
ghost use Rattle.world_parts.specs.Saying.{EndsRefusals};

use blk_base::{DevNo, FaultFrom, NoMemory, Text};
use qmp_codec::read_id;
use std::alloc::Global;
use std::marker::Model;

/// How long the words are at most.
const WORDS: usize = 60;

/// What stands before the words of a refusal, with room for them, and what ends it.
#[derive(Drop)]
pub(crate) struct FailedText {
    front: Text,
    back: Text,
}

impl Model for FailedText {
    ghost use Rattle.std.specs.Prelude.{◌≡◌, ◌+◌, ◌≤◌, List, ℕ, length};
    ghost use Rattle.world_parts.specs.Saying.{refusal_front};

    ghost Value = { List ℕ };

    ghost view = { λ t. t.back.bytes };

    ghost invariant = { λ t. (t.front.bytes ≡ refusal_front)
        × (length t.back.bytes + 60 ≤ t.front.spare) };
}

/// Puts words and a number at the end of a text.
fn push_words(out: &mut Text, words: &str, number: u64)
    requires { length words.now + 20 ≤ out.old.spare }
    ensures bytes { out.new.bytes ≡ out.old.bytes ++ (words.now ++ decimal number) }
    ensures room { out.old.spare ≤ out.new.spare + length words.now + 20 }
{
    out.push_str(words);
    out.push_number(number);
}

/// Puts the words that name a fault of a device.
fn push_device(out: &mut Text, dev: DevNo, count: u64)
    requires { 47 ≤ out.old.spare }
    ensures bytes { out.new.bytes
        ≡ out.old.bytes ++ (codes "io dev" ++ decimal dev.0 ++ codes " " ++ decimal count) }
    ensures room { out.old.spare ≤ out.new.spare + 47 }
    ensures numbered { dev.0 < 2 ^ 32 }
{
    push_words(out, "io dev", u64::from(dev.0));
    push_words(out, " ", count);
}

/// Puts the words that name a fault.
fn push_fault(out: &mut Text, from: FaultFrom, count: u64)
    requires { 47 ≤ out.old.spare }
    ensures bytes { out.new.bytes ≡ out.old.bytes ++ io_text from count }
    ensures room { out.old.spare ≤ out.new.spare + 47 }
    ensures numbered { IsNumbered from }
{
    match from {
        FaultFrom::Store => push_words(out, "io store ", count),
        FaultFrom::Dev(dev) => push_device(out, dev, count),
        FaultFrom::Sink => push_words(out, "io sink ", count),
    }
}

/// What ends a refusal behind its words. The id is repeated where the line has one.
fn refusal_back(alloc: Global, given: &str) -> Result<String, NoMemory>
    ensures { IfOk result (λ back. EndsRefusals given.now (string_bytes back)) }
{
    match read_id(alloc, given)? {
        None => Ok(String::from_str(alloc, "\"}}")?),
        Some(id) => {
            let id = id.to_string(alloc)?;
            let mut back = String::from_str(alloc, "\"},\"id\":")?;
            back.push_str(id.as_str())?;
            back.push_str("}")?;
            Ok(back)
        }
    }
}

impl FailedText {
    ghost use Rattle.std.specs.Prelude.{List, ℕ};
    ghost use Rattle.qmp_rules.specs.declared.refusal.Refusal.{Refusal};
    ghost use Rattle.world_parts.specs.Saying.{IsSaid};

    /// The text with this end.
    fn ended(alloc: Global, back: Text) -> Result<Self, NoMemory>
        ensures { IfOk result (λ text. text ≡ back.bytes) }
    {
        let mut front = Text::copied(alloc, "{\"error\":{\"class\":\"GenericError\",\"desc\":\"")?;
        front.reserve(back.len() + WORDS)?;
        Ok(FailedText { front, back })
    }

    /// The text of the answer that a call failed, with the count of faults behind it. Takes no memory.
    pub(crate) fn with_fault(self, from: FaultFrom, count: u64) -> String
        ensures { (given : List ℕ) → EndsRefusals given self
            → IsSaid given (Err (Refusal.Io from count)) (string_bytes result) }
    {
        let FailedText { mut front, back } = self;
        push_fault(&mut front, from, count);
        front.push_str(back.as_str());
        front.into_string()
    }

    /// The text of the answer that a device had no space. Takes no memory.
    pub(crate) fn with_full(self, dev: DevNo) -> String
        ensures { (given : List ℕ) → EndsRefusals given self
            → IsSaid given (Err (Refusal.NoSpace dev)) (string_bytes result) }
    {
        let FailedText { mut front, back } = self;
        push_words(&mut front, "nospace dev", u64::from(dev.0));
        front.push_str(back.as_str());
        front.into_string()
    }
}

/// The text of the answer to a line that a call failed, but for its words.
pub(crate) fn failed_text(alloc: Global, given: &str) -> Result<FailedText, NoMemory>
    ensures { IfOk result (EndsRefusals given.now) }
{
    let back = refusal_back(alloc, given)?;
    FailedText::ended(alloc, Text::from_string(back))
}
