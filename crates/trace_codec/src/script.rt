//! Reading a script.

ghost use Rattle.std.specs.Prelude.{◌≡◌, ◌⊎◌, ◌<◌, ◌≤◌, ◌^◌, [], ◌∷◌, ◌++◌, length, map, IfOk, IfErr, IfSome, OnOk, option_map};
ghost use Rattle.std.specs.Prelude.{◌==◌, ◌&&◌, nat_lt, MatchOption};
ghost use Rattle.std.specs.List.{position_or_len, before_first, after_first};
ghost use Rattle.std.specs.Option.{option_copied};
ghost use Rattle.trace_codec.specs.Cut.{parts_of};
ghost use Rattle.trace_codec.specs.Trace.{lines_of};
ghost use Rattle.trace_codec.specs.Script.{seen_order, is_passed, order_in, with_order, orders_of, is_line, count_of_lines};

use crate::awaiting::read_await;
use crate::order::Order;
use blk_base::{Names1, NoMemory, Text};
use std::alloc::Global;
use std::collections::VecDeque;

/// How many lines a script may have.
pub const MAX_LINES: u32 = 4096;

/// Why a script isn't read.
#[derive(Clone, Copy, Debug, PartialEq, Eq)]
pub enum ScriptStop {
    /// It has more lines than a run takes.
    TooMany,
    NoMemory,
}

/// The lines of a script that aren't passed over, in order; an await is of one of these guests. A script has at most 4,096
/// lines, of which the last may lack its line feed.
#[tactic(auto, unfolding(crate::specs::Script::orders_of))]
pub fn read_script(
    alloc: Global,
    text: &str,
    guests: &Names1,
) -> Result<VecDeque<Order>, ScriptStop>
    requires { length guests.now < 2 ^ 32 }
    ensures few { OnOk result (count_of_lines (lines_of text.now) ≤ 4096) }
    ensures orders { IfOk result (λ script.
        map seen_order script.items ≡ orders_of guests.now text.now) }
    ensures stop { IfErr result (λ stop. (stop ≡ ScriptStop.NoMemory)
        ⊎ ((stop ≡ ScriptStop.TooMany) × (4096 < count_of_lines (lines_of text.now)))) }
{
    let mut script = VecDeque::new(alloc);
    let mut number = 1u32;
    let mut rest = Some(text);
    while let Some(lines) = rest {
        let (line, after) = cut_line(lines);
        if is_too_many(number, line, after) {
            return Err(ScriptStop::TooMany);
        }
        let Ok(()) = take_line(alloc, number, line, guests, &mut script) else {
            return Err(ScriptStop::NoMemory);
        };
        number = number.saturating_add(1);
        rest = after;
    }
    Ok(script)
}

/// The parts of a text at its first line feed, where it has one.
fn cut_first(text: &str) -> Option<(&str, &str)>
    ensures { MatchOption result (position_or_len (λ b. b == 10) text.now ≡ length text.now)
        (λ p. (position_or_len (λ b. b == 10) text.now < length text.now)
        × (p.0.now ≡ before_first (λ b. b == 10) text.now)
        × (p.1.now ≡ after_first (λ b. b == 10) text.now)) }
{
    text.split_once('\n')
}

/// The line before the first line feed, and what stands behind that, where there is one.
fn cut_line(text: &str) -> (&str, Option<&str>)
    ensures parts { lines_of text.now ≡ result.0.now ∷ parts_of 10 (option_copied result.1) }
    ensures fewer { IfSome result.1 (λ rest. length rest.now < length text.now) }
{
    match cut_first(text) {
        Some((line, rest)) => (line, Some(rest)),
        None => (text, None),
    }
}

/// Whether a part of a text is a line of a number that is too high. The last part is none, where it is empty.
fn is_too_many(number: u32, line: &str, after: Option<&str>) -> bool
    ensures { result ≡ (nat_lt 4096 number && is_line line.now (option_copied after.entry)) }
{
    number > MAX_LINES && (after.is_some() || !line.is_empty())
}

/// Puts what a line says at the end, where it isn't passed over.
fn take_line(
    alloc: Global,
    number: u32,
    line: &str,
    guests: &Names1,
    script: &mut VecDeque<Order>,
) -> Result<(), NoMemory>
    requires { length guests.now < 2 ^ 32 }
    ensures { OnOk result (map seen_order script.new.items
        ≡ map seen_order script.old.items ++ with_order (order_in guests.now number line.now) []) }
{
    if let Some(order) = read_line(alloc, number, line, guests)? {
        script.push_back(order)?;
    }
    Ok(())
}

/// What a line says, where it isn't passed over.
fn read_line(
    alloc: Global,
    number: u32,
    line: &str,
    guests: &Names1,
) -> Result<Option<Order>, NoMemory>
    requires { length guests.now < 2 ^ 32 }
    ensures { IfOk result (λ found.
        option_map seen_order found ≡ order_in guests.now number line.now) }
{
    if is_passed(line) {
        return Ok(None);
    }
    match read_await(alloc, line, guests)? {
        Some(what) => Ok(Some(Order::Watch(number, what))),
        None => Ok(Some(Order::Give(number, Text::copied(alloc, line)?))),
    }
}

/// Whether a line is empty or a comment.
fn is_passed(line: &str) -> bool
    ensures { result ≡ is_passed line.now }
{
    let bytes = line.as_bytes();
    bytes.is_empty() || bytes[0] == b'#'
}
