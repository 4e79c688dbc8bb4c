//! Lines as they are read, and the answers to those that are no commands.
ghost use Rattle.std.specs.Prelude.{◌≡◌, Err, IfOk, string_bytes};
ghost use Rattle.serde_json.specs.Data.{object, no_members};
ghost use Rattle.serde_json.specs.View.{view};
ghost use Rattle.qmp_codec.specs.Lines.{asks_for_capabilities, command_at, seen_stop};
ghost use Rattle.qmp_rules.specs.Answers.{line_answer, line_refusal, out_of_turn, told_none};
ghost use Rattle.qmp_rules.specs.Refusals.{or_else};
ghost use Rattle.world_parts.specs.Saying.{IsSaid};
ghost use Rattle.world_lines.specs.Lines.{command_or_stop};

use blk_base::NoMemory;
use qmp_asks::Name;
use qmp_codec::{CodecStop, Command, asks_for_capabilities, read_command};
use qmp_rules::{Names, Refusal};
use serde_json::{Value, json};
use std::alloc::Global;
use world_parts::{given_text, refused_text};

/// A line as it is read: a command, or why it is none.
#[derive(Drop)]
pub enum LineRead {
    Command(Command),
    Stop(CodecStop),
}

/// Reads a line.
pub fn read_line(alloc: Global, given: &str) -> Result<LineRead, NoMemory>
    ensures { IfOk result (λ line. command_at given.now ≡ command_or_stop line) }
{
    match read_command(alloc, given) {
        Ok(command) => Ok(LineRead::Command(command)),
        Err(CodecStop::NoMemory) => Err(NoMemory),
        Err(stop) => Ok(LineRead::Stop(stop)),
    }
}

/// Refuses what comes before capabilities are negotiated, and what asks for them once more.
fn out_of_turn(asks: bool, negotiated: bool) -> Option<Refusal>
    ensures { result ≡ out_of_turn asks negotiated }
{
    if asks == negotiated {
        Some(Refusal::Negotiation { again: asks })
    } else {
        None
    }
}

/// Refuses a line that is out of turn, and else for this, if anything.
#[tactic(auto, using(qmp_rules::proofs::JudgeLemmas::else_some, qmp_rules::proofs::JudgeLemmas::else_none))]
fn or_out_of_turn(
    alloc: Global,
    names: &Names,
    given: &str,
    later: Option<Refusal>,
) -> Result<Option<Refusal>, NoMemory>
    ensures { IfOk result (λ found. found ≡ or_else
        (out_of_turn (asks_for_capabilities given.now) names.now.table.negotiated) later) }
{
    let asks = asks_for_capabilities(alloc, given)?;
    let found = out_of_turn(asks, names.is_negotiated());
    if found.is_some() {
        return Ok(found);
    }
    Ok(later)
}

/// Why a line is refused that can't be read as a command.
#[tactic(auto, unfolding(qmp_rules::specs::Answers::line_refusal))]
fn line_refusal(
    alloc: Global,
    names: &Names,
    given: &str,
    stop: CodecStop,
) -> Result<Option<Refusal>, NoMemory>
    ensures { IfOk result
        (λ found. found ≡ line_refusal names.now.table given.now (seen_stop stop)) }
{
    match stop {
        CodecStop::BadJson => Ok(Some(Refusal::BadJson)),
        CodecStop::UnknownCommand(name) => Ok(Some(Refusal::UnknownCommand(Name::from_string(
            name,
        )))),
        CodecStop::Missing(name) => {
            let later = Some(Refusal::Missing(Name::from_string(name)));
            or_out_of_turn(alloc, names, given, later)
        }
        CodecStop::Unexpected(name) => {
            let later = Some(Refusal::Unexpected(Name::from_string(name)));
            or_out_of_turn(alloc, names, given, later)
        }
        CodecStop::BadType(name) => {
            let later = Some(Refusal::BadType(Name::from_string(name)));
            or_out_of_turn(alloc, names, given, later)
        }
        CodecStop::NoMemory => or_out_of_turn(alloc, names, given, None),
    }
}

/// What an accepted line gives: nothing.
fn nothing(alloc: Global) -> Result<Value, NoMemory>
    ensures { IfOk result (λ value. view value ≡ object no_members) }
{
    Ok(json!(in alloc; {})?)
}

/// The text of the answer to a line that can't be read as a command.
pub fn stopped_text(
    alloc: Global,
    names: &Names,
    given: &str,
    stop: CodecStop,
) -> Result<String, NoMemory>
    requires { command_at given.now ≡ Err (seen_stop stop) }
    ensures { IfOk result (λ text. IsSaid given.now
        (line_answer names.now.table told_none given.now).reply (string_bytes text)) }
{
    match line_refusal(alloc, names, given, stop)? {
        Some(cause) => refused_text(alloc, given, &cause),
        None => given_text(alloc, given, nothing(alloc)?),
    }
}
