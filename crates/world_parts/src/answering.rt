//! The texts of answers to lines.
ghost use Rattle.std.specs.Prelude.{◌≡◌, Ok, Err, IfOk, option_map, string_bytes};
ghost use Rattle.serde_json.specs.View.{view};
ghost use Rattle.qmp_codec.specs.Commands.{seen_command};
ghost use Rattle.qmp_rules.specs.Answers.{returned};
ghost use Rattle.world_parts.specs.Saying.{IsPrintable, IsSaid};

use blk_base::{NoMemory, Text};
use qmp_codec::{Command, Reply, print_reply, read_id};
use qmp_rules::{Names, Refusal, Told};
use serde_json::Value;
use std::alloc::Global;

/// The text of an answer that gives a value.
pub fn given_text(alloc: Global, given: &str, value: Value) -> Result<String, NoMemory>
    requires { IsPrintable 126 (view value) }
    ensures { IfOk result (λ text. IsSaid given.now (Ok (view value)) (string_bytes text)) }
{
    let id = read_id(alloc, given)?;
    let text = print_reply(alloc, id.as_ref(), &Reply::Return(value))?;
    Ok(text.into_string())
}

/// The text of the answer to a command that is accepted.
#[tactic(auto, using(crate::proofs::CarryTexts::returned_plain))]
pub fn accepted_text(
    alloc: Global,
    names: &Names,
    given: &str,
    told: &Told,
    command: &Command,
) -> Result<String, NoMemory>
    ensures { IfOk result (λ text. IsSaid given.now
        (Ok (returned names.now.table told.now (seen_command command.now))) (string_bytes text)) }
{
    let value = names.returned(alloc, told, command)?;
    given_text(alloc, given, value)
}

/// The text of the answer to a line that is refused.
pub fn refused_text(alloc: Global, given: &str, cause: &Refusal) -> Result<String, NoMemory>
    ensures { IfOk result (λ text. IsSaid given.now (Err cause.now) (string_bytes text)) }
{
    let id = read_id(alloc, given)?;
    let desc = Text::from_string(cause.text(alloc)?);
    let refused = Reply::Error {
        class: cause.class(),
        desc,
    };
    let text = print_reply(alloc, id.as_ref(), &refused)?;
    Ok(text.into_string())
}
