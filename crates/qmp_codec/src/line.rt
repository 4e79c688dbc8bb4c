//! Reading a line.

ghost use Rattle.std.specs.Prelude.{◌≡◌, ◌⊎◌, Ok, Err, Some, None, IfOk, OnOk, IfErr, codes, option_map, option_and_then, string_bytes};
ghost use Rattle.serde_json.specs.View.{view};
ghost use Rattle.serde_json.specs.Find.{get};
ghost use Rattle.qmp_codec.specs.Verbs.{verb_of};
ghost use Rattle.qmp_codec.specs.Forms.{text_in};
ghost use Rattle.qmp_codec.specs.Commands.{seen_command};
ghost use Rattle.qmp_codec.specs.Lines.{seen_stop, line_in, arguments_of, cause_in, command_at, command_for, unless_fraction, id_at, asks_for_capabilities};

use crate::command::{Command, read_verb};
use crate::fields::maybe_str;
use crate::form::{Form, text_of};
use crate::stop::CodecStop;
use crate::unknown::object_unknown;
use crate::verb::named_verb;
use crate::walk::{Search, has_fraction, object_fault};
use blk_base::NoMemory;
use serde_json::{Category, Value};
use std::alloc::{AllocError, Global};

/// How many tables lie in one another: a line, its arguments, an action, its data, a bitmap.
const DEPTH: u8 = 5;

/// The object of a line, where it is one with a text `execute`.
#[tactic(auto, unfolding(crate::specs::Lines::line_in))]
fn read_line(alloc: Global, line: &str) -> Result<Option<Value>, AllocError>
    ensures { IfOk result (λ o. option_map view o ≡ line_in line.now) }
{
    match Value::from_str(alloc, line) {
        Ok(value) => match maybe_str(&value, "execute") {
            Some(_) => Ok(Some(value)),
            None => Ok(None),
        },
        Err(error) => match error.classify() {
            Category::Memory => Err(AllocError),
            _ => Ok(None),
        },
    }
}

fn copied(alloc: Global, name: &str) -> Result<String, AllocError>
    ensures { IfOk result (λ s. string_bytes s ≡ name.now) }
{
    String::from_str(alloc, name)
}

/// Refuses a line whose members the tables don't accept. No arguments are like empty ones.
#[tactic(auto, unfolding(crate::specs::Lines::cause_in))]
fn check(alloc: Global, line: &Value, arguments: &Value) -> Result<(), CodecStop>
    requires { view arguments.now ≡ arguments_of (view line.now) }
    ensures ok { OnOk result (cause_in (view line.now) ≡ None) }
    ensures refused { IfErr result
        (λ stop. (stop ≡ CodecStop.NoMemory) ⊎ (cause_in (view line.now) ≡ Some (seen_stop stop))) }
{
    if let Some(name) = object_fault(Search::Missing, DEPTH - 1, Form::Arguments, line, arguments) {
        return Err(CodecStop::Missing(copied(alloc, name)?));
    }
    let nothing = Value::Null;
    if let Some(name) = object_unknown(DEPTH, Form::Line, &nothing, line) {
        return Err(CodecStop::Unexpected(copied(alloc, name)?));
    }
    if let Some(name) = object_fault(Search::Mistyped, DEPTH, Form::Line, &nothing, line) {
        return Err(CodecStop::BadType(copied(alloc, name)?));
    }
    Ok(())
}

/// The command of a line with these arguments.
fn read_named(alloc: Global, line: &Value, arguments: &Value) -> Result<Command, CodecStop>
    requires { view arguments.now ≡ arguments_of (view line.now) }
    ensures ok { IfOk result
        (λ c. command_for (verb_of (text_in (codes "execute") (view line.now))) (view line.now)
        ≡ Ok (seen_command c)) }
    ensures refused { IfErr result (λ stop. (stop ≡ CodecStop.NoMemory)
        ⊎ (command_for (verb_of (text_in (codes "execute") (view line.now))) (view line.now)
        ≡ Err (seen_stop stop))) }
{
    let name = text_of(line, "execute");
    let Some(verb) = named_verb(name) else {
        return Err(CodecStop::UnknownCommand(copied(alloc, name)?));
    };
    check(alloc, line, arguments)?;
    Ok(read_verb(alloc, verb, arguments)?)
}

/// The command of an object with a text `execute`.
fn read_object(alloc: Global, line: &Value) -> Result<Command, CodecStop>
    ensures ok { IfOk result
        (λ c. command_for (verb_of (text_in (codes "execute") (view line.now))) (view line.now)
        ≡ Ok (seen_command c)) }
    ensures refused { IfErr result (λ stop. (stop ≡ CodecStop.NoMemory)
        ⊎ (command_for (verb_of (text_in (codes "execute") (view line.now))) (view line.now)
        ≡ Err (seen_stop stop))) }
{
    let nothing = Value::Null;
    match line.get("arguments") {
        Some(arguments) => Ok(read_named(alloc, line, arguments)?),
        None => Ok(read_named(alloc, line, &nothing)?),
    }
}

/// Reads a line as a command. Bounds on values are not looked at; what the tables of members say is.
#[tactic(auto, unfolding(crate::specs::Lines::command_at))]
pub fn read_command(alloc: Global, line: &str) -> Result<Command, CodecStop>
    ensures ok { IfOk result (λ c. command_at line.now ≡ Ok (seen_command c)) }
    ensures refused { IfErr result
        (λ stop. (stop ≡ CodecStop.NoMemory) ⊎ (command_at line.now ≡ Err (seen_stop stop))) }
{
    let Some(object) = read_line(alloc, line)? else {
        return Err(CodecStop::BadJson);
    };
    Ok(read_object(alloc, &object)?)
}

fn id_of(object: &Value) -> Result<Option<Value>, AllocError>
    ensures { IfOk result
        (λ o. option_map view o
        ≡ option_and_then unless_fraction (get (codes "id") (view object.now))) }
{
    match object.get("id") {
        Some(id) if !has_fraction(id) => Ok(Some(id.clone()?)),
        _ => Ok(None),
    }
}

/// The id that the answer to a line repeats, whether the line is accepted or not: none where the line is no JSON object
/// with a text `execute`, and none that holds a number with a fraction or an exponent.
#[tactic(auto, unfolding(crate::specs::Lines::id_at))]
pub fn read_id(alloc: Global, line: &str) -> Result<Option<Value>, NoMemory>
    ensures { IfOk result (λ o. option_map view o ≡ id_at line.now) }
{
    match read_line(alloc, line)? {
        Some(object) => Ok(id_of(&object)?),
        None => Ok(None),
    }
}

/// Whether a line asks for capabilities, be its members accepted or not.
#[tactic(auto, unfolding(crate::specs::Lines::asks_for_capabilities))]
pub fn asks_for_capabilities(alloc: Global, line: &str) -> Result<bool, NoMemory>
    ensures { IfOk result (λ asks. asks ≡ asks_for_capabilities line.now) }
{
    match read_line(alloc, line)? {
        Some(object) => Ok(text_of(&object, "execute") == "qmp_capabilities"),
        None => Ok(false),
    }
}
