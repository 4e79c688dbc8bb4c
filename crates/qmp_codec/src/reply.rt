//! Answers to commands.

ghost use Rattle.std.specs.Prelude.{◌≡◌, ◌≤◌, Some, IfOk, false, option_map, codes};
ghost use Rattle.serde_json.specs.Data.{depth};
ghost use Rattle.serde_json.specs.Read.{read, max_depth};
ghost use Rattle.serde_json.specs.Written.{has_float, compact_text};
ghost use Rattle.serde_json.specs.View.{view};
ghost use Rattle.qmp_codec.specs.Replies.{class_text, returned_data, error_data, refused_data, reply_data};

use blk_base::{NoMemory, Text};
use serde_json::{Value, json};
use std::alloc::{AllocError, Global};

/// The class of a refusal.
#[derive(Clone, Copy)]
pub enum Class {
    GenericError,
    CommandNotFound,
    DeviceNotFound,
    DeviceNotActive,
}

impl Class {
    /// The class's name in a reply.
    pub fn name(self) -> &'static str
        ensures { result.now ≡ class_text self }
    {
        match self {
            Class::GenericError => "GenericError",
            Class::CommandNotFound => "CommandNotFound",
            Class::DeviceNotFound => "DeviceNotFound",
            Class::DeviceNotActive => "DeviceNotActive",
        }
    }
}

/// The answer to a command.
#[derive(Drop)]
pub enum Reply {
    /// The command was carried out, with this result.
    Return(Value),
    /// The command was refused, for a reason that `desc` gives in words.
    Error { class: Class, desc: Text },
}

fn returned(alloc: Global, id: Option<&Value>, value: &Value) -> Result<Value, AllocError>
    ensures { IfOk result
        (λ v. view v ≡ returned_data (option_map (λ w. view w.now) id.entry) (view value.now)) }
{
    match id {
        Some(id) => json!(in alloc; {"id": id, "return": value}),
        None => json!(in alloc; {"return": value}),
    }
}

fn error_value(alloc: Global, class: Class, desc: &str) -> Result<Value, AllocError>
    ensures { IfOk result (λ v. view v ≡ error_data class desc.now) }
{
    json!(in alloc; {"class": class.name(), "desc": desc})
}

fn refused(alloc: Global, id: Option<&Value>, class: Class, desc: &str) -> Result<Value, AllocError>
    ensures { IfOk result
        (λ v. view v ≡ refused_data (option_map (λ w. view w.now) id.entry) class desc.now) }
{
    let error = error_value(alloc, class, desc)?;
    match id {
        Some(id) => json!(in alloc; {"error": error, "id": id}),
        None => json!(in alloc; {"error": error}),
    }
}

fn built(alloc: Global, id: Option<&Value>, reply: &Reply) -> Result<Value, AllocError>
    ensures { IfOk result
        (λ v. view v ≡ reply_data (option_map (λ w. view w.now) id.entry) reply.now) }
{
    match reply {
        Reply::Return(value) => Ok(returned(alloc, id, value)?),
        Reply::Error { class, desc } => Ok(refused(alloc, id, *class, desc.as_str())?),
    }
}

/// The compact text of a value.
pub(crate) fn printed(alloc: Global, value: &Value) -> Result<Text, NoMemory>
    ensures text { IfOk result
        (λ t. has_float (view value.now) ≡ false → t.bytes ≡ compact_text (view value.now)) }
    ensures reads_back { IfOk result
        (λ t. depth (view value.now) ≤ max_depth → read t.bytes ≡ Some (view value.now)) }
{
    let text = value.to_string(alloc)?;
    Ok(Text::from_string(text))
}

/// The line of a reply, without an end of line: compact, members ascending. Where no number in it has a fraction or an
/// exponent, the text is given exactly. It reads back as the same value, up to 127 levels deep.
pub fn print_reply(alloc: Global, id: Option<&Value>, reply: &Reply) -> Result<Text, NoMemory>
    ensures text { IfOk result
        (λ t. has_float (reply_data (option_map (λ w. view w.now) id.entry) reply.now) ≡ false
        → t.bytes ≡ compact_text (reply_data (option_map (λ w. view w.now) id.entry) reply.now)) }
    ensures reads_back { IfOk result
        (λ t. depth (reply_data (option_map (λ w. view w.now) id.entry) reply.now) ≤ max_depth
        → read t.bytes ≡ Some (reply_data (option_map (λ w. view w.now) id.entry) reply.now)) }
{
    let value = built(alloc, id, reply)?;
    printed(alloc, &value)
}
