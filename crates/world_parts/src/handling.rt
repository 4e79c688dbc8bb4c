//! Refusals of commands that are not prepared.
ghost use Rattle.std.specs.Prelude.{IfOk, string_bytes};
ghost use Rattle.world_parts.specs.Handling.{SaysRefusal};

use crate::answering::refused_text;
use blk_base::NoMemory;
use qmp_rules::PrepareStop;
use std::alloc::Global;

/// The text of the refusal, where it isn't memory that is wanting.
pub fn refused(alloc: Global, given: &str, stop: PrepareStop) -> Result<String, NoMemory>
    ensures { IfOk result (λ text. SaysRefusal given.now stop (string_bytes text)) }
{
    match stop {
        PrepareStop::Refused(cause) => refused_text(alloc, given, &cause),
        PrepareStop::NoMemory => Err(NoMemory),
    }
}
