//! The query of what is dirty, over a world.
ghost use Rattle.std.specs.Prelude.{◌≡◌, true, IfOk, OnErr, string_bytes};
ghost use Rattle.qmp_codec.specs.Commands.{seen_command};
ghost use Rattle.world_parts.specs.Carrying.{IsCarriedAs, IsPutBackBy, prints_counts};

use crate::world::World;
use blk_base::{NoMemory, Store};
use qmp_codec::Command;
use std::alloc::Global;
use world_changes::answer_counts;

impl<S: Store> World<S> {
    /// Answers the query that prints what is dirty, or refuses it. Gives the text of the answer, which isn't noted yet.
    pub(crate) fn carry_counts(
        &mut self,
        alloc: Global,
        given: &str,
        command: &Command,
    ) -> Result<String, NoMemory>
        requires { prints_counts (seen_command command.now) ≡ true }
        ensures carried { IfOk result (λ text. IsCarriedAs self.old self.new given.now
            (seen_command command.now) (string_bytes text)) }
        ensures back { OnErr result (IsPutBackBy self.old self.new (seen_command command.now)) }
    {
        answer_counts(alloc, &mut self.names, &self.bitmaps, given, command)
    }
}
