//! Files and images that a world makes.
ghost use Rattle.std.specs.Prelude.{◌≡◌, true, IfOk, OnErr, string_bytes};
ghost use Rattle.qmp_codec.specs.Commands.{seen_command};
ghost use Rattle.world_parts.specs.Carrying.{IsCarriedAs, IsPutBackBy};
ghost use Rattle.world_files.specs.Creations.{is_creation};

use crate::world::World;
use blk_base::{NoMemory, Store};
use qmp_codec::Command;
use std::alloc::Global;
use world_files::make;

impl<S: Store> World<S> {
    /// Carries out `blockdev-create`, or refuses it. Says the text of the reply.
    pub(crate) fn carry_creation(
        &mut self,
        alloc: Global,
        given: &str,
        command: &Command,
    ) -> Result<String, NoMemory>
        requires { is_creation (seen_command command.now) ≡ true }
        ensures carried { IfOk result (λ text. IsCarriedAs self.old self.new given.now
            (seen_command command.now) (string_bytes text)) }
        ensures back { OnErr result (IsPutBackBy self.old self.new (seen_command command.now)) }
    {
        let _ = self.nodes.edges();
        let text = make(
            alloc,
            &mut self.store,
            &mut self.nodes,
            &mut self.names,
            given,
            command,
        );
        let _ = self.nodes.edges();
        text
    }
}
