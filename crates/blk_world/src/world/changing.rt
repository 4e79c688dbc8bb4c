//! Commands that change table, edges and bitmaps, and no nodes, over a world.
ghost use Rattle.std.specs.Prelude.{◌≡◌, true, IfOk, OnErr};
ghost use Rattle.qmp_codec.specs.Commands.{seen_command};
ghost use Rattle.world_parts.specs.Carrying.{IsCarriedOut, IsPutBackBy};
ghost use Rattle.world_changes.specs.Changing.{is_change};

use crate::world::World;
use blk_base::{NoMemory, Store};
use qmp_codec::Command;
use std::alloc::Global;
use world_changes::carry_changes;
use world_parts::Carried;

impl<S: Store> World<S> {
    /// Carries out such a command, or refuses it, or says which request it has to wait for. The answer isn't noted yet.
    pub(crate) fn carry_changes(
        &mut self,
        alloc: Global,
        given: &str,
        command: &Command,
    ) -> Result<Carried, NoMemory>
        requires { is_change (seen_command command.now) ≡ true }
        ensures carried { IfOk result (λ carried. IsCarriedOut self.old self.new given.now
            (seen_command command.now) carried) }
        ensures back { OnErr result (IsPutBackBy self.old self.new (seen_command command.now)) }
    {
        let _ = self.nodes.edges();
        let carried = carry_changes(
            alloc,
            &mut self.nodes,
            &mut self.names,
            &mut self.bitmaps,
            &self.progress,
            &mut self.drained,
            given,
            command,
        );
        let _ = self.nodes.edges();
        carried
    }
}
