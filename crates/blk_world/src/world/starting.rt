//! Lines that start jobs.
ghost use Rattle.std.specs.Prelude.{◌≡◌, ◌≤◌, Ok, true, IfOk, OnErr, string_bytes};
ghost use Rattle.flat_machine.specs.Legal.{IsNotDone};
ghost use Rattle.flat_machine.specs.declared.opening.Opening.{Opening};
ghost use Rattle.qmp_codec.specs.Commands.{seen_command};
ghost use Rattle.qmp_codec.specs.Lines.{command_at};
ghost use Rattle.world_jobs.specs.Plans.{is_start};
ghost use Rattle.world_parts.specs.Carrying.{IsExecuted, IsPutBackBy};
ghost use Rattle.world_parts.specs.Comes.{Comes};
ghost use Rattle.world_parts.specs.Face.{seen_state};
ghost use Rattle.world_parts.specs.Saying.{given_line};

use crate::world::World;
use blk_base::{NoMemory, Store};
use qmp_codec::Command;
use std::alloc::Global;
use world_jobs::{Started, carry_start, plan_of};
use world_parts::Executed;

impl<S: Store> World<S> {
    /// Answers a line that starts a backup or a mirror, which begins behind the reply.
    pub(crate) fn put_start(
        &mut self,
        alloc: Global,
        line: u32,
        given: &str,
        copy: String,
        command: Command,
    ) -> Result<Executed, NoMemory>
        requires read { command_at given.now ≡ Ok (seen_command command) }
        requires is { is_start (seen_command command) ≡ true }
        requires copy { string_bytes copy ≡ given.now }
        requires open { IsNotDone (seen_state self.old) 0 }
        requires room { 4 ≤ self.old.progress.spare.entries }
        ensures done { IfOk result (λ answer.
            IsExecuted self.old self.new (given_line line given.now) answer) }
        ensures back { OnErr result (IsPutBackBy self.old self.new (seen_command command)) }
        ensures comes { (o : Opening) → Comes o self.old → Comes o self.new }
    {
        let _ = self.nodes.edges();
        let Some(plan) = plan_of(&command) else {
            unreachable!()
        };
        let started = carry_start(
            alloc,
            &mut self.nodes,
            &mut self.names,
            &self.bitmaps,
            &self.progress,
            &mut self.drained,
            given,
            &command,
            plan,
        )?;
        let _ = self.nodes.edges();
        match started {
            Started::Refused(text) => {
                self.note_reply(line, copy, Some(command), text);
                Ok(Executed::Replied)
            }
            Started::Later { guest, request } => Ok(Executed::Later { guest, request }),
            Started::Begun { text, new } => {
                new.law();
                self.progress.reply(line, copy, Some(command), text);
                self.drained.lift();
                new.begin(&mut self.bitmaps, &mut self.works, &mut self.progress);
                Ok(Executed::Replied)
            }
        }
    }
}
