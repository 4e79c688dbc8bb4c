//! Lines of the script that are answered.
ghost use Rattle.std.specs.Prelude.{◌≡◌, ◌<◌, ◌≤◌, false, Ok, Err, IfOk, OnOk, OnErr, option_map, string_bytes};
ghost use Rattle.qmp_codec.specs.Commands.{seen_command};
ghost use Rattle.qmp_codec.specs.Lines.{command_at, seen_stop};
ghost use Rattle.blk_history.specs.declared.event.Event.{Event};
ghost use Rattle.flat_machine.specs.Legal.{IsNotDone};
ghost use Rattle.flat_machine.specs.declared.opening.Opening.{Opening};
ghost use Rattle.world_parts.specs.Face.{seen_state};
ghost use Rattle.world_parts.specs.Comes.{Comes};
ghost use Rattle.world_parts.specs.Progress.{with_bare_entry};
ghost use Rattle.world_parts.specs.Saying.{given_line};
ghost use Rattle.world_parts.specs.Steps.{lifted, with_history};
ghost use Rattle.world_changes.specs.Changing.{is_change};
ghost use Rattle.world_jobs.specs.Plans.{is_start};
ghost use Rattle.world_parts.specs.Carrying.{IsCarriedAs, IsCarriedOut, IsExecuted, IsPutBack, IsPutBackBy, IsPutBackIn};

use crate::world::World;
use blk_base::{NoMemory, Store};
use qmp_codec::{CodecStop, Command};
use std::alloc::Global;
use world_lines::{LineRead, read_line, stopped_text};
use world_parts::{Carried, Executed};

/// A copy of the text of a line.
pub(crate) fn copied(alloc: Global, text: &str) -> Result<String, NoMemory>
    ensures { IfOk result (λ copy. string_bytes copy ≡ text.now) }
{
    Ok(String::from_str(alloc, text)?)
}

impl<S: Store> World<S> {
    /// Carries out a command that adds, makes or drops nodes or asks what is dirty, or refuses it. Gives the text of the answer, which
    /// isn't noted yet.
    fn carry_at_once(
        &mut self,
        alloc: Global,
        given: &str,
        command: &Command,
    ) -> Result<String, NoMemory>
        requires once { is_change (seen_command command.now) ≡ false }
        requires other { is_start (seen_command command.now) ≡ false }
        ensures carried { IfOk result (λ text. IsCarriedAs self.old self.new given.now
            (seen_command command.now) (string_bytes text)) }
        ensures back { OnErr result (IsPutBackBy self.old self.new (seen_command command.now)) }
    {
        match command {
            Command::BlockdevAdd(_) => self.carry_addition(alloc, given, command),
            Command::BlockdevCreate(_) => self.carry_creation(alloc, given, command),
            Command::BlockdevDel(_) => self.carry_deletion(alloc, given, command),
            _ => self.carry_counts(alloc, given, command),
        }
    }

    /// Carries out a command that starts no job, or refuses it, or says which request it has to wait for. The answer isn't noted yet.
    fn carry(&mut self, alloc: Global, given: &str, command: &Command) -> Result<Carried, NoMemory>
        requires read { command_at given.now ≡ Ok (seen_command command.now) }
        requires other { is_start (seen_command command.now) ≡ false }
        ensures carried { IfOk result (λ carried. IsCarriedOut self.old self.new given.now
            (seen_command command.now) carried) }
        ensures back { OnErr result (IsPutBackBy self.old self.new (seen_command command.now)) }
    {
        match command {
            Command::BlockdevAdd(_)
            | Command::BlockdevCreate(_)
            | Command::BlockdevDel(_)
            | Command::QueryNamedBlockNodes(_) => {
                Ok(Carried::Said(self.carry_at_once(alloc, given, command)?))
            }
            _ => self.carry_changes(alloc, given, command),
        }
    }

    /// Notes the reply to a line, after which no drain of a command stands.
    pub(crate) fn note_reply(
        &mut self,
        line: u32,
        given: String,
        command: Option<Command>,
        text: String,
    )
        requires { 0 < self.old.progress.spare.entries }
        ensures { self.new ≡ lifted (with_history self.old (with_bare_entry
            (Event.Reply line (string_bytes given) (option_map seen_command command)
            (string_bytes text)))) }
    {
        self.progress.reply(line, given, command, text);
        self.drained.lift();
    }

    /// Answers a line that is a command and starts no job.
    fn put_carried(
        &mut self,
        alloc: Global,
        line: u32,
        given: &str,
        copy: String,
        command: Command,
    ) -> Result<Executed, NoMemory>
        requires read { command_at given.now ≡ Ok (seen_command command) }
        requires other { is_start (seen_command command) ≡ false }
        requires copy { string_bytes copy ≡ given.now }
        requires open { IsNotDone (seen_state self.old) 0 }
        requires room { 0 < self.old.progress.spare.entries }
        ensures done { IfOk result (λ answer.
            IsExecuted self.old self.new (given_line line given.now) answer) }
        ensures back { OnErr result (IsPutBackBy self.old self.new (seen_command command)) }
        ensures comes { (o : Opening) → Comes o self.old → Comes o self.new }
    {
        let carried = self.carry(alloc, given, &command)?;
        self.images_are_sound();
        match carried {
            Carried::Said(text) => {
                self.note_reply(line, copy, Some(command), text);
                Ok(Executed::Replied)
            }
            Carried::Later { guest, request } => Ok(Executed::Later { guest, request }),
        }
    }

    /// Answers a line that is a command.
    fn put_command(
        &mut self,
        alloc: Global,
        line: u32,
        given: &str,
        command: Command,
    ) -> Result<Executed, NoMemory>
        requires read { command_at given.now ≡ Ok (seen_command command) }
        requires open { IsNotDone (seen_state self.old) 0 }
        requires room { 4 ≤ self.old.progress.spare.entries }
        ensures done { IfOk result (λ answer.
            IsExecuted self.old self.new (given_line line given.now) answer) }
        ensures back { OnErr result (IsPutBackBy self.old self.new (seen_command command)) }
        ensures comes { (o : Opening) → Comes o self.old → Comes o self.new }
    {
        let copy = copied(alloc, given)?;
        match &command {
            Command::BlockdevBackup(_) | Command::BlockdevMirror(_) => {
                self.put_start(alloc, line, given, copy, command)
            }
            _ => self.put_carried(alloc, line, given, copy, command),
        }
    }

    /// Answers a line that can't be read as a command.
    fn put_stop(
        &mut self,
        alloc: Global,
        line: u32,
        given: &str,
        stop: CodecStop,
    ) -> Result<Executed, NoMemory>
        requires read { command_at given.now ≡ Err (seen_stop stop) }
        requires open { IsNotDone (seen_state self.old) 0 }
        requires room { 0 < self.old.progress.spare.entries }
        ensures done { IfOk result (λ answer.
            IsExecuted self.old self.new (given_line line given.now) answer) }
        ensures back { OnErr result (self.new ≡ self.old) }
        ensures comes { (o : Opening) → Comes o self.old → Comes o self.new }
    {
        let text = stopped_text(alloc, &self.names, given, stop)?;
        let copy = copied(alloc, given)?;
        self.note_reply(line, copy, None, text);
        Ok(Executed::Replied)
    }

    /// Answers a line of the script. A command is carried out or refused, and another line refused; the reply is noted with its
    /// text. Later comes exactly where nothing refuses a command and a request is in flight on a disk that it must drain: the
    /// first guest's, by number. Nothing is noted then, and the guests of those disks are held until a line is answered or a
    /// command has to come again. Where memory is wanted the world is as before but for the opening and the count of what the
    /// command itself calls.
    pub fn execute(&mut self, alloc: Global, line: u32, text: &str) -> Result<Executed, NoMemory>
        requires open { IsNotDone (seen_state self.old) 0 }
        requires room { 4 ≤ self.old.progress.spare.entries }
        ensures done { IfOk result (λ answer.
            IsExecuted self.old self.new (given_line line text.now) answer) }
        ensures back { OnErr result (IsPutBack self.old self.new) }
        ensures back_in { OnErr result (IsPutBackIn self.old self.new (command_at text.now)) }
        ensures comes { (o : Opening) → Comes o self.old → Comes o self.new }
    {
        match read_line(alloc, text)? {
            LineRead::Command(command) => self.put_command(alloc, line, text, command),
            LineRead::Stop(stop) => self.put_stop(alloc, line, text, stop),
        }
    }
}
