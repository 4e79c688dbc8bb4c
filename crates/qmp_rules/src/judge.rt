//! Why a command is refused, and what it changes.
ghost use Rattle.std.specs.Prelude.{◌≡◌, IfErr, IfOk, None, OnOk, length, true};
ghost use Rattle.std.specs.List.{list_all};
ghost use Rattle.qmp_codec.specs.Commands.{seen_command};
ghost use Rattle.qmp_codec.specs.Nodes.{seen_added, seen_created};
ghost use Rattle.qmp_rules.specs.Answers.{conflict_after, conflict_in, conflict_refusal, is_joined, out_of_turn, refusal_behind, refusal_to, rewires, unbuilt, told_none, command_edits};
ghost use Rattle.qmp_rules.specs.Asks.{first_unmet_ask};
ghost use Rattle.qmp_rules.specs.Changes.{all_changed};
ghost use Rattle.qmp_asks.specs.CommandAsks.{asks_of, command_name, is_built, negotiates};
ghost use Rattle.qmp_rules.specs.Edits.{edits_of, spoiled};
ghost use Rattle.qmp_rules.specs.Fitting.{AllChangesFit, fits_always};
ghost use Rattle.qmp_rules.specs.Prepared.{IsStoppedFor};
ghost use Rattle.qmp_rules.specs.Refusals.{or_else};
ghost use Rattle.qmp_rules.specs.Room.{HasRoomForChanges};

use crate::change::{Change, Edits};
use crate::refusal::Refusal;
use crate::refuse::Found;
use crate::table::Names;
use crate::told::Told;
use blk_base::NoMemory;
use blk_graph::Conflict;
use qmp_asks::{Name, asks_of};
use qmp_codec::{Added, Command, Created};
use std::alloc::Global;

/// Why nothing is prepared: the command is refused, or memory for its changes isn't had. The table is as before.
#[derive(Drop)]
pub enum PrepareStop {
    Refused(Refusal),
    NoMemory,
}

impl From<NoMemory> for PrepareStop {
    ghost use Rattle.std.specs.Prelude.{◌≡◌};
    ghost use Rattle.qmp_rules.specs.declared.judge.PrepareStop.TheVariants as stops;

    ghost from_gives = { λ _ stop. stop ≡ stops.NoMemory };

    fn from(_: NoMemory) -> Self {
        PrepareStop::NoMemory
    }
}

/// Whether a command is carried out so far.
fn is_built(command: &Command) -> bool
    ensures { result ≡ is_built (seen_command command.now) }
{
    matches!(
        command,
        Command::Capabilities(_)
            | Command::BlockdevCreate(_)
            | Command::JobDismiss(_)
            | Command::BlockdevAdd(_)
            | Command::BlockdevDel(_)
            | Command::DeviceAdd(_)
            | Command::DeviceDel(_)
            | Command::BlockdevSnapshot(_)
            | Command::BlockdevMirror(_)
            | Command::BlockdevBackup(_)
            | Command::BlockJobCancel(_, _)
            | Command::BlockJobComplete(_)
            | Command::QueryBlockJobs
            | Command::QueryNamedBlockNodes(_)
            | Command::BitmapAdd(_)
            | Command::BitmapRemove(_)
            | Command::BitmapClear(_)
            | Command::BitmapEnable(_)
            | Command::BitmapDisable(_)
            | Command::BitmapMerge(_)
    )
}

fn negotiates(command: &Command) -> bool
    ensures { result ≡ negotiates (seen_command command.now) }
{
    matches!(command, Command::Capabilities(_))
}

fn command_name(command: &Command) -> &'static str
    ensures { result.now ≡ command_name (seen_command command.now) }
{
    match command {
        Command::Capabilities(_) => "qmp_capabilities",
        Command::BlockdevCreate(_) => "blockdev-create",
        Command::JobDismiss(_) => "job-dismiss",
        Command::BlockdevAdd(_) => "blockdev-add",
        Command::BlockdevDel(_) => "blockdev-del",
        Command::DeviceAdd(_) => "device_add",
        Command::DeviceDel(_) => "device_del",
        Command::BlockdevSnapshot(_) => "blockdev-snapshot",
        Command::Transaction(_) => "transaction",
        Command::BlockStream(_) => "block-stream",
        Command::BlockCommit(_) => "block-commit",
        Command::BlockdevMirror(_) => "blockdev-mirror",
        Command::BlockdevBackup(_) => "blockdev-backup",
        Command::BlockJobCancel(_, _) => "block-job-cancel",
        Command::BlockJobComplete(_) => "block-job-complete",
        Command::QueryBlockJobs => "query-block-jobs",
        Command::QueryNamedBlockNodes(_) => "query-named-block-nodes",
        Command::BitmapAdd(_) => "block-dirty-bitmap-add",
        Command::BitmapRemove(_) => "block-dirty-bitmap-remove",
        Command::BitmapClear(_) => "block-dirty-bitmap-clear",
        Command::BitmapEnable(_) => "block-dirty-bitmap-enable",
        Command::BitmapDisable(_) => "block-dirty-bitmap-disable",
        Command::BitmapMerge(_) => "block-dirty-bitmap-merge",
    }
}

/// Refuses a command that is not carried out yet.
fn unbuilt(alloc: Global, command: &Command) -> Found
    ensures { IfOk result (λ found. found ≡ unbuilt (seen_command command.now)) }
{
    if is_built(command) {
        Ok(None)
    } else {
        let name = Name::copied(alloc, command_name(command))?;
        Ok(Some(Refusal::UnknownCommand(name)))
    }
}

/// Whether what is added has edges.
fn is_joined(driver: &Added) -> bool
    ensures { result ≡ is_joined (seen_added driver.now) }
{
    !matches!(driver, Added::File(_) | Added::Unknown)
}

/// Whether a command puts edges.
fn rewires(command: &Command) -> bool
    ensures { result ≡ rewires (seen_command command.now) }
{
    match command {
        Command::BlockdevAdd(c) => is_joined(&c.driver),
        Command::DeviceAdd(_)
        | Command::BlockdevSnapshot(_)
        | Command::BlockStream(_)
        | Command::BlockCommit(_)
        | Command::BlockdevMirror(_)
        | Command::BlockdevBackup(_) => true,
        _ => false,
    }
}

/// Refuses a command before capabilities are negotiated, and a second negotiation.
fn out_of_turn(negotiates: bool, negotiated: bool) -> Option<Refusal>
    ensures { result ≡ out_of_turn negotiates negotiated }
{
    if negotiates == negotiated {
        Some(Refusal::Negotiation { again: negotiates })
    } else {
        None
    }
}

/// Whether a change fits whatever the table is.
fn fits_always(edit: &Change) -> bool
    ensures { result ≡ fits_always edit.now }
{
    match edit {
        Change::AddDevice { device, .. } => device.number < 80,
        Change::UseNode { slot, .. } => *slot < 16,
        Change::PutFilter { .. } => false,
        _ => true,
    }
}

fn fit_always(edits: &[Change]) -> bool
    ensures { result ≡ list_all fits_always edits.now }
{
    edits.iter().all(|edit| fits_always(edit))
}

impl Names {
    fn conflict_refusal(&self, alloc: Global, pair: Conflict) -> Result<Refusal, NoMemory>
        ensures { IfOk result (λ refusal. refusal ≡ conflict_refusal self.now.table pair) }
    {
        Ok(Refusal::Conflict {
            node: Name::copied(alloc, self.name_at(pair.node))?,
            asks: Name::copied(alloc, self.parent_name(pair.asks))?,
            denies: Name::copied(alloc, self.parent_name(pair.denies))?,
            perm: pair.perm,
        })
    }

    /// The first pair of edges that breaks the rule on permissions.
    #[tactic(auto, unfolding(crate::specs::Answers::conflict_in))]
    fn conflict(&self, alloc: Global) -> Found
        ensures { IfOk result (λ found. found ≡ conflict_in self.now.table) }
    {
        let ids = self.ids(alloc)?;
        match self.first_conflict(ids.as_slice()) {
            Some(pair) => Ok(Some(self.conflict_refusal(alloc, pair)?)),
            None => Ok(None),
        }
    }

    /// The table after changes, as a copy. Each has to fit the table as the ones before leave it.
    #[tactic(auto, using(crate::proofs::FitLemmas::steps_fit))]
    fn drafted(&self, alloc: Global, edits: Vec<Change>) -> Result<Names, NoMemory>
        ensures table { IfOk result
            (λ draft. draft.table ≡ all_changed self.now.table edits.items) }
        ensures fit { IfOk result (λ _. AllChangesFit self.now.table edits.items) }
    {
        let mut draft = self.copied(alloc)?;
        draft.reserve(edits.len())?;
        draft.apply_fitting(Edits::new(edits))?;
        Ok(draft)
    }

    /// Refuses changes after which the edges break the rule. They are made on a copy.
    fn conflict_by(&self, alloc: Global, edits: Vec<Change>) -> Found
        ensures { IfOk result
            (λ found. found ≡ conflict_in (all_changed self.now.table edits.items)) }
    {
        self.drafted(alloc, edits)?.conflict(alloc)
    }

    /// What a command changes where nothing is told.
    fn edits_untold(&self, alloc: Global, command: &Command) -> Result<Vec<Change>, NoMemory>
        requires { is_built (seen_command command.now) ≡ true }
        ensures { IfOk result
            (λ edits. edits.items ≡ edits_of self.now.table told_none (seen_command command.now)) }
    {
        self.edits_of(alloc, &Told::nothing(alloc), command)
    }

    fn conflict_after(&self, alloc: Global, command: &Command) -> Found
        requires { is_built (seen_command command.now) ≡ true }
        ensures { IfOk result
            (λ found. found ≡ conflict_after (rewires (seen_command command.now)) self.now.table
            (edits_of self.now.table told_none (seen_command command.now))) }
    {
        if rewires(command) {
            self.conflict_by(alloc, self.edits_untold(alloc, command)?)
        } else {
            Ok(None)
        }
    }

    /// The first refusal of what a command asks.
    fn first_asked(&self, alloc: Global, told: &Told, command: &Command) -> Found
        ensures { IfOk result (λ found. found
            ≡ first_unmet_ask self.now.table told.now (asks_of (seen_command command.now))) }
    {
        let asks = asks_of(alloc, command)?;
        self.first_unmet(alloc, told, asks.as_slice())
    }

    /// The same, or else of what its edges break.
    #[tactic(auto, using(crate::proofs::JudgeLemmas::behind_built))]
    fn unmet_or_broken(&self, alloc: Global, told: &Told, command: &Command) -> Found
        requires { is_built (seen_command command.now) ≡ true }
        ensures { IfOk result (λ found. found ≡ or_else
            (first_unmet_ask self.now.table told.now (asks_of (seen_command command.now)))
            (refusal_behind self.now.table told.now (seen_command command.now))) }
    {
        match self.first_asked(alloc, told, command)? {
            None => self.conflict_after(alloc, command),
            found => Ok(found),
        }
    }

    fn refusal_in_turn(&self, alloc: Global, told: &Told, command: &Command) -> Found
        requires { is_built (seen_command command.now) ≡ true }
        ensures { IfOk result (λ found. found ≡ or_else
            (out_of_turn (negotiates (seen_command command.now)) self.now.table.negotiated)
            (or_else (first_unmet_ask self.now.table told.now (asks_of (seen_command command.now)))
            (refusal_behind self.now.table told.now (seen_command command.now)))) }
    {
        match out_of_turn(negotiates(command), self.is_negotiated()) {
            None => self.unmet_or_broken(alloc, told, command),
            found => Ok(found),
        }
    }

    /// The first refusal of a command that holds, where the files tell this.
    #[tactic(auto, using(crate::proofs::JudgeLemmas::built_none), unfolding(crate::specs::Answers::refusal_to))]
    pub fn refusal(
        &self,
        alloc: Global,
        told: &Told,
        command: &Command,
    ) -> Result<Option<Refusal>, NoMemory>
        ensures { IfOk result
            (λ found. found ≡ refusal_to self.now.table told.now (seen_command command.now)) }
    {
        match unbuilt(alloc, command)? {
            None => self.refusal_in_turn(alloc, told, command),
            found => Ok(found),
        }
    }

    /// The first refusal that the table decides.
    pub fn first_refusal(
        &self,
        alloc: Global,
        command: &Command,
    ) -> Result<Option<Refusal>, NoMemory>
        ensures { IfOk result
            (λ found. found ≡ refusal_to self.now.table told_none (seen_command command.now)) }
    {
        self.refusal(alloc, &Told::nothing(alloc), command)
    }

    /// Looks whether the changes of a command fit, where one may not.
    #[tactic(auto, using(crate::proofs::FitLemmas::all_fit_always))]
    fn look_at_fit(
        &self,
        alloc: Global,
        told: &Told,
        command: &Command,
        edits: &[Change],
    ) -> Result<(), NoMemory>
        requires built { is_built (seen_command command.now) ≡ true }
        requires edits { edits.now
            ≡ edits_of self.now.table told.now (seen_command command.now) }
        ensures { OnOk result (AllChangesFit self.now.table edits.now) }
    {
        if fit_always(edits) {
            return Ok(());
        }
        let same = self.edits_of(alloc, told, command)?;
        self.drafted(alloc, same)?;
        Ok(())
    }

    /// What a command that is carried out changes, where that fits.
    fn fitting_edits(
        &self,
        alloc: Global,
        told: &Told,
        command: &Command,
    ) -> Result<Vec<Change>, NoMemory>
        requires { is_built (seen_command command.now) ≡ true }
        ensures edits { IfOk result (λ edits. edits.items
            ≡ edits_of self.now.table told.now (seen_command command.now)) }
        ensures fit { IfOk result (λ edits. AllChangesFit self.now.table edits.items) }
    {
        let edits = self.edits_of(alloc, told, command)?;
        self.look_at_fit(alloc, told, command, edits.as_slice())?;
        Ok(edits)
    }

    /// What a command changes, where nothing refuses it.
    #[tactic(auto, using(crate::proofs::JudgeLemmas::edits_built, crate::proofs::JudgeLemmas::built_unless))]
    fn accepted_edits(
        &self,
        alloc: Global,
        told: &Told,
        command: &Command,
    ) -> Result<Vec<Change>, PrepareStop>
        ensures accepted { IfOk result
            (λ _. refusal_to self.now.table told.now (seen_command command.now) ≡ None) }
        ensures edits { IfOk result (λ edits. edits.items
            ≡ command_edits self.now.table told.now (seen_command command.now)) }
        ensures fit { IfOk result (λ edits. AllChangesFit self.now.table edits.items) }
        ensures refused { IfErr result
            (IsStoppedFor (refusal_to self.now.table told.now (seen_command command.now))) }
    {
        match self.refusal(alloc, told, command)? {
            Some(refusal) => Err(PrepareStop::Refused(refusal)),
            None => Ok(self.fitting_edits(alloc, told, command)?),
        }
    }

    /// Takes the memory for changes. The table stays.
    fn with_room(&mut self, edits: Vec<Change>) -> Result<Edits, NoMemory>
        requires { AllChangesFit self.old.table edits.items }
        ensures edits { IfOk result (λ same. same ≡ edits.items) }
        ensures room { IfOk result (λ same. HasRoomForChanges (length same) self.new) }
        ensures fit { IfOk result (λ same. AllChangesFit self.new.table same) }
        ensures table { self.new.table ≡ self.old.table }
    {
        self.reserve(edits.len())?;
        Ok(Edits::new(edits))
    }

    /// Looks at a command, and takes all the memory that its changes need. The table stays.
    pub fn prepare(
        &mut self,
        alloc: Global,
        command: &Command,
        told: &Told,
    ) -> Result<Edits, PrepareStop>
        ensures accepted { IfOk result
            (λ _. refusal_to self.old.table told.now (seen_command command.now) ≡ None) }
        ensures edits { IfOk result
            (λ edits. edits ≡ command_edits self.old.table told.now (seen_command command.now)) }
        ensures room { IfOk result (λ edits. HasRoomForChanges (length edits) self.new) }
        ensures fit { IfOk result (λ edits. AllChangesFit self.new.table edits) }
        ensures refused { IfErr result
            (IsStoppedFor (refusal_to self.old.table told.now (seen_command command.now))) }
        ensures table { self.new.table ≡ self.old.table }
    {
        match self.accepted_edits(alloc, told, command) {
            Ok(edits) => Ok(self.with_room(edits)?),
            Err(stop) => Err(stop),
        }
    }

    /// Takes the memory for what a creation leaves of which a call failed. The table stays.
    #[tactic(auto, using(crate::proofs::FitLemmas::spoiled_fit))]
    pub fn prepare_spoiled(&mut self, alloc: Global, options: &Created) -> Result<Edits, NoMemory>
        ensures edits { IfOk result
            (λ edits. edits ≡ spoiled self.old.table (seen_created options.now)) }
        ensures room { IfOk result (λ edits. HasRoomForChanges (length edits) self.new) }
        ensures fit { IfOk result (λ edits. AllChangesFit self.new.table edits) }
        ensures table { self.new.table ≡ self.old.table }
    {
        let edits = self.spoiled(alloc, options)?;
        self.with_room(edits)
    }
}
