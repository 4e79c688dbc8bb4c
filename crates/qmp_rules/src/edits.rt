//! The changes that an accepted command makes.
ghost use Rattle.std.specs.Prelude.{◌≡◌, ◌==◌, ◌++◌, ◌∷◌, [], IfOk, OnOk, find, option_map, string_bytes, true};
ghost use Rattle.std.specs.List.{list_any};
ghost use Rattle.blk_graph.specs.Ids.{lowest_free};
ghost use Rattle.std.specs.Option.{option_copied};
ghost use Rattle.qmp_codec.specs.Commands.{seen_action, seen_command};
ghost use Rattle.qmp_codec.specs.Nodes.{seen_blockdev_create, seen_created, seen_device_add, seen_snapshot};
ghost use Rattle.qmp_rules.specs.Edits.{action_edits, create_edits, created_change, del_edits, device_add_edits, device_del_edits, device_number, device_uses, edits_of, file_of_node, file_row, file_under, format_row, free_id, goes_with_node, node_ids, length_told, name_of_file_at, new_device, place_from, row_gone, size_by_name, snapshot_edits, spoiled, unused_from, file_uses, with_inline};
ghost use Rattle.qmp_asks.specs.Seen.{seen_text};

use crate::change::Change;
use crate::rows::{DeviceRow, NodeRecord};
use crate::table::Names;
use crate::told::Told;
use crate::unmet::{name_of_file, takes};
use blk_base::NoMemory;
use blk_graph::{Kind, MOST_NODES, NodeId, Role};
use qmp_asks::{Drivers, Name, amount_or, shares};
use qmp_codec::{Action, BlockdevCreate, Command, Created, DeviceAdd, Snapshot};
use std::alloc::Global;

#[tactic(auto, using(crate::proofs::EditLemmas::lowest_free_is))]
pub(crate) fn lowest(taken: &[NodeId]) -> Result<NodeId, NoMemory>
    ensures { IfOk result (λ id. id ≡ lowest_free taken.now) }
{
    match blk_graph::free_id(taken) {
        Some(id) => {
            prove!(id.index() < MOST_NODES);
            Ok(id)
        }
        None => Err(NoMemory),
    }
}

pub(crate) fn maybe_name(alloc: Global, text: &Option<String>) -> Result<Option<Name>, NoMemory>
    ensures { IfOk result (λ name. name ≡ option_map string_bytes text.now) }
{
    match text {
        Some(text) => Ok(Some(Name::copied(alloc, text.as_str())?)),
        None => Ok(None),
    }
}

pub(crate) fn file_row(
    alloc: Global,
    id: NodeId,
    name: Name,
    size: u64,
    read_only: bool,
    filename: &str,
    made_with: Option<NodeId>,
) -> Result<NodeRecord, NoMemory>
    ensures { IfOk result (λ row. row ≡ file_row id name size read_only filename.now made_with) }
{
    Ok(NodeRecord {
        id,
        name,
        kind: Kind::Protocol,
        size,
        read_only,
        is_settled: true,
        filename: Some(Name::copied(alloc, filename)?),
        offset: 0,
        made_with,
    })
}

pub(crate) fn format_row(
    kind: Kind,
    id: NodeId,
    name: Name,
    size: u64,
    offset: u64,
    read_only: bool,
) -> NodeRecord
    ensures { result ≡ format_row kind id name size offset read_only }
{
    NodeRecord {
        id,
        name,
        kind,
        size,
        read_only,
        is_settled: true,
        filename: None,
        offset,
        made_with: None,
    }
}

pub(crate) fn length_told(told: &Told) -> u64
    ensures { result ≡ length_told told.now }
{
    match told.length {
        Some(length) => length,
        None => 0,
    }
}

/// The first place of a name.
fn place_of(names: &[Name], name: &str) -> Option<usize>
    ensures { result ≡ place_from 0 name.now names.now }
{
    for (i, other) in names.iter().enumerate() {
        if other.as_str() == name {
            return Some(i);
        }
    }
    None
}

fn has_number(devices: &[DeviceRow], number: u128) -> bool
    ensures { result ≡ list_any (λ device. device.number == number) devices.now }
{
    devices
        .iter()
        .any(|device| u128::from(device.number) == number)
}

/// The lowest of 64 numbers from one on that no device has, or else the one behind them.
fn unused_number(devices: &[DeviceRow], first: usize) -> u128
    ensures { result ≡ unused_from 64 first devices.now }
{
    for k in 0..64u32 {
        let number = first as u128 + u128::from(k);
        if !has_number(devices, number) {
            return number;
        }
    }
    first as u128 + 64
}

fn small(number: u128) -> Result<u32, NoMemory>
    ensures { IfOk result (λ same. same ≡ number) }
{
    match u32::try_from(number) {
        Ok(number) => Ok(number),
        Err(_) => Err(NoMemory),
    }
}

fn goes_with_node(row: &NodeRecord, id: NodeId) -> bool
    ensures { result ≡ goes_with_node id row.now }
{
    match row.made_with {
        Some(other) => other == id,
        None => false,
    }
}

pub(crate) fn put(edits: &mut Vec<Change>, edit: Change) -> Result<(), NoMemory>
    ensures { OnOk result (edits.new.items ≡ edits.old.items ++ edit ∷ []) }
{
    edits.push(edit)?;
    Ok(())
}

/// That a file is used, where one is named.
fn put_uses(alloc: Global, edits: &mut Vec<Change>, filename: Option<&str>) -> Result<(), NoMemory>
    ensures { OnOk result (edits.new.items ≡ edits.old.items
        ++ file_uses (seen_text filename.entry)) }
{
    match filename {
        Some(filename) => put(edits, Change::UseFile(Name::copied(alloc, filename)?)),
        None => Ok(()),
    }
}

fn seen_name(name: &Option<Name>) -> Option<&str>
    ensures { seen_text result ≡ name.now }
{
    match name {
        Some(name) => Some(name.as_str()),
        None => None,
    }
}

/// That a guest on a file node uses its file.
pub(crate) fn put_device_uses(
    alloc: Global,
    edits: &mut Vec<Change>,
    row: &NodeRecord,
) -> Result<(), NoMemory>
    ensures { OnOk result (edits.new.items ≡ edits.old.items ++ device_uses row.now) }
{
    if takes(Drivers::File, row.kind) {
        put_uses(alloc, edits, seen_name(&row.filename))
    } else {
        Ok(())
    }
}

impl Names {
    /// The ids of the nodes, in the order of their making.
    pub(crate) fn ids(&self, alloc: Global) -> Result<Vec<NodeId>, NoMemory>
        ensures { IfOk result (λ v. v.items ≡ node_ids self.now.table) }
    {
        let mut v = Vec::with_capacity(alloc, self.nodes().len())?;
        for row in self.nodes() {
            v.push(row.id)?;
        }
        Ok(v)
    }

    pub(crate) fn free_id(&self, alloc: Global) -> Result<NodeId, NoMemory>
        ensures { IfOk result (λ id. id ≡ free_id self.now.table) }
    {
        let taken = self.ids(alloc)?;
        lowest(taken.as_slice())
    }

    /// The guest's number of a name, or else the lowest above those of guests that no device has.
    fn device_number(&self, id: &str) -> Result<u32, NoMemory>
        ensures { IfOk result (λ number. number ≡ device_number self.now.table id.now) }
    {
        match place_of(self.guests(), id) {
            Some(place) => small(place as u128),
            None => small(unused_number(self.devices(), self.guests().len())),
        }
    }

    fn file_of_node(&self, name: &str) -> &str
        ensures { result.now ≡ file_of_node self.now.table name.now }
    {
        match self.node_named(name) {
            Some(row) => name_of_file(row),
            None => "",
        }
    }

    pub(crate) fn size_of(&self, name: &str) -> u64
        ensures { result ≡ size_by_name self.now.table name.now }
    {
        match self.node_named(name) {
            Some(row) => row.size,
            None => 0,
        }
    }

    fn plan_create(
        &self,
        alloc: Global,
        edits: &mut Vec<Change>,
        c: &BlockdevCreate,
    ) -> Result<(), NoMemory>
        ensures { OnOk result (edits.new.items
            ≡ edits.old.items ++ create_edits self.now.table (seen_blockdev_create c.now)) }
    {
        put(
            edits,
            Change::KeepId(Name::copied(alloc, c.job_id.as_str())?),
        )?;
        self.plan_created(alloc, edits, &c.options)
    }

    fn plan_created(
        &self,
        alloc: Global,
        edits: &mut Vec<Change>,
        options: &Created,
    ) -> Result<(), NoMemory>
        ensures { OnOk result (edits.new.items
            ≡ edits.old.items ++ created_change self.now.table (seen_created options.now)) }
    {
        match options {
            Created::File(c) => put(
                edits,
                Change::MakeFile {
                    name: Name::copied(alloc, c.filename.as_str())?,
                    size: amount_or(0, Some(c.size)),
                },
            ),
            Created::Qcow2(c) => put(
                edits,
                Change::FormatFile {
                    node: self.id_of(c.file.as_str()),
                    name: Name::copied(alloc, self.file_of_node(c.file.as_str()))?,
                    size: amount_or(0, Some(c.size)),
                    backing_file: maybe_name(alloc, &c.backing_file)?,
                    backing_fmt: c.backing_fmt,
                },
            ),
            Created::Unknown => Ok(()),
        }
    }

    /// What a creation leaves of which a call failed: its file used.
    fn plan_spoiled(
        &self,
        alloc: Global,
        edits: &mut Vec<Change>,
        options: &Created,
    ) -> Result<(), NoMemory>
        ensures { OnOk result
            (edits.new.items ≡ edits.old.items
            ++ spoiled self.now.table (seen_created options.now)) }
    {
        match options {
            Created::File(c) => put(
                edits,
                Change::SpoilFile(Name::copied(alloc, c.filename.as_str())?),
            ),
            Created::Qcow2(c) => {
                let file = self.file_of_node(c.file.as_str());
                put(edits, Change::SpoilFile(Name::copied(alloc, file)?))
            }
            Created::Unknown => Ok(()),
        }
    }

    /// The same, alone.
    pub(crate) fn spoiled(&self, alloc: Global, options: &Created) -> Result<Vec<Change>, NoMemory>
        ensures { IfOk result
            (λ edits. edits.items ≡ spoiled self.now.table (seen_created options.now)) }
    {
        let mut edits = Vec::new(alloc);
        self.plan_spoiled(alloc, &mut edits, options)?;
        Ok(edits)
    }

    /// The file over which a node stands: its own, or that of the file node under it.
    fn file_under<'x>(&'x self, row: &'x NodeRecord) -> Option<&'x str>
        ensures { seen_text result ≡ file_under self.now.table row.now }
    {
        match row.kind {
            Kind::Protocol => seen_name(&row.filename),
            Kind::Raw | Kind::Qcow2 => self.filename_at(self.child(row.id, Role::File)),
            Kind::CopyOnRead | Kind::BeforeWrite | Kind::Mirror | Kind::Commit => None,
        }
    }

    fn filename_at(&self, id: Option<NodeId>) -> Option<&str>
        ensures { seen_text result ≡ name_of_file_at self.now.table id }
    {
        match id {
            Some(id) => match self.node_at(id) {
                Some(row) => seen_name(&row.filename),
                None => None,
            },
            None => None,
        }
    }

    /// The node that was made with another one.
    fn inline_of(&self, id: NodeId) -> Option<&NodeRecord>
        ensures { option_copied result ≡ find (goes_with_node id) self.now.table.nodes }
    {
        self.nodes().iter().find(|row| goes_with_node(row, id))
    }

    fn plan_with_inline(&self, edits: &mut Vec<Change>, id: NodeId) -> Result<(), NoMemory>
        ensures { OnOk result (edits.new.items ≡ edits.old.items ++ with_inline self.now.table id) }
    {
        match self.inline_of(id) {
            Some(row) => put(edits, Change::RemoveNode(row.id)),
            None => Ok(()),
        }
    }

    #[tactic(auto, using(std::proofs::lemmas::List::append_assoc))]
    fn plan_row_gone(
        &self,
        alloc: Global,
        edits: &mut Vec<Change>,
        row: &NodeRecord,
    ) -> Result<(), NoMemory>
        ensures { OnOk result
            (edits.new.items ≡ edits.old.items ++ row_gone self.now.table row.now) }
    {
        put_uses(alloc, edits, self.file_under(row))?;
        put(edits, Change::RemoveNode(row.id))?;
        self.plan_with_inline(edits, row.id)
    }

    fn plan_del(&self, alloc: Global, edits: &mut Vec<Change>, name: &str) -> Result<(), NoMemory>
        ensures { OnOk result
            (edits.new.items ≡ edits.old.items ++ del_edits self.now.table name.now) }
    {
        match self.node_named(name) {
            Some(row) => self.plan_row_gone(alloc, edits, row),
            None => Ok(()),
        }
    }

    fn new_device(
        &self,
        alloc: Global,
        c: &DeviceAdd,
        row: &NodeRecord,
    ) -> Result<DeviceRow, NoMemory>
        ensures { IfOk result
            (λ device. device ≡ new_device self.now.table (seen_device_add c.now) row.now) }
    {
        Ok(DeviceRow {
            id: Name::copied(alloc, c.id.as_str())?,
            number: self.device_number(c.id.as_str())?,
            share_rw: shares(c.share_rw),
            read_only: row.read_only,
        })
    }

    #[tactic(auto, using(std::proofs::lemmas::List::append_assoc))]
    fn plan_device(
        &self,
        alloc: Global,
        edits: &mut Vec<Change>,
        c: &DeviceAdd,
        row: &NodeRecord,
    ) -> Result<(), NoMemory>
        ensures { OnOk result (edits.new.items ≡ edits.old.items ++ (device_uses row.now
            ++ Change.AddDevice (new_device self.now.table (seen_device_add c.now) row.now)
            row.now.id ∷ [])) }
    {
        put_device_uses(alloc, edits, row)?;
        let device = self.new_device(alloc, c, row)?;
        put(
            edits,
            Change::AddDevice {
                device,
                node: row.id,
            },
        )
    }

    fn plan_device_add(
        &self,
        alloc: Global,
        edits: &mut Vec<Change>,
        c: &DeviceAdd,
    ) -> Result<(), NoMemory>
        ensures { OnOk result (edits.new.items
            ≡ edits.old.items ++ device_add_edits self.now.table (seen_device_add c.now)) }
    {
        match self.node_named(c.drive.as_str()) {
            Some(row) => self.plan_device(alloc, edits, c, row),
            None => Ok(()),
        }
    }

    fn plan_device_del(&self, edits: &mut Vec<Change>, id: &str) -> Result<(), NoMemory>
        ensures { OnOk result
            (edits.new.items ≡ edits.old.items ++ device_del_edits self.now.table id.now) }
    {
        match self.device_named(id) {
            Some(device) => put(edits, Change::RemoveDevice(device.number)),
            None => Ok(()),
        }
    }

    #[tactic(auto, using(std::proofs::lemmas::List::append_assoc))]
    fn plan_snapshot(&self, edits: &mut Vec<Change>, c: &Snapshot) -> Result<(), NoMemory>
        ensures { OnOk result (edits.new.items
            ≡ edits.old.items ++ snapshot_edits self.now.table (seen_snapshot c.now)) }
    {
        let node = self.id_of(c.node.as_str());
        let overlay = self.id_of(c.overlay.as_str());
        put(edits, Change::Attach { overlay, node })?;
        put(
            edits,
            Change::Move {
                from: node,
                to: overlay,
                but: overlay,
            },
        )
    }

    /// What a command that is carried out makes of the table, once it is accepted.
    #[tactic(auto, unfolding(crate::specs::Edits::edits_of))]
    fn plan_edits(
        &self,
        alloc: Global,
        edits: &mut Vec<Change>,
        told: &Told,
        command: &Command,
    ) -> Result<(), NoMemory>
        ensures { OnOk result (edits.new.items
            ≡ edits.old.items ++ edits_of self.now.table told.now (seen_command command.now)) }
    {
        match command {
            Command::Capabilities(_) => put(edits, Change::Negotiate),
            Command::BlockdevCreate(c) => self.plan_create(alloc, edits, c),
            Command::JobDismiss(id) => put(
                edits,
                Change::DropId(Name::copied(alloc, id.as_str())?),
            ),
            Command::BlockdevAdd(c) => self.plan_add(alloc, edits, told, c),
            Command::BlockdevDel(name) => self.plan_del(alloc, edits, name.as_str()),
            Command::DeviceAdd(c) => self.plan_device_add(alloc, edits, c),
            Command::DeviceDel(id) => self.plan_device_del(edits, id.as_str()),
            Command::BlockdevSnapshot(c) => self.plan_snapshot(edits, c),
            Command::Transaction(_) | Command::QueryBlockJobs | Command::QueryNamedBlockNodes(_) =>
                Ok(()),
            Command::BlockStream(c) => self.plan_stream(alloc, edits, c),
            Command::BlockCommit(c) => self.plan_commit(alloc, edits, c),
            Command::BlockdevMirror(c) => self.plan_mirror(alloc, edits, c),
            Command::BlockdevBackup(c) => self.plan_backup(alloc, edits, None, c),
            Command::BlockJobCancel(job, force) => self.plan_cancel(edits, job.as_str(), *force),
            Command::BlockJobComplete(job) => self.plan_complete(edits, job.as_str()),
            Command::BitmapAdd(c) => self.plan_bitmap_add(alloc, edits, c),
            Command::BitmapRemove(c) => self.plan_bitmap_remove(alloc, edits, c),
            Command::BitmapClear(c) => self.plan_bitmap_clear(alloc, edits, c),
            Command::BitmapEnable(c) => self.plan_bitmap_turn(alloc, edits, true, c),
            Command::BitmapDisable(c) => self.plan_bitmap_turn(alloc, edits, false, c),
            Command::BitmapMerge(c) => self.plan_merge(alloc, edits, c),
        }
    }

    /// What an action of a transaction makes of the table, whose jobs have this group.
    #[tactic(auto, unfolding(crate::specs::Edits::action_edits))]
    pub(crate) fn plan_action(
        &self,
        alloc: Global,
        edits: &mut Vec<Change>,
        group: Option<u32>,
        action: &Action,
    ) -> Result<(), NoMemory>
        ensures { OnOk result (edits.new.items
            ≡ edits.old.items ++ action_edits self.now.table group (seen_action action.now)) }
    {
        match action {
            Action::Abort | Action::Unknown => Ok(()),
            Action::Snapshot(c) => self.plan_snapshot(edits, c),
            Action::Backup(c) => self.plan_backup(alloc, edits, group, c),
            Action::BitmapAdd(c) => self.plan_bitmap_add(alloc, edits, c),
            Action::BitmapRemove(c) => self.plan_bitmap_remove(alloc, edits, c),
            Action::BitmapClear(c) => self.plan_bitmap_clear(alloc, edits, c),
            Action::BitmapEnable(c) => self.plan_bitmap_turn(alloc, edits, true, c),
            Action::BitmapDisable(c) => self.plan_bitmap_turn(alloc, edits, false, c),
            Action::BitmapMerge(c) => self.plan_merge(alloc, edits, c),
        }
    }

    /// The same, alone.
    pub(crate) fn edits_of(
        &self,
        alloc: Global,
        told: &Told,
        command: &Command,
    ) -> Result<Vec<Change>, NoMemory>
        ensures { IfOk result
            (λ edits. edits.items ≡ edits_of self.now.table told.now (seen_command command.now)) }
    {
        let mut edits = Vec::new(alloc);
        self.plan_edits(alloc, &mut edits, told, command)?;
        Ok(edits)
    }
}
