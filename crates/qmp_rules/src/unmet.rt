//! What each ask looks at, and the refusal where it is not met.
ghost use Rattle.std.specs.Prelude.{◌≡◌, ◌&&◌, ◌||◌, IfOk, not, nat_le, nat_lt, ◌+◌, false, length, bytes_eq, is_none, is_some, option_and_then};
ghost use Rattle.std.specs.Option.{option_copied};
ghost use Rattle.qmp_rules.specs.Asks.{busy, differ, file_node, held_by, if_named, if_there, in_use, in_use_at, is_guarded, is_lost, lost, name_of_file, part_begins, part_ends, part_too_long, sizes_differ, takes, told_at};
ghost use Rattle.qmp_rules.specs.Chains.{holder, is_settled};
ghost use Rattle.qmp_asks.specs.Naming.{inline_name, is_file_name, is_name};
ghost use Rattle.qmp_rules.specs.Refusals.{refused};
ghost use Rattle.qmp_asks.specs.Seen.{seen_text};
ghost use Rattle.qmp_rules.specs.Table.{bitmap_named, child, device_named, has_name, id_named, job_named, node_named};
ghost use Rattle.blk_graph.specs.declared.edge.Role.TheVariants.{Backing};

use crate::find;
use crate::refusal::{Crowd, FileFault, Refusal};
use crate::refuse::{self, Found};
use crate::rows::{BitmapRow, FileState, JobRecord, NodeRecord};
use crate::table::Names;
use crate::told::Told;
use blk_graph::{Edge, Kind, NodeId, Role};
use qmp_asks::{
    Drivers, Look, begins_within, ends_within, inline_name, is_file_name, is_name, part_fits,
};
use qmp_codec::Amount;
use std::alloc::Global;

pub(crate) fn takes(which: Drivers, kind: Kind) -> bool
    ensures { result ≡ takes which kind }
{
    match which {
        Drivers::File => matches!(kind, Kind::Protocol),
        Drivers::Qcow2 => matches!(kind, Kind::Qcow2),
        Drivers::RawOrQcow2 => matches!(kind, Kind::Raw | Kind::Qcow2),
        Drivers::FileRawOrQcow2 => matches!(kind, Kind::Protocol | Kind::Raw | Kind::Qcow2),
    }
}

/// Whether a file's bytes are not known to a node over it.
fn is_lost(is_raw: bool, state: Option<FileState>) -> bool
    ensures { result ≡ is_lost is_raw state }
{
    match state {
        Some(FileState::Used) => true,
        Some(FileState::Formatted) => is_raw,
        Some(FileState::Made) | None => false,
    }
}

/// The name of the file that a node stands for, empty where there is none.
pub(crate) fn name_of_file(row: &NodeRecord) -> &str
    ensures { result.now ≡ name_of_file row.now }
{
    match &row.filename {
        Some(name) => name.as_str(),
        None => "",
    }
}

pub(crate) fn named(alloc: Global, member: &str, text: Option<&str>) -> Found
    ensures { IfOk result (λ found. found
        ≡ if_named (λ name. refused (not (is_name name)) (Refusal.BadName member.now))
        (seen_text text.entry)) }
{
    match text {
        Some(name) => refuse::bad_name(alloc, !is_name(name), member),
        None => Ok(None),
    }
}

pub(crate) fn file_named(alloc: Global, member: &str, text: Option<&str>) -> Found
    ensures { IfOk result (λ found. found
        ≡ if_named (λ name. refused (not (is_file_name name)) (Refusal.BadName member.now))
        (seen_text text.entry)) }
{
    match text {
        Some(name) => refuse::bad_name(alloc, !is_file_name(name), member),
        None => Ok(None),
    }
}

/// Refuses a second name that is the first one.
pub(crate) fn apart(alloc: Global, first: &str, second: Option<&str>) -> Found
    ensures { IfOk result (λ found. found
        ≡ if_named (λ other. refused (bytes_eq first.now other) (Refusal.NameTaken first.now))
        (seen_text second.entry)) }
{
    match second {
        Some(other) => refuse::name_taken(alloc, first == other, first),
        None => Ok(None),
    }
}

/// Refuses a backing node that is the file node.
pub(crate) fn beside(alloc: Global, backing: Option<&str>, file: &str) -> Found
    ensures { IfOk result (λ found. found
        ≡ if_named (λ other. refused (bytes_eq other file.now) (Refusal.Unsettled other))
        (seen_text backing.entry)) }
{
    match backing {
        Some(other) => refuse::unsettled(alloc, other == file, other),
        None => Ok(None),
    }
}

pub(crate) fn sizes_differ(alloc: Global, first: &NodeRecord, second: &NodeRecord) -> Found
    ensures { IfOk result (λ found. found ≡ sizes_differ first.now second.now) }
{
    refuse::size_differs(
        alloc,
        first.size != second.size,
        first.name.as_str(),
        second.name.as_str(),
    )
}

pub(crate) fn differ(
    alloc: Global,
    first: Option<&NodeRecord>,
    second: Option<&NodeRecord>,
) -> Found
    ensures { IfOk result
        (λ found. found ≡ differ (option_copied first.entry) (option_copied second.entry)) }
{
    match (first, second) {
        (Some(first), Some(second)) => sizes_differ(alloc, first, second),
        _ => Ok(None),
    }
}

/// Refuses a file node, made with the node over it, that is read-only where the other isn't.
pub(crate) fn writable_with(alloc: Global, node: &str, own: Option<&str>, ok: bool) -> Found
    ensures { IfOk result (λ found. found
        ≡ refused (not ok) (Refusal.ReadOnly (inline_name node.now (seen_text own.entry)))) }
{
    if ok {
        Ok(None)
    } else {
        Ok(Some(Refusal::ReadOnly(inline_name(alloc, node, own)?)))
    }
}

/// What the files decided, where it is what is looked for.
pub(crate) fn told_at(look: Look, told: &Told) -> Found
    ensures { IfOk result (λ found. found ≡ told_at look told.now.stopped) }
{
    match &told.stopped {
        Some(stopped) if look.is(stopped.look) => Ok(Some(stopped.refusal.clone()?)),
        Some(_) | None => Ok(None),
    }
}

impl Names {
    /// The file node of a name.
    pub(crate) fn file_node(&self, name: &str) -> Option<&NodeRecord>
        ensures { option_copied result ≡ file_node self.now.table name.now }
    {
        match self.node_named(name) {
            Some(row) if takes(Drivers::File, row.kind) => Some(row),
            Some(_) | None => None,
        }
    }

    pub(crate) fn begins(&self, alloc: Global, file: &str, offset: Option<Amount>) -> Found
        ensures { IfOk result (λ found. found
            ≡ if_there (part_begins offset) (file_node self.now.table file.now)) }
    {
        match self.file_node(file) {
            Some(row) => refuse::bad_value(alloc, !begins_within(offset, row.size), "offset"),
            None => Ok(None),
        }
    }

    pub(crate) fn ends(
        &self,
        alloc: Global,
        file: &str,
        offset: Option<Amount>,
        size: Option<Amount>,
    ) -> Found
        ensures { IfOk result (λ found. found
            ≡ if_there (part_ends offset size) (file_node self.now.table file.now)) }
    {
        match self.file_node(file) {
            Some(row) => refuse::bad_value(alloc, !ends_within(offset, size, row.size), "size"),
            None => Ok(None),
        }
    }

    pub(crate) fn fits(
        &self,
        alloc: Global,
        file: &str,
        offset: Option<Amount>,
        size: Option<Amount>,
    ) -> Found
        ensures { IfOk result (λ found. found
            ≡ if_there (part_too_long self.now.table offset size)
            (file_node self.now.table file.now)) }
    {
        match self.file_node(file) {
            Some(row) => {
                let name = name_of_file(row);
                let ok = part_fits(offset, size, row.size) || is_lost(false, self.file_state(name));
                refuse::file(alloc, !ok, name, FileFault::TooLong)
            }
            None => Ok(None),
        }
    }

    pub(crate) fn known(&self, alloc: Global, is_raw: bool, file: &str) -> Found
        ensures { IfOk result (λ found. found ≡ lost self.now.table is_raw file.now) }
    {
        refuse::file_used(alloc, is_lost(is_raw, self.file_state(file)), file)
    }

    pub(crate) fn known_under(&self, alloc: Global, is_raw: bool, file: &str) -> Found
        ensures { IfOk result (λ found. found
            ≡ if_there (λ row. lost self.now.table is_raw (name_of_file row))
            (file_node self.now.table file.now)) }
    {
        match self.file_node(file) {
            Some(row) => self.known(alloc, is_raw, name_of_file(row)),
            None => Ok(None),
        }
    }

    pub(crate) fn found(&self, alloc: Global, name: Option<&str>) -> Found
        ensures { IfOk result (λ found. found ≡ if_named
            (λ other. refused (is_none (node_named self.now.table other))
            (Refusal.NotFound other false))
            (seen_text name.entry)) }
    {
        match name {
            Some(name) => refuse::not_found(alloc, self.node_named(name).is_none(), name, false),
            None => Ok(None),
        }
    }

    pub(crate) fn bitmap_found(&self, alloc: Global, node: &str, name: Option<&str>) -> Found
        ensures { IfOk result (λ found. found ≡ if_named
            (λ other. refused (is_none (bitmap_named self.now.table node.now other))
            (Refusal.NotFound other false))
            (seen_text name.entry)) }
    {
        match name {
            Some(name) => {
                refuse::not_found(alloc, self.bitmap_named(node, name).is_none(), name, false)
            }
            None => Ok(None),
        }
    }

    pub(crate) fn fresh_node(&self, alloc: Global, name: Option<&str>) -> Found
        ensures { IfOk result (λ found. found ≡ if_named
            (λ other. refused (is_some (node_named self.now.table other)) (Refusal.NameTaken other))
            (seen_text name.entry)) }
    {
        match name {
            Some(name) => refuse::name_taken(alloc, self.node_named(name).is_some(), name),
            None => Ok(None),
        }
    }

    pub(crate) fn fresh_job(&self, alloc: Global, id: &str) -> Found
        ensures { IfOk result (λ found. found ≡ refused
            (is_some (job_named self.now.table id.now) || has_name id.now self.now.table.kept)
            (Refusal.NameTaken id.now)) }
    {
        let taken = self.job_named(id).is_some() || self.is_kept(id);
        refuse::name_taken(alloc, taken, id)
    }

    pub(crate) fn room_for_nodes(&self, count: u8) -> Found
        ensures { IfOk result (λ found. found
            ≡ refused (nat_lt 64 (length self.now.table.nodes + count))
            (Refusal.TooMany Crowd.Nodes)) }
    {
        let there = self.nodes().len();
        refuse::too_many(there > 64 || there + usize::from(count) > 64, Crowd::Nodes)
    }

    pub(crate) fn room_for_device(&self) -> Found
        ensures { IfOk result (λ found. found
            ≡ refused (nat_le 64 (length self.now.table.devices)) (Refusal.TooMany Crowd.Devices)) }
    {
        refuse::too_many(64 <= self.devices().len(), Crowd::Devices)
    }

    pub(crate) fn room_for_job(&self) -> Found
        ensures { IfOk result (λ found. found
            ≡ refused (nat_le 16 (length self.now.table.jobs)) (Refusal.TooMany Crowd.Jobs)) }
    {
        refuse::too_many(16 <= self.jobs().len(), Crowd::Jobs)
    }

    pub(crate) fn room_for_bitmap(&self) -> Found
        ensures { IfOk result (λ found. found
            ≡ refused (nat_le 64 (length self.now.table.bitmaps)) (Refusal.TooMany Crowd.Bitmaps)) }
    {
        refuse::too_many(64 <= self.bitmaps().len(), Crowd::Bitmaps)
    }

    pub(crate) fn drives(&self, alloc: Global, node: Option<&str>, which: Drivers) -> Found
        ensures { IfOk result (λ found. found ≡ if_there
            (λ row. refused (not (takes which row.kind)) (Refusal.Driver row.name))
            (option_and_then (node_named self.now.table) (seen_text node.entry))) }
    {
        match self.maybe_named(node) {
            Some(row) => refuse::driver(alloc, !takes(which, row.kind), row.name.as_str()),
            None => Ok(None),
        }
    }

    /// The node of a name that may be absent.
    fn maybe_named(&self, name: Option<&str>) -> Option<&NodeRecord>
        ensures { option_copied result
            ≡ option_and_then (node_named self.now.table) (seen_text name.entry) }
    {
        match name {
            Some(name) => self.node_named(name),
            None => None,
        }
    }

    pub(crate) fn settled(&self, alloc: Global, name: Option<&str>) -> Found
        ensures { IfOk result (λ found. found ≡ if_there
            (λ row. refused (not (is_settled self.now.table row.id)) (Refusal.Unsettled row.name))
            (option_and_then (node_named self.now.table) (seen_text name.entry))) }
    {
        match self.maybe_named(name) {
            Some(row) => refuse::unsettled(alloc, !self.is_settled(row.id), row.name.as_str()),
            None => Ok(None),
        }
    }

    /// Refuses a node that a job holds.
    pub(crate) fn held_by(&self, alloc: Global, id: NodeId, job: Option<&JobRecord>) -> Found
        ensures { IfOk result
            (λ found. found ≡ held_by self.now.table id (option_copied job.entry)) }
    {
        match job {
            Some(job) => refuse::job_holds(alloc, self.name_at(id), job.id.as_str()),
            None => Ok(None),
        }
    }

    pub(crate) fn unheld(&self, alloc: Global, node: &str) -> Found
        ensures { IfOk result (λ found. found ≡ if_there
            (λ id. held_by self.now.table id (holder self.now.table id))
            (id_named self.now.table node.now)) }
    {
        match self.id_named(node) {
            Some(id) => self.held_by(alloc, id, self.holder(id)),
            None => Ok(None),
        }
    }

    fn busy(&self, alloc: Global, row: &BitmapRow) -> Found
        ensures { IfOk result (λ found. found ≡ busy self.now.table row.now) }
    {
        match row.busy {
            Some(job) => refuse::bitmap_busy(alloc, row.name.as_str(), self.job_id(job)),
            None => Ok(None),
        }
    }

    pub(crate) fn bitmap_free(&self, alloc: Global, node: &str, name: Option<&str>) -> Found
        ensures { IfOk result (λ found. found ≡ if_there (busy self.now.table)
            (option_and_then (bitmap_named self.now.table node.now) (seen_text name.entry))) }
    {
        let Some(name) = name else {
            return Ok(None);
        };
        match self.bitmap_named(node, name) {
            Some(row) => self.busy(alloc, row),
            None => Ok(None),
        }
    }

    /// Whether a node is read-only, or only a commit that runs made it writable.
    fn is_guarded(&self, row: &NodeRecord) -> bool
        ensures { result ≡ is_guarded self.now.table row.now }
    {
        row.read_only || find::is_lent(self.jobs(), row.id)
    }

    pub(crate) fn writable(&self, alloc: Global, node: &str) -> Found
        ensures { IfOk result (λ found. found ≡ if_there
            (λ row. refused (is_guarded self.now.table row) (Refusal.ReadOnly row.name))
            (node_named self.now.table node.now)) }
    {
        match self.node_named(node) {
            Some(row) => refuse::read_only(alloc, self.is_guarded(row), row.name.as_str()),
            None => Ok(None),
        }
    }

    pub(crate) fn writable_under(&self, alloc: Global, file: &str, read_only: bool) -> Found
        ensures { IfOk result (λ found. found ≡ if_there
            (λ row. refused (row.read_only && not read_only) (Refusal.ReadOnly row.name))
            (node_named self.now.table file.now)) }
    {
        match self.node_named(file) {
            Some(row) => refuse::read_only(alloc, row.read_only && !read_only, row.name.as_str()),
            None => Ok(None),
        }
    }

    pub(crate) fn no_backing(&self, alloc: Global, node: &str) -> Found
        ensures { IfOk result (λ found. found ≡ if_there
            (λ row. refused (is_some (child self.now.table row.id Backing))
            (Refusal.HasBacking row.name))
            (node_named self.now.table node.now)) }
    {
        match self.node_named(node) {
            Some(row) => {
                let backed = self.child(row.id, Role::Backing).is_some();
                refuse::has_backing(alloc, backed, row.name.as_str())
            }
            None => Ok(None),
        }
    }

    /// Refuses a node that an edge leads into.
    pub(crate) fn in_use(&self, alloc: Global, name: &str, edge: Option<&Edge>) -> Found
        ensures { IfOk result
            (λ found. found ≡ in_use self.now.table name.now (option_copied edge.entry)) }
    {
        match edge {
            Some(edge) => refuse::in_use(alloc, true, name, self.parent_name(edge.parent)),
            None => Ok(None),
        }
    }

    pub(crate) fn lone(&self, alloc: Global, node: &str) -> Found
        ensures { IfOk result (λ found. found ≡ if_there
            (in_use_at self.now.table node.now) (id_named self.now.table node.now)) }
    {
        match self.id_named(node) {
            Some(id) => self.in_use(alloc, node, self.first_into(id)),
            None => Ok(None),
        }
    }

    pub(crate) fn job_ready(&self, alloc: Global, id: &str) -> Found
        ensures { IfOk result (λ found. found ≡ if_there
            (λ job. refused (not job.is_ready) (Refusal.NotReady id.now))
            (job_named self.now.table id.now)) }
    {
        match self.job_named(id) {
            Some(job) => refuse::not_ready(alloc, !job.is_ready, id),
            None => Ok(None),
        }
    }
}
