//! The changes that the end of a job makes, and that it becomes ready, in memory that was taken before.
ghost use Rattle.std.specs.Prelude.{◌≡◌, ◌+◌, ◌<◌, ◌≤◌, ◌++◌, IfOk, List, Option, option_and_then, option_to_list, slice_get, true, vec_capacity, vec_len};
ghost use Rattle.std.specs.List.{list_all};
ghost use Rattle.blk_graph.specs.declared.edge.Role.TheVariants.{File};
ghost use Rattle.qmp_rules.specs.Ends.{done_edits, drops_aside, drops_by, end_edits, filter_gone, given_back_to, is_done, is_of_event, moves, overlay_to, parents_to, read_only_if, ready_edits, settle_if, settled_by, settles_target, top_lost};
ghost use Rattle.qmp_rules.specs.Table.{child};

use crate::change::{Change, Edits, JobOutcome, NewDisk};
use crate::rows::{JobRecord, UsedBitmap};
use crate::table::Names;
use blk_base::NoMemory;
use blk_graph::{NodeId, Role};
use qmp_codec::{BitmapMode, JobKind};
use std::alloc::Global;
use std::marker::Model;

// no end makes as many
const MOST_CHANGES: usize = 8;

/// Memory for the changes of one event of a job: that it is ready, or its end.
#[derive(Drop)]
pub struct EventRoom {
    // empty
    changes: Vec<Change>,
}

impl Model for EventRoom {
    ghost use Rattle.std.specs.Prelude.{◌≡◌, ◌≤◌, [], ⊤, vec_capacity, vec_len};

    ghost Value = { ⊤ };

    ghost view = { λ _. tt };

    ghost invariant = { λ r. (r.changes.items ≡ [])
        × ((vec_len r.changes ≡ 0) × (8 ≤ vec_capacity r.changes)) };
}

fn is_done(outcome: JobOutcome) -> bool
    ensures { result ≡ is_done outcome }
{
    match outcome {
        JobOutcome::Completed | JobOutcome::Pivoted | JobOutcome::Copied => true,
        JobOutcome::Stopped => false,
    }
}

/// Whether what stands aside of the job's bitmap is dropped.
fn drops_aside(outcome: JobOutcome, used: &Option<UsedBitmap>) -> bool
    ensures { result ≡ drops_aside outcome used.now }
{
    match used {
        Some(used) => matches!(used.mode, BitmapMode::OnSuccess) && is_done(outcome),
        None => false,
    }
}

fn filter_gone(filter: Option<NodeId>) -> Option<Change>
    ensures { option_to_list result ≡ filter_gone filter }
{
    match filter {
        Some(filter) => Some(Change::PullFilter(filter)),
        None => None,
    }
}

/// All parents of the source but jobs and the filter use the target.
fn parents_to(source: NodeId, filter: Option<NodeId>, target: Option<NodeId>) -> Option<Change>
    ensures { option_to_list result ≡ parents_to source filter target }
{
    match filter {
        Some(but) => match target {
            Some(to) => Some(Change::Move {
                from: source,
                to,
                but,
            }),
            None => None,
        },
        None => None,
    }
}

/// The overlay over the top has another backing node.
fn overlay_to(overlays: &[NodeId], base: Option<NodeId>) -> Option<Change>
    ensures { option_to_list result ≡ overlay_to (slice_get overlays.now 0) base }
{
    match overlays {
        [overlay, ..] => Some(Change::Rebase {
            node: *overlay,
            backing: base,
        }),
        [] => None,
    }
}

fn stream_moves(row: &JobRecord, outcome: JobOutcome) -> Option<Change>
    ensures { option_to_list result ≡ moves row.now JobKind.Stream outcome }
{
    match outcome {
        JobOutcome::Completed => Some(Change::Rebase {
            node: row.source,
            backing: row.target,
        }),
        JobOutcome::Pivoted | JobOutcome::Copied | JobOutcome::Stopped => None,
    }
}

fn commit_moves(row: &JobRecord, outcome: JobOutcome) -> Option<Change>
    ensures { option_to_list result ≡ moves row.now JobKind.Commit outcome }
{
    match outcome {
        JobOutcome::Completed => overlay_to(row.read.as_slice(), row.target),
        JobOutcome::Pivoted => parents_to(row.source, row.filter, row.target),
        JobOutcome::Copied | JobOutcome::Stopped => None,
    }
}

fn mirror_moves(row: &JobRecord, outcome: JobOutcome) -> Option<Change>
    ensures { option_to_list result ≡ moves row.now JobKind.Mirror outcome }
{
    match outcome {
        JobOutcome::Pivoted => parents_to(row.source, row.filter, row.target),
        JobOutcome::Completed | JobOutcome::Copied | JobOutcome::Stopped => None,
    }
}

fn moves(row: &JobRecord, outcome: JobOutcome) -> Option<Change>
    ensures { option_to_list result ≡ moves row.now row.now.kind outcome }
{
    match row.kind {
        JobKind::Stream => stream_moves(row, outcome),
        JobKind::Commit => commit_moves(row, outcome),
        JobKind::Mirror => mirror_moves(row, outcome),
        JobKind::Backup => None,
    }
}

/// A backup by bitmap onto a target that was unsettled leaves it so.
fn settles_target(used: &Option<UsedBitmap>) -> bool
    ensures { result ≡ settles_target used.now }
{
    match used {
        Some(used) => used.onto_settled,
        None => true,
    }
}

fn settle_if(so: bool, target: Option<NodeId>, disk: NewDisk) -> Option<Change>
    ensures { option_to_list result ≡ settle_if so target disk }
{
    match target {
        Some(node) if so => Some(Change::Settle { node, disk }),
        _ => None,
    }
}

/// The target's disk: of a backup what its start found, of a mirror and a commit what the source reads as.
fn settled_by(row: &JobRecord) -> Option<Change>
    ensures { option_to_list result ≡ settled_by row.now row.now.kind }
{
    match row.kind {
        JobKind::Stream => None,
        JobKind::Commit | JobKind::Mirror => {
            settle_if(true, row.target, NewDisk::OfNode(row.source))
        }
        JobKind::Backup => {
            let so = settles_target(&row.bitmap);
            settle_if(so, row.target, NewDisk::OfStart(row.number))
        }
    }
}

/// The top of a commit after a pivot.
fn top_lost(row: &JobRecord, outcome: JobOutcome) -> Option<Change>
    ensures { option_to_list result ≡ top_lost row.now row.now.kind outcome }
{
    match row.kind {
        JobKind::Commit => match outcome {
            JobOutcome::Pivoted => Some(Change::Unsettle(row.source)),
            JobOutcome::Completed | JobOutcome::Copied | JobOutcome::Stopped => None,
        },
        JobKind::Stream | JobKind::Mirror | JobKind::Backup => None,
    }
}

fn read_only_if(so: bool, node: Option<NodeId>) -> Option<Change>
    ensures { option_to_list result ≡ read_only_if so node }
{
    match node {
        Some(id) if so => Some(Change::MakeReadOnly(id)),
        _ => None,
    }
}

fn put_some(list: &mut Vec<Change>, change: Option<Change>)
    requires { vec_len list.old < vec_capacity list.old }
    ensures items { list.new.items ≡ list.old.items ++ option_to_list change }
    ensures len { vec_len list.new ≤ vec_len list.old + 1 }
    ensures capacity { vec_capacity list.new ≡ vec_capacity list.old }
{
    match change {
        Some(change) => list.push_reserved(change),
        None => {}
    }
}

/// What an end without error moves and settles.
#[tactic(auto, using(std::proofs::lemmas::List::append_assoc))]
fn put_moved(list: &mut Vec<Change>, row: &JobRecord, outcome: JobOutcome)
    requires { vec_len list.old + 3 ≤ vec_capacity list.old }
    ensures items { list.new.items ≡ list.old.items
        ++ moves row.now row.now.kind outcome
        ++ settled_by row.now row.now.kind
        ++ top_lost row.now row.now.kind outcome }
    ensures len { vec_len list.new ≤ vec_len list.old + 3 }
    ensures capacity { vec_capacity list.new ≡ vec_capacity list.old }
{
    put_some(list, moves(row, outcome));
    put_some(list, settled_by(row));
    put_some(list, top_lost(row, outcome));
}

fn put_done(list: &mut Vec<Change>, row: &JobRecord, outcome: JobOutcome)
    requires { vec_len list.old + 3 ≤ vec_capacity list.old }
    ensures items { list.new.items ≡ list.old.items ++ done_edits row.now outcome }
    ensures len { vec_len list.new ≤ vec_len list.old + 3 }
    ensures capacity { vec_capacity list.new ≡ vec_capacity list.old }
{
    match outcome {
        JobOutcome::Completed => put_moved(list, row, JobOutcome::Completed),
        JobOutcome::Pivoted => put_moved(list, row, JobOutcome::Pivoted),
        JobOutcome::Copied => put_moved(list, row, JobOutcome::Copied),
        JobOutcome::Stopped => {}
    }
}

impl Names {
    /// The file node under a base.
    pub(crate) fn file_below(&self, base: Option<NodeId>) -> Option<NodeId>
        ensures { result ≡ option_and_then (λ id. child self.now.table id File) base }
    {
        match base {
            Some(id) => self.child(id, Role::File),
            None => None,
        }
    }

    /// The base that a commit made writable, and the file node under it.
    #[tactic(auto, using(std::proofs::lemmas::List::append_assoc))]
    fn put_base_back(&self, list: &mut Vec<Change>, row: &JobRecord)
        requires { vec_len list.old + 2 ≤ vec_capacity list.old }
        ensures items { list.new.items
            ≡ list.old.items ++ given_back_to self.now.table row.now JobOutcome.Completed }
        ensures len { vec_len list.new ≤ vec_len list.old + 2 }
        ensures capacity { vec_capacity list.new ≡ vec_capacity list.old }
    {
        put_some(list, read_only_if(row.made_writable.base, row.target));
        let file = self.file_below(row.target);
        put_some(list, read_only_if(row.made_writable.file, file));
    }

    fn put_given_back(&self, list: &mut Vec<Change>, row: &JobRecord, outcome: JobOutcome)
        requires { vec_len list.old + 2 ≤ vec_capacity list.old }
        ensures items { list.new.items
            ≡ list.old.items ++ given_back_to self.now.table row.now outcome }
        ensures len { vec_len list.new ≤ vec_len list.old + 2 }
        ensures capacity { vec_capacity list.new ≡ vec_capacity list.old }
    {
        match outcome {
            JobOutcome::Pivoted => {}
            JobOutcome::Completed | JobOutcome::Copied | JobOutcome::Stopped => {
                self.put_base_back(list, row);
            }
        }
    }
}

impl EventRoom {
    /// Memory for one event, whichever it is.
    pub fn new(alloc: Global) -> Result<Self, NoMemory> {
        let changes = Vec::with_capacity(alloc, MOST_CHANGES)?;
        Ok(EventRoom { changes })
    }

    #[tactic(auto, using(std::proofs::lemmas::List::append_assoc), unfolding(crate::specs::Ends::end_edits))]
    fn put_end(self, names: &Names, row: &JobRecord, outcome: JobOutcome) -> Edits
        ensures { result ≡ end_edits names.now.table row.now outcome }
    {
        let mut list = self.changes;
        list.push_reserved(Change::EndJob {
            number: row.number,
            slot: row.slot,
            drops: drops_aside(outcome, &row.bitmap),
        });
        put_some(&mut list, filter_gone(row.filter));
        put_done(&mut list, row, outcome);
        names.put_given_back(&mut list, row, outcome);
        Edits::new(list)
    }

    /// What the end of a job makes of the table. Takes no memory, and its changes take none (`Names::apply_event`).
    #[tactic(auto, using(crate::proofs::EndLemmas::ends_are_events))]
    pub fn end_edits(self, names: &Names, row: &JobRecord, outcome: JobOutcome) -> Edits
        ensures edits { result ≡ end_edits names.now.table row.now outcome }
        ensures events { list_all is_of_event result ≡ true }
    {
        self.put_end(names, row, outcome)
    }

    /// That a job is ready. Takes no memory, and its change takes none (`Names::apply_event`).
    pub fn ready_edits(self, row: &JobRecord) -> Edits
        ensures edits { result ≡ ready_edits row.now }
        ensures events { list_all is_of_event result ≡ true }
    {
        let mut list = self.changes;
        list.push_reserved(Change::ReadyJob(row.number));
        Edits::new(list)
    }
}
