//! Commands that start backups and mirrors.
ghost use Rattle.std.specs.Prelude.{◌≡◌, ◌++◌, ◌<◌, ◌≤◌, ◌^◌, ℕ, List, None, Ok, Some, IfOk, IfSome, IsSome, OnErr, OnOk, option_copied, length, option_map, string_bytes};
ghost use Rattle.blk_bitmaps.specs.Refusals.{find, use_refusal};
ghost use Rattle.blk_bitmaps.specs.Rows.{IsSpareOf};
ghost use Rattle.flat_machine.specs.Bitmaps.{AreBitmapsOf};
ghost use Rattle.flat_machine.specs.Marks.{ids_of};
ghost use Rattle.flat_machine.specs.State.{State, drive_of};
ghost use Rattle.flat_machine.specs.Wiring.{TableAtRest};
ghost use Rattle.job_commands.specs.Begun.{CopyCmd, cmd_of, copy_job};
ghost use Rattle.job_tables.specs.Accepted.{JobsGoOn};
ghost use Rattle.qmp_asks.specs.Seen.{seen_text};
ghost use Rattle.qmp_codec.specs.Commands.{seen_command};
ghost use Rattle.qmp_rules.specs.Answers.{command_edits, refusal_to, returned, told_none};
ghost use Rattle.qmp_rules.specs.Changes.{all_changed};
ghost use Rattle.blk_nodes.specs.Nodes.{filter_kind};
ghost use Rattle.qmp_rules.specs.Edits.{filter_name};
ghost use Rattle.qmp_rules.specs.Fitting.{AllChangesFit};
ghost use Rattle.qmp_rules.specs.Room.{HasRoomForChanges};
ghost use Rattle.qmp_rules.specs.Table.{id_named, kinds_of, node_named};
ghost use Rattle.world_jobs.specs.Beginning.{IsAsideFor, IsNewJob, IsUsable, aside_of, bitmap_by, work_by};
ghost use Rattle.world_jobs.specs.Filtering.{filter_of};
ghost use Rattle.world_jobs.specs.Plans.{drained_node, plan_of, seen_plan};
ghost use Rattle.world_jobs.specs.Starting.{BeginsBehind, CanStart, FilterFits, HasFilter, IsStartOf, StartFits, name_of, shape_over, start_scene};
ghost use Rattle.world_parts.specs.Coherent.{AreNodesOf};
ghost use Rattle.world_parts.specs.Draining.{IsFirstOf, held_if};
ghost use Rattle.world_parts.specs.Saying.{IsSaid};

use crate::filtering::{FilterShape, filter_of, put_filter};
use crate::new_job::{Aside, NewJob};
use crate::plan::CopyPlan;
use crate::start::Started;
use blk_base::{Device, NoMemory, PIECE, Text};
use blk_bitmaps::{Bitmap, BitmapStop, Bitmaps};
use blk_bits::DirtySet;
use blk_graph::NodeId;
use blk_history::JobName;
use blk_nodes::Nodes;
use block_jobs::JobWork;
use qmp_codec::{Command, JobKind};
use qmp_rules::{Edits, EventRoom, Names, NodeRecord, Told};
use std::alloc::Global;
use world_parts::{Drained, InTheWay, Progress, accepted_text, first_in_the_way, refused};

// ---- the request that it waits for

fn listed(alloc: Global, node: Option<NodeId>) -> Result<Vec<NodeId>, NoMemory>
    ensures { IfOk result (λ disks. disks.items ≡ ids_of node) }
{
    let mut disks = Vec::new(alloc);
    if let Some(node) = node {
        disks.push(node)?;
    }
    Ok(disks)
}

/// The node that a start drains: a backup its source, and a mirror none.
fn drained_node(names: &Names, plan: CopyPlan<'_>) -> Option<NodeId>
    ensures { result ≡ drained_node names.now.table (seen_plan plan.entry) }
{
    match plan.kind {
        JobKind::Backup => names.id_named(plan.device),
        JobKind::Stream | JobKind::Commit | JobKind::Mirror => None,
    }
}

/// The request in flight on it, if any. The node is held then.
fn drain(
    alloc: Global,
    names: &Names,
    progress: &Progress,
    drained: &mut Drained,
    plan: CopyPlan<'_>,
) -> Result<Option<InTheWay>, NoMemory>
    requires few { (g : ℕ) → IsSome (drive_of names.now.table g) → g < 80 }
    ensures first { IfOk result
        (λ found. (s : State) → s.table ≡ names.now.table → s.guests ≡ progress.now.guests
        → IsFirstOf s (ids_of (drained_node names.now.table (seen_plan plan.entry))) found) }
    ensures held { IfOk result (λ found. drained.new ≡ held_if found
        (ids_of (drained_node names.now.table (seen_plan plan.entry))) drained.old) }
    ensures back { OnErr result (drained.new ≡ drained.old) }
{
    let disks = listed(alloc, drained_node(names, plan))?;
    let found = first_in_the_way(names, progress, disks.as_slice());
    if found.is_some() {
        drained.hold(disks);
    }
    Ok(found)
}

// ---- the job that is to begin, with all the memory that it takes

/// For a larger disk there isn't the memory to say which parts are left. No node has one.
const MOST_BYTES: u64 = 1 << 47;

/// The node of a name that is there.
fn node_named<'x>(names: &'x Names, name: &str) -> &'x NodeRecord
    requires { IsSome (node_named names.now.table name.now) }
    ensures { node_named names.now.table name.now ≡ Some result.now }
{
    match names.node_named(name) {
        Some(row) => row,
        None => unreachable!(),
    }
}

/// The bitmap that is copied by.
fn bitmap_by<'x>(bitmaps: &'x Bitmaps, source: NodeId, name: Option<&str>) -> Option<&'x Bitmap>
    ensures { option_copied result ≡ bitmap_by bitmaps.now source (seen_text name.entry) }
{
    match name {
        Some(name) => bitmaps.find(source, name),
        None => None,
    }
}

/// All of the disk is to be copied.
fn work_of_all(alloc: Global, kind: JobKind, number: u32, size: u64) -> Result<JobWork, NoMemory>
    requires { size ≤ 2 ^ 47 }
    ensures { IfOk result (λ work. work ≡ work_by kind number size None) }
{
    let mut work = JobWork::new(alloc, kind, number, size, PIECE)?;
    work.add_all();
    Ok(work)
}

/// What the bitmap holds is to be copied.
fn work_of_dirty(
    alloc: Global,
    kind: JobKind,
    number: u32,
    size: u64,
    bitmap: &Bitmap,
) -> Result<JobWork, NoMemory>
    requires { size ≤ 2 ^ 47 }
    ensures { IfOk result (λ work. work ≡ work_by kind number size (Some bitmap.now)) }
{
    let granularity = bitmap.granularity.bytes();
    let mut work = JobWork::new(alloc, kind, number, size, granularity)?;
    work.add_granules(&bitmap.dirty, granularity);
    Ok(work)
}

fn new_work(
    alloc: Global,
    kind: JobKind,
    number: u32,
    size: u64,
    bitmap: Option<&Bitmap>,
) -> Result<JobWork, NoMemory>
    requires { size ≤ 2 ^ 47 }
    ensures { IfOk result
        (λ work. work ≡ work_by kind number size (option_copied bitmap.entry)) }
{
    match bitmap {
        Some(bitmap) => work_of_dirty(alloc, kind, number, size, bitmap),
        None => work_of_all(alloc, kind, number, size),
    }
}

/// What stops the use of a bitmap that nothing refuses.
fn no_memory(stop: BitmapStop) -> NoMemory
    requires { stop ≡ BitmapStop.NoMemory }
{
    let _ = stop;
    NoMemory
}

fn spare_set(bitmaps: &Bitmaps, source: NodeId, name: &str) -> Result<DirtySet, NoMemory>
    requires { use_refusal (find bitmaps.now source name.now) ≡ None }
    ensures { IfOk result
        (λ spare. IfSome (find bitmaps.now source name.now) (IsSpareOf spare)) }
{
    match bitmaps.spare_set(source, name) {
        Ok(spare) => Ok(spare),
        Err(stop) => Err(no_memory(stop)),
    }
}

/// The bitmap, with an empty set for what is written while the job uses it.
fn new_aside(
    alloc: Global,
    bitmaps: &Bitmaps,
    source: NodeId,
    name: Option<&str>,
) -> Result<Option<Aside>, NoMemory>
    requires { IsUsable bitmaps.now source (seen_text name) }
    ensures { IfOk result (λ aside. IsAsideFor bitmaps.now source (seen_text name.entry)
        (option_map aside_of aside)) }
{
    match name {
        Some(name) => {
            let spare = spare_set(bitmaps, source, name)?;
            let name = Text::copied(alloc, name)?;
            Ok(Some(Aside { name, spare }))
        }
        None => Ok(None),
    }
}

/// The job that an accepted command starts.
fn new_job(
    alloc: Global,
    names: &Names,
    bitmaps: &Bitmaps,
    plan: CopyPlan<'_>,
) -> Result<NewJob, NoMemory>
    requires { CanStart names.now.table bitmaps.now (seen_plan plan) }
    ensures { IfOk result (λ new. (c : CopyCmd) → seen_plan plan.entry ≡ plan_of c
        → IsNewJob names.now.table bitmaps.now (copy_job names.now.table c) new) }
{
    let source = node_named(names, plan.device);
    if MOST_BYTES < source.size {
        return Err(NoMemory);
    }
    let target = node_named(names, plan.target).id;
    let bitmap = bitmap_by(bitmaps, source.id, plan.bitmap);
    let id = Text::copied(alloc, plan.job_id)?;
    Ok(NewJob {
        work: new_work(alloc, plan.kind, names.started(), source.size, bitmap)?,
        name: JobName::new(id, plan.kind, source.size),
        source: source.id,
        target,
        aside: new_aside(alloc, bitmaps, source.id, plan.bitmap)?,
        room: EventRoom::new(alloc)?,
    })
}

/// What the name of a filter begins with.
fn prefix_of(kind: JobKind) -> &'static str
    ensures { (id : List ℕ) → result.now ++ id ≡ filter_name (filter_kind (filter_of kind)) id }
{
    match kind {
        JobKind::Backup => "#cbw:",
        JobKind::Stream | JobKind::Commit | JobKind::Mirror => "#mirror:",
    }
}

/// The name of the job's filter.
fn filter_name(alloc: Global, kind: JobKind, id: &str) -> Result<Text, NoMemory>
    ensures { IfOk result
        (λ name. name.bytes ≡ filter_name (filter_kind (filter_of kind)) id.now) }
{
    let mut name = String::from_str(alloc, prefix_of(kind))?;
    name.push_str(id)?;
    Ok(Text::from_string(name))
}

/// The same, which no node has: filters have the ids of their jobs, and no other name has a colon.
fn fresh_name(alloc: Global, names: &Names, plan: CopyPlan<'_>) -> Result<Text, NoMemory>
    ensures name { IfOk result (λ name. name.bytes ≡ name_of (seen_plan plan.entry)) }
    ensures fresh { OnOk result
        (node_named names.now.table (name_of (seen_plan plan.entry)) ≡ None) }
{
    let name = filter_name(alloc, plan.kind, plan.job_id)?;
    if names.node_named(name.as_str()).is_some() {
        return Err(NoMemory);
    }
    Ok(name)
}

// ---- its start

/// What the filter of a job is that is put over a node.
fn filter_shape(names: &Names, kind: JobKind, source: &str) -> FilterShape
    requires { IsSome (node_named names.now.table source.now) }
    ensures { IfSome (node_named names.now.table source.now)
        (λ row. result ≡ shape_over kind row) }
{
    let row = node_named(names, source);
    FilterShape {
        kind: filter_of(kind),
        size: row.size,
        read_only: row.read_only,
    }
}

/// Makes the changes of a start, and puts the job's filter over its source. Takes no memory.
fn make_start<D: Device>(
    nodes: &mut Nodes<D>,
    names: &mut Names,
    edits: Edits,
    filter: Text,
    shape: FilterShape,
)
    requires room { HasRoomForChanges (length edits) names.old }
    requires fit { AllChangesFit names.old.table edits }
    requires filter { FilterFits nodes.old (all_changed names.old.table edits) filter.bytes shape }
    ensures table { names.new.table ≡ all_changed names.old.table edits }
    ensures nodes { HasFilter nodes.old nodes.new names.new.table filter.bytes shape }
{
    names.apply(edits);
    put_filter(nodes, names, filter, shape);
}

/// All the memory that an accepted start takes.
#[derive(Drop)]
struct StartMemory {
    text: String,
    new: NewJob,
    filter: Text,
    shape: FilterShape,
}

/// The text of the answer to an accepted start, to which nothing is told.
fn start_text(
    alloc: Global,
    names: &Names,
    given: &str,
    command: &Command,
) -> Result<String, NoMemory>
    ensures { IfOk result (λ text. IsSaid given.now
        (Ok (returned names.now.table told_none (seen_command command.now)))
        (string_bytes text)) }
{
    let told = Told::nothing(alloc);
    accepted_text(alloc, names, given, &told, command)
}

fn start_memory(
    alloc: Global,
    names: &Names,
    bitmaps: &Bitmaps,
    given: &str,
    command: &Command,
    plan: CopyPlan<'_>,
) -> Result<StartMemory, NoMemory>
    requires { CanStart names.now.table bitmaps.now (seen_plan plan) }
    ensures text { IfOk result (λ m. IsSaid given.now
        (Ok (returned names.now.table told_none (seen_command command.now)))
        (string_bytes m.text)) }
    ensures new { IfOk result (λ m. (c : CopyCmd) → seen_plan plan.entry ≡ plan_of c
        → IsNewJob names.now.table bitmaps.now (copy_job names.now.table c) m.new) }
    ensures filter { IfOk result (λ m. m.filter.bytes ≡ name_of (seen_plan plan.entry)) }
    ensures fresh { OnOk result
        (node_named names.now.table (name_of (seen_plan plan.entry)) ≡ None) }
    ensures shape { IfOk result
        (λ m. IfSome (node_named names.now.table (seen_plan plan.entry).device)
        (λ row. m.shape ≡ shape_over plan.entry.kind row)) }
{
    let shape = filter_shape(names, plan.kind, plan.device);
    let filter = fresh_name(alloc, names, plan)?;
    let text = start_text(alloc, names, given, command)?;
    let new = new_job(alloc, names, bitmaps, plan)?;
    Ok(StartMemory {
        text,
        new,
        filter,
        shape,
    })
}

/// Makes the changes of a start for which all memory was taken, and puts the job's filter over its source.
fn started<D: Device>(
    nodes: &mut Nodes<D>,
    names: &mut Names,
    edits: Edits,
    memory: StartMemory,
) -> Started
    requires room { HasRoomForChanges (length edits) names.old }
    requires fit { AllChangesFit names.old.table edits }
    requires filter { FilterFits nodes.old (all_changed names.old.table edits)
        memory.filter.bytes memory.shape }
    ensures answer { result ≡ Started.Begun memory.text memory.new }
    ensures table { names.new.table ≡ all_changed names.old.table edits }
    ensures nodes { HasFilter nodes.old nodes.new names.new.table memory.filter.bytes
        memory.shape }
{
    let StartMemory {
        text,
        new,
        filter,
        shape,
    } = memory;
    make_start(nodes, names, edits, filter, shape);
    Started::Begun { text, new }
}

/// Starts a job that nothing refuses, and that waits for no request. All memory is taken before the first change.
fn accept<D: Device>(
    alloc: Global,
    nodes: &mut Nodes<D>,
    names: &mut Names,
    bitmaps: &Bitmaps,
    given: &str,
    command: &Command,
    plan: CopyPlan<'_>,
    edits: Edits,
) -> Result<Started, NoMemory>
    requires command { (c : CopyCmd) × (seen_command command.now ≡ cmd_of c)
        × (seen_plan plan ≡ plan_of c) }
    requires can { CanStart names.old.table bitmaps.now (seen_plan plan) }
    requires fits { (c : CopyCmd) → seen_command command.now ≡ cmd_of c
        → seen_plan plan ≡ plan_of c → StartFits names.old.table nodes.old c (seen_plan plan) }
    requires edits { edits ≡ command_edits names.old.table told_none (seen_command command.now) }
    requires room { HasRoomForChanges (length edits) names.old }
    requires fit { AllChangesFit names.old.table edits }
    ensures ok { IfOk result (λ started. (c : CopyCmd) → seen_command command.now ≡ cmd_of c
        → seen_plan plan.entry ≡ plan_of c → BeginsBehind given.now c bitmaps.now names.old.table
        nodes.old names.new.table nodes.new started) }
    ensures table_kept { OnErr result (names.new.table ≡ names.old.table) }
    ensures nodes_kept { OnErr result (nodes.new ≡ nodes.old) }
{
    let memory = start_memory(alloc, names, bitmaps, given, command, plan)?;
    Ok(started(nodes, names, edits, memory))
}

/// Starts a job that nothing refuses, or says which request it has to wait for. Its source is held then.
fn start_or_wait<D: Device>(
    alloc: Global,
    nodes: &mut Nodes<D>,
    names: &mut Names,
    bitmaps: &Bitmaps,
    progress: &Progress,
    drained: &mut Drained,
    given: &str,
    command: &Command,
    plan: CopyPlan<'_>,
    edits: Edits,
) -> Result<Started, NoMemory>
    requires few { (g : ℕ) → IsSome (drive_of names.old.table g) → g < 80 }
    requires accepted { refusal_to names.old.table told_none (seen_command command.now) ≡ None }
    requires command { (c : CopyCmd) × (seen_command command.now ≡ cmd_of c)
        × (seen_plan plan ≡ plan_of c) }
    requires can { CanStart names.old.table bitmaps.now (seen_plan plan) }
    requires fits { (c : CopyCmd) → seen_command command.now ≡ cmd_of c
        → seen_plan plan ≡ plan_of c → StartFits names.old.table nodes.old c (seen_plan plan) }
    requires edits { edits ≡ command_edits names.old.table told_none (seen_command command.now) }
    requires room { HasRoomForChanges (length edits) names.old }
    requires fit { AllChangesFit names.old.table edits }
    ensures ok { IfOk result
        (λ started. (s : State) (c : CopyCmd) → s.table ≡ names.old.table
        → s.guests ≡ progress.now.guests → seen_command command.now ≡ cmd_of c
        → seen_plan plan.entry ≡ plan_of c → IsStartOf s given.now c bitmaps.now
        (start_scene names.old.table nodes.old drained.old)
        (start_scene names.new.table nodes.new drained.new) started) }
    ensures back { OnErr result (start_scene names.new.table nodes.new drained.new
        ≡ start_scene names.old.table nodes.old drained.old) }
{
    match drain(alloc, names, progress, drained, plan)? {
        Some(way) => Ok(Started::Later {
            guest: way.guest,
            request: way.request,
        }),
        None => accept(alloc, nodes, names, bitmaps, given, command, plan, edits),
    }
}

/// Starts a backup or a mirror, or refuses it, or says which request it has to wait for. The job begins behind the reply, by
/// `NewJob::begin`. For want of memory all is as before.
pub fn carry_start<D: Device>(
    alloc: Global,
    nodes: &mut Nodes<D>,
    names: &mut Names,
    bitmaps: &Bitmaps,
    progress: &Progress,
    drained: &mut Drained,
    given: &str,
    command: &Command,
    plan: CopyPlan<'_>,
) -> Result<Started, NoMemory>
    requires command { (c : CopyCmd) × (seen_command command.now ≡ cmd_of c)
        × (seen_plan plan ≡ plan_of c) }
    requires alike { AreNodesOf names.old.table nodes.old }
    requires rests { TableAtRest names.old.table }
    requires jobs { JobsGoOn names.old.table }
    requires few { (g : ℕ) → IsSome (drive_of names.old.table g) → g < 80 }
    requires bitmaps { AreBitmapsOf names.old.table.bitmaps bitmaps.now }
    ensures ok { IfOk result
        (λ started. (s : State) (c : CopyCmd) → s.table ≡ names.old.table
        → s.guests ≡ progress.now.guests → seen_command command.now ≡ cmd_of c
        → seen_plan plan.entry ≡ plan_of c → IsStartOf s given.now c bitmaps.now
        (start_scene names.old.table nodes.old drained.old)
        (start_scene names.new.table nodes.new drained.new) started) }
    ensures back { OnErr result (start_scene names.new.table nodes.new drained.new
        ≡ start_scene names.old.table nodes.old drained.old) }
{
    let _ = nodes.edges();
    let told = Told::nothing(alloc);
    match names.prepare(alloc, command, &told) {
        Ok(edits) => start_or_wait(
            alloc, nodes, names, bitmaps, progress, drained, given, command, plan, edits,
        ),
        Err(stop) => {
            let text = refused(alloc, given, stop)?;
            Ok(Started::Refused(text))
        }
    }
}
