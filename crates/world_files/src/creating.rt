//! Files that are made, and images that are created in them.
ghost use Rattle.std.specs.Prelude.{◌≡◌, ◌≢◌, ℕ, ◌≤◌, None, Some, IsTrue, OnOk, IfOk, IfErr, option_map, string_bytes};
ghost use Rattle.std.specs.Option.{ForSome, option_copied};
ghost use Rattle.blk_base.specs.Files.{is_out};
ghost use Rattle.blk_graph.specs.Judged.{first_parent};
ghost use Rattle.q2_format.specs.Created.{IsNewName};
ghost use Rattle.q2_format.specs.declared.header.TheConstants.{MAX_DISK_SIZE};
ghost use Rattle.qmp_codec.specs.Nodes.{seen_created, seen_create_qcow2};
ghost use Rattle.qmp_rules.specs.Asks.{id_or};
ghost use Rattle.qmp_rules.specs.Looks.{create_told, told_record};
ghost use Rattle.qmp_asks.specs.Values.{amount_or};
ghost use Rattle.flat_machine.specs.Changed.{format_name};
ghost use Rattle.blk_nodes.specs.Contents.{disk_of};
ghost use Rattle.blk_nodes.specs.Joined.{IsFile};
ghost use Rattle.blk_nodes.specs.Formatting.{IsFormatAt};
ghost use Rattle.world_parts.specs.Creating.{with_zeroed_file, creation_for, unformatted, HasCreated};
ghost use Rattle.world_files.specs.Creations.{IsUnmade, CanFormat, CanCreate, IsUncreated};
ghost use Rattle.world_parts.specs.Steps.{seen_in_run};
ghost use Rattle.world_parts.specs.Deleting.{ground_in};

use blk_base::{Device, FaultFrom, NoMemory, Store, StoreStop};
use blk_graph::NodeId;
use blk_nodes::{FormatStop, Nodes};
use qmp_asks::{Look, Name};
use qmp_codec::{Amount, CreateQcow2, Created, ImageFormat};
use qmp_rules::{FileFault, Names, PrepareStop, Refusal, Stopped, Told};
use std::alloc::Global;
use world_parts::RunStore;

/// The bytes that are asked for; 0 for a number that no member accepts.
fn bytes_of(size: Amount) -> u64
    ensures { result ≡ amount_or 0 (Some size) }
{
    match size {
        Amount::Number(n) => n,
        Amount::Negative => 0,
    }
}

fn format_name(format: ImageFormat) -> &'static str
    ensures { result.now ≡ format_name format }
{
    match format {
        ImageFormat::Raw => "raw",
        ImageFormat::Qcow2 | ImageFormat::Unknown => "qcow2",
    }
}

fn maybe_name(format: Option<ImageFormat>) -> Option<&'static str>
    ensures { option_copied result ≡ option_map format_name format }
{
    match format {
        Some(format) => Some(format_name(format)),
        None => None,
    }
}

fn maybe_text(text: &Option<String>) -> Option<&str>
    ensures { option_copied result ≡ option_map string_bytes text.now }
{
    match text {
        Some(text) => Some(text.as_str()),
        None => None,
    }
}

/// That a file would be longer than the room.
fn too_long(alloc: Global, filename: &str) -> Result<Told, NoMemory>
    ensures { IfOk result (λ told. told ≡ told_record None None
        (Some (record {
          look = Look.File;
          refusal = Refusal.File filename.now FileFault.TooLong;
        }))) }
{
    let refusal = Refusal::File {
        name: Name::copied(alloc, filename)?,
        fault: FileFault::TooLong,
    };
    let mut told = Told::nothing(alloc);
    told.stopped = Some(Stopped {
        look: Look::File,
        refusal,
    });
    Ok(told)
}

/// What the store's room tells of a creation: whether a file would be too long.
#[tactic(auto, unfolding(qmp_rules::specs::Looks::create_told))]
pub(crate) fn told_by_room(alloc: Global, options: &Created, room: u64) -> Result<Told, NoMemory>
    ensures { IfOk result (λ told. told ≡ create_told (seen_created options.now) room) }
{
    match options {
        Created::File(file) => {
            if room < bytes_of(file.size) {
                return too_long(alloc, file.filename.as_str());
            }
            Ok(Told::nothing(alloc))
        }
        Created::Qcow2(_) | Created::Unknown => Ok(Told::nothing(alloc)),
    }
}

/// Makes a file of so many zeros, for which the store has room and of which no device is out.
fn make_file<S: Store>(store: &mut RunStore<S>, name: &str, size: u64) -> Result<(), PrepareStop>
    requires closed { IsTrue (is_out name.now store.old.opened) → ⊥ }
    requires room { size ≤ store.old.room }
    ensures made { OnOk result
        (seen_in_run store.new ≡ with_zeroed_file name.now size (seen_in_run store.old)) }
    ensures stop { IfErr result
        (IsUnmade name.now size (seen_in_run store.old) (seen_in_run store.new)) }
    ensures earlier { store.new.earlier ≡ store.old.earlier }
    ensures faults { store.old.faults ≤ store.new.faults }
{
    match store.create_file(name, size) {
        Ok(()) => Ok(()),
        Err(StoreStop::Failed) => Err(PrepareStop::Refused(Refusal::Io {
            from: FaultFrom::Store,
            count: store.faults(),
        })),
        Err(StoreStop::NoMemory) => Err(PrepareStop::NoMemory),
        Err(_) => unreachable!(),
    }
}

/// Why no image was created.
fn unformatted(stop: FormatStop) -> PrepareStop
    ensures { result ≡ unformatted stop }
{
    match stop {
        FormatStop::Io { dev, count } => PrepareStop::Refused(Refusal::Io {
            from: FaultFrom::Dev(dev),
            count,
        }),
        FormatStop::NoSpace { dev } => PrepareStop::Refused(Refusal::NoSpace(dev)),
        FormatStop::NoMemory => PrepareStop::NoMemory,
    }
}

/// Creates an image in the file of a `file` node that no edge leads to.
fn format_file<D: Device>(
    nodes: &mut Nodes<D>,
    node: NodeId,
    c: &CreateQcow2,
) -> Result<(), FormatStop>
    requires file { IsFile nodes.old node }
    requires lone { first_parent node nodes.old.graph.edges ≡ None }
    requires small { amount_or 0 (Some c.now.size) ≤ MAX_DISK_SIZE }
    requires named { ForSome (seen_create_qcow2 c.now).backing_file IsNewName }
    ensures format { IsFormatAt node nodes.old.devices nodes.new.devices
        (creation_for (seen_create_qcow2 c.now)) result }
    ensures others { (other : ℕ) → other ≢ node
        → disk_of nodes.new other ≡ disk_of nodes.old other }
    ensures kept { nodes.new ≡ record nodes.old { devices = nodes.new.devices } }
    ensures back { result ≡ Err FormatStop.NoMemory → nodes.new ≡ nodes.old }
{
    let _ = nodes.edges();
    let name = maybe_text(&c.backing_file);
    let format = maybe_name(c.backing_fmt);
    nodes.format_file(node, bytes_of(c.size), name, format)
}

/// The same of the node of that name.
fn format_named<D: Device>(
    nodes: &mut Nodes<D>,
    names: &Names,
    c: &CreateQcow2,
) -> Result<(), FormatStop>
    requires { CanFormat names.now.table (seen_create_qcow2 c.now) nodes.old }
    ensures format { IsFormatAt (id_or 0 names.now.table (Some (seen_create_qcow2 c.now).file))
        nodes.old.devices
        nodes.new.devices (creation_for (seen_create_qcow2 c.now)) result }
    ensures others { (other : ℕ)
        → other ≢ id_or 0 names.now.table (Some (seen_create_qcow2 c.now).file)
        → disk_of nodes.new other ≡ disk_of nodes.old other }
    ensures kept { nodes.new ≡ record nodes.old { devices = nodes.new.devices } }
    ensures back { result ≡ Err FormatStop.NoMemory → nodes.new ≡ nodes.old }
{
    match names.id_named(c.file.as_str()) {
        Some(node) => format_file(nodes, node, c),
        None => unreachable!(),
    }
}

/// Makes the file, or creates the image in the node's file.
pub(crate) fn create<S: Store>(
    store: &mut RunStore<S>,
    nodes: &mut Nodes<S::Dev>,
    names: &Names,
    options: &Created,
) -> Result<(), PrepareStop>
    requires { CanCreate names.now.table (seen_created options.now)
        (ground_in store.old nodes.old) }
    ensures created { OnOk result (HasCreated names.now.table (seen_created options.now)
        (ground_in store.old nodes.old) (ground_in store.new nodes.new)) }
    ensures stop { IfErr result (IsUncreated names.now.table (seen_created options.now)
        (ground_in store.old nodes.old) (ground_in store.new nodes.new)) }
    ensures earlier { store.new.earlier ≡ store.old.earlier }
    ensures faults { store.old.faults ≤ store.new.faults }
{
    match options {
        Created::File(c) => make_file(store, c.filename.as_str(), bytes_of(c.size)),
        Created::Qcow2(c) => match format_named(nodes, names, c) {
            Ok(()) => Ok(()),
            Err(stop) => Err(unformatted(stop)),
        },
        Created::Unknown => unreachable!(),
    }
}
