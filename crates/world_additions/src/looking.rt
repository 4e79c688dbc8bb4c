//! What is looked at before a node is added, and what that comes to.
ghost use Rattle.std.specs.Prelude.{◌≡◌, ◌↔◌, ℕ, None, Some, false, IsTrue, IfOk, IfSome, IfNone, OnErr, MatchResult};
ghost use Rattle.blk_base.specs.Files.{is_out};
ghost use Rattle.blk_nodes.specs.Joined.{IsFile};
ghost use Rattle.blk_nodes.specs.Nodes.{Nodes as SeenNodes};
ghost use Rattle.blk_nodes.specs.Overlays.{IsOpened};
ghost use Rattle.qmp_codec.specs.Commands.{seen_command};
ghost use Rattle.qmp_codec.specs.Nodes.{seen_add_qcow2, seen_add_raw, seen_blockdev_add};
ghost use Rattle.qmp_codec.specs.declared.command.Command.TheVariants.{BlockdevAdd as AddCommand};
ghost use Rattle.qmp_rules.specs.Answers.{told_none};
ghost use Rattle.qmp_rules.specs.Looks.{unfit_image, is_free_file, is_unopened, part_look, told_record};
ghost use Rattle.world_parts.specs.Adding.{IsBackIfOut, IsFreeFile, IsLookReached, IsNotOpenOn, IsOpenOn, Looks, LooksAtFile, LooksUnder, TellsAddition, TellsInside, look_in_vain, opened_sight, opens_by};
ghost use Rattle.world_additions.specs.Additions.{AreIn, HaveFileNodes, IsUnopenedFor, MayOpen};
ghost use Rattle.world_parts.specs.Looking.{HasCalled, HasLooked, IsLookedBack, LooksAtImage, LooksAtPart, StoreIsBack, site};

use crate::opening::{Out, open_file, unopened};
use crate::telling::{file_stop, image_stop, raw_stop, told_as};
use blk_base::{DevNo, Device, NoMemory, Store};
use blk_graph::{Kind, NodeId};
use blk_nodes::Nodes;
use q2_image::{Image, ImageStop, open_image};
use qmp_asks::{Look, is_file_name};
use qmp_codec::{AddQcow2, AddRaw, Added, BlockdevAdd, Command, FileRef};
use qmp_rules::{FileState, Names, Refusal, Stopped, Told};
use std::alloc::Global;
use world_parts::RunStore;

/// What is seen of a file: the image in it, where one was opened, and what is told.
#[derive(Drop)]
pub(crate) struct Seen {
    pub image: Option<Image>,
    pub told: Told,
}

/// What the looks of an addition come to: the device that was taken out for it, and what is seen.
pub(crate) struct Looked<D: Device> {
    pub out: Option<Out<D>>,
    pub seen: Seen,
}

// ---- a file that was opened

/// What a file tells of a node over it that opens no image.
fn length_seen(alloc: Global, length: u64, stopped: Option<Stopped>) -> Seen
    ensures image { result.image ≡ None }
    ensures told { result.told ≡ told_record (Some length) None stopped }
{
    Seen {
        image: None,
        told: told_as(alloc, Some(length), None, stopped),
    }
}

fn number_of<D: Device>(out: &Out<D>) -> DevNo
    ensures { result ≡ out.now.number }
{
    out.number
}

/// Opens the image on a device that is out.
fn open_out<D: Device>(alloc: Global, out: &mut Out<D>) -> Result<Result<Image, Refusal>, NoMemory>
    ensures answer { IfOk result (λ opened. MatchResult opened (IsOpenOn out.old out.new)
        (IsNotOpenOn out.old out.new)) }
    ensures err { OnErr result (out.new ≡ out.old) }
{
    let number = number_of(out);
    match open_image(alloc, &mut out.device) {
        Ok(image) => Ok(Ok(image)),
        Err(ImageStop::NoMemory) => Err(NoMemory),
        Err(stop) => Ok(Err(unopened(number, stop))),
    }
}

/// What is told of an image that is open.
fn image_seen(
    alloc: Global,
    names: &Names,
    node: &str,
    added: &AddQcow2,
    length: Option<u64>,
    image: Image,
) -> Result<Seen, NoMemory>
    ensures image { IfOk result (λ seen. seen.image ≡ Some image) }
    ensures told { IfOk result (λ seen. seen.told ≡ told_record length (Some image.header.size)
        (unfit_image names.now.table node.now (seen_add_qcow2 added.now)
        (opened_sight image.header))) }
{
    let stopped = image_stop(alloc, names, node, added, &image)?;
    let told = told_as(alloc, length, Some(image.size()), stopped);
    Ok(Seen {
        image: Some(image),
        told,
    })
}

/// What is told of an image that isn't opened for that.
fn refused_seen(alloc: Global, length: Option<u64>, refusal: Refusal) -> Seen
    ensures image { result.image ≡ None }
    ensures told { result.told ≡ told_record length None
        (Some (record { look = Look.Image; refusal = refusal })) }
{
    let stopped = Some(Stopped {
        look: Look::Image,
        refusal,
    });
    Seen {
        image: None,
        told: told_as(alloc, length, None, stopped),
    }
}

/// Looks at the image on a device that is out.
fn look_inside<D: Device>(
    alloc: Global,
    names: &Names,
    node: &str,
    filename: &str,
    added: &AddQcow2,
    out: &mut Out<D>,
) -> Result<Seen, NoMemory>
    ensures ok { IfOk result (λ seen. TellsInside names.now.table node.now filename.now
        (seen_add_qcow2 added.now)
        out.old out.new seen.image seen.told) }
    ensures err { OnErr result (out.new ≡ out.old) }
{
    let length = out.device.length();
    if let Some(stopped) = file_stop(alloc, filename, length)? {
        return Ok(length_seen(alloc, length, Some(stopped)));
    }
    match open_out(alloc, out)? {
        Ok(image) => image_seen(alloc, names, node, added, Some(length), image),
        Err(refusal) => Ok(refused_seen(alloc, Some(length), refusal)),
    }
}

/// Looks at a file that was opened, as the driver of its new node asks.
fn look_at<D: Device>(
    alloc: Global,
    names: &Names,
    c: &BlockdevAdd,
    filename: &str,
    out: &mut Out<D>,
) -> Result<Seen, NoMemory>
    ensures ok { IfOk result
        (λ seen. TellsAddition names.now.table (seen_blockdev_add c.now).node_name filename.now
        (seen_blockdev_add c.now).driver out.old out.new seen.image seen.told) }
    ensures err { OnErr result (out.new ≡ out.old) }
{
    let length = out.device.length();
    match &c.driver {
        Added::File(_) => {
            let stopped = file_stop(alloc, filename, length)?;
            Ok(length_seen(alloc, length, stopped))
        }
        Added::Raw(raw) => {
            let stopped = raw_stop(alloc, filename, raw, length)?;
            Ok(length_seen(alloc, length, stopped))
        }
        Added::Qcow2(added) => look_inside(
            alloc,
            names,
            c.node_name.as_str(),
            filename,
            added,
            out,
        ),
        Added::CopyOnRead(_) | Added::Unknown => Ok(length_seen(alloc, length, None)),
    }
}

/// Opens a file and looks at it.
fn open_and_look<S: Store>(
    alloc: Global,
    store: &mut RunStore<S>,
    names: &Names,
    c: &BlockdevAdd,
    filename: &str,
    what: Look,
) -> Result<Looked<S::Dev>, NoMemory>
    requires { is_out filename.now store.old.opened ≡ false }
    ensures ok { IfOk result (λ looked. LooksAtFile names.now.table (seen_blockdev_add c.now)
        (record { filename = filename.now; what = what })
        store.old store.new looked.out looked.seen.image looked.seen.told) }
    ensures err { OnErr result (IsBackIfOut store.old store.new filename.now) }
{
    match open_file(alloc, store, filename)? {
        Err(refusal) => Ok(vain(alloc, what, refusal)),
        Ok(mut out) => match look_at(alloc, names, c, filename, &mut out) {
            Ok(seen) => Ok(Looked {
                out: Some(out),
                seen,
            }),
            Err(stop) => {
                let Out { device, number: _ } = out;
                store.give_back(filename, device);
                Err(stop)
            }
        },
    }
}

/// At which look a file that isn't opened for that is refused: a failed call where it is made.
fn look_in_vain(what: Look, refusal: &Refusal) -> Look
    ensures { result ≡ look_in_vain what refusal.now }
{
    match refusal {
        Refusal::Io { .. } => what,
        _ => Look::File,
    }
}

/// What is seen of a file that isn't opened for that.
fn vain<D: Device>(alloc: Global, what: Look, refusal: Refusal) -> Looked<D>
    ensures none { result.out ≡ None }
    ensures told { result.seen.told ≡ told_record None None
        (Some (record { look = look_in_vain what refusal; refusal = refusal })) }
{
    let stopped = Some(Stopped {
        look: look_in_vain(what, &refusal),
        refusal,
    });
    Looked {
        out: None,
        seen: Seen {
            image: None,
            told: told_as(alloc, None, None, stopped),
        },
    }
}

// ---- whether a file is opened

fn is_aborted(found: &Option<Refusal>) -> bool
    ensures { IsTrue result ↔ (found.now ≡ Some Refusal.Aborted) }
{
    matches!(found, Some(Refusal::Aborted))
}

/// Whether a stop at a look would be the answer.
fn is_reached(alloc: Global, names: &Names, command: &Command, what: Look) -> Result<bool, NoMemory>
    ensures { IfOk result (λ is. IsTrue is
        ↔ IsLookReached names.now.table (seen_command command.now) what) }
{
    let stopped = Some(Stopped {
        look: what,
        refusal: Refusal::Aborted,
    });
    let told = told_as(alloc, None, None, stopped);
    let found = names.refusal(alloc, &told, command)?;
    Ok(is_aborted(&found))
}

/// Whether a file's name is none, a node stands for it, or it was used.
fn is_unopened(names: &Names, filename: &str) -> bool
    ensures { result ≡ is_unopened names.now.table filename.now }
{
    if !is_file_name(filename) || names.is_open(filename) {
        return true;
    }
    matches!(names.file_state(filename), Some(FileState::Used))
}

fn may_open(
    alloc: Global,
    names: &Names,
    command: &Command,
    filename: &str,
    what: Look,
) -> Result<bool, NoMemory>
    ensures { IfOk result (MayOpen names.now.table (seen_command command.now)
        (record { filename = filename.now; what = what })) }
{
    if is_unopened(names, filename) {
        return Ok(false);
    }
    is_reached(alloc, names, command, what)
}

/// That nothing is looked at.
fn nothing_seen(alloc: Global) -> Seen
    ensures image { result.image ≡ None }
    ensures told { result.told ≡ told_none }
{
    Seen {
        image: None,
        told: Told::nothing(alloc),
    }
}

/// Opens a file of the store, where the answer can depend on it, and looks at it.
fn look_out<S: Store>(
    alloc: Global,
    store: &mut RunStore<S>,
    names: &Names,
    command: &Command,
    c: &BlockdevAdd,
    filename: &str,
    what: Look,
) -> Result<Looked<S::Dev>, NoMemory>
    requires command { seen_command command.now ≡ AddCommand (seen_blockdev_add c.now) }
    requires closed { is_unopened names.now.table filename.now ≡ false
        → is_out filename.now store.old.opened ≡ false }
    ensures ok { IfOk result (λ looked. Looks names.now.table (seen_blockdev_add c.now)
        (record { filename = filename.now; what = what })
        store.old store.new looked.out looked.seen.image looked.seen.told) }
    ensures err { OnErr result (IsBackIfOut store.old store.new filename.now) }
{
    if may_open(alloc, names, command, filename, what)? {
        return open_and_look(alloc, store, names, c, filename, what);
    }
    Ok(Looked {
        out: None,
        seen: nothing_seen(alloc),
    })
}

// ---- a `file` node

/// The `file` node of a name, where no edge leads to it.
fn free_file(names: &Names, file: &str) -> Option<NodeId>
    ensures some { IfSome result (IsFreeFile names.now.table file.now) }
    ensures none { IfNone result (is_free_file names.now.table file.now ≡ false) }
{
    let row = names.node_named(file)?;
    if row.kind != Kind::Protocol || names.first_into(row.id).is_some() {
        return None;
    }
    Some(row.id)
}

/// Opens the image in a `file` node.
fn open_free<D: Device>(
    alloc: Global,
    nodes: &mut Nodes<D>,
    node: NodeId,
) -> Result<Result<Image, Refusal>, NoMemory>
    requires { IsFile nodes.old node }
    ensures answer { IfOk result (λ opened. MatchResult opened
        (λ image. IsOpened nodes.old.devices node image × (nodes.new ≡ nodes.old))
        (IsUnopenedFor nodes.old nodes.new node)) }
    ensures err { OnErr result (nodes.new ≡ nodes.old) }
    ensures called { HasCalled nodes.old nodes.new }
{
    let number = nodes.number(node);
    match nodes.open_image(alloc, node) {
        Ok(image) => Ok(Ok(image)),
        Err(ImageStop::NoMemory) => Err(NoMemory),
        Err(stop) => Ok(Err(unopened(number, stop))),
    }
}

/// Looks at the image in a `file` node, where the answer can depend on it.
#[tactic(auto, using(world_parts::proofs::Uncalled::called_itself))]
fn look_under<D: Device>(
    alloc: Global,
    nodes: &mut Nodes<D>,
    names: &Names,
    command: &Command,
    c: &BlockdevAdd,
    added: &AddQcow2,
    file: &str,
) -> Result<Seen, NoMemory>
    requires command { seen_command command.now ≡ AddCommand (seen_blockdev_add c.now) }
    requires files { HaveFileNodes names.now.table nodes.old }
    ensures ok { IfOk result (λ seen. LooksUnder names.now.table (seen_blockdev_add c.now)
        (seen_add_qcow2 added.now)
        file.now nodes.old nodes.new seen.image seen.told) }
    ensures err { OnErr result (nodes.new ≡ nodes.old) }
    ensures called { HasCalled nodes.old nodes.new }
{
    if !is_reached(alloc, names, command, Look::Image)? {
        return Ok(nothing_seen(alloc));
    }
    let Some(node) = free_file(names, file) else {
        return Ok(nothing_seen(alloc));
    };
    match open_free(alloc, nodes, node)? {
        Ok(image) => image_seen(alloc, names, c.node_name.as_str(), added, None, image),
        Err(refusal) => Ok(refused_seen(alloc, None, refusal)),
    }
}

// ---- all looks of an addition

/// The look that opens the file of a part.
fn part_look(raw: &AddRaw) -> Look
    ensures { result ≡ part_look (seen_add_raw raw.now) }
{
    match (raw.offset, raw.size) {
        (Some(_), _) => Look::Begin,
        (None, Some(_)) => Look::End,
        (None, None) => Look::File,
    }
}

/// Looks at the file of a part, where it is opened for it.
fn look_at_part<S: Store>(
    alloc: Global,
    store: &mut RunStore<S>,
    names: &Names,
    command: &Command,
    c: &BlockdevAdd,
    raw: &AddRaw,
) -> Result<Looked<S::Dev>, NoMemory>
    requires command { seen_command command.now ≡ AddCommand (seen_blockdev_add c.now) }
    requires closed { AreIn names.now.table store.old.opened }
    ensures looked { (nodes : SeenNodes) → IfOk result (λ looked. LooksAtPart names.now.table
        (seen_blockdev_add c.now) (part_look (seen_add_raw raw.now)) (seen_add_raw raw.now).file
        (site store.old nodes) (site store.new nodes)
        looked.out looked.seen.image looked.seen.told) }
    ensures back { OnErr result (StoreIsBack
        (opens_by (seen_add_raw raw.now).file (part_look (seen_add_raw raw.now)))
        store.old store.new) }
{
    match &raw.file {
        FileRef::Inline(file) => {
            look_out(
                alloc,
                store,
                names,
                command,
                c,
                file.filename.as_str(),
                part_look(raw),
            )
        }
        FileRef::Name(_) => Ok(Looked {
            out: None,
            seen: nothing_seen(alloc),
        }),
    }
}

/// Looks at the image in a `file` node, or in a file that is opened for it.
#[tactic(auto, using(world_parts::proofs::Uncalled::called_itself))]
fn look_at_image<S: Store>(
    alloc: Global,
    store: &mut RunStore<S>,
    nodes: &mut Nodes<S::Dev>,
    names: &Names,
    command: &Command,
    c: &BlockdevAdd,
    added: &AddQcow2,
) -> Result<Looked<S::Dev>, NoMemory>
    requires command { seen_command command.now ≡ AddCommand (seen_blockdev_add c.now) }
    requires closed { AreIn names.now.table store.old.opened }
    requires files { HaveFileNodes names.now.table nodes.old }
    ensures looked { IfOk result (λ looked. LooksAtImage names.now.table (seen_blockdev_add c.now)
        (seen_add_qcow2 added.now) (seen_add_qcow2 added.now).file
        (site store.old nodes.old) (site store.new nodes.new)
        looked.out looked.seen.image looked.seen.told) }
    ensures store { OnErr result (StoreIsBack (opens_by (seen_add_qcow2 added.now).file Look.File)
        store.old store.new) }
    ensures err { OnErr result (nodes.new ≡ nodes.old) }
{
    match &added.file {
        FileRef::Inline(file) => {
            look_out(
                alloc,
                store,
                names,
                command,
                c,
                file.filename.as_str(),
                Look::File,
            )
        }
        FileRef::Name(file) => {
            let seen = look_under(alloc, nodes, names, command, c, added, file.as_str())?;
            Ok(Looked { out: None, seen })
        }
    }
}

/// Looks at what the answer of an addition can depend on.
#[tactic(auto, using(world_parts::proofs::Uncalled::called_itself))]
pub(crate) fn look<S: Store>(
    alloc: Global,
    store: &mut RunStore<S>,
    nodes: &mut Nodes<S::Dev>,
    names: &Names,
    command: &Command,
    c: &BlockdevAdd,
) -> Result<Looked<S::Dev>, NoMemory>
    requires command { seen_command command.now ≡ AddCommand (seen_blockdev_add c.now) }
    requires closed { AreIn names.now.table store.old.opened }
    requires files { HaveFileNodes names.now.table nodes.old }
    ensures looked { IfOk result (λ looked. HasLooked names.now.table (seen_blockdev_add c.now)
        (site store.old nodes.old) (site store.new nodes.new)
        looked.out looked.seen.image looked.seen.told) }
    ensures back { OnErr result (IsLookedBack (seen_blockdev_add c.now).driver
        (site store.old nodes.old) (site store.new nodes.new)) }
{
    match &c.driver {
        Added::File(filename) => {
            look_out(
                alloc,
                store,
                names,
                command,
                c,
                filename.as_str(),
                Look::File,
            )
        }
        Added::Raw(raw) => look_at_part(alloc, store, names, command, c, raw),
        Added::Qcow2(added) => look_at_image(alloc, store, nodes, names, command, c, added),
        Added::CopyOnRead(_) | Added::Unknown => Ok(Looked {
            out: None,
            seen: nothing_seen(alloc),
        }),
    }
}
