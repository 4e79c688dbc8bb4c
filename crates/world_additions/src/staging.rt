//! The course of an addition.
ghost use Rattle.std.specs.Prelude.{◌≡◌, length, true, None, IfOk, OnOk, OnErr, string_bytes};
ghost use Rattle.qmp_codec.specs.Commands.{seen_command};
ghost use Rattle.qmp_codec.specs.Nodes.{seen_added, seen_blockdev_add};
ghost use Rattle.qmp_codec.specs.declared.command.Command.TheVariants.{BlockdevAdd as AddCommand};
ghost use Rattle.qmp_rules.specs.Answers.{refusal_to};
ghost use Rattle.qmp_rules.specs.Changes.{all_changed};
ghost use Rattle.qmp_rules.specs.Fitting.{AllChangesFit};
ghost use Rattle.qmp_rules.specs.Room.{HasRoomForChanges};
ghost use Rattle.world_additions.specs.Additions.{CanAdd, CanLook, HasAdditionEnded, IsAdditionBy, IsAdditionOf, IsNotAddedBy, IsOutForAddition, IsStaged, is_addition};
ghost use Rattle.world_parts.specs.Joining.{HasAdded};
ghost use Rattle.world_parts.specs.Looking.{site};
ghost use Rattle.world_parts.specs.Staging.{IsNotAdded, back_if, opened_name};

use crate::joining::add_nodes;
use crate::looking::{Looked, look};
use crate::opening::Out;
use blk_base::{Device, NoMemory, Store};
use blk_nodes::Nodes;
use q2_image::Image;
use qmp_codec::{Added, BlockdevAdd, Command, FileRef};
use qmp_rules::{Edits, Names, PrepareStop, Told};
use std::alloc::Global;
use world_parts::{RunStore, accepted_text, refused_text};

/// The answer to an addition, before anything is added.
#[derive(Drop)]
pub(crate) enum Staged {
    Refused(String),
    Accepted(Edits, String),
}

/// Judges an addition by what was told, with the text of its answer. The table stays.
fn stage(
    alloc: Global,
    names: &mut Names,
    given: &str,
    command: &Command,
    told: &Told,
) -> Result<Staged, NoMemory>
    ensures table { names.new.table ≡ names.old.table }
    ensures staged { IfOk result
        (IsStaged names.new given.now told.now (seen_command command.now)) }
{
    match names.prepare(alloc, command, told) {
        Ok(edits) => {
            let text = accepted_text(alloc, names, given, told, command)?;
            Ok(Staged::Accepted(edits, text))
        }
        Err(PrepareStop::Refused(cause)) => {
            let text = refused_text(alloc, given, &cause)?;
            Ok(Staged::Refused(text))
        }
        Err(PrepareStop::NoMemory) => Err(NoMemory),
    }
}

/// The file that a command opens; none for another.
fn opened_name(driver: &Added) -> &str
    ensures { result.now ≡ opened_name (seen_added driver.now) }
{
    let file = match driver {
        Added::File(filename) => return filename.as_str(),
        Added::Raw(raw) => &raw.file,
        Added::Qcow2(added) => &added.file,
        Added::CopyOnRead(_) | Added::Unknown => return "",
    };
    match file {
        FileRef::Inline(file) => file.filename.as_str(),
        FileRef::Name(_) => "",
    }
}

/// Gives a device back that was taken out for a command, where there is one.
fn give_back_if<S: Store>(store: &mut RunStore<S>, driver: &Added, out: Option<Out<S::Dev>>)
    requires { IsOutForAddition (seen_added driver.now) out store.old }
    ensures { store.new ≡ back_if (seen_added driver.now) out store.old }
{
    match out {
        Some(out) => {
            let Out { device, number: _ } = out;
            store.give_back(opened_name(driver), device);
        }
        None => {}
    }
}

/// Adds the nodes of an accepted addition and makes its changes; or gives the device back.
fn add_accepted<S: Store>(
    alloc: Global,
    store: &mut RunStore<S>,
    nodes: &mut Nodes<S::Dev>,
    names: &mut Names,
    c: &BlockdevAdd,
    out: Option<Out<S::Dev>>,
    image: Option<Image>,
    edits: Edits,
) -> Result<(), NoMemory>
    requires out { IsOutForAddition (seen_blockdev_add c.now).driver out store.old }
    requires can { CanAdd names.old.table (seen_blockdev_add c.now) out image nodes.old }
    requires room { HasRoomForChanges (length edits) names.old }
    requires fit { AllChangesFit names.old.table edits }
    ensures added { OnOk result (HasAdded names.old.table (seen_blockdev_add c.now) out image
        nodes.old nodes.new) }
    ensures table { OnOk result (names.new.table ≡ all_changed names.old.table edits) }
    ensures kept { OnOk result (store.new ≡ store.old) }
    ensures back { OnErr result
        (store.new ≡ back_if (seen_blockdev_add c.now).driver out store.old) }
    ensures err { OnErr result (nodes.new ≡ nodes.old) }
    ensures same { OnErr result (names.new.table ≡ names.old.table) }
{
    match add_nodes(alloc, nodes, names, c, out, image) {
        Ok(()) => {
            names.apply(edits);
            Ok(())
        }
        Err(out) => {
            give_back_if(store, &c.driver, out);
            Err(NoMemory)
        }
    }
}

/// Carries an addition out that was judged.
fn end<S: Store>(
    alloc: Global,
    store: &mut RunStore<S>,
    nodes: &mut Nodes<S::Dev>,
    names: &mut Names,
    given: &str,
    c: &BlockdevAdd,
    told: &Told,
    out: Option<Out<S::Dev>>,
    image: Option<Image>,
    staged: Staged,
) -> Result<String, NoMemory>
    requires out { IsOutForAddition (seen_blockdev_add c.now).driver out store.old }
    requires ready { refusal_to names.old.table told.now (AddCommand (seen_blockdev_add c.now))
        ≡ None
        → CanAdd names.old.table (seen_blockdev_add c.now) out image nodes.old }
    requires staged { IsStaged names.old given.now told.now (AddCommand (seen_blockdev_add c.now))
        staged }
    ensures ok { IfOk result
        (λ text. HasAdditionEnded names.old.table given.now (seen_blockdev_add c.now) told.now out
        image (site store.old nodes.old) (site store.new nodes.new) names.new.table (string_bytes text)) }
    ensures back { OnErr result (site store.new nodes.new
        ≡ site (back_if (seen_blockdev_add c.now).driver out store.old) nodes.old) }
    ensures same { OnErr result (names.new.table ≡ names.old.table) }
{
    match staged {
        Staged::Refused(text) => {
            give_back_if(store, &c.driver, out);
            Ok(text)
        }
        Staged::Accepted(edits, text) => {
            add_accepted(alloc, store, nodes, names, c, out, image, edits)?;
            Ok(text)
        }
    }
}

/// Looks at what an addition needs, answers it, and adds its nodes where it is accepted.
fn add<S: Store>(
    alloc: Global,
    store: &mut RunStore<S>,
    nodes: &mut Nodes<S::Dev>,
    names: &mut Names,
    given: &str,
    command: &Command,
    c: &BlockdevAdd,
) -> Result<String, NoMemory>
    requires command { seen_command command.now ≡ AddCommand (seen_blockdev_add c.now) }
    requires can { CanLook names.old.table (site store.old nodes.old) }
    ensures ok { IfOk result
        (λ text. IsAdditionOf names.old.table given.now (seen_blockdev_add c.now)
        (site store.old nodes.old) (site store.new nodes.new) names.new.table (string_bytes text)) }
    ensures back { OnErr result (IsNotAdded names.old.table (seen_blockdev_add c.now)
        (site store.old nodes.old) (site store.new nodes.new)) }
    ensures same { OnErr result (names.new.table ≡ names.old.table) }
{
    let Looked { out, seen } = look(alloc, store, nodes, names, command, c)?;
    let (image, told) = (seen.image, seen.told);
    let _ = nodes.edges();
    match stage(alloc, names, given, command, &told) {
        Ok(staged) => end(
            alloc, store, nodes, names, given, c, &told, out, image, staged,
        ),
        Err(stop) => {
            give_back_if(store, &c.driver, out);
            Err(stop)
        }
    }
}

/// Carries out `blockdev-add`, or refuses it. Says the text of the reply.
pub fn add_by<S: Store>(
    alloc: Global,
    store: &mut RunStore<S>,
    nodes: &mut Nodes<S::Dev>,
    names: &mut Names,
    given: &str,
    command: &Command,
) -> Result<String, NoMemory>
    requires addition { is_addition (seen_command command.now) ≡ true }
    requires can { CanLook names.old.table (site store.old nodes.old) }
    ensures ok { IfOk result
        (λ text. IsAdditionBy names.old.table given.now (seen_command command.now)
        (site store.old nodes.old) (site store.new nodes.new) names.new.table (string_bytes text)) }
    ensures back { OnErr result (IsNotAddedBy names.old.table (seen_command command.now)
        (site store.old nodes.old) (site store.new nodes.new)) }
    ensures same { OnErr result (names.new.table ≡ names.old.table) }
{
    match command {
        Command::BlockdevAdd(c) => add(alloc, store, nodes, names, given, command, c),
        _ => unreachable!(),
    }
}
