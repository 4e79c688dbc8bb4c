//! What is told of a command that adds no node.
ghost use Rattle.std.specs.Prelude.{◌≡◌, ◌∷◌, ◌↔◌, [], ℕ, Some, IfOk, IsTrue, if◌then◌else◌};
ghost use Rattle.qmp_codec.specs.Commands.{seen_command};
ghost use Rattle.qmp_codec.specs.Nodes.{seen_snapshot};
ghost use Rattle.qmp_codec.specs.declared.command.Command.TheVariants as commands;
ghost use Rattle.qmp_rules.specs.Table.{id_named};
ghost use Rattle.blk_nodes.specs.Joined.{IsJoined};
ghost use Rattle.blk_nodes.specs.Overlays.{IsFresh};
ghost use Rattle.world_changes.specs.Changing.{TellsMappedAlone};

use blk_base::{Device, Names1, NoMemory, Text};
use blk_nodes::Nodes;
use qmp_codec::{Command, Snapshot};
use qmp_rules::{Names, Told};
use std::alloc::Global;

/// Whether the image of an overlay maps no cluster.
fn is_overlay_fresh<D: Device>(nodes: &Nodes<D>, names: &Names, overlay: &str) -> bool
    ensures { (node : ℕ) → id_named names.now.table overlay.now ≡ Some node
        → IsTrue result ↔ IsFresh nodes.now node }
{
    match names.id_named(overlay) {
        Some(node) => nodes.is_fresh(node),
        None => false,
    }
}

/// The name of an overlay, where its image maps a cluster.
fn mapped_names(alloc: Global, overlay: &str, is_fresh: bool) -> Result<Names1, NoMemory>
    ensures { IfOk result (λ names. names ≡ (if is_fresh then [] else overlay.now ∷ [])) }
{
    let mut names = Vec::new(alloc);
    if !is_fresh {
        names.push(Text::copied(alloc, overlay)?)?;
    }
    Ok(Names1::from_vec(names))
}

/// What is told of a snapshot: whether the image of its overlay maps a cluster.
fn told_of_overlay<D: Device>(
    alloc: Global,
    nodes: &Nodes<D>,
    names: &Names,
    c: &Snapshot,
) -> Result<Told, NoMemory>
    requires { IsJoined nodes.now }
    ensures { IfOk result (TellsMappedAlone names.now.table nodes.now
        (commands.BlockdevSnapshot (seen_snapshot c.now))) }
{
    let is_fresh = is_overlay_fresh(nodes, names, c.overlay.as_str());
    let mapped = mapped_names(alloc, c.overlay.as_str(), is_fresh)?;
    let nothing = Told::nothing(alloc);
    Ok(Told {
        length: nothing.length,
        size: nothing.size,
        stopped: nothing.stopped,
        mapped,
        dirty: nothing.dirty,
    })
}

/// What is told of a command: nothing, but of a snapshot.
pub(crate) fn told_of<D: Device>(
    alloc: Global,
    nodes: &Nodes<D>,
    names: &Names,
    command: &Command,
) -> Result<Told, NoMemory>
    requires { IsJoined nodes.now }
    ensures { IfOk result (TellsMappedAlone names.now.table nodes.now (seen_command command.now)) }
{
    match command {
        Command::BlockdevSnapshot(c) => told_of_overlay(alloc, nodes, names, c),
        _ => Ok(Told::nothing(alloc)),
    }
}
