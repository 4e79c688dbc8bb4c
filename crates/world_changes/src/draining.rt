//! Disks that a command drains.
ghost use Rattle.std.specs.Prelude.{◌≡◌, ◌<◌, ℕ, true, IfOk, IsSome, OnErr, option_and_then};
ghost use Rattle.qmp_asks.specs.CommandAsks.{is_built};
ghost use Rattle.qmp_codec.specs.Commands.{seen_command};
ghost use Rattle.qmp_rules.specs.Table.{device_named};
ghost use Rattle.flat_machine.specs.Marks.{drained_by, ids_of};
ghost use Rattle.flat_machine.specs.State.{State, disk_of_guest, drive_of};
ghost use Rattle.world_parts.specs.Draining.{IsFirstOf, held_if};
ghost use Rattle.world_changes.specs.Changing.{is_change};

use blk_base::NoMemory;
use blk_graph::NodeId;
use qmp_codec::Command;
use qmp_rules::Names;
use std::alloc::Global;
use world_parts::{Drained, InTheWay, Progress, first_in_the_way};

/// The disk of the guest of a device.
fn device_disk(names: &Names, id: &str) -> Option<NodeId>
    ensures { result ≡ option_and_then
        (λ device. disk_of_guest names.now.table device.number)
        (device_named names.now.table id.now) }
{
    let device = names.device_named(id)?;
    let drive = names.drive(device.number)?;
    Some(names.disk_node(drive))
}

fn listed(alloc: Global, node: Option<NodeId>) -> Result<Vec<NodeId>, NoMemory>
    ensures { IfOk result (λ disks. disks.items ≡ ids_of node) }
{
    let mut disks = Vec::new(alloc);
    if let Some(node) = node {
        disks.push(node)?;
    }
    Ok(disks)
}

/// The disks that a command must drain, of those that are carried out so.
fn drained_by(alloc: Global, names: &Names, command: &Command) -> Result<Vec<NodeId>, NoMemory>
    requires is { is_change (seen_command command.now) ≡ true }
    requires built { is_built (seen_command command.now) ≡ true }
    ensures { IfOk result (λ disks.
        disks.items ≡ drained_by names.now.table (seen_command command.now)) }
{
    match command {
        Command::DeviceDel(id) => listed(alloc, device_disk(names, id.as_str())),
        Command::BlockdevSnapshot(c) => listed(alloc, names.id_named(c.node.as_str())),
        _ => listed(alloc, None),
    }
}

/// The request that an accepted command has to wait for, if any. Its disks are held then.
pub(crate) fn drain(
    alloc: Global,
    names: &Names,
    progress: &Progress,
    drained: &mut Drained,
    command: &Command,
) -> Result<Option<InTheWay>, NoMemory>
    requires is { is_change (seen_command command.now) ≡ true }
    requires built { is_built (seen_command command.now) ≡ true }
    requires few { (g : ℕ) → IsSome (drive_of names.now.table g) → g < 80 }
    ensures first { IfOk result
        (λ found. (s : State) → s.table ≡ names.now.table → s.guests ≡ progress.now.guests
        → IsFirstOf s (drained_by names.now.table (seen_command command.now)) found) }
    ensures held { IfOk result (λ found. drained.new
        ≡ held_if found (drained_by names.now.table (seen_command command.now)) drained.old) }
    ensures back { OnErr result (drained.new ≡ drained.old) }
{
    let disks = drained_by(alloc, names, command)?;
    let found = first_in_the_way(names, progress, disks.as_slice());
    if found.is_some() {
        drained.hold(disks);
    }
    Ok(found)
}
