//! Requests in flight on the disks that are to be drained.
ghost use Rattle.std.specs.Prelude.{◌≡◌, ◌<◌, ℕ, IsSome};
ghost use Rattle.std.specs.List.{list_any};
ghost use Rattle.flat_machine.specs.Marks.{is_on};
ghost use Rattle.flat_machine.specs.State.{State, drive_of};
ghost use Rattle.world_parts.specs.Draining.{IsFirstOf, IsOneOf};

use crate::progress::Progress;
use blk_graph::{MOST_GUESTS, NodeId};
use qmp_rules::Names;

/// A guest's request in flight.
#[derive(Clone, Copy)]
pub struct InTheWay {
    pub guest: u32,
    pub request: u32,
}

/// Whether a node that a drive reads as is that of one of these disks.
pub fn is_on_one(names: &Names, node: NodeId, disks: &[NodeId]) -> bool
    ensures { result ≡ list_any (is_on names.now.table node) disks.now }
{
    disks.iter().any(|disk| names.disk_node(*disk) == node)
}

/// The number of a guest's request in flight, where its disk is one of these.
fn request_on(names: &Names, progress: &Progress, disks: &[NodeId], guest: u32) -> Option<u32>
    ensures { (s : State) → s.table ≡ names.now.table → s.guests ≡ progress.now.guests
        → IsOneOf s disks.now guest result }
{
    let request = progress.request(guest)?;
    let drive = names.drive(guest)?;
    if is_on_one(names, names.disk_node(drive), disks) {
        Some(request)
    } else {
        None
    }
}

/// The first guest's request, by number, that is in flight on one of these disks.
pub fn first_in_the_way(names: &Names, progress: &Progress, disks: &[NodeId]) -> Option<InTheWay>
    requires few { (g : ℕ) → IsSome (drive_of names.now.table g) → g < 80 }
    ensures first { (s : State) → s.table ≡ names.now.table → s.guests ≡ progress.now.guests
        → IsFirstOf s disks.now result }
{
    for guest in 0..MOST_GUESTS {
        if let Some(request) = request_on(names, progress, disks, guest) {
            return Some(InTheWay { guest, request });
        }
    }
    None
}
