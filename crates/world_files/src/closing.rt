//! Devices that are flushed and given back at the end.
ghost use Rattle.std.specs.Prelude.{◌≡◌, ◌≤◌, [], length, true, is_some, MatchOption, IsSome, Some};
ghost use Rattle.blk_base.specs.Calls.{FailedLast};
ghost use Rattle.blk_base.specs.Counts.{Rose};
ghost use Rattle.blk_base.specs.declared.fault.FaultFrom.{FaultFrom};
ghost use Rattle.blk_nodes.specs.Handing.{device_state};
ghost use Rattle.flat_machine.specs.State.{filename_of};
ghost use Rattle.world_files.specs.Closing.{AreBack, IsBack, IsOutFor, flushed_by};
ghost use Rattle.world_parts.specs.Coherent.{AreHeld};
ghost use Rattle.world_parts.specs.Steps.{seen_in_run};

use blk_base::{DevNo, Device, DeviceCall, FaultAt, FaultFrom, Store};
use blk_graph::NodeId;
use blk_nodes::DevicesLeft;
use qmp_rules::Names;
use world_parts::RunStore;

/// The name of the file that a `file` node stands for.
fn filename(names: &Names, node: NodeId) -> &str
    requires { IsSome (filename_of names.now.table node) }
    ensures { filename_of names.now.table node ≡ Some result.now }
{
    let Some(row) = names.node_at(node) else {
        unreachable!()
    };
    match &row.filename {
        Some(name) => name.as_str(),
        None => unreachable!(),
    }
}

/// Flushes a device, and tells the fault where that failed.
fn last_flush<D: Device>(device: &mut D, number: DevNo) -> Option<FaultAt>
    ensures fault { MatchOption result (D.faults device.new ≡ D.faults device.old)
        (λ fault. (fault.from ≡ FaultFrom.Dev number) × (fault.count ≡ D.faults device.new)
        × Rose (D.faults device.old) fault.count) }
    ensures call { MatchOption result (D.failed_call device.new ≡ D.failed_call device.old)
        (λ fault. FailedLast DeviceCall.Flush (D.failed_call device.new)) }
    ensures least { D.faults device.old ≤ D.faults device.new }
    ensures flushed { D.is_flushed device.new ≡ flushed_by result (D.is_flushed device.old) }
    ensures content { D.content device.new ≡ D.content device.old }
    ensures capacity { D.capacity device.new ≡ D.capacity device.old }
{
    match device.flush() {
        Ok(()) => None,
        Err(_) => Some(FaultAt {
            from: FaultFrom::Dev(number),
            count: device.faults(),
        }),
    }
}

/// A device that tells its bytes tells whether it is flushed.
fn tells_flushed<D: Device>(device: &D)
    ensures { is_some (D.content device.now) ≡ true → is_some (D.is_flushed device.now) ≡ true }
{
    let _ = device.length();
}

/// Flushes a device of a `file` node and gives it back.
fn give_back<S: Store>(
    store: &mut RunStore<S>,
    names: &Names,
    node: NodeId,
    number: DevNo,
    device: S::Dev,
) -> Option<FaultAt>
    requires { IsOutFor names.now.table node store.old.opened }
    ensures back { IsBack names.now.table (device_state S.Dev.Device node number device)
        (seen_in_run store.old) (seen_in_run store.new) result }
    ensures earlier { store.new.earlier ≡ store.old.earlier }
{
    let mut device = device;
    tells_flushed(&device);
    let fault = last_flush(&mut device, number);
    store.give_back(filename(names, node), device);
    fault
}

/// Flushes so many devices and gives them back, one after another. Tells the first fault.
pub fn give_all_back<S: Store>(
    store: &mut RunStore<S>,
    names: &Names,
    left: &mut DevicesLeft<S::Dev>,
    count: usize,
) -> Option<FaultAt>
    requires count { count ≡ length left.old }
    requires held { AreHeld names.now.table left.old store.old.opened }
    ensures none_left { left.new ≡ [] }
    ensures back { AreBack names.now.table left.old
        (seen_in_run store.old) (seen_in_run store.new) result }
    ensures earlier { store.new.earlier ≡ store.old.earlier }
{
    if count == 0 {
        return None;
    }
    let Some((node, number, device)) = left.next() else {
        return None;
    };
    let first = give_back(store, names, node, number, device);
    let later = give_all_back(store, names, left, count - 1);
    first.or(later)
}
