//! A file that is taken out for a new node, and the image in it.
ghost use Rattle.std.specs.Prelude.{◌≡◌, false, IfOk, MatchResult, OnErr};
ghost use Rattle.blk_base.specs.Files.{is_out};
ghost use Rattle.world_parts.specs.Adding.{IsTakenOut, IsFileUnopened, unopened};

use blk_base::{DevNo, Device, FaultFrom, NoMemory, Store, StoreStop};
use q2_image::ImageStop;
use qmp_asks::Name;
use qmp_rules::{FileFault, Refusal};
use std::alloc::Global;
use std::marker::Model;
use world_parts::RunStore;

/// A device that is out and that no node has yet, with its number.
pub(crate) struct Out<D: Device> {
    pub device: D,
    pub number: DevNo,
}

impl<D: Device> Model for Out<D> {
    ghost use Rattle.world_parts.specs.Adding.{Taken};

    ghost Value = { Taken };

    ghost view = { λ o. record {
      number = o.number;
      content = D.content o.device;
      is_flushed = D.is_flushed o.device;
      log = D.log o.device;
      size = D.size o.device;
      capacity = D.capacity o.device;
      faults = D.faults o.device;
      failed_call = D.failed_call o.device;
    } };
}

/// The refusal of a file that isn't there.
fn absent(alloc: Global, filename: &str) -> Result<Refusal, NoMemory>
    ensures { IfOk result (λ refusal. refusal ≡ Refusal.File filename.now FileFault.Absent) }
{
    Ok(Refusal::File {
        name: Name::copied(alloc, filename)?,
        fault: FileFault::Absent,
    })
}

/// Takes a file out for a new node. It is refused where it is absent, and where the store failed.
pub(crate) fn open_file<S: Store>(
    alloc: Global,
    store: &mut RunStore<S>,
    filename: &str,
) -> Result<Result<Out<S::Dev>, Refusal>, NoMemory>
    requires { is_out filename.now store.old.opened ≡ false }
    ensures answer { IfOk result (λ opened. MatchResult opened
        (IsTakenOut store.old store.new filename.now)
        (IsFileUnopened store.old store.new filename.now)) }
    ensures err { OnErr result (store.new ≡ store.old) }
{
    match store.open_file(filename) {
        Ok((device, number)) => Ok(Ok(Out { device, number })),
        Err(StoreStop::Absent) => Ok(Err(absent(alloc, filename)?)),
        Err(StoreStop::Failed) => Ok(Err(Refusal::Io {
            from: FaultFrom::Store,
            count: store.faults(),
        })),
        Err(StoreStop::InUse) | Err(StoreStop::TooLong) => unreachable!(),
        Err(StoreStop::NoMemory) => Err(NoMemory),
    }
}

/// The refusal of an image that isn't opened. Of want of memory nothing is said.
pub(crate) fn unopened(number: DevNo, stop: ImageStop) -> Refusal
    ensures { result ≡ unopened number stop }
{
    match stop {
        ImageStop::Io { count } => Refusal::Io {
            from: FaultFrom::Dev(number),
            count,
        },
        _ => Refusal::Image(stop),
    }
}
