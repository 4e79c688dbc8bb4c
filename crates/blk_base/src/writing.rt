//! One write, answered as calls over one device are.
ghost use Rattle.std.specs.Prelude.{[], ◌∷◌};
ghost use Rattle.blk_base.specs.Device.{Writes, stop_of};
ghost use Rattle.blk_base.specs.Writes.{write_of};

use crate::{DevStop, Device, Stop};

/// Writes bytes. A write within one sector of 512 bytes is made whole or not at all; of another one that fails,
/// the bytes before a border of sectors may be written.
pub fn write<D: Device>(dev: &mut D, at: u64, bytes: &[u8]) -> Result<(), DevStop>
    ensures { Writes D.Device (write_of at bytes.now ∷ []) (stop_of result) dev.old dev.new }
{
    match dev.write_at(at, bytes) {
        Ok(()) => Ok(()),
        Err(stop) => match stop.why {
            Stop::Failed => Err(DevStop::Io {
                count: dev.faults(),
            }),
            Stop::NoSpace => Err(DevStop::NoSpace),
        },
    }
}
