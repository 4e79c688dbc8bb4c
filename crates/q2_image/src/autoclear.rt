//! Clearing the autoclear field, which is done before the first write of a run.

ghost use Rattle.std.specs.Prelude.{◌≡◌, ◌≤◌, ℕ, List, Some, IfErr, OnOk, OnErr, is_some};
ghost use Rattle.q2_image.specs.Image.{IsImageOf};
ghost use Rattle.blk_base.specs.Device.{Writes, stop_of};
ghost use Rattle.q2_image.specs.Made.{clear_writes};
ghost use Rattle.q2_image.specs.Writing.{TellsFault, IsSameDisk, autoclear_end, autocleared};

use crate::image::Image;
use blk_base::{DevStop, Device};

/// Where the autoclear field begins in the header.
const AUTOCLEAR_OFFSET: u64 = 88;

impl Image {
    /// Writes the autoclear field as 0 where it isn't: bits of it speak of what other programs keep in the file.
    pub(crate) fn clear_autoclear<D: Device>(&mut self, dev: &mut D) -> Result<(), DevStop>
        requires fits { autoclear_end self.old ≤ D.capacity dev.old }
        requires image { (file : List ℕ) → D.content dev.old ≡ Some file → IsImageOf file self.old }
        ensures cleared { OnOk result (self.new ≡ autocleared self.old) }
        ensures kept { OnErr result (self.new ≡ self.old) }
        ensures untouched { OnErr result (D.content dev.new ≡ D.content dev.old) }
        ensures image { (file : List ℕ) → D.content dev.new ≡ Some file → IsImageOf file self.new }
        ensures disk { (old new : List ℕ) → D.content dev.old ≡ Some old
            → D.content dev.new ≡ Some new → IsSameDisk old new }
        ensures writes { Writes D.Device (clear_writes self.old) (stop_of result) dev.old dev.new }
        ensures cause { IfErr result TellsFault }
        ensures faults { D.faults dev.old ≤ D.faults dev.new }
        ensures capacity { D.capacity dev.new ≡ D.capacity dev.old }
        ensures told { is_some (D.content dev.new) ≡ is_some (D.content dev.old) }
    {
        if self.header.autoclear == 0 {
            return Ok(());
        }
        match dev.write_at(AUTOCLEAR_OFFSET, &[0; 8]) {
            Ok(()) => {
                self.header.autoclear = 0;
                Ok(())
            }
            Err(_) => Err(DevStop::Io {
                count: dev.faults(),
            }),
        }
    }
}
