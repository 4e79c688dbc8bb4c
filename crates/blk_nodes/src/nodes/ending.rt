//! The end of the nodes.
ghost use Rattle.std.specs.Prelude.{◌≡◌};

use crate::handing::DevicesLeft;
use crate::nodes::Nodes;
use blk_base::Device;

impl<D: Device> Nodes<D> {
    /// Ends the nodes. Their devices are handed out one by one.
    pub fn into_devices(self) -> DevicesLeft<D>
        ensures { result ≡ self.devices }
    {
        let Nodes { devices, .. } = self;
        DevicesLeft::new(devices.list)
    }
}
