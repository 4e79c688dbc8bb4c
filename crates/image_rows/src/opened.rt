//! Images that are open on their devices.
ghost use Rattle.std.specs.Prelude.{◌≡◌, ◌↔◌, ◌<◌, IsTrue, IfSome};
ghost use Rattle.blk_fakes.specs.Disk.{device_bytes};
ghost use Rattle.q2_image.specs.Image.{IsImageOf, clusters_in, entry_in};
ghost use Rattle.q2_tables.specs.Entries.{entry_of};

use crate::header::{may_have, may_name};
use blk_base::{DevStop, Span, WriteStop};
use blk_fakes::MemDevice;
use q2_image::{Image, ImageStop, open_image};
use q2_tables::Mapping;
use std::alloc::Global;

/// An image that is open on its device.
#[derive(Drop)]
pub(crate) struct Opened {
    pub dev: MemDevice,
    pub image: Image,
    ghost told: { IsImageOf (device_bytes dev.disk) image },
}

/// Opens the image on a device.
pub(crate) fn open(alloc: Global, device: MemDevice) -> Result<Opened, ImageStop> {
    let mut dev = device;
    match open_image(alloc, &mut dev) {
        Ok(image) => Ok(Opened { dev, image }),
        Err(stop) => Err(stop),
    }
}

impl Opened {
    /// Whether the disk has this cluster.
    fn has(&self, cluster: u64) -> bool
        ensures { IsTrue result ↔ (cluster < clusters_in self.now.image) }
    {
        cluster < self.image.size().div_ceil(self.image.cluster_size())
    }

    /// What a guest cluster is mapped to, where the disk has it.
    pub fn mapping(&self, cluster: u64) -> Option<Mapping>
        ensures { IfSome result (λ mapping. (cluster < clusters_in self.now.image)
            × (entry_of mapping ≡ entry_in self.now.image cluster)) }
    {
        if self.has(cluster) {
            Some(self.image.mapping(cluster))
        } else {
            None
        }
    }

    /// Puts a whole cluster, where that may be.
    pub fn put(&mut self, cluster: u64, bytes: &[u8]) -> Option<Result<(), DevStop>> {
        if !self.has(cluster) || bytes.len() as u64 != self.image.cluster_size() {
            return None;
        }
        Some(self.image.put_cluster(&mut self.dev, cluster, bytes))
    }

    /// Makes a cluster read as zeros, where the disk has it.
    pub fn zero(&mut self, cluster: u64) -> Option<Result<(), DevStop>> {
        if !self.has(cluster) {
            return None;
        }
        Some(self.image.zero_cluster(&mut self.dev, cluster))
    }

    /// Writes in place into the first guest cluster, where it is mapped.
    pub fn write(&mut self, start: u64, bytes: &[u8]) -> Option<Result<(), WriteStop>> {
        let Some(Mapping::Host { .. }) = self.mapping(0) else {
            return None;
        };
        let len = bytes.len() as u64;
        let size = self.image.cluster_size();
        if start >= size || len > size - start {
            return None;
        }
        let span = Span { start, len };
        Some(self.image.write_own(&mut self.dev, span, bytes))
    }

    /// Gives the image another backing name, where it may have it.
    pub fn name(
        &mut self,
        name: Option<&str>,
        format: Option<&str>,
    ) -> Option<Result<(), DevStop>> {
        if !may_name(name) || !may_have(format) {
            return None;
        }
        Some(self.image.set_backing_name(&mut self.dev, name, format))
    }

    pub fn flush(&mut self) -> Result<(), DevStop> {
        self.image.flush(&mut self.dev)
    }
}
