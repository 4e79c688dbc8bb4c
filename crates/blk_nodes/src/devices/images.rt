//! Images that are written on the devices.
ghost use Rattle.std.specs.Prelude.{◌≡◌, ◌<◌, ◌≤◌, ◌*◌, ℕ, List, length, replicate, None, Some, IsSome};
ghost use Rattle.std.specs.Option.{ForSome, option_copied};
ghost use Rattle.q2_format.specs.Created.{IsNewName, IsNewFormat};
ghost use Rattle.q2_image.specs.Image.{IsImageOf, cluster_size_in, clusters_in};
ghost use Rattle.q2_image.specs.Reading.{IsHost, IsWithinCluster};
ghost use Rattle.q2_image.specs.Room.{entry_for};
ghost use Rattle.q2_image.specs.Writing.{PutFits, ZeroFits, own_end, own_place};
ghost use Rattle.blk_nodes.specs.Changing.{ChangesInPlace, ClearsCluster, PutsCluster};
ghost use Rattle.blk_nodes.specs.Nodes.{device_in};
ghost use Rattle.blk_nodes.specs.Renaming.{answer_on, IsRenameBy, IsRenameAt};
ghost use Rattle.blk_nodes.specs.Walk.{IsKnownAt};
ghost use Rattle.blk_nodes.specs.Writing.{FitsAt, HasRoomAt, HasRoomBy, IsImageCall, IsImageCallAt, cluster_outcome};

use crate::devices::{Devices, Held};
use blk_base::{DevStop, Device, Fault, Outcome, Span};
use blk_graph::NodeId;
use q2_image::Image;

impl<D: Device> Held<D> {
    /// How a write of a whole cluster, or of its entry, went.
    fn cluster_outcome(&self, written: Result<(), DevStop>) -> Outcome
        ensures { result ≡ cluster_outcome self.now written }
    {
        match written {
            Ok(()) => Outcome::Good,
            Err(DevStop::Io { count }) => Outcome::Io {
                dev: self.number,
                count,
            },
            Err(DevStop::NoSpace) => Outcome::NoSpace { dev: self.number },
        }
    }

    /// Writes a part of one mapped cluster of the image in the file, in place.
    fn write_image(&mut self, image: &mut Image, span: Span, bytes: &[u8]) -> Outcome
        requires cluster { IsWithinCluster (cluster_size_in image.old) span }
        requires inside { span.start < image.old.header.size }
        requires host { IsHost (entry_for image.old span) }
        requires whole { length bytes.now ≡ span.len }
        requires known { (b : List ℕ) → self.old.content ≡ Some b → IsImageOf b image.old }
        ensures { IsImageCall (own_end image.old span ≤ self.old.capacity)
            (Some (own_place image.old span)) (ChangesInPlace span bytes.now)
            self.old self.new image.old image.new span.start bytes.now result }
    {
        let _ = image.cluster_size();
        match image.write_own(&mut self.device, span, bytes) {
            Ok(()) => Outcome::Good,
            Err(stop) => self.stopped(stop),
        }
    }

    /// Puts the bytes of one whole cluster of the image in the file, where there is room.
    fn put_image(&mut self, image: &mut Image, cluster: u64, bytes: &[u8]) -> Outcome
        requires cluster { cluster < clusters_in image.old }
        requires fits { PutFits image.old cluster self.old.capacity }
        requires whole { length bytes.now ≡ cluster_size_in image.old }
        requires known { (b : List ℕ) → self.old.content ≡ Some b → IsImageOf b image.old }
        ensures { IsImageCall (PutFits image.old cluster self.old.capacity) None
            (PutsCluster cluster bytes.now)
            self.old self.new image.old image.new (cluster * cluster_size_in image.old) bytes.now
            result }
    {
        let written = image.put_cluster(&mut self.device, cluster, bytes);
        self.cluster_outcome(written)
    }

    /// Makes one cluster of the image in the file read as zeros.
    fn zero_image(&mut self, image: &mut Image, cluster: u64) -> Outcome
        requires cluster { cluster < clusters_in image.old }
        requires known { (b : List ℕ) → self.old.content ≡ Some b → IsImageOf b image.old }
        ensures { IsImageCall (ZeroFits image.old cluster self.old.capacity) None
            (ClearsCluster cluster)
            self.old self.new image.old image.new (cluster * cluster_size_in image.old)
            (replicate (cluster_size_in image.old) 0) result }
    {
        let written = image.zero_cluster(&mut self.device, cluster);
        self.cluster_outcome(written)
    }

    /// How a call over the device went, with the device that stopped it.
    fn answer(&self, made: Result<(), DevStop>) -> Result<(), Fault>
        ensures { result ≡ answer_on self.now.number made }
    {
        match made {
            Ok(()) => Ok(()),
            Err(DevStop::Io { count }) => Err(Fault::Io {
                dev: self.number,
                count,
            }),
            Err(DevStop::NoSpace) => Err(Fault::NoSpace { dev: self.number }),
        }
    }

    /// Gives the image in the file another backing name.
    fn rename_image(
        &mut self,
        image: &mut Image,
        name: Option<&str>,
        format: Option<&str>,
    ) -> Result<(), Fault>
        requires name { ForSome name (λ name. IsNewName name.now) }
        requires format { ForSome format (λ format. IsNewFormat format.now) }
        requires known { (b : List ℕ) → self.old.content ≡ Some b → IsImageOf b image.old }
        ensures { IsRenameBy self.old self.new image.old image.new (option_copied name.entry)
            (option_copied format.entry) result }
    {
        let made = image.set_backing_name(&mut self.device, name, format);
        self.answer(made)
    }

    /// Whether there is room to put a whole cluster: Good, or NoSpace.
    fn room_for_put(&self, image: &Image, cluster: u64) -> Outcome
        requires { cluster < clusters_in image.now }
        ensures { HasRoomBy (PutFits image.now cluster self.now.capacity) self.now result }
    {
        if image.put_fits(cluster, self.device.capacity()) {
            Outcome::Good
        } else {
            Outcome::NoSpace { dev: self.number }
        }
    }
}

impl<D: Device> Devices<D> {
    /// Writes a part of one mapped cluster of the image in the file of a `file` node, in place.
    pub(crate) fn write_image(
        &mut self,
        file: NodeId,
        image: &mut Image,
        span: Span,
        bytes: &[u8],
    ) -> Outcome
        requires held { IsSome (device_in self.old file) }
        requires cluster { IsWithinCluster (cluster_size_in image.old) span }
        requires inside { span.start < image.old.header.size }
        requires host { IsHost (entry_for image.old span) }
        requires whole { length bytes.now ≡ span.len }
        requires known { IsKnownAt file self.old image.old }
        ensures { IsImageCallAt file (λ capacity. own_end image.old span ≤ capacity)
            (Some (own_place image.old span)) (ChangesInPlace span bytes.now)
            self.old self.new image.old image.new span.start bytes.now result }
    {
        match self.place_of(file) {
            Some(at) => {
                let held = &mut self.list[at];
                held.write_image(image, span, bytes)
            }
            None => unreachable!(),
        }
    }

    /// Puts the bytes of one whole cluster of the image in the file of a `file` node, where there is room.
    pub(crate) fn put_image(
        &mut self,
        file: NodeId,
        image: &mut Image,
        cluster: u64,
        bytes: &[u8],
    ) -> Outcome
        requires held { IsSome (device_in self.old file) }
        requires cluster { cluster < clusters_in image.old }
        requires fits { FitsAt file self.old (PutFits image.old cluster) }
        requires whole { length bytes.now ≡ cluster_size_in image.old }
        requires known { IsKnownAt file self.old image.old }
        ensures { IsImageCallAt file (PutFits image.old cluster) None
            (PutsCluster cluster bytes.now)
            self.old self.new image.old image.new (cluster * cluster_size_in image.old) bytes.now
            result }
    {
        match self.place_of(file) {
            Some(at) => {
                let held = &mut self.list[at];
                held.put_image(image, cluster, bytes)
            }
            None => unreachable!(),
        }
    }

    /// Makes one cluster of the image in the file of a `file` node read as zeros.
    pub(crate) fn zero_image(&mut self, file: NodeId, image: &mut Image, cluster: u64) -> Outcome
        requires held { IsSome (device_in self.old file) }
        requires cluster { cluster < clusters_in image.old }
        requires known { IsKnownAt file self.old image.old }
        ensures { IsImageCallAt file (ZeroFits image.old cluster) None (ClearsCluster cluster)
            self.old self.new image.old image.new (cluster * cluster_size_in image.old)
            (replicate (cluster_size_in image.old) 0) result }
    {
        match self.place_of(file) {
            Some(at) => {
                let held = &mut self.list[at];
                held.zero_image(image, cluster)
            }
            None => unreachable!(),
        }
    }

    /// Gives the image in the file of a `file` node another backing name.
    pub(crate) fn rename_image(
        &mut self,
        file: NodeId,
        image: &mut Image,
        name: Option<&str>,
        format: Option<&str>,
    ) -> Result<(), Fault>
        requires held { IsSome (device_in self.old file) }
        requires name { ForSome name (λ name. IsNewName name.now) }
        requires format { ForSome format (λ format. IsNewFormat format.now) }
        requires known { IsKnownAt file self.old image.old }
        ensures { IsRenameAt file self.old self.new image.old image.new
            (option_copied name.entry) (option_copied format.entry) result }
    {
        match self.place_of(file) {
            Some(at) => {
                let held = &mut self.list[at];
                held.rename_image(image, name, format)
            }
            None => unreachable!(),
        }
    }

    /// Whether there is room to put a whole cluster of the image in the file of a `file` node: Good, or NoSpace.
    pub(crate) fn room_for_put(&self, file: NodeId, image: &Image, cluster: u64) -> Outcome
        requires held { IsSome (device_in self.now file) }
        requires cluster { cluster < clusters_in image.now }
        ensures { HasRoomAt file self.now (PutFits image.now cluster) result }
    {
        match self.place_of(file) {
            Some(at) => {
                let held = &self.list[at];
                held.room_for_put(image, cluster)
            }
            None => unreachable!(),
        }
    }
}
