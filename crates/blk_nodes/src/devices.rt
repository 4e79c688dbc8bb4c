//! The devices that the nodes hold.
ghost use Rattle.std.specs.Prelude.{◌≡◌, ◌<◌, ◌/◌, ℕ, ◌≤◌, List, [], length, AllPairs, MatchOption, None, Some, IsSome, IfSome, IfOk, IfErr, OnOk};
ghost use Rattle.std.specs.List.{position};
ghost use Rattle.std.specs.Option.{ForSome, option_copied};
ghost use Rattle.blk_base.specs.Content.{AreZeroPast, bytes_at};
ghost use Rattle.blk_base.specs.declared.device.DeviceCall.TheVariants as calls;
ghost use Rattle.q2_format.specs.Created.{creation_of, IsNewName, IsNewFormat};
ghost use Rattle.q2_format.specs.declared.header.TheConstants.{MAX_DISK_SIZE};
ghost use Rattle.q2_image.specs.Guest.{guest_bytes};
ghost use Rattle.q2_image.specs.Image.{Known, IsImageOf, cluster_size_in, clusters_in, entry_in};
ghost use Rattle.q2_image.specs.Reading.{IsHost, IsWithinCluster};
ghost use Rattle.q2_image.specs.Writing.{own_place};
ghost use Rattle.blk_nodes.specs.Contents.{bytes_by};
ghost use Rattle.blk_nodes.specs.Dropping.{other_devices};
ghost use Rattle.blk_nodes.specs.Found.{IsZeroPastFile};
ghost use Rattle.blk_nodes.specs.Joined.{DifferInNode};
ghost use Rattle.blk_nodes.specs.Nodes.{DeviceSeen, IsFileTold, is_device_of, device_in};
ghost use Rattle.blk_nodes.specs.Overlays.{IsOpened, IsOpenedOn, IsUnopened, IsUnopenedOn};
ghost use Rattle.blk_nodes.specs.Flushing.{IsFlushOf, IsFlushAt};
ghost use Rattle.blk_nodes.specs.Formatting.{format_stop, IsFormatOf, IsFormatAt};
ghost use Rattle.blk_nodes.specs.Writing.{IsWriteOf, IsWriteAt, write_outcome};
ghost use Rattle.blk_nodes.specs.Reading.{HasRisen, HaveRisen, IsReadOf, IsReadAt};

mod images;

use crate::stop::FormatStop;
use blk_base::{DevNo, DevStop, Device, NoMemory, Outcome, Span, Stop, WriteStop};
use blk_graph::{MOST_NODES, NodeId};
use q2_image::{CreateStop, Image, ImageStop, create_image, open_image};
use std::alloc::Global;
use std::marker::Model;

/// The device of a `file` node, and its number among the openings of the run.
#[derive(Drop)]
pub(crate) struct Held<D: Device> {
    pub node: NodeId,
    pub number: DevNo,
    pub device: D,
}

impl<D: Device> Model for Held<D> {
    ghost use Rattle.blk_nodes.specs.Nodes.{DeviceSeen};

    ghost Value = { DeviceSeen };

    ghost view = { λ h. record {
      node = h.node;
      number = h.number;
      content = D.content h.device;
      is_flushed = D.is_flushed h.device;
      log = D.log h.device;
      size = D.size h.device;
      capacity = D.capacity h.device;
      faults = D.faults h.device;
      failed_call = D.failed_call h.device;
    } };
}

impl<D: Device> Held<D> {
    fn number(&self) -> DevNo
        ensures { result ≡ self.now.number }
    {
        self.number
    }

    fn is_of(&self, node: NodeId) -> bool
        ensures { result ≡ is_device_of node self.now }
    {
        self.node == node
    }

    /// A call of the device has failed.
    fn failed(&self) -> Outcome
        ensures { result ≡ Outcome.Io self.now.number self.now.faults }
    {
        Outcome::Io {
            dev: self.number,
            count: self.device.faults(),
        }
    }

    /// Reads what stands on the device from a place on.
    fn read(&mut self, place: u64, buffer: &mut [u8]) -> Outcome
        ensures read { (bytes : List ℕ) → self.old.content ≡ Some bytes → result ≡ Outcome.Good
            → buffer.new ≡ bytes_at bytes place (length buffer.old) }
        ensures past { result ≡ Outcome.Good → AreZeroPast self.old.size place buffer.new }
        ensures outcome { IsReadOf (calls.Read place (length buffer.old)) self.old self.new
            result }
        ensures kept { HasRisen self.old self.new }
    {
        match self.device.read_at(place, buffer) {
            Ok(()) => Outcome::Good,
            Err(_) => self.failed(),
        }
    }

    /// Reads a part of one mapped cluster of the image in the file.
    fn read_image(&mut self, image: &Image, span: Span, buffer: &mut [u8]) -> Outcome
        requires some { 0 < span.len }
        requires cluster { IsWithinCluster (cluster_size_in image.now) span }
        requires inside { span.start < image.now.header.size }
        requires host { IsHost (entry_in image.now (span.start / cluster_size_in image.now)) }
        requires whole { length buffer.old ≡ span.len }
        ensures read { (bytes : List ℕ) → self.old.content ≡ Some bytes → IsImageOf bytes image.now
            → result ≡ Outcome.Good
            → buffer.new ≡ guest_bytes bytes [] span.start span.len }
        ensures past { result ≡ Outcome.Good
            → AreZeroPast self.old.size (own_place image.now span) buffer.new }
        ensures outcome { IsReadOf (calls.Read (own_place image.now span) span.len) self.old
            self.new result }
        ensures kept { HasRisen self.old self.new }
    {
        let _ = image.cluster_size();
        match image.read_own(&mut self.device, span, buffer) {
            Ok(()) => Outcome::Good,
            Err(DevStop::Io { count }) => Outcome::Io {
                dev: self.number,
                count,
            },
            Err(DevStop::NoSpace) => unreachable!(),
        }
    }

    /// What a write that stopped has answered.
    fn stopped(&self, stop: WriteStop) -> Outcome
        ensures { result ≡ write_outcome self.now stop }
    {
        match stop.why {
            Stop::NoSpace => Outcome::NoSpace { dev: self.number },
            Stop::Failed if stop.done == 0 => self.failed(),
            Stop::Failed => Outcome::Torn {
                done: stop.done,
                dev: self.number,
                count: self.device.faults(),
            },
        }
    }

    /// Writes bytes at a place on the device.
    fn write(&mut self, place: u64, bytes: &[u8]) -> Outcome
        ensures { IsWriteOf self.old self.new place bytes.now result }
    {
        match self.device.write_at(place, bytes) {
            Ok(()) => Outcome::Good,
            Err(stop) => self.stopped(stop),
        }
    }

    fn flush(&mut self) -> Outcome
        ensures { IsFlushOf self.old self.new result }
    {
        match self.device.flush() {
            Ok(()) => Outcome::Good,
            Err(_) => self.failed(),
        }
    }

    /// Opens the image in the file.
    fn open_image(&mut self, alloc: Global) -> Result<Image, ImageStop>
        ensures opened { IfOk result (IsOpenedOn self.old) }
        ensures stop { IfErr result (IsUnopenedOn self.old self.new) }
        ensures quiet { OnOk result (self.new ≡ self.old) }
        ensures kept { HasRisen self.old self.new }
    {
        open_image(alloc, &mut self.device)
    }

    /// Why no image was created in the file.
    fn unformatted(&self, stop: CreateStop) -> FormatStop
        ensures { result ≡ format_stop self.now.number stop }
    {
        match stop {
            CreateStop::Io { count } => FormatStop::Io {
                dev: self.number,
                count,
            },
            CreateStop::NoSpace => FormatStop::NoSpace { dev: self.number },
            CreateStop::NoMemory => FormatStop::NoMemory,
        }
    }

    /// Creates an image in the file.
    fn create_image(
        &mut self,
        alloc: Global,
        size: u64,
        name: Option<&str>,
        format: Option<&str>,
    ) -> Result<(), FormatStop>
        requires size { size ≤ MAX_DISK_SIZE }
        requires name { ForSome name (λ name. IsNewName name.now) }
        requires format { ForSome format (λ format. IsNewFormat format.now) }
        ensures { IsFormatOf self.old self.new
            (creation_of size (option_copied name.entry) (option_copied format.entry)) result }
    {
        match create_image(alloc, &mut self.device, size, name, format) {
            Ok(()) => Ok(()),
            Err(stop) => Err(self.unformatted(stop)),
        }
    }
}

/// The devices of the `file` nodes, in the order in which their nodes were added.
#[derive(Drop)]
pub(crate) struct Devices<D: Device> {
    pub list: Vec<Held<D>>,
}

impl<D: Device> Model for Devices<D> {
    ghost use Rattle.std.specs.Prelude.{List};
    ghost use Rattle.blk_nodes.specs.Nodes.{DeviceSeen};

    ghost Value = { List DeviceSeen };

    ghost view = { λ d. d.list.items };
}

impl<D: Device> Devices<D> {
    /// No device. Room for one of each node is taken here.
    pub(crate) fn new(alloc: Global) -> Result<Self, NoMemory>
        ensures { IfOk result (λ devices. devices ≡ []) }
    {
        Ok(Devices {
            list: Vec::with_capacity(alloc, MOST_NODES)?,
        })
    }

    /// Where the device of a `file` node stands.
    fn place_of(&self, file: NodeId) -> Option<usize>
        ensures place { result ≡ position (is_device_of file) self.now }
        ensures within { IfSome result (λ at. at < length self.now) }
    {
        self.list.iter().position(|held| held.is_of(file))
    }

    /// The number of a node's device.
    pub(crate) fn number_of(&self, file: NodeId) -> DevNo
        requires { IsSome (device_in self.now file) }
        ensures { IfSome (device_in self.now file) (λ held. result ≡ held.number) }
    {
        match self.place_of(file) {
            Some(at) => {
                let held = &self.list[at];
                held.number()
            }
            None => unreachable!(),
        }
    }

    /// Reads from the file of a `file` node.
    pub(crate) fn read_file(&mut self, file: NodeId, start: u64, buffer: &mut [u8]) -> Outcome
        requires { IsSome (device_in self.old file) }
        ensures read { IsFileTold self.old file → result ≡ Outcome.Good
            → buffer.new ≡ bytes_at (bytes_by (device_in self.old file)) start (length buffer.old) }
        ensures past { result ≡ Outcome.Good
            → IsZeroPastFile self.old file start buffer.new }
        ensures outcome { IsReadAt file (calls.Read start (length buffer.old)) self.old
            self.new result }
        ensures devices { HaveRisen self.old self.new }
    {
        match self.place_of(file) {
            Some(at) => {
                let held = &mut self.list[at];
                held.read(start, buffer)
            }
            None => unreachable!(),
        }
    }

    /// Reads from a mapped cluster of the image in the file of a `file` node.
    pub(crate) fn read_image(
        &mut self,
        file: NodeId,
        image: &Image,
        span: Span,
        buffer: &mut [u8],
    ) -> Outcome
        requires held { IsSome (device_in self.old file) }
        requires some { 0 < span.len }
        requires cluster { IsWithinCluster (cluster_size_in image.now) span }
        requires inside { span.start < image.now.header.size }
        requires host { IsHost (entry_in image.now (span.start / cluster_size_in image.now)) }
        requires whole { length buffer.old ≡ span.len }
        requires known { (device : DeviceSeen) (bytes : List ℕ)
            → device_in self.old file ≡ Some device → device.content ≡ Some bytes
            → IsImageOf bytes image.now }
        ensures read { IsFileTold self.old file → result ≡ Outcome.Good
            → buffer.new ≡ guest_bytes (bytes_by (device_in self.old file)) [] span.start span.len }
        ensures past { result ≡ Outcome.Good
            → IsZeroPastFile self.old file (own_place image.now span) buffer.new }
        ensures outcome { IsReadAt file (calls.Read (own_place image.now span) span.len)
            self.old self.new result }
        ensures devices { HaveRisen self.old self.new }
    {
        match self.place_of(file) {
            Some(at) => {
                let held = &mut self.list[at];
                held.read_image(image, span, buffer)
            }
            None => unreachable!(),
        }
    }

    /// Writes to the file of a `file` node.
    pub(crate) fn write_file(&mut self, file: NodeId, start: u64, bytes: &[u8]) -> Outcome
        requires { IsSome (device_in self.old file) }
        ensures { IsWriteAt file self.old self.new start bytes.now result }
    {
        match self.place_of(file) {
            Some(at) => {
                let held = &mut self.list[at];
                held.write(start, bytes)
            }
            None => unreachable!(),
        }
    }

    /// Flushes the file of a `file` node. Of a node without a device there is nothing to flush.
    pub(crate) fn flush_file(&mut self, file: NodeId) -> Outcome
        ensures { IsFlushAt file self.old self.new result }
    {
        match self.place_of(file) {
            Some(at) => {
                let held = &mut self.list[at];
                held.flush()
            }
            None => Outcome::Good,
        }
    }

    /// Takes out the device of a node, where it has one.
    pub(crate) fn take_out(&mut self, node: NodeId) -> Option<D>
        requires { AllPairs DifferInNode self.old }
        ensures left { self.new ≡ other_devices node self.old }
        ensures device { MatchOption result (device_in self.old node ≡ None)
            (λ device. (held : DeviceSeen) × (device_in self.old node ≡ Some held)
            × (held ≡ record held {
              content = D.content device;
              is_flushed = D.is_flushed device;
              log = D.log device;
              size = D.size device;
              capacity = D.capacity device;
              faults = D.faults device;
              failed_call = D.failed_call device;
            })) }
    {
        match self.place_of(node) {
            Some(at) => {
                let held = self.list.remove(at);
                let Held { device, .. } = held;
                Some(device)
            }
            None => None,
        }
    }

    /// Opens the image in the file of a `file` node.
    pub(crate) fn open_image(&mut self, alloc: Global, file: NodeId) -> Result<Image, ImageStop>
        requires { IsSome (device_in self.old file) }
        ensures opened { IfOk result (IsOpened self.old file) }
        ensures stop { IfErr result (IsUnopened self.old self.new file) }
        ensures quiet { OnOk result (self.new ≡ self.old) }
        ensures risen { HaveRisen self.old self.new }
    {
        match self.place_of(file) {
            Some(at) => {
                let held = &mut self.list[at];
                held.open_image(alloc)
            }
            None => unreachable!(),
        }
    }

    /// Creates an image in the file of a `file` node.
    pub(crate) fn create_image(
        &mut self,
        alloc: Global,
        file: NodeId,
        size: u64,
        name: Option<&str>,
        format: Option<&str>,
    ) -> Result<(), FormatStop>
        requires held { IsSome (device_in self.old file) }
        requires size { size ≤ MAX_DISK_SIZE }
        requires name { ForSome name (λ name. IsNewName name.now) }
        requires format { ForSome format (λ format. IsNewFormat format.now) }
        ensures { IsFormatAt file self.old self.new
            (creation_of size (option_copied name.entry) (option_copied format.entry)) result }
    {
        match self.place_of(file) {
            Some(at) => {
                let held = &mut self.list[at];
                held.create_image(alloc, size, name, format)
            }
            None => unreachable!(),
        }
    }
}
