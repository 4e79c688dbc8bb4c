//! The rows of a store in memory: its files, and its openings.

use crate::MemDevice;
use blk_base::{Device, NoMemory, Text};
use std::alloc::Global;
use std::marker::Model;

/// A file: its device as it is while it is not out, and as it was opened while it is.
#[derive(Drop)]
pub(crate) struct Held {
    name: Text,
    dev: MemDevice,
}

impl Model for Held {
    ghost use Rattle.blk_fakes.specs.Shelf.{FileState};

    ghost Value = { FileState };

    ghost view = { λ f. record { name = f.name.bytes; device = f.dev } };
}

impl Held {
    ghost use Rattle.std.specs.Prelude.{◌≡◌};
    ghost use Rattle.blk_fakes.specs.Shelf.{FileState};

    pub fn new(name: Text, dev: MemDevice) -> Self
        ensures { result ≡ record { name = name.bytes; device = dev } }
    {
        Held { name, dev }
    }

    pub fn name(&self) -> &str
        ensures { result.now ≡ self.now.name }
    {
        self.name.as_str()
    }

    pub fn device(&self) -> &MemDevice
        ensures { result.now ≡ self.now.device }
    {
        &self.dev
    }

    pub fn into_device(self) -> MemDevice
        ensures { result ≡ self.device }
    {
        self.dev
    }

    pub fn set_device(&mut self, dev: MemDevice)
        ensures { self.new ≡ record self.old { device = dev } }
    {
        self.dev = dev;
    }
}

/// An opening of a file: the device's length, capacity and count of faults then, and its count once it was given back.
#[derive(Drop)]
pub(crate) struct Opening {
    name: Text,
    size: u64,
    capacity: u64,
    faults: u64,
    returned: Option<u64>,
}

impl Model for Opening {
    ghost use Rattle.std.specs.Prelude.{None};
    ghost use Rattle.blk_base.specs.declared.file.Opened.{Opened};

    ghost Value = { Opened };

    ghost view = { λ o. record {
      name = o.name.bytes;
      size = o.size;
      capacity = o.capacity;
      faults = o.faults;
      returned = o.returned;
      failed_call = None;
    } };
}

impl Opening {
    ghost use Rattle.std.specs.Prelude.{◌≡◌, None, IfOk};
    ghost use Rattle.blk_base.specs.Files.{is_out_as, closed_with};
    ghost use Rattle.blk_fakes.specs.Shelf.{opened_as};

    /// An opening of this device.
    pub fn new(alloc: Global, name: &str, dev: &MemDevice) -> Result<Self, NoMemory>
        ensures { IfOk result (λ o. o ≡ opened_as name.now dev.now) }
    {
        Ok(Opening {
            name: Text::copied(alloc, name)?,
            size: dev.length(),
            capacity: dev.capacity(),
            faults: dev.faults(),
            returned: None,
        })
    }

    /// Whether the device is out under that name.
    pub fn is_out_as(&self, name: &str) -> bool
        ensures { result ≡ is_out_as name.now self.now }
    {
        name == self.name.as_str() && self.returned.is_none()
    }

    pub fn set_returned(&mut self, faults: u64)
        ensures { self.new ≡ closed_with faults None self.old }
    {
        self.returned = Some(faults);
    }
}
