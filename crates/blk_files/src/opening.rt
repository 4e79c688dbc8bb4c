//! The record of an opening.

use crate::FileDevice;
use crate::failure::Failure;
use blk_base::{Device, DeviceCall, Text};
use std::io;
use std::marker::Model;

/// An opening of a file: the device's length, capacity and count of faults then, and its count once it was given back,
/// with which call failed last and what the system said.
#[derive(Debug, Drop)]
pub(crate) struct Opening {
    name: Text,
    size: u64,
    capacity: u64,
    faults: u64,
    returned: Option<u64>,
    failed_call: Option<DeviceCall>,
    failure: Option<io::Error>,
}

impl Model for Opening {
    ghost use Rattle.blk_base.specs.declared.file.Opened.{Opened};

    ghost Value = { Opened };

    ghost view = { λ o. record {
      name = o.name.bytes;
      size = o.size;
      capacity = o.capacity;
      faults = o.faults;
      returned = o.returned;
      failed_call = o.failed_call;
    } };
}

impl Opening {
    ghost use Rattle.std.specs.Prelude.{◌≡◌};
    ghost use Rattle.blk_base.specs.Files.{is_out_as, closed_with};
    ghost use Rattle.blk_files.specs.Seen.{opened_file_as};

    /// An opening of this device.
    pub fn new(name: Text, dev: &FileDevice) -> Self
        ensures { result ≡ opened_file_as name.bytes dev.now }
    {
        Opening {
            name,
            size: dev.length(),
            capacity: dev.capacity(),
            faults: dev.faults(),
            returned: None,
            failed_call: dev.failed_call(),
            failure: None,
        }
    }

    /// Whether the device is out under that name.
    pub fn is_out_as(&self, name: &str) -> bool
        ensures { result ≡ is_out_as name.now self.now }
    {
        name == self.name.as_str() && self.returned.is_none()
    }

    /// The device is back.
    pub fn set_returned(
        &mut self,
        faults: u64,
        failed_call: Option<DeviceCall>,
        failure: Option<io::Error>,
    )
        ensures { self.new ≡ closed_with faults failed_call self.old }
    {
        self.returned = Some(faults);
        self.failed_call = failed_call;
        self.failure = failure;
    }

    /// What the system said of the device's last failure, once it is back.
    pub fn failure(&self) -> Option<Failure<'_>> {
        match self.failure {
            Some(error) => Some(Failure {
                name: self.name.as_str(),
                error,
            }),
            None => None,
        }
    }
}
