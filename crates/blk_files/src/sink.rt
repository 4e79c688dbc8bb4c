//! Where the program writes.
ghost use Rattle.std.specs.Prelude.{◌≡◌, None};

use blk_base::{Sink, SinkFault};
use std::io;
use std::io::Write;
use std::marker::Model;

/// Standard output, or another writer.
#[derive(Drop)]
pub struct OutSink<W: Write> {
    out: W,
    faults: u64,
    failure: Option<io::Error>,
}

impl<W: Write> Model for OutSink<W> {
    ghost use Rattle.blk_files.specs.Seen.{SystemSink};

    ghost Value = { SystemSink };

    ghost view = { λ s. record { faults = s.faults } };
}

impl<W: Write> OutSink<W> {
    /// A writer on which no put has failed.
    pub fn new(out: W) -> Self
        ensures { result ≡ record { faults = 0 } }
    {
        OutSink {
            out,
            faults: 0,
            failure: None,
        }
    }

    fn write_out(&mut self, bytes: &[u8]) -> io::Result<()>
        ensures { self.new ≡ self.old }
    {
        self.out.write_all(bytes)?;
        self.out.flush()
    }

    /// What the system said when a put failed last.
    pub fn failure(&self) -> Option<io::Error> {
        self.failure
    }
}

impl<W: Write> Sink for OutSink<W> {
    ghost sent = { λ _. None };

    ghost faults = { λ s. s.faults };

    fn put(&mut self, bytes: &[u8]) -> Result<(), SinkFault> {
        match self.write_out(bytes) {
            Ok(()) => Ok(()),
            Err(error) => {
                self.faults = self.faults.saturating_add(1);
                self.failure = Some(error);
                Err(SinkFault::Failed)
            }
        }
    }

    fn faults(&self) -> u64 {
        self.faults
    }
}
