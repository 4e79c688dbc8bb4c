//! Where a transcript goes.
ghost use Rattle.std.specs.Prelude.{◌≡◌, ℕ, ◌≤◌, List, ◌++◌, take, Option, option_map, OnOk, OnErr};
ghost use Rattle.blk_base.specs.Counts.{Rose};

/// A put failed.
#[derive(Clone, Copy, Debug, PartialEq, Eq)]
pub enum SinkFault {
    Failed,
}

/// A place that bytes go out to, in order. A put that doesn't fail leaves the count of faults.
pub trait Sink {
    /// What went out, where the sink tells it.
    ghost sent: { Self → Option (List ℕ) };

    /// How many puts have failed.
    ghost faults: { Self → ℕ };

    /// Sends the bytes. Where it fails, some of the first of them went out.
    fn put(&mut self, bytes: &[u8]) -> Result<(), SinkFault>
        ensures sent { OnOk result
            (sent self.new ≡ option_map (λ s. s ++ bytes.now) (sent self.old)) }
        ensures partly { OnErr result
            ((n : ℕ) × (sent self.new ≡ option_map (λ s. s ++ take n bytes.now) (sent self.old))) }
        ensures failed { OnErr result (Rose (faults self.old) (faults self.new)) }
        ensures quiet { OnOk result (faults self.new ≡ faults self.old) }
        ensures faults { faults self.old ≤ faults self.new };

    /// How many puts have failed. The count never falls; at its last value, 2^64 - 1, it stands.
    fn faults(&self) -> u64
        ensures { result ≡ faults self.now };
}
