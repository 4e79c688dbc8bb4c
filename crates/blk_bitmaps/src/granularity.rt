//! Sizes of granules.
ghost use Rattle.std.specs.Prelude.{◌≡◌, ◌<◌, Some, None, if◌then◌else◌};
ghost use Rattle.blk_bitmaps.specs.Rows.{is_granule_size};

use std::marker::Model;

/// How many bytes a granule has: a power of two from 512 to 2,097,152.
#[derive(Clone, Copy, Debug, PartialEq, Eq)]
pub struct Granularity {
    bytes: u64,
}

impl Model for Granularity {
    ghost use Rattle.std.specs.Prelude.{ℕ, ◌<◌};

    ghost Value = { ℕ };

    ghost view = { λ g. g.bytes };

    ghost invariant = { λ g. 0 < g.bytes };

    ghost inverse = { λ bytes. record { bytes = bytes } };
}

impl Granularity {
    /// None where a granule can't have so many bytes.
    pub fn new(bytes: u64) -> Option<Self>
        ensures { result ≡ (if is_granule_size bytes then Some bytes else None) }
    {
        if 512 <= bytes && bytes <= 2097152 && bytes.is_power_of_two() {
            Some(Granularity { bytes })
        } else {
            None
        }
    }

    pub fn bytes(self) -> u64
        ensures value { result ≡ self }
        ensures positive { 0 < result }
    {
        self.bytes
    }
}
