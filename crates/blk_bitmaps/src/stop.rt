//! Why the table refused.

use blk_base::NoMemory;
use std::error::Error;
use std::fmt;

/// Why a call was refused. The table is as before. Where several hold, the first of this list is answered; want of
/// memory comes only where no other does.
#[derive(Clone, Copy, Debug, PartialEq, Eq)]
pub enum BitmapStop {
    /// A bitmap of the node has this name.
    NameTaken,
    /// No bitmap of the node has this name.
    NotFound,
    /// The bitmap is in use by this job.
    Busy(u32),
    /// The granularity is not a power of two from 512 to 2,097,152.
    Granularity,
    /// A source is of a disk of another size.
    SizeDiffers,
    NoMemory,
    /// There are 64 bitmaps.
    TooMany,
}

impl fmt::Display for BitmapStop {
    ghost use Rattle.std.specs.Prelude.{Some};
    ghost use Rattle.blk_bitmaps.specs.Stop.{bitmap_stop_text};

    ghost output = { λ stop. Some (bitmap_stop_text stop) };

    fn fmt<W: fmt::Write>(&self, f: &mut fmt::Formatter<W>) -> fmt::Result {
        match self {
            BitmapStop::NameTaken => f.write_str("NameTaken"),
            BitmapStop::NotFound => f.write_str("NotFound"),
            BitmapStop::Busy(job) => write!(f, "Busy({job})"),
            BitmapStop::Granularity => f.write_str("Granularity"),
            BitmapStop::SizeDiffers => f.write_str("SizeDiffers"),
            BitmapStop::NoMemory => f.write_str("NoMemory"),
            BitmapStop::TooMany => f.write_str("TooMany"),
        }
    }
}

impl Error for BitmapStop {}

impl From<NoMemory> for BitmapStop {
    ghost use Rattle.std.specs.Prelude.{◌≡◌};
    ghost use Rattle.blk_bitmaps.specs.declared.stop.BitmapStop.TheVariants as stops;

    ghost from_gives = { λ _ stop. stop ≡ stops.NoMemory };

    fn from(_: NoMemory) -> Self {
        BitmapStop::NoMemory
    }
}
