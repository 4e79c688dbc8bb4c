//! The table of dirty bitmaps: for each node the bitmaps that record which of its granules were written.
#![tactic(auto)]

mod bitmaps;
mod change;
mod find;
mod granularity;
mod merge;
mod row;
mod sources;
mod stop;

pub use bitmaps::{Bitmaps, MOST_BITMAPS};
pub use granularity::Granularity;
pub use row::Bitmap;
pub use sources::{SourceBitmap, Sources};
pub use stop::BitmapStop;
