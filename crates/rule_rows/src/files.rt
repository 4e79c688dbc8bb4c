//! What files and images tell for a line.

use blk_base::{FaultFrom, Names1, NoMemory, Text};
use q2_image::ImageStop;
use qmp_asks::{Look, Name};
use qmp_rules::{Amounts, FileFault, Refusal, Stopped, Told};
use std::alloc::Global;

/// The looks by which files and images can refuse a line.
pub(crate) const LOOKS: [(&str, Look); 7] = [
    ("begin", Look::Begin),
    ("end", Look::End),
    ("file", Look::File),
    ("image", Look::Image),
    ("backing", Look::Backing),
    ("size", Look::Size),
    ("format", Look::Format),
];

/// What is refused at a look.
fn refusal_at(alloc: Global, look: Look) -> Result<Refusal, NoMemory> {
    match look {
        Look::Begin => Ok(Refusal::BadValue(Name::copied(alloc, "offset")?)),
        Look::End => Ok(Refusal::BadValue(Name::copied(alloc, "size")?)),
        Look::File => Ok(Refusal::File {
            name: Name::copied(alloc, "f")?,
            fault: FileFault::Absent,
        }),
        Look::Image => Ok(Refusal::Image(ImageStop::HeaderFull)),
        Look::Backing => Ok(Refusal::BackingNeeded(Name::copied(alloc, "q0")?)),
        Look::Size => Ok(Refusal::SizeDiffers {
            first: Name::copied(alloc, "q0")?,
            second: Name::copied(alloc, "f1")?,
        }),
        Look::Format => Ok(Refusal::Io {
            from: FaultFrom::Store,
            count: 1,
        }),
    }
}

fn stopped_at(alloc: Global, look: Option<Look>) -> Result<Option<Stopped>, NoMemory> {
    match look {
        Some(look) => Ok(Some(Stopped {
            look,
            refusal: refusal_at(alloc, look)?,
        })),
        None => Ok(None),
    }
}

/// The length of each file that is opened, and the look at which files refuse a line.
#[derive(Clone, Copy)]
pub(crate) struct Files {
    pub(crate) length: u64,
    pub(crate) look: Option<Look>,
}

/// That every file which is opened has this length, and every image 1 MiB. That of the node `full` maps a cluster.
pub(crate) fn told(alloc: Global, files: Files) -> Result<Told, NoMemory> {
    let mut mapped = Vec::new(alloc);
    mapped.push(Text::copied(alloc, "full")?)?;
    Ok(Told {
        length: Some(files.length),
        size: Some(1_048_576),
        stopped: stopped_at(alloc, files.look)?,
        mapped: Names1::from_vec(mapped),
        dirty: Amounts::new(Vec::new(alloc)),
    })
}
