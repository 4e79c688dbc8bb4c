//! Why a node isn't added, and why no image is created in a node's file.

use blk_base::DevNo;
use blk_graph::Conflict;
use q2_image::ImageStop;

/// Why a node isn't added: the first cause in the order in which they stand here. The nodes are then as before.
#[derive(Debug, Drop)]
pub enum AddStop {
    /// A node has that name.
    NameTaken,
    /// There are 64 nodes.
    TooManyNodes,
    /// An edge of the node would break the permission rule; the first such pair is named.
    Conflict(Conflict),
    /// The file holds no image that can be opened.
    Image(ImageStop),
    /// The image names a backing file, and nothing was said of a backing node.
    BackingNeeded,
    /// The backing node's disk has another size than the image's.
    SizeDiffers,
    /// Want of memory.
    NoMemory,
}

/// Why no image is created in the file of a node.
#[derive(Clone, Copy, Debug, PartialEq, Eq)]
pub enum FormatStop {
    /// A fault stopped a write: `dev` is the number of the file's device, and `count` its count of faults afterwards, which rose.
    /// The file is as it was, or no image.
    Io { dev: DevNo, count: u64 },
    /// The image would end above the device's capacity. Nothing was written.
    NoSpace { dev: DevNo },
    /// Want of memory. Nothing was written.
    NoMemory,
}
