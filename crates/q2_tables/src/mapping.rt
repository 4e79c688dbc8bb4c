//! What a guest cluster is mapped to.

/// What stands behind a guest cluster. A host offset counts bytes from the start of the image's file.
#[derive(Clone, Copy, Debug, PartialEq, Eq, Hash)]
pub enum Mapping {
    /// The cluster reads from the backing file.
    Unallocated,
    /// The cluster reads as zeros. The cluster at `host` is kept for it; 0 stands for none.
    Zero { host: u64 },
    /// The cluster reads from the file at `host`.
    Host { host: u64 },
}
