//! What a command asks of its line, the table and the files, as data.

use crate::look::Look;
use qmp_codec::Amount;
use std::alloc::AllocError;

/// The drivers that a command takes at some place.
#[derive(Clone, Copy)]
pub enum Drivers {
    File,
    Qcow2,
    RawOrQcow2,
    FileRawOrQcow2,
}

/// The nodes of a job, by the names that its command gives.
#[derive(Copy)]
pub enum JobNodes<T> {
    Stream {
        device: T,
        base: Option<T>,
    },
    Commit {
        device: T,
        base: Option<T>,
        top: Option<T>,
    },
    /// A mirror or a backup.
    Copy {
        device: T,
        target: T,
    },
}

impl<T: Copy> Clone for JobNodes<T> {
    ghost use Rattle.std.specs.Prelude.{◌≡◌, ⊤};

    ghost is_clone = { λ nodes copy. copy ≡ nodes };

    ghost is_infallible = { λ _. ⊤ };

    fn clone(&self) -> Result<Self, AllocError> {
        Ok(*self)
    }
}

/// One thing that a command asks. An absent name asks nothing.
#[derive(Copy)]
pub enum Ask<T> {
    /// The value of the member is accepted.
    Good {
        member: T,
        ok: bool,
    },
    /// A part of a file node begins within its file.
    Begins {
        file: T,
        offset: Option<Amount>,
    },
    /// It ends there, where its size is said.
    Ends {
        file: T,
        offset: Option<Amount>,
        size: Option<Amount>,
    },
    /// What the files decide.
    Files(Look),
    /// The text is a name of a node, device, job or bitmap.
    Named {
        member: T,
        text: Option<T>,
    },
    /// The text is a name of a file.
    FileNamed {
        member: T,
        text: Option<T>,
    },
    /// A node has the name.
    Found(Option<T>),
    /// `blockdev-create` keeps the id.
    Kept(T),
    DeviceFound(T),
    /// The node has a bitmap of the name.
    BitmapFound {
        node: T,
        name: Option<T>,
    },
    JobFound(T),
    /// No node has the name.
    FreshNode(Option<T>),
    /// Two nodes that are added together have different names.
    Apart {
        first: T,
        second: Option<T>,
    },
    FreshDevice(T),
    /// No job has the id, and none is kept.
    FreshJob(T),
    FreshBitmap {
        node: T,
        name: T,
    },
    /// There is room for so many nodes more.
    RoomForNodes(u8),
    RoomForDevice,
    RoomForJob,
    RoomForBitmap,
    /// The node's driver is one of these.
    Drives {
        node: Option<T>,
        which: Drivers,
    },
    /// No node stands for the file.
    Closed(T),
    /// A part of a file node is not too long.
    Fits {
        file: T,
        offset: Option<Amount>,
        size: Option<Amount>,
    },
    /// The bytes of the file are known as far as a node over it needs.
    Known {
        file: T,
        is_raw: bool,
    },
    /// So it is with the file of a file node.
    KnownUnder {
        file: T,
        is_raw: bool,
    },
    Settled(Option<T>),
    /// The backing node is not the file node, which a format node unsettles.
    Beside {
        backing: Option<T>,
        file: T,
    },
    /// No job holds the node, be it for reading.
    Unheld(T),
    /// No other job holds what a job would hold.
    Free(JobNodes<T>),
    /// No job uses the bitmap.
    BitmapFree {
        node: T,
        name: Option<T>,
    },
    Writable(T),
    /// A file node is not read-only where the node over it is not.
    WritableUnder {
        file: T,
        read_only: bool,
    },
    /// So it is with a file node that is made with the node over it.
    WritableWith {
        node: T,
        own: Option<T>,
        ok: bool,
    },
    /// The base is below the top, and the top is the device or below it.
    InChain(JobNodes<T>),
    SameSize {
        first: T,
        second: T,
    },
    /// So it is with the nodes of a job.
    EqualSizes(JobNodes<T>),
    NoBacking(T),
    /// The image of the node maps no cluster.
    Empty(T),
    /// The node has no parent.
    Lone(T),
    /// No other node or job is in the job's way.
    Clear(JobNodes<T>),
    JobReady(T),
    /// The action is none that aborts.
    Abort,
}

impl<T: Copy> Clone for Ask<T> {
    ghost use Rattle.std.specs.Prelude.{◌≡◌, ⊤};

    ghost is_clone = { λ asking copy. copy ≡ asking };

    ghost is_infallible = { λ _. ⊤ };

    fn clone(&self) -> Result<Self, AllocError> {
        Ok(*self)
    }
}
