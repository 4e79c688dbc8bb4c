//! Why a command is refused.

use blk_base::{DevNo, FaultFrom};
use blk_graph::Perm;
use q2_image::ImageStop;
use qmp_asks::Name;
use std::alloc::AllocError;

/// What there can be too many of: 64 of each but jobs, of which there are 16.
#[derive(Clone, Copy)]
pub enum Crowd {
    Nodes,
    Devices,
    Jobs,
    Bitmaps,
}

/// What is wrong with a file of the store.
#[derive(Clone, Copy)]
pub enum FileFault {
    /// The store has no file of that name.
    Absent,
    /// A node stands over it already.
    InUse,
    /// It has more bytes than a node of that driver takes.
    TooLong,
}

/// Why a command is refused, with what its answer tells. They stand in the order in which they are looked for: of
/// several that hold the first is answered, and a refused command has changed nothing. The answer's class is
/// `GenericError`, where nothing else is said.
#[derive(Drop)]
pub enum Refusal {
    /// The line is no JSON object with a text `execute`.
    BadJson,
    /// No command has this name; class `CommandNotFound`.
    UnknownCommand(Name),
    /// Capabilities are not negotiated, or are so already; class `CommandNotFound`.
    Negotiation {
        again: bool,
    },
    /// This member is needed and absent.
    Missing(Name),
    /// This member is not accepted.
    Unexpected(Name),
    /// The value of this member is of another kind.
    BadType(Name),
    /// The value of this member is none that is accepted.
    BadValue(Name),
    /// The value of this member is no name.
    BadName(Name),
    /// Nothing of that name is there. Where `device_del` asks for it the class is `DeviceNotFound`.
    NotFound {
        name: Name,
        is_device: bool,
    },
    /// There is no job of this id; class `DeviceNotActive`.
    NotActive(Name),
    /// Something has this name already.
    NameTaken(Name),
    /// One more would be too many.
    TooMany(Crowd),
    /// The node's driver is none that the command takes.
    Driver(Name),
    /// A file of the store.
    File {
        name: Name,
        fault: FileFault,
    },
    /// The bytes of this file are not known any more.
    FileUsed(Name),
    /// The image in the file is refused.
    Image(ImageStop),
    /// The image of this node names a backing file.
    BackingNeeded(Name),
    /// The node has no flat disk.
    Unsettled(Name),
    /// The job holds the node.
    JobHolds {
        node: Name,
        job: Name,
    },
    /// The job uses the bitmap.
    BitmapBusy {
        bitmap: Name,
        job: Name,
    },
    /// The node isn't writable.
    ReadOnly(Name),
    /// The node is not below the other.
    NotInChain(Name),
    /// The disks of the two nodes are not of one length.
    SizeDiffers {
        first: Name,
        second: Name,
    },
    /// The node has a backing node already.
    HasBacking(Name),
    /// The node's image maps a cluster.
    NotEmpty(Name),
    /// The parent, a node, a device or a job, uses the node.
    InUse {
        node: Name,
        parent: Name,
    },
    /// The job has still something to copy.
    NotReady(Name),
    /// One parent of the node asks what another doesn't share.
    Conflict {
        node: Name,
        asks: Name,
        denies: Name,
        perm: Perm,
    },
    /// An action says so.
    Aborted,
    /// A call of a device or the store failed; its count of faults afterwards. Of this and `NoSpace` a file that was
    /// being made or formatted isn't known any more.
    Io {
        from: FaultFrom,
        count: u64,
    },
    /// A write would end above the device's capacity.
    NoSpace(DevNo),
}

impl Clone for Refusal {
    ghost use Rattle.std.specs.Prelude.{◌≡◌};

    ghost is_clone = { λ refusal copy. copy ≡ refusal };

    fn clone(&self) -> Result<Self, AllocError> {
        match self {
            Refusal::BadJson => Ok(Refusal::BadJson),
            Refusal::UnknownCommand(name) => Ok(Refusal::UnknownCommand(name.clone()?)),
            Refusal::Negotiation { again } => Ok(Refusal::Negotiation { again: *again }),
            Refusal::Missing(name) => Ok(Refusal::Missing(name.clone()?)),
            Refusal::Unexpected(name) => Ok(Refusal::Unexpected(name.clone()?)),
            Refusal::BadType(name) => Ok(Refusal::BadType(name.clone()?)),
            Refusal::BadValue(name) => Ok(Refusal::BadValue(name.clone()?)),
            Refusal::BadName(name) => Ok(Refusal::BadName(name.clone()?)),
            Refusal::NotFound { name, is_device } => Ok(Refusal::NotFound {
                name: name.clone()?,
                is_device: *is_device,
            }),
            Refusal::NotActive(name) => Ok(Refusal::NotActive(name.clone()?)),
            Refusal::NameTaken(name) => Ok(Refusal::NameTaken(name.clone()?)),
            Refusal::TooMany(value) => Ok(Refusal::TooMany(*value)),
            Refusal::Driver(name) => Ok(Refusal::Driver(name.clone()?)),
            Refusal::File { name, fault } => Ok(Refusal::File {
                name: name.clone()?,
                fault: *fault,
            }),
            Refusal::FileUsed(name) => Ok(Refusal::FileUsed(name.clone()?)),
            Refusal::Image(value) => Ok(Refusal::Image(*value)),
            Refusal::BackingNeeded(name) => Ok(Refusal::BackingNeeded(name.clone()?)),
            Refusal::Unsettled(name) => Ok(Refusal::Unsettled(name.clone()?)),
            Refusal::JobHolds { node, job } => Ok(Refusal::JobHolds {
                node: node.clone()?,
                job: job.clone()?,
            }),
            Refusal::BitmapBusy { bitmap, job } => Ok(Refusal::BitmapBusy {
                bitmap: bitmap.clone()?,
                job: job.clone()?,
            }),
            Refusal::ReadOnly(name) => Ok(Refusal::ReadOnly(name.clone()?)),
            Refusal::NotInChain(name) => Ok(Refusal::NotInChain(name.clone()?)),
            Refusal::SizeDiffers { first, second } => Ok(Refusal::SizeDiffers {
                first: first.clone()?,
                second: second.clone()?,
            }),
            Refusal::HasBacking(name) => Ok(Refusal::HasBacking(name.clone()?)),
            Refusal::NotEmpty(name) => Ok(Refusal::NotEmpty(name.clone()?)),
            Refusal::InUse { node, parent } => Ok(Refusal::InUse {
                node: node.clone()?,
                parent: parent.clone()?,
            }),
            Refusal::NotReady(name) => Ok(Refusal::NotReady(name.clone()?)),
            Refusal::Conflict {
                node,
                asks,
                denies,
                perm,
            } => Ok(Refusal::Conflict {
                node: node.clone()?,
                asks: asks.clone()?,
                denies: denies.clone()?,
                perm: *perm,
            }),
            Refusal::Aborted => Ok(Refusal::Aborted),
            Refusal::Io { from, count } => Ok(Refusal::Io {
                from: *from,
                count: *count,
            }),
            Refusal::NoSpace(value) => Ok(Refusal::NoSpace(*value)),
        }
    }
}
