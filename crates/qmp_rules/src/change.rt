//! What commands do to the table: one kind of change each.
ghost use Rattle.std.specs.Prelude.{◌≡◌, ◌==◌, ◌∷◌, [], IfNone, IfSome, length};

use crate::rows::{AskedEnd, BitmapRow, DeviceRow, JobRecord, NodeRecord};
use blk_graph::{JobUse, NodeId};
use qmp_asks::Name;
use qmp_codec::ImageFormat;
use std::marker::Model;

/// What a node reads as from then on: as another node, or as what the start of a job found.
#[derive(Clone, Copy)]
pub enum NewDisk {
    OfNode(NodeId),
    OfStart(u32),
}

/// How a job ends.
#[derive(Clone, Copy)]
pub enum JobOutcome {
    Completed,
    Pivoted,
    Copied,
    /// It failed, or was cancelled.
    Stopped,
}

/// A change of the table.
#[derive(Drop)]
pub enum Change {
    /// Capabilities are negotiated from now on.
    Negotiate,
    /// The id of a job of the past stays taken, until `job-dismiss` lets it go.
    KeepId(Name),
    /// It does.
    DropId(Name),
    /// The file holds so many zeros.
    MakeFile {
        name: Name,
        size: u64,
    },
    /// The file under the node holds an image of that size, which maps nothing.
    FormatFile {
        node: NodeId,
        name: Name,
        size: u64,
        backing_file: Option<Name>,
        backing_fmt: Option<ImageFormat>,
    },
    /// The making or formatting of a file failed: nothing of it is known, and a node over it has no flat disk.
    SpoilFile(Name),
    /// What the file's node read as is its last disk, and the file's length is not known.
    UseFile(Name),
    /// A node over a file of the store.
    AddFile(NodeRecord),
    /// A format node over a file node, with a backing node where it has one. The file node is unsettled for good.
    AddFormat {
        row: NodeRecord,
        file: NodeId,
        backing: Option<NodeId>,
    },
    /// A node that reads as its child.
    AddFilter {
        row: NodeRecord,
        child: NodeId,
    },
    /// The node goes, with its edges and bitmaps.
    RemoveNode(NodeId),
    /// The node has no flat disk any more.
    Unsettle(NodeId),
    /// The node may be written from now on.
    MakeWritable(NodeId),
    /// A job's filter: all that used the node use the filter in its place.
    PutFilter {
        row: NodeRecord,
        node: NodeId,
    },
    /// The job of the slot uses the node so.
    UseNode {
        slot: u32,
        what: JobUse,
        node: NodeId,
    },
    /// A job begins, and uses the bitmap that it copies by.
    StartJob(JobRecord),
    /// The job of this number is asked for that, unless it was to end cancelled.
    AskJob {
        number: u32,
        asked: AskedEnd,
    },
    /// The job of this number is ready.
    ReadyJob(u32),
    /// The job of this number and slot is over: its row and its edges are gone, and no bitmap is in its use. What it put aside
    /// of the bitmap is dropped, or is dirty again.
    EndJob {
        number: u32,
        slot: u32,
        drops: bool,
    },
    /// A job's filter goes: all that used it use its child.
    PullFilter(NodeId),
    /// Another node, or none, becomes the backing node. The node reads the same.
    Rebase {
        node: NodeId,
        backing: Option<NodeId>,
    },
    /// The node has this flat disk again.
    Settle {
        node: NodeId,
        disk: NewDisk,
    },
    /// The node may not be written any more.
    MakeReadOnly(NodeId),
    /// A device is there, and uses the node as its drive.
    AddDevice {
        device: DeviceRow,
        node: NodeId,
    },
    /// The device of this number goes, with its edge.
    RemoveDevice(u32),
    /// The node becomes the backing node of the overlay.
    Attach {
        overlay: NodeId,
        node: NodeId,
    },
    /// All parents of a node but one use another in its place.
    Move {
        from: NodeId,
        to: NodeId,
        but: NodeId,
    },
    /// A bitmap in which nothing is dirty.
    AddBitmap(BitmapRow),
    /// The bitmap goes.
    RemoveBitmap {
        node: NodeId,
        name: Name,
    },
    /// The bitmap records writes from now on, or doesn't.
    TurnBitmap {
        node: NodeId,
        name: Name,
        on: bool,
    },
    /// Nothing is dirty in the bitmap.
    ClearBitmap {
        node: NodeId,
        name: Name,
    },
    /// What is dirty in the source is so in the target.
    MergeBitmap {
        node: NodeId,
        name: Name,
        source_node: NodeId,
        source: Name,
    },
}

/// Changes, in order.
#[derive(Drop)]
pub struct Edits {
    // The last one first, so that each is taken from the end.
    changes: Vec<Change>,
}

impl Model for Edits {
    ghost use Rattle.std.specs.Prelude.{List, reverse};
    ghost use Rattle.qmp_rules.specs.declared.change.Change.{Change as Edit};

    ghost Value = { List Edit };

    ghost view = { λ edits. reverse edits.changes.items };
}

impl Edits {
    /// The changes of a vector, which is taken over with its memory.
    pub(crate) fn new(mut changes: Vec<Change>) -> Self
        ensures { result ≡ changes.items }
    {
        changes.reverse();
        Edits { changes }
    }

    pub fn len(&self) -> usize
        ensures { result ≡ length self.now }
    {
        self.changes.len()
    }

    pub fn is_empty(&self) -> bool
        ensures { result ≡ (length self.now == 0) }
    {
        self.changes.is_empty()
    }

    /// Takes the first change.
    pub(crate) fn next(&mut self) -> Option<Change>
        ensures some { IfSome result (λ change. self.old ≡ change ∷ self.new) }
        ensures none { IfNone result (self.old ≡ []) }
    {
        self.changes.pop()
    }
}
