//! What a node is.
ghost use Rattle.std.specs.Prelude.{◌≡◌, ◌<◌, not};
ghost use Rattle.blk_nodes.specs.Joined.{IsSized};
ghost use Rattle.blk_nodes.specs.Nodes.{filter_kind, kind_in};
ghost use Rattle.blk_nodes.specs.Sources.{step_by};

use crate::source::{Source, Step, in_below, in_file, in_mapped};
use blk_graph::{Kind, NodeId, NodeKind};
use q2_image::Image;

/// The part of a file that is a raw disk: `size` bytes from `offset` on.
#[derive(Clone, Copy, Debug)]
pub(crate) struct RawImage {
    pub offset: u64,
    pub size: u64,
}

/// What a filter that a job puts is of.
#[derive(Clone, Copy, Debug, PartialEq, Eq)]
pub enum FilterKind {
    /// Of a backup.
    BeforeWrite,
    /// Of a mirror.
    Mirror,
    /// Of a commit.
    Commit,
}

impl FilterKind {
    /// What a node of this kind is.
    pub(crate) fn kind(self) -> Kind
        ensures { result ≡ filter_kind self }
    {
        match self {
            FilterKind::BeforeWrite => Kind::BeforeWrite,
            FilterKind::Mirror => Kind::Mirror,
            FilterKind::Commit => Kind::Commit,
        }
    }
}

/// How a node reads what is below it.
#[derive(Debug, Drop)]
pub(crate) enum Driver {
    /// The file of a device that the nodes hold.
    File,
    /// A part of the `file` node below.
    Raw(RawImage),
    /// The image in the `file` node below, over a backing node or none.
    Qcow2(Image),
    /// As the node below.
    CopyOnRead,
    /// The filter of a job: as the node below, of which it keeps nothing.
    Filter(FilterKind),
}

/// A node but for its name and edges.
#[derive(Debug, Drop)]
pub(crate) struct Row {
    pub driver: Driver,
    /// The bytes of its disk.
    pub size: u64,
    pub is_read_only: bool,
}

impl Row {
    /// What the node is.
    pub(crate) fn kind(&self) -> Kind
        ensures { result ≡ kind_in self.now }
    {
        match &self.driver {
            Driver::File => Kind::Protocol,
            Driver::Raw(_) => Kind::Raw,
            Driver::Qcow2(_) => Kind::Qcow2,
            Driver::CopyOnRead => Kind::CopyOnRead,
            Driver::Filter(kind) => kind.kind(),
        }
    }
}

/// What a node is, as far as the permissions of its edges go.
pub(crate) fn node_kind(kind: Kind, is_read_only: bool) -> NodeKind
    ensures { result ≡ record { kind = kind; writes = not is_read_only } }
{
    NodeKind {
        kind,
        writes: !is_read_only,
    }
}

/// One step down the chain of a node with this row: where its bytes stand from a place on.
pub(crate) fn step(
    row: &Row,
    node: NodeId,
    file: Option<NodeId>,
    backing: Option<NodeId>,
    filtered: Option<NodeId>,
    place: u64,
) -> Step
    requires sized { IsSized row.now.size row.now.driver }
    requires inside { place < row.now.size }
    ensures { result ≡ step_by node file backing filtered place row.now.driver }
{
    match &row.driver {
        Driver::File => Step::Found(Source::File {
            file: node,
            start: place,
        }),
        Driver::Raw(part) => in_file(file, part.offset + place),
        Driver::Qcow2(image) => in_mapped(
            node,
            file,
            backing,
            image.mapping(place / image.cluster_size()),
        ),
        Driver::CopyOnRead => in_below(file),
        Driver::Filter(_) => in_below(filtered),
    }
}
