//! What nodes and jobs are, as far as the permissions of their edges go.
ghost use Rattle.std.specs.Prelude.{◌≡◌};
ghost use Rattle.blk_graph.specs.Graph.{with_writes};

use crate::edge::{MOST_NODES, NodeId};

/// What a node is.
#[derive(Clone, Copy, Debug, PartialEq, Eq)]
pub enum Kind {
    /// A file of the store, which has no node below it.
    Protocol,
    Raw,
    Qcow2,
    CopyOnRead,
    /// The filter of a backup.
    BeforeWrite,
    /// The filter of a mirror.
    Mirror,
    /// The filter of a commit.
    Commit,
}

/// What a node is, and whether it may be written.
#[derive(Clone, Copy, Debug, PartialEq, Eq)]
pub struct NodeKind {
    pub kind: Kind,
    pub writes: bool,
}

/// What stands at an id that no node has.
pub const NO_KIND: NodeKind = NodeKind {
    kind: Kind::Protocol,
    writes: false,
};

/// What a job uses a node for.
#[derive(Clone, Copy, Debug, PartialEq, Eq)]
pub enum JobUse {
    /// The target of a backup or mirror.
    CopyTarget,
    CommitTop,
    /// A node strictly between the top and the base of a commit.
    CommitBetween,
    CommitBase,
    StreamTop,
    /// A node below the top of a stream, down to its base, the base among them.
    StreamBelow,
}

/// Lets a node be written or not, by the kinds at the nodes' numbers.
pub(crate) fn set_writes(kinds: &mut [NodeKind; MOST_NODES], node: NodeId, writes: bool)
    ensures { kinds.new ≡ with_writes node writes kinds.old }
{
    let kind = kinds[node.index()].kind;
    kinds[node.index()] = NodeKind { kind, writes };
}
