ghost use Rattle.std.specs.Prelude.{◌≡◌, ℕ, ◌<◌, ◌↔◌, IsTrue, true};
ghost use Rattle.blk_graph.specs.Edges.{same_parent, same_role, is_job, has_perm};

use std::marker::Model;

/// The most nodes that a graph has at once, filters among them.
pub const MOST_NODES: usize = 64;

/// Guests with edges have numbers below this.
pub const MOST_GUESTS: u32 = 80;

/// Jobs with edges have numbers below this.
pub const MOST_JOBS: usize = 16;

/// Names a node of one graph. It may be given again after the node was removed.
#[derive(Clone, Copy, Debug, PartialEq, Eq, Hash, PartialOrd, Ord)]
pub struct NodeId {
    key: u8,
}

impl Model for NodeId {
    ghost use Rattle.std.specs.Prelude.{ℕ, ◌<◌};

    ghost Value = { ℕ };

    ghost view = { λ n. n.key };

    ghost invariant = { λ n. n.key < 64 };

    ghost inverse = { λ k. record { key = k } };
}

/// What asks something of a node: another node, a guest's drive or a job.
#[derive(Clone, Copy, Debug, PartialEq, Eq)]
pub enum Parent {
    Node(NodeId),
    Guest(u32),
    Job(u32),
}

/// What an edge is for.
#[derive(Clone, Copy, Debug, PartialEq, Eq)]
pub enum Role {
    Drive,
    File,
    Backing,
    Filtered,
    Source,
    Target,
    Between,
    Base,
}

/// One of the permissions.
#[derive(Clone, Copy, Debug, PartialEq, Eq)]
pub enum Perm {
    Read,
    Write,
    Unchanged,
}

/// A set of permissions.
#[derive(Clone, Copy, Debug, PartialEq, Eq)]
pub struct Perms {
    pub read: bool,
    pub write: bool,
    pub unchanged: bool,
}

/// What is asked of a node, and what others are let ask of it.
#[derive(Clone, Copy, Debug, PartialEq, Eq)]
pub struct Uses {
    pub perm: Perms,
    pub shared: Perms,
}

/// A parent's use of a node.
#[derive(Clone, Copy, Debug, PartialEq, Eq)]
pub struct Edge {
    pub parent: Parent,
    pub role: Role,
    pub child: NodeId,
    /// What the parent asks of the child.
    pub perm: Perms,
    /// What the parent lets other parents of the child ask.
    pub shared: Perms,
}

/// A broken pair.
#[derive(Clone, Copy, Debug, PartialEq, Eq)]
pub struct Conflict {
    pub node: NodeId,
    pub asks: Parent,
    pub denies: Parent,
    pub perm: Perm,
}

impl NodeId {
    pub(crate) fn new(key: usize) -> NodeId
        requires { key < 64 }
        ensures { result ≡ key }
    {
        NodeId { key: key as u8 }
    }

    /// Its number below 64, to index what a caller keeps for each node.
    pub fn index(self) -> usize
        ensures value { result ≡ self }
        ensures small { result < 64 }
    {
        self.key as usize
    }
}

impl Parent {
    pub(crate) fn is(&self, other: &Parent) -> bool
        ensures { result ≡ same_parent self.now other.now }
    {
        self == other
    }

    pub(crate) fn is_job(&self) -> bool
        ensures { result ≡ is_job self.now }
    {
        matches!(self, Parent::Job(_))
    }
}

impl Role {
    pub(crate) fn is(&self, other: &Role) -> bool
        ensures { result ≡ same_role self.now other.now }
    {
        self == other
    }
}

impl Perms {
    pub fn holds(self, perm: Perm) -> bool
        ensures { result ≡ has_perm self perm }
    {
        match perm {
            Perm::Read => self.read,
            Perm::Write => self.write,
            Perm::Unchanged => self.unchanged,
        }
    }
}
