//! What a new qcow2 node reads where its image has nothing.
ghost use Rattle.std.specs.Prelude.{◌≡◌};
ghost use Rattle.blk_nodes.specs.Overlays.{backing_node};

use blk_graph::NodeId;

/// What a new qcow2 node reads where its image has nothing.
#[derive(Clone, Copy, Debug, PartialEq, Eq)]
pub enum Backing {
    /// Zeros. An image that names a backing file is refused.
    Unsaid,
    /// Zeros, whatever the image names.
    Null,
    /// The disk of this node.
    Node(NodeId),
}

impl Backing {
    pub(crate) fn node(&self) -> Option<NodeId>
        ensures { result ≡ backing_node self.now }
    {
        match self {
            Backing::Unsaid | Backing::Null => None,
            Backing::Node(node) => Some(*node),
        }
    }
}
