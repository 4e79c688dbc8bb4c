//! Where a piece of a qcow2 node lies.
ghost use Rattle.std.specs.Prelude.{◌≡◌, ◌≤◌};
ghost use Rattle.blk_nodes.specs.Changing.{block_around};

use crate::source::Source;
use blk_base::{PIECE, Span};
use blk_graph::NodeId;

/// A piece of a qcow2 node, its cluster up to the disk's end, the `file` node that the image is in, and where the cluster's
/// bytes stand now.
#[derive(Clone, Copy, Debug, PartialEq, Eq)]
pub(crate) struct Part {
    pub node: NodeId,
    pub file: NodeId,
    pub span: Span,
    pub whole: Span,
    pub source: Source,
}

/// The block in which a span lies, up to the end of a disk of so many bytes.
pub(crate) fn block_around(size: u64, span: Span) -> Span
    requires start { span.start ≤ size }
    requires small { size ≤ 9223372036854775808 }
    ensures { result ≡ block_around size span }
{
    let start = span.start - span.start % PIECE;
    if size - start < PIECE {
        return Span {
            start,
            len: size - start,
        };
    }
    Span { start, len: PIECE }
}
