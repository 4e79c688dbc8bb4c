//! Where the bytes of a node's disk stand.
ghost use Rattle.std.specs.Prelude.{◌≡◌};
ghost use Rattle.q2_tables.specs.Entries.{entry_of};
ghost use Rattle.blk_nodes.specs.Sources.{in_file, in_image, in_below, step_by_entry};

use blk_graph::NodeId;
use q2_tables::Mapping;

/// Where the bytes from a place to the end of its block stand.
#[derive(Clone, Copy, Debug, PartialEq, Eq)]
pub(crate) enum Source {
    /// Nowhere: they read as zeros.
    Zeros,
    /// In the file of a `file` node, from `start` on.
    File { file: NodeId, start: u64 },
    /// In a cluster of the image's own, in the file of a `file` node.
    Image { node: NodeId, file: NodeId },
}

/// One step down a chain.
#[derive(Clone, Copy, Debug, PartialEq, Eq)]
pub(crate) enum Step {
    Found(Source),
    /// Where those of that node stand at the same place.
    Below(NodeId),
}

pub(crate) fn in_file(file: Option<NodeId>, start: u64) -> Step
    ensures { result ≡ in_file file start }
{
    match file {
        None => Step::Found(Source::Zeros),
        Some(file) => Step::Found(Source::File { file, start }),
    }
}

fn in_image(node: NodeId, file: Option<NodeId>) -> Step
    ensures { result ≡ in_image node file }
{
    match file {
        None => Step::Found(Source::Zeros),
        Some(file) => Step::Found(Source::Image { node, file }),
    }
}

pub(crate) fn in_below(node: Option<NodeId>) -> Step
    ensures { result ≡ in_below node }
{
    match node {
        None => Step::Found(Source::Zeros),
        Some(node) => Step::Below(node),
    }
}

/// A place of an image, by what its cluster is mapped to.
pub(crate) fn in_mapped(
    node: NodeId,
    file: Option<NodeId>,
    backing: Option<NodeId>,
    mapping: Mapping,
) -> Step
    ensures { result ≡ step_by_entry node file backing (entry_of mapping) }
{
    match mapping {
        Mapping::Unallocated => in_below(backing),
        Mapping::Zero { .. } => Step::Found(Source::Zeros),
        Mapping::Host { .. } => in_image(node, file),
    }
}
