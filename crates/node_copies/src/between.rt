//! The nodes of a chain down to a base.
ghost use Rattle.std.specs.Prelude.{◌≡◌, ◌*◌, ◌<◌, false};
ghost use Rattle.std.specs.List.{list_any};
ghost use Rattle.blk_nodes.specs.Nodes.{node_size, row_at};
ghost use Rattle.blk_nodes.specs.Owning.{has_own};
ghost use Rattle.node_copies.specs.Between.{below_of, between_in, is_base, is_held_between, is_held_below};

use blk_base::{Device, PIECE};
use blk_graph::{Kind, NodeId, Role};
use blk_nodes::Nodes;

/// The node below, as which a node reads where it has nothing of its own.
fn below_of<D: Device>(nodes: &Nodes<D>, node: NodeId) -> Option<NodeId>
    ensures { result ≡ below_of nodes.now node }
{
    match nodes.kind(node) {
        Some(Kind::Qcow2) => nodes.child(node, Role::Backing),
        Some(Kind::CopyOnRead) => nodes.child(node, Role::File),
        Some(Kind::BeforeWrite | Kind::Mirror | Kind::Commit) => nodes.child(node, Role::Filtered),
        Some(Kind::Protocol | Kind::Raw) | None => None,
    }
}

fn is_base(base: &Option<NodeId>, node: NodeId) -> bool
    ensures { result ≡ is_base base.now node }
{
    match base {
        None => false,
        Some(base) => node == *base,
    }
}

/// Whether one of the nodes down to above the base has a place, of a chain of so many nodes.
fn is_held_in<D: Device>(
    nodes: &Nodes<D>,
    turns: u32,
    base: &Option<NodeId>,
    node: NodeId,
    place: u64,
) -> bool
    requires { place < node_size nodes.now node }
    ensures { result ≡ list_any (λ n. has_own place (row_at nodes.now n))
        (between_in turns nodes.now base.now node) }
{
    let _ = nodes.edges();
    if turns == 0 || is_base(base, node) {
        return false;
    }
    if nodes.has_own(node, place) {
        return true;
    }
    match below_of(nodes, node) {
        None => false,
        Some(next) => is_held_in(nodes, turns - 1, base, next, place),
    }
}

/// Whether a node from `top` down to just above the base has the block of its own, which its first place tells: a cluster that its
/// image maps there, be it one that reads as zeros, or the bytes of its file. Without a base the chain is gone down to its end. All
/// of its nodes have disks of one size, so none of them ends within a block of `top`. No device is called.
#[tactic(auto, unfolding(crate::specs::Between::nodes_between))]
pub fn held_between<D: Device>(
    nodes: &Nodes<D>,
    top: NodeId,
    base: Option<NodeId>,
    block: u64,
) -> bool
    requires { block * 65536 < node_size nodes.now top }
    ensures { result ≡ is_held_between nodes.now base top (block * 65536) }
{
    let _ = nodes.size(top);
    is_held_in(nodes, 64, &base, top, block * PIECE)
}

/// Whether a node below `top`, down to just above the base, has the block of its own, where the top has nothing of it.
#[tactic(auto, unfolding(crate::specs::Between::nodes_between))]
pub fn held_below<D: Device>(
    nodes: &Nodes<D>,
    top: NodeId,
    base: Option<NodeId>,
    block: u64,
) -> bool
    requires block { block * 65536 < node_size nodes.now top }
    requires own { has_own (block * 65536) (row_at nodes.now top) ≡ false }
    ensures { result ≡ is_held_below nodes.now base top (block * 65536) }
{
    let _ = nodes.edges();
    let _ = nodes.size(top);
    match below_of(nodes, top) {
        None => false,
        Some(next) => is_held_in(nodes, 64, &base, next, block * PIECE),
    }
}
