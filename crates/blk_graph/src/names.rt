//! Nodes and their names, as the graph keeps them.
ghost use Rattle.std.specs.Prelude.{◌≡◌, ◌≢◌, ◌==◌, ℕ, length, Contains, IfSome, IfNone, filter, not, vec_capacity};
ghost use Rattle.slab.specs.Slab.{ContainsKey};
ghost use Rattle.blk_graph.specs.Layout.{name_of, key_of, HasNames};

use crate::edge::NodeId;
use blk_base::Text;
use slab::Slab;

pub(crate) fn name_at<'x>(names: &'x Slab<Text>, keys: &[usize], node: NodeId) -> &'x str
    requires room { length keys.now ≡ 64 }
    requires named { ContainsKey names.now (key_of keys.now node) }
    ensures { result.now ≡ name_of names.now (key_of keys.now node) }
{
    names.get(keys[node.index()]).unwrap().as_str()
}

/// The node of that name.
pub(crate) fn node_named(
    names: &Slab<Text>,
    keys: &[usize],
    order: &[NodeId],
    name: &str,
) -> Option<NodeId>
    requires room { length keys.now ≡ 64 }
    requires named { HasNames names.now keys.now order.now }
    ensures found { IfSome result (λ id. Contains order.now id) }
    ensures named { IfSome result (λ id. name_of names.now (key_of keys.now id) ≡ name.now) }
    ensures none { IfNone result
        ((id : ℕ) → Contains order.now id → name_of names.now (key_of keys.now id) ≢ name.now) }
{
    for node in order {
        if name_at(names, keys, *node) == name {
            return Some(*node);
        }
    }
    None
}

/// Takes a node out of the order.
pub(crate) fn drop_node(order: &mut Vec<NodeId>, node: NodeId)
    ensures items { order.new.items ≡ filter (λ id. not (id == node)) order.old.items }
    ensures capacity { vec_capacity order.new ≡ vec_capacity order.old }
{
    order.retain(|other| *other != node);
}
