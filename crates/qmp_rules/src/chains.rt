//! What a node reads through, and the chain of backing nodes below it.
ghost use Rattle.std.specs.Prelude.{◌≡◌, ◌++◌, IfOk, OnOk, option_map};
ghost use Rattle.std.specs.Option.{option_copied};
ghost use Rattle.qmp_rules.specs.Chains.{backing, chain_below, chain, disk_node, filter_role, filtered, is_settled};

use crate::table::Names;
use blk_base::NoMemory;
use blk_graph::{Kind, NodeId, Role};
use std::alloc::Global;

/// The role of the edge by which a filter reads.
fn filter_role(kind: Kind) -> Option<Role>
    ensures { result ≡ filter_role kind }
{
    match kind {
        Kind::CopyOnRead => Some(Role::File),
        Kind::BeforeWrite | Kind::Mirror | Kind::Commit => Some(Role::Filtered),
        Kind::Protocol | Kind::Raw | Kind::Qcow2 => None,
    }
}

impl Names {
    /// The child of a filter; none for every other node.
    fn filtered(&self, id: NodeId) -> Option<NodeId>
        ensures { result ≡ filtered self.now.table id }
    {
        let row = self.node_at(id)?;
        let role = filter_role(row.kind)?;
        self.child(id, role)
    }

    /// The node that a node reads as: itself, or what a filter is over.
    #[tactic(auto, using(crate::proofs::ChainLemmas::disk_none, crate::proofs::ChainLemmas::disk_end))]
    pub fn disk_node(&self, id: NodeId) -> NodeId
        ensures { result ≡ disk_node self.now.table id }
    {
        let mut node = id;
        for _ in 0..64u32 {
            match self.filtered(node) {
                Some(below) => node = below,
                None => return node,
            }
        }
        node
    }

    /// Whether a node has a flat disk.
    pub fn is_settled(&self, id: NodeId) -> bool
        ensures { result ≡ is_settled self.now.table id }
    {
        match self.node_at(self.disk_node(id)) {
            Some(row) => row.is_settled,
            None => false,
        }
    }

    /// The backing node of a node, filters passed through.
    pub fn backing(&self, id: NodeId) -> Option<NodeId>
        ensures { result ≡ backing self.now.table id }
    {
        match self.child(id, Role::Backing) {
            Some(node) => Some(self.disk_node(node)),
            None => None,
        }
    }

    /// Puts the backing nodes below a node behind the ids that are there, from the top down.
    #[tactic(auto, using(crate::proofs::ChainLemmas::below_none, crate::proofs::ChainLemmas::below_end))]
    pub(crate) fn put_below(&self, ids: &mut Vec<NodeId>, id: NodeId) -> Result<(), NoMemory>
        ensures { OnOk result (ids.new.items ≡ ids.old.items ++ chain_below self.now.table id) }
    {
        let mut node = id;
        for _ in 0..64u32 {
            match self.backing(node) {
                Some(below) => {
                    ids.push(below)?;
                    node = below;
                }
                None => return Ok(()),
            }
        }
        Ok(())
    }

    pub(crate) fn below(&self, alloc: Global, id: NodeId) -> Result<Vec<NodeId>, NoMemory>
        ensures { IfOk result (λ ids. ids.items ≡ chain_below self.now.table id) }
    {
        let mut ids = Vec::new(alloc);
        self.put_below(&mut ids, id)?;
        Ok(ids)
    }

    /// A node and the backing nodes below it.
    #[tactic(auto, using(crate::proofs::ChainLemmas::chain_parts))]
    pub(crate) fn chain(&self, alloc: Global, id: NodeId) -> Result<Vec<NodeId>, NoMemory>
        ensures { IfOk result (λ ids. ids.items ≡ chain self.now.table id) }
    {
        let mut ids = Vec::new(alloc);
        ids.push(id)?;
        self.put_below(&mut ids, id)?;
        Ok(ids)
    }
}
