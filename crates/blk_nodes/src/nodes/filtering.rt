//! Filters of jobs.
ghost use Rattle.std.specs.Prelude.{◌≡◌, ◌↔◌, ℕ, length, replicate, IfOk, IfErr, OnOk, OnErr, Err};
ghost use Rattle.blk_graph.specs.Graph.{HasName, HasNode, ids};
ghost use Rattle.blk_graph.specs.Ids.{IsLowestFree};
ghost use Rattle.blk_nodes.specs.Adding.{with_node_row, filtering_row, IsNameStop};
ghost use Rattle.blk_nodes.specs.Contents.{disk_of};

use crate::nodes::Nodes;
use crate::row::{Driver, FilterKind, Row, node_kind};
use crate::stop::AddStop;
use blk_base::{Device, Text};
use blk_graph::NodeId;

impl<D: Device> Nodes<D> {
    /// Adds the filter of a job, with no edge yet: `rewire` is to put it between a node of this size and the node's parents. Until
    /// then it reads as zeros. Refused are a name that is taken and a 65th node; a refusal leaves all as it was. Takes no memory.
    pub fn add_filter(
        &mut self,
        name: Text,
        kind: FilterKind,
        size: u64,
        read_only: bool,
    ) -> Result<NodeId, AddStop>
        ensures taken { (result ≡ Err AddStop.NameTaken) ↔ HasName self.old.graph name.bytes }
        ensures full { (result ≡ Err AddStop.TooManyNodes)
            ↔ ((length self.old.graph.nodes ≡ 64) × ¬ HasName self.old.graph name.bytes) }
        ensures only { IfErr result (IsNameStop self.old.graph name.bytes) }
        ensures ok { IfOk result (λ id. self.new
            ≡ with_node_row self.old id name.bytes (filtering_row kind size read_only)) }
        ensures lowest { IfOk result (IsLowestFree (ids self.old.graph)) }
        ensures disks { OnOk result ((other : ℕ) → HasNode self.old.graph other
            → disk_of self.new other ≡ disk_of self.old other) }
        ensures disk { IfOk result (λ id. disk_of self.new id ≡ replicate size 0) }
        ensures err { OnErr result (self.new ≡ self.old) }
    {
        if let Err(stop) = self.check_name(name.as_str()) {
            return Err(stop);
        }
        let kind_of_node = node_kind(kind.kind(), read_only);
        let Ok(node) = self.graph.add_node(name, kind_of_node) else {
            unreachable!()
        };
        self.rows[node.index()] = Some(Row {
            driver: Driver::Filter(kind),
            size,
            is_read_only: read_only,
        });
        Ok(node)
    }
}
