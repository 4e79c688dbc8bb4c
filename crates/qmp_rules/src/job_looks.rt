//! What asks look at for the nodes of a job.
ghost use Rattle.std.specs.Prelude.{◌≡◌, ◌==◌, ◌&&◌, ℕ, List, Option, ◌++◌, ◌∷◌, [], not, if◌then◌else◌, IfOk, OnOk, option_and_then};
ghost use Rattle.blk_graph.specs.Edges.{same_role};
ghost use Rattle.std.specs.Option.{option_copied};
ghost use Rattle.qmp_rules.specs.Asks.{job_base, clash, first_clash, first_reached, held_nodes, id_or, if_there, in_the_way, is_mirror, looked_at, mirrored, named_ids, not_below, not_in_chain, read_nodes, second_into, sizes, top_of};
ghost use Rattle.qmp_rules.specs.Chains.{chain_below, chain, down_to, is_listed, is_overlay, lowest_in_chain, overlay_edge, overlays, reaches};
ghost use Rattle.qmp_rules.specs.Refusals.{refused};
ghost use Rattle.qmp_asks.specs.Seen.{seen_nodes, seen_text};
ghost use Rattle.qmp_rules.specs.Table.{name_at, node_by_id};

use crate::refusal::Refusal;
use crate::refuse::{self, Found};
use crate::rows::{JobRecord, NodeRecord};
use crate::table::Names;
use crate::unmet::differ;
use crate::{find, reach};
use blk_base::NoMemory;
use blk_graph::{Edge, NodeId, Parent, Role, free_id};
use qmp_asks::JobNodes;
use qmp_codec::JobKind;
use std::alloc::Global;

/// The id that stands for a node that isn't there.
fn first_id() -> NodeId
    ensures { result ≡ 0 }
{
    match free_id(&[]) {
        Some(id) => id,
        None => unreachable!(),
    }
}

pub(crate) fn has_id(ids: &[NodeId], id: NodeId) -> bool
    ensures { result ≡ is_listed id ids.now }
{
    ids.iter().any(|other| *other == id)
}

/// Cuts a list behind a node, where it is in it.
#[tactic(auto, using(crate::proofs::ChainLemmas::cut_none, crate::proofs::ChainLemmas::cut_found, crate::proofs::ChainLemmas::cut_other, crate::proofs::ChainLemmas::cut_end))]
fn cut_below(base: Option<NodeId>, ids: &mut Vec<NodeId>)
    ensures { ids.new.items ≡ down_to base ids.old.items }
{
    let Some(base) = base else {
        return;
    };
    for i in 0..ids.len() {
        if ids[i] == base {
            ids.truncate(i + 1);
            return;
        }
    }
}

fn put_all(ids: &mut Vec<NodeId>, more: &[NodeId]) -> Result<(), NoMemory>
    ensures { OnOk result (ids.new.items ≡ ids.old.items ++ more.now) }
{
    ids.extend_from_slice(more)?;
    Ok(())
}

/// Whether an edge is that of an overlay to this node.
fn is_overlay_of(edge: &Edge, id: NodeId) -> bool
    ensures { result
        ≡ ((edge.now.child == id)
        && (same_role edge.now.role Role.Backing && is_overlay edge.now.parent)) }
{
    edge.child == id && edge.role == Role::Backing && matches!(edge.parent, Parent::Node(_))
}

fn is_mirror(job: &JobRecord) -> bool
    ensures { result ≡ is_mirror job.now }
{
    matches!(job.kind, JobKind::Mirror)
}

/// The second edge into a node.
fn second_into(edges: &[Edge], id: NodeId) -> Option<&Edge>
    ensures { option_copied result ≡ second_into id edges.now }
{
    for i in 0..edges.len() {
        if edges[i].child == id {
            return find::first_into(&edges[i + 1..], id);
        }
    }
    None
}

impl Names {
    /// The node of a name, or else another one.
    pub(crate) fn id_or(&self, other: NodeId, name: Option<&str>) -> NodeId
        ensures { result ≡ id_or other self.now.table (seen_text name.entry) }
    {
        match name {
            Some(name) => match self.id_named(name) {
                Some(id) => id,
                None => other,
            },
            None => other,
        }
    }

    /// The node of a name.
    pub(crate) fn id_of(&self, name: &str) -> NodeId
        ensures { result ≡ id_or 0 self.now.table (Some name.now) }
    {
        self.id_or(first_id(), Some(name))
    }

    /// The lowest node of a chain.
    #[tactic(auto, using(crate::proofs::ChainLemmas::lowest_none, crate::proofs::ChainLemmas::lowest_end))]
    fn lowest(&self, id: NodeId) -> NodeId
        ensures { result ≡ lowest_in_chain self.now.table id }
    {
        let mut node = id;
        for _ in 0..64u32 {
            match self.backing(node) {
                Some(below) => node = below,
                None => return node,
            }
        }
        node
    }

    /// The source of a job, or its top.
    pub(crate) fn top_of(&self, nodes: &JobNodes<&str>) -> NodeId
        ensures { result ≡ top_of self.now.table (seen_nodes nodes.now) }
    {
        match nodes {
            JobNodes::Stream { device, .. } | JobNodes::Copy { device, .. } => self.id_of(device),
            JobNodes::Commit { device, top, .. } => self.id_or(self.id_of(device), *top),
        }
    }

    /// The target of a job, or its base.
    pub(crate) fn base_of(&self, nodes: &JobNodes<&str>) -> Option<NodeId>
        ensures { result ≡ job_base self.now.table (seen_nodes nodes.now) }
    {
        match nodes {
            JobNodes::Stream { base: None, .. } => None,
            JobNodes::Stream {
                base: Some(base),
                ..
            } => self.id_named(base),
            JobNodes::Commit { base, .. } => Some(self.id_or(
                self.lowest(self.top_of(nodes)),
                *base,
            )),
            JobNodes::Copy { target, .. } => self.id_named(target),
        }
    }

    /// The overlay's edge to a node.
    fn overlay_edge(&self, id: NodeId) -> Option<&Edge>
        ensures { option_copied result ≡ overlay_edge self.now.table id }
    {
        self.edges().iter().find(|edge| is_overlay_of(edge, id))
    }

    fn put_overlays(&self, ids: &mut Vec<NodeId>, id: NodeId) -> Result<(), NoMemory>
        ensures { OnOk result (ids.new.items ≡ ids.old.items ++ overlays self.now.table id) }
    {
        let Some(edge) = self.overlay_edge(id) else {
            return Ok(());
        };
        if let Parent::Node(overlay) = edge.parent {
            ids.push(overlay)?;
        }
        Ok(())
    }

    /// Puts the nodes that a job would hold behind those that are there.
    pub(crate) fn put_held(
        &self,
        ids: &mut Vec<NodeId>,
        nodes: &JobNodes<&str>,
    ) -> Result<(), NoMemory>
        ensures { OnOk result
            (ids.new.items ≡ ids.old.items ++ held_nodes self.now.table (seen_nodes nodes.now)) }
    {
        match nodes {
            JobNodes::Stream { .. } => put_all(ids, &[self.top_of(nodes)]),
            JobNodes::Commit { .. } => self.put_committed(ids, nodes),
            JobNodes::Copy { target, .. } => put_all(
                ids,
                &[self.top_of(nodes), self.id_of(target)],
            ),
        }
    }

    /// Puts those of a commit: from the top down to the base.
    fn put_committed(&self, ids: &mut Vec<NodeId>, nodes: &JobNodes<&str>) -> Result<(), NoMemory>
        ensures { OnOk result (ids.new.items ≡ ids.old.items
            ++ down_to (job_base self.now.table (seen_nodes nodes.now))
            (chain self.now.table (top_of self.now.table (seen_nodes nodes.now)))) }
    {
        let mut chain = self.chain(*ids.allocator(), self.top_of(nodes))?;
        cut_below(self.base_of(nodes), &mut chain);
        put_all(ids, chain.as_slice())
    }

    /// Puts those below the top of a stream, down to its base.
    fn put_streamed(&self, ids: &mut Vec<NodeId>, nodes: &JobNodes<&str>) -> Result<(), NoMemory>
        ensures { OnOk result (ids.new.items ≡ ids.old.items
            ++ down_to (job_base self.now.table (seen_nodes nodes.now))
            (chain_below self.now.table (top_of self.now.table (seen_nodes nodes.now)))) }
    {
        let mut below = self.below(*ids.allocator(), self.top_of(nodes))?;
        cut_below(self.base_of(nodes), &mut below);
        put_all(ids, below.as_slice())
    }

    /// Puts the nodes that a job would hold for reading.
    pub(crate) fn put_read(
        &self,
        ids: &mut Vec<NodeId>,
        nodes: &JobNodes<&str>,
    ) -> Result<(), NoMemory>
        ensures { OnOk result
            (ids.new.items ≡ ids.old.items ++ read_nodes self.now.table (seen_nodes nodes.now)) }
    {
        match nodes {
            JobNodes::Stream { .. } => self.put_streamed(ids, nodes),
            JobNodes::Commit { .. } => self.put_overlays(ids, self.top_of(nodes)),
            JobNodes::Copy { .. } => Ok(()),
        }
    }

    fn put_named(&self, ids: &mut Vec<NodeId>, name: Option<&str>) -> Result<(), NoMemory>
        ensures { OnOk result
            (ids.new.items ≡ ids.old.items ++ named_ids self.now.table (seen_text name.entry)) }
    {
        match name {
            Some(name) => put_all(ids, &[self.id_of(name)]),
            None => Ok(()),
        }
    }

    /// Puts the nodes that are looked at, in order: as the command names them, then from the top down.
    #[tactic(auto, using(std::proofs::lemmas::List::append_assoc))]
    fn put_looked_at(&self, ids: &mut Vec<NodeId>, nodes: &JobNodes<&str>) -> Result<(), NoMemory>
        ensures { OnOk result
            (ids.new.items ≡ ids.old.items ++ looked_at self.now.table (seen_nodes nodes.now)) }
    {
        match nodes {
            JobNodes::Stream { device, base } => {
                self.put_named(ids, Some(device))?;
                self.put_named(ids, *base)?;
                self.put_read(ids, nodes)
            }
            JobNodes::Commit { device, base, top } => {
                self.put_named(ids, Some(device))?;
                self.put_named(ids, *base)?;
                self.put_named(ids, *top)?;
                self.put_held(ids, nodes)?;
                self.put_read(ids, nodes)
            }
            JobNodes::Copy { .. } => self.put_held(ids, nodes),
        }
    }

    /// Refuses a node that the job would hold and another holds, or that it would read and another holds for itself.
    fn clash(&self, alloc: Global, held: &[NodeId], read: &[NodeId], id: NodeId) -> Found
        ensures { IfOk result (λ found. found ≡ clash self.now.table held.now read.now id) }
    {
        if has_id(held, id) {
            self.held_by(alloc, id, self.holder(id))
        } else if has_id(read, id) {
            self.held_by(alloc, id, self.keeper(id))
        } else {
            Ok(None)
        }
    }

    fn first_clash(&self, alloc: Global, held: &[NodeId], read: &[NodeId], ids: &[NodeId]) -> Found
        ensures { IfOk result
            (λ found. found ≡ first_clash self.now.table held.now read.now ids.now) }
    {
        for id in ids {
            match self.clash(alloc, held, read, *id)? {
                Some(refusal) => return Ok(Some(refusal)),
                None => {}
            }
        }
        Ok(None)
    }

    /// Refuses what another job holds of what a job would hold.
    pub(crate) fn free(&self, alloc: Global, nodes: &JobNodes<&str>) -> Found
        ensures { IfOk result (λ found. found ≡ first_clash self.now.table
            (held_nodes self.now.table (seen_nodes nodes.now))
            (read_nodes self.now.table (seen_nodes nodes.now))
            (looked_at self.now.table (seen_nodes nodes.now))) }
    {
        let mut held = Vec::new(alloc);
        self.put_held(&mut held, nodes)?;
        let mut read = Vec::new(alloc);
        self.put_read(&mut read, nodes)?;
        let mut ids = Vec::new(alloc);
        self.put_looked_at(&mut ids, nodes)?;
        self.first_clash(alloc, held.as_slice(), read.as_slice(), ids.as_slice())
    }

    fn not_below(&self, alloc: Global, top: NodeId, base: Option<NodeId>) -> Found
        ensures { IfOk result (λ found. found ≡ if_there (not_below self.now.table top) base) }
    {
        match base {
            Some(base) => {
                let below = self.below(alloc, top)?;
                refuse::not_in_chain(alloc, !has_id(below.as_slice(), base), self.name_at(base))
            }
            None => Ok(None),
        }
    }

    /// Refuses a top that isn't the device of a commit, and not below it.
    fn not_under(&self, alloc: Global, device: NodeId, top: NodeId) -> Found
        ensures { IfOk result (λ found. found ≡ refused
            (not (is_listed top (chain self.now.table device)))
            (Refusal.NotInChain (name_at self.now.table top))) }
    {
        let chain = self.chain(alloc, device)?;
        refuse::not_in_chain(alloc, !has_id(chain.as_slice(), top), self.name_at(top))
    }

    /// Refuses a base that isn't below the top, and a top that is neither the device nor below it.
    pub(crate) fn in_chain(&self, alloc: Global, nodes: &JobNodes<&str>) -> Found
        ensures { IfOk result
            (λ found. found ≡ not_in_chain self.now.table (seen_nodes nodes.now)) }
    {
        match nodes {
            JobNodes::Stream { .. } => self.not_below(
                alloc,
                self.top_of(nodes),
                self.base_of(nodes),
            ),
            JobNodes::Commit { device, .. } => {
                let top = self.top_of(nodes);
                match self.not_below(alloc, top, self.base_of(nodes))? {
                    None => self.not_under(alloc, self.id_of(device), top),
                    found => Ok(found),
                }
            }
            JobNodes::Copy { .. } => Ok(None),
        }
    }

    /// Refuses nodes of a commit or copy whose sizes differ.
    pub(crate) fn equal_sizes(&self, alloc: Global, nodes: &JobNodes<&str>) -> Found
        ensures { IfOk result (λ found. found ≡ sizes self.now.table (seen_nodes nodes.now)) }
    {
        match nodes {
            JobNodes::Stream { .. } => Ok(None),
            JobNodes::Commit { .. } => {
                let base = self.maybe_at(self.base_of(nodes));
                differ(alloc, base, self.node_at(self.top_of(nodes)))
            }
            JobNodes::Copy { device, target } => {
                differ(alloc, self.node_named(device), self.node_named(target))
            }
        }
    }

    pub(crate) fn maybe_at(&self, id: Option<NodeId>) -> Option<&NodeRecord>
        ensures { option_copied result ≡ option_and_then (node_by_id self.now.table) id }
    {
        match id {
            Some(id) => self.node_at(id),
            None => None,
        }
    }

    /// Whether a path of edges leads from one node to another.
    pub fn reaches(&self, from: NodeId, to: NodeId) -> bool
        ensures { result ≡ reaches self.now.table from to }
    {
        reach::leads(self.edges(), from, to)
    }

    /// Refuses a target that reaches a source.
    fn reached(&self, alloc: Global, target: NodeId, source: NodeId) -> Found
        ensures { IfOk result (λ found. found ≡ refused (reaches self.now.table target source)
            (Refusal.InUse (name_at self.now.table source) (name_at self.now.table target))) }
    {
        refuse::in_use(
            alloc,
            self.reaches(target, source),
            self.name_at(source),
            self.name_at(target),
        )
    }

    /// The same of the sources of mirrors.
    fn reaches_mirrored(&self, alloc: Global, target: NodeId) -> Found
        ensures { IfOk result (λ found. found
            ≡ first_reached self.now.table target (mirrored self.now.table.jobs)) }
    {
        for job in self.jobs() {
            let found = self.reached_by(alloc, target, job)?;
            if found.is_some() {
                return Ok(found);
            }
        }
        Ok(None)
    }

    fn reached_by(&self, alloc: Global, target: NodeId, job: &JobRecord) -> Found
        ensures { IfOk result
            (λ found. found ≡ first_reached self.now.table target (mirrored (job.now ∷ []))) }
    {
        if is_mirror(job) {
            self.reached(alloc, target, job.source)
        } else {
            Ok(None)
        }
    }

    /// The overlay's edge to the top of a commit of the device itself; of another commit the second edge into the top.
    fn edge_in_the_way(&self, top: NodeId, device: NodeId) -> Option<&Edge>
        ensures { option_copied result ≡ (if top == device then overlay_edge self.now.table top
            else second_into top self.now.table.edges) }
    {
        if top == device {
            self.overlay_edge(top)
        } else {
            second_into(self.edges(), top)
        }
    }

    /// Refuses the top of a commit, where an edge is in its way.
    fn clear_top(&self, alloc: Global, device: &str, top: Option<&str>) -> Found
        ensures { (base : Option (List ℕ)) → IfOk result (λ found. found
            ≡ in_the_way self.now.table (JobNodes.Commit device.now base (seen_text top.entry))) }
    {
        let device = self.id_of(device);
        let id = self.id_or(device, top);
        let edge = self.edge_in_the_way(id, device);
        self.in_use(alloc, self.name_at(id), edge)
    }

    /// Refuses an active commit whose top has an overlay, another one whose top has a second parent, and a target that
    /// reaches a source.
    pub(crate) fn clear(&self, alloc: Global, nodes: &JobNodes<&str>) -> Found
        ensures { IfOk result (λ found. found ≡ in_the_way self.now.table (seen_nodes nodes.now)) }
    {
        match nodes {
            JobNodes::Stream { .. } => Ok(None),
            JobNodes::Commit { device, top, .. } => self.clear_top(alloc, device, *top),
            JobNodes::Copy { device, target } => {
                let target = self.id_of(target);
                match self.reached(alloc, target, self.id_of(device))? {
                    None => self.reaches_mirrored(alloc, target),
                    found => Ok(found),
                }
            }
        }
    }
}
