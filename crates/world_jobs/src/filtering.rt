//! The filter of a job: a node over its source that comes with it and goes with it.
ghost use Rattle.std.specs.Prelude.{◌≡◌, None};
ghost use Rattle.blk_graph.specs.Graph.{HasNode};
ghost use Rattle.blk_graph.specs.Judged.{first_parent};
ghost use Rattle.blk_nodes.specs.Dropping.{nodes_without};
ghost use Rattle.blk_nodes.specs.Joined.{IsJoined};
ghost use Rattle.blk_nodes.specs.Nodes.{device_in, filter_kind};
ghost use Rattle.blk_nodes.specs.Rewiring.{IsWiring, rewired};
ghost use Rattle.qmp_rules.specs.Table.{kinds_of};
ghost use Rattle.world_jobs.specs.Filtering.{filter_of, kinds_with};
ghost use Rattle.world_jobs.specs.Starting.{FilterFits, HasFilter};

use blk_base::{Device, Text};
use blk_graph::{Kind, MOST_NODES, NodeId, NodeKind};
use blk_nodes::{FilterKind, Nodes};
use qmp_codec::JobKind;
use qmp_rules::Names;

/// That of a backup, and that of a mirror.
pub(crate) fn filter_of(kind: JobKind) -> FilterKind
    ensures { result ≡ filter_of kind }
{
    match kind {
        JobKind::Backup => FilterKind::BeforeWrite,
        JobKind::Stream | JobKind::Commit | JobKind::Mirror => FilterKind::Mirror,
    }
}

/// What a filter is beside its name.
#[derive(Clone, Copy)]
pub(crate) struct FilterShape {
    pub kind: FilterKind,
    pub size: u64,
    pub read_only: bool,
}

/// Adds the filter of a job, of which the table has the row and the edges already.
pub(crate) fn put_filter<D: Device>(
    nodes: &mut Nodes<D>,
    names: &Names,
    name: Text,
    shape: FilterShape,
)
    requires { FilterFits nodes.old names.now.table name.bytes shape }
    ensures { HasFilter nodes.old nodes.new names.now.table name.bytes shape }
{
    match nodes.add_filter(name, shape.kind, shape.size, shape.read_only) {
        Ok(_) => {
            let _ = nodes.edges();
            let kinds = names.kinds();
            nodes.rewire(&kinds, names.list());
        }
        Err(_) => unreachable!(),
    }
}

/// What a filter is in the graph.
fn kind_of(filter: FilterKind) -> Kind
    ensures { result ≡ filter_kind filter }
{
    match filter {
        FilterKind::BeforeWrite => Kind::BeforeWrite,
        FilterKind::Mirror => Kind::Mirror,
        FilterKind::Commit => Kind::Commit,
    }
}

/// The kinds of the table's nodes, and that of the filter, which is there still.
fn kinds_with(names: &Names, kind: FilterKind, filter: NodeId) -> [NodeKind; MOST_NODES]
    ensures { result ≡ kinds_with kind filter (kinds_of names.now.table.nodes) }
{
    let mut kinds = names.kinds();
    kinds[filter.index()] = NodeKind {
        kind: kind_of(kind),
        writes: false,
    };
    kinds
}

/// Drops the filter of a job, of which the table has neither the row nor an edge any more.
pub(crate) fn pull_filter<D: Device>(
    nodes: &mut Nodes<D>,
    names: &Names,
    kind: FilterKind,
    filter: NodeId,
)
    requires wiring { IsWiring nodes.old
        (kinds_with kind filter (kinds_of names.now.table.nodes)) names.now.table.edges }
    requires there { HasNode nodes.old.graph filter }
    requires lone { first_parent filter names.now.table.edges ≡ None }
    requires bare { device_in nodes.old.devices filter ≡ None }
    ensures nodes { nodes.new ≡ nodes_without filter
        (rewired (kinds_with kind filter (kinds_of names.now.table.nodes)) names.now.table.edges
        nodes.old) }
    ensures joined { IsJoined nodes.new }
{
    let kinds = kinds_with(names, kind, filter);
    nodes.rewire(&kinds, names.list());
    match nodes.drop_node(filter) {
        Ok(None) => {}
        Ok(Some(device)) => {
            let _device = device;
            unreachable!()
        }
        Err(_) => unreachable!(),
    }
    let _ = nodes.edges();
}
