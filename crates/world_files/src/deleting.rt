//! Nodes that go, with their devices.
ghost use Rattle.std.specs.Prelude.{◌≡◌, ℕ, true, None, IfOk, OnOk, OnErr, string_bytes};
ghost use Rattle.blk_graph.specs.Graph.{HasNode};
ghost use Rattle.blk_nodes.specs.Contents.{disk_of};
ghost use Rattle.blk_nodes.specs.Dropping.{nodes_without};
ghost use Rattle.blk_nodes.specs.Nodes.{device_in};
ghost use Rattle.qmp_codec.specs.Commands.{seen_command};
ghost use Rattle.qmp_rules.specs.Answers.{refusal_to, told_none};
ghost use Rattle.qmp_rules.specs.Edits.{goes_with_node};
ghost use Rattle.world_files.specs.Deletions.{IsDeletedBy, bitmaps_left, is_deletion, CanLeave, Belong, IsLoneNode, Deletes};
ghost use Rattle.world_parts.specs.Handling.{IsHandled, IsUntouched, bitmaps_but, bitmaps_deleted};
ghost use Rattle.world_parts.specs.Steps.{seen_in_run};
ghost use Rattle.world_parts.specs.Deleting.{ground_in, name_under, made_with, going, with_back, TellsFlush, HasLeft, HaveLeft, all_left, IsDeleted};

use blk_base::{NoMemory, Store};
use blk_bitmaps::Bitmaps;
use blk_graph::NodeId;
use blk_nodes::Nodes;
use qmp_codec::Command;
use qmp_rules::{Names, NodeRecord, Told};
use std::alloc::Global;
use world_parts::{RunStore, accepted_text, refused};

/// The name of the file that a `file` node stands for; of another node, none.
fn name_under(names: &Names, node: NodeId) -> &str
    ensures { result.now ≡ name_under names.now.table node }
{
    match names.node_at(node) {
        Some(row) => match &row.filename {
            Some(name) => name.as_str(),
            None => "",
        },
        None => "",
    }
}

fn goes_with(row: &NodeRecord, node: NodeId) -> bool
    ensures { result ≡ goes_with_node node row.now }
{
    match row.made_with {
        Some(other) => other == node,
        None => false,
    }
}

/// The file node that goes with a node, where it was made with it.
fn made_with(names: &Names, node: NodeId) -> Option<NodeId>
    ensures { result ≡ made_with names.now.table node }
{
    match names.nodes().iter().find(|row| goes_with(row, node)) {
        Some(row) => Some(row.id),
        None => None,
    }
}

/// Drops a node that no edge leads to, and gives its device, where it has one, back to its file.
fn take_node<S: Store>(
    store: &mut RunStore<S>,
    nodes: &mut Nodes<S::Dev>,
    names: &Names,
    node: NodeId,
)
    requires { CanLeave names.now.table (ground_in store.old nodes.old) node }
    ensures nodes { nodes.new ≡ nodes_without node nodes.old }
    ensures store { seen_in_run store.new
        ≡ with_back (name_under names.now.table node) (device_in nodes.old.devices node)
        (seen_in_run store.old) }
    ensures earlier { store.new.earlier ≡ store.old.earlier }
    ensures flush { TellsFlush (device_in nodes.old.devices node) }
    ensures disks { (other : ℕ) → HasNode nodes.new.graph other
        → disk_of nodes.new other ≡ disk_of nodes.old other }
{
    match nodes.drop_node(node) {
        Ok(Some(device)) => store.give_back(name_under(names, node), device),
        Ok(None) => {}
        Err(_) => unreachable!(),
    }
}

/// The same, and what is true of the nodes that are left.
fn drop_node<S: Store>(
    store: &mut RunStore<S>,
    nodes: &mut Nodes<S::Dev>,
    names: &Names,
    node: NodeId,
)
    requires { CanLeave names.now.table (ground_in store.old nodes.old) node }
    ensures nodes { nodes.new ≡ nodes_without node nodes.old }
    ensures store { seen_in_run store.new
        ≡ with_back (name_under names.now.table node) (device_in nodes.old.devices node)
        (seen_in_run store.old) }
    ensures earlier { store.new.earlier ≡ store.old.earlier }
    ensures left { HasLeft (ground_in store.old nodes.old) node }
{
    take_node(store, nodes, names, node);
    let _ = nodes.edges();
}

/// Drops a node that no edge leads to, then the file node that was made with it, and gives their devices back.
fn drop_nodes<S: Store>(
    store: &mut RunStore<S>,
    nodes: &mut Nodes<S::Dev>,
    names: &Names,
    node: NodeId,
)
    requires belong { Belong names.now.table (ground_in store.old nodes.old) }
    requires free { IsLoneNode names.now.table node }
    ensures nodes { nodes.new ≡ (all_left names.now.table (going names.now.table node)
        (ground_in store.old nodes.old)).nodes }
    ensures store { seen_in_run store.new ≡ (all_left names.now.table (going names.now.table node)
        (ground_in store.old nodes.old)).store }
    ensures each { HaveLeft names.now.table (ground_in store.old nodes.old)
        (going names.now.table node) }
    ensures earlier { store.new.earlier ≡ store.old.earlier }
{
    let _ = nodes.edges();
    drop_node(store, nodes, names, node);
    if let Some(file) = made_with(names, node) {
        drop_node(store, nodes, names, file);
    }
}

/// Drops the node of a name, as `drop_nodes` does.
pub(crate) fn drop_named<S: Store>(
    store: &mut RunStore<S>,
    nodes: &mut Nodes<S::Dev>,
    names: &Names,
    name: &str,
)
    requires belong { Belong names.now.table (ground_in store.old nodes.old) }
    requires deletes { Deletes names.now.table name.now }
    ensures deleted { IsDeleted names.now.table name.now
        (ground_in store.old nodes.old) (ground_in store.new nodes.new) }
    ensures earlier { store.new.earlier ≡ store.old.earlier }
{
    match names.id_named(name) {
        Some(node) => drop_nodes(store, nodes, names, node),
        None => unreachable!(),
    }
}

/// Drops the node that a deletion names.
#[tactic(auto, using(crate::proofs::CreatedAsked::del_asked))]
fn drop_by<S: Store>(
    store: &mut RunStore<S>,
    nodes: &mut Nodes<S::Dev>,
    names: &Names,
    command: &Command,
)
    requires belong { Belong names.now.table (ground_in store.old nodes.old) }
    requires deletion { is_deletion (seen_command command.now) ≡ true }
    requires accepted { refusal_to names.now.table told_none (seen_command command.now) ≡ None }
    ensures deleted { IsDeletedBy names.now.table (seen_command command.now)
        (ground_in store.old nodes.old) (ground_in store.new nodes.new) }
    ensures earlier { store.new.earlier ≡ store.old.earlier }
{
    match command {
        Command::BlockdevDel(name) => drop_named(store, nodes, names, name.as_str()),
        _ => unreachable!(),
    }
}

/// The bitmaps of a node go, and those of the file node that goes with it.
fn drop_bitmaps_of(bitmaps: &mut Bitmaps, names: &Names, node: NodeId)
    ensures { bitmaps.new ≡ bitmaps_but (going names.now.table node) bitmaps.old }
{
    bitmaps.remove_all(node);
    if let Some(file) = made_with(names, node) {
        bitmaps.remove_all(file);
    }
}

/// The bitmaps go of the node that a deletion names.
fn drop_bitmaps(bitmaps: &mut Bitmaps, names: &Names, command: &Command)
    ensures { bitmaps.new ≡ bitmaps_deleted names.now.table (seen_command command.now) bitmaps.old }
{
    if let Command::BlockdevDel(name) = command {
        if let Some(node) = names.id_named(name.as_str()) {
            drop_bitmaps_of(bitmaps, names, node);
        }
    }
}

/// Carries out `blockdev-del`, or refuses it. Says the text of the reply.
pub fn delete<S: Store>(
    alloc: Global,
    store: &mut RunStore<S>,
    nodes: &mut Nodes<S::Dev>,
    names: &mut Names,
    bitmaps: &mut Bitmaps,
    given: &str,
    command: &Command,
) -> Result<String, NoMemory>
    requires belong { Belong names.old.table (ground_in store.old nodes.old) }
    requires deletion { is_deletion (seen_command command.now) ≡ true }
    ensures handled { IfOk result (λ text. IsHandled given.now names.old.table
        (seen_command command.now) names.new.table
        (IsDeletedBy names.old.table (seen_command command.now)
        (ground_in store.old nodes.old) (ground_in store.new nodes.new))
        (ground_in store.new nodes.new ≡ ground_in store.old nodes.old) (string_bytes text)) }
    ensures back { OnErr result (IsUntouched names.old.table names.new.table
        (ground_in store.new nodes.new ≡ ground_in store.old nodes.old)) }
    ensures bitmaps { OnOk result (bitmaps.new ≡ bitmaps_left
        (refusal_to names.old.table told_none (seen_command command.now)) names.old.table
        (seen_command command.now) bitmaps.old) }
    ensures bitmaps_back { OnErr result (bitmaps.new ≡ bitmaps.old) }
    ensures earlier { store.new.earlier ≡ store.old.earlier }
{
    let told = Told::nothing(alloc);
    match names.prepare(alloc, command, &told) {
        Ok(edits) => {
            let text = accepted_text(alloc, names, given, &told, command)?;
            drop_by(store, nodes, names, command);
            drop_bitmaps(bitmaps, names, command);
            names.apply(edits);
            Ok(text)
        }
        Err(stop) => refused(alloc, given, stop),
    }
}
