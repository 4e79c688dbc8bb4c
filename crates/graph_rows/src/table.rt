//! What edges ask and share: of nodes by the letters of a line, of jobs and guests, and what of that is refused beside
//! each other.
ghost use Rattle.std.specs.Prelude.{◌<◌};

use crate::row::nth;
use crate::words::{JOB_USES, KINDS, ROLES, put_uses, role_name};
use blk_base::Text;
use blk_graph::{
    Edge, EdgeList, Graph, Kind, MOST_NODES, NO_KIND, NodeId, NodeKind, Parent, Perm, Perms, Role,
    Uses,
};
use row_text::{Row, RowStop, Words, same};
use std::alloc::Global;

/// What a letter may depend on: what the edges into the node ask together, and what all of them share; and whether the
/// node may be written.
#[derive(Clone, Copy)]
struct Case {
    above: Uses,
    writes: bool,
}

/// Whether a letter says that a permission is asked or shared.
fn is_said(letter: Option<&u8>, perm: Perm, case: &Case) -> bool {
    match letter {
        Some(b'1' | b'r' | b'w' | b'u') => true,
        Some(b'a') => case.above.perm.holds(perm),
        Some(b's') => case.above.shared.holds(perm),
        Some(b'n') => !case.above.perm.read,
        Some(b'm') => case.writes,
        _ => false,
    }
}

fn said(letters: &str, case: &Case) -> Perms {
    let letters = letters.as_bytes();
    Perms {
        read: is_said(letters.first(), Perm::Read, case),
        write: is_said(letters.get(1), Perm::Write, case),
        unchanged: is_said(letters.get(2), Perm::Unchanged, case),
    }
}

/// What the letters of two words say.
fn uses_said(row: &Row, place: usize, case: &Case) -> Result<Uses, RowStop> {
    let asks = row.word(place)?;
    let shares = row.word(place.saturating_add(1))?;
    Ok(Uses {
        perm: said(asks, case),
        shared: said(shares, case),
    })
}

/// The perms with this number.
fn numbered(number: usize) -> Perms {
    Perms {
        read: number % 2 == 1,
        write: number / 2 % 2 == 1,
        unchanged: number / 4 % 2 == 1,
    }
}

/// One of 128 cases.
fn case_of(number: usize) -> Case {
    Case {
        above: Uses {
            perm: numbered(number),
            shared: numbered(number / 8),
        },
        writes: number / 64 == 1,
    }
}

/// A node's edge.
fn put_own(list: &mut EdgeList, parent: NodeId, role: Role, child: NodeId) {
    match role {
        Role::File => list.put(Edge::of_node(parent, Role::File, child)),
        Role::Backing => list.put(Edge::of_node(parent, Role::Backing, child)),
        Role::Filtered => list.put(Edge::of_node(parent, Role::Filtered, child)),
        _ => {}
    }
}

/// Puts a guest's edge that asks and shares so.
fn put_guest(list: &mut EdgeList, guest: u32, child: NodeId, uses: Uses)
    requires { guest < 80 }
{
    list.put(Edge {
        parent: Parent::Guest(guest),
        role: Role::Drive,
        child,
        perm: uses.perm,
        shared: uses.shared,
    });
}

/// What is derived of a node's edge that stands alone below one edge, which asks and shares as a case says.
fn derived(
    alloc: Global,
    nodes: (NodeId, NodeId),
    kind: Kind,
    role: Role,
    case: &Case,
) -> Result<Option<Uses>, RowStop> {
    let (parent, child) = nodes;
    let mut kinds = [NO_KIND; MOST_NODES];
    kinds[parent.index()] = NodeKind {
        kind,
        writes: case.writes,
    };
    let mut list = EdgeList::new(alloc)?;
    put_guest(&mut list, 7, parent, case.above);
    put_own(&mut list, parent, role, child);
    list.refresh(&kinds);
    match list.as_slice().get(1) {
        Some(edge) => Ok(Some(Uses {
            perm: edge.perm,
            shared: edge.shared,
        })),
        None => Ok(None),
    }
}

/// Puts where a node's edge isn't as the letters say.
fn put_other(derived: Option<Uses>, case: &Case, out: &mut Words) {
    let Some(uses) = derived else {
        return out.put("no edge");
    };
    put_uses(uses.perm, uses.shared, out);
    out.put(" below ");
    put_uses(case.above.perm, case.above.shared, out);
    out.put(", may be written: ");
    out.yes_or_no(case.writes);
}

/// `of-node KIND ROLE ASKS SHARES`: whether that is so in all cases. The graph has two nodes.
fn of_node(alloc: Global, graph: &Graph, row: &Row, out: &mut Words) -> Result<(), RowStop> {
    let kind = row.named(0, &KINDS)?;
    let role = row.named(1, &ROLES)?;
    let nodes = (nth(graph, 0)?, nth(graph, 1)?);
    for number in 0..128 {
        let case = case_of(number);
        let uses = derived(alloc, nodes, kind, role, &case)?;
        if uses != Some(uses_said(row, 2, &case)?) {
            put_other(uses, &case, out);
            return Ok(());
        }
    }
    out.put("ok");
    Ok(())
}

/// `roles KIND`: those that a node of that kind has an edge of.
fn roles(row: &Row, out: &mut Words) -> Result<(), RowStop> {
    let kind = row.named(0, &KINDS)?;
    for (name, role) in &ROLES {
        if kind.has_role(*role) {
            out.part(" ", *name);
        }
    }
    Ok(())
}

/// Puts the role of an edge, and what it asks and shares.
fn put_edge(edge: &Edge, out: &mut Words) {
    out.put(role_name(edge.role));
    out.put(" ");
    put_uses(edge.perm, edge.shared, out);
}

/// `of-job USE`: the edge of a job, if it is as the use says.
fn of_job(graph: &Graph, row: &Row, out: &mut Words) -> Result<(), RowStop> {
    let what = row.named(0, &JOB_USES)?;
    let edge = Edge::of_job(3, what, nth(graph, 0)?);
    let uses = what.uses();
    if edge.role != what.role() || edge.perm != uses.perm || edge.shared != uses.shared {
        out.put("another than of the use alone");
    } else {
        put_edge(&edge, out);
    }
    Ok(())
}

/// `of-guest`: the edge of a guest, with `writes` of one that may write, with `shared` of one that lets others write.
fn of_guest(graph: &Graph, row: &Row, out: &mut Words) -> Result<(), RowStop> {
    let node = nth(graph, 0)?;
    let edge = Edge::drive(3, node, row.has("writes"), row.has("shared"));
    put_edge(&edge, out);
    Ok(())
}

/// The letter of a permission, large where it is the second edge's.
fn letter(perm: Perm, is_second: bool) -> char {
    match (perm, is_second) {
        (Perm::Read, false) => 'r',
        (Perm::Write, false) => 'w',
        (Perm::Unchanged, false) => 'u',
        (Perm::Read, true) => 'R',
        (Perm::Write, true) => 'W',
        (Perm::Unchanged, true) => 'U',
    }
}

/// What is refused of two edges into the first node.
fn meet(alloc: Global, graph: &Graph, node: NodeId, uses: (Uses, Uses)) -> Result<char, RowStop> {
    let mut list = EdgeList::new(alloc)?;
    put_guest(&mut list, 0, node, uses.0);
    put_guest(&mut list, 1, node, uses.1);
    let Err(pair) = list.judge(graph.nodes()) else {
        return Ok('.');
    };
    match (pair.asks, pair.denies) {
        (Parent::Guest(0), Parent::Guest(1)) if pair.node == node => Ok(letter(pair.perm, false)),
        (Parent::Guest(1), Parent::Guest(0)) if pair.node == node => Ok(letter(pair.perm, true)),
        _ => Ok('?'),
    }
}

/// A kind of edge by what it asks and shares.
#[derive(Drop)]
pub(crate) struct EdgeKind {
    name: Text,
    uses: Uses,
}

/// `edge NAME ASKS SHARES`: a kind of edge.
pub(crate) fn edge_kind(alloc: Global, row: &Row) -> Result<EdgeKind, RowStop> {
    Ok(EdgeKind {
        name: Text::copied(alloc, row.word(0)?)?,
        uses: uses_said(row, 1, &case_of(0))?,
    })
}

fn uses_of(kinds: &[EdgeKind], row: &Row) -> Result<Uses, RowStop> {
    let name = row.word(0)?;
    for kind in kinds {
        if same(kind.name.as_str(), name) {
            return Ok(kind.uses);
        }
    }
    Err(RowStop::Word)
}

/// `meets NAME`: what is refused where an edge of that kind meets one of each kind.
fn meets(
    alloc: Global,
    graph: &Graph,
    kinds: &[EdgeKind],
    row: &Row,
    out: &mut Words,
) -> Result<(), RowStop> {
    let node = nth(graph, 0)?;
    let uses = uses_of(kinds, row)?;
    for other in kinds {
        out.letter(meet(alloc, graph, node, (uses, other.uses))?);
    }
    Ok(())
}

#[derive(Clone, Copy)]
pub(crate) enum Ask {
    OfNode,
    Roles,
    OfJob,
    OfGuest,
    Meets,
}

pub(crate) const ASKS: [(&str, Ask); 5] = [
    ("of-node", Ask::OfNode),
    ("roles", Ask::Roles),
    ("of-job", Ask::OfJob),
    ("of-guest", Ask::OfGuest),
    ("meets", Ask::Meets),
];

/// Puts what a row asks of the table of permissions.
pub(crate) fn answer_to(
    alloc: Global,
    graph: &Graph,
    kinds: &[EdgeKind],
    ask: Ask,
    row: &Row,
    out: &mut Words,
) -> Result<(), RowStop> {
    match ask {
        Ask::OfNode => of_node(alloc, graph, row, out),
        Ask::Roles => roles(row, out),
        Ask::OfJob => of_job(graph, row, out),
        Ask::OfGuest => of_guest(graph, row, out),
        Ask::Meets => meets(alloc, graph, kinds, row, out),
    }
}
