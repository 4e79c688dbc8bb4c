//! The table of permissions: what each edge asks and shares.
ghost use Rattle.std.specs.Prelude.{◌≡◌, List, true};
ghost use Rattle.blk_graph.specs.Permissions.{perms, idle_uses, asks_shares, drive_uses, derived_uses, has_role, uses_by, job_uses, job_role, drive_edge, job_edge, node_edge};
ghost use Rattle.blk_graph.specs.Refreshed.{joined, with_uses, kind_at, IsByTable};
ghost use Rattle.blk_graph.specs.declared.kind.NodeKind.{NodeKind as Known};

use crate::edge::{Edge, NodeId, Parent, Perms, Role, Uses};
use crate::kind::{JobUse, Kind, NodeKind};

fn perms(read: bool, write: bool, unchanged: bool) -> Perms
    ensures { result ≡ perms read write unchanged }
{
    Perms {
        read,
        write,
        unchanged,
    }
}

fn asks_shares(perm: Perms, shared: Perms) -> Uses
    ensures { result ≡ asks_shares perm shared }
{
    Uses { perm, shared }
}

/// Nothing is asked, and all is shared.
pub(crate) const IDLE: Uses = Uses {
    perm: Perms {
        read: false,
        write: false,
        unchanged: false,
    },
    shared: Perms {
        read: true,
        write: true,
        unchanged: true,
    },
};

/// What a node's own edge asks and shares, where its kind says so.
fn derived_uses(kind: Kind, role: Role, writes: bool, above: Uses) -> Option<Uses>
    ensures { result ≡ derived_uses kind role writes above }
{
    let asked = above.perm;
    match (kind, role) {
        (Kind::Raw | Kind::Qcow2, Role::File) => Some(asks_shares(
            perms(true, writes, false),
            perms(true, false, false),
        )),
        (Kind::Qcow2, Role::Backing) => Some(asks_shares(
            perms(asked.read, false, false),
            perms(true, !asked.read, true),
        )),
        (Kind::CopyOnRead, Role::File) => Some(asks_shares(
            perms(asked.read, asked.write, true),
            above.shared,
        )),
        (Kind::BeforeWrite | Kind::Mirror, Role::Filtered) => Some(asks_shares(
            perms(true, asked.write, asked.unchanged),
            perms(true, false, true),
        )),
        (Kind::Commit, Role::Filtered) => Some(asks_shares(
            perms(false, asked.write, asked.unchanged),
            above.shared,
        )),
        _ => None,
    }
}

pub(crate) fn uses_by(node: NodeKind, role: Role, above: Uses) -> Option<Uses>
    ensures { result ≡ uses_by node role above }
{
    derived_uses(node.kind, role, node.writes, above)
}

impl Kind {
    /// Whether a node of this kind may have an edge of this role.
    pub fn has_role(self, role: Role) -> bool
        ensures { result ≡ has_role self role }
    {
        matches!(
            (self, role),
            (Kind::Raw | Kind::Qcow2 | Kind::CopyOnRead, Role::File)
                | (Kind::Qcow2, Role::Backing)
                | (
                    Kind::BeforeWrite | Kind::Mirror | Kind::Commit,
                    Role::Filtered
                )
        )
    }
}

fn drive_uses(writes: bool, share_rw: bool) -> Uses
    ensures { result ≡ drive_uses writes share_rw }
{
    asks_shares(perms(true, writes, false), perms(true, share_rw, true))
}

impl JobUse {
    /// What such an edge asks and shares.
    pub fn uses(self) -> Uses
        ensures { result ≡ job_uses self }
    {
        match self {
            JobUse::CopyTarget => asks_shares(perms(true, true, false), perms(false, false, false)),
            JobUse::CommitTop => asks_shares(perms(false, false, false), perms(true, true, true)),
            JobUse::CommitBetween => {
                asks_shares(perms(false, false, false), perms(false, true, true))
            }
            JobUse::CommitBase => asks_shares(perms(true, true, false), perms(false, false, true)),
            JobUse::StreamTop => asks_shares(perms(false, false, true), perms(true, true, true)),
            JobUse::StreamBelow => asks_shares(perms(true, false, false), perms(true, false, true)),
        }
    }

    pub fn role(self) -> Role
        ensures { result ≡ job_role self }
    {
        match self {
            JobUse::CopyTarget => Role::Target,
            JobUse::CommitTop | JobUse::StreamTop => Role::Source,
            JobUse::CommitBetween | JobUse::StreamBelow => Role::Between,
            JobUse::CommitBase => Role::Base,
        }
    }
}

impl Edge {
    /// The edge of a guest's drive.
    pub fn drive(guest: u32, node: NodeId, writes: bool, share_rw: bool) -> Edge
        ensures edge { result ≡ drive_edge guest node writes share_rw }
        ensures table { (kinds : List Known) → IsByTable kinds result }
    {
        let uses = drive_uses(writes, share_rw);
        Edge {
            parent: Parent::Guest(guest),
            role: Role::Drive,
            child: node,
            perm: uses.perm,
            shared: uses.shared,
        }
    }

    /// A job's edge.
    pub fn of_job(job: u32, what: JobUse, node: NodeId) -> Edge
        ensures edge { result ≡ job_edge job what node }
        ensures table { (kinds : List Known) → IsByTable kinds result }
    {
        let uses = what.uses();
        Edge {
            parent: Parent::Job(job),
            role: what.role(),
            child: node,
            perm: uses.perm,
            shared: uses.shared,
        }
    }

    /// A node's edge, before what it asks and shares is derived.
    pub fn of_node(parent: NodeId, role: Role, child: NodeId) -> Edge
        ensures edge { result ≡ node_edge parent role child }
        ensures table { (kinds : List Known) → has_role (kind_at kinds parent).kind role ≡ true
            → IsByTable kinds result }
    {
        let uses = IDLE;
        Edge {
            parent: Parent::Node(parent),
            role,
            child,
            perm: uses.perm,
            shared: uses.shared,
        }
    }
}
