//! Edges as they are put.
ghost use Rattle.std.specs.Prelude.{◌≡◌};
ghost use Rattle.blk_graph.specs.Permissions.{drive_edge, job_edge, job_role, job_uses, node_edge, perms};

use blk_graph::{Edge, JobUse, NodeId, Parent, Perms, Role, Uses};

pub(crate) const NOTHING: Perms = Perms {
    read: false,
    write: false,
    unchanged: false,
};

pub(crate) const ALL: Perms = Perms {
    read: true,
    write: true,
    unchanged: true,
};

fn perms(read: bool, write: bool, unchanged: bool) -> Perms
    ensures { result ≡ perms read write unchanged }
{
    Perms {
        read,
        write,
        unchanged,
    }
}

/// A node's edge, before what it asks and shares is derived.
pub(crate) fn node_edge(parent: NodeId, role: Role, child: NodeId) -> Edge
    ensures { result ≡ node_edge parent role child }
{
    Edge {
        parent: Parent::Node(parent),
        role,
        child,
        perm: NOTHING,
        shared: ALL,
    }
}

/// The edge of a guest's drive.
pub(crate) fn drive_edge(guest: u32, node: NodeId, writes: bool, share_rw: bool) -> Edge
    ensures { result ≡ drive_edge guest node writes share_rw }
{
    Edge {
        parent: Parent::Guest(guest),
        role: Role::Drive,
        child: node,
        perm: perms(true, writes, false),
        shared: perms(true, share_rw, true),
    }
}

fn job_role(what: JobUse) -> Role
    ensures { result ≡ job_role what }
{
    match what {
        JobUse::CopyTarget => Role::Target,
        JobUse::CommitTop | JobUse::StreamTop => Role::Source,
        JobUse::CommitBetween | JobUse::StreamBelow => Role::Between,
        JobUse::CommitBase => Role::Base,
    }
}

fn job_uses(what: JobUse) -> Uses
    ensures { result ≡ job_uses what }
{
    let (perm, shared) = match what {
        JobUse::CopyTarget => (perms(true, true, false), NOTHING),
        JobUse::CommitTop => (NOTHING, ALL),
        JobUse::CommitBetween => (NOTHING, perms(false, true, true)),
        JobUse::CommitBase => (perms(true, true, false), perms(false, false, true)),
        JobUse::StreamTop => (perms(false, false, true), ALL),
        JobUse::StreamBelow => (perms(true, false, false), perms(true, false, true)),
    };
    Uses { perm, shared }
}

/// A job's edge.
pub(crate) fn job_edge(slot: u32, what: JobUse, node: NodeId) -> Edge
    ensures { result ≡ job_edge slot what node }
{
    let uses = job_uses(what);
    Edge {
        parent: Parent::Job(slot),
        role: job_role(what),
        child: node,
        perm: uses.perm,
        shared: uses.shared,
    }
}
