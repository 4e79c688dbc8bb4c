//! Blocks of a mirror's or a commit's source that a guest wrote.
ghost use Rattle.std.specs.Prelude.{◌≡◌, option_copied};
ghost use Rattle.job_progress.specs.Piecing.{is_follower_of, follower_of};
ghost use Rattle.world_jobs.specs.Marking.{marked_in};

use crate::running::RunningJobs;
use blk_base::Span;
use blk_graph::NodeId;
use qmp_codec::JobKind;
use qmp_rules::{JobRecord, Names};

/// Whether a job is a mirror or a commit of a node.
fn is_follower_of(row: &JobRecord, node: NodeId) -> bool
    ensures { result ≡ is_follower_of node row.now }
{
    match row.kind {
        JobKind::Mirror | JobKind::Commit => row.source == node,
        JobKind::Stream | JobKind::Backup => false,
    }
}

/// The mirror or commit of a node, if there is one.
fn follower_of(names: &Names, node: NodeId) -> Option<&JobRecord>
    ensures { option_copied result ≡ follower_of names.now.table node }
{
    names.jobs().iter().find(|row| is_follower_of(row, node))
}

impl RunningJobs {
    /// Where a guest wrote something on a node, the mirror or commit of the node has to copy it again, where there is one.
    pub fn mark(&mut self, names: &Names, node: NodeId, written: Option<Span>)
        ensures { self.new ≡ marked_in written names.now.table node self.old }
    {
        let Some(part) = written else {
            return;
        };
        if let Some(row) = follower_of(names, node) {
            self.works.mark(row.number, part);
        }
    }
}
