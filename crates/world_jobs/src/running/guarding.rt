//! A block of a backup's source, before a guest writes it.
ghost use Rattle.std.specs.Prelude.{◌≡◌, ◌<◌, Some, None, IsSome, length, option_copied};
ghost use Rattle.blk_nodes.specs.Nodes.{AreTold};
ghost use Rattle.block_jobs.specs.Work.{JobWork as Work};
ghost use Rattle.job_works.specs.Works.{work_of};
ghost use Rattle.qmp_rules.specs.Table.{RunTable};
ghost use Rattle.qmp_rules.specs.declared.rows.JobRecord.{JobRecord as Row};
ghost use Rattle.world_goings.specs.Copied.{HasSmallFault};
ghost use Rattle.world_jobs.specs.Guarding.{CanGuard, IsGuardedBy, backup_of, is_backup_of};

use crate::running::RunningJobs;
use blk_base::Device;
use blk_graph::NodeId;
use blk_nodes::Nodes;
use qmp_codec::JobKind;
use qmp_rules::{JobRecord, Names};

/// Whether a job is a backup of a node.
fn is_backup_of(row: &JobRecord, node: NodeId) -> bool
    ensures { result ≡ is_backup_of node row.now }
{
    match row.kind {
        JobKind::Backup => row.source == node,
        JobKind::Stream | JobKind::Commit | JobKind::Mirror => false,
    }
}

/// The backup of a node, if there is one.
fn backup_of(names: &Names, node: NodeId) -> Option<&JobRecord>
    ensures { option_copied result ≡ backup_of names.now.table node }
{
    names.jobs().iter().find(|row| is_backup_of(row, node))
}

impl RunningJobs {
    /// Before a guest's piece is written on a node, what is left of its block is copied for the backup of the node, where there is one.
    /// Takes no memory.
    pub fn guard<D: Device>(
        &mut self,
        nodes: &mut Nodes<D>,
        names: &Names,
        node: NodeId,
        block: u64,
    )
        requires can { CanGuard names.now.table nodes.old self.old node block }
        ensures guards { IsGuardedBy (backup_of names.now.table node) nodes.old nodes.new block
            self.old self.new }
        ensures told { AreTold nodes.old.devices → AreTold nodes.new.devices }
        ensures small { (row : Row) (work : Work) → backup_of names.now.table node ≡ Some row
            → work_of self.new row.number ≡ Some work → HasSmallFault work }
    {
        let Some(row) = backup_of(names, node) else {
            return;
        };
        let Some(target) = row.target else {
            unreachable!()
        };
        self.works.guard(
            nodes,
            row.number,
            row.source,
            target,
            block,
            &mut self.block,
        );
        self.fault_law(row.number);
    }
}
