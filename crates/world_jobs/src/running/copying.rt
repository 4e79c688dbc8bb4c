//! Blocks that are read in a job's turn, and written then.
ghost use Rattle.std.specs.Prelude.{◌≡◌, ℕ, Some, None, length};
ghost use Rattle.blk_nodes.specs.Contents.{disk_of};
ghost use Rattle.blk_nodes.specs.Nodes.{AreTold};
ghost use Rattle.job_works.specs.Steps.{Settled, Taken};
ghost use Rattle.job_works.specs.Works.{ChangesWork};
ghost use Rattle.world_jobs.specs.Copying.{HasRoomToCopy, SettlesFor, fits_copy};
ghost use Rattle.world_jobs.specs.Guarding.{HasTarget, HasWorkOver};

use crate::running::RunningJobs;
use blk_base::{Device, Fault};
use blk_copy::Transfer;
use blk_nodes::Nodes;
use qmp_rules::JobRecord;

impl RunningJobs {
    /// Reads the next block of a job behind so many entries of the history, to be settled later. It is None where each block with a
    /// part left is in flight. `buffer` then holds it, or any bytes. Takes no memory.
    pub fn take<D: Device>(
        &mut self,
        nodes: &mut Nodes<D>,
        row: &JobRecord,
        position: u64,
        buffer: &mut [u8],
    ) -> Result<Option<Transfer>, Fault>
        requires can { HasRoomToCopy nodes.old self.old row.now }
        requires bytes { length buffer.old ≡ 65536 }
        ensures takes { ChangesWork row.now.number
            (Taken row.now.kind nodes.old nodes.new row.now.source position buffer.new result)
            self.old self.new }
        ensures disks { (other : ℕ) → disk_of nodes.new other ≡ disk_of nodes.old other }
        ensures told { AreTold nodes.old.devices → AreTold nodes.new.devices }
        ensures buffer { length buffer.new ≡ length buffer.old }
    {
        self.works
            .take(nodes, row.number, row.kind, row.source, position, buffer)
    }

    /// Writes a block that was read for a job. The answer is false where the copy came too late, and nothing is done. Takes no memory.
    pub fn settle<D: Device>(
        &mut self,
        nodes: &mut Nodes<D>,
        row: &JobRecord,
        t: Transfer,
        bytes: &[u8],
    ) -> bool
        requires own { t.job ≡ row.now.number }
        requires can { HasTarget nodes.old self.old row.now }
        requires whole { fits_copy self.old t bytes.now }
        ensures settles { SettlesFor row.now nodes.old nodes.new t bytes.now result self.old
            self.new }
        ensures told { AreTold nodes.old.devices → AreTold nodes.new.devices }
    {
        let Some(target) = row.target else {
            unreachable!()
        };
        self.works.settle(nodes, row.kind, target, t, bytes)
    }
}
