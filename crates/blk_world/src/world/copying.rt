//! What is known of jobs between calls, and how many bytes a block has that is copied.
ghost use Rattle.std.specs.Prelude.{◌≡◌, ◌≤◌, IfSome, Some, option_map};
ghost use Rattle.blk_history.specs.Small.{IsSmallEnd};
ghost use Rattle.blk_history.specs.declared.entry.JobEnd.TheVariants.{Failed};
ghost use Rattle.block_jobs.specs.Work.{JobWork as Work};
ghost use Rattle.job_works.specs.Works.{work_of};
ghost use Rattle.node_copies.specs.Sectors.{block_of};
ghost use Rattle.blk_nodes.specs.Joined.{IsJoined};
ghost use Rattle.blk_nodes.specs.Nodes.{node_size};
ghost use Rattle.qmp_rules.specs.Table.{job_at, job_in};
ghost use Rattle.qmp_rules.specs.declared.rows.JobRecord.{JobRecord as Row};
ghost use Rattle.world_parts.specs.Coherent.{IsWholeWorld};

use crate::world::World;
use blk_base::{DevNo, Fault, PIECE, Store};
use blk_copy::Transfer;

/// The numbers of a fault have 64 bits.
fn small_law(met: Option<Fault>)
    ensures { IfSome met (λ fault. IsSmallEnd (Failed fault)) }
{
    match met {
        Some(
            Fault::Io {
                dev: DevNo(number),
                count,
            },
        ) => {
            let _ = number;
            let _ = count;
        }
        Some(Fault::NoSpace { dev: DevNo(number) }) => {
            let _ = number;
        }
        None => {}
    }
}

/// How many bytes a block of a disk has.
fn len_of(size: u64, block: u64) -> usize
    ensures len { result ≡ (block_of size block).len }
    ensures most { result ≤ 65536 }
{
    match block.checked_mul(PIECE) {
        Some(start) => PIECE.min(size.saturating_sub(start)) as usize,
        None => 0,
    }
}

impl<S: Store> World<S> {
    /// What holds of the world between calls.
    pub fn law(&self)
        ensures whole { IsWholeWorld self.now }
        ensures joined { IsJoined self.now.nodes }
    {
        let _ = self.nodes.edges();
    }

    /// The numbers of a fault that a job met have 64 bits.
    fn met_law(&self, job: u32)
        ensures { (work : Work) → work_of self.now.works job ≡ Some work
            → IfSome work.met (λ fault. IsSmallEnd (Failed fault)) }
    {
        if let Some(work) = self.works.of_job(job) {
            small_law(work.met());
        }
    }

    /// So it is with the job in a slot.
    pub fn fault_law(&self, slot: u32)
        ensures { (row : Row) (work : Work) → job_in self.now.table slot ≡ Some row
            → work_of self.now.works row.number ≡ Some work
            → IfSome work.met (λ fault. IsSmallEnd (Failed fault)) }
    {
        if let Some(row) = self.names.job_in(slot) {
            self.met_law(row.number);
        }
    }

    /// The bytes of the disk that a job copies.
    fn source_size(&self, job: u32) -> Option<u64>
        ensures { result ≡ option_map (λ row. node_size self.now.nodes row.source)
            (job_at self.now.table job) }
    {
        let row = self.names.job_at(job)?;
        Some(self.nodes.size(row.source))
    }

    /// How many bytes the block has that was read for a job.
    pub fn block_len(&self, t: Transfer) -> usize
        ensures len { (work : Work) → work_of self.now.works t.job ≡ Some work
            → result ≡ (block_of work.size t.cluster).len }
        ensures most { result ≤ 65536 }
    {
        self.law();
        match self.source_size(t.job) {
            Some(size) => len_of(size, t.cluster),
            None => 0,
        }
    }
}
