ghost use Rattle.std.specs.Prelude.{◌≡◌, ◌<◌, ◌==◌, ◌++◌, ◌∷◌, [], false, length, IfOk, vec_capacity};
ghost use Rattle.blk_copy.specs.Rows.{has_row, is_in_flight, without_row};

use blk_base::NoMemory;
use std::alloc::Global;
use std::marker::Model;

/// A cluster that a job has read and not yet written.
#[derive(Clone, Copy, Debug, PartialEq, Eq)]
pub struct Transfer {
    /// The job's number in the run.
    pub job: u32,
    /// Which cluster of the job's disk it is, counted from 0.
    pub cluster: u64,
    /// How many entries the history had when the cluster was read.
    pub position: u64,
}

/// The transfers in flight, at most one of a job and cluster.
#[derive(Debug, Drop)]
pub struct Transfers {
    rows: Vec<Transfer>,
}

impl Model for Transfers {
    ghost use Rattle.std.specs.Prelude.{vec_capacity};
    ghost use Rattle.blk_copy.specs.Table.{Table};

    ghost Value = { Table };

    ghost view = { λ t. record { rows = t.rows.items; room = vec_capacity t.rows } };
}

impl Transfers {
    /// No transfer, with room for `n`. All the memory is taken here.
    pub fn with_room(alloc: Global, n: u32) -> Result<Self, NoMemory>
        ensures { IfOk result (λ t. t ≡ record { rows = []; room = n }) }
    {
        let rows = Vec::with_capacity(alloc, n as usize)?;
        Ok(Transfers { rows })
    }

    /// Begins a transfer of a cluster that the job has no other of.
    pub fn enter(&mut self, t: Transfer)
        requires room { length self.old.rows < self.old.room }
        requires apart { has_row t.job t.cluster self.old.rows ≡ false }
        ensures { self.new ≡ record self.old { rows = self.old.rows ++ t ∷ [] } }
    {
        self.rows.push_reserved(t);
    }

    /// Whether just this transfer is in flight.
    pub fn find(&self, t: Transfer) -> bool
        ensures { result ≡ is_in_flight t self.now.rows }
    {
        self.rows.iter().any(|row| row.job == t.job
            && row.cluster == t.cluster
            && row.position == t.position)
    }

    /// Ends the transfer of a job and cluster, and says whether there was one.
    pub fn close_row(&mut self, job: u32, cluster: u64) -> bool
        ensures found { result ≡ has_row job cluster self.old.rows }
        ensures closed { self.new
            ≡ record self.old { rows = without_row job cluster self.old.rows } }
    {
        let found = self.has_row(job, cluster);
        remove_row(&mut self.rows, job, cluster);
        found
    }

    /// Whether a transfer of a job and cluster is in flight.
    pub fn has_row(&self, job: u32, cluster: u64) -> bool
        ensures { result ≡ has_row job cluster self.now.rows }
    {
        self.rows
            .iter()
            .any(|row| row.job == job && row.cluster == cluster)
    }

    /// Whether no transfer is in flight.
    pub fn is_empty(&self) -> bool
        ensures { result ≡ (length self.now.rows == 0) }
    {
        self.rows.is_empty()
    }

    /// Ends all transfers.
    pub fn clear(&mut self)
        ensures { self.new ≡ record self.old { rows = [] } }
    {
        self.rows.clear();
    }
}

fn remove_row(rows: &mut Vec<Transfer>, job: u32, cluster: u64)
    ensures rows { rows.new.items ≡ without_row job cluster rows.old.items }
    ensures room { vec_capacity rows.new ≡ vec_capacity rows.old }
{
    rows.retain(|row| !(row.job == job && row.cluster == cluster));
}
