ghost use Rattle.std.specs.Prelude.{◌≡◌, ◌<◌, ◌≤◌, ◌+◌, ◌*◌, ◌^◌, ◌==◌, not, true, length, IfOk, None, Some, if◌then◌else◌};
ghost use Rattle.std.specs.List.{list_any};
ghost use Rattle.blk_bitmaps.specs.Rows.{granule_count};
ghost use Rattle.blk_copy.specs.Rows.{is_in_flight};
ghost use Rattle.block_jobs.specs.Work.{IsJobWork, HasRoomForAll, block_count, next_block, sectors_left, part_bytes, room_for, begun, all_left, granules_left, left_again, without_block, after_take, after_settle, after_copy, failed_by};

use crate::parts::{empty, fill, has_any, holds, mark, take_off};
use blk_base::{Fault, NoMemory, PIECE, Span};
use blk_bits::{DirtySet, Ratio};
use blk_copy::{Transfer, Transfers};
use qmp_codec::JobKind;
use std::alloc::Global;
use std::marker::Model;

/// How many bytes a sector has; a block has 128.
const SECTOR: u64 = 512;

/// What a job keeps of its copying: the parts of its disk that are left, its copies in flight, and its first fault.
#[derive(Drop)]
pub struct JobWork {
    job: u32,
    size: u64,
    /// How many bytes a part has.
    part: u64,
    left: DirtySet,
    copies: Transfers,
    met: Option<Fault>,
}

impl Model for JobWork {
    ghost use Rattle.block_jobs.specs.Work.{JobWork as Seen, IsJobWork};

    ghost Value = { Seen };

    ghost view = { λ w. record {
      job = w.job;
      size = w.size;
      part = w.part;
      left = w.left;
      rows = w.copies.rows;
      room = w.copies.room;
      met = w.met;
    } };

    ghost invariant = { λ w. IsJobWork (record {
      job = w.job;
      size = w.size;
      part = w.part;
      left = w.left;
      rows = w.copies.rows;
      room = w.copies.room;
      met = w.met;
    }) };
}

impl JobWork {
    /// A job of which nothing is left to copy, over a disk of `size` bytes. Its parts are granules of so many bytes, or blocks
    /// where a block isn't made of such granules. Only here memory is taken.
    pub fn new(
        alloc: Global,
        kind: JobKind,
        job: u32,
        size: u64,
        granularity: u64,
    ) -> Result<Self, NoMemory>
        requires size { size ≤ 2 ^ 47 }
        requires some { 0 < granularity }
        ensures { IfOk result (λ work. work ≡ begun kind job size granularity) }
    {
        let part = part_bytes(granularity);
        let left = DirtySet::new(alloc, part_count(size, part))?;
        let copies = Transfers::with_room(alloc, room_for(kind, size))?;
        Ok(JobWork {
            job,
            size,
            part,
            left,
            copies,
            met: None,
        })
    }

    /// What holds of each job's work.
    pub fn law(&self)
        ensures { IsJobWork self.now }
    {
        let _ = &self.job;
    }

    /// The job's number in the run.
    pub fn job(&self) -> u32
        ensures { result ≡ self.now.job }
    {
        self.job
    }

    /// The first fault that the job met; nothing is done for it any more.
    pub fn met(&self) -> Option<Fault>
        ensures { result ≡ self.now.met }
    {
        self.met
    }

    /// Whether any part is left.
    pub fn is_left(&self) -> bool
        ensures { result ≡ list_any (λ part. part) self.now.left }
    {
        has_any(&self.left)
    }

    /// Whether a copy is in flight.
    pub fn is_open(&self) -> bool
        ensures { result ≡ not (length self.now.rows == 0) }
    {
        !self.copies.is_empty()
    }

    /// The least block with a part left of which no copy is in flight.
    pub fn next_block(&self) -> Option<u64>
        ensures { result ≡ next_block self.now }
    {
        let parts = PIECE / self.part;
        let mut seen = 0;
        while let Some(part) = self.left.next_dirty(seen * parts) {
            let block = part / parts;
            if self.copies.has_row(self.job, block) {
                seen = block + 1;
            } else {
                return Some(block);
            }
        }
        None
    }

    /// The sectors of a block whose parts are left: of sector i it is bit i.
    pub fn sectors_left(&self, block: u64) -> u128
        requires { block < block_count self.now.size }
        ensures { result ≡ sectors_left self.now block }
    {
        let bytes = self.part;
        let start = block * PIECE;
        let mut sectors = 0;
        let mut sector = 128;
        while 0 < sector {
            sector -= 1;
            let part = (start + sector * SECTOR) / bytes;
            sectors = 2 * sectors + bit(holds(&self.left, part));
        }
        sectors
    }

    /// All of the disk is to be copied.
    pub fn add_all(&mut self)
        requires { self.old.met ≡ None }
        ensures { self.new ≡ all_left self.old }
    {
        fill(&mut self.left);
    }

    /// What a set of dirty granules of the disk holds is to be copied.
    pub fn add_granules(&mut self, set: &DirtySet, granularity: u64)
        requires { self.old.met ≡ None }
        ensures { self.new ≡ granules_left granularity set.now self.old }
    {
        let ratio = Ratio {
            mine: self.part,
            theirs: granularity,
        };
        self.left.merge_from(set, ratio);
    }

    /// A guest wrote a span of the disk: its parts are to be copied again.
    pub fn mark(&mut self, span: Span)
        ensures { self.new ≡ left_again span self.old }
    {
        if self.met.is_none() {
            mark(&mut self.left, self.part, span);
        }
    }

    /// The next block was read behind `position` entries of the history, and is to be written.
    pub fn begin(&mut self, kind: JobKind, block: u64, position: u64) -> Transfer
        requires next { next_block self.old ≡ Some block }
        requires room { HasRoomForAll self.old }
        ensures transfer { result
            ≡ record { job = self.old.job; cluster = block; position = position } }
        ensures work { self.new ≡ after_take kind result self.old }
    {
        let t = Transfer {
            job: self.job,
            cluster: block,
            position,
        };
        self.copies.enter(t);
        if let JobKind::Mirror = kind {
            self.take_block_off(block);
        }
        t
    }

    /// Whether just this copy is in flight.
    pub fn is_in_flight(&self, t: Transfer) -> bool
        ensures flies { result ≡ is_in_flight t self.now.rows }
        ensures within { result ≡ true → t.cluster < block_count self.now.size }
    {
        self.copies.find(t)
    }

    /// A block that was read has been written.
    pub fn settled(&mut self, kind: JobKind, block: u64)
        requires { block < block_count self.old.size }
        ensures { self.new ≡ after_settle kind block self.old }
    {
        match kind {
            JobKind::Mirror => {}
            _ => self.take_block_off(block),
        }
        self.copies.close_row(self.job, block);
    }

    /// A block was copied at once.
    pub fn copied(&mut self, block: u64)
        requires { block < block_count self.old.size }
        ensures { self.new ≡ after_copy block self.old }
    {
        self.take_block_off(block);
        self.copies.close_row(self.job, block);
    }

    /// A call for the job failed: nothing is left, the copies in flight are dropped, and the first fault is kept.
    pub fn fail(&mut self, fault: Fault)
        ensures { self.new ≡ failed_by fault self.old }
    {
        empty(&mut self.left);
        self.copies.clear();
        self.met = Some(self.met.unwrap_or(fault));
    }

    fn take_block_off(&mut self, block: u64)
        requires { block < block_count self.old.size }
        ensures { self.new ≡ without_block block self.old }
    {
        let parts = PIECE / self.part;
        take_off(&mut self.left, block * parts, parts);
    }
}

fn bit(value: bool) -> u128
    ensures { result ≡ (if value then 1 else 0) }
{
    u128::from(value)
}

/// How many bytes a part has.
fn part_bytes(granularity: u64) -> u64
    requires { 0 < granularity }
    ensures { result ≡ part_bytes granularity }
{
    if granularity % SECTOR == 0 && PIECE % granularity == 0 {
        granularity
    } else {
        PIECE
    }
}

fn part_count(size: u64, part: u64) -> u64
    requires some { 0 < part }
    requires size { size ≤ 2 ^ 47 }
    ensures { result ≡ granule_count size part }
{
    size.div_ceil(part)
}

/// How many copies a job may have in flight.
fn room_for(kind: JobKind, size: u64) -> u32
    requires { size ≤ 2 ^ 47 }
    ensures { result ≡ room_for kind size }
{
    match kind {
        JobKind::Stream | JobKind::Commit => 0,
        JobKind::Mirror | JobKind::Backup => size.div_ceil(PIECE) as u32,
    }
}
