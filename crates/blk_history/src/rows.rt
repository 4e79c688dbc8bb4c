//! Names by number, as a transcript prints them.

use blk_base::{Names1, Text};
use qmp_codec::JobKind;
use std::marker::Model;

/// A job, as a transcript prints it.
#[derive(Drop)]
pub struct JobName {
    id: Text,
    kind: JobKind,
    /// The bytes of its source.
    size: u64,
}

impl Model for JobName {
    ghost use Rattle.blk_history.specs.Names.{JobLine};

    ghost Value = { JobLine };

    ghost view = { λ j. record { id = j.id.bytes; kind = j.kind; size = j.size } };
}

impl JobName {
    ghost use Rattle.std.specs.Prelude.{◌≡◌};

    pub fn new(id: Text, kind: JobKind, size: u64) -> Self
        ensures { result ≡ record { id = id.bytes; kind = kind; size = size } }
    {
        JobName { id, kind, size }
    }

    pub(crate) fn id(&self) -> &str
        ensures { result.now ≡ self.now.id }
    {
        self.id.as_str()
    }

    pub(crate) fn kind(&self) -> JobKind
        ensures { result ≡ self.now.kind }
    {
        self.kind
    }

    pub(crate) fn size(&self) -> u64
        ensures { result ≡ self.now.size }
    {
        self.size
    }
}

/// The guests' names, and the jobs in the order of their starts.
#[derive(Drop)]
pub struct Rows {
    guests: Names1,
    jobs: Vec<JobName>,
}

impl Model for Rows {
    ghost use Rattle.blk_history.specs.Names.{RowNames};

    ghost Value = { RowNames };

    ghost view = { λ r. record { guests = r.guests; jobs = r.jobs.items } };
}

impl Rows {
    ghost use Rattle.std.specs.Prelude.{◌≡◌, ◌<◌, [], length, get_or};
    ghost use Rattle.blk_history.specs.Names.{no_job};

    pub fn new(guests: Names1, jobs: Vec<JobName>) -> Self
        ensures { result ≡ record { guests = guests; jobs = jobs.items } }
    {
        Rows { guests, jobs }
    }

    /// A guest's name.
    pub fn guest(&self, number: u32) -> &str
        requires { number < length self.now.guests }
        ensures { result.now ≡ get_or self.now.guests number [] }
    {
        self.guests.name_at(number as usize)
    }

    /// A job by its number.
    pub(crate) fn job(&self, number: u32) -> &JobName
        requires { number < length self.now.jobs }
        ensures { result.now ≡ get_or self.now.jobs number no_job }
    {
        &self.jobs[number as usize]
    }
}
