//! Calls that are to fail.

use blk_base::NoMemory;
use std::alloc::Global;
use std::marker::Model;

/// A call that is to fail, by its number: all calls of an object that may fail are numbered from 0, one after the
/// other. A write or a put does `done` bytes first, or the nearest lower number that it may do.
#[derive(Clone, Copy, Debug, PartialEq, Eq)]
pub struct FailAt {
    pub call: u64,
    pub done: u64,
}

/// The calls of one object that may fail.
#[derive(Drop)]
pub(crate) struct Calls {
    fails: Vec<FailAt>,
    made: u64,
    faults: u64,
}

impl Model for Calls {
    ghost use Rattle.blk_fakes.specs.Calls.{CallState};

    ghost Value = { CallState };

    ghost view = { λ c. record { fails = c.fails.items; made = c.made; faults = c.faults } };
}

impl Calls {
    ghost use Rattle.std.specs.Prelude.{◌≡◌, ◌≤◌, not, IfOk};
    ghost use Rattle.blk_fakes.specs.Calls.{CallState, done_at, one_more, with_call, with_fault, no_calls, fails_next, with_go};

    pub fn new(alloc: Global, fails: &[FailAt]) -> Result<Self, NoMemory>
        ensures { IfOk result (λ c. c ≡ no_calls fails.now) }
    {
        Ok(Calls {
            fails: Vec::from_slice(alloc, fails)?,
            made: 0,
            faults: 0,
        })
    }

    pub fn copied(&self, alloc: Global) -> Result<Self, NoMemory>
        ensures { IfOk result (λ c. c ≡ self.now) }
    {
        Ok(Calls {
            fails: Vec::from_slice(alloc, self.fails.as_slice())?,
            made: self.made,
            faults: self.faults,
        })
    }

    /// Takes the next number. Gives how much is done by the call of that number, where it is to fail.
    pub fn next(&mut self) -> Option<u64>
        ensures done { result ≡ done_at self.old.made self.old.fails }
        ensures next { self.new ≡ with_call self.old }
    {
        let done = done_by(&self.fails, self.made);
        self.made = self.made.saturating_add(1);
        done
    }

    /// Counts one more fault.
    pub fn fail(&mut self)
        ensures counted { self.new ≡ with_fault self.old }
        ensures grows { self.old.faults ≤ self.new.faults }
    {
        self.faults = self.faults.saturating_add(1);
    }

    /// Takes the next number, and counts a fault where the call of that number is to fail. Whether it goes well.
    pub fn go(&mut self) -> bool
        ensures goes { result ≡ not (fails_next self.old) }
        ensures after { self.new ≡ with_go self.old }
        ensures grows { self.old.faults ≤ self.new.faults }
    {
        let fails = self.next().is_some();
        if fails {
            self.fail();
        }
        !fails
    }

    pub fn faults(&self) -> u64
        ensures { result ≡ self.now.faults }
    {
        self.faults
    }
}

ghost use Rattle.std.specs.Prelude.{◌≡◌};
ghost use Rattle.blk_fakes.specs.Calls.{done_at};

fn done_by(fails: &[FailAt], number: u64) -> Option<u64>
    ensures { result ≡ done_at number fails.now }
{
    for fail in fails {
        if fail.call == number {
            return Some(fail.done);
        }
    }
    None
}
