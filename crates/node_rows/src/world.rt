//! What rows are played on.

use crate::{adding, clusters, pieces, stack, users};
use blk_base::NoMemory;
use blk_fakes::{FailAt, MemDevice};
use blk_nodes::Nodes;
use row_text::{Player, Row, RowStop, Words, named};
use std::alloc::Global;

/// The nodes, and which calls of the next device are to fail.
#[derive(Drop)]
pub(crate) struct World {
    alloc: Global,
    nodes: Nodes<MemDevice>,
    fails: Vec<FailAt>,
}

/// What a row begins, adds or asks.
#[derive(Clone, Copy)]
enum Act {
    Begin,
    Stack,
    Fail,
    File,
    Image,
    Raw,
    Qcow2,
    Filter,
    Drop,
    Mode,
    Edges,
    NextCallsFail,
}

const ACTS: [(&str, Act); 12] = [
    ("begin", Act::Begin),
    ("stack", Act::Stack),
    ("fail", Act::Fail),
    ("file", Act::File),
    ("image", Act::Image),
    ("raw", Act::Raw),
    ("qcow2", Act::Qcow2),
    ("filter", Act::Filter),
    ("drop", Act::Drop),
    ("mode", Act::Mode),
    ("edges", Act::Edges),
    ("next-calls-fail", Act::NextCallsFail),
];

impl World {
    pub fn new(alloc: Global) -> Result<Self, NoMemory> {
        Ok(World {
            alloc,
            nodes: Nodes::new(alloc)?,
            fails: Vec::new(alloc),
        })
    }

    /// Begins with these nodes.
    fn begin(&mut self, nodes: Nodes<MemDevice>, out: &mut Words) {
        self.nodes = nodes;
        self.fails.clear();
        out.put("ok");
    }

    /// `fail CALL DONE`: so does a call of the next device.
    fn fail(&mut self, row: &Row, out: &mut Words) -> Result<(), RowStop> {
        let (call, done) = row.failing(0)?;
        self.fails.push(FailAt { call, done })?;
        out.put("ok");
        Ok(())
    }

    fn file(&mut self, is_image: bool, row: &Row, out: &mut Words) -> Result<(), RowStop> {
        let fails = self.fails.as_slice();
        adding::file(self.alloc, &mut self.nodes, fails, is_image, row, out)?;
        self.fails.clear();
        Ok(())
    }

    fn act(&mut self, act: Act, row: &Row, out: &mut Words) -> Result<(), RowStop> {
        let alloc = self.alloc;
        match act {
            Act::Begin => self.begin(Nodes::new(alloc)?, out),
            Act::Stack => self.begin(stack::stack(alloc, row)?, out),
            Act::Fail => return self.fail(row, out),
            Act::File => return self.file(false, row, out),
            Act::Image => return self.file(true, row, out),
            Act::Raw => return adding::raw(alloc, &mut self.nodes, row, out),
            Act::Qcow2 => return adding::qcow2(alloc, &mut self.nodes, row, out),
            Act::Filter => return adding::filter(alloc, &mut self.nodes, row, out),
            Act::Drop => adding::drop_node(&mut self.nodes, row, out)?,
            Act::Mode => out.put(users::mode(&self.nodes, row)?),
            // `edges`: how many there are
            Act::Edges => out.number(self.nodes.edges().len() as u64),
            Act::NextCallsFail => return stack::next_calls_fail(alloc, &mut self.nodes, row, out),
        }
        Ok(())
    }
}

impl Player for World {
    fn answer_to(&mut self, row: &Row, out: &mut Words) -> Result<(), RowStop> {
        let alloc = self.alloc;
        if let Some(act) = named(&ACTS, row.key) {
            return self.act(act, row, out);
        }
        if let Some(call) = named(&pieces::CALLS, row.key) {
            return pieces::answer_to(alloc, &mut self.nodes, call, row, out);
        }
        if let Some(edit) = named(&users::EDITS, row.key) {
            return users::answer_to(&mut self.nodes, edit, row, out);
        }
        match named(&clusters::EACH, row.key) {
            Some(each) => clusters::answer_to(alloc, &mut self.nodes, each, row, out),
            None => Err(RowStop::Word),
        }
    }
}
