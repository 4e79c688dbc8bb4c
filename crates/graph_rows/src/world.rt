//! What rows are played on.

use crate::row::node;
use crate::table::{EdgeKind, edge_kind};
use crate::{bitmaps, draft, edits, graph, table};
use blk_base::{NoMemory, Text};
use blk_bitmaps::Bitmaps;
use blk_graph::{EdgeList, Graph, NodeId};
use row_text::{Player, Row, RowStop, Words, named};
use std::alloc::Global;

/// A graph, a list of edges apart from it, the bitmaps of its nodes, and kinds of edges.
#[derive(Drop)]
pub(crate) struct World {
    alloc: Global,
    graph: Graph,
    draft: EdgeList,
    bitmaps: Bitmaps,
    /// Bitmaps whose pictures stand behind each answer to a call on bitmaps.
    watched: Vec<(NodeId, Text)>,
    kinds: Vec<EdgeKind>,
}

/// What a row begins or adds.
#[derive(Clone, Copy)]
enum Act {
    Nodes,
    Many,
    Take,
    Watch,
    Edge,
}

const ACTS: [(&str, Act); 5] = [
    ("nodes", Act::Nodes),
    ("many", Act::Many),
    ("take", Act::Take),
    ("watch", Act::Watch),
    ("edge", Act::Edge),
];

/// Puts the pictures of the bitmaps that are watched.
fn put_pictures(bitmaps: &Bitmaps, watched: &[(NodeId, Text)], out: &mut Words) {
    for (node, name) in watched {
        out.put(" ");
        bitmaps::put_picture(bitmaps, *node, name.as_str(), out);
    }
}

impl World {
    pub fn new(alloc: Global) -> Result<Self, NoMemory> {
        Ok(World {
            alloc,
            graph: Graph::new(alloc)?,
            draft: EdgeList::new(alloc)?,
            bitmaps: Bitmaps::new(alloc)?,
            watched: Vec::new(alloc),
            kinds: Vec::new(alloc),
        })
    }

    /// Begins a graph, with no bitmap.
    fn begin(&mut self, graph: Graph) -> Result<(), RowStop> {
        self.graph = graph;
        self.bitmaps = Bitmaps::new(self.alloc)?;
        self.watched.clear();
        Ok(())
    }

    /// `watch NODE NAME ..`.
    fn watch(&mut self, row: &Row) -> Result<(), RowStop> {
        let count = row.words.split_whitespace().count();
        for pair in 0..count / 2 {
            let place = pair.saturating_mul(2);
            let node = node(&self.graph, row, place)?;
            let name = Text::copied(self.alloc, row.word(place.saturating_add(1))?)?;
            self.watched.push((node, name))?;
        }
        Ok(())
    }

    fn act(&mut self, act: Act, row: &Row) -> Result<(), RowStop> {
        match act {
            Act::Nodes => self.begin(graph::nodes(self.alloc, row)?)?,
            Act::Many => self.begin(graph::many(self.alloc, row)?)?,
            Act::Take => draft::take(&mut self.graph, &mut self.draft),
            Act::Watch => self.watch(row)?,
            Act::Edge => self.kinds.push(edge_kind(self.alloc, row)?)?,
        }
        Ok(())
    }

    /// What is asked, where no row changes anything.
    fn asked(&self, row: &Row, out: &mut Words) -> Result<(), RowStop> {
        if let Some(ask) = named(&graph::ASKS, row.key) {
            return graph::answer_to(&self.graph, ask, row, out);
        }
        if let Some(ask) = named(&bitmaps::ASKS, row.key) {
            return bitmaps::asked(self.alloc, &self.bitmaps, &self.graph, ask, row, out);
        }
        match named(&table::ASKS, row.key) {
            Some(ask) => {
                table::answer_to(
                    self.alloc,
                    &self.graph,
                    self.kinds.as_slice(),
                    ask,
                    row,
                    out,
                )
            }
            None => Err(RowStop::Word),
        }
    }
}

impl Player for World {
    fn answer_to(&mut self, row: &Row, out: &mut Words) -> Result<(), RowStop> {
        let alloc = self.alloc;
        if let Some(act) = named(&ACTS, row.key) {
            self.act(act, row)?;
            out.put("ok");
            return Ok(());
        }
        if let Some(edit) = named(&edits::EDITS, row.key) {
            return edits::answer_to(alloc, &mut self.graph, edit, row, out);
        }
        if let Some(call) = named(&bitmaps::CALLS, row.key) {
            bitmaps::answer_to(alloc, &mut self.bitmaps, &self.graph, call, row, out)?;
            put_pictures(&self.bitmaps, self.watched.as_slice(), out);
            return Ok(());
        }
        match named(&draft::ASKS, row.key) {
            Some(ask) => draft::answer_to(&self.graph, &mut self.draft, ask, row, out),
            None => self.asked(row, out),
        }
    }
}
