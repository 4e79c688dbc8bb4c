//! Rows on runs, played.

use crate::acts::{ACTS, carry_out};
use crate::asked::{ASKS, Ask, answer};
use crate::block::{Block, Later};
use crate::runner::Runner;
use crate::scene::{Scene, command, new_scene};
use crate::store::store_of;
use crate::told::put_ran;
use blk_base::Text;
use blk_fakes::MemSink;
use row_text::{Player, Row, RowStop, Words, named, same};
use std::alloc::Global;

/// What rows on runs are played on.
#[derive(Drop)]
pub struct Stage<R> {
    scene: Scene,
    runner: R,
    /// The rows of which more are to come before they are played.
    block: Option<Block>,
}

/// The keys of a run's words: the first of them, or `words` before all.
const RUNS: [(&str, bool); 4] = [
    ("run", true),
    ("io", true),
    ("load", true),
    ("words", false),
];

/// How much may be sent at a time.
const SINK_ROOM: u64 = 65_536;

/// A word of a run, where `""` is the empty one, and a colon stands for `=`.
fn word_of(alloc: Global, word: &str) -> Result<Text, RowStop> {
    let mut out = Words::new(alloc);
    if !same(word, "\"\"") {
        out.swapped(word, ':', '=');
    }
    Ok(Text::copied(alloc, out.as_str())?)
}

/// The words of a run.
fn words_of(alloc: Global, row: &Row, has_key: bool) -> Result<Vec<Text>, RowStop> {
    let mut words = Vec::new(alloc);
    if has_key {
        words.push(Text::copied(alloc, row.key)?)?;
    }
    for word in row.words.split_whitespace() {
        words.push(word_of(alloc, word)?)?;
    }
    Ok(words)
}

/// `run WORKERS SCRIPT GUEST:TRACE ..`, `io FORMAT IMAGE TRACE`: how the run ends.
fn run<R: Runner>(
    scene: &mut Scene,
    runner: &mut R,
    words: &[Text],
    out: &mut Words,
) -> Result<(), RowStop> {
    let alloc = scene.alloc;
    let store = store_of(alloc, scene.files.as_slice(), scene.store_fails.as_slice())?;
    let mut sink = MemSink::new(alloc, SINK_ROOM, scene.sink_fails.as_slice())?;
    scene.ran.clear();
    scene.ran.push(runner.run(alloc, words, store, &mut sink))?;
    put_ran(out, scene.ran.as_slice(), sink.bytes(), &scene.expected)
}

/// Puts what is asked of the last run.
fn asked(scene: &Scene, what: Ask, row: &Row, out: &mut Words) -> Result<(), RowStop> {
    match scene.ran.last() {
        Some(ran) => answer(scene.alloc, ran, scene.kept.as_slice(), what, row, out),
        None => Err(RowStop::Call),
    }
}

/// Puts what is answered to a row that is played once.
fn answer_once<R: Runner>(
    scene: &mut Scene,
    runner: &mut R,
    row: &Row,
    out: &mut Words,
) -> Result<(), RowStop> {
    if let Some(what) = named(&ACTS, row.key) {
        carry_out(scene, what, row)?;
        out.put("ok");
        return Ok(());
    }
    if let Some(has_key) = named(&RUNS, row.key) {
        let words = words_of(scene.alloc, row, has_key)?;
        return run(scene, runner, words.as_slice(), out);
    }
    if let Some(what) = named(&ASKS, row.key) {
        return asked(scene, what, row, out);
    }
    if row.is_wrong {
        return Err(RowStop::Call);
    }
    command(scene, row, out)
}

/// Plays a row of a block with a number, and says whether it is right. Where it is wrong, what came is put.
fn is_played<R: Runner>(
    scene: &mut Scene,
    runner: &mut R,
    later: &Later,
    number: u64,
    out: &mut Words,
) -> Result<bool, RowStop> {
    let later = later.numbered(scene.alloc, number);
    let row = later.row();
    let mut came = Words::new(scene.alloc);
    answer_once(scene, runner, &row, &mut came)?;
    if row.is_right(came.as_str()) {
        return Ok(true);
    }
    out.put(row.key);
    out.fill(" with %: ", &[number]);
    out.put(came.as_str());
    Ok(false)
}

/// Plays the rows of a block with a number, up to the first that is wrong.
fn are_played<R: Runner>(
    scene: &mut Scene,
    runner: &mut R,
    rows: &[Later],
    number: u64,
    out: &mut Words,
) -> Result<bool, RowStop> {
    for row in rows {
        if !is_played(scene, runner, row, number, out)? {
            return Ok(false);
        }
    }
    Ok(true)
}

/// `end`: the rows of the block are played.
fn play<R: Runner>(
    scene: &mut Scene,
    runner: &mut R,
    block: &Block,
    out: &mut Words,
) -> Result<(), RowStop> {
    for place in 0..block.count {
        let number = block.number(place);
        if !are_played(scene, runner, block.rows.as_slice(), number, out)? {
            return Ok(());
        }
    }
    out.put("ok");
    Ok(())
}

impl<R: Runner> Stage<R> {
    pub fn new(alloc: Global, runner: R) -> Self {
        Stage {
            scene: new_scene(alloc),
            runner,
            block: None,
        }
    }

    /// Takes a row into the block that was begun, or plays it.
    fn record(&mut self, mut block: Block, row: &Row, out: &mut Words) -> Result<(), RowStop> {
        if same(row.key, "end") {
            return play(&mut self.scene, &mut self.runner, &block, out);
        }
        block.record(self.scene.alloc, row)?;
        self.block = Some(block);
        out.put(row.expected);
        Ok(())
    }
}

impl<R: Runner> Player for Stage<R> {
    fn answer_to(&mut self, row: &Row, out: &mut Words) -> Result<(), RowStop> {
        if let Some(block) = self.block.take() {
            return self.record(block, row, out);
        }
        if same(row.key, "each") {
            self.block = Some(Block::begun(self.scene.alloc, row)?);
            out.put("ok");
            return Ok(());
        }
        answer_once(&mut self.scene, &mut self.runner, row, out)
    }
}
