//! What the ends of jobs leave of a table. The job of a row is made by hand.

use blk_base::NoMemory;
use blk_graph::{NodeId, Role};
use qmp_asks::Name;
use qmp_codec::{BitmapMode, JobKind};
use qmp_rules::{
    AskedEnd, EventRoom, JobOutcome, JobRecord, MadeWritable, Names, NodeList, UsedBitmap,
};
use row_text::{Row, RowStop, Words};
use std::alloc::Global;

const KINDS: [(&str, JobKind); 4] = [
    ("mirror", JobKind::Mirror),
    ("commit", JobKind::Commit),
    ("backup", JobKind::Backup),
    ("stream", JobKind::Stream),
];

const OUTCOMES: [(&str, JobOutcome); 4] = [
    ("completed", JobOutcome::Completed),
    ("pivoted", JobOutcome::Pivoted),
    ("copied", JobOutcome::Copied),
    ("stopped", JobOutcome::Stopped),
];

/// The bitmap of a backup, where the row says whether its target was settled.
fn used(alloc: Global, row: &Row) -> Result<Option<UsedBitmap>, NoMemory> {
    let onto_settled = row.has("settled");
    if !onto_settled && !row.has("unsettled") {
        return Ok(None);
    }
    Ok(Some(UsedBitmap {
        name: Name::copied(alloc, "m")?,
        mode: BitmapMode::OnSuccess,
        onto_settled,
    }))
}

fn listed(alloc: Global, node: Option<NodeId>) -> Result<NodeList, NoMemory> {
    let mut ids = Vec::new(alloc);
    if let Some(id) = node {
        ids.push(id)?;
    }
    Ok(NodeList::new(ids))
}

/// The job of a row.
fn job(alloc: Global, names: &Names, row: &Row) -> Result<JobRecord, RowStop> {
    let Some(source) = names.id_named(row.word(2)?) else {
        return Err(RowStop::Word);
    };
    let is_made = row.has("made");
    Ok(JobRecord {
        id: Name::copied(alloc, "j")?,
        number: 0,
        slot: 0,
        kind: row.named(0, &KINDS)?,
        is_ready: true,
        group: None,
        asked: AskedEnd::Nothing,
        source,
        target: names.id_named(row.word(3)?),
        filter: names.id_named(row.word(4)?),
        held: listed(alloc, Some(source))?,
        read: listed(alloc, names.id_named(row.word(5)?))?,
        bitmap: used(alloc, row)?,
        made_writable: MadeWritable {
            base: is_made,
            file: is_made,
        },
        backing_file: None,
    })
}

/// Puts each node, with `=` behind one that has a flat disk and `!` behind one that is read-only.
fn put_nodes(names: &Names, out: &mut Words) {
    for node in names.nodes() {
        out.put(node.name.as_str());
        out.put(if node.is_settled { "=" } else { "" });
        out.put(if node.read_only { "! " } else { " " });
    }
}

fn put_name(names: &Names, node: Option<NodeId>, out: &mut Words) {
    match node {
        Some(id) => out.put(names.name_at(id)),
        None => out.put(""),
    }
}

/// Puts the drive of the device with the number 0, and what the node `ov` is over.
fn put_uses(names: &Names, out: &mut Words) {
    out.put("g:");
    put_name(names, names.drive(0), out);
    out.put(" ov:");
    let backing = match names.id_named("ov") {
        Some(id) => names.child(id, Role::Backing),
        None => None,
    };
    put_name(names, backing, out);
}

/// `ready JOB`: the job is ready from now on.
pub(crate) fn ready(names: &mut Names, row: &Row) -> Result<(), RowStop> {
    let number = match names.job_named(row.word(0)?) {
        Some(job) => job.number,
        None => return Err(RowStop::Word),
    };
    names.get_ready(number);
    Ok(())
}

/// `end KIND OUTCOME SOURCE TARGET FILTER READ`: how many changes the end of such a job is, and the table behind it. The words are
/// nodes, or `-` for none; `settled` or `unsettled` behind them says what a bitmap's target was, and `made` that the job had
/// made the base and its file writable.
pub(crate) fn end(
    alloc: Global,
    names: &mut Names,
    row: &Row,
    out: &mut Words,
) -> Result<(), RowStop> {
    let outcome = row.named(1, &OUTCOMES)?;
    let job = job(alloc, names, row)?;
    let edits = EventRoom::new(alloc)?.end_edits(names, &job, outcome);
    out.fill("% changes, ", &[edits.len() as u64]);
    names.apply_event(edits);
    put_nodes(names, out);
    put_uses(names, out);
    Ok(())
}
