//! What commands give, and what the queries print of the table.
ghost use Rattle.std.specs.Prelude.{◌≡◌, ◌==◌, IfOk, OnOk, if◌then◌else◌};
ghost use Rattle.serde_json.specs.Data.{Items, item};
ghost use Rattle.serde_json.specs.View.{view, items_view};
ghost use Rattle.qmp_codec.specs.Commands.{seen_command};
ghost use Rattle.qmp_rules.specs.Answers.{returned};
ghost use Rattle.qmp_rules.specs.Printed.{items_joined};
ghost use Rattle.qmp_rules.specs.Queries.{bitmap_data, bitmap_items, bytes_of_node, driver_text, is_job_filter, block_job_data, jobs_data, jobs_items, node_data, nodes_data, nodes_items, shown_read_only, job_status_text};

use crate::rows::{BitmapRow, JobRecord, NodeRecord};
use crate::table::Names;
use crate::told::Told;
use blk_base::NoMemory;
use blk_graph::{Kind, NodeId};
use qmp_codec::Command;
use serde_json::{Value, json};
use std::alloc::{AllocError, Global};

fn status_text(is_ready: bool) -> &'static str
    ensures { result.now ≡ job_status_text is_ready }
{
    if is_ready { "ready" } else { "running" }
}

fn driver_text(kind: Kind) -> &'static str
    ensures { result.now ≡ driver_text kind }
{
    match kind {
        Kind::Protocol => "file",
        Kind::Raw => "raw",
        Kind::Qcow2 => "qcow2",
        Kind::CopyOnRead => "copy-on-read",
        Kind::BeforeWrite => "copy-before-write",
        Kind::Mirror => "mirror_top",
        Kind::Commit => "commit_top",
    }
}

fn is_job_filter(kind: Kind) -> bool
    ensures { result ≡ is_job_filter kind }
{
    matches!(kind, Kind::BeforeWrite | Kind::Mirror | Kind::Commit)
}

fn bitmap_value(alloc: Global, row: &BitmapRow, dirty: u64) -> Result<Value, AllocError>
    ensures { IfOk result (λ v. view v ≡ bitmap_data row.now dirty) }
{
    let busy = row.busy.is_some();
    let granularity = row.granularity;
    let name = row.name.as_str();
    let enabled = row.enabled;
    json!(in alloc; {"busy": busy, "count": dirty, "granularity": granularity, "name": name, "persistent": false, "recording": enabled})
}

/// Puts a value behind the others.
#[tactic(auto, using(crate::proofs::ItemLemmas::joined_push))]
fn put_value(values: &mut Vec<Value>, value: Value) -> Result<(), AllocError>
    ensures { OnOk result ((rest : Items) → items_joined (items_view values.new.items) rest
        ≡ items_joined (items_view values.old.items) (item (view value) rest)) }
{
    values.push(value)?;
    Ok(())
}

/// Puts a bitmap behind the others, where it is one of the node.
fn put_bitmap(
    alloc: Global,
    values: &mut Vec<Value>,
    node: NodeId,
    row: &BitmapRow,
    dirty: u64,
) -> Result<(), AllocError>
    ensures { OnOk result ((rest : Items) → items_joined (items_view values.new.items) rest
        ≡ items_joined (items_view values.old.items)
        (if row.now.node == node then item (bitmap_data row.now dirty) rest else rest)) }
{
    if row.node != node {
        return Ok(());
    }
    let value = bitmap_value(alloc, row, dirty)?;
    put_value(values, value)
}

fn bitmap_values(
    alloc: Global,
    node: NodeId,
    rows: &[BitmapRow],
    counts: &[u64],
) -> Result<Vec<Value>, AllocError>
    ensures { IfOk result (λ v. items_view v.items ≡ bitmap_items node rows.now counts.now) }
{
    let mut values = Vec::new(alloc);
    for i in 0..rows.len().min(counts.len()) {
        put_bitmap(alloc, &mut values, node, &rows[i], counts[i])?;
    }
    Ok(values)
}

impl Names {
    fn bytes_of(&self, id: NodeId) -> u64
        ensures { result ≡ bytes_of_node self.now.table id }
    {
        match self.node_at(id) {
            Some(row) => row.size,
            None => 0,
        }
    }

    fn job_value(&self, alloc: Global, job: &JobRecord) -> Result<Value, AllocError>
        ensures { IfOk result (λ v. view v ≡ block_job_data self.now.table job.now) }
    {
        let id = job.id.as_str();
        let len = self.bytes_of(job.source);
        let is_ready = job.is_ready;
        let offset = if is_ready { len } else { 0 };
        let status = status_text(is_ready);
        let kind = job.kind.name();
        json!(in alloc; {"auto-dismiss": true, "auto-finalize": true, "busy": false, "device": id, "io-status": "ok", "len": len, "offset": offset, "paused": false, "ready": is_ready, "speed": 0u64, "status": status, "type": kind})
    }

    fn job_values(&self, alloc: Global) -> Result<Vec<Value>, AllocError>
        ensures { IfOk result
            (λ v. items_view v.items ≡ jobs_items self.now.table self.now.table.jobs) }
    {
        let mut values = Vec::new(alloc);
        for job in self.jobs() {
            put_value(&mut values, self.job_value(alloc, job)?)?;
        }
        Ok(values)
    }

    /// Whether a node is shown as read-only: a job's filter as its child.
    fn shown_read_only(&self, row: &NodeRecord) -> bool
        ensures { result ≡ shown_read_only self.now.table row.now }
    {
        if !is_job_filter(row.kind) {
            return row.read_only;
        }
        match self.node_at(self.disk_node(row.id)) {
            Some(below) => below.read_only,
            None => row.read_only,
        }
    }

    fn node_value(
        &self,
        alloc: Global,
        counts: &[u64],
        row: &NodeRecord,
    ) -> Result<Value, AllocError>
        ensures { IfOk result (λ v. view v ≡ node_data self.now.table counts.now row.now) }
    {
        let bitmaps = Value::Array(bitmap_values(alloc, row.id, self.bitmaps(), counts)?);
        let driver = driver_text(row.kind);
        let name = row.name.as_str();
        let read_only = self.shown_read_only(row);
        let size = row.size;
        json!(in alloc; {"dirty-bitmaps": bitmaps, "drv": driver, "node-name": name, "ro": read_only, "size": size})
    }

    fn node_values(&self, alloc: Global, counts: &[u64]) -> Result<Vec<Value>, AllocError>
        ensures { IfOk result
            (λ v. items_view v.items ≡ nodes_items self.now.table counts.now self.now.table.nodes) }
    {
        let mut values = Vec::new(alloc);
        for row in self.nodes() {
            put_value(&mut values, self.node_value(alloc, counts, row)?)?;
        }
        Ok(values)
    }

    #[tactic(auto, unfolding(crate::specs::Queries::jobs_data))]
    fn jobs_value(&self, alloc: Global) -> Result<Value, AllocError>
        ensures { IfOk result (λ v. view v ≡ jobs_data self.now.table) }
    {
        Ok(Value::Array(self.job_values(alloc)?))
    }

    #[tactic(auto, unfolding(crate::specs::Queries::nodes_data))]
    fn nodes_value(&self, alloc: Global, counts: &[u64]) -> Result<Value, AllocError>
        ensures { IfOk result (λ v. view v ≡ nodes_data self.now.table counts.now) }
    {
        Ok(Value::Array(self.node_values(alloc, counts)?))
    }

    /// What an accepted command gives: the queries their lists, every other one nothing.
    pub fn returned(&self, alloc: Global, told: &Told, command: &Command) -> Result<Value, NoMemory>
        ensures { IfOk result
            (λ v. view v ≡ returned self.now.table told.now (seen_command command.now)) }
    {
        match command {
            Command::QueryBlockJobs => Ok(self.jobs_value(alloc)?),
            Command::QueryNamedBlockNodes(_) => Ok(self.nodes_value(alloc, told.dirty.as_slice())?),
            _ => Ok(json!(in alloc; {})?),
        }
    }
}
