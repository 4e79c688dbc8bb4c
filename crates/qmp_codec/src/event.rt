//! What a job tells.

ghost use Rattle.std.specs.Prelude.{◌≡◌, Some, None, IfOk, codes};
ghost use Rattle.serde_json.specs.Data.{string, object, member};
ghost use Rattle.serde_json.specs.Read.{read};
ghost use Rattle.serde_json.specs.Written.{compact_text};
ghost use Rattle.serde_json.specs.View.{view};
ghost use Rattle.qmp_codec.specs.Events.{event_text, kind_text, error_before, progress, job_data, timestamp, event_data};

use crate::reply::printed;
use blk_base::{NoMemory, Text};
use serde_json::{Value, json};
use std::alloc::{AllocError, Global};

/// What became of a job.
#[derive(Clone, Copy)]
pub enum EventName {
    /// It has nothing left to copy, and goes on.
    Ready,
    Completed,
    Cancelled,
}

impl EventName {
    /// The name that is printed.
    pub fn name(self) -> &'static str
        ensures { result.now ≡ event_text self }
    {
        match self {
            EventName::Ready => "BLOCK_JOB_READY",
            EventName::Completed => "BLOCK_JOB_COMPLETED",
            EventName::Cancelled => "BLOCK_JOB_CANCELLED",
        }
    }
}

/// The kind of a job.
#[derive(Clone, Copy)]
pub enum JobKind {
    Stream,
    Commit,
    Mirror,
    Backup,
}

impl JobKind {
    /// The name that is printed.
    pub fn name(self) -> &'static str
        ensures { result.now ≡ kind_text self }
    {
        match self {
            JobKind::Stream => "stream",
            JobKind::Commit => "commit",
            JobKind::Mirror => "mirror",
            JobKind::Backup => "backup",
        }
    }
}

/// What a job tells.
#[derive(Drop)]
pub struct JobEvent {
    pub name: EventName,
    /// The job's id.
    pub device: Text,
    /// Why the job failed, where it did.
    pub error: Option<Text>,
    /// How many bytes the job covers.
    pub len: u64,
    /// How many of them are done.
    pub offset: u64,
    pub kind: JobKind,
}

/// What a job that failed tells of itself.
fn failed_value(alloc: Global, event: &JobEvent, error: &Text) -> Result<Value, AllocError>
    ensures { IfOk result
        (λ v. view v ≡ object (member (codes "device") (string event.now.device.bytes)
        (error_before (Some error.now) (progress event.now)))) }
{
    let device = event.device.as_str();
    let kind = event.kind.name();
    let len = event.len;
    let offset = event.offset;
    json!(in alloc; {"device": device, "error": error.as_str(), "len": len, "offset": offset, "speed": 0u64, "type": kind})
}

/// What a job that didn't fail tells of itself.
fn sound_value(alloc: Global, event: &JobEvent) -> Result<Value, AllocError>
    ensures { IfOk result
        (λ v. view v ≡ object (member (codes "device") (string event.now.device.bytes)
        (error_before None (progress event.now)))) }
{
    let device = event.device.as_str();
    let kind = event.kind.name();
    let len = event.len;
    let offset = event.offset;
    json!(in alloc; {"device": device, "len": len, "offset": offset, "speed": 0u64, "type": kind})
}

fn job_value(alloc: Global, event: &JobEvent) -> Result<Value, AllocError>
    ensures { IfOk result (λ v. view v ≡ job_data event.now) }
{
    match &event.error {
        Some(error) => Ok(failed_value(alloc, event, error)?),
        None => Ok(sound_value(alloc, event)?),
    }
}

/// The time of an event: no clock is at hand.
fn no_time(alloc: Global) -> Result<Value, AllocError>
    ensures { IfOk result (λ v. view v ≡ timestamp) }
{
    json!(in alloc; {"microseconds": -1i64, "seconds": -1i64})
}

fn event_value(alloc: Global, event: &JobEvent) -> Result<Value, AllocError>
    ensures { IfOk result (λ v. view v ≡ event_data event.now) }
{
    let data = job_value(alloc, event)?;
    let time = no_time(alloc)?;
    let name = event.name.name();
    json!(in alloc; {"data": data, "event": name, "timestamp": time})
}

/// The line of an event, without an end of line: compact, members ascending. It reads back as the same value.
pub fn print_event(alloc: Global, event: &JobEvent) -> Result<Text, NoMemory>
    ensures text { IfOk result (λ t. t.bytes ≡ compact_text (event_data event.now)) }
    ensures reads_back { IfOk result (λ t. read t.bytes ≡ Some (event_data event.now)) }
{
    let value = event_value(alloc, event)?;
    printed(alloc, &value)
}
