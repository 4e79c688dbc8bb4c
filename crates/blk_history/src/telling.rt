//! What the transcript tells of a job.
ghost use Rattle.std.specs.Prelude.{◌≡◌, ◌+◌, ◌*◌, ◌<◌, ◌≤◌, [], ◌∷◌, ◌++◌, length, codes, decimal, None};
ghost use Rattle.blk_history.specs.Transcript.{cause_word, fault_text, result_words, event_name, fault_of_end, event_line, start_words, ready_words, end_words};
ghost use Rattle.blk_history.specs.Line.{blanked, StaysInJson, IsPlainFault, device_part, error_part, length_part, offset_part, kind_part, progress_part, name_part, event_parts, Appends};

use crate::entry::{Cause, JobEnd};
use crate::line::{push_count, push_dev, push_word};
use crate::rows::JobName;
use blk_base::{Fault, Text};
use qmp_codec::EventName;

fn push_cause(out: &mut Text, cause: Cause)
    requires { 8 ≤ out.old.spare }
    ensures { Appends out.old out.new (32 ∷ cause_word cause) 8 }
{
    match cause {
        Cause::Command => push_word(out, "command"),
        Cause::Group => push_word(out, "group"),
        Cause::RunEnd => push_word(out, "run"),
    }
}

/// Puts the words of a fault at the end, without a blank before them.
#[tactic(auto, using(std::proofs::lemmas::List::append_assoc, crate::proofs::Tellings::plain_io, crate::proofs::Tellings::plain_space))]
fn push_fault(out: &mut Text, fault: Fault)
    requires { 47 ≤ out.old.spare }
    ensures words { Appends out.old out.new (fault_text fault) 47 }
    ensures plain { StaysInJson (fault_text fault) }
{
    match fault {
        Fault::Io { dev, count } => {
            out.push_str("io");
            push_dev(out, dev);
            push_count(out, count);
        }
        Fault::NoSpace { dev } => {
            out.push_str("nospace");
            push_dev(out, dev);
        }
    }
}

/// Puts how a job ended at the end.
#[tactic(auto, using(crate::proofs::Tellings::blanked_fault, std::proofs::lemmas::List::append_assoc))]
fn push_result(out: &mut Text, outcome: JobEnd)
    requires { 48 ≤ out.old.spare }
    ensures { Appends out.old out.new (blanked (result_words outcome)) 48 }
{
    match outcome {
        JobEnd::Completed => push_word(out, "done"),
        JobEnd::Pivoted => push_word(out, "pivot"),
        JobEnd::Copied => push_word(out, "copied"),
        JobEnd::Failed(fault) => {
            out.push_ascii(b' ');
            push_fault(out, fault);
        }
        JobEnd::Cancelled(cause) => {
            push_word(out, "cancelled");
            push_cause(out, cause);
        }
    }
}

/// Puts a blank and what an event begins with at the end.
fn push_device(out: &mut Text, id: &str)
    requires { 21 + length id.now ≤ out.old.spare }
    ensures { Appends out.old out.new (device_part id.now) (21 + length id.now) }
{
    out.push_str(" {\"data\":{\"device\":\"");
    out.push_str(id);
    out.push_ascii(b'"');
}

/// Puts the error of a job at the end, where it failed.
fn push_error(out: &mut Text, fault: Option<Fault>)
    requires { 58 ≤ out.old.spare }
    ensures words { Appends out.old out.new (error_part fault) 58 }
    ensures plain { IsPlainFault fault }
{
    let Some(fault) = fault else {
        return;
    };
    out.push_str(",\"error\":\"");
    push_fault(out, fault);
    out.push_ascii(b'"');
}

/// Puts how many bytes a job covers at the end.
#[tactic(auto, using(crate::proofs::Words::short_decimal, std::proofs::lemmas::List::append_assoc))]
fn push_length(out: &mut Text, job: &JobName)
    requires { 27 ≤ out.old.spare }
    ensures { Appends out.old out.new (length_part job.now) 27 }
{
    out.push_str(",\"len\":");
    out.push_number(job.size());
}

/// Puts how many of them are done at the end.
#[tactic(auto, using(crate::proofs::Words::short_decimal, std::proofs::lemmas::List::append_assoc))]
fn push_offset(out: &mut Text, offset: u64)
    requires { 30 ≤ out.old.spare }
    ensures { Appends out.old out.new (offset_part offset) 30 }
{
    out.push_str(",\"offset\":");
    out.push_number(offset);
}

/// Puts what a job does at the end.
#[tactic(auto, using(crate::proofs::Tellings::short_kind, std::proofs::lemmas::List::append_assoc))]
fn push_kind(out: &mut Text, job: &JobName)
    requires { 27 ≤ out.old.spare }
    ensures { Appends out.old out.new (kind_part job.now) 27 }
{
    out.push_str(",\"speed\":0,\"type\":\"");
    out.push_str(job.kind().name());
    out.push_str("\"}");
}

/// Puts how far a job is at the end.
fn push_progress(out: &mut Text, job: &JobName, offset: u64)
    requires { 84 ≤ out.old.spare }
    ensures { Appends out.old out.new (progress_part job.now offset) 84 }
{
    push_length(out, job);
    push_offset(out, offset);
    push_kind(out, job);
}

/// Puts the name of an event and what it ends with at the end.
fn push_name(out: &mut Text, name: EventName)
    requires { 76 ≤ out.old.spare }
    ensures { Appends out.old out.new (name_part name) 76 }
{
    out.push_str(",\"event\":\"");
    out.push_str(name.name());
    out.push_str("\",\"timestamp\":{\"microseconds\":-1,\"seconds\":-1}}");
}

/// Puts a blank and what a job tells at the end, part by part.
fn push_parts(out: &mut Text, job: &JobName, name: EventName, fault: Option<Fault>, offset: u64)
    requires { 239 + length job.now.id ≤ out.old.spare }
    ensures words { Appends out.old out.new (event_parts job.now name fault offset)
        (239 + length job.now.id) }
    ensures plain { IsPlainFault fault }
{
    push_device(out, job.id());
    push_error(out, fault);
    push_progress(out, job, offset);
    push_name(out, name);
}

/// Puts a blank and what a job tells at the end.
fn push_event(out: &mut Text, job: &JobName, name: EventName, fault: Option<Fault>, offset: u64)
    requires plain { StaysInJson job.now.id }
    requires room { 239 + length job.now.id ≤ out.old.spare }
    ensures { Appends out.old out.new (32 ∷ event_line job.now name fault offset)
        (239 + length job.now.id) }
{
    push_parts(out, job, name, fault, offset);
}

/// Puts the words of a job's start at the end.
pub(crate) fn push_start(out: &mut Text, job: &JobName)
    requires { 8 + length job.now.id ≤ out.old.spare }
    ensures { Appends out.old out.new (blanked (start_words job.now)) (8 + length job.now.id) }
{
    push_word(out, job.id());
    push_word(out, job.kind().name());
}

/// Puts the words of a job that is ready at the end.
pub(crate) fn push_ready(out: &mut Text, job: &JobName)
    requires plain { StaysInJson job.now.id }
    requires room { 240 + 2 * length job.now.id ≤ out.old.spare }
    ensures { Appends out.old out.new (blanked (ready_words job.now))
        (240 + 2 * length job.now.id) }
{
    push_word(out, job.id());
    push_event(out, job, EventName::Ready, None, job.size());
}

/// The event of a job's end.
fn end_name(outcome: JobEnd) -> EventName
    ensures { result ≡ event_name outcome }
{
    match outcome {
        JobEnd::Cancelled(_) => EventName::Cancelled,
        _ => EventName::Completed,
    }
}

/// The fault of a job that failed.
fn end_fault(outcome: JobEnd) -> Option<Fault>
    ensures { result ≡ fault_of_end outcome }
{
    match outcome {
        JobEnd::Failed(fault) => Some(fault),
        _ => None,
    }
}

/// Puts the words of a job's end at the end.
#[tactic(auto, using(crate::proofs::Tellings::blanked_more, std::proofs::lemmas::List::append_assoc))]
pub(crate) fn push_end(out: &mut Text, job: &JobName, outcome: JobEnd, offset: u64)
    requires plain { StaysInJson job.now.id }
    requires room { 288 + 2 * length job.now.id ≤ out.old.spare }
    ensures { Appends out.old out.new (blanked (end_words job.now outcome offset))
        (288 + 2 * length job.now.id) }
{
    push_word(out, job.id());
    push_result(out, outcome);
    push_event(out, job, end_name(outcome), end_fault(outcome), offset);
}
