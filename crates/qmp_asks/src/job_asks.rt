//! What the commands on jobs ask.
ghost use Rattle.std.specs.Prelude.{◌≡◌, ◌++◌, OnOk};
ghost use Rattle.qmp_codec.specs.Jobs.{seen_backup, seen_commit, seen_mirror, seen_stream};
ghost use Rattle.qmp_asks.specs.JobAsks.{backup_choices, backup_names, backup_rest, backup_values, cancel_asks, commit_asks, commit_names, commit_nodes, commit_rest, complete_asks, is_other, job_values, mirror_asks, mirror_choices, mirror_names, mirror_rest, mirror_values, on_error_value, stream_asks, stream_names, stream_nodes, stream_rest};
ghost use Rattle.qmp_asks.specs.Seen.{seen_ask, seen_asks, seen_nodes};

use crate::ask::{Ask, Drivers, JobNodes};
use crate::asks::{Asks, maybe, put};
use crate::values::{
    is_bitmap_for, is_copy_mode, is_full, is_just, is_mode_for, is_on_error, is_sync, is_true,
};
use blk_base::NoMemory;
use qmp_codec::{Backup, Commit, JobOptions, Mirror, OnError, Stream};

fn on_error_value(member: &str, policy: Option<OnError>) -> Ask<&str>
    ensures { seen_ask result ≡ on_error_value member.now policy }
{
    Ask::Good {
        member,
        ok: is_on_error(policy),
    }
}

/// What every job takes.
fn put_job_values<'x>(asks: &mut Asks<'x>, options: &JobOptions) -> Result<(), NoMemory>
    ensures { OnOk result
        (seen_asks asks.new.items ≡ seen_asks asks.old.items ++ job_values options.now) }
{
    put(
        asks,
        &[
            Ask::Good {
                member: "speed",
                ok: is_just(0, options.speed),
            },
            Ask::Good {
                member: "auto-finalize",
                ok: is_true(options.auto_finalize),
            },
            Ask::Good {
                member: "auto-dismiss",
                ok: is_true(options.auto_dismiss),
            },
        ],
    )
}

pub(crate) fn stream_nodes(c: &Stream) -> JobNodes<&str>
    ensures { seen_nodes result ≡ stream_nodes (seen_stream c.now) }
{
    JobNodes::Stream {
        device: c.device.as_str(),
        base: maybe(&c.base_node),
    }
}

fn put_stream_names<'x>(asks: &mut Asks<'x>, c: &'x Stream) -> Result<(), NoMemory>
    ensures { OnOk result (seen_asks asks.new.items
        ≡ seen_asks asks.old.items ++ stream_names (seen_stream c.now)) }
{
    put(
        asks,
        &[
            Ask::Named {
                member: "job-id",
                text: Some(c.job_id.as_str()),
            },
            Ask::Named {
                member: "device",
                text: Some(c.device.as_str()),
            },
            Ask::Named {
                member: "base-node",
                text: maybe(&c.base_node),
            },
            Ask::FileNamed {
                member: "backing-file",
                text: maybe(&c.backing_file),
            },
        ],
    )
}

fn put_stream_rest<'x>(asks: &mut Asks<'x>, c: &'x Stream) -> Result<(), NoMemory>
    ensures { OnOk result (seen_asks asks.new.items
        ≡ seen_asks asks.old.items ++ stream_rest (seen_stream c.now)) }
{
    let device = c.device.as_str();
    put(
        asks,
        &[
            Ask::Found(Some(device)),
            Ask::Found(maybe(&c.base_node)),
            Ask::FreshJob(c.job_id.as_str()),
            Ask::RoomForJob,
            Ask::Drives {
                node: Some(device),
                which: Drivers::Qcow2,
            },
            Ask::Drives {
                node: maybe(&c.base_node),
                which: Drivers::FileRawOrQcow2,
            },
            Ask::Settled(Some(device)),
            Ask::Free(stream_nodes(c)),
            Ask::Writable(device),
            Ask::InChain(stream_nodes(c)),
        ],
    )
}

/// What `block-stream` asks.
#[tactic(auto, using(std::proofs::lemmas::List::append_assoc))]
pub(crate) fn put_stream<'x>(asks: &mut Asks<'x>, c: &'x Stream) -> Result<(), NoMemory>
    ensures { OnOk result
        (seen_asks asks.new.items ≡ seen_asks asks.old.items ++ stream_asks (seen_stream c.now)) }
{
    put(asks, &[on_error_value("on-error", c.on_error)])?;
    put_job_values(asks, &c.options)?;
    put_stream_names(asks, c)?;
    put_stream_rest(asks, c)
}

pub(crate) fn commit_nodes(c: &Commit) -> JobNodes<&str>
    ensures { seen_nodes result ≡ commit_nodes (seen_commit c.now) }
{
    JobNodes::Commit {
        device: c.device.as_str(),
        base: maybe(&c.base_node),
        top: maybe(&c.top_node),
    }
}

fn put_commit_names<'x>(asks: &mut Asks<'x>, c: &'x Commit) -> Result<(), NoMemory>
    ensures { OnOk result (seen_asks asks.new.items
        ≡ seen_asks asks.old.items ++ commit_names (seen_commit c.now)) }
{
    put(
        asks,
        &[
            Ask::Named {
                member: "job-id",
                text: Some(c.job_id.as_str()),
            },
            Ask::Named {
                member: "device",
                text: Some(c.device.as_str()),
            },
            Ask::Named {
                member: "base-node",
                text: maybe(&c.base_node),
            },
            Ask::Named {
                member: "top-node",
                text: maybe(&c.top_node),
            },
            Ask::FileNamed {
                member: "backing-file",
                text: maybe(&c.backing_file),
            },
        ],
    )
}

fn put_commit_rest<'x>(asks: &mut Asks<'x>, c: &'x Commit) -> Result<(), NoMemory>
    ensures { OnOk result (seen_asks asks.new.items
        ≡ seen_asks asks.old.items ++ commit_rest (seen_commit c.now)) }
{
    let device = c.device.as_str();
    put(
        asks,
        &[
            Ask::Found(Some(device)),
            Ask::Found(maybe(&c.base_node)),
            Ask::Found(maybe(&c.top_node)),
            Ask::FreshJob(c.job_id.as_str()),
            Ask::RoomForNodes(1),
            Ask::RoomForJob,
            Ask::Drives {
                node: Some(device),
                which: Drivers::Qcow2,
            },
            Ask::Drives {
                node: maybe(&c.base_node),
                which: Drivers::FileRawOrQcow2,
            },
            Ask::Drives {
                node: maybe(&c.top_node),
                which: Drivers::Qcow2,
            },
            Ask::Settled(Some(device)),
            Ask::Settled(maybe(&c.top_node)),
            Ask::Free(commit_nodes(c)),
            Ask::InChain(commit_nodes(c)),
            Ask::EqualSizes(commit_nodes(c)),
            Ask::Clear(commit_nodes(c)),
        ],
    )
}

/// What `block-commit` asks.
#[tactic(auto, using(std::proofs::lemmas::List::append_assoc))]
pub(crate) fn put_commit<'x>(asks: &mut Asks<'x>, c: &'x Commit) -> Result<(), NoMemory>
    ensures { OnOk result
        (seen_asks asks.new.items ≡ seen_asks asks.old.items ++ commit_asks (seen_commit c.now)) }
{
    put(asks, &[on_error_value("on-error", c.on_error)])?;
    put_job_values(asks, &c.options)?;
    put_commit_names(asks, c)?;
    put_commit_rest(asks, c)
}

fn is_other(target: &str, device: &str) -> bool
    ensures { result ≡ is_other target.now device.now }
{
    target != device
}

fn put_mirror_choices<'x>(asks: &mut Asks<'x>, c: &'x Mirror) -> Result<(), NoMemory>
    ensures { OnOk result (seen_asks asks.new.items
        ≡ seen_asks asks.old.items ++ mirror_choices (seen_mirror c.now)) }
{
    put(
        asks,
        &[
            Ask::Good {
                member: "target",
                ok: is_other(c.target.as_str(), c.device.as_str()),
            },
            Ask::Good {
                member: "sync",
                ok: is_full(c.sync),
            },
            Ask::Good {
                member: "copy-mode",
                ok: is_copy_mode(c.copy_mode),
            },
            on_error_value("on-source-error", c.on_source_error),
            on_error_value("on-target-error", c.on_target_error),
        ],
    )
}

#[tactic(auto, using(std::proofs::lemmas::List::append_assoc))]
fn put_mirror_values<'x>(asks: &mut Asks<'x>, c: &'x Mirror) -> Result<(), NoMemory>
    ensures { OnOk result (seen_asks asks.new.items
        ≡ seen_asks asks.old.items ++ mirror_values (seen_mirror c.now)) }
{
    put_mirror_choices(asks, c)?;
    put_job_values(asks, &c.options)
}

fn put_mirror_names<'x>(asks: &mut Asks<'x>, c: &'x Mirror) -> Result<(), NoMemory>
    ensures { OnOk result (seen_asks asks.new.items
        ≡ seen_asks asks.old.items ++ mirror_names (seen_mirror c.now)) }
{
    put(
        asks,
        &[
            Ask::Named {
                member: "job-id",
                text: Some(c.job_id.as_str()),
            },
            Ask::Named {
                member: "device",
                text: Some(c.device.as_str()),
            },
            Ask::Named {
                member: "target",
                text: Some(c.target.as_str()),
            },
        ],
    )
}

fn put_mirror_rest<'x>(asks: &mut Asks<'x>, c: &'x Mirror) -> Result<(), NoMemory>
    ensures { OnOk result (seen_asks asks.new.items
        ≡ seen_asks asks.old.items ++ mirror_rest (seen_mirror c.now)) }
{
    let device = c.device.as_str();
    let target = c.target.as_str();
    put(
        asks,
        &[
            Ask::Found(Some(device)),
            Ask::Found(Some(target)),
            Ask::FreshJob(c.job_id.as_str()),
            Ask::RoomForNodes(1),
            Ask::RoomForJob,
            Ask::Drives {
                node: Some(device),
                which: Drivers::FileRawOrQcow2,
            },
            Ask::Drives {
                node: Some(target),
                which: Drivers::FileRawOrQcow2,
            },
            Ask::Settled(Some(device)),
            Ask::Free(JobNodes::Copy { device, target }),
            Ask::Writable(target),
            Ask::EqualSizes(JobNodes::Copy { device, target }),
            Ask::Lone(target),
            Ask::Clear(JobNodes::Copy { device, target }),
        ],
    )
}

/// What `blockdev-mirror` asks.
#[tactic(auto, using(std::proofs::lemmas::List::append_assoc))]
pub(crate) fn put_mirror<'x>(asks: &mut Asks<'x>, c: &'x Mirror) -> Result<(), NoMemory>
    ensures { OnOk result
        (seen_asks asks.new.items ≡ seen_asks asks.old.items ++ mirror_asks (seen_mirror c.now)) }
{
    put_mirror_values(asks, c)?;
    put_mirror_names(asks, c)?;
    put_mirror_rest(asks, c)
}

fn put_backup_choices<'x>(asks: &mut Asks<'x>, c: &'x Backup) -> Result<(), NoMemory>
    ensures { OnOk result (seen_asks asks.new.items
        ≡ seen_asks asks.old.items ++ backup_choices (seen_backup c.now)) }
{
    put(
        asks,
        &[
            Ask::Good {
                member: "target",
                ok: is_other(c.target.as_str(), c.device.as_str()),
            },
            Ask::Good {
                member: "sync",
                ok: is_sync(c.sync),
            },
            Ask::Good {
                member: "bitmap",
                ok: is_bitmap_for(c.sync, &c.bitmap),
            },
            Ask::Good {
                member: "bitmap-mode",
                ok: is_mode_for(c.sync, c.bitmap_mode),
            },
            on_error_value("on-source-error", c.on_source_error),
            on_error_value("on-target-error", c.on_target_error),
        ],
    )
}

/// What `blockdev-backup` asks of the values of its members.
#[tactic(auto, using(std::proofs::lemmas::List::append_assoc))]
pub(crate) fn put_backup_values<'x>(asks: &mut Asks<'x>, c: &'x Backup) -> Result<(), NoMemory>
    ensures { OnOk result (seen_asks asks.new.items
        ≡ seen_asks asks.old.items ++ backup_values (seen_backup c.now)) }
{
    put_backup_choices(asks, c)?;
    put_job_values(asks, &c.options)
}

pub(crate) fn put_backup_names<'x>(asks: &mut Asks<'x>, c: &'x Backup) -> Result<(), NoMemory>
    ensures { OnOk result (seen_asks asks.new.items
        ≡ seen_asks asks.old.items ++ backup_names (seen_backup c.now)) }
{
    put(
        asks,
        &[
            Ask::Named {
                member: "job-id",
                text: Some(c.job_id.as_str()),
            },
            Ask::Named {
                member: "device",
                text: Some(c.device.as_str()),
            },
            Ask::Named {
                member: "target",
                text: Some(c.target.as_str()),
            },
            Ask::Named {
                member: "bitmap",
                text: maybe(&c.bitmap),
            },
        ],
    )
}

pub(crate) fn put_backup_rest<'x>(asks: &mut Asks<'x>, c: &'x Backup) -> Result<(), NoMemory>
    ensures { OnOk result (seen_asks asks.new.items
        ≡ seen_asks asks.old.items ++ backup_rest (seen_backup c.now)) }
{
    let device = c.device.as_str();
    let target = c.target.as_str();
    put(
        asks,
        &[
            Ask::Found(Some(device)),
            Ask::Found(Some(target)),
            Ask::BitmapFound {
                node: device,
                name: maybe(&c.bitmap),
            },
            Ask::FreshJob(c.job_id.as_str()),
            Ask::RoomForNodes(1),
            Ask::RoomForJob,
            Ask::Drives {
                node: Some(device),
                which: Drivers::FileRawOrQcow2,
            },
            Ask::Drives {
                node: Some(target),
                which: Drivers::FileRawOrQcow2,
            },
            Ask::Settled(Some(device)),
            Ask::Free(JobNodes::Copy { device, target }),
            Ask::BitmapFree {
                node: device,
                name: maybe(&c.bitmap),
            },
            Ask::Writable(target),
            Ask::EqualSizes(JobNodes::Copy { device, target }),
            Ask::Lone(target),
            Ask::Clear(JobNodes::Copy { device, target }),
        ],
    )
}

/// What `block-job-cancel` asks.
pub(crate) fn put_cancel<'x>(asks: &mut Asks<'x>, job: &'x str) -> Result<(), NoMemory>
    ensures { OnOk result
        (seen_asks asks.new.items ≡ seen_asks asks.old.items ++ cancel_asks job.now) }
{
    put(
        asks,
        &[
            Ask::Named {
                member: "device",
                text: Some(job),
            },
            Ask::JobFound(job),
        ],
    )
}

/// What `block-job-complete` asks.
pub(crate) fn put_complete<'x>(asks: &mut Asks<'x>, job: &'x str) -> Result<(), NoMemory>
    ensures { OnOk result
        (seen_asks asks.new.items ≡ seen_asks asks.old.items ++ complete_asks job.now) }
{
    put(
        asks,
        &[
            Ask::Named {
                member: "device",
                text: Some(job),
            },
            Ask::JobFound(job),
            Ask::JobReady(job),
        ],
    )
}
