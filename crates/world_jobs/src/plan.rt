//! What a command copies that starts a backup or a mirror.
ghost use Rattle.std.specs.Prelude.{◌≡◌, option_map, string_bytes};
ghost use Rattle.job_commands.specs.Begun.{OfBackup, OfMirror};
ghost use Rattle.qmp_asks.specs.Seen.{seen_text};
ghost use Rattle.qmp_codec.specs.Commands.{seen_command};
ghost use Rattle.qmp_codec.specs.Jobs.{seen_backup, seen_mirror};
ghost use Rattle.world_jobs.specs.Plans.{IsPlanOf, copy_of, plan_of, seen_plan};

use qmp_codec::{Backup, Command, JobKind, Mirror};

/// What is copied, as far as backups and mirrors are alike: a mirror copies by no bitmap.
#[derive(Clone, Copy)]
pub struct CopyPlan<'x> {
    pub kind: JobKind,
    pub job_id: &'x str,
    pub device: &'x str,
    pub target: &'x str,
    pub bitmap: Option<&'x str>,
}

fn text_of(text: &Option<String>) -> Option<&str>
    ensures { seen_text result ≡ option_map string_bytes text.now }
{
    match text {
        Some(text) => Some(text.as_str()),
        None => None,
    }
}

fn backup_plan(c: &Backup) -> CopyPlan<'_>
    ensures { seen_plan result ≡ plan_of (OfBackup (seen_backup c.now)) }
{
    CopyPlan {
        kind: JobKind::Backup,
        job_id: c.job_id.as_str(),
        device: c.device.as_str(),
        target: c.target.as_str(),
        bitmap: text_of(&c.bitmap),
    }
}

fn mirror_plan(c: &Mirror) -> CopyPlan<'_>
    ensures { seen_plan result ≡ plan_of (OfMirror (seen_mirror c.now)) }
{
    CopyPlan {
        kind: JobKind::Mirror,
        job_id: c.job_id.as_str(),
        device: c.device.as_str(),
        target: c.target.as_str(),
        bitmap: None,
    }
}

/// The plan of a command, where it starts a backup or a mirror.
pub fn plan_of(command: &Command) -> Option<CopyPlan<'_>>
    ensures { IsPlanOf (copy_of (seen_command command.now)) result }
{
    match command {
        Command::BlockdevBackup(c) => Some(backup_plan(c)),
        Command::BlockdevMirror(c) => Some(mirror_plan(c)),
        _ => None,
    }
}
