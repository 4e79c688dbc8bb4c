//! A job that is ready.
ghost use Rattle.std.specs.Prelude.{◌≡◌, ◌≤◌};
ghost use Rattle.blk_history.specs.declared.event.Event.{Event};
ghost use Rattle.qmp_rules.specs.Changes.{changed};
ghost use Rattle.qmp_rules.specs.declared.change.Change.{Change};
ghost use Rattle.world_parts.specs.Progress.{with_job_entry};

use qmp_rules::Names;
use world_parts::Progress;

/// A job is ready from now on, and that is noted. Takes no memory.
pub fn get_ready(names: &mut Names, progress: &mut Progress, job: u32)
    requires { 1 ≤ progress.old.aside }
    ensures table { names.new.table ≡ changed names.old.table (Change.ReadyJob job) }
    ensures progress { progress.new ≡ with_job_entry 1 (Event.Ready job) progress.old }
{
    names.get_ready(job);
    progress.ready(job);
}
