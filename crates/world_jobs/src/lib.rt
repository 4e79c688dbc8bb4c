//! What backups and mirrors do to the parts of a run's world: they begin, copy in their turns, a backup also before guests write, a mirror
//! again what they wrote, get ready, and end.
#![tactic(auto)]

mod draining;
mod end_laws;
mod filtering;
mod new_job;
mod plan;
mod ready;
mod running;
mod start;
mod start_laws;
mod starting;
mod turned;

pub use draining::drain_for;
pub use new_job::NewJob;
pub use plan::{CopyPlan, plan_of};
pub use ready::get_ready;
pub use running::RunningJobs;
pub use start::Started;
pub use starting::carry_start;
pub use turned::{Turn, Turned};
