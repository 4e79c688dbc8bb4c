//! Traces: what a guest asks for, line by line.
#![tactic(auto)]

mod awaiting;
mod cut;
mod flaw;
mod line;
mod number;
mod op;
mod ops;
mod order;
mod payload;
mod reading;
mod script;
mod stop;
mod totals;
mod trace;
mod waits;
mod wish;
mod wishing;
mod writing;

pub use awaiting::{Await, first_await, is_name, read_await};
pub use flaw::{LineFlaw, flaw_at, flaw_of};
pub use line::TraceLine;
pub use op::{Op, Payload};
pub use ops::Ops;
pub use order::Order;
pub use script::{MAX_LINES, ScriptStop, read_script};
pub use stop::TraceStop;
pub use totals::Totals;
pub use trace::{read_trace, read_trace_after, read_wishes_after};
pub use waits::Waits;
pub use wish::Wish;
pub use writing::write_trace;
