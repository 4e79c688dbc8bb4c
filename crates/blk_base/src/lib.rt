//! What everything stands on: spans and their pieces, texts, faults, and the traits of the outside
//! (a device, a store of files, a sink).
#![tactic(auto)]

mod device;
mod fault;
mod file;
mod memory;
mod names;
mod sink;
mod span;
mod store;
mod text;
mod writing;

pub use device::{DevFault, Device, DeviceCall, Stop, WriteStop};
pub use fault::{DevNo, DevStop, Fault, FaultAt, FaultFrom, Outcome};
pub use file::{CallOnFile, File, Opened};
pub use memory::{NoMemory, Room};
pub use names::Names1;
pub use sink::{Sink, SinkFault};
pub use span::{PIECE, Span, piece_at, piece_count};
pub use store::{Store, StoreCall, StoreStop};
pub use text::{Bytes, Text};
pub use writing::write;
