//! Devices, a store and a sink in memory: they tell what they hold, and fail where a list says so, or never.
#![tactic(auto)]

mod bytes;
mod calls;
mod device;
mod disk;
mod log;
mod shelf;
mod sink;
mod store;
mod sure_device;
mod sure_store;

pub use calls::FailAt;
pub use device::MemDevice;
pub use sink::MemSink;
pub use store::MemStore;
pub use sure_device::SureDevice;
pub use sure_store::SureStore;
