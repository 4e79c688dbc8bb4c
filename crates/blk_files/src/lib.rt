//! Real files and standard output as devices, a store and a sink. What they hold is not told: other programs may change
//! it. They are the edge that is trusted.
#![tactic(auto)]

mod access;
mod device;
mod failure;
mod opening;
mod qemu_locks;
mod said;
mod sink;
mod store;

pub use device::FileDevice;
pub use failure::Failure;
pub use said::{print_failure, print_line};
pub use sink::OutSink;
pub use store::{FileStore, read_again};
