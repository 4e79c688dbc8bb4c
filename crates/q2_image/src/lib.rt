//! One qcow2 image over its device: opened, read and written.
#![tactic(auto)]

mod autoclear;
mod backing_name;
mod changing;
mod counting;
mod create;
mod fitting;
mod header;
mod image;
mod load;
mod naming;
mod opening;
mod seen;
mod stop;
mod writing;

pub use create::{CreateStop, create_image};
pub use image::Image;
pub use opening::open_image;
pub use stop::ImageStop;
