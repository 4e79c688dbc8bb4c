//! What each command asks of its line, the table and the files, as data in the order of the refusals.
#![tactic(auto)]

mod ask;
mod asks;
mod bitmap_asks;
mod command_asks;
mod job_asks;
mod laws;
mod look;
mod name;
mod naming;
mod node_asks;
mod values;

pub use ask::{Ask, Drivers, JobNodes};
pub use asks::{Asks, maybe};
pub use bitmap_asks::{source_name, source_node};
pub use command_asks::asks_of;
pub use laws::asks_ascend;
pub use look::Look;
pub use name::Name;
pub use naming::{inline_name, is_file_name, is_name};
pub use node_asks::{backing_name, is_read_only};
pub use values::{
    amount_or, begins_within, ends_within, flag_or_false, part_fits, part_offset, part_size, shares,
};
