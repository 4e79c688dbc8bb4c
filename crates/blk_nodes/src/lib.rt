//! The nodes of the block graph with their devices: what each reads as, down its chain of backing nodes and filters.
#![tactic(auto)]

mod adding;
mod backing;
mod cluster;
mod copying;
mod devices;
mod found;
mod handing;
mod laws;
mod nodes;
mod opening;
mod part;
mod parts;
mod row;
mod source;
mod stop;
mod zeros;

pub use backing::Backing;
pub use handing::DevicesLeft;
pub use laws::base_leaves_top;
pub use nodes::{NodeUse, Nodes};
pub use row::FilterKind;
pub use stop::{AddStop, FormatStop};
