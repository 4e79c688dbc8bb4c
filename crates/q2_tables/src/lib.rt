//! The L1 table and the L2 tables of a qcow2 image: loaded once, looked up in memory, and written entry by entry.
#![tactic(auto)]

mod check;
mod link;
mod load;
mod mapping;
mod stop;
mod tables;
mod words;

pub use load::load_tables;
pub use mapping::Mapping;
pub use stop::TablesStop;
pub use tables::Tables;
