//! A piece of a guest's request: its part of the request, made on a node, and what it shows.
#![tactic(auto)]

mod on_node;
mod part;

pub use on_node::transfer;
pub use part::{request_piece, request_span, shown_part};
