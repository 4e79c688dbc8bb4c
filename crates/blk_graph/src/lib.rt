//! The block graph: nodes by name, and what each parent (a node, a guest or a job) asks of a node and lets
//! others ask of it.
#![tactic(auto)]

mod cycle;
mod edge;
mod edit;
mod graph;
mod ids;
mod judge;
mod kind;
mod list;
mod names;
mod refresh;
mod rule;
mod stop;
mod uses;
mod walk;

pub use edge::{
    Conflict, Edge, MOST_GUESTS, MOST_JOBS, MOST_NODES, NodeId, Parent, Perm, Perms, Role, Uses,
};
pub use graph::Graph;
pub use ids::free_id;
pub use kind::{JobUse, Kind, NO_KIND, NodeKind};
pub use list::{EdgeList, MOST_EDGES};
pub use stop::GraphStop;
