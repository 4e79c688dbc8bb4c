//! Why a graph refuses a call.

use crate::edge::{Conflict, Parent};
use std::fmt;
use thiserror::Error;

/// Why a call was refused. The graph is then as before.
#[derive(Clone, Copy, Debug, PartialEq, Eq, Error)]
pub enum GraphStop {
    /// A node has that name.
    NameTaken,
    /// A node would reach itself.
    Cycle,
    /// An edge leads to the node; the first one's parent is named.
    InUse(Parent),
    /// Two edges would break the permission rule; the first such pair is named.
    Conflict(Conflict),
    /// There are 64 nodes.
    TooManyNodes,
    /// Want of memory.
    NoMemory,
}

impl fmt::Display for GraphStop {
    ghost use Rattle.std.specs.Prelude.{Some};
    ghost use Rattle.blk_graph.specs.Stop.{stop_text};

    ghost output = { λ stop. Some (stop_text stop) };

    fn fmt<W: fmt::Write>(&self, f: &mut fmt::Formatter<W>) -> fmt::Result {
        match self {
            GraphStop::NameTaken => f.write_str("the name is taken"),
            GraphStop::Cycle => f.write_str("a node would reach itself"),
            GraphStop::InUse(_) => f.write_str("the node is in use"),
            GraphStop::Conflict(_) => f.write_str("the permissions are in conflict"),
            GraphStop::TooManyNodes => f.write_str("there are too many nodes"),
            GraphStop::NoMemory => f.write_str("out of memory"),
        }
    }
}
