//! What the ends of jobs leave of the edges between nodes: they keep the permission rule and make no cycle.
#![tactic(auto)]

mod laws;
