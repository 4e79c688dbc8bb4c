//! What the entries of jobs in a history do to nodes, files and images: starts, readiness and ends.
#![tactic(auto)]

mod laws;
