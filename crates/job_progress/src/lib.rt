//! How far block jobs have come by the flat machine, and that each change, entry, piece and copy keeps it.
#![tactic(auto)]

mod laws;
