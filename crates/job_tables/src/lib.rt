//! What holds of the table while jobs run, and that no end of a job breaks the rule on permissions or makes a cycle.
#![tactic(auto)]

mod laws;
