//! What block jobs keep of their copying: the parts that are left, the copies in flight and the first fault of a mirror, backup,
//! stream or commit.
#![tactic(auto)]

mod laws;
mod parts;
mod work;

pub use work::JobWork;
