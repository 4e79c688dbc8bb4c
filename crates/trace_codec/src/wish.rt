//! What a line of a trace says that may wait.

use crate::op::Op;

/// A request, or a wait for the answer to a line of the script.
#[derive(Debug, Drop)]
pub enum Wish {
    /// The guest asks for this.
    Ask(Op),
    /// The script's line of this number has to be answered first.
    Wait(u32),
}
