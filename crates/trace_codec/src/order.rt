//! A line of a script that isn't passed over.

use crate::awaiting::Await;
use blk_base::Text;

/// A line of a script that isn't passed over, by its number.
#[derive(Debug, Drop)]
pub enum Order<T = Text> {
    /// A command, as it is given.
    Give(u32, T),
    /// A wait.
    Watch(u32, Await<T>),
}
