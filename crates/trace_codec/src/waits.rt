//! What those wait for that a script and traces keep busy.

use blk_base::Text;

/// What the script or a guest waits for that can go no further.
#[derive(Debug, Drop)]
pub enum Waits<T = Text> {
    /// The guest's device.
    Attached,
    /// The answer to this line of the script.
    Line(u32),
    /// So many requests of the guest of this number.
    Guest { guest: u32, requests: u32 },
    /// That a job of this id is ready.
    Ready(T),
    /// That there is no job of this id.
    Ended(T),
}
