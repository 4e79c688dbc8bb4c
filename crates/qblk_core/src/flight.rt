//! A request in flight.

/// Which entry of the history admitted it, its next piece, and whether one before that wasn't good.
#[derive(Clone, Copy, Debug)]
pub struct InFlight {
    pub place: u64,
    pub next: u32,
    pub is_stopped: bool,
}
