//! How far a guest is.

/// A request in flight: which entry of the history admitted it, its next piece, and whether one before that wasn't
/// good.
#[derive(Clone, Copy, Debug)]
pub(crate) struct InFlight {
    pub place: u64,
    pub next: u32,
    pub is_stopped: bool,
}

/// How many requests of a guest are done, the one in flight, and whether the guest is done.
#[derive(Clone, Copy, Debug)]
pub(crate) struct GuestProgress {
    pub done: u32,
    pub flight: Option<InFlight>,
    pub is_done: bool,
}
