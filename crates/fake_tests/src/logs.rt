//! What devices in memory logged.

use blk_fakes::MemDevice;

/// A write of the log: its offset and its bytes.
pub(crate) fn logged(dev: &MemDevice, k: u64) -> Option<(u64, &[u8])> {
    match dev.logged() {
        Some(count) if k < count => Some(dev.log_at(k)),
        _ => None,
    }
}

/// Whether these are all the writes of the log: where each is, and its length.
pub(crate) fn wrote(dev: &MemDevice, writes: &[(u64, usize)]) -> bool {
    for (k, (at, len)) in (0..).zip(writes) {
        match logged(dev, k) {
            Some((off, bytes)) if off == *at && bytes.len() == *len => {}
            _ => return false,
        }
    }
    dev.logged() == Some(writes.len() as u64)
}
