//! The sectors of a block that are asked for.
ghost use Rattle.std.specs.Prelude.{◌≡◌, ◌+◌, ◌-◌, ◌<◌, ◌≤◌, ℕ, true, false, [], ◌∷◌, MatchOption};
ghost use Rattle.node_copies.specs.Sectors.{has_sector, runs_from};

/// The sectors `from..to` of a block.
#[derive(Clone, Copy, Debug)]
pub(crate) struct Run {
    pub from: u32,
    pub to: u32,
}

/// Whether a sector is asked for: whether its bit is set.
fn has_sector(sectors: u128, sector: u32) -> bool
    requires { sector < 128 }
    ensures { result ≡ has_sector sectors sector }
{
    (sectors >> sector) & 1 == 1
}

/// The first sector from one on that is asked for, of those below a count; or the count.
fn first_asked(sectors: u128, from: u32, count: u32) -> u32
    requires from { from ≤ count }
    requires count { count ≤ 128 }
    ensures from { from ≤ result }
    ensures most { result ≤ count }
    ensures asked { result < count → has_sector sectors result ≡ true }
    ensures before { (i : ℕ) → from ≤ i → i < result → has_sector sectors i ≡ false }
{
    for i in from..count {
        if has_sector(sectors, i) {
            return i;
        }
    }
    count
}

/// The first sector from one on that isn't asked for, of those below a count; or the count.
fn first_unasked(sectors: u128, from: u32, count: u32) -> u32
    requires from { from ≤ count }
    requires count { count ≤ 128 }
    ensures from { from ≤ result }
    ensures most { result ≤ count }
    ensures unasked { result < count → has_sector sectors result ≡ false }
    ensures before { (i : ℕ) → from ≤ i → i < result → has_sector sectors i ≡ true }
{
    for i in from..count {
        if !has_sector(sectors, i) {
            return i;
        }
    }
    count
}

/// The first run of sectors from one on that are asked for, of those below a count.
pub(crate) fn next_run(sectors: u128, from: u32, count: u32) -> Option<Run>
    requires from { from ≤ count }
    requires count { count ≤ 128 }
    ensures { MatchOption result (runs_from (count - from) sectors from ≡ [])
        (λ run. (from ≤ run.from) × (run.from < run.to) × (run.to ≤ count)
        × (runs_from (count - from) sectors from
        ≡ run ∷ runs_from (count - run.to) sectors run.to)) }
{
    let first = first_asked(sectors, from, count);
    if first == count {
        return None;
    }
    let to = first_unasked(sectors, first, count);
    Some(Run { from: first, to })
}
