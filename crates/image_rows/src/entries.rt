//! Words of L2 tables.
ghost use Rattle.std.specs.Prelude.{IfOk, IfSome};
ghost use Rattle.q2_format.specs.Entry.{IsWritable};

use crate::text::put_entry;
use q2_format::{L2Entry, l2_word, read_l2};
use row_text::{Row, RowStop, Words};

/// No host cluster ends above it.
const LARGEST: u64 = 1_073_741_824;

#[derive(Clone, Copy)]
enum Kind {
    Unallocated,
    Zero,
    Host,
}

const KINDS: [(&str, Kind); 3] = [
    ("unallocated", Kind::Unallocated),
    ("zero", Kind::Zero),
    ("host", Kind::Host),
];

/// `entry WORD`: what it says.
pub(crate) fn entry(row: &Row, out: &mut Words) -> Result<(), RowStop> {
    put_entry(read_l2(row.number(0)?), out);
    Ok(())
}

/// The entry of a kind whose host cluster lies there.
fn entry_of(kind: Kind, host: u64) -> Option<L2Entry>
    ensures { IfSome result IsWritable }
{
    let is_host = 0 < host && host < LARGEST && host % 65_536 == 0;
    match kind {
        Kind::Unallocated => Some(L2Entry::Unallocated),
        Kind::Zero if is_host => Some(L2Entry::Zero { host }),
        Kind::Host if is_host => Some(L2Entry::Host { host }),
        _ => None,
    }
}

/// The word of an entry whose refcount is one, but of none.
fn word_of(kind: Kind, host: u64) -> Option<u64> {
    match entry_of(kind, host)? {
        L2Entry::Zero { host } if host > 0 => Some(l2_word(L2Entry::Zero { host }, true)),
        L2Entry::Host { host } if host > 0 => Some(l2_word(L2Entry::Host { host }, true)),
        entry => Some(l2_word(entry, false)),
    }
}

/// `word KIND HOST`: the word that says it, with a refcount of one where there is a host cluster.
pub(crate) fn word(row: &Row, out: &mut Words) -> Result<(), RowStop> {
    let kind = row.named(0, &KINDS)?;
    match word_of(kind, row.number(1)?) {
        Some(word) => out.hex(word),
        None => return Err(RowStop::Call),
    }
    Ok(())
}
