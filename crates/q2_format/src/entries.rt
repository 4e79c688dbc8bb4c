//! The entries of L2 tables.

ghost use Rattle.std.specs.Prelude.{◌≡◌, ◌+◌, ◌^◌, ◌<◌};
ghost use Rattle.q2_format.specs.Entry.{bits_of, l2_entry, is_single, has_reserved_in_l2, IsWritable, CanBeSingle, host_of, zero_flag, l2_spelling};

/// What an L2 entry says of its guest cluster. A host offset of 0 stands for none.
#[derive(Clone, Copy, Debug, PartialEq, Eq, Hash)]
pub enum L2Entry {
    /// The cluster reads from the backing file.
    Unallocated,
    /// The cluster reads as zeros, whatever stands at `host`.
    Zero { host: u64 },
    /// The cluster reads from the file at `host`.
    Host { host: u64 },
    /// The cluster is compressed.
    Compressed,
    /// A reserved bit is set.
    Reserved,
}

/// The bit of an L2 entry that says that its cluster reads as zeros.
const ZERO_FLAG: u64 = 1;

/// The bit of an L2 entry that says that the refcount of its host cluster is exactly one.
const SINGLE_FLAG: u64 = 1 << 63;

/// The number in `count` bits of a word, from bit `first` on.
#[tactic(auto, using(std::proofs::lemmas::Nat::and_mask))]
fn bits_of(word: u64, first: u32, count: u32) -> u64
    requires { first + count < 64 }
    ensures { result ≡ bits_of word first count }
{
    (word >> first) & ((1 << count) - 1)
}

fn has_reserved(word: u64) -> bool
    ensures { result ≡ has_reserved_in_l2 word }
{
    bits_of(word, 1, 8) != 0 || bits_of(word, 56, 6) != 0
}

/// What an L2 entry says. Bit 63, whether the host cluster's refcount is exactly one, is passed over.
#[tactic(auto, unfolding(crate::specs::Entry::l2_entry))]
pub fn read_l2(word: u64) -> L2Entry
    ensures { result ≡ l2_entry word }
{
    let host = bits_of(word, 9, 47) * 512;
    if bits_of(word, 62, 1) == 1 {
        L2Entry::Compressed
    } else if has_reserved(word) {
        L2Entry::Reserved
    } else if bits_of(word, 0, 1) == 1 {
        L2Entry::Zero { host }
    } else if host == 0 {
        L2Entry::Unallocated
    } else {
        L2Entry::Host { host }
    }
}

/// The word of an entry without bit 63.
fn unflagged(entry: L2Entry) -> u64
    requires { IsWritable entry }
    ensures word { result ≡ host_of entry + zero_flag entry }
    ensures fits { result < 2 ^ 57 }
{
    match entry {
        L2Entry::Unallocated => 0,
        // Bit 0 is 0 in a host offset, so adding the flag sets it.
        L2Entry::Zero { host } => host + ZERO_FLAG,
        L2Entry::Host { host } => host,
        L2Entry::Compressed | L2Entry::Reserved => unreachable!(),
    }
}

/// The word of an L2 entry that is neither compressed nor reserved. `single` says that the refcount of its
/// host cluster is exactly one.
pub fn l2_word(entry: L2Entry, single: bool) -> u64
    requires entry { IsWritable entry }
    requires single { CanBeSingle entry single }
    ensures reads_back { l2_entry result ≡ entry }
    ensures single { is_single result ≡ single }
    ensures word { result ≡ l2_spelling entry single }
{
    let word = unflagged(entry);
    if single { word + SINGLE_FLAG } else { word }
}
