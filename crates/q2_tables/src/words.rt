//! The words of L1 and L2 entries, by their bits.
ghost use Rattle.std.specs.Prelude.{◌≡◌, ◌+◌, ◌^◌, ◌<◌};
ghost use Rattle.q2_format.specs.Entry.{bits_of, host_offset, is_compressed, has_reserved_in_l1, has_reserved_in_l2};
ghost use Rattle.q2_format.specs.References.{own_offset};

/// The bytes of an entry of a table.
pub(crate) const ENTRY: usize = 8;

/// The number in `count` bits of a word, from bit `first` on.
#[tactic(auto, using(q2_format::proofs::Words::masked))]
fn bits_of(word: u64, first: u32, count: u32) -> u64
    requires { first + count < 64 }
    ensures { result ≡ bits_of word first count }
{
    (word >> first) & ((1 << count) - 1)
}

/// The offset that an entry names: of an L2 table, or of a host cluster.
pub(crate) fn offset_in(word: u64) -> u64
    ensures offset { result ≡ host_offset word }
    ensures small { result < 2 ^ 56 }
{
    bits_of(word, 9, 47) * 512
}

/// The host offset of an L2 entry, 0 where the cluster is compressed.
pub(crate) fn own_offset(word: u64) -> u64
    ensures { result ≡ own_offset word }
{
    if is_compressed(word) {
        0
    } else {
        offset_in(word)
    }
}

pub(crate) fn is_compressed(word: u64) -> bool
    ensures { result ≡ is_compressed word }
{
    bits_of(word, 62, 1) == 1
}

pub(crate) fn has_reserved_in_l1(word: u64) -> bool
    ensures { result ≡ has_reserved_in_l1 word }
{
    bits_of(word, 0, 9) != 0 || bits_of(word, 56, 7) != 0
}

pub(crate) fn has_reserved_in_l2(word: u64) -> bool
    ensures { result ≡ has_reserved_in_l2 word }
{
    bits_of(word, 1, 8) != 0 || bits_of(word, 56, 6) != 0
}
