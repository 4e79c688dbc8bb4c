//! The entries of the refcount table, and which are refused.
ghost use Rattle.std.specs.Prelude.{◌≡◌, ◌+◌, ◌^◌, ◌<◌, ◌≤◌, None, IfErr};
ghost use Rattle.std.specs.Option.{option_map};
ghost use Rattle.q2_format.specs.Entry.{block_offset, has_reserved_in_refcount_table};
ghost use Rattle.q2_format.specs.Header.{refusal_in};
ghost use Rattle.q2_format.specs.Sound.{bad_block, is_misplaced, reserved_in_refcount_table};
ghost use Rattle.q2_refs.specs.Loading.{fault_in_refs, words_refusal};

use crate::stop::RefsStop;

/// The offset of the block that an entry names, 0 for none. Bits 0 to 8 are reserved.
pub(crate) fn block_offset(word: u64) -> u64
    ensures { result ≡ block_offset word }
{
    word / 512 * 512
}

fn has_reserved(word: u64) -> bool
    ensures { result ≡ has_reserved_in_refcount_table word }
{
    word % 512 != 0
}

/// Whether an offset isn't a multiple of the cluster size or isn't below the file's length.
pub(crate) fn is_misplaced(c: u64, len: u64, offset: u64) -> bool
    requires { 0 < c }
    ensures { result ≡ is_misplaced c len offset }
{
    offset % c != 0 || offset >= len
}

/// The offset of the first block that isn't in its place.
#[tactic(auto, using(q2_format::proofs::Firsts::none_lowest, q2_format::proofs::Firsts::lowest_at), unfolding(q2_format::specs::Sound::bad_block))]
fn first_misplaced(table: &[u64], c: u64, len: u64) -> Option<u64>
    requires { 0 < c }
    ensures { result ≡ bad_block c len table.now }
{
    for word in table {
        let offset = block_offset(*word);
        if is_misplaced(c, len, offset) {
            return Some(offset);
        }
    }
    None
}

/// The index of the first entry that has a reserved bit.
#[tactic(auto, using(q2_format::proofs::Firsts::none_lowest, q2_format::proofs::Firsts::lowest_at), unfolding(q2_format::specs::Sound::reserved_in_refcount_table))]
fn first_reserved(table: &[u64]) -> Option<u64>
    ensures { result ≡ reserved_in_refcount_table table.now }
{
    for (index, word) in table.iter().enumerate() {
        if has_reserved(*word) {
            return Some(index as u64);
        }
    }
    None
}

/// Refuses a table that names a block outside its place, and then one that has a reserved bit.
pub(crate) fn check_words(table: &[u64], c: u64, len: u64) -> Result<(), RefsStop>
    requires { 0 < c }
    ensures refused { refusal_in result ≡ words_refusal c len table.now }
    ensures quiet { IfErr result (λ stop. fault_in_refs stop ≡ None) }
{
    if let Some(offset) = first_misplaced(table, c, len) {
        return Err(RefsStop::Offset(offset));
    }
    if let Some(index) = first_reserved(table) {
        return Err(RefsStop::Reserved { index });
    }
    Ok(())
}
