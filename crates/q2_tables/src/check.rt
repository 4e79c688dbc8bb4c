//! What is refused of the words of tables.
ghost use Rattle.std.specs.Prelude.{◌≡◌, ◌*◌, ◌<◌, ◌≤◌, not, ◌&&◌, length, position, IfErr, option_map};
ghost use Rattle.q2_format.specs.Sizes.{cluster_size, entries_in_cluster};
ghost use Rattle.q2_format.specs.Entry.{host_offset, is_compressed, has_reserved_in_l1, has_reserved_in_l2};
ghost use Rattle.q2_format.specs.Header.{refusal_in};
ghost use Rattle.q2_format.specs.References.{own_offset};
ghost use Rattle.q2_format.specs.Sound.{is_misplaced, bad_l1_table};
ghost use Rattle.q2_tables.specs.Loading.{IsTableRefusal};
ghost use Rattle.q2_tables.specs.Words.{misplaced_table, misplaced_host, reserved_in_table, reserved_in_words, compressed_in_words, refused_words};
ghost use Rattle.q2_tables.specs.declared.stop.TablesStop.TheVariants.{Offset};

use crate::stop::TablesStop;
use crate::words::{
    ENTRY, has_reserved_in_l1, has_reserved_in_l2, is_compressed, offset_in, own_offset,
};
use q2_format::Header;

/// Whether an offset isn't a multiple of the cluster size, or isn't below the file's length.
fn is_misplaced(c: u64, len: u64, offset: u64) -> bool
    requires { 0 < c }
    ensures { result ≡ is_misplaced c len offset }
{
    offset % c != 0 || offset >= len
}

/// Whether the L1 table lies in its place and has the entries that the disk needs.
#[tactic(auto, unfolding(q2_format::specs::Sound::bad_l1_table))]
pub(crate) fn check_l1_table(h: &Header, c: u64, len: u64) -> Result<(), TablesStop>
    requires size { c ≡ cluster_size h.now.cluster_bits }
    requires entries { 8 ≤ c }
    ensures refused { refusal_in result ≡ option_map Offset (bad_l1_table h.now len) }
    ensures stop { IfErr result IsTableRefusal }
{
    let needed = h.size.div_ceil(c).div_ceil(c / 8);
    if u64::from(h.l1_size) < needed || is_misplaced(c, len, h.l1_offset) {
        return Err(TablesStop::Offset(h.l1_offset));
    }
    Ok(())
}

/// The first entry of an L1 table whose L2 table isn't in its place.
fn first_misplaced_table(l1: &[u64], c: u64, len: u64) -> Option<usize>
    requires { 0 < c }
    ensures { result ≡ position (λ word. is_misplaced c len (host_offset word)) l1.now }
{
    l1.iter()
        .position(|word| is_misplaced(c, len, offset_in(*word)))
}

/// The first L2 entry whose host cluster isn't in its place.
fn first_misplaced_host(words: &[u64], c: u64, len: u64) -> Option<usize>
    requires { 0 < c }
    ensures { result ≡ position (λ word. is_misplaced c len (own_offset word)) words.now }
{
    words
        .iter()
        .position(|word| is_misplaced(c, len, own_offset(*word)))
}

fn first_reserved_in_l1(l1: &[u64]) -> Option<usize>
    ensures { result ≡ position has_reserved_in_l1 l1.now }
{
    l1.iter().position(|word| has_reserved_in_l1(*word))
}

/// The first L2 entry with a reserved bit, but for those of compressed clusters.
fn first_reserved_in_l2(words: &[u64]) -> Option<usize>
    ensures { result
        ≡ position (λ word. not (is_compressed word) && has_reserved_in_l2 word) words.now }
{
    words
        .iter()
        .position(|word| !is_compressed(*word) && has_reserved_in_l2(*word))
}

fn first_compressed(words: &[u64]) -> Option<usize>
    ensures { result ≡ position is_compressed words.now }
{
    words.iter().position(|word| is_compressed(*word))
}

/// Whether each L2 table lies in its place.
#[tactic(auto, unfolding(crate::specs::Words::misplaced_table))]
pub(crate) fn check_l2_tables(l1: &[u64], c: u64, len: u64) -> Result<(), TablesStop>
    requires { 0 < c }
    ensures refused { refusal_in result ≡ misplaced_table c len l1.now }
    ensures stop { IfErr result IsTableRefusal }
{
    match first_misplaced_table(l1, c, len) {
        Some(i) => Err(TablesStop::Offset(offset_in(l1[i]))),
        None => Ok(()),
    }
}

/// Whether each host cluster lies in its place.
#[tactic(auto, unfolding(crate::specs::Words::misplaced_host))]
fn check_hosts(words: &[u64], c: u64, len: u64) -> Result<(), TablesStop>
    requires { 0 < c }
    ensures refused { refusal_in result ≡ misplaced_host c len words.now }
    ensures stop { IfErr result IsTableRefusal }
{
    match first_misplaced_host(words, c, len) {
        Some(i) => Err(TablesStop::Offset(own_offset(words[i]))),
        None => Ok(()),
    }
}

/// Whether no entry of the L1 table has a reserved bit.
#[tactic(auto, unfolding(crate::specs::Words::reserved_in_table))]
fn check_l1_bits(l1: &[u64]) -> Result<(), TablesStop>
    ensures refused { refusal_in result ≡ reserved_in_table l1.now }
    ensures stop { IfErr result IsTableRefusal }
{
    match first_reserved_in_l1(l1) {
        Some(i) => Err(TablesStop::ReservedInL1 { index: i as u64 }),
        None => Ok(()),
    }
}

/// Whether no entry of an L2 table has a reserved bit, but for those of compressed clusters.
#[tactic(auto, unfolding(crate::specs::Words::reserved_in_words))]
fn check_l2_bits(l1: &[u64], words: &[u64], entries: usize) -> Result<(), TablesStop>
    requires some { 0 < entries }
    requires whole { length words.now ≡ length l1.now * entries }
    ensures refused { refusal_in result ≡ reserved_in_words entries l1.now words.now }
    ensures stop { IfErr result IsTableRefusal }
{
    match first_reserved_in_l2(words) {
        Some(i) => Err(TablesStop::ReservedInL2 {
            table: offset_in(l1[i / entries]),
            index: (i % entries) as u64,
        }),
        None => Ok(()),
    }
}

/// Whether no guest cluster is compressed.
#[tactic(auto, unfolding(crate::specs::Words::compressed_in_words))]
fn check_compressed(words: &[u64]) -> Result<(), TablesStop>
    ensures refused { refusal_in result ≡ compressed_in_words words.now }
    ensures stop { IfErr result IsTableRefusal }
{
    match first_compressed(words) {
        Some(i) => Err(TablesStop::Compressed(i as u64)),
        None => Ok(()),
    }
}

/// Whether the words of both kinds of tables are in order.
#[tactic(auto, unfolding(crate::specs::Words::refused_words))]
pub(crate) fn check_words(l1: &[u64], words: &[u64], c: usize, len: u64) -> Result<(), TablesStop>
    requires some { 8 ≤ c }
    requires whole { length words.now ≡ length l1.now * entries_in_cluster c }
    ensures refused { refusal_in result ≡ refused_words c len l1.now words.now }
    ensures stop { IfErr result IsTableRefusal }
{
    check_hosts(words, c as u64, len)?;
    check_l1_bits(l1)?;
    check_l2_bits(l1, words, c / ENTRY)?;
    check_compressed(words)?;
    Ok(())
}
