//! The words of a run's guests.
ghost use Rattle.std.specs.Prelude.{◌≡◌, ◌==◌, ◌<◌, bytes_eq, map, length, MatchOption};
ghost use Rattle.std.specs.List.{list_any, list_all, position_or_len, before_first, after_first};
ghost use Rattle.qblk_words.specs.Words.{texts_in, is_guest_name, is_inner_name, is_player, player_of, player_names, are_players, all_differ};

use blk_base::Text;
use trace_codec::is_name;

/// Whether a part of a word names a file: 1 to 1,023 bytes without a zero byte.
fn is_inner_name(name: &str) -> bool
    ensures { result ≡ is_inner_name name.now }
{
    let bytes = name.as_bytes();
    !bytes.is_empty() && bytes.len() < 1024 && !bytes.contains(&0)
}

/// The parts of a word at its first `=`, where it has one.
fn parts_of(word: &str) -> Option<(&str, &str)>
    ensures { MatchOption result (position_or_len (λ b. b == 61) word.now ≡ length word.now)
        (λ p. (position_or_len (λ b. b == 61) word.now < length word.now)
        × (p.0.now ≡ before_first (λ b. b == 61) word.now)
        × (p.1.now ≡ after_first (λ b. b == 61) word.now)) }
{
    word.split_once('=')
}

/// A guest's name and the file of its trace, by a word.
pub fn player_of(word: &str) -> (&str, &str)
    ensures name { result.0.now ≡ (player_of word.now).name }
    ensures trace { result.1.now ≡ (player_of word.now).trace }
{
    match parts_of(word) {
        Some(parts) => parts,
        None => (word, ""),
    }
}

/// Whether a guest may be called so. The end of one called `script` would read as the script's.
fn is_guest_name(name: &str) -> bool
    ensures { result ≡ is_guest_name name.now }
{
    is_name(name.as_bytes()) && name != "script"
}

/// Whether a word is `GUEST=TRACE`.
fn is_player(word: &str) -> bool
    ensures { result ≡ is_player word.now }
{
    let (name, trace) = player_of(word);
    name.len() < word.len() && is_guest_name(name) && is_inner_name(trace)
}

/// Whether the words name guests of different names.
fn all_differ(words: &[Text]) -> bool
    ensures { result ≡ all_differ (player_names (map player_of (texts_in words.now))) }
{
    let mut rest = words;
    while let [word, others @ ..] = rest {
        if is_among(word, others) {
            return false;
        }
        rest = others;
    }
    true
}

/// Whether one of the words names the guest that a word names.
fn is_among(word: &Text, words: &[Text]) -> bool
    ensures { result ≡ list_any (λ w. bytes_eq (player_of word.now.bytes).name
        (player_of w.bytes).name) words.now }
{
    let (name, _) = player_of(word.as_str());
    words.iter().any(|word| name == player_of(word.as_str()).0)
}

/// Whether each word is a guest with its trace.
fn all_players(words: &[Text]) -> bool
    ensures { result ≡ list_all (λ w. is_player w.bytes) words.now }
{
    words.iter().all(|word| is_player(word.as_str()))
}

/// Whether the words are at most 16 guests with their traces, of different names.
pub(crate) fn are_players(words: &[Text]) -> bool
    ensures { result ≡ are_players (texts_in words.now) }
{
    if words.len() > 16 {
        return false;
    }
    if !all_players(words) {
        return false;
    }
    all_differ(words)
}
