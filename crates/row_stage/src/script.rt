//! Lines of scripts, and lines of transcripts.

use row_text::{Words, cut, first_word, same};

/// How many lines end in these bytes.
pub(crate) fn line_count(bytes: &[u8]) -> u64 {
    let mut count = 0u64;
    for byte in bytes {
        if *byte == b'\n' {
            count = count.saturating_add(1);
        }
    }
    count
}

/// Classes as words begin with them, and as replies have them.
const CLASSES: [(&str, &str); 3] = [
    ("CommandNotFound:", "CommandNotFound"),
    ("DeviceNotFound:", "DeviceNotFound"),
    ("DeviceNotActive:", "DeviceNotActive"),
];

/// The class of a refusal and its text: that which stands before a colon, or GenericError.
fn class_of(words: &str) -> (&str, &str) {
    let (first, text) = first_word(words);
    for (begins, class) in &CLASSES {
        if same(first, *begins) {
            return (*class, text);
        }
    }
    ("GenericError", words)
}

/// Puts why a line is refused.
fn put_refusal(out: &mut Words, words: &str) {
    let (class, text) = class_of(words);
    out.put("{\"error\":{\"class\":\"");
    out.put(class);
    out.put("\",\"desc\":\"");
    out.put(text);
    out.line("\"}}");
}

/// Puts the line of a reply: `ok` stands for nothing, a list for itself, and all other words for why a line is refused.
pub(crate) fn put_reply(out: &mut Words, number: u64, words: &str) {
    out.fill("reply % ", &[number]);
    if same(words, "ok") {
        out.line("{\"return\":{}}");
    } else if words.starts_with('[') {
        out.put("{\"return\":");
        out.put(words);
        out.line("}");
    } else {
        put_refusal(out, words);
    }
}

/// Puts what a line of a request begins with.
fn put_head(out: &mut Words, what: &str, guest: &str, number: u64) {
    out.put(what);
    out.put(guest);
    out.fill(" %", &[number]);
}

/// Puts the lines of a request's pieces.
fn put_pieces(out: &mut Words, guest: &str, number: u64, pieces: &str) {
    let mut rest = pieces;
    for place in 0..pieces.len() {
        if rest.is_empty() {
            return;
        }
        let (piece, more) = cut(rest, ", ");
        put_head(out, "piece ", guest, number);
        out.fill(" % ", &[place as u64]);
        out.line(piece);
        rest = more;
    }
}

/// Puts the lines of a request of that number, `GUEST WORDS : PIECE, PIECE`: it is admitted, its pieces go so, and it is retired.
pub(crate) fn put_request(out: &mut Words, words: &str, number: u64) {
    let (guest, words) = first_word(words);
    let (request, pieces) = cut(words, " : ");
    put_head(out, "admit ", guest, number);
    out.put(" ");
    out.line(request.trim_ascii());
    put_pieces(out, guest, number, pieces);
    put_head(out, "retire ", guest, number);
    out.line("");
}
