//! Spans of bytes and their pieces.
ghost use Rattle.std.specs.Prelude.{◌≡◌, ◌<◌};
ghost use Rattle.blk_base.specs.Pieces.{count_of_pieces, piece_of};

use std::marker::Model;

/// How many bytes a block has. Pieces of requests are cut at its multiples.
pub const PIECE: u64 = 65536;

/// The bytes from `start` on, `len` of them; they end at 2^63 at the latest.
#[derive(Clone, Copy, Debug, PartialEq, Eq)]
pub struct Span {
    pub start: u64,
    pub len: u64,
}

impl Model for Span {
    ghost use Rattle.std.specs.Prelude.{◌+◌, ◌≤◌};
    ghost use Rattle.blk_base.specs.Pieces.{Extent};

    ghost Value = { Extent };

    ghost view = { λ s. record { start = s.start; len = s.len } };

    ghost invariant = { λ s. s.start + s.len ≤ 9223372036854775808 };

    ghost inverse = { λ e. record { start = e.start; len = e.len } };
}

/// The number of pieces: 0 for an empty span.
#[tactic(auto, unfolding(crate::specs::Pieces::count_of_pieces))]
pub fn piece_count(span: Span) -> u64
    ensures { result ≡ count_of_pieces span }
{
    if span.len == 0 {
        0
    } else {
        (span.start + span.len - 1) / PIECE + 1 - span.start / PIECE
    }
}

/// Piece `k`, counted from 0.
#[tactic(auto, unfolding(crate::specs::Pieces::count_of_pieces, crate::specs::Pieces::piece_of))]
pub fn piece_at(span: Span, k: u64) -> Span
    requires { k < count_of_pieces span }
    ensures { result ≡ piece_of span k }
{
    let block = (span.start / PIECE + k) * PIECE;
    let from = span.start.max(block);
    let to = (span.start + span.len).min(block + PIECE);
    Span {
        start: from,
        len: to - from,
    }
}
