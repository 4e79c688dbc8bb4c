//! The pieces of a request, and what one shows.
ghost use Rattle.std.specs.Prelude.{◌≡◌, ◌<◌, ◌≤◌, length};
ghost use Rattle.blk_base.specs.Pieces.{count_of_pieces, piece_of, end_of};
ghost use Rattle.trace_codec.specs.Request.{pieces_of};
ghost use Rattle.q2_image.specs.Reading.{IsWithinCluster};
ghost use Rattle.blk_history.specs.Disk.{span_of, piece};
ghost use Rattle.blk_pieces.specs.Pieces.{IsPartAsked, shown_of, shows_in};

use blk_base::{Outcome, Span, piece_at};
use trace_codec::Op;

/// The bytes that a request speaks of.
pub fn request_span(op: &Op) -> Span
    ensures { result ≡ span_of op.now }
{
    match op {
        Op::Read(span) | Op::Write(span, _) | Op::Zero(span) | Op::Discard(span) => *span,
        Op::Flush => Span { start: 0, len: 0 },
    }
}

/// Piece `k` of a request.
pub fn request_piece(op: &Op, k: u64) -> Span
    requires { k < pieces_of op.now }
    ensures cut { result ≡ piece op.now k }
    ensures small { result.len ≤ 65536 }
    ensures part { IsPartAsked op.now result }
    ensures block { IsWithinCluster 65536 result }
    ensures inside { end_of result ≤ end_of (span_of op.now) }
{
    match op {
        Op::Read(span) | Op::Write(span, _) | Op::Zero(span) => small_piece(*span, k),
        Op::Flush => no_bytes(k),
        Op::Discard(_) => unreachable!(),
    }
}

/// The piece of a flush.
#[tactic(auto, unfolding(blk_base::specs::Pieces::piece_of))]
fn no_bytes(k: u64) -> Span
    requires { k < 1 }
    ensures cut { result ≡ piece_of (record { start = 0; len = 0 }) k }
    ensures empty { result ≡ record { start = 0; len = 0 } }
{
    let _ = k;
    Span { start: 0, len: 0 }
}

/// Piece `k` of a span. It lies in one block.
#[tactic(auto, unfolding(blk_base::specs::Pieces::piece_of, blk_base::specs::Pieces::count_of_pieces))]
fn small_piece(span: Span, k: u64) -> Span
    requires { k < count_of_pieces span }
    ensures cut { result ≡ piece_of span k }
    ensures small { result.len ≤ 65536 }
    ensures some { 0 < result.len }
    ensures block { IsWithinCluster 65536 result }
    ensures inside { end_of result ≤ end_of span }
{
    piece_at(span, k)
}

/// What a piece shows, of what its read left in the buffer.
pub fn shown_part<'a>(op: &Op, outcome: Outcome, buffer: &'a [u8]) -> &'a [u8]
    ensures shown { result.now ≡ shown_of op.now outcome buffer.now }
    ensures bound { length result.now ≤ shows_in op.now (length buffer.now) }
{
    match (op, outcome) {
        (Op::Read(_), Outcome::Good) => buffer,
        _ => &[],
    }
}
