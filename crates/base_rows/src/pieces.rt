//! Pieces of spans.

use blk_base::{Span, piece_at, piece_count};
use row_text::{Row, RowStop, Words};

/// A span ends here at the latest: at 2^63.
const END: u64 = 9_223_372_036_854_775_808;

/// `pieces START LENGTH`: those of the span, each by its start and its length.
pub(crate) fn pieces(row: &Row, out: &mut Words) -> Result<(), RowStop> {
    let (start, len) = (row.number(0)?, row.number(1)?);
    if start > END || len > END - start {
        return Err(RowStop::Number);
    }
    let span = Span { start, len };
    for k in 0..piece_count(span) {
        let piece = piece_at(span, k);
        out.put(if k == 0 { "" } else { " " });
        out.fill("%+%", &[piece.start, piece.len]);
    }
    Ok(())
}
