//! Rows by node and name.
ghost use Rattle.std.specs.Prelude.{◌≡◌, ◌<◌, length, position, MatchOption, IfOk, IsOk, Err, option_copied, None, Some};
ghost use Rattle.blk_bitmaps.specs.Rows.{is_named};
ghost use Rattle.blk_bitmaps.specs.Refusals.{find, use_refusal};

use crate::row::Bitmap;
use crate::stop::BitmapStop;
use blk_graph::NodeId;

/// The place of a row.
pub(crate) fn place_of(rows: &[Bitmap], node: NodeId, name: &str) -> Option<usize>
    ensures { result ≡ position (is_named node name.now) rows.now }
{
    rows.iter().position(|row| row.is_named(node, name))
}

/// The row of a name.
pub(crate) fn find<'a>(rows: &'a [Bitmap], node: NodeId, name: &str) -> Option<&'a Bitmap>
    ensures { option_copied result ≡ find rows.now node name.now }
{
    let place = place_of(rows, node, name)?;
    Some(&rows[place])
}

/// The place of a row that no job uses.
pub(crate) fn free_place(rows: &[Bitmap], node: NodeId, name: &str) -> Result<usize, BitmapStop>
    ensures answer { MatchOption (use_refusal (find rows.now node name.now)) (IsOk result)
        (λ stop. result ≡ Err stop) }
    ensures place { IfOk result (λ place. position (is_named node name.now) rows.now ≡ Some place) }
    ensures within { IfOk result (λ place. place < length rows.now) }
{
    match place_of(rows, node, name) {
        None => Err(BitmapStop::NotFound),
        Some(place) => match rows[place].busy {
            Some(job) => Err(BitmapStop::Busy(job)),
            None => Ok(place),
        },
    }
}
