//! Images that are created.

use crate::header::{may_have, may_name};
use crate::layout::text_of;
use blk_fakes::MemDevice;
use q2_format::MAX_DISK_SIZE;
use q2_image::create_image;
use row_text::{Row, RowStop, Words};
use std::alloc::Global;

/// `create SIZE NAME FORMAT`: on the device. `-` stands for no name or format.
pub(crate) fn create(
    alloc: Global,
    dev: &mut MemDevice,
    row: &Row,
    out: &mut Words,
) -> Result<(), RowStop> {
    let size = row.number(0)?;
    let name = text_of(row.word(1)?);
    let format = text_of(row.word(2)?);
    if size > MAX_DISK_SIZE || !may_name(name) || !may_have(format) {
        return Err(RowStop::Call);
    }
    match create_image(alloc, dev, size, name, format) {
        Ok(()) => out.put("ok"),
        Err(stop) => out.show(&stop),
    }
    Ok(())
}
