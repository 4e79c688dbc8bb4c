//! Calls on an open image, each by the words of a row.

use crate::layout::text_of;
use crate::opened::Opened;
use crate::text::{put_done, put_mapping, put_written};
use blk_base::DevStop;
use q2_image::Image;
use row_text::{Row, RowStop, Words};
use std::alloc::Global;

#[derive(Clone, Copy)]
pub(crate) enum Call {
    Put,
    Zero,
    Write,
    Flush,
    Name,
    Maps,
    About,
}

pub(crate) const CALLS: [(&str, Call); 7] = [
    ("put-cluster", Call::Put),
    ("zero-cluster", Call::Zero),
    ("write", Call::Write),
    ("flush", Call::Flush),
    ("name", Call::Name),
    ("maps", Call::Maps),
    ("about", Call::About),
];

/// Puts what was answered, where the call may be made.
fn put_answer(answer: Option<Result<(), DevStop>>, out: &mut Words) -> Result<(), RowStop> {
    match answer {
        Some(answer) => put_done(answer, out),
        None => return Err(RowStop::Call),
    }
    Ok(())
}

/// `put-cluster CLUSTER BYTES`: a whole one, which has zeros behind these bytes.
fn put(alloc: Global, opened: &mut Opened, row: &Row, out: &mut Words) -> Result<(), RowStop> {
    let mut bytes = row.bytes(alloc, 1)?;
    bytes.resize(65_536, 0)?;
    put_answer(opened.put(row.number(0)?, bytes.as_slice()), out)
}

/// `write START BYTES`: in place, in the first guest cluster.
fn write(alloc: Global, opened: &mut Opened, row: &Row, out: &mut Words) -> Result<(), RowStop> {
    let bytes = row.bytes(alloc, 1)?;
    match opened.write(row.number(0)?, bytes.as_slice()) {
        Some(answer) => put_written(answer, out),
        None => return Err(RowStop::Call),
    }
    Ok(())
}

/// `name NAME FORMAT`: another backing name and format, where `-` stands for none.
fn name(opened: &mut Opened, row: &Row, out: &mut Words) -> Result<(), RowStop> {
    let name = text_of(row.word(0)?);
    let format = text_of(row.word(1)?);
    put_answer(opened.name(name, format), out)
}

/// `maps CLUSTER`: what it is mapped to.
fn maps(opened: &Opened, row: &Row, out: &mut Words) -> Result<(), RowStop> {
    match opened.mapping(row.number(0)?) {
        Some(mapping) => put_mapping(mapping, out),
        None => return Err(RowStop::Call),
    }
    Ok(())
}

/// `about`: the size of the disk and of a cluster, whether the image has a backing name, and whether it maps a cluster.
fn about(image: &Image, out: &mut Words) {
    out.fill("% by %, ", &[image.size(), image.cluster_size()]);
    out.put(if image.has_backing_name() {
        "named, "
    } else {
        "no name, "
    });
    out.put(if image.is_empty() { "empty" } else { "mapped" });
}

/// Puts what is answered to a call.
pub(crate) fn answer_to(
    alloc: Global,
    opened: &mut Opened,
    call: Call,
    row: &Row,
    out: &mut Words,
) -> Result<(), RowStop> {
    match call {
        Call::Put => return put(alloc, opened, row, out),
        // `zero-cluster CLUSTER`
        Call::Zero => return put_answer(opened.zero(row.number(0)?), out),
        Call::Write => return write(alloc, opened, row, out),
        Call::Flush => put_done(opened.flush(), out),
        Call::Name => return name(opened, row, out),
        Call::Maps => return maps(opened, row, out),
        Call::About => about(&opened.image, out),
    }
    Ok(())
}
