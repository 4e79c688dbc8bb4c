//! Tables that are loaded from a file.

use crate::device::device;
use crate::layout::edited;
use crate::text::{put_mapping, put_tables_stop};
use blk_base::Device;
use blk_fakes::FailAt;
use q2_format::read_header;
use q2_tables::{Tables, TablesStop, load_tables};
use row_text::{Row, RowStop, Words};
use std::alloc::Global;

/// Loads the tables of the image in these bytes, from a device of which calls fail.
fn load(
    alloc: Global,
    bytes: &[u8],
    fails: &[FailAt],
) -> Result<Result<Tables, TablesStop>, RowStop> {
    let mut dev = device(alloc, bytes, 0, fails)?;
    match read_header(bytes, dev.length()) {
        Ok(header) => Ok(load_tables(alloc, &mut dev, &header)),
        Err(_) => Err(RowStop::Call),
    }
}

/// `tables EDITS`: loads those of the file with these edits.
pub(crate) fn tables(
    alloc: Global,
    file: &[u8],
    fails: &[FailAt],
    into: &mut Option<Tables>,
    row: &Row,
    out: &mut Words,
) -> Result<(), RowStop> {
    let bytes = edited(alloc, file, row, 0)?;
    match load(alloc, bytes.as_slice(), fails)? {
        Ok(tables) => {
            *into = Some(tables);
            out.put("ok");
        }
        Err(stop) => put_tables_stop(stop, out),
    }
    Ok(())
}

/// `l1`: the words of the L1 table, and how many there are of all L2 tables.
fn put_l1(tables: &Tables, out: &mut Words) {
    for word in tables.l1() {
        out.fill("$ ", &[*word]);
    }
    out.fill("over %", &[tables.words().len() as u64]);
}

/// `lookup CLUSTER`: what it is mapped to.
fn put_lookup(tables: &Tables, cluster: u64, out: &mut Words) -> Result<(), RowStop> {
    if cluster >= tables.words().len() as u64 {
        return Err(RowStop::Call);
    }
    put_mapping(tables.lookup(cluster), out);
    Ok(())
}

/// Puts what a row asks of the tables that were loaded last.
pub(crate) fn asked(
    tables: Option<&Tables>,
    is_lookup: bool,
    row: &Row,
    out: &mut Words,
) -> Result<(), RowStop> {
    let Some(tables) = tables else {
        return Err(RowStop::Call);
    };
    if is_lookup {
        return put_lookup(tables, row.number(0)?, out);
    }
    put_l1(tables, out);
    Ok(())
}
