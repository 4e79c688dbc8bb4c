//! Answers as rows say them.

use blk_base::{DevStop, Stop, WriteStop};
use q2_format::L2Entry;
use q2_tables::{Mapping, TablesStop};
use row_text::Words;

pub(crate) fn put_done(answer: Result<(), DevStop>, out: &mut Words) {
    match answer {
        Ok(()) => out.put("ok"),
        Err(DevStop::Io { count }) => out.fill("Io(%)", &[count]),
        Err(DevStop::NoSpace) => out.put("NoSpace"),
    }
}

pub(crate) fn put_written(answer: Result<(), WriteStop>, out: &mut Words) {
    match answer {
        Ok(()) => out.put("ok"),
        Err(WriteStop { done, why }) => {
            out.put(match why {
                Stop::Failed => "Failed",
                Stop::NoSpace => "NoSpace",
            });
            out.fill(" after %", &[done]);
        }
    }
}

pub(crate) fn put_mapping(mapping: Mapping, out: &mut Words) {
    match mapping {
        Mapping::Unallocated => out.put("unallocated"),
        Mapping::Zero { host } => out.fill("zero $", &[host]),
        Mapping::Host { host } => out.fill("host $", &[host]),
    }
}

pub(crate) fn put_entry(entry: L2Entry, out: &mut Words) {
    match entry {
        L2Entry::Unallocated => out.put("unallocated"),
        L2Entry::Zero { host } => out.fill("zero $", &[host]),
        L2Entry::Host { host } => out.fill("host $", &[host]),
        L2Entry::Compressed => out.put("compressed"),
        L2Entry::Reserved => out.put("reserved"),
    }
}

pub(crate) fn put_tables_stop(stop: TablesStop, out: &mut Words) {
    match stop {
        TablesStop::Offset(offset) => out.fill("Offset($)", &[offset]),
        TablesStop::ReservedInL1 { index } => out.fill("ReservedInL1(%)", &[index]),
        TablesStop::ReservedInL2 { table, index } => {
            out.fill("ReservedInL2($, %)", &[table, index]);
        }
        TablesStop::Compressed(cluster) => out.fill("Compressed(%)", &[cluster]),
        TablesStop::Io { count } => out.fill("Io(%)", &[count]),
        TablesStop::NoMemory => out.put("NoMemory"),
    }
}
