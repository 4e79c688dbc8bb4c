//! Loading the refcount table and the mapping's tables of an image, and which of their refusals comes first.

ghost use Rattle.std.specs.Prelude.{◌≡◌, ◌⊎◌, ℕ, None, Option, Ok, IfOk, IfErr};
ghost use Rattle.blk_base.specs.Calls.{FailsAt};
ghost use Rattle.blk_base.specs.Device.{Reads};
ghost use Rattle.blk_base.specs.Files.{WasRead};
ghost use Rattle.q2_format.specs.Header.{CanBeRead};
ghost use Rattle.q2_format.specs.Tables.{refcount_table};
ghost use Rattle.q2_refs.specs.Loading.{table_call};
ghost use Rattle.q2_tables.specs.Loading.{IsLoaded, IsTablesCall};
ghost use Rattle.q2_image.specs.OpeningCalls.{AreBlocksPlaced};
ghost use Rattle.q2_image.specs.Opening.{IsNoHeader, fault_of_image, place_stops};
ghost use Rattle.q2_image.specs.Loading.{reserved_entry, AnswersTable, AnswersTables, IsTableRead, IsTableAnswer, words_in};
ghost use Rattle.q2_image.specs.Merge.{behind_reserved, merged_stop};

use crate::counting::{RefTable, load_ref_table};
use crate::stop::ImageStop;
use blk_base::Device;
use q2_format::Header;
use q2_tables::{Tables, TablesStop, load_tables};
use std::alloc::Global;

/// A reserved bit of the refcount table, where there is one, and else the refusal that comes behind it.
fn behind(header: &Header, reserved: Option<u64>, stop: ImageStop) -> ImageStop
    ensures { result ≡ behind_reserved header.now reserved stop }
{
    match reserved {
        Some(index) => ImageStop::Reserved {
            table: header.ref_offset,
            index,
        },
        None => stop,
    }
}

/// The refusal that comes first, where the tables have this one and the refcount table a reserved bit in that entry.
fn merge(header: &Header, reserved: Option<u64>, stop: TablesStop) -> ImageStop
    ensures { result ≡ merged_stop header.now reserved stop }
{
    match stop {
        TablesStop::Offset(offset) => ImageStop::Offset(offset),
        TablesStop::ReservedInL1 { index } => ImageStop::Reserved {
            table: header.l1_offset,
            index,
        },
        TablesStop::ReservedInL2 { table, index } => {
            behind(header, reserved, ImageStop::Reserved { table, index })
        }
        TablesStop::Compressed(cluster) => {
            behind(header, reserved, ImageStop::Compressed(cluster))
        }
        TablesStop::Io { count } => ImageStop::Io { count },
        TablesStop::NoMemory => ImageStop::NoMemory,
    }
}

/// The entry of the refcount table in which a reserved bit was found.
fn reserved_in(table: &RefTable) -> Option<u64>
    ensures { result ≡ reserved_entry table.now }
{
    match table {
        RefTable::Read(_) => None,
        RefTable::Reserved(index) => Some(*index),
    }
}

/// The words of the refcount table, where no reserved bit was found.
fn words_of(header: &Header, table: RefTable) -> Result<Vec<u64>, ImageStop>
    ensures read { IfOk result (λ words. table ≡ RefTable.Read words) }
    ensures reserved { IfErr result
        (λ stop. (index : ℕ) × (table ≡ RefTable.Reserved index)
        × (stop ≡ ImageStop.Reserved header.now.ref_offset index)) }
{
    match table {
        RefTable::Read(words) => Ok(words),
        RefTable::Reserved(index) => Err(ImageStop::Reserved {
            table: header.ref_offset,
            index,
        }),
    }
}

/// Loads the tables of an image whose refcount table was read.
fn load_behind<D: Device>(
    alloc: Global,
    dev: &mut D,
    header: &Header,
    table: RefTable,
) -> Result<(Vec<u64>, Tables), ImageStop>
    requires readable { CanBeRead header.now (D.size dev.old) }
    requires placed { place_stops header.now (D.size dev.old) ≡ None }
    requires words { WasRead (D.content dev.old) (λ file. refcount_table file header.now)
        (AnswersTable header.now (D.size dev.old) (Ok table)) }
    requires read { IsTableAnswer header.now (D.size dev.old) table }
    ensures words { WasRead (D.content dev.old) (words_in header.now)
        (AnswersTables header.now (D.size dev.old) (λ both. both.0.items) (λ both. both.1) result) }
    ensures has_table { IfOk result (λ both. IsTableRead header.now (D.size dev.old) both.0.items) }
    ensures has_tables { IfOk result (λ both. IsLoaded header.now (D.size dev.old) both.1) }
    ensures no_header { IfErr result IsNoHeader }
    ensures device { Reads D.Device (fault_of_image result) dev.old dev.new }
    ensures call { FailsAt (IsTablesCall header.now (D.size dev.old) (D.content dev.old))
        (fault_of_image result) (D.failed_call dev.new) }
{
    match load_tables(alloc, dev, header) {
        Ok(tables) => match words_of(header, table) {
            Ok(words) => Ok((words, tables)),
            Err(stop) => Err(stop),
        },
        Err(stop) => Err(merge(header, reserved_in(&table), stop)),
    }
}

/// Loads the words of the refcount table, the L1 table and the L2 tables of an image whose two tables lie in their
/// places. The refcount table is read first, since the places of its blocks are judged before what the others name.
pub(crate) fn load<D: Device>(
    alloc: Global,
    dev: &mut D,
    header: &Header,
) -> Result<(Vec<u64>, Tables), ImageStop>
    requires readable { CanBeRead header.now (D.size dev.old) }
    requires placed { place_stops header.now (D.size dev.old) ≡ None }
    ensures words { WasRead (D.content dev.old) (words_in header.now)
        (AnswersTables header.now (D.size dev.old) (λ both. both.0.items) (λ both. both.1) result) }
    ensures has_table { IfOk result (λ both. IsTableRead header.now (D.size dev.old) both.0.items) }
    ensures has_tables { IfOk result (λ both. IsLoaded header.now (D.size dev.old) both.1) }
    ensures no_header { IfErr result IsNoHeader }
    ensures device { Reads D.Device (fault_of_image result) dev.old dev.new }
    ensures call { FailsAt (λ call. (call ≡ table_call header.now)
        ⊎ (AreBlocksPlaced header.now (D.size dev.old) (D.content dev.old)
        × IsTablesCall header.now (D.size dev.old) (D.content dev.old) call))
        (fault_of_image result) (D.failed_call dev.new) }
{
    match load_ref_table(alloc, dev, header) {
        Ok(table) => load_behind(alloc, dev, header, table),
        Err(stop) => Err(stop),
    }
}
