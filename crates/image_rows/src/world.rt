//! What rows are played on.

use crate::device::device;
use crate::layout::{edited, fill_counts, filled, put_words};
use crate::opened::{Opened, open};
use crate::{calls, creating, entries, header, looks, reads, tables};
use blk_base::NoMemory;
use blk_fakes::{FailAt, MemDevice};
use q2_format::Header;
use q2_tables::Tables;
use row_text::{Player, Row, RowStop, Words, named};
use std::alloc::Global;

/// A file that is laid out, and what was made of it last.
#[derive(Drop)]
pub(crate) struct World {
    alloc: Global,
    file: Vec<u8>,
    /// The capacity of the devices that are made, where it isn't their file's length.
    capacity: u64,
    /// Which calls of the next device fail.
    fails: Vec<FailAt>,
    /// A device with no image open on it.
    dev: MemDevice,
    opened: Option<Opened>,
    header: Option<Header>,
    tables: Option<Tables>,
}

/// What a row lays out, or which device it makes.
#[derive(Clone, Copy)]
enum Act {
    File,
    Put,
    FullBlock,
    Keep,
    Capacity,
    Fail,
    Device,
    WriteHeader,
    WriteTable,
    WriteBlock,
}

const ACTS: [(&str, Act); 6] = [
    ("file", Act::File),
    ("put", Act::Put),
    ("full-block", Act::FullBlock),
    ("keep", Act::Keep),
    ("capacity", Act::Capacity),
    ("fail", Act::Fail),
];

const DEVICES: [(&str, Act); 4] = [
    ("device", Act::Device),
    ("write-header", Act::WriteHeader),
    ("write-refcount-table", Act::WriteTable),
    ("write-refcount-block", Act::WriteBlock),
];

/// What a row asks, or makes of the file that is laid out.
#[derive(Clone, Copy)]
enum Made {
    Create,
    Open,
    Again,
    Header,
    Field,
    NewName,
    Entry,
    Word,
    Tables,
    L1,
    Lookup,
    Reads,
}

const MAKES: [(&str, Made); 12] = [
    ("create", Made::Create),
    ("open", Made::Open),
    ("again", Made::Again),
    ("header", Made::Header),
    ("field", Made::Field),
    ("new-name", Made::NewName),
    ("entry", Made::Entry),
    ("word", Made::Word),
    ("tables", Made::Tables),
    ("l1", Made::L1),
    ("lookup", Made::Lookup),
    ("reads", Made::Reads),
];

impl World {
    pub fn new(alloc: Global) -> Result<Self, NoMemory> {
        Ok(World {
            alloc,
            file: Vec::new(alloc),
            capacity: 0,
            fails: Vec::new(alloc),
            dev: MemDevice::new(alloc, &[], 0, &[], 0, 0)?,
            opened: None,
            header: None,
            tables: None,
        })
    }

    /// `file LENGTH BYTE`: lays out a file of equal bytes.
    fn lay_out(&mut self, row: &Row) -> Result<(), RowStop> {
        self.file = filled(self.alloc, row)?;
        self.capacity = 0;
        Ok(())
    }

    /// The device that was made last.
    fn seen(&self) -> &MemDevice {
        match &self.opened {
            Some(opened) => &opened.dev,
            None => &self.dev,
        }
    }

    /// `keep`: what the device holds is the file that is laid out.
    fn keep(&mut self) -> Result<(), RowStop> {
        self.file = Vec::from_slice(self.alloc, self.seen().bytes())?;
        Ok(())
    }

    /// `fail CALL DONE`: so does a call of the next device.
    fn fail(&mut self, row: &Row) -> Result<(), RowStop> {
        let (call, done) = row.failing(0)?;
        self.fails.push(FailAt { call, done })?;
        Ok(())
    }

    /// A device of these bytes, of which the calls fail that are to.
    fn device(&mut self, bytes: &[u8]) -> Result<MemDevice, RowStop> {
        let dev = device(self.alloc, bytes, self.capacity, self.fails.as_slice())?;
        self.fails.clear();
        Ok(dev)
    }

    /// Looks at a device of these bytes.
    fn show(&mut self, bytes: &[u8]) -> Result<(), RowStop> {
        self.dev = self.device(bytes)?;
        self.opened = None;
        Ok(())
    }

    /// Lays something out. It is as `act` says.
    fn laid_out(&mut self, act: Act, row: &Row) -> Result<(), RowStop> {
        let alloc = self.alloc;
        match act {
            // `put EDITS`: edits the file that is laid out
            Act::Put => put_words(alloc, self.file.as_mut_slice(), row, 0),
            // `full-block PLACE`: the refcount block there counts one for each of its clusters
            Act::FullBlock => {
                fill_counts(self.file.as_mut_slice(), row.number(0)? as usize);
                Ok(())
            }
            Act::Keep => self.keep(),
            // `capacity BYTES`: of devices that are made from there on
            Act::Capacity => {
                self.capacity = row.number(0)?;
                Ok(())
            }
            Act::Fail => self.fail(row),
            _ => self.lay_out(row),
        }
    }

    /// Looks at a device whose bytes are as `act` says.
    fn shown(&mut self, act: Act, row: &Row) -> Result<(), RowStop> {
        let alloc = self.alloc;
        let file = self.file.as_slice();
        let bytes = match act {
            Act::WriteHeader => header::written_header(alloc, file, row)?,
            Act::WriteTable => header::written_counts(alloc, file, row, false)?,
            Act::WriteBlock => header::written_counts(alloc, file, row, true)?,
            // `device LENGTH BYTE`: so many equal bytes
            _ => filled(alloc, row)?,
        };
        self.show(bytes.as_slice())
    }

    /// `open EDITS`: the image in the file that is laid out, with these edits. `again EDITS`: the image on the device, once more,
    /// on a device of its bytes with these edits.
    fn open(&mut self, is_again: bool, row: &Row, out: &mut Words) -> Result<(), RowStop> {
        let from = if is_again {
            self.seen().bytes()
        } else {
            self.file.as_slice()
        };
        let bytes = edited(self.alloc, from, row, 0)?;
        let dev = self.device(bytes.as_slice())?;
        match open(self.alloc, dev) {
            Ok(opened) => {
                self.opened = Some(opened);
                out.put("ok");
            }
            Err(stop) => out.show(&stop),
        }
        Ok(())
    }

    fn load(&mut self, row: &Row, out: &mut Words) -> Result<(), RowStop> {
        let (file, fails) = (self.file.as_slice(), self.fails.as_slice());
        tables::tables(self.alloc, file, fails, &mut self.tables, row, out)?;
        self.fails.clear();
        Ok(())
    }

    /// Puts what is asked, or made of the file that is laid out.
    fn make(&mut self, made: Made, row: &Row, out: &mut Words) -> Result<(), RowStop> {
        let alloc = self.alloc;
        let file = self.file.as_slice();
        match made {
            Made::Create => creating::create(alloc, &mut self.dev, row, out),
            Made::Open => self.open(false, row, out),
            Made::Again => self.open(true, row, out),
            Made::Header => header::header(alloc, file, &mut self.header, row, out),
            Made::Field => header::field(self.header.as_ref(), row, out),
            Made::NewName => header::new_name(alloc, file, row, out),
            Made::Entry => entries::entry(row, out),
            Made::Word => entries::word(row, out),
            Made::Tables => self.load(row, out),
            Made::L1 => tables::asked(self.tables.as_ref(), false, row, out),
            Made::Lookup => tables::asked(self.tables.as_ref(), true, row, out),
            Made::Reads => reads::reads(alloc, file, row, out),
        }
    }

    /// Puts what is answered to a call on the image that is open.
    fn call(&mut self, call: calls::Call, row: &Row, out: &mut Words) -> Result<(), RowStop> {
        match &mut self.opened {
            Some(opened) => calls::answer_to(self.alloc, opened, call, row, out),
            None => Err(RowStop::Call),
        }
    }
}

impl Player for World {
    fn answer_to(&mut self, row: &Row, out: &mut Words) -> Result<(), RowStop> {
        if let Some(act) = named(&ACTS, row.key) {
            self.laid_out(act, row)?;
            out.put("ok");
            return Ok(());
        }
        if let Some(act) = named(&DEVICES, row.key) {
            self.shown(act, row)?;
            out.put("ok");
            return Ok(());
        }
        if let Some(made) = named(&MAKES, row.key) {
            return self.make(made, row, out);
        }
        if let Some(look) = named(&looks::LOOKS, row.key) {
            let file = self.file.as_slice();
            return looks::answer_to(self.alloc, file, self.seen(), look, row, out);
        }
        match named(&calls::CALLS, row.key) {
            Some(call) => self.call(call, row, out),
            None => Err(RowStop::Word),
        }
    }
}
