//! Devices, a store and a sink in memory: what is written and read, and calls that fail.

use crate::logs::{logged, wrote};
use blk_base::{DevFault, Device, Sink, SinkFault, Stop, Store, StoreStop, WriteStop};
use blk_fakes::{FailAt, MemDevice, MemSink, MemStore, SureDevice, SureStore};
use std::alloc::Global;
use std::test::Fail;

/// A call on a device, and its answer.
#[derive(Clone, Copy)]
enum Call<'a> {
    Write(u64, &'a [u8], Result<(), WriteStop>),
    /// A read from this offset on, and what it gives.
    Read(u64, &'a [u8]),
    /// A read that fails.
    NoRead,
    Flush(Result<(), DevFault>),
    /// The device's length, its capacity, and how many of its calls have failed.
    Has(u64, u64, u64),
}

fn answers<D: Device>(dev: &mut D, call: Call) -> bool {
    let mut buf = [9; 16];
    match call {
        Call::Write(off, bytes, answer) => dev.write_at(off, bytes) == answer,
        Call::Read(off, want) => {
            dev.read_at(off, &mut buf[..want.len().min(16)]).is_ok() && buf.starts_with(want)
        }
        Call::NoRead => dev.read_at(0, &mut buf).is_err(),
        Call::Flush(answer) => dev.flush() == answer,
        Call::Has(length, capacity, faults) => {
            dev.length() == length && dev.capacity() == capacity && dev.faults() == faults
        }
    }
}

/// The number of the first call that isn't answered so.
fn first_wrong<D: Device>(dev: &mut D, calls: &[Call]) -> Option<usize> {
    for (number, call) in calls.iter().enumerate() {
        if !answers(dev, *call) {
            return Some(number);
        }
    }
    None
}

const NO_SPACE: Result<(), WriteStop> = Err(WriteStop {
    done: 0,
    why: Stop::NoSpace,
});

/// A device's bytes, its capacity, the calls that fail, what is called, and its bytes then.
type Row<'a> = (&'a [u8], u64, &'a [FailAt], &'a [Call<'a>], &'a [u8]);

const DEVICES: [Row; 3] = [
    (
        b"abc",
        8,
        &[],
        &[
            Call::Write(5, b"xy", Ok(())),
            Call::Read(1, b"bc\0\0xy\0\0\0"),
            Call::Flush(Ok(())),
            Call::Has(7, 8, 0),
        ],
        b"abc\0\0xy",
    ),
    // A write that ends above the capacity, and one that just fits.
    (
        b"abc",
        4,
        &[],
        &[
            Call::Write(3, b"de", NO_SPACE),
            Call::Has(3, 4, 0),
            Call::Write(3, b"d", Ok(())),
        ],
        b"abcd",
    ),
    (
        b"abc",
        3,
        &[FailAt { call: 1, done: 0 }, FailAt { call: 2, done: 9 }],
        &[
            Call::Read(0, b"abc"),
            Call::NoRead,
            Call::Flush(Err(DevFault::Failed)),
            Call::Flush(Ok(())),
            Call::Has(3, 3, 2),
        ],
        b"abc",
    ),
];

/// Whether a device of this capacity, or of that of its bytes, answers so, and what it holds then.
fn goes(
    alloc: Global,
    device: (&[u8], u64),
    fails: &[FailAt],
    calls: &[Call],
    then: &[u8],
) -> Result<bool, Fail> {
    let (bytes, capacity) = device;
    let capacity = capacity.max(bytes.len() as u64);
    let mut dev = MemDevice::new(alloc, bytes, capacity, fails, 4, 16)?;
    Ok(first_wrong(&mut dev, calls).is_none() && dev.bytes() == then)
}

#[test]
fn devices_in_memory(rt: HostRuntime) -> Result<(), Fail> {
    for (bytes, capacity, fails, calls, then) in &DEVICES {
        let device = (*bytes, *capacity);
        assert!(rt;
            goes(rt.alloc(), device, *fails, *calls, *then)?,
            "{capacity}"
        );
    }
    Ok(())
}

/// How much of a failing write of 1,024 bytes is wanted, its offset, and how much is done.
const TORN: [(u64, u64, u64); 5] = [
    (700, 0, 512),
    (1_024, 0, 512),
    (511, 0, 0),
    (600, 500, 524),
    (5, 500, 0),
];

const SEVENS: [u8; 1_024] = [7; 1_024];

/// Whether so much is done of a write that fails, and the next goes well.
fn is_torn(alloc: Global, wanted: u64, off: u64, done: u64) -> Result<bool, Fail> {
    let fails = [FailAt {
        call: 0,
        done: wanted,
    }];
    let mut dev = MemDevice::new(alloc, &[], 2_048, &fails, 1, 1_024)?;
    let failed = WriteStop {
        done,
        why: Stop::Failed,
    };
    let calls = [
        Call::Write(off, &SEVENS, Err(failed)),
        Call::Write(off, &SEVENS, Ok(())),
        Call::Has(off.saturating_add(1_024), 2_048, 1),
    ];
    Ok(first_wrong(&mut dev, &calls).is_none())
}

#[test]
fn a_write_is_torn_between_sectors(rt: HostRuntime) -> Result<(), Fail> {
    for (wanted, off, done) in &TORN {
        assert!(rt;
            is_torn(rt.alloc(), *wanted, *off, *done)?,
            "{wanted} at {off}"
        );
    }
    Ok(())
}

/// Whether a write of the log is this.
fn has_logged(dev: &MemDevice, k: u64, at: u64, want: &[u8]) -> bool {
    match logged(dev, k) {
        Some((off, bytes)) => off == at && bytes == want,
        None => false,
    }
}

/// Writes of which the log keeps those that aren't empty.
const KEPT: [Call; 3] = [
    Call::Write(4, b"ab", Ok(())),
    Call::Write(9, b"", Ok(())),
    Call::Write(0, b"c", Ok(())),
];

#[test]
fn a_log_ends_past_its_room(rt: HostRuntime) -> Result<(), Fail> {
    let mut dev = MemDevice::new(rt.alloc(), &[], 64, &[], 2, 3)?;
    assert!(rt; first_wrong(&mut dev, &KEPT).is_none());
    assert!(rt; wrote(&dev, &[(4, 2), (0, 1)]) && has_logged(&dev, 0, 4, b"ab"));
    assert!(rt; answers(&mut dev, Call::Write(0, b"d", Ok(()))));
    assert!(rt; dev.logged().is_none());
    Ok(())
}

/// What is asked of a store, and its answer.
#[derive(Clone, Copy)]
enum Ask<'a> {
    Create(&'a str, u64, Result<(), StoreStop>),
    /// All bytes of a file, of at most so many.
    Read(&'a str, u64, Result<&'a [u8], StoreStop>),
    /// A file's device is taken out, called so, and given back.
    Change(&'a str, &'a [Call<'a>]),
    /// An opening that is refused.
    Refuse(&'a str, StoreStop),
    /// The store's room, and how many of its calls have failed.
    Has(u64, u64),
}

/// Takes a file's device out, calls it so, and gives it back.
#[tactic(auto, using(crate::proofs::Lent::is_lent))]
fn changes<S: Store>(store: &mut S, name: &str, calls: &[Call]) -> Result<bool, StoreStop> {
    let mut dev = store.open_file(name)?;
    let is_so = first_wrong(&mut dev, calls).is_none();
    store.give_back(name, dev);
    Ok(is_so)
}

fn reads<S: Store>(
    store: &mut S,
    name: &str,
    limit: u64,
    answer: Result<&[u8], StoreStop>,
) -> bool {
    match (store.read_all(name, limit), answer) {
        (Ok(bytes), Ok(want)) => bytes.as_slice() == want,
        (Err(stop), Err(want)) => stop == want,
        _ => false,
    }
}

fn is_answered<S: Store>(store: &mut S, ask: Ask) -> bool {
    match ask {
        Ask::Create(name, len, answer) => store.create_file(name, len) == answer,
        Ask::Read(name, limit, answer) => reads(store, name, limit, answer),
        Ask::Change(name, calls) => changes(store, name, calls) == Ok(true),
        Ask::Refuse(name, stop) => changes(store, name, &[]) == Err(stop),
        Ask::Has(room, faults) => store.room() == room && store.faults() == faults,
    }
}

/// The number of the first that isn't answered so.
fn first_unlike<S: Store>(store: &mut S, asks: &[Ask]) -> Option<usize> {
    for (number, ask) in asks.iter().enumerate() {
        if !is_answered(store, *ask) {
            return Some(number);
        }
    }
    None
}

const STORE: [Ask; 13] = [
    Ask::Refuse("a", StoreStop::Absent),
    Ask::Read("a", 9, Err(StoreStop::Absent)),
    Ask::Create("a", 5, Err(StoreStop::TooLong)),
    Ask::Create("a", 4, Ok(())),
    Ask::Read("a", 3, Err(StoreStop::TooLong)),
    Ask::Read("a", 4, Err(StoreStop::Failed)),
    Ask::Has(4, 1),
    Ask::Read("a", 4, Ok(&[0; 4])),
    Ask::Change("a", &[Call::Write(1, b"x", Ok(())), Call::Has(4, 4, 0)]),
    Ask::Read("a", 4, Ok(b"\0x\0\0")),
    Ask::Create("a", 2, Ok(())),
    Ask::Read("a", 4, Ok(b"\0\0")),
    Ask::Has(4, 1),
];

/// What a file's list says of a call that fails holds on where the file is made again.
const AGAIN: [Ask; 3] = [
    Ask::Create("a", 2, Ok(())),
    Ask::Change(
        "a",
        &[
            Call::Has(2, 8, 0),
            Call::Flush(Err(DevFault::Failed)),
            Call::Read(0, b"\0\0"),
        ],
    ),
    Ask::Change("a", &[Call::Has(2, 8, 1)]),
];

const SURE: [Ask; 8] = [
    Ask::Create("b", 4, Ok(())),
    Ask::Create("c", 5, Err(StoreStop::TooLong)),
    Ask::Read("c", 9, Err(StoreStop::Absent)),
    Ask::Refuse("c", StoreStop::Absent),
    Ask::Change(
        "a",
        &[
            Call::Write(4, b"xy", NO_SPACE),
            Call::Write(3, b"xy", Ok(())),
            Call::Read(2, b"cxy"),
            Call::Flush(Ok(())),
            Call::Has(5, 5, 0),
        ],
    ),
    Ask::Read("a", 5, Ok(b"abcxy")),
    Ask::Read("b", 4, Ok(&[0; 4])),
    Ask::Has(4, 0),
];

#[test]
fn a_store_in_memory(rt: HostRuntime) -> Result<(), Fail> {
    let fails = [FailAt { call: 5, done: 0 }];
    let mut store = MemStore::new(rt.alloc(), 4, &fails)?;
    assert!(rt; first_unlike(&mut store, &STORE).is_none());
    assert!(rt; store.name_at(0) == Some("a") && store.name_at(1).is_none());
    Ok(())
}

/// Whether a device counts so many failed calls, and has no write in its log.
fn has_failed(dev: &MemDevice, faults: u64) -> bool {
    dev.faults() == faults && dev.logged() == Some(0)
}

#[test]
fn a_file_that_is_made_again_keeps_its_list(rt: HostRuntime) -> Result<(), Fail> {
    let mut store = MemStore::new(rt.alloc(), 8, &[])?;
    let fails = [FailAt { call: 0, done: 0 }];
    let dev = MemDevice::new(rt.alloc(), b"old", 3, &fails, 1, 1)?;
    assert!(rt; store.add_file("a", dev).is_ok());
    assert!(rt; first_unlike(&mut store, &AGAIN).is_none());
    let dev = store.file("a").ok_or("no file")?;
    assert!(rt; has_failed(dev, 1));
    Ok(())
}

#[test]
fn a_file_is_out_until_it_is_given_back(rt: HostRuntime) -> Result<(), Fail> {
    let mut store = MemStore::new(rt.alloc(), 16, &[])?;
    store.create_file("a", 3)?;
    let dev = store.open_file("a")?;
    let refused = [
        store.open_file("a").err(),
        store.create_file("a", 3).err(),
        store.read_all("a", 16).err(),
    ];
    assert!(rt; refused == [Some(StoreStop::InUse); 3]);
    assert!(rt; store.file("a").is_none());
    store.give_back("a", dev);
    assert!(rt; store.file("a").is_some());
    Ok(())
}

#[test]
fn the_sure_kinds_count_no_fault(rt: HostRuntime) -> Result<(), Fail> {
    let mut store = SureStore::new(rt.alloc(), 4)?;
    let dev = SureDevice::new(rt.alloc(), b"abc", 5, 2, 8)?;
    assert!(rt; store.add_file("a", dev).is_ok());
    assert!(rt; first_unlike(&mut store, &SURE).is_none());
    assert!(rt; store.name_at(1) == Some("b"));
    let file = store.file("a").ok_or("no file")?;
    assert!(rt; has_logged(file, 0, 3, b"xy"));
    Ok(())
}

/// A device that never fails is called so, and then has these bytes and this one write.
#[test]
fn a_sure_device(rt: HostRuntime) -> Result<(), Fail> {
    let mut dev = SureDevice::new(rt.alloc(), b"abc", 5, 2, 8)?;
    assert!(rt; answers(&mut dev, Call::Write(3, b"xy", Ok(()))));
    assert!(rt; dev.bytes() == b"abcxy".as_slice());
    let is_logged = match dev.logged() {
        Some(1) => dev.log_at(0) == (3, b"xy".as_slice()),
        _ => false,
    };
    assert!(rt; is_logged);
    Ok(())
}

/// What is put in turn, the answer, and all that was sent then.
const SENT: [(&[u8], Result<(), SinkFault>, &[u8]); 3] = [
    (b"abc", Ok(()), b"abc"),
    (b"de", Err(SinkFault::Failed), b"abcd"),
    (b"efg", Err(SinkFault::Failed), b"abcdef"),
];

/// Whether a put is answered so, and all that was sent then.
fn sends(out: &mut MemSink, bytes: &[u8], answer: Result<(), SinkFault>, sent: &[u8]) -> bool {
    out.put(bytes) == answer && out.bytes() == sent
}

#[test]
fn a_sink_sends_what_fits(rt: HostRuntime) -> Result<(), Fail> {
    let fails = [FailAt { call: 1, done: 1 }];
    let mut out = MemSink::new(rt.alloc(), 6, &fails)?;
    for (bytes, answer, sent) in &SENT {
        assert!(rt; sends(&mut out, *bytes, *answer, *sent));
    }
    assert!(rt; out.faults() == 2);
    Ok(())
}
