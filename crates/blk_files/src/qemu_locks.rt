//! QEMU's locks of a file: a byte for each permission that its opener uses, and one for each that it doesn't share. The system
//! lists them, so that a running QEMU is seen; no call of the library holds such a lock, so one that is started later isn't kept out.

use std::alloc::Global;
use std::fs::File;
use std::io;
use std::os::unix::fs::MetadataExt;
use std::rt::Files;

/// The bytes that are held for permissions that are used: to write, to write what is there, to resize.
const WRITE: u64 = 101;

const WRITE_UNCHANGED: u64 = 102;

const RESIZE: u64 = 103;

/// The bytes that are held by who doesn't share a permission: to read, to write, to resize.
const READ_UNSHARED: u64 = 200;

const WRITE_UNSHARED: u64 = 201;

const RESIZE_UNSHARED: u64 = 203;

/// Who writes a file reads, writes and resizes it, and shares reading alone.
const AGAINST_WRITING: [u64; 6] = [
    READ_UNSHARED,
    WRITE_UNSHARED,
    RESIZE_UNSHARED,
    WRITE,
    WRITE_UNCHANGED,
    RESIZE,
];

/// Who reads a file shares what doesn't change it.
const AGAINST_READING: [u64; 3] = [READ_UNSHARED, WRITE, RESIZE];

/// Another open of the file has a lock.
pub(crate) fn in_use() -> io::Error {
    io::Error::new(
        io::ErrorKind::ResourceBusy,
        "In use: another program holds its lock",
    )
}

/// Whether a line of the system's list has a lock of bytes of that file, this byte among them.
fn is_listed(line: &str, inode: u64, byte: u64) -> bool {
    let mut words = line.split_whitespace().skip(1);
    let kind = words.next().unwrap_or("");
    let file = words.nth(3).unwrap_or("").rsplit(':').next().unwrap_or("");
    let first = words.next().unwrap_or("").parse::<u64>();
    let last = words.next().unwrap_or("").parse::<u64>();
    kind == "OFDLCK"
        && file.parse::<u64>() == Ok(inode)
        && first.is_ok_and(|first| first <= byte)
        && last.is_ok_and(|last| byte <= last)
}

/// The system's list of locks. Where it has none to show, no lock is seen.
fn listed<R: Files<File = File>>(rt: &R, alloc: Global) -> io::Result<String> {
    match File::open(rt, "/proc/locks") {
        Ok(file) => io::read_to_string(alloc, file),
        Err(_) => Ok(String::new(alloc)),
    }
}

/// Looks whether no running QEMU has a lock that is against writing the file, or against reading it alone.
pub(crate) fn check_free<R: Files<File = File>>(
    rt: &R,
    alloc: Global,
    file: &File,
    writes: bool,
) -> io::Result<()> {
    let inode = file.metadata()?.ino();
    let locks = listed(rt, alloc)?;
    let against: &[u64] = match writes {
        true => &AGAINST_WRITING,
        false => &AGAINST_READING,
    };
    for byte in against {
        if locks.lines().any(|line| is_listed(line, inode, *byte)) {
            return Err(in_use());
        }
    }
    Ok(())
}
