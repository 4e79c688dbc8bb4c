//! How a file of the system is opened and locked.

ghost use Rattle.std.specs.Prelude.{◌↔◌, IsOk};

use crate::qemu_locks::{self, in_use};
use std::alloc::Global;
use std::fs::{File, OpenOptions, TryLockError};
use std::io::{Seek, SeekFrom};
use std::os::unix::fs::FileTypeExt;
use std::rt::Files;
use std::{fs, io};

/// Whether a lock was had.
fn locked(tried: Result<(), TryLockError>) -> io::Result<()>
    ensures { IsOk result ↔ IsOk tried }
{
    match tried {
        Ok(()) => Ok(()),
        Err(TryLockError::Error(error)) => Err(error),
        Err(TryLockError::WouldBlock) => Err(in_use()),
    }
}

/// Refuses what has no length, before it is opened: a pipe, a terminal and the like.
fn check_kind<R: Files>(rt: &R, name: &str) -> io::Result<()> {
    let kind = fs::metadata(rt, name)?.file_type();
    if kind.is_file() || kind.is_block_device() {
        return Ok(());
    }
    let words = if kind.is_dir() {
        "Is a directory"
    } else {
        "Has no length: neither a file nor a block device"
    };
    Err(io::Error::new(io::ErrorKind::InvalidInput, words))
}

/// Whether the system denies writing, so that reading may still be had.
fn is_denied(error: &io::Error) -> bool {
    matches!(
        error.kind(),
        io::ErrorKind::PermissionDenied | io::ErrorKind::ReadOnlyFilesystem
    )
}

/// A file that is open, its length, and why it may not be written, where that is so.
#[derive(Drop)]
pub(crate) struct Opened {
    pub file: File,
    pub length: u64,
    pub denied: Option<io::Error>,
}

/// Locks a file that is open for writing, where no running QEMU is against it.
fn lock_to_write<R: Files<File = File>>(rt: &R, alloc: Global, file: &File) -> io::Result<()> {
    locked(file.try_lock())?;
    qemu_locks::check_free(rt, alloc, file, true)
}

/// Opens a file for reading alone, under a shared lock.
fn open_to_read<R: Files<File = File>>(rt: &R, alloc: Global, name: &str) -> io::Result<File> {
    let file = File::open(rt, name)?;
    locked(file.try_lock_shared())?;
    qemu_locks::check_free(rt, alloc, &file, false)?;
    Ok(file)
}

/// Opens a file or a block device, for reading and writing under its exclusive lock; where writing is denied, for reading.
pub(crate) fn open<R: Files<File = File>>(rt: &R, alloc: Global, name: &str) -> io::Result<Opened> {
    check_kind(rt, name)?;
    let (mut file, denied) = match OpenOptions::new().read(true).write(true).open(rt, name) {
        Ok(file) => {
            lock_to_write(rt, alloc, &file)?;
            (file, None)
        }
        Err(error) if is_denied(&error) => (open_to_read(rt, alloc, name)?, Some(error)),
        Err(error) => return Err(error),
    };
    let length = file.seek(SeekFrom::End(0))?;
    Ok(Opened {
        file,
        length,
        denied,
    })
}

/// Makes a file hold that many zero bytes, under its exclusive lock.
pub(crate) fn create<R: Files<File = File>>(
    rt: &R,
    alloc: Global,
    name: &str,
    len: u64,
) -> io::Result<()> {
    let file = OpenOptions::new()
        .read(true)
        .write(true)
        .create(true)
        .open(rt, name)?;
    lock_to_write(rt, alloc, &file)?;
    file.set_len(0)?;
    file.set_len(len)
}
