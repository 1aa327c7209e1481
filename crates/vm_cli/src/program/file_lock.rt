//! The lock on a store's file: the system's (`flock`), taken before any byte of the file is read.
//!
//! Which lock the words ask for is proved (`lock_wanted`). The rest is at the edge of the program,
//! and no contract rests on it: that no one else writes the file meanwhile remains an assumption
//! about real files.

use crate::program::words::lock_wanted;
use clap::error::ErrorKind;
use std::fs::{self, File, Metadata, OpenOptions, TryLockError};
use std::os::fd::AsRawFd;
use std::os::unix::fs::{FileTypeExt, MetadataExt};
use vm_disk::LAST_STANDARD;

/// What will be done with the locked file.
#[derive(Clone, Copy, Debug, PartialEq, Eq)]
pub enum Access {
    /// It is only read: others may read it, too.
    Read,
    /// It is changed, and no one else may use it.
    Write,
}

/// The lock that the words of the program ask for.
#[derive(Clone, Copy, Debug, PartialEq, Eq)]
pub struct LockWanted<'a> {
    pub file: &'a str,
    pub access: Access,
    /// Whether to wait while another process has a lock.
    pub waits: bool,
}

/// Why no job is done: the lock that the words ask for is not held.
#[derive(Clone, Copy, Debug, PartialEq, Eq)]
pub enum NoLock<'a> {
    /// Memory could not be allocated, so the words are not known.
    Memory,
    /// Another process has locked the file of this name.
    InUse(&'a str),
    /// The file cannot be opened as the job would open it.
    CannotOpen(&'a str),
    /// The system does not lock it.
    CannotLock(&'a str),
}

/// Takes the lock that the words ask for. The first word is the program's name. The lock is held as
/// long as the file is open.
///
/// There is none if the words ask for none, as by `--no-lock`, if they are wrong, which the job
/// will report, or if the program was handed a descriptor on the file beside the standard streams,
/// as by `flock FILE altctl ..`, since its caller then holds the lock. In every other case the job
/// is done under the lock, or there is an `Err`, and it is not done.
pub fn lock<'a>(rt: &HostRuntime, words: &'a [String]) -> Result<Option<File>, NoLock<'a>> {
    match lock_wanted(rt.alloc(), words) {
        Ok(Some(wanted)) => taken(rt, wanted),
        Ok(None) => Ok(None),
        Err(error) if error.kind() == ErrorKind::OutOfMemory => Err(NoLock::Memory),
        Err(_) => Ok(None),
    }
}

/// Takes this lock, unless the program's caller has it.
fn taken<'a>(rt: &HostRuntime, wanted: LockWanted<'a>) -> Result<Option<File>, NoLock<'a>> {
    // Opening a file of another kind may wait, or have an effect.
    let metadata = match fs::metadata(rt, wanted.file) {
        Ok(metadata) if metadata.is_file() || metadata.file_type().is_block_device() => metadata,
        _ => return Err(NoLock::CannotOpen(wanted.file)),
    };
    if is_handed_down(rt, &metadata) {
        return Ok(None);
    }
    let mut how = OpenOptions::new();
    how.read(true).write(wanted.access == Access::Write);
    match how.open(rt, wanted.file) {
        Ok(file) if file.as_raw_fd() > LAST_STANDARD => locked(file, wanted),
        _ => Err(NoLock::CannotOpen(wanted.file)),
    }
}

/// Locks the file.
fn locked<'a>(file: File, wanted: LockWanted<'a>) -> Result<Option<File>, NoLock<'a>> {
    let answer = match (wanted.access, wanted.waits) {
        (Access::Read, false) => file.try_lock_shared(),
        (Access::Write, false) => file.try_lock(),
        (Access::Read, true) => file.lock_shared().map_err(TryLockError::Error),
        (Access::Write, true) => file.lock().map_err(TryLockError::Error),
    };
    match answer {
        Ok(()) => Ok(Some(file)),
        Err(TryLockError::WouldBlock) => Err(NoLock::InUse(wanted.file)),
        Err(TryLockError::Error(_)) => Err(NoLock::CannotLock(wanted.file)),
    }
}

/// Whether a descriptor beside the standard streams is open on this file, as far as the system
/// shows that. If it does not show it, the lock is asked for, and found in use.
fn is_handed_down(rt: &HostRuntime, metadata: &Metadata) -> bool {
    let Ok(descriptors) = fs::read_dir(rt, "/proc/self/fd") else {
        return false;
    };
    for descriptor in descriptors {
        if let Ok(descriptor) = descriptor
            && !matches!(descriptor.file_name(), "0" | "1" | "2")
            && let Ok(found) = fs::metadata(rt, descriptor.path())
            && found.dev() == metadata.dev()
            && found.ino() == metadata.ino()
        {
            return true;
        }
    }
    false
}
