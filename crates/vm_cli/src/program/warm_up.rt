//! Reading a cold file whole, for a task that reads every block of its store.
//!
//! Such a task reads the blocks that versions reach, in the order of their trees. On a cold disk
//! each of these reads waits for the device. Reading the file from beginning to end is many times
//! faster, and the system then has its blocks in memory. This is at the edge of the program: no
//! contract rests on it, it only reads, and whatever fails in it is ignored.

use crate::program::words::lock_wanted;
use std::cell::Cell;
use std::env;
use std::fs::{self, File, OpenOptions};
use std::os::fd::AsRawFd;
use std::os::unix::fs::{FileExt, FileTypeExt};
use std::time::Instant;
use vm_disk::LAST_STANDARD;

/// How many reads there are between two looks at the clock.
const BETWEEN_LOOKS: u64 = 256;

/// A read that takes this many microseconds on average came from a device, and not from memory.
const SLOW_READ: u128 = 40;

/// How many bytes of the file one call reads.
const PIECE: usize = 1 << 20;

/// Watches the reads of a task that reads every block, and reads the file whole if they are slow.
#[derive(Drop)]
pub(crate) struct WarmUp {
    rt: HostRuntime,
    is_watching: Cell<bool>,
    reads: Cell<u64>,
    begun: Cell<Option<Instant>>,
}

impl WarmUp {
    /// Watches reads, if the program's words name a task that reads every block of its store.
    pub(crate) fn new(rt: &HostRuntime) -> WarmUp {
        WarmUp {
            rt: *rt,
            is_watching: Cell::new(reads_all(rt)),
            reads: Cell::new(0),
            begun: Cell::new(None),
        }
    }

    /// Stops watching reads.
    pub(crate) fn end(&self) {
        self.is_watching.set(false);
    }

    /// Counts a read. Tells whether the reads so far were so slow that a file of this many blocks
    /// should be read whole.
    pub(crate) fn is_due(&self, blocks: u64) -> bool {
        if !self.is_watching.get() {
            return false;
        }
        let reads = self.reads.get().saturating_add(1);
        self.reads.set(reads);
        reads % BETWEEN_LOOKS == 0 && self.is_slow(reads, blocks)
    }

    /// Whether this many reads were slow, and took a microsecond for each block of the file. A file
    /// of which little is read is therefore not read whole.
    #[inline(never)]
    fn is_slow(&self, reads: u64, blocks: u64) -> bool {
        let Ok(now) = Instant::now(&self.rt) else {
            return false;
        };
        let Some(begun) = self.begun.get() else {
            self.begun.set(Some(now));
            return false;
        };
        let spent = now.duration_since(begun).as_micros();
        spent >= u128::from(reads) * SLOW_READ && spent >= u128::from(blocks)
    }

    /// Reads the file that the program's words name from beginning to end, and stops watching
    /// reads. If the words say that no lock is taken, or there is no memory for a piece, it reads
    /// nothing.
    #[inline(never)]
    pub(crate) fn read_whole(&self) {
        self.end();
        let Some(file) = opened(&self.rt) else {
            return;
        };
        let Ok(mut piece) = vec![in self.rt.alloc(); 0; PIECE] else {
            return;
        };
        let mut offset = 0_u64;
        for _ in 0..u64::MAX {
            match file.read_at(piece.as_mut_slice(), offset) {
                Ok(0) => return,
                Ok(count) => offset = offset.saturating_add(count as u64),
                Err(_) => return,
            }
        }
    }
}

/// The words that the program was started with.
fn words_of(rt: &HostRuntime) -> Option<Vec<String>> {
    env::args(rt).ok()?.collect(rt.alloc()).ok()
}

/// Whether the program's words name a task that reads every block of its store.
fn reads_all(rt: &HostRuntime) -> bool {
    let Some(words) = words_of(rt) else {
        return false;
    };
    let Some(task) = words.get(1) else {
        return false;
    };
    matches!(task.as_str(), "check" | "copy" | "tree")
}

/// Opens the file that the program's words name read only, if it is one with blocks.
fn opened(rt: &HostRuntime) -> Option<File> {
    let words = words_of(rt)?;
    let wanted = lock_wanted(rt.alloc(), words.as_slice()).ok()??;
    let metadata = fs::metadata(rt, wanted.file).ok()?;
    if !metadata.is_file() && !metadata.file_type().is_block_device() {
        return None;
    }
    let mut how = OpenOptions::new();
    how.read(true);
    let file = how.open(rt, wanted.file).ok()?;
    if file.as_raw_fd() <= LAST_STANDARD {
        return None;
    }
    Some(file)
}
