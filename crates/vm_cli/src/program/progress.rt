//! The progress of a long job, shown on a terminal.
//!
//! The line is written only to the standard error, and is no part of any answer: no contract says
//! what is written there, and a failure to write it is ignored. A watched file and a stream over
//! which the line is cleared are passed on as they are, except that nothing more is written once a
//! reader is gone.
ghost use Rattle.std.specs.Prelude.{◌≡◌};
ghost use Rattle.vm_cli.specs.program.Progress.{file_below, stream_below};

use crate::answers::text::Text;
use crate::program::warm_up::WarmUp;
use std::cell::Cell;
use std::io::{self, ErrorKind, IsTerminal, Read, Write};
use std::time::{Duration, Instant};
use vm_disk::{DeviceFault, Positional};

/// How many blocks are counted between two looks at the clock.
const BETWEEN_LOOKS: u64 = 64;

/// A job that takes fewer milliseconds shows nothing.
const UNTIL_FIRST: u64 = 1000;

/// A line stays as it is for this many milliseconds.
const UNTIL_NEXT: u64 = 200;

/// Erases a line.
const BLANK: &[u8] = b"\r                                                            \r";

/// A line on the standard error, if that is a terminal, with the number of blocks that a job has
/// read and written so far. A job lasts until a stream is used over which the line is cleared.
/// Until then, if the job reads every block of a store and its reads are slow, as from a cold disk,
/// the file is read whole.
#[derive(Drop)]
pub struct Progress {
    terminal: Option<HostRuntime>,
    blocks: Cell<u64>,
    total: Cell<u64>,
    due: Cell<Option<Instant>>,
    is_shown: Cell<bool>,
    // A write went to a pipe that no one reads any more.
    is_unread: Cell<bool>,
    warm_up: WarmUp,
}

impl Progress {
    /// No line so far. If the standard error is not a terminal, none is ever written.
    pub fn new(rt: &HostRuntime) -> Progress {
        let terminal = if rt.stderr().is_terminal() {
            Some(*rt)
        } else {
            None
        };
        Progress {
            terminal,
            blocks: Cell::new(0),
            total: Cell::new(0),
            due: Cell::new(None),
            is_shown: Cell::new(false),
            is_unread: Cell::new(false),
            warm_up: WarmUp::new(rt),
        }
    }

    /// Makes the line show how many blocks there are in all, as long as no more were counted.
    fn set_total(&self, blocks: u64) {
        self.total.set(blocks);
    }

    /// Starts counting again, for a file of this many blocks that is being made.
    pub(crate) fn begin(&self, blocks: u64) {
        self.blocks.set(0);
        self.total.set(blocks);
    }

    /// Counts blocks that are read or written.
    fn count(&self, blocks: u64) {
        let Some(rt) = &self.terminal else {
            return;
        };
        let before = self.blocks.get();
        let after = before.saturating_add(blocks);
        self.blocks.set(after);
        if after / BETWEEN_LOOKS != before / BETWEEN_LOOKS {
            self.look(rt);
        }
    }

    /// Counts a block that is read, and reads the file whole when that is due.
    fn count_read(&self) {
        if self.warm_up.is_due(self.total.get()) {
            self.tell_warm_up();
            self.warm_up.read_whole();
        }
        self.count(1);
    }

    /// Says that the file is being read whole.
    fn tell_warm_up(&self) {
        let Some(rt) = &self.terminal else {
            return;
        };
        let _ = rt
            .stderr()
            .write(b"\raltctl: reading the whole file into memory");
        self.is_shown.set(true);
    }

    /// Counts new blocks, from this one on. Past the total they lengthen the file; its final length
    /// is not known here.
    fn count_new(&self, first: u64, blocks: u64) {
        if first >= self.total.get() {
            self.total.set(0);
        }
        self.count(blocks);
    }

    /// Rewrites the line when it is time to. Kept out of line so that the calls of a file do not
    /// carry its large frame.
    #[inline(never)]
    fn look(&self, rt: &HostRuntime) {
        let Ok(now) = Instant::now(rt) else {
            return;
        };
        let Some(due) = self.due.get() else {
            self.due.set(later(now, UNTIL_FIRST));
            return;
        };
        if now >= due {
            self.show(rt);
            self.due.set(later(now, UNTIL_NEXT));
        }
    }

    /// Writes the line.
    fn show(&self, rt: &HostRuntime) {
        let blocks = self.blocks.get();
        let total = self.total.get();
        let mut text = Text::new();
        text.push_bytes(b"\raltctl: ");
        text.push_number(blocks);
        if blocks <= total {
            text.push_bytes(b" of ");
            text.push_number(total);
        }
        text.push_bytes(b" blocks");
        let _ = rt.stderr().write(text.as_bytes());
        self.is_shown.set(true);
    }

    /// Ends a job, and erases its line.
    fn clear(&self) {
        self.warm_up.end();
        self.blocks.set(0);
        self.due.set(None);
        let Some(rt) = &self.terminal else {
            return;
        };
        if self.is_shown.replace(false) {
            let _ = rt.stderr().write(BLANK);
        }
    }
}

/// This many milliseconds later, if the clock can represent that.
fn later(now: Instant, millis: u64) -> Option<Instant> {
    now.checked_add(Duration::from_millis(millis))
}

/// A file whose calls are counted. Each call is passed on as it came.
#[derive(Drop)]
pub struct Watched<'a, F> {
    file: F,
    progress: &'a Progress,
}

impl<'a, F> Watched<'a, F> {
    /// A file whose calls are counted there.
    pub fn new(file: F, progress: &'a Progress) -> Watched<'a, F>
        ensures { file_below result ≡ file }
    {
        Watched { file, progress }
    }
}

impl<F: Positional> Positional for Watched<'_, F> {
    ghost state = { λ watched. F.state (file_below watched) };

    fn len(&mut self) -> Result<u64, DeviceFault> {
        let length = self.file.len();
        if let Ok(bytes) = &length {
            self.progress.set_total(*bytes / 4096);
        }
        length
    }

    fn read_at(&mut self, into: &mut [u8; 4096], offset: u64) -> Result<(), DeviceFault> {
        self.progress.count_read();
        self.file.read_at(into, offset)
    }

    fn write_at(&mut self, from: &[u8; 4096], offset: u64) -> Result<(), DeviceFault> {
        self.progress.count(1);
        self.file.write_at(from, offset)
    }

    fn write_blocks_at(&mut self, from: &[[u8; 4096]], offset: u64) -> Result<(), DeviceFault> {
        self.progress.count(from.len() as u64);
        self.file.write_blocks_at(from, offset)
    }

    fn write_zeros_at(&mut self, count: usize, offset: u64) -> Result<(), DeviceFault> {
        self.progress.count_new(offset / 4096, count as u64 / 4096);
        self.file.write_zeros_at(count, offset)
    }

    fn sync(&mut self) -> Result<(), DeviceFault> {
        self.file.sync()
    }
}

/// A stream of the program. The line on the terminal is cleared before the stream is read or
/// written. After a write to a pipe that no longer has a reader, nothing is written to any of the
/// program's streams: the program ends silently, as `altctl .. | head -1` should.
#[derive(Drop)]
pub struct Cleared<'a, S> {
    stream: S,
    progress: &'a Progress,
}

impl<'a, S> Cleared<'a, S> {
    /// A stream over which this line is cleared.
    pub fn new(stream: S, progress: &'a Progress) -> Cleared<'a, S>
        ensures { stream_below result ≡ stream }
    {
        Cleared { stream, progress }
    }

    /// Erases the line.
    pub(crate) fn clear(&self) {
        self.progress.clear();
    }
}

impl<S: IsTerminal> Cleared<'_, S> {
    /// Whether the stream is a terminal.
    pub(crate) fn is_terminal(&self) -> bool {
        self.stream.is_terminal()
    }
}

impl<S: Read> Read for Cleared<'_, S> {
    ghost remaining = { λ cleared. S.remaining (stream_below cleared) };

    fn read(&mut self, buf: &mut [u8]) -> io::Result<usize> {
        self.progress.clear();
        self.stream.read(buf)
    }
}

impl<S: Write> Write for Cleared<'_, S> {
    ghost contents = { λ cleared. S.contents (stream_below cleared) };

    fn write(&mut self, buf: &[u8]) -> io::Result<usize> {
        self.progress.clear();
        if self.progress.is_unread.get() {
            return Err(io::Error::from(ErrorKind::BrokenPipe));
        }
        let answer = self.stream.write(buf);
        if let Err(error) = &answer
            && error.kind() == ErrorKind::BrokenPipe
        {
            self.progress.is_unread.set(true);
        }
        answer
    }

    fn flush(&mut self) -> io::Result<()> {
        self.stream.flush()
    }
}
