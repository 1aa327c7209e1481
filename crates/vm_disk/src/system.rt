//! A file of the system, as contracts can know it.
ghost use Rattle.std.specs.Prelude.{◌≡◌, ℕ, ◌*◌, ◌<ℤ◌, pos, ◌≤◌, true, false, not, List, [], Option, None, length, replicate, IfSome};
ghost use Rattle.std.specs.Fd.{file_raw_fd};
ghost use Rattle.std.specs.Fs.{asks_append, asks_create, asks_create_new, asks_truncate, asks_write};
ghost use Rattle.vm_disk.specs.Past.{noted};
ghost use Rattle.vm_disk.specs.Positional.{CountsFailures};
ghost use Rattle.vm_disk.specs.Between.{Between};
ghost use Rattle.vm_disk.specs.Opening.{KeepsFile};
ghost use Rattle.vm_disk.specs.Syncs.{counts_as_synced};

use crate::disk::DeviceFault;
use crate::history::{History, noted_blocks, noted_bytes};
use crate::positional::{MAX_ZEROS, Positional};
use std::fs::{self, File, Metadata, OpenOptions};
use std::io::{self, Seek, SeekFrom};
use std::marker::{Brand, PhantomData};
use std::os::fd::{AsRawFd, RawFd};
use std::os::unix::fs::{FileExt, FileTypeExt, MetadataExt, OpenOptionsExt};
use std::rt::Files;
use std::snapshot::Snapshot;
use vm_types::{BLOCK_SIZE, Block};

/// The standard input, output and error have the descriptors 0, 1 and 2.
pub const LAST_STANDARD: RawFd = 2;

/// Where the system shows what the standard input is open on.
const INPUT: &str = "/proc/self/fd/0";

/// Where it shows what the standard output is open on.
const OUTPUT: &str = "/proc/self/fd/1";

/// What the system answers to a sync of a file that has nothing to sync.
const EINVAL: i32 = 22;

/// The permission bits of a file that is made: its owner alone reads and writes it.
const OWNER_ALONE: u32 = 0o600;

/// What no program can know about the files of a system, stated for contracts alone. It has no
/// functions: code that is written for any world is proved for every one.
pub trait World {
    /// What the file of a name held when this many files had been opened. None if there was none.
    ghost held: { ℕ → List ℕ → Option (List ℕ) };

    /// What a failed write left in the file of a name, by how many files had been opened before it
    /// was, and how many calls on it came before that write.
    ghost torn: { ℕ → List ℕ → ℕ → List ℕ };
}

impl World for Brand {
    ghost held = { λ opened name. None };

    ghost torn = { λ opened name calls. [] };
}

/// A call that was made on a file. Torn is a failed write, Withheld a write that was not made,
/// Rewritten a write of the bytes that stood there, whether it failed or not, Synced a sync with the
/// system's answer, and Failed any other failed call, which did nothing.
#[derive(Drop)]
enum Call {
    Created,
    Measured(u64),
    Read(u64, Snapshot<Block>),
    Rewritten(u64, Snapshot<Block>),
    Written(u64, Snapshot<Block>),
    Blocks(u64, History<Block>),
    Zeroed(u64, usize),
    Torn(u64, usize),
    Withheld(u64, usize),
    Synced(Snapshot<io::Result<()>>),
    Failed,
}

/// Whether this is the name of a plain file or a block device: not a folder, and not a pipe or
/// another device, where opening alone may wait for others or have an effect.
fn has_blocks(rt: &impl Files, path: &str) -> bool {
    match fs::metadata(rt, path) {
        Ok(metadata) => is_plain_or_device(&metadata),
        Err(_) => false,
    }
}

/// How a file is made: with none in its place before, and for its owner alone to read and write.
fn how_to_create() -> OpenOptions
    ensures new { asks_create_new result ≡ true }
    ensures writes { asks_write result ≡ true }
    ensures keeps { KeepsFile result }
{
    let mut how = OpenOptions::new();
    // No contract says that the bits change nothing else, so all else is said after them.
    how.mode(OWNER_ALONE);
    how.read(true).write(true).create_new(true);
    how.append(false).truncate(false).create(false);
    how
}

/// Whether this is a plain file or a block device.
fn is_plain_or_device(metadata: &Metadata) -> bool {
    metadata.is_file() || metadata.file_type().is_block_device()
}

/// Whether this stream is open on this file, as far as the system shows that.
fn is_open_on(rt: &impl Files, stream: &str, metadata: &Metadata) -> bool {
    match fs::metadata(rt, stream) {
        Ok(stream) => stream.dev() == metadata.dev() && stream.ino() == metadata.ino(),
        Err(_) => false,
    }
}

/// The length of a file in bytes. For a block device, the system gives it only as the position of
/// the end.
fn length_of(mut file: &File) -> io::Result<u64> {
    let metadata = file.metadata()?;
    if metadata.is_file() {
        return Ok(metadata.len());
    }
    file.seek(SeekFrom::End(0))
}

/// How many zeros one write has.
const ZEROS_AT_ONCE: usize = 65_536;

/// Makes `count` bytes of a file from an offset on zero. Where a plain file ends, or before, they
/// are a hole: they are read as zeros, and take no room before they are written.
fn make_zero(file: &File, count: usize, offset: u64) -> io::Result<()> {
    let metadata = file.metadata()?;
    if metadata.is_file() && metadata.len() <= offset {
        return file.set_len(offset.saturating_add(count as u64));
    }
    let zeros = [0; ZEROS_AT_ONCE];
    for i in 0..count.div_ceil(ZEROS_AT_ONCE) {
        let done = i.saturating_mul(ZEROS_AT_ONCE);
        let more = count.saturating_sub(done).min(ZEROS_AT_ONCE);
        file.write_all_at(&zeros[..more], offset.saturating_add(done as u64))?;
    }
    Ok(())
}

/// Whether all writes are durable after a sync with this answer. Some file systems that cannot be
/// written answer that there is nothing to sync. That counts for a file that was opened read only.
fn is_synced(reads_alone: bool, answer: &io::Result<()>) -> bool
    ensures { result ≡ counts_as_synced reads_alone answer.now }
{
    match answer {
        Ok(()) => true,
        Err(error) => reads_alone && error.raw_os_error() == Some(EINVAL),
    }
}

/// A file of the system. It holds what the world says that it held when it was opened, with the
/// writes so far on top. It is honest as long as each read gives these bytes, and its length
/// agrees. What contracts know of it takes no memory and no time.
///
/// Assumed, and in no contract: which bytes a sync makes durable, and that no one else writes the
/// file between two openings.
///
/// Its descriptor is none of the standard ones. As far as the system shows, the standard output is
/// not open on it, nor is the standard input if it may be written: what is written and read there
/// never is the file. A file that was opened read only is never written.
#[derive(Drop)]
pub struct SystemFile<W> {
    file: File,
    reads_alone: bool,
    name: History<u8>,
    opened: Snapshot<History<()>>,
    calls: History<Call>,
    world: PhantomData<W>,
    ghost apart: { pos 2 <ℤ file_raw_fd file },
}

impl<W: World> SystemFile<W> {
    ghost use Rattle.vm_disk.specs.System.{fresh, found, found_after, opening_calls, IsOpenedAs};

    /// Opens an existing plain file or block device for reading and writing, after the `opened`
    /// others. None if it cannot be opened, is neither of these, has a standard descriptor, or is
    /// what the standard input or output is open on.
    pub fn open(
        rt: &impl Files<File = File>,
        path: &str,
        opened: &History<()>,
    ) -> Option<SystemFile<W>>
        ensures { IfSome result (IsOpenedAs W.held W.torn false (noted opened.now) path.now
            (found W.held (noted opened.now) path.now)) }
    {
        if !has_blocks(rt, path) {
            return None;
        }
        let mut how = OpenOptions::new();
        how.read(true).write(true);
        SystemFile::opened(rt, &how, path, opened)
    }

    /// Opens an existing plain file or block device read only, after the `opened` others: each
    /// write fails, and none is made. None if it cannot be opened, is neither of these, has a
    /// standard descriptor, or is what the standard output is open on.
    pub fn open_to_read(
        rt: &impl Files<File = File>,
        path: &str,
        opened: &History<()>,
    ) -> Option<SystemFile<W>>
        ensures { IfSome result (IsOpenedAs W.held W.torn true (noted opened.now) path.now
            (found W.held (noted opened.now) path.now)) }
    {
        if !has_blocks(rt, path) {
            return None;
        }
        let mut how = OpenOptions::new();
        how.read(true);
        SystemFile::opened(rt, &how, path, opened)
    }

    /// Creates an empty file that does not exist yet, for reading and writing, after the `opened`
    /// others. None if it cannot be created, or has a standard descriptor.
    pub fn create(
        rt: &impl Files<File = File>,
        path: &str,
        opened: &History<()>,
    ) -> Option<SystemFile<W>>
        ensures { IfSome result (IsOpenedAs W.held W.torn false (noted opened.now) path.now (fresh [])) }
    {
        SystemFile::opened(rt, &how_to_create(), path, opened)
    }

    /// Opens a file in this way, which changes none that is there, after the `opened` others. It is
    /// created if the way asks for a new one, and read only if it asks for no writes. None if it
    /// cannot be opened, is neither a plain file nor a block device after all, has a standard
    /// descriptor, is what the standard output is open on, or, if it may be written, what the
    /// standard input is open on.
    fn opened(
        rt: &impl Files<File = File>,
        how: &OpenOptions,
        path: &str,
        opened: &History<()>,
    ) -> Option<SystemFile<W>>
        requires { KeepsFile how.now }
        ensures { IfSome result (IsOpenedAs W.held W.torn
            (not (asks_write how.now)) (noted opened.now) path.now
            (found_after W.held W.torn (not (asks_write how.now)) (noted opened.now) path.now
            (opening_calls how.now))) }
    {
        let file = how.open(rt, path).ok()?;
        let metadata = file.metadata().ok()?;
        if !is_plain_or_device(&metadata)
            || file.as_raw_fd() <= LAST_STANDARD
            || is_open_on(rt, OUTPUT, &metadata)
            || how.asks_write() && is_open_on(rt, INPUT, &metadata)
        {
            return None;
        }
        let mut calls = History::new();
        if how.asks_create_new() {
            calls.note(&Call::Created);
        }
        Some(SystemFile {
            file,
            reads_alone: !how.asks_write(),
            name: noted_bytes(path.as_bytes()),
            opened: Snapshot::of(opened),
            calls,
            world: PhantomData,
        })
    }
}

impl<W: World> SystemFile<W> {
    ghost use Rattle.vm_disk.specs.System.{system_state, is_read_alone, IfHonestIn, KeepsState, Rewrites};

    /// Reads the block at this offset, and writes it there again as it was read. After the next sync
    /// the device has it, even if a sync that failed before let the system count it as written.
    ///
    /// Assumed, and in no contract but the meaning of `Rewritten`: the same bytes written over
    /// themselves leave those bytes, whether the write succeeds or is cut off.
    pub fn rewrite(&mut self, offset: u64) -> Result<(), DeviceFault>
        ensures any { Between (system_state W.held W.torn) (CountsFailures result) self.old self.new }
        ensures honest { IfHonestIn W.held W.torn KeepsState self.old self.new }
        ensures rewritten { Rewrites offset result self.old self.new }

        ensures mode { is_read_alone self.new ≡ is_read_alone self.old }
    {
        let mut block = [0; BLOCK_SIZE];
        if self.file.read_exact_at(&mut block, offset).is_err() {
            self.calls.note(&Call::Failed);
            return Err(DeviceFault);
        }
        self.calls.note(&Call::Read(offset, Snapshot::of(&block)));
        let written = self.file.write_all_at(&block, offset);
        self.calls
            .note(&Call::Rewritten(offset, Snapshot::of(&block)));
        if written.is_err() {
            self.calls.note(&Call::Failed);
            return Err(DeviceFault);
        }
        Ok(())
    }
}

impl<W: World> Positional for SystemFile<W> {
    ghost use Rattle.vm_disk.specs.System.{system_state, system_does};

    ghost state = { system_state W.held W.torn };

    ghost does = { system_does W.held W.torn };

    fn len(&mut self) -> Result<u64, DeviceFault> {
        let Ok(count) = length_of(&self.file) else {
            self.calls.note(&Call::Failed);
            return Err(DeviceFault);
        };
        self.calls.note(&Call::Measured(count));
        Ok(count)
    }

    fn read_at(&mut self, into: &mut Block, offset: u64) -> Result<(), DeviceFault> {
        if self.file.read_exact_at(into, offset).is_err() {
            self.calls.note(&Call::Failed);
            return Err(DeviceFault);
        }
        self.calls.note(&Call::Read(offset, Snapshot::of(into)));
        Ok(())
    }

    fn write_at(&mut self, from: &Block, offset: u64) -> Result<(), DeviceFault> {
        if self.reads_alone {
            self.calls.note(&Call::Withheld(offset, BLOCK_SIZE));
            return Err(DeviceFault);
        }
        if self.file.write_all_at(from, offset).is_err() {
            self.calls.note(&Call::Torn(offset, BLOCK_SIZE));
            return Err(DeviceFault);
        }
        self.calls.note(&Call::Written(offset, Snapshot::of(from)));
        Ok(())
    }

    fn write_blocks_at(&mut self, from: &[Block], offset: u64) -> Result<(), DeviceFault> {
        let bytes = from.as_flattened();
        if self.reads_alone {
            self.calls.note(&Call::Withheld(offset, bytes.len()));
            return Err(DeviceFault);
        }
        if self.file.write_all_at(bytes, offset).is_err() {
            self.calls.note(&Call::Torn(offset, bytes.len()));
            return Err(DeviceFault);
        }
        self.calls.note(&Call::Blocks(offset, noted_blocks(from)));
        Ok(())
    }

    fn write_zeros_at(&mut self, count: usize, offset: u64) -> Result<(), DeviceFault> {
        if self.reads_alone {
            self.calls.note(&Call::Withheld(offset, count));
            return Err(DeviceFault);
        }
        if make_zero(&self.file, count, offset).is_err() {
            self.calls.note(&Call::Torn(offset, count));
            return Err(DeviceFault);
        }
        self.calls.note(&Call::Zeroed(offset, count));
        Ok(())
    }

    fn sync(&mut self) -> Result<(), DeviceFault> {
        let answer = self.file.sync_all();
        self.calls.note(&Call::Synced(Snapshot::of(&answer)));
        if is_synced(self.reads_alone, &answer) {
            Ok(())
        } else {
            Err(DeviceFault)
        }
    }
}
