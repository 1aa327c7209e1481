//! Disks over files: over one in memory, byte by byte, and over files of the system.
use super::script::plays_on;
use std::alloc::{AllocError, Global};
use std::fs;
use std::marker::Brand;
use std::process::Abort;
use std::test::Fail;
use vm_disk::{DeviceFault, FileDisk, History, Positional, SystemFile};
use vm_types::Block;

/// A file in memory. Contracts know how many of its calls failed, and no more. When it is set to
/// fail, every call fails. Zeros past its room are not written.
#[derive(Drop)]
struct Bytes {
    bytes: Vec<u8>,
    fails: bool,
    room: usize,
    failed: History<()>,
}

/// Copies bytes from an offset on, unless they end before.
fn copy_from(bytes: &[u8], offset: u64, into: &mut Block) -> Result<(), DeviceFault> {
    for (k, to) in into.iter_mut().enumerate() {
        *to = *bytes
            .get((offset as usize).saturating_add(k))
            .ok_or(DeviceFault)?;
    }
    Ok(())
}

/// Sets a byte, or adds it at the end.
fn set(bytes: &mut Vec<u8>, at: usize, byte: u8) -> Result<(), DeviceFault> {
    if at < bytes.len() {
        bytes[at] = byte;
        return Ok(());
    }
    bytes.push(byte).map_err(|_| DeviceFault)
}

/// Sets bytes from an offset on, or adds them at the end.
fn set_all(bytes: &mut Vec<u8>, from: &[u8], offset: u64) -> Result<(), DeviceFault> {
    for (k, byte) in from.iter().enumerate() {
        set(bytes, (offset as usize).saturating_add(k), *byte)?;
    }
    Ok(())
}

/// Makes bytes from an offset on zero, or adds zeros at the end.
fn set_zeros(bytes: &mut Vec<u8>, count: usize, offset: u64) -> Result<(), DeviceFault> {
    for k in 0..count {
        set(bytes, (offset as usize).saturating_add(k), 0)?;
    }
    Ok(())
}

impl Bytes {
    ghost use Rattle.std.specs.Prelude.{◌≡◌, ◌<◌, length, OnErr, OnOk};
    ghost use Rattle.vm_disk.specs.Past.{noted};

    /// Returns an answer, or a fault if every call is set to fail. A fault is noted.
    fn told(&mut self, answer: Result<(), DeviceFault>) -> Result<(), DeviceFault>
        ensures fault { OnErr result (length (noted self.old.failed) < length (noted self.new.failed)) }
        ensures fine { OnOk result (noted self.new.failed ≡ noted self.old.failed) }
    {
        if self.fails || answer.is_err() {
            self.failed.note(&());
            return Err(DeviceFault);
        }
        Ok(())
    }
}

impl Positional for Bytes {
    ghost use Rattle.std.specs.Prelude.{false, [], length};
    ghost use Rattle.vm_disk.specs.Past.{noted};

    ghost state = { λ file. record { honest = false; bytes = []; waiting = []; failures = length (noted file.failed) } };

    fn len(&mut self) -> Result<u64, DeviceFault> {
        self.told(Ok(()))?;
        Ok(self.bytes.len() as u64)
    }

    fn read_at(&mut self, into: &mut Block, offset: u64) -> Result<(), DeviceFault> {
        let answer = copy_from(&self.bytes, offset, into);
        self.told(answer)
    }

    fn write_at(&mut self, from: &Block, offset: u64) -> Result<(), DeviceFault> {
        self.told(Ok(()))?;
        let answer = set_all(&mut self.bytes, from, offset);
        self.told(answer)
    }

    fn write_blocks_at(&mut self, from: &[Block], offset: u64) -> Result<(), DeviceFault> {
        self.told(Ok(()))?;
        let answer = set_all(&mut self.bytes, from.as_flattened(), offset);
        self.told(answer)
    }

    fn write_zeros_at(&mut self, count: usize, offset: u64) -> Result<(), DeviceFault> {
        self.told(Ok(()))?;
        let answer = if self.room < (offset as usize).saturating_add(count) {
            Err(DeviceFault)
        } else {
            set_zeros(&mut self.bytes, count, offset)
        };
        self.told(answer)
    }

    fn sync(&mut self) -> Result<(), DeviceFault> {
        self.told(Ok(()))
    }
}

/// A file of this many bytes: 1 in each byte of block 0, 2 in those of block 1, and so on.
fn numbered(alloc: Global, count: usize) -> Result<Bytes, AllocError> {
    let mut bytes = Vec::new(alloc);
    for k in 0..count {
        bytes.push((k / 4096 % 255) as u8 + 1)?;
    }
    Ok(Bytes {
        bytes,
        fails: false,
        room: usize::MAX,
        failed: History::new(),
    })
}

/// Played on the disk over a file of numbered blocks.
struct Row {
    name: &'static str,
    /// How many bytes the file has, and has room for.
    bytes: usize,
    room: usize,
    steps: &'static str,
    /// How many bytes it has then, and some of these.
    left: usize,
    holds: &'static [(usize, u8)],
}

const ROWS: [Row; 4] = [
    Row {
        name: "reads and writes at its offsets",
        bytes: 12298,
        room: 12298,
        steps: "
            blocks -> 3
            holds 0 1 2 -> 1 2 3
            fill 1 7
            sync
            holds 1 -> 7
            hand 0 1 2 -> 1 7 3",
        left: 12298,
        holds: &[(4095, 1), (4096, 7), (8191, 7), (8192, 3), (12297, 4)],
    },
    Row {
        name: "writes blocks in a row at their offsets",
        bytes: 5 * 4096,
        room: 5 * 4096,
        steps: "
            run 1 7 8 9
            holds 0 1 2 3 4 -> 1 7 8 9 5",
        left: 5 * 4096,
        holds: &[],
    },
    Row {
        name: "gets longer",
        bytes: 12298,
        room: 81920,
        steps: "
            grow 20
            blocks -> 20
            fill 19 7
            holds 0 2 3 18 19 -> 1 3 0 0 7",
        left: 81920,
        holds: &[],
    },
    Row {
        name: "keeps its blocks where there is no room",
        bytes: 12288,
        room: 30 * 4096,
        steps: "
            grow 36 -> fault
            blocks -> 3
            grow 30
            holds 18 -> 0
            blocks -> 30",
        left: 30 * 4096,
        holds: &[],
    },
];

/// Plays a row.
fn plays_row<R: AllocGlobal + Abort>(rt: &R, row: &Row) -> Result<(), Fail> {
    let mut file = numbered(rt.alloc(), row.bytes)?;
    file.room = row.room;
    let Ok(disk) = FileDisk::open(file) else {
        panic!(rt; "{}: no disk", row.name);
    };
    let disk = plays_on(rt, row.name, "in memory", disk, row.steps);
    let bytes = disk.into_file().bytes;
    assert_eq!(rt; bytes.len(), row.left, "{}", row.name);
    for (at, byte) in row.holds {
        assert_eq!(rt;
            bytes.get(*at).copied(),
            Some(*byte),
            "{}, byte {at}",
            row.name
        );
    }
    Ok(())
}

#[test]
fn file_reads_and_writes_at_its_offsets(rt: HostRuntime) -> Result<(), Fail> {
    for row in &ROWS {
        plays_row(&rt, row)?;
    }
    Ok(())
}

#[test]
fn file_is_made_of_zero_blocks(rt: HostRuntime) -> Result<(), Fail> {
    let Ok(disk) = FileDisk::create(numbered(rt.alloc(), 0)?, 17) else {
        panic!(rt; "no disk");
    };
    let disk = plays_on(&rt, "of 17 blocks", "in memory", disk, "blocks -> 17");
    let file = disk.into_file();
    assert_eq!(rt; file.bytes.len(), 69632);
    assert!(rt; file.bytes.iter().all(|byte| *byte == 0));
    Ok(())
}

#[test]
fn file_that_fails(rt: HostRuntime) -> Result<(), Fail> {
    let mut file = numbered(rt.alloc(), 4096)?;
    file.fails = true;
    let row = "
        holds 0 -> fault
        hand 0 -> fault
        fill 0 7 -> fault
        sync -> fault
        grow 2 -> fault
        blocks -> 1";
    let disk = plays_on(
        &rt,
        "each call fails",
        "in memory",
        FileDisk::over(file, 1),
        row,
    );
    let file = disk.into_file();
    assert_eq!(rt; file.bytes.get(0).copied(), Some(1));
    let Err(file) = FileDisk::open(file) else {
        panic!(rt; "a disk");
    };
    assert!(rt; FileDisk::create(file, 17).is_err());
    Ok(())
}

/// A file of the system.
type OnSystem = SystemFile<Brand>;

/// A disk of 17 blocks over a new file.
fn made(rt: &HostRuntime, path: &str) -> Result<FileDisk<OnSystem>, Fail> {
    match OnSystem::create(rt, path, &History::new()) {
        Some(file) => FileDisk::create(file, 17).map_err(|_| Fail::new("not written")),
        None => Err(Fail::new("not made")),
    }
}

/// A disk over an existing file.
fn opened(rt: &HostRuntime, path: &str) -> Result<FileDisk<OnSystem>, Fail> {
    let mut opened = History::new();
    opened.note(&());
    match OnSystem::open(rt, path, &opened) {
        Some(file) => FileDisk::open(file).map_err(|_| Fail::new("not measured")),
        None => Err(Fail::new("not opened")),
    }
}

/// The same, read only.
fn opened_to_read(rt: &HostRuntime, path: &str) -> Result<FileDisk<OnSystem>, Fail> {
    match OnSystem::open_to_read(rt, path, &History::new()) {
        Some(file) => FileDisk::open(file).map_err(|_| Fail::new("not measured")),
        None => Err(Fail::new("not opened")),
    }
}

/// Whether there is a file that can be opened this way.
fn is_opened(rt: &HostRuntime, path: &str) -> bool {
    OnSystem::open(rt, path, &History::new()).is_some()
}

fn is_opened_to_read(rt: &HostRuntime, path: &str) -> bool {
    OnSystem::open_to_read(rt, path, &History::new()).is_some()
}

#[test]
fn system_file_holds_what_was_written(rt: HostRuntime) -> Result<(), Fail> {
    let path = "vm_disk_system_file_test";
    let _ = fs::remove_file(&rt, path);
    let row = "
        fill 16 7
        run 4 1 2 3
        sync";
    let _made = plays_on(&rt, "a file", "as it is made", made(&rt, path)?, row);
    let again = "
        blocks -> 17
        holds 0 3 4 5 6 7 15 16 -> 0 0 1 2 3 0 0 7";
    let _again = plays_on(&rt, "a file", "opened again", opened(&rt, path)?, again);
    fs::remove_file(&rt, path)?;
    Ok(())
}

#[test]
fn system_file_opened_to_read_is_never_written(rt: HostRuntime) -> Result<(), Fail> {
    let path = "vm_disk_read_alone_test";
    let _ = fs::remove_file(&rt, path);
    fs::write(&rt, path, &[7; 12288])?;
    let row = "
        blocks -> 3
        fill 1 8 -> fault
        run 0 4 5 6 -> fault
        sync
        holds 1 -> 7";
    let _disk = plays_on(
        &rt,
        "a file",
        "opened to read",
        opened_to_read(&rt, path)?,
        row,
    );
    fs::remove_file(&rt, path)?;
    assert!(rt; !is_opened_to_read(&rt, path));
    for path in [".", "/dev/null"] {
        assert!(rt; !is_opened_to_read(&rt, path), "{path}");
        assert!(rt; !is_opened(&rt, path), "{path}");
    }
    Ok(())
}
