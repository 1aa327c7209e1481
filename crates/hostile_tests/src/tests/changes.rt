//! Stores with single bytes and single numbers of their blocks changed, and what a second reader
//! makes of them.
use super::commands::put;
use super::image::Image;
use super::reader::{Content, read_store};
use super::{BLOCKS, name};
use std::alloc::Global;
use std::process::Abort;
use std::test::Fail;
use testkit::{RecordingDisk, Wrong, top};
use vm_disk::{Disk, MemDisk};
use vm_store::{Store, format, open, open_whole};
use vm_types::{Answer, Block, Command, Key, Refusal, ValueRef};

/// The byte of a block at which the result was not the expected one, and the byte or number that
/// was set there.
type Place = (usize, u32);

/// A disk, what it holds, and what was found on it.
#[derive(Drop)]
struct Bench {
    alloc: Global,
    disk: RecordingDisk,
    image: Image,
    stores: u32,
}

/// Whether each alternative has a list, and the first one has these records.
fn has_lists(
    alloc: Global,
    store: &mut Store<RecordingDisk>,
    content: &Content,
) -> Result<bool, Wrong> {
    for (alt, _parent) in &store.alternatives(alloc)? {
        store.list(alloc, alt)?;
    }
    let records = store.list(alloc, &top())?;
    for ((key, value), due) in records.iter().zip(content.records.iter()) {
        if key != due.0 || value != due.1.as_bytes() {
            return Ok(false);
        }
    }
    Ok(records.len() == content.records.len())
}

/// Whether a freshly opened store is what the second reader has found.
fn is_same(
    alloc: Global,
    store: &mut Store<RecordingDisk>,
    content: Option<&Content>,
) -> Result<bool, Wrong> {
    let Some(content) = content else {
        return Ok(false);
    };
    let used = content.blocks.len();
    let free = store.free()? as usize;
    Ok(free.saturating_add(used) == 30 && has_lists(alloc, store, content)?)
}

/// Whether an opening that reads every block answered as it should, and read none twice.
fn is_due(
    alloc: Global,
    disk: RecordingDisk,
    content: Option<&Content>,
) -> Result<(RecordingDisk, bool), Wrong> {
    let (disk, opened) = match open_whole(alloc, disk) {
        Ok(store) => (store.close(), true),
        Err((disk, Refusal::NotAStore | Refusal::BadSize | Refusal::Damaged(_))) => (disk, false),
        Err((_, refusal)) => return Err(Wrong::Refused(refusal)),
    };
    let once = disk.most() <= 1;
    let Some(content) = content else {
        return Ok((disk, once && !opened));
    };
    let all = disk.count() == content.blocks.len().saturating_add(3);
    Ok((disk, once && opened && all))
}

/// Opens a disk that is a store, and compares what it shows.
fn shows(
    alloc: Global,
    disk: RecordingDisk,
    content: Option<&Content>,
) -> Result<(RecordingDisk, bool), Wrong> {
    match open(alloc, disk) {
        Ok(mut store) => {
            let same = is_same(alloc, &mut store, content);
            let disk = store.close();
            Ok((disk, same?))
        }
        Err((_, refusal)) => Err(Wrong::Refused(refusal)),
    }
}

impl Bench {
    fn new(alloc: Global, mut disk: MemDisk) -> Result<Bench, Wrong> {
        Ok(Bench {
            alloc,
            image: Image::of(alloc, &mut disk)?,
            disk: RecordingDisk::new(alloc, disk)?,
            stores: 0,
        })
    }

    fn set(&mut self, n: u32, bytes: &Block) -> Result<(), Wrong> {
        if n >= self.disk.blocks() {
            return Err(Wrong::Device);
        }
        self.image.set(n, bytes);
        self.disk.write(n, bytes)?;
        Ok(())
    }

    /// Opens the disk with this block changed to these bytes.
    fn try_block(self, n: u32, bytes: &Block) -> Result<Bench, Wrong> {
        let mut bench = self;
        let before = bench.image.block(n);
        bench.set(n, bytes)?;
        bench.disk.start();
        let Bench {
            alloc,
            disk,
            image,
            mut stores,
        } = bench;
        let content = read_store(alloc, &image);
        let (mut disk, mut due) = is_due(alloc, disk, content.as_ref())?;
        if content.is_some() && due {
            (disk, due) = shows(alloc, disk, content.as_ref())?;
            stores = stores.saturating_add(1);
        }
        if !due {
            return Err(Wrong::Differs(n));
        }
        let mut bench = Bench {
            alloc,
            disk,
            image,
            stores,
        };
        bench.set(n, &before)?;
        Ok(bench)
    }
}

/// A disk on which these commands are committed.
fn disk_of(alloc: Global, commands: &[Command<'_>]) -> Result<MemDisk, Wrong> {
    let mut store = open(alloc, format(MemDisk::new(alloc, BLOCKS)?, BLOCKS)?)?;
    let mut last = Ok(Answer::Done);
    for command in commands {
        last = last.and(store.apply(command));
    }
    let disk = store.close();
    last?;
    Ok(disk)
}

/// A disk of one record, in block 34.
fn one_record(alloc: Global, value: &[u8]) -> Result<MemDisk, Wrong> {
    let one = Command::Put {
        alt: top(),
        key: Key {
            table: 7,
            number: 1,
        },
        value: ValueRef::new(value).unwrap_or_default(),
    };
    disk_of(alloc, &[one, Command::Commit])
}

/// Sets each byte of a block to this one, one at a time, up to a given offset. The record has this
/// value. Returns how many of the disks are a store.
fn try_bytes(
    alloc: Global,
    value: &[u8],
    n: u32,
    byte: u8,
    to: usize,
    place: &mut Place,
) -> Result<u32, Wrong> {
    let mut bench = Bench::new(alloc, one_record(alloc, value)?)?;
    let before = bench.image.block(n);
    for at in 0..4096 {
        if at == to {
            break;
        }
        *place = (at, u32::from(byte));
        let mut bytes = before;
        bytes[at] = byte;
        bench = bench.try_block(n, &bytes)?;
    }
    Ok(bench.stores)
}

/// A disk of seventeen records, with the root in block 38 over leaves in 36 and 37, of which the
/// second has the last record. Blocks 39 to 47, 34 and 35 hold the leaf as it was with 6 to 16
/// records: a Checkpoint and an Uncheck after each Put end its series, so that no block is changed
/// in its place.
fn two_levels(alloc: Global) -> Result<MemDisk, Wrong> {
    let mut commands = Vec::new(alloc);
    let (alt, saved) = (top(), name(b"saved"));
    for number in 1..18 {
        for command in [
            put(b"top", number, &[b'v'; 240]),
            Command::Checkpoint { alt, name: saved },
            Command::Uncheck { alt, name: saved },
        ] {
            commands.push(command)?;
        }
    }
    commands.push(Command::Commit)?;
    disk_of(alloc, &commands)
}

/// Sets four bytes of a block of a disk to each number from 0 to 64, at each offset of a range.
/// Returns how many of the disks are a store.
fn try_words(
    alloc: Global,
    disk: MemDisk,
    n: u32,
    from: usize,
    to: usize,
    place: &mut Place,
) -> Result<u32, Wrong> {
    let mut bench = Bench::new(alloc, disk)?;
    let before = bench.image.block(n);
    for at in from..to {
        for number in 0..65u32 {
            *place = (at, number);
            let mut bytes = before;
            for (to, byte) in bytes.iter_mut().skip(at).zip(number.to_le_bytes()) {
                *to = byte;
            }
            bench = bench.try_block(n, &bytes)?;
        }
    }
    Ok(bench.stores)
}

/// A short value.
const DUCT: &[u8] = b"duct";

/// A longer value.
const LONG: &[u8] = &[0x61; 300];

/// The value of a record, a block, what each of its bytes is set to, up to which one, and how many
/// of the disks are then a store.
const BYTES: [(&[u8], u32, u8, usize, u32); 10] = [
    // A byte that is zero stays so: all but 10 of the header, 13 of the slot and 12 of the leaf. Of
    // those, the root may be none, and the table, the number and the letters of the value may be
    // others. The value may end later, as far as there are zeros. Every selector names a slot, and
    // what follows the entry in its slot is ignored.
    (DUCT, 0, 0, 4096, 4096 - 10),
    (DUCT, 0, 0xFF, 4096, 0),
    (DUCT, 1, 0, 4096, 4096),
    (DUCT, 1, 0xFF, 4096, 4096),
    (DUCT, 18, 0, 4096, 4096 - 13 + 1),
    (DUCT, 18, 0xFF, 4096, 4096 - 256),
    (DUCT, 34, 0, 4096, 4096 - 12 + 6),
    (DUCT, 34, 0xFF, 4096, 2 + 8 + 1 + 4),
    // The same for the first bytes of a leaf of a value of 300 bytes. It may end after 511, and not
    // after 256 or 44.
    (LONG, 34, 0, 512, 512 - 4 - 1 - 2),
    (LONG, 34, 0xFF, 512, 2 + 8 + 1 + 300),
];

/// Whether the disk has one record instead of seventeen, a block of it, from which byte on and up to
/// which one it is set to numbers, and how many of the disks are then a store.
const WORDS: [(bool, u32, usize, usize, u32); 7] = [
    // The root of `top` may be none or each block from 34 to 47. The first child may be each leaf
    // that begins with the first record, and the second one is the only leaf that begins with the
    // last.
    (false, 18, 128 + 67, 128 + 68, 15),
    (false, 38, 16 + 10, 16 + 11, 12),
    (false, 38, 30 + 10, 30 + 11, 1),
    // In the store of one record, the root may be none or its leaf. Of the formats there is one. A
    // leaf of one record has one entry.
    (true, 18, 128 + 67, 128 + 68, 2),
    (true, 18, 4, 5, 1),
    (true, 0, 8, 9, 1),
    (true, 34, 8, 9, 1),
];

#[test]
fn each_byte_is_read_or_ignored(rt: HostRuntime) -> Result<(), Fail> {
    let mut place = (0, 0);
    for (value, n, byte, to, stores) in BYTES {
        let found = try_bytes(rt.alloc(), value, n, byte, to, &mut place);
        assert_eq!(rt; found, Ok(stores), "block {n}, byte {byte}, at {place:?}");
    }
    for (is_alone, n, from, to, stores) in WORDS {
        let disk = if is_alone {
            one_record(rt.alloc(), LONG)?
        } else {
            two_levels(rt.alloc())?
        };
        let found = try_words(rt.alloc(), disk, n, from, to, &mut place);
        assert_eq!(rt; found, Ok(stores), "block {n}, at {place:?}");
    }
    Ok(())
}

/// Each number at each offset of a block of the disk of seventeen records.
fn try_each_number<R: AllocGlobal + Abort>(rt: &R, n: u32) {
    let mut place = (0, 0);
    let found = match two_levels(rt.alloc()) {
        Ok(disk) => try_words(rt.alloc(), disk, n, 0, 4093, &mut place),
        Err(wrong) => Err(wrong),
    };
    assert!(rt; found.is_ok(), "block {n}, at {place:?}: {found:?}");
}

#[test]
fn each_number_in_the_slot_is_a_tree_or_refused(rt: HostRuntime) {
    try_each_number(&rt, 18);
}

#[test]
fn each_number_in_the_root_is_a_tree_or_refused(rt: HostRuntime) {
    try_each_number(&rt, 38);
}
