//! What is on a disk after a publish, byte by byte, and which slots are refused.
use std::alloc::Global;
use std::process::Abort;
use std::test::Fail;
use vm_block::{Entry, Kind, SlotName, write_header};
use vm_catalog::{LoadFault, Slot, load, publish, select_slot, slot_in_use, write_slot};
use vm_disk::{DeviceFault, Disk, FuseDisk, MemDisk};
use vm_types::{Block, MAX_VERSIONS, Name};

/// The name `n` and four digits.
fn numbered(n: usize) -> Option<Name> {
    let digit = |place: usize| b'0' + (n / place % 10) as u8;
    Name::new(&[b'n', digit(1000), digit(100), digit(10), digit(1)])
}

fn top() -> Option<Entry> {
    Some(Entry {
        kind: Kind::Alternative,
        name: Name::new(b"top")?,
        owner: None,
        current: 34,
        base: 0,
    })
}

/// `top` and its children, this many entries in all.
fn family(alloc: Global, count: usize) -> Option<Vec<Entry>> {
    let top = top()?;
    let mut entries = Vec::new(alloc);
    entries.push(top).ok()?;
    for n in 1..count {
        let child = Entry {
            name: numbered(n)?,
            owner: Some(top.name),
            base: 34,
            ..top
        };
        entries.push(child).ok()?;
    }
    Some(entries)
}

/// The calls under test, on a disk that is large enough.
fn put<D: Disk>(disk: &mut D, in_use: SlotName, entries: &[Entry]) -> Result<(), DeviceFault> {
    if disk.blocks() < 34 || entries.len() > MAX_VERSIONS {
        return Err(DeviceFault);
    }
    publish(disk, in_use, 64, entries)
}

fn put_alone<D: Disk>(
    disk: &mut D,
    slot_name: SlotName,
    entries: &[Entry],
) -> Result<(), DeviceFault> {
    if disk.blocks() < 34 || entries.len() > MAX_VERSIONS {
        return Err(DeviceFault);
    }
    write_slot(disk, slot_name, 64, entries)
}

fn get<D: Disk>(alloc: Global, disk: &mut D, slot_name: SlotName) -> Result<Slot, LoadFault> {
    if disk.blocks() < 34 {
        return Err(LoadFault::Device);
    }
    load(alloc, disk, slot_name)
}

fn found<D: Disk>(disk: &mut D) -> Result<Option<SlotName>, DeviceFault> {
    if disk.blocks() < 2 {
        return Err(DeviceFault);
    }
    slot_in_use(disk)
}

fn bytes_of<D: Disk>(disk: &mut D, n: u32) -> Result<Block, DeviceFault> {
    let mut bytes = [0; 4096];
    if n < disk.blocks() {
        disk.read(n, &mut bytes)?;
    }
    Ok(bytes)
}

/// Sets one byte of a block.
fn set<D: Disk>(disk: &mut D, n: u32, at: usize, byte: u8) -> Result<(), DeviceFault> {
    let mut bytes = bytes_of(disk, n)?;
    if at < 4096 {
        bytes[at] = byte;
    }
    if n < disk.blocks() {
        disk.write(n, &bytes)?;
    }
    Ok(())
}

/// Whether slot A, written with these entries and then changed in one byte, is still a slot.
fn stands_after(
    alloc: Global,
    entries: &[Entry],
    n: u32,
    at: usize,
    byte: u8,
) -> Result<bool, Fail> {
    let mut disk = MemDisk::new(alloc, 64)?;
    put_alone(&mut disk, SlotName::A, entries)?;
    set(&mut disk, n, at, byte)?;
    match get(alloc, &mut disk, SlotName::A) {
        Ok(_) => Ok(true),
        Err(LoadFault::Damaged) => Ok(false),
        Err(fault) => Err(Fail::from(fault)),
    }
}

/// These entries must be those of slot B.
fn expect_loaded<R: AllocGlobal + Abort>(rt: &R, disk: &mut FuseDisk<MemDisk>, entries: &[Entry]) {
    match get(rt.alloc(), disk, SlotName::B) {
        Ok(slot) => {
            assert_eq!(rt; slot.blocks, 64);
            assert_eq!(rt; slot.entries.as_slice(), entries);
            assert!(rt; slot.entries.capacity() >= 511);
        }
        Err(fault) => panic!(rt; "{fault:?}"),
    }
}

/// Publishes entries while slot A is in use, and loads them: this many blocks are written, and
/// read.
fn expect_published<R: AllocGlobal + Abort>(
    rt: &R,
    disk: &mut FuseDisk<MemDisk>,
    entries: &[Entry],
    used: u32,
) {
    let (count, written) = (entries.len(), used.saturating_add(3));
    assert!(rt; put(disk, SlotName::A, entries).is_ok(), "{count} entries");
    assert_eq!(rt; disk.calls(), written, "writes of {count} entries");
    expect_loaded(rt, disk, entries);
    let read = written.saturating_add(used);
    assert_eq!(rt; disk.calls(), read, "reads of {count} entries");
}

#[test]
fn what_is_published_is_loaded(rt: HostRuntime) -> Result<(), Fail> {
    for (count, used) in [(1, 1), (31, 1), (32, 2), (511, 16)] {
        let entries = family(rt.alloc(), count).ok_or("names")?;
        let disk = MemDisk::new(rt.alloc(), 64)?;
        let mut disk = FuseDisk::once(disk, 1000, [9; 4096]);
        expect_published(&rt, &mut disk, &entries, used);
    }
    Ok(())
}

#[test]
fn slot_b_has_the_bytes_of_one_entry(rt: HostRuntime) -> Result<(), Fail> {
    let mut disk = MemDisk::new(rt.alloc(), 64)?;
    put(&mut disk, SlotName::A, &[top().ok_or("top")?])?;
    let mut wanted = [0; 4096];
    wanted[..16].copy_from_slice(b"SLOT\x03\0\0\0\x40\0\0\0\x01\0\0\0");
    wanted[128..133].copy_from_slice(b"\x41\x03top");
    wanted[195] = 0x22;
    assert!(rt; bytes_of(&mut disk, 18)? == wanted);
    assert_eq!(rt; bytes_of(&mut disk, 1)?[0], 1);
    Ok(())
}

/// This must be the slot in use.
fn expect_found(rt: &impl Abort, disk: &mut MemDisk, due: Option<SlotName>) {
    match found(disk) {
        Ok(slot) => assert_eq!(rt; slot, due),
        Err(_) => panic!(rt; "a fault"),
    }
}

fn lay_header(rt: &impl Abort, disk: &mut MemDisk) {
    let mut header = [0; 4096];
    write_header(&mut header);
    assert!(rt; disk.blocks() > 0 && disk.write(0, &header).is_ok());
}

fn select(rt: &impl Abort, disk: &mut MemDisk, slot_name: SlotName) {
    assert!(rt; disk.blocks() > 2 && select_slot(disk, slot_name).is_ok());
}

#[test]
fn selector_behind_a_header_names_a_slot(rt: HostRuntime) -> Result<(), Fail> {
    let mut disk = MemDisk::new(rt.alloc(), 64)?;
    expect_found(&rt, &mut disk, None);
    lay_header(&rt, &mut disk);
    expect_found(&rt, &mut disk, Some(SlotName::A));
    select(&rt, &mut disk, SlotName::B);
    expect_found(&rt, &mut disk, Some(SlotName::B));
    Ok(())
}

/// How many entries slot A is written with, the byte of a block that is set then, and whether it is
/// still a slot.
const SET: [(usize, u32, usize, u8, bool); 11] = [
    // No entries, and one more than a slot holds.
    (1, 2, 12, 0, false),
    (40, 2, 13, 2, false),
    // Format 3 is the only one.
    (1, 2, 4, 0, false),
    (1, 2, 4, 1, false),
    (40, 2, 4, 2, false),
    (1, 2, 4, 4, false),
    (1, 2, 4, 3, true),
    // A byte of the head that has to be zero, and an invalid tag in the second block.
    (1, 2, 16, 1, false),
    (40, 3, 128, b'B', false),
    // What follows the last entry is ignored.
    (1, 2, 256, 255, true),
    (40, 3, 4095, 255, true),
];

#[test]
fn damaged_slots_are_refused(rt: HostRuntime) -> Result<(), Fail> {
    for (count, n, at, byte, stands) in &SET {
        let entries = family(rt.alloc(), *count).ok_or("names")?;
        let found = stands_after(rt.alloc(), &entries, *n, *at, *byte)?;
        assert_eq!(rt; found, *stands, "byte {at} of block {n}");
    }
    // An owner in a later entry. The byte is as it was.
    let mut entries = family(rt.alloc(), 3).ok_or("names")?;
    assert_eq!(rt; entries.len(), 3);
    entries[1].owner = Some(entries[2].name);
    assert!(rt; !stands_after(rt.alloc(), &entries, 2, 4, 3)?);
    Ok(())
}
