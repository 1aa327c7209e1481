//! Copies of a store on another disk: what they show, where their blocks lie, and what is refused.
use super::script::{ALONE, CACHED, DUCT, LARGE, NEW, Row, SEVENTEEN, each};
use std::alloc::Global;
use std::test::Fail;
use vm_disk::{Disk, MemDisk};
use vm_store::{Store, copy, format, open};
use vm_types::{Command, Key, Name, ValueRef};

const ON_BOTH: &[Row] = &[
    // Of 96 blocks 34 are the store's own. Both alternatives stand on two leaves and a node above them.
    (
        "copy to more blocks shares what was shared",
        SEVENTEEN,
        "
        open
        copy 96 96
        dirty -> none
        open
        blocks -> 96
        free -> 59
        alts -> top spur<top
        get spur 1:17 -> 76*240
        changes spur -> none
        put spur 1:17 w
        commit
        get top 1:17 -> 76*240
        get_at spur@ 1:17 -> 76*240",
    ),
    // The copy names slot A: block 34 is the leaf, as on the disk of the source, whose slot is B.
    (
        "copy of one leaf, byte by byte",
        DUCT,
        "
        block 1 -> 0:01
        open
        copy 64 80
        written -> 0 2 34
        block 1 -> none
        block 2 -> 0:534C4F5403 8:40 12:01 128:4103746F70 195:22
        open
        blocks -> 64
        free -> 29
        list top -> 7:1=duct",
    ),
    // A checkpoint keeps its records and its base, and spur the base that it had.
    (
        "copy has bases and checkpoints",
        NEW,
        "
        put top 1:1 a
        new spur top
        put spur 1:1 b
        checkpoint spur first
        put spur 1:1 c
        put top 1:1 d
        commit
        copy 64 64
        open
        free -> 26
        list top -> 1:1=d
        list spur -> 1:1=c
        list_at spur@ -> 1:1=a
        checks spur -> first
        list_at spur@first -> 1:1=b
        back spur first
        list spur -> 1:1=b
        list_at spur@ -> 1:1=a",
    ),
    // What was not committed is not copied, and the source keeps it where the copy is refused.
    (
        "copy has what was committed",
        DUCT,
        "
        open
        put top 7:1 pipe
        copy 64 64 formatted -> error 20 AlreadyAStore
        list top -> 7:1=pipe
        copy 64 64
        open
        list top -> 7:1=duct",
    ),
];

const IN_MEMORY: &[Row] = &[
    (
        "copy is refused by its size",
        DUCT,
        "
        open
        copy 63 64 -> error 21 BadSize
        copy 65 64 -> error 21 BadSize
        copy 0 64 -> error 21 BadSize
        copy 67108865 64 -> error 21 BadSize
        list top -> 7:1=duct",
    ),
    // The target's calls: a sync, a read, the leaf, slot A, the selector, a sync, the header, a sync.
    (
        "copy to a device that fails",
        DUCT,
        "
        open
        copy 64 64 once 0 -> error 15 Device
        copy 64 64 once 1 -> error 15 Device
        copy 64 64 once 2 -> error 15 Device
        copy 64 64 once 3 -> error 15 Device
        copy 64 64 once 4 -> error 15 Device
        copy 64 64 once 5 -> error 15 Device
        copy 64 64 once 6 -> error 15 Device
        copy 64 64 once 7 -> error 15 Device
        list top -> 7:1=duct
        copy 64 64 once 8
        open
        list top -> 7:1=duct",
    ),
    // Opening makes five calls. The sixth reads the leaf.
    (
        "copy from a device that fails",
        DUCT,
        "
        once 5
        open
        copy 64 64 -> error 15 Device
        list top -> 7:1=duct",
    ),
    (
        "store that has failed is not copied",
        DUCT,
        "
        once 6
        open
        put top 7:1 pipe -> error 15 Device
        copy 63 64 -> error 17 Failed",
    ),
];

// Each of the 40 checkpoints keeps a block, and 34 are the store's own.
const IN_256_BLOCKS: &[Row] = &[(
    "copy to fewer blocks is full below what it needs",
    "
    format 256
    anew
    open
    kept top 1:1 v 40
    commit
    close
    anew
    open",
    "
    free -> 182
    copy 64 256 -> error 13 Full
    copy 73 256 -> error 13 Full
    copy 74 74
    open
    blocks -> 74
    free -> 0
    get top 1:1 -> v
    get_at top@k001 1:1 -> v
    get_at top@k040 1:1 -> v
    put top 1:1 w -> error 13 Full",
)];

#[test]
fn copies_show_what_was_committed(rt: HostRuntime) {
    each(&rt, CACHED, ON_BOTH);
    each(&rt, ALONE, IN_MEMORY);
    each(&rt, LARGE, IN_256_BLOCKS);
}

/// Puts `count` records, every second one long, from the highest number to the lowest, and commits.
fn fill(store: &mut Store<MemDisk>, count: u64) -> Result<(), Fail> {
    let top = Name::new(b"top").ok_or("no name")?;
    for number in 0..count {
        let len = if number % 2 == 0 { 600 } else { 9 };
        let number = count - number;
        store.apply(&Command::Put {
            alt: top,
            key: Key { table: 1, number },
            value: ValueRef::new(&[7; 600][..len]).ok_or("no value")?,
        })?;
    }
    store.apply(&Command::Commit)?;
    Ok(())
}

/// A disk of 256 blocks with a store of `count` records.
fn filled(alloc: Global, count: u64) -> Result<MemDisk, Fail> {
    let disk = format(MemDisk::new(alloc, 256)?, 256).map_err(|refused| refused.1)?;
    let mut store = open(alloc, disk).map_err(|refused| refused.1)?;
    let done = fill(&mut store, count);
    let disk = store.close();
    done?;
    Ok(disk)
}

/// The store on a disk, copied to as many blocks of a blank one.
fn copied(alloc: Global, disk: MemDisk) -> Result<MemDisk, Fail> {
    let target = MemDisk::new(alloc, 256)?;
    let mut store = open(alloc, disk).map_err(|refused| refused.1)?;
    let copy = copy(&mut store, target, 256).map_err(|refused| refused.1);
    let _disk = store.close();
    Ok(copy?)
}

/// The first block that is not the same on both disks.
fn first_difference(mut one: MemDisk, mut other: MemDisk) -> Result<Option<u32>, Fail> {
    for n in 0..256 {
        if n >= one.blocks() || n >= other.blocks() {
            return Ok(None);
        }
        let (mut bytes, mut others) = ([0; 4096], [0; 4096]);
        one.read(n, &mut bytes)?;
        other.read(n, &mut others)?;
        if bytes != others {
            return Ok(Some(n));
        }
    }
    Ok(None)
}

#[test]
fn copy_of_a_copy_is_the_same(rt: HostRuntime) -> Result<(), Fail> {
    let copy = copied(rt.alloc(), filled(rt.alloc(), 120)?)?;
    let again = copied(rt.alloc(), copied(rt.alloc(), filled(rt.alloc(), 120)?)?)?;
    assert_eq!(rt; first_difference(copy, again)?, None);
    Ok(())
}
