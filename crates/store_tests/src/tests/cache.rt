//! What an opening leaves in a cache, by the calls that reach the disk below.
use std::alloc::Global;
use std::test::Fail;
use vm_disk::{CachedDisk, FuseDisk, MemDisk};
use vm_store::{format, open};
use vm_types::{Answer, Command, Key, Name, Refusal, Value, ValueRef};

type Cached = CachedDisk<FuseDisk<MemDisk>>;

/// A leaf has room for sixteen values of this length.
const VALUE: [u8; 240] = [b'v'; 240];

/// A cache with room for all blocks that are in use.
fn cached(alloc: Global, disk: MemDisk) -> Result<Cached, Refusal> {
    CachedDisk::new(alloc, FuseDisk::stop(disk, 1000, [0; 4096]), 16).map_err(|_| Refusal::Memory)
}

/// The disk of a store with an inner block and two leaves, of which the second one has one record.
fn seventeen(alloc: Global, top: &Name) -> Result<MemDisk, Refusal> {
    let disk = MemDisk::new(alloc, 64).map_err(|_| Refusal::Memory)?;
    let disk = format(disk, 64).map_err(|refused| refused.1)?;
    let mut store = open(alloc, disk).map_err(|refused| refused.1)?;
    let mut done = Ok(Answer::Done);
    for number in 1..18 {
        done = done.and(store.apply(&Command::Put {
            alt: *top,
            key: Key { table: 1, number },
            value: ValueRef::new(&VALUE).unwrap_or_default(),
        }));
    }
    done = done.and(store.apply(&Command::Commit));
    let disk = store.close();
    done?;
    Ok(disk)
}

/// How many calls an opening through a new cache makes together with these gets, if each finds its
/// value.
fn calls(alloc: Global, gets: &[u64]) -> Result<Option<u32>, Refusal> {
    let Some(top) = Name::new(b"top") else {
        return Ok(None);
    };
    let disk = seventeen(alloc, &top)?;
    let disk = cached(alloc, disk)?;
    let mut store = open(alloc, disk).map_err(|refused| refused.1)?;
    let mut found = true;
    for &number in gets {
        let value = store.get(&top, Key { table: 1, number });
        found = found && value == Ok(Value::new(&VALUE));
    }
    let calls = store.close().into_inner().calls();
    Ok(found.then_some(calls))
}

/// An opening makes five calls: a sync, and a read of the header, the selector, a block of the slot
/// and the inner block, which it leaves in the cache. A get leaves its leaf.
#[test]
fn an_opening_reads_no_leaf_under_an_inner_block(rt: HostRuntime) -> Result<(), Fail> {
    let alloc = rt.alloc();
    assert_eq!(rt; calls(alloc, &[]), Ok(Some(5)));
    assert_eq!(rt; calls(alloc, &[1]), Ok(Some(6)));
    assert_eq!(rt; calls(alloc, &[1, 2, 1]), Ok(Some(6)));
    assert_eq!(rt; calls(alloc, &[1, 17]), Ok(Some(7)));
    Ok(())
}
