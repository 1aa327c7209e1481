//! New stores, and stores that are opened again.
use crate::memory_faults::{Wanting, Wrong};
use crate::sight::look;
use std::alloc::Global;
use vm_disk::MemDisk;
use vm_store::{Store, format, open};
use vm_types::Refusal;

/// The minimum number of blocks of a store.
pub const BLOCKS: u32 = 64;

/// How many it has after it has grown. Its disk has room for them.
pub const GROWN: u32 = 80;

/// Opens a disk. If memory is refused, the disk comes back and is opened once more.
pub(crate) fn open_disk(
    alloc: Global,
    disk: MemDisk,
    wanting: &mut Wanting,
) -> Result<Store<MemDisk>, Wrong> {
    match open(alloc, disk) {
        Ok(store) => Ok(store),
        Err((disk, Refusal::Memory)) => {
            wanting.note("open");
            match open(alloc, disk) {
                Ok(store) => Ok(store),
                Err(_) => Err(Wrong::Found("a disk that was given back cannot be opened")),
            }
        }
        Err(_) => Err(Wrong::Found("open")),
    }
}

/// A new store.
pub(crate) fn new_store(alloc: Global, wanting: &mut Wanting) -> Result<Store<MemDisk>, Wrong> {
    let disk = MemDisk::with_room(alloc, BLOCKS, GROWN)?;
    match format(disk, BLOCKS) {
        Ok(disk) => open_disk(alloc, disk, wanting),
        Err(_) => Err(Wrong::Found("format")),
    }
}

/// Opens a disk again, and appends what is shown to a text.
pub(crate) fn reopen(
    alloc: Global,
    disk: MemDisk,
    text: String,
    wanting: &mut Wanting,
) -> Result<String, Wrong> {
    let mut text = text;
    let mut store = open_disk(alloc, disk, wanting)?;
    let shown = look(alloc, &mut store, wanting);
    let _disk = store.close();
    text.push_str("opened again:\n")?;
    text.push_str(shown?.as_str())?;
    Ok(text)
}
