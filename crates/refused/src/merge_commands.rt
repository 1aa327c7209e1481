//! The commands up to the merge, and what a refused one leaves on the disk.
use crate::commands::{MERGE, Reply, command, write_reply};
use crate::memory_faults::{Wanting, Wrong};
use crate::stores::{BLOCKS, new_store, reopen};
use std::alloc::Global;
use vm_disk::{Disk, MemDisk};
use vm_types::{Answer, Refusal};

/// Carries out the commands before the merge, and optionally the merge. Returns the last answer and
/// the disk.
fn go_to_merge(
    alloc: Global,
    merges: bool,
    wanting: &mut Wanting,
) -> Result<(Reply, MemDisk), Wrong> {
    let mut store = new_store(alloc, wanting)?;
    let mut last = Ok(Answer::Done);
    let count = if merges { MERGE + 1 } else { MERGE };
    for n in 0..count {
        last = store.apply(&command(alloc, n));
    }
    Ok((last, store.close()))
}

/// Whether two disks have the same contents and the same dirty blocks.
fn are_same(first: &mut MemDisk, second: &mut MemDisk) -> bool {
    for n in 0..BLOCKS {
        if n >= first.blocks() || n >= second.blocks() {
            return false;
        }
        let (mut one, mut other) = ([0; 4096], [0; 4096]);
        let (Ok(()), Ok(())) = (first.read(n, &mut one), second.read(n, &mut other)) else {
            return false;
        };
        if one != other || first.is_dirty(n) != second.is_dirty(n) {
            return false;
        }
    }
    true
}

pub(crate) fn carry_out(alloc: Global, wanting: &mut Wanting) -> Result<String, Wrong> {
    let (answer, mut disk) = go_to_merge(alloc, true, wanting)?;
    if answer == Err(Refusal::Memory) {
        wanting.note("merge before closing");
        let (_, mut due) = go_to_merge(alloc, false, wanting)?;
        if !are_same(&mut disk, &mut due) {
            return Err(Wrong::Found("a refused merge has written"));
        }
        return Err(Wrong::Again);
    }
    let mut text = String::from_str(alloc, "closed after the merge:\n")?;
    write_reply(&mut text, answer)?;
    reopen(alloc, disk, text, wanting)
}
