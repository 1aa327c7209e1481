//! Replacing the entries in use by new ones.
ghost use Rattle.std.specs.Prelude.{◌≡◌, ◌+◌, ◌*◌, ◌<◌, ◌≤◌, ◌++◌, [], length, take, drop, slice_index_or, IsErr};
ghost use Rattle.vm_disk.specs.Disk.{Goes};
ghost use Rattle.vm_block.specs.Padding.{padded};
ghost use Rattle.vm_block.specs.Selector.{other_slot};
ghost use Rattle.vm_block.specs.Slot.{used_blocks};
ghost use Rattle.vm_catalog.specs.Calls.{CrashLeavesOne, Publishes, PublishesSafely, TouchesSlot, WritesSlot};
ghost use Rattle.vm_catalog.specs.Written.{TouchesBoth, WritesBoth, slot_blocks, cells, joined};

use crate::place::{first_block, used_blocks};
use crate::selection::select_slot;
use vm_block::{Entry, SlotHead, SlotName, write_entry, write_slot_head};
use vm_disk::{DeviceFault, Disk};
use vm_types::{Block, FIRST_DATA, MAX_VERSIONS};

/// The head of a slot is its cell 0, and its entries are those from 1 on.
fn write_cell(blocks: u32, entries: &[Entry], cell: usize, out: &mut [u8])
    requires few { length entries.now ≤ MAX_VERSIONS }
    requires inside { cell ≤ length entries.now }
    requires room { 128 ≤ length out.old }
    ensures { out.new ≡ slice_index_or (cells blocks entries.now) cell [] ++ drop 128 out.old }
{
    if cell == 0 {
        let head = SlotHead {
            blocks,
            entries: entries.len() as u32,
        };
        write_slot_head(head, out);
    } else {
        write_entry(&entries[cell - 1], out);
    }
}

/// `count` cells, followed by zero bytes.
fn write_cells(blocks: u32, entries: &[Entry], first: usize, count: usize, out: &mut [u8])
    requires few { length entries.now ≤ MAX_VERSIONS }
    requires inside { first + count ≤ length entries.now + 1 }
    requires room { 128 * count ≤ length out.old }
    ensures { out.new
        ≡ padded (length out.old) (joined (take count (drop first (cells blocks entries.now)))) }
{
    for i in 0..count {
        write_cell(blocks, entries, first + i, &mut out[128 * i..]);
    }
    out[128 * count..].fill(0);
}

/// Block `index` of the slot with these entries.
fn write_block(blocks: u32, entries: &[Entry], index: u32, out: &mut Block)
    requires few { length entries.now ≤ MAX_VERSIONS }
    requires used { index < used_blocks (length entries.now) }
    ensures { out.new ≡ slice_index_or (slot_blocks blocks entries.now) index [] }
{
    // A block has 32 cells of 128 bytes.
    let first = 32 * index as usize;
    let count = (entries.len() + 1 - first).min(32);
    write_cells(blocks, entries, first, count, out);
}

/// Writes these entries into a slot: its used blocks, in order, and no other block. Syncs nothing.
/// `blocks` is the block count of the store, which the slot records.
pub fn write_slot<D: Disk>(
    disk: &mut D,
    slot_name: SlotName,
    blocks: u32,
    entries: &[Entry],
) -> Result<(), DeviceFault>
    requires few { length entries.now ≤ MAX_VERSIONS }
    requires room { FIRST_DATA ≤ (D.state disk.old).blocks }
    ensures any { Goes (IsErr result) (D.state disk.old) (D.state disk.new) }
    ensures written { WritesSlot result (D.state disk.new) slot_name blocks entries.now }
    ensures moments { TouchesSlot (D.state disk.old) (D.state disk.new) slot_name entries.now }
{
    let first = first_block(slot_name);
    let mut block = [0; 4096];
    for index in 0..used_blocks(entries.len()) {
        write_block(blocks, entries, index, &mut block);
        disk.write(first + index, &block)?;
    }
    Ok(())
}

/// Replaces the entries in use by these: writes them into the slot that is not in use, syncs, makes
/// the selector name that slot, and syncs. Takes no memory and touches no data block.
///
/// `in_use` is the slot that the selector names now, and `blocks` the block count of the store.
/// After an error the old entries or the new ones are in use; only reading the disk again tells
/// which.
pub fn publish<D: Disk>(
    disk: &mut D,
    in_use: SlotName,
    blocks: u32,
    entries: &[Entry],
) -> Result<(), DeviceFault>
    requires few { length entries.now ≤ MAX_VERSIONS }
    requires room { FIRST_DATA ≤ (D.state disk.old).blocks }
    ensures any { Goes (IsErr result) (D.state disk.old) (D.state disk.new) }

    // With Ok, only the new entries are named, no block is dirty, and the data blocks are as they
    // were.
    ensures done { Publishes (D.state disk.old) (D.state disk.new) in_use blocks entries.now result }

    // At each moment, what the selector may name is complete and clean, and nothing writes it.
    ensures moments { PublishesSafely (D.state disk.old) (D.state disk.new) in_use blocks entries.now }

    // So a crash at any moment leaves the old entries or the new ones, with their data blocks.
    ensures any_moment { CrashLeavesOne (D.state disk.old) (D.state disk.new) in_use blocks entries.now }

    // On any honest disk: with Ok the used blocks of the other slot, and the selector, are byte for
    // byte what they should be, and no other block is touched at any moment.
    ensures written { WritesBoth result (D.state disk.new) (other_slot in_use) blocks entries.now }
    ensures touched { TouchesBoth (D.state disk.old) (D.state disk.new) (other_slot in_use) entries.now }
{
    let free = in_use.other();
    write_slot(disk, free, blocks, entries)?;
    disk.sync()?;
    select_slot(disk, free)?;
    disk.sync()
}
