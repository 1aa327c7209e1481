//! Loading a slot.
ghost use Rattle.std.specs.Prelude.{◌≡◌, ℕ, ◌+◌, ◌*◌, ◌<◌, ◌≤◌, true, min, [], length, take, Some, OnOk, IfOk, IfSome, vec_len, vec_capacity};
ghost use Rattle.std.specs.Bool.{OnTrue};
ghost use Rattle.vm_disk.specs.Disk.{Goes, block};
ghost use Rattle.vm_disk.specs.Moments.{OnlyReads};
ghost use Rattle.vm_block.specs.Slot.{SlotFits, used_blocks, IsHead, IsEntry};
ghost use Rattle.vm_catalog.specs.Calls.{FindsFront, HasFront, LoadsAll, LoadsHeld, ReadsFront, ReadsOthers, ReadsUsed, TakesSlot};
ghost use Rattle.vm_catalog.specs.SlotReads.{cell_of, HasEntry, HasTaken, FitsSoFar};

use crate::ledger::is_ledger;
use crate::place::{first_block, used_blocks};
use std::alloc::{Allocator, Global};
use vm_block::{Entry, SlotHead, SlotName, read_entry, read_slot_head};
use vm_disk::Disk;
use vm_types::{BLOCK_SIZE, FIRST_DATA, MAX_VERSIONS};

/// Why a slot could not be loaded.
#[derive(Clone, Copy, Debug, PartialEq, Eq)]
pub enum LoadFault {
    /// The device failed in a read.
    Device,
    /// Memory for the entries could not be allocated.
    Memory,
    /// The blocks are not a slot.
    Damaged,
}

/// What a slot holds.
#[derive(Drop)]
pub struct Slot {
    /// How many blocks the store has.
    pub blocks: u32,
    /// The alternatives and checkpoints, in order of creation.
    pub entries: Vec<Entry>,
}

/// The entry in a cell of the block, if it is one.
fn entry_at(block: &[u8], cell: usize) -> Option<Entry>
    requires { 128 * (cell + 1) ≤ length block.now }
    ensures found { IfSome result (λ e. IsEntry (cell_of block.now cell) e) }
    ensures only { (e : Entry) → IsEntry (cell_of block.now cell) e → result ≡ Some e }
{
    read_entry(&block[128 * cell..128 * cell + 128])
}

/// Reads `count` entries, from cell `first` of the block on, and appends them. False if a cell
/// holds no entry.
fn read_entries<A: Allocator>(
    block: &[u8],
    first: usize,
    count: usize,
    entries: &mut Vec<Entry, A>,
) -> bool
    requires inside { 128 * (first + count) ≤ length block.now }
    requires room { vec_len entries.old + count ≤ vec_capacity entries.old }
    ensures room { vec_capacity entries.new ≡ vec_capacity entries.old }
    ensures found { OnTrue result (HasTaken block.now first count entries.old.items entries.new.items) }
    ensures only { ((i : ℕ) → i < count → HasEntry block.now (first + i)) → result ≡ true }
{
    for i in 0..count {
        match entry_at(block, first + i) {
            Some(entry) => entries.push_reserved(entry),
            None => return false,
        }
    }
    true
}

/// Reads the head of a slot from its first block, and the entries after it.
fn read_front(block: &[u8], entries: &mut Vec<Entry>) -> Option<SlotHead>
    requires whole { length block.now ≡ BLOCK_SIZE }
    requires none { entries.old.items ≡ [] }
    requires room { MAX_VERSIONS ≤ vec_capacity entries.old }
    ensures room { vec_capacity entries.new ≡ vec_capacity entries.old }
    ensures head { IfSome result (λ head. IsHead (take 128 block.now) head.blocks head.entries) }
    ensures found { IfSome result (λ head. HasTaken block.now 1 (min head.entries 31) [] entries.new.items) }
    ensures only { FindsFront result block.now }
{
    let head = read_slot_head(&block[..128])?;
    // After the head, a block has room for 31 entries.
    let count = (head.entries as usize).min(31);
    read_entries(block, 1, count, entries).then_some(head)
}

/// Reads the first block of a slot: its head, and the entries after it.
fn read_first<D: Disk>(
    disk: &mut D,
    slot_name: SlotName,
    entries: &mut Vec<Entry>,
) -> Result<SlotHead, LoadFault>
    requires blocks { FIRST_DATA ≤ (D.state disk.old).blocks }
    requires none { entries.old.items ≡ [] }
    requires room { MAX_VERSIONS ≤ vec_capacity entries.old }
    ensures any { Goes (result ≡ Err LoadFault.Device) (D.state disk.old) (D.state disk.new) }
    ensures reads { (D.state disk.new).honest ≡ true
        → OnlyReads (D.state disk.old) (D.state disk.new) }
    ensures once { (D.state disk.new).reads ≡ (D.state disk.old).reads + 1 }
    ensures room { vec_capacity entries.new ≡ vec_capacity entries.old }
    ensures fits { IfOk result (λ head. FitsSoFar head.blocks head.entries 1 entries.new.items) }
    ensures found { ReadsFront result (D.state disk.old) (D.state disk.new) slot_name entries.new.items }
    ensures only { TakesSlot result (D.state disk.old) (D.state disk.new) slot_name }
{
    let mut block = [0; 4096];
    let Ok(()) = disk.read(first_block(slot_name), &mut block) else {
        return Err(LoadFault::Device);
    };
    match read_front(&block, entries) {
        Some(head) => Ok(head),
        None => Err(LoadFault::Damaged),
    }
}

/// Reads the other used blocks of a slot whose first block has this head.
fn read_others<D: Disk>(
    disk: &mut D,
    slot_name: SlotName,
    head: SlotHead,
    entries: &mut Vec<Entry>,
) -> Result<(), LoadFault>
    requires blocks { FIRST_DATA ≤ (D.state disk.old).blocks }
    requires room { MAX_VERSIONS ≤ vec_capacity entries.old }
    requires fits { FitsSoFar head.blocks head.entries 1 entries.old.items }
    requires found { HasFront (D.state disk.old) slot_name head entries.old.items }
    ensures any { Goes (result ≡ Err LoadFault.Device) (D.state disk.old) (D.state disk.new) }
    ensures reads { (D.state disk.new).honest ≡ true
        → OnlyReads (D.state disk.old) (D.state disk.new) }
    ensures once { (D.state disk.new).reads + 1 ≤ (D.state disk.old).reads + used_blocks head.entries }
    ensures whole { OnOk result ((D.state disk.new).reads + 1 ≡ (D.state disk.old).reads + used_blocks head.entries) }
    ensures room { vec_capacity entries.new ≡ vec_capacity entries.old }
    ensures fits { OnOk result (FitsSoFar head.blocks head.entries (used_blocks head.entries) entries.new.items) }
    ensures found { ReadsOthers result (D.state disk.old) (D.state disk.new) slot_name head entries.new.items }
    ensures only { TakesSlot result (D.state disk.old) (D.state disk.new) slot_name }
{
    let first = first_block(slot_name);
    let mut block = [0; 4096];
    for index in 1..used_blocks(head.entries as usize) {
        let Ok(()) = disk.read(first + index, &mut block) else {
            return Err(LoadFault::Device);
        };
        let count = (head.entries as usize - entries.len()).min(32);
        if !read_entries(&block, 0, count, entries) {
            return Err(LoadFault::Damaged);
        }
    }
    Ok(())
}

/// Loads the entries of a slot. Reads the used blocks of that slot, each once and in order, and
/// allocates memory for as many entries as a slot can have.
pub fn load<D: Disk>(alloc: Global, disk: &mut D, slot_name: SlotName) -> Result<Slot, LoadFault>
    requires { FIRST_DATA ≤ (D.state disk.old).blocks }
    ensures any { Goes (result ≡ Err LoadFault.Device) (D.state disk.old) (D.state disk.new) }
    ensures reads { (D.state disk.new).honest ≡ true
        → OnlyReads (D.state disk.old) (D.state disk.new) }

    // It makes at most as many reads as a slot has blocks, and with Ok one for each used block.
    ensures once { (D.state disk.new).reads ≤ (D.state disk.old).reads + 16 }
    ensures whole { ReadsUsed result (D.state disk.old) (D.state disk.new) }

    // On any disk, the loaded entries are ones that a slot may have, with memory for as many as it
    // can have.
    ensures fits { IfOk result (λ slot. SlotFits slot.blocks slot.entries.items) }
    ensures reserved { IfOk result (λ slot. MAX_VERSIONS ≤ vec_capacity slot.entries) }

    // On an honest disk they are exactly those of the slot.
    ensures found { LoadsHeld result (D.state disk.old) (D.state disk.new) slot_name }
    ensures only { LoadsAll result (D.state disk.old) (D.state disk.new) slot_name }
{
    let Ok(mut entries) = Vec::with_capacity(alloc, MAX_VERSIONS) else {
        return Err(LoadFault::Memory);
    };
    let head = read_first(disk, slot_name, &mut entries)?;
    read_others(disk, slot_name, head, &mut entries)?;
    if is_ledger(&entries) {
        Ok(Slot {
            blocks: head.blocks,
            entries,
        })
    } else {
        Err(LoadFault::Damaged)
    }
}
