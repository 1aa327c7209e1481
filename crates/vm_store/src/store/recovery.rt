//! Opening a store.
ghost use Rattle.std.specs.Prelude.{◌≡◌, ◌≢◌, ◌*◌, ◌≤◌, ℕ, length, true, vec_capacity, IfOk, IfErr, OnOk, IfSome};
ghost use Rattle.vm_disk.specs.Disk.{Goes};
ghost use Rattle.vm_disk.specs.Moments.{OnlyReads};
ghost use Rattle.vm_block.specs.Slot.{SlotFits};
ghost use Rattle.vm_catalog.specs.Calls.{LoadsHeld};
ghost use Rattle.vm_store.specs.Refused.{SyncsAtMost, SyncsUnless, IsRefused};
ghost use Rattle.vm_tree.specs.BlockReads.{Finds};
ghost use Rattle.vm_tree.specs.Calls.{OnlyLists};
ghost use Rattle.vm_check.specs.Trees.{AreTopped};
ghost use Rattle.vm_check.specs.Verification.{AreGiven, Found, HaveTrees, SizeFits, TellsDamaged};
ghost use Rattle.vm_store.specs.Recovery.{AreRead, FindsSlot, IsOpening, IsTwice, LacksSlot, OpensAs, OpensWhole, PartsShow, ReadsMaps, ReadsWhole, RefusesMaps, RefusesSlot, ShowsSome, TellsAll, TellsMaps, TopsRead, WhereTrees, disk_in};
ghost use Rattle.vm_store.specs.Sizes.{sizes};
ghost use Rattle.vm_store.specs.declared.store.recovery.Walk.TheVariants.{Inner, Survey};
ghost use Rattle.vm_store.specs.Versions.{numbers_of, versions_of};

use super::Store;
use super::parts::Parts;
use crate::versions::Versions;
use crate::{FAN, LEVELS};
use std::alloc::Global;
use vm_alloc::{Baseline, Held, Marks};
use vm_block::{Entry, SlotName};
use vm_catalog::{LoadFault, Slot, first_block, load, slot_in_use};
use vm_check::{find_trees, survey, verify};
use vm_disk::Disk;
use vm_tree::{ListFault, Root};
use vm_types::{MAX_VERSIONS, MIN_BLOCKS, Refusal};

/// What an opening reads of the trees.
#[derive(Clone, Copy, Debug, PartialEq, Eq)]
enum Walk {
    /// The top block of each, and the inner blocks.
    Inner,
    /// Every block.
    Whole,
    /// Every block that is reached by whole ones, so that each damaged one is found.
    Survey,
}

/// Syncs, and tells whether there is a store, and which slot its selector names.
fn find_slot<D: Disk>(disk: &mut D) -> Result<SlotName, Refusal>
    ensures any { Goes (result ≡ Err Refusal.Device) (D.state disk.old) (D.state disk.new) }
    ensures room { OnOk result (MIN_BLOCKS ≤ (D.state disk.old).blocks) }
    ensures moments { SyncsAtMost (D.state disk.old) (D.state disk.new) }
    ensures synced { SyncsUnless (result ≡ Err Refusal.Device) (D.state disk.old) (D.state disk.new) }
    ensures found { FindsSlot (D.state disk.old) (D.state disk.new) result }
    ensures kind { (n : ℕ) → result ≢ Err (Refusal.Damaged n) }
    ensures refused { (D.state disk.new).honest ≡ true
        → IfErr result (IsRefused (D.state disk.old).now.contents) }
{
    let Ok(()) = disk.sync() else {
        return Err(Refusal::Device);
    };
    if disk.blocks() < MIN_BLOCKS {
        return Err(Refusal::NotAStore);
    }
    match slot_in_use(disk) {
        Ok(Some(slot_name)) => Ok(slot_name),
        Ok(None) => Err(Refusal::NotAStore),
        Err(_) => Err(Refusal::Device),
    }
}

/// The entries of that slot, if the store lies within the disk.
fn load_slot<D: Disk>(alloc: Global, disk: &mut D, slot_name: SlotName) -> Result<Slot, Refusal>
    requires { MIN_BLOCKS ≤ (D.state disk.old).blocks }
    ensures any { Goes (result ≡ Err Refusal.Device) (D.state disk.old) (D.state disk.new) }
    ensures reads { (D.state disk.new).honest ≡ true
        → OnlyReads (D.state disk.old) (D.state disk.new) }
    ensures fits { IfOk result (λ slot. SlotFits slot.blocks slot.entries.items) }
    ensures reserved { IfOk result (λ slot. MAX_VERSIONS ≤ vec_capacity slot.entries) }
    ensures inside { IfOk result (λ slot. slot.blocks ≤ (D.state disk.old).blocks) }
    ensures found { LoadsHeld result (D.state disk.old) (D.state disk.new) slot_name }
    ensures refused { RefusesSlot (D.state disk.old) (D.state disk.new) result slot_name }
    ensures none { LacksSlot (D.state disk.old) (D.state disk.new) result slot_name }
{
    match load(alloc, disk, slot_name) {
        Ok(slot) => {
            if slot.blocks > disk.blocks() {
                return Err(Refusal::BadSize);
            }
            Ok(slot)
        }
        Err(LoadFault::Device) => Err(Refusal::Device),
        Err(LoadFault::Memory) => Err(Refusal::Memory),
        Err(LoadFault::Damaged) => Err(Refusal::Damaged(first_block(slot_name))),
    }
}

/// The blocks of the roots of entries, in order, current before base. None if memory for them could
/// not be allocated.
fn root_numbers(alloc: Global, entries: &[Entry]) -> Option<Vec<u32>>
    ensures { IfSome result (λ numbers. numbers.items ≡ numbers_of entries.now) }
{
    let mut numbers = Vec::new(alloc);
    for entry in entries {
        let Ok(()) = numbers.extend_from_slice(&[entry.current, entry.base]) else {
            return None;
        };
    }
    Some(numbers)
}

/// The versions of entries with these roots, twice. None if memory for them could not be allocated.
fn versions_twice(alloc: Global, entries: &[Entry], roots: &[Root]) -> Option<(Versions, Versions)>
    requires few { length entries.now ≤ MAX_VERSIONS }
    requires roots { length roots.now ≡ 2 * length entries.now }
    ensures { IfSome result (IsTwice (versions_of entries.now roots.now)) }
{
    let (Ok(committed), Ok(working)) = (
        Versions::of_entries(alloc, entries, roots),
        Versions::of_entries(alloc, entries, roots),
    ) else {
        return None;
    };
    Some((committed, working))
}

/// Walks the trees under the numbers, and returns their roots, and marks on the blocks under them.
fn walk_trees<D: Disk>(
    alloc: Global,
    disk: &mut D,
    blocks: u32,
    numbers: &[u32],
    walk: Walk,
    damaged: &mut Option<Marks>,
) -> Result<(Vec<Root>, Marks), ListFault>
    requires { SizeFits blocks (D.state disk.old) }
    ensures looks { OnlyLists result (D.state disk.old) (D.state disk.new) }
    ensures given { IfOk result (AreGiven blocks numbers.now) }
    ensures found { WhereTrees (D.state disk.old) (D.state disk.new) result blocks numbers.now
        (λ x found. Found sizes x blocks numbers.now found.0.items found.1) }
    ensures topped { walk ≡ Inner → Finds result (D.state disk.old) (D.state disk.new)
        (λ x found. AreTopped x blocks found.0.items) }
    ensures whole { walk ≢ Inner → Finds result (D.state disk.old) (D.state disk.new)
        (λ x found. HaveTrees sizes x blocks numbers.now) }
    ensures damaged { walk ≡ Survey → TellsDamaged result sizes
        (D.state disk.old) (D.state disk.new) blocks numbers.now damaged.old damaged.new }
{
    match walk {
        Walk::Inner => find_trees(alloc, disk, blocks, numbers),
        Walk::Whole => verify::<D, FAN, LEVELS>(alloc, disk, blocks, numbers),
        Walk::Survey => survey::<D, FAN, LEVELS>(alloc, disk, blocks, numbers, damaged),
    }
}

/// Reads the maps of a slot, allocates what a store needs, and holds the blocks that are reached.
fn read_maps<D: Disk>(
    alloc: Global,
    disk: &mut D,
    slot_name: SlotName,
    slot: Slot,
    walk: Walk,
    damaged: &mut Option<Marks>,
) -> Result<Parts, Refusal>
    requires inside { slot.blocks ≤ (D.state disk.old).blocks }
    requires fits { SlotFits slot.blocks slot.entries.items }
    requires reserved { MAX_VERSIONS ≤ vec_capacity slot.entries }
    ensures any { Goes (result ≡ Err Refusal.Device) (D.state disk.old) (D.state disk.new) }
    ensures reads { (D.state disk.new).honest ≡ true
        → OnlyReads (D.state disk.old) (D.state disk.new) }
    ensures inside { IfOk result (λ parts. parts.blocks ≤ (D.state disk.old).blocks) }
    ensures holds { ReadsMaps (D.state disk.old) (D.state disk.new) result slot_name slot }
    ensures topped { walk ≡ Inner → TopsRead (D.state disk.old) (D.state disk.new) result slot }
    ensures whole { walk ≢ Inner → ReadsWhole (D.state disk.old) (D.state disk.new) result slot }
    ensures refused { RefusesMaps (D.state disk.old) (D.state disk.new) result slot_name slot }
    ensures damaged { walk ≡ Survey
        → IfErr result (TellsMaps (D.state disk.old) (D.state disk.new) slot damaged.old damaged.new) }
{
    let Slot { blocks, entries } = slot;
    let (Some(numbers), Ok(mut held), Ok(before)) = (
        root_numbers(alloc, &entries),
        Held::new(alloc, blocks),
        Baseline::new(alloc, blocks),
    ) else {
        return Err(Refusal::Memory);
    };
    let (roots, marks) = walk_trees(alloc, disk, blocks, &numbers, walk, damaged)?;
    held.replace(&marks);
    let Some((committed, working)) = versions_twice(alloc, &entries, &roots) else {
        return Err(Refusal::Memory);
    };
    Ok(Parts {
        blocks,
        kept: blocks,
        slot_name,
        entries,
        committed,
        working,
        held,
        marks,
        before,
        series: None,
        changes: 0,
        marked: false,
    })
}

/// Everything that is known of the store on a disk.
fn find_store<D: Disk>(
    alloc: Global,
    disk: &mut D,
    walk: Walk,
    damaged: &mut Option<Marks>,
) -> Result<Parts, Refusal>
    ensures any { Goes (result ≡ Err Refusal.Device) (D.state disk.old) (D.state disk.new) }
    ensures inside { IfOk result (λ parts. parts.blocks ≤ (D.state disk.old).blocks) }
    ensures moments { SyncsAtMost (D.state disk.old) (D.state disk.new) }
    ensures synced { SyncsUnless (result ≡ Err Refusal.Device) (D.state disk.old) (D.state disk.new) }
    ensures holds { (D.state disk.new).honest ≡ true
        → IfOk result (PartsShow (D.state disk.new).now) }
    ensures read { walk ≡ Inner → (D.state disk.new).honest ≡ true
        → IfOk result (AreRead (D.state disk.new).now.contents) }
    ensures whole { walk ≢ Inner → (D.state disk.new).honest ≡ true
        → IfOk result (λ _. ShowsSome (D.state disk.new).now.contents) }
    ensures refused { (D.state disk.new).honest ≡ true
        → IfErr result (IsRefused (D.state disk.old).now.contents) }
    ensures damaged { walk ≡ Survey
        → IfErr result (TellsAll (D.state disk.old) (D.state disk.new) damaged.old damaged.new) }
{
    let slot_name = find_slot(disk)?;
    let slot = load_slot(alloc, disk, slot_name)?;
    read_maps(alloc, disk, slot_name, slot, walk, damaged)
}

/// The store on a disk, or the disk with the reason why there is none.
fn open_by<D: Disk>(
    alloc: Global,
    mut disk: D,
    walk: Walk,
    damaged: &mut Option<Marks>,
) -> Result<Store<D>, (D, Refusal)>
    ensures opening { IsOpening (D.state disk) result }
    ensures opened { walk ≡ Inner → (D.state (disk_in result)).honest ≡ true
        → IfOk result (OpensAs (D.state disk).now.contents) }
    ensures whole { walk ≢ Inner → (D.state (disk_in result)).honest ≡ true
        → IfOk result (OpensWhole (D.state disk).now.contents) }
    ensures damaged { walk ≡ Survey → IfErr result
        (λ e. TellsAll (D.state disk) (D.state e.0) damaged.old damaged.new e.1) }
{
    match find_store(alloc, &mut disk, walk, damaged) {
        Ok(parts) => Ok(Store {
            disk,
            alloc,
            parts,
            failed: false,
        }),
        Err(refusal) => Err((disk, refusal)),
    }
}

/// Opens the store on a disk, as it was last committed. It syncs first; after that it only reads: the
/// header, the slot, and of each tree the top block and the inner blocks. What is wrong in a leaf is
/// not found. On refusal, the disk comes back with the refusal.
pub fn open<D: Disk>(alloc: Global, disk: D) -> Result<Store<D>, (D, Refusal)>
    // Whatever the disk holds: how the disk goes on, and why it is refused. Except for the device and
    // memory, it is refused only if nothing is shown.
    ensures opening { IsOpening (D.state disk) result }

    // If a tree is shown, the store represents it, and exactly the spare blocks are free. What was
    // read has its form.
    ensures opened { (D.state (disk_in result)).honest ≡ true
        → IfOk result (OpensAs (D.state disk).now.contents) }
{
    let mut damaged = None;
    open_by(alloc, disk, Walk::Inner, &mut damaged)
}

/// Opens the store on a disk as `open` does, and reads every block of its trees: it refuses a disk on
/// which any of them is wrong. It takes 24 bytes and two bits of memory for each block of the store,
/// until it returns.
pub fn open_whole<D: Disk>(alloc: Global, disk: D) -> Result<Store<D>, (D, Refusal)>
    ensures opening { IsOpening (D.state disk) result }

    // A tree is shown, the store represents it, and exactly the spare blocks are free.
    ensures opened { (D.state (disk_in result)).honest ≡ true
        → IfOk result (OpensWhole (D.state disk).now.contents) }
{
    let mut damaged = None;
    open_by(alloc, disk, Walk::Whole, &mut damaged)
}

/// Opens the store on a disk as `open_whole` does, and goes on behind a damaged block. If it refuses
/// the disk as Damaged, and the slot in use is none that is damaged, it leaves marks on the damaged
/// blocks of its trees; otherwise it leaves `damaged` as it is.
pub fn open_surveyed<D: Disk>(
    alloc: Global,
    disk: D,
    damaged: &mut Option<Marks>,
) -> Result<Store<D>, (D, Refusal)>
    // It answers what `open_whole` does.
    ensures opening { IsOpening (D.state disk) result }
    ensures opened { (D.state (disk_in result)).honest ≡ true
        → IfOk result (OpensWhole (D.state disk).now.contents) }

    // Each marked block is damaged, and so is each other one that is reached from the roots of the
    // slot in use by whole blocks.
    ensures damaged { IfErr result
        (λ e. TellsAll (D.state disk) (D.state e.0) damaged.old damaged.new e.1) }
{
    open_by(alloc, disk, Walk::Survey, damaged)
}
