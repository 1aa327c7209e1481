//! Copying a store to another disk.
ghost use Rattle.std.specs.Prelude.{◌≡◌, ◌↔◌, ◌+◌, ◌≤◌, true, false, [], length, vec_capacity, IfErr, IfOk, IfSome, IsErr, IsErrAnd, OnOk};
ghost use Rattle.vm_types.specs.declared.sizes.TheConstants.{FIRST_DATA};
ghost use Rattle.vm_disk.specs.Moments.{OnlyReads};
ghost use Rattle.vm_check.specs.TreeCopy.{NumbersFit, StepsTo};
ghost use Rattle.vm_check.specs.Verification.{SizeFits};
ghost use Rattle.vm_store.specs.Copies.{ComesBefore, Copies, CopiesAtMost, CopiesEntries, CopiesVersion, CopiesVersions, Fills, FillsAtMost, FillsFromHeld, FillsSoundly, GoesOnBoth, IsOfCopy, IsOfFill, IsRefusedFirst, IsRoom, LacksBlocks, OfState, ReachedVersionCopy, ReachedVersionsCopy, ReadsFew, ReadsHeld, SoundVersionCopy, SoundVersionsCopy, refusal_of_copy};
ghost use Rattle.vm_store.specs.NewStore.{ComesBack, IsBadSize, SparesStore, given_back};
ghost use Rattle.vm_store.specs.Store.{IsHonest, IsSameButDisk, ReadsAlone, disk_of, has_failed, kept_of};

use super::Store;
use super::new_store::{has_header, put_down};
use crate::version::Version;
use crate::versions::write_entries;
use std::alloc::Global;
use vm_block::Entry;
use vm_check::{CopyFault, Renumbering, copy_tree};
use vm_disk::Disk;
use vm_types::{MAX_BLOCKS, MAX_VERSIONS, MIN_BLOCKS, Refusal};

/// The memory that a copy needs: room for the versions of the copies and for their slot entries, and
/// the numbers of the copied blocks.
#[derive(Drop)]
struct Room {
    versions: Vec<Version>,
    entries: Vec<Entry>,
    numbers: Renumbering,
}

/// Room for a copy of a store of `blocks` blocks, which includes 4 bytes for each of them. None if it
/// cannot be allocated.
fn room_for(alloc: Global, blocks: u32) -> Option<Room>
    ensures { IfSome result (IsRoom blocks) }
{
    let (Ok(versions), Ok(entries), Ok(numbers)) = (
        Vec::with_capacity(alloc, MAX_VERSIONS),
        Vec::with_capacity(alloc, MAX_VERSIONS),
        Renumbering::new(alloc, blocks),
    ) else {
        return None;
    };
    Some(Room {
        versions,
        entries,
        numbers,
    })
}

/// Copies what lies under both roots of a version, the current records before the base, and returns
/// the version with the copies' roots.
fn copy_version<S: Disk, T: Disk>(
    source: &mut S,
    blocks: u32,
    target: &mut T,
    limit: u32,
    version: &Version,
    numbers: &mut Renumbering,
) -> Result<Version, CopyFault>
    requires fit { NumbersFit blocks limit (S.state source.old) (T.state target.old) numbers.old }
    ensures step { StepsTo result limit (S.state source.old) (T.state target.old) numbers.old
        (S.state source.new) (T.state target.new) numbers.new }
    ensures copied { CopiesVersion result limit version.now (S.state source.old)
        (T.state target.old) numbers.old (S.state source.new) (T.state target.new) numbers.new }
    ensures sound { SoundVersionCopy result blocks version.now (S.state source.old) (S.state source.new) }
    ensures reached { ReachedVersionCopy result blocks version.now (S.state source.old) numbers.old
        (S.state source.new) numbers.new }
{
    let current = copy_tree(source, blocks, target, limit, version.current, numbers)?;
    let base = copy_tree(source, blocks, target, limit, version.base, numbers)?;
    Ok(Version {
        current,
        base,
        ..*version
    })
}

/// Copies what lies under the roots of the versions, one after another, and adds the versions of the
/// copies to `copies`. It allocates nothing: `copies` must have room for them.
fn copy_versions<S: Disk, T: Disk>(
    source: &mut S,
    blocks: u32,
    target: &mut T,
    limit: u32,
    versions: &[Version],
    copies: &mut Vec<Version>,
    numbers: &mut Renumbering,
) -> Result<(), CopyFault>
    requires space { length versions.now ≤ vec_capacity copies.old }
    requires empty { copies.old.items ≡ [] }
    requires fit { NumbersFit blocks limit (S.state source.old) (T.state target.old) numbers.old }
    ensures step { StepsTo result limit (S.state source.old) (T.state target.old) numbers.old
        (S.state source.new) (T.state target.new) numbers.new }
    ensures many { OnOk result (length copies.new.items ≡ length versions.now) }
    ensures copied { CopiesVersions result limit versions.now copies.new.items (S.state source.old)
        (T.state target.old) numbers.old (S.state source.new) (T.state target.new) numbers.new }
    ensures sound { SoundVersionsCopy result blocks versions.now (S.state source.old) (S.state source.new) }
    ensures reached { ReachedVersionsCopy result blocks versions.now (S.state source.old) numbers.old
        (S.state source.new) numbers.new }
{
    for version in versions {
        let copy = copy_version(source, blocks, target, limit, version, numbers)?;
        let Ok(()) = copies.extend_from_slice(&[copy]) else {
            unreachable!();
        };
    }
    Ok(())
}

/// Copies what lies under the roots of the versions, and sets `room.entries` to the slot entries of
/// the copies.
fn copy_entries<S: Disk, T: Disk>(
    source: &mut S,
    kept: u32,
    versions: &[Version],
    target: &mut T,
    limit: u32,
    room: &mut Room,
) -> Result<(), CopyFault>
    requires few { length versions.now ≤ MAX_VERSIONS }
    requires unused { IsRoom kept room.old }
    requires inside { kept ≤ (S.state source.old).blocks }
    requires limit { limit ≤ (T.state target.old).blocks }
    ensures step { StepsTo result limit (S.state source.old) (T.state target.old) room.old.numbers
        (S.state source.new) (T.state target.new) room.new.numbers }
    ensures many { OnOk result (length room.new.entries.items ≡ length versions.now) }
    ensures copied { CopiesEntries result limit versions.now room.new.entries.items (S.state source.old)
        (T.state target.old) room.old.numbers (S.state source.new) (T.state target.new) room.new.numbers }
    ensures sound { SoundVersionsCopy result kept versions.now (S.state source.old) (S.state source.new) }
    ensures reached { ReachedVersionsCopy result kept versions.now (S.state source.old) room.old.numbers
        (S.state source.new) room.new.numbers }
{
    copy_versions(
        source,
        kept,
        target,
        limit,
        versions,
        &mut room.versions,
        &mut room.numbers,
    )?;
    write_entries(&mut room.entries, &room.versions);
    Ok(())
}

/// The refusal for a fault of a copy.
fn refusal_of(fault: CopyFault) -> Refusal
    ensures { result ≡ refusal_of_copy fault }
{
    match fault {
        CopyFault::Source(fault) => Refusal::from(fault),
        CopyFault::Target => Refusal::Device,
        CopyFault::Full => Refusal::Full,
    }
}

/// Writes a store of `blocks` blocks with copies of these versions to a disk without one. The versions
/// are those of a store of `kept` blocks.
fn fill<S: Disk, T: Disk>(
    source: &mut S,
    kept: u32,
    versions: &[Version],
    target: &mut T,
    blocks: u32,
    room: &mut Room,
) -> Result<(), Refusal>
    requires few { length versions.now ≤ MAX_VERSIONS }
    requires unused { IsRoom kept room.old }
    requires inside { kept ≤ (S.state source.old).blocks }
    requires fit { SizeFits blocks (T.state target.old) }
    ensures both { GoesOnBoth (result ≡ Err Refusal.Device) (S.state source.old) (T.state target.old)
        (S.state source.new) (T.state target.new) }
    ensures reads { (S.state source.new).honest ≡ true
        → OnlyReads (S.state source.old) (S.state source.new) }
    ensures bound { (S.state source.new).honest ≡ true → (T.state target.new).honest ≡ true
        → OnOk result ((S.state source.new).reads + FIRST_DATA ≤ (S.state source.old).reads + blocks) }
    ensures held { FillsFromHeld result (S.state source.old) (S.state source.new) kept versions.now blocks }
    ensures refusals { IfErr result IsOfFill }
    ensures sound { FillsSoundly (S.state source.old) (T.state target.old) (S.state source.new) (T.state target.new)
        kept versions.now blocks result }
    ensures filled { Fills (S.state source.old) (T.state target.old) (S.state source.new) (T.state target.new)
        kept versions.now blocks result }
    ensures moments { FillsAtMost (S.state source.old) (T.state target.old) (S.state source.new) (T.state target.new)
        kept versions.now blocks }
{
    match copy_entries(source, kept, versions, target, blocks, room) {
        Ok(()) => {}
        Err(fault) => return Err(refusal_of(fault)),
    }
    match put_down(target, blocks, &room.entries) {
        Ok(()) => Ok(()),
        Err(_) => Err(Refusal::Device),
    }
}

/// Copies what a store has committed to a disk that has no store.
fn copy_to<S: Disk, T: Disk>(
    source: &mut Store<S>,
    target: &mut T,
    blocks: u32,
    room: &mut Room,
) -> Result<(), Refusal>
    requires unused { IsRoom (kept_of source.old) room.old }
    requires fit { SizeFits blocks (T.state target.old) }
    ensures both { GoesOnBoth (result ≡ Err Refusal.Device) (S.state (disk_of source.old)) (T.state target.old)
        (S.state (disk_of source.new)) (T.state target.new) }
    ensures same { IsSameButDisk source.old source.new }
    ensures reads { IsHonest source.new → ReadsAlone source.old source.new }
    ensures bound { ReadsFew result source.old source.new (T.state target.new) blocks }
    ensures held { ReadsHeld result source.old source.new }
    ensures full { OfState source.old source.new (λ s. result ≡ Err Refusal.Full
        → LacksBlocks source.old blocks) }
    ensures late { IfErr result (λ r. ComesBefore r → ⊥) }
    ensures sound { OfState source.old source.new (λ s. IfErr result IsOfCopy) }
    ensures spares { SparesStore (T.state target.old) (T.state target.new)
        (result ≡ Err Refusal.AlreadyAStore) result }
    ensures copied { Copies result source.old source.new (T.state target.new) blocks }
    ensures moments { CopiesAtMost source.old source.new (T.state target.old) (T.state target.new) blocks }
{
    match has_header(target) {
        Ok(true) => return Err(Refusal::AlreadyAStore),
        Ok(false) => {}
        Err(_) => return Err(Refusal::Device),
    }
    fill(
        &mut source.disk,
        source.parts.kept,
        source.parts.committed.as_slice(),
        target,
        blocks,
        room,
    )
}

/// Room for a copy of a store to `blocks` blocks of a disk that has `available`, or why there can be
/// no copy.
fn prepare<S: Disk>(source: &Store<S>, available: u32, blocks: u32) -> Result<Room, Refusal>
    ensures room { IfOk result (IsRoom (kept_of source.now)) }
    ensures fits { OnOk result (IsBadSize blocks available → ⊥) }
    ensures enough { OnOk result (LacksBlocks source.now blocks → ⊥) }
    ensures well { OnOk result (has_failed source.now ≡ false) }
    ensures refused { IfErr result (IsRefusedFirst source.now blocks available) }
{
    source.ready()?;
    if blocks < MIN_BLOCKS || blocks > MAX_BLOCKS || blocks > available {
        return Err(Refusal::BadSize);
    }
    let Some(room) = room_for(source.alloc, source.parts.kept) else {
        return Err(Refusal::Memory);
    };
    if blocks < source.parts.blocks - source.parts.held.free_count() {
        return Err(Refusal::Full);
    }
    Ok(room)
}

/// Copies what a store has committed to another disk, as a store of `blocks` blocks: 64 to 67,108,864,
/// and no more than the disk has. The source is only read. Blocks that versions share stay shared, and
/// the copy's blocks lie in the order of the trees. Open the source right before: the answer is `Full`
/// if `blocks` is less than the number of blocks it holds, and commands may hold more than the
/// committed versions need.
///
/// The trees' blocks are written first, then the entries, and the header last. If it refuses, the
/// target comes back with the refusal; a store that was there is unchanged.
pub fn copy<S: Disk, T: Disk>(
    source: &mut Store<S>,
    mut target: T,
    blocks: u32,
) -> Result<T, (T, Refusal)>
    // On any disks: the answer is Device only if a call of one of the two failed. The source changes in
    // nothing but its disk, which holds what it held before at every moment.
    ensures both { GoesOnBoth (ComesBack result Refusal.Device) (S.state (disk_of source.old)) (T.state target)
        (S.state (disk_of source.new)) (T.state (given_back result)) }
    ensures same { IsSameButDisk source.old source.new }
    ensures reads { IsHonest source.new → ReadsAlone source.old source.new }

    // It makes no more reads than the copy has data blocks, and no more than the source holds.
    ensures bound { ReadsFew result source.old source.new (T.state (given_back result)) blocks }
    ensures held { ReadsHeld result source.old source.new }

    // What is refused before any call of either disk.
    ensures failed { ComesBack result Refusal.Failed ↔ (has_failed source.old ≡ true) }
    ensures bad_size { has_failed source.old ≡ false
        → (ComesBack result Refusal.BadSize ↔ IsBadSize blocks (T.state target).blocks) }
    ensures too_few { LacksBlocks source.old blocks → IsErr result
        × ((given_back result ≡ target) × (source.new ≡ source.old)) }
    ensures untouched { IsErrAnd result (λ e. ComesBefore e.1)
        → (given_back result ≡ target) × (source.new ≡ source.old) }

    // The only refusals if the store represents a state.
    ensures refusals { OfState source.old source.new (λ s. IfErr result (λ e. IsOfCopy e.1)) }

    // It is Full only if there are fewer blocks than the source holds.
    ensures full { OfState source.old source.new (λ s. ComesBack result Refusal.Full
        → LacksBlocks source.old blocks) }

    // If there already is a store, it refuses and leaves the store as it was.
    ensures spares { SparesStore (T.state target) (T.state (given_back result))
        (ComesBack result Refusal.AlreadyAStore) result }

    // On success, the target shows exactly the committed tree of the source, in `blocks` blocks. At each
    // moment before, a crash shows at most that.
    ensures copied { Copies result source.old source.new (T.state (given_back result)) blocks }
    ensures moments { CopiesAtMost source.old source.new (T.state target) (T.state (given_back result)) blocks }
{
    match prepare(source, target.blocks(), blocks) {
        Ok(mut room) => match copy_to(source, &mut target, blocks, &mut room) {
            Ok(()) => Ok(target),
            Err(refusal) => Err((target, refusal)),
        },
        Err(refusal) => Err((target, refusal)),
    }
}
