//! Formatting a disk: and how a store is put on a disk without one, as a copy is, too.
ghost use Rattle.std.specs.Prelude.{◌≡◌, ◌⊎◌, ◌↔◌, ◌<◌, ◌≤◌, true, length, IfErr, IsErr, IsErrAnd, IsTrue};
ghost use Rattle.vm_types.specs.declared.sizes.TheConstants.{MAX_VERSIONS};
ghost use Rattle.vm_disk.specs.Disk.{Goes, block};
ghost use Rattle.vm_disk.specs.Moments.{Leaves};
ghost use Rattle.vm_check.specs.Verification.{SizeFits};
ghost use Rattle.vm_store.specs.Layout.{Completes, LaysOut, PutsAtMost, PutsDown, StaysReady, WithoutHeader};
ghost use Rattle.vm_store.specs.NewStore.{ComesBack, Formats, FormatsAtMost, IsAnyHeader, IsBadSize, IsOfFormat, SparesStore, TellsHeader, fresh_entry, given_back};
ghost use Rattle.vm_store.specs.Refused.{SyncsAtMost, SyncsUnless};
ghost use Rattle.vm_store.specs.Shown.{ShowsNothing};

use vm_block::{Entry, Kind, SlotName, is_earlier_header, is_header, write_header};
use vm_catalog::{select_slot, write_slot};
use vm_disk::{DeviceFault, Disk};
use vm_types::{Block, MAX_BLOCKS, MIN_BLOCKS, Name, Refusal};

/// The only entry of a new store.
fn fresh_entry() -> Entry
    ensures { result ≡ fresh_entry }
{
    let Some(name) = Name::new(b"top") else {
        unreachable!();
    };
    Entry {
        kind: Kind::Alternative,
        name,
        owner: None,
        current: 0,
        base: 0,
    }
}

/// Whether the block is the header of a store, of this format or an earlier one.
fn is_any_header(bytes: &Block) -> bool
    ensures { IsTrue result ↔ IsAnyHeader bytes.now }
{
    is_header(bytes) || is_earlier_header(bytes)
}

/// Syncs, and tells whether block 0 is the header of a store, of this format or an earlier one.
pub(super) fn has_header<D: Disk>(disk: &mut D) -> Result<bool, DeviceFault>
    requires { MIN_BLOCKS ≤ (D.state disk.old).blocks }
    ensures any { Goes (IsErr result) (D.state disk.old) (D.state disk.new) }
    ensures moments { SyncsAtMost (D.state disk.old) (D.state disk.new) }
    ensures synced { SyncsUnless (IsErr result) (D.state disk.old) (D.state disk.new) }
    ensures header { TellsHeader (D.state disk.old) (D.state disk.new) result }
{
    let mut block = [0; 4096];
    let Ok(()) = disk.sync() else {
        return Err(DeviceFault);
    };
    let Ok(()) = disk.read(0, &mut block) else {
        return Err(DeviceFault);
    };
    Ok(is_any_header(&block))
}

/// Writes slot A with these entries and the selector that names it, and syncs.
fn lay_out<D: Disk>(disk: &mut D, blocks: u32, entries: &[Entry]) -> Result<(), DeviceFault>
    requires room { MIN_BLOCKS ≤ (D.state disk.old).blocks }
    requires few { length entries.now ≤ MAX_VERSIONS }
    ensures any { Goes (IsErr result) (D.state disk.old) (D.state disk.new) }
    ensures moments { WithoutHeader (D.state disk.old) (D.state disk.new) (Leaves ShowsNothing) }
    ensures laid { LaysOut (D.state disk.old) (D.state disk.new) result blocks entries.now }
{
    let Ok(()) = write_slot(disk, SlotName::A, blocks, entries) else {
        return Err(DeviceFault);
    };
    let Ok(()) = select_slot(disk, SlotName::A) else {
        return Err(DeviceFault);
    };
    disk.sync()
}

/// Writes the header, and syncs.
fn put_header<D: Disk>(disk: &mut D) -> Result<(), DeviceFault>
    requires { MIN_BLOCKS ≤ (D.state disk.old).blocks }
    ensures any { Goes (IsErr result) (D.state disk.old) (D.state disk.new) }
    ensures moments { StaysReady (D.state disk.old) (D.state disk.new) }
    ensures completed { Completes (D.state disk.old) (D.state disk.new) result }
{
    let mut header = [0; 4096];
    write_header(&mut header);
    let Ok(()) = disk.write(0, &header) else {
        return Err(DeviceFault);
    };
    disk.sync()
}

/// Writes a store with these entries to a disk without one. What lies under their roots is there
/// already; the header is written last.
pub(super) fn put_down<D: Disk>(
    disk: &mut D,
    blocks: u32,
    entries: &[Entry],
) -> Result<(), DeviceFault>
    requires room { blocks ≤ (D.state disk.old).blocks }
    requires least { MIN_BLOCKS ≤ blocks }
    requires few { length entries.now ≤ MAX_VERSIONS }
    ensures any { Goes (IsErr result) (D.state disk.old) (D.state disk.new) }
    ensures moments { PutsAtMost (D.state disk.old) (D.state disk.new) blocks entries.now }
    ensures down { PutsDown (D.state disk.old) (D.state disk.new) result blocks entries.now }
{
    let Ok(()) = lay_out(disk, blocks, entries) else {
        return Err(DeviceFault);
    };
    put_header(disk)
}

/// Makes a new store on a disk that has none.
fn make_store<D: Disk>(disk: &mut D, blocks: u32) -> Result<(), Refusal>
    requires { SizeFits blocks (D.state disk.old) }
    ensures any { Goes (result ≡ Err Refusal.Device) (D.state disk.old) (D.state disk.new) }
    ensures refusals { IfErr result (λ r. (r ≡ Refusal.AlreadyAStore) ⊎ (r ≡ Refusal.Device)) }
    ensures spares { SparesStore (D.state disk.old) (D.state disk.new)
        (result ≡ Err Refusal.AlreadyAStore) result }
    ensures formatted { Formats blocks result (D.state disk.new) }
    ensures moments { FormatsAtMost (D.state disk.old) (D.state disk.new) blocks }
{
    match has_header(disk) {
        Ok(true) => return Err(Refusal::AlreadyAStore),
        Ok(false) => {}
        Err(_) => return Err(Refusal::Device),
    }
    match put_down(disk, blocks, &[fresh_entry()]) {
        Ok(()) => Ok(()),
        Err(_) => Err(Refusal::Device),
    }
}

/// Makes a new store of `blocks` blocks on a disk: 64 to 67,108,864, and no more than the disk has.
/// On refusal, the disk comes back with the refusal, and an existing store, also one of an earlier
/// format, is unchanged.
pub fn format<D: Disk>(mut disk: D, blocks: u32) -> Result<D, (D, Refusal)>
    // On any disk.
    ensures any { Goes (IsErrAnd result
        (λ e. e.1 ≡ Refusal.Device)) (D.state disk) (D.state (given_back result)) }
    ensures bad_size { IsErrAnd result
        (λ e. e.1 ≡ Refusal.BadSize) ↔ IsBadSize blocks (D.state disk).blocks }
    ensures untouched { IsErrAnd result (λ e. e.1 ≡ Refusal.BadSize) → given_back result ≡ disk }
    ensures refusals { IfErr result (λ e. IsOfFormat e.1) }

    // If there already is a store, it refuses and leaves the store as it was.
    ensures spares { SparesStore (D.state disk) (D.state (given_back result))
        (ComesBack result Refusal.AlreadyAStore) result }

    // On success, a new store is shown. At each moment before, a crash shows at most that.
    ensures formatted { Formats blocks result (D.state (given_back result)) }
    ensures moments { FormatsAtMost (D.state disk) (D.state (given_back result)) blocks }
{
    if blocks < MIN_BLOCKS || blocks > MAX_BLOCKS || blocks > disk.blocks() {
        return Err((disk, Refusal::BadSize));
    }
    match make_store(&mut disk, blocks) {
        Ok(()) => Ok(disk),
        Err(refusal) => Err((disk, refusal)),
    }
}
