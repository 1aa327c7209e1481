//! Changes of records, made one after another in the tree under a root.
ghost use Rattle.std.specs.Prelude.{◌≡◌, ◌≢◌, ◌+◌, ◌*◌, ◌≤◌, ◌∷◌, [], true, length, option_copied, IfSome};
ghost use Rattle.vm_types.specs.declared.change.Change.{Change};
ghost use Rattle.vm_types.specs.Bytes.{longest};
ghost use Rattle.vm_types.specs.State.{blocks_a_change};
ghost use Rattle.vm_types.specs.Map.{Map, with_change, with_changes};
ghost use Rattle.vm_disk.specs.Disk.{Goes};
ghost use Rattle.vm_disk.specs.Moments.{Throughout, TouchesOnly};
ghost use Rattle.vm_alloc.specs.Held.{IsHeld, HoldsMore, free_count};
ghost use Rattle.vm_tree.specs.Unsynced.{NeverSyncs};
ghost use Rattle.vm_tree.specs.Free.{is_free};
ghost use Rattle.vm_tree.specs.Root.{IsRootedIn};
ghost use Rattle.vm_tree.specs.declared.faults.TreeFault.TheVariants.{Device};
ghost use Rattle.vm_store.specs.ChangeList.{Makes, MeetsFullPath};
ghost use Rattle.vm_store.specs.Rest.{before_of};
ghost use Rattle.vm_store.specs.Sizes.{sizes};

use crate::{FAN, LEVELS};
use vm_alloc::{Baseline, Held};
use vm_disk::Disk;
use vm_tree::{PutFault, Root, put, remove};
use vm_types::{Changes, Key};

/// Gives the key the value that it has after the change, or removes its record if there is none, in
/// the tree under a root, and returns the new root. If it is known which blocks were held before,
/// the others are changed in their places.
fn make_change<D: Disk>(
    disk: &mut D,
    held: &mut Held,
    before: Option<&Baseline>,
    root: Root,
    key: Key,
    after: Option<&[u8]>,
) -> Result<Root, PutFault>
    requires inside { length held.old ≤ (D.state disk.old).blocks }
    requires before { HoldsMore (before_of (option_copied before) held.old) held.old }
    requires short { IfSome after (λ value. length value.now ≤ longest) }
    requires room { blocks_a_change ≤ free_count held.old }
    ensures any { Goes (result ≡ Err (PutFault.Tree Device)) (D.state disk.old) (D.state disk.new) }
    ensures still { HoldsMore held.old held.new }
    ensures taken { free_count held.old ≤ free_count held.new + 16 }
    ensures moments { (D.state disk.new).honest ≡ true
        → Throughout (D.state disk.old) (D.state disk.new)
        (TouchesOnly (is_free (before_of (option_copied before.entry) held.old)) (D.state disk.old).now) }
    ensures unsynced { (D.state disk.new).honest ≡ true
        → NeverSyncs (D.state disk.old) (D.state disk.new) }
    ensures changed { (D.state disk.new).honest ≡ true → (m : Map) (change : Change)
        → change.key ≡ key → change.after ≡ option_copied after.entry
        → IsRootedIn sizes (IsHeld held.old) (D.state disk.old).now.contents (length held.old) root m
        → Makes result (MeetsFullPath (D.state disk.new).now.contents (length held.old) m (change ∷ []))
        (λ r. IsRootedIn sizes (IsHeld held.new) (D.state disk.new).now.contents (length held.old) r (with_change m change)) }
{
    match after {
        Some(value) => put::<D, FAN, LEVELS>(disk, held, before, root, key, value),
        None => match remove::<D, FAN, LEVELS>(disk, held, before, root, key)? {
            Some(rest) => Ok(rest),
            None => Ok(root),
        },
    }
}

/// Makes changes of records in the tree under a root, in order. A change to no value removes the
/// record, if it is there. Requires 17 free blocks per change, and that `before`, if it is given, is
/// a copy of what is held: blocks that one change takes are then changed in their places by later
/// ones.
pub fn make_changes<D: Disk>(
    disk: &mut D,
    held: &mut Held,
    before: Option<&Baseline>,
    mut root: Root,
    changes: &Changes,
) -> Result<Root, PutFault>
    requires inside { length held.old ≤ (D.state disk.old).blocks }
    requires before { before_of (option_copied before) held.old ≡ held.old }
    requires room { blocks_a_change * length changes.now ≤ free_count held.old }
    ensures any { Goes (result ≡ Err (PutFault.Tree Device)) (D.state disk.old) (D.state disk.new) }

    // What is held stays held. At no moment does a block that was held have other bytes than
    // before, and no dirty one is synced.
    ensures still { HoldsMore held.old held.new }
    ensures moments { (D.state disk.new).honest ≡ true
        → Throughout (D.state disk.old) (D.state disk.new)
        (TouchesOnly (is_free held.old) (D.state disk.old).now) }
    ensures unsynced { (D.state disk.new).honest ≡ true
        → NeverSyncs (D.state disk.old) (D.state disk.new) }

    // At most 16 blocks are taken per change. With no changes, nothing is done.
    ensures taken { free_count held.old ≤ free_count held.new + 16 * length changes.now }
    ensures none { length changes.now ≡ 0 → (disk.new ≡ disk.old) × (held.new ≡ held.old) }

    // On a tree in held blocks the answer is a root that has the map with the changes made, or Deep
    // if one of them meets a full path, unless the device fails.
    ensures changed { (D.state disk.new).honest ≡ true → (m : Map)
        → IsRootedIn sizes (IsHeld held.old) (D.state disk.old).now.contents (length held.old) root m
        → Makes result (MeetsFullPath (D.state disk.new).now.contents (length held.old) m changes.now)
        (λ r. IsRootedIn sizes (IsHeld held.new) (D.state disk.new).now.contents (length held.old) r (with_changes m changes.now)) }
{
    let mut i = 0;
    while i < changes.len() {
        root = make_change(disk, held, before, root, changes.key(i), changes.after(i))?;
        i += 1;
    }
    Ok(root)
}
