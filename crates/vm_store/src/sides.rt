//! What two sides made of the map that both started from, and what their merge does.
ghost use Rattle.std.specs.Prelude.{◌≡◌, ◌≢◌, ◌≤◌, true, Some, None};
ghost use Rattle.vm_types.specs.Map.{conflicts};
ghost use Rattle.vm_disk.specs.Disk.{Goes};
ghost use Rattle.vm_disk.specs.Moments.{OnlyReads};
ghost use Rattle.vm_store.specs.Sides.{GivesConflicts, GivesPlan, GivesSides, GivesTally, ReadsSides, root_from};

use crate::tally::Tally;
use std::alloc::Global;
use vm_diff::changed;
use vm_disk::Disk;
use vm_tree::Root;
use vm_types::{
    Changes, Conflicts, Key, MergePlan, Refusal, Side, conflicts_between, keys_in_conflict,
    plan_merge, settled_refusal,
};

/// The roots of a base, and of the two maps that came from it.
#[derive(Clone, Copy, Debug)]
pub struct ThreeRoots {
    pub base: Root,
    pub parent: Root,
    pub own: Root,
}

impl ThreeRoots {
    /// The root that a merge begins with if it begins with the map of this side.
    pub fn start(&self, side: Side) -> Root
        ensures { result ≡ root_from side self.now }
    {
        match side {
            Side::Mine => self.own,
            Side::Theirs => self.parent,
        }
    }
}

/// What the parent changed since the base, and what the alternative did, by rising keys.
#[derive(Debug, Drop)]
struct Sides {
    theirs: Changes,
    mine: Changes,
}

/// Reads what both sides changed since their base.
fn read_sides<D: Disk>(
    alloc: Global,
    disk: &mut D,
    blocks: u32,
    roots: ThreeRoots,
) -> Result<Sides, Refusal>
    requires { blocks ≤ (D.state disk.old).blocks }
    ensures any { Goes (result ≡ Err Refusal.Device) (D.state disk.old) (D.state disk.new) }
    ensures never { result ≢ Err Refusal.Failed }
    ensures reads { (D.state disk.new).honest ≡ true
        → OnlyReads (D.state disk.old) (D.state disk.new) }
    ensures sides { GivesSides (D.state disk.old) (D.state disk.new) blocks roots result }
    ensures bound { ReadsSides (D.state disk.old) (D.state disk.new) blocks roots }
{
    let theirs = changed(alloc, disk, blocks, roots.base, roots.parent)?;
    let mine = changed(alloc, disk, blocks, roots.base, roots.own)?;
    Ok(Sides { theirs, mine })
}

/// The keys in conflict between both sides, by rising keys, with the three values.
pub fn conflicts_of<D: Disk>(
    alloc: Global,
    disk: &mut D,
    blocks: u32,
    roots: ThreeRoots,
) -> Result<Conflicts, Refusal>
    requires { blocks ≤ (D.state disk.old).blocks }
    ensures any { Goes (result ≡ Err Refusal.Device) (D.state disk.old) (D.state disk.new) }
    ensures never { result ≢ Err Refusal.Failed }
    ensures reads { (D.state disk.new).honest ≡ true
        → OnlyReads (D.state disk.old) (D.state disk.new) }
    ensures conflicts { GivesConflicts (D.state disk.old) (D.state disk.new) blocks roots result }
    ensures bound { ReadsSides (D.state disk.old) (D.state disk.new) blocks roots }
{
    let sides = read_sides(alloc, disk, blocks, roots)?;
    conflicts_between(alloc, &sides.theirs, &sides.mine)
}

/// How many records both sides changed since their base, and how many are in conflict.
pub fn tally_of<D: Disk>(
    alloc: Global,
    disk: &mut D,
    blocks: u32,
    roots: ThreeRoots,
) -> Result<Tally, Refusal>
    requires { blocks ≤ (D.state disk.old).blocks }
    ensures any { Goes (result ≡ Err Refusal.Device) (D.state disk.old) (D.state disk.new) }
    ensures never { result ≢ Err Refusal.Failed }
    ensures reads { (D.state disk.new).honest ≡ true
        → OnlyReads (D.state disk.old) (D.state disk.new) }
    ensures tally { GivesTally (D.state disk.old) (D.state disk.new) blocks roots result }
    ensures bound { ReadsSides (D.state disk.old) (D.state disk.new) blocks roots }
{
    let sides = read_sides(alloc, disk, blocks, roots)?;
    let conflicts = keys_in_conflict(alloc, &sides.theirs, &sides.mine)?;
    Ok(Tally {
        changed: sides.mine.len(),
        unmerged: sides.theirs.len(),
        conflicts: conflicts.len(),
        can_post: sides.theirs.is_empty(),
    })
}

/// What a merge does on the smaller side, or why its settlements are refused.
pub fn plan_of_merge<D: Disk>(
    alloc: Global,
    disk: &mut D,
    blocks: u32,
    roots: ThreeRoots,
    settled: &[(Key, Side)],
) -> Result<MergePlan, Refusal>
    requires { blocks ≤ (D.state disk.old).blocks }
    ensures any { Goes (result ≡ Err Refusal.Device) (D.state disk.old) (D.state disk.new) }
    ensures never { result ≢ Err Refusal.Failed }
    ensures reads { (D.state disk.new).honest ≡ true
        → OnlyReads (D.state disk.old) (D.state disk.new) }
    ensures plan { GivesPlan (D.state disk.old) (D.state disk.new) blocks roots result settled.now }
    ensures bound { ReadsSides (D.state disk.old) (D.state disk.new) blocks roots }
{
    let sides = read_sides(alloc, disk, blocks, roots)?;
    let conflicts = keys_in_conflict(alloc, &sides.theirs, &sides.mine)?;
    match settled_refusal(alloc, settled, &conflicts) {
        Some(refusal) => Err(refusal),
        None => plan_merge(alloc, &sides.theirs, &sides.mine, settled),
    }
}
