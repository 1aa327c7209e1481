//! Removing a record.
ghost use Rattle.std.specs.Prelude.{◌≡◌, ◌+◌, ◌-◌, ◌<◌, ◌≤◌, min, Bool, length, option_copied, IfOk, IfSome};
ghost use Rattle.vm_types.specs.Places.{place};
ghost use Rattle.vm_tree.specs.Calls.{LooksIf, MayWrite, ReadsWithin, WritesBeside, WritesOwn};
ghost use Rattle.vm_tree.specs.Spent.{ReadsAtMost};
ghost use Rattle.vm_tree.specs.Free.{IsBeside};
ghost use Rattle.vm_tree.specs.Insertion.{KeepsBeside};
ghost use Rattle.vm_tree.specs.Splits.{IsWide};
ghost use Rattle.vm_tree.specs.BlockReads.{FindsPath, FindsPathFrom, IsCount};
ghost use Rattle.vm_tree.specs.Removal.{Empties, HadOneIf, IsLeftOf, IsOutside, IsRootLeft, KeepsAll, LeavesOut, LeavesRest, LooksIfKept, NarrowsTo, RemovesFrom, RemovesFromLeaf, RemovesUnder, child_of};
ghost use Rattle.vm_tree.specs.Root.{AreSizes, IsFan, sizes_of};
ghost use Rattle.vm_tree.specs.Tree.{IsData};

use crate::block_reads::{is_data, load_leaf, load_way};
use crate::block_writes::{own_place, write_bytes, write_node_block};
use crate::child_lists::spliced;
use crate::faults::TreeFault;
use crate::root::{Root, root_at};
use arrayvec::ArrayVec;
use vm_alloc::{Baseline, Held};
use vm_block::{Child, MAX_CHILDREN, Taken, Way, read_node, remove_record, set_child};
use vm_disk::Disk;
use vm_types::{Block, BlockNumber, Key};

/// What is left of a block without a record.
#[derive(Clone, Copy, Debug)]
enum Left {
    /// The record was not there, and nothing was written.
    Same,
    /// No record is left, and no block was written for it.
    Nothing,
    /// The rest lies under this root.
    Rest(Root),
}

/// The root as a child of a block above it.
fn child_of(root: Root) -> Child
    ensures { result ≡ child_of root }
{
    Child {
        low: root.low,
        block: root.block,
    }
}

/// The children of an inner block of these bytes without the one that the descent took.
fn without_child(bytes: &Block, way: Way) -> Option<ArrayVec<Child, 258>>
    requires within { way.index < way.count }
    requires few { way.count ≤ MAX_CHILDREN }
    ensures count { IfSome result (λ rest. length rest.items + 1 ≡ way.count) }
    ensures only { LeavesOut result way bytes.now }
{
    match read_node(bytes) {
        Some(node) if node.children.len() == way.count => {
            Some(spliced(node.children.as_slice(), way.index, &[]))
        }
        _ => None,
    }
}

/// Removes the key's record from a leaf.
fn remove_from_leaf<D: Disk>(
    disk: &mut D,
    held: &mut Held,
    own: Option<BlockNumber>,
    top: Child,
    key: Key,
) -> Result<Left, TreeFault>
    requires may { MayWrite 1 own held.old (D.state disk.old) }
    requires place { IfSome own (λ n. n ≡ top.block) }
    ensures writes { WritesOwn result own 1 1 held.old held.new (D.state disk.old) (D.state disk.new) }
    ensures left { (is_root : Bool) → IfOk result (IsLeftOf 0 is_root held.old held.new (D.state disk.new)) }
    ensures kept { LooksIfKept result (IsBeside own) held.old held.new (D.state disk.old) (D.state disk.new) }
    ensures last { HadOneIf (result ≡ Ok Left.Nothing) (D.state disk.old) (D.state disk.new) 0 top.block }
    ensures path { FindsPath result (D.state disk.old) (D.state disk.new) (length held.old) (place key) 0 top }
    ensures remove { RemovesFromLeaf result held.old held.new
        (D.state disk.old) (D.state disk.new) top (place key) }
{
    load_leaf(disk, held.blocks(), top)?;
    let leaf = disk.at_hand();
    let mut bytes = *leaf;
    match remove_record(&mut bytes, key) {
        Taken::Out => {
            let leaf = write_bytes(disk, held, own, &bytes)?;
            Ok(Left::Rest(root_at(leaf, 0)))
        }
        Taken::Last => Ok(Left::Nothing),
        Taken::Absent => Ok(Left::Same),
    }
}

/// The first block from this one down that is a leaf or has more than one child. It must be a data
/// block.
fn narrowed<D: Disk, const FAN: usize>(
    disk: &mut D,
    blocks: u32,
    top: Child,
    level: u8,
) -> Result<Root, TreeFault>
    requires { blocks ≤ (D.state disk.old).blocks }
    ensures looks { ReadsWithin level result (D.state disk.old) (D.state disk.new) }
    ensures level { IfOk result (λ root. root.level ≤ level) }
    ensures root { IfOk result (λ root. IsData blocks root.block) }
    ensures wide { IfOk result (IsWide (D.state disk.new)) }
    ensures narrow { NarrowsTo result FAN (D.state disk.old) (D.state disk.new) blocks level top }
{
    if !is_data(blocks, top.block) {
        return Err(TreeFault::Damaged(top.block));
    }
    if level == 0 {
        return Ok(root_at(top, 0));
    }
    // If there is only one child, the way to any key goes to it.
    let way = load_way::<D, FAN>(disk, blocks, level, top, top.low)?;
    if way.count == 1 {
        narrowed::<D, FAN>(disk, blocks, way.child, level - 1)
    } else {
        Ok(root_at(top, level))
    }
}

/// Writes what is left of an inner block of this level, or nothing if no child is left. If the
/// block is the root and has one child left, that child takes its place.
fn write_rest<D: Disk, const FAN: usize>(
    disk: &mut D,
    held: &mut Held,
    own: Option<BlockNumber>,
    level: u8,
    is_root: bool,
    children: &[Child],
) -> Result<Left, TreeFault>
    requires may { MayWrite 1 own held.old (D.state disk.old) }
    requires level { IsCount 7 level }
    requires few { length children.now ≤ FAN }
    requires fan { IsFan FAN }
    ensures writes { WritesOwn result own (level - 1) 1
        held.old held.new (D.state disk.old) (D.state disk.new) }
    ensures left { IfOk result (IsLeftOf level is_root held.old held.new (D.state disk.new)) }
    ensures kept { LooksIfKept result (IsBeside own) held.old held.new (D.state disk.old) (D.state disk.new) }
    ensures idle { result ≡ Ok Left.Nothing → ReadsAtMost 0 (D.state disk.old) (D.state disk.new) }
    ensures last { result ≡ Ok Left.Nothing → length children.now ≡ 0 }
    ensures rest { LeavesRest result own FAN level children.now held.old held.new
        (D.state disk.old) (D.state disk.new) }
{
    if children.is_empty() {
        return Ok(Left::Nothing);
    }
    if !is_root || children.len() > 1 {
        let node = write_node_block(disk, held, own, level, children)?;
        return Ok(Left::Rest(root_at(node, level)));
    }
    let root = narrowed::<D, FAN>(disk, held.blocks(), children[0], level - 1)?;
    Ok(Left::Rest(root))
}

/// Removes the key's record from what lies under a block of this level. A root that would have one
/// child is not written. An own block below the root whose child keeps its number and its lowest
/// key stays as it is.
fn remove_below<D: Disk, const FAN: usize>(
    disk: &mut D,
    held: &mut Held,
    base: Option<&Baseline>,
    level: u8,
    top: Child,
    is_root: bool,
    key: Key,
) -> Result<Left, TreeFault>
    requires may { MayWrite (level + 1) None held.old (D.state disk.old) }
    requires fan { IsFan FAN }
    requires low { level ≤ 7 }
    ensures writes { WritesBeside result (option_copied base.entry) (level + 1 + (level - 1)) (level + 1)
        held.old held.new (D.state disk.old) (D.state disk.new) }
    ensures beside { KeepsBeside result FAN held.old (D.state disk.old) (D.state disk.new) level top }
    ensures left { IfOk result (IsLeftOf level is_root held.old held.new (D.state disk.new)) }
    ensures kept { LooksIfKept result (IsOutside (option_copied base.entry))
        held.old held.new (D.state disk.old) (D.state disk.new) }
    ensures path_reads { result ≡ Ok Left.Nothing → ReadsAtMost (level + 1) (D.state disk.old) (D.state disk.new) }
    ensures last { HadOneIf (result ≡ Ok Left.Nothing) (D.state disk.old) (D.state disk.new) level top.block }
    ensures path { FindsPath result (D.state disk.old) (D.state disk.new) (length held.old) (place key) level top }
    ensures remove { RemovesUnder result FAN held.old held.new
        (D.state disk.old) (D.state disk.new) level top (place key) }
{
    let own = own_place(held, base, top.block);
    if level == 0 {
        return remove_from_leaf(disk, held, own, top, key);
    }
    let way = load_way::<D, FAN>(disk, held.blocks(), level, top, key)?;
    let node = disk.at_hand();
    let mut bytes = *node;
    let alone = is_root && way.count == 1;
    let left = remove_below::<D, FAN>(disk, held, base, level - 1, way.child, alone, key)?;
    match left {
        Left::Same => Ok(Left::Same),
        Left::Nothing => match without_child(&bytes, way) {
            Some(rest) => write_rest::<D, FAN>(disk, held, own, level, is_root, rest.as_slice()),
            None => Err(TreeFault::Damaged(top.block)),
        },
        Left::Rest(root) => {
            if alone {
                return Ok(Left::Rest(root));
            }
            let child = child_of(root);
            if own.is_some() && !is_root && child == way.child {
                return Ok(Left::Rest(root_at(top, level)));
            }
            set_child(&mut bytes, way.index, child);
            let node = write_bytes(disk, held, own, &bytes)?;
            Ok(Left::Rest(root_at(node, level)))
        }
    }
}

/// Removes the record of a key, and returns the new root, or None if the key is absent. `base`, if
/// it is given, holds the blocks that stand as they are: each other block of the tree that is to be
/// changed, and is held, is changed in its place. The rest of the root-to-leaf path is copied into
/// free blocks. Requires 16 free blocks.
pub fn remove<D: Disk, const FAN: usize, const LEVELS: usize>(
    disk: &mut D,
    held: &mut Held,
    base: Option<&Baseline>,
    root: Root,
    key: Key,
) -> Result<Option<Root>, TreeFault>
    requires sizes { AreSizes FAN LEVELS }
    requires may { MayWrite 16 None held.old (D.state disk.old) }

    // The new root is a data block, or that of the empty map. It takes at most one block for each
    // of its levels. On a tree it is a leaf, or has at least two children.
    ensures root { IfOk result (λ rest. IfSome rest
        (IsRootLeft LEVELS held.old held.new (D.state disk.new))) }

    // What is held stays held, and each block that is taken lies below each one that is still free.
    // At no moment does a block that was held, and is in the baseline if there is one, have other
    // bytes than before. It reads at most one block per level, and one more for each level between
    // the root and the leaves if the root is replaced by a block below it. It takes at most 8, those
    // of one path, one per level.
    ensures writes { WritesBeside result (option_copied base.entry)
        (root.level + 1 + (root.level - 1)) (min 8 (root.level + 1))
        held.old held.new (D.state disk.old) (D.state disk.new) }

    // Nothing is written or taken if the answer is None, if no record is left, or if the new root
    // already existed, and was not free in the baseline: a root that would have one child is not
    // written. Nor is it if a block is damaged.
    ensures kept { LooksIf (KeepsAll (option_copied base.entry) held.old held.new result) held.old held.new
        (D.state disk.old) (D.state disk.new) }

    // It answers that no record is left only if the old root had exactly one, whatever its blocks
    // are.
    ensures last { HadOneIf (Empties result) (D.state disk.old) (D.state disk.new)
        root.level root.block }

    // What is left, or that the key is absent, is returned only if each inner block on the path has
    // the head of its level, the last block is a leaf, and each begins with the key that its parent
    // gives it, the first one with the lowest key of the old root.
    ensures path { FindsPathFrom root result (D.state disk.old) (D.state disk.new) (length held.old) (place key) }

    // On a tree the answer is None exactly if the key is absent, and otherwise a root, unless the
    // device fails. If the blocks of the tree are held, the root has the map without the key, in
    // blocks that are held now.
    ensures remove { RemovesFrom result (sizes_of FAN LEVELS) held.old held.new
        (D.state disk.old) (D.state disk.new) root key }
{
    if root.block == 0 {
        return Ok(None);
    }
    if usize::from(root.level) >= LEVELS {
        return Err(TreeFault::Damaged(root.block));
    }
    let top = Child {
        low: root.low,
        block: root.block,
    };
    let left = remove_below::<D, FAN>(disk, held, base, root.level, top, true, key)?;
    match left {
        Left::Same => Ok(None),
        Left::Nothing => Ok(Some(Root::default())),
        Left::Rest(root) => Ok(Some(root)),
    }
}
