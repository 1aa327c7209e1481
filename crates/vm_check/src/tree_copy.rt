//! Copying what lies under roots to another disk, under new numbers.
ghost use Rattle.std.specs.Prelude.{◌≡◌, ◌≢◌, ◌+◌, ◌<◌, ◌≤◌, true, IfOk};
ghost use Rattle.vm_types.specs.declared.sizes.TheConstants.{FIRST_DATA};
ghost use Rattle.vm_check.specs.declared.tree_copy.CopyFault.TheVariants as copy;
ghost use Rattle.vm_check.specs.TreeCopy.{CopiesBlock, CopiesChildren, CopiesMap, CopiesRoot, CopiesUpTo, IsPut, NumbersFit, PutsTo, ReachedChildrenCopy, ReachedCopy, ReachedTreeCopy, ReadsBesideCopies, SoundChildrenCopy, SoundCopy, SoundTreeCopy, StepsTo};
ghost use Rattle.vm_check.specs.Renumbering.{count_of, next_of};

use crate::renumbering::Renumbering;
use vm_block::{Child, MAX_CHILDREN, child_at, set_child};
use vm_disk::Disk;
use vm_tree::{Root, TreeFault, is_data, leaf_into, node_into};
use vm_types::{Block, BlockNumber};

/// Why trees were not copied.
#[derive(Clone, Copy, Debug, PartialEq, Eq)]
pub enum CopyFault {
    /// A block of the source could not be read, or is not what a tree has there.
    Source(TreeFault),
    /// The target's device failed.
    Target,
    /// The target has no block left.
    Full,
}

impl From<TreeFault> for CopyFault {
    ghost from_gives = { λ fault r. r ≡ copy.Source fault };

    fn from(fault: TreeFault) -> CopyFault {
        CopyFault::Source(fault)
    }
}

/// Writes these bytes as the copy of a block, under the next number. If the block already has a
/// copy by then, it lies under itself, and is damaged.
fn put_copy<T: Disk>(
    target: &mut T,
    limit: u32,
    block: BlockNumber,
    bytes: &Block,
    numbers: &mut Renumbering,
) -> Result<BlockNumber, CopyFault>
    requires inside { limit ≤ (T.state target.old).blocks }
    requires known { block < count_of numbers.old }
    requires least { FIRST_DATA ≤ next_of numbers.old }
    ensures device { result ≢ Err (CopyFault.Source TreeFault.Device) }
    ensures puts { PutsTo result limit block (T.state target.old) numbers.old (T.state target.new) numbers.new }
    ensures put { (T.state target.new).honest ≡ true → IfOk result (IsPut limit block bytes.now
        (T.state target.old).now.contents (T.state target.new).now.contents numbers.old numbers.new) }
{
    if numbers.number_of(block) != 0 {
        return Err(CopyFault::Source(TreeFault::Damaged(block)));
    }
    let number = numbers.next();
    if number >= limit {
        return Err(CopyFault::Full);
    }
    let Ok(()) = target.write(number, bytes) else {
        return Err(CopyFault::Target);
    };
    numbers.assign(block);
    Ok(number)
}

/// Copies a leaf, unless it was copied, and returns the number of its copy.
fn copy_leaf<S: Disk, T: Disk>(
    source: &mut S,
    blocks: u32,
    target: &mut T,
    limit: u32,
    block: BlockNumber,
    numbers: &mut Renumbering,
) -> Result<BlockNumber, CopyFault>
    requires fit { NumbersFit blocks limit (S.state source.old) (T.state target.old) numbers.old }
    ensures step { StepsTo result limit (S.state source.old) (T.state target.old) numbers.old
        (S.state source.new) (T.state target.new) numbers.new }
    ensures few { ReadsBesideCopies 1 (S.state source.old) numbers.old (S.state source.new) numbers.new }
    ensures copied { CopiesBlock result limit block (S.state source.old) (T.state target.old) numbers.old
        (S.state source.new) (T.state target.new) numbers.new }
    ensures only { CopiesUpTo 0 result (S.state source.old) numbers.old (S.state source.new) numbers.new }
    ensures sound { SoundCopy result blocks 0 block (S.state source.old) (S.state source.new) }
    ensures reached { ReachedCopy result blocks 0 block (S.state source.old) numbers.old
        (S.state source.new) numbers.new }
{
    if !is_data(blocks, block) {
        return Err(CopyFault::Source(TreeFault::Damaged(block)));
    }
    let number = numbers.number_of(block);
    if number != 0 {
        return Ok(number);
    }
    let mut bytes = [0; 4096];
    leaf_into(source, blocks, block, &mut bytes)?;
    put_copy(target, limit, block, &bytes, numbers)
}

/// Copies the children of an inner block, which are of this level, and all that lies under them,
/// and replaces their numbers by those of their copies.
#[cycle(copy_below)]
fn copy_children<S: Disk, T: Disk>(
    source: &mut S,
    blocks: u32,
    target: &mut T,
    limit: u32,
    level: u8,
    bytes: &mut Block,
    count: usize,
    numbers: &mut Renumbering,
) -> Result<(), CopyFault>
    requires few { count ≤ MAX_CHILDREN }
    requires fit { NumbersFit blocks limit (S.state source.old) (T.state target.old) numbers.old }
    ensures step { StepsTo result limit (S.state source.old) (T.state target.old) numbers.old
        (S.state source.new) (T.state target.new) numbers.new }
    ensures few { ReadsBesideCopies (level + 1) (S.state source.old) numbers.old (S.state source.new) numbers.new }
    ensures copied { CopiesChildren result limit count bytes.old bytes.new (S.state source.old) (T.state target.old) numbers.old
        (S.state source.new) (T.state target.new) numbers.new }
    ensures only { CopiesUpTo level result (S.state source.old) numbers.old (S.state source.new) numbers.new }
    ensures sound { SoundChildrenCopy result blocks level count bytes.old (S.state source.old) (S.state source.new) }
    ensures reached { ReachedChildrenCopy result blocks level count bytes.old (S.state source.old) numbers.old
        (S.state source.new) numbers.new }
{
    for i in 0..count {
        let child = child_at(bytes, i);
        let block = copy_below(source, blocks, target, limit, level, child.block, numbers)?;
        set_child(bytes, i, Child { block, ..child });
    }
    Ok(())
}

/// Copies an inner block of this level and all that lies under it, unless it was copied, and
/// returns the number of its copy.
#[cycle(copy_below)]
fn copy_node<S: Disk, T: Disk>(
    source: &mut S,
    blocks: u32,
    target: &mut T,
    limit: u32,
    level: u8,
    block: BlockNumber,
    numbers: &mut Renumbering,
) -> Result<BlockNumber, CopyFault>
    requires inner { 0 < level }
    requires fit { NumbersFit blocks limit (S.state source.old) (T.state target.old) numbers.old }
    ensures step { StepsTo result limit (S.state source.old) (T.state target.old) numbers.old
        (S.state source.new) (T.state target.new) numbers.new }
    ensures few { ReadsBesideCopies (level + 1) (S.state source.old) numbers.old (S.state source.new) numbers.new }
    ensures copied { CopiesBlock result limit block (S.state source.old) (T.state target.old) numbers.old
        (S.state source.new) (T.state target.new) numbers.new }
    ensures only { CopiesUpTo level result (S.state source.old) numbers.old (S.state source.new) numbers.new }
    ensures sound { SoundCopy result blocks level block (S.state source.old) (S.state source.new) }
    ensures reached { ReachedCopy result blocks level block (S.state source.old) numbers.old
        (S.state source.new) numbers.new }
{
    if !is_data(blocks, block) {
        return Err(CopyFault::Source(TreeFault::Damaged(block)));
    }
    let number = numbers.number_of(block);
    if number != 0 {
        return Ok(number);
    }
    let mut bytes = [0; 4096];
    let count = node_into(source, blocks, level, block, &mut bytes)?;
    copy_children(
        source,
        blocks,
        target,
        limit,
        level - 1,
        &mut bytes,
        count,
        numbers,
    )?;
    put_copy(target, limit, block, &bytes, numbers)
}

/// Copies a block of this level and all that lies under it, unless it was copied, and returns the
/// number of its copy.
#[cycle(copy_below)]
fn copy_below<S: Disk, T: Disk>(
    source: &mut S,
    blocks: u32,
    target: &mut T,
    limit: u32,
    level: u8,
    block: BlockNumber,
    numbers: &mut Renumbering,
) -> Result<BlockNumber, CopyFault>
    requires fit { NumbersFit blocks limit (S.state source.old) (T.state target.old) numbers.old }
    ensures step { StepsTo result limit (S.state source.old) (T.state target.old) numbers.old
        (S.state source.new) (T.state target.new) numbers.new }
    ensures few { ReadsBesideCopies (level + 1) (S.state source.old) numbers.old (S.state source.new) numbers.new }
    ensures copied { CopiesBlock result limit block (S.state source.old) (T.state target.old) numbers.old
        (S.state source.new) (T.state target.new) numbers.new }
    ensures only { CopiesUpTo level result (S.state source.old) numbers.old (S.state source.new) numbers.new }
    ensures sound { SoundCopy result blocks level block (S.state source.old) (S.state source.new) }
    ensures reached { ReachedCopy result blocks level block (S.state source.old) numbers.old
        (S.state source.new) numbers.new }
{
    if level == 0 {
        copy_leaf(source, blocks, target, limit, block, numbers)
    } else {
        copy_node(source, blocks, target, limit, level, block, numbers)
    }
}

/// Copies the tree under a root to another disk, in a store of `limit` blocks there, and returns
/// the root of the copy. A block that was copied before is neither read nor written again, so trees
/// that share blocks share the copies. Takes no memory.
///
/// The blocks under a root come before the root, at the numbers from `numbers.next()` on. Only
/// these are written, and nothing is synced. On failure, they and the next one hold any bytes.
///
/// Returns `CopyFault::Full` if the target has no block left below `limit`. On a tree it returns
/// `CopyFault::Source` only if the source's device fails.
pub fn copy_tree<S: Disk, T: Disk>(
    source: &mut S,
    blocks: u32,
    target: &mut T,
    limit: u32,
    root: Root,
    numbers: &mut Renumbering,
) -> Result<Root, CopyFault>
    requires fit { NumbersFit blocks limit (S.state source.old) (T.state target.old) numbers.old }

    // On any disks, the source is only read, no block of the target is touched but those of the numbers
    // from the next one on, up to the next one afterwards and below the limit, and nothing is synced. On
    // success, each block that was read got one number, and was read once.
    ensures step { StepsTo result limit (S.state source.old) (T.state target.old) numbers.old
        (S.state source.new) (T.state target.new) numbers.new }

    // Whatever the answer, it reads one block for each that got a number, and at most one per level beside
    // them.
    ensures few { ReadsBesideCopies (root.level + 1) (S.state source.old) numbers.old (S.state source.new) numbers.new }

    // If both disks are honest and the target holds what was copied before, then it holds that
    // together with the copies of the blocks under this root, and the same map lies under the
    // returned root.
    ensures copied { CopiesRoot result limit root (S.state source.old) (T.state target.old) numbers.old
        (S.state source.new) (T.state target.new) numbers.new }
    ensures tree { CopiesMap result blocks limit root (S.state source.old) (T.state target.old) numbers.old
        (S.state source.new) (T.state target.new) numbers.new }

    // On a tree, no damage is found.
    ensures sound { SoundTreeCopy result blocks root (S.state source.old) (S.state source.new) }

    // On a tree, whatever the answer, only its blocks are copied. At Full, one of them was not.
    ensures reached { ReachedTreeCopy result blocks root (S.state source.old) numbers.old
        (S.state source.new) numbers.new }
{
    if root.block == 0 {
        return Ok(root);
    }
    let block = copy_below(
        source, blocks, target, limit, root.level, root.block, numbers,
    )?;
    Ok(Root { block, ..root })
}
