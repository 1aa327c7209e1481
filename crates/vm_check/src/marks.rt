//! Marking what lies under roots.
ghost use Rattle.std.specs.Prelude.{◌≡◌, ◌≢◌, ◌+◌, ◌<◌, ◌≤◌, [], ◌∷◌, length, IsOk, OnOk};
ghost use Rattle.vm_alloc.specs.Held.{HoldsMore};
ghost use Rattle.vm_alloc.specs.Marks.{IsMarked};
ghost use Rattle.vm_tree.specs.Tree.{IsData};
ghost use Rattle.vm_check.specs.Marks.{Closes, Covers, CoversBelow, CoversUnder, MarksBlocks, MarksFit, MarksOnly, MarksOnlyBelow, MarksOnlyOn, MarksOnlyUnder, SoundBelow, SoundOn, SoundUnder, unmarked};

use vm_alloc::Marks;
use vm_block::child_at;
use vm_disk::Disk;
use vm_tree::{Root, TreeFault, is_data, node_into};
use vm_types::BlockNumber;

/// Marks a leaf. It is not read, because nothing in it names a block.
#[inline(always)]
fn mark_leaf(blocks: u32, block: BlockNumber, marks: &mut Marks) -> Result<(), TreeFault>
    requires bits { length marks.old ≡ blocks }
    ensures device { result ≢ Err TreeFault.Device }
    ensures growing { HoldsMore marks.old marks.new }
    ensures fewer { unmarked marks.new ≤ unmarked marks.old }
    ensures marked { OnOk result (IsMarked marks.new block) }
    ensures sound { IsData blocks block → IsOk result }
    ensures only { MarksOnly (block ∷ []) marks.old marks.new }
{
    if !is_data(blocks, block) {
        return Err(TreeFault::Damaged(block));
    }
    marks.set(block);
    Ok(())
}

/// Marks an inner block of this level and all blocks under it, unless it is already marked.
#[cycle(mark_below)]
fn mark_node<D: Disk>(
    disk: &mut D,
    blocks: u32,
    level: u8,
    block: BlockNumber,
    marks: &mut Marks,
) -> Result<(), TreeFault>
    requires fit { MarksFit blocks (D.state disk.old) marks.old }
    requires inner { 0 < level }
    ensures marking { MarksBlocks result (D.state disk.old) (D.state disk.new) marks.old marks.new }
    ensures marked { CoversBelow result (D.state disk.old) (D.state disk.new)
        blocks level block marks.old marks.new }
    ensures sound { SoundBelow result (D.state disk.old) (D.state disk.new) blocks level block }
    ensures only { MarksOnlyBelow (D.state disk.old) (D.state disk.new)
        blocks level block marks.old marks.new }
{
    if !is_data(blocks, block) {
        return Err(TreeFault::Damaged(block));
    }
    if marks.is_set(block) {
        return Ok(());
    }
    marks.set(block);
    let mut bytes = [0; 4096];
    let count = node_into(disk, blocks, level, block, &mut bytes)?;
    for i in 0..count {
        let child = child_at(&bytes, i);
        mark_below(disk, blocks, level - 1, child.block, marks)?;
    }
    Ok(())
}

/// Marks a block of this level and all blocks under it, unless it is already marked. For a leaf it
/// needs no buffer for the bytes of a block.
#[cycle(mark_below)]
#[inline(always)]
fn mark_below<D: Disk>(
    disk: &mut D,
    blocks: u32,
    level: u8,
    block: BlockNumber,
    marks: &mut Marks,
) -> Result<(), TreeFault>
    requires fit { MarksFit blocks (D.state disk.old) marks.old }
    ensures marking { MarksBlocks result (D.state disk.old) (D.state disk.new) marks.old marks.new }
    ensures marked { CoversBelow result (D.state disk.old) (D.state disk.new)
        blocks level block marks.old marks.new }
    ensures sound { SoundBelow result (D.state disk.old) (D.state disk.new) blocks level block }
    ensures only { MarksOnlyBelow (D.state disk.old) (D.state disk.new)
        blocks level block marks.old marks.new }
{
    if level == 0 {
        mark_leaf(blocks, block, marks)
    } else {
        mark_node(disk, blocks, level, block, marks)
    }
}

/// Marks all blocks under a root.
fn mark_root<D: Disk>(
    disk: &mut D,
    blocks: u32,
    root: Root,
    marks: &mut Marks,
) -> Result<(), TreeFault>
    requires fit { MarksFit blocks (D.state disk.old) marks.old }
    ensures marking { MarksBlocks result (D.state disk.old) (D.state disk.new) marks.old marks.new }
    ensures marked { CoversUnder result (D.state disk.old) (D.state disk.new)
        blocks root marks.old marks.new }
    ensures sound { SoundUnder result (D.state disk.old) (D.state disk.new) blocks root }
    ensures only { MarksOnlyUnder (D.state disk.old) (D.state disk.new)
        blocks root marks.old marks.new }
{
    if root.block == 0 {
        return Ok(());
    }
    mark_below(disk, blocks, root.level, root.block, marks)
}

/// Marks all blocks under the roots, without taking memory. What lies under a block that is already
/// marked is not walked again. So that all blocks get marked, the marks must be closed: clear, or
/// left by earlier calls.
///
/// On trees it never answers Damaged. If the device fails, some of the blocks are marked.
pub fn mark<D: Disk>(disk: &mut D, roots: &[Root], marks: &mut Marks) -> Result<(), TreeFault>
    requires { length marks.old ≤ (D.state disk.old).blocks }
    ensures marking { MarksBlocks result (D.state disk.old) (D.state disk.new) marks.old marks.new }

    // On trees, whatever the sizes of their blocks and whatever was marked before, it is Ok unless
    // the device fails. Whatever the answer, it marks only blocks under the roots.
    ensures sound { SoundOn result (D.state disk.old) (D.state disk.new)
        (length marks.old) roots.now }
    ensures only { MarksOnlyOn (D.state disk.old) (D.state disk.new)
        roots.now marks.old marks.new }

    // On trees, if the marks were closed, Ok means that they grow by exactly the blocks under the
    // roots, and stay closed.
    ensures marked { Covers result (D.state disk.old) (D.state disk.new)
        roots.now marks.old marks.new }
    ensures closed { Closes result (D.state disk.old) (D.state disk.new)
        roots.now marks.old marks.new }
{
    let blocks = marks.blocks();
    for root in roots {
        mark_root(disk, blocks, *root, marks)?;
    }
    Ok(())
}
