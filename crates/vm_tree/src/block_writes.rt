//! Writing blocks of a tree: in their own places, or into free blocks.
ghost use Rattle.std.specs.Prelude.{◌≡◌, ◌+◌, None, length, option_copied, IfSome};
ghost use Rattle.vm_block.specs.Node.{node_bytes};
ghost use Rattle.vm_tree.specs.Answers.{OkOrDevice};
ghost use Rattle.vm_tree.specs.BlockReads.{IsCount};
ghost use Rattle.vm_tree.specs.Calls.{MayWrite, WritesOwn};
ghost use Rattle.vm_tree.specs.Free.{IsOwn};
ghost use Rattle.vm_tree.specs.Root.{IsFan};
ghost use Rattle.vm_tree.specs.Splits.{Grows, IsWritten, MakesNode, MakesNodes, WritesLeaf, WritesNode, grown};

use crate::block_reads::is_data;
use crate::faults::TreeFault;
use vm_alloc::{Baseline, Held};
use vm_block::{Child, MAX_CHILDREN, lowest_key, write_node};
use vm_disk::Disk;
use vm_types::{Block, BlockNumber};

/// What a block was written as: one block, or two if it was split. A leaf may become three.
#[derive(Clone, Copy, Debug)]
pub(crate) enum Copied {
    One(Child),
    Two(Child, Child),
    Three(Child, Child, Child),
}

/// The place of a block of the tree that is to be changed: its own number, if it is held and was
/// free in the baseline. Nothing else needs such a block.
pub(crate) fn own_place(
    held: &Held,
    base: Option<&Baseline>,
    block: BlockNumber,
) -> Option<BlockNumber>
    ensures own { IfSome result (IsOwn (option_copied base.entry) held.now) }
    ensures same { IfSome result (λ n. n ≡ block) }
{
    let base = base?;
    let is_own = is_data(held.blocks(), block)
        && held.is_held(block)
        && block < base.blocks()
        && !base.has(block);
    if is_own { Some(block) } else { None }
}

/// Allocates the lowest free block and writes it.
fn write_free<D: Disk>(disk: &mut D, held: &mut Held, bytes: &Block) -> Result<u32, TreeFault>
    requires { MayWrite 1 None held.old (D.state disk.old) }
    ensures writes { WritesOwn result None 0 1 held.old held.new (D.state disk.old) (D.state disk.new) }
    ensures written { OkOrDevice result
        (IsWritten None held.old held.new (D.state disk.new) bytes.now) }
{
    let free = held.free_count();
    prove!(free > 0);
    let Some(block) = held.take() else {
        unreachable!()
    };
    match disk.write(block, bytes) {
        Ok(()) => Ok(block),
        Err(fault) => Err(TreeFault::from(fault)),
    }
}

/// Writes the own block or, if there is none, the lowest free one.
fn write_at<D: Disk>(
    disk: &mut D,
    held: &mut Held,
    own: Option<BlockNumber>,
    bytes: &Block,
) -> Result<BlockNumber, TreeFault>
    requires { MayWrite 1 own held.old (D.state disk.old) }
    ensures writes { WritesOwn result own 0 1 held.old held.new (D.state disk.old) (D.state disk.new) }
    ensures written { OkOrDevice result
        (IsWritten own held.old held.new (D.state disk.new) bytes.now) }
{
    let Some(place) = own else {
        return write_free(disk, held, bytes);
    };
    match disk.write(place, bytes) {
        Ok(()) => Ok(place),
        Err(fault) => Err(TreeFault::from(fault)),
    }
}

/// Writes a leaf or an inner block with these bytes.
pub(crate) fn write_bytes<D: Disk>(
    disk: &mut D,
    held: &mut Held,
    own: Option<BlockNumber>,
    bytes: &Block,
) -> Result<Child, TreeFault>
    requires { MayWrite 1 own held.old (D.state disk.old) }
    ensures writes { WritesOwn result own 0 1 held.old held.new (D.state disk.old) (D.state disk.new) }
    ensures written { OkOrDevice result
        (λ child. IsWritten own held.old held.new (D.state disk.new) bytes.now child.block) }
    ensures leaf { WritesLeaf result own held.old held.new (D.state disk.new) bytes.now }
    ensures node { WritesNode result own held.old held.new (D.state disk.old) (D.state disk.new) bytes.now }
{
    let low = lowest_key(bytes);
    let block = write_at(disk, held, own, bytes)?;
    Ok(Child { low, block })
}

/// Writes an inner block of this level with these children.
pub(crate) fn write_node_block<D: Disk>(
    disk: &mut D,
    held: &mut Held,
    own: Option<BlockNumber>,
    level: u8,
    children: &[Child],
) -> Result<Child, TreeFault>
    requires may { MayWrite 1 own held.old (D.state disk.old) }
    requires count { IsCount MAX_CHILDREN (length children.now) }
    ensures writes { WritesOwn result own 0 1 held.old held.new (D.state disk.old) (D.state disk.new) }
    ensures written { OkOrDevice result (λ child. IsWritten own held.old held.new
        (D.state disk.new) (node_bytes level children.now) child.block) }
    ensures made { MakesNode result own level children.now
        held.old held.new (D.state disk.old) (D.state disk.new) }
{
    let mut bytes = [0; 4096];
    write_node(level, children, &mut bytes);
    write_bytes(disk, held, own, &bytes)
}

/// Writes one inner block or, if there are more than FAN children, two. The left one gets the odd
/// child, and the own place, if there is one.
pub(crate) fn write_nodes<D: Disk, const FAN: usize>(
    disk: &mut D,
    held: &mut Held,
    own: Option<BlockNumber>,
    level: u8,
    children: &[Child],
) -> Result<Copied, TreeFault>
    requires may { MayWrite (1 + grown FAN (length children.now)) own held.old (D.state disk.old) }
    requires fan { IsFan FAN }
    requires count { IsCount (FAN + 2) (length children.now) }
    ensures writes { WritesOwn result own 0 (1 + grown FAN (length children.now))
        held.old held.new (D.state disk.old) (D.state disk.new) }
    ensures copied { OkOrDevice result (Grows held.new (grown FAN (length children.now))) }
    ensures made { MakesNodes result own FAN level children.now
        held.old held.new (D.state disk.old) (D.state disk.new) }
{
    if children.len() <= FAN {
        let node = write_node_block(disk, held, own, level, children)?;
        return Ok(Copied::One(node));
    }
    let half = children.len().div_ceil(2);
    let left = write_node_block(disk, held, own, level, &children[..half])?;
    let right = write_node_block(disk, held, None, level, &children[half..])?;
    Ok(Copied::Two(left, right))
}
