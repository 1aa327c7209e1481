//! Reading the blocks of a tree from a disk, and the descent to a key.
ghost use Rattle.std.specs.Prelude.{◌≡◌, ◌≢◌, ◌↔◌, ◌≤◌, List, length, IsTrue, IfOk};
ghost use Rattle.vm_types.specs.Places.{place};
ghost use Rattle.vm_block.specs.Leaf.{BeginsWith, HasRecords, Record};
ghost use Rattle.vm_block.specs.Look.{IfRecords};
ghost use Rattle.vm_tree.specs.Tree.{IsData};
ghost use Rattle.vm_tree.specs.Calls.{ReadsWithin};
ghost use Rattle.vm_tree.specs.BlockReads.{FindsBlock, FindsData, FindsEnd, FindsLeafBytes, FindsNode, FindsStep, GivesData, GivesLeafUnder, GivesNode, GivesNodeUnder, GivesWay, IsCount, IsLeafSize, IsNodeOf, IsWayIn, ReadsLeaf, ReadsNode, ReadsOnce};

use crate::faults::TreeFault;
use arrayvec::ArrayVec;
use vm_block::{
    Child, MAX_CHILDREN, MAX_RECORDS, Way, find_child, is_leaf, lowest_key, node_size, read_node,
    records_len,
};
use vm_disk::{Disk, Need};
use vm_types::{Block, BlockNumber, FIRST_DATA, Key};

/// Whether this is a data block, in a store of `blocks` blocks.
pub fn is_data(blocks: u32, block: BlockNumber) -> bool
    ensures { IsTrue result ↔ IsData blocks block }
{
    (FIRST_DATA..blocks).contains(&block)
}

/// Reads a data block into these bytes. Damaged if it is not a data block.
pub fn data_at<D: Disk>(
    disk: &mut D,
    blocks: u32,
    block: BlockNumber,
    bytes: &mut Block,
) -> Result<(), TreeFault>
    requires { blocks ≤ (D.state disk.old).blocks }
    ensures looks { ReadsOnce result blocks block (D.state disk.old) (D.state disk.new) }
    ensures found { FindsData result (D.state disk.old) (D.state disk.new) blocks block bytes.new }
    ensures only { GivesData result (D.state disk.old) (D.state disk.new) blocks block bytes.new }
{
    if !is_data(blocks, block) {
        return Err(TreeFault::Damaged(block));
    }
    disk.read(block, bytes)?;
    Ok(())
}

/// Loads a data block. Damaged if it is not a data block.
pub fn load_data<D: Disk>(
    disk: &mut D,
    blocks: u32,
    block: BlockNumber,
    need: Need,
) -> Result<(), TreeFault>
    requires { blocks ≤ (D.state disk.old).blocks }
    ensures looks { ReadsOnce result blocks block (D.state disk.old) (D.state disk.new) }
    ensures found { FindsData result (D.state disk.old) (D.state disk.new)
        blocks block (D.hand disk.new) }
    ensures only { GivesData result (D.state disk.old) (D.state disk.new)
        blocks block (D.hand disk.new) }
{
    if !is_data(blocks, block) {
        return Err(TreeFault::Damaged(block));
    }
    disk.load(block, need)?;
    Ok(())
}

/// Loads this child's block, which must be a data block and begin with the child's lowest key.
pub(crate) fn load_block<D: Disk>(disk: &mut D, blocks: u32, top: Child) -> Result<(), TreeFault>
    requires { blocks ≤ (D.state disk.old).blocks }
    ensures looks { ReadsWithin 1 result (D.state disk.old) (D.state disk.new) }
    ensures found { FindsBlock result (D.state disk.old) (D.state disk.new)
        blocks top (D.hand disk.new) }
    ensures begins { IfOk result (λ _. IfRecords (D.hand disk.new) (BeginsWith top.low)) }
    ensures leaf { GivesLeafUnder result (D.state disk.old) (D.state disk.new)
        blocks top (D.hand disk.new) }
    ensures node { GivesNodeUnder result (D.state disk.old) (D.state disk.new)
        blocks top (D.hand disk.new) }
{
    load_data(disk, blocks, top.block, Need::Again)?;
    if lowest_key(disk.at_hand()) != top.low {
        return Err(TreeFault::Damaged(top.block));
    }
    Ok(())
}

/// Loads this child's block, which must be a leaf.
pub(crate) fn load_leaf<D: Disk>(disk: &mut D, blocks: u32, top: Child) -> Result<(), TreeFault>
    requires { blocks ≤ (D.state disk.old).blocks }
    ensures looks { ReadsWithin 1 result (D.state disk.old) (D.state disk.new) }
    ensures leaf { IfOk result (λ _. (rs : List Record) × HasRecords (D.hand disk.new) rs) }
    ensures found { FindsLeafBytes result (D.state disk.old) (D.state disk.new) top (D.hand disk.new) }
    ensures end { FindsEnd result (D.state disk.old) (D.state disk.new) blocks top }
    ensures only { GivesLeafUnder result (D.state disk.old) (D.state disk.new)
        blocks top (D.hand disk.new) }
{
    load_block(disk, blocks, top)?;
    if is_leaf(disk.at_hand()) {
        Ok(())
    } else {
        Err(TreeFault::Damaged(top.block))
    }
}

/// Loads this child's block, which must be an inner block of this level with at most MOST children,
/// and returns where a descent to the key goes in it.
pub(crate) fn load_way<D: Disk, const MOST: usize>(
    disk: &mut D,
    blocks: u32,
    level: u8,
    top: Child,
    key: Key,
) -> Result<Way, TreeFault>
    requires { blocks ≤ (D.state disk.old).blocks }
    ensures looks { ReadsWithin 1 result (D.state disk.old) (D.state disk.new) }
    ensures way { IfOk result (IsWayIn MOST level (D.hand disk.new)) }
    ensures found { FindsBlock result (D.state disk.old) (D.state disk.new)
        blocks top (D.hand disk.new) }
    ensures step { FindsStep result (D.state disk.old) (D.state disk.new) blocks (place key) level top }
    ensures only { GivesWay result (D.state disk.old) (D.state disk.new)
        blocks level top MOST (place key) (D.hand disk.new) }
{
    load_block(disk, blocks, top)?;
    match find_child(disk.at_hand(), key) {
        Some(way) if way.level == level && way.count <= MOST => Ok(way),
        _ => Err(TreeFault::Damaged(top.block)),
    }
}

/// The children of an inner block of this level.
pub fn node_at<D: Disk>(
    disk: &mut D,
    blocks: u32,
    level: u8,
    block: BlockNumber,
) -> Result<ArrayVec<Child, MAX_CHILDREN>, TreeFault>
    requires { blocks ≤ (D.state disk.old).blocks }
    ensures looks { ReadsOnce result blocks block (D.state disk.old) (D.state disk.new) }
    ensures count { IfOk result (λ children. IsCount MAX_CHILDREN (length children.items)) }
    ensures low { IfOk result (λ children. level ≤ 7) }
    ensures found { FindsNode result (D.state disk.old) (D.state disk.new) blocks level block }
    ensures only { GivesNode result (D.state disk.old) (D.state disk.new) blocks level block }
{
    let mut bytes = [0; 4096];
    data_at(disk, blocks, block, &mut bytes)?;
    match read_node(&bytes) {
        Some(node) if node.level == level => Ok(node.children),
        _ => Err(TreeFault::Damaged(block)),
    }
}

/// Reads a leaf into these bytes, and returns how many records it has.
pub fn leaf_into<D: Disk>(
    disk: &mut D,
    blocks: u32,
    block: BlockNumber,
    bytes: &mut Block,
) -> Result<usize, TreeFault>
    requires { blocks ≤ (D.state disk.old).blocks }
    ensures looks { ReadsOnce result blocks block (D.state disk.old) (D.state disk.new) }
    ensures count { IfOk result (λ count. count ≤ MAX_RECORDS) }
    ensures leaf { IfOk result (IsLeafSize bytes.new) }
    ensures found { FindsData result (D.state disk.old) (D.state disk.new) blocks block bytes.new }
    ensures only { ReadsLeaf result (D.state disk.old) (D.state disk.new) blocks block bytes.new }
{
    data_at(disk, blocks, block, bytes)?;
    if is_leaf(bytes) {
        Ok(records_len(bytes))
    } else {
        Err(TreeFault::Damaged(block))
    }
}

/// Loads a leaf, and returns how many records it has.
pub(crate) fn load_records<D: Disk>(
    disk: &mut D,
    blocks: u32,
    block: BlockNumber,
) -> Result<usize, TreeFault>
    requires { blocks ≤ (D.state disk.old).blocks }
    ensures looks { ReadsOnce result blocks block (D.state disk.old) (D.state disk.new) }
    ensures count { IfOk result (λ count. count ≤ MAX_RECORDS) }
    ensures leaf { IfOk result (IsLeafSize (D.hand disk.new)) }
    ensures only { ReadsLeaf result (D.state disk.old) (D.state disk.new)
        blocks block (D.hand disk.new) }
{
    load_data(disk, blocks, block, Need::Again)?;
    let leaf = disk.at_hand();
    if is_leaf(leaf) {
        Ok(records_len(leaf))
    } else {
        Err(TreeFault::Damaged(block))
    }
}

/// Reads an inner block of this level into these bytes, and returns how many children it has.
pub fn node_into<D: Disk>(
    disk: &mut D,
    blocks: u32,
    level: u8,
    block: BlockNumber,
    bytes: &mut Block,
) -> Result<usize, TreeFault>
    requires { blocks ≤ (D.state disk.old).blocks }
    ensures looks { ReadsOnce result blocks block (D.state disk.old) (D.state disk.new) }
    ensures count { IfOk result (λ count. IsNodeOf bytes.new level count) }
    ensures found { FindsData result (D.state disk.old) (D.state disk.new) blocks block bytes.new }
    ensures only { ReadsNode result (D.state disk.old) (D.state disk.new)
        blocks level block bytes.new }
{
    data_at(disk, blocks, block, bytes)?;
    match node_size(bytes) {
        Some((found, count)) if found == level => Ok(count),
        _ => Err(TreeFault::Damaged(block)),
    }
}
