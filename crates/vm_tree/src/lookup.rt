//! The value of a key, and whether it has one.
ghost use Rattle.std.specs.Prelude.{◌≡◌, ◌+◌, ◌≤◌, min, length, IfOk, IfSome};
ghost use Rattle.vm_types.specs.Bytes.{longest};
ghost use Rattle.vm_types.specs.Places.{place};
ghost use Rattle.vm_tree.specs.Calls.{ReadsWithin};
ghost use Rattle.vm_tree.specs.Given.{GivesLeaf, GivesValue, GivesValueUnder, TellsRecord, TellsRecordUnder};
ghost use Rattle.vm_tree.specs.BlockReads.{FindsEnd, FindsLeaf, FindsPathFrom};

use crate::block_reads::{load_leaf, load_way};
use crate::faults::TreeFault;
use crate::root::Root;
use vm_block::{Child, Look, find_record, record_value};
use vm_disk::Disk;
use vm_types::{BLOCK_SIZE, Block, Key};

/// The same bytes, at the start of this buffer.
fn copied<'a>(value: &[u8], room: &'a mut Block) -> &'a [u8]
    requires { length value.now ≤ BLOCK_SIZE }
    ensures { result.now ≡ value.now }
{
    let start = &mut room[..value.len()];
    start.copy_from_slice(value);
    start
}

/// The value of the key in this leaf.
fn get_in_leaf<'a, D: Disk>(
    disk: &mut D,
    blocks: u32,
    top: Child,
    key: Key,
    bytes: &'a mut Block,
) -> Result<Option<&'a [u8]>, TreeFault>
    requires { blocks ≤ (D.state disk.old).blocks }
    ensures looks { ReadsWithin 1 result (D.state disk.old) (D.state disk.new) }
    ensures short { IfOk result (λ value. IfSome value (λ found. length found.now ≤ longest)) }
    ensures path { FindsEnd result (D.state disk.old) (D.state disk.new) blocks top }
    ensures value { GivesValueUnder result (D.state disk.old) (D.state disk.new) blocks top key }
{
    load_leaf(disk, blocks, top)?;
    let leaf = disk.at_hand();
    match find_record(leaf, key) {
        Look::Found(index) => Ok(Some(copied(record_value(leaf, index), bytes))),
        Look::Missing(_) => Ok(None),
    }
}

/// Whether this leaf has a record of the key.
fn has_in_leaf<D: Disk>(disk: &mut D, blocks: u32, top: Child, key: Key) -> Result<bool, TreeFault>
    requires { blocks ≤ (D.state disk.old).blocks }
    ensures looks { ReadsWithin 1 result (D.state disk.old) (D.state disk.new) }
    ensures path { FindsEnd result (D.state disk.old) (D.state disk.new) blocks top }
    ensures found { TellsRecordUnder result (D.state disk.old) (D.state disk.new) blocks top key }
{
    load_leaf(disk, blocks, top)?;
    match find_record(disk.at_hand(), key) {
        Look::Found(_) => Ok(true),
        Look::Missing(_) => Ok(false),
    }
}

/// The leaf of the key under a block of this level.
fn leaf_of<D: Disk>(
    disk: &mut D,
    blocks: u32,
    level: u8,
    top: Child,
    key: Key,
) -> Result<Child, TreeFault>
    requires { blocks ≤ (D.state disk.old).blocks }
    ensures looks { ReadsWithin (min 7 level) result (D.state disk.old) (D.state disk.new) }
    ensures path { FindsLeaf result (D.state disk.old) (D.state disk.new) blocks (place key) level top }
    ensures leaf { GivesLeaf result (D.state disk.old) (D.state disk.new) blocks level top key }
{
    if level == 0 {
        return Ok(top);
    }
    let way = load_way::<D, 256>(disk, blocks, level, top, key)?;
    leaf_of(disk, blocks, level - 1, way.child, key)
}

/// The value of a key in the map under a root, in these bytes. The blocks on the path are loaded
/// and looked at in place, and only the value is copied out of them.
pub fn get<'a, D: Disk>(
    disk: &mut D,
    blocks: u32,
    root: Root,
    key: Key,
    bytes: &'a mut Block,
) -> Result<Option<&'a [u8]>, TreeFault>
    requires { blocks ≤ (D.state disk.old).blocks }

    // It writes nothing and, whatever the answer, reads at most one block per level, and no more
    // than eight.
    ensures looks { ReadsWithin (min 8 (root.level + 1)) result (D.state disk.old) (D.state disk.new) }
    ensures short { IfOk result (λ value. IfSome value (λ found. length found.now ≤ longest)) }

    // A value, or its absence, is returned only if each inner block on the path has the head of its
    // level, the last block is a leaf, and each begins with the key that its parent gives it, the
    // first one with the lowest key of the root.
    ensures path { FindsPathFrom root result (D.state disk.old) (D.state disk.new) blocks (place key) }

    // On a tree it is the value in its map, whatever the sizes of its blocks, unless the device
    // fails.
    ensures value { GivesValue result (D.state disk.old) (D.state disk.new) blocks root key }
{
    if root.block == 0 {
        return Ok(None);
    }
    let top = Child {
        low: root.low,
        block: root.block,
    };
    let leaf = leaf_of(disk, blocks, root.level, top, key)?;
    get_in_leaf(disk, blocks, leaf, key, bytes)
}

/// Whether the map under a root has a record of the key.
pub fn has<D: Disk>(disk: &mut D, blocks: u32, root: Root, key: Key) -> Result<bool, TreeFault>
    requires { blocks ≤ (D.state disk.old).blocks }

    // It writes nothing and, whatever the answer, reads at most one block per level, and no more
    // than eight.
    ensures looks { ReadsWithin (min 8 (root.level + 1)) result (D.state disk.old) (D.state disk.new) }

    // It answers only if the blocks on the path are as `get` demands.
    ensures path { FindsPathFrom root result (D.state disk.old) (D.state disk.new) blocks (place key) }

    // On a tree it answers for its map, whatever the sizes of its blocks, unless the device fails.
    ensures found { TellsRecord result (D.state disk.old) (D.state disk.new) blocks root key }
{
    if root.block == 0 {
        return Ok(false);
    }
    let top = Child {
        low: root.low,
        block: root.block,
    };
    let leaf = leaf_of(disk, blocks, root.level, top, key)?;
    has_in_leaf(disk, blocks, leaf, key)
}
