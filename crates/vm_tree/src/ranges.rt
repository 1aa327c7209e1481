//! Records of a map in order: all of them, or those of a part.
ghost use Rattle.std.specs.Prelude.{◌≡◌, ◌≢◌, ◌≤◌, List, length};
ghost use Rattle.vm_types.specs.Parts.{from, part};
ghost use Rattle.vm_types.specs.Places.{place};
ghost use Rattle.vm_block.specs.Leaf.{HasRecords, Record};
ghost use Rattle.vm_tree.specs.Calls.{OnlyLists};
ghost use Rattle.vm_tree.specs.Given.{AddsLeaf, AddsUnder, GivesMap, GivesPart, GivesWindow};
ghost use Rattle.vm_tree.specs.Over.{ReadsOver, ReadsTree, is_between, stands_at};
ghost use Rattle.vm_tree.specs.Spent.{ReadsUnder, ReadsWindow};

use crate::block_reads::{load_records, node_at};
use crate::faults::{ListFault, TreeFault};
use crate::root::Root;
use crate::window::Window;
use std::alloc::Global;
use vm_block::{Child, MAX_RECORDS, record_key, record_value};
use vm_disk::Disk;
use vm_types::{Block, Key, Records};

/// Adds what is asked for of the first `count` records of this leaf. Values are copied straight from
/// the leaf's bytes.
fn push_records(
    bytes: &Block,
    count: usize,
    window: Window,
    into: &mut Records,
) -> Result<(), ListFault>
    requires few { count ≤ MAX_RECORDS }
    requires leaf { (rs : List Record) × HasRecords bytes.now rs × (count ≡ length rs) }
    ensures looks { (fault : TreeFault) → result ≢ Err (ListFault.Tree fault) }
    ensures added { AddsLeaf result bytes.now count window into.old into.new }
{
    for i in 0..count {
        let key = record_key(bytes, i);
        if window.gives(key, into.len()) {
            into.push(key, record_value(bytes, i))?;
        }
    }
    Ok(())
}

/// Adds what is asked for of the records of a leaf.
fn scan_leaf<D: Disk>(
    disk: &mut D,
    blocks: u32,
    top: Child,
    window: Window,
    into: &mut Records,
) -> Result<(), ListFault>
    requires { blocks ≤ (D.state disk.old).blocks }
    ensures looks { OnlyLists result (D.state disk.old) (D.state disk.new) }
    ensures added { AddsUnder result (D.state disk.old) (D.state disk.new)
        blocks 0 top window into.old into.new }
    ensures bound { ReadsUnder (D.state disk.old) (D.state disk.new)
        blocks 0 top window (length into.old) }
{
    let count = load_records(disk, blocks, top.block)?;
    push_records(disk.at_hand(), count, window, into)
}

/// Adds what is asked for of the records under a child, which is the top of `level` levels above
/// the leaves. Of its own children it enters only those that may have such a record; of those that
/// begin below the part, only the last one.
fn scan_below<D: Disk>(
    disk: &mut D,
    blocks: u32,
    level: u8,
    top: Child,
    window: Window,
    into: &mut Records,
) -> Result<(), ListFault>
    requires { blocks ≤ (D.state disk.old).blocks }
    ensures looks { OnlyLists result (D.state disk.old) (D.state disk.new) }
    ensures added { AddsUnder result (D.state disk.old) (D.state disk.new)
        blocks level top window into.old into.new }
    ensures bound { ReadsUnder (D.state disk.old) (D.state disk.new)
        blocks level top window (length into.old) }
{
    if level == 0 {
        return scan_leaf(disk, blocks, top, window, into);
    }
    let node = node_at(disk, blocks, level, top.block)?;
    let children = node.as_slice();
    for i in 0..children.len() {
        if window.enters(children, i, into.len()) {
            scan_below(disk, blocks, level - 1, children[i], window, into)?;
        }
    }
    Ok(())
}

/// What is asked for of the map under a root.
fn scan_window<D: Disk>(
    alloc: Global,
    disk: &mut D,
    blocks: u32,
    root: Root,
    window: Window,
) -> Result<Records, ListFault>
    requires { blocks ≤ (D.state disk.old).blocks }
    ensures looks { OnlyLists result (D.state disk.old) (D.state disk.new) }
    ensures records { GivesWindow result (D.state disk.old) (D.state disk.new) blocks root window }
    ensures bound { ReadsWindow (D.state disk.old) (D.state disk.new) blocks root window }
{
    let mut records = Records::new(alloc);
    if root.block == 0 {
        return Ok(records);
    }
    if !window.meets(root.low, 0) {
        return Ok(records);
    }
    let top = Child {
        low: root.low,
        block: root.block,
    };
    scan_below(disk, blocks, root.level, top, window, &mut records)?;
    Ok(records)
}

/// The highest possible key.
const HIGHEST: Key = Key {
    table: u16::MAX,
    number: u64::MAX,
};

/// The records of the map under a root, in key order. Takes memory for them alone.
pub fn scan<D: Disk>(
    alloc: Global,
    disk: &mut D,
    blocks: u32,
    root: Root,
) -> Result<Records, ListFault>
    requires { blocks ≤ (D.state disk.old).blocks }
    ensures looks { OnlyLists result (D.state disk.old) (D.state disk.new) }

    // On a tree it is the whole map, whatever the sizes of its blocks, unless the device fails or
    // memory cannot be allocated.
    ensures records { GivesMap result (D.state disk.old) (D.state disk.new) blocks root }

    // Each block of the tree is read at most once, whatever the answer.
    ensures bound { ReadsTree (D.state disk.old) (D.state disk.new) blocks root }
{
    let lowest = Key {
        table: 0,
        number: 0,
    };
    let all = Window {
        low: lowest,
        high: HIGHEST,
        most: None,
    };
    scan_window(alloc, disk, blocks, root, all)
}

/// The records of the map under a root from one key to another, both included, in key order. There
/// are none if the first key is above the second. Takes memory for them alone.
pub fn scan_part<D: Disk>(
    alloc: Global,
    disk: &mut D,
    blocks: u32,
    root: Root,
    low: Key,
    high: Key,
) -> Result<Records, ListFault>
    requires { blocks ≤ (D.state disk.old).blocks }
    ensures looks { OnlyLists result (D.state disk.old) (D.state disk.new) }

    // On a tree it is that part of the map, whatever the sizes of its blocks, unless the device
    // fails or memory cannot be allocated.
    ensures records { GivesPart result (D.state disk.old) (D.state disk.new) blocks root
        (part (place low) (place high)) }

    // Whatever the answer, there are at most as many reads as blocks of the tree with a record of
    // the part under them, and 8 more: at each level at most one block that begins below the part.
    ensures bound { ReadsOver (D.state disk.old) (D.state disk.new) blocks root
        (λ _. is_between (place low) (place high)) }
{
    let part = Window {
        low,
        high,
        most: None,
    };
    scan_window(alloc, disk, blocks, root, part)
}

/// The first records of the map under a root from the key `low` on, at most `count` of them, in key
/// order. Takes memory for them alone.
pub fn scan_from<D: Disk>(
    alloc: Global,
    disk: &mut D,
    blocks: u32,
    root: Root,
    low: Key,
    count: u32,
) -> Result<Records, ListFault>
    requires { blocks ≤ (D.state disk.old).blocks }
    ensures looks { OnlyLists result (D.state disk.old) (D.state disk.new) }

    // On a tree these are the first of the map from the key on, whatever the sizes of its blocks,
    // unless the device fails or memory cannot be allocated.
    ensures records { GivesPart result (D.state disk.old) (D.state disk.new) blocks root
        (from (place low) count) }

    // Whatever the answer, there are at most as many reads as blocks of the tree with one of these
    // records under them, and 8 more.
    ensures bound { ReadsOver (D.state disk.old) (D.state disk.new) blocks root
        (λ m. stands_at (from (place low) count m)) }
{
    let page = Window {
        low,
        high: HIGHEST,
        most: Some(count),
    };
    scan_window(alloc, disk, blocks, root, page)
}
