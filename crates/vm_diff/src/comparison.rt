//! Differences between two maps.
ghost use Rattle.std.specs.Prelude.{◌≡◌, ◌≢◌, ◌≤◌};
ghost use Rattle.vm_tree.specs.Calls.{OnlyLists, OnlyLooks};
ghost use Rattle.vm_types.specs.Places.{place};
ghost use Rattle.vm_diff.specs.Differ.{GivesChanges, GivesDiff, ReadsDiff, ReadsParts, ReadsUnshared, TellsAlike, TellsEqual};

use crate::cursor::Cursor;
use crate::front::Step;
use crate::part::Part;
use crate::steps::{pass_change, step};
use std::alloc::Global;
use vm_disk::Disk;
use vm_tree::{ListFault, Root, TreeFault};
use vm_types::{Changes, Key};

/// The highest possible key.
const HIGHEST: Key = Key {
    table: u16::MAX,
    number: u64::MAX,
};

/// All keys.
fn all_keys() -> Part
    ensures low { result.low ≡ record { table = 0; number = 0 } }
    ensures high { result.high ≡ record { table = 65535; number = 18446744073709551615 } }
{
    let lowest = Key {
        table: 0,
        number: 0,
    };
    Part {
        low: lowest,
        high: HIGHEST,
    }
}

/// The differences from the map under the first root to the one under the second: each such key
/// once, in order, with both values. Takes memory for them alone.
pub fn changed<D: Disk>(
    alloc: Global,
    disk: &mut D,
    blocks: u32,
    first: Root,
    second: Root,
) -> Result<Changes, ListFault>
    requires { blocks ≤ (D.state disk.old).blocks }
    ensures looks { OnlyLists result (D.state disk.old) (D.state disk.new) }

    // On trees these are exactly the differences of their maps, whatever the sizes of their blocks,
    // unless the device fails or memory cannot be allocated.
    ensures changes { GivesChanges result (D.state disk.old) (D.state disk.new)
        blocks first second }

    // Whatever the answer, there are at most as many reads as blocks that only one of the trees
    // has.
    ensures bound { ReadsUnshared (D.state disk.old) (D.state disk.new) blocks first second }
{
    changed_in(alloc, disk, blocks, first, second, all_keys())
}

/// The same for the keys from one to another, both included. There are none if the first key is
/// above the second.
pub fn changed_part<D: Disk>(
    alloc: Global,
    disk: &mut D,
    blocks: u32,
    first: Root,
    second: Root,
    low: Key,
    high: Key,
) -> Result<Changes, ListFault>
    requires { blocks ≤ (D.state disk.old).blocks }
    ensures looks { OnlyLists result (D.state disk.old) (D.state disk.new) }

    // On trees these are exactly the differences of their maps in that part, whatever the sizes of
    // their blocks, unless the device fails or memory cannot be allocated.
    ensures changes { GivesDiff result (D.state disk.old) (D.state disk.new)
        blocks first second (place low) (place high) }

    // Whatever the answer, there are at most as many reads as blocks that have a record of the part
    // under them and belong to only one of the trees, and 8 more for each tree.
    ensures bound { ReadsDiff (D.state disk.old) (D.state disk.new)
        blocks (place low) (place high) first second }
{
    changed_in(alloc, disk, blocks, first, second, Part { low, high })
}

/// The differences between two maps in a part. There are none if both have the same root.
fn changed_in<D: Disk>(
    alloc: Global,
    disk: &mut D,
    blocks: u32,
    first: Root,
    second: Root,
    part: Part,
) -> Result<Changes, ListFault>
    requires { blocks ≤ (D.state disk.old).blocks }
    ensures looks { OnlyLists result (D.state disk.old) (D.state disk.new) }
    ensures changes { GivesDiff result (D.state disk.old) (D.state disk.new)
        blocks first second (place part.low) (place part.high) }
    ensures bound { ReadsParts (D.state disk.old) (D.state disk.new)
        blocks (place part.low) (place part.high) first second }
{
    if first.block == second.block && first.level == second.level {
        return Ok(Changes::new(alloc));
    }
    changed_between(alloc, disk, blocks, first, second, part)
}

/// What `changed_in` returns, by two walks. Kept out of line so that callers do not carry both
/// walks on their stack.
#[inline(never)]
fn changed_between<D: Disk>(
    alloc: Global,
    disk: &mut D,
    blocks: u32,
    first: Root,
    second: Root,
    part: Part,
) -> Result<Changes, ListFault>
    requires { blocks ≤ (D.state disk.old).blocks }
    ensures looks { OnlyLists result (D.state disk.old) (D.state disk.new) }
    ensures changes { GivesDiff result (D.state disk.old) (D.state disk.new)
        blocks first second (place part.low) (place part.high) }
    ensures bound { ReadsParts (D.state disk.old) (D.state disk.new)
        blocks (place part.low) (place part.high) first second }
{
    let mut one = Cursor::empty();
    if !one.begin(first, part) {
        return Err(ListFault::Tree(TreeFault::Damaged(first.block)));
    }
    let mut other = Cursor::empty();
    if !other.begin(second, part) {
        return Err(ListFault::Tree(TreeFault::Damaged(second.block)));
    }
    let mut changes = Changes::new(alloc);
    'steps: loop {
        let next = step(disk, blocks, part, &mut one, &mut other)?;
        match next {
            Step::Done => return Ok(changes),
            Step::Moved => {}
            Step::Found(key) => {
                changes.push(key, one.value_at(key), other.value_at(key))?;
                pass_change(&mut one, &mut other, key);
            }
        }
    }
}

/// Whether the maps under two roots are equal. It takes no memory, and ends at the first
/// difference.
pub fn same<D: Disk>(
    disk: &mut D,
    blocks: u32,
    first: Root,
    second: Root,
) -> Result<bool, TreeFault>
    requires { blocks ≤ (D.state disk.old).blocks }
    ensures looks { OnlyLooks result (D.state disk.old) (D.state disk.new) }

    // On trees it tells whether their maps are equal, whatever the sizes of their blocks, unless
    // the device fails.
    ensures equal { TellsEqual result (D.state disk.old) (D.state disk.new) blocks first second }

    // Whatever the answer, there are at most as many reads as blocks that only one of the trees
    // has.
    ensures bound { ReadsUnshared (D.state disk.old) (D.state disk.new) blocks first second }
{
    if first.block == second.block && first.level == second.level {
        return Ok(true);
    }
    same_between(disk, blocks, first, second, all_keys())
}

/// What `same` returns, by two walks. Kept out of line, as `changed_between` is.
#[inline(never)]
fn same_between<D: Disk>(
    disk: &mut D,
    blocks: u32,
    first: Root,
    second: Root,
    part: Part,
) -> Result<bool, TreeFault>
    requires { blocks ≤ (D.state disk.old).blocks }
    ensures looks { OnlyLooks result (D.state disk.old) (D.state disk.new) }
    ensures equal { TellsAlike result (D.state disk.old) (D.state disk.new)
        blocks first second (place part.low) (place part.high) }
    ensures bound { ReadsParts (D.state disk.old) (D.state disk.new)
        blocks (place part.low) (place part.high) first second }
{
    let mut one = Cursor::empty();
    if !one.begin(first, part) {
        return Err(TreeFault::Damaged(first.block));
    }
    let mut other = Cursor::empty();
    if !other.begin(second, part) {
        return Err(TreeFault::Damaged(second.block));
    }
    'steps: loop {
        let next = step(disk, blocks, part, &mut one, &mut other)?;
        match next {
            Step::Done => return Ok(true),
            Step::Moved => {}
            Step::Found(_) => return Ok(false),
        }
    }
}
