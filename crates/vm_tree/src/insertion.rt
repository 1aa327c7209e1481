//! Adding a record, or changing the value of a key.
ghost use Rattle.std.specs.Prelude.{◌≡◌, ◌≢◌, ◌+◌, ◌*◌, ◌<◌, ◌≤◌, min, None, List, [], ◌∷◌, length, option_copied, IsTrue, IfOk, IfSome};
ghost use Rattle.vm_types.specs.Bytes.{longest};
ghost use Rattle.vm_types.specs.Places.{place};
ghost use Rattle.vm_block.specs.Leaf.{HasRecords, Record};
ghost use Rattle.vm_tree.specs.Answers.{OkOrDevice};
ghost use Rattle.vm_tree.specs.BlockReads.{FindsPath, FindsPathFrom, IsCount, IsWayAmong};
ghost use Rattle.vm_tree.specs.Calls.{LooksIfRefused, MayWrite, PutsBeside, PutsOwn, WritesOwn};
ghost use Rattle.vm_tree.specs.Free.{IsTaken, TakesAtMost};
ghost use Rattle.vm_tree.specs.Insertion.{IsFirst, KeepsBeside, PutsFirst, PutsFrom, PutsUnder, PutsUnderLeaf, ReplacesFrom, ReplacesInLeaf, ReplacesUnder};
ghost use Rattle.vm_tree.specs.Root.{AreSizes, IsFan, sizes_of};
ghost use Rattle.vm_tree.specs.Splits.{Grows, GrowsWithin, IsWide, MakesNodesWith, MakesThree, MakesTwo, SplitsLeaf, children_of, extra, grown};

use crate::block_reads::{load_leaf, load_way};
use crate::block_writes::{Copied, own_place, write_bytes, write_node_block, write_nodes};
use crate::child_lists::spliced;
use crate::faults::{PutFault, TreeFault};
use crate::root::{Root, root_at};
use vm_alloc::{Baseline, Held};
use vm_block::{
    Child, MAX_CHILDREN, Placed, Split, Way, divide_child, divide_in_three, first_record, put_into,
    set_child, spelled_children, split_record,
};
use vm_disk::Disk;
use vm_types::{Block, BlockNumber, Key};

/// Writes the inner block of these bytes as one or two, with these children in place of the one
/// that the descent took. Kept out of line so that callers do not carry a list of all children on
/// their stack.
#[inline(never)]
fn write_divided<D: Disk, const FAN: usize>(
    disk: &mut D,
    held: &mut Held,
    own: Option<BlockNumber>,
    level: u8,
    way: Way,
    bytes: &Block,
    now: &[Child],
) -> Result<Copied, TreeFault>
    requires may { MayWrite (1 + grown (FAN + 1) (way.count + length now.now)) own held.old (D.state disk.old) }
    requires fan { IsFan FAN }
    requires way { IsWayAmong FAN way }
    requires now { IsCount 3 (length now.now) }
    ensures writes { WritesOwn result own 0 (1 + grown (FAN + 1) (way.count + length now.now))
        held.old held.new (D.state disk.old) (D.state disk.new) }
    ensures copied { OkOrDevice result (Grows held.new (grown (FAN + 1) (way.count + length now.now))) }
    ensures made { MakesNodesWith result own FAN level way bytes.now now.now
        held.old held.new (D.state disk.old) (D.state disk.new) }
{
    let children = spelled_children(bytes, way.count);
    let children = spliced(children.as_slice(), way.index, now);
    write_nodes::<D, FAN>(disk, held, own, level, children.as_slice())
}

/// Writes the inner block of these bytes, with the child that the descent took replaced by what it
/// was written as. The bytes were compared on the way down, and nothing is refused here.
fn write_replaced<D: Disk, const FAN: usize>(
    disk: &mut D,
    held: &mut Held,
    own: Option<BlockNumber>,
    level: u8,
    way: Way,
    bytes: &mut Block,
    copied: Copied,
) -> Result<Copied, TreeFault>
    requires may { MayWrite (1 + grown FAN (way.count + extra copied)) own held.old (D.state disk.old) }
    requires fan { IsFan FAN }
    requires way { IsWayAmong FAN way }
    ensures writes { WritesOwn result own 0 (1 + grown FAN (way.count + extra copied))
        held.old held.new (D.state disk.old) (D.state disk.new) }
    ensures copied { OkOrDevice result (Grows held.new (grown FAN (way.count + extra copied))) }
    ensures made { MakesNodesWith result own FAN level way bytes.old (children_of copied)
        held.old held.new (D.state disk.old) (D.state disk.new) }
{
    match copied {
        Copied::One(child) => set_child(bytes, way.index, child),
        Copied::Two(left, right) => {
            if way.count >= FAN {
                return write_divided::<D, FAN>(disk, held, own, level, way, bytes, &[left, right]);
            }
            divide_child(bytes, way.count, way.index, left, right);
        }
        Copied::Three(left, middle, right) => {
            if way.count + 1 >= FAN {
                let now = [left, middle, right];
                return write_divided::<D, FAN>(disk, held, own, level, way, bytes, &now);
            }
            divide_in_three(bytes, way.count, way.index, left, middle, right);
        }
    }
    let node = write_bytes(disk, held, own, bytes)?;
    Ok(Copied::One(node))
}

/// Whether a block was written as one that is to the block above it what this child was.
fn stays(copied: Copied, child: Child) -> bool
    ensures { IsTrue result → copied ≡ Copied.One child }
{
    match copied {
        Copied::One(now) => now == child,
        _ => false,
    }
}

/// Writes two leaves, the left one first, in the own place if there is one.
fn write_two<D: Disk>(
    disk: &mut D,
    held: &mut Held,
    own: Option<BlockNumber>,
    left: &Block,
    right: &Block,
) -> Result<Copied, TreeFault>
    requires { MayWrite 2 own held.old (D.state disk.old) }
    ensures writes { WritesOwn result own 0 2 held.old held.new (D.state disk.old) (D.state disk.new) }
    ensures copied { OkOrDevice result (Grows held.new 1) }
    ensures made { MakesTwo result own held.old held.new (D.state disk.new) left.now right.now }
{
    let left = write_bytes(disk, held, own, left)?;
    let right = write_bytes(disk, held, None, right)?;
    Ok(Copied::Two(left, right))
}

/// Writes three leaves, from the left to the right, the first in the own place if there is one.
fn write_three<D: Disk>(
    disk: &mut D,
    held: &mut Held,
    own: Option<BlockNumber>,
    left: &Block,
    middle: &Block,
    right: &Block,
) -> Result<Copied, TreeFault>
    requires { MayWrite 3 own held.old (D.state disk.old) }
    ensures writes { WritesOwn result own 0 3 held.old held.new (D.state disk.old) (D.state disk.new) }
    ensures copied { OkOrDevice result (Grows held.new 2) }
    ensures made { MakesThree result own held.old held.new (D.state disk.new) left.now middle.now right.now }
{
    let left = write_bytes(disk, held, own, left)?;
    let middle = write_bytes(disk, held, None, middle)?;
    let right = write_bytes(disk, held, None, right)?;
    Ok(Copied::Three(left, middle, right))
}

/// Writes the leaf at hand as two or three, with the record, for which it has no room. `room` tells
/// how many more leaves there may be.
#[inline(never)]
fn split_leaf<D: Disk>(
    disk: &mut D,
    held: &mut Held,
    own: Option<BlockNumber>,
    room: usize,
    key: Key,
    value: &[u8],
) -> Result<Copied, PutFault>
    requires may { MayWrite (3 * min 1 room) own held.old (D.state disk.old) }
    requires short { length value.now ≤ longest }
    ensures writes { PutsOwn result own 0 (3 * min 1 room)
        held.old held.new (D.state disk.old) (D.state disk.new) }
    ensures copied { IfOk result (GrowsWithin room 1 held.old held.new) }
    ensures refused { LooksIfRefused result held.old held.new (D.state disk.old) (D.state disk.new) }
    ensures made { SplitsLeaf result own room held.old held.new (D.state disk.new)
        (D.hand disk.old) (key, value.now) }
{
    let mut left = [0; 4096];
    let mut middle = [0; 4096];
    let mut right = [0; 4096];
    let leaf = disk.at_hand();
    match split_record(leaf, key, value, &mut left, &mut middle, &mut right) {
        Split::Two if room >= 1 => Ok(write_two(disk, held, own, &left, &right)?),
        Split::Three if room >= 2 => Ok(write_three(disk, held, own, &left, &middle, &right)?),
        _ => Err(PutFault::Deep),
    }
}

/// Sets the key's value in a leaf. `room` tells how many more leaves it may become.
fn put_in_leaf<D: Disk>(
    disk: &mut D,
    held: &mut Held,
    own: Option<BlockNumber>,
    top: Child,
    room: usize,
    key: Key,
    value: &[u8],
) -> Result<Copied, PutFault>
    requires may { MayWrite (1 + 2 * min 1 room) own held.old (D.state disk.old) }
    requires place { IfSome own (λ n. n ≡ top.block) }
    requires short { length value.now ≤ longest }
    ensures writes { PutsOwn result own 1 (1 + 2 * min 1 room)
        held.old held.new (D.state disk.old) (D.state disk.new) }
    ensures copied { IfOk result (GrowsWithin room 1 held.old held.new) }
    ensures refused { LooksIfRefused result held.old held.new (D.state disk.old) (D.state disk.new) }
    ensures path { FindsPath result (D.state disk.old) (D.state disk.new) (length held.old) (place key) 0 top }
    ensures replaced { ReplacesInLeaf result held.old held.new
        (D.state disk.old) (D.state disk.new) top (key, value.now) }
    ensures put { PutsUnderLeaf result room held.old held.new
        (D.state disk.old) (D.state disk.new) top (key, value.now) }
{
    load_leaf(disk, held.blocks(), top)?;
    let mut bytes = [0; 4096];
    match put_into(disk.at_hand(), key, value, &mut bytes) {
        Placed::Put => {
            let leaf = write_bytes(disk, held, own, &bytes)?;
            Ok(Copied::One(leaf))
        }
        Placed::TooBig => split_leaf(disk, held, own, room, key, value),
    }
}

/// Sets the key's value under a block of this level. `room` tells how many more blocks it may
/// become: as many as the block above has room for, or any number if that may split. An own block
/// whose child keeps its number and its lowest key stays as it is.
fn put_below<D: Disk, const FAN: usize>(
    disk: &mut D,
    held: &mut Held,
    base: Option<&Baseline>,
    level: u8,
    top: Child,
    room: usize,
    key: Key,
    value: &[u8],
) -> Result<Copied, PutFault>
    requires may { MayWrite (2 * level + 2 + min 1 room) None held.old (D.state disk.old) }
    requires fan { IsFan FAN }
    requires low { level ≤ 7 }
    requires short { length value.now ≤ longest }
    ensures writes { PutsBeside result (option_copied base.entry) (level + 1) (2 * level + 2 + min 1 room)
        held.old held.new (D.state disk.old) (D.state disk.new) }
    ensures beside { KeepsBeside result FAN held.old (D.state disk.old) (D.state disk.new) level top }
    ensures copied { IfOk result (GrowsWithin room (2 * level + 2) held.old held.new) }
    ensures refused { LooksIfRefused result held.old held.new (D.state disk.old) (D.state disk.new) }
    ensures path { FindsPath result (D.state disk.old) (D.state disk.new) (length held.old) (place key) level top }
    ensures replaced { ReplacesUnder result FAN held.old held.new
        (D.state disk.old) (D.state disk.new) level top (key, value.now) }
    ensures put { PutsUnder result FAN room held.old held.new
        (D.state disk.old) (D.state disk.new) level top (key, value.now) }
{
    let own = own_place(held, base, top.block);
    if level == 0 {
        return put_in_leaf(disk, held, own, top, room, key, value);
    }
    let way = load_way::<D, FAN>(disk, held.blocks(), level, top, key)?;
    let node = disk.at_hand();
    let mut bytes = *node;
    let below = if room > 0 { 2 } else { FAN - way.count };
    let copied = put_below::<D, FAN>(disk, held, base, level - 1, way.child, below, key, value)?;
    if own.is_some() && stays(copied, way.child) {
        return Ok(Copied::One(top));
    }
    Ok(write_replaced::<D, FAN>(disk, held, own, level, way, &mut bytes, copied)?)
}

/// Sets the key's value in the empty map: writes its only leaf.
fn put_first<D: Disk>(
    disk: &mut D,
    held: &mut Held,
    key: Key,
    value: &[u8],
) -> Result<Root, TreeFault>
    requires may { MayWrite 1 None held.old (D.state disk.old) }
    requires short { length value.now ≤ longest }
    ensures writes { WritesOwn result None 0 1 held.old held.new (D.state disk.old) (D.state disk.new) }
    ensures root { OkOrDevice result (λ r. IsTaken held.new r.block × (r.level ≡ 0)) }
    ensures put { PutsFirst result held.old held.new (D.state disk.new) (key, value.now) }
{
    let mut bytes = [0; 4096];
    first_record(key, value, &mut bytes);
    let leaf = write_bytes(disk, held, None, &bytes)?;
    Ok(root_at(leaf, 0))
}

/// Sets the key's value, and returns the new root. `base`, if it is given, holds the blocks that
/// stand as they are: each other block of the tree that is to be changed, and is held, is changed
/// in its place. The rest of the root-to-leaf path is copied into free blocks. Requires 16 free
/// blocks.
pub fn put<D: Disk, const FAN: usize, const LEVELS: usize>(
    disk: &mut D,
    held: &mut Held,
    base: Option<&Baseline>,
    root: Root,
    key: Key,
    value: &[u8],
) -> Result<Root, PutFault>
    requires sizes { AreSizes FAN LEVELS }
    requires may { MayWrite 16 None held.old (D.state disk.old) }
    requires short { length value.now ≤ longest }

    // What is held stays held, and each block that is taken lies below each one that is still free.
    // At no moment does a block that was held, and is in the baseline if there is one, have other
    // bytes than before. Whatever the answer, it reads at most one block per level, and takes at
    // most 16, those of one path: at most two per level, three for the leaf, and a new root.
    ensures writes { PutsBeside result (option_copied base.entry)
        (root.level + 1) (min 16 (2 * root.level + 4))
        held.old held.new (D.state disk.old) (D.state disk.new) }

    // The root is a data block, and it is held now.
    ensures root { IfOk result (λ r. IsTaken held.new r.block × (r.level < LEVELS)) }

    // For the empty map it reads no block, and takes one at most: its leaf, which is the root.
    ensures first { root.block ≡ 0 → IsFirst result held.old held.new (D.state disk.old) (D.state disk.new) }

    // Any other tree keeps its height or gains one level, and on a tree its root then has at least
    // two children.
    ensures level { root.block ≢ 0
        → IfOk result (λ r. (root.level ≤ r.level) × (r.level ≤ root.level + 1)) }
    ensures wide { IfOk result (λ r. r.level ≢ root.level → IsWide (D.state disk.new) r) }

    // If the tree keeps its height, it takes at most two blocks per level.
    ensures as_high { IfOk result
        (λ r. r.level ≡ root.level
        → TakesAtMost (2 * root.level + 2) held.old held.new) }

    // On a tree that has the key with a value that is not shorter, it takes at most one block per
    // level if it returns a root.
    ensures replaced { ReplacesFrom result (sizes_of FAN LEVELS) held.old held.new
        (D.state disk.old) (D.state disk.new) root (key, value.now) }

    // That there is no room, and that a block is damaged, is found before any block is taken or
    // written.
    ensures refused { LooksIfRefused result held.old held.new (D.state disk.old) (D.state disk.new) }

    // A root is made only if each inner block on the path has the head of its level, the last block
    // is a leaf, and each begins with the key that its parent gives it, the first one with the
    // lowest key of the old root.
    ensures path { FindsPathFrom root result (D.state disk.old) (D.state disk.new) (length held.old) (place key) }

    // On a tree the answer is a root, or Deep exactly if there is no room, unless the device fails.
    // If the blocks of the tree are held, the root has the map with the value, in blocks that are
    // held now.
    ensures put { PutsFrom result (sizes_of FAN LEVELS) held.old held.new
        (D.state disk.old) (D.state disk.new) root key value.now }
{
    if root.block == 0 {
        return Ok(put_first(disk, held, key, value)?);
    }
    let level = root.level;
    if usize::from(level) >= LEVELS {
        return Err(PutFault::Tree(TreeFault::Damaged(root.block)));
    }
    let room = if usize::from(level) + 1 < LEVELS {
        2
    } else {
        0
    };
    let top = Child {
        low: root.low,
        block: root.block,
    };
    let copied = put_below::<D, FAN>(disk, held, base, level, top, room, key, value)?;
    match copied {
        Copied::One(top) => Ok(root_at(top, level)),
        Copied::Two(left, right) => {
            let top = write_node_block(disk, held, None, level + 1, &[left, right])?;
            Ok(root_at(top, level + 1))
        }
        Copied::Three(left, middle, right) => {
            let top = write_node_block(disk, held, None, level + 1, &[left, middle, right])?;
            Ok(root_at(top, level + 1))
        }
    }
}
