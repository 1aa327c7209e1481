//! The descent to a key in the bytes of blocks, which are not read whole for it.
ghost use Rattle.std.specs.Prelude.{◌≡◌, ◌+◌, ◌*◌, ◌<◌, ◌≤◌, length, take, drop, IfSome, IsSomeAnd, slice_index_or};
ghost use Rattle.vm_types.specs.Places.{KeyFits, place};
ghost use Rattle.vm_block.specs.Head.{IsNodeHead};
ghost use Rattle.vm_block.specs.Leaf.{BeginsWith, key_bytes};
ghost use Rattle.vm_block.specs.Node.{ChildFits, child_bytes};
ghost use Rattle.vm_block.specs.Row.{node_row};
ghost use Rattle.vm_block.specs.Look.{IfRecords};
ghost use Rattle.vm_block.specs.Told.{IfNode};
ghost use Rattle.vm_block.specs.Way.{ChoosesAmong, IsWay, IsWayTo, Lowest, TellsHead};

use crate::head::node_numbers;
use crate::keys::read_key;
use crate::node::{Child, read_child};
use crate::sizes::MAX_CHILDREN;
use vm_types::{BLOCK_SIZE, Block, Key};

/// Where a descent to a key goes in an inner block.
#[derive(Clone, Copy, Debug, PartialEq, Eq)]
pub struct Way {
    /// The block's level above the leaves.
    pub level: u8,
    /// How many children it has.
    pub count: usize,
    /// Which of them the descent takes.
    pub index: usize,
    pub child: Child,
}

/// Which of `count` rows of one size a descent to a place takes: the last row whose key is not
/// above the place, or else the first. The rows rise by the keys that they begin with.
#[inline(always)]
pub(crate) fn choose(bytes: &Block, size: usize, count: usize, place: u128) -> usize
    requires some { 0 < count }
    requires keyed { 10 ≤ size }
    requires room { 16 + size * count ≤ BLOCK_SIZE }
    ensures within { result < count }
    ensures chosen { ChoosesAmong bytes.now size count place result }
{
    let mut low = 0;
    let mut high = count;
    while low + 1 < high {
        let middle = low + (high - low) / 2;
        if read_key(&bytes[16 + size * middle..]).place() > place {
            high = middle;
        } else {
            low = middle;
        }
    }
    low
}

/// Child `i`, if the bytes are an inner block that has it.
pub fn child_at(bytes: &Block, i: usize) -> Child
    requires { i < MAX_CHILDREN }
    ensures fits { ChildFits result }
    ensures spelled { node_row bytes.now i ≡ child_bytes result }
    ensures child { IfNode bytes.now (λ level cs. i < length cs → slice_index_or cs i result ≡ result) }
{
    let at = 16 + 14 * i;
    read_child(&bytes[at..at + 14])
}

/// Where a descent to the key goes in an inner block. None exactly when the bytes do not begin with
/// the head of one. Behind the head, it looks only at the keys on the way.
pub fn find_child(bytes: &Block, key: Key) -> Option<Way>
    ensures range { IfSome result IsWay }
    ensures fits { IfSome result (λ way. ChildFits way.child) }

    // On any bytes: Some exactly when they begin with the head of an inner block, and then with the
    // level and count of that head. The child is the one spelled at its index, and the keys of the
    // children lead to that index.
    ensures head { IfSome result (λ way. IsNodeHead bytes.now way.level way.count) }
    ensures headed { TellsHead bytes.now result }
    ensures spelled { IfSome result (λ way. node_row bytes.now way.index ≡ child_bytes way.child) }
    ensures chosen { IfSome result (λ way. ChoosesAmong bytes.now 14 way.count (place key) way.index) }

    ensures only { IfNode bytes.now (λ level cs. IsSomeAnd result (IsWayTo (place key) level cs)) }
{
    match node_numbers(bytes) {
        Some((level, count)) => {
            let index = choose(bytes, 14, count, key.place());
            Some(Way {
                level,
                count,
                index,
                child: child_at(bytes, index),
            })
        }
        None => None,
    }
}

/// The lowest key of an inner block, which is that of its first child, or of a leaf.
pub fn lowest_key(bytes: &Block) -> Key
    ensures fits { KeyFits result }
    ensures spelled { take 10 (drop 16 bytes.now) ≡ key_bytes result }
    ensures node { IfNode bytes.now (λ level cs. Lowest result cs) }
    ensures leaf { IfRecords bytes.now (BeginsWith result) }
{
    read_key(&bytes[16..])
}

/// The bytes of child `i`, if the bytes are an inner block that has it.
pub fn child_row(bytes: &Block, i: usize) -> &[u8]
    requires { i < MAX_CHILDREN }
    ensures whole { length result.now ≡ 14 }
    ensures row { result.now ≡ node_row bytes.now i }
{
    &bytes[16 + 14 * i..30 + 14 * i]
}
