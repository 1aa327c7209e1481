//! Edits of the children in the bytes of an inner block, without rewriting the whole block.
ghost use Rattle.std.specs.Prelude.{◌≡◌, ◌+◌, ◌<◌, ◌≤◌, take};
ghost use Rattle.vm_block.specs.Changed.{DividesChild, DividesInThree, InsertsChild, SetsChild};

use crate::node::{Child, write_child};
use crate::sizes::MAX_CHILDREN;
use byteorder::{ByteOrder, LittleEndian};
use vm_types::Block;

/// Replaces the child at this index of an inner block.
pub fn set_child(bytes: &mut Block, index: usize, child: Child)
    requires { index < MAX_CHILDREN }
    ensures child { SetsChild index child bytes.old bytes.new }

    // On any bytes, the head does not change.
    ensures head { take 16 bytes.new ≡ take 16 bytes.old }
{
    write_child(child, &mut bytes[16 + 14 * index..]);
}

/// Inserts the child at this index of an inner block of `count` children, before the ones that are
/// there.
fn insert_child(bytes: &mut Block, count: usize, index: usize, child: Child)
    requires within { index ≤ count }
    requires room { count < MAX_CHILDREN }
    ensures { InsertsChild count index child bytes.old bytes.new }
{
    let at = 16 + 14 * index;
    bytes.copy_within(at..16 + 14 * count, 16 + 14 * (index + 1));
    write_child(child, &mut bytes[at..]);
    LittleEndian::write_u32(&mut bytes[8..], count as u32 + 1);
}

/// Replaces the child at this index of an inner block of `count` children by these two.
pub fn divide_child(bytes: &mut Block, count: usize, index: usize, left: Child, right: Child)
    requires within { index < count }
    requires room { count < MAX_CHILDREN }
    ensures { DividesChild count index left right bytes.old bytes.new }
{
    set_child(bytes, index, left);
    insert_child(bytes, count, index + 1, right);
}

/// Replaces the child at this index of an inner block of `count` children by these three.
pub fn divide_in_three(
    bytes: &mut Block,
    count: usize,
    index: usize,
    left: Child,
    middle: Child,
    right: Child,
)
    requires within { index < count }
    requires room { count + 1 < MAX_CHILDREN }
    ensures { DividesInThree count index left middle right bytes.old bytes.new }
{
    divide_child(bytes, count, index, left, middle);
    insert_child(bytes, count + 1, index + 2, right);
}
