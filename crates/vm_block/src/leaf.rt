//! A leaf: the block of a tree that holds records. It has a head, an entry for each record, the
//! values one after another, and zero bytes.
ghost use Rattle.std.specs.Prelude.{◌≡◌, ℕ, ◌<◌, ◌≤◌, ◌++◌, ◌↔◌, Some, List, length, drop, IsTrue, IfSome};
ghost use Rattle.vm_block.specs.Head.{IsHeadOfLeaf};
ghost use Rattle.vm_block.specs.Leaf.{HasRecords, IsLeafHead, Record, leaf_head};

use crate::bounds::bounds_end;
use crate::bytes::{are_zero, put};
use crate::head::{Head, read_head};
use crate::sizes::MAX_RECORDS;
use byteorder::{ByteOrder, LittleEndian};
use vm_types::{BLOCK_SIZE, Block};

/// The letters LEF3 as a number.
const LEAF: u32 = 0x3346_454C;

pub(crate) fn write_leaf_head(count: u32, out: &mut [u8])
    requires { 16 ≤ length out.old }
    ensures { out.new ≡ leaf_head count ++ drop 16 out.old }
{
    put(b"LEF3", out);
    LittleEndian::write_u32(&mut out[4..], 0);
    LittleEndian::write_u32(&mut out[8..], count);
    LittleEndian::write_u32(&mut out[12..], 0);
}

/// Whether a leaf may have this many records.
fn is_count(count: u32) -> bool
    ensures { IsTrue result ↔ ((0 < count) × (count ≤ MAX_RECORDS)) }
{
    (1..=MAX_RECORDS as u32).contains(&count)
}

/// Whether a leaf may have this head.
fn is_head(head: Head) -> bool
    ensures { IsTrue result ↔ IsHeadOfLeaf LEAF head }
{
    head.letters == LEAF && head.level == 0 && is_count(head.count) && head.zero == 0
}

/// How many records a leaf has, according to its head. None if the bytes do not begin with the head
/// of a leaf.
pub(crate) fn leaf_len(bytes: &Block) -> Option<usize>
    ensures found { IfSome result (IsLeafHead bytes.now) }
    ensures only { (n : ℕ) → IsLeafHead bytes.now n → result ≡ Some n }
{
    let head = read_head(bytes);
    if is_head(head) {
        Some(head.count as usize)
    } else {
        None
    }
}

/// Whether the bytes are a leaf.
pub fn is_leaf(bytes: &Block) -> bool
    ensures { IsTrue result ↔ ((rs : List Record) × HasRecords bytes.now rs) }
{
    let Some(count) = leaf_len(bytes) else {
        return false;
    };
    let Some(end) = bounds_end(&bytes[16..], count) else {
        return false;
    };
    let from = 16 + 12 * count + end;
    from <= BLOCK_SIZE && are_zero(&bytes[from..])
}
