//! The head of a leaf or of an inner block, as four numbers.
ghost use Rattle.std.specs.Prelude.{◌≡◌, ℕ, ◌≤◌, ◌↔◌, Some, length, take, IsTrue, IfSome};
ghost use Rattle.vm_block.specs.Head.{IsHeadOfNode, IsNodeHead, head_numbers};

use crate::node::is_in_range;
use byteorder::{ByteOrder, LittleEndian};
use vm_types::Block;

/// The letters NODE as a number.
const NODE: u32 = 0x4544_4F4E;

/// The first 16 bytes of a block.
#[derive(Clone, Copy)]
pub(crate) struct Head {
    pub letters: u32,
    pub level: u32,
    pub count: u32,
    pub zero: u32,
}

pub(crate) fn read_head(bytes: &[u8]) -> Head
    requires { 16 ≤ length bytes.now }
    ensures { take 16 bytes.now ≡ head_numbers result }
{
    Head {
        letters: LittleEndian::read_u32(bytes),
        level: LittleEndian::read_u32(&bytes[4..]),
        count: LittleEndian::read_u32(&bytes[8..]),
        zero: LittleEndian::read_u32(&bytes[12..]),
    }
}

/// Whether an inner block may have this head.
fn is_node(head: Head) -> bool
    ensures { IsTrue result ↔ IsHeadOfNode NODE head }
{
    head.letters == NODE && is_in_range(head.level, head.count) && head.zero == 0
}

/// The level of an inner block and how many children it has, according to its head. None if the
/// bytes do not begin with the head of an inner block.
pub(crate) fn node_numbers(bytes: &Block) -> Option<(u8, usize)>
    ensures found { IfSome result (λ numbers. IsNodeHead bytes.now numbers.0 numbers.1) }
    ensures only { (level n : ℕ) → IsNodeHead bytes.now level n → result ≡ Some (level, n) }
{
    let head = read_head(bytes);
    if is_node(head) {
        Some((head.level as u8, head.count as usize))
    } else {
        None
    }
}
