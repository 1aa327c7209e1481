//! Whether a block is an inner block, decided from its bytes in place. Nothing is copied out.
ghost use Rattle.std.specs.Prelude.{◌≡◌, ◌≤◌, ◌*◌, Some, length, IsTrue, IfSome};
ghost use Rattle.vm_types.specs.Places.{RisesFrom};
ghost use Rattle.vm_block.specs.Node.{lows};
ghost use Rattle.vm_block.specs.Told.{HaveChildren, IfChildren, IfNode, IsNodeSize};

use crate::bytes::are_zero;
use crate::head::node_numbers;
use crate::node::read_child;
use crate::sizes::MAX_CHILDREN;
use vm_types::Block;

/// Whether the bytes begin with `count` children whose lowest keys rise strictly.
fn are_children(bytes: &[u8], count: usize) -> bool
    requires few { count ≤ MAX_CHILDREN }
    requires room { 14 * count ≤ length bytes.now }
    ensures found { IsTrue result → HaveChildren bytes.now count }
    ensures only { IfChildren bytes.now count (λ cs. RisesFrom 0 (lows cs) → IsTrue result) }
{
    let mut low = 0;
    for i in 0..count {
        let place = read_child(&bytes[14 * i..14 * i + 14]).low.place();
        if place < low {
            return false;
        }
        low = place + 1;
    }
    true
}

/// The level of an inner block, and how many children it has. None exactly when the bytes are not
/// an inner block.
pub fn node_size(bytes: &Block) -> Option<(u8, usize)>
    ensures found { IfSome result (IsNodeSize bytes.now) }
    ensures only { IfNode bytes.now (λ level cs. result ≡ Some (level, length cs)) }
{
    let Some((level, count)) = node_numbers(bytes) else {
        return None;
    };
    if !are_children(&bytes[16..], count) || !are_zero(&bytes[16 + 14 * count..]) {
        return None;
    }
    Some((level, count))
}
