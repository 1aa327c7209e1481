//! The root of a map.
ghost use Rattle.std.specs.Prelude.{◌≡◌};

use vm_block::Child;
use vm_types::{BlockNumber, Key};

/// The top of a tree: its block, its level above the leaves, and the lowest key under it.
/// Block 0 is the empty map.
#[derive(Clone, Copy, Debug, Default, PartialEq, Eq)]
pub struct Root {
    pub block: BlockNumber,
    pub level: u8,
    pub low: Key,
}

/// The root of the subtree with this top and level.
pub(crate) fn root_at(top: Child, level: u8) -> Root
    ensures { result ≡ record { block = top.block; level = level; low = top.low } }
{
    Root {
        block: top.block,
        level,
        low: top.low,
    }
}
