//! Block 1, which names one of the two slots.
ghost use Rattle.std.specs.Prelude.{◌≡◌};
ghost use Rattle.vm_block.specs.Selector.{named_slot, other_slot, selector_byte, selector_bytes};

use crate::bytes::put_zeros;
use vm_types::Block;

/// One of the two slots.
#[derive(Clone, Copy, Debug, PartialEq, Eq)]
pub enum SlotName {
    A,
    B,
}

impl SlotName {
    /// The other slot.
    pub fn other(self) -> SlotName
        ensures { result ≡ other_slot self }
    {
        match self {
            SlotName::A => SlotName::B,
            SlotName::B => SlotName::A,
        }
    }

    /// The first byte of its selector.
    fn byte(self) -> u8
        ensures { result ≡ selector_byte self }
    {
        match self {
            SlotName::A => 0,
            SlotName::B => 1,
        }
    }
}

/// The slot that the block names. Any bytes name one.
pub fn read_selector(bytes: &Block) -> SlotName
    ensures { result ≡ named_slot bytes.now }
{
    if bytes[0] % 2 == 1 {
        SlotName::B
    } else {
        SlotName::A
    }
}

/// Writes the selector that names a slot.
pub fn write_selector(slot_name: SlotName, out: &mut Block)
    ensures { out.new ≡ selector_bytes slot_name }
{
    put_zeros(out);
    out[0] = slot_name.byte();
}
