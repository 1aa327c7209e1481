//! Where the slots are on a disk.
ghost use Rattle.std.specs.Prelude.{◌≡◌, ◌≤◌};
ghost use Rattle.vm_block.specs.Slot.{used_blocks};
ghost use Rattle.vm_catalog.specs.Place.{slot_at};

use vm_block::SlotName;
use vm_types::MAX_VERSIONS;

/// The number of the first block of a slot.
pub fn first_block(slot_name: SlotName) -> u32
    ensures { result ≡ slot_at slot_name }
{
    match slot_name {
        SlotName::A => 2,
        SlotName::B => 18,
    }
}

/// How many blocks of a slot are used by its head and this many entries.
pub(crate) fn used_blocks(entries: usize) -> u32
    requires { entries ≤ MAX_VERSIONS }
    ensures { result ≡ used_blocks entries }
{
    (entries as u32 + 32) / 32
}
