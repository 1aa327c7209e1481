//! The selector, which names the slot that is in use.
ghost use Rattle.std.specs.Prelude.{◌≡◌, ◌≤◌, true, IfOk, IsErr};
ghost use Rattle.vm_disk.specs.Disk.{Goes, Counts};
ghost use Rattle.vm_disk.specs.Moments.{OnlyReads};
ghost use Rattle.vm_catalog.specs.Calls.{WritesSelector};
ghost use Rattle.vm_catalog.specs.Catalog.{Selects};

use vm_block::{SlotName, is_header, read_selector, write_selector};
use vm_disk::{DeviceFault, Disk};

/// The slot in use, or None if block 0 is not a header. Reads block 0, and after a header block 1.
pub fn slot_in_use<D: Disk>(disk: &mut D) -> Result<Option<SlotName>, DeviceFault>
    requires { 2 ≤ (D.state disk.old).blocks }
    ensures any { Goes (IsErr result) (D.state disk.old) (D.state disk.new) }
    ensures reads { (D.state disk.new).honest ≡ true
        → OnlyReads (D.state disk.old) (D.state disk.new) }
    ensures found { (D.state disk.new).honest ≡ true
        → IfOk result (Selects (D.state disk.old).now.contents) }
{
    let mut block = [0; 4096];
    disk.read(0, &mut block)?;
    if !is_header(&block) {
        return Ok(None);
    }
    disk.read(1, &mut block)?;
    Ok(Some(read_selector(&block)))
}

/// Makes the selector name a slot. Syncs nothing.
pub fn select_slot<D: Disk>(disk: &mut D, slot_name: SlotName) -> Result<(), DeviceFault>
    requires { 2 ≤ (D.state disk.old).blocks }
    ensures any { Counts 0 result (D.state disk.old) (D.state disk.new) }
    ensures honest { WritesSelector result (D.state disk.old) (D.state disk.new) slot_name }
{
    let mut selector = [0; 4096];
    write_selector(slot_name, &mut selector);
    disk.write(1, &selector)
}
