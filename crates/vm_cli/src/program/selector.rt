//! What an opening for writing does first: it writes the selector again.
//!
//! A sync that failed may have left the device an older selector than the system shows: Linux tells
//! such a failure once, and from then on counts the block as written. The next commit would write
//! into the slot that the device's selector still names, and a power loss then could lose what was
//! acknowledged. Written again, the selector comes to the device with the sync that begins every
//! opening, before anything rests on it.
//!
//! Only this block can be so. A commit syncs its data and its slot before it writes the selector:
//! where that sync failed, no selector names them, and where a selector names them, it had
//! succeeded. Until this sync succeeds, nothing writes the slot that the older selector names, so
//! both are whole, and a crash leaves one or the other.
ghost use Rattle.vm_disk.specs.Between.{Between};
ghost use Rattle.vm_disk.specs.Positional.{CountsFailures};
ghost use Rattle.vm_disk.specs.System.{IfHonestIn, KeepsState, system_state};
ghost use Rattle.vm_cli.specs.program.Selector.{RewritesSelector};

use vm_block::is_header;
use vm_disk::{DeviceFault, Positional, SystemFile, World};

/// The size of a block in bytes, which is where block 1 begins.
const BLOCK: u64 = 4096;

/// Reads the selector of a store and writes it again as it was read, if the file has one: if it
/// begins with a header, and goes on with a block after it. Any other file is only read.
pub(crate) fn rewrite_selector<W: World>(file: &mut SystemFile<W>) -> Result<(), DeviceFault>
    ensures any { Between (system_state W.held W.torn) (CountsFailures result) file.old file.new }
    ensures honest { IfHonestIn W.held W.torn KeepsState file.old file.new }
    ensures rewritten { RewritesSelector W.held W.torn result file.old file.new }
{
    if file.len()? < 2 * BLOCK {
        return Ok(());
    }
    let mut block = [0; 4096];
    file.read_at(&mut block, 0)?;
    if !is_header(&block) {
        return Ok(());
    }
    file.rewrite(BLOCK)
}
