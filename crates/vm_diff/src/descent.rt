//! Opening the subtree that comes next in a walk.
ghost use Rattle.std.specs.Prelude.{◌≡◌, ◌≢◌, ◌+◌, ◌≤◌, ◌<◌, OnOk};
ghost use Rattle.vm_types.specs.Places.{place};
ghost use Rattle.vm_tree.specs.Calls.{OnlyLooks};
ghost use Rattle.vm_diff.specs.Walk.{size};
ghost use Rattle.vm_diff.specs.Front.{front_of};
ghost use Rattle.vm_diff.specs.Front.Front.{Top};
ghost use Rattle.vm_diff.specs.Differ.{Opens};

use crate::cursor::Cursor;
use crate::part::Part;
use vm_disk::Disk;
use vm_tree::{Root, TreeFault};

/// Opens the subtree that comes next, by one read. What lies under it takes its place, as far as it
/// may lie in the part.
pub(crate) fn open<D: Disk>(
    disk: &mut D,
    blocks: u32,
    part: Part,
    walk: &mut Cursor,
    top: Root,
) -> Result<(), TreeFault>
    requires blocks { blocks ≤ (D.state disk.old).blocks }
    requires front { front_of walk.old ≡ Top top }
    ensures looks { OnlyLooks result (D.state disk.old) (D.state disk.new) }
    ensures once { (D.state disk.new).reads ≤ (D.state disk.old).reads + 1 }
    ensures falls { OnOk result (size walk.new < size walk.old) }
    ensures opens { Opens result (D.state disk.old) (D.state disk.new)
        blocks (place part.low) (place part.high) (Top top) walk.old walk.new }
{
    if top.level == 0 {
        walk.open_leaf(disk, blocks, part, top)
    } else {
        walk.open_node(disk, blocks, part, top)
    }
}
