//! Laws of what a disk shows.
ghost use Rattle.std.specs.Prelude.{◌≡◌};
ghost use Rattle.vm_types.specs.State.{Seen};
ghost use Rattle.vm_disk.specs.Disk.{Contents};
ghost use Rattle.vm_store.specs.Shown.{Shows};

/// Contents show at most one tree and one number of blocks, so an opened store represents the one
/// that is shown.
pub fn one_tree_shown()
    ensures { (x : Contents) (t u : Seen) → Shows x t → Shows x u → t ≡ u }
{}
