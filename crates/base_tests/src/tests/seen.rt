//! Disks to be played on, and what is below them.
use std::alloc::Global;
use testkit::Wrong;
use vm_disk::{CachedDisk, DelayedDisk, Disk, FileDisk, FuseDisk, MemDisk, Positional};
use vm_types::Block;

/// A disk, and what may be below it to look at.
pub(super) trait Seen: Disk + Drop + Sized {
    /// The disk in memory below it.
    fn memory(&self) -> Option<&MemDisk>;

    /// How many calls the fuse below it has had, and whether it has failed one.
    fn fuse(&self) -> Option<(u32, bool)>;

    /// What a crash that fills blocks leaves of a disk in memory, with this many blocks or with
    /// all.
    fn crashed(self, _blocks: Option<u32>, _filling: &[(u32, Block)]) -> Result<Self, Wrong> {
        Err(Wrong::Unreadable)
    }
}

impl Seen for MemDisk {
    fn memory(&self) -> Option<&MemDisk> {
        Some(self)
    }

    fn fuse(&self) -> Option<(u32, bool)> {
        None
    }

    fn crashed(self, blocks: Option<u32>, filling: &[(u32, Block)]) -> Result<MemDisk, Wrong> {
        match blocks {
            None => Ok(self.crash(filling)),
            Some(blocks) if self.sure() <= blocks && blocks <= self.blocks() => {
                Ok(self.crash_short(filling, blocks))
            }
            Some(_) => Err(Wrong::Unreadable),
        }
    }
}

impl Seen for FuseDisk<MemDisk> {
    fn memory(&self) -> Option<&MemDisk> {
        Some(self.inner())
    }

    fn fuse(&self) -> Option<(u32, bool)> {
        Some((self.calls(), self.blown()))
    }
}

impl<D: Seen> Seen for CachedDisk<D> {
    fn memory(&self) -> Option<&MemDisk> {
        self.inner().memory()
    }

    fn fuse(&self) -> Option<(u32, bool)> {
        self.inner().fuse()
    }
}

impl<D: Seen> Seen for DelayedDisk<D> {
    fn memory(&self) -> Option<&MemDisk> {
        self.inner().memory()
    }

    fn fuse(&self) -> Option<(u32, bool)> {
        self.inner().fuse()
    }
}

impl<F: Positional + Drop> Seen for FileDisk<F> {
    fn memory(&self) -> Option<&MemDisk> {
        None
    }

    fn fuse(&self) -> Option<(u32, bool)> {
        None
    }
}

/// A disk that has one in memory below it, which can be played on alone.
pub(super) trait OverMemory: Seen {
    /// The disk in memory.
    fn below(self) -> MemDisk;
}

impl OverMemory for MemDisk {
    fn below(self) -> MemDisk {
        self
    }
}

impl OverMemory for FuseDisk<MemDisk> {
    fn below(self) -> MemDisk {
        self.into_inner()
    }
}

impl<D: OverMemory> OverMemory for CachedDisk<D> {
    fn below(self) -> MemDisk {
        self.into_inner().below()
    }
}

impl<D: OverMemory> OverMemory for DelayedDisk<D> {
    fn below(self) -> MemDisk {
        self.into_inner().below()
    }
}

/// A cache of this many blocks over a disk.
pub(super) fn cached<D: Seen>(alloc: Global, inner: D, capacity: usize) -> Option<CachedDisk<D>> {
    if capacity > 0
        && let Ok(disk) = CachedDisk::new(alloc, inner, capacity)
    {
        return Some(disk);
    }
    None
}

/// A delayed disk over this one, on which this many blocks may wait.
pub(super) fn late<D: Seen>(alloc: Global, inner: D, capacity: usize) -> Option<DelayedDisk<D>> {
    if capacity > 0
        && let Ok(disk) = DelayedDisk::new(alloc, inner, capacity)
    {
        return Some(disk);
    }
    None
}
