//! Disks over one in memory: the disk itself, a cache of it, and one that delays the writes to it.
use std::alloc::Global;
use vm_disk::{CachedDisk, DelayedDisk, Disk, MemDisk};
use vm_types::Refusal;

/// A disk over one in memory.
pub(super) trait OverMemory: Disk + Drop + Sized {
    /// The disk over this one.
    fn over(alloc: Global, disk: MemDisk) -> Result<Self, Refusal>;

    /// The one below.
    fn below(self) -> MemDisk;

    /// The one below, to look at.
    fn memory(&self) -> &MemDisk;
}

impl OverMemory for MemDisk {
    fn over(_alloc: Global, disk: MemDisk) -> Result<MemDisk, Refusal> {
        Ok(disk)
    }

    fn below(self) -> MemDisk {
        self
    }

    fn memory(&self) -> &MemDisk {
        self
    }
}

// Four blocks are kept.
impl OverMemory for CachedDisk<MemDisk> {
    fn over(alloc: Global, disk: MemDisk) -> Result<CachedDisk<MemDisk>, Refusal> {
        CachedDisk::new(alloc, disk, 4).map_err(|_| Refusal::Memory)
    }

    fn below(self) -> MemDisk {
        self.into_inner()
    }

    fn memory(&self) -> &MemDisk {
        self.inner()
    }
}

// Four blocks may wait.
impl OverMemory for DelayedDisk<MemDisk> {
    fn over(alloc: Global, disk: MemDisk) -> Result<DelayedDisk<MemDisk>, Refusal> {
        DelayedDisk::new(alloc, disk, 4).map_err(|_| Refusal::Memory)
    }

    fn below(self) -> MemDisk {
        self.into_inner()
    }

    fn memory(&self) -> &MemDisk {
        self.inner()
    }
}
