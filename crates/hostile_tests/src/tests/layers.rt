//! What is between a store and the device that fails.
use std::alloc::Global;
use vm_disk::{CachedDisk, DelayedDisk, Disk, FuseDisk, MemDisk};

/// A device that fails one call, over one that stops.
pub type Device = FuseDisk<FuseDisk<MemDisk>>;

/// A disk for a store, over such a device.
pub trait Layer: Disk + Drop {
    /// A new one that keeps up to this many blocks in memory, if there is memory for it.
    fn over(alloc: Global, device: Device, blocks: u32) -> Option<Self>;

    /// The same after a call failed, as the next opening finds it.
    fn anew(self, alloc: Global, blocks: u32) -> Option<Self>;

    /// The device, given back.
    fn below(self) -> Device;
}

/// Nothing between them.
impl Layer for Device {
    fn over(_: Global, device: Device, _: u32) -> Option<Device> {
        Some(device)
    }

    fn anew(self, _: Global, _: u32) -> Option<Device> {
        Some(self)
    }

    fn below(self) -> Device {
        self
    }
}

/// A cache between them.
impl Layer for CachedDisk<Device> {
    fn over(alloc: Global, device: Device, blocks: u32) -> Option<CachedDisk<Device>> {
        CachedDisk::new(alloc, device, blocks.max(1) as usize).ok()
    }

    fn anew(self, _: Global, _: u32) -> Option<CachedDisk<Device>> {
        Some(self)
    }

    fn below(self) -> Device {
        self.into_inner()
    }
}

/// Written blocks that wait between them. When opened again, those that still wait are dropped.
impl Layer for DelayedDisk<Device> {
    fn over(alloc: Global, device: Device, blocks: u32) -> Option<DelayedDisk<Device>> {
        DelayedDisk::new(alloc, device, blocks.max(1) as usize).ok()
    }

    fn anew(self, alloc: Global, blocks: u32) -> Option<DelayedDisk<Device>> {
        Layer::over(alloc, self.into_inner(), blocks)
    }

    fn below(self) -> Device {
        self.into_inner()
    }
}
