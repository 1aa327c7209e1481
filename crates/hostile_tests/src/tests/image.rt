//! The contents of the blocks of a disk, to be kept and written to a disk again.
use super::{BLOCKS, GROWN_BLOCKS};
use std::alloc::Global;
use testkit::Wrong;
use vm_disk::{Disk, MemDisk};
use vm_types::Block;

/// What each block of a disk holds.
#[derive(Drop)]
pub struct Image {
    blocks: Vec<Block>,
}

impl Image {
    /// Zero bytes in each of this many blocks.
    fn zeros(alloc: Global, blocks: u32) -> Result<Image, Wrong> {
        Ok(Image {
            blocks: Vec::from_elem(alloc, [0; 4096], blocks as usize)?,
        })
    }

    /// Zero bytes in each block of a store of the minimum size.
    pub(super) fn blank(alloc: Global) -> Result<Image, Wrong> {
        Image::zeros(alloc, BLOCKS)
    }

    /// What a disk holds.
    pub(super) fn of<D: Disk>(alloc: Global, disk: &mut D) -> Result<Image, Wrong> {
        let blocks = disk.blocks();
        let mut image = Image::zeros(alloc, blocks)?;
        for n in 0..blocks {
            let at = n as usize;
            if at < image.blocks.len() && n < disk.blocks() {
                disk.read(n, &mut image.blocks[at])?;
            }
        }
        Ok(image)
    }

    /// A copy of it.
    pub(super) fn copy(&self, alloc: Global) -> Result<Image, Wrong> {
        Ok(Image {
            blocks: Vec::from_slice(alloc, &self.blocks)?,
        })
    }

    /// A disk with these contents, all of it synced, with room for the blocks of a grown store.
    pub(super) fn disk(&self, alloc: Global) -> Result<MemDisk, Wrong> {
        let blocks = u32::try_from(self.blocks.len()).unwrap_or(GROWN_BLOCKS);
        let blocks = blocks.min(GROWN_BLOCKS);
        let mut disk = MemDisk::with_room(alloc, blocks, GROWN_BLOCKS)?;
        for n in 0..blocks {
            let at = n as usize;
            if at < self.blocks.len() && n < disk.blocks() {
                disk.write(n, &self.blocks[at])?;
            }
        }
        disk.sync()?;
        Ok(disk)
    }

    /// What block n holds, if there is a block of that number.
    pub(super) fn get(&self, n: u32) -> Option<&Block> {
        self.blocks.get(n as usize)
    }

    /// What block n holds, or zero bytes if there is no such block.
    pub(super) fn block(&self, n: u32) -> Block {
        match self.get(n) {
            Some(bytes) => *bytes,
            None => [0; 4096],
        }
    }

    /// Sets what block n holds.
    pub(super) fn set(&mut self, n: u32, bytes: &Block) {
        let at = n as usize;
        if at < self.blocks.len() {
            self.blocks[at] = *bytes;
        }
    }
}
