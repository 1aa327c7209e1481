//! A disk in memory that remembers what was done to it: what its blocks held at the last successful
//! sync and what was last written to them, which block was written last, and how often each one was
//! read.
ghost use Rattle.std.specs.Prelude.{◌≡◌, ◌<◌, ℕ, length, replicate, slice_index_or};

use crate::wrong::Wrong;
use std::alloc::Global;
use vm_disk::{DeviceFault, Disk, MemDisk, Need};
use vm_types::{Block, BlockNumber};

#[derive(Drop)]
pub struct RecordingDisk {
    inner: MemDisk,
    written: Vec<Block>,
    synced: Vec<Block>,
    reads: Vec<u32>,
    last: u32,
}

/// What a crash leaves in a block that is not synced: what it held at the last successful sync,
/// what its last write was given, or one byte repeated.
#[derive(Clone, Copy, Debug, PartialEq, Eq)]
pub enum Fill {
    Synced,
    Written,
    Byte(u8),
}

/// What each block of a disk holds.
fn blocks_of(alloc: Global, disk: &mut MemDisk) -> Result<Vec<Block>, Wrong> {
    let mut blocks = Vec::new(alloc);
    for n in 0..disk.blocks() {
        let mut bytes = [0; 4096];
        if n < disk.blocks() {
            disk.read(n, &mut bytes)?;
        }
        blocks.push(bytes)?;
    }
    Ok(blocks)
}

/// Notes the contents of the blocks that a sync makes durable.
fn settle(disk: &MemDisk, written: &[Block], synced: &mut [Block]) {
    for n in 0..disk.blocks() {
        let at = n as usize;
        if at < written.len() && at < synced.len() && disk.is_dirty(n) {
            synced[at] = written[at];
        }
    }
}

impl RecordingDisk {
    /// Records this disk. Its blocks count as synced.
    pub fn new(alloc: Global, mut inner: MemDisk) -> Result<RecordingDisk, Wrong> {
        let written = blocks_of(alloc, &mut inner)?;
        Ok(RecordingDisk {
            synced: Vec::from_slice(alloc, &written)?,
            reads: Vec::from_elem(alloc, 0, written.len())?,
            inner,
            written,
            last: 0,
        })
    }

    /// The disk itself, given back.
    pub fn into_inner(self) -> MemDisk
        ensures { result ≡ self.inner }
    {
        self.inner
    }

    /// The disk itself, to look at.
    pub fn inner(&self) -> &MemDisk
        ensures { result.now ≡ self.now.inner }
    {
        &self.inner
    }

    /// The number of the block that was written last, or 0 if there is none.
    pub fn last(&self) -> u32
        ensures { result ≡ self.now.last }
    {
        self.last
    }

    /// What such a crash leaves in a block that is not synced.
    pub fn bytes_in(&self, n: BlockNumber, fill: Fill) -> Block
        ensures synced { fill ≡ Fill.Synced → n < length self.now.synced.items
            → result ≡ slice_index_or self.now.synced.items n (replicate 4096 0) }
        ensures written { fill ≡ Fill.Written → n < length self.now.written.items
            → result ≡ slice_index_or self.now.written.items n (replicate 4096 0) }
        ensures byte { (byte : ℕ) → fill ≡ Fill.Byte byte → result ≡ replicate 4096 byte }
    {
        let at = n as usize;
        match fill {
            Fill::Synced if at < self.synced.len() => self.synced[at],
            Fill::Written if at < self.written.len() => self.written[at],
            Fill::Byte(byte) => [byte; 4096],
            _ => [0; 4096],
        }
    }

    /// The disk after a crash that leaves the same kind of bytes in each block that is not synced.
    pub fn crash(self, alloc: Global, fill: Fill) -> Result<RecordingDisk, Wrong> {
        let mut left = Vec::new(alloc);
        for n in 0..self.inner.blocks() {
            if self.inner.is_dirty(n) {
                left.push((n, self.bytes_in(n, fill)))?;
            }
        }
        RecordingDisk::new(alloc, self.inner.crash(&left))
    }

    /// Starts counting reads again from zero.
    pub fn start(&mut self)
        ensures inner { self.new.inner ≡ self.old.inner }
        ensures none { (n : ℕ) → slice_index_or self.new.reads.items n 0 ≡ 0 }
    {
        self.reads.fill(0);
    }

    fn count_read(&mut self, n: BlockNumber)
        ensures { self.new.inner ≡ self.old.inner }
    {
        let at = n as usize;
        if at < self.reads.len() {
            self.reads[at] = self.reads[at].saturating_add(1);
        }
    }

    /// How often the most frequently read block was read.
    pub fn most(&self) -> u32 {
        self.reads.iter().copied().max().unwrap_or(0)
    }

    /// How many blocks were read.
    pub fn count(&self) -> usize {
        let mut count: usize = 0;
        for reads in &self.reads {
            if *reads > 0 {
                count = count.saturating_add(1);
            }
        }
        count
    }
}

impl Disk for RecordingDisk {
    ghost use Rattle.std.specs.Prelude.{refl};
    ghost use Rattle.vm_disk.specs.Memory.{memory_hand, memory_state};

    ghost state = { λ disk. memory_state disk.inner };

    ghost hand = { λ disk. memory_hand disk.inner };

    ghost whole = { λ disk honest. refl };

    ghost small = { λ disk. disk.inner.platter.small };

    fn blocks(&self) -> u32 {
        self.inner.blocks()
    }

    fn read(&mut self, n: BlockNumber, into: &mut Block) -> Result<(), DeviceFault> {
        self.count_read(n);
        self.inner.read(n, into)
    }

    fn load(&mut self, n: BlockNumber, need: Need) -> Result<(), DeviceFault> {
        self.count_read(n);
        self.inner.load(n, need)
    }

    fn at_hand(&self) -> &Block {
        self.inner.at_hand()
    }

    fn write(&mut self, n: BlockNumber, from: &Block) -> Result<(), DeviceFault> {
        let at = n as usize;
        if at < self.written.len() {
            self.written[at] = *from;
        }
        self.last = n;
        self.inner.write(n, from)
    }

    fn write_run(&mut self, n: BlockNumber, blocks: &[Block]) -> Result<(), DeviceFault> {
        self.write_each(n, blocks)
    }

    fn sync(&mut self) -> Result<(), DeviceFault> {
        settle(&self.inner, &self.written, &mut self.synced);
        self.inner.sync()
    }

    fn extend(&mut self, blocks: u32) -> Result<(), DeviceFault> {
        self.inner.extend(blocks)?;
        // If memory is refused, the record keeps its length.
        let _ = self.written.resize(blocks as usize, [0; 4096]);
        let _ = self.synced.resize(blocks as usize, [0; 4096]);
        let _ = self.reads.resize(blocks as usize, 0);
        Ok(())
    }
}
