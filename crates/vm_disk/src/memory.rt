//! A disk in memory, for tests.
ghost use Rattle.std.specs.Prelude.{◌≡◌, ◌<◌, ◌≤◌, ◌&&◌, ◌==◌, ◌^◌, ◌+◌, ◌-◌, ℕ, true, false, if◌then◌else◌, [], ◌++◌, length, take, replicate, slice_index_or, vec_capacity, IfOk, OnOk, OnErr, IsOk, IsErr};
ghost use Rattle.vm_disk.specs.Fill.{filled_up};
ghost use Rattle.vm_disk.specs.Disk.{IsClean, MayLeave};

use crate::disk::{DeviceFault, Disk, Need};
use crate::history::History;
use std::alloc::{AllocError, Global};
use vm_types::{BLOCK_SIZE, Block, BlockNumber};

/// Blocks, which of them are not synced, how many there were at the last sync, and how many there
/// is room for.
#[derive(Drop)]
struct Platter {
    blocks: Vec<Block>,
    dirty: Vec<bool>,
    sure: u32,
    room: u32,
    ghost small: { length blocks.items < 2 ^ 32 },
    ghost marks: { length dirty.items ≡ length blocks.items },
    ghost within: { sure ≤ length blocks.items },
    ghost unsure: { (n : ℕ)
        → sure ≤ n
        → n < length blocks.items
        → slice_index_or dirty.items n false ≡ true },
    ghost room_of_blocks: { room ≤ vec_capacity blocks },
    ghost room_of_marks: { room ≤ vec_capacity dirty },
}

/// A disk in memory. It is always honest, and fails only if it is to grow beyond its room. Its
/// device calls take no memory. The loaded block is the one that was loaded last, as it is on the
/// disk.
#[derive(Drop)]
pub struct MemDisk {
    platter: Platter,
    at: u32,
    past: History<Platter>,
    reads: History<()>,
    failed: History<()>,
}

/// Appends an element until there are `count`, in memory that is already allocated.
fn fill_up<T: Copy>(items: &mut Vec<T>, item: T, count: usize)
    requires { count ≤ vec_capacity items.old }
    ensures items { items.new.items ≡ filled_up count item items.old.items }
    ensures capacity { vec_capacity items.old ≤ vec_capacity items.new }
{
    while items.len() < count {
        let _ = items.push(item);
    }
}

impl Platter {
    ghost use Rattle.vm_disk.specs.Memory.{medium_of, IsRefilled, IsRefilledAt, ChangesBytesOnly};

    /// Memory for `room` blocks, with no block yet.
    fn with_room(alloc: Global, room: u32) -> Result<Platter, AllocError>
        ensures blocks { IfOk result (λ platter. platter.blocks.items ≡ []) }
        ensures room { IfOk result (λ platter. platter.room ≡ room) }
    {
        Ok(Platter {
            blocks: Vec::with_capacity(alloc, room as usize)?,
            dirty: Vec::with_capacity(alloc, room as usize)?,
            sure: 0,
            room,
        })
    }

    /// Appends zero blocks, which are dirty, until there are `blocks`.
    fn lengthen(&mut self, blocks: u32)
        requires { blocks ≤ self.old.room }
        ensures blocks { self.new.blocks.items
            ≡ filled_up blocks (replicate BLOCK_SIZE 0) self.old.blocks.items }
        ensures dirty { self.new.dirty.items
            ≡ self.old.dirty.items ++ replicate (blocks - length self.old.blocks.items) true }
        ensures sure { self.new.sure ≡ self.old.sure }
        ensures room { self.new.room ≡ self.old.room }
    {
        let count = blocks as usize;
        fill_up(&mut self.blocks, [0; 4096], count);
        fill_up(&mut self.dirty, true, count);
    }

    /// Removes the last blocks, down to `blocks`.
    fn shorten(&mut self, blocks: u32)
        requires sure { self.old.sure ≤ blocks }
        requires fewer { blocks ≤ length self.old.blocks.items }
        ensures blocks { self.new.blocks.items ≡ take blocks self.old.blocks.items }
        ensures dirty { self.new.dirty.items ≡ take blocks self.old.dirty.items }
        ensures sure { self.new.sure ≡ self.old.sure }
        ensures room { self.new.room ≡ self.old.room }
    {
        self.blocks.truncate(blocks as usize);
        self.dirty.truncate(blocks as usize);
    }

    fn is_dirty(&self, n: BlockNumber) -> bool
        ensures { result ≡ (medium_of self.now).dirty n }
    {
        let at = n as usize;
        at < self.dirty.len() && self.dirty[at]
    }

    fn refill_block(&mut self, n: BlockNumber, bytes: &Block)
        ensures keeps { ChangesBytesOnly self.old self.new }
        ensures filled { IsRefilledAt n bytes.now (medium_of self.old) (medium_of self.new) }
    {
        if self.is_dirty(n) {
            self.blocks[n as usize] = *bytes;
        }
    }

    /// Makes all blocks synced.
    fn settle(&mut self)
        ensures blocks { self.new.blocks ≡ self.old.blocks }
        ensures clean { IsClean (medium_of self.new) }
        ensures sure { self.new.sure ≡ length self.old.blocks.items }
        ensures room { self.new.room ≡ self.old.room }
    {
        self.sure = self.blocks.len() as u32;
        self.dirty.fill(false);
    }

    /// Gives each dirty block the bytes of its last entry.
    fn refill(&mut self, fill: &[(u32, Block)])
        ensures keeps { ChangesBytesOnly self.old self.new }
        ensures filled { IsRefilled fill.now (medium_of self.old) (medium_of self.new) }
    {
        for (n, bytes) in fill {
            self.refill_block(*n, bytes);
        }
    }
}

impl MemDisk {
    ghost use Rattle.vm_disk.specs.Memory.{memory_state, room_of, IsBlank, IsLeft, IsRefilled, IsRefilledBelow};

    /// A disk of zero bytes, all of it synced. It has no room for more blocks.
    pub fn new(alloc: Global, blocks: u32) -> Result<MemDisk, AllocError>
        ensures blank { IfOk result (λ disk. IsBlank blocks (memory_state disk)) }
        ensures room { IfOk result (λ disk. room_of disk ≡ blocks) }
    {
        MemDisk::with_room(alloc, blocks, blocks)
    }

    /// A disk of zero bytes, all of it synced, with room for `room` blocks.
    pub fn with_room(alloc: Global, blocks: u32, room: u32) -> Result<MemDisk, AllocError>
        requires { blocks ≤ room }
        ensures blank { IfOk result (λ disk. IsBlank blocks (memory_state disk)) }
        ensures room { IfOk result (λ disk. room_of disk ≡ room) }
    {
        let mut blank = Platter::with_room(alloc, room)?;
        blank.lengthen(blocks);
        blank.settle();
        Ok(MemDisk {
            platter: blank,
            at: 0,
            past: History::new(),
            reads: History::new(),
            failed: History::new(),
        })
    }

    /// How many blocks a crash is sure to leave.
    pub fn sure(&self) -> u32
        ensures { result ≡ (memory_state self.now).now.sure }
    {
        self.platter.sure
    }

    /// Whether a crash may lose the contents of block n. A number past the end names no dirty
    /// block.
    pub fn is_dirty(&self, n: BlockNumber) -> bool
        ensures { result ≡ (memory_state self.now).now.dirty n }
    {
        self.platter.is_dirty(n)
    }

    /// The disk after a crash. A dirty block gets the bytes of its last entry, or else keeps its
    /// own. Entries for other blocks and for numbers past the end are ignored.
    pub fn crash(self, fill: &[(u32, Block)]) -> MemDisk
        ensures blocks { (memory_state result).blocks ≡ (memory_state self).blocks }
        ensures filled { IsRefilled fill.now (memory_state self).now (memory_state result).now }
        ensures left { IsLeft self result }
    {
        let MemDisk {
            mut platter,
            at: _,
            past: _,
            reads: _,
            failed: _,
        } = self;
        platter.refill(fill);
        platter.settle();
        MemDisk {
            platter,
            at: 0,
            past: History::new(),
            reads: History::new(),
            failed: History::new(),
        }
    }

    /// The disk after a crash that leaves `blocks` blocks, at least those that are sure. Of these,
    /// a dirty block gets the bytes of its last entry, or else keeps its own. Other entries are
    /// ignored.
    pub fn crash_short(mut self, fill: &[(u32, Block)], blocks: u32) -> MemDisk
        requires sure { (memory_state self).now.sure ≤ blocks }
        requires fewer { blocks ≤ (memory_state self).blocks }
        ensures blocks { (memory_state result).blocks ≡ blocks }
        ensures filled { IsRefilledBelow blocks fill.now (memory_state self).now
            (memory_state result).now }
        ensures left { IsLeft self result }
    {
        self.platter.shorten(blocks);
        self.crash(fill)
    }
}

impl Disk for MemDisk {
    ghost use Rattle.std.specs.Prelude.{refl};
    ghost use Rattle.vm_disk.specs.Memory.{memory_state, memory_hand, memory_does};

    ghost state = { memory_state };

    ghost hand = { memory_hand };

    ghost does = { memory_does };

    ghost whole = { λ disk honest. refl };

    ghost small = { λ disk. disk.platter.small };

    fn blocks(&self) -> u32 {
        self.platter.blocks.len() as u32
    }

    fn read(&mut self, n: BlockNumber, into: &mut Block) -> Result<(), DeviceFault> {
        self.reads.note(&());
        self.past.note(&self.platter);
        *into = self.platter.blocks[n as usize];
        Ok(())
    }

    fn load(&mut self, n: BlockNumber, _: Need) -> Result<(), DeviceFault> {
        self.reads.note(&());
        self.past.note(&self.platter);
        self.at = n;
        Ok(())
    }

    fn at_hand(&self) -> &Block {
        match self.platter.blocks.get(self.at as usize) {
            Some(block) => block,
            None => &[0; 4096],
        }
    }

    fn write(&mut self, n: BlockNumber, from: &Block) -> Result<(), DeviceFault> {
        self.past.note(&self.platter);
        self.platter.blocks[n as usize] = *from;
        self.platter.dirty[n as usize] = true;
        Ok(())
    }

    fn write_run(&mut self, n: BlockNumber, blocks: &[Block]) -> Result<(), DeviceFault> {
        self.write_each(n, blocks)
    }

    fn sync(&mut self) -> Result<(), DeviceFault> {
        self.past.note(&self.platter);
        self.platter.settle();
        Ok(())
    }

    fn extend(&mut self, blocks: u32) -> Result<(), DeviceFault> {
        if self.platter.room < blocks {
            self.failed.note(&());
            return Err(DeviceFault);
        }
        self.past.note(&self.platter);
        self.platter.lengthen(blocks);
        Ok(())
    }
}
