ghost use Rattle.std.specs.Prelude.{◌≡◌, ◌↔◌, ◌-◌, ◌<◌, ◌≤◌, ◌++◌, true, false, length, take, drop, replicate, slice_set, IsTrue, IfOk};
ghost use Rattle.vm_alloc.specs.Held.{free_count};
ghost use Rattle.vm_alloc.specs.Marks.{IsMarked};

use crate::flags::Flags;
use std::alloc::{AllocError, Global};
use std::marker::Model;
use vm_types::{BlockNumber, FIRST_DATA, MAX_BLOCKS, MIN_BLOCKS};

/// Which blocks of a store are marked as still in use.
#[derive(Drop)]
pub struct Marks {
    flags: Flags,
    // The number of unmarked blocks from `FIRST_DATA` on.
    unmarked: u32,
}

impl Model for Marks {
    ghost use Rattle.std.specs.Prelude.{List, Bool};
    ghost use Rattle.vm_alloc.specs.Counts.{IsCounted};

    ghost Value = { List Bool };

    ghost view = { λ a. a.flags };

    ghost invariant = { λ a. IsCounted a.flags a.unmarked };
}

impl Marks {
    /// No block is marked. Only this call and `extended` take memory.
    pub fn new(alloc: Global, blocks: u32) -> Result<Marks, AllocError>
        requires enough { MIN_BLOCKS ≤ blocks }
        requires few { blocks ≤ MAX_BLOCKS }
        ensures { IfOk result (λ marks. marks ≡ replicate blocks false) }
    {
        Ok(Marks {
            flags: Flags::new(alloc, blocks as usize)?,
            unmarked: blocks - FIRST_DATA,
        })
    }

    /// A copy extended to `blocks` blocks, with the new ones not marked.
    pub fn extended(&self, alloc: Global, blocks: u32) -> Result<Marks, AllocError>
        requires longer { length self.now ≤ blocks }
        requires few { blocks ≤ MAX_BLOCKS }
        ensures { IfOk result (λ marks. marks ≡ self.now ++ replicate (blocks - length self.now) false) }
    {
        let new_blocks = blocks - self.blocks();
        Ok(Marks {
            flags: self.flags.extended(alloc, blocks as usize)?,
            unmarked: self.unmarked + new_blocks,
        })
    }

    /// Drops the blocks from this number on, marked or not.
    pub fn truncate(&mut self, blocks: u32)
        requires enough { MIN_BLOCKS ≤ blocks }
        requires fewer { blocks ≤ length self.old }
        ensures blocks { self.new ≡ take blocks self.old }
        ensures count { length self.new ≡ blocks }
    {
        let from = blocks as usize;
        self.unmarked -= self.flags.count_clear(from) as u32;
        self.flags.truncate(from);
    }

    /// How many blocks there are, marked or not.
    pub fn blocks(&self) -> u32
        ensures count { result ≡ length self.now }
        ensures enough { MIN_BLOCKS ≤ length self.now }
        ensures few { length self.now ≤ MAX_BLOCKS }
    {
        self.flags.len() as u32
    }

    pub fn is_set(&self, n: BlockNumber) -> bool
        requires { n < length self.now }
        ensures { IsTrue result ↔ IsMarked self.now n }
    {
        self.flags.get(n as usize)
    }

    pub fn set(&mut self, n: BlockNumber)
        requires { n < length self.old }
        ensures { self.new ≡ slice_set self.old n true }
    {
        let at = n as usize;
        if n >= FIRST_DATA && !self.flags.get(at) {
            self.unmarked -= 1;
        }
        self.flags.set(at);
    }

    /// Clears the mark of one block, if it is set.
    pub fn unset(&mut self, n: BlockNumber)
        requires { n < length self.old }
        ensures { self.new ≡ slice_set self.old n false }
    {
        let at = n as usize;
        if n >= FIRST_DATA && self.flags.get(at) {
            self.unmarked += 1;
        }
        self.flags.unset(at);
    }

    pub fn clear(&mut self)
        ensures { self.new ≡ replicate (length self.old) false }
    {
        let blocks = self.blocks();
        self.flags.clear();
        self.unmarked = blocks - FIRST_DATA;
    }

    pub(crate) fn flags(&self) -> &Flags
        ensures { result.now ≡ self.now }
    {
        &self.flags
    }

    pub(crate) fn unmarked(&self) -> u32
        ensures { result ≡ free_count (drop FIRST_DATA self.now) }
    {
        self.unmarked
    }
}
