ghost use Rattle.std.specs.Prelude.{◌≡◌, ℕ, ◌↔◌, ◌+◌, ◌-◌, ◌<◌, ◌≤◌, ◌++◌, true, false, length, replicate, take, slice_get, slice_set, IsTrue, IsNone, IfOk, IfSome, IfNone};
ghost use Rattle.vm_alloc.specs.Held.{is_held, IsHeld, free_count, HoldsMore};
ghost use Rattle.vm_alloc.specs.Marks.{is_marked};

use crate::flags::Flags;
use crate::marks::Marks;
use std::alloc::{AllocError, Global};
use std::marker::Model;
use vm_types::{BlockNumber, FIRST_DATA, MAX_BLOCKS, MIN_BLOCKS};

/// Which blocks of a store are held. The others are free.
#[derive(Drop)]
pub struct Held {
    flags: Flags,
    free: u32,
    // All blocks before this one are held.
    lowest: usize,
}

impl Model for Held {
    ghost use Rattle.std.specs.Prelude.{List, Bool};
    ghost use Rattle.vm_alloc.specs.Counts.{IsTallied};

    ghost Value = { List Bool };

    ghost view = { λ a. a.flags };

    ghost invariant = { λ a. IsTallied a.flags a.free a.lowest };
}

impl Held {
    /// Blocks 0 to 33 are held. Only this call and `extended` take memory.
    pub fn new(alloc: Global, blocks: u32) -> Result<Held, AllocError>
        requires enough { MIN_BLOCKS ≤ blocks }
        requires few { blocks ≤ MAX_BLOCKS }
        ensures count { IfOk result (λ held. length held ≡ blocks) }
        ensures system { IfOk result (λ held. (n : ℕ) → IsHeld held n ↔ (n < FIRST_DATA)) }
    {
        let mut flags = Flags::new(alloc, blocks as usize)?;
        flags.set_first(FIRST_DATA);
        Ok(Held {
            flags,
            free: blocks - FIRST_DATA,
            lowest: 0,
        })
    }

    /// A copy extended to `blocks` blocks, with the new ones free.
    pub fn extended(&self, alloc: Global, blocks: u32) -> Result<Held, AllocError>
        requires longer { length self.now ≤ blocks }
        requires few { blocks ≤ MAX_BLOCKS }
        ensures blocks { IfOk result (λ held. held ≡ self.now ++ replicate (blocks - length self.now) false) }
        ensures count { IfOk result (λ held. length held ≡ blocks) }
        ensures free { IfOk result (λ held. free_count held ≡ free_count self.now + (blocks - length self.now)) }
    {
        let new_blocks = blocks - self.blocks();
        Ok(Held {
            flags: self.flags.extended(alloc, blocks as usize)?,
            free: self.free + new_blocks,
            lowest: self.lowest,
        })
    }

    /// Drops the blocks from this number on, held or free.
    pub fn truncate(&mut self, blocks: u32)
        requires enough { MIN_BLOCKS ≤ blocks }
        requires fewer { blocks ≤ length self.old }
        ensures blocks { self.new ≡ take blocks self.old }
        ensures count { length self.new ≡ blocks }
    {
        let from = blocks as usize;
        self.free -= self.flags.count_clear(from) as u32;
        self.flags.truncate(from);
        self.lowest = self.lowest.min(from);
    }

    /// How many blocks there are, held or free.
    pub fn blocks(&self) -> u32
        ensures count { result ≡ length self.now }
        ensures enough { MIN_BLOCKS ≤ length self.now }
        ensures few { length self.now ≤ MAX_BLOCKS }
        ensures system { (n : ℕ) → n < FIRST_DATA → IsHeld self.now n }
    {
        self.flags.len() as u32
    }

    /// How many blocks are free.
    pub fn free_count(&self) -> u32
        ensures count { result ≡ free_count self.now }
        ensures system { (n : ℕ) → n < FIRST_DATA → IsHeld self.now n }
    {
        self.free
    }

    pub fn is_held(&self, n: BlockNumber) -> bool
        requires { n < length self.now }
        ensures held { IsTrue result ↔ IsHeld self.now n }
        ensures system { (n : ℕ) → n < FIRST_DATA → IsHeld self.now n }
    {
        self.flags.get(n as usize)
    }

    /// Holds the lowest free block, and returns it.
    pub fn take(&mut self) -> Option<u32>
        ensures free { IfSome result (λ n. slice_get self.old n ≡ Some false) }
        ensures lowest { IfSome result (λ n. (k : ℕ) → k < n → IsHeld self.old k) }
        ensures taken { IfSome result (λ n. self.new ≡ slice_set self.old n true) }

        // None exactly when every block is held.
        ensures none { IsNone result ↔ (free_count self.old ≡ 0) }
        ensures kept { IfNone result (self.new ≡ self.old) }

        ensures still { HoldsMore self.old self.new }
        ensures system { (n : ℕ) → n < FIRST_DATA → IsHeld self.new n }
    {
        let n = self.flags.first_clear(self.lowest);
        self.lowest = n;
        if n == self.flags.len() {
            return None;
        }
        self.flags.set(n);
        self.free -= 1;
        Some(n as u32)
    }

    /// Holds the marked blocks and the store's own, and no others.
    pub fn replace(&mut self, marks: &Marks)
        requires { length marks.now ≡ length self.old }
        ensures count { length self.new ≡ length self.old }
        ensures marked { (n : ℕ) → FIRST_DATA ≤ n → is_held self.new n ≡ is_marked marks.now n }
        ensures system { (n : ℕ) → n < FIRST_DATA → IsHeld self.new n }
    {
        self.flags.copy_from(marks.flags());
        self.flags.set_first(FIRST_DATA);
        self.free = marks.unmarked();
        self.lowest = 0;
    }

    pub(crate) fn flags(&self) -> &Flags
        ensures { result.now ≡ self.now }
    {
        &self.flags
    }
}
