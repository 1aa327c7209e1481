ghost use Rattle.std.specs.Prelude.{◌≡◌, ◌↔◌, ◌<◌, ◌≤◌, ◌&&◌, ℕ, false, length, replicate, take, IsTrue, IfOk};
ghost use Rattle.vm_alloc.specs.Held.{is_held, IsHeld};

use crate::flags::Flags;
use crate::held::Held;
use std::alloc::{AllocError, Global};
use std::marker::Model;
use vm_types::{BlockNumber, MAX_BLOCKS};

/// The blocks that were held at one time, except those that were let go since.
#[derive(Drop)]
pub struct Baseline {
    flags: Flags,
}

impl Model for Baseline {
    ghost use Rattle.std.specs.Prelude.{List, Bool};

    ghost Value = { List Bool };

    ghost view = { λ a. a.flags };
}

impl Baseline {
    /// Starts with no block. The only call that takes memory.
    pub fn new(alloc: Global, blocks: u32) -> Result<Baseline, AllocError>
        requires few { blocks ≤ MAX_BLOCKS }
        ensures { IfOk result (λ baseline. baseline ≡ replicate blocks false) }
    {
        Ok(Baseline {
            flags: Flags::new(alloc, blocks as usize)?,
        })
    }

    /// Drops the blocks from this number on.
    pub fn truncate(&mut self, blocks: u32)
        requires { blocks ≤ length self.old }
        ensures blocks { self.new ≡ take blocks self.old }
        ensures count { length self.new ≡ blocks }
    {
        self.flags.truncate(blocks as usize);
    }

    /// How many blocks the store has.
    pub fn blocks(&self) -> u32
        ensures count { result ≡ length self.now }
        ensures few { length self.now ≤ MAX_BLOCKS }
    {
        self.flags.len() as u32
    }

    /// Whether it contains the block.
    pub fn has(&self, n: BlockNumber) -> bool
        requires { n < length self.now }
        ensures { IsTrue result ↔ IsHeld self.now n }
    {
        self.flags.get(n as usize)
    }

    /// Replaces its blocks by the ones that are held now.
    pub fn take(&mut self, held: &Held)
        requires { length held.now ≡ length self.old }
        ensures { self.new ≡ held.now }
    {
        self.flags.copy_from(held.flags());
    }

    /// Drops the blocks that are no longer held.
    pub fn keep_held(&mut self, held: &Held)
        requires { length held.now ≡ length self.old }
        ensures count { length self.new ≡ length self.old }
        ensures kept { (n : ℕ) → is_held self.new n ≡ (is_held self.old n && is_held held.now n) }
    {
        self.flags.clear_but(held.flags());
    }
}
