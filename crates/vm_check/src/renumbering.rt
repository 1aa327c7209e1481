//! The numbers of the copies of blocks on another disk.
ghost use Rattle.std.specs.Prelude.{◌≡◌, ◌+◌, ◌-◌, ◌<◌, ◌^◌, IfOk};
ghost use Rattle.vm_check.specs.Renumbering.{Assigns, IsUnused, count_of, next_of, number_at};

use std::alloc::{AllocError, Global};
use vm_types::{BlockNumber, FIRST_DATA};

/// Which blocks were copied, and the number of each copy: from the first data block on, in copying
/// order.
#[derive(Drop)]
pub struct Renumbering {
    /// The number of the copy of each block, and 0 for a block that was not copied.
    numbers: Vec<u32>,
    /// The number of the next copy.
    next: u32,
}

impl Renumbering {
    /// No block of a store of `blocks` blocks is copied yet. Takes 4 bytes for each of them; no
    /// other call takes memory.
    pub fn new(alloc: Global, blocks: u32) -> Result<Renumbering, AllocError>
        ensures { IfOk result (IsUnused blocks) }
    {
        Ok(Renumbering {
            numbers: vec![in alloc; 0; blocks as usize]?,
            next: FIRST_DATA,
        })
    }

    /// The number of the copy of this block, or 0 if it was not copied.
    pub fn number_of(&self, block: BlockNumber) -> u32
        requires { block < count_of self.now }
        ensures { result ≡ number_at self.now block }
    {
        self.numbers[block as usize]
    }

    /// The number of the next copy. Those before it, from the first data block on, are taken.
    pub fn next(&self) -> u32
        ensures { result ≡ next_of self.now }
    {
        self.next
    }

    /// Gives this block's copy the next number.
    pub(crate) fn assign(&mut self, block: BlockNumber)
        requires known { block < count_of self.old }
        requires few { next_of self.old + 1 < 2 ^ 32 }
        ensures { Assigns block self.old self.new }
    {
        self.numbers[block as usize] = self.next;
        self.next += 1;
    }
}
