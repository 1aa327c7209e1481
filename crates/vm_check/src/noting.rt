//! Noting damaged blocks.
ghost use Rattle.std.specs.Prelude.{◌≡◌, ◌↔◌, ◌<◌, ℕ, None, length, IsTrue};
ghost use Rattle.vm_alloc.specs.Marks.{IsMarked};
ghost use Rattle.vm_check.specs.Notes.{IsOver, NotesBlock, NotesListing, NotesNumber};

use crate::notes::{Notes, OnDamage};
use vm_alloc::Marks;
use vm_types::BlockNumber;

impl Notes {
    /// Nothing is noted yet. No block is marked in `none`.
    pub(crate) fn new(on_damage: OnDamage, none: Marks) -> Notes
        requires { (n : ℕ) → IsMarked none n → ⊥ }
        ensures on_damage { result.on_damage ≡ on_damage }
        ensures first { result.first ≡ None }
        ensures damaged { result.damaged ≡ none }
    {
        Notes {
            on_damage,
            first: None,
            damaged: none,
        }
    }

    /// Whether the walk has to end.
    pub(crate) fn is_over(&self) -> bool
        ensures { IsTrue result ↔ IsOver self.now }
    {
        match (self.on_damage, self.first) {
            (OnDamage::Stop, Some(_)) => true,
            _ => false,
        }
    }

    /// Whether a block was noted.
    pub(crate) fn has(&self, block: BlockNumber) -> bool
        requires { block < length self.now.damaged }
        ensures { IsTrue result ↔ IsMarked self.now.damaged block }
    {
        self.damaged.is_set(block)
    }

    /// Notes a number that is none of a data block.
    pub(crate) fn note_number(&mut self, number: u32)
        ensures { NotesNumber number self.old self.new }
    {
        if let None = self.first {
            self.first = Some(number);
        }
    }

    /// Notes a damaged block.
    pub(crate) fn note(&mut self, block: BlockNumber)
        requires { block < length self.old.damaged }
        ensures { NotesBlock block self.old self.new }
    {
        self.note_listing(block, block);
    }

    /// Notes a block that lists a number which is none of a data block.
    pub(crate) fn note_listing(&mut self, block: BlockNumber, number: u32)
        requires { block < length self.old.damaged }
        ensures { NotesListing block number self.old self.new }
    {
        self.note_number(number);
        self.damaged.set(block);
    }
}
