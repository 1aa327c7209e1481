//! The blocks that a cache keeps.
ghost use Rattle.std.specs.Prelude.{◌≡◌, ◌⊎◌, ◌+◌, ◌<◌, ◌^◌, ℕ, Some, [], length, nat_eq, false, IfSome, IfOk};
ghost use Rattle.std.specs.Bool.{OnTrue, OnFalse};
ghost use Rattle.std.specs.Map.{lookup, remove_entry};
ghost use Rattle.std.specs.Option.{option_copied};
ghost use Rattle.std.specs.NonZero.{non_zero_usize_get};

use crate::history::History;
use crate::rooms::{Room, fill, newest};
use lru::LruCache;
use std::alloc::{AllocError, Global};
use std::mem;
use std::num::NonZeroUsize;
use vm_types::{Block, BlockNumber};

/// Blocks with their bytes, in the order of their last use. When one more would be too many, the
/// least recently used one goes, and the next new block takes its frame.
#[derive(Drop)]
pub(crate) struct Kept {
    alloc: Global,
    rooms: LruCache<BlockNumber, Room>,
    spare: Option<Room>,
    refused: History<()>,
}

impl Kept {
    ghost use Rattle.vm_disk.specs.Kept.{entries_of, limit_of, refusals_in, keeps, first_in, first_or, without_run, ComesFirst, ComesFirstOrNot, Settings, UsesBlock, UsesBlocks};

    /// No blocks yet. Takes memory for the order of all of them, and for the bytes of one.
    pub(crate) fn new(alloc: Global, capacity: NonZeroUsize) -> Result<Kept, AllocError>
        ensures entries { IfOk result (λ kept. entries_of kept ≡ []) }
        ensures limit { IfOk result (λ kept. limit_of kept ≡ non_zero_usize_get capacity) }
        ensures refusals { IfOk result (λ kept. refusals_in kept ≡ 0) }
    {
        Ok(Kept {
            alloc,
            rooms: LruCache::new(alloc, capacity)?,
            spare: Some(Box::new(alloc, [0; 4096])?),
            refused: History::new(),
        })
    }

    /// Makes a kept block the one used last, and tells whether block n is kept.
    pub(crate) fn promote(&mut self, n: BlockNumber) -> bool
        ensures answer { result ≡ keeps n (entries_of self.old) }
        ensures found { OnTrue result
            (lookup (nat_eq n) (entries_of self.old) ≡ Some (first_or [] (entries_of self.new))) }
        ensures first { OnTrue result (ComesFirst n (first_or [] (entries_of self.new)) self.old self.new) }
        ensures missed { OnFalse result (entries_of self.new ≡ entries_of self.old) }
        ensures settings { Settings self.old self.new }
    {
        self.rooms.promote(&n)
    }

    /// The bytes of the block used last.
    pub(crate) fn first(&self) -> Option<&Block>
        ensures { option_copied result ≡ first_in (entries_of self.now) }
    {
        newest(&self.rooms)
    }

    /// A frame for a new block. In a full cache it is the spare one.
    fn empty_room(&mut self) -> Option<Room>
        ensures rooms { self.new.rooms ≡ self.old.rooms }
        ensures settings { Settings self.old self.new }
    {
        if self.rooms.len() < self.rooms.cap().get() {
            return Box::new(self.alloc, [0; 4096]).ok();
        }
        self.spare.take()
    }

    /// Keeps a block in the frame on the desk, which has its bytes, and puts another frame there.
    /// Tells whether there was memory for it.
    pub(crate) fn keep_room(&mut self, n: BlockNumber, desk: &mut Room) -> bool
        ensures limit { limit_of self.new ≡ limit_of self.old }
        ensures kept { OnTrue result ((refusals_in self.new ≡ refusals_in self.old)
            × ComesFirst n desk.old.value self.old self.new) }
        ensures refused { OnFalse result ((refusals_in self.new ≡ refusals_in self.old + 1)
            × (entries_of self.new ≡ entries_of self.old)) }
        ensures bytes { OnFalse result (desk.new ≡ desk.old) }
    {
        let Some(room) = self.empty_room() else {
            self.refused.note(&());
            return false;
        };
        match self.rooms.push(n, mem::replace(desk, room)) {
            Ok(Some((_, room))) => {
                self.spare = Some(room);
                true
            }
            Ok(None) => true,
            Err(failed) => {
                self.spare = Some(mem::replace(desk, failed.value.1));
                self.refused.note(&());
                false
            }
        }
    }

    /// Gives a kept block these bytes, in place, and tells whether block n is kept.
    pub(crate) fn change(&mut self, n: BlockNumber, bytes: &Block) -> bool
        ensures answer { result ≡ keeps n (entries_of self.old) }
        ensures first { OnTrue result (ComesFirst n bytes.now self.old self.new) }
        ensures missed { OnFalse result (entries_of self.new ≡ entries_of self.old) }
        ensures settings { Settings self.old self.new }
    {
        match self.rooms.get_mut(&n) {
            Some(room) => {
                fill(room, bytes);
                true
            }
            None => false,
        }
    }

    /// A frame with these bytes, unless memory for it is refused.
    fn room(&mut self, bytes: &Block) -> Option<Room>
        ensures bytes { IfSome result (λ room. room.value ≡ bytes.now) }
        ensures rooms { self.new.rooms ≡ self.old.rooms }
        ensures settings { Settings self.old self.new }
    {
        let mut room = self.empty_room()?;
        fill(&mut room, bytes);
        Some(room)
    }

    /// Keeps a block with these bytes, if there is memory for it.
    pub(crate) fn keep(&mut self, n: BlockNumber, bytes: &Block)
        ensures limit { limit_of self.new ≡ limit_of self.old }
        ensures kept { ComesFirstOrNot n bytes.now self.old self.new }
    {
        let Some(room) = self.room(bytes) else {
            self.refused.note(&());
            return;
        };
        match self.rooms.push(n, room) {
            Ok(Some((_, room))) => self.spare = Some(room),
            Ok(None) => {}
            Err(failed) => {
                self.spare = Some(failed.value.1);
                self.refused.note(&());
            }
        }
    }

    /// Gives block n these bytes: in place if it is kept, and otherwise as a new block, if there is
    /// memory.
    pub(crate) fn set(&mut self, n: BlockNumber, bytes: &Block)
        ensures { UsesBlock n bytes.now self.old self.new }
    {
        if !self.change(n, bytes) {
            self.keep(n, bytes);
        }
    }

    /// Does the same with adjacent blocks from block n on, one after another.
    pub(crate) fn set_run(&mut self, n: BlockNumber, blocks: &[Block])
        requires { n + length blocks.now < 2 ^ 32 }
        ensures { UsesBlocks n blocks.now (length blocks.now) self.old self.new }
    {
        let mut at = n;
        for block in blocks {
            self.set(at, block);
            at += 1;
        }
    }

    /// Stops keeping block n.
    pub(crate) fn forget(&mut self, n: BlockNumber)
        ensures entries { entries_of self.new ≡ remove_entry (nat_eq n) (entries_of self.old) }
        ensures gone { keeps n (entries_of self.new) ≡ false }
        ensures settings { Settings self.old self.new }
    {
        if self.rooms.len() > 0 {
            if let Some(room) = self.rooms.pop(&n) {
                self.spare = Some(room);
            }
        }
    }

    /// Stops keeping `count` adjacent blocks, from the first one on.
    pub(crate) fn forget_run(&mut self, first: BlockNumber, count: u32)
        requires { first + count < 2 ^ 32 }
        ensures entries { entries_of self.new ≡ without_run first count (entries_of self.old) }
        ensures gone { (i : ℕ) → i < count → keeps (first + i) (entries_of self.new) ≡ false }
        ensures settings { Settings self.old self.new }
    {
        for i in 0..count {
            self.forget(first + i);
        }
    }
}
