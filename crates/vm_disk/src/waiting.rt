//! The blocks that wait to be written, and those that were written, as long as their frames are not
//! needed.
ghost use Rattle.std.specs.Prelude.{◌≡◌, ◌+◌, ◌<◌, ◌≤◌, ◌||◌, ◌&&◌, ℕ, None, Some, true, false, if◌then◌else◌, [], length, slice_index_or, nat_lt, nat_le, nat_eq, is_some, option_map, IfOk, IfSome, IfNone};
ghost use Rattle.std.specs.Bool.{OnTrue, OnFalse};
ghost use Rattle.std.specs.Map.{update};
ghost use Rattle.std.specs.NonZero.{non_zero_usize_get};
ghost use Rattle.std.specs.Option.{option_copied};
ghost use Rattle.vm_disk.specs.Kept.{first_in, rooms_in};

use crate::rooms::{Room, fill, find, newest, promote};
use lru::LruCache;
use std::alloc::{AllocError, Global};
use std::num::NonZeroUsize;
use vm_types::{Block, BlockNumber};

/// The maximum number of adjacent blocks that one call writes.
const AT_ONCE: u32 = 64;

/// Blocks with their bytes, in the order in which they were last written or loaded. The frame of a
/// block that no longer waits is used again. If none is spare, it is the frame of the block that
/// was written out first. Memory is taken if there is none.
#[derive(Drop)]
pub(crate) struct Waiting {
    alloc: Global,
    rooms: LruCache<BlockNumber, Room>,
    written: LruCache<BlockNumber, Room>,
    spare: Vec<Room>,
}

impl Waiting {
    ghost use Rattle.vm_disk.specs.Waiting.{bytes_for, known_for, waits, written_for, written_in, count_of, limit_of, ChangesOne, Drops, Gains, IsRun, KeepsNoMore, LosesRun, Settles, StopsWaiting};

    /// No blocks yet. Takes memory for the order of `capacity` blocks.
    pub(crate) fn new(alloc: Global, capacity: NonZeroUsize) -> Result<Waiting, AllocError>
        ensures empty { IfOk result (λ waiting. (n : ℕ) → bytes_for waiting n ≡ None) }
        ensures limit { IfOk result (λ waiting. limit_of waiting ≡ non_zero_usize_get capacity) }
        ensures none { IfOk result (λ waiting. written_in waiting ≡ []) }
    {
        Ok(Waiting {
            alloc,
            rooms: LruCache::new(alloc, capacity)?,
            written: LruCache::sparse(alloc, capacity)?,
            spare: Vec::new(alloc),
        })
    }

    /// The bytes that wait for block n.
    pub(crate) fn bytes(&self, n: BlockNumber) -> Option<&Block>
        ensures { option_copied result ≡ bytes_for self.now n }
    {
        find(&self.rooms, n)
    }

    /// The bytes with which block n was written, if it is kept.
    pub(crate) fn written_bytes(&self, n: BlockNumber) -> Option<&Block>
        ensures { option_copied result ≡ written_for self.now n }
    {
        find(&self.written, n)
    }

    /// The bytes that wait for block n, or else those with which it was written.
    pub(crate) fn known(&self, n: BlockNumber) -> Option<&Block>
        ensures { option_copied result ≡ known_for self.now n }
    {
        match self.bytes(n) {
            Some(bytes) => Some(bytes),
            None => self.written_bytes(n),
        }
    }

    /// Makes block n the most recently used waiting block, and tells whether it waits.
    pub(crate) fn use_waiting(&mut self, n: BlockNumber) -> bool
        ensures answer { result ≡ waits self.old n }
        ensures first { OnTrue result (first_in (rooms_in self.new.rooms) ≡ bytes_for self.old n) }
        ensures same { (k : ℕ) → bytes_for self.new k ≡ bytes_for self.old k }
        ensures limit { limit_of self.new ≡ limit_of self.old }
        ensures written { self.new.written ≡ self.old.written }
    {
        promote(&mut self.rooms, n)
    }

    /// The bytes of the most recently used waiting block.
    pub(crate) fn newest_waiting(&self) -> Option<&Block>
        ensures { option_copied result ≡ first_in (rooms_in self.now.rooms) }
    {
        newest(&self.rooms)
    }

    /// The least recently used waiting block.
    pub(crate) fn oldest(&self) -> Option<u32>
        ensures some { IfSome result (λ n. waits self.now n ≡ true) }
        ensures none { IfNone result ((n : ℕ) → waits self.now n ≡ false) }
    {
        match self.rooms.peek_lru() {
            Some((n, _)) => Some(*n),
            None => None,
        }
    }

    /// Whether one more block may wait.
    pub(crate) fn has_place(&self) -> bool
        ensures { result ≡ nat_lt (count_of self.now) (limit_of self.now) }
    {
        self.rooms.len() < self.rooms.cap().get()
    }

    /// A frame with these bytes, unless memory for it is refused.
    fn room(&mut self, bytes: &Block) -> Option<Room>
        ensures bytes { IfSome result (λ room. room.value ≡ bytes.now) }
        ensures rooms { self.new.rooms ≡ self.old.rooms }
        ensures no_more { KeepsNoMore self.old self.new }
    {
        if let Some(mut room) = self.spare.pop() {
            fill(&mut room, bytes);
            return Some(room);
        }
        match self.written.pop_lru() {
            Some((_, mut room)) => {
                fill(&mut room, bytes);
                Some(room)
            }
            None => Box::new(self.alloc, *bytes).ok(),
        }
    }

    /// Gives block n these bytes, if it waits, and tells whether it does. Its last write is then
    /// the newest.
    pub(crate) fn change(&mut self, n: BlockNumber, bytes: &Block) -> bool
        ensures answer { result ≡ waits self.old n }
        ensures changed { OnTrue result (ChangesOne n (Some bytes.now) self.old self.new) }
        ensures missed { OnFalse result (self.new ≡ self.old) }
        ensures limit { limit_of self.new ≡ limit_of self.old }
        ensures written { written_in self.new ≡ written_in self.old }
    {
        match self.rooms.get_mut(&n) {
            Some(room) => {
                fill(room, bytes);
                true
            }
            None => false,
        }
    }

    /// Lets block n wait with these bytes, and tells whether it does. It does not if no more may
    /// wait, or if memory for it is refused.
    pub(crate) fn put(&mut self, n: BlockNumber, bytes: &Block) -> bool
        ensures placed { OnTrue result (ChangesOne n (Some bytes.now) self.old self.new) }
        ensures refused { OnFalse result (self.new.rooms ≡ self.old.rooms) }
        ensures limit { limit_of self.new ≡ limit_of self.old }
        ensures no_more { KeepsNoMore self.old self.new }
    {
        if !self.has_place() {
            return false;
        }
        let Some(room) = self.room(bytes) else {
            return false;
        };
        match self.rooms.push(n, room) {
            Ok(Some((_, room))) => {
                let _ = self.spare.push(room);
                true
            }
            Ok(None) => true,
            Err(failed) => {
                let _ = self.spare.push(failed.value.1);
                false
            }
        }
    }

    /// The frame of block n, if it waited. It waits no longer.
    fn take(&mut self, n: BlockNumber) -> Option<Room>
        ensures bytes { option_map (λ room. room.value) result ≡ bytes_for self.old n }
        ensures stops { StopsWaiting n self.old self.new }
        ensures written { self.new.written ≡ self.old.written }
    {
        if self.rooms.len() == 0 {
            return None;
        }
        self.rooms.pop(&n)
    }

    /// Stops keeping block n as a written one.
    fn forget_written(&mut self, n: BlockNumber)
        ensures rooms { self.new.rooms ≡ self.old.rooms }
        ensures drops { Drops n self.old self.new }
    {
        if self.written.len() > 0 {
            if let Some(room) = self.written.pop(&n) {
                let _ = self.spare.push(room);
            }
        }
    }

    /// Stops keeping any written block.
    pub(crate) fn forget_all_written(&mut self)
        ensures rooms { self.new.rooms ≡ self.old.rooms }
        ensures none { written_in self.new ≡ [] }
    {
        self.written.clear()
    }

    /// Keeps block n in this frame, which has its bytes, as the one written last, if there is
    /// memory for its entry.
    fn keep_written(&mut self, n: BlockNumber, room: Room)
        ensures rooms { self.new.rooms ≡ self.old.rooms }
        ensures gains { Gains n room.value self.old self.new }
    {
        self.forget_written(n);
        match self.written.push(n, room) {
            Ok(Some((_, room))) => {
                let _ = self.spare.push(room);
            }
            Ok(None) => {}
            Err(failed) => {
                let _ = self.spare.push(failed.value.1);
            }
        }
    }

    /// Marks block n, which was written as it waits, as no longer waiting, and keeps it as a
    /// written one.
    pub(crate) fn settle(&mut self, n: BlockNumber)
        ensures stops { StopsWaiting n self.old self.new }
        ensures settles { Settles (nat_eq n) self.old self.new }
    {
        match self.take(n) {
            Some(room) => self.keep_written(n, room),
            None => self.forget_written(n),
        }
    }

    /// Settles the blocks of a row, from the first one up to the one before the end.
    pub(crate) fn settle_run(&mut self, first: BlockNumber, end: BlockNumber)
        requires { first ≤ end }
        ensures gone { LosesRun first end self.old self.new }
        ensures limit { limit_of self.new ≡ limit_of self.old }
        ensures fewer { first < end
            → waits self.old first ≡ true
            → count_of self.new < count_of self.old }
        ensures settles { Settles (λ k. nat_le first k && nat_lt k end) self.old self.new }
    {
        for n in first..end {
            self.settle(n);
        }
    }

    /// Where the row of waiting blocks around block n begins, or a later block of that row.
    pub(crate) fn begin_run(&self, n: BlockNumber) -> u32
        ensures waits { waits self.now n ≡ true → waits self.now result ≡ true }
    {
        let mut first = n;
        while first > 0 && n - first < AT_ONCE / 2 && self.rooms.contains(&(first - 1)) {
            first -= 1;
        }
        first
    }

    /// Copies out the blocks that wait in a row from this one on, up to as many as one call writes.
    /// There are fewer if memory is refused.
    pub(crate) fn copy_run(&self, first: BlockNumber, run: &mut Vec<Block>)
        ensures { IsRun first run.new.items self.now }
    {
        run.clear();
        for n in first..first.saturating_add(AT_ONCE) {
            let Some(bytes) = self.bytes(n) else {
                return;
            };
            if run.push(*bytes).is_err() {
                return;
            }
        }
    }
}
