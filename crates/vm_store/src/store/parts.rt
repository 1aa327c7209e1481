//! A store without its disk.
ghost use Rattle.std.specs.Prelude.{◌≡◌, ◌<◌, ◌≤◌, ◌^◌, false, length, take, vec_capacity};
ghost use Rattle.vm_types.specs.declared.sizes.TheConstants.{MAX_BLOCKS, MAX_VERSIONS, MIN_BLOCKS};

use crate::versions::Versions;
use vm_alloc::{Baseline, Held, Marks};
use vm_block::{Entry, SlotName};
use vm_types::Name;

/// What is known of a store, without its disk.
#[derive(Drop)]
pub struct Parts {
    pub blocks: u32,
    // How many of them were committed. The others came by a Grow since then.
    pub kept: u32,
    pub slot_name: SlotName,
    pub entries: Vec<Entry>,
    pub committed: Versions,
    pub working: Versions,
    pub held: Held,
    // The marks of a marking. Between calls it is only memory for the next one.
    pub marks: Marks,
    // While a series of changes is open, the blocks that were held before it and still are.
    pub before: Baseline,
    // The alternative whose records were changed by every command since the series began, if one is
    // open.
    pub series: Option<Name>,
    // How many changes were made outside a series since the last one began.
    pub changes: u32,
    // Exactly the spare blocks are free: blocks were marked, and since then nothing was taken or given
    // back.
    pub marked: bool,
    ghost least: { MIN_BLOCKS ≤ blocks },
    ghost most: { blocks ≤ MAX_BLOCKS },
    ghost kept_least: { MIN_BLOCKS ≤ kept },
    ghost kept_most: { kept ≤ blocks },
    ghost bits: { length held ≡ blocks },
    ghost mark_bits: { length marks ≡ blocks },
    ghost before_bits: { length before ≡ blocks },
    ghost room_entries: { MAX_VERSIONS ≤ vec_capacity entries },
}

impl Parts {
    /// Makes the committed entries the working ones, and drops the blocks that were not committed.
    pub fn roll_back(&mut self)
        ensures blocks { self.new.blocks ≡ self.old.kept }
        ensures kept { self.new.kept ≡ self.old.kept }
        ensures slot_name { self.new.slot_name ≡ self.old.slot_name }
        ensures committed { self.new.committed ≡ self.old.committed }
        ensures working { self.new.working ≡ self.old.committed }
        ensures held { self.new.held ≡ take self.old.kept self.old.held }
        ensures marked { self.new.marked ≡ false }
    {
        self.blocks = self.kept;
        self.held.truncate(self.kept);
        self.marks.truncate(self.kept);
        self.before.truncate(self.kept);
        self.marked = false;
        self.working.copy_from(&self.committed);
    }

    /// Grows to `blocks` blocks, of which `held` says which ones are held.
    pub fn grow_to(&mut self, blocks: u32, held: Held, marks: Marks, before: Baseline)
        requires more { self.old.blocks ≤ blocks }
        requires most { blocks ≤ MAX_BLOCKS }
        requires bits { length held ≡ blocks }
        requires mark_bits { length marks ≡ blocks }
        requires before_bits { length before ≡ blocks }
        ensures blocks { self.new.blocks ≡ blocks }
        ensures kept { self.new.kept ≡ self.old.kept }
        ensures slot_name { self.new.slot_name ≡ self.old.slot_name }
        ensures committed { self.new.committed ≡ self.old.committed }
        ensures working { self.new.working ≡ self.old.working }
        ensures held { self.new.held ≡ held }
        ensures marked { self.new.marked ≡ false }
    {
        self.blocks = blocks;
        self.held = held;
        self.marks = marks;
        self.before = before;
        self.marked = false;
    }
}
