//! A map in a tree on its own disk, for rows.
use super::words::Wrong;
use std::alloc::Global;
use std::mem;
use vm_alloc::{Baseline, Held, Marks};
use vm_disk::{FuseDisk, MemDisk};
use vm_tree::Root;

/// More device calls than any row makes.
const NEVER: u32 = 1_000_000;

/// A disk in memory that counts device calls, and may fail one.
pub(super) type Device = FuseDisk<MemDisk>;

/// The sizes of trees in the rows: children of an inner block, and levels.
#[derive(Clone, Copy)]
pub(super) enum Sizes {
    /// 256 and 8, as in the store.
    Store,
    /// 3 and 8.
    DeepThrees,
    /// 4 and 8.
    DeepFours,
    /// 4 and 2.
    Fours,
    /// 3 and 2.
    Threes,
    /// 3 and 1.
    Flat,
}

#[derive(Drop)]
pub(super) struct Bench {
    pub(super) disk: Device,
    pub(super) held: Held,
    pub(super) marks: Marks,
    pub(super) root: Root,
    /// The roots that were kept as `a`, `b` and `c`, and how many blocks were free then.
    pub(super) kept: [Root; 3],
    pub(super) free: u32,
    /// The blocks that stand as they are, if the others are changed in their places.
    pub(super) base: Option<Baseline>,
    pub(super) sizes: Sizes,
    /// How many device calls there had been when they were last asked for.
    pub(super) seen: u32,
}

impl Bench {
    /// An empty map on a blank disk of this many blocks.
    pub(super) fn new(alloc: Global, blocks: u32) -> Result<Bench, Wrong> {
        if blocks < 64 || blocks > 16_384 {
            return Err(Wrong::Unreadable);
        }
        let disk = MemDisk::new(alloc, blocks)?;
        Ok(Bench {
            disk: FuseDisk::once(disk, NEVER, [0; 4096]),
            held: Held::new(alloc, blocks)?,
            marks: Marks::new(alloc, blocks)?,
            root: Root::default(),
            kept: [Root::default(); 3],
            free: 0,
            base: None,
            sizes: Sizes::Store,
            seen: 0,
        })
    }

    /// How many device calls were made.
    pub(super) fn calls(&self) -> u32 {
        self.disk.calls()
    }

    /// How many were made since they were last asked for.
    pub(super) fn new_calls(&mut self) -> u32 {
        let calls = self.calls();
        let before = mem::replace(&mut self.seen, calls);
        calls.saturating_sub(before)
    }

    /// Makes the disk fail once, after this many device calls from now.
    pub(super) fn fail_after(&mut self, alloc: Global, passes: u32) -> Result<(), Wrong> {
        if passes > NEVER {
            return Err(Wrong::Unreadable);
        }
        let blank = FuseDisk::once(MemDisk::new(alloc, 64)?, NEVER, [0; 4096]);
        let disk = mem::replace(&mut self.disk, blank);
        self.disk = FuseDisk::once(disk.into_inner(), passes, [0; 4096]);
        self.seen = 0;
        Ok(())
    }
}
