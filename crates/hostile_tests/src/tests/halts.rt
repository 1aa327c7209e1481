//! A run that is stopped at one device call after another, and what a crash may leave there.
use super::image::Image;
use super::layers::Layer;
use super::runs::{Due, Left, NEVER, Scene, run};
use std::alloc::Global;
use testkit::{Fill, Wrong};
use vm_disk::{Disk, MemDisk};
use vm_types::Block;

/// The contents of a block that a run has torn. No store writes them.
const TORN: Block = [0x5A; 4096];

/// What a crash leaves in each block that is not synced.
pub const FILLS: [Fill; 4] = [Fill::Synced, Fill::Written, Fill::Byte(0), Fill::Byte(0xFF)];

/// What is left in the blocks that are not synced, and in the one whose write is stopped.
#[derive(Drop)]
pub struct Filling {
    pub torn: Block,
    pub blocks: Vec<(u32, Block)>,
}

/// The end of a run, to look at.
#[derive(Drop)]
struct Moment {
    image: Image,
    disk: MemDisk,
    due: Option<Due>,
}

/// A scene that is stopped after this many calls, what its disk held at the last sync before, and
/// the same a call later.
#[derive(Drop)]
pub struct Halt {
    pub passes: u32,
    pub synced: Image,
    here: Moment,
    later: Moment,
}

fn stopped_at<D: Layer>(alloc: Global, scene: &Scene, passes: u32) -> Result<Moment, Wrong> {
    let Left { mut disk, due, .. } = run::<D>(alloc, scene, passes, &TORN)?;
    Ok(Moment {
        image: Image::of(alloc, &mut disk)?,
        disk,
        due,
    })
}

impl Halt {
    /// A scene that is stopped after this many calls, if its disk held this at the last sync.
    pub(super) fn at<D: Layer>(
        alloc: Global,
        scene: &Scene,
        passes: u32,
        synced: Image,
    ) -> Result<Halt, Wrong> {
        Ok(Halt {
            passes,
            synced,
            here: stopped_at::<D>(alloc, scene, passes)?,
            later: stopped_at::<D>(alloc, scene, passes.saturating_add(1))?,
        })
    }

    /// What a crash may show, or nothing if all calls have passed.
    pub(super) fn due(&self) -> Option<Due> {
        self.here.due
    }

    /// Whether the call that is stopped is a sync that makes blocks durable.
    fn is_sync(&self) -> bool {
        let (here, later) = (&self.here.disk, &self.later.disk);
        for n in 0..here.blocks() {
            if here.is_dirty(n) && !later.is_dirty(n) {
                return true;
            }
        }
        false
    }

    /// How many blocks a crash is sure to leave, and how many it may leave.
    pub(super) fn sizes(&self) -> (u32, u32) {
        (self.here.disk.sure(), self.here.disk.blocks())
    }

    /// The same, stopped one call later.
    pub(super) fn next<D: Layer>(self, alloc: Global, scene: &Scene) -> Result<Halt, Wrong> {
        let is_sync = self.is_sync();
        let Halt {
            passes,
            synced,
            here,
            later,
        } = self;
        let passes = passes.saturating_add(1);
        Ok(Halt {
            passes,
            synced: if is_sync { here.image } else { synced },
            here: later,
            later: stopped_at::<D>(alloc, scene, passes.saturating_add(1))?,
        })
    }

    /// What is left in this block, if it held anything at the time: a new block held nothing at the
    /// last sync.
    fn bytes(&self, n: u32, fill: Fill) -> Option<Block> {
        match fill {
            Fill::Synced => self.synced.get(n).copied(),
            Fill::Byte(byte) => Some([byte; 4096]),
            Fill::Written if self.here.image.block(n) == TORN => self.later.image.get(n).copied(),
            Fill::Written => self.here.image.get(n).copied(),
        }
    }

    /// What is left in the blocks that are not synced. Those that are omitted keep their contents.
    pub(super) fn filling(&self, alloc: Global, fill: Fill) -> Result<Filling, Wrong> {
        let mut blocks = Vec::new(alloc);
        let mut torn = [0; 4096];
        for n in 0..self.here.disk.blocks() {
            if self.here.disk.is_dirty(n)
                && let Some(bytes) = self.bytes(n, fill)
            {
                blocks.push((n, bytes))?;
                if self.here.image.block(n) == TORN {
                    torn = bytes;
                }
            }
        }
        Ok(Filling { torn, blocks })
    }

    /// The disk after a crash at the call that is stopped.
    pub(super) fn crash<D: Layer>(
        &self,
        alloc: Global,
        scene: &Scene,
        fill: Fill,
    ) -> Result<MemDisk, Wrong> {
        let filling = self.filling(alloc, fill)?;
        let left = run::<D>(alloc, scene, self.passes.min(NEVER), &filling.torn)?;
        Ok(left.disk.crash(&filling.blocks))
    }

    /// The same, if this many blocks are left.
    pub(super) fn crash_short<D: Layer>(
        &self,
        alloc: Global,
        scene: &Scene,
        fill: Fill,
        blocks: u32,
    ) -> Result<MemDisk, Wrong> {
        let filling = self.filling(alloc, fill)?;
        let left = run::<D>(alloc, scene, self.passes.min(NEVER), &filling.torn)?;
        if blocks < left.disk.sure() || blocks > left.disk.blocks() {
            return Err(Wrong::Device);
        }
        Ok(left.disk.crash_short(&filling.blocks, blocks))
    }
}
