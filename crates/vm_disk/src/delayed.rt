//! A disk that delays its writes.
ghost use Rattle.std.specs.Prelude.{◌≡◌, ◌<◌, ◌++◌, true, IfOk, IfErr, map};
ghost use Rattle.vm_disk.specs.Past.{noted};
ghost use Rattle.vm_disk.specs.Laid.{IsCovered, rests_before};
ghost use Rattle.vm_disk.specs.Layers.{lower_of, rest_of};

use crate::disk::{DeviceFault, Disk, Need};
use crate::history::History;
use crate::layers::Layers;
use std::alloc::Global;
use std::num::NonZeroUsize;
use std::snapshot::Snapshot;
use vm_types::{Block, BlockNumber};

/// Lets written blocks wait, and writes them to the disk below at a sync, or when too many would
/// wait. In that case the block that was written or loaded the longest ago is written out, together
/// with the waiting blocks right before and after it. A read looks among the waiting blocks first,
/// and then among the written ones. Written blocks stay until their frames are needed. All of them
/// go if a write below fails or if memory for one more waiting block is refused.
///
/// A waiting block takes the frame of one that no longer waits: a spare frame, or else that of the
/// block that was written out first. If there is none, memory is taken; if that is refused, the
/// block is written at once, and the call is served. A fault of the disk below is the answer of the
/// call that meets it. The blocks that waited then still wait, or were written.
#[derive(Drop)]
pub struct DelayedDisk<D: Disk> {
    layers: Layers<D>,
    past: History<Layers<D>>,
    reads: History<()>,
    first: Snapshot<D>,
    ghost covered: { (D.state (lower_of layers)).honest ≡ true
        → IsCovered (D.state (lower_of layers)) (rest_of D.state layers)
        (map (rest_of D.state) (noted past) ++ rests_before (D.state first.value).past) },
}

impl<D: Disk> DelayedDisk<D> {
    ghost use Rattle.vm_disk.specs.Delayed.{inner_of, delayed_state, IsIdleOver, FollowsBelow};

    /// Lets up to `capacity` blocks wait. Takes memory for the order of all of them. If memory is
    /// refused, the disk comes back.
    pub fn new(alloc: Global, inner: D, capacity: usize) -> Result<DelayedDisk<D>, D>
        requires { 0 < capacity }
        ensures ok { IfOk result (IsIdleOver D.state inner capacity) }
        ensures refused { IfErr result (λ disk. disk ≡ inner) }
    {
        let Some(limit) = NonZeroUsize::new(capacity) else {
            return Err(inner);
        };
        let first = Snapshot::of(&inner);
        let layers = Layers::new(alloc, inner, limit)?;
        Ok(DelayedDisk {
            layers,
            past: History::new(),
            reads: History::new(),
            first,
        })
    }

    /// The disk below, to look at. Whatever a crash of it leaves, a crash of this disk may leave,
    /// too, at the moment that the disk below was at or on its way from. While no block is dirty
    /// here, both hold the same.
    pub fn inner(&self) -> &D
        ensures inner { result.now ≡ inner_of self.now }
        ensures below { (delayed_state D.state self.now).honest ≡ true → FollowsBelow D.state self.now }
    {
        &self.layers.inner
    }

    /// The disk below. The waiting blocks are lost, as in a crash of this disk.
    pub fn into_inner(self) -> D
        ensures inner { result ≡ inner_of self }
        ensures below { (delayed_state D.state self).honest ≡ true → FollowsBelow D.state self }
    {
        self.layers.inner
    }
}

impl<D: Disk> Disk for DelayedDisk<D> {
    ghost use Rattle.vm_disk.specs.Delayed.{inner_of, delayed_state, delayed_hand, delayed_does, delayed_whole};

    ghost state = { delayed_state D.state };

    ghost hand = { delayed_hand D.hand };

    ghost does = { delayed_does D.state };

    ghost whole = { λ disk honest. delayed_whole D.state disk (D.whole (inner_of disk) honest) };

    ghost small = { λ disk. D.small (inner_of disk) };

    fn blocks(&self) -> u32 {
        self.layers.inner.blocks()
    }

    fn read(&mut self, n: BlockNumber, into: &mut Block) -> Result<(), DeviceFault> {
        self.reads.note(&());
        self.past.note(&self.layers);
        self.layers.read(n, into)
    }

    fn load(&mut self, n: BlockNumber, need: Need) -> Result<(), DeviceFault> {
        self.reads.note(&());
        self.past.note(&self.layers);
        self.layers.load(n, need)
    }

    fn at_hand(&self) -> &Block {
        self.layers.at_hand()
    }

    fn write(&mut self, n: BlockNumber, from: &Block) -> Result<(), DeviceFault> {
        self.past.note(&self.layers);
        self.layers.write(n, from)
    }

    fn write_run(&mut self, n: BlockNumber, blocks: &[Block]) -> Result<(), DeviceFault> {
        self.write_each(n, blocks)
    }

    fn sync(&mut self) -> Result<(), DeviceFault> {
        self.past.note(&self.layers);
        self.layers.sync()
    }

    fn extend(&mut self, blocks: u32) -> Result<(), DeviceFault> {
        self.past.note(&self.layers);
        self.layers.extend(blocks)
    }
}
