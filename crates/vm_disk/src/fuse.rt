//! A disk that fails at a call chosen by a test.
ghost use Rattle.std.specs.Prelude.{◌≡◌, ◌+◌, ◌-◌, ◌<◌, ◌≤◌, ◌^◌, ◌||◌, true, false, min, if◌then◌else◌, length, IsErr};

use crate::disk::{DeviceFault, Disk, Need};
use crate::history::History;
use vm_types::{Block, BlockNumber};

/// Passes a given number of device calls to the disk below, and then either fails the next one and
/// goes on, or fails every call from there. A failed call does not reach the disk below, except
/// that a failed write leaves other bytes in its block. Its device calls take no memory.
#[derive(Drop)]
pub struct FuseDisk<D: Disk> {
    inner: D,
    passes: u32,
    stops: bool,
    torn: Block,
    calls: u32,
    blown: bool,
    failed: History<()>,
    missed: History<()>,
}

impl<D: Disk> FuseDisk<D> {
    ghost use Rattle.vm_disk.specs.Past.{noted};
    ghost use Rattle.vm_disk.specs.Fuse.{inner_of, calls_of, is_blown, failed_of, fails_next, Burns, IsSet};

    /// Passes `k` device calls, fails the next, and goes on. `k` must not be the greatest u32,
    /// because the count of calls stops there.
    pub fn once(inner: D, k: u32, torn: Block) -> FuseDisk<D>
        requires { k < 2 ^ 32 - 1 }
        ensures { IsSet D.state inner k false torn result }
    {
        FuseDisk::set(inner, k, false, torn)
    }

    /// Passes `k` device calls, and fails every one from there.
    pub fn stop(inner: D, k: u32, torn: Block) -> FuseDisk<D>
        requires { k < 2 ^ 32 - 1 }
        ensures { IsSet D.state inner k true torn result }
    {
        FuseDisk::set(inner, k, true, torn)
    }

    fn set(inner: D, passes: u32, stops: bool, torn: Block) -> FuseDisk<D>
        ensures { IsSet D.state inner passes stops torn result }
    {
        FuseDisk {
            inner,
            passes,
            stops,
            torn,
            calls: 0,
            blown: false,
            failed: History::new(),
            missed: History::new(),
        }
    }

    /// How many device calls were made so far. The count stops at the greatest u32.
    pub fn calls(&self) -> u32
        ensures { result ≡ calls_of self.now }
    {
        self.calls
    }

    /// Whether the fuse has failed a call.
    pub fn blown(&self) -> bool
        ensures { result ≡ is_blown self.now }
    {
        self.blown
    }

    /// The disk below, to look at.
    pub fn inner(&self) -> &D
        ensures { result.now ≡ inner_of self.now }
    {
        &self.inner
    }

    /// The disk below.
    pub fn into_inner(self) -> D
        ensures { result ≡ inner_of self }
    {
        self.inner
    }

    /// Counts a call, and tells whether the fuse fails it.
    fn fails(&mut self) -> bool
        ensures fails { result ≡ fails_next self.old }
        ensures inner { inner_of self.new ≡ inner_of self.old }
        ensures burns { Burns self.old self.new }
        ensures missed { self.new.missed ≡ self.old.missed }
        ensures failed { failed_of self.new ≡ failed_of self.old + (if result then 1 else 0) }
    {
        let fails = if self.stops {
            self.passes <= self.calls
        } else {
            self.calls == self.passes
        };
        self.calls = self.calls.saturating_add(1);
        if fails {
            self.blown = true;
            self.failed.note(&());
        }
        fails
    }
}

impl<D: Disk> Disk for FuseDisk<D> {
    ghost use Rattle.vm_disk.specs.Fuse.{fuse_state, fuse_hand, fuse_does};

    ghost state = { fuse_state D.state };

    ghost hand = { fuse_hand D.hand };

    ghost does = { fuse_does D.state };

    ghost whole = { λ disk honest. D.whole disk.inner honest };

    ghost small = { λ disk. D.small disk.inner };

    fn blocks(&self) -> u32 {
        self.inner.blocks()
    }

    fn read(&mut self, n: BlockNumber, into: &mut Block) -> Result<(), DeviceFault> {
        if self.fails() {
            self.missed.note(&());
            return Err(DeviceFault);
        }
        self.inner.read(n, into)
    }

    fn load(&mut self, n: BlockNumber, need: Need) -> Result<(), DeviceFault> {
        if self.fails() {
            self.missed.note(&());
            return Err(DeviceFault);
        }
        self.inner.load(n, need)
    }

    fn at_hand(&self) -> &Block {
        self.inner.at_hand()
    }

    fn write(&mut self, n: BlockNumber, from: &Block) -> Result<(), DeviceFault> {
        if self.fails() {
            let _ = self.inner.write(n, &self.torn);
            return Err(DeviceFault);
        }
        self.inner.write(n, from)
    }

    fn write_run(&mut self, n: BlockNumber, blocks: &[Block]) -> Result<(), DeviceFault> {
        self.write_each(n, blocks)
    }

    fn sync(&mut self) -> Result<(), DeviceFault> {
        if self.fails() {
            return Err(DeviceFault);
        }
        self.inner.sync()
    }

    fn extend(&mut self, blocks: u32) -> Result<(), DeviceFault> {
        if !self.fails() {
            return self.inner.extend(blocks);
        }
        Err(DeviceFault)
    }
}
