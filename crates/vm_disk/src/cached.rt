//! A disk that caches the most recently used blocks of another.
ghost use Rattle.std.specs.Prelude.{◌≡◌, ◌<◌, true, IfOk, IfErr};
ghost use Rattle.vm_disk.specs.Kept.{AreOf, entries_of};

use crate::disk::{DeviceFault, Disk, Need};
use crate::history::History;
use crate::kept::Kept;
use crate::rooms::Room;
use std::alloc::Global;
use std::num::NonZeroUsize;
use vm_types::{Block, BlockNumber};

/// Keeps the most recently used blocks of the disk below. A read of a kept block does not reach the
/// disk below; every write and every sync does.
///
/// Memory for the bytes of a block is taken when it is kept, until the cache is full. From then on,
/// a new block takes the spare frame, and the frame of the evicted block becomes the spare one. If
/// memory is refused, the block is not kept, and the call is served.
///
/// A block from below is read into the desk, a frame that is then kept with it and replaced by
/// another one. A block from below that is loaded with `Need::Once` stays on the desk and evicts
/// nothing. The loaded block is the one used last, or the one on the desk if that was not kept.
#[derive(Drop)]
pub struct CachedDisk<D: Disk> {
    inner: D,
    kept: Kept,
    desk: Room,
    on_desk: bool,
    reads: History<()>,
    ghost right: { (D.state inner).honest ≡ true → AreOf (D.state inner).now.contents (entries_of kept) },
}

impl<D: Disk> CachedDisk<D> {
    ghost use Rattle.vm_disk.specs.Cached.{inner_of, IsEmptyOver};

    /// Keeps up to `capacity` blocks of the disk below. Takes memory for the order of all of them
    /// and for the bytes of two. If memory is refused, the disk comes back.
    pub fn new(alloc: Global, inner: D, capacity: usize) -> Result<CachedDisk<D>, D>
        requires { 0 < capacity }
        ensures ok { IfOk result (IsEmptyOver inner capacity) }
        ensures refused { IfErr result (λ disk. disk ≡ inner) }
    {
        let Some(limit) = NonZeroUsize::new(capacity) else {
            return Err(inner);
        };
        match (Kept::new(alloc, limit), Box::new(alloc, [0; 4096])) {
            (Ok(kept), Ok(desk)) => Ok(CachedDisk {
                inner,
                kept,
                desk,
                on_desk: false,
                reads: History::new(),
            }),
            _ => Err(inner),
        }
    }

    /// The disk below, to look at.
    pub fn inner(&self) -> &D
        ensures { result.now ≡ inner_of self.now }
    {
        &self.inner
    }

    /// The disk below. The kept blocks are dropped.
    pub fn into_inner(self) -> D
        ensures { result ≡ inner_of self }
    {
        self.inner
    }
}

impl<D: Disk> Disk for CachedDisk<D> {
    ghost use Rattle.vm_disk.specs.Cached.{cached_state, cached_hand, cached_does};

    ghost state = { cached_state D.state };

    ghost hand = { cached_hand };

    ghost does = { cached_does D.state };

    ghost whole = { λ disk honest. D.whole disk.inner honest };

    ghost small = { λ disk. D.small disk.inner };

    fn blocks(&self) -> u32 {
        self.inner.blocks()
    }

    fn read(&mut self, n: BlockNumber, into: &mut Block) -> Result<(), DeviceFault> {
        self.load(n, Need::Again)?;
        *into = *self.at_hand();
        Ok(())
    }

    fn load(&mut self, n: BlockNumber, need: Need) -> Result<(), DeviceFault> {
        self.reads.note(&());
        if self.kept.promote(n) {
            self.on_desk = false;
            return Ok(());
        }
        self.inner.read(n, &mut self.desk)?;
        match need {
            Need::Again => {
                self.on_desk = !self.kept.keep_room(n, &mut self.desk);
                Ok(())
            }
            Need::Once => {
                self.on_desk = true;
                Ok(())
            }
        }
    }

    fn at_hand(&self) -> &Block {
        if self.on_desk {
            return &self.desk;
        }
        match self.kept.first() {
            Some(bytes) => bytes,
            None => &self.desk,
        }
    }

    fn write(&mut self, n: BlockNumber, from: &Block) -> Result<(), DeviceFault> {
        match self.inner.write(n, from) {
            Ok(()) => {
                self.kept.set(n, from);
                Ok(())
            }
            Err(fault) => {
                self.kept.forget(n);
                Err(fault)
            }
        }
    }

    fn write_run(&mut self, n: BlockNumber, blocks: &[Block]) -> Result<(), DeviceFault> {
        match self.inner.write_run(n, blocks) {
            Ok(()) => {
                self.kept.set_run(n, blocks);
                Ok(())
            }
            Err(fault) => {
                self.kept.forget_run(n, blocks.len() as u32);
                Err(fault)
            }
        }
    }

    fn sync(&mut self) -> Result<(), DeviceFault> {
        self.inner.sync()
    }

    fn extend(&mut self, blocks: u32) -> Result<(), DeviceFault> {
        self.inner.extend(blocks)
    }
}
