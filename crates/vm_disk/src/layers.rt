//! A disk, and over it the blocks that wait to be written or were written.
ghost use Rattle.std.specs.Prelude.{◌≡◌, ◌<◌, ◌≤◌, ℕ, true, false, None, IfOk, IfErr, OnOk, OnErr, IsOk};
ghost use Rattle.vm_disk.specs.Disk.{Counts, Reads, Writes, Syncs, Extends, Enlarges};
ghost use Rattle.std.specs.NonZero.{non_zero_usize_get};
ghost use Rattle.vm_disk.specs.Kept.{AreOf};
ghost use Rattle.vm_disk.specs.Waiting.{bytes_for, waits, written_in, count_of, limit_of};

use crate::disk::{DeviceFault, Disk, Need};
use crate::waiting::Waiting;
use std::alloc::Global;
use std::num::NonZeroUsize;
use vm_types::{Block, BlockNumber};

/// Where the loaded block is: the waiting block used last, a kept written block, or the block
/// loaded below.
#[derive(Clone, Copy)]
enum Hand {
    Waits,
    Kept(u32),
    Below,
}

/// A disk, and the blocks that wait to be written to it. Adjacent ones are copied and then written.
/// For the written blocks that are kept, the disk below holds the same bytes.
#[derive(Drop)]
pub(crate) struct Layers<D: Disk> {
    pub(crate) inner: D,
    waiting: Waiting,
    at: Hand,
    run: Vec<Block>,
    ghost inside: { (n : ℕ) → waits waiting n ≡ true → n < (D.state inner).blocks },
    ghost right: { (D.state inner).honest ≡ true
        → AreOf (D.state inner).now.contents (written_in waiting) },
}

impl<D: Disk> Layers<D> {
    ghost use Rattle.vm_disk.specs.Layers.{lower_of, waiting_of, layers_state, layers_hand, Acts, AnswersHere, FewerWait, MaySend, WaitNoMore};

    /// No block waits yet. If memory is refused, the disk comes back.
    pub(crate) fn new(alloc: Global, inner: D, capacity: NonZeroUsize) -> Result<Layers<D>, D>
        ensures ok { IfOk result (λ layers. lower_of layers ≡ inner) }
        ensures empty { IfOk result (λ layers. (n : ℕ) → bytes_for (waiting_of layers) n ≡ None) }
        ensures limit { IfOk result (λ layers.
            limit_of (waiting_of layers) ≡ non_zero_usize_get capacity) }
        ensures refused { IfErr result (λ disk. disk ≡ inner) }
    {
        match Waiting::new(alloc, capacity) {
            Ok(waiting) => Ok(Layers {
                inner,
                waiting,
                at: Hand::Below,
                run: Vec::new(alloc),
            }),
            Err(_) => Err(inner),
        }
    }

    /// Writes block n out, if it waits.
    fn send_alone(&mut self, n: BlockNumber) -> Result<(), DeviceFault>
        ensures sends { MaySend D.state result self.old self.new }
        ensures fewer { OnOk result (FewerWait n self.old self.new) }
        ensures no_more { WaitNoMore self.old self.new }
    {
        let Some(bytes) = self.waiting.bytes(n) else {
            return Ok(());
        };
        match self.inner.write(n, bytes) {
            Ok(()) => {
                self.waiting.settle(n);
                Ok(())
            }
            Err(fault) => {
                self.waiting.forget_all_written();
                Err(fault)
            }
        }
    }

    /// Writes block n out, if it waits, together with the waiting blocks around it. A block that
    /// waits alone is not copied for that.
    fn send(&mut self, n: BlockNumber) -> Result<(), DeviceFault>
        ensures sends { MaySend D.state result self.old self.new }
        ensures fewer { OnOk result (FewerWait n self.old self.new) }
        ensures no_more { WaitNoMore self.old self.new }
    {
        let first = self.waiting.begin_run(n);
        if first == n && self.waiting.bytes(n.saturating_add(1)).is_none() {
            return self.send_alone(n);
        }
        self.waiting.copy_run(first, &mut self.run);
        if self.run.is_empty() {
            return self.send_alone(n);
        }
        match self.inner.write_run(first, &self.run) {
            Ok(()) => {
                let end = first + self.run.len() as u32;
                self.waiting.settle_run(first, end);
                Ok(())
            }
            Err(fault) => {
                self.waiting.forget_all_written();
                Err(fault)
            }
        }
    }

    /// Writes out the least recently used waiting block with its neighbours, unless one more block
    /// may wait anyway.
    fn make_place(&mut self) -> Result<(), DeviceFault>
        ensures sends { MaySend D.state result self.old self.new }
        ensures no_more { WaitNoMore self.old self.new }
    {
        if self.waiting.has_place() {
            return Ok(());
        }
        match self.waiting.oldest() {
            Some(oldest) => self.send(oldest),
            None => Ok(()),
        }
    }

    /// Writes out every waiting block.
    fn send_all(&mut self) -> Result<(), DeviceFault>
        ensures sends { MaySend D.state result self.old self.new }
        ensures none { OnOk result ((n : ℕ) → waits (waiting_of self.new) n ≡ false) }
    {
        while let Some(n) = self.waiting.oldest() {
            self.send(n)?;
        }
        Ok(())
    }

    /// Reads block n from the waiting or kept blocks, or else from the disk below.
    pub(crate) fn read(&mut self, n: BlockNumber, into: &mut Block) -> Result<(), DeviceFault>
        requires { n < (layers_state D.state self.old).blocks }
        ensures acts { Acts D.state (Counts 0 result) (Reads n into.new result) self.old self.new }
        ensures hit { AnswersHere n result self.old self.new }
    {
        match self.waiting.known(n) {
            Some(bytes) => {
                *into = *bytes;
                Ok(())
            }
            None => self.inner.read(n, into),
        }
    }

    /// Loads block n from the waiting or kept blocks, or else from the disk below.
    pub(crate) fn load(&mut self, n: BlockNumber, need: Need) -> Result<(), DeviceFault>
        requires { n < (layers_state D.state self.old).blocks }
        ensures acts { Acts D.state (Counts 0 result) (Reads n (layers_hand D.hand self.new) result)
            self.old self.new }
        ensures hit { AnswersHere n result self.old self.new }
    {
        if self.waiting.use_waiting(n) {
            self.at = Hand::Waits;
            return Ok(());
        }
        match self.waiting.written_bytes(n) {
            Some(_) => {
                self.at = Hand::Kept(n);
                Ok(())
            }
            None => {
                self.at = Hand::Below;
                self.inner.load(n, need)
            }
        }
    }

    /// The loaded block.
    pub(crate) fn at_hand(&self) -> &Block
        ensures { result.now ≡ layers_hand D.hand self.now }
    {
        let used_last = match self.at {
            Hand::Waits => self.waiting.newest_waiting(),
            Hand::Kept(n) => self.waiting.written_bytes(n),
            Hand::Below => None,
        };
        match used_last {
            Some(bytes) => bytes,
            None => self.inner.at_hand(),
        }
    }

    /// Lets block n wait with these bytes, in place if it already waits. If too many would wait,
    /// the least recently used one is written out first. If memory is refused, block n itself is
    /// written.
    pub(crate) fn write(&mut self, n: BlockNumber, from: &Block) -> Result<(), DeviceFault>
        requires { n < (layers_state D.state self.old).blocks }
        ensures { Acts D.state (Counts 0 result) (Writes n from.now result) self.old self.new }
    {
        if self.waiting.put(n, from) {
            return Ok(());
        }
        if self.waiting.change(n, from) {
            return Ok(());
        }
        if let Err(fault) = self.make_place() {
            self.waiting.forget_all_written();
            // This makes block n dirty, too.
            let _ = self.inner.write(n, from);
            return Err(fault);
        }
        if self.waiting.put(n, from) {
            return Ok(());
        }
        self.waiting.forget_all_written();
        self.inner.write(n, from)
    }

    /// Writes out every waiting block, and syncs the disk below.
    pub(crate) fn sync(&mut self) -> Result<(), DeviceFault>
        ensures { Acts D.state (Counts 0 result) (Syncs result) self.old self.new }
    {
        self.send_all()?;
        self.inner.sync()
    }

    /// Lengthens the disk below.
    pub(crate) fn extend(&mut self, blocks: u32) -> Result<(), DeviceFault>
        requires { (layers_state D.state self.old).blocks ≤ blocks }
        ensures { Acts D.state (Extends blocks result) Enlarges self.old self.new }
    {
        self.inner.extend(blocks)
    }
}
