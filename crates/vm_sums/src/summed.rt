//! A disk whose blocks carry sums.
ghost use Rattle.std.specs.Prelude.{◌≡◌};

use crate::sum::exchange_sum;
use vm_disk::{DeviceFault, Disk, Need};
use vm_types::{Block, BlockNumber};

/// Shows each block of the disk below with the number in the place of its sum exchanged for that number XOR
/// the sum, and writes it so: zero there becomes the sum, and shows as zero again.
///
/// A block is exchanged when it is read from the disk below and when it is written to it, and at no other time.
#[derive(Drop)]
pub struct SummedDisk<D> {
    inner: D,
    hand: Block,
}

impl<D: Disk> SummedDisk<D> {
    ghost use Rattle.vm_sums.specs.Summed.{CrashesShow, inner_of, summed_state};

    /// A disk over the one below.
    pub fn new(inner: D) -> SummedDisk<D>
        ensures { inner_of result ≡ inner }
    {
        SummedDisk {
            inner,
            hand: [0; 4096],
        }
    }

    /// The disk below, to look at.
    pub fn inner(&self) -> &D
        ensures inner { result.now ≡ inner_of self.now }
        ensures crashes { CrashesShow (summed_state D.state self.now) (D.state (inner_of self.now)) }
    {
        &self.inner
    }

    /// The disk below.
    pub fn into_inner(self) -> D
        ensures inner { result ≡ inner_of self }
        ensures crashes { CrashesShow (summed_state D.state self) (D.state (inner_of self)) }
    {
        self.inner
    }
}

impl<D: Disk> Disk for SummedDisk<D> {
    ghost use Rattle.vm_sums.specs.Summed.{inner_of, summed_hand, summed_state, summed_whole};

    ghost state = { summed_state D.state };

    ghost hand = { summed_hand };

    ghost whole = { λ disk honest. summed_whole D.state disk (D.whole (inner_of disk) honest) };

    ghost small = { λ disk. D.small (inner_of disk) };

    fn blocks(&self) -> u32 {
        self.inner.blocks()
    }

    fn read(&mut self, n: BlockNumber, into: &mut Block) -> Result<(), DeviceFault> {
        self.inner.read(n, into)?;
        exchange_sum(n, into);
        Ok(())
    }

    fn load(&mut self, n: BlockNumber, _need: Need) -> Result<(), DeviceFault> {
        self.inner.read(n, &mut self.hand)?;
        exchange_sum(n, &mut self.hand);
        Ok(())
    }

    fn at_hand(&self) -> &Block {
        &self.hand
    }

    fn write(&mut self, n: BlockNumber, from: &Block) -> Result<(), DeviceFault> {
        let mut block = *from;
        exchange_sum(n, &mut block);
        self.inner.write(n, &block)
    }

    fn write_run(&mut self, n: BlockNumber, blocks: &[Block]) -> Result<(), DeviceFault> {
        self.write_each(n, blocks)
    }

    fn sync(&mut self) -> Result<(), DeviceFault> {
        self.inner.sync()
    }

    fn extend(&mut self, blocks: u32) -> Result<(), DeviceFault> {
        self.inner.extend(blocks)
    }
}
