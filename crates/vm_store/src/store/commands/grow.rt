//! Growing a store.
ghost use Rattle.std.specs.Prelude.{◌≡◌, ◌≤◌, IfErr, OnOk};
ghost use Rattle.vm_disk.specs.Disk.{Enlarges};

use crate::store::Store;
use vm_alloc::{Baseline, Marks};
use vm_disk::Disk;
use vm_types::{Answer, Command, MAX_BLOCKS, Refusal};

impl<D: Disk> Store<D> {
    ghost use Rattle.vm_store.specs.Commands.{Performs};
    ghost use Rattle.vm_store.specs.Store.{disk_of, GrowsOn, IsHonest, IsNoLonger, IsSameButDisk};

    /// Grows the store to `blocks` blocks in all. Memory for the held and the marked blocks is
    /// allocated before the disk is asked for blocks, so that nothing has to be undone.
    #[inline(never)]
    pub(super) fn grow(&mut self, blocks: u32) -> Result<Answer, Refusal>
        ensures { Performs self.old self.new (Command.Grow blocks) result }
    {
        if blocks <= self.parts.blocks || blocks > MAX_BLOCKS {
            return Err(Refusal::BadSize);
        }
        let Ok(held) = self.parts.held.extended(self.alloc, blocks) else {
            return Err(Refusal::Memory);
        };
        let Ok(marks) = Marks::new(self.alloc, blocks) else {
            return Err(Refusal::Memory);
        };
        let Ok(before) = Baseline::new(self.alloc, blocks) else {
            return Err(Refusal::Memory);
        };
        self.lengthen(blocks)?;
        self.parts.grow_to(blocks, held, marks, before);
        self.parts.series = None;
        Ok(Answer::Done)
    }

    /// Lengthens the disk if it has fewer than `blocks` blocks.
    fn lengthen(&mut self, blocks: u32) -> Result<(), Refusal>
        ensures same { IsSameButDisk self.old self.new }
        ensures any { GrowsOn (result ≡ Err Refusal.Device) self.old self.new }
        ensures no_more { IsNoLonger self.old self.new blocks }
        ensures all { OnOk result (blocks ≤ (D.state (disk_of self.new)).blocks) }
        ensures only { IfErr result (λ refusal. refusal ≡ Refusal.Device) }
        ensures longer { IsHonest self.new
            → Enlarges (D.state (disk_of self.old)) (D.state (disk_of self.new)) }
    {
        if self.disk.blocks() < blocks {
            let Ok(()) = self.disk.extend(blocks) else {
                return Err(Refusal::Device);
            };
        }
        Ok(())
    }
}
