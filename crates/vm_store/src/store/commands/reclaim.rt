//! The command that frees the blocks that no version needs.
use crate::store::Store;
use vm_disk::Disk;
use vm_types::{Answer, Command, Refusal};

impl<D: Disk> Store<D> {
    ghost use Rattle.vm_store.specs.Commands.{Performs};

    /// Frees each block that neither the committed nor the working entries reach.
    #[inline(never)]
    pub(super) fn reclaim(&mut self) -> Result<Answer, Refusal>
        ensures { Performs self.old self.new Command.Reclaim result }
    {
        self.mark_all()?;
        self.parts.series = None;
        Ok(Answer::Done)
    }
}
