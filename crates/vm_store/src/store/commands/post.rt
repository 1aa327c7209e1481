//! The command that makes an alternative's records those of its parent.
use crate::store::Store;
use vm_diff::same;
use vm_disk::Disk;
use vm_types::{Answer, Command, Name, Refusal};

impl<D: Disk> Store<D> {
    ghost use Rattle.vm_store.specs.Commands.{Performs};

    /// Gives the parent the alternative's records, which also become the alternative's base. The
    /// parent must have no other records than that base.
    #[inline(never)]
    pub(super) fn post(&mut self, alt: &Name) -> Result<Answer, Refusal>
        ensures { Performs self.old self.new (Command.Post alt.now) result }
    {
        let (own, parent) = self.parts.working.pair_of(alt)?;
        if !same(&mut self.disk, self.parts.blocks, own.base, parent.current)? {
            return Err(Refusal::NotMerged);
        }
        self.parts.working.set_current(&parent.name, own.current);
        self.parts.working.set_base(alt, own.current);
        self.parts.series = None;
        self.parts.marked = false;
        Ok(Answer::Done)
    }
}
