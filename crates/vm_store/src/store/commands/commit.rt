//! The command that makes the working entries the committed ones.
use crate::store::Store;
use crate::versions::write_entries;
use vm_catalog::publish;
use vm_disk::Disk;
use vm_types::{Answer, Command, Refusal};

impl<D: Disk> Store<D> {
    ghost use Rattle.vm_store.specs.Commands.{Performs};

    /// Makes the working entries the committed ones.
    #[inline(never)]
    pub(super) fn commit(&mut self) -> Result<Answer, Refusal>
        ensures { Performs self.old self.new Command.Commit result }
    {
        write_entries(&mut self.parts.entries, self.parts.working.as_slice());
        match publish(
            &mut self.disk,
            self.parts.slot_name,
            self.parts.blocks,
            &self.parts.entries,
        ) {
            Ok(()) => {
                self.parts.slot_name = self.parts.slot_name.other();
                self.parts.kept = self.parts.blocks;
                self.parts.committed.copy_from(&self.parts.working);
                self.parts.series = None;
                self.parts.marked = false;
                Ok(Answer::Done)
            }
            Err(_) => Err(Refusal::Device),
        }
    }
}
