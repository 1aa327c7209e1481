//! The commands that change only entries: those that make, drop and go back to alternatives and
//! checkpoints.
ghost use Rattle.vm_store.specs.Answers.{ChangesEntriesAlone};

use crate::store::Store;
use vm_disk::Disk;
use vm_types::{Answer, Command, Refusal};

impl<D: Disk> Store<D> {
    ghost use Rattle.vm_store.specs.Commands.{Performs};

    /// Carries out one of them. It makes no device call.
    #[inline(never)]
    pub(super) fn change_entries(&mut self, command: &Command<'_>) -> Result<Answer, Refusal>
        requires { ChangesEntriesAlone command.now }
        ensures { Performs self.old self.new command.now result }
    {
        let answer = self.parts.working.change_by(command)?;
        self.parts.series = None;
        self.parts.marked = false;
        Ok(answer)
    }
}
