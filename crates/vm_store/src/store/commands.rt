//! Commands: one file for each that has a body of its own.
//!
//! All except a put are kept out of line: their stack frames are large, and a caller with such a
//! command inlined would set up the frame at each line.

mod commit;
mod entries;
mod grow;
mod merge;
mod post;
mod put;
mod reclaim;
mod remove;
mod rollback;

use super::Store;
use vm_disk::Disk;
use vm_types::{Answer, Command, Refusal};

impl<D: Disk> Store<D> {
    ghost use Rattle.vm_store.specs.Commands.{Performs};

    /// Carries out one command. Noting that the device failed is left to `apply`.
    #[tactic(auto, using(crate::proofs::PerformLemmas::performs_same))]
    pub(super) fn dispatch(&mut self, command: &Command<'_>) -> Result<Answer, Refusal>
        ensures { Performs self.old self.new command.now result }
    {
        match command {
            Command::Put { alt, key, value } => self.put_value(alt, *key, value),
            Command::Remove { alt, key } => self.remove(alt, *key),
            Command::Merge { alt, settled } => self.merge(alt, settled.as_slice()),
            Command::Post { alt } => self.post(alt),
            Command::Commit => self.commit(),
            Command::Rollback => Ok(self.rollback()),
            Command::Reclaim => self.reclaim(),
            Command::Grow { blocks } => self.grow(*blocks),
            _ => self.change_entries(command),
        }
    }
}
