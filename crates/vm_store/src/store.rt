//! A store, and its commands and queries.
ghost use Rattle.std.specs.Prelude.{◌≡◌, ◌↔◌, ◌≤◌, true, false, IsTrue};
ghost use Rattle.vm_disk.specs.Moments.{Leaves};
ghost use Rattle.vm_store.specs.Shown.{Shows};

mod command_list;
mod commands;
mod copies;
mod new_store;
mod parts;
mod queries;
mod recovery;
mod spare;

pub use command_list::Stop;
pub use copies::copy;
pub use new_store::format;
use parts::Parts;
pub use recovery::{open, open_surveyed, open_whole};
use std::alloc::Global;
use vm_disk::Disk;
use vm_types::{Answer, Command, Refusal};

/// Whether the device failed in a command.
fn is_device(answer: &Result<Answer, Refusal>) -> bool
    ensures { IsTrue result ↔ (answer.now ≡ Err Refusal.Device) }
{
    matches!(answer, Err(Refusal::Device))
}

/// A store on a disk: what is committed there, and what commands have made of it since.
pub struct Store<D: Disk> {
    disk: D,
    alloc: Global,
    parts: Parts,
    failed: bool,
    ghost inside: { parts.blocks ≤ (D.state disk).blocks },
}

impl<D: Disk> Store<D> {
    ghost use Rattle.vm_store.specs.Commands.{CarriesOut};
    ghost use Rattle.vm_store.specs.Store.{disk_of, has_failed, ClosesWith};

    /// Carries out one command. After an answer `Device`, the store answers `Failed` to every call
    /// except `close`: close it, and open the disk again.
    pub fn apply(&mut self, command: &Command<'_>) -> Result<Answer, Refusal>
        ensures refused { has_failed self.old ≡ true
            → (result ≡ Err Refusal.Failed) × (self.new ≡ self.old) }
        ensures done { has_failed self.old ≡ false
            → CarriesOut self.old self.new command.now result }
    {
        if self.failed {
            return Err(Refusal::Failed);
        }
        let answer = self.dispatch(command);
        self.failed = is_device(&answer);
        answer
    }

    /// Gives the disk back. Uncommitted changes are gone.
    pub fn close(self) -> D
        ensures disk { result ≡ disk_of self }
        ensures shown { ClosesWith self result (λ seen. Shows (D.state result).now.contents seen) }

        // A crash after it leaves what was committed.
        ensures crash { ClosesWith self result
            (λ seen. Leaves (λ x. Shows x seen) (D.state result).now) }
    {
        let Store {
            disk,
            alloc: _,
            parts: _,
            failed: _,
        } = self;
        disk
    }
}
