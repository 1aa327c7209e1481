//! Running a list of commands.
ghost use Rattle.std.specs.Prelude.{◌≡◌, ◌≢◌, true, false, [], length, All, Err, Some, None};
ghost use Rattle.vm_store.specs.Commands.{EndsWithDevice, IsolatesOthers, KeepsCommits, NoneIsDevice, RunsInTurn, StandsAfterAll, StaysGuardedInTurn};

use super::{Store, is_device};
use std::alloc::Global;
use vm_disk::Disk;
use vm_types::{Answer, Command, Refusal};

/// Why a run ended before its last command.
#[derive(Clone, Copy, Debug, PartialEq, Eq)]
pub enum Stop {
    /// The store had already failed.
    Failed,
    /// Memory for the answers could not be allocated. No command was applied.
    Memory,
    /// The last answer is that the device failed.
    Device,
}

impl<D: Disk> Store<D> {
    ghost use Rattle.vm_store.specs.Store.{has_failed, GrowsOn};

    /// Carries out commands in order, up to one at which the device fails. The list of answers is
    /// allocated as a whole before the first command.
    pub fn run(
        &mut self,
        alloc: Global,
        commands: &[Command<'_>],
    ) -> (Vec<Result<Answer, Refusal>>, Option<Stop>)
        // On any disk.
        ensures any { GrowsOn (result.1 ≡ Some Stop.Device) self.old self.new }
        ensures failed { has_failed self.old ≡ true
            → (result.1 ≡ Some Stop.Failed) × (result.0.items ≡ []) × (self.new ≡ self.old) }
        ensures only_then { has_failed self.old ≡ false → result.1 ≢ Some Stop.Failed }
        ensures memory { result.1 ≡ Some Stop.Memory
            → (result.0.items ≡ []) × (self.new ≡ self.old) }
        ensures device { result.1 ≡ Some Stop.Device
            → (has_failed self.new ≡ true) × EndsWithDevice result.0.items }
        ensures no_device { result.1 ≢ Some Stop.Device → NoneIsDevice result.0.items }
        ensures no_failed { All (λ answer. answer ≢ Err Refusal.Failed) result.0.items }
        ensures whole { result.1 ≡ None
            → (length result.0.items ≡ length commands.now) × (has_failed self.new ≡ false) }

        // Each command is answered in turn and does to the store exactly what `apply` promises for
        // it, and the store represents what these answers leave.
        ensures answers { RunsInTurn self.old self.new commands.now result.0.items }
        ensures state { StandsAfterAll self.old self.new commands.now result.0.items }

        // In a store that has not failed, an alternative stays as it is if no command works on it
        // and no child is posted into it.
        ensures isolated { IsolatesOthers self.old self.new commands.now result.0.items }

        // If the run is stopped at any moment, a crash shows the committed tree after a prefix of
        // the commands that is empty or ends with a commit, and this prefix includes every commit
        // that was acknowledged.
        ensures kept { KeepsCommits self.old self.new commands.now result.0.items }

        // This holds because at each moment the slots that a crash may leave in use are complete,
        // clean, and held by the store as some of the commands left it: within a command, as
        // `answers` says, as that one does.
        ensures guarded { StaysGuardedInTurn self.old self.new commands.now result.0.items }
    {
        if self.failed {
            return (Vec::new(alloc), Some(Stop::Failed));
        }
        let Ok(mut answers) = Vec::with_capacity(alloc, commands.len()) else {
            return (Vec::new(alloc), Some(Stop::Memory));
        };
        for command in commands {
            let answer = self.apply(command);
            let failed = is_device(&answer);
            let Ok(()) = answers.push(answer) else {
                unreachable!();
            };
            if failed {
                return (answers, Some(Stop::Device));
            }
        }
        (answers, None)
    }
}
