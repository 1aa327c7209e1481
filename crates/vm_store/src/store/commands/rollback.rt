//! The command that goes back to what was committed.
ghost use Rattle.std.specs.Prelude.{Ok};

use crate::store::Store;
use vm_disk::Disk;
use vm_types::{Answer, Command};

impl<D: Disk> Store<D> {
    ghost use Rattle.vm_store.specs.Commands.{Performs};

    /// Makes the committed entries the working ones, and drops the blocks that a Grow added since
    /// then. It makes no device call, takes no block and is never refused. The blocks that only the
    /// entries from before need stay held until the next marking.
    #[inline(never)]
    pub(super) fn rollback(&mut self) -> Answer
        ensures { Performs self.old self.new Command.Rollback (Ok result) }
    {
        self.parts.roll_back();
        self.parts.series = None;
        Answer::Done
    }
}
