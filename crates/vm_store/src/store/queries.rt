//! Queries: they change nothing, and answer for the working state.
ghost use Rattle.std.specs.Prelude.{◌≡◌, true, false, IfErr, OnOk};

mod counts;
mod differences;
mod get;
mod list;
mod names;
mod tally;

use crate::store::Store;
use vm_disk::Disk;
use vm_types::Refusal;

impl<D: Disk> Store<D> {
    ghost use Rattle.vm_store.specs.Store.{has_failed};

    /// Refuses a call on a store that has failed.
    pub(super) fn ready(&self) -> Result<(), Refusal>
        ensures ok { OnOk result (has_failed self.now ≡ false) }
        ensures err { IfErr result (λ refusal. (refusal ≡ Refusal.Failed)
            × (has_failed self.now ≡ true)) }
    {
        if self.failed {
            return Err(Refusal::Failed);
        }
        Ok(())
    }
}
