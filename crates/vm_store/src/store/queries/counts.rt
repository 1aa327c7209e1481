//! The queries for how many blocks a store has, and how many of them are free. They make no device
//! call.
ghost use Rattle.std.specs.Prelude.{◌≡◌, ◌≤◌, true, false, Ok, Err, IfOk};
ghost use Rattle.vm_types.specs.State.{State};
ghost use Rattle.vm_store.specs.Rest.{spare_of};

use crate::store::Store;
use vm_disk::Disk;
use vm_types::Refusal;

impl<D: Disk> Store<D> {
    ghost use Rattle.vm_store.specs.Store.{blocks_of, free_of, has_failed, Holds};

    /// How many blocks the store has, including those of the slots. The next Commit keeps that
    /// number.
    pub fn blocks(&self) -> Result<u32, Refusal>
        ensures failed { has_failed self.now ≡ true → result ≡ Err Refusal.Failed }
        ensures counted { has_failed self.now ≡ false → result ≡ Ok (blocks_of self.now) }
        ensures value { has_failed self.now ≡ false → (s : State) → Holds self.now s
            → result ≡ Ok s.blocks }
    {
        self.ready()?;
        Ok(self.parts.blocks)
    }

    /// The number of free blocks. Free blocks are always spare. After an opening and after a
    /// Reclaim, every spare block is free; from then on, each block that is written is taken from
    /// them.
    pub fn free(&self) -> Result<u32, Refusal>
        ensures failed { has_failed self.now ≡ true → result ≡ Err Refusal.Failed }
        ensures counted { has_failed self.now ≡ false → result ≡ Ok (free_of self.now) }
        ensures spare { (s : State) (holds : Holds self.now s)
            → IfOk result (λ n. n ≤ spare_of holds.rests) }
    {
        self.ready()?;
        Ok(self.parts.held.free_count())
    }
}
