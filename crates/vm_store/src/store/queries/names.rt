//! The queries for the names of alternatives and of checkpoints. They make no device call.
ghost use Rattle.std.specs.Prelude.{◌≡◌, true, false, Ok, Err, IfOk, IfErr};
ghost use Rattle.vm_types.specs.Shape.{shape};
ghost use Rattle.vm_store.specs.Answers.{IsDueOrMemory, IsMemoryOr};
ghost use Rattle.vm_types.specs.Queries.{checkpoints_in};

use crate::store::Store;
use crate::versions::{alternatives_among, checkpoints_among};
use std::alloc::Global;
use vm_disk::Disk;
use vm_types::{Name, Refusal};

impl<D: Disk> Store<D> {
    ghost use Rattle.vm_store.specs.Store.{has_failed, InState};

    /// The alternatives of the working state, each with its parent, in order of creation. Makes no
    /// device call. Returns `Memory` if there is none for the list.
    pub fn alternatives(&self, alloc: Global) -> Result<Vec<(Name, Option<Name>)>, Refusal>
        ensures refused { has_failed self.now ≡ true → result ≡ Err Refusal.Failed }
        ensures only_then { has_failed self.now ≡ false
            → IfErr result (λ refusal. refusal ≡ Refusal.Memory) }
        ensures value { InState self.now (λ s. IfOk result (λ list. list.items ≡ shape s.working)) }
    {
        self.ready()?;
        alternatives_among(alloc, self.parts.working.as_slice())
    }

    /// The names of an alternative's checkpoints in the working state, in order of creation. Makes
    /// no device call. Returns `NoSuchAlternative` if the alternative is not there, and `Memory` if
    /// there is none for the list.
    pub fn checkpoints(&self, alloc: Global, alt: &Name) -> Result<Vec<Name>, Refusal>
        ensures refused { has_failed self.now ≡ true → result ≡ Err Refusal.Failed }
        ensures only_then { has_failed self.now ≡ false
            → IfErr result (λ r. IsMemoryOr r (r ≡ Refusal.NoSuchAlternative)) }
        ensures value { InState self.now
            (λ s. IfOk result (λ list. Ok list.items ≡ checkpoints_in s.working alt.now)) }
        ensures none { InState self.now
            (λ s. IfErr result (λ r. IsDueOrMemory r (checkpoints_in s.working alt.now))) }
    {
        self.ready()?;
        if self.parts.working.alternative(alt).is_none() {
            return Err(Refusal::NoSuchAlternative);
        }
        checkpoints_among(alloc, self.parts.working.as_slice(), alt)
    }
}
