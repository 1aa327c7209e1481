//! The query for how far an alternative is from its base and from its parent.
ghost use Rattle.vm_store.specs.Answers.{IsDueOrWanting};

use crate::sides::{ThreeRoots, tally_of};
use crate::store::Store;
use crate::tally::Tally;
use std::alloc::Global;
use vm_disk::Disk;
use vm_types::{Name, Refusal};

impl<D: Disk> Store<D> {
    ghost use Rattle.vm_store.specs.Queries.{Queries};
    ghost use Rattle.vm_store.specs.Store.{ReadsAtMost};
    ghost use Rattle.vm_store.specs.Shared.{unshared_on_sides};
    ghost use Rattle.vm_store.specs.Tallies.{tally_in};

    /// How many records an alternative changed since its base, how many its parent changed since
    /// then, how many are in conflict, and whether it can be posted, in the working state.
    ///
    /// Returns `NoSuchAlternative` if the alternative is not there, `IsTop` if it has no parent,
    /// and `Memory` if there is none for lists of what differs.
    pub fn tally(&mut self, alloc: Global, alt: &Name) -> Result<Tally, Refusal>
        // The numbers are the model's, and so are the refusals, unless the device fails or memory
        // cannot be allocated.
        ensures query { Queries self.old self.new result
            (λ s. IsDueOrWanting result (tally_in s.working alt.now)) }

        // It makes at most as many reads as there are blocks that only one of its base and its
        // parent's current tree has, together with those that only one of its base and its current
        // tree has.
        ensures bound { ReadsAtMost self.old self.new
            (λ s holds. unshared_on_sides holds.rests alt.now) }
    {
        self.ready()?;
        let (own, parent) = self.parts.working.pair_of(alt)?;
        let roots = ThreeRoots {
            base: own.base,
            parent: parent.current,
            own: own.current,
        };
        tally_of(alloc, &mut self.disk, self.parts.blocks, roots)
    }
}
