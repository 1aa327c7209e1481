//! The queries for the differences between two versions, for an alternative's changes since its
//! base, and for its conflicts with its parent.
ghost use Rattle.std.specs.Prelude.{◌+◌};
ghost use Rattle.vm_types.specs.Queries.{IsListing, changes_in, conflicts_in};
ghost use Rattle.vm_types.specs.Versions.{delta_at};
ghost use Rattle.vm_store.specs.Parts.{diff_at};

use crate::sides::{ThreeRoots, conflicts_of};
use crate::store::Store;
use std::alloc::Global;
use vm_diff::{changed, changed_part};
use vm_disk::Disk;
use vm_types::{At, Changes, Conflicts, Key, Name, Of, Refusal};

impl<D: Disk> Store<D> {
    ghost use Rattle.vm_store.specs.Queries.{Queries};
    ghost use Rattle.vm_store.specs.Store.{ReadsAtMost};
    ghost use Rattle.vm_store.specs.Shared.{unshared_at, unshared_of, unshared_on_sides, unshared_part};

    /// The changes from one version in the working state to another, by rising keys. If the first
    /// of them is not there, the refusal is for that one.
    pub fn diff(&mut self, alloc: Global, first: &At, second: &At) -> Result<Changes, Refusal>
        ensures query { Queries self.old self.new result
            (λ s. IsListing result (delta_at s.working first.now second.now)) }

        // It makes at most as many reads as there are blocks that only one of the two trees has.
        ensures bound { ReadsAtMost self.old self.new
            (λ s holds. unshared_at holds.rests first.now second.now) }
    {
        self.ready()?;
        let before = self.parts.working.root_at(first)?;
        let after = self.parts.working.root_at(second)?;
        Ok(changed(alloc, &mut self.disk, self.parts.blocks, before, after)?)
    }

    /// The changes from one version in the working state to another at the keys from one to
    /// another, both included, by rising keys. There are none if the first key is above the second.
    /// If the first version is not there, the refusal is for that one.
    pub fn diff_part(
        &mut self,
        alloc: Global,
        first: &At,
        second: &At,
        low: Key,
        high: Key,
    ) -> Result<Changes, Refusal>
        ensures query { Queries self.old self.new result
            (λ s. IsListing result (diff_at s.working first.now second.now low high)) }

        // It makes at most as many reads as there are blocks that have a record of the part under
        // them and belong to only one of the two trees, and 8 more for each tree.
        ensures bound { ReadsAtMost self.old self.new
            (λ s holds. unshared_part holds.rests low high first.now second.now + 16) }
    {
        self.ready()?;
        let from = self.parts.working.root_at(first)?;
        let to = self.parts.working.root_at(second)?;
        Ok(changed_part(
            alloc,
            &mut self.disk,
            self.parts.blocks,
            from,
            to,
            low,
            high,
        )?)
    }

    /// What changed in the working state of an alternative since its base, by rising keys.
    pub fn changes(&mut self, alloc: Global, alt: &Name) -> Result<Changes, Refusal>
        ensures query { Queries self.old self.new result
            (λ s. IsListing result (changes_in s.working alt.now)) }

        // It makes at most as many reads as there are blocks that only one of its base and its
        // current tree has.
        ensures bound { ReadsAtMost self.old self.new (λ s holds. unshared_of holds.rests alt.now) }
    {
        let base = At {
            alt: *alt,
            of: Of::Base,
        };
        let current = At {
            alt: *alt,
            of: Of::Current,
        };
        self.diff(alloc, &base, &current)
    }

    /// The keys at which the working states of an alternative and of its parent are in conflict,
    /// rising, with the three values. Returns `IsTop` if the alternative has no parent.
    pub fn conflicts(&mut self, alloc: Global, alt: &Name) -> Result<Conflicts, Refusal>
        ensures query { Queries self.old self.new result
            (λ s. IsListing result (conflicts_in s.working alt.now)) }

        // It makes at most as many reads as there are blocks that only one of its base and its
        // parent's current tree has, together with those that only one of its base and its current
        // tree has.
        ensures bound { ReadsAtMost self.old self.new
            (λ s holds. unshared_on_sides holds.rests alt.now) }
    {
        self.ready()?;
        let (own, parent) = self.parts.working.pair_of(alt)?;
        let roots = ThreeRoots {
            base: own.base,
            parent: parent.current,
            own: own.current,
        };
        conflicts_of(alloc, &mut self.disk, self.parts.blocks, roots)
    }
}
