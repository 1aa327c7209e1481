//! The command that removes a record.
ghost use Rattle.std.specs.Prelude.{◌≡◌, ◌≢◌, ◌⊎◌, ◌*◌, ◌≤◌, true, find, None, Some, Ok, OnErr, IfErr};
ghost use Rattle.vm_types.specs.State.{State, blocks_a_change};
ghost use Rattle.vm_types.specs.declared.command.Command.TheVariants.{Remove};
ghost use Rattle.vm_types.specs.Queries.{value_in};
ghost use Rattle.vm_store.specs.Answers.{IsEarly};
ghost use Rattle.vm_store.specs.Versions.{is_alternative_of};

use crate::series::{before_series, go_on, goes_on};
use crate::store::Store;
use crate::version::Version;
use crate::{FAN, LEVELS};
use vm_disk::Disk;
use vm_tree::{has, remove};
use vm_types::{Answer, Key, Name, Refusal};

impl<D: Disk> Store<D> {
    ghost use Rattle.vm_store.specs.Commands.{Performs};
    ghost use Rattle.vm_store.specs.Store.{has_failed, entries_of, free_of, series_of, Carries, Holds, IsHonest, GoesOn, EarlyKeeps, FirstReads, FullAgain, FullLeavesSpare, TakesUpTo};

    /// Removes a record from the alternative. If its series goes on and enough blocks are free,
    /// there is only one descent to the record.
    #[inline(never)]
    pub(super) fn remove(&mut self, alt: &Name, key: Key) -> Result<Answer, Refusal>
        ensures { Performs self.old self.new (Remove alt.now key) result }
    {
        let Some(version) = self.parts.working.alternative(alt) else {
            return Err(Refusal::NoSuchAlternative);
        };
        if goes_on(&self.parts.series, alt) && self.has_free(1) {
            return self.remove_in_series(alt, version, key, Refusal::NoSuchRecord);
        }
        self.remove_after_look(alt, version, key)
    }

    /// Looks for the record first, so that an absent one marks no blocks and begins no series.
    #[inline(never)]
    fn remove_after_look(
        &mut self,
        alt: &Name,
        version: Version,
        key: Key,
    ) -> Result<Answer, Refusal>
        requires { find (is_alternative_of alt.now) (entries_of self.old).1 ≡ Some version }
        ensures any { GoesOn (result ≡ Err Refusal.Device) self.old self.new }
        ensures failed { has_failed self.new ≡ has_failed self.old }
        ensures never { (result ≢ Err Refusal.Failed) × (result ≢ Err Refusal.Memory) }
        ensures same { OnErr result (entries_of self.new ≡ entries_of self.old) }
        ensures unchanged { EarlyKeeps result self.old self.new }
        ensures marked { IsHonest self.new → FullLeavesSpare result self.old self.new }
        ensures once { IsHonest self.new → FullAgain result self.old self.new }
        ensures reads { IsHonest self.new → FirstReads result self.old self.new }
        ensures free { TakesUpTo 8 result self.old self.new }
        ensures carried { IsHonest self.new → (s : State) (holds : Holds self.old s)
            → Carries self.old self.new s holds (Remove alt.now key) result }
    {
        let root = version.current;
        if !has(&mut self.disk, self.parts.blocks, root, key)? {
            return Err(Refusal::NoSuchRecord);
        }
        if !self.has_spare(1)? {
            return Err(Refusal::Full);
        }
        go_on(
            &mut self.parts.series,
            &mut self.parts.changes,
            &mut self.parts.before,
            &self.parts.held,
            alt,
        );
        self.remove_in_series(alt, version, key, Refusal::Damaged(root.block))
    }

    /// Removes a record from the alternative whose series goes on, or from one if no series does,
    /// or answers that it is missing. The blocks that the series took are changed in their places.
    fn remove_in_series(
        &mut self,
        alt: &Name,
        version: Version,
        key: Key,
        missing: Refusal,
    ) -> Result<Answer, Refusal>
        requires found { find (is_alternative_of alt.now) (entries_of self.old).1 ≡ Some version }
        requires series { (series_of self.old ≡ Some alt.now) ⊎ (series_of self.old ≡ None) }
        requires room { blocks_a_change * 1 ≤ free_of self.old }
        requires device { missing ≢ Refusal.Device }
        requires never { (missing ≢ Refusal.Failed) × (missing ≢ Refusal.Memory) × (missing ≢ Refusal.Full) }
        ensures any { GoesOn (result ≡ Err Refusal.Device) self.old self.new }
        ensures failed { has_failed self.new ≡ has_failed self.old }
        ensures never { (result ≢ Err Refusal.Failed) × (result ≢ Err Refusal.Memory) × (result ≢ Err Refusal.Full) }
        ensures same { OnErr result (entries_of self.new ≡ entries_of self.old) }
        ensures free { TakesUpTo 8 result self.old self.new }
        ensures early { IfErr result (λ refusal. IsEarly refusal → refusal ≡ missing) }
        ensures reads { IsHonest self.new → FirstReads result self.old self.new }
        ensures unchanged { EarlyKeeps result self.old self.new }
        ensures carried { IsHonest self.new → (s : State) (holds : Holds self.old s)
            → (missing ≡ Refusal.NoSuchRecord) ⊎ (value_in s.working alt.now key ≢ Ok None)
            → Carries self.old self.new s holds (Remove alt.now key) result }
    {
        let removed = remove::<D, FAN, LEVELS>(
            &mut self.disk,
            &mut self.parts.held,
            before_series(&self.parts.series, &self.parts.before),
            version.current,
            key,
        )?;
        let Some(root) = removed else {
            return Err(missing);
        };
        self.parts.marked = false;
        self.parts.working.set_current(alt, root);
        Ok(Answer::Done)
    }
}
