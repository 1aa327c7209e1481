//! The command that brings into an alternative what its parent changed.
use crate::change_list::make_changes;
use crate::series::{copy_held, if_copied};
use crate::sides::{ThreeRoots, plan_of_merge};
use crate::store::Store;
use vm_disk::Disk;
use vm_types::{Answer, Command, Key, Name, Refusal, Side};

impl<D: Disk> Store<D> {
    ghost use Rattle.vm_store.specs.Commands.{Performs};

    /// Changes the alternative's records to those of the merge, and makes the parent's records its
    /// base. The changes are made in the tree of the alternative or of its parent, whichever takes
    /// fewer. Everything that takes memory comes before a marking and before the first write.
    #[inline(never)]
    pub(super) fn merge(&mut self, alt: &Name, settled: &[(Key, Side)]) -> Result<Answer, Refusal>
        ensures { Performs self.old self.new (Command.Merge alt.now settled.now) result }
    {
        let (own, parent) = self.parts.working.pair_of(alt)?;
        let roots = ThreeRoots {
            base: own.base,
            parent: parent.current,
            own: own.current,
        };
        let plan = plan_of_merge(
            self.alloc,
            &mut self.disk,
            self.parts.blocks,
            roots,
            settled,
        )?;
        if !self.has_spare(plan.changes.len())? {
            return Err(Refusal::Full);
        }
        self.parts.series = None;
        self.parts.marked = false;
        let is_copied = copy_held(
            &mut self.parts.changes,
            plan.changes.len(),
            &mut self.parts.before,
            &self.parts.held,
        );
        let root = make_changes(
            &mut self.disk,
            &mut self.parts.held,
            if_copied(is_copied, &self.parts.before),
            roots.start(plan.start),
            &plan.changes,
        )?;
        self.parts.working.set_current(alt, root);
        self.parts.working.set_base(alt, parent.current);
        Ok(Answer::Merged(plan.edits))
    }
}
