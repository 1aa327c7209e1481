//! Blocks that no version needs: marking them, and whether enough of them are free.
ghost use Rattle.std.specs.Prelude.{◌≡◌, ◌↔◌, ◌<◌, ◌≤◌, ◌*◌, true, false, ℕ, List, length, OnOk, IfOk, IsTrue};
ghost use Rattle.vm_types.specs.State.{State, blocks_a_change};
ghost use Rattle.vm_tree.specs.Answers.{OkOrDevice};
ghost use Rattle.vm_tree.specs.Calls.{OnlyLooks};
ghost use Rattle.vm_check.specs.Marks.{IsClosed, MarksMore};
ghost use Rattle.vm_store.specs.Marks.{AreReached};
ghost use Rattle.vm_store.specs.Rest.{spare_of};

use super::Store;
use crate::version::Version;
use vm_alloc::Marks;
use vm_check::mark;
use vm_disk::Disk;
use vm_tree::TreeFault;
use vm_types::Refusal;

/// How many blocks must be spare for a record change: one more than it takes at most.
const BLOCKS_A_CHANGE: u32 = 17;

/// Marks all blocks under the trees of the versions, without memory.
fn mark_versions<D: Disk>(
    disk: &mut D,
    versions: &[Version],
    marks: &mut Marks,
) -> Result<(), TreeFault>
    requires { length marks.old ≤ (D.state disk.old).blocks }
    ensures looks { OnlyLooks result (D.state disk.old) (D.state disk.new) }
    ensures many { length marks.new ≡ length marks.old }

    // On trees the marks grow by exactly the blocks of the versions.
    ensures marked { (D.state disk.new).honest ≡ true → (bs : List ℕ)
        → AreReached (D.state disk.old).now.contents (length marks.old) versions.now bs
        → IsClosed (D.state disk.old).now.contents marks.old
        → OkOrDevice result (λ _. MarksMore bs marks.old marks.new) }
    ensures closed { (D.state disk.new).honest ≡ true → (bs : List ℕ)
        → AreReached (D.state disk.old).now.contents (length marks.old) versions.now bs
        → IsClosed (D.state disk.old).now.contents marks.old
        → OnOk result (IsClosed (D.state disk.old).now.contents marks.new) }
{
    for version in versions {
        mark(disk, &[version.current, version.base], marks)?;
    }
    Ok(())
}

impl<D: Disk> Store<D> {
    ghost use Rattle.vm_store.specs.Store.{Holds, free_of, IsHonest, MarksStore, SpareIsFree, is_marked};

    /// Holds exactly the blocks that the committed or the working entries reach, together with the
    /// store's own. An open series stays open: what only its alternative's records need was not
    /// held before the series, and is not now.
    #[inline(never)]
    pub(super) fn mark_all(&mut self) -> Result<(), Refusal>
        ensures marking { MarksStore result self.old self.new }
        ensures exact { IsHonest self.new → (s : State) (holds : Holds self.old s)
            → OnOk result (free_of self.new ≡ spare_of holds.rests) }
        ensures known { OnOk result (is_marked self.new ≡ true) }
    {
        self.parts.marks.clear();
        mark_versions(
            &mut self.disk,
            self.parts.committed.as_slice(),
            &mut self.parts.marks,
        )?;
        mark_versions(
            &mut self.disk,
            self.parts.working.as_slice(),
            &mut self.parts.marks,
        )?;
        self.parts.held.replace(&self.parts.marks);
        self.parts.before.keep_held(&self.parts.held);
        self.parts.marked = true;
        Ok(())
    }

    /// Whether enough blocks are free for this many record changes.
    pub(super) fn has_free(&self, changes: usize) -> bool
        ensures { IsTrue result ↔ (blocks_a_change * changes ≤ free_of self.now) }
    {
        changes <= (self.parts.held.free_count() / BLOCKS_A_CHANGE) as usize
    }

    /// Whether enough blocks are spare for this many record changes. If fewer are free, it marks
    /// what the entries reach, unless it is known that exactly the spare ones are free.
    pub(super) fn has_spare(&mut self, changes: usize) -> Result<bool, Refusal>
        ensures marking { MarksStore result self.old self.new }
        ensures enough { blocks_a_change * changes ≤ free_of self.old → self.new ≡ self.old }
        ensures once { is_marked self.old ≡ true → self.new ≡ self.old }
        ensures known { IfOk result (λ yes. yes ≡ false → is_marked self.new ≡ true) }
        ensures free { IfOk result (λ yes. IsTrue yes → blocks_a_change * changes ≤ free_of self.new) }
        ensures spare { IsHonest self.new → (s : State) (holds : Holds self.old s)
            → IfOk result (λ yes. IsTrue yes ↔ (blocks_a_change * changes ≤ spare_of holds.rests)) }
        ensures marked { IsHonest self.new → (s : State) (holds : Holds self.old s)
            → IfOk result (λ yes. yes ≡ false → free_of self.new ≡ spare_of holds.rests) }
        ensures exact { IsHonest self.new → free_of self.old < blocks_a_change * changes
            → SpareIsFree result self.old self.new }
    {
        if self.has_free(changes) {
            return Ok(true);
        }
        if self.parts.marked {
            return Ok(false);
        }
        self.mark_all()?;
        Ok(self.has_free(changes))
    }
}
