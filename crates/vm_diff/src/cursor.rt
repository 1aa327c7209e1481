//! A walk through a tree, by rising keys.
ghost use Rattle.std.specs.Prelude.{◌≡◌, ◌≢◌, ◌+◌, ◌<◌, ◌≤◌, [], ◌∷◌, length, drop, option_copied, IsFalse, IsTrue, IfSome, OnOk};
ghost use Rattle.vm_types.specs.Bytes.{longest};
ghost use Rattle.vm_types.specs.Places.{place};
ghost use Rattle.vm_tree.specs.Calls.{OnlyLooks};
ghost use Rattle.vm_diff.specs.Walk.{Walk, past_record, walk_of};
ghost use Rattle.vm_diff.specs.Ahead.{PassedBoth, first_top, tops_in};
ghost use Rattle.vm_diff.specs.Front.{front_of, next_of};
ghost use Rattle.vm_diff.specs.Front.Front.{Top};
ghost use Rattle.vm_diff.specs.Opened.{Begins, GoesPast, HasNoValue, HasValue, IsIntoRecords, IsIntoTops, IsNextValue, OpensLeaf, OpensNode, Stays};

use crate::children::Children;
use crate::front::Next;
use crate::part::Part;
use crate::records::Records;
use std::marker::Model;
use vm_disk::Disk;
use vm_tree::{Root, TreeFault};
use vm_types::Key;

/// A walk through a tree: the records of the open leaf, and then the subtrees that are not open yet,
/// those of each level in the inner block one level above. The root is the only child at its own
/// level.
#[derive(Drop)]
pub(crate) struct Cursor {
    records: Records,
    levels: [Children; 8],
}

impl Model for Cursor {
    ghost use Rattle.vm_diff.specs.Walk.{Walk};
    ghost use Rattle.vm_diff.specs.Ahead.{tops_in};

    ghost Value = { Walk };

    ghost use Rattle.std.specs.Prelude.{◌≡◌, length};

    ghost view = { λ c. record { pending = c.records; tops = tops_in 0 c.levels } };

    ghost invariant = { λ c. length c.levels ≡ 8 };
}

/// The top of the next subtree, of those at each level.
fn next_top(levels: &[Children; 8]) -> Option<Root>
    ensures { result ≡ first_top (tops_in 0 levels.now) }
{
    'levels: for level in 0..8 {
        if let Some(child) = levels[level].first() {
            return Some(Root {
                block: child.block,
                level: level as u8,
                low: child.low,
            });
        }
    }
    None
}

impl Cursor {
    /// A walk at its end. It has buffers for nine blocks, so it is made where it stays, and begun
    /// there.
    pub(crate) fn empty() -> Cursor
        ensures { result ≡ walk_of [] }
    {
        Cursor {
            records: Records::new(),
            levels: [
                Children::new(),
                Children::new(),
                Children::new(),
                Children::new(),
                Children::new(),
                Children::new(),
                Children::new(),
                Children::new(),
            ],
        }
    }

    /// Makes a walk that is at its end go through the tree under a root. False if the root's level
    /// is one that no tree has. The walk then stays at its end; it also does if the tree begins
    /// above the part.
    pub(crate) fn begin(&mut self, root: Root, part: Part) -> bool
        requires { self.old ≡ walk_of [] }
        ensures none { IsFalse result → (root.block ≢ 0) × (7 < root.level) }
        ensures end { IsFalse result → self.new ≡ walk_of [] }
        ensures begun { IsTrue result → Begins (place part.high) root self.new }
    {
        if root.block == 0 {
            return true;
        }
        if root.level > 7 {
            return false;
        }
        if part.high.place() < root.low.place() {
            return true;
        }
        self.levels[root.level as usize].hold(root.low, root.block);
        true
    }

    /// What comes next in the walk.
    #[inline(always)]
    pub(crate) fn next(&self) -> Next
        ensures { result ≡ next_of (front_of self.now) }
    {
        match self.records.key() {
            Some(key) => Next::Record(key),
            None => match next_top(&self.levels) {
                Some(top) => Next::Subtree(top),
                None => Next::End,
            },
        }
    }

    /// The bytes of the value of the next record.
    pub(crate) fn value(&self) -> &[u8]
        ensures value { IsNextValue result.now self.now }
        ensures short { length result.now ≤ longest }
    {
        self.records.value()
    }

    /// Passes a record.
    pub(crate) fn take(&mut self)
        ensures { self.new ≡ past_record self.old }
    {
        self.records.pass();
    }

    /// The bytes of the key's value, if its record comes next.
    pub(crate) fn value_at(&self, key: Key) -> Option<&[u8]>
        ensures there { HasValue (option_copied result) key self.now }
        ensures none { HasNoValue (option_copied result) key self.now }
        ensures short { IfSome result (λ bytes. length bytes.now ≤ longest) }
    {
        match self.records.key() {
            Some(low) if low.place() == key.place() => Some(self.records.value()),
            _ => None,
        }
    }

    /// Passes the key's record, if it comes next.
    pub(crate) fn pass_at(&mut self, key: Key)
        ensures there { GoesPast key self.old self.new }
        ensures none { Stays key self.old self.new }
    {
        match self.records.key() {
            Some(low) if low.place() == key.place() => self.records.pass(),
            _ => {}
        }
    }

    /// Passes a subtree.
    pub(crate) fn skip(&mut self, top: Root)
        requires { front_of self.old ≡ Top top }
        ensures { self.new ≡ record { pending = self.old.pending; tops = drop 1 self.old.tops } }
    {
        self.levels[top.level as usize].pass();
    }

    /// Opens the leaf that comes next. Its records of the part then come next.
    pub(crate) fn open_leaf<D: Disk>(
        &mut self,
        disk: &mut D,
        blocks: u32,
        part: Part,
        top: Root,
    ) -> Result<(), TreeFault>
        requires blocks { blocks ≤ (D.state disk.old).blocks }
        requires front { front_of self.old ≡ Top top }
        requires level { top.level ≡ 0 }
        ensures looks { OnlyLooks result (D.state disk.old) (D.state disk.new) }
        ensures once { (D.state disk.new).reads ≤ (D.state disk.old).reads + 1 }
        ensures few { OnOk result (IsIntoRecords self.old self.new) }
        ensures only { OpensLeaf result (D.state disk.old) (D.state disk.new)
            blocks (place part.low) (place part.high) top self.old self.new }
    {
        self.levels[top.level as usize].pass();
        self.records.read(disk, blocks, part, top.block)
    }

    /// Opens the inner block that comes next. The subtrees under it take its place, except those
    /// with nothing of the part.
    pub(crate) fn open_node<D: Disk>(
        &mut self,
        disk: &mut D,
        blocks: u32,
        part: Part,
        top: Root,
    ) -> Result<(), TreeFault>
        requires blocks { blocks ≤ (D.state disk.old).blocks }
        requires front { front_of self.old ≡ Top top }
        requires level { 0 < top.level }
        ensures looks { OnlyLooks result (D.state disk.old) (D.state disk.new) }
        ensures once { (D.state disk.new).reads ≤ (D.state disk.old).reads + 1 }
        ensures few { OnOk result (IsIntoTops top.level self.old self.new) }
        ensures only { OpensNode result (D.state disk.old) (D.state disk.new)
            blocks (place part.low) (place part.high) top self.old self.new }
    {
        self.levels[top.level as usize].pass();
        self.levels[top.level as usize - 1].read(disk, blocks, part, top.level, top.block)
    }
}

/// Passes the records that come next in both walks, as far as they are equal, and tells whether
/// neither has any left then.
pub(crate) fn pass_records(one: &mut Cursor, other: &mut Cursor) -> bool
    ensures passed { PassedBoth one.old.pending other.old.pending
        one.new.pending other.new.pending }
    ensures tops { (one.new.tops ≡ one.old.tops) × (other.new.tops ≡ other.old.tops) }
    ensures none { IsTrue result → (one.new.pending ≡ []) × (other.new.pending ≡ []) }
{
    one.records.pass_shared(&mut other.records);
    one.records.is_empty() && other.records.is_empty()
}

/// Passes the subtrees that the rest of both walks begins with, as far as they are in one inner
/// block of each, and tells whether there are any.
pub(crate) fn pass_tops(one: &mut Cursor, other: &mut Cursor) -> bool
    ensures passed { PassedBoth one.old.tops other.old.tops one.new.tops other.new.tops }
    ensures pending { (one.new.pending ≡ one.old.pending)
        × (other.new.pending ≡ other.old.pending) }
    ensures some { IsTrue result → length one.new.tops < length one.old.tops }
{
    let (Some(here), Some(there)) = (next_top(&one.levels), next_top(&other.levels)) else {
        return false;
    };
    if here.level != there.level {
        return false;
    }
    let level = here.level as usize;
    one.levels[level].pass_shared(&mut other.levels[level])
}
