//! The children of an inner block that come next, in the block's bytes.
ghost use Rattle.std.specs.Prelude.{◌≡◌, ◌≢◌, ℕ, ◌+◌, ◌<◌, ◌≤◌, [], ◌∷◌, IsTrue, drop, length, OnOk};
ghost use Rattle.vm_types.specs.Places.{place};
ghost use Rattle.vm_block.specs.Row.{child_of, node_row};
ghost use Rattle.vm_tree.specs.Calls.{OnlyLooks};
ghost use Rattle.vm_diff.specs.Ahead.{PassedBoth, first_child};
ghost use Rattle.vm_diff.specs.Opened.{HoldsNode};
ghost use Rattle.vm_diff.specs.Rows.{AreSameRows};

use crate::part::Part;
use std::marker::Model;
use vm_block::{Child, MAX_CHILDREN, child_at, child_row, write_node};
use vm_disk::Disk;
use vm_tree::{TreeFault, node_into};
use vm_types::{Block, BlockNumber, Key};

/// The children of an inner block from one on, in the block's bytes.
#[derive(Drop)]
pub(crate) struct Children {
    bytes: Block,
    at: usize,
    count: usize,
}

impl Model for Children {
    ghost use Rattle.std.specs.Prelude.{List, ◌-◌, ◌≤◌};
    ghost use Rattle.vm_block.specs.declared.node.Child.{Child};

    ghost Value = { List Child };

    ghost use Rattle.vm_diff.specs.Rows.{children_from};
    ghost use Rattle.vm_block.specs.declared.sizes.TheConstants.{MAX_CHILDREN};

    ghost view = { λ c. children_from c.bytes c.at (c.count - c.at) };

    ghost invariant = { λ c. (c.at ≤ c.count) × (c.count ≤ MAX_CHILDREN) };
}

impl Children {
    /// No children.
    pub(crate) fn new() -> Children
        ensures { result ≡ [] }
    {
        Children {
            bytes: [0; 4096],
            at: 0,
            count: 0,
        }
    }

    /// Makes this the only child.
    pub(crate) fn hold(&mut self, low: Key, block: BlockNumber)
        ensures { self.new ≡ record { low = low; block = block } ∷ [] }
    {
        // From its place it is known that the key fits.
        let _ = low.place();
        write_node(1, &[Child { low, block }], &mut self.bytes);
        self.at = 0;
        self.count = 1;
    }

    /// The next child.
    pub(crate) fn first(&self) -> Option<Child>
        ensures { result ≡ first_child self.now }
    {
        if self.at < self.count {
            Some(child_at(&self.bytes, self.at))
        } else {
            None
        }
    }

    /// Passes a child.
    pub(crate) fn pass(&mut self)
        ensures { self.new ≡ drop 1 self.old }
    {
        if self.at < self.count {
            self.at += 1;
        }
    }

    /// Passes the children that both lists begin with, and tells whether there are any.
    pub(crate) fn pass_shared(&mut self, other: &mut Children) -> bool
        ensures passed { PassedBoth self.old other.old self.new other.new }
        ensures some { IsTrue result → length self.new < length self.old }
    {
        let (here, there) = (self.count - self.at, other.count - other.at);
        let most = if here < there { here } else { there };
        let shared = shared_children(&self.bytes, self.at, &other.bytes, other.at, most);
        self.at += shared;
        other.at += shared;
        shared > 0
    }

    /// Reads an inner block of this level. Its children come next, except those with nothing of the
    /// part under them.
    pub(crate) fn read<D: Disk>(
        &mut self,
        disk: &mut D,
        blocks: u32,
        part: Part,
        level: u8,
        block: BlockNumber,
    ) -> Result<(), TreeFault>
        requires { blocks ≤ (D.state disk.old).blocks }
        ensures looks { OnlyLooks result (D.state disk.old) (D.state disk.new) }
        ensures once { (D.state disk.new).reads ≤ (D.state disk.old).reads + 1 }
        ensures few { OnOk result (length self.new ≤ MAX_CHILDREN) }
        ensures only { HoldsNode result (D.state disk.old) (D.state disk.new)
            blocks (place part.low) (place part.high) level block self.new }
    {
        let count = node_into(disk, blocks, level, block, &mut self.bytes)?;
        let first = first_child_in(&self.bytes, 0, count, part.low);
        let end = end_of_children(&self.bytes, first, count, part.high);
        self.at = first;
        self.count = end;
        Ok(())
    }
}

/// The first of these children that may have something at a key or after it: the last one that
/// begins at the key or before it, or else the first.
fn first_child_in(bytes: &Block, at: usize, count: usize, low: Key) -> usize
    requires inside { at ≤ count }
    requires few { count ≤ MAX_CHILDREN }
    ensures from { at ≤ result }
    ensures most { result ≤ count }
    ensures passed { at < result → (result < count) × (place (child_of (node_row bytes.now result)).low ≤ place low) }
    ensures next { result + 1 < count → place low < place (child_of (node_row bytes.now (result + 1))).low }
{
    for i in at..count {
        if i + 1 == count {
            return i;
        }
        if low.place() < child_at(bytes, i + 1).low.place() {
            return i;
        }
    }
    count
}

/// The end of those of these children that begin at a key or before it.
fn end_of_children(bytes: &Block, at: usize, count: usize, high: Key) -> usize
    requires inside { at ≤ count }
    requires few { count ≤ MAX_CHILDREN }
    ensures from { at ≤ result }
    ensures most { result ≤ count }
    ensures within { (k : ℕ) → at ≤ k → k < result → place (child_of (node_row bytes.now k)).low ≤ place high }
    ensures above { result < count → place high < place (child_of (node_row bytes.now result)).low }
{
    for i in at..count {
        if high.place() < child_at(bytes, i).low.place() {
            return i;
        }
    }
    count
}

/// How many rows from these on are equal in two inner blocks, at most `most`.
fn shared_children(one: &Block, at: usize, other: &Block, other_at: usize, most: usize) -> usize
    requires here { at + most ≤ MAX_CHILDREN }
    requires there { other_at + most ≤ MAX_CHILDREN }
    ensures most { result ≤ most }
    ensures same { AreSameRows (node_row one.now) at (node_row other.now) other_at result }
{
    for i in 0..most {
        if child_row(one, at + i) != child_row(other, other_at + i) {
            return i;
        }
    }
    most
}
