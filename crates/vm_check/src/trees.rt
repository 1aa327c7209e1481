//! Finding trees by their tops and their inner blocks.
ghost use Rattle.std.specs.Prelude.{◌≡◌, ◌+◌, ◌≤◌, length, map, replicate, false, IfOk, ⊤};
ghost use Rattle.vm_tree.specs.Calls.{OnlyLists, ReadsWithin};
ghost use Rattle.vm_tree.specs.BlockReads.{Finds};
ghost use Rattle.vm_check.specs.Marks.{unmarked_inner};
ghost use Rattle.vm_check.specs.Trees.{AcceptsNumber, AreFound, AreTopped, IsFound, WhereTrees, level_of};
ghost use Rattle.vm_check.specs.Verification.{AreGiven, Found, SizeFits};

use crate::form::{Form, form_at};
use crate::marks::mark;
use std::alloc::Global;
use vm_alloc::Marks;
use vm_block::lowest_key;
use vm_disk::{Disk, Need};
use vm_tree::{ListFault, Root, TreeFault, is_data};

/// The level of a block of this form.
fn level_of(form: Form) -> u8
    ensures { result ≡ level_of form }
{
    match form {
        Form::Leaf(_) => 0,
        Form::Node(level, _) => level,
    }
}

/// The root of the tree under a number, by its top block alone.
fn root_at<D: Disk>(disk: &mut D, blocks: u32, number: u32) -> Result<Root, TreeFault>
    requires { blocks ≤ (D.state disk.old).blocks }
    ensures looks { ReadsWithin 1 result (D.state disk.old) (D.state disk.new) }
    ensures named { IfOk result (λ root. root.block ≡ number) }
    ensures found { Finds result (D.state disk.old) (D.state disk.new) (λ x root. IsFound x blocks root) }
    ensures only { AcceptsNumber result (D.state disk.old) (D.state disk.new) blocks number }
{
    if number == 0 {
        return Ok(Root::default());
    }
    if !is_data(blocks, number) {
        return Err(TreeFault::Damaged(number));
    }
    let form = form_at(disk, blocks, number, Need::Again)?;
    Ok(Root {
        block: number,
        level: level_of(form),
        low: lowest_key(disk.at_hand()),
    })
}

/// The same. If it is the root that was found last, its block is not read again.
fn next_root<D: Disk>(disk: &mut D, blocks: u32, number: u32, last: Root) -> Result<Root, TreeFault>
    requires { blocks ≤ (D.state disk.old).blocks }
    ensures looks { ReadsWithin 1 result (D.state disk.old) (D.state disk.new) }
    ensures named { IfOk result (λ root. root.block ≡ number) }
    ensures found { IsFound (D.state disk.old).now.contents blocks last
        → Finds result (D.state disk.old) (D.state disk.new) (λ x root. IsFound x blocks root) }
    ensures only { AcceptsNumber result (D.state disk.old) (D.state disk.new) blocks number }
{
    if number == last.block {
        return Ok(last);
    }
    root_at(disk, blocks, number)
}

/// The roots of the trees under the numbers, in order.
fn find_roots<D: Disk>(
    alloc: Global,
    disk: &mut D,
    blocks: u32,
    numbers: &[u32],
) -> Result<Vec<Root>, ListFault>
    requires { blocks ≤ (D.state disk.old).blocks }
    ensures looks { OnlyLists result (D.state disk.old) (D.state disk.new) }
    ensures once { (D.state disk.new).reads ≤ (D.state disk.old).reads + length numbers.now }
    ensures named { IfOk result (λ roots. map (λ root. root.block) roots.items ≡ numbers.now) }
    ensures found { Finds result (D.state disk.old) (D.state disk.new) (λ x roots. AreFound x blocks roots.items) }
    ensures only { WhereTrees result (D.state disk.old) (D.state disk.new) blocks numbers.now (λ sizes x roots. ⊤) }
{
    let mut roots = Vec::new(alloc);
    let mut last = Root::default();
    for number in numbers {
        last = next_root(disk, blocks, *number, last)?;
        match roots.push(last) {
            Ok(()) => {}
            Err(_) => return Err(ListFault::Memory),
        }
    }
    Ok(roots)
}

/// Finds the trees under the numbers, in order: the root of each, and marks on exactly the blocks
/// under them. It reads the top block of each tree, and the inner blocks. No other leaf is read, so
/// what is wrong in one is not found. Number 0 is the empty map.
///
/// If a number has no tree, it may answer Damaged, with a block that is wrong. It answers Device if
/// the device failed, and Memory if memory could not be allocated for the roots and the marks.
pub fn find_trees<D: Disk>(
    alloc: Global,
    disk: &mut D,
    blocks: u32,
    numbers: &[u32],
) -> Result<(Vec<Root>, Marks), ListFault>
    requires fit { SizeFits blocks (D.state disk.old) }
    ensures looks { OnlyLists result (D.state disk.old) (D.state disk.new) }

    // On any disk there is a flag for each block, and a root for each number, whose top block has
    // its form.
    ensures given { IfOk result (AreGiven blocks numbers.now) }
    ensures topped { Finds result (D.state disk.old) (D.state disk.new)
        (λ x found. AreTopped x blocks found.0.items) }

    // It reads a block for each number, and as many as it marks inner blocks.
    ensures inner { Finds result (D.state disk.old) (D.state disk.new) (λ x found.
        (D.state disk.new).reads + unmarked_inner x found.1
        ≤ (D.state disk.old).reads + length numbers.now + unmarked_inner x (replicate blocks false)) }

    // If each number has a tree, it finds exactly those, unless the device fails or memory cannot be
    // allocated.
    ensures found { WhereTrees result (D.state disk.old) (D.state disk.new) blocks numbers.now
        (λ sizes x found. Found sizes x blocks numbers.now found.0.items found.1) }
{
    let Ok(mut marks) = Marks::new(alloc, blocks) else {
        return Err(ListFault::Memory);
    };
    let roots = find_roots(alloc, disk, blocks, numbers)?;
    mark(disk, &roots, &mut marks)?;
    Ok((roots, marks))
}
