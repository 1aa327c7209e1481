//! Markings, and the walk that validates the trees under numbers, made by the steps of a row.
ghost use Rattle.vm_tree.specs.Root.{AreSizes};

use super::bench::{Bench, Device, Sizes};
use super::words::{Wrong, number, root};
use std::alloc::Global;
use vm_alloc::Marks;
use vm_check::{mark, verify};
use vm_disk::Disk;
use vm_tree::Root;

/// Appends a root to a text.
pub(super) fn add_root(text: &mut String, root: Root) -> Result<(), Wrong> {
    if root.block == 0 {
        write!(text, " none")?;
    } else {
        write!(text, " {}.{}.{}", root.block, root.level, root.low.number)?;
    }
    Ok(())
}

/// Appends what is marked, and the number of device calls for it.
fn add_marks(text: &mut String, marks: &Marks, calls: u32) -> Result<(), Wrong> {
    write!(text, " marks")?;
    for n in 0..marks.blocks() {
        if marks.is_set(n) {
            write!(text, " {n}")?;
        }
    }
    write!(text, " by {calls}")?;
    Ok(())
}

/// The answer to a marking from these roots. What was marked stays marked.
pub(super) fn marked(alloc: Global, bench: &mut Bench, words: &[&str]) -> Result<String, Wrong> {
    let mut roots = Vec::new(alloc);
    for word in words {
        let root = root(word)?;
        if roots.push(root).is_err() {
            return Err(Wrong::Memory);
        }
    }
    if bench.marks.blocks() > bench.disk.blocks() {
        return Err(Wrong::Unreadable);
    }
    let before = bench.calls();
    mark(&mut bench.disk, &roots, &mut bench.marks)?;
    let calls = bench.calls().saturating_sub(before);
    let mut text = String::new(alloc);
    add_marks(&mut text, &bench.marks, calls)?;
    Ok(text)
}

fn found<const FAN: usize, const LEVELS: usize>(
    alloc: Global,
    bench: &mut Bench,
    numbers: &[u32],
) -> Result<(Vec<Root>, Marks), Wrong>
    requires { AreSizes FAN LEVELS }
{
    let blocks = bench.held.blocks();
    if blocks > bench.disk.blocks() {
        return Err(Wrong::Unreadable);
    }
    Ok(verify::<Device, FAN, LEVELS>(alloc, &mut bench.disk, blocks, numbers)?)
}

fn found_sized(
    alloc: Global,
    bench: &mut Bench,
    numbers: &[u32],
) -> Result<(Vec<Root>, Marks), Wrong> {
    match bench.sizes {
        Sizes::Store => found::<256, 8>(alloc, bench, numbers),
        Sizes::Fours => found::<4, 2>(alloc, bench, numbers),
        Sizes::Threes => found::<3, 2>(alloc, bench, numbers),
        Sizes::Flat => found::<3, 1>(alloc, bench, numbers),
        Sizes::DeepThrees | Sizes::DeepFours => Err(Wrong::Unreadable),
    }
}

/// The answer to the walk of the trees under these numbers.
pub(super) fn verified(alloc: Global, bench: &mut Bench, words: &[&str]) -> Result<String, Wrong> {
    let mut numbers = Vec::new(alloc);
    for word in words {
        let n = number(word)?;
        if numbers.push(n).is_err() {
            return Err(Wrong::Memory);
        }
    }
    let before = bench.calls();
    let (roots, marks) = found_sized(alloc, bench, &numbers)?;
    let calls = bench.calls().saturating_sub(before);
    let mut text = String::new(alloc);
    for root in &roots {
        add_root(&mut text, *root)?;
    }
    add_marks(&mut text, &marks, calls)?;
    Ok(text)
}
