//! Copies of trees on another disk, where they are in the order of the walk.
use super::bench::Bench;
use super::script::{Row, SEVENTEEN, plays_rows};
use super::walked_differences::root_of;
use super::walks::add_root;
use super::words::Wrong;
use std::alloc::Global;
use vm_check::{CopyFault, Renumbering, copy_tree};
use vm_disk::Disk;
use vm_tree::Root;
use vm_types::Refusal;

impl From<CopyFault> for Wrong {
    fn from(fault: CopyFault) -> Wrong {
        match fault {
            CopyFault::Source(fault) => Wrong::from(fault),
            CopyFault::Target => Wrong::Tree(Refusal::Device),
            CopyFault::Full => Wrong::Tree(Refusal::Full),
        }
    }
}

/// Copies the trees under two roots to another disk, and returns the roots of the copies.
fn copied(
    alloc: Global,
    bench: &mut Bench,
    other: &mut Bench,
    roots: [Root; 2],
) -> Result<[Root; 2], Wrong> {
    let (blocks, limit) = (bench.disk.blocks(), other.disk.blocks());
    let mut numbers = Renumbering::new(alloc, blocks)?;
    let (source, target) = (&mut bench.disk, &mut other.disk);
    let first = copy_tree(source, blocks, target, limit, roots[0], &mut numbers)?;
    let second = copy_tree(source, blocks, target, limit, roots[1], &mut numbers)?;
    Ok([first, second])
}

/// Copies what lies under two roots to a blank disk of this many blocks, which replaces the disk.
/// The answer has the roots of the copies, and how many device calls the source counted.
pub(super) fn moved(
    alloc: Global,
    bench: &mut Bench,
    blocks: u32,
    words: [&str; 2],
) -> Result<String, Wrong> {
    let roots = [root_of(bench, words[0])?, root_of(bench, words[1])?];
    let mut other = Bench::new(alloc, blocks)?;
    let before = bench.calls();
    let copies = copied(alloc, bench, &mut other, roots)?;
    let calls = bench.calls().saturating_sub(before);
    let mut text = String::new(alloc);
    add_root(&mut text, copies[0])?;
    add_root(&mut text, copies[1])?;
    write!(text, " by {calls}")?;
    *bench = other;
    Ok(text)
}

/// Block 38 has 2=w, and block 36 has 2=v. Both are the second leaf beside block 34.
const SHARED: &str = "
    new 64
    put 1 4000*a
    put 2 300*v
    root -> 37.1.1
    put 2 300*w
    root -> 39.1.1
    node 1 37 -> 1:35 2:36
    node 1 39 -> 1:35 2:38";

const ROWS: [Row; 9] = [
    (
        "copies a leaf into the first block for data",
        &[
            "
        new 64
        put 1 v
        put 2 w
        root -> 35.0.1
        move 64 35.0.1 none -> 34.0.1 none by 1
        top 34.0.1
        list -> 1=v 2=w
        verify 34 -> 34.0.1 marks 34 by 1
        dirty -> 34",
        ],
    ),
    (
        "writes children before the block that names them",
        &[
            SEVENTEEN,
            "
        node 1 37 -> 1:35 9:36
        move 100 37.1.1 none -> 36.1.1 none by 3
        node 1 36 -> 1:34 9:35
        top 36.1.1
        list -> 1=240*v 2=240*v 3=240*v 4=240*v 5=240*v 6=240*v 7=240*v 8=240*v 9=240*v 10=240*v 11=240*v 12=240*v 13=240*v 14=240*v 15=240*v 16=240*v 17=240*v
        dirty -> 34 35 36",
        ],
    ),
    (
        "copies values of any length",
        &[
            "
        new 64
        put 1 ''
        put 3 3500*c
        put 2 4000*b
        put 4 241*d
        root -> 40.1.1
        move 64 40.1.1 none -> 36.1.1 none by 3
        node 1 36 -> 1:34 3:35
        leaf 34 -> 1= 2=4000*b
        leaf 35 -> 3=3500*c 4=241*d
        dirty -> 34 35 36
        verify 36 -> 36.1.1 marks 34 35 36 by 3",
        ],
    ),
    (
        "reads and writes shared blocks once",
        &[
            SHARED,
            "
        move 64 39.1.1 37.1.1 -> 36.1.1 38.1.1 by 5
        node 1 36 -> 1:34 2:35
        node 1 38 -> 1:34 2:37
        leaf 34 -> 1=4000*a
        leaf 35 -> 2=300*w
        leaf 37 -> 2=300*v
        dirty -> 34 35 36 37 38",
        ],
    ),
    (
        "gives one root one copy",
        &[SHARED, "move 64 39.1.1 39.1.1 -> 36.1.1 36.1.1 by 3"],
    ),
    (
        // 30 leaves of thirteen records, one of ten, and the root.
        "ends where no block is left",
        &[
            "
        new 1024
        puts 1 400 300*v
        keep a
        move 64 a none -> error Full",
        ],
    ),
    (
        "ends on blocks that are no tree",
        &[
            "
        new 64
        write node 34 1 1:34
        write records 35 1=300*a
        set 35 0:4C454632
        move 64 34.1.1 none -> error Damaged 34
        move 64 35.0.1 none -> error Damaged 35
        move 64 64.0.1 none -> error Damaged 64
        move 64 none 36.0.1 -> error Damaged 36",
        ],
    ),
    (
        "copies no blocks of empty maps",
        &["new 64\nmove 64 none none -> none none by 0\ndirty -> none"],
    ),
    (
        "answers that the device failed",
        &[SHARED, "once 1\nmove 64 39.1.1 none -> error Device"],
    ),
];

#[test]
fn copies_trees_to_another_disk(rt: HostRuntime) {
    plays_rows(&rt, &ROWS);
}
