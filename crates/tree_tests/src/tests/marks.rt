//! What is marked on disks whose blocks are written by hand.
use super::script::{Row, plays_rows};

/// An inner block over two leaves.
const TWO_LEAVES: &str = "
    new 64
    write leaf 35 '' 1
    write leaf 36 '' 2
    write node 34 1 1:35 2:36";

const ROWS: [Row; 5] = [
    (
        // Neither the leaves nor a marked block is read.
        "marks what lies under roots, and reads no block twice",
        &[
            TWO_LEAVES,
            "
        mark 34.1.1 none 35.0.1 -> marks 34 35 36 by 1
        mark 34.1.1 none 35.0.1 -> marks 34 35 36 by 0",
        ],
    ),
    (
        "marks no more than the roots reach",
        &[TWO_LEAVES, "mark 36.0.2 -> marks 36 by 0"],
    ),
    (
        // Sixteen records of 252 bytes are in block 34, and then the second value grows.
        "reads no leaf, whatever the lengths of its values",
        &[
            "
        new 128
        puts 1 16 240*v
        put 2 4000*w
        leaves -> 1 1 14
        root -> 53.1.1
        once 1000
        mark 53.1.1 -> marks 50 51 52 53 by 1",
        ],
    ),
    (
        "ends on blocks that are no tree",
        &[
            "
        new 64
        write node 34 1 1:34
        mark 34.1.1 -> marks 34 by 1
        mark 35.1.1 -> error Damaged 35
        mark 64.0.1 -> error Damaged 64",
        ],
    ),
    (
        "answers that the device failed",
        &[
            "
        new 64
        write leaf 35 '' 1
        write node 34 1 1:35
        once 0
        mark 34.1.1 -> error Device",
        ],
    ),
];

#[test]
fn marks_what_lies_under_roots(rt: HostRuntime) {
    plays_rows(&rt, &ROWS);
}
