//! Differences of maps that are made by puts and removals, and how many blocks are read for them.
use super::script::{Row, plays_rows};

/// The first sixteen puts take a block each. The seventeenth takes two for leaves, of 1 to 8 and of
/// 9 to 17, and block 52 for the root above them.
const TWO_LEAVES: &str = "
    new 128
    puts 2 16 240*v
    put 1 240*v
    root -> 52.1.1";

const ROWS: [Row; 13] = [
    (
        "reads nothing of one tree",
        &[
            TWO_LEAVES,
            "
            differ 52.1.1 52.1.1 -> none by 0
            same 52.1.1 52.1.1 -> yes by 0
            differ none none -> none by 0
            same none none -> yes by 0",
        ],
    ),
    (
        "reads the paths to one changed record",
        &[
            TWO_LEAVES,
            "
            put 1 w
            root -> 54.1.1
            differ 52.1.1 54.1.1 -> 1=240*v>w by 4
            same 52.1.1 54.1.1 -> no by 4",
        ],
    ),
    (
        // Leaves of 1 to 8 and of 9 to 17.
        "reads of a part what may lie in it",
        &[
            TWO_LEAVES,
            "
            put 1 w
            put 12 x
            root -> 56.1.1
            within 52.1.1 56.1.1 0 99 -> 1=240*v>w 12=240*v>x by 6
            within 52.1.1 56.1.1 1 12 -> 1=240*v>w 12=240*v>x by 6
            within 52.1.1 56.1.1 1 1 -> 1=240*v>w by 4
            within 52.1.1 56.1.1 2 8 -> none by 4
            within 52.1.1 56.1.1 9 11 -> none by 4
            within 52.1.1 56.1.1 12 12 -> 12=240*v>x by 4
            within 52.1.1 56.1.1 13 99 -> none by 4
            within 52.1.1 56.1.1 18 99 -> none by 4
            within 52.1.1 56.1.1 0 0 -> none by 0
            within 52.1.1 56.1.1 12 11 -> none by 4
            within 52.1.1 56.1.1 12 1 -> none by 2
            within 52.1.1 52.1.1 1 8 -> none by 0
            within none 52.1.1 3 4 -> 3=~>240*v 4=~>240*v by 2
            within 52.1.1 none 8 9 -> 8=240*v>~ 9=240*v>~ by 3",
        ],
    ),
    (
        "reads nothing of a part that both share",
        &[
            TWO_LEAVES,
            "
            put 1 w
            root -> 54.1.1
            within 52.1.1 54.1.1 9 17 -> none by 2
            within 52.1.1 54.1.1 8 17 -> none by 4",
        ],
    ),
    (
        "reads each block of a tree once beside the empty map",
        &[
            TWO_LEAVES,
            "
            differ none 52.1.1 -> 1=~>240*v 2=~>240*v 3=~>240*v 4=~>240*v 5=~>240*v 6=~>240*v 7=~>240*v 8=~>240*v 9=~>240*v 10=~>240*v 11=~>240*v 12=~>240*v 13=~>240*v 14=~>240*v 15=~>240*v 16=~>240*v 17=~>240*v by 3
            differ 52.1.1 none -> 1=240*v>~ 2=240*v>~ 3=240*v>~ 4=240*v>~ 5=240*v>~ 6=240*v>~ 7=240*v>~ 8=240*v>~ 9=240*v>~ 10=240*v>~ 11=240*v>~ 12=240*v>~ 13=240*v>~ 14=240*v>~ 15=240*v>~ 16=240*v>~ 17=240*v>~ by 3
            equal 52.1.1 none -> no",
        ],
    ),
    (
        "finds no change in a record written again",
        &[
            TWO_LEAVES,
            "
            put 1 240*v
            root -> 54.1.1
            values 52.1.1 54.1.1 -> none
            equal 52.1.1 54.1.1 -> yes",
        ],
    ),
    (
        "finds what was added, changed and removed",
        &[
            TWO_LEAVES,
            "
            put 0 a
            put 12 w
            remove 5
            keep a
            values 52.1.1 a -> 0=~>a 5=240*v>~ 12=240*v>w
            equal 52.1.1 a -> no",
        ],
    ),
    (
        "compares trees of other shapes",
        &[
            "
            new 1024
            sizes 3 8
            puts 1 40 1900*v
            level -> 4
            keep a
            top none
            sizes 4 8
            falls 40 40 1900*v
            level -> 3
            keep b
            above a b -> yes
            equal a b -> yes
            put 23 w
            keep c
            values a c -> 23=1900*v>w
            equal c a -> no",
        ],
    ),
    (
        // Block 100 is blank, and no root has level 8.
        "answers Damaged where a block is none of a tree",
        &[
            TWO_LEAVES,
            "
            differ 52.1.1 100.0.1 -> error Damaged 100
            same 100.0.1 52.1.1 -> error Damaged 100
            differ 52.8.1 52.1.1 -> error Damaged 52
            same 52.1.1 52.8.1 -> error Damaged 52",
        ],
    ),
    (
        "answers that the device failed",
        &[
            TWO_LEAVES,
            "
            once 1
            differ none 52.1.1 -> error Device
            once 0
            same 52.1.1 none -> error Device",
        ],
    ),
    (
        // Each value is compared in its leaf, and a leaf that both have is not read.
        "compares values of any length",
        &[
            "
            new 128
            put 1 4000*a
            put 2 4000*b
            put 3 300*c
            root -> 40.1.1
            put 2 3999*b
            root -> 42.1.1
            put 1 4000*x
            root -> 44.1.1
            differ 40.1.1 42.1.1 -> 2=4000*b>3999*b by 4
            same 40.1.1 42.1.1 -> no by 4
            differ 42.1.1 44.1.1 -> 1=4000*a>4000*x by 4
            differ 40.1.1 44.1.1 -> 1=4000*a>4000*x 2=4000*b>3999*b by 6
            within 40.1.1 44.1.1 2 2 -> 2=4000*b>3999*b by 4
            put 2 4000*b
            put 1 4000*a
            root -> 48.1.1
            differ 40.1.1 48.1.1 -> none by 6
            same 40.1.1 48.1.1 -> yes by 6
            # A short value in its place, none, and the empty one.
            put 2 b
            root -> 50.1.1
            differ 48.1.1 50.1.1 -> 2=4000*b>b by 4
            put 2 ''
            root -> 52.1.1
            differ 50.1.1 52.1.1 -> 2=b> by 4
            remove 2
            root -> 53.1.1
            differ 52.1.1 53.1.1 -> 2=>~ by 3
            differ 53.1.1 48.1.1 -> 2=~>4000*b by 3",
        ],
    ),
    (
        // The records are in three leaves of the one tree, and in one of the other.
        "compares maps in leaves that are cut in another way",
        &[
            "
            new 128
            put 1 1300*a
            put 3 1300*c
            put 2 4000*b
            put 2 1300*b
            leaves -> 1 1 1
            keep a
            top none
            put 1 1300*a
            put 2 1300*b
            put 3 1300*c
            root -> 44.0.1
            keep b
            values a b -> none
            equal a b -> yes
            put 3 1301*c
            keep c
            values a c -> 3=1300*c>1301*c
            values c a -> 3=1301*c>1300*c",
        ],
    ),
    (
        // 5,000 records need more than 256 leaves of 16, and so an inner block above inner blocks.
        // As each leaf is full, and each inner block has 128 children or more, one inner block on
        // top is enough. A change takes three blocks. It is found by reading only these and the
        // three that they replace: everything that is not shared.
        "reads two paths of three blocks for one of 5,000 records",
        &[
            "
            new 16384
            puts 0 5000 240*v
            level -> 2
            keep a",
            "
            put 0 w
            spent -> 3
            keep b
            differ a b -> 0=240*v>w by 6
            same a b -> no by 6",
            "
            top a
            keep a
            put 8 w
            spent -> 3
            keep b
            differ a b -> 8=240*v>w by 6
            same a b -> no by 6",
            "
            top a
            keep a
            put 2500 w
            spent -> 3
            keep b
            differ a b -> 2500=240*v>w by 6
            same a b -> no by 6",
            "
            top a
            keep a
            put 4999 w
            spent -> 3
            keep b
            differ a b -> 4999=240*v>w by 6
            same a b -> no by 6",
        ],
    ),
];

#[test]
fn finds_differences_of_maps(rt: HostRuntime) {
    plays_rows(&rt, &ROWS);
}
