//! Blocks that do not belong to the tree, met by a descent.
use super::script::{Row, SEVENTEEN, plays_rows};

/// A get, a put and a remove of record 10 each name the leaf that it is in, and none of them takes
/// or writes a block.
const LEAF_IS_REFUSED: &str = "
    sync
    get 10 -> error Damaged 36
    put 10 w -> error Damaged 36
    remove 10 -> error Damaged 36
    dirty -> none
    free -> 25";

/// The same for the root.
const ROOT_IS_REFUSED: &str = "
    sync
    get 10 -> error Damaged 37
    put 10 w -> error Damaged 37
    remove 10 -> error Damaged 37
    dirty -> none
    free -> 25";

const ROWS: [Row; 23] = [
    (
        "a leaf with the letters of an inner block",
        &[SEVENTEEN, "set 36 0:4E4F4445", LEAF_IS_REFUSED],
    ),
    (
        "a leaf with a level",
        &[SEVENTEEN, "set 36 4:01000000", LEAF_IS_REFUSED],
    ),
    (
        "a leaf without records",
        &[SEVENTEEN, "set 36 8:00000000", LEAF_IS_REFUSED],
    ),
    (
        "a leaf of 341 records",
        &[SEVENTEEN, "set 36 8:55010000", LEAF_IS_REFUSED],
    ),
    (
        "a leaf with a byte of the head",
        &[SEVENTEEN, "set 36 12:00000001", LEAF_IS_REFUSED],
    ),
    (
        "a leaf with another first key",
        &[SEVENTEEN, "set 36 16:01000B00", LEAF_IS_REFUSED],
    ),
    (
        "a leaf of an earlier form",
        &[SEVENTEEN, "set 36 0:4C454146", LEAF_IS_REFUSED],
    ),
    (
        "a leaf with a record more",
        &[SEVENTEEN, "set 36 8:0A000000", LEAF_IS_REFUSED],
    ),
    (
        "a leaf with a record fewer",
        &[SEVENTEEN, "set 36 8:08000000", LEAF_IS_REFUSED],
    ),
    (
        // The second value ends after the third.
        "a leaf with ends that fall",
        &[SEVENTEEN, "set 36 38:D102", LEAF_IS_REFUSED],
    ),
    (
        "a leaf with keys that fall",
        &[SEVENTEEN, "set 36 30:08", LEAF_IS_REFUSED],
    ),
    (
        "a leaf with a byte behind the values",
        &[SEVENTEEN, "set 36 4095:01", LEAF_IS_REFUSED],
    ),
    (
        "a root with the letters of a leaf",
        &[SEVENTEEN, "set 37 0:4C454633", ROOT_IS_REFUSED],
    ),
    (
        "a root of level 0",
        &[SEVENTEEN, "set 37 4:00000000", ROOT_IS_REFUSED],
    ),
    (
        "a root of level 2",
        &[SEVENTEEN, "set 37 4:02000000", ROOT_IS_REFUSED],
    ),
    (
        "a root without children",
        &[SEVENTEEN, "set 37 8:00000000", ROOT_IS_REFUSED],
    ),
    (
        "a root of 257 children",
        &[SEVENTEEN, "set 37 8:01010000", ROOT_IS_REFUSED],
    ),
    (
        "a root with a byte of the head",
        &[SEVENTEEN, "set 37 12:01000000", ROOT_IS_REFUSED],
    ),
    (
        "a root with another first key",
        &[SEVENTEEN, "set 37 16:01000000", ROOT_IS_REFUSED],
    ),
    ("as it was", &[SEVENTEEN, "get 10 -> 240*v"]),
    (
        "a block that is none of the tree in the place of a leaf",
        &[
            SEVENTEEN,
            "write all 36 07",
            "
            get 8 -> 240*v
            get 10 -> error Damaged 36
            put 10 v -> error Damaged 36
            remove 10 -> error Damaged 36
            free -> 25",
        ],
    ),
    (
        "another leaf of the tree in its place",
        &[SEVENTEEN, "copy 36 35", LEAF_IS_REFUSED],
    ),
    (
        // The leaf as it was before record 10 came, and after it had gone.
        "the leaf without record 10 in its place",
        &[SEVENTEEN, "write leaf 36 240*v 11 12", LEAF_IS_REFUSED],
    ),
];

#[test]
fn refuses_blocks_that_are_none_of_the_tree(rt: HostRuntime) {
    plays_rows(&rt, &ROWS);
}
