//! Which blocks a put and a remove write.
//!
//! With no baseline all blocks of the path are copied, and a marking from the new root finds none
//! of the old ones. With one, a block that is held and not in it is changed in its place.
use super::script::{FOREIGN, Row, SEVENTEEN, plays_rows};

const COPIES: [Row; 5] = [
    (
        "replaces the one leaf",
        &[
            "
        put 1 v
        root -> 34.0.1
        put 2 v
        root -> 35.0.1
        mark 35.0.1 -> marks 35 by 0
        remove 3 -> none
        root -> 35.0.1
        remove 1
        root -> 36.0.2
        remove 2
        root -> none
        remove 2 -> none",
        ],
    ),
    (
        "replaces a leaf and the root above it",
        &[
            SEVENTEEN,
            "
        put 1 w
        root -> 39.1.1
        let go
        mark 39.1.1 -> marks 36 38 39 by 0
        remove 17
        root -> 35.1.1
        let go
        mark 35.1.1 -> marks 34 35 38 by 0",
        ],
    ),
    (
        "replaces a block on each of three levels",
        &[
            FOREIGN,
            "
        write fan 35 256
        put 1 240*w
        root -> 40.2.0
        put 1 x
        root -> 43.2.0
        mark 43.2.0 -> marks 34 37 39 41 42 43 by 3
        remove 1
        root -> 46.2.0",
        ],
    ),
    (
        // The leaf is replaced by three. The blocks of the change are 16 at the most, and four
        // here.
        "replaces one leaf by three and a root",
        &[
            "
        put 1 1300*a
        put 2 1300*b
        put 3 1300*c
        keep a
        put 2 4000*b
        spent -> 4
        mark 40.1.1 -> marks 37 38 39 40 by 1
        keep a
        put 2 3999*b
        spent -> 2
        root -> 42.1.1",
        ],
    ),
    (
        // The leaf that becomes the root was beside the path.
        "replaces the root by the one child that is left",
        &[
            "
        new 256
        sizes 3 2
        puts 1 4 1300*v
        remove 1
        root -> 41.1.2
        remove 4
        root -> 40.0.2
        mark 40.0.2 -> marks 40 by 0",
        ],
    ),
];

const IN_PLACE: [Row; 7] = [
    (
        // Block 34 is in the baseline. A put reads and writes one block.
        "changes a leaf in its place",
        &[
            "
        put 1 v
        base
        put 2 v
        root -> 35.0.1
        free -> 28
        fresh
        put 3 v
        calls -> 2
        root -> 35.0.1
        free -> 28
        list -> 1=v 2=v 3=v
        put 0 x
        root -> 35.0.0
        remove 2
        root -> 35.0.0
        free -> 28
        list -> 0=x 1=v 3=v
        top 34.0.1
        list -> 1=v",
        ],
    ),
    (
        // The first leaf of the empty map takes a block, and is the series' own from then on.
        "changes the first leaf in its place",
        &[
            "
        base
        put 1 v
        root -> 34.0.1
        put 2 v
        root -> 34.0.1
        free -> 29
        remove 1
        root -> 34.0.2
        remove 2
        root -> none
        free -> 29
        put 3 v
        root -> 35.0.3",
        ],
    ),
    (
        // A put goes by the root and the leaf. Under a root that was copied the second leaf is
        // copied too, and the root changed in its place.
        "leaves a root as it is whose child keeps its place",
        &[
            SEVENTEEN,
            "
        base
        keep a
        put 1 w
        root -> 39.1.1
        spent -> 2
        fresh
        put 2 w
        calls -> 3
        root -> 39.1.1
        spent -> 2
        fresh
        put 17 w
        calls -> 4
        root -> 39.1.1
        spent -> 3
        part 16 17 -> 16=240*v 17=w
        part 1 2 -> 1=w 2=w
        values a 39.1.1 -> 1=240*v>w 2=240*v>w 17=240*v>w",
        ],
    ),
    (
        // The lowest key of the first leaf stands in the root.
        "changes a root whose child has another lowest key",
        &[
            SEVENTEEN,
            "
        base
        put 1 w
        root -> 39.1.1
        fresh
        put 0 w
        calls -> 4
        root -> 39.1.0
        get 0 -> w
        fresh
        remove 0
        calls -> 4
        root -> 39.1.1
        get 1 -> w
        get 0 -> ~",
        ],
    ),
    (
        // The first part of a leaf that is split stays in its place.
        "splits a leaf in its place",
        &[
            "
        base
        put 1 1300*a
        put 2 1300*b
        put 3 1300*c
        root -> 34.0.1
        free -> 29
        put 2 4000*b
        root -> 37.1.1
        free -> 26
        leaf 34 -> 1=1300*a
        leaf 35 -> 2=4000*b
        leaf 36 -> 3=1300*c
        fresh
        put 2 3999*b
        calls -> 3
        root -> 37.1.1
        free -> 26
        node 1 37 -> 1:34 2:35 3:36",
        ],
    ),
    (
        "copies again with no baseline, and with a later one",
        &[
            "
        base
        put 1 v
        no base
        put 2 v
        root -> 35.0.1
        base
        put 3 v
        root -> 36.0.1
        put 4 v
        root -> 36.0.1
        top 35.0.1
        list -> 1=v 2=v",
        ],
    ),
    (
        // A block that is not held is none of the series', whatever the baseline has.
        "copies a block that is not held",
        &[
            "
        base
        write leaf 40 v 1 2
        top 40.0.1
        put 3 v
        root -> 34.0.1
        leaf 40 -> 1=v 2=v",
        ],
    ),
];

#[test]
fn copies_the_blocks_of_the_path(rt: HostRuntime) {
    plays_rows(&rt, &COPIES);
}

#[test]
fn changes_own_blocks_in_their_places(rt: HostRuntime) {
    plays_rows(&rt, &IN_PLACE);
}
