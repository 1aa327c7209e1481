//! The bytes of leaves, and which of them a series changes in their places.
use crate::tests::script::{CACHED, LARGE, LATE, NEW, Row, Rows, each, each_of};

const ON_BOTH: &[Row] = &[
    // An entry for each value, of its key and where it ends, and then the values.
    (
        "leaf has an entry for each value",
        NEW,
        "
        put top 7:1 61*300
        put top 7:2 duct
        put top 8:1 ''
        put top 8:2 62*100
        commit
        close
        block 34 -> 0:4C454633 8:04 16:07 18:01 26:2C0107 30:02 38:300108 42:01 50:300108 54:02 \
            62:9401 64:61*300 364:64756374 368:62*100
        block 18 -> 0:534C4F5403 8:40 12:01 128:4103746F70 195:22
        anew
        open
        free -> 29
        list top -> 7:1=61*300 7:2=duct 8:1='' 8:2=62*100
        put top 7:1 duct
        free -> 28
        close
        dirty -> 35
        block 35 -> 0:4C454633 8:04 16:07 18:01 26:04 28:07 30:02 38:08 40:08 42:01 50:08 52:08 \
            54:02 62:6C 64:6475637464756374 72:62*100",
    ),
    // The leaf is in block 34. The first Put in `a` writes a copy of it into 35, and its own record
    // into 36 under the root 37. The second one changes the copy in its place.
    (
        "leaf that is not changed is shared",
        NEW,
        "
        put top 1:1 61*4000
        new a top
        put a 1:2 62*4000
        put a 1:1 ''
        commit
        close
        block 34 -> 0:4C454633 8:01 16:01 18:01 26:A00F 28:61*4000
        block 36 -> 0:4C454633 8:01 16:01 18:02 26:A00F 28:62*4000
        block 35 -> 0:4C454633 8:01 16:01 18:01
        block 37 -> 0:4E4F444501 8:02 16:01 18:01 26:23 30:01 32:02 40:24
        anew
        open
        free -> 26
        list top -> 1:1=61*4000
        list a -> 1:1='' 1:2=62*4000",
    ),
    (
        "last value leaves no leaf",
        NEW,
        "
        put top 1:1 61*4000
        remove top 1:1
        free -> 29
        list top -> none
        reclaim
        free -> 30",
    ),
];

const IN_256_BLOCKS: &[Row] = &[
    // The first three Puts take block 34, in which the fourth leaves the first record. It takes
    // three more, for the others and a root.
    (
        "leaf in three is spelled",
        "",
        "
        format 256
        open
        put top 1:1 61*1300
        put top 1:2 62*1300
        put top 1:3 63*1300
        put top 1:2 64*4000
        free -> 218
        commit
        close
        block 34 -> 0:4C454633 8:01 16:01 18:01 26:1405 28:61*1300
        block 35 -> 0:4C454633 8:01 16:01 18:02 26:A00F 28:64*4000
        block 36 -> 0:4C454633 8:01 16:01 18:03 26:1405 28:63*1300
        block 37 -> 0:4E4F444501 8:03 16:01 18:01 26:22 30:01 32:02 40:23 44:01 46:03 54:24
        open
        free -> 218
        list top -> 1:1=61*1300 1:2=64*4000 1:3=63*1300",
    ),
];

/// The first Put takes block 34, the second one more leaf and a root. In their series, the third
/// changes the first leaf in its place, and the Remove leaves the other one alone. Of a series that
/// begins with it, the third takes a leaf, and a root if there is one.
const IN_PLACE: Rows = (
    "leaves are changed in place in their own series alone",
    &[NEW, "?", "?", "?", "?", "?"],
    &[
        &["put top 1:1 61*4000", "", "", "", "free -> 29"],
        &[
            "put top 1:1 61*4000",
            "put top 1:2 62*4000",
            "",
            "",
            "free -> 27",
        ],
        &[
            "put top 1:1 61*4000",
            "put top 1:2 62*4000",
            "put top 1:1 63*3000",
            "",
            "free -> 27",
        ],
        &[
            "put top 1:1 61*4000",
            "put top 1:2 62*4000",
            "put top 1:1 63*3000",
            "remove top 1:1",
            "free -> 27",
        ],
        &[
            "put top 1:1 61*4000",
            "commit",
            "put top 1:1 63*3000",
            "remove top 1:1",
            "free -> 28",
        ],
        &[
            "put top 1:1 61*4000",
            "checkpoint top c",
            "put top 1:1 63*3000",
            "remove top 1:1",
            "free -> 28",
        ],
        &[
            "put top 1:1 61*4000",
            "put top 1:2 62*4000",
            "commit",
            "put top 1:1 63*3000",
            "free -> 25",
        ],
        &[
            "put top 1:1 61*4000",
            "new a top",
            "put top 1:2 62*4000",
            "put top 1:1 63*3000",
            "free -> 26",
        ],
        &[
            "new a top",
            "put top 1:1 61*4000",
            "merge a -> ok 1",
            "put a 1:1 v",
            "free -> 28",
        ],
    ],
);

#[test]
fn leaves_are_spelled_shared_and_changed_in_place(rt: HostRuntime) {
    each(&rt, CACHED, ON_BOTH);
    each(&rt, LARGE, IN_256_BLOCKS);
    each_of(&rt, LATE, &IN_PLACE);
}
