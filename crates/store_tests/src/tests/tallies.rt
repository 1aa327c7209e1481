//! How far an alternative is from its base and from its parent.
use super::script::{CACHED, LARGE, NEW, Row, each};

const IN_256_BLOCKS: &[Row] = &[
    // Both sides changed the first record, the parent alone the second and the fourth, the
    // alternative alone the third. A merge takes the parent's three, and a post leaves nothing.
    (
        "tallies follow merges and posts",
        "",
        "
        format 256
        open
        put top 1:1 x
        put top 1:2 x
        new a top
        tally a -> 0 0 0 yes
        put a 1:1 y
        put a 1:3 z
        tally a -> 2 0 0 yes
        put top 1:1 w
        put top 1:2 v
        put top 1:4 u
        tally a -> 2 3 1 no
        merge a 1:1=mine -> ok 2
        tally a -> 2 0 0 yes
        post a
        tally a -> 0 0 0 yes",
    ),
];

const ON_BOTH: &[Row] = &[
    // What a parent took in from its own parent is a change of it. A record that it put back is
    // not.
    (
        "tallies are between an alternative and its own parent",
        NEW,
        "
        put top 1:1 x
        new a top
        put a 1:2 y
        new b a
        remove b 1:2
        tally b -> 1 0 0 yes
        put top 1:1 z
        tally a -> 1 1 0 no
        tally b -> 1 0 0 yes
        merge a -> ok 1
        tally a -> 1 0 0 yes
        tally b -> 1 1 0 no
        put a 1:1 x
        tally b -> 1 0 0 yes
        put a 1:2 w
        tally b -> 1 1 1 no",
    ),
    (
        "no tally where there is no parent",
        NEW,
        "
        put top 1:1 x
        tally top -> error 6 IsTop
        tally a -> error 1 NoSuchAlternative",
    ),
];

#[test]
fn tallies_count_what_differs(rt: HostRuntime) {
    each(&rt, LARGE, IN_256_BLOCKS);
    each(&rt, CACHED, ON_BOTH);
}
