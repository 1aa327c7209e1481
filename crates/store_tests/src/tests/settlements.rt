//! Conflicts, and how they are settled.
use super::script::{ALONE, LARGE, NEW, Row, Rows, each, each_of};

/// A record has one value in the base, another in `top`, and a third in `a` under it. The three
/// leaves are blocks 34 to 36.
pub(super) const CONFLICT: &str = "
    format 64
    anew
    open
    put top 1:1 x
    new a top
    put top 1:1 z
    put a 1:1 y
    commit
    close
    anew";

/// `top` and `a` under it have each added a record to those of the base. The three leaves are blocks
/// 34 to 36.
pub(super) const EACH_ADDED: &str = "
    format 64
    anew
    open
    put top 1:1 x
    new a top
    put top 1:2 z
    put a 1:3 y
    commit
    close
    anew";

const MADE: &str = "
    new a top
    put top 1:1 x
    put top 1:2 x
    put a 1:1 y
    put a 1:2 y";

const KEPT: &str = "
    list top -> 1:1=x 1:2=x
    list a -> 1:1=y 1:2=y
    conflicts a -> 1:1=~/x/y 1:2=~/x/y";

/// A key that is settled twice comes first, then one that is in no conflict, and then what is left.
const IN_ORDER: Rows = (
    "settlements are tested in their order",
    &[
        NEW,
        MADE,
        "merge a 1:9=mine 1:1=mine 1:1=theirs -> error 11 SettledTwice 1:1",
        KEPT,
        "merge a 1:1=mine 1:2=mine 1:2=theirs 1:1=mine -> error 11 SettledTwice 1:2",
        KEPT,
        "merge a 1:9=mine 1:1=mine -> error 10 NotInConflict 1:9",
        KEPT,
        "merge a 1:1=mine 1:8=theirs 1:7=mine -> error 10 NotInConflict 1:8",
        KEPT,
        "merge a 1:2=theirs -> error 9 Unsettled 1",
        KEPT,
        "merge a -> error 9 Unsettled 2",
        KEPT,
        "merge a 1:2=theirs 1:1=mine -> ok 1",
        "list a -> 1:1=y 1:2=x",
    ],
    &[&[]],
);

const IN_256_BLOCKS: &[Row] = &[
    // Records 1 to 4 are in conflict: both sides changed the first, one removed the second or the
    // third, and both added the fourth. The parent alone changed the fifth, the alternative alone
    // added the sixth, and both added the same as the seventh.
    (
        "absence counts as a value in conflicts",
        "",
        "
        format 256
        open
        put top 1:1 x
        put top 1:2 x
        put top 1:3 x
        put top 1:5 x
        new a top
        put top 1:1 z
        remove top 1:2
        put top 1:3 z
        put top 1:4 z
        put top 1:5 z
        put top 1:7 z
        put a 1:1 y
        put a 1:2 y
        remove a 1:3
        put a 1:4 y
        put a 1:6 y
        put a 1:7 z
        conflicts a -> 1:1=x/z/y 1:2=x/~/y 1:3=x/z/~ 1:4=~/z/y
        merge a -> error 9 Unsettled 4
        merge a 1:3=theirs 1:1=theirs 1:4=mine 1:2=theirs -> ok 4
        post a
        list top -> 1:1=z 1:3=z 1:4=y 1:5=z 1:6=y 1:7=z",
    ),
];

#[test]
fn settlements_are_tested_in_their_order(rt: HostRuntime) {
    each_of(&rt, ALONE, &IN_ORDER);
    each(&rt, LARGE, IN_256_BLOCKS);
}
