//! What a Merge answers, and what it leaves in both alternatives.
use super::script::{ALONE, CACHED, NEW, Row, each};

const ON_BOTH: &[Row] = &[
    (
        "conflict is settled by the parent's value",
        NEW,
        "
        new a top
        put top 1:1 x
        put a 1:1 y
        merge a -> error 9 Unsettled 1
        get a 1:1 -> y
        merge a 1:1=theirs -> ok 1
        get a 1:1 -> x
        post a
        get top 1:1 -> x",
    ),
    (
        "conflict is settled by one's own value",
        NEW,
        "
        put top 1:1 x
        new a top
        remove top 1:1
        put a 1:1 y
        conflicts a -> 1:1=x/~/y
        merge a 1:1=mine -> ok 0
        get a 1:1 -> y
        post a
        get top 1:1 -> y",
    ),
    (
        "equal changes are in no conflict",
        NEW,
        "
        put top 1:1 x
        put top 1:2 x
        new a top
        # Both sides give one record the same value, and take another one out.
        put top 1:1 z
        remove top 1:2
        put a 1:1 z
        remove a 1:2
        conflicts a -> none
        merge a -> ok 0
        post a
        list top -> 1:1=z
        list a -> 1:1=z",
    ),
    (
        "back restores the base too",
        NEW,
        "
        new a top
        checkpoint a c
        put top 1:1 x
        merge a -> ok 1
        back a c
        get a 1:1 -> ~
        post a -> error 8 NotMerged
        get top 1:1 -> x",
    ),
    // Two settlements of one key come after the tests of the alternative.
    (
        "merge and post want an alternative with a parent",
        NEW,
        "
        new a top
        new b a
        merge a 1:1=mine 1:1=mine -> error 11 SettledTwice 1:1
        merge a 1:1=mine -> error 10 NotInConflict 1:1
        merge top 1:1=mine 1:1=mine -> error 6 IsTop
        merge nope 1:1=mine 1:1=mine -> error 1 NoSuchAlternative
        post top -> error 6 IsTop
        post nope -> error 1 NoSuchAlternative",
    ),
];

const IN_MEMORY: &[Row] = &[
    (
        "record that only the parent took out goes in a merge",
        NEW,
        "
        put top 1:1 x
        put top 1:2 x
        new a top
        remove top 1:1
        merge a -> ok 1
        remove top 1:2
        merge a -> ok 1
        put a 1:3 y
        post a
        list a -> 1:3=y
        list top -> 1:3=y",
    ),
    // What was settled stays settled: from the Merge on, the parent's value is the base's.
    (
        "merge makes the parent's records the base",
        NEW,
        "
        put top 1:1 x
        new a top
        put top 1:1 z
        put top 1:2 z
        put a 1:1 y
        merge a 1:1=mine -> ok 1
        changes a -> 1:1=z/y
        conflicts a -> none
        merge a 1:1=mine -> error 10 NotInConflict 1:1
        merge a -> ok 0
        put top 1:1 w
        merge a -> error 9 Unsettled 1
        conflicts a -> 1:1=z/w/y
        list a -> 1:1=y 1:2=z",
    ),
];

#[test]
fn merges_are_answered(rt: HostRuntime) {
    each(&rt, CACHED, ON_BOTH);
    each(&rt, ALONE, IN_MEMORY);
}
