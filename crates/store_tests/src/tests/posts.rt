//! What a Post answers, and what it leaves in both alternatives.
use super::script::{ALONE, CACHED, NEW, Row, each};

const ON_BOTH: &[Row] = &[
    // The parent has the records of the base again, in another block.
    (
        "parent that went back to the base is merged",
        NEW,
        "
        put top 1:1 x
        new a top
        put a 1:2 y
        put top 1:1 z
        post a -> error 8 NotMerged
        put top 1:1 x
        post a
        list top -> 1:1=x 1:2=y
        changes a -> none",
    ),
];

const IN_MEMORY: &[Row] = &[
    (
        "grandchild merges from its parent and posts to it",
        NEW,
        "
        new a top
        new b a
        put top 1:1 x
        put a 1:2 y
        merge b -> ok 1
        list b -> 1:2=y
        put b 1:3 z
        post b
        post a -> error 8 NotMerged
        list a -> 1:2=y 1:3=z
        list top -> 1:1=x",
    ),
    (
        "merge that is not committed is gone after closing",
        NEW,
        "
        new a top
        put top 1:1 x
        commit
        merge a -> ok 1
        get a 1:1 -> x
        close
        open
        get a 1:1 -> ~
        post a -> error 8 NotMerged
        merge a -> ok 1
        put a 1:2 y
        commit
        post a
        close
        open
        get a 1:1 -> x
        get top 1:2 -> ~
        merge a -> ok 0
        post a
        commit
        close
        open
        get top 1:2 -> y",
    ),
];

#[test]
fn posts_are_answered(rt: HostRuntime) {
    each(&rt, CACHED, ON_BOTH);
    each(&rt, ALONE, IN_MEMORY);
}
