//! Differences of values of any length, their conflicts, and merges.
use crate::tests::script::{CACHED, LARGE, NEW, Row, each};

const ON_BOTH: &[Row] = &[
    // The base has block 34, `top` 35, and `a` 36. The Merge takes the map of `top`, which is then
    // that of both.
    (
        "merge that takes a great value shares its leaf",
        NEW,
        "
        put top 1:1 61*300
        new a top
        free -> 29
        put top 1:1 62*300
        free -> 28
        put a 1:1 63*4000
        free -> 27
        changes a -> 1:1=61*300/63*4000
        changes top -> 1:1=~/62*300
        conflicts a -> 1:1=61*300/62*300/63*4000
        tally a -> 1 1 1 no
        merge a -> error 9 Unsettled 1
        post a -> error 8 NotMerged
        merge a 1:1=theirs -> ok 1
        free -> 27
        list a -> 1:1=62*300
        changes a -> none",
    ),
    // `top` has block 34, and `a` 35. The Merge puts the value of `a` into the leaf of `top`.
    (
        "merge that keeps a great value writes it anew",
        NEW,
        "
        new a top
        put top 1:1 x
        put a 1:2 63*300
        free -> 28
        merge a -> ok 1
        free -> 27
        list a -> 1:1=x 1:2=63*300
        changes a -> 1:2=~/63*300
        close
        block 36 -> 0:4C454633 8:02 16:01 18:01 26:01 28:01 30:02 38:2D0178 41:63*300",
    ),
    // Its leaf has no room for both, and the Merge writes two and a root.
    (
        "merge splits a leaf",
        NEW,
        "
        new a top
        put top 1:1 61*4000
        put a 1:2 63*4000
        free -> 28
        merge a -> ok 1
        free -> 25
        list a -> 1:1=61*4000 1:2=63*4000
        changes a -> 1:2=~/63*4000
        post a
        list top -> 1:1=61*4000 1:2=63*4000
        reclaim
        free -> 27",
    ),
    // The value of `a` grows between the two of `top`, and its leaf becomes three.
    (
        "merge splits a leaf in three",
        NEW,
        "
        put top 1:2 v
        new a top
        put top 1:1 61*2000
        put top 1:3 61*2000
        put a 1:2 62*4000
        free -> 27
        merge a -> ok 2
        free -> 23
        list a -> 1:1=61*2000 1:2=62*4000 1:3=61*2000
        changes a -> 1:2=v/62*4000
        close
        block 37 -> 0:4C454633 8:01 16:01 18:01 26:D007 28:61*2000
        block 38 -> 0:4C454633 8:01 16:01 18:02 26:A00F 28:62*4000
        block 39 -> 0:4C454633 8:01 16:01 18:03 26:D007 28:61*2000",
    ),
    (
        "reclaim frees the leaves that a merge replaced",
        NEW,
        "
        put top 1:1 61*300
        new a top
        put top 1:1 62*300
        put a 1:1 63*4000
        merge a 1:1=theirs -> ok 1
        free -> 27
        reclaim
        free -> 29
        post a
        reclaim
        free -> 29
        list top -> 1:1=62*300
        commit
        close
        crash all=41
        open
        list top -> 1:1=62*300
        list a -> 1:1=62*300
        free -> 29",
    ),
    // The same value in another block is no change.
    (
        "value that is written again is no change",
        NEW,
        "
        put top 1:1 61*300
        new a top
        put a 1:1 61*300
        put top 1:1 61*300
        free -> 27
        changes a -> none
        conflicts a -> none
        merge a -> ok 0
        post a
        put a 1:1 61*299
        changes a -> 1:1=61*300/61*299
        post a
        list top -> 1:1=61*299",
    ),
    // The same records in leaves that are cut in another way are no change either: three in one
    // leaf, and in three.
    (
        "records in leaves that are cut in another way are no change",
        NEW,
        "
        put top 1:1 61*1300
        put top 1:2 62*1300
        put top 1:3 63*1300
        new a top
        put a 1:2 64*4000
        put a 1:2 62*1300
        changes a -> none
        diff top a -> none
        tally a -> 0 0 0 yes
        put top 1:4 v
        conflicts a -> none
        merge a -> ok 1
        list a -> 1:1=61*1300 1:2=62*1300 1:3=63*1300 1:4=v",
    ),
    // The checkpoint has block 34. After going back to it, block 35 is in no map.
    (
        "back shows the value of the checkpoint",
        NEW,
        "
        put top 1:1 61*300
        checkpoint top c
        put top 1:1 62*3001
        free -> 28
        get top 1:1 -> 62*3001
        new a top c
        get a 1:1 -> 61*300
        back top c
        get top 1:1 -> 61*300
        reclaim
        free -> 29
        put top 1:1 ''
        free -> 28
        uncheck top c
        drop a
        reclaim
        free -> 29
        list top -> 1:1=''",
    ),
];

const IN_256_BLOCKS: &[Row] = &[
    // Each of the three values is great in one of these, and none in another.
    (
        "great values are in conflict with short ones and absence",
        "",
        "
        format 256
        open
        put top 1:1 61*4000
        put top 1:2 61*300
        put top 1:3 x
        put top 1:4 61*300
        put top 1:5 61*300
        put top 1:7 61*300
        new a top
        put top 1:1 62*4000
        remove top 1:2
        put top 1:3 62*300
        put top 1:4 z
        put top 1:5 61*301
        put top 1:6 62*300
        put top 1:7 62*300
        put a 1:1 63*4000
        put a 1:2 63*300
        put a 1:3 63*300
        remove a 1:4
        put a 1:5 61*302
        put a 1:6 63*300
        put a 1:7 62*300
        conflicts a -> 1:1=61*4000/62*4000/63*4000 1:2=61*300/~/63*300 1:3=x/62*300/63*300 \
            1:4=61*300/z/~ 1:5=61*300/61*301/61*302 1:6=~/62*300/63*300
        tally a -> 7 7 6 no
        merge a -> error 9 Unsettled 6
        merge a 1:1=mine 1:2=theirs 1:3=theirs 1:4=mine 1:5=theirs 1:6=mine -> ok 3
        list a -> 1:1=63*4000 1:3=62*300 1:5=61*301 1:6=63*300 1:7=62*300
        changes a -> 1:1=62*4000/63*4000 1:4=z/~ 1:6=62*300/63*300
        conflicts a -> none
        post a
        list top -> 1:1=63*4000 1:3=62*300 1:5=61*301 1:6=63*300 1:7=62*300",
    ),
];

#[test]
fn values_of_any_length_are_compared_and_merged(rt: HostRuntime) {
    each(&rt, CACHED, ON_BOTH);
    each(&rt, LARGE, IN_256_BLOCKS);
}
