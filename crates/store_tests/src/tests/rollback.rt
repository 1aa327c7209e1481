//! What a Rollback undoes, and which blocks are free after it. Those that were taken since the
//! Commit are held until the next marking.
use super::script::{ALONE, CACHED, LATE, NEW, RoomRow, Row, each, each_with_room};

const UNDONE: &[Row] = &[
    // Opening makes four device calls.
    (
        "nothing to undo",
        NEW,
        "
        rollback
        rollback
        blocks -> 64
        free -> 30
        alts -> top
        list top -> none
        close
        calls -> 4
        dirty -> none",
    ),
    (
        "puts and removes are undone",
        NEW,
        "
        put top 1:1 x
        commit
        put top 1:1 y
        put top 1:2 z
        remove top 1:1
        list top -> 1:2=z
        rollback
        list top -> 1:1=x
        free -> 28
        reclaim
        free -> 29
        rollback
        list top -> 1:1=x
        free -> 29",
    ),
    (
        "alternatives and checkpoints are as they were",
        NEW,
        "
        new a top
        put a 1:1 x
        checkpoint a c
        commit
        put a 1:1 y
        checkpoint a d
        uncheck a c
        new b a
        checkpoint b e
        checks a -> d
        rollback
        alts -> top a<top
        checks a -> c
        get a 1:1 -> x
        checks b -> error 1 NoSuchAlternative
        drop a
        alts -> top
        rollback
        alts -> top a<top
        checks a -> c
        put a 1:1 z
        back a c
        get a 1:1 -> x
        rollback
        new b a c
        list b -> 1:1=x",
    ),
    (
        "posts and merges are undone",
        NEW,
        "
        new a top
        put a 1:1 x
        commit
        post a
        list top -> 1:1=x
        rollback
        list top -> none
        changes a -> 1:1=~/x
        put top 1:1 z
        merge a 1:1=theirs -> ok 1
        list a -> 1:1=z
        changes a -> none
        rollback
        list top -> none
        list a -> 1:1=x
        changes a -> 1:1=~/x
        free -> 28
        reclaim
        free -> 29
        post a
        list top -> 1:1=x",
    ),
    // The Rollback leaves blocks 34 to 47 held. The Put finds 16 free ones, marks, and takes block
    // 34.
    (
        "the next marking frees what was taken",
        NEW,
        "
        kept top 1:1 v 14
        free -> 16
        rollback
        free -> 16
        checks top -> none
        put top 1:1 w
        free -> 29
        list top -> 1:1=w",
    ),
    (
        "a commit after it commits the same again",
        NEW,
        "
        put top 1:1 x
        commit
        put top 1:1 y
        rollback
        commit
        put top 1:1 z
        rollback
        put top 1:2 w
        commit
        put top 1:3 v
        close
        crash all=41
        open
        list top -> 1:1=x 1:2=w
        rollback
        list top -> 1:1=x 1:2=w
        free -> 29",
    ),
    (
        "a list of commands goes on behind it",
        NEW,
        "
        run put top 1:1 x ; rollback ; put top 1:2 y ; commit ; rollback -> ok ; ok ; ok ; ok ; ok ; end
        list top -> 1:2=y",
    ),
];

const FAILED: &[Row] = &[(
    "a store that has failed undoes nothing",
    NEW,
    "
    put top 1:1 x
    grow 65 -> error 15 Device
    rollback -> error 17 Failed
    run rollback -> Failed",
)];

const GROWN: &[RoomRow] = &[
    // Opening makes four device calls, and the Grow and the Put one each.
    (
        "growth is undone without a device call",
        68,
        NEW,
        "
        grow 68
        put top 1:1 x
        blocks -> 68
        free -> 33
        rollback
        blocks -> 64
        free -> 29
        list top -> none
        close
        calls -> 6
        dirty -> 34 64 65 66 67
        open
        blocks -> 64
        free -> 30",
    ),
    // The checkpoints keep blocks 34 to 73, so none of the first 64 is free after the Rollback. The
    // new blocks of the second Grow all are, and the Put takes block 64.
    (
        "blocks that were taken go with a growth",
        96,
        NEW,
        "
        grow 96
        kept top 1:1 v 40
        free -> 22
        rollback
        blocks -> 64
        free -> 0
        list top -> none
        checks top -> none
        grow 96
        free -> 32
        put top 1:1 w
        free -> 31
        reclaim
        free -> 61
        commit
        close
        dirty -> none
        block 64 -> 0:4C454633 8:01 16:01 18:01 26:01 28:77
        crash all=41
        open
        blocks -> 96
        free -> 61
        list top -> 1:1=w",
    ),
    (
        "only the growth since the commit is undone",
        128,
        NEW,
        "
        grow 80
        put top 1:1 x
        commit
        grow 90
        grow 100
        free -> 65
        rollback
        blocks -> 80
        free -> 45
        grow 80 -> error 21 BadSize
        grow 70 -> error 21 BadSize
        grow 81
        free -> 46
        rollback
        blocks -> 80
        commit
        close
        crash all=41
        open
        blocks -> 80
        free -> 45
        list top -> 1:1=x",
    ),
    // There are 30 data blocks. Each of the 14 checkpoints keeps one, so 16 are spare, too few for
    // a Put.
    (
        "room that a growth made is gone with it",
        65,
        NEW,
        "
        kept top 1:1 v 14
        commit
        grow 65
        put top 1:1 v
        free -> 16
        rollback
        free -> 15
        put top 1:1 v -> error 13 Full
        free -> 16
        grow 65
        put top 1:1 v
        free -> 16",
    ),
];

const SERIES: &[Row] = &[
    // Block 34 is committed. The Puts before the Rollback take one block, and those after it one
    // more.
    (
        "series after a rollback leaves what was committed",
        NEW,
        "
        put top 1:1 x
        commit
        puts top 1:2 3 v
        free -> 28
        rollback
        put top 1:2 w
        put top 1:3 w
        free -> 27
        close
        crash all=41
        open
        list top -> 1:1=x",
    ),
];

#[test]
fn rollback_goes_back_to_what_was_committed(rt: HostRuntime) {
    each(&rt, CACHED, UNDONE);
    each(&rt, ALONE, FAILED);
    each_with_room(&rt, GROWN);
    each(&rt, LATE, SERIES);
}
