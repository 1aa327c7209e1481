//! A store that grows, on a disk with room for the blocks, on one without, and on one that already
//! has them.
use super::script::{
    ALONE, CACHED, DUCT, NEW, On, RoomRow, Row, Rows, each, each_of, each_with_room,
};

/// Growths that are refused or not committed.
const NOT_COMMITTED: &[RoomRow] = &[
    // The device calls are those of the opening.
    (
        "bad size changes nothing",
        128,
        NEW,
        "
        grow 64 -> error 21 BadSize
        grow 63 -> error 21 BadSize
        grow 67108865 -> error 21 BadSize
        grow 0 -> error 21 BadSize
        grow 4294967295 -> error 21 BadSize
        blocks -> 64
        free -> 30
        close
        calls -> 4
        dirty -> none",
    ),
    // Of 128 blocks, 34 are the store's own. The Put takes block 34, and the crash takes the new
    // blocks away.
    (
        "growth that is not committed is gone after a crash",
        128,
        NEW,
        "
        grow 128
        blocks -> 128
        free -> 94
        put top 1:1 x
        free -> 93
        close
        short 64
        open
        blocks -> 64
        free -> 30
        list top -> none
        grow 128
        put top 1:1 x
        commit
        close
        dirty -> none
        crash all=41
        open
        blocks -> 128
        free -> 93
        list top -> 1:1=x",
    ),
    // The disk keeps the blocks that it got, so the second Grow makes no device call.
    (
        "growth that is not committed is gone after closing",
        128,
        NEW,
        "
        grow 128
        close
        calls -> 5
        anew
        open
        blocks -> 64
        free -> 30
        grow 128
        blocks -> 128
        free -> 94
        close
        calls -> 4",
    ),
    // A crash has left 6 of 16 new blocks. Opening makes five device calls.
    (
        "blocks that a crash has left are used",
        80,
        DUCT,
        "
        open
        grow 80
        close
        short 70 all=41
        open
        blocks -> 64
        grow 66
        grow 70
        close
        calls -> 5
        anew
        open
        grow 66
        grow 80
        free -> 45
        close
        calls -> 6
        dirty -> 70 71 72 73 74 75 76 77 78 79",
    ),
];

/// What becomes of the new blocks.
const USED: &[RoomRow] = &[
    // Block 0 has no block count. Slot A, which the Commit writes, has 80, which is 50 in
    // hexadecimal, and slot B has 64 as before.
    (
        "commit writes the new number of blocks",
        80,
        DUCT,
        "
        open
        grow 80
        commit
        close
        block 0 -> 0:414C5453544F524503 13:10
        block 1 -> none
        block 2 -> 0:534C4F5403 8:50 12:01 128:4103746F70 195:22
        block 18 -> 0:534C4F5403 8:40 12:01 128:4103746F70 195:22",
    ),
    // The checkpoints keep blocks 34 to 73. The Put before the last takes 74, and the last one
    // changes it in its place.
    (
        "new blocks are taken, kept and found again",
        96,
        NEW,
        "
        grow 96
        kept top 1:1 v 40
        put top 1:2 w
        put top 1:2 x
        free -> 21
        reclaim
        free -> 21
        commit
        close
        block 74 -> 0:4C454633 8:02 16:01 18:01 26:01 28:01 30:02 38:02 40:7678
        crash all=41
        open
        blocks -> 96
        free -> 21
        list top -> 1:1=v 1:2=x
        back top k040
        list top -> 1:1=v",
    ),
    // There are 30 data blocks. Each of the 14 checkpoints keeps one, so 16 are spare, and one more
    // with the new one.
    (
        "growth makes room for a put",
        65,
        NEW,
        "
        kept top 1:1 v 14
        commit
        put top 1:1 v -> error 13 Full
        free -> 16
        grow 65
        free -> 17
        put top 1:1 v
        free -> 16
        put top 1:1 v -> error 13 Full",
    ),
    // The store is on the first 64 of 130 blocks. There is room for 140, and the disk is asked only
    // for more than 130.
    (
        "growth within the disk makes no device call",
        140,
        "",
        "
        longer 130
        format 64
        anew
        open
        blocks -> 64
        free -> 30
        grow 100
        blocks -> 100
        free -> 66
        grow 130
        blocks -> 130
        free -> 96
        close
        calls -> 4
        anew
        open
        blocks -> 64
        grow 129
        grow 131
        free -> 97
        close
        calls -> 5
        dirty -> 130
        anew
        open
        grow 100
        put top 1:1 x
        commit
        close
        crash all=41
        open
        blocks -> 100
        free -> 65
        list top -> 1:1=x
        grow 140
        free -> 105",
    ),
    // Two Puts write blocks 34 and 35.
    (
        "growth stands among other commands",
        128,
        NEW,
        "
        run put top 1:1 x ; grow 128 ; grow 128 ; put top 1:2 y ; commit \
            -> ok ; ok ; error 21 BadSize ; ok ; ok ; end
        blocks -> 128
        free -> 92
        close
        open
        blocks -> 128
        free -> 93
        list top -> 1:1=x 1:2=y",
    ),
    // The Puts and the Merge write blocks 34 to 38. The checkpoint keeps block 34, and everything
    // else is in block 38.
    (
        "growth is no part of an alternative or a checkpoint",
        130,
        NEW,
        "
        put top 1:1 x
        checkpoint top c
        grow 128
        put top 1:1 y
        back top c
        blocks -> 128
        get top 1:1 -> x
        new a top
        put top 1:2 z
        put a 1:3 w
        grow 130
        merge a -> ok 1
        changes a -> 1:3=~/w
        post a
        drop a
        blocks -> 130
        free -> 91
        commit
        close
        open
        blocks -> 130
        free -> 94
        alts -> top
        checks top -> c
        list top -> 1:1=x 1:2=z 1:3=w",
    ),
];

#[test]
fn growth_counts_from_its_commit_on(rt: HostRuntime) {
    each_with_room(&rt, NOT_COMMITTED);
    each_with_room(&rt, USED);
}

const NO_ROOM_ON_BOTH: &[Row] = &[
    // Opening makes four device calls.
    (
        "store fails where the disk has no room",
        NEW,
        "
        grow 65 -> error 15 Device
        grow 65 -> error 17 Failed
        grow 64 -> error 17 Failed
        blocks -> error 17 Failed
        free -> error 17 Failed
        close
        calls -> 5
        anew
        open
        blocks -> 64
        free -> 30",
    ),
];

const NO_ROOM_IN_MEMORY: &[Row] = &[
    // It is not a bad size.
    (
        "store may ask for as many blocks as one may have",
        NEW,
        "grow 67108864 -> error 15 Device",
    ),
    (
        "list ends where the disk has no room",
        NEW,
        "
        run put top 1:1 x ; grow 65 ; commit -> ok ; error 15 Device ; Device
        run grow 65 -> Failed",
    ),
];

#[test]
fn store_fails_where_the_disk_has_no_room(rt: HostRuntime) {
    each(&rt, CACHED, NO_ROOM_ON_BOTH);
    each(&rt, ALONE, NO_ROOM_IN_MEMORY);
}

/// What is shown after a crash before the Commit of a growth, and the same again without a crash.
const AS_BEFORE: &str = "
    open
    blocks -> 64
    free -> 29
    list top -> 7:1=duct
    grow 80
    free -> 45
    put top 7:2 pipe
    commit
    close
    dirty -> none
    crash all=41
    open
    blocks -> 80
    free -> 45
    list top -> 7:1=duct 7:2=pipe";

const CLOSED: &str = "
    open
    grow 80
    close";

const IN_THE_PUT: &str = "
    open
    grow 80
    put top 7:2 pipe -> error 15 Device
    blocks -> error 17 Failed
    close";

const IN_THE_COMMIT: &str = "
    open
    grow 80
    put top 7:2 pipe
    commit -> error 15 Device
    blocks -> error 17 Failed
    close";

/// Opening makes five device calls, the Grow one, the Put two, and the Commit four: it writes the
/// slot, syncs, writes the selector, and syncs.
const BEFORE_THE_FIRST_SYNC: Rows = (
    "crash before the first sync shows the old number of blocks",
    &[DUCT, "?", "?", "?", AS_BEFORE],
    &[
        &["anew", CLOSED, "short 64"],
        &["anew", CLOSED, "short 64 all=41"],
        &["anew", CLOSED, "short 65 all=00"],
        &["anew", CLOSED, "short 79 all=FF"],
        &["anew", CLOSED, "short 80 all=41"],
        &["anew", CLOSED, "crash"],
        &["stop 6 41 41", IN_THE_PUT, "short 64"],
        &["stop 6 41 41", IN_THE_PUT, "short 64 all=41"],
        &["stop 6 41 41", IN_THE_PUT, "short 65 all=00"],
        &["stop 6 41 41", IN_THE_PUT, "short 79 all=FF"],
        &["stop 6 41 41", IN_THE_PUT, "short 80 all=41"],
        &["stop 6 41 41", IN_THE_PUT, "crash"],
        &["stop 7 41 41", IN_THE_PUT, "short 64"],
        &["stop 7 41 41", IN_THE_PUT, "short 64 all=41"],
        &["stop 7 41 41", IN_THE_PUT, "short 65 all=00"],
        &["stop 7 41 41", IN_THE_PUT, "short 79 all=FF"],
        &["stop 7 41 41", IN_THE_PUT, "short 80 all=41"],
        &["stop 7 41 41", IN_THE_PUT, "crash"],
        &["stop 8 41 41", IN_THE_COMMIT, "short 64"],
        &["stop 8 41 41", IN_THE_COMMIT, "short 64 all=41"],
        &["stop 8 41 41", IN_THE_COMMIT, "short 65 all=00"],
        &["stop 8 41 41", IN_THE_COMMIT, "short 79 all=FF"],
        &["stop 8 41 41", IN_THE_COMMIT, "short 80 all=41"],
        &["stop 8 41 41", IN_THE_COMMIT, "crash"],
        &["stop 9 41 41", IN_THE_COMMIT, "short 64"],
        &["stop 9 41 41", IN_THE_COMMIT, "short 64 all=41"],
        &["stop 9 41 41", IN_THE_COMMIT, "short 65 all=00"],
        &["stop 9 41 41", IN_THE_COMMIT, "short 79 all=FF"],
        &["stop 9 41 41", IN_THE_COMMIT, "short 80 all=41"],
        &["stop 9 41 41", IN_THE_COMMIT, "crash"],
    ],
);

const IN_THE_SELECTOR: &str = "
    open
    grow 80
    put top 7:2 pipe
    commit -> error 15 Device
    close
    dirty -> 1";

const AS_COMMITTED: &str = "
    open
    blocks -> 80
    free -> 45
    list top -> 7:1=duct 7:2=pipe";

/// By then all blocks are sure. An odd selector names slot B, which says 64 blocks, and an even one
/// names slot A.
const AFTER_THE_FIRST_SYNC: Rows = (
    "crash after the first sync shows either number of blocks",
    &[DUCT, "?", IN_THE_SELECTOR, "?", "?"],
    &[
        &["stop 10 A5 00", "crash", AS_BEFORE],
        &["stop 10 FE 00", "crash", AS_COMMITTED],
        &["stop 11 41 41", "crash 1=01", AS_BEFORE],
        &["stop 11 41 41", "crash", AS_COMMITTED],
    ],
);

const IN_THE_GROW: &str = "
    open
    grow 80 -> error 15 Device
    blocks -> error 17 Failed
    close
    calls -> 6
    crash all=41";

/// The Grow makes the sixth device call.
const FAILED: Rows = (
    "growth that the device fails changes nothing",
    &[DUCT, "?", IN_THE_GROW, AS_BEFORE],
    &[&["once 5"], &["stop 5 41 41"]],
);

/// Over a cache as well, with room for the new blocks.
const ON: On = On { room: 80, ..CACHED };

#[test]
fn growth_is_shown_whole_or_not_at_all_after_a_crash(rt: HostRuntime) {
    each_of(&rt, ON, &BEFORE_THE_FIRST_SYNC);
    each_of(&rt, ON, &AFTER_THE_FIRST_SYNC);
    each_of(&rt, ON, &FAILED);
}
