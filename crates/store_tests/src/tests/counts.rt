//! How many device calls each call makes: none reads or writes a block twice without need.
use super::records::TWO_RECORDS;
use super::script::{ALONE, DUCT, NEW, On, Row, Rows, SEVENTEEN, each, each_of};
use super::settlements::{CONFLICT, EACH_ADDED};

/// Opening the store of `duct` makes five device calls: a sync, and four reads. So does opening the
/// one of two records.
const CALLS: &[Row] = &[
    (
        "format, open and commit",
        "",
        "
        format 64
        calls -> 7
        open
        close
        calls -> 11
        open
        commit
        close
        calls -> 19",
    ),
    (
        "get and put at a leaf",
        DUCT,
        "
        open
        get top 7:1 -> duct
        close
        calls -> 6
        open
        put top 7:1 pipe
        close
        calls -> 13",
    ),
    (
        "remove of one of two records at a leaf",
        TWO_RECORDS,
        "
        open
        remove top 7:2
        close
        calls -> 8",
    ),
    (
        "remove of an absent record at a leaf",
        DUCT,
        "
        open
        remove top 7:2 -> error 5 NoSuchRecord
        close
        calls -> 6",
    ),
    (
        "remove of the last record at a leaf",
        DUCT,
        "
        open
        remove top 7:1
        close
        calls -> 7
        dirty -> none",
    ),
    // Opening makes four device calls, and the fourteen Puts 26: each ends the series of the other
    // alternative, and copies its leaf. The first Remove looks first, since it may have to mark
    // blocks. It does, and copies its leaf, which the second changes in its place.
    (
        "remove with fewer than 17 free blocks looks first",
        NEW,
        "
        new a top
        put top 1:1 v
        put a 1:1 v
        put top 1:2 v
        put a 1:2 v
        put top 1:3 v
        put a 1:3 v
        put top 1:4 v
        put a 1:4 v
        put top 1:5 v
        put a 1:5 v
        put top 1:6 v
        put a 1:6 v
        put top 1:7 v
        put a 1:7 v
        free -> 16
        remove top 1:1
        free -> 27
        remove top 1:2
        free -> 27
        close
        # 4 + 26 + 3 + 2
        calls -> 35",
    ),
    // The Put reads and writes a root and a leaf. The Merge reads these two and the two before
    // them, and takes the parent's map. From then on this is its base, too.
    (
        "merge reads only what differs",
        SEVENTEEN,
        "
        open
        put top 1:1 w
        merge spur -> ok 1
        post spur
        close
        # 7 + (2 + 2) + 4
        calls -> 15",
    ),
    // Opening makes seven device calls, and the Merge reads two blocks to find what either side
    // changed. It reads the parent's block once more, and writes the lowest free one.
    (
        "merge of one record writes one leaf",
        EACH_ADDED,
        "
        open
        merge a -> ok 1
        close
        calls -> 13
        dirty -> 37",
    ),
    // A root and two leaves differ on the side of `top`, and a leaf and the root above it on that of
    // `spur`. The Merge puts the one record of `spur` into the map of `top`, which is a root and a
    // leaf.
    (
        "merge makes its changes on the smaller side",
        SEVENTEEN,
        "
        open
        put top 1:1 w
        put top 1:17 w
        put spur 1:2 u
        merge spur -> ok 2
        close
        # 7 + 3 * (2 + 2) + ((3 + 3) + (2 + 2)) + (2 + 2)
        calls -> 33",
    ),
    // Opening makes seven device calls, each Put four, and the Commit four. Of 30 data blocks 15 are
    // free then. A marking reads the seven roots. The Remove looks for the record.
    (
        "changes refused for want of blocks mark once, until something is given back",
        SEVENTEEN,
        "
        open
        kept spur 1:1 v 6
        commit
        free -> 15
        put top 1:1 w -> error 13 Full
        put top 1:1 w -> error 13 Full
        remove top 1:1 -> error 13 Full
        put spur 1:2 w -> error 13 Full
        uncheck spur k001
        put top 1:1 w -> error 13 Full
        put top 1:1 w -> error 13 Full
        close
        # 7 + 6 * 4 + 4 + 7 + 2 + 7
        calls -> 51",
    ),
];

/// Opening the store makes five device calls. A Put reads and writes a leaf. So does a Remove,
/// which reads its leaf once more to look for the record if it begins a series.
const ONE_LEVEL: Rows = (
    "remove in a series reads its leaf once",
    &[
        TWO_RECORDS,
        "open",
        "new a top",
        "?",
        "?",
        "?",
        "close",
        "?",
    ],
    &[
        &["remove top 7:2", "", "", "calls -> 8"],
        &["remove top 7:2", "remove top 7:1", "", "calls -> 9"],
        &["put top 7:3 z", "remove top 7:2", "", "calls -> 9"],
        &[
            "put top 7:3 z",
            "get top 7:1 -> duct",
            "remove top 7:2",
            "calls -> 10",
        ],
        &[
            "put top 7:3 z",
            "remove top 7:9 -> error 5 NoSuchRecord",
            "remove top 7:2",
            "calls -> 10",
        ],
        &[
            "remove top 7:9 -> error 5 NoSuchRecord",
            "remove top 7:2",
            "",
            "calls -> 9",
        ],
        &[
            "put top 7:3 z",
            "new b top",
            "remove top 7:2",
            "calls -> 10",
        ],
        &["put top 7:3 z", "reclaim", "remove top 7:2", "calls -> 10"],
        &["put a 7:3 z", "remove top 7:2", "", "calls -> 10"],
        &[
            "put top 7:3 z",
            "put a 7:3 z",
            "remove top 7:2",
            "calls -> 12",
        ],
    ],
);

/// Each Remove and each Put reads two blocks of the path, and writes two.
const TWO_LEVELS: Rows = (
    "remove in a series reads a path of two levels once",
    &[SEVENTEEN, "open", "?", "remove top 1:17", "close", "?"],
    &[
        &["", "calls -> 13"],
        &["remove top 1:16", "calls -> 17"],
        &["put top 1:1 w", "calls -> 15"],
        &["get top 1:16 -> 76*240", "calls -> 15"],
    ],
);

const THREE_LEVELS: &str = "
    format 2048
    open
    puts top 1:1 771 76*1300
    commit
    close
    anew
    open
    free -> 1754";

/// The leaves have three records each. With 257 leaves there are two blocks above them, and the
/// root. An opening reads the root to find the tree, and once more with these two to mark its
/// blocks, and makes four more calls.
const OF_THREE_LEVELS: Rows = (
    "remove in a series reads a path of three levels once",
    &[THREE_LEVELS, "?", "remove top 1:1", "close", "?"],
    &[
        &["", "calls -> 17"],
        &["remove top 1:2", "calls -> 23"],
        &["put top 1:2 w", "calls -> 20"],
    ],
);

const LIST: &str = "list top -> 1:1=76*240 1:2=76*240 1:3=76*240 1:4=76*240 1:5=76*240 1:6=76*240 \
    1:7=76*240 1:8=76*240 1:9=76*240 1:10=76*240 1:11=76*240 1:12=76*240 1:13=76*240 \
    1:14=76*240 1:15=76*240 1:16=76*240 1:17=76*240";

/// On a map of two levels. An opening syncs and reads the header, the selector and one block of the
/// slot, and the root three times: to find the tree of each alternative, and to mark its blocks. A
/// get reads two blocks, a list three, and a Put writes the two that it has read. A Remove that
/// begins a series reads its path a second time, and a Reclaim reads only the root. What both
/// alternatives share is not read to compare them.
const ONCE: Rows = (
    "each block is read and written once",
    &[SEVENTEEN, "open", "?", "close", "?"],
    &[
        &["", "calls -> 7"],
        &["get top 1:17 -> 76*240", "calls -> 9"],
        &[LIST, "calls -> 10"],
        &["put top 1:17 76*240", "calls -> 11"],
        &["remove top 1:17", "calls -> 13"],
        &["reclaim", "calls -> 8"],
        &["changes spur -> none", "calls -> 7"],
        &["conflicts spur -> none", "calls -> 7"],
        &["tally spur -> 0 0 0 yes", "calls -> 7"],
        &["merge spur -> ok 0", "calls -> 7"],
        &["post spur", "calls -> 7"],
    ],
);

const UNCHANGED: &str = "
    close
    calls -> 11
    dirty -> none";

/// Opening makes seven device calls. Each Merge reads two blocks to find what either side changed.
/// A Merge that is refused, or that keeps or takes all values, writes no block.
const MERGES: Rows = (
    "merge that changes nothing writes nothing",
    &[CONFLICT, "open", "?", UNCHANGED],
    &[
        &["merge a 1:1=theirs 1:1=theirs -> error 11 SettledTwice 1:1"],
        &["merge a 1:1=theirs 1:17=theirs -> error 10 NotInConflict 1:17"],
        &["merge a -> error 9 Unsettled 1"],
        &["merge a 1:1=mine -> ok 0"],
        &["merge a 1:1=theirs -> ok 1"],
    ],
);

#[test]
fn calls_are_counted(rt: HostRuntime) {
    each(&rt, ALONE, CALLS);
    each_of(&rt, ALONE, &ONE_LEVEL);
    each_of(&rt, ALONE, &TWO_LEVELS);
    let on = On {
        blocks: 2048,
        room: 2048,
        ..ALONE
    };
    each_of(&rt, on, &OF_THREE_LEVELS);
    each_of(&rt, ALONE, &ONCE);
    each_of(&rt, ALONE, &MERGES);
}
