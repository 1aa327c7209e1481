//! What a cache of a disk asks the disk for, and what both hold.
use super::script::{Fails, NEVER, Over, Row, plays_rows};

const ROWS: [Row; 8] = [
    Row {
        name: "asks for what it does not keep",
        blocks: 64,
        room: 64,
        fails: Fails::Once(5),
        over: Over::Cache(2),
        steps: "
            holds 34 -> 0
            calls -> 1
            holds 34 -> 0
            calls -> 1
            holds 35 -> 0
            calls -> 2
            holds 36 -> 0
            calls -> 3
            holds 34 -> 0
            calls -> 4
            fill 34 7
            calls -> 5
            holds 34 -> 7
            calls -> 5
            fill 34 8 -> fault
            calls -> 6
            holds 34 -> 9
            calls -> 7
            sync
            calls -> 8",
        below: "",
    },
    Row {
        name: "lends what it keeps",
        blocks: 64,
        room: 64,
        fails: Fails::Once(3),
        over: Over::Cache(2),
        steps: "
            fill 34 7
            calls -> 1
            hand 34 -> 7
            calls -> 1
            hand 35 -> 0
            calls -> 2
            hand 34 35 -> 7 0
            holds 35 34 -> 0 7
            calls -> 2
            # Block 35 was used longest ago, and goes.
            hand 36 -> 0
            calls -> 3
            hand 35 -> fault
            calls -> 4
            hand 34 36 -> 7 0
            calls -> 4
            hand 35 -> 0
            calls -> 5",
        below: "",
    },
    Row {
        name: "keeps no block that is needed once",
        blocks: 64,
        room: 64,
        fails: Fails::Once(6),
        over: Over::Cache(2),
        steps: "
            holds 34 35 -> 0 0
            calls -> 2
            once 36 37 36 -> 0 0 0
            calls -> 5
            # None went for them.
            holds 34 35 -> 0 0
            calls -> 5
            # Block 34 is kept, and is now used last: 35 goes.
            once 34 -> 0
            holds 36 -> 0
            calls -> 6
            once 37 -> fault
            calls -> 7
            holds 34 36 -> 0 0
            calls -> 7
            once 35 37 -> 0 0
            hand 34 36 -> 0 0
            calls -> 9",
        below: "",
    },
    Row {
        name: "lends each block where it keeps one",
        blocks: 8,
        room: 8,
        fails: Fails::Once(NEVER),
        over: Over::Cache(1),
        steps: "
            fill 1 1
            fill 2 2
            fill 3 3
            hand 1 2 3 3 1 -> 1 2 3 3 1
            calls -> 7
            holds 1 2 -> 1 2
            hand 2 -> 2
            calls -> 8",
        below: "",
    },
    Row {
        name: "keeps the blocks of a run",
        blocks: 8,
        room: 8,
        fails: Fails::Once(NEVER),
        over: Over::Cache(3),
        steps: "
            fill 2 5
            calls -> 1
            run 1 6 7 8
            calls -> 4
            holds 1 2 3 -> 6 7 8
            calls -> 4
            # Block 1 was used longest ago, and goes.
            holds 4 -> 0
            holds 2 3 -> 7 8
            calls -> 5
            holds 1 -> 6
            calls -> 6",
        below: "",
    },
    Row {
        name: "keeps no block of a run that failed",
        blocks: 8,
        room: 8,
        fails: Fails::Once(4),
        over: Over::Cache(4),
        steps: "
            fill 1 1
            fill 2 2
            run 1 6 7 8 -> fault
            calls -> 5
            holds 1 2 3 -> 6 7 9
            calls -> 8
            holds 1 2 3 -> 6 7 9
            calls -> 8",
        below: "",
    },
    Row {
        name: "gets longer",
        blocks: 2,
        room: 4,
        fails: Fails::Uncounted,
        over: Over::Cache(4),
        steps: "
            fill 1 7
            grow 4
            blocks -> 4
            fill 3 8
            holds 1 2 3 -> 7 0 8
            grow 5 -> fault",
        below: "blocks -> 4",
    },
    Row {
        name: "writes through",
        blocks: 4,
        room: 4,
        fails: Fails::Uncounted,
        over: Over::Cache(1),
        steps: "
            blocks -> 4
            fill 2 7
            fill 2 8
            dirty 2 -> yes
            holds 1 2 -> 0 8
            sync",
        below: "
            dirty 2 -> no
            holds 2 -> 8",
    },
];

#[test]
fn cache_holds_what_the_disk_below_does(rt: HostRuntime) {
    plays_rows(&rt, &ROWS);
}
