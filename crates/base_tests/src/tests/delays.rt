//! Which blocks a disk that delays writes has written, what waits after a failure, and what it
//! leaves in a cache.
use super::script::{Fails, NEVER, Over, Row, plays_rows};

const IN_A_WRITE: &str = "
    fill 0 1
    fill 1 2
    fill 2 3 -> fault
    fill 2 3
    holds 0 1 2 -> 1 2 3
    sync";

const IN_THE_SYNC: &str = "
    fill 0 1
    fill 1 2
    fill 2 3
    holds 0 1 2 -> 1 2 3
    sync -> fault
    sync";

const ALL_WRITTEN: &str = "
    dirty 0 1 2 -> no no no
    holds 0 1 2 -> 1 2 3";

const ROWS: [Row; 14] = [
    Row {
        name: "a read sees the blocks that wait",
        blocks: 4,
        room: 4,
        fails: Fails::Uncounted,
        over: Over::Late(2),
        steps: "
            fill 1 7
            fill 1 8
            fill 3 9
            dirty 0 1 2 3 -> no no no no
            holds 0 1 2 3 -> 0 8 0 9
            hand 0 1 2 3 -> 0 8 0 9
            fill 0 5
            hand 3 0 2 -> 9 5 0
            sync
            hand 3 0 2 -> 9 5 0",
        below: "",
    },
    Row {
        name: "the oldest goes out where too many would wait",
        blocks: 8,
        room: 8,
        fails: Fails::Uncounted,
        over: Over::Late(2),
        steps: "
            fill 5 1
            fill 2 2
            # Written again, block 5 is no longer the oldest. A read changes no order.
            fill 5 3
            holds 2 -> 2
            fill 7 4
            dirty 2 5 7 -> yes no no
            holds 2 5 7 -> 2 3 4",
        below: "",
    },
    Row {
        name: "neighbours go out with the oldest",
        blocks: 9,
        room: 9,
        fails: Fails::Uncounted,
        over: Over::Late(4),
        steps: "
            fill 5 1
            fill 1 2
            fill 6 3
            fill 4 4
            fill 8 5
            dirty 1 3 4 5 6 7 8 -> no no yes yes yes no no
            holds 1 3 4 5 6 7 8 -> 2 0 4 1 3 0 5",
        below: "",
    },
    Row {
        name: "a sync writes all, and then syncs",
        blocks: 4,
        room: 4,
        fails: Fails::Once(NEVER),
        over: Over::Late(3),
        steps: "
            fill 3 1
            fill 0 2
            fill 2 3
            calls -> 0
            sync
            calls -> 4
            sync
            calls -> 5",
        below: "
            dirty 0 1 2 3 -> no no no no
            holds 0 1 2 3 -> 2 0 3 1",
    },
    Row {
        name: "what was written out stays while its room is not needed",
        blocks: 8,
        room: 8,
        fails: Fails::Once(NEVER),
        over: Over::Late(2),
        steps: "
            fill 3 4
            fill 2 3
            fill 2 5
            calls -> 0
            # Both go out in a row.
            sync
            calls -> 3
            holds 2 3 -> 5 4
            hand 3 2 -> 4 5
            calls -> 3
            # Block 2 was written out first, and its room is taken.
            fill 5 6
            holds 3 5 -> 4 6
            calls -> 3
            holds 2 -> 5
            calls -> 4
            # Block 3 goes out once more, with its new bytes.
            fill 3 7
            holds 3 -> 7
            calls -> 4
            sync
            calls -> 7
            holds 3 5 -> 7 6
            calls -> 7",
        below: "
            dirty 2 3 5 -> no no no
            holds 2 3 5 -> 5 7 6",
    },
    Row {
        name: "a late disk grows with the one below",
        blocks: 2,
        room: 4,
        fails: Fails::Uncounted,
        over: Over::Late(2),
        steps: "
            fill 1 7
            grow 4
            fill 3 8
            blocks -> 4
            sure -> 2
            holds 0 1 2 3 -> 0 7 0 8
            grow 5 -> fault
            sync
            sure -> 4",
        below: "",
    },
    // Over a cache of two blocks.
    Row {
        name: "a row goes through a cache, and stays in it",
        blocks: 8,
        room: 8,
        fails: Fails::Once(NEVER),
        over: Over::LateOnCache(2, 2),
        steps: "
            fill 2 3
            fill 3 4
            sync
            calls -> 3
            # These two take the room of those that were written out, so the cache is asked for them.
            fill 5 6
            fill 7 8
            holds 2 3 -> 3 4
            calls -> 3",
        below: "
            dirty 2 3 5 7 -> no no no no
            holds 2 3 5 7 -> 3 4 0 0",
    },
    // What fails once: the write of block 0 or 1, which go out to make room for block 2; the write
    // of block 2 at the sync; or the sync. Call 2 is the read of block 0, whose frame block 2 took.
    Row {
        name: "what waits outlives a write of block 0 that fails",
        blocks: 4,
        room: 4,
        fails: Fails::Once(0),
        over: Over::Late(2),
        steps: IN_A_WRITE,
        below: ALL_WRITTEN,
    },
    Row {
        name: "what waits outlives a write of block 1 that fails",
        blocks: 4,
        room: 4,
        fails: Fails::Once(1),
        over: Over::Late(2),
        steps: IN_A_WRITE,
        below: ALL_WRITTEN,
    },
    Row {
        name: "what waits outlives a write of block 2 that fails",
        blocks: 4,
        room: 4,
        fails: Fails::Once(3),
        over: Over::Late(2),
        steps: IN_THE_SYNC,
        below: ALL_WRITTEN,
    },
    Row {
        name: "what waits outlives a sync that fails",
        blocks: 4,
        room: 4,
        fails: Fails::Once(4),
        over: Over::Late(2),
        steps: IN_THE_SYNC,
        below: ALL_WRITTEN,
    },
    Row {
        name: "nothing is kept over a write that fails below",
        blocks: 8,
        room: 8,
        fails: Fails::Once(3),
        over: Over::Late(2),
        // The second write of block 5 fails: what the disk below holds then is read again.
        steps: "
            fill 2 3
            fill 5 4
            sync
            calls -> 3
            holds 2 5 -> 3 4
            fill 5 6
            calls -> 3
            sync -> fault
            calls -> 4
            holds 5 2 -> 6 3
            calls -> 5
            sync
            holds 5 2 -> 6 3
            calls -> 8",
        below: "
            dirty 2 5 -> no no
            holds 2 5 -> 3 6",
    },
    Row {
        name: "a fault below is answered where it is met",
        blocks: 4,
        room: 4,
        fails: Fails::From(0),
        over: Over::Late(2),
        steps: "
            fill 0 1
            fill 1 2
            fill 2 3 -> fault
            sync -> fault
            holds 3 -> fault
            holds 0 1 -> 1 2",
        below: "",
    },
    Row {
        name: "a crash below loses what waits alone",
        blocks: 4,
        room: 4,
        fails: Fails::Uncounted,
        over: Over::Late(1),
        steps: "
            fill 0 1
            fill 1 2
            sync
            fill 0 3
            fill 2 4",
        // Block 0 was written out, and not synced. Block 2 still waits.
        below: "
            crash 0=9 2=9
            holds 0 1 2 3 -> 9 2 0 0",
    },
];

#[test]
fn late_disk_holds_and_writes_out_what_waits(rt: HostRuntime) {
    plays_rows(&rt, &ROWS);
}
