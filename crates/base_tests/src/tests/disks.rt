//! What disks in memory hold after a few calls and after crashes, and disks that fail some of the
//! calls.
use super::script::{Fails, Over, Row, plays_rows};

const ROWS: [Row; 11] = [
    Row {
        name: "gives back what was written",
        blocks: 4,
        room: 4,
        fails: Fails::Uncounted,
        over: Over::Nothing,
        steps: "
            blocks -> 4
            fill 2 7
            holds 0 1 2 3 -> 0 0 7 0
            hand 0 1 2 3 -> 0 0 7 0",
        below: "",
    },
    Row {
        name: "is dirty until a sync",
        blocks: 4,
        room: 4,
        fails: Fails::Uncounted,
        over: Over::Nothing,
        steps: "
            fill 2 7
            dirty 1 2 3 4 -> no yes no no
            sync
            dirty 2 -> no",
        below: "",
    },
    Row {
        name: "gets longer within its room",
        blocks: 3,
        room: 6,
        fails: Fails::Uncounted,
        over: Over::Nothing,
        steps: "
            blocks -> 3
            sure -> 3
            fill 2 7
            grow 5
            blocks -> 5
            sure -> 3
            dirty 1 2 3 4 5 -> no yes yes yes no
            fill 4 8
            holds 1 2 3 4 -> 0 7 0 8
            sync
            blocks -> 5
            sure -> 5
            dirty 4 -> no",
        below: "",
    },
    Row {
        name: "gets no longer than its room",
        blocks: 3,
        room: 6,
        fails: Fails::Uncounted,
        over: Over::Nothing,
        steps: "
            grow 7 -> fault
            blocks -> 3
            sure -> 3
            grow 6
            blocks -> 6",
        below: "",
    },
    Row {
        name: "gets no longer without room",
        blocks: 3,
        room: 3,
        fails: Fails::Uncounted,
        over: Over::Nothing,
        steps: "
            grow 3
            grow 4 -> fault
            blocks -> 3",
        below: "",
    },
    Row {
        name: "a crash fills dirty blocks alone",
        blocks: 4,
        room: 4,
        fails: Fails::Uncounted,
        over: Over::Nothing,
        steps: "
            fill 0 1
            sync
            fill 1 2
            fill 2 3
            # Block 1 twice, block 0 though it is clean, and a number past the end.
            crash 1=8 0=5 77=6 1=9
            dirty 0 1 2 3 -> no no no no
            holds 0 1 2 3 -> 1 9 3 0",
        below: "",
    },
    Row {
        name: "a crash may leave fewer blocks",
        blocks: 2,
        room: 6,
        fails: Fails::Uncounted,
        over: Over::Nothing,
        steps: "
            fill 1 7
            sync
            grow 5
            fill 2 8
            short 3 2=9 4=5
            blocks -> 3
            sure -> 3
            holds 0 1 2 -> 0 7 9
            grow 6
            blocks -> 6
            sure -> 3
            crash 2=9 4=5
            blocks -> 6",
        below: "",
    },
    Row {
        name: "blocks in a row are written as one by one",
        blocks: 5,
        room: 5,
        fails: Fails::Once(4),
        over: Over::Nothing,
        steps: "
            run 1 6 7 8
            calls -> 3
            dirty 0 1 2 3 4 -> no yes yes yes no
            # The second of the next three fails, and the third is not written.
            run 2 1 2 3 -> fault
            calls -> 5
            holds 0 1 2 3 4 -> 0 6 1 9 0",
        below: "",
    },
    Row {
        name: "a growing fails",
        blocks: 2,
        room: 4,
        fails: Fails::Once(1),
        over: Over::Nothing,
        steps: "
            fill 1 7
            grow 4 -> fault
            blown -> yes
            blocks -> 2
            calls -> 2
            grow 4
            blocks -> 4
            calls -> 3
            sure -> 2
            holds 1 -> 7",
        below: "",
    },
    Row {
        name: "one write fails, and the disk goes on",
        blocks: 4,
        room: 4,
        fails: Fails::Once(2),
        over: Over::Nothing,
        steps: "
            fill 1 7
            holds 1 -> 7
            blown -> no
            fill 1 8 -> fault
            blown -> yes
            dirty 1 -> yes
            holds 1 -> 9
            sync
            calls -> 5",
        below: "holds 1 -> 9",
    },
    Row {
        name: "a disk stops",
        blocks: 4,
        room: 4,
        fails: Fails::From(1),
        over: Over::Nothing,
        steps: "
            fill 1 7
            sync -> fault
            holds 1 -> fault
            hand 1 -> fault
            fill 2 8 -> fault
            calls -> 5",
        below: "
            dirty 1 2 3 -> yes yes no
            holds 1 2 3 -> 7 9 0",
    },
];

#[test]
fn disk_in_memory_holds_what_was_written(rt: HostRuntime) {
    plays_rows(&rt, &ROWS);
}
