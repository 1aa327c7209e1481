//! What a tree drops as records go.
use super::script::{Row, SEVENTEEN, plays_rows};

const ROWS: [Row; 3] = [
    (
        // Leaves of three records, the last one alone in its own. Four puts take 1, 1, 1 and 3 of
        // 222 blocks.
        "drops an empty leaf, and the root above one child",
        &[
            "
        new 256
        sizes 3 2
        puts 1 4 1300*v
        leaves -> 3 1
        free -> 216
        remove 4
        free -> 216
        root -> 37.0.1
        remove 1
        free -> 215
        root -> 40.0.2
        remove 1 -> none
        remove 3
        remove 2
        root -> none
        remove 2 -> none",
        ],
    ),
    (
        "comes back to the first leaf",
        &[
            SEVENTEEN,
            "
        let go
        free -> 27
        remove 17
        root -> 38.1.1
        remove 16
        root -> 40.1.1
        remove 15
        root -> 42.1.1
        remove 14
        root -> 44.1.1
        remove 13
        root -> 46.1.1
        remove 12
        root -> 48.1.1
        let go
        remove 11
        root -> 36.1.1
        free -> 25
        remove 10
        root -> 38.1.1
        remove 9
        root -> 35.0.1
        free -> 23
        let go
        free -> 29
        count 35 -> 8",
        ],
    ),
    (
        // What is left stays where it is, however short.
        "removes values of any length",
        &[
            "
        new 128
        put 1 2000*a
        put 3 2000*c
        put 2 4000*b
        put 4 240*d
        leaves -> 1 1 2
        remove 3
        leaves -> 1 1 1
        list -> 1=2000*a 2=4000*b 4=240*d
        remove 2
        leaves -> 1 1
        root -> 44.1.1
        free -> 83
        remove 1
        root -> 42.0.4
        list -> 4=240*d
        remove 4
        root -> none
        let go
        free -> 94",
        ],
    ),
];

#[test]
fn drops_blocks_as_records_go(rt: HostRuntime) {
    plays_rows(&rt, &ROWS);
}
