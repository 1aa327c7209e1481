//! Where leaves and inner blocks split, which blocks a put takes, and where there is no room.
use super::script::{FOREIGN, Row, SEVENTEEN, plays_rows};

const ROWS: [Row; 6] = [
    (
        // 17 records of 252 bytes: after 8 or 9 of them the larger half has 9.
        "splits a full leaf as evenly as can be",
        &[
            SEVENTEEN,
            "
        root -> 37.1.1
        free -> 25
        bytes 37 -> 0:4E4F444501 8:02 16:01 18:01 26:23 30:01 32:09 40:24
        count 35 -> 8
        count 36 -> 9",
        ],
    ),
    (
        // The sixteen records take blocks 34 to 49.
        "leaves a full leaf whole where the record is behind all others",
        &[
            "
        new 128
        puts 1 16 240*v
        root -> 49.0.1
        free -> 78
        put 17 240*v
        root -> 52.1.1
        free -> 75
        node 1 52 -> 1:50 17:51
        count 50 -> 16
        leaf 51 -> 17=240*v
        put 18 240*v
        free -> 73
        count 53 -> 2",
        ],
    ),
    (
        // Of 257 children the left block gets 129. The left one of each pair was written first.
        "splits a full inner block in 129 and 128",
        &[
            FOREIGN,
            "
        write fan 35 256
        put 1 240*w
        free -> 23
        root -> 40.2.0
        count 36 -> 8
        count 37 -> 9
        count 38 -> 129
        count 39 -> 128
        count 40 -> 2
        child 38 0 -> 0:36
        child 38 1 -> 14:37
        child 38 2 -> 32:34
        child 38 128 -> 4064:34
        child 39 0 -> 4096:34
        child 39 127 -> 8160:34
        child 40 0 -> 0:38
        child 40 1 -> 4096:39",
        ],
    ),
    (
        // The leaf becomes three.
        "splits a full inner block of two children more in 129 and 129",
        &[
            FOREIGN,
            "
        write fan 35 256
        put 15 4000*w
        free -> 22
        root -> 41.2.0
        count 36 -> 8
        leaf 37 -> 15=4000*w
        count 38 -> 8
        count 39 -> 129
        count 40 -> 129
        child 39 0 -> 0:36
        child 39 1 -> 15:37
        child 39 2 -> 16:38
        child 39 128 -> 4032:34
        child 40 0 -> 4064:34
        child 40 128 -> 8160:34
        node 2 41 -> 0:39 4064:40",
        ],
    ),
    (
        // And one of 255 children, in 129 and 128.
        "splits an inner block that has room for one child but not for two",
        &[
            FOREIGN,
            "
        write fan 35 255
        put 15 4000*w
        free -> 22
        root -> 41.2.0
        count 39 -> 129
        count 40 -> 128
        count 41 -> 2",
        ],
    ),
    (
        "copies a root of one child",
        &[
            FOREIGN,
            "
        write fan 35 1
        put 2 w
        free -> 26
        root -> 37.1.0
        count 37 -> 1
        child 37 0 -> 0:36
        count 36 -> 16
        get 2 -> w",
        ],
    ),
];

#[test]
fn splits_full_leaves_and_inner_blocks(rt: HostRuntime) {
    plays_rows(&rt, &ROWS);
}
