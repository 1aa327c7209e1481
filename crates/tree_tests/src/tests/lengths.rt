//! Values of any length: the leaves that they are in, and the blocks that a put takes.
use super::script::{Row, plays_rows};

const ROWS: [Row; 9] = [
    (
        "puts values of each length into one leaf",
        &[
            "
        new 128
        put 1 ''
        put 2 b
        put 3 240*c
        put 4 241*d
        put 5 3500*e
        root -> 38.0.1
        free -> 89
        get 1 -> none
        get 2 -> b
        get 3 -> 240*c
        get 4 -> 241*d
        get 5 -> 3500*e
        get 6 -> ~
        has 1 -> yes
        has 5 -> yes
        has 6 -> no
        list -> 1= 2=b 3=240*c 4=241*d 5=3500*e
        calls -> 19",
        ],
    ),
    (
        // An entry for each value, which says where it ends among them.
        "spells where each value ends",
        &[
            "
        new 128
        put 7 duct
        bytes 34 -> 0:4C454633 8:01 16:01 18:07 26:04 28:64756374
        put 9 ''
        put 8 xyz
        bytes 36 -> 0:4C454633 8:03 16:01 18:07 26:04 28:01 30:08 38:07 40:01 42:09 50:07 52:6475637478797A
        put 8 ''
        bytes 37 -> 0:4C454633 8:03 16:01 18:07 26:04 28:01 30:08 38:04 40:01 42:09 50:04 52:64756374
        put 7 pipeline
        bytes 38 -> 0:4C454633 8:03 16:01 18:07 26:08 28:01 30:08 38:08 40:01 42:09 50:08 52:706970656C696E65
        remove 8
        bytes 39 -> 0:4C454633 8:02 16:01 18:07 26:08 28:01 30:09 38:08 40:706970656C696E65",
        ],
    ),
    (
        // The leaf, or two and the root above them, or three and the root.
        "takes a block for each leaf that is written",
        &[
            "
        new 128
        put 1 2000*a
        put 3 2000*c
        free -> 92
        put 2 4000*b
        free -> 88
        root -> 39.1.1
        node 1 39 -> 1:36 2:37 3:38
        leaf 36 -> 1=2000*a
        leaf 37 -> 2=4000*b
        leaf 38 -> 3=2000*c
        put 4 2057*d
        free -> 85
        root -> 42.1.1
        leaves -> 1 1 1 1
        list -> 1=2000*a 2=4000*b 3=2000*c 4=2057*d",
        ],
    ),
    (
        "grows a value at its key until its leaf splits",
        &[
            "
        new 128
        put 1 1000*a
        put 2 1000*b
        put 3 1000*c
        put 2 2044*b
        root -> 37.0.1
        free -> 90
        put 2 2045*b
        root -> 40.1.1
        free -> 87
        leaves -> 1 2
        leaf 38 -> 1=1000*a
        leaf 39 -> 2=2045*b 3=1000*c
        put 2 4000*b
        root -> 43.1.1
        leaves -> 1 1 1
        free -> 84
        list -> 1=1000*a 2=4000*b 3=1000*c",
        ],
    ),
    (
        "splits a leaf in three at a value that grows",
        &[
            "
        new 128
        put 1 1300*a
        put 2 1300*b
        put 3 1300*c
        put 2 4000*b
        leaves -> 1 1 1
        root -> 40.1.1
        free -> 87
        node 1 40 -> 1:37 2:38 3:39
        put 2 b
        leaves -> 1 1 1
        free -> 85
        remove 2
        leaves -> 1 1
        root -> 43.1.1
        list -> 1=1300*a 3=1300*c",
        ],
    ),
    (
        // The last record is there, and so the new one is not after all others.
        "splits evenly at the last key that grows",
        &[
            "
        new 128
        puts 1 16 240*v
        put 16 300*w
        leaves -> 8 8
        root -> 52.1.1
        get 16 -> 300*w
        get 15 -> 240*v",
        ],
    ),
    (
        "stands alone behind all others, and its leaf has room then",
        &[
            "
        new 128
        put 1 4000*a
        put 2 57*b
        leaves -> 1 1
        root -> 37.1.1
        put 3 4000*c
        leaves -> 1 1 1
        put 4 56*d
        leaves -> 1 1 2
        put 0 ''
        leaves -> 2 1 2
        put 5 240*e
        leaves -> 2 1 2 1
        list -> 0= 1=4000*a 2=57*b 3=4000*c 4=56*d 5=240*e",
        ],
    ),
    (
        // 340 entries of twelve bytes each are all that a leaf has room for.
        "puts 340 empty values into one leaf",
        &[
            "
        new 1024
        puts 1 340 ''
        level -> 0
        put 341 ''
        level -> 1
        leaves -> 340 1
        put 170 v
        leaves -> 170 170 1
        get 170 -> v",
        ],
    ),
    (
        // Nineteen records of 212 bytes fill a leaf: of 400 the last one has one.
        "fills leaves whole by rising keys",
        &[
            "
        new 2048
        puts 1 400 200*v
        level -> 1
        leaves -> 19 19 19 19 19 19 19 19 19 19 19 19 19 19 19 19 19 19 19 19 19 1
        let go
        free -> 1991",
        ],
    ),
];

#[test]
fn values_of_any_length_are_put_and_read(rt: HostRuntime) {
    plays_rows(&rt, &ROWS);
}
