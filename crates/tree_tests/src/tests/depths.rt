//! Trees that have no room, by the length of the value that comes.
use super::script::{Row, plays_rows};

/// Leaves of two records in a tree of two levels, whose root has room for one more child.
const ONE_MORE: &str = "
    new 256
    sizes 3 2
    put 1 2000*a
    put 3 2000*c
    put 5 2000*e
    put 7 2000*g
    leaves -> 2 2
    sync";

const ROWS: [Row; 6] = [
    (
        // Leaves of three records of 1,312 bytes each, filled one after another.
        "fills its leaves by rising keys until there is no room",
        &[
            "
        new 256
        sizes 3 2
        puts 1 9 1300*v
        root -> 50.1.1
        leaves -> 3 3 3
        free -> 205
        sync
        put 10 1300*v -> error Deep
        put 0 1300*v -> error Deep
        put 10 v
        free -> 203
        put 11 120*v -> error Deep
        dirty -> 51 52
        put 11 119*v
        leaves -> 3 3 5
        remove 1
        put 0 1300*v
        leaves -> 3 3 5
        root -> 58.1.0",
        ],
    ),
    (
        "splits leaves until there is no room",
        &[
            "
        new 256
        sizes 3 2
        falls 7 4 1300*v
        leaves -> 2 2
        put 3 1300*v
        leaves -> 3 2
        put 2 1300*v
        leaves -> 2 2 2
        put 1 1300*v
        leaves -> 3 2 2
        free -> 209
        put 8 1300*v
        put 0 1300*v -> error Deep
        free -> 207",
        ],
    ),
    (
        "has room for two leaves, but not for three",
        &[
            ONE_MORE,
            "
        free -> 215
        # Three leaves in the place of one.
        put 2 4000*b -> error Deep
        put 6 4000*f -> error Deep
        put 6 2057*f -> error Deep
        free -> 215
        dirty -> none
        # Two: the second leaf has the record and the last one.
        put 6 2056*f
        leaves -> 2 1 2
        list -> 1=2000*a 3=2000*c 5=2000*e 6=2056*f 7=2000*g
        # And now none at all.
        put 2 57*b -> error Deep
        put 8 v -> error Deep
        put 9 4000*h -> error Deep",
        ],
    ),
    (
        "has room for a value that does not grow",
        &[
            ONE_MORE,
            "
        put 8 v
        leaves -> 2 3
        put 9 4000*i
        leaves -> 2 3 1
        sync
        put 1 2057*x -> error Deep
        put 1 2056*x
        put 3 2001*x -> error Deep
        put 3 2000*y
        put 1 2001*x
        put 1 0*x
        put 3 4000*y
        put 1 57*x -> error Deep
        put 1 56*x
        put 9 4000*z
        put 10 56*z
        list -> 1=56*x 3=4000*y 5=2000*e 7=2000*g 8=v 9=4000*z 10=56*z
        leaves -> 2 3 2",
        ],
    ),
    (
        "has room for one leaf alone where it has one level",
        &[
            "
        new 128
        sizes 3 1
        put 1 4000*a
        put 2 57*b -> error Deep
        put 0 57*b -> error Deep
        put 2 56*b
        root -> 35.0.1
        put 3 '' -> error Deep
        put 1 3988*a
        put 3 ''
        put 1 3989*a -> error Deep
        list -> 1=3988*a 2=56*b 3=
        free -> 90",
        ],
    ),
    (
        // 2,056 bytes in the place of 2,000 are no more than there is room for.
        "has room for any value in a leaf with room",
        &[
            "
        new 128
        sizes 3 1
        put 1 2000*a
        put 2 2000*b
        put 1 2056*a
        put 1 2057*a -> error Deep
        put 2 2001*b -> error Deep
        put 2 ''
        put 1 4000*a
        put 2 56*b
        put 2 57*b -> error Deep
        list -> 1=4000*a 2=56*b",
        ],
    ),
];

#[test]
fn answers_deep_where_there_is_no_room(rt: HostRuntime) {
    plays_rows(&rt, &ROWS);
}
