//! What an opening refuses, and slots with several entries as an opening finds them.
use super::script::{ALONE, CACHED, DUCT, Row, Rows, each, each_of};

const ON_BOTH: &[Row] = &[
    // Block 34 is a node of level one, and its child is itself.
    (
        "root that is no leaf is damage",
        DUCT,
        "
        zero 34
        set 34 0:4E4F444501 8:01 16:01 18:01 26:22
        open whole -> error 18 Damaged 34
        open
        list top -> error 18 Damaged 34",
    ),
    (
        "root past the end is damage",
        DUCT,
        "
        set 18 195:40
        open -> error 18 Damaged 64",
    ),
    (
        "disk cut short is no store",
        DUCT,
        "
        cut 21
        open -> error 19 NotAStore",
    ),
    ("blank disk is no store", "", "open -> error 19 NotAStore"),
    (
        "store of an earlier format is none",
        DUCT,
        "
        set 0 8:01
        open -> error 19 NotAStore
        set 0 8:02
        open -> error 19 NotAStore
        set 0 8:04
        open -> error 19 NotAStore
        set 0 8:03
        open
        get top 7:1 -> duct",
    ),
    (
        "slot of an earlier format is damage",
        DUCT,
        "
        set 18 4:01
        open -> error 18 Damaged 18
        set 18 4:02
        open -> error 18 Damaged 18
        set 18 4:04
        open -> error 18 Damaged 18
        set 18 4:03
        open
        get top 7:1 -> duct",
    ),
    (
        "leaf of an earlier form is damage",
        DUCT,
        "
        set 34 0:4C454146
        open -> error 18 Damaged 34
        set 34 0:4C454632
        open -> error 18 Damaged 34
        set 34 0:4C4F4E47
        open -> error 18 Damaged 34
        set 34 0:4C454633
        open
        get top 7:1 -> duct",
    ),
];

const IN_MEMORY: &[Row] = &[
    (
        "slot of zeros is damage",
        "",
        "
        format 64
        zero 2
        open -> error 18 Damaged 2",
    ),
    (
        "store larger than its disk is refused",
        DUCT,
        "
        set 18 8:41
        open -> error 21 BadSize",
    ),
    (
        "slot of several entries is opened",
        DUCT,
        "
        set 18 12:03 256:410161 290:03746F70 323:22 327:22 384:430163 418:0161 451:22
        open
        get top 7:1 -> duct
        get a 7:1 -> duct
        get c 7:1 -> error 1 NoSuchAlternative",
    ),
    (
        "slot with a name twice is damage",
        DUCT,
        "
        set 18 12:03 256:410161 290:03746F70 323:22 327:22 384:410161 418:03746F70 451:22 455:22
        open -> error 18 Damaged 18",
    ),
];

/// Slot B of the store of `duct` with the alternative `a` under `top` at byte 256, and its checkpoint
/// `c` at byte 384. Each has its current root at byte 67, and its base at byte 71. Blocks 35 to 38
/// are not leaves. Roots are tested entry by entry, the current one before the base.
const ROOTS: Rows = (
    "first root without a map is named",
    &[DUCT, "?", "?"],
    &[
        &[
            "set 18 12:03 256:410161 290:03746F70 323:23 327:24 384:430163 418:0161 451:25 455:26",
            "open -> error 18 Damaged 35",
        ],
        &[
            "set 18 12:03 256:410161 290:03746F70 323:22 327:24 384:430163 418:0161 451:25 455:26",
            "open -> error 18 Damaged 36",
        ],
        &[
            "set 18 12:03 256:410161 290:03746F70 323:22 384:430163 418:0161 451:25 455:24",
            "open -> error 18 Damaged 37",
        ],
        &[
            "set 18 12:03 256:410161 290:03746F70 327:22 384:430163 418:0161 455:26",
            "open -> error 18 Damaged 38",
        ],
        &[
            "set 18 12:03 256:410161 290:03746F70 323:22 327:22 384:430163 418:0161 451:40 455:23",
            "open -> error 18 Damaged 64",
        ],
    ],
);

#[test]
fn opening_refuses_what_is_no_whole_store(rt: HostRuntime) {
    each(&rt, CACHED, ON_BOTH);
    each(&rt, ALONE, IN_MEMORY);
    each_of(&rt, ALONE, &ROOTS);
}
