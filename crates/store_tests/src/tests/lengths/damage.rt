//! Leaves that no store wrote.
use crate::tests::script::{ALONE, CACHED, NEW, Row, Rows, each, each_of};

const THREE_VALUES: &str = "
    put top 7:1 61*300
    put top 7:3 ''
    put top 8:2 duct
    commit
    close
    block 34 -> 0:4C454633 8:03 16:07 18:01 26:2C0107 30:03 38:2C0108 42:02 50:3001 52:61*300 \
        352:64756374";

const DAMAGED: &str = "open -> error 18 Damaged 34";

/// The leaf is block 34. Its entries are at 16, 28 and 40, and its values at 52, 352 and 352.
const EACH_PART: Rows = (
    "leaf is tested in each part",
    &[NEW, THREE_VALUES, "?", "?"],
    &[
        &["anew", "open"],
        &["set 34 52:41", "open"],
        &["set 34 0:4D", DAMAGED],
        &["set 34 4:01", DAMAGED],
        &["set 34 8:02", DAMAGED],
        &["set 34 8:04", DAMAGED],
        &["set 34 8:00", DAMAGED],
        &["set 34 8:5501", DAMAGED],
        &["set 34 12:01", DAMAGED],
        // Keys that fall, and one that is there twice.
        &["set 34 16:09", DAMAGED],
        &["set 34 30:01", DAMAGED],
        &["set 34 40:06", DAMAGED],
        // Ends that fall, and a last one that is too low or too high.
        &["set 34 26:2D", DAMAGED],
        &["set 34 38:2B", DAMAGED],
        &["set 34 50:2F", DAMAGED],
        &["set 34 50:CD0F", DAMAGED],
        &["set 34 356:01", DAMAGED],
        &["set 34 4095:01", DAMAGED],
        // The second value has four bytes then, and the last one none; or the first one has less.
        &["set 34 38:30", "open"],
        &["set 34 26:01", "open"],
        &["set 34 26:00", "open"],
    ],
);

const TWO_LEAVES: &str = "
    put top 7:1 61*2000
    put top 7:5 62*2000
    put top 7:3 63*2000
    new a top
    commit
    close
    block 36 -> 0:4E4F444501 8:02 16:07 18:01 26:22 30:07 32:03 40:23";

/// The leaves of `top` are 34 and 35 under the root 36, and `a` shares them. What was met before is
/// not read again, but its keys are compared all the same. Only the whole opening reads a leaf under
/// an inner block.
const MET_BEFORE: Rows = (
    "leaves that were met before are compared all the same",
    &[NEW, TWO_LEAVES, "?", "?"],
    &[
        &["anew", "open"],
        // The current root of `a`.
        &["set 18 323:23", "open"],
        &["set 18 323:22", "open"],
        &["set 18 323:25", "open -> error 18 Damaged 37"],
        &["set 18 323:27", "open -> error 18 Damaged 39"],
        &["set 18 323:40", "open -> error 18 Damaged 64"],
        // A child twice, and one under another key.
        &["set 36 40:22", "open whole -> error 18 Damaged 34"],
        &["set 36 32:02", "open whole -> error 18 Damaged 35"],
        &["set 36 40:22", "open"],
        &["set 36 32:02", "open"],
    ],
);

const ON_BOTH: &[Row] = &[
    // The first value ends after 200 bytes, and the second has the hundred bytes then.
    (
        "values are as the entries say",
        NEW,
        "
        put top 7:1 61*300
        put top 7:3 ''
        commit
        close
        set 34 26:C800
        open
        list top -> 7:1=61*200 7:3=61*100
        free -> 29
        put top 7:3 duct
        list top -> 7:1=61*200 7:3=duct",
    ),
    // A damaged leaf is reported when it is read.
    (
        "a value that is too long is damage",
        NEW,
        "
        put top 7:1 61*4000
        commit
        close
        set 34 26:A1
        open -> error 18 Damaged 34
        set 34 26:9F
        open -> error 18 Damaged 34
        set 34 26:A0
        open
        get top 7:1 -> 61*4000",
    ),
    // An opening reads no leaf under an inner block: what is wrong there is reported when it is
    // read, and nothing else is lost.
    (
        "a leaf that is damaged is told by who reads it",
        NEW,
        "
        put top 7:1 61*2000
        put top 7:5 62*2000
        put top 7:3 63*2000
        commit
        close
        set 35 12:01
        open whole -> error 18 Damaged 35
        open
        free -> 27
        get top 7:1 -> 61*2000
        get top 7:5 -> error 18 Damaged 35
        list top -> error 18 Damaged 35
        put top 7:5 duct -> error 18 Damaged 35
        put top 7:1 duct
        get top 7:1 -> duct
        commit
        close
        set 35 12:00
        open whole
        get top 7:5 -> 62*2000
        get top 7:1 -> duct",
    ),
];

#[test]
fn leaf_is_tested_in_each_part(rt: HostRuntime) {
    each_of(&rt, ALONE, &EACH_PART);
    each_of(&rt, ALONE, &MET_BEFORE);
    each(&rt, CACHED, ON_BOTH);
}
