//! How many blocks are read and written for values of any length.
use crate::tests::script::{ALONE, NEW, Row, Rows, each, each_of};

/// A great value and a short one in one leaf, which two alternatives share. Opening makes six
/// device calls: a sync, one read each of the header, the selector and the slot, and one of the leaf
/// for each alternative.
const GREAT_AND_SHORT: &str = "
    format 64
    open
    put top 7:1 61*3000
    put top 7:2 duct
    new spur top
    commit
    close
    anew";

/// A value of any length is read with its leaf. A Remove reads the leaf twice if it begins a
/// series. A Put that makes two leaves writes these and the root, and one that makes three writes
/// one more. What both alternatives share is not read to compare them.
const READ_ONCE: Rows = (
    "leaf is read once whatever the lengths of its values",
    &[GREAT_AND_SHORT, "open", "?", "?", "close", "?"],
    &[
        &["", "", "calls -> 6"],
        &["get top 7:1 -> 61*3000", "", "calls -> 7"],
        &["look top 7:1 -> 61*3000", "", "calls -> 7"],
        &["get top 7:2 -> duct", "", "calls -> 7"],
        &["get top 7:3 -> ~", "", "calls -> 7"],
        &["list top -> 7:1=61*3000 7:2=duct", "", "calls -> 7"],
        &["put top 7:2 pipe", "", "calls -> 8"],
        &["put top 7:1 62*4000", "", "calls -> 8"],
        &["put top 7:1 ''", "", "calls -> 8"],
        &["put top 7:2 62*4000", "", "calls -> 10"],
        &["put top 7:0 62*4000", "", "calls -> 10"],
        &["put top 7:3 62*4000", "", "calls -> 10"],
        &["remove top 7:2", "", "calls -> 9"],
        &["remove top 7:1", "", "calls -> 9"],
        &["reclaim", "", "calls -> 6"],
        &["changes spur -> none", "", "calls -> 6"],
        &["conflicts spur -> none", "", "calls -> 6"],
        &["merge spur -> ok 0", "", "calls -> 6"],
        &["put top 7:2 pipe", "conflicts spur -> none", "calls -> 10"],
        &[
            "put top 7:1 61*3000",
            "conflicts spur -> none",
            "calls -> 10",
        ],
        &["put top 7:1 61*3000", "post spur", "calls -> 10"],
        &[
            "put top 7:3 62*4000",
            "conflicts spur -> none",
            "calls -> 14",
        ],
    ],
);

const IN_MEMORY: &[Row] = &[
    // Three leaves and a root. An opening makes four device calls, and reads the root to find the
    // tree and to mark its blocks. A marking reads the root alone.
    (
        "marking reads no leaf",
        NEW,
        "
        put top 1:1 61*1300
        put top 1:2 62*1300
        put top 1:3 63*1300
        put top 1:2 64*4000
        commit
        close
        anew
        open
        reclaim
        free -> 26
        close
        calls -> 7",
    ),
    // The Put reads the only leaf, and writes three leaves and the root.
    (
        "put that makes three leaves writes four blocks",
        NEW,
        "
        put top 1:1 61*1300
        put top 1:2 62*1300
        put top 1:3 63*1300
        commit
        close
        anew
        open
        put top 1:2 64*4000
        close
        calls -> 10
        dirty -> 35 36 37 38",
    ),
];

#[test]
fn leaf_is_read_once_whatever_the_lengths_of_its_values(rt: HostRuntime) {
    each_of(&rt, ALONE, &READ_ONCE);
    each(&rt, ALONE, IN_MEMORY);
}
