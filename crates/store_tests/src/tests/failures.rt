//! A device that fails at one call: what is answered then, and what goes on.
use super::records::TWO_RECORDS;
use super::script::{ALONE, CACHED, DUCT, Row, Rows, each, each_of};
use super::settlements::{CONFLICT, EACH_ADDED};

/// Opening the store of `duct` makes five device calls: a sync, and four reads.
const ON_BOTH: &[Row] = &[
    (
        "get goes on after a failed read",
        DUCT,
        "
        once 5
        open
        get top 7:1 -> error 15 Device
        get top 7:1 -> duct",
    ),
    (
        "store fails after a failed write",
        DUCT,
        "
        once 6
        open
        put top 7:1 pipe -> error 15 Device
        put top 7:1 pipe -> error 17 Failed
        commit -> error 17 Failed
        get top 7:1 -> error 17 Failed
        close
        calls -> 7
        anew
        open
        get top 7:1 -> duct",
    ),
];

const IN_MEMORY: &[Row] = &[
    (
        "list goes on after a failed read",
        DUCT,
        "
        once 5
        open
        list top -> error 15 Device
        list top -> 7:1=duct
        close
        calls -> 7",
    ),
    // The write of the first Put fails.
    (
        "failed store lists no records",
        DUCT,
        "
        once 6
        open
        put top 7:1 pipe -> error 15 Device
        list top -> error 17 Failed
        close
        calls -> 7",
    ),
    (
        "failed store lists no names",
        DUCT,
        "
        once 6
        open
        put top 7:1 pipe -> error 15 Device
        alts -> error 17 Failed
        checks top -> error 17 Failed
        new a top -> error 17 Failed",
    ),
    (
        "failed store has no count",
        DUCT,
        "
        once 6
        open
        reclaim
        put top 7:1 pipe -> error 15 Device
        free -> error 17 Failed
        blocks -> error 17 Failed
        reclaim -> error 17 Failed
        close
        calls -> 7",
    ),
];

const CONFLICTS: &str = "
    open
    conflicts a -> error 15 Device
    conflicts a -> 1:1=x/z/y
    close";

const CHANGES: &str = "
    open
    changes a -> error 15 Device
    changes a -> 1:1=x/y
    close";

/// `changes` reads two blocks, and `conflicts` four.
const DIFFERENCES: Rows = (
    "differences go on after a failed read",
    &[CONFLICT, "?", "?", "?"],
    &[
        &["once 7", CONFLICTS, "calls -> 12"],
        &["once 8", CONFLICTS, "calls -> 13"],
        &["once 9", CONFLICTS, "calls -> 14"],
        &["once 10", CONFLICTS, "calls -> 15"],
        &["once 7", CHANGES, "calls -> 10"],
        &["once 8", CHANGES, "calls -> 11"],
    ],
);

const REMOVED: &str = "
    open
    remove top 7:2 -> error 15 Device
    remove top 7:2 -> error 17 Failed
    close
    anew
    open
    get top 7:2 -> x";

const REMOVES: Rows = (
    "store fails after a failed remove",
    &[TWO_RECORDS, "?", REMOVED],
    &[&["once 5"], &["once 6"], &["once 7"]],
);

const MERGED: &str = "
    open
    merge a -> error 15 Device
    merge a -> error 17 Failed
    post a -> error 17 Failed
    changes a -> error 17 Failed
    conflicts a -> error 17 Failed
    close";

const MERGED_AGAIN: &str = "
    anew
    open
    list a -> 1:1=x 1:3=y
    merge a -> ok 1";

/// Opening this store makes seven device calls. The Merge reads the blocks of the base and the
/// parent, those of the base and the alternative, and the parent's once more, and writes one.
const MERGES: Rows = (
    "store fails after a failed merge",
    &[EACH_ADDED, "?", MERGED, "?", MERGED_AGAIN],
    &[
        &["once 7", "calls -> 8"],
        &["once 8", "calls -> 9"],
        &["once 9", "calls -> 10"],
        &["once 10", "calls -> 11"],
        &["once 11", "calls -> 12"],
        &["once 12", "calls -> 13"],
    ],
);

/// The parent has the records of the base in another block.
const BACK_AT_THE_BASE: &str = "
    format 64
    open
    put top 1:1 x
    new a top
    put top 1:1 x
    commit
    close";

const POSTED: &str = "
    open
    post a -> error 15 Device
    post a -> error 17 Failed
    close";

const POSTED_AGAIN: &str = "
    anew
    open
    post a";

/// Opening makes six device calls, and the Post reads both blocks.
const POSTS: Rows = (
    "store fails after a failed post",
    &[BACK_AT_THE_BASE, "?", POSTED, "?", POSTED_AGAIN],
    &[&["once 6", "calls -> 7"], &["once 7", "calls -> 8"]],
);

#[test]
fn store_goes_on_after_a_failed_read_and_fails_after_a_failed_write(rt: HostRuntime) {
    each(&rt, CACHED, ON_BOTH);
    each(&rt, ALONE, IN_MEMORY);
    each_of(&rt, ALONE, &DIFFERENCES);
    each_of(&rt, ALONE, &REMOVES);
    each_of(&rt, ALONE, &MERGES);
    each_of(&rt, ALONE, &POSTS);
}
